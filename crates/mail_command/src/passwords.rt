//! The command that takes the password of an account from the input.
ghost use Rattle.std.specs.Prelude.{◌≡◌, ◌≢◌, ◌⊎◌, ◌∷◌, ◌++◌, ◌↔◌, [], List, ℕ, Err, IfOk, IfSome, IsTrue, OnErr, not};
ghost use Rattle.encoded_words.specs.private.Parts.{lacks};
ghost use Rattle.address_grammar.specs.Addresses.{address_text};
ghost use Rattle.journal_records.specs.Addresses.{WithPaths, IsSendable};
ghost use Rattle.journal_records.specs.declared.records.Record.TheVariants as records;
ghost use Rattle.mail_store.specs.Changing.{account_refusal};
ghost use Rattle.mail_wire.specs.Moves.{HasWireCause};
ghost use Rattle.setup_command.specs.Running.{HasStatusCause};
ghost use Rattle.setup_command.specs.Statuses.{status_of};
ghost use Rattle.mail_command.specs.Passwords.{IsExactByInput, IsFirstLine, IsPassword, RunsByInput, TakesUpToLine};
ghost use Rattle.mail_command.specs.Taking.{TakesSome};

use crate::command::refuse_words;
use address_grammar::Address;
use encoded_words::split_at_byte;
use journal_records::TEXT_MAX;
use mail_wire::{Fault, Keeper, Octets, PIECE, Wire, take_piece};
use setup_command::run_account;
use std::alloc::Global;

// Whether a line ends in the octets.
fn has_line_end(octets: &[u8]) -> bool
    ensures { result ≡ not (lacks 10 octets.now) }
{
    split_at_byte(octets, b'\n').is_some()
}

/// Takes octets until a line ends in them, or they are more than `max`, by up to a piece, or nothing is left.
pub fn take_line<W: Wire>(alloc: Global, wire: &mut W, max: usize) -> Result<Octets, Fault>
    ensures taken { IfOk result (TakesUpToLine max (W.observed wire.old) (W.observed wire.new)) }
    ensures some { OnErr result (TakesSome max (W.observed wire.old) (W.observed wire.new)) }
    ensures cause { HasWireCause (W.observed wire.old) (W.observed wire.new) result Fault.Wire }
    ensures keeper { ¬ (result ≡ Err Fault.Keeper) }
{
    let mut taken = Octets::new(alloc);
    let mut piece = [0; PIECE];
    while taken.len() <= max {
        let count = take_piece(wire, &mut piece)?;
        if count == 0 {
            return Ok(taken);
        }
        taken.push_slice(&piece[..count])?;
        if has_line_end(&piece[..count]) {
            return Ok(taken);
        }
    }
    Ok(taken)
}

// The text without the CR that it ends with.
fn without_cr(text: &[u8]) -> &[u8]
    ensures { (text.now ≡ result.now ++ 13 ∷ []) ⊎ ((text.now ≡ result.now) × ((front : List ℕ) → text.now ≢ front ++ 13 ∷ [])) }
{
    text.strip_suffix(b"\r").unwrap_or(text)
}

// The first line, without its end.
fn first_line(octets: &[u8]) -> &[u8]
    ensures { IsFirstLine octets.now result.now }
{
    match split_at_byte(octets, b'\n') {
        Some((text, _)) => without_cr(text),
        None => octets,
    }
}

// Whether the line may be a password.
fn is_password(line: &[u8]) -> bool
    ensures { IsTrue result ↔ IsPassword line.now }
{
    !line.is_empty() && line.len() <= TEXT_MAX
}

/// Makes an account with this address and the first line of the input as its password. The journal is opened once the line was
/// taken; an empty line, and one that is too long, are refused as words of no command are.
pub fn run_account_by_input<W: Wire, J: Keeper>(
    alloc: Global,
    address: &Address,
    wire: &mut W,
    keeper: &mut J,
) -> Result<u8, Fault>
    requires { IsSendable address.now }
    ensures runs { WithPaths (λ path_of. RunsByInput (λ kept. account_refusal path_of kept address.now) (λ password. records.Account (address_text address.now) password)
        (J.observed keeper.old).octets (J.observed keeper.new).octets (W.observed wire.old) (W.observed wire.new) (status_of result)) }
    // What the store refuses is told, and nothing else; and a bad journal.
    ensures exact { WithPaths (λ path_of. IfSome (J.observed keeper.old).octets (λ octets. IsExactByInput (λ kept. account_refusal path_of kept address.now) octets (status_of result))) }
    ensures cause { HasStatusCause (W.observed wire.old) (W.observed wire.new) (J.observed keeper.old) (J.observed keeper.new) (status_of result) }
{
    let taken = take_line(alloc, wire, TEXT_MAX + 1)?;
    let password = first_line(taken.as_slice());
    if is_password(password) {
        run_account(alloc, address, password, wire, keeper)
    } else {
        refuse_words(wire)
    }
}
