//! The rewriting of paths.
ghost use Rattle.std.specs.Prelude.{◌≡◌, ℕ, true, false, List, IfOk, IfSome, IfNone, OnOk};
ghost use Rattle.encoded_words.specs.Folding.{AddsLines};
ghost use Rattle.address_grammar.specs.private.Lexemes.{HasMailTokens};
ghost use Rattle.address_lists.specs.PathPieces.{PathPieces, ServesPath, HasSomeTokens};
ghost use Rattle.field_tokens.specs.Lexemes.{lexemes_in};
ghost use Rattle.address_grammar.specs.declared.Address.{Address};

use crate::serving::served;
use crate::written_mailboxes::push_angled;
use address_grammar::{Address, AddressFault, mail_marks, read_path};
use field_tokens::{Lexemes, Mark, write_comments};
use mail_wire::{Memory, Octets};
use std::alloc::Global;

// The address of a path, as it is served.
fn served_path(alloc: Global, text: &[u8]) -> Result<Option<Address>, Memory>
    ensures some { IfOk result (λ o. IfSome o (ServesPath text.now)) }
    ensures none { IfOk result (λ o. IfNone o ((served : Address) → ¬ ServesPath text.now served)) }
{
    match read_path(alloc, text) {
        Ok(Some(address)) => served(alloc, &address),
        Ok(None) => Ok(None),
        Err(AddressFault::Malformed) => Ok(None),
        Err(AddressFault::Memory) => Err(Memory),
    }
}

// The marks of a text that is known to have tokens.
fn known_marks(alloc: Global, text: &[u8]) -> Result<Vec<Mark>, Memory>
    requires { HasSomeTokens text.now }
    ensures { IfOk result (λ marks. HasMailTokens text.now (lexemes_in text.now marks.items)) }
{
    match mail_marks(alloc, text) {
        Ok(marks) => Ok(marks),
        Err(AddressFault::Malformed) => unreachable!(),
        Err(AddressFault::Memory) => Err(Memory),
    }
}

// Puts the pieces of a path last whose address is served so.
fn write_path(alloc: Global, text: &[u8], served: &Address, made: &mut Octets) -> Result<(), Memory>
    requires { ServesPath text.now served.now }
    ensures { OnOk result (AddsLines (PathPieces text.now) made.old made.new) }
{
    let marks = known_marks(alloc, text)?;
    push_angled(served, made)?;
    write_comments(alloc, Lexemes::new(text, &marks), made)
}

/// Puts the pieces of a path last, each on a line of its own, and answers whether there are some: the null path has none, nor
/// has one whose address can't be served. After want of memory a front of these lines may have been put.
pub fn rewrite_path(alloc: Global, text: &[u8], made: &mut Octets) -> Result<bool, Memory>
    ensures some { IfOk result (λ is. is ≡ true → AddsLines (PathPieces text.now) made.old made.new) }
    ensures none { IfOk result (λ is. is ≡ false → (pieces : List (List ℕ)) → ¬ PathPieces text.now pieces) }
    ensures unchanged { IfOk result (λ is. is ≡ false → made.new ≡ made.old) }
{
    let Some(address) = served_path(alloc, text)? else {
        return Ok(false);
    };
    write_path(alloc, text, &address, made)?;
    Ok(true)
}
