//! The writer of mailboxes.
ghost use Rattle.std.specs.Prelude.{◌≡◌, ◌∷◌, ◌++◌, [], true, Some, OnOk};
ghost use Rattle.encoded_words.specs.Folding.{lines_of, AddsLines};
ghost use Rattle.field_tokens.specs.Lexemes.{values_of};
ghost use Rattle.address_grammar.specs.Addresses.{address_text};
ghost use Rattle.address_grammar.specs.Found.{IsFoundMailbox};
ghost use Rattle.address_grammar.specs.Paths.{in_angles};
ghost use Rattle.address_grammar.specs.Phrases.{IsPhrase};
ghost use Rattle.address_lists.specs.ListPieces.{served_address, MailboxPieces};
ghost use Rattle.address_lists.specs.private.ListWriting.{CanBeWritten, NamedPieces};

use crate::emptied::write_not_served;
use crate::serving::{is_ascii_address, served};
use crate::writing::{push_core, split_core};
use address_grammar::{Address, FoundMailbox, push_address, split_at_mark};
use encoded_words::push_line;
use field_tokens::{Lexemes, write_comments};
use mail_wire::{Memory, Octets};
use std::alloc::Global;

fn push_bare(address: &Address, made: &mut Octets) -> Result<(), Memory>
    ensures { OnOk result (made.new ≡ made.old ++ lines_of (address_text address.now ∷ [])) }
{
    push_line(made, b"")?;
    push_address(made, address)
}

// Puts an address in angle brackets last.
pub(crate) fn push_angled(address: &Address, made: &mut Octets) -> Result<(), Memory>
    ensures { OnOk result (made.new ≡ made.old ++ lines_of (in_angles (address_text address.now) ∷ [])) }
{
    made.push_slice(b"\r\n <")?;
    push_address(made, address)?;
    made.push(b'>')
}

// Puts the pieces of a phrase last, an address in angle brackets, and the other comments.
fn write_named(
    alloc: Global,
    before: Lexemes<'_, '_>,
    following: Lexemes<'_, '_>,
    address: &Address,
    made: &mut Octets,
) -> Result<(), Memory>
    requires phrase { IsPhrase (values_of before) }
    requires before { CanBeWritten (values_of before) }
    requires following { CanBeWritten (values_of following) }
    ensures { OnOk result (AddsLines (NamedPieces (values_of before.entry) (values_of following.entry) (address_text address.now)) made.old made.new) }
{
    let (core, trail) = split_core(before);
    push_core(alloc, core, made)?;
    push_angled(address, made)?;
    write_comments(alloc, trail, made)?;
    write_comments(alloc, following, made)
}

// Puts the pieces of a mailbox in angle brackets last.
fn write_angled(
    alloc: Global,
    lexemes: Lexemes<'_, '_>,
    mailbox: &FoundMailbox,
    address: &Address,
    made: &mut Octets,
) -> Result<(), Memory>
    requires writable { CanBeWritten (values_of lexemes) }
    requires mailbox { IsFoundMailbox (values_of lexemes) mailbox.now }
    requires angle { mailbox.now.angle ≡ true }
    requires served { served_address mailbox.now.address ≡ Some address.now }
    ensures { OnOk result (AddsLines (MailboxPieces (values_of lexemes.entry)) made.old made.new) }
{
    let Some((before, following)) = split_at_mark(lexemes, b'<') else {
        unreachable!();
    };
    if mailbox.phrase {
        return write_named(alloc, before, following, address, made);
    }
    push_angled(address, made)?;
    write_comments(alloc, lexemes, made)
}

// Puts the pieces of a mailbox last that is served so.
fn write_served(
    alloc: Global,
    lexemes: Lexemes<'_, '_>,
    mailbox: &FoundMailbox,
    address: &Address,
    made: &mut Octets,
) -> Result<(), Memory>
    requires writable { CanBeWritten (values_of lexemes) }
    requires mailbox { IsFoundMailbox (values_of lexemes) mailbox.now }
    requires served { served_address mailbox.now.address ≡ Some address.now }
    ensures { OnOk result (AddsLines (MailboxPieces (values_of lexemes.entry)) made.old made.new) }
{
    if mailbox.angle {
        return write_angled(alloc, lexemes, mailbox, address, made);
    }
    push_bare(address, made)?;
    write_comments(alloc, lexemes, made)
}

/// Puts the pieces of a mailbox last.
pub fn write_mailbox(
    alloc: Global,
    lexemes: Lexemes<'_, '_>,
    mailbox: &FoundMailbox,
    made: &mut Octets,
) -> Result<(), Memory>
    requires writable { CanBeWritten (values_of lexemes) }
    requires mailbox { IsFoundMailbox (values_of lexemes) mailbox.now }
    ensures { OnOk result (AddsLines (MailboxPieces (values_of lexemes.entry)) made.old made.new) }
{
    if is_ascii_address(&mailbox.address) {
        return write_served(alloc, lexemes, mailbox, &mailbox.address, made);
    }
    let Some(address) = served(alloc, &mailbox.address)? else {
        return write_not_served(alloc, lexemes, mailbox, made);
    };
    write_served(alloc, lexemes, mailbox, &address, made)
}
