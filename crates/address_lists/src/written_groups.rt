//! The writer of groups.
ghost use Rattle.std.specs.Prelude.{◌≡◌, true, OnOk};
ghost use Rattle.encoded_words.specs.Folding.{AddsLines};
ghost use Rattle.field_tokens.specs.Lexemes.{values_of};
ghost use Rattle.address_grammar.specs.AddressLists.{ElementValue, IsElement};
ghost use Rattle.address_grammar.specs.Found.{IsFoundMailbox};
ghost use Rattle.address_grammar.specs.private.ListSteps.{SplitsName};
ghost use Rattle.address_lists.specs.ListPieces.{InnerPieces, GroupPieces};
ghost use Rattle.address_lists.specs.private.ListWriting.{CanBeWritten, IsServedGroup, IsSomeMailbox, AreSomeMailboxes, AreSomeMembers, GivesMember, GivesMembers, GivesElement};

use crate::ascii_texts::{are_ascii, write_text};
use crate::emptied::write_not_kept;
use crate::members::{find_member, is_served_group};
use crate::writing::write_phrase;
use crate::written_mailboxes::write_mailbox;
use address_grammar::{AddressFault, FoundMailbox, are_blank, split_at_mark, split_place};
use encoded_words::push_line;
use field_tokens::{Lexemes, write_comments};
use mail_wire::{Memory, Octets};
use std::alloc::Global;

/// Puts the pieces of a mailbox last, or its text where that is ASCII.
pub fn write_single(
    alloc: Global,
    lexemes: Lexemes<'_, '_>,
    mailbox: &FoundMailbox,
    made: &mut Octets,
) -> Result<(), Memory>
    requires writable { CanBeWritten (values_of lexemes) }
    requires mailbox { IsFoundMailbox (values_of lexemes) mailbox.now }
    ensures { OnOk result (AddsLines (GivesMember (values_of lexemes.entry)) made.old made.new) }
{
    if are_ascii(lexemes) {
        return write_text(lexemes, made);
    }
    write_mailbox(alloc, lexemes, mailbox, made)
}

// Puts the pieces of a member last. One that is ASCII isn't read again.
fn write_member(alloc: Global, lexemes: Lexemes<'_, '_>, made: &mut Octets) -> Result<(), Memory>
    requires writable { CanBeWritten (values_of lexemes) }
    requires member { IsSomeMailbox (values_of lexemes) }
    ensures { OnOk result (AddsLines (GivesMember (values_of lexemes.entry)) made.old made.new) }
{
    if are_ascii(lexemes) {
        return write_text(lexemes, made);
    }
    let mailbox = find_member(alloc, lexemes)?;
    write_mailbox(alloc, lexemes, &mailbox, made)
}

// Puts the pieces of members last, with a comma after each but the last one.
fn write_members(alloc: Global, lexemes: Lexemes<'_, '_>, made: &mut Octets) -> Result<(), Memory>
    requires writable { CanBeWritten (values_of lexemes) }
    requires members { AreSomeMailboxes (values_of lexemes) }
    ensures { OnOk result (AddsLines (GivesMembers (values_of lexemes.entry)) made.old made.new) }
{
    let mut rest = lexemes;
    while let Some((member, following)) = split_place(rest) {
        write_member(alloc, member, made)?;
        made.push(b',')?;
        rest = following;
    }
    write_member(alloc, rest, made)
}

// Puts the pieces of what stands in a group last.
fn write_inner(alloc: Global, lexemes: Lexemes<'_, '_>, made: &mut Octets) -> Result<(), Memory>
    requires writable { CanBeWritten (values_of lexemes) }
    requires members { AreSomeMembers (values_of lexemes) }
    ensures { OnOk result (AddsLines (InnerPieces (values_of lexemes.entry)) made.old made.new) }
{
    if are_blank(lexemes) {
        return write_comments(alloc, lexemes, made);
    }
    write_members(alloc, lexemes, made)
}

// Puts the pieces of a group last that is kept.
fn write_kept(alloc: Global, lexemes: Lexemes<'_, '_>, made: &mut Octets) -> Result<(), Memory>
    requires writable { CanBeWritten (values_of lexemes) }
    requires group { IsServedGroup (values_of lexemes) true }
    ensures { OnOk result (AddsLines (GroupPieces (values_of lexemes.entry)) made.old made.new) }
{
    let Some((name, following)) = split_at_mark(lexemes, b':') else {
        unreachable!();
    };
    let Some((inner, after)) = split_at_mark(following, b';') else {
        unreachable!();
    };
    write_phrase(alloc, name, made)?;
    push_line(made, b":")?;
    write_inner(alloc, inner, made)?;
    push_line(made, b";")?;
    write_comments(alloc, after, made)
}

// Puts the pieces of a group last, or its text where that is ASCII.
fn write_known_group(
    alloc: Global,
    lexemes: Lexemes<'_, '_>,
    is_served: bool,
    made: &mut Octets,
) -> Result<(), Memory>
    requires writable { CanBeWritten (values_of lexemes) }
    requires group { IsServedGroup (values_of lexemes) is_served }
    ensures { OnOk result (AddsLines (GivesElement (values_of lexemes.entry)) made.old made.new) }
{
    if are_ascii(lexemes) {
        return write_text(lexemes, made);
    }
    if is_served {
        return write_kept(alloc, lexemes, made);
    }
    write_not_kept(alloc, lexemes, made)
}

/// Puts the pieces of the group of this name last, of what stands after its colon.
pub fn write_group(
    alloc: Global,
    lexemes: Lexemes<'_, '_>,
    name: Lexemes<'_, '_>,
    following: Lexemes<'_, '_>,
    made: &mut Octets,
) -> Result<(), AddressFault>
    requires writable { CanBeWritten (values_of lexemes) }
    requires splits { SplitsName (values_of lexemes) (values_of name) (values_of following) }
    ensures ok { OnOk result (AddsLines (GivesElement (values_of lexemes.entry)) made.old made.new) }
    ensures malformed { result ≡ Err AddressFault.Malformed → (e : ElementValue) → ¬ IsElement (values_of lexemes.entry) e }
    ensures unchanged { result ≡ Err AddressFault.Malformed → made.new ≡ made.old }
{
    let is_served = is_served_group(alloc, name, following)?;
    let Ok(()) = write_known_group(alloc, lexemes, is_served, made) else {
        return Err(AddressFault::Memory);
    };
    Ok(())
}
