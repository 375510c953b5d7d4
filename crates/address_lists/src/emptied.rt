//! What stands in place of addresses that can't be served.
ghost use Rattle.std.specs.Prelude.{◌≡◌, ◌∷◌, [], true, false, None, OnOk};
ghost use Rattle.encoded_words.specs.Folding.{AddsLines};
ghost use Rattle.encoded_words.specs.Words.{Text};
ghost use Rattle.encoded_words.specs.private.Merging.{all_units_then};
ghost use Rattle.encoded_words.specs.private.Values.{value_of};
ghost use Rattle.encoded_words.specs.Written.{IsWritable, AreWritable, WriteAll};
ghost use Rattle.field_tokens.specs.Comments.{AreWritableComments};
ghost use Rattle.field_tokens.specs.Lexemes.{values_of};
ghost use Rattle.field_tokens.specs.Squeezed.{comments_of};
ghost use Rattle.address_grammar.specs.Addresses.{address_text};
ghost use Rattle.address_grammar.specs.Found.{IsFoundMailbox};
ghost use Rattle.address_grammar.specs.Phrases.{IsPhrase};
ghost use Rattle.address_grammar.specs.private.ListViews.{unit_values};
ghost use Rattle.address_lists.specs.ListPieces.{served_address, MailboxPieces, GroupPieces};
ghost use Rattle.address_lists.specs.private.ListWriting.{CanBeWritten, IsServedGroup, IsSomeMailbox, AreSomeMailboxes};
ghost use Rattle.address_lists.specs.private.Emptied.{CanEnd, TakesUnits, TakesOut, TakesPhrase, TakesDisplay, TakesNotServed, TakesMember, TakesMembers, GivesMailboxUnits, GivesGroupUnits, NoMembersPieces};

use crate::members::find_member;
use address_grammar::{
    Address, FoundMailbox, PhraseReader, push_address, split_at_mark, split_place,
};
use encoded_words::{Merging, Unit, push_line, write_units};
use field_tokens::{Lexemes, write_comments};
use mail_wire::{Memory, Octets};
use std::alloc::Global;

fn push_text(units: &mut Merging, text: &[u8]) -> Result<(), Memory>
    ensures { OnOk result (TakesUnits units.old units.new (Text text.now ∷ [])) }
{
    units.push_text(text)
}

// An opaque unit is read again from the word that it came from.
fn push_unit(alloc: Global, units: &mut Merging, unit: &Unit) -> Result<(), Memory>
    requires { IsWritable (value_of unit.now) }
    ensures { OnOk result (TakesUnits units.old units.new (value_of unit.now ∷ [])) }
{
    match unit {
        Unit::Text(octets) => push_text(units, octets.as_slice()),
        Unit::Opaque { source, .. } => {
            units.push_word(alloc, b"", false, source.as_slice())?;
            Ok(())
        }
    }
}

fn push_units(alloc: Global, units: &mut Merging, said: &[Unit]) -> Result<(), Memory>
    requires { AreWritable (unit_values said.now) }
    ensures { OnOk result (TakesUnits units.old units.new (unit_values said.now)) }
{
    for unit in said {
        push_unit(alloc, units, unit)?;
    }
    Ok(())
}

fn push_address_text(alloc: Global, units: &mut Merging, address: &Address) -> Result<(), Memory>
    ensures { OnOk result (TakesUnits units.old units.new (Text (address_text address.now) ∷ [])) }
{
    let mut text = Octets::new(alloc);
    push_address(&mut text, address)?;
    push_text(units, text.as_slice())
}

// Writes the units that are done.
fn write_done(alloc: Global, units: &mut Merging, made: &mut Octets) -> Result<(), Memory>
    requires { CanEnd units.old }
    ensures { OnOk result (TakesOut units.old units.new made.old made.new []) }
{
    let done = units.take_done(alloc);
    write_units(&done, made)
}

// Takes units, and writes those that are done.
fn push_said(
    alloc: Global,
    units: &mut Merging,
    said: &[Unit],
    made: &mut Octets,
) -> Result<(), Memory>
    requires said { AreWritable (unit_values said.now) }
    requires units { CanEnd units.old }
    ensures { OnOk result (TakesOut units.old units.new made.old made.new (unit_values said.now)) }
{
    push_units(alloc, units, said)?;
    write_done(alloc, units, made)
}

// Takes what a phrase says, token by token: no more of it is held than one unit.
fn push_phrase(
    alloc: Global,
    units: &mut Merging,
    lexemes: Lexemes<'_, '_>,
    made: &mut Octets,
) -> Result<(), Memory>
    requires phrase { IsPhrase (values_of lexemes) }
    requires writable { CanBeWritten (values_of lexemes) }
    requires units { CanEnd units.old }
    ensures { OnOk result (TakesPhrase units.old units.new made.old made.new (values_of lexemes.entry)) }
{
    let mut reader = PhraseReader::new(alloc);
    let mut rest = lexemes;
    while let Some((lexeme, following)) = rest.split_first() {
        let said = reader.read(alloc, lexeme, following)?;
        push_said(alloc, units, &said, made)?;
        rest = following;
    }
    let said = reader.finish(alloc)?;
    push_said(alloc, units, &said, made)
}

// Takes what stands before the angle brackets of a mailbox that has a phrase.
fn push_display(
    alloc: Global,
    units: &mut Merging,
    lexemes: Lexemes<'_, '_>,
    mailbox: &FoundMailbox,
    made: &mut Octets,
) -> Result<(), Memory>
    requires writable { CanBeWritten (values_of lexemes) }
    requires mailbox { IsFoundMailbox (values_of lexemes) mailbox.now }
    requires phrase { mailbox.now.phrase ≡ true }
    requires units { CanEnd units.old }
    ensures { OnOk result (TakesDisplay units.old units.new made.old made.new (values_of lexemes.entry) mailbox.now) }
{
    let Some((before, _)) = split_at_mark(lexemes, b'<') else {
        unreachable!();
    };
    push_phrase(alloc, units, before, made)
}

// Takes what stands for a mailbox whose address can't be served: its phrase, and the text of its address.
fn push_not_served(
    alloc: Global,
    units: &mut Merging,
    lexemes: Lexemes<'_, '_>,
    mailbox: &FoundMailbox,
    made: &mut Octets,
) -> Result<(), Memory>
    requires writable { CanBeWritten (values_of lexemes) }
    requires mailbox { IsFoundMailbox (values_of lexemes) mailbox.now }
    requires units { CanEnd units.old }
    ensures { OnOk result (TakesNotServed units.old units.new made.old made.new (values_of lexemes.entry) mailbox.now) }
{
    if !mailbox.phrase {
        return push_address_text(alloc, units, &mailbox.address);
    }
    push_display(alloc, units, lexemes, mailbox, made)?;
    push_text(units, b" ")?;
    push_address_text(alloc, units, &mailbox.address)
}

// Takes a member of a group.
fn push_mailbox(
    alloc: Global,
    units: &mut Merging,
    lexemes: Lexemes<'_, '_>,
    mailbox: &FoundMailbox,
    made: &mut Octets,
) -> Result<(), Memory>
    requires writable { CanBeWritten (values_of lexemes) }
    requires mailbox { IsFoundMailbox (values_of lexemes) mailbox.now }
    requires units { CanEnd units.old }
    ensures { OnOk result (TakesMember units.old units.new made.old made.new (values_of lexemes.entry)) }
{
    if !mailbox.phrase {
        return push_address_text(alloc, units, &mailbox.address);
    }
    push_display(alloc, units, lexemes, mailbox, made)?;
    push_text(units, b" <")?;
    push_address_text(alloc, units, &mailbox.address)?;
    push_text(units, b">")
}

// Takes the member that tokens are, which are known to be one.
fn push_member(
    alloc: Global,
    units: &mut Merging,
    lexemes: Lexemes<'_, '_>,
    made: &mut Octets,
) -> Result<(), Memory>
    requires writable { CanBeWritten (values_of lexemes) }
    requires member { IsSomeMailbox (values_of lexemes) }
    requires units { CanEnd units.old }
    ensures { OnOk result (TakesMember units.old units.new made.old made.new (values_of lexemes.entry)) }
{
    let mailbox = find_member(alloc, lexemes)?;
    push_mailbox(alloc, units, lexemes, &mailbox, made)
}

// Takes the members that tokens are, which are known to be some.
fn push_members(
    alloc: Global,
    units: &mut Merging,
    lexemes: Lexemes<'_, '_>,
    made: &mut Octets,
) -> Result<(), Memory>
    requires writable { CanBeWritten (values_of lexemes) }
    requires members { AreSomeMailboxes (values_of lexemes) }
    requires units { CanEnd units.old }
    ensures { OnOk result (TakesMembers units.old units.new made.old made.new (values_of lexemes.entry)) }
{
    let mut rest = lexemes;
    while let Some((member, following)) = split_place(rest) {
        push_member(alloc, units, member, made)?;
        push_text(units, b", ")?;
        rest = following;
    }
    push_member(alloc, units, rest, made)
}

// Writes the units that are left.
fn write_rest(alloc: Global, units: Merging, made: &mut Octets) -> Result<(), Memory>
    requires { CanEnd units }
    ensures { OnOk result (AddsLines (WriteAll (all_units_then units [])) made.old made.new) }
{
    let mut units = units;
    units.end_text(alloc)?;
    write_units(&units.into_done(), made)
}

// Puts the pieces of a mailbox's phrase, and of the text of its address.
fn write_units_of(
    alloc: Global,
    lexemes: Lexemes<'_, '_>,
    mailbox: &FoundMailbox,
    made: &mut Octets,
) -> Result<(), Memory>
    requires writable { CanBeWritten (values_of lexemes) }
    requires mailbox { IsFoundMailbox (values_of lexemes) mailbox.now }
    ensures { OnOk result (AddsLines (GivesMailboxUnits (values_of lexemes.entry) mailbox.now) made.old made.new) }
{
    let mut units = Merging::new(alloc);
    push_not_served(alloc, &mut units, lexemes, mailbox, made)?;
    write_rest(alloc, units, made)
}

// Puts the pieces of a group's name, and of its members.
fn write_group_units(
    alloc: Global,
    name: Lexemes<'_, '_>,
    members: Lexemes<'_, '_>,
    made: &mut Octets,
) -> Result<(), Memory>
    requires phrase { IsPhrase (values_of name) }
    requires name { CanBeWritten (values_of name) }
    requires members { CanBeWritten (values_of members) }
    requires some { AreSomeMailboxes (values_of members) }
    ensures { OnOk result (AddsLines (GivesGroupUnits (values_of name.entry) (values_of members.entry)) made.old made.new) }
{
    let mut units = Merging::new(alloc);
    push_phrase(alloc, &mut units, name, made)?;
    push_text(&mut units, b" ")?;
    push_members(alloc, &mut units, members, made)?;
    write_rest(alloc, units, made)
}

// Puts a group without members last, after its name, and then all comments.
fn write_no_members(
    alloc: Global,
    lexemes: Lexemes<'_, '_>,
    made: &mut Octets,
) -> Result<(), Memory>
    requires { AreWritableComments (comments_of (values_of lexemes)) }
    ensures { OnOk result (AddsLines (NoMembersPieces (values_of lexemes.entry)) made.old made.new) }
{
    push_line(made, b":;")?;
    write_comments(alloc, lexemes, made)
}

/// Puts what stands for a mailbox last whose address can't be served.
pub fn write_not_served(
    alloc: Global,
    lexemes: Lexemes<'_, '_>,
    mailbox: &FoundMailbox,
    made: &mut Octets,
) -> Result<(), Memory>
    requires writable { CanBeWritten (values_of lexemes) }
    requires mailbox { IsFoundMailbox (values_of lexemes) mailbox.now }
    requires served { served_address mailbox.now.address ≡ None }
    ensures { OnOk result (AddsLines (MailboxPieces (values_of lexemes.entry)) made.old made.new) }
{
    write_units_of(alloc, lexemes, mailbox, made)?;
    write_no_members(alloc, lexemes, made)
}

/// Puts what stands for a group last with an address that can't be served.
pub fn write_not_kept(
    alloc: Global,
    lexemes: Lexemes<'_, '_>,
    made: &mut Octets,
) -> Result<(), Memory>
    requires writable { CanBeWritten (values_of lexemes) }
    requires group { IsServedGroup (values_of lexemes) false }
    ensures { OnOk result (AddsLines (GroupPieces (values_of lexemes.entry)) made.old made.new) }
{
    let Some((name, following)) = split_at_mark(lexemes, b':') else {
        unreachable!();
    };
    let Some((members, _)) = split_at_mark(following, b';') else {
        unreachable!();
    };
    write_group_units(alloc, name, members, made)?;
    write_no_members(alloc, lexemes, made)
}
