//! The addresses of an envelope.
ghost use Rattle.std.specs.Prelude.{◌≡◌, ◌++◌, ℕ, List, Option, IfOk, OnOk};
ghost use Rattle.std.specs.Option.{option_copied};
ghost use Rattle.address_grammar.specs.AddressLists.{AreDivided};
ghost use Rattle.address_grammar.specs.private.Lexemes.{SplitsAt};
ghost use Rattle.field_tokens.specs.Lexemes.{values_of};
ghost use Rattle.field_tokens.specs.Tokens.{TokenValue};
ghost use Rattle.imap_views.specs.Addresses.{address_form, plain_text, group_start, group_end, list_form, IsPhraseName, IsMailboxForm, AreMemberForms, IsGroupForm, IsPlaceForm, HasForms, IsListForm, IsAddressesForm};
ghost use Rattle.imap_views.specs.Strings.{AddsText};

use crate::phrases::plain_phrase;
use crate::strings::{push_nstring, slice_of};
use address_grammar::{
    Address, AddressFault, are_blank, find_mailbox, is_phrase, mail_marks, push_quoted_string,
    split_at_mark, split_name, split_place,
};
use field_tokens::Lexemes;
use mail_wire::{Memory, Octets};
use std::alloc::Global;

#[tactic(auto, unfolding(crate::specs::Strings::spaced))]
fn push_address_form(
    made: &mut Octets,
    name: Option<&[u8]>,
    address: &Address,
) -> Result<(), Memory>
    ensures { OnOk result (made.new ≡ made.old ++ address_form (option_copied name.entry) address.now) }
{
    made.push(b'(')?;
    push_nstring(made, name)?;
    made.push_slice(b" NIL ")?;
    push_quoted_string(made, address.local.as_slice())?;
    made.push(b' ')?;
    push_quoted_string(made, address.domain.as_slice())?;
    made.push(b')')
}

// The phrase before the angle bracket, where there is a phrase.
fn name_of(
    alloc: Global,
    lexemes: Lexemes<'_, '_>,
    has_phrase: bool,
) -> Result<Option<Octets>, Memory>
    requires { (name : Option (List ℕ)) × IsPhraseName (values_of lexemes) has_phrase name }
    ensures { IfOk result (IsPhraseName (values_of lexemes.entry) has_phrase) }
{
    if !has_phrase {
        return Ok(None);
    }
    match split_at_mark(lexemes, b'<') {
        Some((before, _)) => Ok(Some(plain_phrase(alloc, before)?)),
        None => unreachable!(),
    }
}

// Puts the form of the mailbox that tokens are last.
fn push_mailbox(
    alloc: Global,
    made: &mut Octets,
    lexemes: Lexemes<'_, '_>,
) -> Result<(), AddressFault>
    ensures ok { OnOk result (AddsText (IsMailboxForm (values_of lexemes.entry)) made.old made.new) }
    ensures malformed { result ≡ Err AddressFault.Malformed → (text : List ℕ) → ¬ IsMailboxForm (values_of lexemes.entry) text }
{
    let mailbox = find_mailbox(alloc, lexemes)?;
    let Ok(name) = name_of(alloc, lexemes, mailbox.phrase) else {
        return Err(AddressFault::Memory);
    };
    let Ok(()) = push_address_form(made, slice_of(&name), &mailbox.address) else {
        return Err(AddressFault::Memory);
    };
    Ok(())
}

// Puts the forms of mailboxes divided by commas last.
fn push_mailboxes(
    alloc: Global,
    made: &mut Octets,
    lexemes: Lexemes<'_, '_>,
) -> Result<(), AddressFault>
    ensures ok { OnOk result (AddsText (AreDivided IsMailboxForm (values_of lexemes.entry)) made.old made.new) }
    ensures malformed { result ≡ Err AddressFault.Malformed → (text : List ℕ) → ¬ AreDivided IsMailboxForm (values_of lexemes.entry) text }
{
    let mut rest = lexemes;
    while let Some((part, following)) = split_place(rest) {
        push_mailbox(alloc, made, part)?;
        rest = following;
    }
    push_mailbox(alloc, made, rest)
}

// Puts the forms of a group's members last.
fn push_members(
    alloc: Global,
    made: &mut Octets,
    lexemes: Lexemes<'_, '_>,
) -> Result<(), AddressFault>
    ensures ok { OnOk result (AddsText (AreMemberForms (values_of lexemes.entry)) made.old made.new) }
    ensures malformed { result ≡ Err AddressFault.Malformed → (text : List ℕ) → ¬ AreMemberForms (values_of lexemes.entry) text }
{
    if are_blank(lexemes) {
        return Ok(());
    }
    push_mailboxes(alloc, made, lexemes)
}

#[tactic(auto, unfolding(crate::specs::Strings::spaced))]
fn push_group_start(alloc: Global, made: &mut Octets, name: Lexemes<'_, '_>) -> Result<(), Memory>
    ensures { OnOk result (made.new ≡ made.old ++ group_start (plain_text (values_of name.entry))) }
{
    let name = plain_phrase(alloc, name)?;
    made.push_slice(b"(NIL NIL ")?;
    push_quoted_string(made, name.as_slice())?;
    made.push_slice(b" NIL)")
}

#[tactic(auto, unfolding(crate::specs::Strings::spaced))]
fn push_group_end(made: &mut Octets) -> Result<(), Memory>
    ensures { OnOk result (made.new ≡ made.old ++ group_end) }
{
    made.push_slice(b"(NIL NIL NIL NIL)")
}

// Puts the form of the group of this name last, of what stands after its colon.
fn push_group(
    alloc: Global,
    made: &mut Octets,
    name: Lexemes<'_, '_>,
    following: Lexemes<'_, '_>,
) -> Result<(), AddressFault>
    ensures ok { OnOk result ((tokens : List TokenValue) → SplitsAt 58 tokens (values_of name.entry) (values_of following.entry) → AddsText (IsGroupForm tokens) made.old made.new) }
    ensures malformed { result ≡ Err AddressFault.Malformed
        → (tokens : List TokenValue) (text : List ℕ) → SplitsAt 58 tokens (values_of name.entry) (values_of following.entry) → ¬ IsGroupForm tokens text }
{
    let Some((inner, after)) = split_at_mark(following, b';') else {
        return Err(AddressFault::Malformed);
    };
    if !are_blank(after) || !is_phrase(name) {
        return Err(AddressFault::Malformed);
    }
    let Ok(()) = push_group_start(alloc, made, name) else {
        return Err(AddressFault::Memory);
    };
    push_members(alloc, made, inner)?;
    let Ok(()) = push_group_end(made) else {
        return Err(AddressFault::Memory);
    };
    Ok(())
}

// Puts the form of what stands at a place of a list last.
fn push_place(
    alloc: Global,
    made: &mut Octets,
    lexemes: Lexemes<'_, '_>,
) -> Result<(), AddressFault>
    ensures ok { OnOk result (AddsText (IsPlaceForm (values_of lexemes.entry)) made.old made.new) }
    ensures malformed { result ≡ Err AddressFault.Malformed → (text : List ℕ) → ¬ IsPlaceForm (values_of lexemes.entry) text }
{
    if are_blank(lexemes) {
        return Ok(());
    }
    match split_name(lexemes) {
        Some((name, following)) => push_group(alloc, made, name, following),
        None => push_mailbox(alloc, made, lexemes),
    }
}

// Puts the forms of places divided by commas last.
fn push_places(
    alloc: Global,
    made: &mut Octets,
    lexemes: Lexemes<'_, '_>,
) -> Result<(), AddressFault>
    ensures ok { OnOk result (AddsText (AreDivided IsPlaceForm (values_of lexemes.entry)) made.old made.new) }
    ensures malformed { result ≡ Err AddressFault.Malformed → (text : List ℕ) → ¬ AreDivided IsPlaceForm (values_of lexemes.entry) text }
{
    let mut rest = lexemes;
    while let Some((place, following)) = split_place(rest) {
        push_place(alloc, made, place)?;
        rest = following;
    }
    push_place(alloc, made, rest)
}

// The forms of the list that a text is.
fn forms_of(alloc: Global, text: &[u8]) -> Result<Octets, AddressFault>
    ensures ok { IfOk result (λ forms. HasForms text.now forms) }
    ensures malformed { result ≡ Err AddressFault.Malformed → (forms : List ℕ) → ¬ HasForms text.now forms }
{
    let marks = mail_marks(alloc, text)?;
    let mut forms = Octets::new(alloc);
    push_places(alloc, &mut forms, Lexemes::new(text, &marks))?;
    Ok(forms)
}

// Forms in parentheses, and NIL where there are none.
fn list_of(alloc: Global, forms: &[u8]) -> Result<Octets, Memory>
    ensures { IfOk result (λ made. made ≡ list_form forms.now) }
{
    if forms.is_empty() {
        return Octets::from_slice(alloc, b"NIL");
    }
    let mut made = Octets::new(alloc);
    made.push(b'(')?;
    made.push_slice(forms)?;
    made.push(b')')?;
    Ok(made)
}

fn list_form(alloc: Global, value: &[u8]) -> Result<Octets, Memory>
    ensures { IfOk result (λ made. IsListForm value.now made) }
{
    match forms_of(alloc, value) {
        Ok(forms) => list_of(alloc, forms.as_slice()),
        Err(AddressFault::Malformed) => Octets::from_slice(alloc, b"NIL"),
        Err(AddressFault::Memory) => Err(Memory),
    }
}

/// The form of a field of addresses.
pub fn addresses_form(alloc: Global, value: &Option<Octets>) -> Result<Octets, Memory>
    ensures { IfOk result (λ made. IsAddressesForm value.now made) }
{
    match value {
        Some(value) => list_form(alloc, value.as_slice()),
        None => Octets::from_slice(alloc, b"NIL"),
    }
}
