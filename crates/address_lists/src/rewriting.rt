//! The rewriting of lists of addresses.
ghost use Rattle.std.specs.Prelude.{◌≡◌, ◌≢◌, ◌&&◌, ◌++◌, ℕ, true, not, List, OnOk};
ghost use Rattle.std.specs.List.{list_any};
ghost use Rattle.encoded_words.specs.Folding.{AddsLines};
ghost use Rattle.field_tokens.specs.Comments.{CommentValue};
ghost use Rattle.field_tokens.specs.Lexemes.{values_of};
ghost use Rattle.field_tokens.specs.Tokens.{TokenValue};
ghost use Rattle.address_grammar.specs.private.Lexemes.{are_blank as are_blank_of};
ghost use Rattle.address_grammar.specs.private.ListSteps.{SplitsName};
ghost use Rattle.address_grammar.specs.AddressLists.{ElementValue, AreDivided, IsElement, SaysPlace};
ghost use Rattle.address_lists.specs.ListPieces.{SaysAddresses, AddressesPieces};
ghost use Rattle.address_lists.specs.private.ListWriting.{CanBeWritten, is_element_token, GivesElement, GivesPlace, GivesFollowed, GivesPlaces};

use crate::written_groups::{write_group, write_single};
use address_grammar::{
    AddressFault, are_blank, find_mailbox, is_blank, is_mark, mail_marks, split_name, split_place,
};
use field_tokens::{Lexemes, write_comments};
use mail_wire::{Memory, Octets};
use std::alloc::Global;

// Puts the pieces of the mailbox last that tokens are without a group's name.
fn write_unnamed(
    alloc: Global,
    lexemes: Lexemes<'_, '_>,
    made: &mut Octets,
) -> Result<(), AddressFault>
    requires writable { CanBeWritten (values_of lexemes) }
    requires unnamed { (before following : List TokenValue) → ¬ SplitsName (values_of lexemes) before following }
    ensures ok { OnOk result (AddsLines (GivesElement (values_of lexemes.entry)) made.old made.new) }
    ensures malformed { result ≡ Err AddressFault.Malformed → (e : ElementValue) → ¬ IsElement (values_of lexemes.entry) e }
    ensures unchanged { result ≡ Err AddressFault.Malformed → made.new ≡ made.old }
{
    let mailbox = find_mailbox(alloc, lexemes)?;
    let Ok(()) = write_single(alloc, lexemes, &mailbox, made) else {
        return Err(AddressFault::Memory);
    };
    Ok(())
}

// Puts the pieces of an element last.
fn write_element(
    alloc: Global,
    lexemes: Lexemes<'_, '_>,
    made: &mut Octets,
) -> Result<(), AddressFault>
    requires { CanBeWritten (values_of lexemes) }
    ensures ok { OnOk result (AddsLines (GivesElement (values_of lexemes.entry)) made.old made.new) }
    ensures malformed { result ≡ Err AddressFault.Malformed → (e : ElementValue) → ¬ IsElement (values_of lexemes.entry) e }
    ensures unchanged { result ≡ Err AddressFault.Malformed → made.new ≡ made.old }
{
    match split_name(lexemes) {
        Some((name, following)) => write_group(alloc, lexemes, name, following, made),
        None => write_unnamed(alloc, lexemes, made),
    }
}

// Puts the comments of an empty place last.
fn write_empty(
    alloc: Global,
    lexemes: Lexemes<'_, '_>,
    made: &mut Octets,
) -> Result<(), AddressFault>
    requires writable { CanBeWritten (values_of lexemes) }
    requires blank { are_blank_of (values_of lexemes) ≡ true }
    ensures ok { OnOk result (AddsLines (GivesPlace (values_of lexemes.entry)) made.old made.new) }
    ensures err { result ≢ Err AddressFault.Malformed }
{
    match write_comments(alloc, lexemes, made) {
        Ok(()) => Ok(()),
        Err(_) => Err(AddressFault::Memory),
    }
}

// Puts the pieces of a place last: those of its element, or its comments.
fn write_place(
    alloc: Global,
    lexemes: Lexemes<'_, '_>,
    made: &mut Octets,
) -> Result<(), AddressFault>
    requires { CanBeWritten (values_of lexemes) }
    ensures ok { OnOk result (AddsLines (GivesPlace (values_of lexemes.entry)) made.old made.new) }
    ensures malformed { result ≡ Err AddressFault.Malformed → (es : List ElementValue) → ¬ SaysPlace (values_of lexemes.entry) es }
    ensures unchanged { result ≡ Err AddressFault.Malformed → made.new ≡ made.old }
{
    if are_blank(lexemes) {
        return write_empty(alloc, lexemes, made);
    }
    write_element(alloc, lexemes, made)
}

// Whether a token stands there that no empty place has.
fn has_element(lexemes: Lexemes<'_, '_>) -> bool
    ensures { result ≡ list_any is_element_token (values_of lexemes.entry) }
{
    let mut rest = lexemes;
    while let Some((lexeme, following)) = rest.split_first() {
        if !(is_blank(lexeme) || is_mark(lexeme, b',')) {
            return true;
        }
        rest = following;
    }
    false
}

// Whether an element stands in a place, and another one after it. The time over a whole list is linear: no token is looked
// at for two elements.
fn is_followed(place: Lexemes<'_, '_>, following: Lexemes<'_, '_>) -> bool
    ensures { result ≡ (not (are_blank_of (values_of place.entry)) && list_any is_element_token (values_of following.entry)) }
{
    !are_blank(place) && has_element(following)
}

// Puts the pieces of a place last that a comma ends, and puts a comma after an element that another follows.
fn write_followed(
    alloc: Global,
    place: Lexemes<'_, '_>,
    following: Lexemes<'_, '_>,
    made: &mut Octets,
) -> Result<(), AddressFault>
    requires { CanBeWritten (values_of place) }
    ensures ok { OnOk result (AddsLines (GivesFollowed (values_of place.entry) (values_of following.entry)) made.old made.new) }
    ensures malformed { result ≡ Err AddressFault.Malformed → (es : List ElementValue) → ¬ SaysPlace (values_of place.entry) es }
    ensures unchanged { result ≡ Err AddressFault.Malformed → made.new ≡ made.old }
{
    write_place(alloc, place, made)?;
    if !is_followed(place, following) {
        return Ok(());
    }
    let Ok(()) = made.push(b',') else {
        return Err(AddressFault::Memory);
    };
    Ok(())
}

// Puts the pieces of places divided by commas last.
fn write_places(
    alloc: Global,
    lexemes: Lexemes<'_, '_>,
    made: &mut Octets,
) -> Result<(), AddressFault>
    requires { CanBeWritten (values_of lexemes) }
    ensures ok { OnOk result (AddsLines (GivesPlaces (values_of lexemes.entry)) made.old made.new) }
    ensures malformed { result ≡ Err AddressFault.Malformed → (es : List ElementValue) → ¬ AreDivided SaysPlace (values_of lexemes.entry) es }
    ensures more { result ≡ Err AddressFault.Malformed → (more : List ℕ) × (made.new ≡ made.old ++ more) }
{
    let mut rest = lexemes;
    while let Some((place, following)) = split_place(rest) {
        write_followed(alloc, place, following, made)?;
        rest = following;
    }
    write_place(alloc, rest, made)
}

/// Puts the pieces last that a list of addresses is written in, each of them ASCII, on a line of its own. After want of memory
/// a front of these lines may have been put.
pub fn rewrite_list(alloc: Global, text: &[u8], made: &mut Octets) -> Result<(), AddressFault>
    ensures layout { OnOk result (AddsLines (AddressesPieces text.now) made.old made.new) }
    ensures malformed { result ≡ Err AddressFault.Malformed → (elements : List ElementValue) (comments : List CommentValue)
        → ¬ SaysAddresses text.now elements comments }
    ensures unchanged { result ≡ Err AddressFault.Malformed → made.new ≡ made.old }
{
    let marks = mail_marks(alloc, text)?;
    let len = made.len();
    match write_places(alloc, Lexemes::new(text, &marks), made) {
        Ok(()) => Ok(()),
        Err(AddressFault::Malformed) => {
            made.truncate(len);
            Err(AddressFault::Malformed)
        }
        Err(AddressFault::Memory) => Err(AddressFault::Memory),
    }
}
