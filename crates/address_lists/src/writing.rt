//! The writer of phrases.
ghost use Rattle.std.specs.Prelude.{◌≡◌, ◌||◌, ◌++◌, ◌↔◌, true, false, IsTrue, IfSome, OnOk};
ghost use Rattle.std.specs.List.{AllByRecursion, list_all};
ghost use Rattle.mail_wire.specs.Octets.{is_ascii as is_ascii_octet};
ghost use Rattle.encoded_words.specs.Folding.{AddsLines};
ghost use Rattle.encoded_words.specs.Words.{UnitValue, IsEncodedWord};
ghost use Rattle.encoded_words.specs.PhraseUnits.{IsUtf8Item};
ghost use Rattle.field_tokens.specs.Comments.{AreWritableComments};
ghost use Rattle.field_tokens.specs.declared.TokenKind.TheVariants.{Atom};
ghost use Rattle.field_tokens.specs.Lexemes.{value_of, values_of};
ghost use Rattle.field_tokens.specs.Squeezed.{is_gap as is_gap_kind, is_there, octets_of, comments_of};
ghost use Rattle.address_grammar.specs.Phrases.{IsPhrase, phrase_items};
ghost use Rattle.address_lists.specs.PhrasePieces.{PhrasePieces, HasCore, PlacePieces};
ghost use Rattle.address_grammar.specs.private.PhraseSteps.{SkipsGaps, SplitsTrail};
ghost use Rattle.address_grammar.specs.private.ListViews.{unit_values};
ghost use Rattle.address_lists.specs.private.Emptied.{GivesUnits};
ghost use Rattle.address_lists.specs.private.ListWriting.{IsPlainWord};

use crate::ascii_texts::are_ascii;
use address_grammar::{PhraseReader, front_before, is_blank};
use encoded_words::{Unit, push_line, push_words, write_units};
use field_tokens::{Lexeme, Lexemes, TokenKind, write_comments};
use mail_wire::{Memory, Octets};
use std::alloc::Global;

pub(crate) fn is_gap(lexeme: Lexeme<'_>) -> bool
    ensures { result ≡ is_gap_kind (value_of lexeme.entry).kind }
{
    matches!(lexeme.kind, TokenKind::Gap)
}

// What stands after the gaps in front.
pub(crate) fn after_gaps<'a, 'b>(lexemes: Lexemes<'a, 'b>) -> Lexemes<'a, 'b>
    ensures { SkipsGaps (values_of lexemes.entry) (values_of result) }
{
    let mut rest = lexemes;
    while let Some((lexeme, following)) = rest.split_first() {
        if !is_gap(lexeme) {
            return rest;
        }
        rest = following;
    }
    rest
}

// What goes to the last token that is neither gap nor comment, and what stands after it.
fn split_trail<'a, 'b>(lexemes: Lexemes<'a, 'b>) -> (Lexemes<'a, 'b>, Lexemes<'a, 'b>)
    ensures { SplitsTrail (values_of lexemes.entry) (values_of result.0) (values_of result.1) }
{
    let mut trail = lexemes;
    let mut rest = lexemes;
    while let Some((lexeme, following)) = rest.split_first() {
        if !is_blank(lexeme) {
            trail = following;
        }
        rest = following;
    }
    (front_before(lexemes, trail), trail)
}

// The phrase from its first token that is no gap to its last word, and the gaps and comments after it.
pub(crate) fn split_core<'a, 'b>(lexemes: Lexemes<'a, 'b>) -> (Lexemes<'a, 'b>, Lexemes<'a, 'b>)
    requires { IsPhrase (values_of lexemes) }
    ensures { HasCore (values_of lexemes.entry) (values_of result.0) (values_of result.1) }
{
    split_trail(after_gaps(lexemes))
}

// Puts the octets of tokens last.
fn push_octets(lexemes: Lexemes<'_, '_>, made: &mut Octets) -> Result<(), Memory>
    ensures { OnOk result (made.new ≡ made.old ++ octets_of (values_of lexemes.entry)) }
{
    let mut rest = lexemes;
    while let Some((lexeme, following)) = rest.split_first() {
        made.push_slice(lexeme.octets)?;
        rest = following;
    }
    Ok(())
}

// Puts tokens last as one piece.
pub(crate) fn push_joined(lexemes: Lexemes<'_, '_>, made: &mut Octets) -> Result<(), Memory>
    ensures { OnOk result (AddsLines (PhrasePieces true (values_of lexemes.entry)) made.old made.new) }
{
    push_line(made, b"")?;
    push_octets(lexemes, made)
}

// Whether there are units, here or before.
fn has_units(before: bool, said: &[Unit]) -> bool
    ensures { result ≡ (is_there (unit_values said.now) || before) }
{
    match said {
        [_, ..] => true,
        [] => before,
    }
}

// Puts the pieces of what a phrase says last, token by token: no more of it is held than one unit. A phrase that says nothing
// is an empty quoted string.
fn write_said(alloc: Global, lexemes: Lexemes<'_, '_>, made: &mut Octets) -> Result<(), Memory>
    requires phrase { IsPhrase (values_of lexemes) }
    requires utf8 { AllByRecursion IsUtf8Item (phrase_items (values_of lexemes)) }
    ensures { OnOk result (AddsLines (GivesUnits (values_of lexemes.entry)) made.old made.new) }
{
    let mut reader = PhraseReader::new(alloc);
    let mut is_said = false;
    let mut rest = lexemes;
    while let Some((lexeme, following)) = rest.split_first() {
        let said = reader.read(alloc, lexeme, following)?;
        is_said = has_units(is_said, &said);
        write_units(&said, made)?;
        rest = following;
    }
    let said = reader.finish(alloc)?;
    write_units(&said, made)?;
    if has_units(is_said, &said) {
        return Ok(());
    }
    push_line(made, b"\"\"")
}

fn is_atom(lexeme: Lexeme<'_>) -> bool
    ensures { IsTrue result ↔ ((value_of lexeme.entry).kind ≡ Atom) }
{
    matches!(lexeme.kind, TokenKind::Atom)
}

// Whether a word begins as encoded words do.
fn begins_encoded(word: &[u8]) -> bool
    ensures { result ≡ false → (unit : UnitValue) → ¬ IsEncodedWord word.now unit }
{
    matches!(word, [b'=', b'?', ..])
}

// The one atom that tokens are, where it is no encoded word.
fn plain_word<'a>(lexemes: Lexemes<'a, '_>) -> Option<&'a [u8]>
    ensures { IfSome result (λ word. IsPlainWord (values_of lexemes.entry) word.now) }
{
    let Some((lexeme, following)) = lexemes.split_first() else {
        return None;
    };
    if !following.is_empty() {
        return None;
    }
    if !is_atom(lexeme) {
        return None;
    }
    if begins_encoded(lexeme.octets) {
        return None;
    }
    Some(lexeme.octets)
}

// Puts the pieces of a phrase last that ends with its last word.
pub(crate) fn push_core(
    alloc: Global,
    lexemes: Lexemes<'_, '_>,
    made: &mut Octets,
) -> Result<(), Memory>
    requires phrase { IsPhrase (values_of lexemes) }
    requires utf8 { AllByRecursion IsUtf8Item (phrase_items (values_of lexemes)) }
    requires comments { AreWritableComments (comments_of (values_of lexemes)) }
    ensures { OnOk result (AddsLines (PhrasePieces (list_all is_ascii_octet (octets_of (values_of lexemes.entry))) (values_of lexemes.entry)) made.old made.new) }
{
    if are_ascii(lexemes) {
        return push_joined(lexemes, made);
    }
    // most names are one word
    if let Some(word) = plain_word(lexemes) {
        return push_words(made, b' ', word);
    }
    write_said(alloc, lexemes, made)?;
    write_comments(alloc, lexemes, made)
}

/// Puts the pieces of a phrase last, and those of the comments after it.
pub fn write_phrase(
    alloc: Global,
    lexemes: Lexemes<'_, '_>,
    made: &mut Octets,
) -> Result<(), Memory>
    requires phrase { IsPhrase (values_of lexemes) }
    requires utf8 { AllByRecursion IsUtf8Item (phrase_items (values_of lexemes)) }
    requires comments { AreWritableComments (comments_of (values_of lexemes)) }
    ensures { OnOk result (AddsLines (PlacePieces (values_of lexemes.entry)) made.old made.new) }
{
    let (core, trail) = split_core(lexemes);
    push_core(alloc, core, made)?;
    write_comments(alloc, trail, made)
}
