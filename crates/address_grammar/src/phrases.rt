//! Phrases.
ghost use Rattle.std.specs.Prelude.{◌≡◌, ◌&&◌, not, [], ◌∷◌, true, if◌then◌else◌, IfOk, OnOk, IsTrue, ◌↔◌};
ghost use Rattle.std.specs.List.{list_all};
ghost use Rattle.encoded_words.specs.private.Merging.{all_units_then};
ghost use Rattle.encoded_words.specs.PhraseUnits.{HasPhraseUnits, begins_free as begins_free_of};
ghost use Rattle.address_grammar.specs.private.Lexemes.{is_atom as is_atom_of, content as content_of};
ghost use Rattle.address_grammar.specs.Phrases.{may_stand_in_phrase as may_stand_of, IsPhrase, phrase_items};
ghost use Rattle.address_grammar.specs.private.PhraseSteps.{TakesPart, IsFreshReader, TakesToken, ReadsToken};
ghost use Rattle.field_tokens.specs.Lexemes.{value_of, values_of};
ghost use Rattle.address_grammar.specs.private.ListViews.{unit_values};

use crate::lexemes::{are_blank, content, is_atom, is_blank, is_mark, is_word};
use encoded_words::{Merging, Unit};
use field_tokens::{Lexeme, Lexemes};
use mail_wire::Memory;
use std::alloc::Global;

// Words, dots, gaps and comments.
fn may_stand_in_phrase(lexeme: Lexeme<'_>) -> bool
    ensures { result ≡ may_stand_of (value_of lexeme.entry) }
{
    is_blank(lexeme) || is_word(lexeme) || is_mark(lexeme, b'.')
}

fn all_stand_in_phrase(lexemes: Lexemes<'_, '_>) -> bool
    ensures { result ≡ list_all may_stand_of (values_of lexemes.entry) }
{
    let mut rest = lexemes;
    while let Some((lexeme, following)) = rest.split_first() {
        if !may_stand_in_phrase(lexeme) {
            return false;
        }
        rest = following;
    }
    true
}

pub fn is_phrase(lexemes: Lexemes<'_, '_>) -> bool
    ensures { IsTrue result ↔ IsPhrase (values_of lexemes.entry) }
{
    !are_blank(lexemes) && all_stand_in_phrase(lexemes)
}

// One space where words stand apart.
fn space(has_space_before: bool) -> &'static [u8]
    ensures { result.now ≡ (if has_space_before then 32 ∷ [] else []) }
{
    if has_space_before { b" " } else { b"" }
}

// Takes a word and the run before it, and answers whether it is an encoded word.
fn push_part(
    alloc: Global,
    units: &mut Merging,
    run: &[u8],
    after_encoded: bool,
    word: &[u8],
    may_be_encoded: bool,
) -> Result<bool, Memory>
    ensures { IfOk result (TakesPart units.old units.new run.now after_encoded word.now may_be_encoded) }
{
    if may_be_encoded {
        return units.push_word(alloc, run, after_encoded, word);
    }
    units.push_text(run)?;
    units.push_text(word)?;
    Ok(false)
}

// Takes what a token says and the run before it, and answers whether it is an encoded word.
fn push_said(
    alloc: Global,
    units: &mut Merging,
    run: &[u8],
    after_encoded: bool,
    lexeme: Lexeme<'_>,
    may_be_encoded: bool,
) -> Result<bool, Memory>
    ensures { IfOk result (TakesPart units.old units.new run.now after_encoded (content_of (value_of lexeme.entry)) may_be_encoded) }
{
    if is_atom(lexeme) {
        return push_part(
            alloc,
            units,
            run,
            after_encoded,
            lexeme.octets,
            may_be_encoded,
        );
    }
    let word = content(alloc, lexeme)?;
    push_part(
        alloc,
        units,
        run,
        after_encoded,
        word.as_slice(),
        may_be_encoded,
    )
}

/// The reader of the units of a phrase: whether a separator stands after the last word, or nothing was read, and whether
/// that word was an encoded word.
#[derive(Drop)]
pub struct PhraseReader {
    units: Merging,
    is_first: bool,
    is_free: bool,
    after_encoded: bool,
}

impl PhraseReader {
    pub fn new(alloc: Global) -> Self
        ensures { IsFreshReader result }
    {
        PhraseReader {
            units: Merging::new(alloc),
            is_first: true,
            is_free: true,
            after_encoded: false,
        }
    }

    // Whether a space stands before the next word.
    fn has_space_before(&self) -> bool
        ensures { result ≡ (self.now.is_free && not self.now.is_first) }
    {
        self.is_free && !self.is_first
    }

    // Whether the next word, before which the reader stands, may be an encoded word.
    fn may_be_encoded(&self, lexeme: Lexeme<'_>, is_next_free: bool) -> bool
        ensures { result ≡ ((self.now.is_free && is_next_free) && is_atom_of (value_of lexeme.entry)) }
    {
        self.is_free && is_next_free && is_atom(lexeme)
    }

    // Takes the next token.
    fn take(&mut self, alloc: Global, lexeme: Lexeme<'_>, is_next_free: bool) -> Result<(), Memory>
        requires { may_stand_of (value_of lexeme) ≡ true }
        ensures { OnOk result (TakesToken self.old self.new (value_of lexeme.entry) is_next_free) }
    {
        if is_blank(lexeme) {
            self.is_free = true;
            return Ok(());
        }
        let run = space(self.has_space_before());
        let may_be_encoded = self.may_be_encoded(lexeme, is_next_free);
        self.after_encoded = push_said(
            alloc,
            &mut self.units,
            run,
            self.after_encoded,
            lexeme,
            may_be_encoded,
        )?;
        self.is_first = false;
        self.is_free = false;
        Ok(())
    }

    /// Takes the next token, after which these stand, and gives the units that are done by it.
    pub fn read(
        &mut self,
        alloc: Global,
        lexeme: Lexeme<'_>,
        following: Lexemes<'_, '_>,
    ) -> Result<Vec<Unit>, Memory>
        requires { may_stand_of (value_of lexeme) ≡ true }
        ensures { IfOk result (λ said. ReadsToken self.old self.new (value_of lexeme.entry) (values_of following.entry) (unit_values said.items)) }
    {
        self.take(alloc, lexeme, begins_free(following))?;
        Ok(self.units.take_done(alloc))
    }

    /// The units that are left.
    pub fn finish(self, alloc: Global) -> Result<Vec<Unit>, Memory>
        ensures { IfOk result (λ made. unit_values made.items ≡ all_units_then self.units []) }
    {
        let mut units = self.units;
        units.end_text(alloc)?;
        Ok(units.into_done())
    }
}

// Whether the tokens begin with a gap or a comment, or there are none.
fn begins_free(lexemes: Lexemes<'_, '_>) -> bool
    ensures { result ≡ begins_free_of (phrase_items (values_of lexemes.entry)) }
{
    match lexemes.split_first() {
        Some((lexeme, _)) => is_blank(lexeme),
        None => true,
    }
}

/// What a phrase says.
pub fn read_phrase(alloc: Global, lexemes: Lexemes<'_, '_>) -> Result<Vec<Unit>, Memory>
    requires { IsPhrase (values_of lexemes) }
    ensures { IfOk result (λ units. HasPhraseUnits (phrase_items (values_of lexemes.entry)) (unit_values units.items)) }
{
    let mut reader = PhraseReader::new(alloc);
    let mut rest = lexemes;
    while let Some((lexeme, following)) = rest.split_first() {
        reader.take(alloc, lexeme, begins_free(following))?;
        rest = following;
    }
    reader.finish(alloc)
}
