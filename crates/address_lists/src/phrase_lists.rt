//! The rewriting of phrases that commas divide.
ghost use Rattle.std.specs.Prelude.{◌≡◌, ◌++◌, ℕ, List, OnOk};
ghost use Rattle.std.specs.List.{AllByRecursion};
ghost use Rattle.encoded_words.specs.Folding.{AddsLines};
ghost use Rattle.encoded_words.specs.Words.{UnitValue};
ghost use Rattle.encoded_words.specs.PhraseUnits.{IsUtf8Item};
ghost use Rattle.field_tokens.specs.Comments.{CommentValue, AreWritableComments};
ghost use Rattle.field_tokens.specs.Lexemes.{values_of};
ghost use Rattle.field_tokens.specs.Squeezed.{comments_of};
ghost use Rattle.address_grammar.specs.AddressLists.{AreDivided};
ghost use Rattle.address_grammar.specs.Phrases.{IsPhrase, phrase_items};
ghost use Rattle.address_lists.specs.PhraseLists.{IsOnePhrase, SaysPhrases, PhrasesPieces};
ghost use Rattle.address_lists.specs.private.PhraseListSteps.{GivesPhrase, GivesPhrases};

use crate::writing::write_phrase;
use address_grammar::{AddressFault, is_phrase, mail_marks, split_place};
use encoded_words::push_line;
use field_tokens::Lexemes;
use mail_wire::Octets;
use std::alloc::Global;

// Puts the pieces of the phrase in a place last.
fn push_phrase(
    alloc: Global,
    lexemes: Lexemes<'_, '_>,
    made: &mut Octets,
) -> Result<(), AddressFault>
    requires utf8 { AllByRecursion IsUtf8Item (phrase_items (values_of lexemes)) }
    requires comments { AreWritableComments (comments_of (values_of lexemes)) }
    ensures ok { OnOk result (AddsLines (GivesPhrase (values_of lexemes.entry)) made.old made.new) }
    ensures malformed { result ≡ Err AddressFault.Malformed → ¬ IsPhrase (values_of lexemes.entry) }
    ensures unchanged { result ≡ Err AddressFault.Malformed → made.new ≡ made.old }
{
    if !is_phrase(lexemes) {
        return Err(AddressFault::Malformed);
    }
    let Ok(()) = write_phrase(alloc, lexemes, made) else {
        return Err(AddressFault::Memory);
    };
    Ok(())
}

// Puts the pieces of phrases divided by commas last.
fn write_phrases(
    alloc: Global,
    lexemes: Lexemes<'_, '_>,
    made: &mut Octets,
) -> Result<(), AddressFault>
    requires utf8 { AllByRecursion IsUtf8Item (phrase_items (values_of lexemes)) }
    requires comments { AreWritableComments (comments_of (values_of lexemes)) }
    ensures ok { OnOk result (AddsLines (GivesPhrases (values_of lexemes.entry)) made.old made.new) }
    ensures malformed { result ≡ Err AddressFault.Malformed → (phrases : List (List UnitValue)) → ¬ AreDivided IsOnePhrase (values_of lexemes.entry) phrases }
    ensures more { result ≡ Err AddressFault.Malformed → (more : List ℕ) × (made.new ≡ made.old ++ more) }
{
    let mut rest = lexemes;
    while let Some((place, following)) = split_place(rest) {
        push_phrase(alloc, place, made)?;
        let Ok(()) = push_line(made, b",") else {
            return Err(AddressFault::Memory);
        };
        rest = following;
    }
    push_phrase(alloc, rest, made)
}

/// Puts the pieces last that phrases are written in, each of them ASCII, on a line of its own. After want of memory a front of
/// these lines may have been put.
pub fn rewrite_phrases(alloc: Global, text: &[u8], made: &mut Octets) -> Result<(), AddressFault>
    ensures layout { OnOk result (AddsLines (PhrasesPieces text.now) made.old made.new) }
    ensures malformed { result ≡ Err AddressFault.Malformed → (phrases : List (List UnitValue)) (comments : List CommentValue)
        → ¬ SaysPhrases text.now phrases comments }
    ensures unchanged { result ≡ Err AddressFault.Malformed → made.new ≡ made.old }
{
    let marks = mail_marks(alloc, text)?;
    let len = made.len();
    match write_phrases(alloc, Lexemes::new(text, &marks), made) {
        Ok(()) => Ok(()),
        Err(AddressFault::Malformed) => {
            made.truncate(len);
            Err(AddressFault::Malformed)
        }
        Err(AddressFault::Memory) => Err(AddressFault::Memory),
    }
}
