//! Texts that stay as they are.
ghost use Rattle.std.specs.Prelude.{◌≡◌, false, OnOk};
ghost use Rattle.std.specs.List.{list_all};
ghost use Rattle.mail_wire.specs.Octets.{is_ascii as is_ascii_octet};
ghost use Rattle.encoded_words.specs.Folding.{AddsLines};
ghost use Rattle.field_tokens.specs.Lexemes.{values_of};
ghost use Rattle.field_tokens.specs.Squeezed.{octets_of};
ghost use Rattle.address_grammar.specs.private.Lexemes.{are_blank};
ghost use Rattle.address_lists.specs.ListPieces.{HasText};
ghost use Rattle.address_lists.specs.private.ListWriting.{SplitsGaps, AsciiPieces};

use crate::writing::{after_gaps, is_gap, push_joined};
use address_grammar::front_before;
use field_tokens::Lexemes;
use mail_wire::{Memory, Octets, is_ascii};

pub fn are_ascii(lexemes: Lexemes<'_, '_>) -> bool
    ensures { result ≡ list_all is_ascii_octet (octets_of (values_of lexemes.entry)) }
{
    let mut rest = lexemes;
    while let Some((lexeme, following)) = rest.split_first() {
        if !is_ascii(lexeme.octets) {
            return false;
        }
        rest = following;
    }
    true
}

// What goes to the last token that is no gap.
fn before_gaps<'a, 'b>(lexemes: Lexemes<'a, 'b>) -> Lexemes<'a, 'b>
    ensures { SplitsGaps (values_of lexemes.entry) (values_of result) }
{
    let mut trail = lexemes;
    let mut rest = lexemes;
    while let Some((lexeme, following)) = rest.split_first() {
        if !is_gap(lexeme) {
            trail = following;
        }
        rest = following;
    }
    front_before(lexemes, trail)
}

// The tokens without the gaps at both ends.
fn inner_text<'a, 'b>(lexemes: Lexemes<'a, 'b>) -> Lexemes<'a, 'b>
    requires { are_blank (values_of lexemes) ≡ false }
    ensures { HasText (values_of lexemes.entry) (values_of result) }
{
    before_gaps(after_gaps(lexemes))
}

/// Puts the tokens without the gaps at both ends last, as one piece.
pub fn write_text(lexemes: Lexemes<'_, '_>, made: &mut Octets) -> Result<(), Memory>
    requires { are_blank (values_of lexemes) ≡ false }
    ensures { OnOk result (AddsLines (AsciiPieces (values_of lexemes.entry)) made.old made.new) }
{
    push_joined(inner_text(lexemes), made)
}
