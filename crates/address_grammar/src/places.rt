//! Where the places of a list end.
ghost use Rattle.std.specs.Prelude.{◌≡◌, ◌<◌, length, IfSome, IfNone};
ghost use Rattle.field_tokens.specs.Lexemes.{value_of, values_of};
ghost use Rattle.address_grammar.specs.private.Walks.{awaited_after as awaited_after_of, SplitsPlace, IsLastPlace};

use crate::lexemes::{front_before, is_mark};
use field_tokens::{Lexeme, Lexemes};

// What is awaited after a token: where nothing is, `>` after `<` and `;` after `:`. A comma that ends the place gives
// nothing.
fn awaited_after(awaited: Option<u8>, lexeme: Lexeme<'_>) -> Option<Option<u8>>
    ensures { result ≡ awaited_after_of awaited (value_of lexeme.entry) }
{
    match awaited {
        Some(mark) => {
            if is_mark(lexeme, mark) {
                Some(None)
            } else {
                Some(Some(mark))
            }
        }
        None => {
            if is_mark(lexeme, b',') {
                None
            } else if is_mark(lexeme, b'<') {
                Some(Some(b'>'))
            } else if is_mark(lexeme, b':') {
                Some(Some(b';'))
            } else {
                Some(None)
            }
        }
    }
}

/// The first place of a list, and what stands after the comma that ends it.
pub fn split_place<'a, 'b>(lexemes: Lexemes<'a, 'b>) -> Option<(Lexemes<'a, 'b>, Lexemes<'a, 'b>)>
    ensures found { IfSome result (λ x. SplitsPlace (values_of lexemes.entry) (values_of x.0) (values_of x.1)) }
    ensures shorter { IfSome result (λ x. length (values_of x.1) < length (values_of lexemes.entry)) }
    ensures none { IfNone result (IsLastPlace (values_of lexemes.entry)) }
{
    let mut awaited = None;
    let mut rest = lexemes;
    while let Some((lexeme, following)) = rest.split_first() {
        let Some(next) = awaited_after(awaited, lexeme) else {
            return Some((front_before(lexemes, rest), following));
        };
        awaited = next;
        rest = following;
    }
    None
}
