//! One address.
ghost use Rattle.std.specs.Prelude.{◌≡◌, ◌<◌, length, IfOk, IfSome, IfNone};
ghost use Rattle.address_grammar.specs.private.Lexemes.{is_special_of as is_mark_of, is_part as is_part_of, BeginsSo, BeginsOther, are_dotted as are_dotted_of};
ghost use Rattle.field_tokens.specs.Lexemes.{value_of, values_of};
ghost use Rattle.address_grammar.specs.Addresses.{is_one_literal as is_one_literal_of, is_domain as is_domain_of, IsAddress};
ghost use Rattle.address_grammar.specs.declared.Address.{Address};
ghost use Rattle.field_tokens.specs.Squeezed.{words_of};

use crate::lexemes::{are_blank, contents, first_word, is_atom, is_mark, is_word, split_at_mark};
use crate::{Address, AddressFault};
use field_tokens::{Lexeme, Lexemes, TokenKind};
use std::alloc::Global;

// What may stand between dots: an atom, or where it is allowed a quoted string.
fn is_part(lexeme: Lexeme<'_>, allows_quoted: bool) -> bool
    ensures { result ≡ is_part_of allows_quoted (value_of lexeme.entry) }
{
    if allows_quoted {
        is_word(lexeme)
    } else {
        is_atom(lexeme)
    }
}

// What stands after the first word, where that may stand between dots.
fn part_rest<'a, 'b>(lexemes: Lexemes<'a, 'b>, allows_quoted: bool) -> Option<Lexemes<'a, 'b>>
    ensures found { IfSome result (λ rest. BeginsSo (is_part_of allows_quoted) (values_of lexemes.entry) (values_of rest)) }
    ensures shorter { IfSome result (λ rest. length (values_of rest) < length (values_of lexemes.entry)) }
    ensures none { IfNone result (BeginsOther (is_part_of allows_quoted) (values_of lexemes.entry)) }
{
    let Some((word, rest)) = first_word(lexemes) else {
        return None;
    };
    if is_part(word, allows_quoted) {
        Some(rest)
    } else {
        None
    }
}

// What stands after the first word, where that is a dot.
fn dot_rest<'a, 'b>(lexemes: Lexemes<'a, 'b>) -> Option<Lexemes<'a, 'b>>
    ensures found { IfSome result (λ rest. BeginsSo (is_mark_of 46) (values_of lexemes.entry) (values_of rest)) }
    ensures shorter { IfSome result (λ rest. length (values_of rest) < length (values_of lexemes.entry)) }
    ensures none { IfNone result (BeginsOther (is_mark_of 46) (values_of lexemes.entry)) }
{
    let Some((word, rest)) = first_word(lexemes) else {
        return None;
    };
    if is_mark(word, b'.') {
        Some(rest)
    } else {
        None
    }
}

fn are_dotted(lexemes: Lexemes<'_, '_>, allows_quoted: bool) -> bool
    ensures { result ≡ are_dotted_of (is_part_of allows_quoted) (words_of (values_of lexemes.entry)) }
{
    let Some(mut rest) = part_rest(lexemes, allows_quoted) else {
        return false;
    };
    while let Some(following) = dot_rest(rest) {
        let Some(after) = part_rest(following, allows_quoted) else {
            return false;
        };
        rest = after;
    }
    are_blank(rest)
}

fn is_one_literal(lexemes: Lexemes<'_, '_>) -> bool
    ensures { result ≡ is_one_literal_of (words_of (values_of lexemes.entry)) }
{
    let Some((word, after)) = first_word(lexemes) else {
        return false;
    };
    matches!(word.kind, TokenKind::Literal) && first_word(after).is_none()
}

pub fn is_domain(lexemes: Lexemes<'_, '_>) -> bool
    ensures { result ≡ is_domain_of (values_of lexemes.entry) }
{
    are_dotted(lexemes, false) || is_one_literal(lexemes)
}

/// The address that tokens are.
pub fn read_address(alloc: Global, lexemes: Lexemes<'_, '_>) -> Result<Address, AddressFault>
    ensures ok { IfOk result (IsAddress (values_of lexemes.entry)) }
    ensures malformed { result ≡ Err AddressFault.Malformed → (address : Address) → ¬ IsAddress (values_of lexemes.entry) address }
{
    let Some((local, domain)) = split_at_mark(lexemes, b'@') else {
        return Err(AddressFault::Malformed);
    };
    if !are_dotted(local, true) {
        return Err(AddressFault::Malformed);
    }
    if !is_domain(domain) {
        return Err(AddressFault::Malformed);
    }
    let Ok(local) = contents(alloc, local) else {
        return Err(AddressFault::Memory);
    };
    let Ok(domain) = contents(alloc, domain) else {
        return Err(AddressFault::Memory);
    };
    Ok(Address { local, domain })
}
