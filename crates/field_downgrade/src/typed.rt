//! The rewriting of addresses after their type.
ghost use Rattle.std.specs.Prelude.{◌≡◌, ◌++◌, ◌==◌, ℕ, List, true, codes, position, IfOk, OnOk, IfSome, IfNone, IsUtf8, ◌∷◌, []};
ghost use Rattle.std.specs.List.{list_all};
ghost use Rattle.encapsulated_fields.specs.AddressForms.{xtext_form};
ghost use Rattle.encoded_words.specs.Folding.{lines_of};
ghost use Rattle.field_downgrade.specs.private.Steps.{WritesWhere};
ghost use Rattle.field_downgrade.specs.Typed.{is_no_semicolon, utf8_type, CutsType, IsTyped, TypedPieces};

use crate::lines::begin_line;
use encapsulated_fields::{read_xtext, xtext_of};
use mail_wire::{Memory, Octets, is_same_name};
use std::alloc::Global;
use utf8_fields::trim;

fn find_semicolon(value: &[u8]) -> Option<usize>
    ensures { result ≡ position (λ x. x == 59) value.now }
{
    value.iter().position(|octet| *octet == b';')
}

// What stands before the first `;`, and after it.
fn split_type(value: &[u8]) -> Option<(&[u8], &[u8])>
    ensures found { IfSome result (λ x. CutsType value.now x.0.now x.1.now) }
    ensures none { IfNone result (list_all is_no_semicolon value.now ≡ true) }
{
    let Some(at) = find_semicolon(value) else {
        return None;
    };
    let (front, rest) = value.split_at(at);
    match rest.split_first() {
        Some((_, following)) => Some((front, following)),
        None => unreachable!(),
    }
}

// A UTF-8 address, as it is written.
fn utf8_address(value: &[u8]) -> Option<&[u8]>
    ensures found { IfSome result (λ written. IsTyped value.now utf8_type written.now) }
    ensures none { IfNone result ((written : List ℕ) → ¬ IsTyped value.now utf8_type written) }
{
    let Some((front, following)) = split_type(value) else {
        return None;
    };
    if !is_same_name(trim(front), b"utf-8") {
        return None;
    }
    Some(trim(following))
}

// Puts a UTF-8 address in its ASCII form last, on a line of its own after its type.
fn push_typed(alloc: Global, address: &[u8], made: &mut Octets) -> Result<(), Memory>
    requires { IsUtf8 address.now }
    ensures { OnOk result (made.new ≡ made.old ++ lines_of ((codes "utf-8; " ++ xtext_form address.now) ∷ [])) }
{
    let form = xtext_of(alloc, address)?;
    begin_line(made, b' ')?;
    made.push_slice(b"utf-8; ")?;
    made.push_slice(form.as_slice())
}

/// Puts the piece of a UTF-8 address last, and answers whether there is one: an address of another type has none.
pub fn rewrite_typed(alloc: Global, value: &[u8], made: &mut Octets) -> Result<bool, Memory>
    ensures { IfOk result (λ wrote. WritesWhere wrote (TypedPieces value.now) made.old made.new) }
{
    let Some(written) = utf8_address(value) else {
        return Ok(false);
    };
    let Some(address) = read_xtext(alloc, written)? else {
        return Ok(false);
    };
    push_typed(alloc, address.as_slice(), made)?;
    Ok(true)
}
