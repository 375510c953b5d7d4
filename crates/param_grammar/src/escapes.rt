//! The octets of extended values, read and written.
ghost use Rattle.std.specs.Prelude.{◌≡◌, ◌<◌, ◌≤◌, ℕ, List, [], ◌∷◌, ◌++◌, length, IfOk, OnOk, IfSome, IfNone};
ghost use Rattle.std.specs.Option.{SomeIff};
ghost use Rattle.std.specs.Char.{digit_value};
ghost use Rattle.param_grammar.specs.Escapes.{BeginsEscaped, IsEscaped, is_attribute_octet as is_attribute_octet_of, escaped_octet, escaped};

use encoded_words::hex_value;
use mail_wire::{Memory, Octets};
use percent_encoding::percent_encode_byte;
use std::alloc::Global;

// The first octet that a text spells, and the text after it.
fn first_octet(text: &[u8]) -> Option<(u8, &[u8])>
    requires { 0 < length text.now }
    ensures found { IfSome result (λ x. BeginsEscaped text.now x.0 x.1.now) }
    ensures none { IfNone result ((octet : ℕ) (rest : List ℕ) → ¬ BeginsEscaped text.now octet rest) }
{
    let [first, after @ ..] = text else {
        return None;
    };
    match *first {
        b'%' => {
            let [high, low, rest @ ..] = after else {
                return None;
            };
            let Some(high) = hex_value(*high) else {
                return None;
            };
            let Some(low) = hex_value(*low) else {
                return None;
            };
            Some((16 * high + low, rest))
        }
        octet => Some((octet, after)),
    }
}

/// The octets that a text spells, and nothing exactly where a `%` in it has no two hexadecimal digits after it.
pub fn read_escaped(alloc: Global, text: &[u8]) -> Result<Option<Octets>, Memory>
    ensures found { IfOk result (λ o. IfSome o (IsEscaped text.now)) }
    ensures none { IfOk result (λ o. IfNone o ((octets : List ℕ) → ¬ IsEscaped text.now octets)) }
{
    let mut octets = Octets::new(alloc);
    let mut rest = text;
    while !rest.is_empty() {
        let Some((octet, after)) = first_octet(rest) else {
            return Ok(None);
        };
        octets.push(octet)?;
        rest = after;
    }
    Ok(Some(octets))
}

// Whether an octet is written as it is.
fn is_attribute_octet(octet: u8) -> bool
    ensures { result ≡ is_attribute_octet_of octet }
{
    octet.is_ascii_alphanumeric() || b"!#$&+-.^_`{|}~".contains(&octet)
}

/// How many octets spell an octet.
pub fn escaped_len(octet: u8) -> usize
    ensures spelled { result ≡ length (escaped_octet octet) }
    ensures few { result ≤ 3 }
{
    if is_attribute_octet(octet) { 1 } else { 3 }
}

// Puts what spells an octet last.
fn push_octet(made: &mut Octets, octet: u8) -> Result<(), Memory>
    ensures { OnOk result (made.new ≡ made.old ++ escaped_octet octet) }
{
    if is_attribute_octet(octet) {
        made.push(octet)
    } else {
        made.push_slice(percent_encode_byte(octet).as_bytes())
    }
}

/// Puts what spells octets last.
pub fn push_escaped(made: &mut Octets, octets: &[u8]) -> Result<(), Memory>
    ensures spelled { OnOk result (made.new ≡ made.old ++ escaped octets.now) }
    ensures read_back { OnOk result (IsEscaped (escaped octets.now) octets.now) }
{
    for octet in octets {
        push_octet(made, *octet)?;
    }
    Ok(())
}
