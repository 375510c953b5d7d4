//! xtext (RFC 3461, 4).
ghost use Rattle.std.specs.Prelude.{◌≡◌, ◌≢◌, ℕ, ◌+◌, ◌*◌, ◌<◌, ◌≤◌, ◌↔◌, List, [], ◌∷◌, ◌++◌, length, count_by, not, IfOk, IfSome, IfNone, OnOk, IsTrue};
ghost use Rattle.std.specs.List.{list_all};
ghost use Rattle.encapsulated_fields.specs.AddressForms.{upper_digit, digit_at};
ghost use Rattle.dsn_terms.specs.Xtexts.{is_xchar as is_xchar_of, is_printable as is_printable_of, IsXtext, IsPrintableXtext, BeginsDigits, BeginsUnit, shortest_unit, shortest_xtext};

use mail_wire::{Memory, Octets};
use std::alloc::Global;

// Whether an octet stands for itself.
fn is_xchar(octet: u8) -> bool
    ensures { result ≡ is_xchar_of octet }
{
    let is_visible = octet > b' ' && octet <= b'~';
    is_visible && !(octet == b'+' || octet == b'=')
}

fn is_printable(octet: u8) -> bool
    ensures { result ≡ is_printable_of octet }
{
    (b' '..=b'~').contains(&octet)
}

/// Whether each octet is a visible ASCII character or a space.
pub(crate) fn are_printable(octets: &[u8]) -> bool
    ensures { result ≡ list_all is_printable_of octets.now }
{
    octets.iter().all(|octet| is_printable(*octet))
}

// The value of a hexadecimal digit in upper case.
fn digit_value(digit: u8) -> Option<u8>
    ensures found { IfSome result (λ value. (value < 16) × (digit ≡ upper_digit value)) }
    ensures none { IfNone result ((value : ℕ) → value < 16 → digit ≢ upper_digit value) }
{
    match digit {
        b'0'..=b'9' => Some(digit - b'0'),
        b'A'..=b'F' => Some(digit - b'A' + 10),
        _ => None,
    }
}

// The octet of two digits.
fn octet_of(high: u8, low: u8) -> Option<u8>
    ensures found { IfSome result (λ octet. (octet < 256) × (high ≡ digit_at 16 octet) × (low ≡ digit_at 1 octet)) }
    ensures none { IfNone result ((octet : ℕ) → octet < 256 → high ≡ digit_at 16 octet → low ≢ digit_at 1 octet) }
{
    let high = digit_value(high)?;
    let low = digit_value(low)?;
    Some(16 * high + low)
}

// The octet whose digits a text begins with, of which `+` was read, and what follows them.
fn after_plus(text: &[u8]) -> Option<(u8, &[u8])>
    ensures found { IfSome result (λ x. BeginsDigits text.now x.0 x.1.now) }
    ensures none { IfNone result ((octet : ℕ) (rest : List ℕ) → ¬ BeginsDigits text.now octet rest) }
{
    let [high, low, rest @ ..] = text else {
        return None;
    };
    let octet = octet_of(*high, *low)?;
    Some((octet, rest))
}

// The octet that a text begins with, by itself or by its digits, and what follows it.
fn first_octet(text: &[u8]) -> Option<(u8, &[u8])>
    ensures found { IfSome result (λ x. BeginsUnit text.now x.0 x.1.now) }
    ensures none { IfNone result ((octet : ℕ) (rest : List ℕ) → ¬ BeginsUnit text.now octet rest) }
{
    let Some((first, after)) = text.split_first() else {
        return None;
    };
    if is_xchar(*first) {
        return Some((*first, after));
    }
    if *first != b'+' {
        return None;
    }
    after_plus(after)
}

// The octets that a text is xtext of.
fn read_octets(alloc: Global, text: &[u8]) -> Result<Option<Octets>, Memory>
    ensures found { IfOk result (λ o. IfSome o (IsXtext text.now)) }
    ensures none { IfOk result (λ o. IfNone o ((octets : List ℕ) → ¬ IsXtext text.now octets)) }
{
    let mut octets = Octets::new(alloc);
    let mut rest = text;
    while !rest.is_empty() {
        let Some((octet, after)) = first_octet(rest) else {
            return Ok(None);
        };
        octets.push(octet)?;
        rest = after;
    }
    Ok(Some(octets))
}

/// The printable octets that a text is xtext of.
pub(crate) fn read_printable(alloc: Global, text: &[u8]) -> Result<Option<Octets>, Memory>
    ensures found { IfOk result (λ o. IfSome o (IsPrintableXtext text.now)) }
    ensures none { IfOk result (λ o. IfNone o ((octets : List ℕ) → ¬ IsPrintableXtext text.now octets)) }
{
    let Some(octets) = read_octets(alloc, text)? else {
        return Ok(None);
    };
    if !are_printable(octets.as_slice()) {
        return Ok(None);
    }
    Ok(Some(octets))
}

fn escaped_count(octets: &[u8]) -> usize
    ensures { result ≡ count_by (λ x. not (is_xchar_of x)) octets.now }
{
    octets.iter().filter(|octet| !is_xchar(**octet)).count()
}

/// Whether the shortest xtext of the octets has at most so many.
pub(crate) fn fits_xtext(octets: &[u8], most: usize) -> bool
    requires { most ≤ 1000 }
    ensures { IsTrue result ↔ (length (shortest_xtext octets.now) ≤ most) }
{
    if octets.len() > most {
        return false;
    }
    octets.len() + 2 * escaped_count(octets) <= most
}

// An upper-case hexadecimal digit.
fn upper_digit(digit: u8) -> u8
    requires { digit < 16 }
    ensures { result ≡ upper_digit digit }
{
    match digit {
        0..=9 => b'0' + digit,
        _ => b'A' - 10 + digit,
    }
}

// Puts an octet last by its digits.
fn push_digits(made: &mut Octets, octet: u8) -> Result<(), Memory>
    ensures { OnOk result (made.new ≡ made.old ++ 43 ∷ digit_at 16 octet ∷ digit_at 1 octet ∷ []) }
{
    made.push(b'+')?;
    made.push(upper_digit(octet / 16))?;
    made.push(upper_digit(octet % 16))
}

// Puts an octet last, by itself where it can stand for itself.
fn push_unit(made: &mut Octets, octet: u8) -> Result<(), Memory>
    ensures { OnOk result (made.new ≡ made.old ++ shortest_unit octet) }
{
    if is_xchar(octet) {
        made.push(octet)
    } else {
        push_digits(made, octet)
    }
}

/// Puts the shortest xtext of octets last.
pub(crate) fn push_xtext(made: &mut Octets, octets: &[u8]) -> Result<(), Memory>
    ensures { OnOk result (made.new ≡ made.old ++ shortest_xtext octets.now) }
{
    for octet in octets {
        push_unit(made, *octet)?;
    }
    Ok(())
}
