//! The reader of both forms of an address.
ghost use Rattle.std.specs.Prelude.{◌≡◌, ◌≢◌, ◌<◌, ◌≤◌, ◌↔◌, ℕ, true, not, List, ◌∷◌, ◌++◌, length, position, IfOk, IfSome, IfNone, IsTrue};
ghost use Rattle.std.specs.List.{list_all};
ghost use Rattle.std.specs.Str.{IsUtf8};
ghost use Rattle.std.specs.Char.{encode_utf8, digit_value, IsScalar};
ghost use Rattle.mail_wire.specs.Spans.{IsSpan};
ghost use Rattle.encapsulated_fields.specs.Xtext.{is_hex_digit, hex_value, ReadsAs, BeginsCharacter, BeginsEscape, AreDigits};

use crate::address_forms::push_char;
use mail_wire::{Memory, Octets};
use std::alloc::Global;

// The value of a digit or a letter, and 36 of any other octet.
fn digit_value(octet: u8) -> u8
    ensures { result ≡ digit_value octet }
{
    match octet {
        b'0'..=b'9' => octet - b'0',
        b'A'..=b'Z' => octet - b'A' + 10,
        b'a'..=b'z' => octet - b'a' + 10,
        _ => 36,
    }
}

// The place of the first octet that is no hexadecimal digit.
fn find_other(octets: &[u8]) -> Option<usize>
    ensures { result ≡ position (λ x. not (is_hex_digit x)) octets.now }
{
    octets.iter().position(|octet| digit_value(*octet) >= 16)
}

// The longest front of hexadecimal digits, and what follows it.
fn split_digits(octets: &[u8]) -> (&[u8], &[u8])
    ensures { IsSpan is_hex_digit octets.now result.0.now result.1.now }
{
    match find_other(octets) {
        Some(at) => octets.split_at(at),
        None => octets.split_at(octets.len()),
    }
}

// The number that hexadecimal digits write.
fn hex_value(digits: &[u8]) -> u32
    requires hex { list_all is_hex_digit digits.now ≡ true }
    requires most { length digits.now ≤ 6 }
    ensures { result ≡ hex_value digits.now }
{
    let mut number = 0;
    for digit in digits {
        number = 16 * number + u32::from(digit_value(*digit));
    }
    number
}

// The character that the digits of an escape name.
fn named(digits: &[u8]) -> Option<char>
    requires { list_all is_hex_digit digits.now ≡ true }
    ensures found { IfSome result (λ c. AreDigits digits.now × (c ≡ hex_value digits.now)) }
    ensures none { IfNone result (¬ AreDigits digits.now) }
{
    if digits.len() < 2 || digits.len() > 6 {
        return None;
    }
    char::from_u32(hex_value(digits))
}

// What follows `x{`.
fn after_mark(text: &[u8]) -> Option<&[u8]>
    ensures found { IfSome result (λ rest. text.now ≡ 120 ∷ 123 ∷ rest.now) }
    ensures none { IfNone result ((rest : List ℕ) → text.now ≢ 120 ∷ 123 ∷ rest) }
{
    match text {
        [b'x', b'{', rest @ ..] => Some(rest),
        _ => None,
    }
}

// What follows `}`.
fn after_brace(text: &[u8]) -> Option<&[u8]>
    ensures found { IfSome result (λ rest. text.now ≡ 125 ∷ rest.now) }
    ensures none { IfNone result ((rest : List ℕ) → text.now ≢ 125 ∷ rest) }
{
    match text {
        [b'}', rest @ ..] => Some(rest),
        _ => None,
    }
}

// The character of an escape, of which the backslash was read, and what follows it.
fn first_escape(text: &[u8]) -> Option<(char, &[u8])>
    ensures found { IfSome result (λ x. BeginsEscape text.now x.0 x.1.now) }
    ensures none { IfNone result ((character : ℕ) (rest : List ℕ) → ¬ BeginsEscape text.now character rest) }
{
    let Some(after) = after_mark(text) else {
        return None;
    };
    let (digits, closing) = split_digits(after);
    let Some(rest) = after_brace(closing) else {
        return None;
    };
    match named(digits) {
        Some(character) => Some((character, rest)),
        None => None,
    }
}

// The first character of a text, and what follows it.
fn split_char(text: &str) -> Option<(char, &str)>
    ensures first { IfSome result (λ x. IsScalar x.0 × (text.now ≡ encode_utf8 x.0 ++ x.1.now)) }
    ensures none { IfNone result (length text.now ≡ 0) }
{
    let mut characters = text.chars();
    match characters.next() {
        Some(first) => Some((first, characters.as_str())),
        None => None,
    }
}

// The character that a text begins with, and what follows it.
fn first_item(text: &str) -> Option<(char, &str)>
    ensures found { IfSome result (λ x. BeginsCharacter text.now x.0 x.1.now) }
    ensures none { IfNone result ((character : ℕ) (rest : List ℕ) → ¬ BeginsCharacter text.now character rest) }
    ensures utf8 { IfSome result (λ x. IsUtf8 x.1.now) }
{
    let Some((first, after)) = split_char(text) else {
        return None;
    };
    if first != '\\' {
        return Some((first, after));
    }
    let Some((character, rest)) = first_escape(after.as_bytes()) else {
        return None;
    };
    Some((character, after.split_at(after.len() - rest.len()).1))
}

/// The address that a text in either form is read as, and nothing exactly where it is in neither.
pub fn read_xtext(alloc: Global, text: &[u8]) -> Result<Option<Octets>, Memory>
    ensures found { IfOk result (λ o. IfSome o (ReadsAs text.now)) }
    ensures none { IfOk result (λ o. IfNone o ((address : List ℕ) → ¬ ReadsAs text.now address)) }
{
    let Ok(mut rest) = str::from_utf8(text) else {
        return Ok(None);
    };
    let mut address = Octets::new(alloc);
    while !rest.is_empty() {
        let Some((character, after)) = first_item(rest) else {
            return Ok(None);
        };
        push_char(&mut address, character)?;
        rest = after;
    }
    Ok(Some(address))
}
