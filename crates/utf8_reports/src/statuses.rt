//! Statuses of RFC 3463, and the codes of replies.
ghost use Rattle.std.specs.Prelude.{◌≡◌, ◌≢◌, ◌↔◌, ◌≤◌, ◌+◌, ◌++◌, ℕ, true, List, not, position, IsTrue, IfSome, IfNone, OnOk};
ghost use Rattle.mail_wire.specs.Numbers.{is_digit};
ghost use Rattle.mail_wire.specs.Spans.{IsSpan};
ghost use Rattle.utf8_reports.specs.Recipients.{IsDecimal, IsStatusCode, IsReplyCode, code_digits};
ghost use Rattle.utf8_reports.specs.private.Reading.{BeginsNumber};

use crate::fields::following;
use mail_wire::{Memory, Octets, are_digits};

fn find_other(octets: &[u8]) -> Option<usize>
    ensures { result ≡ position (λ x. not (is_digit x)) octets.now }
{
    octets
        .iter()
        .position(|octet| *octet < b'0' || *octet > b'9')
}

// The digits that a text begins with, and what follows them.
fn split_digits(text: &[u8]) -> (&[u8], &[u8])
    ensures { IsSpan is_digit text.now result.0.now result.1.now }
{
    match find_other(text) {
        Some(at) => text.split_at(at),
        None => text.split_at(text.len()),
    }
}

// What follows a number and a dot.
fn after_number(text: &[u8]) -> Option<&[u8]>
    ensures found { IfSome result (λ rest. BeginsNumber text.now rest.now) }
    ensures none { IfNone result ((rest : List ℕ) → ¬ BeginsNumber text.now rest) }
{
    let (digits, after) = split_digits(text);
    if digits.is_empty() {
        return None;
    }
    following(after, b".")
}

fn is_decimal(text: &[u8]) -> bool
    ensures { IsTrue result ↔ IsDecimal text.now }
{
    !text.is_empty() && are_digits(text)
}

/// Whether the text is a status.
pub fn is_status(text: &[u8]) -> bool
    ensures { IsTrue result ↔ IsStatusCode text.now }
{
    let Some(after_class) = after_number(text) else {
        return false;
    };
    let Some(detail) = after_number(after_class) else {
        return false;
    };
    is_decimal(detail)
}

/// Puts the digits of a code last.
pub fn push_code(made: &mut Octets, code: u16) -> Result<(), Memory>
    requires { IsReplyCode code }
    ensures { OnOk result (made.new ≡ made.old ++ code_digits code) }
{
    made.push(b'0' + (code / 100) as u8)?;
    made.push(b'0' + (code / 10 % 10) as u8)?;
    made.push(b'0' + (code % 10) as u8)
}

// The number of a digit.
fn digit_value(digit: u8) -> u16
    requires { is_digit digit ≡ true }
    ensures number { digit ≡ 48 + result }
    ensures bound { result ≤ 9 }
{
    u16::from(digit - b'0')
}

// The number of three digits.
fn three_digits(text: &[u8]) -> Option<u16>
    ensures found { IfSome result (λ number. (number ≤ 999) × (text.now ≡ code_digits number)) }
    ensures none { IfNone result ((number : ℕ) → number ≤ 999 → text.now ≢ code_digits number) }
{
    if !are_digits(text) {
        return None;
    }
    match text {
        [hundreds, tens, ones] => Some(
            100 * digit_value(*hundreds) + 10 * digit_value(*tens) + digit_value(*ones),
        ),
        _ => None,
    }
}

/// The code of these digits.
pub fn read_code(text: &[u8]) -> Option<u16>
    ensures found { IfSome result (λ code. IsReplyCode code × (text.now ≡ code_digits code)) }
    ensures none { IfNone result ((code : ℕ) → IsReplyCode code → text.now ≢ code_digits code) }
{
    match three_digits(text) {
        Some(code) if 200 <= code && code <= 599 => Some(code),
        _ => None,
    }
}
