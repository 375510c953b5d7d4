//! The value of a field's body.
ghost use Rattle.std.specs.Prelude.{IfOk, IfSome};
ghost use Rattle.mail_wire.specs.Octets.{is_white};
ghost use Rattle.mail_wire.specs.Spans.{IsTrimmed};
ghost use Rattle.utf8_fields.specs.Parts.{HasValue};
ghost use Rattle.utf8_fields.specs.private.Steps.{TrimsEnd};

use mail_wire::{Memory, Octets, is_white, line_len, split_white, unfold};
use std::alloc::Global;

// The octets without the white at their end.
fn trim_end(octets: &[u8]) -> &[u8]
    ensures { TrimsEnd octets.now result.now }
{
    let mut rest = octets;
    while let Some((last, front)) = rest.split_last() {
        if !is_white(*last) {
            return rest;
        }
        rest = front;
    }
    rest
}

/// The octets without the white at both ends.
pub fn trim(octets: &[u8]) -> &[u8]
    ensures { IsTrimmed is_white octets.now result.now }
{
    let (_, rest) = split_white(octets);
    trim_end(rest)
}

/// The value of a body that is one line, in its place, and nothing where it may be of more.
pub fn line_value(body: &[u8]) -> Option<&[u8]>
    ensures { IfSome result (λ value. HasValue body.now value.now) }
{
    // no fold stands in one line
    if line_len(body) == body.len() {
        Some(trim(body))
    } else {
        None
    }
}

/// The value of a body.
pub fn value_of(alloc: Global, body: &[u8]) -> Result<Octets, Memory>
    ensures { IfOk result (HasValue body.now) }
{
    // most bodies are one line
    if let Some(value) = line_value(body) {
        return Octets::from_slice(alloc, value);
    }
    let unfolded = unfold(alloc, body)?;
    Octets::from_slice(alloc, trim(unfolded.as_slice()))
}
