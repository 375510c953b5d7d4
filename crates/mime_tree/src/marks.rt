//! Lines, and what they are to a boundary.
ghost use Rattle.std.specs.Prelude.{◌≡◌, ◌<◌, ◌≤◌, ◌∷◌, ◌++◌, length, take, drop, nat_eq, true, false, MatchOption};
ghost use Rattle.std.specs.List.{starts_with};
ghost use Rattle.mail_wire.specs.Lines.{lines_of};
ghost use Rattle.mime_tree.specs.Marks.{text_of, dashes, is_padded};
ghost use Rattle.mime_tree.specs.private.Open.{mark_by, is_marked_text};

use mail_wire::{Octets, find_crlf, is_white_text};

/// The line before a part, or the one after the last.
#[derive(Clone, Copy)]
pub enum Mark {
    Delimiter,
    Close,
}

/// How long a line is, and how long its text is, which is all but its CRLF.
#[derive(Clone, Copy)]
pub struct Line {
    pub text: usize,
    pub len: usize,
}

/// The first line.
pub fn first_line(octets: &[u8]) -> Line
    ensures text { take result.text octets.now ≡ text_of (take result.len octets.now) }
    ensures whole { take result.text octets.now ≡ text_of octets.now }
    ensures order { result.text ≤ result.len }
    ensures bound { result.len ≤ length octets.now }
    ensures some { 0 < length octets.now → 0 < result.len }
    ensures line { 0 < length octets.now → lines_of octets.now ≡ take result.len octets.now ∷ lines_of (drop result.len octets.now) }
{
    match find_crlf(octets) {
        Some(text) => Line {
            text,
            len: text + 2,
        },
        None => Line {
            text: octets.len(),
            len: octets.len(),
        },
    }
}

/// What follows this beginning.
pub fn text_after<'a>(text: &'a [u8], beginning: &[u8]) -> Option<&'a [u8]>
    ensures { MatchOption result (starts_with nat_eq text.now beginning.now ≡ false)
        (λ rest. (starts_with nat_eq text.now beginning.now ≡ true) × (rest.now ≡ drop (length beginning.now) text.now)) }
{
    if text.starts_with(beginning) {
        let (_, rest) = text.split_at(beginning.len());
        Some(rest)
    } else {
        None
    }
}

/// What the text of a line is to a boundary.
pub fn mark_by(boundary: &[u8], text: &[u8]) -> Option<Mark>
    ensures { result ≡ mark_by boundary.now text.now }
{
    let Some(dashed) = text_after(text, b"--") else {
        return None;
    };
    let Some(tail) = text_after(dashed, boundary) else {
        return None;
    };
    if is_white_text(tail) {
        return Some(Mark::Delimiter);
    }
    let Some(tail) = text_after(tail, b"--") else {
        return None;
    };
    if is_white_text(tail) {
        Some(Mark::Close)
    } else {
        None
    }
}

/// Whether the line of this text is a delimiter line of the boundary.
pub fn is_delimiter(boundary: &[u8], text: &[u8]) -> bool
    ensures { result ≡ is_padded (dashes ++ boundary.now) text.now }
{
    let Some(dashed) = text_after(text, b"--") else {
        return false;
    };
    let Some(tail) = text_after(dashed, boundary) else {
        return false;
    };
    is_white_text(tail)
}

/// Whether one of the boundaries marks the line of this text.
pub fn is_marked(boundaries: &[Octets], text: &[u8]) -> bool
    ensures { result ≡ is_marked_text boundaries.now text.now }
{
    if !text.starts_with(b"--") {
        return false;
    }
    for boundary in boundaries {
        if mark_by(boundary.as_slice(), text).is_some() {
            return true;
        }
    }
    false
}
