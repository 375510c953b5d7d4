//! Octets, lines, folds and UTF-8.
ghost use Rattle.std.specs.Prelude.{◌≡◌, ◌↔◌, ◌+◌, ◌-◌, ◌^◌, ◌<◌, ◌≤◌, List, ◌∷◌, ◌++◌, length, take, drop, not, position, slice_index, IsTrue, IsUtf8, IfOk, OnOk};
ghost use Rattle.std.specs.List.{list_all};
ghost use Rattle.std.specs.Iterator.{YieldsFirst, item_count};
ghost use Rattle.mail_wire.specs.Folds.{begins_fold, unfolded};
ghost use Rattle.mail_wire.specs.Octets.{is_white, is_ascii, same_name};
ghost use Rattle.mail_wire.specs.Spans.{IsSpan};
ghost use Rattle.mail_wire.specs.Lines.{crlf, lines_of, spans_from};
ghost use Rattle.memchr.specs.Find.{FindsNeedle};

use crate::values::{Memory, Octets, Span};
use memchr::memchr;
use std::alloc::Global;
use std::marker::Model;

/// Whether the octets are well-formed UTF-8.
pub fn is_utf8(octets: &[u8]) -> bool
    ensures { IsTrue result ↔ IsUtf8 octets.now }
{
    // most texts are ASCII, and that is found sooner
    is_ascii(octets) || simdutf8::is_utf8(octets)
}

/// Space or horizontal tab.
pub fn is_white(octet: u8) -> bool
    ensures { result ≡ is_white octet }
{
    octet == b' ' || octet == b'\t'
}

/// Whether each octet is a space or a horizontal tab.
pub fn is_white_text(text: &[u8]) -> bool
    ensures { result ≡ list_all is_white text.now }
{
    text.iter().all(|octet| is_white(*octet))
}

/// Whether each octet is below 128.
pub fn is_ascii(octets: &[u8]) -> bool
    ensures { result ≡ list_all is_ascii octets.now }
{
    // the highest octet tells, and is found without a branch, so that many are looked at together
    let mut highest: u8 = 0;
    for octet in octets {
        highest = highest.max(*octet);
    }
    highest < 128
}

/// Whether two names are the same, whatever the case of ASCII letters.
#[tactic(auto, unfolding(crate::specs::Octets::same_name))]
pub fn is_same_name(name: &[u8], other: &[u8]) -> bool
    ensures { result ≡ same_name name.now other.now }
{
    // What is of another length is found without a look at the octets.
    name.len() == other.len() && name.eq_ignore_ascii_case(other)
}

fn find_nonwhite(octets: &[u8]) -> Option<usize>
    ensures { result ≡ position (λ x. not (is_white x)) octets.now }
{
    octets.iter().position(|octet| !is_white(*octet))
}

/// The longest front of white, and what follows it.
pub fn split_white(octets: &[u8]) -> (&[u8], &[u8])
    ensures { IsSpan is_white octets.now result.0.now result.1.now }
{
    match find_nonwhite(octets) {
        Some(at) => octets.split_at(at),
        None => octets.split_at(octets.len()),
    }
}

// Whether CR stands before this place.
fn is_following_cr(octets: &[u8], at: usize) -> bool
    requires { at ≤ length octets.now }
    ensures { IsTrue result ↔ ((0 < at) × (slice_index octets.now (at - 1) ≡ 13)) }
{
    0 < at && octets[at - 1] == b'\r'
}

/// The place of the first CRLF. A search for one octet costs half of one for two, and most octets have no LF but those of CRLF.
pub fn find_crlf(octets: &[u8]) -> Option<usize>
    ensures { FindsNeedle octets.now crlf 0 result }
{
    let mut at = 0;
    while let Some(passed) = memchr(b'\n', &octets[at..]) {
        let found = at + passed;
        if is_following_cr(octets, found) {
            return Some(found - 1);
        }
        at = found + 1;
    }
    None
}

/// How long the first line is, with its CRLF.
pub fn line_len(octets: &[u8]) -> usize
    ensures bound { result ≤ length octets.now }
    ensures some { 0 < length octets.now → 0 < result }
    ensures line { 0 < length octets.now → lines_of octets.now ≡ take result octets.now ∷ lines_of (drop result octets.now) }
{
    match find_crlf(octets) {
        Some(at) => at + 2,
        None => octets.len(),
    }
}

/// The spans of lines, each with its CRLF.
pub fn lines(octets: &[u8]) -> LineSpans<'_>
    ensures { result ≡ spans_from 0 (lines_of octets.now) }
{
    LineSpans {
        at: 0,
        rest: octets,
    }
}

/// The spans of the lines that are left.
#[derive(Drop)]
pub struct LineSpans<'a> {
    at: usize,
    rest: &'a [u8],
}

impl<'a> Model for LineSpans<'a> {
    ghost use Rattle.std.specs.Prelude.{List, ◌+◌, ◌<◌, ◌^◌, length};
    ghost use Rattle.mail_wire.specs.declared.values.Span.{Span};
    ghost use Rattle.mail_wire.specs.Lines.{lines_of, spans_from};

    ghost Value = { List Span };

    ghost view = { λ a. spans_from a.at (lines_of a.rest.now) };

    ghost invariant = { λ a. a.at + length a.rest.now < 2 ^ 64 };
}

#[tactic(auto, unfolding(crate::specs::Lines::lines_of))]
impl Iterator for LineSpans<'_> {
    type Item = Span;

    ghost next_gives = { YieldsFirst (λ spans. spans) };

    ghost remaining = { item_count (λ spans. spans) };

    fn next(&mut self) -> Option<Span> {
        if self.rest.is_empty() {
            return None;
        }
        let at = self.at;
        let len = line_len(self.rest);
        self.rest = &self.rest[len..];
        self.at = at + len;
        Some(Span { at, len })
    }
}

/// Whether CRLF and white come first.
pub fn begins_fold(octets: &[u8]) -> bool
    ensures { result ≡ begins_fold octets.now }
{
    matches!(octets, [b'\r', b'\n', next, ..] if is_white(*next))
}

/// Puts the octets last, without each CRLF that white follows.
pub fn push_unfolded(made: &mut Octets, raw: &[u8]) -> Result<(), Memory>
    ensures { OnOk result (made.new ≡ made.old ++ unfolded raw.now) }
{
    let mut rest = raw;
    while let Some((first, others)) = rest.split_first() {
        if begins_fold(rest) {
            rest = &rest[2..];
        } else {
            made.push(*first)?;
            rest = others;
        }
    }
    Ok(())
}

/// The octets without each CRLF that white follows.
pub fn unfold(alloc: Global, raw: &[u8]) -> Result<Octets, Memory>
    ensures { IfOk result (λ made. made ≡ unfolded raw.now) }
{
    let mut made = Octets::new(alloc);
    push_unfolded(&mut made, raw)?;
    Ok(made)
}
