//! The words of an unstructured body, found one after another.
ghost use Rattle.std.specs.Prelude.{◌≡◌, ◌++◌, ℕ, List, false, position, IfOk};
ghost use Rattle.mail_wire.specs.Spans.{IsSpan};
ghost use Rattle.field_downgrade.specs.Words.{is_word_octet, is_gap_octet, TellsEncoded};
ghost use Rattle.field_downgrade.specs.private.Stretches.{first_where, TellsSide, SplitsLow, SplitsFirst};

use crate::segments::Side;
use encoded_words::read_word;
use mail_wire::{Memory, is_ascii};
use std::alloc::Global;

/// Words that stand together in a body, with the gaps between them, and the gap after the last one.
#[derive(Clone, Copy)]
pub struct Stretch<'a> {
    pub octets: &'a [u8],
    pub gap: &'a [u8],
    /// What the first word is, and the last one.
    pub first: Side,
    pub last: Side,
}

const NO_WORDS: Stretch<'static> = Stretch {
    octets: &[],
    gap: &[],
    first: Side::Edge,
    last: Side::Edge,
};

// Whether an octet may stand in a word: it is neither white nor CR nor LF.
fn is_word_octet(octet: u8) -> bool
    ensures { result ≡ is_word_octet octet }
{
    octet > b' ' || !matches!(octet, b' ' | b'\t' | b'\r' | b'\n')
}

fn find_word(octets: &[u8]) -> Option<usize>
    ensures { result ≡ position is_word_octet octets.now }
{
    octets.iter().position(|octet| is_word_octet(*octet))
}

fn find_gap(octets: &[u8]) -> Option<usize>
    ensures { result ≡ position is_gap_octet octets.now }
{
    octets.iter().position(|octet| !is_word_octet(*octet))
}

/// The longest front of gap octets, and what follows it.
pub fn split_gap(octets: &[u8]) -> (&[u8], &[u8])
    ensures { IsSpan is_gap_octet octets.now result.0.now result.1.now }
{
    match find_word(octets) {
        Some(at) => octets.split_at(at),
        None => octets.split_at(octets.len()),
    }
}

// The longest front of word octets, and what follows it.
fn split_word(octets: &[u8]) -> (&[u8], &[u8])
    ensures { IsSpan is_word_octet octets.now result.0.now result.1.now }
{
    match find_gap(octets) {
        Some(at) => octets.split_at(at),
        None => octets.split_at(octets.len()),
    }
}

// Whether a word begins as encoded words do.
fn begins_encoded(word: &[u8]) -> bool
    ensures { result ≡ false → TellsEncoded false word.now }
{
    matches!(word, [b'=', b'?', ..])
}

// Whether a word is an encoded word.
fn is_encoded(alloc: Global, word: &[u8]) -> Result<bool, Memory>
    ensures { IfOk result (λ is. TellsEncoded is word.now) }
{
    if !begins_encoded(word) {
        return Ok(false);
    }
    Ok(read_word(alloc, word)?.is_some())
}

// What a word is beside a core.
fn side_of(alloc: Global, word: &[u8]) -> Result<Side, Memory>
    ensures { IfOk result (λ side. TellsSide side word.now) }
{
    if is_encoded(alloc, word)? {
        Ok(Side::Encoded)
    } else {
        Ok(Side::Plain)
    }
}

// What stands before the octets at the end.
fn front_before<'a>(octets: &'a [u8], rest: &[u8]) -> &'a [u8]
    ensures { (front : List ℕ) → octets.now ≡ front ++ rest.now → result.now ≡ front }
{
    let (front, _) = octets.split_at(octets.len().saturating_sub(rest.len()));
    front
}

// What the first word is, where another one is put after the words.
fn first_of(first: Side, next: Side) -> Side
    ensures { result ≡ first_where first next }
{
    match first {
        Side::Edge => next,
        Side::Encoded => Side::Encoded,
        Side::Plain => Side::Plain,
    }
}

/// The words before the first one with an octet above 127, and what stands from that one on.
pub fn split_low<'a>(alloc: Global, body: &'a [u8]) -> Result<(Stretch<'a>, &'a [u8]), Memory>
    ensures { IfOk result (λ x. SplitsLow body.now x.0 x.1.now) }
{
    let mut low = NO_WORDS;
    let mut rest = body;
    while !rest.is_empty() {
        let (word, following) = split_word(rest);
        if !is_ascii(word) {
            return Ok((low, rest));
        }
        let (gap, next) = split_gap(following);
        let side = side_of(alloc, word)?;
        low = Stretch {
            octets: front_before(body, following),
            gap,
            first: first_of(low.first, side),
            last: side,
        };
        rest = next;
    }
    Ok((low, rest))
}

/// The words up to the last one with an octet above 127 that no encoded word stands before, and what stands after them.
pub fn split_core<'a>(alloc: Global, body: &'a [u8]) -> Result<(Stretch<'a>, &'a [u8]), Memory>
    ensures { IfOk result (λ x. SplitsFirst body.now x.0 x.1.now) }
{
    let mut core = NO_WORDS;
    let mut after_core = body;
    let mut rest = body;
    while !rest.is_empty() {
        let (word, following) = split_word(rest);
        if is_encoded(alloc, word)? {
            return Ok((core, after_core));
        }
        let (gap, next) = split_gap(following);
        if !is_ascii(word) {
            core = Stretch {
                octets: front_before(body, following),
                gap,
                first: Side::Plain,
                last: Side::Plain,
            };
            after_core = next;
        }
        rest = next;
    }
    Ok((core, after_core))
}
