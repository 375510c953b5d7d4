//! The units of a comment's text are read, or written as they are read.
ghost use Rattle.std.specs.Prelude.{◌≡◌, [], map, IfOk, OnOk, IfSome, IfNone, IsUtf8};
ghost use Rattle.mail_wire.specs.Octets.{is_nonwhite};
ghost use Rattle.mail_wire.specs.Spans.{Stops};
ghost use Rattle.encoded_words.specs.private.Values.{value_of};
ghost use Rattle.encoded_words.specs.CommentUnits.{HasCommentUnits};
ghost use Rattle.encoded_words.specs.private.CommentReading.{BeginsOctetItem, BeginsNonwhite, SplitsWord, GivesOctets, TakesCommentWord, TakesFirst};
ghost use Rattle.encoded_words.specs.Folding.{AddsLines};
ghost use Rattle.encoded_words.specs.Written.{WritesCommentText, has_no_backslash as has_no_backslash_of};

use crate::Unit;
use crate::units::Merging;
use crate::writing::write_units;
use mail_wire::{Memory, Octets, is_white, split_white};
use std::alloc::Global;

// The octet that the first octet or quoted pair gives, and what follows that.
fn first_item(octets: &[u8]) -> Option<(u8, &[u8])>
    ensures found { IfSome result (λ x. BeginsOctetItem octets.now x.0 x.1.now) }
    ensures none { IfNone result (octets.now ≡ []) }
{
    let [octet, after @ ..] = octets else {
        return None;
    };
    if *octet == b'\\' {
        let [quoted, following @ ..] = after else {
            return Some((*octet, after));
        };
        return Some((*quoted, following));
    }
    Some((*octet, after))
}

// What follows the first octet or quoted pair, where white doesn't come first.
fn after_nonwhite(octets: &[u8]) -> Option<&[u8]>
    ensures found { IfSome result (λ rest. BeginsNonwhite octets.now rest.now) }
    ensures none { IfNone result (Stops is_nonwhite octets.now) }
{
    let [octet, ..] = octets else {
        return None;
    };
    if is_white(*octet) {
        return None;
    }
    let Some((_, rest)) = first_item(octets) else {
        return None;
    };
    Some(rest)
}

// The longest front without white of its own, and what follows it. White of a quoted pair belongs to its word.
fn split_word(octets: &[u8]) -> (&[u8], &[u8])
    ensures { SplitsWord octets.now result.0.now result.1.now }
{
    let mut rest = octets;
    while let Some(after) = after_nonwhite(rest) {
        rest = after;
    }
    octets.split_at(octets.len() - rest.len())
}

// Whether there is no backslash.
fn has_no_backslash(octets: &[u8]) -> bool
    ensures { result ≡ has_no_backslash_of octets.now }
{
    octets.iter().all(|octet| *octet != b'\\')
}

// The word without the backslashes of its quoted pairs.
fn unquoted(alloc: Global, word: &[u8]) -> Result<Vec<u8>, Memory>
    ensures { IfOk result (λ octets. GivesOctets word.now octets.items) }
{
    let mut octets = Vec::new(alloc);
    let mut rest = word;
    while let Some((octet, after)) = first_item(rest) {
        octets.push(octet)?;
        rest = after;
    }
    Ok(octets)
}

// Takes the next word, and the run of white before it. Answers whether it is an encoded word.
fn push_word(
    alloc: Global,
    units: &mut Merging,
    run: &[u8],
    after_encoded: bool,
    word: &[u8],
) -> Result<bool, Memory>
    ensures { IfOk result (TakesCommentWord units.old units.new run.now after_encoded word.now) }
{
    if has_no_backslash(word) {
        return units.push_word(alloc, run, after_encoded, word);
    }
    let octets = unquoted(alloc, word)?;
    units.push_text(run)?;
    units.push_text(octets.as_slice())?;
    Ok(false)
}

// Takes the first word, and the run of white before it. Answers the run after it, whether it is an encoded word, and
// what is left.
fn take_word<'a>(
    alloc: Global,
    units: &mut Merging,
    run: &[u8],
    after_encoded: bool,
    rest: &'a [u8],
) -> Result<(&'a [u8], bool, &'a [u8]), Memory>
    ensures { IfOk result (λ x. TakesFirst units.old units.new run.now after_encoded rest.now x.0.now x.1 x.2.now) }
{
    let (word, after) = split_word(rest);
    let (next_run, next_rest) = split_white(after);
    let is_encoded = push_word(alloc, units, run, after_encoded, word)?;
    Ok((next_run, is_encoded, next_rest))
}

/// The units of what stands in a comment between two parentheses. White at either end says nothing.
pub fn read_comment(alloc: Global, text: &[u8]) -> Result<Vec<Unit>, Memory>
    ensures { IfOk result (λ units. HasCommentUnits text.now (map value_of units.items)) }
{
    let (_, mut rest) = split_white(text);
    let mut units = Merging::new(alloc);
    let mut run: &[u8] = &[];
    let mut after_encoded = false;
    while !rest.is_empty() {
        let (next_run, is_encoded, next_rest) = take_word(
            alloc,
            &mut units,
            run,
            after_encoded,
            rest,
        )?;
        run = next_run;
        after_encoded = is_encoded;
        rest = next_rest;
    }
    units.end_text(alloc)?;
    Ok(units.into_done())
}

/// Puts the pieces of what stands in a comment between two parentheses last, each on a line of its own. They are put as
/// it is read, so no more units are held at a time than one word ends.
pub fn rewrite_comment(alloc: Global, text: &[u8], made: &mut Octets) -> Result<(), Memory>
    requires { IsUtf8 text.now }
    ensures { OnOk result (AddsLines (WritesCommentText text.now) made.old made.new) }
{
    let (_, mut rest) = split_white(text);
    let mut units = Merging::new(alloc);
    let mut run: &[u8] = &[];
    let mut after_encoded = false;
    while !rest.is_empty() {
        let (next_run, is_encoded, next_rest) = take_word(
            alloc,
            &mut units,
            run,
            after_encoded,
            rest,
        )?;
        write_units(&units.take_done(alloc), made)?;
        run = next_run;
        after_encoded = is_encoded;
        rest = next_rest;
    }
    units.end_text(alloc)?;
    write_units(&units.into_done(), made)
}
