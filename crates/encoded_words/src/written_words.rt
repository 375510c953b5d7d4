//! The writer of encoded words.
ghost use Rattle.std.specs.Prelude.{◌≡◌, ℕ, ◌<◌, ◌≤◌, nat_lt, List, [], ◌++◌, length, OnOk, OnErr};
ghost use Rattle.std.specs.List.{count_by};
ghost use Rattle.std.specs.Str.{IsUtf8};
ghost use Rattle.encoded_words.specs.Words.{q_spelling};
ghost use Rattle.encoded_words.specs.WrittenWords.{is_safe_octet as is_safe_octet_of, hex_digit as hex_digit_of, q_item, q_text, b_word, q_word, written_word, IsChunk, AddsWords, ReadBack};
ghost use Rattle.encoded_words.specs.private.Escapes.{is_escaped as is_escaped_of};
ghost use Rattle.encoded_words.specs.Folding.{AddsWordLines};

use base64::engine::general_purpose::STANDARD;
use mail_wire::{Memory, Octets};
use std::alloc::Global;

/// The most octets that one word holds.
const CHUNK: usize = 45;

/// The most octets of a word.
const WORD: usize = 72;

// The text of the first word, and the text after it.
fn split_chunk(text: &str) -> (&str, &str)
    requires { 0 < length text.now }
    ensures whole { text.now ≡ result.0.now ++ result.1.now }
    ensures chunk { IsChunk result.0.now result.1.now }
    ensures utf8 { IsUtf8 result.1.now }
{
    text.split_at(text.floor_char_boundary(CHUNK))
}

// Whether an octet stands for itself in a Q text.
fn is_safe_octet(octet: u8) -> bool
    ensures { result ≡ is_safe_octet_of octet }
{
    octet.is_ascii_alphanumeric() || b"!*+-/".contains(&octet)
}

// Whether a Q text has an octet by its digits.
fn is_escaped(octet: u8) -> bool
    ensures { result ≡ is_escaped_of octet }
{
    octet != b' ' && !is_safe_octet(octet)
}

// How many octets a Q text has by their digits.
fn count_escaped(octets: &[u8]) -> usize
    ensures { result ≡ count_by is_escaped_of octets.now }
{
    octets.iter().filter(|octet| is_escaped(**octet)).count()
}

// Whether the B word of a chunk is shorter than its Q word.
fn is_b_shorter(chunk: &[u8]) -> bool
    requires { length chunk.now ≤ 45 }
    ensures { result ≡ nat_lt (length (b_word chunk.now)) (length (q_word chunk.now)) }
{
    chunk.len().div_ceil(3) * 4 < chunk.len() + 2 * count_escaped(chunk)
}

// Puts the B word of a chunk last.
#[tactic(auto, unfolding(crate::specs::WrittenWords::b_word))]
fn push_b_word(made: &mut Octets, chunk: &[u8]) -> Result<(), Memory>
    requires { length chunk.now ≤ 45 }
    ensures { OnOk result (made.new ≡ made.old ++ b_word chunk.now) }
{
    let mut symbols = [0; 60];
    let Ok(len) = STANDARD.encode_slice(chunk, &mut symbols) else {
        unreachable!();
    };
    made.push_slice(b"=?UTF-8?B?")?;
    made.push_slice(&symbols[..len])?;
    made.push_slice(b"?=")
}

// The octet of a hexadecimal digit.
fn hex_digit(value: u8) -> u8
    requires { value < 16 }
    ensures { result ≡ hex_digit_of value }
{
    if value < 10 {
        b'0' + value
    } else {
        b'A' - 10 + value
    }
}

// Puts what a Q text has for an octet last.
fn push_q_octet(made: &mut Octets, octet: u8) -> Result<(), Memory>
    ensures { OnOk result (made.new ≡ made.old ++ q_spelling (q_item octet)) }
{
    if octet == b' ' {
        made.push(b'_')
    } else if is_safe_octet(octet) {
        made.push(octet)
    } else {
        made.push_slice(&[b'=', hex_digit(octet / 16), hex_digit(octet % 16)])
    }
}

// Puts the Q text of octets last.
fn push_q_text(made: &mut Octets, octets: &[u8]) -> Result<(), Memory>
    ensures { OnOk result (made.new ≡ made.old ++ q_text octets.now) }
{
    for octet in octets {
        push_q_octet(made, *octet)?;
    }
    Ok(())
}

// Puts the Q word of a chunk last.
#[tactic(auto, unfolding(crate::specs::WrittenWords::q_word))]
fn push_q_word(made: &mut Octets, chunk: &[u8]) -> Result<(), Memory>
    ensures { OnOk result (made.new ≡ made.old ++ q_word chunk.now) }
{
    made.push_slice(b"=?UTF-8?Q?")?;
    push_q_text(made, chunk)?;
    made.push_slice(b"?=")
}

// Puts the word of a chunk last.
#[tactic(auto, unfolding(crate::specs::WrittenWords::written_word))]
fn push_word(made: &mut Octets, chunk: &str) -> Result<(), Memory>
    requires { length chunk.now ≤ 45 }
    ensures { OnOk result (made.new ≡ made.old ++ written_word chunk.now) }
{
    let octets = chunk.as_bytes();
    if is_b_shorter(octets) {
        push_b_word(made, octets)
    } else {
        push_q_word(made, octets)
    }
}

/// Adds the words of a text. After want of memory the first of them were added.
pub fn write_words(alloc: Global, text: &[u8], pieces: &mut Vec<Octets>) -> Result<(), Memory>
    requires { IsUtf8 text.now }
    ensures ok { OnOk result (AddsWords text.now pieces.old.items pieces.new.items []) }
    // The words that were added, with a space between two, are read as the text.
    ensures read_back { OnOk result ((words : List (List ℕ)) → pieces.new.items ≡ pieces.old.items ++ words
        → ReadBack text.now words) }
    ensures err { OnErr result ((rest : List ℕ) × AddsWords text.now pieces.old.items pieces.new.items rest) }
{
    let Ok(mut rest) = str::from_utf8(text) else {
        unreachable!();
    };
    while !rest.is_empty() {
        let (chunk, after) = split_chunk(rest);
        let mut word = Octets::from_vec(Vec::with_capacity(alloc, WORD)?);
        push_word(&mut word, chunk)?;
        pieces.push(word)?;
        rest = after;
    }
    Ok(())
}

/// Puts the words of a text last, each on a line of its own, the first one after this white octet and the others after
/// a space. After want of memory a front of these lines was put.
pub fn push_words(made: &mut Octets, white: u8, text: &[u8]) -> Result<(), Memory>
    requires { IsUtf8 text.now }
    ensures { OnOk result (AddsWordLines text.now white made.old made.new) }
{
    let Ok(mut rest) = str::from_utf8(text) else {
        unreachable!();
    };
    let mut before = white;
    while !rest.is_empty() {
        let (chunk, after) = split_chunk(rest);
        made.push_slice(b"\r\n")?;
        made.push(before)?;
        push_word(made, chunk)?;
        before = b' ';
        rest = after;
    }
    Ok(())
}
