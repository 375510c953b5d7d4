//! The reader of one encoded word.
ghost use Rattle.std.specs.Prelude.{◌≡◌, ◌≢◌, ◌<◌, ◌↔◌, ℕ, true, List, ◌∷◌, ◌++◌, length, IsTrue, Option, position, ◌==◌, IfOk, IfSome, IfNone};
ghost use Rattle.std.specs.List.{list_all};
ghost use Rattle.std.specs.Option.{SomeIff, option_copied};
ghost use Rattle.std.specs.Char.{digit_value};
ghost use Rattle.std.specs.Str.{str_to_ascii_lowercase};
ghost use Rattle.encoded_words.specs.private.Values.{value_of};
ghost use Rattle.encoded_words.specs.Words.{WordParts, HasWordParts, IsName, IsWordText, IsBText, IsQText, IsTextOf, BeginsQ, UnitValue, gives_text, IsEncodedWord, unit_of as unit_value, language_suffix, is_token_octet as is_name_octet_of, is_text_octet};
ghost use Rattle.encoded_words.specs.private.Parts.{lacks, wrapped, parts_value, IsCharsetName};

use crate::Unit;
use base64::DecodeAllocError;
use base64::engine::general_purpose::STANDARD;
use mail_wire::{Memory, Octets};
use std::alloc::Global;

/// The parts of an encoded word.
#[derive(Clone, Copy)]
struct Parts<'a> {
    charset: &'a [u8],
    language: Option<&'a [u8]>,
    letter: u8,
    text: &'a [u8],
}

// The place of the first such byte.
fn find_byte(octets: &[u8], byte: u8) -> Option<usize>
    ensures { result ≡ position (λ x. x == byte) octets.now }
{
    octets.iter().position(|b| *b == byte)
}

/// What stands before the first such byte, and what stands after it.
pub fn split_at_byte(octets: &[u8], byte: u8) -> Option<(&[u8], &[u8])>
    ensures found { IfSome result (λ x. (octets.now ≡ x.0.now ++ byte ∷ x.1.now) × (lacks byte x.0.now ≡ true)) }
    ensures none { IfNone result (lacks byte octets.now ≡ true) }
{
    let Some(at) = find_byte(octets, byte) else {
        return None;
    };
    Some((&octets[..at], &octets[at + 1..]))
}

// What stands between `=?` and `?=`.
fn unwrapped(word: &[u8]) -> Option<&[u8]>
    ensures found { IfSome result (λ inner. word.now ≡ wrapped inner.now) }
    ensures none { IfNone result ((inner : List ℕ) → word.now ≢ wrapped inner) }
{
    match word {
        [b'=', b'?', inner @ .., b'?', b'='] => Some(inner),
        _ => None,
    }
}

// Whether an octet may stand in a charset or a language.
fn is_name_octet(octet: u8) -> bool
    ensures { result ≡ is_name_octet_of octet }
{
    (33..=126).contains(&octet) && !b"()<>@,;:\\\"/[]?.=*".contains(&octet)
}

/// Whether each octet may stand in a charset or a language.
pub fn are_name_octets(octets: &[u8]) -> bool
    ensures { result ≡ list_all is_name_octet_of octets.now }
{
    octets.iter().all(|b| is_name_octet(*b))
}

// Whether octets are a charset or a language.
fn is_name(octets: &[u8]) -> bool
    ensures { IsTrue result ↔ IsName octets.now }
{
    !octets.is_empty() && are_name_octets(octets)
}

// Whether each octet may stand in the text of an encoded word.
fn are_text_octets(octets: &[u8]) -> bool
    ensures { result ≡ list_all is_text_octet octets.now }
{
    octets.iter().all(|b| *b > 32 && *b < 127 && *b != b'?')
}

// Whether octets are the text of an encoded word.
fn is_word_text(octets: &[u8]) -> bool
    ensures { IsTrue result ↔ IsWordText octets.now }
{
    !octets.is_empty() && are_text_octets(octets)
}

// Whether there is no language, or one that may stand in an encoded word.
fn is_language(language: Option<&[u8]>) -> bool
    ensures { IsTrue result ↔ IfSome (option_copied language.entry) IsName }
{
    match language {
        Some(language) => is_name(language),
        None => true,
    }
}

// What stands before the first star, and what stands after it.
fn cut_name(name: &[u8]) -> (&[u8], Option<&[u8]>)
    ensures spelled { name.now ≡ result.0.now ++ language_suffix (option_copied result.1) }
    ensures first { lacks 42 result.0.now ≡ true }
{
    match split_at_byte(name, b'*') {
        Some((charset, language)) => (charset, Some(language)),
        None => (name, None),
    }
}

// A charset, and a language where there is one.
fn named(name: &[u8]) -> Option<(&[u8], Option<&[u8]>)>
    ensures found { IfSome result (λ x. IsCharsetName name.now x.0.now (option_copied x.1)) }
    ensures none { IfNone result ((charset : List ℕ) (language : Option (List ℕ)) → ¬ IsCharsetName name.now charset language) }
{
    let (charset, language) = cut_name(name);
    if !is_name(charset) {
        return None;
    }
    if !is_language(language) {
        return None;
    }
    Some((charset, language))
}

// The letter of a word, and its text.
fn coded_parts(coded: &[u8]) -> Option<(u8, &[u8])>
    ensures found { IfSome result (λ x. (coded.now ≡ x.0 ∷ 63 ∷ x.1.now) × IsWordText x.1.now) }
    ensures none { IfNone result ((letter : ℕ) (text : List ℕ) → coded.now ≡ letter ∷ 63 ∷ text → ¬ IsWordText text) }
{
    match coded {
        [letter, b'?', text @ ..] if is_word_text(text) => Some((*letter, text)),
        _ => None,
    }
}

// The parts of an encoded word.
fn parts_of(word: &[u8]) -> Option<Parts<'_>>
    ensures found { IfSome result (λ p. HasWordParts word.now (parts_value p)) }
    ensures none { IfNone result ((p : WordParts) → ¬ HasWordParts word.now p) }
{
    if word.len() > 75 {
        return None;
    }
    let Some(inner) = unwrapped(word) else {
        return None;
    };
    let Some((name, coded)) = split_at_byte(inner, b'?') else {
        return None;
    };
    let Some((charset, language)) = named(name) else {
        return None;
    };
    let Some((letter, text)) = coded_parts(coded) else {
        return None;
    };
    Some(Parts {
        charset,
        language,
        letter,
        text,
    })
}

/// The value of a hexadecimal digit.
pub fn hex_value(octet: u8) -> Option<u8>
    ensures { SomeIff result (digit_value octet < 16) (digit_value octet) }
{
    match octet {
        b'0'..=b'9' => Some(octet - b'0'),
        b'A'..=b'F' => Some(octet - b'A' + 10),
        b'a'..=b'f' => Some(octet - b'a' + 10),
        _ => None,
    }
}

// The first octet that a Q text spells, and the text after it.
fn first_of_q(text: &[u8]) -> Option<(u8, &[u8])>
    requires { 0 < length text.now }
    ensures found { IfSome result (λ x. BeginsQ text.now x.0 x.1.now) }
    ensures none { IfNone result ((octet : ℕ) (rest : List ℕ) → ¬ BeginsQ text.now octet rest) }
{
    let [first, after @ ..] = text else {
        return None;
    };
    match *first {
        b'_' => Some((b' ', after)),
        b'=' => {
            let [high, low, rest @ ..] = after else {
                return None;
            };
            let Some(high) = hex_value(*high) else {
                return None;
            };
            let Some(low) = hex_value(*low) else {
                return None;
            };
            Some((16 * high + low, rest))
        }
        octet => Some((octet, after)),
    }
}

// The octets of a Q text.
fn decode_q(alloc: Global, text: &[u8]) -> Result<Option<Vec<u8>>, Memory>
    ensures found { IfOk result (λ o. IfSome o (λ v. IsQText text.now v.items)) }
    ensures none { IfOk result (λ o. IfNone o ((octets : List ℕ) → ¬ IsQText text.now octets)) }
{
    let mut octets = Vec::new(alloc);
    let mut rest = text;
    while !rest.is_empty() {
        let Some((octet, after)) = first_of_q(rest) else {
            return Ok(None);
        };
        octets.push(octet)?;
        rest = after;
    }
    Ok(Some(octets))
}

// The octets of a B text.
fn decode_b(alloc: Global, text: &[u8]) -> Result<Option<Vec<u8>>, Memory>
    ensures found { IfOk result (λ o. IfSome o (λ v. IsBText text.now v.items)) }
    ensures none { IfOk result (λ o. IfNone o ((octets : List ℕ) → ¬ IsBText text.now octets)) }
{
    match STANDARD.decode(alloc, text) {
        Ok(octets) => Ok(Some(octets)),
        Err(DecodeAllocError::DecodeError(_)) => Ok(None),
        Err(DecodeAllocError::OutOfMemory) => Err(Memory),
    }
}

// The octets of a word's text.
fn decode(alloc: Global, letter: u8, text: &[u8]) -> Result<Option<Vec<u8>>, Memory>
    ensures found { IfOk result (λ o. IfSome o (λ v. IsTextOf letter text.now v.items)) }
    ensures none { IfOk result (λ o. IfNone o ((octets : List ℕ) → ¬ IsTextOf letter text.now octets)) }
{
    match letter {
        b'B' | b'b' => decode_b(alloc, text),
        b'Q' | b'q' => decode_q(alloc, text),
        _ => Ok(None),
    }
}

/// Whether a charset, in any case, names these octets as text.
pub fn names_text(charset: &[u8], octets: &[u8]) -> bool
    ensures { result ≡ gives_text (str_to_ascii_lowercase charset.now) octets.now }
{
    if charset.eq_ignore_ascii_case(b"utf-8") {
        str::from_utf8(octets).is_ok()
    } else {
        charset.eq_ignore_ascii_case(b"us-ascii") && octets.is_ascii()
    }
}

/// Octets in lower case.
pub fn lower_case(alloc: Global, octets: &[u8]) -> Result<Octets, Memory>
    ensures { IfOk result (λ o. o ≡ str_to_ascii_lowercase octets.now) }
{
    let mut lower = Vec::from_slice(alloc, octets)?;
    lower.make_ascii_lowercase();
    Ok(Octets::from_vec(lower))
}

// What octets of a charset say.
#[tactic(auto, unfolding(crate::specs::Words::unit_of))]
fn unit_of(alloc: Global, charset: &[u8], octets: Vec<u8>, word: &[u8]) -> Result<Unit, Memory>
    ensures { IfOk result (λ u. value_of u ≡ unit_value charset.now octets.items word.now) }
{
    if names_text(charset, &octets) {
        return Ok(Unit::Text(Octets::from_vec(octets)));
    }
    let charset = lower_case(alloc, charset)?;
    let source = Octets::from_slice(alloc, word)?;
    Ok(Unit::Opaque {
        charset,
        octets: Octets::from_vec(octets),
        source,
    })
}

/// What an encoded word says, and nothing exactly where the octets are none.
pub fn read_word(alloc: Global, word: &[u8]) -> Result<Option<Unit>, Memory>
    ensures found { IfOk result (λ o. IfSome o (λ u. IsEncodedWord word.now (value_of u))) }
    ensures none { IfOk result (λ o. IfNone o ((unit : UnitValue) → ¬ IsEncodedWord word.now unit)) }
{
    let Some(parts) = parts_of(word) else {
        return Ok(None);
    };
    let Some(octets) = decode(alloc, parts.letter, parts.text)? else {
        return Ok(None);
    };
    let unit = unit_of(alloc, parts.charset, octets, word)?;
    Ok(Some(unit))
}
