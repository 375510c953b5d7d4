//! Mailbox names in modified UTF-7 (RFC 3501, 5.1.3).
ghost use Rattle.std.specs.Prelude.{◌≡◌, ◌≢◌, ◌<◌, ◌++◌, ◌∷◌, ℕ, List, [], length, IfOk, OnOk, IfSome, IfNone, IsSomeAnd, IsUtf8, Some, None, Ok, not, position, string_bytes, true};
ghost use Rattle.std.specs.List.{list_all};
ghost use Rattle.std.specs.Str.{chars};
ghost use Rattle.std.specs.Char.{IsScalar};
ghost use Rattle.mail_wire.specs.Octets.{is_ascii};
ghost use Rattle.base64.specs.GeneralPurpose.{IsBytes};
ghost use Rattle.imap_words.specs.Utf7.{is_printable as is_printable_of, unit_octets, char_octets, utf16_octets, modified_base64, shifted, unshifted, modified_utf7, encoded, AreScalars, IsShift, is_no_dash, has_no_dash};

use base64::engine::general_purpose::{GeneralPurpose, NO_PAD};
use base64::{DecodeAllocError, alphabet};
use mail_wire::{Memory, Octets};
use std::alloc::Global;

fn is_printable(c: char) -> bool
    ensures { result ≡ is_printable_of c }
{
    ' ' <= c && c <= '~'
}

// ---- writing

fn push_unit(octets: &mut Octets, unit: u16) -> Result<(), Memory>
    ensures { OnOk result (octets.new ≡ octets.old ++ unit_octets unit) }
{
    octets.push((unit / 256) as u8)?;
    octets.push((unit % 256) as u8)
}

// Puts a character's units last.
fn push_char(octets: &mut Octets, c: char) -> Result<(), Memory>
    ensures { OnOk result (octets.new ≡ octets.old ++ char_octets c) }
{
    let code = u32::from(c);
    if code < 65_536 {
        return push_unit(octets, code as u16);
    }
    let above = code - 65_536;
    push_unit(octets, (55_296 + above / 1024) as u16)?;
    push_unit(octets, (56_320 + above % 1024) as u16)
}

// Puts the symbols of octets last.
fn push_symbols(alloc: Global, made: &mut Octets, octets: &[u8]) -> Result<(), Memory>
    ensures { OnOk result (made.new ≡ made.old ++ modified_base64 octets.now) }
{
    let engine = GeneralPurpose::new(&alphabet::IMAP_MUTF7, NO_PAD);
    let text = engine.encode(alloc, octets)?;
    made.push_slice(text.as_bytes())
}

// Ends a run of characters that aren't printable, where there is one.
fn push_shifted(alloc: Global, made: &mut Octets, octets: &mut Octets) -> Result<(), Memory>
    ensures written { OnOk result (made.new ≡ made.old ++ shifted octets.old) }
    ensures ended { OnOk result (octets.new ≡ []) }
{
    if octets.is_empty() {
        return Ok(());
    }
    made.push(b'&')?;
    push_symbols(alloc, made, octets.as_slice())?;
    made.push(b'-')?;
    octets.clear();
    Ok(())
}

fn push_printable(made: &mut Octets, c: char) -> Result<(), Memory>
    requires { is_printable_of c ≡ true }
    ensures { OnOk result (made.new ≡ made.old ++ unshifted c) }
{
    made.push(u32::from(c) as u8)?;
    if c == '&' {
        made.push(b'-')?;
    }
    Ok(())
}

/// The name in modified UTF-7.
pub fn write_mutf7(alloc: Global, name: &str) -> Result<Octets, Memory>
    ensures form { IfOk result (λ text. text ≡ modified_utf7 name.now) }
    ensures ascii { IfOk result (λ text. list_all is_ascii text ≡ true) }
{
    let mut made = Octets::new(alloc);
    let mut octets = Octets::new(alloc);
    for c in name.chars() {
        if is_printable(c) {
            push_shifted(alloc, &mut made, &mut octets)?;
            push_printable(&mut made, c)?;
        } else {
            push_char(&mut octets, c)?;
        }
    }
    push_shifted(alloc, &mut made, &mut octets)?;
    Ok(made)
}

// ---- reading

// The first unit, and what follows it.
fn first_unit(octets: &[u8]) -> Option<(u16, &[u8])>
    ensures found { IfSome result (λ r. octets.now ≡ unit_octets r.0 ++ r.1.now) }
    ensures none { IfNone result (length octets.now < 2) }
{
    match octets {
        [high, low, rest @ ..] => Some((u16::from(*high) * 256 + u16::from(*low), rest)),
        _ => None,
    }
}

// The first character, and what follows it. Octets that no character has may give one.
fn first_char(octets: &[u8]) -> Option<(char, &[u8])>
    ensures found { (c : ℕ) (rest : List ℕ) → IsScalar c → octets.now ≡ char_octets c ++ rest → IsSomeAnd result (λ r. (r.0 ≡ c) × (r.1.now ≡ rest)) }
    ensures shorter { IfSome result (λ r. length r.1.now < length octets.now) }
{
    let (unit, rest) = first_unit(octets)?;
    if unit < 55_296 || unit > 56_319 {
        let c = char::from_u32(u32::from(unit))?;
        return Some((c, rest));
    }
    let (low, rest) = first_unit(rest)?;
    if low < 56_320 || low > 57_343 {
        return None;
    }
    let c = char::from_u32(65_536 + (u32::from(unit) - 55_296) * 1024 + (u32::from(low) - 56_320))?;
    Some((c, rest))
}

// Puts the characters of octets last. Where octets are left that aren't any, it answers false.
fn push_chars(name: &mut String, octets: &[u8]) -> Result<bool, Memory>
    ensures { (cs : List ℕ) → AreScalars cs → octets.now ≡ utf16_octets cs → OnOk result ((result ≡ Ok true) × (string_bytes name.new ≡ string_bytes name.old ++ encoded cs)) }
{
    let mut rest = octets;
    while let Some((c, others)) = first_char(rest) {
        name.push(c)?;
        rest = others;
    }
    Ok(rest.is_empty())
}

// Puts the characters last that these symbols write. Where they write none, it answers false.
fn push_run(alloc: Global, name: &mut String, symbols: &[u8]) -> Result<bool, Memory>
    ensures { (cs : List ℕ) → AreScalars cs → symbols.now ≡ modified_base64 (utf16_octets cs) → OnOk result ((result ≡ Ok true) × (string_bytes name.new ≡ string_bytes name.old ++ encoded cs)) }
{
    let engine = GeneralPurpose::new(&alphabet::IMAP_MUTF7, NO_PAD);
    match engine.decode(alloc, symbols) {
        Ok(octets) => push_chars(name, &octets),
        Err(DecodeAllocError::DecodeError(_)) => Ok(false),
        Err(DecodeAllocError::OutOfMemory) => Err(Memory),
    }
}

// Puts the characters last that stand between `&` and `-` so.
fn push_shift(alloc: Global, name: &mut String, symbols: &[u8]) -> Result<bool, Memory>
    ensures { (cs : List ℕ) → IsShift symbols.now cs → OnOk result ((result ≡ Ok true) × (string_bytes name.new ≡ string_bytes name.old ++ encoded cs)) }
{
    if symbols.is_empty() {
        name.push('&')?;
        return Ok(true);
    }
    push_run(alloc, name, symbols)
}

fn find_dash(text: &[u8]) -> Option<usize>
    ensures { result ≡ position (λ x. not (is_no_dash x)) text.now }
{
    text.iter().position(|octet| *octet == b'-')
}

// What stands before the first `-`, and what follows it.
fn split_run(text: &[u8]) -> Option<(&[u8], &[u8])>
    ensures found { (run following : List ℕ) → has_no_dash run ≡ true → text.now ≡ run ++ 45 ∷ following → IsSomeAnd result (λ r. (r.0.now ≡ run) × (r.1.now ≡ following)) }
    ensures shorter { IfSome result (λ r. length r.1.now < length text.now) }
{
    let at = find_dash(text)?;
    Some((&text[..at], &text[at + 1..]))
}

// A name that is written so, if there is one; a text that writes no name may give one, too.
fn likely_name(alloc: Global, text: &[u8]) -> Result<Option<String>, Memory>
    ensures { (name : List ℕ) → IsUtf8 name → text.now ≡ modified_utf7 name → IfOk result (λ r. IsSomeAnd r (λ s. string_bytes s ≡ name)) }
{
    let mut name = String::new(alloc);
    let mut rest = text;
    while let Some((first, others)) = rest.split_first() {
        if *first != b'&' {
            name.push(char::from(*first))?;
            rest = others;
            continue;
        }
        let Some((run, following)) = split_run(others) else {
            return Ok(None);
        };
        if !push_shift(alloc, &mut name, run)? {
            return Ok(None);
        }
        rest = following;
    }
    Ok(Some(name))
}

/// The name that the text is in modified UTF-7. It is read in the one spelling that `write_mutf7` gives.
pub fn read_mutf7(alloc: Global, text: &[u8]) -> Result<Option<Octets>, Memory>
    ensures some { IfOk result (λ r. IfSome r (λ name. IsUtf8 name × (text.now ≡ modified_utf7 name))) }
    ensures none { IfOk result (λ r. IfNone r ((name : List ℕ) → IsUtf8 name → text.now ≢ modified_utf7 name)) }
    ensures read_back { (name : List ℕ) → IsUtf8 name → text.now ≡ modified_utf7 name → IfOk result (λ r. r ≡ Some name) }
{
    let Some(name) = likely_name(alloc, text)? else {
        return Ok(None);
    };
    let written = write_mutf7(alloc, name.as_str())?;
    if written.as_slice() != text {
        return Ok(None);
    }
    Ok(Some(Octets::from_vec(name.into_bytes())))
}
