//! Readers of strings. A reader stops at a literal's header, and goes on after the literal's octets.
ghost use Rattle.std.specs.Prelude.{◌≡◌, ◌≤◌, ℕ, Bool, List, None, Err, MatchResult};
ghost use Rattle.mail_wire.specs.Lines.{first_line};
ghost use Rattle.imap_words.specs.declared.stop.Stop.TheVariants.{More};
ghost use Rattle.imap_words.specs.Reading.{Reads, StopsReading, always, never};
ghost use Rattle.imap_words.specs.Languages.{IsBetween, SaysItself};
ghost use Rattle.imap_words.specs.Strings.{IsHeader, IsHeader8, IsPositive, IsNameHeader, IsHighChar, IsQuoted, IsQuotedName, IsHead, IsSpecial, IsOneQuoted, PutsSaid, IsNameHead, BeginsNoString, after_head, after_name_head, head_value, least_second as least_second_of, greatest_second as greatest_second_of};
ghost use Rattle.imap_words.specs.Tokens.{is_digit, is_quoted_special as is_quoted_special_of, is_quoted_text as is_quoted_text_of};

use crate::stop::Stop;
use crate::tokens::{Kind, line_end, number, octet, passes, run};
use mail_wire::Octets;
use std::alloc::Global;

/// What a string begins with: all of it as the octets that it says, or the size of a literal, whose octets follow.
#[derive(Drop)]
pub enum Head {
    Whole(Octets),
    Literal(u32),
}

/// Reads a literal's header, `{N}` and CRLF (`literal` of RFC 3501, 9), and gives N and what follows.
#[tactic(auto, using(crate::proofs::InLine::octet_open, crate::proofs::InLine::octet_joins, crate::proofs::InLine::number_open, crate::proofs::InLine::number_joins))]
pub fn header(text: &[u8]) -> Result<(u32, &[u8]), Stop>
    ensures more { result ≡ Err More → first_line text.now ≡ None }
    ensures reads { MatchResult result (λ x. Reads IsHeader never text.now x.0 x.1.now) (λ stop. StopsReading IsHeader never text.now stop) }
{
    let after_open = octet(b'{', text)?;
    let (size, after_size) = number(after_open)?;
    let after_close = octet(b'}', after_size)?;
    let rest = line_end(after_close)?;
    Ok((size, rest))
}

// Reads a number above 0.
fn positive(text: &[u8]) -> Result<(u32, &[u8]), Stop>
    ensures { MatchResult result (λ x. Reads IsPositive (always is_digit) text.now x.0 x.1.now) (λ stop. StopsReading IsPositive (always is_digit) text.now stop) }
{
    let (value, rest) = number(text)?;
    if value == 0 {
        if rest.is_empty() {
            return Err(Stop::More);
        }
        return Err(Stop::Bad(rest.len()));
    }
    Ok((value, rest))
}

// Reads the header of a literal that has an octet at least.
#[tactic(auto, using(crate::proofs::InLine::octet_open, crate::proofs::InLine::octet_joins, crate::proofs::InLine::positive_open, crate::proofs::InLine::positive_joins))]
fn name_header(text: &[u8]) -> Result<(u32, &[u8]), Stop>
    ensures more { result ≡ Err More → first_line text.now ≡ None }
    ensures reads { MatchResult result (λ x. Reads IsNameHeader never text.now x.0 x.1.now) (λ stop. StopsReading IsNameHeader never text.now stop) }
{
    let after_open = octet(b'{', text)?;
    let (size, after_size) = positive(after_open)?;
    let after_close = octet(b'}', after_size)?;
    let rest = line_end(after_close)?;
    Ok((size, rest))
}

/// Reads a literal8's header, `~{N}` and CRLF (RFC 6855, 4), and gives N and what follows.
#[tactic(auto, using(crate::proofs::InLine::octet_open, crate::proofs::InLine::octet_joins))]
pub fn header8(text: &[u8]) -> Result<(u32, &[u8]), Stop>
    ensures more { result ≡ Err More → first_line text.now ≡ None }
    ensures reads { MatchResult result (λ x. Reads IsHeader8 never text.now x.0 x.1.now) (λ stop. StopsReading IsHeader8 never text.now stop) }
{
    let after_tilde = octet(b'~', text)?;
    let (size, rest) = header(after_tilde)?;
    Ok((size, rest))
}

// ---- characters above 127

// Reads an octet from one to another.
fn between(low: u8, high: u8, text: &[u8]) -> Result<(u8, &[u8]), Stop>
    requires { low ≤ high }
    ensures { MatchResult result (λ x. Reads (IsBetween low high) never text.now x.0 x.1.now) (λ stop. StopsReading (IsBetween low high) never text.now stop) }
{
    let Some((first, rest)) = text.split_first() else {
        return Err(Stop::More);
    };
    if *first < low {
        return Err(Stop::Bad(text.len()));
    }
    if high < *first {
        return Err(Stop::Bad(text.len()));
    }
    Ok((*first, rest))
}

// From where on the second octet of a character goes, after this one.
fn least_second(first: u8) -> u8
    ensures { result ≡ least_second_of first }
{
    match first {
        224 => 160,
        240 => 144,
        _ => 128,
    }
}

// Up to where it goes.
fn greatest_second(first: u8) -> u8
    ensures { result ≡ greatest_second_of first }
{
    match first {
        237 => 159,
        244 => 143,
        _ => 191,
    }
}

// Reads the octets of a character above 127.
fn high_char(text: &[u8]) -> Result<(&[u8], &[u8]), Stop>
    ensures { MatchResult result (λ x. Reads (SaysItself IsHighChar) never text.now x.0.now x.1.now) (λ stop. StopsReading (SaysItself IsHighChar) never text.now stop) }
{
    let Some((first, others)) = text.split_first() else {
        return Err(Stop::More);
    };
    if *first < 194 {
        return Err(Stop::Bad(text.len()));
    }
    if *first > 244 {
        return Err(Stop::Bad(text.len()));
    }
    let (_, after_second) = between(least_second(*first), greatest_second(*first), others)?;
    if *first < 224 {
        return Ok(text.split_at(text.len() - after_second.len()));
    }
    let (_, after_third) = between(128, 191, after_second)?;
    if *first < 240 {
        return Ok(text.split_at(text.len() - after_third.len()));
    }
    let (_, after_fourth) = between(128, 191, after_third)?;
    Ok(text.split_at(text.len() - after_fourth.len()))
}

// ---- quoted strings

#[tactic(auto, unfolding(crate::specs::Tokens::is_quoted_text))]
fn is_quoted_text(octet: u8) -> bool
    ensures { result ≡ is_quoted_text_of octet }
{
    octet > 0 && octet < 128 && !b"\r\n\"\\".contains(&octet)
}

fn is_quoted_special(octet: u8) -> bool
    ensures { result ≡ is_quoted_special_of octet }
{
    octet == b'"' || octet == b'\\'
}

// Reads an octet that stands after a backslash, and puts it last.
fn special<'a>(value: &mut Octets, text: &'a [u8]) -> Result<&'a [u8], Stop>
    ensures { MatchResult result (λ rest. PutsSaid IsSpecial text.now rest.now value.old value.new) (λ stop. StopsReading IsSpecial never text.now stop) }
{
    let Some((first, rest)) = text.split_first() else {
        return Err(Stop::More);
    };
    if !is_quoted_special(*first) {
        return Err(Stop::Bad(text.len()));
    }
    let Ok(()) = value.push(*first) else {
        return Err(Stop::Memory);
    };
    Ok(rest)
}

// Reads a character of a quoted string, and puts what it says last. The quote that ends the string is none.
fn quoted_char<'a>(utf8: bool, value: &mut Octets, text: &'a [u8]) -> Result<&'a [u8], Stop>
    ensures { MatchResult result (λ rest. PutsSaid (IsOneQuoted utf8) text.now rest.now value.old value.new) (λ stop. StopsReading (IsOneQuoted utf8) never text.now stop) }
{
    let Some((first, others)) = text.split_first() else {
        return Err(Stop::More);
    };
    if is_quoted_text(*first) {
        let Ok(()) = value.push(*first) else {
            return Err(Stop::Memory);
        };
        return Ok(others);
    }
    if *first == b'\\' {
        let rest = special(value, others)?;
        return Ok(rest);
    }
    if *first < 128 {
        return Err(Stop::Bad(text.len()));
    }
    if !utf8 {
        return Err(Stop::Bad(text.len()));
    }
    let (octets, rest) = high_char(text)?;
    let Ok(()) = value.push_slice(octets) else {
        return Err(Stop::Memory);
    };
    Ok(rest)
}

// Reads a quoted string.
fn quoted(alloc: Global, utf8: bool, text: &[u8]) -> Result<(Octets, &[u8]), Stop>
    ensures { MatchResult result (λ x. Reads (IsQuoted utf8) never text.now x.0 x.1.now) (λ stop. StopsReading (IsQuoted utf8) never text.now stop) }
{
    let mut rest = octet(b'"', text)?;
    let mut value = Octets::new(alloc);
    while let Some((first, others)) = rest.split_first() {
        if *first == b'"' {
            return Ok((value, others));
        }
        rest = quoted_char(utf8, &mut value, rest)?;
    }
    Err(Stop::More)
}

// Reads a quoted string that is a field's name: one octet at least, and each may stand in a name.
fn quoted_name(alloc: Global, text: &[u8]) -> Result<(Octets, &[u8]), Stop>
    ensures { MatchResult result (λ x. Reads IsQuotedName never text.now x.0 x.1.now) (λ stop. StopsReading IsQuotedName never text.now stop) }
{
    let mut rest = octet(b'"', text)?;
    let mut value = Octets::new(alloc);
    while let Some((first, others)) = rest.split_first() {
        if *first == b'"' {
            if value.is_empty() {
                return Err(Stop::Bad(rest.len()));
            }
            return Ok((value, others));
        }
        if !passes(Kind::FieldName, *first) {
            return Err(Stop::Bad(rest.len()));
        }
        rest = quoted_char(false, &mut value, rest)?;
    }
    Err(Stop::More)
}

// ---- strings

/// Reads a run of octets of this kind, a quoted string, or a literal's header (`astring` and `list-mailbox` of RFC 3501, 9).
/// With `utf8` a quoted string may hold UTF-8 (RFC 6855, 3).
#[tactic(auto, using(crate::proofs::InLine::no_octet, crate::proofs::InLine::run_open, crate::proofs::InLine::quoted_open))]
pub fn string_head(
    alloc: Global,
    utf8: bool,
    kind: Kind,
    text: &[u8],
) -> Result<(Head, &[u8]), Stop>
    requires { BeginsNoString kind }
    ensures more { result ≡ Err More → first_line text.now ≡ None }
    ensures reads { MatchResult result (λ x. Reads (IsHead utf8 kind) (after_head kind) text.now (head_value x.0) x.1.now) (λ stop. StopsReading (IsHead utf8 kind) (after_head kind) text.now stop) }
{
    let Some((first, _)) = text.split_first() else {
        return Err(Stop::More);
    };
    if *first == b'{' {
        let (size, rest) = header(text)?;
        return Ok((Head::Literal(size), rest));
    }
    if *first == b'"' {
        let (octets, rest) = quoted(alloc, utf8, text)?;
        return Ok((Head::Whole(octets), rest));
    }
    let (octets, rest) = run(kind, text)?;
    let Ok(octets) = Octets::from_slice(alloc, octets) else {
        return Err(Stop::Memory);
    };
    Ok((Head::Whole(octets), rest))
}

/// Reads a field's name (`header-fld-name` of RFC 3501, 9), or the header of a literal that is one. It has an octet at least, and
/// each may stand in a name (RFC 5322, 2.2).
#[tactic(auto, using(crate::proofs::InLine::no_octet, crate::proofs::InLine::quoted_name_open))]
pub fn name_head(alloc: Global, text: &[u8]) -> Result<(Head, &[u8]), Stop>
    ensures more { result ≡ Err More → first_line text.now ≡ None }
    ensures reads { MatchResult result (λ x. Reads IsNameHead after_name_head text.now (head_value x.0) x.1.now) (λ stop. StopsReading IsNameHead after_name_head text.now stop) }
{
    let Some((first, _)) = text.split_first() else {
        return Err(Stop::More);
    };
    if *first == b'{' {
        let (size, rest) = name_header(text)?;
        return Ok((Head::Literal(size), rest));
    }
    if *first == b'"' {
        let (octets, rest) = quoted_name(alloc, text)?;
        return Ok((Head::Whole(octets), rest));
    }
    let (octets, rest) = run(Kind::NameAstring, text)?;
    let Ok(octets) = Octets::from_slice(alloc, octets) else {
        return Err(Stop::Memory);
    };
    Ok((Head::Whole(octets), rest))
}
