//! The reader of tokens.
ghost use Rattle.std.specs.Prelude.{◌≡◌, ◌<◌, ℕ, List, length, not, position, ◌&&◌, ◌==◌, IfSome, IfNone, IfOk, MatchResult, IsTrue, IsUtf8, ◌↔◌};
ghost use Rattle.std.specs.List.{list_all};
ghost use Rattle.mail_wire.specs.Spans.{IsSpan};
ghost use Rattle.field_tokens.specs.TokenOctets.{is_mail, is_special as is_special_of, is_mark as is_mark_of, is_atom_octet as is_atom_octet_of, is_above_cr, is_line_octet};
ghost use Rattle.field_tokens.specs.Tokens.{IsLine, BeginsToken, HasTokens};
ghost use Rattle.field_tokens.specs.declared.Token.{Token};
ghost use Rattle.field_tokens.specs.declared.TokenKind.{TokenKind};

use crate::groups::{COMMENT, LITERAL, QUOTED, group_rest, is_control};
use crate::{Style, Token, TokenFault, TokenKind};
use mail_wire::{Memory, Span, is_ascii, is_white, split_white};
use std::alloc::Global;

// Whether an octet is a token of its own.
fn is_special(style: Style, octet: u8) -> bool
    ensures { result ≡ is_special_of style octet }
{
    match style {
        Style::Mail => matches!(octet, b'<' | b'>' | b':' | b';' | b'@' | b',' | b'.'),
        Style::Mime => matches!(
            octet,
            b'<' | b'>' | b'@' | b',' | b';' | b':' | b'/' | b'[' | b']' | b'?' | b'='
        ),
    }
}

// Whether an octet begins or ends a group, or quotes.
fn is_mark(style: Style, octet: u8) -> bool
    ensures { result ≡ is_mark_of style octet }
{
    match style {
        Style::Mail => matches!(octet, b'(' | b')' | b'"' | b'\\' | b'[' | b']'),
        Style::Mime => matches!(octet, b'(' | b')' | b'"' | b'\\'),
    }
}

// Whether an octet begins a literal.
fn opens_literal(style: Style, octet: u8) -> bool
    ensures { result ≡ (is_mail style && octet == 91) }
{
    matches!(style, Style::Mail) && octet == b'['
}

/// Whether an octet may stand in an atom.
pub fn is_atom_octet(style: Style, octet: u8) -> bool
    ensures { result ≡ is_atom_octet_of style octet }
{
    // most octets are small letters, or of characters beyond ASCII
    if octet > b']' {
        return octet != 127;
    }
    !is_white(octet) && !is_special(style, octet) && !is_mark(style, octet) && !is_control(octet)
}

// The place of the first octet that may not stand in an atom.
fn find_atom_end(style: Style, octets: &[u8]) -> Option<usize>
    ensures { result ≡ position (λ x. not (is_atom_octet_of style x)) octets.now }
{
    octets
        .iter()
        .position(|octet| !is_atom_octet(style, *octet))
}

// The longest front of an atom's octets, and what follows it.
fn split_atom(style: Style, octets: &[u8]) -> (&[u8], &[u8])
    ensures { IsSpan (is_atom_octet_of style) octets.now result.0.now result.1.now }
{
    match find_atom_end(style, octets) {
        Some(at) => octets.split_at(at),
        None => octets.split_at(octets.len()),
    }
}

/// The kind of the first token of a text, and what follows it.
pub fn first_token(style: Style, text: &[u8]) -> Option<(TokenKind, &[u8])>
    requires { 0 < length text.now }
    ensures found { IfSome result (λ x. BeginsToken style x.0 text.now x.1.now) }
    ensures shorter { IfSome result (λ x. length x.1.now < length text.now) }
    ensures none { IfNone result ((kind : TokenKind) (rest : List ℕ) → ¬ BeginsToken style kind text.now rest) }
{
    let octet = text[0];
    if is_atom_octet(style, octet) {
        let (_, rest) = split_atom(style, text);
        return Some((TokenKind::Atom, rest));
    }
    if is_white(octet) {
        let (_, rest) = split_white(text);
        return Some((TokenKind::Gap, rest));
    }
    if octet == b'(' {
        let Some(rest) = group_rest(COMMENT, text) else {
            return None;
        };
        return Some((TokenKind::Comment, rest));
    }
    if octet == b'"' {
        let Some(rest) = group_rest(QUOTED, text) else {
            return None;
        };
        return Some((TokenKind::Quoted, rest));
    }
    if opens_literal(style, octet) {
        let Some(rest) = group_rest(LITERAL, text) else {
            return None;
        };
        return Some((TokenKind::Literal, rest));
    }
    if is_special(style, octet) {
        return Some((TokenKind::Special, &text[1..]));
    }
    None
}

// Whether the octets are UTF-8. Most are ASCII, and that is sooner seen. The baseline goes by comparisons, many octets
// together: the shuffles of the other way are done octet by octet.
fn is_utf8(text: &[u8]) -> bool
    ensures { IsTrue result ↔ IsUtf8 text.now }
{
    is_ascii(text) || simdutf8::is_utf8_baseline(text)
}

// Whether each octet is above CR. It is told without a branch, so that many are looked at together.
fn are_above_cr(text: &[u8]) -> bool
    ensures { result ≡ list_all is_above_cr text.now }
{
    let mut lowest: u8 = 255;
    for octet in text {
        lowest = lowest.min(*octet);
    }
    b'\r' < lowest
}

// Whether no octet is NUL, CR or LF.
fn are_line_octets(text: &[u8]) -> bool
    ensures { result ≡ list_all is_line_octet text.now }
{
    // most texts have no tab either
    if are_above_cr(text) {
        return true;
    }
    text.iter().all(|octet| *octet > b'\r' || !matches!(*octet, 0 | b'\r' | b'\n'))
}

// Whether the octets are UTF-8 without NUL, CR and LF.
pub(crate) fn is_line(text: &[u8]) -> bool
    ensures { IsTrue result ↔ IsLine text.now }
{
    is_utf8(text) && are_line_octets(text)
}

/// The tokens of an unfolded text. The time is linear in its length, whatever it holds.
pub fn tokens(alloc: Global, style: Style, text: &[u8]) -> Result<Vec<Token>, TokenFault>
    ensures ok { IfOk result (λ tokens. HasTokens style text.now tokens.items) }
    ensures malformed { result ≡ Err TokenFault.Malformed → (tokens : List Token) → ¬ HasTokens style text.now tokens }
    ensures exact { (tokens : List Token) → HasTokens style text.now tokens
        → MatchResult result (λ found. found.items ≡ tokens) (λ fault. fault ≡ TokenFault.Memory) }
{
    if !is_line(text) {
        return Err(TokenFault::Malformed);
    }
    let mut tokens = Vec::new(alloc);
    let mut rest = text;
    while !rest.is_empty() {
        let Some((kind, after)) = first_token(style, rest) else {
            return Err(TokenFault::Malformed);
        };
        let span = Span {
            at: text.len() - rest.len(),
            len: rest.len() - after.len(),
        };
        let Ok(()) = tokens.push(Token { kind, span }) else {
            return Err(TokenFault::Memory);
        };
        rest = after;
    }
    Ok(tokens)
}

/// The tokens of an unfolded text, and nothing exactly where it has none.
pub fn read_tokens(alloc: Global, style: Style, text: &[u8]) -> Result<Option<Vec<Token>>, Memory>
    ensures some { IfOk result (λ o. IfSome o (λ tokens. HasTokens style text.now tokens.items)) }
    ensures none { IfOk result (λ o. IfNone o ((tokens : List Token) → ¬ HasTokens style text.now tokens)) }
{
    match tokens(alloc, style, text) {
        Ok(found) => Ok(Some(found)),
        Err(TokenFault::Malformed) => Ok(None),
        Err(TokenFault::Memory) => Err(Memory),
    }
}
