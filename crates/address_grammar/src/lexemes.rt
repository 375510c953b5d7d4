//! What the grammar of addresses asks of the tokens of a text.
ghost use Rattle.std.specs.Prelude.{◌≡◌, ◌<◌, ◌++◌, ◌∷◌, [], ℕ, true, false, List, length, IfOk, IfSome, IfNone, OnOk};
ghost use Rattle.std.specs.List.{list_all};
ghost use Rattle.field_tokens.specs.Tokens.{TokenValue, HasTokens};
ghost use Rattle.field_tokens.specs.Lexemes.{value_of, values_of, lexemes_in};
ghost use Rattle.field_tokens.specs.declared.Style.TheVariants.{Mail};
ghost use Rattle.address_grammar.specs.private.Lexemes.{HasMailTokens, is_blank_token, are_blank as are_blank_of, is_special_of as is_mark_of, lacks_special, is_atom as is_atom_of, is_word as is_word_of, unquoted, content as content_of, contents as contents_of, inner_octets as inner_octets_of, says_itself, SplitsAt};
ghost use Rattle.field_tokens.specs.Squeezed.{words_of};

use crate::AddressFault;
use field_tokens::{Lexeme, Lexemes, Mark, Style, Token, TokenKind, read_marks, read_tokens};
use mail_wire::{Memory, Octets};
use std::alloc::Global;

/// A gap or a comment.
pub fn is_blank(lexeme: Lexeme<'_>) -> bool
    ensures { result ≡ is_blank_token (value_of lexeme.entry) }
{
    field_tokens::is_blank(lexeme.kind)
}

pub fn is_atom(lexeme: Lexeme<'_>) -> bool
    ensures { result ≡ is_atom_of (value_of lexeme.entry) }
{
    matches!(lexeme.kind, TokenKind::Atom)
}

/// An atom or a quoted string.
pub fn is_word(lexeme: Lexeme<'_>) -> bool
    ensures { result ≡ is_word_of (value_of lexeme.entry) }
{
    matches!(lexeme.kind, TokenKind::Atom | TokenKind::Quoted)
}

/// The special of this octet.
pub fn is_mark(lexeme: Lexeme<'_>, mark: u8) -> bool
    ensures { result ≡ is_mark_of mark (value_of lexeme.entry) }
{
    matches!(lexeme.kind, TokenKind::Special) && lexeme.octets == [mark].as_slice()
}

pub fn are_blank(lexemes: Lexemes<'_, '_>) -> bool
    ensures { result ≡ are_blank_of (values_of lexemes.entry) }
{
    let mut rest = lexemes;
    while let Some((lexeme, following)) = rest.split_first() {
        if !is_blank(lexeme) {
            return false;
        }
        rest = following;
    }
    true
}

/// The first token that is neither gap nor comment, and what stands after it.
pub fn first_word<'a, 'b>(lexemes: Lexemes<'a, 'b>) -> Option<(Lexeme<'a>, Lexemes<'a, 'b>)>
    ensures found { IfSome result (λ x. words_of (values_of lexemes.entry) ≡ value_of x.0 ∷ words_of (values_of x.1)) }
    ensures shorter { IfSome result (λ x. length (values_of x.1) < length (values_of lexemes.entry)) }
    ensures none { IfNone result (words_of (values_of lexemes.entry) ≡ []) }
{
    let mut rest = lexemes;
    while let Some((lexeme, following)) = rest.split_first() {
        if !is_blank(lexeme) {
            return Some((lexeme, following));
        }
        rest = following;
    }
    None
}

/// What stands before the tokens at the end.
pub fn front_before<'a, 'b>(lexemes: Lexemes<'a, 'b>, rest: Lexemes<'a, 'b>) -> Lexemes<'a, 'b>
    ensures { (front : List TokenValue) → values_of lexemes.entry ≡ front ++ values_of rest.entry → values_of result ≡ front }
{
    lexemes.front(lexemes.len().saturating_sub(rest.len()))
}

/// What stands before the first special of this octet, and what stands after it.
pub fn split_at_mark<'a, 'b>(
    lexemes: Lexemes<'a, 'b>,
    mark: u8,
) -> Option<(Lexemes<'a, 'b>, Lexemes<'a, 'b>)>
    ensures found { IfSome result (λ x. SplitsAt mark (values_of lexemes.entry) (values_of x.0) (values_of x.1)) }
    ensures shorter { IfSome result (λ x. length (values_of x.1) < length (values_of lexemes.entry)) }
    ensures none { IfNone result (lacks_special mark (values_of lexemes.entry) ≡ true) }
{
    let mut rest = lexemes;
    while let Some((lexeme, following)) = rest.split_first() {
        if is_mark(lexeme, mark) {
            return Some((front_before(lexemes, rest), following));
        }
        rest = following;
    }
    None
}

/// Whether none of the tokens is the special of this octet.
pub fn lacks_mark(lexemes: Lexemes<'_, '_>, mark: u8) -> bool
    ensures { result ≡ lacks_special mark (values_of lexemes.entry) }
{
    match split_at_mark(lexemes, mark) {
        Some(_) => false,
        None => true,
    }
}

/// The tokens of a text, by their places.
pub fn mail_tokens(alloc: Global, text: &[u8]) -> Result<Vec<Token>, AddressFault>
    ensures ok { IfOk result (λ tokens. HasTokens Mail text.now tokens.items) }
    ensures malformed { result ≡ Err AddressFault.Malformed → (tokens : List TokenValue) → ¬ HasMailTokens text.now tokens }
{
    match read_tokens(alloc, Style::Mail, text) {
        Ok(Some(found)) => Ok(found),
        Ok(None) => Err(AddressFault::Malformed),
        Err(_) => Err(AddressFault::Memory),
    }
}

/// The tokens of a text, by their marks.
pub fn mail_marks(alloc: Global, text: &[u8]) -> Result<Vec<Mark>, AddressFault>
    ensures ok { IfOk result (λ marks. HasMailTokens text.now (lexemes_in text.now marks.items)) }
    ensures malformed { result ≡ Err AddressFault.Malformed → (tokens : List TokenValue) → ¬ HasMailTokens text.now tokens }
{
    match read_marks(alloc, Style::Mail, text) {
        Ok(Some(found)) => Ok(found),
        Ok(None) => Err(AddressFault::Malformed),
        Err(_) => Err(AddressFault::Memory),
    }
}

// What stands between the first octet and the last one.
fn inner_octets(octets: &[u8]) -> &[u8]
    ensures { result.now ≡ inner_octets_of octets.now }
{
    match octets {
        [_, inner @ .., _] => inner,
        _ => &[],
    }
}

// Takes an octet, which a backslash quotes or not, and answers whether it quotes the next one.
fn push_next(made: &mut Octets, is_quoted: bool, octet: u8) -> Result<bool, Memory>
    ensures { IfOk result (λ next. (octets : List ℕ) → made.new ++ unquoted next octets ≡ made.old ++ unquoted is_quoted (octet ∷ octets)) }
{
    if octet == b'\\' && !is_quoted {
        return Ok(true);
    }
    made.push(octet)?;
    Ok(false)
}

// Puts octets last without the backslashes that quote.
fn push_unquoted(made: &mut Octets, octets: &[u8]) -> Result<(), Memory>
    ensures { OnOk result (made.new ≡ made.old ++ unquoted false octets.now) }
{
    let mut is_quoted = false;
    for octet in octets {
        is_quoted = push_next(made, is_quoted, *octet)?;
    }
    Ok(())
}

/// Puts what a token says last.
pub fn push_content(made: &mut Octets, lexeme: Lexeme<'_>) -> Result<(), Memory>
    ensures { OnOk result (made.new ≡ made.old ++ content_of (value_of lexeme.entry)) }
{
    match lexeme.kind {
        TokenKind::Quoted => push_unquoted(made, inner_octets(lexeme.octets)),
        TokenKind::Gap | TokenKind::Comment => Ok(()),
        TokenKind::Atom | TokenKind::Literal | TokenKind::Special => {
            made.push_slice(lexeme.octets)
        }
    }
}

// No octets, and room for those of tokens.
fn room_for(alloc: Global, lexemes: Lexemes<'_, '_>) -> Result<Octets, Memory>
    ensures { IfOk result (λ made. made ≡ []) }
{
    let mut room = 0usize;
    let mut rest = lexemes;
    while let Some((lexeme, following)) = rest.split_first() {
        room = room.saturating_add(lexeme.octets.len());
        rest = following;
    }
    Ok(Octets::from_vec(Vec::with_capacity(alloc, room)?))
}

fn is_plain(lexeme: Lexeme<'_>) -> bool
    ensures { result ≡ says_itself (value_of lexeme.entry) }
{
    matches!(
        lexeme.kind,
        TokenKind::Atom | TokenKind::Literal | TokenKind::Special
    )
}

// Whether each token says its octets.
fn are_plain(lexemes: Lexemes<'_, '_>) -> bool
    ensures { result ≡ list_all says_itself (values_of lexemes.entry) }
{
    let mut rest = lexemes;
    while let Some((lexeme, following)) = rest.split_first() {
        if !is_plain(lexeme) {
            return false;
        }
        rest = following;
    }
    true
}

/// What a token says.
pub fn content(alloc: Global, lexeme: Lexeme<'_>) -> Result<Octets, Memory>
    ensures { IfOk result (λ made. made ≡ content_of (value_of lexeme.entry)) }
{
    let mut made = Octets::from_vec(Vec::with_capacity(alloc, lexeme.octets.len())?);
    push_content(&mut made, lexeme)?;
    Ok(made)
}

/// What tokens say, one after another.
pub fn contents(alloc: Global, lexemes: Lexemes<'_, '_>) -> Result<Octets, Memory>
    ensures { IfOk result (λ made. made ≡ contents_of (values_of lexemes.entry)) }
{
    if are_plain(lexemes) {
        return Octets::from_slice(alloc, lexemes.octets());
    }
    let mut made = room_for(alloc, lexemes)?;
    let mut rest = lexemes;
    while let Some((lexeme, following)) = rest.split_first() {
        push_content(&mut made, lexeme)?;
        rest = following;
    }
    Ok(made)
}
