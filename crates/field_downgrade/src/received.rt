//! Received fields (RFC 5322, 3.6.7; RFC 5321, 4.4): clauses, and after a semicolon a date.
ghost use Rattle.std.specs.Prelude.{◌≡◌, ◌∷◌, ◌++◌, [], not, true, IfOk, OnOk, IsUtf8};
ghost use Rattle.std.specs.List.{list_all};
ghost use Rattle.encoded_words.specs.Folding.{lines_of, AddsLines};
ghost use Rattle.field_tokens.specs.declared.Style.TheVariants.{Mail};
ghost use Rattle.field_tokens.specs.Lexemes.{lexemes_in, value_of, values_of};
ghost use Rattle.field_tokens.specs.Tokens.{HasTokenValues};
ghost use Rattle.field_downgrade.specs.Received.{is_clause_word as is_clause_word_of, starts_clause as starts_clause_of, is_semicolon as is_semicolon_of, is_host_word as is_host_word_of, holds_clause_word as holds_clause_word_of, served_text as served_text_of, date_text as date_text_of, date_tokens, with_space_before, ClausePieces, DatePieces, ReceivedPieces};
ghost use Rattle.field_downgrade.specs.private.ReceivedSteps.{AreRead, EndsOrBeginsSo, CutsTokens, CutsDate, tokens_after, clause_at, WritesClauses};
ghost use Rattle.field_downgrade.specs.private.Steps.{WritesWhere};

use crate::lines::begin_line;
use crate::squeezing::squeezed;
use address_grammar::{are_blank, front_before, split_at_mark};
use field_tokens::{Lexeme, Lexemes, Mark, Style, TokenKind, read_marks, write_comments};
use mail_wire::{Memory, Octets, is_ascii, is_same_name};
use std::alloc::Global;

// ---- tokens

fn is_clause_word(word: &[u8]) -> bool
    ensures { result ≡ is_clause_word_of word.now }
{
    is_same_name(word, b"from")
        || is_same_name(word, b"by")
        || is_same_name(word, b"via")
        || is_same_name(word, b"with")
        || is_same_name(word, b"id")
        || is_same_name(word, b"for")
}

fn starts_clause(token: Lexeme<'_>) -> bool
    ensures { result ≡ starts_clause_of (value_of token.entry) }
{
    matches!(token.kind, TokenKind::Atom) && is_clause_word(token.octets)
}

// The tokens before the first semicolon, and those after it, where there is one.
fn split_head<'a, 'b>(tokens: Lexemes<'a, 'b>) -> (Lexemes<'a, 'b>, Option<Lexemes<'a, 'b>>)
    ensures { CutsDate (values_of tokens.entry) (values_of result.0) (tokens_after result.1) }
{
    match split_at_mark(tokens, b';') {
        Some((head, date)) => (head, Some(date)),
        None => (tokens, None),
    }
}

// The tokens before the first one that starts a clause, and the others.
fn split_clause<'a, 'b>(tokens: Lexemes<'a, 'b>) -> (Lexemes<'a, 'b>, Lexemes<'a, 'b>)
    ensures { CutsTokens starts_clause_of (values_of tokens.entry) (values_of result.0) (values_of result.1) }
{
    let mut rest = tokens;
    while let Some((token, following)) = rest.split_first() {
        if starts_clause(token) {
            return (front_before(tokens, rest), rest);
        }
        rest = following;
    }
    (front_before(tokens, rest), rest)
}

// ---- clauses as they are served

fn is_host_word(word: &[u8]) -> bool
    ensures { result ≡ is_host_word_of word.now }
{
    is_same_name(word, b"from") || is_same_name(word, b"by")
}

fn holds_clause_word(form: &[u8]) -> bool
    ensures { result ≡ holds_clause_word_of form.now }
{
    form.split(|octet| *octet == b'.').any(is_clause_word)
}

// The text of a clause as it is served, if it is.
fn served_text(alloc: Global, word: &[u8], text: Octets) -> Result<Option<Octets>, Memory>
    requires { IsUtf8 text }
    ensures { IfOk result (λ served. served ≡ served_text_of word.now text) }
{
    if is_ascii(text.as_slice()) {
        return Ok(Some(text));
    }
    if !is_host_word(word) {
        return Ok(None);
    }
    let Ok(domain) = str::from_utf8(text.as_slice()) else {
        unreachable!();
    };
    let Some(form) = ace_domains::normal(alloc, domain)? else {
        return Ok(None);
    };
    if holds_clause_word(form.as_slice()) {
        return Ok(None);
    }
    Ok(Some(form))
}

// ---- pieces

// Puts a word with the text after it last, on a line of its own.
fn put_word(word: &[u8], text: &[u8], made: &mut Octets) -> Result<(), Memory>
    ensures { OnOk result (made.new ≡ made.old ++ lines_of ((word.now ++ with_space_before text.now) ∷ [])) }
{
    begin_line(made, b' ')?;
    made.push_slice(word)?;
    if text.is_empty() {
        return Ok(());
    }
    made.push(b' ')?;
    made.push_slice(text)
}

// Puts the pieces of a clause last.
fn put_clause(
    alloc: Global,
    word: Lexeme<'_>,
    following: Lexemes<'_, '_>,
    made: &mut Octets,
) -> Result<(), Memory>
    requires { AreRead Mail (values_of following) }
    ensures { OnOk result (AddsLines (ClausePieces (clause_at (value_of word.entry) (values_of following.entry))) made.old made.new) }
{
    let said = squeezed(alloc, following)?;
    if let Some(served) = served_text(alloc, word.octets, said)? {
        put_word(word.octets, served.as_slice(), made)?;
    }
    write_comments(alloc, following, made)
}

// Puts the pieces of clauses last.
fn put_clauses(alloc: Global, tokens: Lexemes<'_, '_>, made: &mut Octets) -> Result<(), Memory>
    requires read { AreRead Mail (values_of tokens) }
    requires begins { EndsOrBeginsSo starts_clause_of (values_of tokens) }
    requires head { list_all (λ t. not (is_semicolon_of t)) (values_of tokens) ≡ true }
    ensures { OnOk result (AddsLines (WritesClauses (values_of tokens.entry)) made.old made.new) }
{
    let mut rest = tokens;
    while let Some((word, others)) = rest.split_first() {
        let (following, after) = split_clause(others);
        put_clause(alloc, word, following, made)?;
        rest = after;
    }
    Ok(())
}

// The text of the date after a semicolon, or none.
fn date_text(alloc: Global, date: Option<Lexemes<'_, '_>>) -> Result<Octets, Memory>
    ensures { IfOk result (λ said. said ≡ date_text_of (tokens_after date.entry)) }
{
    match date {
        Some(following) => squeezed(alloc, following),
        None => Ok(Octets::new(alloc)),
    }
}

// Puts the pieces of the date after a semicolon last, if there is one.
fn put_date(
    alloc: Global,
    date: Option<Lexemes<'_, '_>>,
    said: &[u8],
    made: &mut Octets,
) -> Result<(), Memory>
    requires read { AreRead Mail (date_tokens (tokens_after date)) }
    requires said { said.now ≡ date_text_of (tokens_after date) }
    ensures { OnOk result (AddsLines (DatePieces (tokens_after date.entry)) made.old made.new) }
{
    let Some(following) = date else {
        return Ok(());
    };
    put_word(b";", said, made)?;
    write_comments(alloc, following, made)
}

// Puts the pieces of a text with these marks last, and answers whether it has any.
fn put_pieces(alloc: Global, text: &[u8], marks: &[Mark], made: &mut Octets) -> Result<bool, Memory>
    requires { HasTokenValues Mail text.now (lexemes_in text.now marks.now) }
    ensures { IfOk result (λ wrote. WritesWhere wrote (ReceivedPieces text.now) made.old made.new) }
{
    let (head, date) = split_head(Lexemes::new(text, marks));
    let (front, clauses) = split_clause(head);
    if !are_blank(front) {
        return Ok(false);
    }
    let said = date_text(alloc, date)?;
    if !is_ascii(said.as_slice()) {
        return Ok(false);
    }
    write_comments(alloc, front, made)?;
    put_clauses(alloc, clauses, made)?;
    put_date(alloc, date, said.as_slice(), made)?;
    Ok(true)
}

/// Puts the pieces of a Received field's text last, and answers whether it has any.
pub fn rewrite_received(alloc: Global, text: &[u8], made: &mut Octets) -> Result<bool, Memory>
    ensures { IfOk result (λ wrote. WritesWhere wrote (ReceivedPieces text.now) made.old made.new) }
{
    match read_marks(alloc, Style::Mail, text)? {
        Some(marks) => put_pieces(alloc, text, &marks, made),
        None => Ok(false),
    }
}
