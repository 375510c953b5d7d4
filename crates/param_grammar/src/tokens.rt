//! Tokens of a body, the sections between its semicolons, and where values stand.
ghost use Rattle.std.specs.Prelude.{◌≡◌, ◌==◌, ◌&&◌, ◌+◌, ◌^◌, ◌<◌, ◌≤◌, ◌∷◌, [], false, length, take, IfOk, IfSome, IfNone, IsTrue, ◌↔◌};
ghost use Rattle.field_tokens.specs.Tokens.{octets_at};
ghost use Rattle.field_tokens.specs.Squeezed.{run_octets as run_octets_of, is_atom_kind as is_atom_of};
ghost use Rattle.mail_wire.specs.Octets.{is_ascii as is_ascii_octet};
ghost use Rattle.param_grammar.specs.Bodies.{is_quoted as is_quoted_of, is_mark_at, solid as solid_of, is_filled as is_filled_of, is_ascii_atom as is_ascii_atom_of, is_plain_token as is_plain_token_of, are_quoted as are_quoted_of, are_plain as are_plain_of, is_main as is_main_of, SplitsSection};
ghost use Rattle.param_grammar.specs.private.Marked.{cut_to, tokens_in, tokens_of};
ghost use Rattle.param_grammar.specs.private.Placing.{IsPlainAt, IsValueAt, is_value as is_value_of};

use crate::ParamKind;
use field_tokens::{Mark, Token, TokenKind, is_blank};
use mail_wire::{Memory, Octets, Span, is_ascii};
use std::alloc::Global;

// The octets of a span, as far as there are any.
pub(crate) fn octets_of(text: &[u8], span: Span) -> &[u8]
    ensures { result.now ≡ octets_at text.now span }
{
    if span.at > text.len() {
        return &[];
    }
    let (_, following) = text.split_at(span.at);
    if span.len > following.len() {
        return following;
    }
    let (octets, _) = following.split_at(span.len);
    octets
}

pub(crate) fn is_atom(kind: TokenKind) -> bool
    ensures { result ≡ is_atom_of kind }
{
    matches!(kind, TokenKind::Atom)
}

fn is_quoted(kind: TokenKind) -> bool
    ensures { result ≡ is_quoted_of kind }
{
    matches!(kind, TokenKind::Quoted)
}

// Whether a token is this octet alone.
pub(crate) fn is_mark(text: &[u8], mark: u8, token: Token) -> bool
    ensures { result ≡ is_mark_at text.now mark token }
{
    octets_of(text, token.span) == [mark].as_slice()
}

/// Tokens of a text, from some place of it on, as marks.
#[derive(Clone, Copy)]
pub struct Tokens<'a> {
    end: usize,
    at: usize,
    marks: &'a [Mark],
}

impl<'a> Tokens<'a> {
    /// The tokens that marks tell of a text.
    pub fn new(text: &[u8], marks: &'a [Mark]) -> Self
        ensures { tokens_of result ≡ tokens_in (length text.now) 0 marks.now }
    {
        Tokens {
            end: text.len(),
            at: 0,
            marks,
        }
    }

    pub(crate) fn is_empty(self) -> bool
        ensures { IsTrue result ↔ (tokens_of self.entry ≡ []) }
    {
        self.split_first().is_none()
    }

    /// The first token, and those after it.
    pub fn split_first(self) -> Option<(Token, Tokens<'a>)>
        ensures found { IfSome result (λ x. tokens_of self.entry ≡ x.0 ∷ tokens_of x.1) }
        ensures within { IfSome result (λ x. x.0.span.at + x.0.span.len < 2 ^ 64) }
        ensures none { IfNone result (tokens_of self.entry ≡ []) }
    {
        let Some((mark, marks)) = self.marks.split_first() else {
            return None;
        };
        let len = cut(mark.len(), self.end.saturating_sub(self.at));
        let span = Span { at: self.at, len };
        let kind = mark.kind();
        Some((
            Token { kind, span },
            Tokens {
                end: self.end,
                at: self.at + len,
                marks,
            },
        ))
    }

    // How many tokens there are.
    fn len(self) -> usize
        ensures { result ≡ length (tokens_of self.entry) }
    {
        self.marks.len()
    }

    // The first so many tokens.
    fn front(self, count: usize) -> Tokens<'a>
        requires { count ≤ length (tokens_of self) }
        ensures { tokens_of result ≡ take count (tokens_of self.entry) }
    {
        let (marks, _) = self.marks.split_at(count);
        Tokens {
            end: self.end,
            at: self.at,
            marks,
        }
    }
}

// A length, and no more than what is left.
fn cut(len: usize, left: usize) -> usize
    ensures is { result ≡ cut_to left len }
    ensures most { result ≤ left }
{
    if left < len { left } else { len }
}

// The tokens before the first semicolon, and those after it.
pub(crate) fn split_section<'a>(text: &[u8], tokens: Tokens<'a>) -> (Tokens<'a>, Tokens<'a>)
    ensures { SplitsSection text.now (tokens_of tokens.entry) (tokens_of result.0) (tokens_of result.1) }
{
    let mut rest = tokens;
    while let Some((token, following)) = rest.split_first() {
        if is_mark(text, b';', token) {
            return (tokens.front(tokens.len() - rest.len()), following);
        }
        rest = following;
    }
    (tokens, rest)
}

/// The first token that is no gap and no comment, and those after it.
pub fn next_solid(tokens: Tokens<'_>) -> Option<(Token, Tokens<'_>)>
    ensures found { IfSome result (λ x. solid_of (tokens_of tokens.entry) ≡ x.0 ∷ solid_of (tokens_of x.1)) }
    ensures within { IfSome result (λ x. x.0.span.at + x.0.span.len < 2 ^ 64) }
    ensures none { IfNone result (solid_of (tokens_of tokens.entry) ≡ []) }
{
    let mut rest = tokens;
    while let Some((token, following)) = rest.split_first() {
        if !is_blank(token.kind) {
            return Some((token, following));
        }
        rest = following;
    }
    None
}

// Whether there are other tokens than gaps and comments.
pub(crate) fn is_filled(tokens: Tokens<'_>) -> bool
    ensures { result ≡ is_filled_of (tokens_of tokens.entry) }
{
    match next_solid(tokens) {
        Some(_) => true,
        None => false,
    }
}

// How many tokens tell whether all are a main part.
const FEW: usize = 4;

// The first tokens that are no gaps and no comments: four, where there are so many.
pub(crate) fn first_solid(alloc: Global, tokens: Tokens<'_>) -> Result<Vec<Token>, Memory>
    ensures { IfOk result (λ found. found.items ≡ take 4 (solid_of (tokens_of tokens.entry))) }
{
    let mut found = Vec::new(alloc);
    let mut rest = tokens;
    for _ in 0..FEW {
        let Some((token, following)) = next_solid(rest) else {
            return Ok(found);
        };
        found.push(token)?;
        rest = following;
    }
    Ok(found)
}

// The octets of tokens, one after another.
pub(crate) fn run_octets(alloc: Global, text: &[u8], tokens: &[Token]) -> Result<Octets, Memory>
    ensures { IfOk result (λ made. made ≡ run_octets_of text.now tokens.now) }
{
    let mut made = Octets::new(alloc);
    for token in tokens {
        made.push_slice(octets_of(text, token.span))?;
    }
    Ok(made)
}

fn is_ascii_atom(text: &[u8], token: Token) -> bool
    ensures { result ≡ is_ascii_atom_of text.now token }
{
    is_atom(token.kind) && is_ascii(octets_of(text, token.span))
}

// Whether tokens other than gaps and comments are a main part.
pub(crate) fn is_main(kind: ParamKind, text: &[u8], tokens: &[Token]) -> bool
    ensures { result ≡ is_main_of kind text.now tokens.now }
{
    match kind {
        ParamKind::Content => match tokens {
            [first, slash, second] => {
                is_ascii_atom(text, *first)
                    && is_mark(text, b'/', *slash)
                    && is_ascii_atom(text, *second)
            }
            _ => false,
        },
        ParamKind::Disposition => match tokens {
            [word] => is_ascii_atom(text, *word),
            _ => false,
        },
    }
}

// Whether a token may stand in an unquoted value.
fn is_plain_token(text: &[u8], token: Token) -> bool
    ensures { result ≡ is_plain_token_of text.now token }
{
    is_atom(token.kind) || b"/[]?=".iter().any(|mark| is_mark(text, *mark, token))
}

// Whether a token that stands there may go on with an unquoted value that ends there.
fn goes_on(text: &[u8], end: usize, token: Token) -> bool
    ensures { result ≡ ((end == token.span.at) && is_plain_token_of text.now token) }
{
    end == token.span.at && is_plain_token(text, token)
}

// The place of the unquoted value that a token and those after it are, but for gaps and comments.
fn plain_span(text: &[u8], first: Token, others: Tokens<'_>) -> Option<Span>
    requires within { first.span.at + first.span.len < 2 ^ 64 }
    ensures found { IfSome result (λ span. IsPlainAt text.now (first ∷ solid_of (tokens_of others.entry)) span) }
    ensures none { IfNone result (are_plain_of text.now (first ∷ solid_of (tokens_of others.entry)) ≡ false) }
{
    if !is_plain_token(text, first) {
        return None;
    }
    let mut end = first.span.at + first.span.len;
    let mut rest = others;
    while let Some((token, following)) = next_solid(rest) {
        if !goes_on(text, end, token) {
            return None;
        }
        end = token.span.at + token.span.len;
        rest = following;
    }
    Some(Span {
        at: first.span.at,
        len: end - first.span.at,
    })
}

// Whether a token is a quoted string, and all after it are gaps and comments.
fn is_quoted_alone(first: Token, others: Tokens<'_>) -> bool
    ensures { result ≡ are_quoted_of (first ∷ solid_of (tokens_of others.entry)) }
{
    match next_solid(others) {
        Some(_) => false,
        None => is_quoted(first.kind),
    }
}

// The place of the value that tokens are, but for gaps and comments, and whether it is quoted.
pub(crate) fn value_span(text: &[u8], tokens: Tokens<'_>) -> Option<(Span, bool)>
    ensures found { IfSome result (λ x. IsValueAt text.now (solid_of (tokens_of tokens.entry)) x.0 x.1) }
    ensures none { IfNone result (is_value_of text.now (solid_of (tokens_of tokens.entry)) ≡ false) }
{
    let Some((first, others)) = next_solid(tokens) else {
        return None;
    };
    if is_quoted_alone(first, others) {
        return Some((first.span, true));
    }
    let Some(span) = plain_span(text, first, others) else {
        return None;
    };
    Some((span, false))
}
