//! The tokens of a text by their octets, each as a number beside the text.
ghost use Rattle.std.specs.Prelude.{◌≡◌, ◌<◌, ◌↔◌, ◌∷◌, [], List, length, take, IfOk, IfSome, IfNone, IsTrue};
ghost use Rattle.field_tokens.specs.Tokens.{TokenValue, HasTokenValues};
ghost use Rattle.field_tokens.specs.Squeezed.{octets_of};
ghost use Rattle.field_tokens.specs.Lexemes.{value_of, values_of, kind_number, kind_numbered, marked_kind, marked_len, lexemes_in};

use crate::reading::{first_token, is_line};
use crate::{Style, TokenKind};
use mail_wire::Memory;
use std::alloc::Global;

/// A token by its kind and its octets.
#[derive(Clone, Copy)]
pub struct Lexeme<'a> {
    pub kind: TokenKind,
    pub octets: &'a [u8],
}

/// The kind and the length of a token, in 32 bits: eight times the length, and the number of the kind.
#[derive(Clone, Copy)]
pub struct Mark {
    code: u32,
}

/// Tokens that stand one after another, the first one where the text begins. The text may go on after the last one.
#[derive(Clone, Copy)]
pub struct Lexemes<'a, 'b> {
    text: &'a [u8],
    marks: &'b [Mark],
}

/// The tokens of a mark have fewer octets than this.
const LENGTHS: usize = 1 << 29;

/// The most octets of a text whose marks get room without being counted.
const SHORT: usize = 128;

fn number_of(kind: TokenKind) -> u32
    ensures number { result ≡ kind_number kind }
    ensures few { result < 8 }
{
    match kind {
        TokenKind::Atom => 0,
        TokenKind::Quoted => 1,
        TokenKind::Literal => 2,
        TokenKind::Special => 3,
        TokenKind::Gap => 4,
        TokenKind::Comment => 5,
    }
}

fn kind_of(number: u32) -> TokenKind
    ensures { result ≡ kind_numbered number }
{
    match number {
        0 => TokenKind::Atom,
        1 => TokenKind::Quoted,
        2 => TokenKind::Literal,
        3 => TokenKind::Special,
        4 => TokenKind::Gap,
        _ => TokenKind::Comment,
    }
}

impl Mark {
    // Longer tokens ask for more memory than there is.
    fn new(kind: TokenKind, len: usize) -> Result<Self, Memory>
        ensures kind { IfOk result (λ mark. marked_kind mark ≡ kind) }
        ensures len { IfOk result (λ mark. marked_len mark ≡ len) }
    {
        if len >= LENGTHS {
            return Err(Memory);
        }
        Ok(Mark {
            code: len as u32 * 8 + number_of(kind),
        })
    }

    pub fn kind(self) -> TokenKind
        ensures { result ≡ marked_kind self }
    {
        kind_of(self.code % 8)
    }

    pub fn len(self) -> usize
        ensures { result ≡ marked_len self }
    {
        (self.code / 8) as usize
    }
}

// How many tokens a text has.
fn count_tokens(style: Style, text: &[u8]) -> Option<usize>
    ensures { IfNone result ((tokens : List TokenValue) → ¬ HasTokenValues style text.now tokens) }
{
    let mut count = 0;
    let mut rest = text;
    while !rest.is_empty() {
        let Some((_, after)) = first_token(style, rest) else {
            return None;
        };
        count += 1;
        rest = after;
    }
    Some(count)
}

// How many marks of a text room is made for. A short text has no more tokens than octets; those of a longer one are counted.
fn room_of(style: Style, text: &[u8]) -> Option<usize>
    ensures { IfNone result ((tokens : List TokenValue) → ¬ HasTokenValues style text.now tokens) }
{
    if text.len() <= SHORT {
        return Some(text.len());
    }
    count_tokens(style, text)
}

/// The marks of a text's tokens, and nothing exactly where it has none. The time is linear in its length, whatever it
/// holds.
pub fn read_marks(alloc: Global, style: Style, text: &[u8]) -> Result<Option<Vec<Mark>>, Memory>
    ensures some { IfOk result (λ o. IfSome o (λ marks. HasTokenValues style text.now (lexemes_in text.now marks.items))) }
    ensures none { IfOk result (λ o. IfNone o ((tokens : List TokenValue) → ¬ HasTokenValues style text.now tokens)) }
{
    if !is_line(text) {
        return Ok(None);
    }
    let Some(room) = room_of(style, text) else {
        return Ok(None);
    };
    let mut marks = Vec::with_capacity(alloc, room)?;
    let mut rest = text;
    while !rest.is_empty() {
        let Some((kind, after)) = first_token(style, rest) else {
            return Ok(None);
        };
        marks.push(Mark::new(kind, rest.len() - after.len())?)?;
        rest = after;
    }
    Ok(Some(marks))
}

impl<'a, 'b> Lexemes<'a, 'b> {
    pub fn new(text: &'a [u8], marks: &'b [Mark]) -> Self
        ensures { values_of result ≡ lexemes_in text.now marks.now }
    {
        Lexemes { text, marks }
    }

    pub fn is_empty(self) -> bool
        ensures { IsTrue result ↔ (values_of self.entry ≡ []) }
    {
        self.marks.is_empty()
    }

    /// How many tokens there are.
    pub fn len(self) -> usize
        ensures { result ≡ length (values_of self.entry) }
    {
        self.marks.len()
    }

    /// The octets of all tokens, one after another.
    pub fn octets(self) -> &'a [u8]
        ensures { result.now ≡ octets_of (values_of self.entry) }
    {
        let text = self.text;
        let marks = self.marks;
        let mut rest = text;
        for mark in marks {
            let (_, after) = rest.split_at(mark.len().min(rest.len()));
            rest = after;
        }
        let (octets, _) = text.split_at(text.len().saturating_sub(rest.len()));
        octets
    }

    /// The first token, and those after it.
    pub fn split_first(self) -> Option<(Lexeme<'a>, Lexemes<'a, 'b>)>
        ensures found { IfSome result (λ x. values_of self.entry ≡ value_of x.0 ∷ values_of x.1) }
        ensures none { IfNone result (values_of self.entry ≡ []) }
    {
        let Some((mark, marks)) = self.marks.split_first() else {
            return None;
        };
        let (octets, text) = self.text.split_at(mark.len().min(self.text.len()));
        let kind = mark.kind();
        Some((Lexeme { kind, octets }, Lexemes { text, marks }))
    }

    /// The first so many tokens. Where there are fewer, these are all.
    pub fn front(self, count: usize) -> Lexemes<'a, 'b>
        ensures { values_of result ≡ take count (values_of self.entry) }
    {
        let (marks, _) = self.marks.split_at(count.min(self.marks.len()));
        Lexemes {
            text: self.text,
            marks,
        }
    }
}
