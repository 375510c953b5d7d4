//! Where the pieces of a body stand.
ghost use Rattle.std.specs.Prelude.{◌≡◌, ◌&&◌, ◌++◌, ℕ, true, false, List, filter, IfOk, IfSome, IfNone, OnOk};
ghost use Rattle.std.specs.Option.{option_copied};
ghost use Rattle.std.specs.List.{list_all};
ghost use Rattle.std.specs.Str.{str_to_ascii_lowercase};
ghost use Rattle.mail_wire.specs.Octets.{is_ascii as is_ascii_octet};
ghost use Rattle.field_tokens.specs.declared.Token.{Token};
ghost use Rattle.field_tokens.specs.Squeezed.{is_atom_kind as is_atom_of};
ghost use Rattle.field_tokens.specs.Tokens.{octets_at};
ghost use Rattle.param_grammar.specs.declared.Piece.{Piece};
ghost use Rattle.param_grammar.specs.Bodies.{is_mark_at, solid as solid_of, is_filled as is_filled_of, sections_of, IsParameterOf, IsPiece, IsNoPiece, ArePieces};
ghost use Rattle.param_grammar.specs.Places.{span_of, base_span as base_span_of, IsPlaced, ArePlaced};
ghost use Rattle.param_grammar.specs.private.Marked.{tokens_of};
ghost use Rattle.param_grammar.specs.private.Placing.{IsSides};
ghost use Rattle.param_grammar.specs.private.Putting.{PlacesPiece};

use crate::Piece;
use crate::contents::{piece_of, said_by, says_some};
use crate::names::read_name;
use crate::tokens::{
    Tokens, is_atom, is_filled, is_mark, next_solid, octets_of, split_section, value_span,
};
use field_tokens::Token;
use mail_wire::{Memory, Octets, Span, is_ascii};
use std::alloc::Global;

/// The places of a text that is longer ask for more memory than there is.
const LENGTHS: usize = 1 << 32;

/// A span of a text of fewer octets than that.
#[derive(Clone, Copy)]
pub struct Stretch {
    at: u32,
    len: u32,
}

impl Stretch {
    fn new(span: Span) -> Result<Self, Memory>
        ensures { IfOk result (λ stretch. span_of stretch ≡ span) }
    {
        if span.at >= LENGTHS || span.len >= LENGTHS {
            return Err(Memory);
        }
        Ok(Stretch {
            at: span.at as u32,
            len: span.len as u32,
        })
    }

    fn span(self) -> Span
        ensures { result ≡ span_of self }
    {
        Span {
            at: self.at as usize,
            len: self.len as usize,
        }
    }
}

/// Where a piece stands: its name and its value.
#[derive(Clone, Copy)]
pub struct Place {
    name: Stretch,
    value: Stretch,
    base_len: u32,
    is_quoted: bool,
    pub(crate) is_numbered: bool,
    pub(crate) is_ascii: bool,
}

// The name and the value of a parameter, and whether the value is quoted.
#[derive(Clone, Copy)]
struct Sides {
    name: Span,
    value: Span,
    is_quoted: bool,
}

// Whether tokens are a name and an equals sign.
fn is_named(text: &[u8], atom: Token, equals: Token) -> bool
    ensures { result ≡ (is_atom_of atom.kind && is_mark_at text.now 61 equals) }
{
    is_atom(atom.kind) && is_mark(text, b'=', equals)
}

// The name and the value of the parameter that a section is.
fn split_parameter(text: &[u8], section: Tokens<'_>) -> Option<Sides>
    ensures found { IfSome result (λ sides. IsSides text.now (tokens_of section.entry) sides.name sides.value sides.is_quoted) }
    ensures none { IfNone result ((name : List ℕ) (value : List Token) → ¬ IsParameterOf text.now (solid_of (tokens_of section.entry)) name value) }
{
    let Some((atom, following)) = next_solid(section) else {
        return None;
    };
    let Some((equals, value)) = next_solid(following) else {
        return None;
    };
    if !is_named(text, atom, equals) {
        return None;
    }
    let Some((value, is_quoted)) = value_span(text, value) else {
        return None;
    };
    Some(Sides {
        name: atom.span,
        value,
        is_quoted,
    })
}

fn are_ascii(name: &[u8], value: &[u8]) -> bool
    ensures { result ≡ (list_all is_ascii_octet name.now && list_all is_ascii_octet value.now) }
{
    is_ascii(name) && is_ascii(value)
}

// The place of the piece that a section is.
fn read_place(alloc: Global, text: &[u8], section: Tokens<'_>) -> Result<Option<Place>, Memory>
    ensures found { IfOk result (λ o. IfSome o (λ place. (piece : Piece) × IsPiece text.now (tokens_of section.entry) piece × IsPlaced text.now place piece)) }
    ensures none { IfOk result (λ o. IfNone o ((piece : Piece) → ¬ IsPiece text.now (tokens_of section.entry) piece)) }
{
    let Some(sides) = split_parameter(text, section) else {
        return Ok(None);
    };
    let name = octets_of(text, sides.name);
    let value = octets_of(text, sides.value);
    let Some(parts) = read_name(name) else {
        return Ok(None);
    };
    if !says_some(alloc, &parts, value, sides.is_quoted)? {
        return Ok(None);
    }
    Ok(Some(Place {
        name: Stretch::new(sides.name)?,
        value: Stretch::new(sides.value)?,
        base_len: parts.base.len() as u32,
        is_quoted: sides.is_quoted,
        is_numbered: parts.number.is_some(),
        is_ascii: are_ascii(name, value),
    }))
}

// Puts the place of the piece that a section is last, where it is filled. Answers whether it is a piece, or not filled.
fn push_place(
    alloc: Global,
    text: &[u8],
    section: Tokens<'_>,
    places: &mut Vec<Place>,
) -> Result<bool, Memory>
    ensures pushed { IfOk result (λ is. is ≡ true → PlacesPiece text.now (tokens_of section.entry) places.old.items places.new.items) }
    ensures none { IfOk result (λ is. is ≡ false → IsNoPiece text.now (tokens_of section.entry)) }
{
    if !is_filled(section) {
        return Ok(true);
    }
    let Some(place) = read_place(alloc, text, section)? else {
        return Ok(false);
    };
    places.push(place)?;
    Ok(true)
}

// The places of the pieces of the sections of tokens.
pub(crate) fn read_places(
    alloc: Global,
    text: &[u8],
    tokens: Tokens<'_>,
) -> Result<Option<Vec<Place>>, Memory>
    ensures found { IfOk result (λ o. IfSome o (λ v. (pieces : List Piece)
        × ArePieces text.now (filter is_filled_of (sections_of text.now (tokens_of tokens.entry))) pieces × ArePlaced text.now v.items pieces)) }
    ensures none { IfOk result (λ o. IfNone o ((pieces : List Piece)
        → ¬ ArePieces text.now (filter is_filled_of (sections_of text.now (tokens_of tokens.entry))) pieces)) }
{
    let mut places = Vec::new(alloc);
    let mut rest = tokens;
    while !rest.is_empty() {
        let (section, following) = split_section(text, rest);
        if !push_place(alloc, text, section, &mut places)? {
            return Ok(None);
        }
        rest = following;
    }
    Ok(Some(places))
}

/// The piece at a place.
pub fn piece_at(alloc: Global, text: &[u8], place: Place) -> Result<Piece, Memory>
    requires { (piece : Piece) × IsPlaced text.now place piece }
    ensures { (piece : Piece) → IsPlaced text.now place piece → IfOk result (λ made. made ≡ piece) }
{
    let name = octets_of(text, place.name.span());
    let value = octets_of(text, place.value.span());
    match piece_of(alloc, name, value, place.is_quoted)? {
        Some(piece) => Ok(piece),
        None => unreachable!(),
    }
}

/// The charset and the octets of the piece at a place.
pub(crate) fn said_at(alloc: Global, text: &[u8], place: Place) -> Result<(Octets, Octets), Memory>
    requires { (piece : Piece) × IsPlaced text.now place piece }
    ensures { (piece : Piece) → IsPlaced text.now place piece → IfOk result (λ x. (x.0 ≡ piece.charset) × (x.1 ≡ piece.octets)) }
{
    let name = octets_of(text, place.name.span());
    let value = octets_of(text, place.value.span());
    match said_by(alloc, name, value, place.is_quoted)? {
        Some(said) => Ok(said),
        None => unreachable!(),
    }
}

// The name of the piece at a place, without stars and number, in a text in lower case.
pub(crate) fn base_of(lower: &[u8], place: Place) -> &[u8]
    ensures { result.now ≡ octets_at lower.now (base_span_of place) }
{
    octets_of(lower, base_span(place))
}

fn base_span(place: Place) -> Span
    ensures { result ≡ base_span_of place }
{
    Span {
        at: place.name.at as usize,
        len: place.base_len as usize,
    }
}

// The digits of the number of the piece at a place.
pub(crate) fn digits_of(text: &[u8], place: Place) -> Option<&[u8]>
    ensures { (piece : Piece) → IsPlaced text.now place piece → option_copied result ≡ piece.number }
{
    let Some(parts) = read_name(octets_of(text, place.name.span())) else {
        return None;
    };
    parts.number
}

/// The name of the piece at a place, without stars and number, as it is written.
pub fn base_at(text: &[u8], place: Place) -> &[u8]
    ensures { (piece : Piece) → IsPlaced text.now place piece → piece.base ≡ str_to_ascii_lowercase result.now }
{
    octets_of(text, base_span(place))
}

/// Puts the piece at a place last, as it is written.
pub fn push_written(made: &mut Octets, text: &[u8], place: Place) -> Result<(), Memory>
    ensures { (piece : Piece) → IsPlaced text.now place piece → OnOk result (made.new ≡ made.old ++ piece.written) }
{
    made.push_slice(octets_of(text, place.name.span()))?;
    made.push(b'=')?;
    made.push_slice(octets_of(text, place.value.span()))
}
