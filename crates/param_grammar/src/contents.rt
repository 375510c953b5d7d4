//! What values say, and the pieces that names and values are.
ghost use Rattle.std.specs.Prelude.{◌≡◌, ◌<◌, ◌++◌, ◌∷◌, ℕ, true, false, List, length, IfOk, IfSome, IfNone};
ghost use Rattle.std.specs.Option.{option_copied};
ghost use Rattle.param_grammar.specs.declared.Piece.{Piece};
ghost use Rattle.param_grammar.specs.declared.names.Name.{Name};
ghost use Rattle.param_grammar.specs.Bodies.{inner as inner_of, unquoted as unquoted_of, is_first as is_first_of, SaysOctets};
ghost use Rattle.param_grammar.specs.private.Placing.{content_by, IsPieceBy, SaysThese, SaysSome};

use crate::Piece;
use crate::escapes::read_escaped;
use crate::extended::split_extended;
use crate::names::{Name, read_name};
use encoded_words::lower_case;
use mail_wire::{Memory, Octets};
use std::alloc::Global;

/// What stands between the first and the last octet.
pub fn inner(octets: &[u8]) -> &[u8]
    ensures { result.now ≡ inner_of octets.now }
{
    if octets.len() < 2 {
        return &[];
    }
    &octets[1..octets.len() - 1]
}

// The first octet, and what follows it.
fn split_octet(octets: &[u8]) -> (u8, &[u8])
    requires { 0 < length octets.now }
    ensures { octets.now ≡ result.0 ∷ result.1.now }
{
    (octets[0], &octets[1..])
}

// The first octet that is quoted or stands by itself, and what follows it.
fn first_unquoted(octets: &[u8]) -> (u8, &[u8])
    requires { 0 < length octets.now }
    ensures first { unquoted_of octets.now ≡ result.0 ∷ unquoted_of result.1.now }
    ensures shorter { length result.1.now < length octets.now }
{
    let (first, after) = split_octet(octets);
    if first != b'\\' {
        return (first, after);
    }
    if after.is_empty() {
        return (first, after);
    }
    split_octet(after)
}

/// The octets with each quoted pair by its second octet.
pub fn unquoted(alloc: Global, octets: &[u8]) -> Result<Octets, Memory>
    ensures { IfOk result (λ made. made ≡ unquoted_of octets.now) }
{
    let mut made = Octets::from_vec(Vec::with_capacity(alloc, octets.len())?);
    let mut rest = octets;
    while !rest.is_empty() {
        let (octet, after) = first_unquoted(rest);
        made.push(octet)?;
        rest = after;
    }
    Ok(made)
}

// The octets of a value.
fn content(alloc: Global, value: &[u8], is_quoted: bool) -> Result<Octets, Memory>
    ensures { IfOk result (λ made. made ≡ content_by is_quoted value.now) }
{
    if is_quoted {
        return unquoted(alloc, inner(value));
    }
    Octets::from_slice(alloc, value)
}

// Whether a piece is a whole value, or the first of its pieces.
fn is_first(number: Option<&[u8]>) -> bool
    ensures { result ≡ is_first_of (option_copied number.entry) }
{
    match number {
        Some(digits) => digits == b"0".as_slice(),
        None => true,
    }
}

// The charset and the octets of an extended value that is first.
fn read_first(alloc: Global, content: &[u8]) -> Result<Option<(Octets, Octets)>, Memory>
    ensures found { IfOk result (λ o. IfSome o (λ x. SaysOctets true true content.now x.0 x.1)) }
    ensures none { IfOk result (λ o. IfNone o ((charset octets : List ℕ) → ¬ SaysOctets true true content.now charset octets)) }
{
    let Some((charset, text)) = split_extended(content) else {
        return Ok(None);
    };
    let Some(octets) = read_escaped(alloc, text)? else {
        return Ok(None);
    };
    let charset = Octets::from_slice(alloc, charset)?;
    Ok(Some((charset, octets)))
}

// The charset that a value gives, and its octets.
fn read_octets(
    alloc: Global,
    is_extended: bool,
    is_first: bool,
    content: Octets,
) -> Result<Option<(Octets, Octets)>, Memory>
    ensures found { IfOk result (λ o. IfSome o (λ x. SaysOctets is_extended is_first content x.0 x.1)) }
    ensures none { IfOk result (λ o. IfNone o ((charset octets : List ℕ) → ¬ SaysOctets is_extended is_first content charset octets)) }
{
    if !is_extended {
        return Ok(Some((Octets::new(alloc), content)));
    }
    if is_first {
        return read_first(alloc, content.as_slice());
    }
    let Some(octets) = read_escaped(alloc, content.as_slice())? else {
        return Ok(None);
    };
    Ok(Some((Octets::new(alloc), octets)))
}

// Whether a value of these parts of a name says any octets.
pub(crate) fn says_some(
    alloc: Global,
    parts: &Name<'_>,
    value: &[u8],
    is_quoted: bool,
) -> Result<bool, Memory>
    ensures some { IfOk result (λ is. is ≡ true → SaysSome parts.now.is_extended (is_first_of (option_copied parts.now.number)) (content_by is_quoted value.now)) }
    ensures none { IfOk result (λ is. is ≡ false → ¬ SaysSome parts.now.is_extended (is_first_of (option_copied parts.now.number)) (content_by is_quoted value.now)) }
{
    if !parts.is_extended {
        return Ok(true);
    }
    let content = content(alloc, value, is_quoted)?;
    let Some(said) = read_octets(alloc, true, is_first(parts.number), content)? else {
        return Ok(false);
    };
    drop(said);
    Ok(true)
}

fn copied(alloc: Global, number: Option<&[u8]>) -> Result<Option<Octets>, Memory>
    ensures { IfOk result (λ o. o ≡ option_copied number.entry) }
{
    match number {
        Some(digits) => Ok(Some(Octets::from_slice(alloc, digits)?)),
        None => Ok(None),
    }
}

// A name, `=` and a value as they are written.
fn written(alloc: Global, name: &[u8], value: &[u8]) -> Result<Octets, Memory>
    ensures { IfOk result (λ made. made ≡ name.now ++ 61 ∷ value.now) }
{
    let mut made = Octets::from_slice(alloc, name)?;
    made.push(b'=')?;
    made.push_slice(value)?;
    Ok(made)
}

// The charset and the octets that a name and a value say.
pub(crate) fn said_by(
    alloc: Global,
    name: &[u8],
    value: &[u8],
    is_quoted: bool,
) -> Result<Option<(Octets, Octets)>, Memory>
    ensures found { IfOk result (λ o. IfSome o (λ x. SaysThese name.now is_quoted value.now x.0 x.1)) }
    ensures none { IfOk result (λ o. IfNone o ((piece : Piece) → ¬ IsPieceBy name.now is_quoted value.now piece)) }
{
    let Some(parts) = read_name(name) else {
        return Ok(None);
    };
    let content = content(alloc, value, is_quoted)?;
    let Some(said) = read_octets(alloc, parts.is_extended, is_first(parts.number), content)? else {
        return Ok(None);
    };
    Ok(Some(said))
}

// The piece that a name and a value are.
pub(crate) fn piece_of(
    alloc: Global,
    name: &[u8],
    value: &[u8],
    is_quoted: bool,
) -> Result<Option<Piece>, Memory>
    ensures found { IfOk result (λ o. IfSome o (IsPieceBy name.now is_quoted value.now)) }
    ensures none { IfOk result (λ o. IfNone o ((piece : Piece) → ¬ IsPieceBy name.now is_quoted value.now piece)) }
{
    let Some(parts) = read_name(name) else {
        return Ok(None);
    };
    let content = content(alloc, value, is_quoted)?;
    let Some((charset, octets)) = read_octets(
        alloc,
        parts.is_extended,
        is_first(parts.number),
        content,
    )?
    else {
        return Ok(None);
    };
    Ok(Some(Piece {
        base: lower_case(alloc, parts.base)?,
        number: copied(alloc, parts.number)?,
        charset,
        octets,
        written: written(alloc, name, value)?,
    }))
}
