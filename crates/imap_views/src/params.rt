//! Parameters as they are written, types, dispositions and encodings.
ghost use Rattle.std.specs.Prelude.{◌≡◌, ◌++◌, ℕ, List, IfOk, OnOk, IfSome, IfNone};
ghost use Rattle.param_grammar.specs.declared.Piece.{Piece};
ghost use Rattle.param_grammar.specs.Placed.{HasPlaced};
ghost use Rattle.param_grammar.specs.Places.{IsPlaced, ArePlaced};
ghost use Rattle.imap_views.specs.Parts.{HasPieces, IsNoField, IsDispositionBy, IsEncodingBy, IsMechanism, IsSoleAtom, IsTypeBy, TypeValue, disposition_form, pair_of, pairs_of, value_said, usual_params, usual_type};

use crate::strings::split_mark;
use address_grammar::push_quoted_string;
use field_tokens::{Style, TokenKind, read_tokens};
use mail_wire::{Memory, Octets, is_ascii};
use mime_tree::only_word;
use param_grammar::{
    Body, ParamFault, ParamKind, Piece, Place, inner, piece_at, read_body, unquoted,
};
use std::alloc::Global;

// The main part and the parameters of a field, and nothing where it is malformed.
fn read_pieces(alloc: Global, kind: ParamKind, text: &[u8]) -> Result<Option<Body>, Memory>
    ensures found { IfOk result (λ o. IfSome o (λ body. (pieces : List Piece) × HasPieces kind text.now body.main pieces × HasPlaced text.now body.placed pieces)) }
    ensures none { IfOk result (λ o. IfNone o (IsNoField kind text.now)) }
{
    match read_body(alloc, kind, text) {
        Ok(body) => Ok(Some(body)),
        Err(ParamFault::Malformed) => Ok(None),
        Err(ParamFault::Memory) => Err(Memory),
    }
}

// What a written value says.
fn value_said(alloc: Global, written: &[u8]) -> Result<Octets, Memory>
    ensures { IfOk result (λ made. made ≡ value_said written.now) }
{
    if !written.starts_with(b"\"") {
        return Octets::from_slice(alloc, written);
    }
    unquoted(alloc, inner(written))
}

// Puts the name and the value of a parameter last.
fn push_pair(alloc: Global, made: &mut Octets, piece: &Piece) -> Result<(), Memory>
    ensures { OnOk result (made.new ≡ made.old ++ pair_of piece.now) }
{
    let (name, value) = split_mark(piece.written.as_slice(), b'=');
    push_quoted_string(made, name)?;
    made.push(b' ')?;
    push_quoted_string(made, value_said(alloc, value)?.as_slice())
}

// Puts the name and the value of the parameter at a place last.
fn push_pair_at(alloc: Global, made: &mut Octets, text: &[u8], place: Place) -> Result<(), Memory>
    requires { (piece : Piece) × IsPlaced text.now place piece }
    ensures { (piece : Piece) → IsPlaced text.now place piece → OnOk result (made.new ≡ made.old ++ pair_of piece) }
{
    let piece = piece_at(alloc, text, place)?;
    push_pair(alloc, made, &piece)
}

// The names and the values of parameters, or NIL.
fn pairs_of(alloc: Global, text: &[u8], places: &[Place]) -> Result<Octets, Memory>
    requires { (pieces : List Piece) × ArePlaced text.now places.now pieces }
    ensures { (pieces : List Piece) → ArePlaced text.now places.now pieces → IfOk result (λ made. made ≡ pairs_of pieces) }
{
    let Some((first, others)) = places.split_first() else {
        return Octets::from_slice(alloc, b"NIL");
    };
    let mut made = Octets::from_slice(alloc, b"(")?;
    push_pair_at(alloc, &mut made, text, *first)?;
    for place in others {
        made.push(b' ')?;
        push_pair_at(alloc, &mut made, text, *place)?;
    }
    made.push(b')')?;
    Ok(made)
}

fn usual_params(alloc: Global) -> Result<Octets, Memory>
    ensures { IfOk result (λ made. made ≡ usual_params) }
{
    Octets::from_slice(alloc, b"(\"charset\" \"us-ascii\")")
}

// What a part is that doesn't say it.
fn usual_type(alloc: Global, digest: bool) -> Result<(Octets, Octets), Memory>
    ensures { IfOk result (λ x. record { main = x.0; params = x.1 } ≡ usual_type digest) }
{
    let main: &[u8] = if digest {
        b"message/rfc822"
    } else {
        b"text/plain"
    };
    Ok((Octets::from_slice(alloc, main)?, usual_params(alloc)?))
}

/// The type of a part, in lower case, and its parameters.
pub fn type_of(
    alloc: Global,
    value: &Option<Octets>,
    digest: bool,
) -> Result<(Octets, Octets), Memory>
    ensures { IfOk result (λ x. IsTypeBy digest value.now (record { main = x.0; params = x.1 })) }
{
    let Some(text) = value else {
        return usual_type(alloc, digest);
    };
    match read_pieces(alloc, ParamKind::Content, text.as_slice())? {
        Some(body) => {
            let params = pairs_of(alloc, text.as_slice(), &body.placed.places)?;
            Ok((body.main, params))
        }
        None => usual_type(alloc, false),
    }
}

// The form of a disposition.
fn disposition_form(alloc: Global, text: &[u8], body: &Body) -> Result<Octets, Memory>
    requires { (pieces : List Piece) × ArePlaced text.now body.now.placed.places.items pieces }
    ensures { (pieces : List Piece) → ArePlaced text.now body.now.placed.places.items pieces → IfOk result (λ made. made ≡ disposition_form body.now.main pieces) }
{
    let mut made = Octets::from_slice(alloc, b"(")?;
    push_quoted_string(&mut made, body.main.as_slice())?;
    made.push(b' ')?;
    made.push_slice(pairs_of(alloc, text, &body.placed.places)?.as_slice())?;
    made.push(b')')?;
    Ok(made)
}

/// The disposition of a part, or NIL.
pub fn disposition_of(alloc: Global, value: &Option<Octets>) -> Result<Octets, Memory>
    ensures { IfOk result (λ made. IsDispositionBy value.now made) }
{
    let Some(text) = value else {
        return Octets::from_slice(alloc, b"NIL");
    };
    match read_pieces(alloc, ParamKind::Disposition, text.as_slice())? {
        Some(body) => disposition_form(alloc, text.as_slice(), &body),
        None => Octets::from_slice(alloc, b"NIL"),
    }
}

// The one atom that a text is, with gaps and comments around it.
fn one_atom(alloc: Global, text: &[u8]) -> Result<Option<Octets>, Memory>
    ensures found { IfOk result (λ o. IfSome o (IsSoleAtom text.now)) }
    ensures none { IfOk result (λ o. IfNone o ((octets : List ℕ) → ¬ IsSoleAtom text.now octets)) }
{
    let Some(found) = read_tokens(alloc, Style::Mime, text)? else {
        return Ok(None);
    };
    let Some(word) = only_word(&found) else {
        return Ok(None);
    };
    if !matches!(word.kind, TokenKind::Atom) {
        return Ok(None);
    }
    let (_, rest) = text.split_at(word.span.at);
    let (octets, _) = rest.split_at(word.span.len);
    Ok(Some(Octets::from_slice(alloc, octets)?))
}

// The mechanism that a text names: one atom, which is ASCII.
fn mechanism(alloc: Global, text: &[u8]) -> Result<Option<Octets>, Memory>
    ensures found { IfOk result (λ o. IfSome o (IsMechanism text.now)) }
    ensures none { IfOk result (λ o. IfNone o ((octets : List ℕ) → ¬ IsMechanism text.now octets)) }
{
    let Some(atom) = one_atom(alloc, text)? else {
        return Ok(None);
    };
    if !is_ascii(atom.as_slice()) {
        return Ok(None);
    }
    Ok(Some(atom))
}

/// The encoding of a part.
pub fn encoding_of(alloc: Global, value: &Option<Octets>) -> Result<Octets, Memory>
    ensures { IfOk result (λ made. IsEncodingBy value.now made) }
{
    if let Some(text) = value {
        if let Some(name) = mechanism(alloc, text.as_slice())? {
            return Ok(name);
        }
    }
    Octets::from_slice(alloc, b"7bit")
}
