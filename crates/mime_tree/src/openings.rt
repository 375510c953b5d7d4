//! How an entity is opened, by the fields of its block (RFC 2045, 5 and 6; RFC 2046, 5).
ghost use Rattle.std.specs.Prelude.{◌≡◌, ◌≢◌, ◌↔◌, ◌+◌, ◌<◌, ◌≤◌, ◌∷◌, [], ◌&&◌, ◌||◌, ℕ, Bool, List, Some, true, false, length, take, map, filter, not, codes, IfOk, IfSome, IfNone, IsTrue};
ghost use Rattle.std.specs.Str.{bytes_eq};
ghost use Rattle.std.specs.List.{All, list_all};
ghost use Rattle.mail_wire.specs.Octets.{same_name};
ghost use Rattle.utf8_fields.specs.Block.{raw_of};
ghost use Rattle.encoded_words.specs.private.Values.{value_of};
ghost use Rattle.field_tokens.specs.declared.TokenKind.TheVariants.{Atom};
ghost use Rattle.field_tokens.specs.Squeezed.{is_blank};
ghost use Rattle.param_grammar.specs.declared.Piece.{Piece};
ghost use Rattle.param_grammar.specs.Joining.{goes_on, params_of};
ghost use Rattle.param_grammar.specs.Placed.{HasPlaced};
ghost use Rattle.param_grammar.specs.Places.{piece_in};
ghost use Rattle.mime_tree.specs.private.Types.{begins_other, IsNotNamed};
ghost use Rattle.mime_tree.specs.Openings.{is_letter, is_digit_or_sign, is_other_sign, is_boundary_octet, is_usable, is_message_type, is_multipart_type, is_digest_type, is_identity_name, boundary_in, opening_said, opening_by_default, Opens, OpensByType, OpensByText, IsFirstValue, IsIdentity, KeepsOctets, AreFieldsWithin, usable_of, divided};

use encoded_words::Unit;
use field_tokens::{Style, Token, TokenFault, TokenKind, is_blank, tokens};
use mail_wire::{Memory, Octets, is_same_name};
use param_grammar::{Body, ParamFault, ParamKind, Placed, Role, base_at, read_body};
use std::alloc::Global;
use utf8_fields::{Field, split_field, value_of};

/// How an entity is opened.
#[derive(Drop)]
pub enum Opening {
    /// Not at all.
    Nothing,
    /// As one message.
    Message,
    /// As parts between the lines of a boundary.
    Parts {
        boundary: Octets,
        /// Whether a part is a message where it doesn't say what it is.
        digest: bool,
    },
}

// A letter.
fn is_letter(octet: u8) -> bool
    ensures { result ≡ is_letter octet }
{
    (b'A'..=b'Z').contains(&octet) || (b'a'..=b'z').contains(&octet)
}

// A digit or one of '()+,-./:
fn is_digit_or_sign(octet: u8) -> bool
    ensures { result ≡ is_digit_or_sign octet }
{
    (b'\''..=b')').contains(&octet) || (b'+'..=b':').contains(&octet)
}

// A space or one of =?_
fn is_other_sign(octet: u8) -> bool
    ensures { result ≡ is_other_sign octet }
{
    (octet == b' ' || octet == b'=') || (octet == b'?' || octet == b'_')
}

// An octet of a boundary.
fn is_boundary_octet(octet: u8) -> bool
    ensures { result ≡ is_boundary_octet octet }
{
    is_letter(octet) || is_digit_or_sign(octet) || is_other_sign(octet)
}

// Whether all octets are those of a boundary.
fn are_boundary_octets(boundary: &[u8]) -> bool
    ensures { result ≡ list_all is_boundary_octet boundary.now }
{
    boundary.iter().all(|octet| is_boundary_octet(*octet))
}

// Whether a boundary may be used.
#[tactic(auto, unfolding(crate::specs::Openings::is_usable))]
fn is_usable(boundary: &[u8]) -> bool
    ensures { result ≡ is_usable boundary.now }
{
    if boundary.is_empty() {
        return false;
    }
    if boundary.len() > 70 {
        return false;
    }
    if !are_boundary_octets(boundary) {
        return false;
    }
    boundary[boundary.len() - 1] != b' '
}

fn is_message_type(main: &[u8]) -> bool
    ensures { result ≡ is_message_type main.now }
{
    main == b"message/rfc822".as_slice() || main == b"message/global".as_slice()
}

fn is_multipart_type(main: &[u8]) -> bool
    ensures { result ≡ is_multipart_type main.now }
{
    main.starts_with(b"multipart/")
}

fn is_digest_type(main: &[u8]) -> bool
    ensures { result ≡ is_digest_type main.now }
{
    main == b"multipart/digest".as_slice()
}

// Whether a parameter `boundary` begins with a piece.
fn begins_boundary(text: &[u8], placed: &Placed, number: usize) -> bool
    requires number { number < length placed.now.places.items }
    requires placed { (pieces : List Piece) × HasPlaced text.now placed.now pieces }
    ensures { (pieces : List Piece) → HasPlaced text.now placed.now pieces
        → result ≡ (not (goes_on (take number pieces) (piece_in pieces number)) && bytes_eq (piece_in pieces number).base (codes "boundary")) }
{
    matches!(placed.roles[number], Role::Begins { .. })
        && is_same_name(base_at(text, placed.places[number]), b"boundary")
}

// The text of the first parameter `boundary`, where it may be used.
fn usable_boundary(alloc: Global, text: &[u8], placed: &Placed) -> Result<Option<Octets>, Memory>
    requires { (pieces : List Piece) × HasPlaced text.now placed.now pieces }
    ensures { (pieces : List Piece) → HasPlaced text.now placed.now pieces → IfOk result (λ o. o ≡ usable_of (boundary_in (params_of pieces))) }
{
    for number in 0..placed.places.len() {
        if begins_boundary(text, placed, number) {
            let unit = placed.unit(alloc, text, number)?;
            return usable_text(alloc, &unit);
        }
    }
    Ok(None)
}

// What a unit says, where it is a text that may be used as a boundary.
fn usable_text(alloc: Global, unit: &Unit) -> Result<Option<Octets>, Memory>
    ensures { IfOk result (λ o. o ≡ usable_of (Some (value_of unit.now))) }
{
    match unit {
        Unit::Text(text) => {
            if !is_usable(text.as_slice()) {
                return Ok(None);
            }
            let boundary = Octets::from_slice(alloc, text.as_slice())?;
            Ok(Some(boundary))
        }
        Unit::Opaque { .. } => Ok(None),
    }
}

// How an entity is opened whose type this is.
fn opening_said(alloc: Global, text: &[u8], body: &Body) -> Result<Opening, Memory>
    requires { (pieces : List Piece) × HasPlaced text.now body.now.placed pieces }
    ensures { (pieces : List Piece) → HasPlaced text.now body.now.placed pieces → IfOk result (λ opening. opening ≡ opening_said body.now.main (params_of pieces)) }
{
    let main = body.main.as_slice();
    if is_message_type(main) {
        return Ok(Opening::Message);
    }
    if !is_multipart_type(main) {
        return Ok(Opening::Nothing);
    }
    match usable_boundary(alloc, text, &body.placed)? {
        Some(boundary) => Ok(Opening::Parts {
            boundary,
            digest: is_digest_type(main),
        }),
        None => Ok(Opening::Nothing),
    }
}

// Whether a text begins as no gap, no comment and no type of what is opened. Most types are passed by so, without a look at their parameters.
fn begins_other(text: &[u8]) -> bool
    ensures { result ≡ begins_other text.now }
{
    match text {
        [first, ..] => *first >= b'a' && *first != b'm',
        [] => false,
    }
}

// How an entity is opened whose Content-Type is this text.
fn opening_by_text(alloc: Global, text: &[u8]) -> Result<Opening, Memory>
    ensures { IfOk result (OpensByText text.now) }
{
    if begins_other(text) {
        return Ok(Opening::Nothing);
    }
    match read_body(alloc, ParamKind::Content, text) {
        Ok(body) => opening_said(alloc, text, &body),
        Err(ParamFault::Malformed) => Ok(Opening::Nothing),
        Err(ParamFault::Memory) => Err(Memory),
    }
}

// The same where there may be no Content-Type.
fn opening_by_type(alloc: Global, text: &Option<Octets>, digest: bool) -> Result<Opening, Memory>
    ensures { IfOk result (OpensByType digest text.now) }
{
    match text {
        Some(text) => opening_by_text(alloc, text.as_slice()),
        None => {
            if digest {
                Ok(Opening::Message)
            } else {
                Ok(Opening::Nothing)
            }
        }
    }
}

fn is_atom(kind: TokenKind) -> bool
    ensures { IsTrue result ↔ (kind ≡ Atom) }
{
    matches!(kind, TokenKind::Atom)
}

// Whether an encoding leaves the octets as they are, by its name.
fn is_identity_name(name: &[u8]) -> bool
    ensures { result ≡ is_identity_name name.now }
{
    is_same_name(name, b"7bit") || is_same_name(name, b"8bit") || is_same_name(name, b"binary")
}

/// The one token that is no gap and no comment, if there is one and no other.
pub fn only_word(tokens: &[Token]) -> Option<Token>
    ensures some { IfSome result (λ token. filter (λ (t : Token). not (is_blank t.kind)) tokens.now ≡ token ∷ []) }
    ensures none { IfNone result ((token : Token) → filter (λ (t : Token). not (is_blank t.kind)) tokens.now ≢ token ∷ []) }
{
    let mut found: Option<Token> = None;
    for token in tokens {
        if !is_blank(token.kind) {
            if found.is_some() {
                return None;
            }
            found = Some(*token);
        }
    }
    found
}

// Whether a text is one atom, with gaps and comments around it, that names an encoding which leaves the octets as they are.
fn keeps_octets(alloc: Global, text: &[u8]) -> Result<bool, Memory>
    ensures { IfOk result (λ is. IsTrue is ↔ KeepsOctets text.now) }
{
    // most texts are such a name alone
    if is_identity_name(text) {
        return Ok(true);
    }
    let found = match tokens(alloc, Style::Mime, text) {
        Ok(found) => found,
        Err(TokenFault::Malformed) => return Ok(false),
        Err(TokenFault::Memory) => return Err(Memory),
    };
    match only_word(&found) {
        Some(word) => {
            let (_, rest) = text.split_at(word.span.at);
            let (octets, _) = rest.split_at(word.span.len);
            Ok(is_atom(word.kind) && is_identity_name(octets))
        }
        None => Ok(false),
    }
}

// The same where there may be no Content-Transfer-Encoding.
fn is_identity(alloc: Global, text: &Option<Octets>) -> Result<bool, Memory>
    ensures { IfOk result (λ is. IsTrue is ↔ IsIdentity text.now) }
{
    match text {
        Some(text) => keeps_octets(alloc, text.as_slice()),
        None => Ok(true),
    }
}

// Whether a field begins with the octets of this name. Most fields of other names are passed by so, and aren't split.
fn begins_with_name(raw: &[u8], name: &[u8]) -> bool
    ensures named { IsTrue result → same_name (take (length name.now) raw.now) name.now ≡ true }
    ensures other { result ≡ false → IsNotNamed raw.now name.now }
{
    if raw.len() < name.len() {
        return false;
    }
    let (front, _) = raw.split_at(name.len());
    is_same_name(front, name)
}

/// The value of the first field of this name.
pub fn first_value(
    alloc: Global,
    octets: &[u8],
    fields: &[Field],
    name: &[u8],
) -> Result<Option<Octets>, Memory>
    requires within { AreFieldsWithin octets.now fields.now }
    ensures { IfOk result (IsFirstValue name.now (map (raw_of octets.now) fields.now)) }
{
    for field in fields {
        let raw = &octets[field.raw.at..field.raw.at + field.raw.len];
        if begins_with_name(raw, name) {
            let parts = split_field(raw);
            if parts.name.len() == name.len() {
                let value = value_of(alloc, parts.body)?;
                return Ok(Some(value));
            }
        }
    }
    Ok(None)
}

/// How the entity of these fields is opened.
pub fn opening_of(
    alloc: Global,
    octets: &[u8],
    fields: &[Field],
    digest: bool,
) -> Result<Opening, Memory>
    requires { AreFieldsWithin octets.now fields.now }
    ensures { IfOk result (Opens digest (map (raw_of octets.now) fields.now)) }
{
    let encoding = first_value(alloc, octets, fields, b"Content-Transfer-Encoding")?;
    if !is_identity(alloc, &encoding)? {
        return Ok(Opening::Nothing);
    }
    let text = first_value(alloc, octets, fields, b"Content-Type")?;
    opening_by_type(alloc, &text, digest)
}
