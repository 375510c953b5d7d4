//! The stored form of a rope.
ghost use Rattle.std.specs.Prelude.{◌≡◌, ◌+◌, ◌^◌, ◌<◌, ◌≤◌, ◌++◌, ◌∷◌, [], ℕ, List, Option, length, map, take, drop, IfOk, OnOk, IsTrue};
ghost use Rattle.std.specs.Int.{w64, from_be_bytes};
ghost use Rattle.std.specs.List.{AllByRecursion};
ghost use Rattle.mime_tree.specs.Outlines.{Outline as OutlineValue, seen_outline};
ghost use Rattle.surrogate_rope.specs.Ropes.{RopeValue, RopePiece};
ghost use Rattle.surrogate_rope.specs.Stored.{number, parent_number, shape_octet, stored_piece, stored_entity, stored_most, HasSmallParent, IsPieceSmall, IsEntitySmall, IsStoredRope};
ghost use Rattle.surrogate_rope.specs.private.Pieces.{piece_of};
ghost use Rattle.surrogate_rope.specs.private.Storing.{StoresPiece, StoresEntity, StoresEntities, HasPieceAt, HasEntityAt, HasPiecesAt, HasEntitiesAt};

use crate::pieces::{Piece, Pieces, room_for};
use crate::rope::Rope;
use mail_wire::{Memory, Octets, Span};
use mime_tree::{Outline, Shape};
use std::alloc::Global;

// How many octets the counts have, a range of the message, a new piece without its octets, and an entity.
const COUNTS: usize = 24;

const RANGE: usize = 17;

const NEW: usize = 9;

const ENTITY: usize = 41;

// Writes a number at a place of a form.
fn write_number(form: &mut [u8], at: usize, n: usize)
    requires { at + 8 ≤ length form.old }
    ensures form { form.new ≡ take at form.old ++ (number n ++ drop (at + 8) form.old) }
    ensures small { n < 2 ^ 64 }
{
    form[at..at + 8].copy_from_slice(&(n as u64).to_be_bytes());
}

fn counts_form(pieces: usize, entities: usize, rewritten: usize) -> [u8; COUNTS]
    ensures form { result ≡ number pieces ++ (number entities ++ number rewritten) }
    ensures small { (pieces < 2 ^ 64) × (entities < 2 ^ 64) × (rewritten < 2 ^ 64) }
{
    let mut form = [0; COUNTS];
    write_number(&mut form, 0, pieces);
    write_number(&mut form, 8, entities);
    write_number(&mut form, 16, rewritten);
    form
}

fn range_form(range: Span) -> [u8; RANGE]
    ensures form { result ≡ stored_piece (RopePiece.Range range) }
    ensures small { IsPieceSmall (RopePiece.Range range) }
{
    let mut form = [0; RANGE];
    write_number(&mut form, 1, range.at);
    write_number(&mut form, 9, range.len);
    form
}

fn new_form(len: usize) -> [u8; NEW]
    ensures form { result ≡ 1 ∷ number len }
    ensures small { len < 2 ^ 64 }
{
    let mut form = [1; NEW];
    write_number(&mut form, 1, len);
    form
}

/// Puts the stored form of a piece last. The octets are those of all new pieces.
pub fn store_piece(stored: &mut Octets, octets: &[u8], piece: &Piece) -> Result<(), Memory>
    requires { IsTrue piece.now.is_new → piece.now.range.at + piece.now.range.len ≤ length octets.now }
    ensures { OnOk result (StoresPiece stored.old stored.new (piece_of octets.now piece.now)) }
{
    let range = piece.range;
    if piece.is_new {
        stored.push_slice(&new_form(range.len))?;
        stored.push_slice(&octets[range.at..range.at + range.len])
    } else {
        stored.push_slice(&range_form(range))
    }
}

fn octet_of(shape: Shape) -> u8
    ensures { result ≡ shape_octet shape }
{
    match shape {
        Shape::Leaf => 0,
        Shape::Multipart => 1,
        Shape::Message => 2,
    }
}

// One more than the parent.
fn number_of(parent: Option<usize>) -> usize
    requires { parent_number parent < 2 ^ 64 }
    ensures { result ≡ parent_number parent }
{
    match parent {
        Some(parent) => parent + 1,
        None => 0,
    }
}

fn entity_form(entity: &Outline) -> [u8; ENTITY]
    requires { HasSmallParent (seen_outline entity.now) }
    ensures form { result ≡ stored_entity (seen_outline entity.now) }
    ensures small { IsEntitySmall (seen_outline entity.now) }
{
    // the shape stands after the numbers
    let mut form = [octet_of(entity.shape); ENTITY];
    write_number(&mut form, 0, number_of(entity.parent));
    write_number(&mut form, 8, entity.depth as usize);
    write_number(&mut form, 16, entity.at);
    write_number(&mut form, 24, entity.body);
    write_number(&mut form, 32, entity.end);
    form
}

// Puts the stored form of an entity last.
fn store_entity(stored: &mut Octets, entity: &Outline) -> Result<(), Memory>
    requires { HasSmallParent (seen_outline entity.now) }
    ensures { OnOk result (StoresEntity stored.old stored.new (seen_outline entity.now)) }
{
    stored.push_slice(&entity_form(entity))
}

// The number that is stored at this place.
fn number_at(octets: &[u8], at: usize) -> usize
    requires { at + 8 ≤ length octets.now }
    ensures { result ≡ from_be_bytes w64 (take 8 (drop at octets.now)) }
{
    u64::from_be_bytes([
        octets[at],
        octets[at + 1],
        octets[at + 2],
        octets[at + 3],
        octets[at + 4],
        octets[at + 5],
        octets[at + 6],
        octets[at + 7],
    ]) as usize
}

// Reads the piece that is stored at this place, and answers where it ends.
fn load_piece(octets: &[u8], at: usize, pieces: &mut Pieces) -> Result<usize, Memory>
    requires { HasPieceAt octets.now at pieces.old }
    ensures { IfOk result (λ end. (piece : RopePiece) (rest : List ℕ) → drop at octets.now ≡ stored_piece piece ++ rest → IsPieceSmall piece
        → (pieces.new ≡ pieces.old ++ piece ∷ []) × (drop end octets.now ≡ rest)) }
{
    let first = number_at(octets, at + 1);
    let following = at + 9;
    if octets[at] == 0 {
        pieces.push_range(Span {
            at: first,
            len: number_at(octets, following),
        })?;
        Ok(following + 8)
    } else {
        pieces.push_new(&octets[following..following + first])?;
        Ok(following + first)
    }
}

fn shape_of(octet: u8) -> Shape
    ensures { (shape : Shape) → octet ≡ shape_octet shape → result ≡ shape }
{
    match octet {
        0 => Shape::Leaf,
        1 => Shape::Multipart,
        _ => Shape::Message,
    }
}

// The parent that is stored as this number.
fn parent_of(n: usize) -> Option<usize>
    ensures { (parent : Option ℕ) → n ≡ parent_number parent → result ≡ parent }
{
    if n == 0 { None } else { Some(n - 1) }
}

// The entity that is stored at this place.
fn load_entity(octets: &[u8], at: usize) -> Outline
    requires { HasEntityAt octets.now at }
    ensures { (entity : OutlineValue) (rest : List ℕ) → drop at octets.now ≡ stored_entity entity ++ rest → IsEntitySmall entity → seen_outline result ≡ entity }
{
    Outline {
        parent: parent_of(number_at(octets, at)),
        depth: number_at(octets, at + 8) as u32,
        at: number_at(octets, at + 16),
        body: number_at(octets, at + 24),
        end: number_at(octets, at + 32),
        shape: shape_of(octets[at + 40]),
    }
}

// Puts the stored form of each entity last.
fn store_entities(stored: &mut Octets, entities: &[Outline]) -> Result<(), Memory>
    requires { AllByRecursion HasSmallParent (map seen_outline entities.now) }
    ensures { OnOk result (StoresEntities stored.old stored.new (map seen_outline entities.now)) }
{
    for entity in entities {
        store_entity(stored, entity)?;
    }
    Ok(())
}

// Reads so many pieces that are stored from this place on, and answers where they end.
fn load_pieces(
    alloc: Global,
    octets: &[u8],
    from: usize,
    count: usize,
) -> Result<(Pieces, usize), Memory>
    requires { (pieces : List RopePiece) × (rest : List ℕ) × HasPiecesAt octets.now from count pieces rest }
    ensures { IfOk result (λ made. (pieces : List RopePiece) (rest : List ℕ) → HasPiecesAt octets.now from count pieces rest → (made.0 ≡ pieces) × (drop made.1 octets.now ≡ rest)) }
{
    let mut pieces = Pieces::with_room(alloc, count, octets.len())?;
    let mut at = from;
    for _ in 0..count {
        at = load_piece(octets, at, &mut pieces)?;
    }
    Ok((pieces, at))
}

// Reads so many entities that are stored from this place on.
fn load_entities(
    alloc: Global,
    octets: &[u8],
    from: usize,
    count: usize,
) -> Result<Vec<Outline>, Memory>
    requires { (entities : List OutlineValue) × HasEntitiesAt octets.now from count entities }
    ensures { IfOk result (λ made. (entities : List OutlineValue) → HasEntitiesAt octets.now from count entities → map seen_outline made.items ≡ entities) }
{
    let mut entities = Vec::with_capacity(alloc, count)?;
    let mut at = from;
    for _ in 0..count {
        entities.push(load_entity(octets, at))?;
        at += ENTITY;
    }
    Ok(entities)
}

impl Rope {
    // How many octets the stored form has at most, or the greatest number. It only says what room is made first.
    fn stored_room(&self) -> usize {
        let pieces = self.pieces.len().saturating_mul(RANGE);
        let entities = self.outlines.len().saturating_mul(ENTITY);
        pieces
            .saturating_add(entities)
            .saturating_add(self.pieces.kept())
            .saturating_add(COUNTS)
    }

    /// The stored form of the rope, which doesn't have the octets of its message.
    pub fn store(&self, alloc: Global) -> Result<Octets, Memory>
        ensures stored { IfOk result (λ made. IsStoredRope made self.now) }
        ensures few { IfOk result (λ made. length made ≤ stored_most self.now) }
    {
        let mut stored = room_for(alloc, self.stored_room())?;
        let counts = counts_form(self.pieces.len(), self.outlines.len(), self.rewritten);
        stored.push_slice(&counts)?;
        self.pieces.store(&mut stored)?;
        store_entities(&mut stored, &self.outlines)?;
        Ok(stored)
    }

    /// The rope of this stored form.
    pub fn load(alloc: Global, octets: &[u8]) -> Result<Rope, Memory>
        requires { (rope : RopeValue) × IsStoredRope octets.now rope }
        ensures { IfOk result (λ made. (rope : RopeValue) → IsStoredRope octets.now rope → made ≡ rope) }
    {
        let (pieces, at) = load_pieces(alloc, octets, COUNTS, number_at(octets, 0))?;
        let outlines = load_entities(alloc, octets, at, number_at(octets, 8))?;
        Ok(Rope {
            pieces,
            outlines,
            rewritten: number_at(octets, 16),
        })
    }
}
