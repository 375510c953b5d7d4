//! The pieces of a surrogate: ranges of its message, and new octets.
ghost use Rattle.std.specs.Prelude.{◌≡◌, ◌+◌, ◌-◌, ◌^◌, ◌<◌, ◌≤◌, ◌++◌, ◌∷◌, [], length, take, drop, min, slice_index_or, vec_len, vec_capacity, IfOk, OnOk};
ghost use Rattle.utf8_fields.specs.Parts.{IsField};
ghost use Rattle.surrogate_rope.specs.Ropes.{RopePiece, AreWithin, piece_octets, joined_pieces, size_of, range_size, new_size};
ghost use Rattle.surrogate_rope.specs.private.Pieces.{IsInPiece, piece_at, range_at, range_where, AddsServed};
ghost use Rattle.surrogate_rope.specs.private.Storing.{StoresPieces};

use crate::storing::store_piece;
use field_downgrade::push_downgraded;
use mail_wire::{Memory, Octets, Span};
use std::alloc::Global;
use std::marker::Model;

/// A range of the message, or of the new octets.
#[derive(Clone, Copy)]
pub struct Piece {
    /// Where it begins in the surrogate.
    pub offset: usize,
    pub is_new: bool,
    pub range: Span,
}

/// Pieces, one after another.
#[derive(Drop)]
pub struct Pieces {
    /// The octets of all new pieces, in their order.
    octets: Octets,
    pieces: Vec<Piece>,
    size: usize,
}

impl Model for Pieces {
    ghost use Rattle.std.specs.Prelude.{List};
    ghost use Rattle.surrogate_rope.specs.Ropes.{RopePiece};
    ghost use Rattle.surrogate_rope.specs.private.Pieces.{pieces_of, HoldsPieces};

    ghost Value = { List RopePiece };

    ghost view = { λ a. pieces_of a.octets a.pieces.items };

    ghost invariant = { λ a. HoldsPieces a.octets a.pieces.items a.size };
}

// Puts a piece last after those that have so many octets, and answers how many all have. There is room for it.
fn add_piece(pieces: &mut Vec<Piece>, size: usize, is_new: bool, range: Span) -> usize
    requires size { size + range.len < 2 ^ 64 }
    requires room { vec_len pieces.old < vec_capacity pieces.old }
    ensures added { pieces.new.items ≡ pieces.old.items ++ piece_at size is_new range ∷ [] }
    ensures size { result ≡ size + range.len }
    ensures len { vec_len pieces.new ≡ vec_len pieces.old + 1 }
    ensures room { vec_capacity pieces.old ≤ vec_capacity pieces.new }
{
    let Ok(()) = pieces.push(Piece {
        offset: size,
        is_new,
        range,
    }) else {
        unreachable!();
    };
    size + range.len
}

// The same of a range of the message, if it has octets.
fn add_range(pieces: &mut Vec<Piece>, size: usize, range: Span) -> usize
    requires size { size + range.len < 2 ^ 64 }
    requires room { vec_len pieces.old < vec_capacity pieces.old }
    ensures added { pieces.new.items ≡ pieces.old.items ++ range_at size range }
    ensures size { result ≡ size + range.len }
    ensures len { vec_len pieces.new ≤ vec_len pieces.old + 1 }
    ensures room { vec_capacity pieces.old ≤ vec_capacity pieces.new }
{
    if range.len == 0 {
        return size;
    }
    add_piece(pieces, size, false, range)
}

impl Pieces {
    /// No pieces, and room for so many, and for so many new octets.
    pub fn with_room(alloc: Global, pieces: usize, octets: usize) -> Result<Self, Memory>
        ensures { IfOk result (λ made. made ≡ []) }
    {
        Ok(Pieces {
            octets: room_for(alloc, octets)?,
            pieces: Vec::with_capacity(alloc, pieces)?,
            size: 0,
        })
    }

    /// How many pieces there are.
    pub fn len(&self) -> usize
        ensures { result ≡ length self.now }
    {
        self.pieces.len()
    }

    /// How many new octets are kept.
    pub fn kept(&self) -> usize
        ensures { result ≡ new_size self.now }
    {
        self.octets.len()
    }

    /// How many octets the pieces have.
    pub fn size(&self) -> usize
        ensures { result ≡ size_of self.now }
    {
        self.size
    }

    /// Puts a range of the message last.
    pub fn push_range(&mut self, range: Span) -> Result<(), Memory>
        requires { range_size self.old + range.len < 2 ^ 63 }
        ensures { OnOk result (self.new ≡ self.old ++ RopePiece.Range range ∷ []) }
    {
        self.pieces.push(Piece {
            offset: self.size,
            is_new: false,
            range,
        })?;
        self.size += range.len;
        Ok(())
    }

    /// Puts new octets last.
    pub fn push_new(&mut self, octets: &[u8]) -> Result<(), Memory>
        ensures pieces { OnOk result (self.new ≡ self.old ++ RopePiece.New octets.now ∷ []) }
        ensures few { OnOk result (new_size self.new < 2 ^ 63) }
    {
        self.pieces.reserve(1)?;
        self.octets.push_slice(octets)?;
        let end = count_of(self.octets.as_slice());
        let range = Span {
            at: end - octets.len(),
            len: octets.len(),
        };
        self.size = add_piece(&mut self.pieces, self.size, true, range);
        Ok(())
    }

    /// Puts a field last as it is served, where that is another field, and before it this range of the message. Answers
    /// whether it is another one. After want of memory there may be no pieces.
    pub fn push_served(
        &mut self,
        alloc: Global,
        raw: &[u8],
        open_global: bool,
        kept: Span,
    ) -> Result<bool, Memory>
        requires field { IsField raw.now }
        requires kept { range_size self.old + kept.len < 2 ^ 63 }
        ensures pieces { IfOk result (λ is_new. AddsServed open_global raw.now kept is_new self.old self.new) }
        ensures few { OnOk result (new_size self.new < 2 ^ 63) }
    {
        // that of the field, and of the range before it
        self.pieces.reserve(2)?;
        let at = self.octets.len();
        let Ok(is_new) = push_downgraded(alloc, raw, open_global, &mut self.octets) else {
            // What was put there isn't known, so there are no pieces then.
            self.octets.clear();
            self.pieces.clear();
            self.size = 0;
            return Err(Memory);
        };
        if !is_new {
            return Ok(false);
        }
        let len = count_of(self.octets.as_slice()) - at;
        self.size = add_range(&mut self.pieces, self.size, kept);
        self.size = add_piece(&mut self.pieces, self.size, true, Span { at, len });
        Ok(true)
    }

    // The octets of a piece.
    fn octets_at<'a>(&'a self, msg: &'a [u8], number: usize) -> &'a [u8]
        requires number { number < length self.now }
        requires within { AreWithin msg.now self.now }
        ensures { result.now ≡ piece_octets msg.now (slice_index_or self.now number (RopePiece.New [])) }
    {
        let piece = self.pieces[number];
        let at = piece.range.at;
        let octets = self.octets.as_slice();
        if piece.is_new {
            &octets[at..at + piece.range.len]
        } else {
            &msg[at..at + piece.range.len]
        }
    }

    // Where a piece begins in the surrogate.
    fn offset_of(&self, number: usize) -> usize
        requires { number < length self.now }
        ensures { result ≡ size_of (take number self.now) }
    {
        self.pieces[number].offset
    }

    // The number of the piece that this place is in. It is the last one that doesn't begin after it, so it has octets.
    fn number_at(&self, place: usize) -> usize
        requires { place < size_of self.now }
        ensures { IsInPiece self.now place result }
    {
        let following = self.pieces.partition_point(|piece| piece.offset <= place);
        following.saturating_sub(1)
    }

    /// The octets of the piece at `offset`, from there on: none only after the last piece.
    pub fn run_at<'a>(&'a self, msg: &'a [u8], offset: usize) -> &'a [u8]
        requires { AreWithin msg.now self.now }
        ensures run { result.now ≡ take (length result.now) (drop offset (joined_pieces msg.now self.now)) }
        ensures some { offset < size_of self.now → 0 < length result.now }
        ensures few { offset + length result.now < 2 ^ 64 }
    {
        if self.size() <= offset {
            return &[];
        }
        let number = self.number_at(offset);
        rest_of(self.octets_at(msg, number), offset - self.offset_of(number))
    }

    /// Copies the octets from `offset` on, as many as the buffer holds, and answers how many these are.
    pub fn read_at(&self, msg: &[u8], offset: usize, into: &mut [u8]) -> usize
        requires { AreWithin msg.now self.now }
        ensures count { result ≡ min (length into.old) (size_of self.now - offset) }
        ensures octets { into.new ≡ take result (drop offset (joined_pieces msg.now self.now)) ++ drop result into.old }
    {
        if self.size() <= offset {
            return 0;
        }
        let most = into.len().min(self.size() - offset);
        let mut count = 0;
        while count < most {
            let run = self.run_at(msg, offset + count);
            count += copy_from(run, 0, &mut into[count..]);
        }
        count
    }

    /// Puts the stored form of each piece last.
    pub fn store(&self, stored: &mut Octets) -> Result<(), Memory>
        ensures { OnOk result (StoresPieces stored.old stored.new self.now) }
    {
        let octets = self.octets.as_slice();
        for piece in self.pieces.as_slice() {
            store_piece(stored, octets, piece)?;
        }
        Ok(())
    }
}

/// No octets, and room for so many.
pub(crate) fn room_for(alloc: Global, count: usize) -> Result<Octets, Memory>
    ensures { IfOk result (λ made. made ≡ []) }
{
    Ok(Octets::from_vec(Vec::with_capacity(alloc, count)?))
}

// How many octets there are. No memory has more.
fn count_of(octets: &[u8]) -> usize
    ensures count { result ≡ length octets.now }
    ensures few { length octets.now < 2 ^ 63 }
{
    octets.len()
}

/// The octets from `offset` on.
pub(crate) fn rest_of(octets: &[u8], offset: usize) -> &[u8]
    ensures { result.now ≡ drop offset octets.now }
{
    let (_, rest) = octets.split_at(offset.min(octets.len()));
    rest
}

/// Copies octets from `offset` on, as many as the buffer holds, and answers how many these are.
pub(crate) fn copy_from(octets: &[u8], offset: usize, into: &mut [u8]) -> usize
    ensures count { result ≡ min (length into.old) (length octets.now - offset) }
    ensures octets { into.new ≡ take result (drop offset octets.now) ++ drop result into.old }
{
    let rest = rest_of(octets, offset);
    let count = into.len().min(rest.len());
    let (piece, _) = rest.split_at(count);
    into[..count].copy_from_slice(piece);
    count
}
