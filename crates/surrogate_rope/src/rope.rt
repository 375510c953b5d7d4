//! Ropes: the surrogate of a message, and the places of its entities.
ghost use Rattle.std.specs.Prelude.{◌≡◌, ◌+◌, ◌-◌, ◌^◌, ◌<◌, ◌++◌, length, map, take, drop, min, IfOk};
ghost use Rattle.mime_tree.specs.Outlines.{seen_outline};
ghost use Rattle.mime_tree.specs.Sections.{section};
ghost use Rattle.mime_tree.specs.Tree.{HasTree};
ghost use Rattle.surrogate_rope.specs.Layout.{IsItsOwnSurrogate};
ghost use Rattle.surrogate_rope.specs.Ropes.{RopeValue, IsRopeOf, HasNewFields, octets_of, size_of};

use crate::building::make_pieces;
use crate::moving::moved_outlines;
use crate::pieces::Pieces;
use mail_wire::{Memory, Span};
use mime_tree::{Outline, Part, Tree, section};
use std::alloc::Global;
use std::marker::Model;

/// The surrogate of a message: ranges of the message, and the fields that were made anew.
#[derive(Drop)]
pub struct Rope {
    pub(crate) pieces: Pieces,
    pub(crate) outlines: Vec<Outline>,
    pub(crate) rewritten: usize,
}

impl Model for Rope {
    ghost use Rattle.std.specs.Prelude.{map};
    ghost use Rattle.mime_tree.specs.Outlines.{seen_outline};
    ghost use Rattle.surrogate_rope.specs.Ropes.{RopeValue};
    ghost use Rattle.std.specs.List.{AllByRecursion};
    ghost use Rattle.surrogate_rope.specs.Stored.{HasFewPieces, HasSmallParent};

    ghost Value = { RopeValue };

    ghost view = { λ a. record { pieces = a.pieces; entities = map seen_outline a.outlines.items; rewritten = a.rewritten } };

    ghost invariant = { λ a. HasFewPieces a.pieces a.rewritten × AllByRecursion HasSmallParent (map seen_outline a.outlines.items) };
}

impl Rope {
    /// Makes the surrogate of a message, whose tree this is.
    pub fn build(alloc: Global, msg: &[u8], tree: &Tree) -> Result<Rope, Memory>
        requires { HasTree msg.now tree.now.entities }
        ensures rope { IfOk result (IsRopeOf msg.now) }
        ensures new { IfOk result (HasNewFields msg.now tree.now.entities) }
        ensures own { IfOk result (λ rope. IsItsOwnSurrogate (octets_of msg.now rope)) }
    {
        let (made, ends) = make_pieces(alloc, msg, tree)?;
        let outlines = moved_outlines(alloc, &ends, tree.entities.as_slice())?;
        Ok(Rope {
            pieces: made.pieces,
            outlines,
            rewritten: made.rewritten,
        })
    }

    /// How many octets the surrogate has.
    pub fn size(&self) -> usize
        ensures { result ≡ size_of self.now.pieces }
    {
        self.pieces.size()
    }

    /// How many fields of the message were made anew.
    pub fn rewritten(&self) -> usize
        ensures { result ≡ self.now.rewritten }
    {
        self.rewritten
    }

    /// The surrogate's octets that stand together from `offset` on, in the message or among the new octets: none only after its end.
    pub fn run_at<'a>(&'a self, msg: &'a [u8], offset: usize) -> &'a [u8]
        requires { IsRopeOf msg.now self.now }
        ensures run { result.now ≡ take (length result.now) (drop offset (octets_of msg.now self.now)) }
        ensures some { offset < size_of self.now.pieces → 0 < length result.now }
        ensures few { offset + length result.now < 2 ^ 64 }
    {
        self.pieces.run_at(msg, offset)
    }

    /// Copies the surrogate's octets from `offset` on, as many as the buffer holds, and answers how many these are.
    pub fn read_at(&self, msg: &[u8], offset: usize, into: &mut [u8]) -> usize
        requires { IsRopeOf msg.now self.now }
        ensures count { result ≡ min (length into.old) (size_of self.now.pieces - offset) }
        ensures octets { into.new ≡ take result (drop offset (octets_of msg.now self.now)) ++ drop result into.old }
    {
        self.pieces.read_at(msg, offset, into)
    }

    /// A section of the surrogate (RFC 3501, 6.4.5).
    pub fn section(&self, path: &[u32], part: Part) -> Option<Span>
        ensures { result ≡ section self.now.entities path.now part }
    {
        section(self.outlines.as_slice(), path, part)
    }

    /// What is known of the surrogate's entities, in the order of their places.
    pub fn outlines(&self, alloc: Global) -> Result<Vec<Outline>, Memory>
        ensures { IfOk result (λ made. map seen_outline made.items ≡ self.now.entities) }
    {
        Ok(Vec::from_slice(alloc, &self.outlines)?)
    }
}
