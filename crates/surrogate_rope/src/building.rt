//! Makes the surrogate of a message, block by block.
ghost use Rattle.std.specs.Prelude.{◌↔◌, ◌≡◌, ◌+◌, ◌-◌, ◌^◌, ◌<◌, ◌≤◌, ◌++◌, ◌∷◌, [], length, slice_range, IfOk, OnOk, IsTrue};
ghost use Rattle.utf8_fields.specs.Parts.{IsField};
ghost use Rattle.field_downgrade.specs.Message.{IsServedField};
ghost use Rattle.mime_tree.specs.Openings.{AreFieldsWithin, AreFieldsJoined};
ghost use Rattle.mime_tree.specs.Tree.{HasTree, raws_of};
ghost use Rattle.surrogate_rope.specs.Layout.{IsOpenGlobal, InEntity};
ghost use Rattle.surrogate_rope.specs.Ropes.{size_of, range_size};
ghost use Rattle.surrogate_rope.specs.private.Building.{ReachesPlace, written, with_kept, end_at, AddsField, AddsBlock, IsAllMade};

use crate::moving::End;
use crate::pieces::Pieces;
use mail_wire::{Memory, Span};
use mime_tree::{Entity, Shape, Tree, first_value};
use param_2231::find_global;
use std::alloc::Global;

// The room that a surrogate begins with: that of a few fields that are made anew.
const FEW_PIECES: usize = 16;

const FEW_OCTETS: usize = 512;

/// What of a surrogate is made.
#[derive(Drop)]
pub struct Made {
    pub pieces: Pieces,
    /// From where on the octets of the message are kept and not yet a piece.
    pub from: usize,
    /// How many fields were made anew.
    pub rewritten: usize,
}

// One more, where there are more pieces than that.
fn count_one(count: usize, pieces: usize) -> usize
    requires { count < pieces }
    ensures { result ≡ count + 1 }
{
    count + 1
}

// Whether the entity is an opened message/global (RFC 6532, 3.7).
fn is_open_global(alloc: Global, msg: &[u8], entity: &Entity) -> Result<bool, Memory>
    requires { AreFieldsWithin msg.now entity.now.block.fields }
    ensures { IfOk result (λ open_global. IsTrue open_global ↔ IsOpenGlobal msg.now entity.now) }
{
    if !matches!(entity.shape, Shape::Message) {
        return Ok(false);
    }
    let fields = entity.block.fields.as_slice();
    let Some(text) = first_value(alloc, msg, fields, b"Content-Type")? else {
        return Ok(false);
    };
    match find_global(alloc, text.as_slice())? {
        Some(_) => Ok(true),
        None => Ok(false),
    }
}

impl Made {
    // Makes a piece of the octets of the message up to this place that are kept.
    fn put_kept(&mut self, to: usize) -> Result<(), Memory>
        requires { range_size self.old.pieces + (to - self.old.from) < 2 ^ 63 }
        ensures { OnOk result (self.new ≡ record self.old { pieces = with_kept self.old to }) }
    {
        if self.from < to {
            self.pieces.push_range(Span {
                at: self.from,
                len: to - self.from,
            })?;
        }
        Ok(())
    }

    // Rewrites a field. One that is made anew has a piece, so there is always a next number.
    fn push_field(
        &mut self,
        alloc: Global,
        msg: &[u8],
        field: Span,
        open_global: bool,
    ) -> Result<(), Memory>
        requires stands { ReachesPlace msg.now field.at self.old }
        requires fits { field.at + field.len ≤ length msg.now }
        requires field { IsField (slice_range msg.now field.at (field.at + field.len)) }
        ensures stands { OnOk result (ReachesPlace msg.now (field.at + field.len) self.new) }
        ensures adds { OnOk result (AddsField (IsServedField open_global (slice_range msg.now field.at (field.at + field.len)))
            (slice_range msg.now field.at (field.at + field.len)) (written msg.now field.at self.old) (written msg.now (field.at + field.len) self.new)) }
    {
        let end = field.at + field.len;
        let kept = Span {
            at: self.from,
            len: field.at - self.from,
        };
        let raw = &msg[field.at..end];
        if self.pieces.push_served(alloc, raw, open_global, kept)? {
            self.from = end;
            self.rewritten = count_one(self.rewritten, self.pieces.len());
        }
        Ok(())
    }

    // Rewrites each field of an entity's block.
    fn push_block(&mut self, alloc: Global, msg: &[u8], entity: &Entity) -> Result<(), Memory>
        requires within { AreFieldsWithin msg.now entity.now.block.fields }
        requires joined { AreFieldsJoined entity.now.at entity.now.block.fields entity.now.block.end }
        requires stands { ReachesPlace msg.now entity.now.at self.old }
        ensures stands { OnOk result (ReachesPlace msg.now entity.now.block.end self.new) }
        ensures adds { OnOk result (AddsBlock (InEntity IsServedField msg.now entity.now) (raws_of msg.now entity.now.block)
            (written msg.now entity.now.at self.old) (written msg.now entity.now.block.end self.new)) }
    {
        let open_global = is_open_global(alloc, msg, entity)?;
        for field in entity.block.fields.as_slice() {
            self.push_field(alloc, msg, field.raw, open_global)?;
        }
        Ok(())
    }

    // The same, and puts last where the block ends.
    fn push_entity(
        &mut self,
        alloc: Global,
        msg: &[u8],
        entity: &Entity,
        ends: &mut Vec<End>,
    ) -> Result<(), Memory>
        requires within { AreFieldsWithin msg.now entity.now.block.fields }
        requires joined { AreFieldsJoined entity.now.at entity.now.block.fields entity.now.block.end }
        requires stands { ReachesPlace msg.now entity.now.at self.old }
        ensures stands { OnOk result (ReachesPlace msg.now entity.now.block.end self.new) }
        ensures adds { OnOk result (AddsBlock (InEntity IsServedField msg.now entity.now) (raws_of msg.now entity.now.block)
            (written msg.now entity.now.at self.old) (written msg.now entity.now.block.end self.new)) }
        ensures ends { OnOk result (ends.new.items ≡ ends.old.items ++ end_at entity.now.block.end self.new ∷ []) }
    {
        let at = entity.block.end;
        self.push_block(alloc, msg, entity)?;
        let made = self.place(at);
        ends.push(End { at, made })?;
        Ok(())
    }

    // Where this place of the message is in the surrogate.
    fn place(&self, at: usize) -> usize
        requires from { self.now.from ≤ at }
        requires fits { size_of self.now.pieces + (at - self.now.from) < 2 ^ 64 }
        ensures { result ≡ size_of self.now.pieces + (at - self.now.from) }
    {
        self.pieces.size() + (at - self.from)
    }
}

/// Rewrites the blocks of a message, and tells where each ends.
pub fn make_pieces(alloc: Global, msg: &[u8], tree: &Tree) -> Result<(Made, Vec<End>), Memory>
    requires { HasTree msg.now tree.now.entities }
    ensures { IfOk result (λ made. IsAllMade msg.now tree.now.entities made.0 made.1.items) }
{
    let mut made = Made {
        pieces: Pieces::with_room(alloc, FEW_PIECES, FEW_OCTETS)?,
        from: 0,
        rewritten: 0,
    };
    let mut ends = Vec::with_capacity(alloc, tree.entities.len())?;
    for entity in tree.entities.as_slice() {
        made.push_entity(alloc, msg, entity, &mut ends)?;
    }
    made.put_kept(msg.len())?;
    Ok((made, ends))
}
