//! What is shown of a message: the message itself, or its surrogate.
ghost use Rattle.std.specs.Prelude.{◌≡◌, ◌+◌, ◌-◌, ◌^◌, ◌<◌, ◌++◌, length, map, take, drop, min, IfOk};
ghost use Rattle.mime_tree.specs.Sections.{section};
ghost use Rattle.mime_tree.specs.Outlines.{outlines_of, seen_outline};
ghost use Rattle.surrogate_rope.specs.Served.{IsShownOf, shown_octets, shown_outlines};

use crate::pieces::{copy_from, rest_of};
use crate::rope::Rope;
use mail_wire::{Memory, Span};
use mime_tree::{Entity, Outline, Outlined, Part, Tree};
use std::alloc::Global;

/// The outlines of entities, in their order.
fn outlines_of(alloc: Global, entities: &[Entity]) -> Result<Vec<Outline>, Memory>
    ensures { IfOk result (λ made. map seen_outline made.items ≡ outlines_of entities.now) }
{
    let mut made = Vec::new(alloc);
    for entity in entities {
        made.push(entity.outline())?;
    }
    Ok(made)
}

/// The message itself, with its tree, or its surrogate.
#[derive(Drop)]
pub enum Shown {
    Whole(Tree),
    Rope(Rope),
}

impl Shown {
    /// How many octets are shown.
    pub fn size(&self, msg: &[u8]) -> usize
        requires { IsShownOf msg.now self.now }
        ensures { result ≡ length (shown_octets msg.now self.now) }
    {
        match self {
            Shown::Whole(_) => msg.len(),
            Shown::Rope(rope) => rope.size(),
        }
    }

    /// The octets of what is shown that stand together from `offset` on, in the message or among the new octets: none only after its end.
    pub fn run_at<'a>(&'a self, msg: &'a [u8], offset: usize) -> &'a [u8]
        requires { IsShownOf msg.now self.now }
        ensures run { result.now ≡ take (length result.now) (drop offset (shown_octets msg.now self.now)) }
        ensures some { offset < length (shown_octets msg.now self.now) → 0 < length result.now }
        ensures few { offset + length result.now < 2 ^ 64 }
    {
        match self {
            Shown::Whole(_) => rest_of(msg, offset),
            Shown::Rope(rope) => rope.run_at(msg, offset),
        }
    }

    /// Copies what is shown from `offset` on, as much as the buffer holds, and answers how many octets these are.
    pub fn read_at(&self, msg: &[u8], offset: usize, into: &mut [u8]) -> usize
        requires { IsShownOf msg.now self.now }
        ensures count { result ≡ min (length into.old) (length (shown_octets msg.now self.now) - offset) }
        ensures octets { into.new ≡ take result (drop offset (shown_octets msg.now self.now)) ++ drop result into.old }
    {
        match self {
            Shown::Whole(_) => copy_from(msg, offset, into),
            Shown::Rope(rope) => rope.read_at(msg, offset, into),
        }
    }

    /// A section of what is shown (RFC 3501, 6.4.5).
    pub fn section(&self, path: &[u32], part: Part) -> Option<Span>
        ensures { result ≡ section (shown_outlines self.now) path.now part }
    {
        match self {
            Shown::Whole(tree) => tree.section(path, part),
            Shown::Rope(rope) => rope.section(path, part),
        }
    }

    /// What is known of the entities of what is shown, in the order of their places.
    pub fn outlines(&self, alloc: Global) -> Result<Vec<Outline>, Memory>
        ensures { IfOk result (λ made. map seen_outline made.items ≡ shown_outlines self.now) }
    {
        match self {
            Shown::Whole(tree) => outlines_of(alloc, tree.entities.as_slice()),
            Shown::Rope(rope) => rope.outlines(alloc),
        }
    }
}
