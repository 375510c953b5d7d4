//! What is known of an entity without its header block.
ghost use Rattle.std.specs.Prelude.{◌≡◌};
ghost use Rattle.mime_tree.specs.Outlines.{Outline as OutlineValue, outline_of, seen_outline};

use crate::entity::{Entity, Shape};

/// What is known of an entity without its header block.
#[derive(Clone, Copy)]
pub struct Outline {
    /// The number of the entity that this one is in.
    pub parent: Option<usize>,
    /// 1 for the whole message.
    pub depth: u32,
    /// Where it begins.
    pub at: usize,
    /// Where its content begins.
    pub body: usize,
    /// Where it ends.
    pub end: usize,
    pub shape: Shape,
}

/// An entity, with its header block or without it.
pub trait Outlined {
    ghost outlined: { Self → OutlineValue };

    /// What is known of it without its header block.
    fn outline(&self) -> Outline
        ensures { seen_outline result ≡ outlined self.now };
}

impl Outlined for Entity {
    ghost outlined = { outline_of };

    fn outline(&self) -> Outline {
        Outline {
            parent: self.parent,
            depth: self.depth,
            at: self.at,
            body: self.body,
            end: self.end,
            shape: self.shape,
        }
    }
}

impl Outlined for Outline {
    ghost outlined = { seen_outline };

    fn outline(&self) -> Outline {
        *self
    }
}
