//! The tree of a message's entities (RFC 2045, RFC 2046).
#![tactic(auto)]

mod completing;
mod entity;
mod high_blocks;
pub mod laws;
mod marks;
mod message;
mod openings;
mod outlines;
mod reading;
mod sections;

pub use completing::complete;
pub use entity::{Entities, Entity, Shape, Tree, TreeFault};
pub use high_blocks::has_high_block;
pub use openings::{first_value, only_word};
pub use outlines::{Outline, Outlined};
pub use reading::{read_sound_tree, read_tree};
pub use sections::{Part, section};
