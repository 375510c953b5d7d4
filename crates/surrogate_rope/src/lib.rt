//! The surrogate of a whole message (RFC 6857).
#![tactic(auto)]

mod building;
pub mod laws;
mod moving;
mod pieces;
mod rope;
mod shown;
mod storing;

pub use mime_tree::Outline;
pub use rope::Rope;
pub use shown::Shown;
