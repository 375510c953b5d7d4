//! The rewriting of header fields to ASCII (RFC 6857).
#![tactic(auto)]

mod field;
mod global_bodies;
mod kind;
pub mod laws;
mod lines;
mod plain;
mod received;
mod segments;
mod squeezing;
mod structured;
mod typed;
mod words;

pub use field::{Rewrite, downgrade_field, push_downgraded};
pub use kind::{Kind, kind_of};
