//! The queue on its way to a next server: what is sent, what is reported, and what is left (RFC 5321, RFC 3461).
#![tactic(auto)]

mod dialling;
mod ends;
pub mod laws;
mod mail_objects;
mod relaying;
mod reporting;
mod running;
mod settling;

pub use dialling::relay_queue;
pub use ends::{LeftCause, RelayEnd};
pub use relaying::relay_over;
