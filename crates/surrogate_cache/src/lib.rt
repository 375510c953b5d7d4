//! What a session is shown of a message: the message itself, or its surrogate (RFC 6857), and the cache of these.
#![tactic(auto)]

mod caching;
mod giving;
mod keeping;
pub mod laws;
mod view;

pub use caching::{Cache, Counts};
pub use giving::give_range;
pub use view::{Enabled, Legacy, View};
