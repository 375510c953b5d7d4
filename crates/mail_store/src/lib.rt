//! The store of a mail system over a keeper: accounts, domains, folders, messages and a queue, as the fold of a journal's records.
#![tactic(auto)]

mod appending;
mod catching;
mod changing;
mod folders;
mod frames;
pub mod laws;
mod names;
mod opening;
mod queue;
mod storing;
mod writing;

pub use appending::Attributes;
pub use changing::StoreFault;
pub use opening::OpenFault;
pub use queue::{Queued, Unsettled};
pub use storing::Store;
