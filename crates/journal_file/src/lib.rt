//! The journal's file as a keeper.
#![tactic(auto)]

mod cutting;
mod file_keeper;
mod owned_file;

pub use cutting::JournalFailure;
pub use file_keeper::FileKeeper;
