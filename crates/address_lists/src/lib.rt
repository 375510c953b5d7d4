//! Addresses and lists of them in ASCII (RFC 6857, 3.1 and 3.2).
#![tactic(auto)]

mod ascii_texts;
mod emptied;
pub mod laws;
mod members;
mod phrase_lists;
mod rewriting;
mod served_paths;
mod serving;
mod writing;
mod written_groups;
mod written_mailboxes;

pub use phrase_lists::rewrite_phrases;
pub use rewriting::rewrite_list;
pub use served_paths::rewrite_path;
pub use serving::served;
pub use writing::write_phrase;
