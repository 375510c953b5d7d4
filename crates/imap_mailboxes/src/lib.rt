//! What the commands and replies of IMAP4rev1 (RFC 3501) mean of mailboxes: their names and the patterns of LIST, which
//! messages a set names, and flags.
#![tactic(auto)]

mod flags;
pub mod laws;
mod names;
mod patterns;
mod sets;

pub use flags::{ANSWERED, DELETED, DRAFT, FLAGGED, SEEN, has_flag, push_flags, stored_flags};
pub use names::{quote, read_name, shown_name};
pub use patterns::Pattern;
pub use sets::places;
