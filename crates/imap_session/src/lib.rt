//! IMAP sessions over a wire (RFC 3501, with ENABLE of RFC 5161), legacy ones and those that enabled UTF-8 (RFC 6855).
#![tactic(auto)]

mod appending;
mod commands;
mod expunging;
mod fetching;
mod folders;
pub mod laws;
mod messages;
mod replies;
mod sections;
mod selected;
mod session;
mod states;
mod storing;
mod views;

pub use session::{ImapMachine, ImapSession, serve_imap};
pub use states::ImapState;
