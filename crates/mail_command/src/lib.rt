//! The commands: what the words of the command line do over a wire, a keeper and a dial.
#![tactic(auto)]

mod command;
mod connections;
mod figures;
mod generating;
pub mod laws;
mod lines;
mod passwords;
mod relaying;
mod roles;
mod serving_words;
mod sessions;
mod standalone;
mod taking;
mod tasks;

pub use command::{run, status_after};
pub use connections::{has_domain, serve_next};
pub use mail_store::OpenFault;
pub use roles::{Role, serve_one};
pub use serving_words::serve_words;
pub use session_core::{Desk, LIMITS, Limits, Outside, Served, next_desk, open_desk};
pub use sessions::run_session;
pub use setup_command::{
    DONE, KEEPER_FAULT, LEFT_QUEUED, WANT_OF_MEMORY, WIRE_FAULT, WORDS_REFUSED, tell_unopened,
};
pub use tasks::{Task, give_outcome};
