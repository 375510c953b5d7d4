//! The commands that add accounts and domains to a store, and the one that gives help: their words, and what they do.
#![tactic(auto)]

mod adding;
mod helping;
mod lines;
mod refusals;
mod statuses;
mod values;
mod word_forms;
pub mod word_laws;

pub use adding::{run_account, run_domain};
pub use helping::{VERSION, run_help};
pub use refusals::{tell, tell_unopened};
pub use statuses::{
    ADDING_REFUSED, BAD_JOURNAL, DONE, KEEPER_FAULT, LEFT_QUEUED, LIMIT_REACHED, MESSAGE_REFUSED,
    WANT_OF_MEMORY, WIRE_FAULT, WORDS_REFUSED, statuses_are_these,
};
pub use word_forms::{AccountWords, is_plain, read_account, read_domain};
