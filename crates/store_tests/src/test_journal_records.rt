//! The rows of journal_records, by its public calls.
mod frames;
mod keys;
mod messages;
mod reading;
mod texts;
mod versions;
mod writing;

pub use writing::address_of;
