//! The words of IMAP4rev1 (RFC 3501, 9, with RFC 6855): octets, runs, numbers, keywords, strings, sets of messages and
//! dates, each read exactly to the first octet that no such word has, and mailbox names in modified UTF-7 (RFC 3501, 5.1.3).
//!
//! A reader takes a text and gives what it read and the octets that follow, or a `Stop`. What a reader of a language
//! promises is `Reads` and `Stops` of `specs/Reading.antt`; `specs/` has a language for each production.
#![tactic(auto)]

mod dates;
mod keywords;
pub mod laws;
mod sets;
mod stop;
mod strings;
mod tokens;
mod utf7;

pub use dates::date_time;
pub use keywords::read_word;
pub use sets::set_and_space;
pub use stop::Stop;
pub use strings::{Head, header, header8, name_head, string_head};
pub use tokens::{Kind, line_end, line_feed, non_zero, number, octet, passes, run};
pub use utf7::{read_mutf7, write_mutf7};
