//! The commands of IMAP4rev1 (RFC 3501, 6 and 9, with RFC 5161 and RFC 6855): `Reader` reads them from octets that come in
//! pieces, exactly to the first octet that no command has. The words that commands are made of are read by `imap_words`,
//! and mailbox names in modified UTF-7 (RFC 3501, 5.1.3), too.
#![tactic(auto)]

mod append;
mod awaited;
mod command;
mod commands;
mod event;
mod fetch;
mod flags;
pub mod laws;
mod reader;
mod tables;
mod words;

pub use command::{Command, FetchItem, SectionPart, Set, StatusItem, StoreOp};
pub use event::{APPEND_MAX, Event};
pub use imap_words::{read_mutf7, write_mutf7};
pub use reader::Reader;
