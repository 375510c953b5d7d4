//! The outside of the mail server, and what every crate shares: small values, lines, folds and messages.
#![tactic(auto)]

mod clock;
mod dates;
mod dialling;
mod edge;
mod faults;
mod framing;
mod in_memory;
mod items;
mod keeping;
pub mod laws;
mod mem_dial;
mod mem_keeper;
mod message;
mod numbers;
mod outside;
mod tables;
mod text;
mod traffic;
mod values;
mod words;

pub use clock::{CLOCK_END, Clock, FixedClock, SystemClock};
pub use dates::{date_text, internal_date, texts_are_one};
pub use dialling::Dial;
pub use edge::{StdWire, WireFailure};
pub use faults::Faults;
pub use framing::{FoundLine, LINE_MAX, find_line, line_end};
pub use in_memory::{Failure, MemWire};
pub use items::Items;
pub use keeping::Keeper;
pub use mem_dial::{MemDial, MemServer};
pub use mem_keeper::MemKeeper;
pub use message::{MESSAGE_MAX, first_faulty, is_ended, is_message};
pub use numbers::{are_digits, read_number};
pub use outside::{Entry, Failed, Fault, Wire};
pub use tables::{TableWord, find_word};
pub use text::{
    LineSpans, find_crlf, is_ascii, is_same_name, is_utf8, is_white, is_white_text, line_len,
    lines, push_unfolded, split_white, unfold,
};
pub use traffic::{PIECE, give_all, take_piece};
pub use values::{Memory, Octets, Span};
pub use words::Words;
