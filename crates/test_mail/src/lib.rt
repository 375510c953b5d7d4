//! What tests of mail share: wires, keepers and dials in memory, journals spelled out, streams in pieces, and tables of cases.
#![tactic(auto)]

mod cases;
mod fakes;
mod journals;
mod streams;

pub use cases::{Case, all_hold};
pub use fakes::{NEVER, dial_of, failing, given, keeper_of, keeper_of_parts, wire_of, words_of};
pub use journals::{
    ACCOUNT, BEGUN, CAFE, CAFE_RECORD, FIRST_OCTETS, JOURNAL, journal_of, push_message,
};
pub use streams::{joined, octet_by_octet};
