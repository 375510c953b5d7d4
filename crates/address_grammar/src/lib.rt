//! The grammar of addresses and lists of them (RFC 5322, 3.4; RFC 6532, 3.2).
#![tactic(auto)]

mod addresses;
mod lexemes;
mod lists;
mod mailboxes;
mod paths;
mod phrases;
mod places;

use encoded_words::Unit;
use field_tokens::Comment;
pub use lexemes::{
    are_blank, front_before, is_blank, is_mark, mail_marks, push_content, split_at_mark,
};
pub use lists::{read_element, read_list, split_name};
use mail_wire::{Items, Octets};
pub use mailboxes::{find_mailbox, read_mailbox};
pub use paths::{push_address, push_quoted_string, read_path, write_address};
pub use phrases::{PhraseReader, is_phrase, read_phrase};
pub use places::split_place;

/// What a phrase says.
pub type Units = Items<Unit>;

/// The members of a group.
pub type Mailboxes = Items<Mailbox>;

/// The elements of a list.
pub type Elements = Items<Element>;

/// An address: its local part without quoting, and its domain as it stands, each without gaps and comments.
#[derive(Debug, Drop)]
pub struct Address {
    pub local: Octets,
    pub domain: Octets,
}

/// An address, in angle brackets or not, and what the phrase before it says. There may be a phrase without any units.
#[derive(Drop)]
pub struct Mailbox {
    pub phrase: bool,
    pub display: Units,
    pub angle: bool,
    pub address: Address,
}

/// A mailbox without what its phrase says.
#[derive(Drop)]
pub struct FoundMailbox {
    pub phrase: bool,
    pub angle: bool,
    pub address: Address,
}

#[derive(Drop)]
pub enum Element {
    Mailbox(Mailbox),
    Group { name: Units, members: Mailboxes },
}

/// The elements of a list, and all its comments in the order of their octets. The runs of comments are places in the text.
#[derive(Drop)]
pub struct AddressList {
    pub elements: Elements,
    pub comments: Vec<Comment>,
}

/// Why a text was not read.
#[derive(Clone, Copy, Debug, PartialEq, Eq)]
pub enum AddressFault {
    Malformed,
    Memory,
}
