//! What was read of a command up to a literal's octets.

use crate::command::{Command, FetchItem, Set};
use mail_wire::{Items, Octets};

/// A command with one mailbox.
#[derive(Clone, Copy)]
pub enum Naming {
    Select,
    Examine,
    Create,
}

/// A FETCH with the items so far. They stand in parentheses or there is one.
#[derive(Drop)]
pub struct Fetching {
    pub uid: bool,
    pub set: Set,
    pub items: Items<FetchItem>,
    pub listed: bool,
}

/// A section with the names of fields so far.
#[derive(Drop)]
pub struct FieldNames {
    pub fetching: Fetching,
    pub peek: bool,
    pub path: Items<u32>,
    pub negated: bool,
    pub names: Items<Octets>,
}

/// Which string the literal is.
#[derive(Drop)]
pub enum Awaited {
    LoginName,
    LoginPassword {
        name: Octets,
    },
    Mailbox(Naming),
    ListReference,
    ListPattern {
        reference: Octets,
    },
    StatusName,
    AppendName,
    AppendData {
        name: Octets,
        flags: u8,
        date: Option<Octets>,
        utf8: bool,
    },
    FieldName(FieldNames),
}

/// What was read: the command, or all up to a literal of this size.
#[derive(Drop)]
pub enum Next {
    Whole(Command),
    Awaits(u32, Awaited),
}
