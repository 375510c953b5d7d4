//! The records of a journal.
use mail_wire::{Items, Octets};

/// A list of texts.
pub type Texts = Items<Octets>;

/// A change of the store, as the journal keeps it. Things are named by their numbers in order of their records.
#[derive(Debug, Drop)]
pub enum Record {
    /// An account, with its folder INBOX.
    Account {
        address: Octets,
        password: Octets,
    },
    /// A local domain.
    Domain {
        name: Octets,
    },
    Folder {
        account: u32,
        name: Octets,
    },
    /// A message, with the mark of its octets where the record has one.
    Message {
        folder: u32,
        flags: u8,
        mark: Option<u8>,
        date: Octets,
        octets: Octets,
    },
    /// A message's flags are these from now on.
    Flags {
        message: u32,
        flags: u8,
    },
    /// A message goes.
    Expunge {
        message: u32,
    },
    /// A message waits for these recipients. An empty path is the null path. The mark, where the record has one, is that of the octets.
    Queue {
        path: Octets,
        addresses: Texts,
        mark: Option<u8>,
        octets: Octets,
    },
    /// A recipient of the queue is done with.
    Settle {
        entry: u32,
        index: u32,
    },
    /// The journal has version 2 from now on.
    Version,
}
