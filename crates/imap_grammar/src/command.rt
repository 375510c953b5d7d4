//! The commands of IMAP (RFC 3501, 6; RFC 5161; RFC 6855) and what they are made of.

use mail_wire::{Items, Octets};

/// A set of messages: ranges from one number to another, in the order written. `None` is `*`, and a number alone is the
/// range from itself to itself.
#[derive(Debug, Drop)]
pub struct Set {
    pub ranges: Items<(Option<u32>, Option<u32>)>,
}

/// What STATUS asks of a mailbox.
#[derive(Clone, Copy, Debug, PartialEq, Eq)]
pub enum StatusItem {
    Messages,
    Recent,
    UidNext,
    UidValidity,
    Unseen,
}

/// What STORE does with the flags that it names.
#[derive(Clone, Copy, Debug, PartialEq, Eq)]
pub enum StoreOp {
    Replace,
    Add,
    Remove,
}

/// Which octets of a part a section names.
#[derive(Debug, Drop)]
pub enum SectionPart {
    Whole,
    Header,
    /// The fields of these names, or where it is negated all others.
    Fields { names: Items<Octets>, negated: bool },
    Text,
    Mime,
}

/// What FETCH asks of a message. The macros are expanded.
#[derive(Debug, Drop)]
pub enum FetchItem {
    Flags,
    Uid,
    InternalDate,
    Size,
    Rfc822,
    Rfc822Header,
    Rfc822Text,
    Envelope,
    Body,
    BodyStructure,
    Section {
        peek: bool,
        path: Items<u32>,
        part: SectionPart,
        /// From this octet on, at most so many.
        partial: Option<(u32, u32)>,
    },
}

/// A command. A string stands for its octets as they came; a mailbox name is as the session writes it.
#[derive(Debug, Drop)]
pub enum Command {
    Capability,
    Noop,
    Check,
    Logout,
    Login {
        name: Octets,
        password: Octets,
    },
    Enable {
        words: Items<Octets>,
    },
    Select {
        name: Octets,
    },
    Examine {
        name: Octets,
    },
    Create {
        name: Octets,
    },
    List {
        reference: Octets,
        pattern: Octets,
    },
    Status {
        name: Octets,
        items: Items<StatusItem>,
    },
    /// `flags` has a bit for each: 1 Seen, 2 Answered, 4 Flagged, 8 Deleted, 16 Draft. The date is without its quotes.
    /// `utf8` says that the data came in the form with `UTF8`.
    Append {
        name: Octets,
        flags: u8,
        date: Option<Octets>,
        utf8: bool,
        octets: Octets,
    },
    Fetch {
        uid: bool,
        set: Set,
        items: Items<FetchItem>,
    },
    Store {
        uid: bool,
        set: Set,
        op: StoreOp,
        silent: bool,
        flags: u8,
    },
    Expunge,
    Close,
    /// A command of the standard that this server doesn't have.
    NotHere,
}
