//! The words of the grammar that stand in tables.

/// The name of a command. `NotHere` stands for each that this server doesn't have.
#[derive(Clone, Copy, Debug, PartialEq, Eq)]
pub enum Name {
    Capability,
    Noop,
    Check,
    Logout,
    Login,
    Enable,
    Select,
    Examine,
    Create,
    List,
    Status,
    Append,
    Fetch,
    Store,
    Uid,
    Expunge,
    Close,
    NotHere,
}

/// The name after UID.
#[derive(Clone, Copy, Debug, PartialEq, Eq)]
pub enum UidName {
    Fetch,
    Store,
    NotHere,
}

/// What an item of FETCH begins with, and the macros.
#[derive(Clone, Copy, Debug, PartialEq, Eq)]
pub enum ItemWord {
    Flags,
    Uid,
    InternalDate,
    Size,
    Rfc822,
    Rfc822Header,
    Rfc822Text,
    Envelope,
    BodyStructure,
    Body,
    BodyPeek,
    All,
    Fast,
    Full,
}

/// The words of a section.
#[derive(Clone, Copy, Debug, PartialEq, Eq)]
pub enum SectionWord {
    Header,
    Fields,
    FieldsNot,
    Text,
    Mime,
}
