//! The versions of a journal.
ghost use Rattle.std.specs.Prelude.{◌≡◌, ◌↔◌, IsTrue};
ghost use Rattle.journal_records.specs.Versions.{IsMarkedAsIn, IsOfVersion, version_after};

use crate::records::Record;

/// The version in which a record of a journal stands.
#[derive(Clone, Copy, Debug, PartialEq, Eq)]
pub enum Version {
    /// Messages have no mark.
    One,
    /// Each message has its mark.
    Two,
}

// Whether messages come with a mark, or without one, in this version.
fn is_marked_as_in(version: Version, mark: Option<u8>) -> bool
    ensures { IsTrue result ↔ IsMarkedAsIn version mark }
{
    match version {
        Version::One => mark.is_none(),
        Version::Two => mark.is_some(),
    }
}

/// Whether the version has records of this kind.
pub fn is_of_version(version: Version, one: &Record) -> bool
    ensures { IsTrue result ↔ IsOfVersion version one.now }
{
    match one {
        Record::Message { mark, .. } => is_marked_as_in(version, *mark),
        Record::Queue { mark, .. } => is_marked_as_in(version, *mark),
        Record::Version => matches!(version, Version::One),
        _ => true,
    }
}

/// The version after a record.
pub fn version_after(version: Version, one: &Record) -> Version
    ensures { result ≡ version_after version one.now }
{
    match one {
        Record::Version => Version::Two,
        _ => version,
    }
}
