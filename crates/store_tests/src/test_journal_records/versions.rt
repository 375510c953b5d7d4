//! The records of each version.
use journal_records::{Record, Version, is_of_version, read_record, version_after};
use mail_wire::Memory;
use std::alloc::Global;
use std::test::Fail;
use test_mail::{Case, all_hold};

// The fields of a record, whether version 1 and version 2 have it, and the version after it in version 1.
struct Of(&'static [u8], bool, bool, Version);

fn is_of(one: &Record, own: &Of) -> bool {
    is_of_version(Version::One, one) == own.1
        && is_of_version(Version::Two, one) == own.2
        && version_after(Version::One, one) == own.3
        && version_after(Version::Two, one) == Version::Two
}

impl Case for Of {
    fn holds(&self, alloc: Global) -> Result<bool, Memory> {
        match read_record(alloc, self.0) {
            Ok(one) => Ok(is_of(&one, self)),
            Err(_) => Ok(false),
        }
    }
}

const RECORDS: [(&str, &[Of]); 3] = [
    (
        "messages without a mark stand in version 1 alone",
        &[
            Of(
                b"\x04\0\0\0\0\0\0\0\0\x1a01-Jan-1970 00:00:00 +0000\0\0\0\0",
                true,
                false,
                Version::One,
            ),
            Of(b"\x07\0\0\0\0\0\0\0\0\0\0\0\0", true, false, Version::One),
        ],
    ),
    (
        "messages with a mark stand in version 2 alone",
        &[
            Of(
                b"\x09\0\0\0\0\0\0\0\0\0\x1a01-Jan-1970 00:00:00 +0000\0\0\0\0",
                false,
                true,
                Version::One,
            ),
            Of(b"\x0a\0\0\0\0\0\0\0\0\0\0\0\0\0", false, true, Version::One),
        ],
    ),
    (
        "version 2 begins once, and other records stand in both",
        &[
            Of(b"\x0b", true, false, Version::Two),
            Of(b"\x02\0\0\0\x0bexample.org", true, true, Version::One),
            Of(b"\x06\0\0\0\x02", true, true, Version::One),
        ],
    ),
];

#[test]
fn records_are_of_a_version(rt: HostRuntime) -> Result<(), Fail> {
    all_hold(rt.alloc(), &RECORDS)
}
