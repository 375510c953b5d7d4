//! Records read, and written again.
ghost use Rattle.std.specs.Prelude.{◌≤◌, length};

use journal_records::{ReadFault, push_record, read_record};
use mail_wire::{Memory, Octets};
use std::alloc::Global;
use std::test::Fail;
use test_mail::{Case, all_hold};

// The text of the record that has these fields, if there is one.
fn written_again(alloc: Global, fields: &[u8]) -> Result<Option<Octets>, Memory>
    requires { length fields.now ≤ 1000 }
{
    let mut text = Octets::new(alloc);
    match read_record(alloc, fields) {
        Ok(one) => push_record(&mut text, &one)?,
        Err(_) => return Ok(None),
    }
    Ok(Some(text))
}

// Whether the record that is read is written with its length, and these fields again.
fn is_record(alloc: Global, fields: &[u8]) -> Result<bool, Memory> {
    if fields.len() > 1000 {
        return Ok(false);
    }
    match written_again(alloc, fields)? {
        Some(text) => {
            let (len, again) = text.as_slice().split_at(text.len().min(4));
            Ok(len == (fields.len() as u32).to_be_bytes().as_slice() && again == fields)
        }
        None => Ok(false),
    }
}

// Fields, of a record or of none.
enum Fields {
    Record(&'static [u8]),
    None(&'static [u8]),
}

impl Case for Fields {
    fn holds(&self, alloc: Global) -> Result<bool, Memory> {
        match self {
            Fields::Record(fields) => is_record(alloc, *fields),
            Fields::None(fields) => match read_record(alloc, *fields) {
                Ok(_) => Ok(false),
                Err(fault) => Ok(fault == ReadFault::NoRecord),
            },
        }
    }
}

const FIELDS: [(&str, &[Fields]); 2] = [
    (
        "a record of each kind is read",
        &[
            Fields::Record(b"\x01\0\0\0\x0fann@example.org\0\0\0\x02pw"),
            Fields::Record(b"\x02\0\0\0\x0bexample.org"),
            Fields::Record(b"\x03\0\0\x01\x02\0\0\0\x01f"),
            Fields::Record(b"\x04\0\0\0\x01\x1f\0\0\0\x1a01-Jan-1970 00:00:00 +0000\0\0\0\x01x"),
            Fields::Record(b"\x05\0\0\0\x01\x03"),
            Fields::Record(b"\x06\0\0\0\x02"),
            Fields::Record(b"\x07\0\0\0\0\0\0\0\x02\0\0\0\x01b\0\0\0\x02cd\0\0\0\x01x"),
            Fields::Record(b"\x08\0\0\0\0\0\0\0\x01"),
            Fields::Record(
                b"\x09\0\0\0\x01\x1f\x03\0\0\0\x1a01-Jan-1970 00:00:00 +0000\0\0\0\x01x",
            ),
            Fields::Record(b"\x0a\0\0\0\0\0\0\0\x02\0\0\0\x01b\0\0\0\x02cd\x02\0\0\0\x01x"),
            Fields::Record(b"\x0b"),
        ],
    ),
    (
        "other fields are no record",
        &[
            Fields::None(b""),
            Fields::None(b"\0"),
            Fields::None(b"\x03"),
            Fields::None(b"\x09"),
            Fields::None(b"\x0b\0"),
            Fields::None(b"\x0c"),
            Fields::None(b"\x09\0\0\0\x01\x1f\0\0\0\x1a01-Jan-1970 00:00:00 +0000\0\0\0\x01x"),
            Fields::None(b"\x0a\0\0\0\0\0\0\0\x01\0\0\0\x01b\0\0\0\x01x"),
            Fields::None(b"\x02\0\0\0\x02A"),
            Fields::None(b"\x02\0\0\0\x01AA"),
            Fields::None(b"\x05\0\0\0\x01"),
            Fields::None(b"\x06\0\0\0\x02\0"),
            Fields::None(b"\x07\0\0\0\0\0\0\0\x02\0\0\0\x01b\0\0\0\x01x"),
            Fields::None(b"\x08\0\0\0\0\0\0\0"),
        ],
    ),
];

#[test]
fn records_are_read(rt: HostRuntime) -> Result<(), Fail> {
    all_hold(rt.alloc(), &FIELDS)
}
