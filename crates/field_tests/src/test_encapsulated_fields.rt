//! Fields that keep a value, and the forms of addresses.
use crate::lines::is_made;
use encapsulated_fields::{encapsulate, read_xtext, unitext_of, xtext_of};
use mail_wire::Memory;
use std::alloc::Global;
use std::test::Fail;
use test_mail::{Case, all_hold};

// A text, and what is made of it.
enum Row {
    // the value of a Message-ID, which isn't empty, and the field that keeps it
    Kept(&'static str, &'static str),
    // an address in ASCII
    Xtext(&'static str, &'static str),
    // one in UTF-8
    Unitext(&'static str, &'static str),
    // the address that a text says
    Read(&'static str, &'static str),
    // a text that says none
    Refused(&'static [u8]),
}

impl Case for Row {
    fn holds(&self, alloc: Global) -> Result<bool, Memory> {
        match self {
            Row::Kept(value, field) => is_kept(alloc, *value, *field),
            Row::Xtext(address, text) => is_made(xtext_of(alloc, address.as_bytes()), *text),
            Row::Unitext(address, text) => is_made(unitext_of(alloc, address.as_bytes()), *text),
            Row::Read(text, address) => is_read(alloc, text.as_bytes(), address.as_bytes()),
            Row::Refused(text) => is_refused(alloc, *text),
        }
    }
}

fn is_refused(alloc: Global, text: &[u8]) -> Result<bool, Memory> {
    Ok(read_xtext(alloc, text)?.is_none())
}

fn is_kept(alloc: Global, value: &str, field: &str) -> Result<bool, Memory> {
    if value.is_empty() {
        return Ok(false);
    }
    is_made(encapsulate(alloc, b"Message-ID", value.as_bytes()), field)
}

fn is_read(alloc: Global, text: &[u8], address: &[u8]) -> Result<bool, Memory> {
    match read_xtext(alloc, text)? {
        Some(octets) => Ok(octets.as_slice() == address),
        None => Ok(false),
    }
}

const ROWS: [(&str, &[Row]); 5] = [
    (
        "a message identifier is kept",
        &[Row::Kept(
            "<é@x>",
            "Downgraded-Message-ID:\r\n =?UTF-8?B?PMOpQHg+?=\r\n",
        )],
    ),
    (
        "characters are escaped by their number",
        &[
            Row::Xtext("josé@example.com", "jos\\x{E9}@example.com"),
            Row::Xtext(
                "a+ あ😀\u{10FFFF}",
                "a\\x{2B}\\x{20}\\x{3042}\\x{1F600}\\x{10FFFF}",
            ),
        ],
    ),
    (
        "characters above 127 stay in the UTF-8 form",
        &[
            Row::Unitext("josé@example.com", "josé@example.com"),
            Row::Unitext("é=\\\u{7F}", "é\\x{3D}\\x{5C}\\x{7F}"),
        ],
    ),
    (
        "both forms are read",
        &[
            Row::Read("jos\\x{E9}@example.com", "josé@example.com"),
            Row::Read("josé@example.com", "josé@example.com"),
            Row::Read("\\x{e9}\\x{0000E9}+ \\x{10FFFF}", "éé+ \u{10FFFF}"),
        ],
    ),
    (
        "other backslashes are refused",
        &[
            Row::Refused(b"\\x{9}"),
            Row::Refused(b"\\x{00000E9}"),
            Row::Refused(b"\\x{D800}"),
            Row::Refused(b"\\x{110000}"),
            Row::Refused(b"\\"),
            Row::Refused(b"\\x{E9"),
            Row::Refused(b"\\x41"),
            Row::Refused(b"\xC3"),
        ],
    ),
];

#[test]
fn values_and_addresses_are_kept_in_their_forms(rt: HostRuntime) -> Result<(), Fail> {
    all_hold(rt.alloc(), &ROWS)
}
