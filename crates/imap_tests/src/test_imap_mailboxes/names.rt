//! Names in commands and replies.
use imap_mailboxes::{quote, read_name, shown_name};
use mail_wire::Memory;
use std::alloc::Global;
use std::test::Fail;
use test_mail::{Case, all_hold};

// A name and its text. They are shown and read by whether the session has enabled UTF-8, and a text that is read may name nothing.
enum Name {
    Quoted(&'static [u8], &'static [u8]),
    Shown(bool, &'static str, &'static [u8]),
    Read(bool, &'static [u8], Option<&'static str>),
}

impl Case for Name {
    fn holds(&self, alloc: Global) -> Result<bool, Memory> {
        match self {
            Name::Quoted(name, text) => Ok(quote(alloc, *name)?.as_slice() == *text),
            Name::Shown(enabled, name, text) => {
                Ok(shown_name(alloc, *enabled, *name)?.as_slice() == *text)
            }
            Name::Read(enabled, text, name) => is_read(alloc, *enabled, *text, *name),
        }
    }
}

fn is_read(alloc: Global, enabled: bool, text: &[u8], name: Option<&str>) -> Result<bool, Memory> {
    match (read_name(alloc, enabled, text)?, name) {
        (Some(read), Some(name)) => Ok(read.as_str() == name),
        (None, None) => Ok(true),
        _ => Ok(false),
    }
}

const NAMES: [(&str, &[Name]); 14] = [
    ("an empty name is quoted", &[Name::Quoted(b"", b"\"\"")]),
    ("any name is", &[Name::Quoted(b"INBOX", b"\"INBOX\"")]),
    ("white, too", &[Name::Quoted(b"a b", b"\"a b\"")]),
    (
        "quotes and backslashes are escaped",
        &[Name::Quoted(b"\\\"", b"\"\\\\\\\"\"")],
    ),
    (
        "names are shown in modified UTF-7",
        &[Name::Shown(false, "Entw\u{fc}rfe & mehr", b"Entw&APw-rfe &- mehr")],
    ),
    (
        "or in UTF-8 where it is enabled",
        &[Name::Shown(true, "Entw\u{fc}rfe & mehr", b"Entw\xc3\xbcrfe & mehr")],
    ),
    (
        "INBOX is shown alike",
        &[Name::Shown(false, "INBOX", b"INBOX")],
    ),
    ("in either session", &[Name::Shown(true, "INBOX", b"INBOX")]),
    (
        "names are read in modified UTF-7",
        &[Name::Read(false, b"Entw&APw-rfe &- mehr", Some("Entw\u{fc}rfe & mehr"))],
    ),
    (
        "or in UTF-8 where it is enabled",
        &[Name::Read(
            true,
            b"Entw\xc3\xbcrfe & mehr",
            Some("Entw\u{fc}rfe & mehr"),
        )],
    ),
    (
        "where an ampersand is itself",
        &[Name::Read(true, b"Entw&APw-rfe", Some("Entw&APw-rfe"))],
    ),
    ("a name may be empty", &[Name::Read(false, b"", Some(""))]),
    (
        "another text names nothing",
        &[
            Name::Read(false, b"&", None),
            Name::Read(false, b"&AGE-", None),
            Name::Read(false, b"&APw-&APw-", None),
            Name::Read(false, b"Entw\xc3\xbcrfe", None),
            Name::Read(false, b"&APx-", None),
        ],
    ),
    (
        "what isn't UTF-8 names nothing",
        &[
            Name::Read(true, b"\xff", None),
            Name::Read(true, b"a\xc3", None),
            Name::Read(true, b"\xed\xa0\x80", None),
        ],
    ),
];

#[test]
fn names_are_quoted_shown_and_read(rt: HostRuntime) -> Result<(), Fail> {
    all_hold(rt.alloc(), &NAMES)
}
