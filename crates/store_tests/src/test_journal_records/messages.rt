//! The octets that may be kept as a message.
use journal_records::{StoredOctets, is_stored, mark_of};
use mail_wire::{Memory, Octets};
use std::alloc::Global;
use std::test::Fail;
use test_mail::{Case, all_hold};

// Octets, and whether they may be kept as a message.
struct Message(&'static [u8], bool);

impl Case for Message {
    fn holds(&self, alloc: Global) -> Result<bool, Memory> {
        Ok(is_stored(alloc, self.0)? == self.1)
    }
}

const MESSAGES: [(&str, &[Message]); 2] = [
    (
        "octets with a tree are a message",
        &[
            Message(
                b"Content-Type: multipart/mixed; boundary=a\r\n\r\n--a\r\nContent-Type: multipart/mixed; boundary=b\r\n\r\n--b\r\nSubject: \xc3\xa9\r\n\r\nx\r\n--b--\r\n--a--\r\n",
                true,
            ),
            Message(b"Content-Type: text/plain\r\n\r\nx", true),
            Message(b"content-type :", true),
            Message(b"", true),
        ],
    ),
    (
        "octets without a tree are none",
        &[
            Message(b"A: b\r\n\r\nx\n", false),
            Message(b"A: b\r\n\r\n\0", false),
            Message(b"A: b\r", false),
            Message(b"x\r\n", false),
            Message(b"A: \xff\r\n", false),
            Message(b"Content-Type: message/rfc822\r\n\r\nx\r\n", false),
            Message(
                b"Content-Type: multipart/mixed; boundary=a\r\n\r\n--a\r\nx\r\n--a--\r\n",
                false,
            ),
        ],
    ),
];

#[test]
fn octets_with_a_tree_are_a_message(rt: HostRuntime) -> Result<(), Fail> {
    all_hold(rt.alloc(), &MESSAGES)
}

const NESTED: &[u8] =
    b"Content-Type: multipart/mixed; boundary=a\r\n\r\n--a\r\nSubject: \xc3\xa9\r\n\r\nx\r\n--a--\r\n";

// Octets, and the mark that is found.
struct Marked(&'static [u8], Option<u8>);

impl Case for Marked {
    fn holds(&self, alloc: Global) -> Result<bool, Memory> {
        Ok(mark_of(alloc, self.0)? == self.1)
    }
}

const MARKED: [(&str, &[Marked]); 2] = [
    (
        "a mark tells of header blocks and of all octets",
        &[
            Marked(b"", Some(0)),
            Marked(b"Subject: e\r\n\r\ne\r\n", Some(0)),
            Marked(b"Subject: e\r\n\r\n\xc3\xa9\r\n", Some(2)),
            Marked(b"Subject: \xc3\xa9\r\n\r\ne\r\n", Some(3)),
            Marked(NESTED, Some(3)),
            Marked(
                b"Content-Type: message/rfc822\r\n\r\nSubject: \xc3\xa9\r\n\r\nx\r\n",
                Some(3),
            ),
            Marked(
                b"Content-Type: text/plain\r\n\r\nSubject: \xc3\xa9\r\n\r\nx\r\n",
                Some(2),
            ),
        ],
    ),
    (
        "octets without a tree have no mark",
        &[Marked(b"A: \xff\r\n", None), Marked(b"x\r\n", None)],
    ),
];

#[test]
fn marks_are_told(rt: HostRuntime) -> Result<(), Fail> {
    all_hold(rt.alloc(), &MARKED)
}

// Octets, the mark that comes with them, and their own where they are taken.
struct Stored(&'static [u8], Option<u8>, Option<u8>);

impl Case for Stored {
    fn holds(&self, alloc: Global) -> Result<bool, Memory> {
        let octets = Octets::from_slice(alloc, self.0)?;
        match StoredOctets::read(alloc, octets, self.1)? {
            Some(stored) => {
                Ok(
                    Some(stored.mark()) == self.2
                        && stored.len() == self.0.len()
                        && stored.into_octets().as_slice() == self.0,
                )
            }
            None => Ok(self.2.is_none()),
        }
    }
}

const STORED: [(&str, &[Stored]); 2] = [
    (
        "octets are taken with their mark, or with none",
        &[
            Stored(NESTED, None, Some(3)),
            Stored(NESTED, Some(3), Some(3)),
            Stored(b"A: b\r\n", None, Some(0)),
            Stored(b"A: b\r\n", Some(0), Some(0)),
        ],
    ),
    (
        "octets are not taken with another mark, or without a tree",
        &[
            Stored(NESTED, Some(2), None),
            Stored(NESTED, Some(0), None),
            Stored(NESTED, Some(7), None),
            Stored(b"A: b\r\n", Some(1), None),
            Stored(b"x\r\n", None, None),
            Stored(b"x\r\n", Some(0), None),
        ],
    ),
];

#[test]
fn octets_come_with_their_mark(rt: HostRuntime) -> Result<(), Fail> {
    all_hold(rt.alloc(), &STORED)
}
