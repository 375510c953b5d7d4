//! Records written.
ghost use Rattle.journal_records.specs.Addresses.{IsSendable};
ghost use Rattle.std.specs.Prelude.{IfSome};

use address_grammar::{Address, write_address};
use journal_records::{
    Record, TEXT_MAX, Texts, account_text, domain_text, expunge_text, message_front, queue_front,
    read_text, record_text,
};
use mail_wire::{Memory, Octets};
use std::alloc::Global;
use std::test::Fail;
use test_mail::{Case, all_hold};

/// The address of a text, which a path may have.
pub fn address_of(alloc: Global, text: &[u8]) -> Option<Address>
    ensures { IfSome result IsSendable }
{
    let Ok(Some(address)) = read_text(alloc, text) else {
        return None;
    };
    match write_address(alloc, &address) {
        Ok(written) if written.len() <= TEXT_MAX => Some(address),
        _ => None,
    }
}

// What is written.
enum Written {
    Folder,
    Flags,
    Settle,
    // two messages that are expunged
    Expunged,
    // a message from the null path that waits for `b` and `cd`, and its mark
    Queue(Option<u8>),
    Version,
    Domain,
    // a message but for its octets
    MessageFront,
    // a message that waits, but for its octets
    QueueFront,
    Account,
}

fn queue_text(alloc: Global, mark: Option<u8>) -> Result<Octets, Memory> {
    let mut addresses = Vec::new(alloc);
    addresses.push(Octets::from_slice(alloc, b"b")?)?;
    addresses.push(Octets::from_slice(alloc, b"cd")?)?;
    let queue = Record::Queue {
        path: Octets::new(alloc),
        addresses: Texts::from_vec(addresses),
        mark,
        octets: Octets::from_slice(alloc, b"x")?,
    };
    Ok(record_text(alloc, &queue)?)
}

fn folder_text(alloc: Global) -> Result<Octets, Memory> {
    let folder = Record::Folder {
        account: 258,
        name: Octets::from_slice(alloc, b"f")?,
    };
    let text = record_text(alloc, &folder)?;
    Ok(text)
}

const FLAGS: Record = Record::Flags {
    message: 1,
    flags: 3,
};

const SETTLE: Record = Record::Settle { entry: 0, index: 1 };

fn written_account(alloc: Global) -> Result<Octets, Memory> {
    match address_of(alloc, b"ann@example.org") {
        Some(address) => account_text(alloc, &address, b"pw"),
        None => Err(Memory),
    }
}

fn text_of(alloc: Global, what: &Written) -> Result<Octets, Memory> {
    match what {
        Written::Folder => folder_text(alloc),
        Written::Flags => record_text(alloc, &FLAGS),
        Written::Settle => record_text(alloc, &SETTLE),
        Written::Expunged => expunge_text(alloc, &[2, 258]),
        Written::Queue(mark) => queue_text(alloc, *mark),
        Written::Version => record_text(alloc, &Record::Version),
        Written::Domain => domain_text(alloc, b"example.org"),
        Written::MessageFront => {
            message_front(alloc, 1, 9, 2, b"01-Jan-1970 00:00:00 +0000", b"x")
        }
        Written::QueueFront => queue_front(alloc, b"p", &[], 3, b"xy"),
        Written::Account => written_account(alloc),
    }
}

// What is written, and its text.
struct Row(Written, &'static [u8]);

impl Case for Row {
    fn holds(&self, alloc: Global) -> Result<bool, Memory> {
        Ok(text_of(alloc, &self.0)?.as_slice() == self.1)
    }
}

const ROWS: [(&str, &[Row]); 10] = [
    (
        "a folder is written",
        &[Row(Written::Folder, b"\0\0\0\x0a\x03\0\0\x01\x02\0\0\0\x01f")],
    ),
    (
        "flags are written",
        &[Row(Written::Flags, b"\0\0\0\x06\x05\0\0\0\x01\x03")],
    ),
    (
        "a settled recipient is written",
        &[Row(Written::Settle, b"\0\0\0\x09\x08\0\0\0\0\0\0\0\x01")],
    ),
    (
        "expunged messages are written",
        &[Row(
            Written::Expunged,
            b"\0\0\0\x05\x06\0\0\0\x02\0\0\0\x05\x06\0\0\x01\x02",
        )],
    ),
    (
        "a waiting message is written",
        &[
            Row(
                Written::Queue(None),
                b"\0\0\0\x19\x07\0\0\0\0\0\0\0\x02\0\0\0\x01b\0\0\0\x02cd\0\0\0\x01x",
            ),
            Row(
                Written::Queue(Some(1)),
                b"\0\0\0\x1a\x0a\0\0\0\0\0\0\0\x02\0\0\0\x01b\0\0\0\x02cd\x01\0\0\0\x01x",
            ),
        ],
    ),
    (
        "the beginning of version 2 is written",
        &[Row(Written::Version, b"\0\0\0\x01\x0b")],
    ),
    (
        "a domain is written",
        &[Row(Written::Domain, b"\0\0\0\x10\x02\0\0\0\x0bexample.org")],
    ),
    (
        "a message is written but for its octets",
        &[Row(
            Written::MessageFront,
            b"\0\0\0*\x09\0\0\0\x01\x09\x02\0\0\0\x1a01-Jan-1970 00:00:00 +0000\0\0\0\x01",
        )],
    ),
    (
        "a waiting message is written but for its octets",
        &[Row(
            Written::QueueFront,
            b"\0\0\0\x11\x0a\0\0\0\x01p\0\0\0\0\x03\0\0\0\x02",
        )],
    ),
    (
        "an account is written",
        &[Row(
            Written::Account,
            b"\0\0\0\x1a\x01\0\0\0\x0fann@example.org\0\0\0\x02pw",
        )],
    ),
];

#[test]
fn records_are_written(rt: HostRuntime) -> Result<(), Fail> {
    all_hold(rt.alloc(), &ROWS)
}
