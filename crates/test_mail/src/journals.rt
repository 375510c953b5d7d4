//! Journals, spelled without the crates that are tested.
use mail_wire::{Memory, Octets};
use std::alloc::Global;

/// What each journal begins with.
pub const FIRST_OCTETS: &[u8] = b"MAILJNL2";

/// A journal of the domain `example.org` and the account `ann@example.org`, whose password is `pw`.
pub const BEGUN: &[u8] =
    b"MAILJNL2\0\0\0\x10\x02\0\0\0\x0bexample.org\0\0\0\x1a\x01\0\0\0\x0fann@example.org\0\0\0\x02pw";

/// Its account.
pub const ACCOUNT: &str = "ann@example.org";

/// A message of 25 octets, whose surrogate has 44.
pub const CAFE: &[u8] = b"Subject: caf\xc3\xa9 bar\r\n\r\nx\r\n";

/// The record by which it comes into the first folder.
pub const CAFE_RECORD: &[u8] =
    b"\0\0\0\x42\x09\0\0\0\0\0\x03\0\0\0\x1a01-Jan-1970 00:00:00 +0000\0\0\0\x19Subject: caf\xc3\xa9 bar\r\n\r\nx\r\n";

/// The journal of the account and the message.
pub const JOURNAL: &[u8] = b"MAILJNL2\
\0\0\0\x10\x02\0\0\0\x0bexample.org\
\0\0\0\x1a\x01\0\0\0\x0fann@example.org\0\0\0\x02pw\
\0\0\0\x42\x09\0\0\0\0\0\x03\0\0\0\x1a01-Jan-1970 00:00:00 +0000\0\0\0\x19Subject: caf\xc3\xa9 bar\r\n\r\nx\r\n";

const DATE: &[u8] = b"01-Jan-1970 00:00:00 +0000";

// Puts a number of four octets last. No journal of a test is so large that there is none.
fn push_number(octets: &mut Octets, number: usize) -> Result<(), Memory> {
    let Ok(number) = u32::try_from(number) else {
        return Err(Memory);
    };
    octets.push_slice(&number.to_be_bytes())
}

// Puts a text last, after its length.
fn push_text(octets: &mut Octets, text: &[u8]) -> Result<(), Memory> {
    push_number(octets, text.len())?;
    octets.push_slice(text)
}

fn is_high(octets: &[u8]) -> bool {
    octets.iter().any(|octet| *octet > 127)
}

// The octets of a message before its first empty line.
fn header_of(message: &[u8]) -> &[u8] {
    for at in 0..message.len() {
        if message[at..].starts_with(b"\r\n\r\n") {
            return &message[..at];
        }
    }
    message
}

// The mark of a message that has no other header: 1 where that has an octet above 127, and 2 where the message has one.
fn mark_of(message: &[u8]) -> u8 {
    if is_high(header_of(message)) {
        3
    } else if is_high(message) {
        2
    } else {
        0
    }
}

/// Puts the record last by which a message with these flags comes into the first folder, which has no other header than its own.
pub fn push_message(journal: &mut Octets, flags: u8, message: &[u8]) -> Result<(), Memory> {
    push_number(journal, message.len().saturating_add(41))?;
    journal.push_slice(&[9, 0, 0, 0, 0, flags, mark_of(message)])?;
    push_text(journal, DATE)?;
    push_text(journal, message)
}

/// The journal of the account, and these messages of its INBOX with their flags.
pub fn journal_of(alloc: Global, messages: &[(u8, &[u8])]) -> Result<Octets, Memory> {
    let mut journal = Octets::from_slice(alloc, BEGUN)?;
    for (flags, message) in messages {
        push_message(&mut journal, *flags, message)?;
    }
    Ok(journal)
}
