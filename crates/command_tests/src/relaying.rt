//! The command that sends the queue on, to a server in memory.
use crate::commands::{Command, Failing, Outcome, outcome_by};
use mail_wire::{Failure, MemDial, Memory, Octets};
use std::alloc::Global;
use std::test::Fail;
use test_mail::{BEGUN, JOURNAL, dial_of, given, joined};

// A message of the account, which waits for one recipient, and the record that this one is settled.
const WAITING: &[u8] =
    b"\0\0\0\x39\x0a\0\0\0\x0fann@example.org\0\0\0\x01\0\0\0\x0dx@example.com\0\0\0\0\x0bA: b\r\n\r\nx\r\n";

const SETTLED: &[u8] = b"\0\0\0\x09\x08\0\0\0\0\0\0\0\0";

// What a server sends that takes the message, and what it's given.
const SERVER: &[u8] = b"220 x\r\n250 x\r\n250 ok\r\n250 ok\r\n354 go\r\n250 ok\r\n221 bye\r\n";

const SENT: &[u8] =
    b"EHLO example.org\r\nMAIL FROM:<ann@example.org>\r\nRCPT TO:<x@example.com>\r\nDATA\r\nA: b\r\n\r\nx\r\n.\r\nQUIT\r\n";

const ONE_SENT: &[u8] = b"sent 1, reported 0, left 0\r\n";

const NONE_SENT: &[u8] = b"sent 0, reported 0, left 0\r\n";

const ONE_LEFT: &[u8] = b"sent 0, reported 0, left 1\r\n";

// The journal of the account and its queue.
fn queued(alloc: Global) -> Result<Octets, Memory> {
    joined(alloc, &[BEGUN, WAITING])
}

// What comes of a relay over this journal, where its keeper fails so.
fn relayed(
    alloc: Global,
    host: &str,
    journal: &[u8],
    failing: Failing,
    dial: &mut MemDial,
) -> Result<Outcome, Memory> {
    let command = Command {
        words: &["relay", host],
        input: b"",
        sizes: &[],
        journal,
    };
    outcome_by(alloc, &command, failing, dial)
}

// Whether the dial was asked for no host.
fn is_untouched(dial: &MemDial) -> bool {
    dial.asked().get(0).is_none()
}

// Whether the dial was asked for this host, once, and for no other.
fn was_asked_once(dial: &MemDial, host: &str) -> bool {
    dial.asked().get(0).is_some_and(|asked| asked == host) && dial.asked().get(1).is_none()
}

// Whether a relay ended so, and left this journal.
fn ended_as(relayed: &Outcome, status: u8, line: &[u8], journal: &[u8]) -> bool {
    relayed.status == status
        && relayed.given.as_slice() == line
        && relayed.journal.as_slice() == journal
}

#[test]
fn where_nobody_waits_nobody_is_dialled(rt: HostRuntime) -> Result<(), Fail> {
    let alloc = rt.alloc();
    let mut dial = dial_of(alloc, SERVER, &[0])?;
    let none = relayed(alloc, "x", JOURNAL, Failing::Nothing, &mut dial)?;
    assert!(rt; ended_as(&none, 0, NONE_SENT, JOURNAL));
    assert!(rt; is_untouched(&dial));
    Ok(())
}

#[test]
fn a_server_that_is_not_reached_leaves_all(rt: HostRuntime) -> Result<(), Fail> {
    let alloc = rt.alloc();
    let journal = queued(alloc)?;
    let mut dial = dial_of(alloc, SERVER, &[0])?;
    let host = "mail.example.net:2525";
    let left = relayed(alloc, host, journal.as_slice(), Failing::Nothing, &mut dial)?;
    assert!(rt; ended_as(&left, 8, ONE_LEFT, journal.as_slice()));
    assert!(rt; was_asked_once(&dial, host));
    assert!(rt; dial.entries().is_empty());
    Ok(())
}

#[test]
fn a_message_is_sent_once(rt: HostRuntime) -> Result<(), Fail> {
    let alloc = rt.alloc();
    let journal = queued(alloc)?;
    let settled = joined(alloc, &[BEGUN, WAITING, SETTLED])?;
    let mut dial = dial_of(alloc, SERVER, &[])?;
    let one = relayed(alloc, "x", journal.as_slice(), Failing::Nothing, &mut dial)?;
    assert!(rt; ended_as(&one, 0, ONE_SENT, settled.as_slice()));
    assert!(rt; was_asked_once(&dial, "x"));
    assert!(rt; given(alloc, dial.entries())?.as_slice() == SENT);
    // The queue of this journal is empty.
    let mut other = dial_of(alloc, SERVER, &[0])?;
    let none = relayed(alloc, "x", settled.as_slice(), Failing::Nothing, &mut other)?;
    assert!(rt; ended_as(&none, 0, NONE_SENT, settled.as_slice()));
    assert!(rt; is_untouched(&other));
    Ok(())
}

// Whether a relay told nothing, and began a settlement just where all was sent but for the parting.
fn is_broken_off(cut: &Outcome, journal: &[u8], sent: Option<&[u8]>) -> bool {
    let begun = cut.journal.as_slice().strip_prefix(journal);
    let is_first = match sent {
        Some(sent) => SENT.strip_suffix(b"QUIT\r\n") == Some(sent) && begun == SETTLED.get(..5),
        None => begun == Some(&[]),
    };
    cut.status == 2 && cut.given.is_empty() && is_first
}

// Whether a relay cuts off what was begun after the journal, and sends the message.
fn is_sent_again(alloc: Global, journal: &[u8], left: &[u8]) -> Result<bool, Memory> {
    let mut dial = dial_of(alloc, SERVER, &[])?;
    let again = relayed(alloc, "x", left, Failing::Nothing, &mut dial)?;
    Ok(
        again.given.as_slice() == ONE_SENT
            && again.journal.as_slice().strip_prefix(journal) == Some(SETTLED),
    )
}

#[test]
fn a_recipient_whose_settlement_is_not_kept_waits_on(rt: HostRuntime) -> Result<(), Fail> {
    let alloc = rt.alloc();
    let journal = queued(alloc)?;
    let mut was_dialled = false;
    // The calls that open the journal, and then the one that takes the recipient off.
    for call in 0..100 {
        let mut dial = dial_of(alloc, SERVER, &[])?;
        let failing = Failing::Keeper(Failure { call, kept: 5 });
        let cut = relayed(alloc, "x", journal.as_slice(), failing, &mut dial)?;
        if cut.status == 0 {
            break;
        }
        let sent = given(alloc, dial.entries())?;
        let is_dialled = !is_untouched(&dial);
        let told = is_dialled.then_some(sent.as_slice());
        assert!(rt; is_broken_off(&cut, journal.as_slice(), told), "at {call}");
        was_dialled = was_dialled || is_dialled;
        let again = is_sent_again(alloc, journal.as_slice(), cut.journal.as_slice())?;
        assert!(rt; again, "at {call}");
    }
    assert!(rt; was_dialled);
    Ok(())
}
