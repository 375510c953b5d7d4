//! The relay to a server in memory: what it is sent, what is reported, and what is left.
use mail_wire::{
    Failure, Fault, FixedClock, MemDial, MemKeeper, MemServer, MemWire, Memory, Octets,
};
use memchr::memmem;
use relay_session::{LeftCause, RelayEnd, relay_over, relay_queue};
use session_core::{LIMITS, Outside, open_desk};
use std::alloc::Global;
use std::test::Fail;
use test_mail::{BEGUN, Case, NEVER, all_hold, failing, given, joined, keeper_of, wire_of};

const EIGHT: &[u8] = b"220 x\r\n250-x\r\n250 8BITMIME\r\n";

// Entries of a queue, each of a message to `josé@example.com` whose header is not ASCII.

// It is of the account `ann@example.org`.
const FROM_ACCOUNT: &[u8] =
    b"\0\0\0\x41\x0a\0\0\0\x0fann@example.org\0\0\0\x01\0\0\0\x11jos\xc3\xa9@example.com\x03\0\0\0\x0fSubject: \xc3\xa9\r\n\r\n";

// It is of the null path.
const FROM_NULL_PATH: &[u8] =
    b"\0\0\0\x32\x0a\0\0\0\0\0\0\0\x01\0\0\0\x11jos\xc3\xa9@example.com\x03\0\0\0\x0fSubject: \xc3\xa9\r\n\r\n";

// It is of `é@x.example`.
const FROM_UTF8: &[u8] =
    b"\0\0\0\x3e\x0a\0\0\0\x0c\xc3\xa9@x.example\0\0\0\x01\0\0\0\x11jos\xc3\xa9@example.com\x03\0\0\0\x0fSubject: \xc3\xa9\r\n\r\n";

// It is of an account that isn't there.
const FROM_GONE: &[u8] =
    b"\0\0\0\x44\x0a\0\0\0\x12nobody@example.org\0\0\0\x01\0\0\0\x11jos\xc3\xa9@example.com\x03\0\0\0\x0fSubject: \xc3\xa9\r\n\r\n";

// An entry of a message of the account `ann@example.org` to `x@example.com` and `y@example.com`, with lines that begin with dots.
const WITH_DOTS: &[u8] =
    b"\0\0\0\x4d\x0a\0\0\0\x0fann@example.org\0\0\0\x02\0\0\0\x0dx@example.com\0\0\0\x0dy@example.com\0\0\0\0\x0eA: b\r\n\r\n.\r\n..x";

// The record by which the recipient is taken off.
const SETTLED: &[u8] = b"\0\0\0\x09\x08\0\0\0\0\0\0\0\0";

// What a run came to: its end, what was given, and what is kept after the journal.
#[derive(Drop)]
struct Advance {
    end: RelayEnd,
    given: Octets,
    kept: Octets,
}

// What a keeper keeps after what it began with.
fn kept_following(alloc: Global, keeper: &MemKeeper, begun: usize) -> Result<Octets, Memory> {
    let kept = keeper.octets().get(begun..).unwrap_or(b"");
    Octets::from_slice(alloc, kept)
}

// The answer of the relay of a journal's queue over a wire.
fn answer_over(
    alloc: Global,
    wire: &mut MemWire,
    keeper: &mut MemKeeper,
) -> Result<Result<RelayEnd, Fault>, Memory> {
    let mut clock = FixedClock::new(0);
    let Ok(desk) = open_desk(alloc, keeper, LIMITS) else {
        return Err(Memory);
    };
    let mut outside = Outside::new(alloc, desk, wire, keeper, &mut clock);
    Ok(relay_over(&mut outside))
}

// A server that sends this in pieces of this size, over a wire that fails at a call.
fn server_of(alloc: Global, server: &[u8], size: usize, call: u64) -> Result<MemWire, Memory> {
    let sizes = Vec::from_elem(alloc, size, server.len())?;
    wire_of(alloc, server, &sizes, failing(call))
}

// The run of a queue of one message, over a server that sends this in pieces of this size, and whose wire fails at a call.
fn relayed(
    alloc: Global,
    entry: &[u8],
    server: &[u8],
    size: usize,
    call: u64,
) -> Result<Advance, Memory> {
    let before = joined(alloc, &[BEGUN, entry])?;
    let begun = before.len();
    let mut keeper = MemKeeper::new(before, Vec::new(alloc));
    let mut wire = server_of(alloc, server, size, call)?;
    let Ok(end) = answer_over(alloc, &mut wire, &mut keeper)? else {
        return Err(Memory);
    };
    let given = given(alloc, wire.entries())?;
    let kept = kept_following(alloc, &keeper, begun)?;
    Ok(Advance { end, given, kept })
}

// What is kept after the journal where the keeper fails at a call within the run, if it does.
fn kept_by_failing(alloc: Global, call: u64) -> Result<Option<Octets>, Memory> {
    let before = joined(alloc, &[BEGUN, FROM_ACCOUNT])?;
    let mut keeper = keeper_of(alloc, before.as_slice(), failing(call))?;
    let mut wire = server_of(alloc, EIGHT, 4096, NEVER)?;
    match answer_over(alloc, &mut wire, &mut keeper)? {
        Err(Fault::Keeper) => Ok(Some(kept_following(alloc, &keeper, before.len())?)),
        _ => Ok(None),
    }
}

// What a server sends that takes a message.
const TAKING: &[u8] =
    b"220 x\r\n250-x\r\n250-8BITMIME\r\n250 SMTPUTF8\r\n250 ok\r\n250 ok\r\n354 go\r\n250 ok\r\n221 bye\r\n";

const HOST: &str = "mail.example.net";

// The relay of the queue of a journal by a dial to that server. A call of the dial fails, and one of the wire.
fn dialled(alloc: Global, before: Octets, calls: [u64; 2]) -> Result<Option<Advance>, Memory> {
    let begun = before.len();
    let [failing_dial, call] = calls;
    let mut keeper = MemKeeper::new(before, Vec::new(alloc));
    let server = MemServer {
        sends: Octets::from_slice(alloc, TAKING)?,
        sizes: Vec::new(alloc),
        failures: Vec::from_slice(alloc, &[Failure { call, kept: 3 }])?,
    };
    let mut dial = MemDial::new(alloc, server, Vec::from_slice(alloc, &[failing_dial])?);
    let mut clock = FixedClock::new(0);
    let Ok(desk) = open_desk(alloc, &mut keeper, LIMITS) else {
        return Ok(None);
    };
    let (_desk, end) = relay_queue(alloc, desk, HOST, &mut dial, &mut keeper, &mut clock);
    let Ok(end) = end else {
        return Ok(None);
    };
    let asked = dial.asked();
    if asked.get(0).is_some_and(|asked| asked != HOST) || asked.get(1).is_some() {
        return Ok(None);
    }
    let given = given(alloc, dial.entries())?;
    let kept = kept_following(alloc, &keeper, begun)?;
    Ok(Some(Advance { end, given, kept }))
}

// Why something is left.
#[derive(Clone, Copy)]
enum Cause {
    None,
    Wire,
    Dial,
    Reply(&'static [u8]),
}

// What is kept: this, each of these texts, these before this end, or the first text and not the second.
#[derive(Clone, Copy)]
enum Kept {
    Is(&'static [u8]),
    Says(&'static [&'static [u8]]),
    EndsSaying(&'static [&'static [u8]], &'static [u8]),
    SaysNot(&'static [u8], &'static [u8]),
}

// Whether so many were sent, reported and left, for this cause.
fn is_end(end: &RelayEnd, counts: [u32; 3], cause: Cause) -> bool {
    [end.sent, end.reported, end.left] == counts
        && match (&end.cause, cause) {
            (None, Cause::None) => true,
            (Some(LeftCause::Wire), Cause::Wire) => true,
            (Some(LeftCause::Dial), Cause::Dial) => true,
            (Some(LeftCause::Reply(reply)), Cause::Reply(octets)) => reply.as_slice() == octets,
            _ => false,
        }
}

fn is_kept(kept: &[u8], wanted: Kept) -> bool {
    match wanted {
        Kept::Is(octets) => kept == octets,
        Kept::Says(texts) => say_all(kept, texts),
        Kept::EndsSaying(texts, end) => say_all(kept, texts) && kept.ends_with(end),
        Kept::SaysNot(text, other) => {
            memmem::find(kept, text).is_some() && memmem::find(kept, other).is_none()
        }
    }
}

fn say_all(kept: &[u8], texts: &[&[u8]]) -> bool {
    for text in texts {
        if memmem::find(kept, text).is_none() {
            return false;
        }
    }
    true
}

// An entry of the queue; what a server sends, the sizes of its pieces and the call of its wire that fails; how many are sent, reported
// and left, and why; what is given; and what is kept.
struct RelayRow {
    entry: &'static [u8],
    server: &'static [u8],
    sizes: &'static [usize],
    call: u64,
    counts: [u32; 3],
    cause: Cause,
    given: &'static [u8],
    kept: Kept,
}

impl Case for RelayRow {
    fn holds(&self, alloc: Global) -> Result<bool, Memory> {
        for size in self.sizes {
            let advance = relayed(alloc, self.entry, self.server, *size, self.call)?;
            if !is_end(&advance.end, self.counts, self.cause)
                || advance.given.as_slice() != self.given
                || !is_kept(advance.kept.as_slice(), self.kept)
            {
                return Ok(false);
            }
        }
        Ok(true)
    }
}

const REPORTED: [(&str, &[RelayRow]); 5] = [
    (
        "what the server can't take is reported",
        &[RelayRow {
            entry: FROM_ACCOUNT,
            server: EIGHT,
            sizes: &[1, 4096],
            call: NEVER,
            counts: [0, 1, 0],
            cause: Cause::None,
            given: b"EHLO example.org\r\nQUIT\r\n",
            // the report has the mark 0, and the recipient is taken off
            kept: Kept::EndsSaying(
                &[
                    b"\x09\0\0\0\0\0\0\0\0\0\x1a01-Jan-1970 00:00:00 +0000",
                    b"Final-Recipient: utf-8; jos\\x{E9}@example.com\r\n",
                    b"Action: failed\r\nStatus: 5.6.9\r\n",
                    b"To: ann@example.org\r\nDate: Thu, 01 Jan 1970 00:00:00 +0000\r\n",
                ],
                SETTLED,
            ),
        }],
    ),
    (
        "the null path is told nothing",
        &[RelayRow {
            entry: FROM_NULL_PATH,
            server: EIGHT,
            sizes: &[4096],
            call: NEVER,
            counts: [0, 0, 0],
            cause: Cause::None,
            given: b"EHLO example.org\r\nQUIT\r\n",
            kept: Kept::Is(SETTLED),
        }],
    ),
    (
        "a path that isn't ASCII is told in UTF-8",
        &[RelayRow {
            entry: FROM_UTF8,
            server: EIGHT,
            sizes: &[7],
            call: NEVER,
            counts: [0, 1, 0],
            cause: Cause::None,
            given: b"EHLO example.org\r\nQUIT\r\n",
            // its report has the mark 3
            kept: Kept::Says(&[
                b"\x0a\0\0\0\0\0\0\0\x01\0\0\0\x0c\xC3\xA9@x.example\x03",
                b"Final-Recipient: utf-8; jos\xC3\xA9@example.com\r\n",
                b"Content-Type: message/global-headers\r\n\r\nSubject: \xC3\xA9\r\n",
            ]),
        }],
    ),
    (
        "a report for an account that is gone is dropped",
        &[RelayRow {
            entry: FROM_GONE,
            server: EIGHT,
            sizes: &[4096],
            call: NEVER,
            counts: [0, 0, 0],
            cause: Cause::None,
            given: b"EHLO example.org\r\nQUIT\r\n",
            kept: Kept::Is(SETTLED),
        }],
    ),
    (
        "a refused recipient is reported with the code",
        &[RelayRow {
            entry: FROM_ACCOUNT,
            server: b"220 x\r\n250-x\r\n250-8BITMIME\r\n250 SMTPUTF8\r\n250 ok\r\n550 no\r\n250 ok\r\n",
            sizes: &[1, 4096],
            call: NEVER,
            counts: [0, 1, 0],
            cause: Cause::None,
            given: b"EHLO example.org\r\nMAIL FROM:<ann@example.org> BODY=8BITMIME SMTPUTF8\r\nRCPT TO:<jos\xC3\xA9@example.com>\r\nRSET\r\nQUIT\r\n",
            kept: Kept::Says(&[b"Status: 5.0.0\r\nDiagnostic-Code: smtp; 550\r\n"]),
        }],
    ),
];

#[test]
fn what_a_server_refuses_is_reported(rt: HostRuntime) -> Result<(), Fail> {
    all_hold(rt.alloc(), &REPORTED)
}

const SENT_OR_LEFT: [(&str, &[RelayRow]); 5] = [
    (
        "a reply that isn't expected leaves all",
        &[RelayRow {
            entry: FROM_ACCOUNT,
            server: b"220 x\r\n250-x\r\n250-8BITMIME\r\n250 SMTPUTF8\r\n250 ok\r\n550 no\r\n451 x\r\n250 ok\r\n",
            sizes: &[1, 4096],
            call: NEVER,
            counts: [0, 0, 1],
            cause: Cause::Reply(b"451 x\r\n"),
            given: b"EHLO example.org\r\nMAIL FROM:<ann@example.org> BODY=8BITMIME SMTPUTF8\r\nRCPT TO:<jos\xC3\xA9@example.com>\r\nRSET\r\n",
            kept: Kept::Is(b""),
        }],
    ),
    (
        "octets that are no reply leave all",
        &[RelayRow {
            entry: FROM_ACCOUNT,
            server: b"220 x\r\n250-x\r\n25",
            sizes: &[4],
            call: NEVER,
            counts: [0, 0, 1],
            cause: Cause::Reply(b"250-x\r\n25"),
            given: b"EHLO example.org\r\n",
            kept: Kept::Is(b""),
        }],
    ),
    (
        "the least of them are told",
        &[RelayRow {
            entry: FROM_ACCOUNT,
            server: b"220 x\r\n250-x\r\n551 y\r\n",
            sizes: &[4],
            call: NEVER,
            counts: [0, 0, 1],
            cause: Cause::Reply(b"250-x\r\n5"),
            given: b"EHLO example.org\r\n",
            kept: Kept::Is(b""),
        }],
    ),
    (
        "no octets leave all",
        &[RelayRow {
            entry: FROM_ACCOUNT,
            server: b"",
            sizes: &[4],
            call: NEVER,
            counts: [0, 0, 1],
            cause: Cause::Reply(b""),
            given: b"",
            kept: Kept::Is(b""),
        }],
    ),
    (
        "a message is sent with its dots",
        &[RelayRow {
            entry: WITH_DOTS,
            server: b"220 x\r\n250 x\r\n250 ok\r\n250 ok\r\n550 no\r\n354 go\r\n250 ok\r\n221 bye\r\n",
            sizes: &[5],
            call: NEVER,
            counts: [1, 1, 0],
            cause: Cause::None,
            given: b"EHLO example.org\r\nMAIL FROM:<ann@example.org>\r\nRCPT TO:<x@example.com>\r\nRCPT TO:<y@example.com>\r\nDATA\r\nA: b\r\n\r\n..\r\n...x\r\n.\r\nQUIT\r\n",
            kept: Kept::SaysNot(
                b"Final-Recipient: rfc822; y@example.com\r\n",
                b"Final-Recipient: rfc822; x@example.com\r\n",
            ),
        }],
    ),
];

#[test]
fn a_message_is_sent_or_left(rt: HostRuntime) -> Result<(), Fail> {
    all_hold(rt.alloc(), &SENT_OR_LEFT)
}

// Where the wire fails at a call: each take brings all that is sent, so there is a take, and then a give for each of EHLO, MAIL, RCPT,
// DATA, the message and QUIT.
const BROKEN_OFF: [(&str, &[RelayRow]); 3] = [
    (
        "where the wire fails what is open is left",
        &[
            RelayRow {
                entry: FROM_ACCOUNT,
                server: b"220 x\r\n250-x\r\n250-8BITMIME\r\n250 SMTPUTF8\r\n250 ok\r\n250 ok\r\n354 go\r\n250 ok\r\n",
                sizes: &[4096],
                call: 0,
                counts: [0, 0, 1],
                cause: Cause::Wire,
                given: b"",
                kept: Kept::Is(b""),
            },
            RelayRow {
                entry: FROM_ACCOUNT,
                server: b"220 x\r\n250-x\r\n250-8BITMIME\r\n250 SMTPUTF8\r\n250 ok\r\n250 ok\r\n354 go\r\n250 ok\r\n",
                sizes: &[4096],
                call: 1,
                counts: [0, 0, 1],
                cause: Cause::Wire,
                given: b"EHL",
                kept: Kept::Is(b""),
            },
            RelayRow {
                entry: FROM_ACCOUNT,
                server: b"220 x\r\n250-x\r\n250-8BITMIME\r\n250 SMTPUTF8\r\n250 ok\r\n250 ok\r\n354 go\r\n250 ok\r\n",
                sizes: &[4096],
                call: 2,
                counts: [0, 0, 1],
                cause: Cause::Wire,
                given: b"EHLO example.org\r\nMAI",
                kept: Kept::Is(b""),
            },
            RelayRow {
                entry: FROM_ACCOUNT,
                server: b"220 x\r\n250-x\r\n250-8BITMIME\r\n250 SMTPUTF8\r\n250 ok\r\n250 ok\r\n354 go\r\n250 ok\r\n",
                sizes: &[4096],
                call: 3,
                counts: [0, 0, 1],
                cause: Cause::Wire,
                given: b"EHLO example.org\r\nMAIL FROM:<ann@example.org> BODY=8BITMIME SMTPUTF8\r\nRCP",
                kept: Kept::Is(b""),
            },
            RelayRow {
                entry: FROM_ACCOUNT,
                server: b"220 x\r\n250-x\r\n250-8BITMIME\r\n250 SMTPUTF8\r\n250 ok\r\n250 ok\r\n354 go\r\n250 ok\r\n",
                sizes: &[4096],
                call: 4,
                counts: [0, 0, 1],
                cause: Cause::Wire,
                given: b"EHLO example.org\r\nMAIL FROM:<ann@example.org> BODY=8BITMIME SMTPUTF8\r\nRCPT TO:<jos\xC3\xA9@example.com>\r\nDAT",
                kept: Kept::Is(b""),
            },
            RelayRow {
                entry: FROM_ACCOUNT,
                server: b"220 x\r\n250-x\r\n250-8BITMIME\r\n250 SMTPUTF8\r\n250 ok\r\n250 ok\r\n354 go\r\n250 ok\r\n",
                sizes: &[4096],
                call: 5,
                counts: [0, 0, 1],
                cause: Cause::Wire,
                given: b"EHLO example.org\r\nMAIL FROM:<ann@example.org> BODY=8BITMIME SMTPUTF8\r\nRCPT TO:<jos\xC3\xA9@example.com>\r\nDATA\r\nSub",
                kept: Kept::Is(b""),
            },
        ],
    ),
    (
        "it doesn't matter whether QUIT arrives",
        &[RelayRow {
            entry: FROM_ACCOUNT,
            server: b"220 x\r\n250-x\r\n250-8BITMIME\r\n250 SMTPUTF8\r\n250 ok\r\n250 ok\r\n354 go\r\n250 ok\r\n",
            sizes: &[4096],
            call: 6,
            counts: [1, 0, 0],
            cause: Cause::None,
            given: b"EHLO example.org\r\nMAIL FROM:<ann@example.org> BODY=8BITMIME SMTPUTF8\r\nRCPT TO:<jos\xC3\xA9@example.com>\r\nDATA\r\nSubject: \xC3\xA9\r\n\r\n.\r\nQUI",
            kept: Kept::Is(SETTLED),
        }],
    ),
    (
        "where a later take fails no more is said",
        &[RelayRow {
            entry: FROM_ACCOUNT,
            server: EIGHT,
            sizes: &[7],
            call: 2,
            counts: [0, 0, 1],
            cause: Cause::Wire,
            given: b"EHLO example.org\r\n",
            kept: Kept::Is(b""),
        }],
    ),
];

#[test]
fn where_the_wire_fails_what_is_open_is_left(rt: HostRuntime) -> Result<(), Fail> {
    all_hold(rt.alloc(), &BROKEN_OFF)
}

// Whether the keeper that fails at a call keeps a part of what it would.
fn keeps_front(alloc: Global, call: u64) -> Result<bool, Memory> {
    let whole = relayed(alloc, FROM_ACCOUNT, EIGHT, 4096, NEVER)?;
    match kept_by_failing(alloc, call)? {
        Some(kept) => Ok(
            whole.kept.as_slice().starts_with(kept.as_slice()) && kept.len() < whole.kept.len(),
        ),
        None => Ok(false),
    }
}

// The report is put into the mailbox, and then the recipient is taken off.
#[test]
fn where_the_keeper_fails_a_front_is_kept(rt: HostRuntime) {
    assert!(rt; keeps_front(rt.alloc(), 8) == Ok(true) && keeps_front(rt.alloc(), 9) == Ok(true));
}

// The parts of a journal; the calls of the dial and of the wire that fail; how many are sent, reported and left, and why; what is given;
// and what is kept.
struct DialRow {
    journal: &'static [&'static [u8]],
    calls: [u64; 2],
    counts: [u32; 3],
    cause: Cause,
    given: &'static [u8],
    kept: &'static [u8],
}

impl Case for DialRow {
    fn holds(&self, alloc: Global) -> Result<bool, Memory> {
        match dialled(alloc, joined(alloc, self.journal)?, self.calls)? {
            Some(advance) => Ok(
                is_end(&advance.end, self.counts, self.cause)
                    && advance.given.as_slice() == self.given
                    && advance.kept.as_slice() == self.kept,
            ),
            None => Ok(false),
        }
    }
}

const DIALLED: [(&str, &[DialRow]); 4] = [
    (
        "a message is sent over a connection, which is handed back",
        &[DialRow {
            journal: &[BEGUN, FROM_ACCOUNT],
            calls: [1, NEVER],
            counts: [1, 0, 0],
            cause: Cause::None,
            given: b"EHLO example.org\r\nMAIL FROM:<ann@example.org> BODY=8BITMIME SMTPUTF8\r\nRCPT TO:<jos\xC3\xA9@example.com>\r\nDATA\r\nSubject: \xC3\xA9\r\n\r\n.\r\nQUIT\r\n",
            kept: SETTLED,
        }],
    ),
    (
        "where the dial fails everybody is left",
        &[DialRow {
            journal: &[BEGUN, FROM_ACCOUNT],
            calls: [0, NEVER],
            counts: [0, 0, 1],
            cause: Cause::Dial,
            given: b"",
            kept: b"",
        }],
    ),
    (
        "a connection that fails is handed back",
        &[DialRow {
            journal: &[BEGUN, FROM_ACCOUNT],
            calls: [NEVER, 2],
            counts: [0, 0, 1],
            cause: Cause::Wire,
            given: b"EHLO example.org\r\nMAI",
            kept: b"",
        }],
    ),
    (
        "nobody is dialled where nobody waits",
        &[DialRow {
            journal: &[BEGUN, FROM_ACCOUNT, SETTLED],
            calls: [0, NEVER],
            counts: [0, 0, 0],
            cause: Cause::None,
            given: b"",
            kept: b"",
        }],
    ),
];

#[test]
fn a_queue_is_relayed_over_a_connection_that_is_dialled(rt: HostRuntime) -> Result<(), Fail> {
    all_hold(rt.alloc(), &DIALLED)
}
