//! Commands whose input comes in any cut, and whose wire or keeper fails at any call.
use crate::commands::{Command, Failing, Outcome, run_command};
use mail_wire::{Failure, Memory};
use std::alloc::Global;
use std::test::Fail;
use test_mail::{CAFE, JOURNAL};

// A command over the journal of one message: what it gives, the records that it writes, the last of them, and how often it calls its
// keeper.
struct Row {
    word: &'static str,
    input: &'static [u8],
    gives: &'static [u8],
    records: &'static [u8],
    last: &'static [u8],
    keeper_calls: u64,
}

const DOWNGRADE: Row = Row {
    word: "downgrade",
    input: CAFE,
    gives: b"Subject:\r\n =?UTF-8?B?Y2Fmw6k=?=\r\n bar\r\n\r\nx\r\n",
    records: b"",
    last: b"",
    keeper_calls: 0,
};

const CHECK: Row = Row {
    word: "check",
    input: CAFE,
    gives: b"octets 25\r\nserved 44\r\nentities 1\r\nrewritten 1\r\nutf8 yes\r\n",
    records: b"",
    last: b"",
    keeper_calls: 0,
};

// A session of POP3 that hasn't enabled UTF-8.
const POP: Row = Row {
    word: "pop",
    input: b"USER ann@example.org\r\nPASS pw\r\nUTF8\r\nSTAT\r\nLIST 1\r\nRETR 1\r\nQUIT\r\n",
    gives: b"+OK ready\r\n+OK\r\n+OK\r\n-ERR out of order\r\n+OK 1 44\r\n+OK 1 44\r\n\
+OK\r\nSubject:\r\n =?UTF-8?B?Y2Fmw6k=?=\r\n bar\r\n\r\nx\r\n.\r\n+OK bye\r\n",
    records: b"",
    last: b"",
    keeper_calls: OPENING_CALLS,
};

// How often a keeper is called that opens the journal: once for its length, and to read.
const OPENING_CALLS: u64 = 8;

// A message for the account, of a sender beyond ASCII.
const SMTP: Row = Row {
    word: "smtp",
    input: b"EHLO client\r\nMAIL FROM:<jos\xc3\xa9@example.com>\r\nMAIL FROM:<jos\xc3\xa9@example.com> SMTPUTF8\r\n\
RCPT TO:<ANN@example.org>\r\nRCPT TO:<bob@example.org>\r\nDATA\r\nSubject: \xc3\xa9\r\n\r\n..x\r\n.\r\nQUIT\r\n",
    gives: b"220 example.org ESMTP\r\n250-example.org\r\n250-8BITMIME\r\n250-SIZE 33554432\r\n250-SMTPUTF8\r\n\
250 ENHANCEDSTATUSCODES\r\n553 5.6.7 address needs SMTPUTF8\r\n250 2.1.0 ok\r\n250 2.1.5 ok\r\n550 5.1.1 no such mailbox\r\n\
354 go ahead\r\n250 2.0.0 stored\r\n221 2.0.0 bye\r\n",
    records: DELIVERED,
    last: DELIVERED,
    keeper_calls: OPENING_CALLS + 1,
};

// The mark says that the message is high, and its header too.
const DELIVERED: &[u8] =
    b"\0\0\0\xb3\x09\0\0\0\0\0\x03\0\0\0\x1a01-Jan-1970 00:00:00 +0000\0\0\0\x8a\
Return-Path: <jos\xc3\xa9@example.com>\r\n\
Received: from client by example.org with UTF8SMTP; Thu, 01 Jan 1970 00:00:00 +0000\r\n\
Subject: \xc3\xa9\r\n\r\n.x\r\n";

// A session of IMAP that hasn't enabled UTF-8, with each kind of command that changes nothing.
const IMAP: Row = Row {
    word: "imap",
    input: b"a CAPABILITY\r\n\
b LOGIN ann@example.org pw\r\n\
c LIST \"\" *\r\n\
d SELECT INBOX\r\n\
e FETCH 1 (FLAGS UID RFC822.SIZE)\r\n\
f FETCH 1 BODY.PEEK[]\r\n\
g LOGOUT\r\n",
    gives: b"* OK IMAP4rev1 ready\r\n\
* CAPABILITY IMAP4rev1 ENABLE UTF8=ACCEPT\r\n\
a OK done\r\n\
b OK done\r\n\
* LIST () NIL \"INBOX\"\r\n\
c OK done\r\n\
* 1 EXISTS\r\n\
* 0 RECENT\r\n\
* FLAGS (\\Answered \\Flagged \\Deleted \\Seen \\Draft)\r\n\
* OK [UIDVALIDITY 1] ok\r\n\
* OK [UIDNEXT 2] ok\r\n\
* OK [PERMANENTFLAGS (\\Answered \\Flagged \\Deleted \\Seen \\Draft)] ok\r\n\
d OK [READ-WRITE] done\r\n\
* 1 FETCH (FLAGS () UID 1 RFC822.SIZE 44)\r\n\
e OK done\r\n\
* 1 FETCH (BODY[] {44}\r\n\
Subject:\r\n =?UTF-8?B?Y2Fmw6k=?=\r\n bar\r\n\r\nx\r\n)\r\n\
f OK done\r\n\
* BYE bye\r\n\
g OK done\r\n",
    records: b"",
    last: b"",
    keeper_calls: OPENING_CALLS,
};

// One that logs in by literals, and takes the message out.
const IMAP_CHANGES: Row = Row {
    word: "imap",
    input: b"a LOGIN {15}\r\nann@example.org {2}\r\npw\r\n\
b SELECT inbox\r\n\
c STORE 1 +FLAGS.SILENT (\\Deleted)\r\n\
d EXPUNGE\r\n\
e LOGOUT\r\n",
    gives: b"* OK IMAP4rev1 ready\r\n\
+ go\r\n\
+ go\r\n\
a OK done\r\n\
* 1 EXISTS\r\n\
* 0 RECENT\r\n\
* FLAGS (\\Answered \\Flagged \\Deleted \\Seen \\Draft)\r\n\
* OK [UIDVALIDITY 1] ok\r\n\
* OK [UIDNEXT 2] ok\r\n\
* OK [PERMANENTFLAGS (\\Answered \\Flagged \\Deleted \\Seen \\Draft)] ok\r\n\
b OK [READ-WRITE] done\r\n\
c OK done\r\n\
* 1 EXPUNGE\r\n\
d OK done\r\n\
* BYE bye\r\n\
e OK done\r\n",
    records: b"\0\0\0\x06\x05\0\0\0\0\x08\0\0\0\x05\x06\0\0\0\0",
    last: b"\0\0\0\x05\x06\0\0\0\0",
    keeper_calls: OPENING_CALLS + 2,
};

const ROWS: [Row; 6] = [DOWNGRADE, CHECK, POP, SMTP, IMAP, IMAP_CHANGES];

// What comes of a row over a journal, where its input comes in pieces of these sizes.
fn outcome_of(
    alloc: Global,
    row: &Row,
    journal: &[u8],
    sizes: &[usize],
    failing: Failing,
) -> Result<Outcome, Memory> {
    let command = Command {
        words: &[row.word],
        input: row.input,
        sizes,
        journal,
    };
    run_command(alloc, &command, failing)
}

// Whether all was given and written.
fn is_done(outcome: &Outcome, row: &Row) -> bool {
    outcome.status == 0
        && outcome.given.as_slice() == row.gives
        && outcome.journal.as_slice().strip_prefix(JOURNAL) == Some(row.records)
}

#[test]
fn every_cut_gives_the_same(rt: HostRuntime) -> Result<(), Fail> {
    let alloc = rt.alloc();
    for row in &ROWS {
        let single = Vec::from_elem(alloc, 1, row.input.len())?;
        let by_octets = outcome_of(alloc, row, JOURNAL, &single, Failing::Nothing)?;
        assert!(rt; is_done(&by_octets, row), "{}", row.word);
        for at in 1..=row.input.len() {
            let cut = outcome_of(alloc, row, JOURNAL, &[at], Failing::Nothing)?;
            assert!(rt; is_done(&cut, row), "{} at {at}", row.word);
        }
    }
    Ok(())
}

// Whether a command was broken off with this status, and gave and wrote the first part of all.
fn is_broken_off(cut: &Outcome, row: &Row, status: u8) -> bool {
    let written = cut.journal.as_slice().strip_prefix(JOURNAL);
    cut.status == status
        && row.gives.starts_with(cut.given.as_slice())
        && cut.given.len() < row.gives.len()
        && written.is_some_and(|written| row.records.starts_with(written))
}

#[test]
fn each_failing_call_of_the_wire_breaks_it_off(rt: HostRuntime) -> Result<(), Fail> {
    let alloc = rt.alloc();
    for row in &ROWS {
        let whole = outcome_of(alloc, row, JOURNAL, &[], Failing::Nothing)?;
        assert!(rt; whole.calls >= 3, "{}", row.word);
        for call in 0..whole.calls {
            let failing = Failing::Wire(Failure { call, kept: 2 });
            let cut = outcome_of(alloc, row, JOURNAL, &[], failing)?;
            assert!(rt; is_broken_off(&cut, row, 1), "{} at {call}", row.word);
        }
    }
    Ok(())
}

// Whether the row's session is served over what a broken one left, and makes its changes.
fn is_done_then(alloc: Global, row: &Row, left: &[u8]) -> Result<bool, Memory> {
    let again = outcome_of(alloc, row, left, &[], Failing::Nothing)?;
    Ok(
        again.status == 0
            && again.given.as_slice() == row.gives
            && again.journal.as_slice().starts_with(JOURNAL)
            && again.journal.as_slice().ends_with(row.last),
    )
}

#[test]
fn each_failing_call_of_the_keeper_breaks_it_off(rt: HostRuntime) -> Result<(), Fail> {
    let alloc = rt.alloc();
    for row in &ROWS {
        for call in 0..row.keeper_calls {
            let failing = Failing::Keeper(Failure { call, kept: 3 });
            let cut = outcome_of(alloc, row, JOURNAL, &[], failing)?;
            assert!(rt; is_broken_off(&cut, row, 2), "{} at {call}", row.word);
            assert!(rt;
                cut.given.is_empty() == (call < OPENING_CALLS),
                "{} at {call}",
                row.word
            );
            let done = is_done_then(alloc, row, cut.journal.as_slice())?;
            assert!(rt; done, "{} after {call}", row.word);
        }
        let failing = Failing::Keeper(Failure {
            call: row.keeper_calls,
            kept: 3,
        });
        let whole = outcome_of(alloc, row, JOURNAL, &[], failing)?;
        assert!(rt; is_done(&whole, row), "{}", row.word);
    }
    Ok(())
}
