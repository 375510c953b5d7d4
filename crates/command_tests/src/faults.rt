//! Commands that a fault breaks off: what was given, and what the journal has when it is opened again.
use crate::commands::{Command, Failing, Outcome, outcome_of_words, run_command};
use mail_wire::{Failure, Memory};
use std::alloc::Global;
use std::test::Fail;
use test_mail::{BEGUN, CAFE, JOURNAL, joined, journal_of};

// The first octets, or all where there are fewer.
fn first(octets: &[u8], count: usize) -> &[u8] {
    octets.get(..count).unwrap_or(octets)
}

// Words and input, in pieces of these sizes, the call of the wire that fails, with so many octets given, and what was given then.
type WireFault = (
    &'static [&'static str],
    &'static [u8],
    &'static [usize],
    u64,
    usize,
    &'static [u8],
);

const WIRE_FAULTS: [WireFault; 7] = [
    (&["pop"], b"", &[], 0, 0, b""),
    (&["pop"], b"", &[], 0, 8, b"+OK read"),
    // The greeting, a take, and two replies go before.
    (
        &["pop"],
        b"USER ann@example.org\r\nPASS pw\r\nSTAT\r\nQUIT\r\n",
        &[31],
        4,
        0,
        b"+OK ready\r\n+OK\r\n+OK\r\n",
    ),
    (&["gen", "1"], b"", &[], 0, 9, b"messages "),
    (&["relay", "x"], b"", &[], 0, 4, b"sent"),
    // A part of the password is taken before.
    (
        &["account", "bob@example.org"],
        b"secret\r\n",
        &[3],
        1,
        0,
        b"",
    ),
    // The line is taken, and is no password.
    (&["account", "bob@example.org"], b"\n", &[], 1, 5, b"words"),
];

#[test]
fn what_goes_before_a_failing_call_is_given(rt: HostRuntime) -> Result<(), Fail> {
    for (words, input, sizes, call, kept, gives) in WIRE_FAULTS {
        let command = Command {
            words,
            input,
            sizes,
            journal: JOURNAL,
        };
        let cut = run_command(rt.alloc(), &command, Failing::Wire(Failure { call, kept }))?;
        assert_eq!(rt; cut.status, 1, "{words:?}");
        assert!(rt; cut.given.as_slice() == gives, "{words:?}");
    }
    Ok(())
}

const CAFE_SURROGATE: &[u8] = b"Subject:\r\n =?UTF-8?B?Y2Fmw6k=?=\r\n bar\r\n\r\nx\r\n";

// How many octets of it are its field.
const FIELD: usize = 39;

// The call that fails where so many octets are given. The input is taken by one call, and its end is seen by another one; the field that
// is made anew is given by the next, and what is kept after it by the last.
fn failure_after(kept: usize) -> Failure {
    if kept < FIELD {
        return Failure { call: 2, kept };
    }
    Failure {
        call: 3,
        kept: kept - FIELD,
    }
}

#[test]
fn a_surrogate_is_given_as_far_as_the_wire_goes(rt: HostRuntime) -> Result<(), Fail> {
    let command = Command {
        words: &["downgrade"],
        input: CAFE,
        sizes: &[],
        journal: b"",
    };
    for kept in 0..CAFE_SURROGATE.len() {
        let cut = run_command(rt.alloc(), &command, Failing::Wire(failure_after(kept)))?;
        assert_eq!(rt; cut.status, 1, "at {kept}");
        assert!(rt;
            cut.given.as_slice() == first(CAFE_SURROGATE, kept),
            "at {kept}"
        );
    }
    Ok(())
}

// How many calls of the keeper open this journal: the next one is the first that appends.
fn opening_calls(alloc: Global, journal: &[u8]) -> Result<u64, Memory> {
    for call in 0..100 {
        let failing = Failing::Keeper(Failure { call, kept: 0 });
        if outcome_of_words(alloc, &["pop"], journal, failing)?.status == 0 {
            return Ok(call);
        }
    }
    Ok(100)
}

// Whether what a command left of its journal opens as so many octets of the whole.
fn opens_with(alloc: Global, cut: &Outcome, whole: &[u8], len: usize) -> Result<bool, Memory> {
    let again = outcome_of_words(alloc, &["pop"], cut.journal.as_slice(), Failing::Nothing)?;
    Ok(again.status == 0 && again.journal.as_slice() == first(whole, len))
}

// A message to the account, and to somebody elsewhere.
const TO_TWO: &[u8] =
    b"HELO a\r\nMAIL FROM:<>\r\nRCPT TO:<ann@example.org>\r\nRCPT TO:<x@example.com>\r\nDATA\r\n\r\n.\r\n";

fn deliver(alloc: Global, failing: Failing) -> Result<Outcome, Memory> {
    let command = Command {
        words: &["smtp"],
        input: TO_TWO,
        sizes: &[],
        journal: BEGUN,
    };
    run_command(alloc, &command, failing)
}

// How many octets the record has that begins there.
fn record_len(octets: &[u8], at: usize) -> usize {
    match octets.get(at..) {
        Some([0, 0, high, low, ..]) => usize::from(*high) * 256 + usize::from(*low) + 4,
        _ => 0,
    }
}

// Whether a session was told as much as all were, but for what comes after the data, and has so much of its records.
fn is_first_of(cut: &Outcome, all: &Outcome, kept: usize) -> bool {
    cut.status == 2
        && cut.given.as_slice().ends_with(b"354 go ahead\r\n")
        && all.given.as_slice().starts_with(cut.given.as_slice())
        && cut.journal.as_slice() == first(all.journal.as_slice(), BEGUN.len().saturating_add(kept))
}

#[test]
fn a_message_that_is_not_kept_is_not_told_stored(rt: HostRuntime) -> Result<(), Fail> {
    let alloc = rt.alloc();
    let all = deliver(alloc, Failing::Nothing)?;
    assert!(rt;
        all.status == 0
            && all
                .given
                .as_slice()
                .ends_with(b"354 go ahead\r\n250 2.0.0 stored\r\n")
    );
    let whole = all.journal.as_slice();
    // The first record is the message of the account, and the second one that of the queue.
    let message = record_len(whole, BEGUN.len());
    let both = whole.len().saturating_sub(BEGUN.len());
    assert!(rt; 60 < message && message.saturating_add(9) < both);
    let call = opening_calls(alloc, BEGUN)?;
    for (kept, records) in [
        (0, 0),
        (60, 0),
        (message.saturating_sub(1), 0),
        (message, message),
        (message.saturating_add(9), message),
        (both.saturating_sub(1), message),
        (both, both),
    ] {
        let cut = deliver(alloc, Failing::Keeper(Failure { call, kept }))?;
        assert!(rt; is_first_of(&cut, &all, kept), "at {kept}");
        let opens = opens_with(alloc, &cut, whole, BEGUN.len().saturating_add(records))?;
        assert!(rt; opens, "at {kept}");
    }
    Ok(())
}

// Commands of IMAP that make one change each, and its record. The message is marked as deleted before.
const CHANGES: [(&[u8], &[u8]); 4] = [
    (
        b"b STORE 1 +FLAGS (\\Draft)\r\nc NOOP\r\n",
        b"\0\0\0\x06\x05\0\0\0\0\x18",
    ),
    (
        b"b FETCH 1 BODY[]\r\nc NOOP\r\n",
        b"\0\0\0\x06\x05\0\0\0\0\x09",
    ),
    (b"b EXPUNGE\r\nc NOOP\r\n", b"\0\0\0\x05\x06\0\0\0\0"),
    (
        b"b CREATE x\r\nc NOOP\r\n",
        b"\0\0\0\x0a\x03\0\0\0\0\0\0\0\x01x",
    ),
];

const SELECTS: &[u8] = b"a LOGIN ann@example.org pw\r\ns SELECT INBOX\r\n";

// What comes of a session of IMAP that says this, where the keeper fails so.
fn imap(alloc: Global, journal: &[u8], said: &[u8], failing: Failing) -> Result<Outcome, Memory> {
    let input = joined(alloc, &[SELECTS, said])?;
    let command = Command {
        words: &["imap"],
        input: input.as_slice(),
        sizes: &[],
        journal,
    };
    run_command(alloc, &command, failing)
}

#[test]
fn what_is_not_written_is_not_told(rt: HostRuntime) -> Result<(), Fail> {
    let alloc = rt.alloc();
    let journal = journal_of(alloc, &[(8, CAFE)])?;
    let journal = journal.as_slice();
    let begun = imap(alloc, journal, b"", Failing::Nothing)?;
    let call = opening_calls(alloc, journal)?;
    for (said, record) in CHANGES {
        let whole = imap(alloc, journal, said, Failing::Nothing)?;
        assert!(rt; whole.status == 0 && whole.given.as_slice().ends_with(b"c OK done\r\n"));
        assert!(rt; whole.journal.as_slice().strip_prefix(journal) == Some(record));
        for kept in [0, 1, 9] {
            let cut = imap(
                alloc,
                journal,
                said,
                Failing::Keeper(Failure { call, kept }),
            )?;
            let written = cut.journal.as_slice().strip_prefix(journal);
            assert!(rt; cut.status == 2 && cut.given.as_slice() == begun.given.as_slice());
            assert!(rt; written == Some(first(record, kept)), "at {kept}");
        }
    }
    Ok(())
}

#[test]
fn an_account_that_is_not_kept_is_no_account(rt: HostRuntime) -> Result<(), Fail> {
    let alloc = rt.alloc();
    let call = opening_calls(alloc, JOURNAL)?;
    for kept in [1, 7] {
        let failing = Failing::Keeper(Failure { call, kept });
        let cut = outcome_of_words(
            alloc,
            &["account", "bob@example.org", "pw"],
            JOURNAL,
            failing,
        )?;
        let begun = cut.journal.as_slice().strip_prefix(JOURNAL);
        assert!(rt; cut.status == 2 && cut.given.is_empty(), "at {kept}");
        assert!(rt;
            begun.is_some_and(|octets| octets.len() == kept),
            "at {kept}"
        );
        let opens = opens_with(alloc, &cut, JOURNAL, JOURNAL.len())?;
        assert!(rt; opens, "at {kept}");
    }
    Ok(())
}

// The journal of the domain `x.org`.
const DOMAIN: &[u8] = b"MAILJNL2\0\0\0\x0a\x02\0\0\0\x05x.org";

#[test]
fn a_journal_opens_wherever_it_is_cut(rt: HostRuntime) -> Result<(), Fail> {
    for len in 0..DOMAIN.len() {
        let words = ["domain", "x.org"];
        let added = outcome_of_words(rt.alloc(), &words, first(DOMAIN, len), Failing::Nothing)?;
        assert!(rt; added.status == 0 && added.given.is_empty(), "at {len}");
        assert!(rt; added.journal.as_slice() == DOMAIN, "at {len}");
    }
    Ok(())
}

// The same journal in version 1, and the record by which it goes on in version 2.
const OLD: &[u8] = b"MAILJNL1\0\0\0\x0a\x02\0\0\0\x05x.org";

const UPGRADED: &[u8] = b"MAILJNL1\0\0\0\x0a\x02\0\0\0\x05x.org\0\0\0\x01\x0b";

#[test]
fn a_journal_of_version_1_goes_on_in_version_2(rt: HostRuntime) -> Result<(), Fail> {
    let alloc = rt.alloc();
    // It is opened by the calls that open one of version 2, and one that appends.
    let call = opening_calls(alloc, DOMAIN)?;
    let later = opening_calls(alloc, OLD)?;
    assert!(rt; later == call.saturating_add(1));
    // Opened again, nothing is appended.
    for journal in [OLD, UPGRADED] {
        let opened = outcome_of_words(alloc, &["pop"], journal, Failing::Nothing)?;
        assert!(rt; opened.status == 0 && opened.journal.as_slice() == UPGRADED);
    }
    for kept in 0..6 {
        let failing = Failing::Keeper(Failure { call, kept });
        let cut = outcome_of_words(alloc, &["pop"], OLD, failing)?;
        let left = first(UPGRADED, OLD.len().saturating_add(kept));
        assert!(rt;
            cut.status == 2 && cut.given.is_empty() && cut.journal.as_slice() == left,
            "at {kept}"
        );
        let opens = opens_with(alloc, &cut, UPGRADED, UPGRADED.len())?;
        assert!(rt; opens, "at {kept}");
    }
    Ok(())
}

// Records that end version 1 stand in that version alone, and messages have their fields.
const BAD: [&[u8]; 3] = [
    b"MAILJNL2\0\0\0\x01\x0b",
    b"MAILJNL2\0\0\0\x01\x09",
    b"MAILJNL1\0\0\0\x01\x09",
];

#[test]
fn sessions_open_a_cut_journal_and_no_bad_one(rt: HostRuntime) -> Result<(), Fail> {
    let alloc = rt.alloc();
    for word in ["imap", "pop", "smtp"] {
        let cut = first(JOURNAL, JOURNAL.len().saturating_sub(1));
        let opened = outcome_of_words(alloc, &[word], cut, Failing::Nothing)?;
        assert!(rt;
            opened.status == 0 && opened.journal.as_slice() == BEGUN,
            "{word}"
        );
        for journal in BAD {
            let bad = outcome_of_words(alloc, &[word], journal, Failing::Nothing)?;
            assert!(rt;
                bad.status == 5 && bad.journal.as_slice() == journal,
                "{word}"
            );
            assert!(rt;
                bad.given.as_slice() == b"bad journal at 8\r\n".as_slice(),
                "{word}"
            );
        }
    }
    Ok(())
}

// The words of `serve` are those of no command: the program reads them before it runs one.
#[test]
fn the_words_of_serve_are_no_command(rt: HostRuntime) -> Result<(), Fail> {
    let words = ["serve", "pop", "110", "1"];
    let refused = outcome_of_words(rt.alloc(), &words, JOURNAL, Failing::Nothing)?;
    assert_eq!(rt; refused.status, 4);
    assert!(rt; refused.given.as_slice() == b"words refused\r\n".as_slice());
    Ok(())
}
