//! Journals opened, and what is read from them.
use crate::test_mail_store::{Row, Trial as StoreTrial};
use mail_store::{OpenFault, Store};
use mail_wire::{MemKeeper, Memory};
use std::alloc::Global;
use std::test::Fail;
use test_mail::{Case, NEVER, all_hold, failing, joined, keeper_of_parts};

const FIRST: [u8; 8] = *b"MAILJNL2";

const DOMAIN: [u8; 20] = *b"\0\0\0\x10\x02\0\0\0\x0bexample.org";

const ACCOUNT: [u8; 30] = *b"\0\0\0\x1a\x01\0\0\0\x0fann@example.org\0\0\0\x02pw";

const MESSAGE: [u8; 70] =
    *b"\0\0\0B\x09\0\0\0\0\0\x03\0\0\0\x1a01-Jan-1970 00:00:00 +0000\0\0\0\x19Subject: caf\xc3\xa9 bar\r\n\r\nx\r\n";

// The same without its mark.
const PLAIN: [u8; 69] =
    *b"\0\0\0A\x04\0\0\0\0\0\0\0\0\x1a01-Jan-1970 00:00:00 +0000\0\0\0\x19Subject: caf\xc3\xa9 bar\r\n\r\nx\r\n";

// What stands before its mark, and after that.
const BEFORE_MARK: [u8; 10] = *b"\0\0\0B\x09\0\0\0\0\0";

const AFTER_MARK: [u8; 59] =
    *b"\0\0\0\x1a01-Jan-1970 00:00:00 +0000\0\0\0\x19Subject: caf\xc3\xa9 bar\r\n\r\nx\r\n";

// A queue without its mark, and what stands before and after its mark.
const PLAIN_QUEUE: [u8; 47] =
    *b"\0\0\0+\x07\0\0\0\0\0\0\0\x01\0\0\0\x07c@z.org\0\0\0\x13Subject: \xc3\xa9\r\n\r\n.x\r\n";

const BEFORE_QUEUE_MARK: [u8; 24] = *b"\0\0\0,\x0a\0\0\0\0\0\0\0\x01\0\0\0\x07c@z.org";

const AFTER_QUEUE_MARK: [u8; 23] = *b"\0\0\0\x13Subject: \xc3\xa9\r\n\r\n.x\r\n";

const VERSION: [u8; 5] = *b"\0\0\0\x01\x0b";

const OLD: [u8; 8] = *b"MAILJNL1";

// One whose first line is no field.
const NO_MESSAGE: [u8; 48] =
    *b"\0\0\0,\x09\0\0\0\0\0\0\0\0\0\x1a01-Jan-1970 00:00:00 +0000\0\0\0\x03x\r\n";

const SUBJECT: [u8; 25] = *b"Subject: caf\xc3\xa9 bar\r\n\r\nx\r\n";

const DATE: [u8; 26] = *b"01-Jan-1970 00:00:00 +0000";

// Whether each name and password lets its account in, and no other does.
fn lets_in(store: &Store) -> bool {
    store.login(b"ann@example.org", b"pw") == Ok(Some(0))
        && store.login(b"Ann@Example.org", b"pw") == Ok(Some(0))
        && store.login(b"ann@example.org", b"px") == Ok(None)
        && store.login(b"bob@example.org", b"pw") == Ok(None)
}

// Whether the first account has the message alone.
fn has_message(store: &Store) -> bool {
    if store.account_count() == 0 {
        return false;
    }
    let folder = store.inbox(0);
    let Ok(listing) = store.list(folder) else {
        return false;
    };
    if listing.len() != 1 {
        return false;
    }
    let one = listing[0];
    one.uid == 1
        && one.flags == 0
        && store.uid_next(folder) == 2
        && store.octets(one.id) == SUBJECT.as_slice()
        && store.date(one.id) == DATE.as_slice()
        && store.mark(one.id) == 3
}

// Whether the store has this name, and so many accounts and messages.
fn has(store: &Store, name: &str, accounts: usize, messages: usize) -> bool {
    store.name() == name
        && store.account_count() == accounts
        && store.message_count() == messages
        && store.message_max() == 1000
        && !store.failed()
}

/// What is there once a store was opened, and how many octets its keeper has then.
#[derive(Clone, Copy)]
pub enum Held {
    Nothing,
    Domain,
    Mailbox,
}

/// Whether it is.
pub fn holds(store: &Store, keeper: &MemKeeper, held: Held) -> bool {
    match held {
        Held::Nothing => {
            has(store, "localhost", 0, 0)
                && keeper.octets().len() == 8
                && keeper.octets().starts_with(&FIRST)
        }
        Held::Domain => {
            has(store, "example.org", 0, 0)
                && keeper.octets().len() == 28
                && keeper.octets().starts_with(&FIRST)
        }
        Held::Mailbox => has(store, "example.org", 1, 1) && lets_in(store) && has_message(store),
    }
}

// An account whose record was broken off.
const CUT: [u8; 29] = *b"\0\0\0\x1a\x01\0\0\0\x0fann@example.org\0\0\0\x02p";

const ROWS: [(&str, &[Row]); 4] = [
    (
        "a mailbox is there again",
        &[
            Row {
                parts: &[&FIRST, &DOMAIN, &ACCOUNT, &MESSAGE],
                call: NEVER,
                trial: StoreTrial::Read(Held::Mailbox),
            },
            Row {
                parts: &[&OLD, &DOMAIN, &ACCOUNT, &PLAIN],
                call: NEVER,
                trial: StoreTrial::Read(Held::Mailbox),
            },
            Row {
                parts: &[&OLD, &DOMAIN, &ACCOUNT, &VERSION, &MESSAGE],
                call: NEVER,
                trial: StoreTrial::Read(Held::Mailbox),
            },
        ],
    ),
    (
        "an empty keeper gets a journal",
        &[Row {
            parts: &[b""],
            call: NEVER,
            trial: StoreTrial::Read(Held::Nothing),
        }],
    ),
    (
        "so does one with a prefix of one",
        &[Row {
            parts: &[b"MAI"],
            call: NEVER,
            trial: StoreTrial::Read(Held::Nothing),
        }],
    ),
    (
        "a cut record is cut off",
        &[Row {
            parts: &[&FIRST, &DOMAIN, &CUT],
            call: NEVER,
            trial: StoreTrial::Read(Held::Domain),
        }],
    ),
];

#[test]
fn journals_are_read(rt: HostRuntime) -> Result<(), Fail> {
    all_hold(rt.alloc(), &ROWS)
}

// The parts of a keeper's octets, the call of it that fails, and the fault for which its store isn't opened, if there is one. A bad journal
// stays.
struct Refused {
    parts: &'static [&'static [u8]],
    call: u64,
    fault: Option<OpenFault>,
}

impl Case for Refused {
    fn holds(&self, alloc: Global) -> Result<bool, Memory> {
        let mut keeper = keeper_of_parts(alloc, self.parts, failing(self.call))?;
        let had = joined(alloc, self.parts)?;
        match Store::open(alloc, &mut keeper, 1000) {
            Ok(_) => Ok(self.fault.is_none()),
            Err(OpenFault::BadJournal { at }) => Ok(
                self.fault == Some(OpenFault::BadJournal { at })
                    && keeper.octets() == had.as_slice(),
            ),
            Err(met) => Ok(self.fault == Some(met)),
        }
    }
}

// The journal of a domain, and a record that was broken off, in both versions.
const BROKEN_OFF: [&[u8]; 3] = [&FIRST, &DOMAIN, b"\0\0\0"];

const OLD_BROKEN_OFF: [&[u8]; 3] = [&OLD, &DOMAIN, b"\0\0\0"];

const REFUSED: [(&str, &[Refused]); 7] = [
    (
        "a record of another version is bad",
        &[
            Refused {
                parts: &[&FIRST, &VERSION],
                call: NEVER,
                fault: Some(OpenFault::BadJournal { at: 8 }),
            },
            Refused {
                parts: &[&OLD, &VERSION, &VERSION],
                call: NEVER,
                fault: Some(OpenFault::BadJournal { at: 13 }),
            },
            Refused {
                parts: &[&FIRST, &ACCOUNT, &PLAIN],
                call: NEVER,
                fault: Some(OpenFault::BadJournal { at: 38 }),
            },
            Refused {
                parts: &[&OLD, &ACCOUNT, &MESSAGE],
                call: NEVER,
                fault: Some(OpenFault::BadJournal { at: 38 }),
            },
            Refused {
                parts: &[&OLD, &ACCOUNT, &VERSION, &PLAIN],
                call: NEVER,
                fault: Some(OpenFault::BadJournal { at: 43 }),
            },
            Refused {
                parts: &[&FIRST, &PLAIN_QUEUE],
                call: NEVER,
                fault: Some(OpenFault::BadJournal { at: 8 }),
            },
            Refused {
                parts: &[&OLD, &BEFORE_QUEUE_MARK, b"\x03", &AFTER_QUEUE_MARK],
                call: NEVER,
                fault: Some(OpenFault::BadJournal { at: 8 }),
            },
            Refused {
                parts: &[&OLD, &VERSION, &PLAIN_QUEUE],
                call: NEVER,
                fault: Some(OpenFault::BadJournal { at: 13 }),
            },
        ],
    ),
    (
        "so is a keeper that begins otherwise",
        &[
            Refused {
                parts: &[b"MAILJNL3"],
                call: NEVER,
                fault: Some(OpenFault::BadJournal { at: 0 }),
            },
            Refused {
                parts: &[b"MAIL JNL"],
                call: NEVER,
                fault: Some(OpenFault::BadJournal { at: 0 }),
            },
            Refused {
                parts: &[b"MAILX"],
                call: NEVER,
                fault: Some(OpenFault::BadJournal { at: 0 }),
            },
            Refused {
                parts: &[b"\0"],
                call: NEVER,
                fault: Some(OpenFault::BadJournal { at: 0 }),
            },
        ],
    ),
    (
        "a mark that isn't that of the octets is bad",
        &[
            Refused {
                parts: &[&FIRST, &ACCOUNT, &BEFORE_MARK, b"\x03", &AFTER_MARK],
                call: NEVER,
                fault: None,
            },
            Refused {
                parts: &[&FIRST, &ACCOUNT, &BEFORE_MARK, b"\0", &AFTER_MARK],
                call: NEVER,
                fault: Some(OpenFault::BadJournal { at: 38 }),
            },
            Refused {
                parts: &[&FIRST, &ACCOUNT, &BEFORE_MARK, b"\x01", &AFTER_MARK],
                call: NEVER,
                fault: Some(OpenFault::BadJournal { at: 38 }),
            },
            Refused {
                parts: &[&FIRST, &ACCOUNT, &BEFORE_MARK, b"\x02", &AFTER_MARK],
                call: NEVER,
                fault: Some(OpenFault::BadJournal { at: 38 }),
            },
            Refused {
                parts: &[&FIRST, &ACCOUNT, &BEFORE_MARK, b"\x07", &AFTER_MARK],
                call: NEVER,
                fault: Some(OpenFault::BadJournal { at: 38 }),
            },
            Refused {
                parts: &[&FIRST, &BEFORE_QUEUE_MARK, b"\x03", &AFTER_QUEUE_MARK],
                call: NEVER,
                fault: None,
            },
            Refused {
                parts: &[&FIRST, &BEFORE_QUEUE_MARK, b"\x02", &AFTER_QUEUE_MARK],
                call: NEVER,
                fault: Some(OpenFault::BadJournal { at: 8 }),
            },
        ],
    ),
    (
        "octets without a tree are no message",
        &[Refused {
            parts: &[&FIRST, &ACCOUNT, &NO_MESSAGE],
            call: NEVER,
            fault: Some(OpenFault::BadJournal { at: 38 }),
        }],
    ),
    (
        "bad records are told",
        &[
            Refused {
                parts: &[&FIRST, b"\0\0\0\x01\x03"],
                call: NEVER,
                fault: Some(OpenFault::BadJournal { at: 8 }),
            },
            Refused {
                parts: &[&FIRST, b"\0\0\0\x01\x09"],
                call: NEVER,
                fault: Some(OpenFault::BadJournal { at: 8 }),
            },
            Refused {
                parts: &[&FIRST, b"\0\0\0\x06\x02\0\0\0\x01A"],
                call: NEVER,
                fault: Some(OpenFault::BadJournal { at: 8 }),
            },
            Refused {
                parts: &[&FIRST, b"\0\0\0\x07\x02\0\0\0\x01AA"],
                call: NEVER,
                fault: Some(OpenFault::BadJournal { at: 8 }),
            },
        ],
    ),
    (
        "each failing call is told",
        &[
            Refused {
                parts: &BROKEN_OFF,
                call: 0,
                fault: Some(OpenFault::Keeper),
            },
            Refused {
                parts: &BROKEN_OFF,
                call: 1,
                fault: Some(OpenFault::Keeper),
            },
            Refused {
                parts: &BROKEN_OFF,
                call: 2,
                fault: Some(OpenFault::Keeper),
            },
            Refused {
                parts: &BROKEN_OFF,
                call: 3,
                fault: Some(OpenFault::Keeper),
            },
            Refused {
                parts: &BROKEN_OFF,
                call: 4,
                fault: Some(OpenFault::Keeper),
            },
            Refused {
                parts: &OLD_BROKEN_OFF,
                call: 4,
                fault: Some(OpenFault::Keeper),
            },
            Refused {
                parts: &OLD_BROKEN_OFF,
                call: 5,
                fault: Some(OpenFault::Keeper),
            },
        ],
    ),
    (
        "there are no more calls than these",
        &[
            Refused {
                parts: &BROKEN_OFF,
                call: 5,
                fault: None,
            },
            Refused {
                parts: &OLD_BROKEN_OFF,
                call: 6,
                fault: None,
            },
        ],
    ),
];

#[test]
fn faults_of_journals_are_told(rt: HostRuntime) -> Result<(), Fail> {
    all_hold(rt.alloc(), &REFUSED)
}
