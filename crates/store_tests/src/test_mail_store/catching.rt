//! Stores that catch up with what others wrote after their records.
use crate::test_mail_store::{Row, Trial as StoreTrial};
use ace_domains::normal;
use mail_store::{OpenFault, Store, StoreFault};
use mail_wire::MemKeeper;
use std::alloc::Global;
use std::test::Fail;
use test_mail::{NEVER, all_hold, failing, keeper_of_parts};

const BEGUN: [u8; 28] = *b"MAILJNL2\0\0\0\x10\x02\0\0\0\x0bexample.org";

const ACCOUNT: [u8; 30] = *b"\0\0\0\x1a\x01\0\0\0\x0fann@example.org\0\0\0\x02pw";

const FOLDER: [u8; 18] = *b"\0\0\0\x0e\x03\0\0\0\0\0\0\0\x05caf\xc3\xa9";

const MESSAGE: [u8; 70] =
    *b"\0\0\0B\x09\0\0\0\0\0\x03\0\0\0\x1a01-Jan-1970 00:00:00 +0000\0\0\0\x19Subject: caf\xc3\xa9 bar\r\n\r\nx\r\n";

// A message that isn't there.
const BAD: [u8; 9] = *b"\0\0\0\x05\x06\0\0\0\x09";

// The same journal in version 1, and the record with which it goes on in version 2.
const OLD: [u8; 28] = *b"MAILJNL1\0\0\0\x10\x02\0\0\0\x0bexample.org";

const VERSION: [u8; 5] = *b"\0\0\0\x01\x0b";

// Whether the store has so many accounts, folders and messages.
fn has(store: &Store, accounts: usize, folders: usize, messages: usize) -> bool {
    store.account_count() == accounts
        && store.folder_count() == folders
        && store.message_count() == messages
}

// Whether catching up with these parts answers this, and leaves so many octets and the mark of a failed store where it is refused.
fn catches(
    store: &mut Store,
    alloc: Global,
    parts: &[&[u8]],
    len: usize,
    answer: Result<(), OpenFault>,
) -> bool {
    let Ok(mut keeper) = keeper_of_parts(alloc, parts, None) else {
        return false;
    };
    store.catch_up(&mut keeper) == answer
        && keeper.octets().len() == len
        && store.failed() == answer.is_err()
}

// Whether catching up with these parts answers this where a call of the keeper fails.
fn answers(
    store: &mut Store,
    alloc: Global,
    parts: &[&[u8]],
    call: u64,
    answer: Result<(), OpenFault>,
) -> bool {
    match keeper_of_parts(alloc, parts, failing(call)) {
        Ok(mut keeper) => store.catch_up(&mut keeper) == answer,
        Err(_) => false,
    }
}

const TWO: [&[u8]; 3] = [&BEGUN, &ACCOUNT, &FOLDER];

const ALL: [&[u8]; 4] = [&BEGUN, &ACCOUNT, &FOLDER, &MESSAGE];

// Whether records of others are read.
fn reads_others(store: &mut Store, alloc: Global) -> bool {
    catches(store, alloc, &TWO, 76, Ok(()))
        && has(store, 1, 2, 0)
        && catches(store, alloc, &ALL, 146, Ok(()))
        && has(store, 1, 2, 1)
        && store.find_folder(0, "caf\u{e9}") == Ok(Some(1))
}

const MAILBOX: [&[u8]; 3] = [&BEGUN, &ACCOUNT, &MESSAGE];

// Whether records of version 2 are read after those of version 1.
fn reads_after_old(store: &mut Store, alloc: Global) -> bool {
    catches(store, alloc, &[&OLD, &VERSION], 33, Ok(()))
        && catches(
            store,
            alloc,
            &[&OLD, &VERSION, &ACCOUNT, &MESSAGE],
            133,
            Ok(()),
        )
        && has(store, 1, 1, 1)
        && store.message_count() > 0
        && store.mark(0) == 3
}

// Whether nothing is read twice: the keeper's second call would fail.
fn reads_once(store: &mut Store, alloc: Global) -> bool {
    answers(store, alloc, &MAILBOX, 1, Ok(()))
        && has(store, 1, 1, 1)
        && answers(store, alloc, &MAILBOX, 1, Ok(()))
        && has(store, 1, 1, 1)
}

// Whether a record that was broken off is cut off, and so are zeros.
fn cuts_off(store: &mut Store, alloc: Global) -> bool {
    let parts = [BEGUN.as_slice(), &ACCOUNT, &MESSAGE[..69]];
    catches(store, alloc, &parts, 58, Ok(()))
        && has(store, 1, 1, 0)
        && catches(store, alloc, &[&BEGUN, &ACCOUNT, &[0; 600]], 58, Ok(()))
        && has(store, 1, 1, 0)
}

// Whether a shorter journal is bad.
fn refuses_shorter(store: &mut Store, alloc: Global) -> bool {
    let bad = |at| Err(OpenFault::BadJournal { at });
    catches(store, alloc, &[&BEGUN, &ACCOUNT[..29]], 57, bad(57))
        && catches(store, alloc, &[&BEGUN], 28, bad(28))
        && has(store, 1, 1, 0)
}

// Whether a bad record is told with its place, and another that stands there then is read.
fn tells_bad(store: &mut Store, alloc: Global) -> bool {
    let bad = Err(OpenFault::BadJournal { at: 58 });
    catches(store, alloc, &[&BEGUN, &ACCOUNT, &BAD], 67, bad)
        && catches(store, alloc, &[&BEGUN, &ACCOUNT, &VERSION], 63, bad)
        && has(store, 1, 1, 0)
        && catches(store, alloc, &MAILBOX, 128, Ok(()))
        && has(store, 1, 1, 1)
}

const BROKEN_OFF: [&[u8]; 4] = [&BEGUN, &ACCOUNT, &MESSAGE, b"\0\0"];

// Whether a store catches up once more where this call of the keeper failed.
fn goes_on_after(store: &mut Store, alloc: Global, call: u64) -> bool {
    answers(store, alloc, &BROKEN_OFF, call, Err(OpenFault::Keeper))
        && catches(store, alloc, &BROKEN_OFF, 128, Ok(()))
        && has(store, 1, 1, 1)
}

// Whether a domain's append fails, and the store catches up with what is left of it.
fn heals(store: &mut Store, keeper: &mut MemKeeper, alloc: Global) -> bool {
    let Ok(Some(_)) = normal(alloc, "y.org") else {
        return false;
    };
    if store.failed() {
        return false;
    }
    store.add_domain(keeper, "y.org") == Err(StoreFault::Keeper)
        && store.failed()
        && keeper.octets().len() == 31
        && store.catch_up(keeper).is_ok()
        && !store.failed()
        && keeper.octets() == BEGUN.as_slice()
}

/// What is tried of a store that catches up.
#[derive(Clone, Copy)]
pub enum Trial {
    ReadsOthers,
    ReadsAfterOld,
    ReadsOnce,
    CutsOff,
    RefusesShorter,
    TellsBad,
    GoesOnAfter(u64),
    Heals,
}

/// Whether the trial goes well.
pub fn goes_well(store: &mut Store, keeper: &mut MemKeeper, alloc: Global, trial: Trial) -> bool {
    match trial {
        Trial::ReadsOthers => reads_others(store, alloc),
        Trial::ReadsAfterOld => reads_after_old(store, alloc),
        Trial::ReadsOnce => reads_once(store, alloc),
        Trial::CutsOff => cuts_off(store, alloc),
        Trial::RefusesShorter => refuses_shorter(store, alloc),
        Trial::TellsBad => tells_bad(store, alloc),
        Trial::GoesOnAfter(call) => goes_on_after(store, alloc, call),
        Trial::Heals => heals(store, keeper, alloc),
    }
}

const ROWS: [(&str, &[Row]); 8] = [
    (
        "records of others are read",
        &[Row {
            parts: &[&BEGUN],
            call: NEVER,
            trial: StoreTrial::CatchUp(Trial::ReadsOthers),
        }],
    ),
    (
        "so are those of version 2 after version 1",
        &[Row {
            parts: &[&OLD],
            call: NEVER,
            trial: StoreTrial::CatchUp(Trial::ReadsAfterOld),
        }],
    ),
    (
        "nothing is read twice",
        &[Row {
            parts: &[&BEGUN, &ACCOUNT, &MESSAGE],
            call: NEVER,
            trial: StoreTrial::CatchUp(Trial::ReadsOnce),
        }],
    ),
    (
        "a record that was broken off is cut off",
        &[Row {
            parts: &[&BEGUN],
            call: NEVER,
            trial: StoreTrial::CatchUp(Trial::CutsOff),
        }],
    ),
    (
        "a shorter journal is bad",
        &[Row {
            parts: &[&BEGUN, &ACCOUNT],
            call: NEVER,
            trial: StoreTrial::CatchUp(Trial::RefusesShorter),
        }],
    ),
    (
        "a bad record is told with its place",
        &[Row {
            parts: &[&BEGUN],
            call: NEVER,
            trial: StoreTrial::CatchUp(Trial::TellsBad),
        }],
    ),
    (
        "each failing call is told",
        &[
            Row {
                parts: &[&BEGUN],
                call: NEVER,
                trial: StoreTrial::CatchUp(Trial::GoesOnAfter(0)),
            },
            Row {
                parts: &[&BEGUN],
                call: NEVER,
                trial: StoreTrial::CatchUp(Trial::GoesOnAfter(1)),
            },
            Row {
                parts: &[&BEGUN],
                call: NEVER,
                trial: StoreTrial::CatchUp(Trial::GoesOnAfter(2)),
            },
            Row {
                parts: &[&BEGUN],
                call: NEVER,
                trial: StoreTrial::CatchUp(Trial::GoesOnAfter(3)),
            },
            Row {
                parts: &[&BEGUN],
                call: NEVER,
                trial: StoreTrial::CatchUp(Trial::GoesOnAfter(4)),
            },
            Row {
                parts: &[&BEGUN],
                call: NEVER,
                trial: StoreTrial::CatchUp(Trial::GoesOnAfter(5)),
            },
        ],
    ),
    (
        "a store catches up with its own failed append",
        &[Row {
            parts: &[&BEGUN],
            call: 4,
            trial: StoreTrial::CatchUp(Trial::Heals),
        }],
    ),
];

#[test]
fn stores_catch_up(rt: HostRuntime) -> Result<(), Fail> {
    all_hold(rt.alloc(), &ROWS)
}
