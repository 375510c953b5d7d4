//! Messages put last in a folder.
use crate::test_mail_store::{Row, Trial as StoreTrial};
use journal_records::{is_date, mark_of};
use kept_mail::Listed;
use mail_store::{Attributes, Store, StoreFault};
use mail_wire::{MemKeeper, Memory, Octets};
use std::alloc::Global;
use std::test::Fail;
use test_mail::{NEVER, all_hold, keeper_of};

// A domain, an account of it, and a second folder of this.
const BEGUN: [u8; 62] =
    *b"MAILJNL2\0\0\0\x0a\x02\0\0\0\x05x.org\0\0\0\x12\x01\0\0\0\x07a@x.org\0\0\0\x02pw\0\0\0\x0e\x03\0\0\0\0\0\0\0\x05caf\xc3\xa9";

const SUBJECT: [u8; 19] = *b"Subject: \xc3\xa9\r\n\r\n.x\r\n";

const DATE: [u8; 26] = *b" 1-Jan-1970 00:00:00 +0000";

// The record of the message in the second folder, which is Seen and a Draft.
const APPENDED: [u8; 64] =
    *b"\0\0\0<\x09\0\0\0\x01\x11\x03\0\0\0\x1a 1-Jan-1970 00:00:00 +0000\0\0\0\x13Subject: \xc3\xa9\r\n\r\n.x\r\n";

// What is put last in a folder.
#[derive(Clone, Copy)]
struct Given<'a> {
    folder: u32,
    flags: u8,
    octets: &'a [u8],
}

// Whether putting it last answers this.
fn appends(
    store: &mut Store,
    keeper: &mut MemKeeper,
    alloc: Global,
    given: Given,
    answer: Result<u32, StoreFault>,
) -> bool {
    let Ok(Some(mark)) = mark_of(alloc, given.octets) else {
        return false;
    };
    if store.failed() || given.folder as usize >= store.folder_count() || given.flags >= 32 {
        return false;
    }
    if !is_date(&DATE) {
        return false;
    }
    let attributes = Attributes {
        flags: given.flags,
        mark,
    };
    store.append(keeper, given.folder, attributes, &DATE, given.octets) == answer
}

// Whether a folder has these messages.
fn lists(store: &Store, folder: u32, wanted: &[Listed]) -> bool {
    if folder as usize >= store.folder_count() {
        return false;
    }
    let Ok(listing) = store.list(folder) else {
        return false;
    };
    if listing.len() != wanted.len() {
        return false;
    }
    for (one, other) in listing.iter().zip(wanted.iter()) {
        if one != other {
            return false;
        }
    }
    true
}

// The messages that were put last in the second folder and in INBOX.
const SECOND: [Listed; 2] = [
    Listed {
        id: 0,
        uid: 1,
        flags: 17,
    },
    Listed {
        id: 2,
        uid: 2,
        flags: 0,
    },
];

const INBOX: [Listed; 1] = [Listed {
    id: 1,
    uid: 1,
    flags: 31,
}];

// Whether they are listed, each with its flags, and the first has the octets and the date that were given.
fn are_listed(store: &Store) -> bool {
    lists(store, 1, &SECOND)
        && lists(store, 0, &INBOX)
        && store.message_count() > 0
        && store.octets(0) == SUBJECT.as_slice()
        && store.mark(0) == 3
        && store.date(0) == DATE.as_slice()
}

// Whether they are in a store of these octets, too.
fn are_there_again(alloc: Global, octets: &[u8]) -> bool {
    let Ok(mut keeper) = keeper_of(alloc, octets, None) else {
        return false;
    };
    match Store::open(alloc, &mut keeper, 1000) {
        Ok(store) => are_listed(&store),
        Err(_) => false,
    }
}

// The message, for a folder and with flags.
fn subject_for(folder: u32, flags: u8) -> Given<'static> {
    Given {
        folder,
        flags,
        octets: &SUBJECT,
    }
}

// Whether one message is written in the second folder, and its octets alone.
fn is_written(store: &mut Store, keeper: &mut MemKeeper, alloc: Global) -> bool {
    appends(store, keeper, alloc, subject_for(1, 17), Ok(1))
        && keeper.octets().len().checked_sub(BEGUN.len()) == Some(APPENDED.len())
        && keeper.octets().ends_with(&APPENDED)
}

// Whether messages are put last in two folders, and are there again.
fn are_appended(store: &mut Store, keeper: &mut MemKeeper, alloc: Global) -> bool {
    is_written(store, keeper, alloc)
        && appends(store, keeper, alloc, subject_for(0, 31), Ok(1))
        && appends(store, keeper, alloc, subject_for(1, 0), Ok(2))
        && are_listed(store)
        && are_there_again(alloc, keeper.octets())
}

// A message of a thousand octets, and more.
fn large(alloc: Global, more: &[u8]) -> Result<Octets, Memory> {
    let mut octets = Octets::from_slice(alloc, b"A: b\r\n\r\n")?;
    for _ in 0..62 {
        octets.push_slice(b"line, no more.\r\n")?;
    }
    octets.push_slice(more)?;
    Ok(octets)
}

// Whether putting such a message last in INBOX answers this.
fn takes_large(
    store: &mut Store,
    keeper: &mut MemKeeper,
    alloc: Global,
    more: &[u8],
    answer: Result<u32, StoreFault>,
) -> bool {
    let Ok(octets) = large(alloc, more) else {
        return false;
    };
    let given = Given {
        folder: 0,
        flags: 0,
        octets: octets.as_slice(),
    };
    appends(store, keeper, alloc, given, answer)
}

// Whether the largest message is taken and one of an octet more isn't, for which nothing is written.
fn is_limited(store: &mut Store, keeper: &mut MemKeeper, alloc: Global) -> bool {
    takes_large(store, keeper, alloc, b"x", Err(StoreFault::TooLarge))
        && takes_large(store, keeper, alloc, b"", Ok(1))
        && keeper.octets().len() == BEGUN.len() + 45 + 1000
        && store.message_count() == 1
}

// Whether a failed append is told, and the message isn't there.
fn tells_failure(store: &mut Store, keeper: &mut MemKeeper, alloc: Global) -> bool {
    appends(
        store,
        keeper,
        alloc,
        subject_for(0, 0),
        Err(StoreFault::Keeper),
    ) && keeper.octets().len() == BEGUN.len() + 3
        && store.failed()
        && lists(store, 0, &[])
}

/// What is tried of messages that are put last.
#[derive(Clone, Copy)]
pub enum Trial {
    AreAppended,
    IsLimited,
    TellsFailure,
}

/// Whether the trial goes well.
pub fn goes_well(store: &mut Store, keeper: &mut MemKeeper, alloc: Global, trial: Trial) -> bool {
    match trial {
        Trial::AreAppended => are_appended(store, keeper, alloc),
        Trial::IsLimited => is_limited(store, keeper, alloc),
        Trial::TellsFailure => tells_failure(store, keeper, alloc),
    }
}

const ROWS: [(&str, &[Row]); 3] = [
    (
        "messages are put last",
        &[Row {
            parts: &[&BEGUN],
            call: NEVER,
            trial: StoreTrial::Append(Trial::AreAppended),
        }],
    ),
    (
        "a message may have so many octets",
        &[Row {
            parts: &[&BEGUN],
            call: NEVER,
            trial: StoreTrial::Append(Trial::IsLimited),
        }],
    ),
    (
        "a failed append puts no message",
        &[Row {
            parts: &[&BEGUN],
            call: 8,
            trial: StoreTrial::Append(Trial::TellsFailure),
        }],
    ),
];

#[test]
fn messages_are_appended(rt: HostRuntime) -> Result<(), Fail> {
    all_hold(rt.alloc(), &ROWS)
}
