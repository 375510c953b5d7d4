//! Folders made and found by their names, and flags that are set.
use crate::test_mail_store::{Row, Trial as StoreTrial};
use journal_records::may_name_folder;
use mail_store::{Store, StoreFault};
use mail_wire::MemKeeper;
use std::alloc::Global;
use std::test::Fail;
use test_mail::{NEVER, all_hold};

// A domain, and an account of it.
const BEGUN: [u8; 44] =
    *b"MAILJNL2\0\0\0\x0a\x02\0\0\0\x05x.org\0\0\0\x12\x01\0\0\0\x07a@x.org\0\0\0\x02pw";

// A folder of it, whose name has one character with an accent.
const FOLDER: [u8; 18] = *b"\0\0\0\x0e\x03\0\0\0\0\0\0\0\x05caf\xc3\xa9";

// A message in its INBOX.
const MESSAGE: [u8; 64] =
    *b"\0\0\0<\x09\0\0\0\0\0\x03\0\0\0\x1a01-Jan-1970 00:00:00 +0000\0\0\0\x13Subject: \xc3\xa9\r\n\r\n.x\r\n";

// Its flags are Seen and Draft.
const FLAGS: [u8; 10] = *b"\0\0\0\x06\x05\0\0\0\0\x11";

// The name as it is kept, and as a letter and an accent.
const KEPT: &str = "caf\u{e9}";

const GIVEN: &str = "cafe\u{301}";

// Whether making a folder answers this.
fn creates(
    store: &mut Store,
    keeper: &mut MemKeeper,
    alloc: Global,
    name: &str,
    answer: Result<u32, StoreFault>,
) -> bool {
    let Ok(true) = may_name_folder(alloc, name) else {
        return false;
    };
    if store.failed() || store.account_count() == 0 {
        return false;
    }
    store.create_folder(keeper, 0, name) == answer
}

// Whether each of these names means this folder.
fn finds(store: &Store, account: u32, names: &[&str], folder: Option<u32>) -> bool {
    for name in names {
        if store.find_folder(account, name) != Ok(folder) {
            return false;
        }
    }
    true
}

// Whether the account has these names, in this order.
fn lists(store: &Store, account: u32, names: &[&str]) -> bool {
    let Ok(listed) = store.folder_names(account) else {
        return false;
    };
    if listed.len() != names.len() {
        return false;
    }
    for (one, name) in listed.iter().zip(names.iter()) {
        if one.as_slice() != name.as_bytes() {
            return false;
        }
    }
    true
}

// Whether the folders that were made are found and listed, and no others.
fn knows_folders(store: &Store) -> bool {
    finds(store, 0, &["INBOX", "inbox", "iNbOx"], Some(0))
        && finds(store, 0, &[KEPT, GIVEN], Some(1))
        && finds(store, 0, &["cafe", "Caf\u{e9}", ""], None)
        && finds(store, 1, &["INBOX", KEPT], None)
        && lists(store, 0, &["INBOX", KEPT])
        && lists(store, 1, &[])
        && store.folder_count() > 1
        && store.folder_name(1) == KEPT.as_bytes()
}

const MADE: [(&str, Result<u32, StoreFault>); 4] = [
    (GIVEN, Ok(1)),
    (KEPT, Err(StoreFault::Exists)),
    (GIVEN, Err(StoreFault::Exists)),
    ("Inbox", Err(StoreFault::Exists)),
];

// Whether a folder is made once, in the form in which its name is kept, and INBOX never again.
fn is_made(store: &mut Store, keeper: &mut MemKeeper, alloc: Global) -> bool {
    for (name, answer) in MADE {
        if !creates(store, keeper, alloc, name, answer) {
            return false;
        }
    }
    keeper.octets().ends_with(&FOLDER) && keeper.octets().len() == BEGUN.len() + FOLDER.len()
}

// Whether a failed append is told, and the folder isn't there.
fn tells_failure(store: &mut Store, keeper: &mut MemKeeper, alloc: Global) -> bool {
    creates(store, keeper, alloc, KEPT, Err(StoreFault::Keeper))
        && store.failed()
        && finds(store, 0, &[KEPT], None)
}

// Whether setting a message's flags answers this.
fn sets(
    store: &mut Store,
    keeper: &mut MemKeeper,
    id: u32,
    answer: Result<(), StoreFault>,
) -> bool {
    if store.failed() {
        return false;
    }
    store.set_flags(keeper, id, 17) == answer
}

// Whether the INBOX has one message, with these flags.
fn has_flags(store: &Store, flags: u8) -> bool {
    if store.folder_count() == 0 {
        return false;
    }
    let Ok(listing) = store.list(0) else {
        return false;
    };
    listing.len() == 1 && listing[0].flags == flags
}

// Whether a message's flags are set, and those of none aren't.
fn sets_flags(store: &mut Store, keeper: &mut MemKeeper) -> bool {
    has_flags(store, 0)
        && sets(store, keeper, 1, Err(StoreFault::NoSuch))
        && sets(store, keeper, 0, Ok(()))
        && keeper.octets().ends_with(&FLAGS)
        && has_flags(store, 17)
}

/// What is tried of a store's folders.
#[derive(Clone, Copy)]
pub enum Trial {
    MakesFolder,
    KnowsFolders,
    KnowsFirst,
    TellsFailure,
    SetsFlags,
    HasFlags,
}

/// Whether the trial goes well.
pub fn goes_well(store: &mut Store, keeper: &mut MemKeeper, alloc: Global, trial: Trial) -> bool {
    match trial {
        Trial::MakesFolder => is_made(store, keeper, alloc) && knows_folders(store),
        Trial::KnowsFolders => knows_folders(store),
        Trial::KnowsFirst => {
            finds(store, 0, &[KEPT], Some(1)) && lists(store, 0, &["INBOX", KEPT, KEPT])
        }
        Trial::TellsFailure => tells_failure(store, keeper, alloc),
        Trial::SetsFlags => sets_flags(store, keeper),
        Trial::HasFlags => has_flags(store, 17),
    }
}

const ROWS: [(&str, &[Row]); 6] = [
    (
        "a folder is made once",
        &[Row {
            parts: &[&BEGUN],
            call: NEVER,
            trial: StoreTrial::Folder(Trial::MakesFolder),
        }],
    ),
    (
        "a written folder is there again",
        &[Row {
            parts: &[&BEGUN, &FOLDER],
            call: NEVER,
            trial: StoreTrial::Folder(Trial::KnowsFolders),
        }],
    ),
    (
        "the first folder of a name counts",
        &[Row {
            parts: &[&BEGUN, &FOLDER, &FOLDER],
            call: NEVER,
            trial: StoreTrial::Folder(Trial::KnowsFirst),
        }],
    ),
    (
        "a failed append makes no folder",
        &[Row {
            parts: &[&BEGUN],
            call: 6,
            trial: StoreTrial::Folder(Trial::TellsFailure),
        }],
    ),
    (
        "flags are set",
        &[Row {
            parts: &[&BEGUN, &MESSAGE],
            call: NEVER,
            trial: StoreTrial::Folder(Trial::SetsFlags),
        }],
    ),
    (
        "set flags are there again",
        &[Row {
            parts: &[&BEGUN, &MESSAGE, &FLAGS],
            call: NEVER,
            trial: StoreTrial::Folder(Trial::HasFlags),
        }],
    ),
];

#[test]
fn folders_and_flags_are_kept(rt: HostRuntime) -> Result<(), Fail> {
    all_hold(rt.alloc(), &ROWS)
}

#[test]
fn some_texts_are_no_names(rt: HostRuntime) {
    for name in ["", "a*", "a%b", "\u{7f}", "\u{85}"] {
        assert!(rt; may_name_folder(rt.alloc(), name) == Ok(false));
    }
}
