//! Stores changed over a keeper, and opened again.
ghost use Rattle.std.specs.Prelude.{◌<◌, ◌≤◌, IfOk, IfSome, IsTrue, length};
ghost use Rattle.std.specs.List.{All};
ghost use Rattle.journal_records.specs.Addresses.{IsSendable};
ghost use Rattle.journal_records.specs.Grammar.{IsDate};
ghost use Rattle.journal_records.specs.Stored.{HasMark};
ghost use Rattle.kept_mail.specs.declared.limits.TheConstants.{RECIPIENTS_MAX};

use crate::test_journal_records::address_of;
use crate::test_mail_store::{Row, Trial as StoreTrial};
use ace_domains::normal;
use journal_records::{is_date, mark_of};
use kept_mail::{Addresses, Delivery, Numbers};
use mail_store::{Store, StoreFault};
use mail_wire::{MemKeeper, Octets};
use std::alloc::Global;
use std::test::Fail;
use test_mail::{NEVER, all_hold, keeper_of};

pub const SUBJECT: [u8; 19] = *b"Subject: \xc3\xa9\r\n\r\n.x\r\n";

const DATE: [u8; 26] = *b"01-Jan-1970 00:00:00 +0000";

// A domain, and an account of it.
const BEGUN: [u8; 44] =
    *b"MAILJNL2\0\0\0\x0a\x02\0\0\0\x05x.org\0\0\0\x12\x01\0\0\0\x07a@x.org\0\0\0\x02pw";

// Whether adding a domain answers this.
fn adds_domain(
    store: &mut Store,
    keeper: &mut MemKeeper,
    alloc: Global,
    domain: &str,
    answer: Result<(), StoreFault>,
) -> bool {
    let Ok(Some(_)) = normal(alloc, domain) else {
        return false;
    };
    if store.failed() {
        return false;
    }
    store.add_domain(keeper, domain) == answer
}

// Whether adding an account answers this.
fn adds_account(
    store: &mut Store,
    keeper: &mut MemKeeper,
    alloc: Global,
    text: &str,
    answer: Result<u32, StoreFault>,
) -> bool {
    let Some(address) = address_of(alloc, text.as_bytes()) else {
        return false;
    };
    if store.failed() {
        return false;
    }
    store.add_account(keeper, &address, b"pw") == answer
}

// Octets that have a tree, and their mark.
fn message(alloc: Global) -> Option<(Octets, u8)>
    ensures { IfSome result (λ made. HasMark made.0 made.1) }
{
    let octets = Octets::from_slice(alloc, &SUBJECT).ok()?;
    match mark_of(alloc, octets.as_slice()) {
        Ok(Some(mark)) => Some((octets, mark)),
        _ => None,
    }
}

fn date(alloc: Global) -> Option<Octets>
    ensures { IfSome result IsDate }
{
    let date = Octets::from_slice(alloc, &DATE).ok()?;
    if is_date(date.as_slice()) {
        Some(date)
    } else {
        None
    }
}

// Whether there are all of these accounts.
fn are_known(accounts: &[u32], count: usize) -> bool
    ensures { IsTrue result → All (λ account. account < count) accounts.now }
{
    accounts.iter().all(|account| (*account as usize) < count)
}

fn numbers_of(alloc: Global, accounts: &[u32]) -> Option<Numbers> {
    let mut numbers = Numbers::new(alloc);
    for account in accounts {
        numbers.push(*account).ok()?;
    }
    Some(numbers)
}

// The one recipient elsewhere.
fn elsewhere(alloc: Global) -> Option<Addresses>
    ensures addresses { IfSome result (All IsSendable) }
    ensures few { IfSome result (λ remote. length remote ≤ RECIPIENTS_MAX) }
{
    let mut remote = Addresses::new(alloc);
    remote.push(address_of(alloc, b"c@z.org")?).ok()?;
    Some(remote)
}

// A message that comes from `b@y.org` and is for these accounts and for `c@z.org`.
fn delivery(alloc: Global, accounts: &[u32]) -> Option<Delivery>
    ensures path { IfSome result (λ made. IfSome made.path IsSendable) }
    ensures local_marked { IfSome result (λ made. HasMark made.local_octets made.local_mark) }
    ensures addresses { IfSome result (λ made. All IsSendable made.remote) }
    ensures few { IfSome result (λ made. length made.remote ≤ RECIPIENTS_MAX) }
    ensures remote_marked { IfSome result (λ made. HasMark made.remote_octets made.remote_mark) }
    ensures dated { IfSome result (λ made. IsDate made.date) }
{
    let (local_octets, local_mark) = message(alloc)?;
    let (remote_octets, remote_mark) = message(alloc)?;
    Some(Delivery {
        path: Some(address_of(alloc, b"b@y.org")?),
        local: numbers_of(alloc, accounts)?,
        local_octets,
        local_mark,
        remote: elsewhere(alloc)?,
        remote_octets,
        remote_mark,
        date: date(alloc)?,
    })
}

// Whether the message is delivered, unless it can't be tried.
pub fn is_delivered(
    store: &mut Store,
    keeper: &mut MemKeeper,
    alloc: Global,
    accounts: &[u32],
) -> Option<bool> {
    let delivery = delivery(alloc, accounts)?;
    if store.failed() || !are_known(delivery.local.as_slice(), store.account_count()) {
        return None;
    }
    Some(store.deliver(keeper, &delivery).is_ok())
}

// Whether expunging a message answers this.
fn expunges(
    store: &mut Store,
    keeper: &mut MemKeeper,
    id: u32,
    answer: Result<(), StoreFault>,
) -> bool {
    if store.failed() {
        return false;
    }
    store.expunge(keeper, &[id]) == answer
}

// Whether an account has the message alone, and under this UID.
fn has_only(store: &Store, account: u32, uid: u32) -> bool {
    if account as usize >= store.account_count() {
        return false;
    }
    let folder = store.inbox(account);
    let Ok(listing) = store.list(folder) else {
        return false;
    };
    if listing.len() != 1 {
        return false;
    }
    let one = listing[0];
    let follows = store.uid_next(folder).checked_sub(uid) == Some(1);
    one.uid == uid && follows && store.octets(one.id) == SUBJECT.as_slice()
}

// Whether the address names the mailbox of an account of this number, or of none.
fn finds(store: &Store, alloc: Global, text: &str, account: Option<u32>) -> bool {
    match address_of(alloc, text.as_bytes()) {
        Some(address) => store.find_account(&address) == Ok(account),
        None => false,
    }
}

// Whether the store has the domain and the account that were begun with, and no others.
fn has_begun(store: &Store, alloc: Global) -> bool {
    store.account_count() == 1
        && store.folder_count() == 1
        && store.name() == "x.org"
        && store.is_local("x.ORG") == Ok(true)
        && store.is_local("y.org") == Ok(false)
        && knows_mailbox(store, alloc)
}

// Whether the mailbox that was begun with is found, and no other is.
fn knows_mailbox(store: &Store, alloc: Global) -> bool {
    finds(store, alloc, "A@x.org", Some(0))
        && finds(store, alloc, "b@x.org", None)
        && store.login(b"A@x.org", b"pw") == Ok(Some(0))
}

const DOMAINS: [(&str, Result<(), StoreFault>); 2] = [
    ("x.org", Ok(())),
    ("X.ORG", Err(StoreFault::Exists)),
];

const ACCOUNTS: [(&str, Result<u32, StoreFault>); 2] = [
    ("a@x.org", Ok(0)),
    ("A@X.org", Err(StoreFault::Exists)),
];

// Whether a domain and its account are added, each once.
fn is_begun(store: &mut Store, keeper: &mut MemKeeper, alloc: Global) -> bool {
    if !adds_account(store, keeper, alloc, "a@x.org", Err(StoreFault::NoSuch)) {
        return false;
    }
    for (domain, answer) in DOMAINS {
        if !adds_domain(store, keeper, alloc, domain, answer) {
            return false;
        }
    }
    for (text, answer) in ACCOUNTS {
        if !adds_account(store, keeper, alloc, text, answer) {
            return false;
        }
    }
    true
}

// Whether a domain and its account are written, and known.
fn begins(store: &mut Store, keeper: &mut MemKeeper, alloc: Global) -> bool {
    is_begun(store, keeper, alloc) && keeper.octets() == BEGUN.as_slice() && has_begun(store, alloc)
}

// The records of a message for the first two accounts and for the recipient elsewhere.
const DELIVERED: [u8; 183] =
    *b"\0\0\0<\x09\0\0\0\0\0\x03\0\0\0\x1a01-Jan-1970 00:00:00 +0000\0\0\0\x13Subject: \xc3\xa9\r\n\r\n.x\r\n\0\0\0<\x09\0\0\0\x01\0\x03\0\0\0\x1a01-Jan-1970 00:00:00 +0000\0\0\0\x13Subject: \xc3\xa9\r\n\r\n.x\r\n\0\0\03\x0a\0\0\0\x07b@y.org\0\0\0\x01\0\0\0\x07c@z.org\x03\0\0\0\x13Subject: \xc3\xa9\r\n\r\n.x\r\n";

// Whether the message is delivered to two accounts, and only its records are written.
fn is_written_for_two(store: &mut Store, keeper: &mut MemKeeper, alloc: Global) -> bool {
    if !adds_account(store, keeper, alloc, "b@x.org", Ok(1)) {
        return false;
    }
    let had = keeper.octets().len();
    is_delivered(store, keeper, alloc, &[0, 1]) == Some(true)
        && keeper.octets().len().checked_sub(had) == Some(DELIVERED.len())
        && keeper.octets().ends_with(&DELIVERED)
}

// Whether the first two accounts have the message alone.
fn two_have_it(store: &Store) -> bool {
    has_only(store, 0, 1) && has_only(store, 1, 1)
}

// Whether a message is delivered to two accounts, and the keeper's failing call after it is told.
fn delivers(store: &mut Store, keeper: &mut MemKeeper, alloc: Global) -> bool {
    is_written_for_two(store, keeper, alloc)
        && two_have_it(store)
        && is_again(alloc, keeper.octets(), Again::TwoHaveIt)
        && adds_domain(store, keeper, alloc, "y.org", Err(StoreFault::Keeper))
}

// Whether the second of two messages is left once the first was expunged, which goes once.
fn second_is_left(store: &mut Store, keeper: &mut MemKeeper, alloc: Global) -> bool {
    is_delivered(store, keeper, alloc, &[0]) == Some(true)
        && is_delivered(store, keeper, alloc, &[0]) == Some(true)
        && !has_only(store, 0, 2)
        && expunges(store, keeper, 0, Ok(()))
        && expunges(store, keeper, 0, Err(StoreFault::NoSuch))
        && has_only(store, 0, 2)
}

// Whether the second message is left, and is there again.
fn leaves_second(store: &mut Store, keeper: &mut MemKeeper, alloc: Global) -> bool {
    second_is_left(store, keeper, alloc) && is_again(alloc, keeper.octets(), Again::SecondIsLeft)
}

// Whether a failed append is told, and leaves what was begun.
fn tells_failure(store: &mut Store, keeper: &mut MemKeeper, alloc: Global) -> bool {
    adds_domain(store, keeper, alloc, "y.org", Err(StoreFault::Keeper))
        && keeper.octets().len() == BEGUN.len() + 3
        && store.failed()
        && has_begun(store, alloc)
        && is_again(alloc, keeper.octets(), Again::Begun)
}

// What is there again.
#[derive(Clone, Copy)]
enum Again {
    Begun,
    TwoHaveIt,
    SecondIsLeft,
}

// Whether this holds of the store of these octets.
fn is_again(alloc: Global, octets: &[u8], again: Again) -> bool {
    let Ok(mut keeper) = keeper_of(alloc, octets, None) else {
        return false;
    };
    let Ok(store) = Store::open(alloc, &mut keeper, 1000) else {
        return false;
    };
    match again {
        Again::Begun => has_begun(&store, alloc),
        Again::TwoHaveIt => two_have_it(&store),
        Again::SecondIsLeft => has_only(&store, 0, 2),
    }
}

/// What is tried of a store that changes.
#[derive(Clone, Copy)]
pub enum Trial {
    Begins,
    HasBegun,
    Delivers,
    LeavesSecond,
    TellsFailure,
}

/// Whether the trial goes well.
pub fn goes_well(store: &mut Store, keeper: &mut MemKeeper, alloc: Global, trial: Trial) -> bool {
    match trial {
        Trial::Begins => begins(store, keeper, alloc),
        Trial::HasBegun => has_begun(store, alloc),
        Trial::Delivers => delivers(store, keeper, alloc),
        Trial::LeavesSecond => leaves_second(store, keeper, alloc),
        Trial::TellsFailure => tells_failure(store, keeper, alloc),
    }
}

const ROWS: [(&str, &[Row]); 5] = [
    (
        "a domain and an account are written",
        &[Row {
            parts: &[b""],
            call: NEVER,
            trial: StoreTrial::Change(Trial::Begins),
        }],
    ),
    (
        "a written account is there again",
        &[Row {
            parts: &[&BEGUN],
            call: NEVER,
            trial: StoreTrial::Change(Trial::HasBegun),
        }],
    ),
    (
        "a message is delivered to each",
        &[Row {
            parts: &[&BEGUN],
            call: 8,
            trial: StoreTrial::Change(Trial::Delivers),
        }],
    ),
    (
        "an expunged message is gone",
        &[Row {
            parts: &[&BEGUN],
            call: NEVER,
            trial: StoreTrial::Change(Trial::LeavesSecond),
        }],
    ),
    (
        "a failed append is told",
        &[Row {
            parts: &[&BEGUN],
            call: 6,
            trial: StoreTrial::Change(Trial::TellsFailure),
        }],
    ),
];

#[test]
fn stores_change_with_their_journals(rt: HostRuntime) -> Result<(), Fail> {
    all_hold(rt.alloc(), &ROWS)
}
