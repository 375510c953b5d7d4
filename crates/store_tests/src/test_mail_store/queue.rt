//! What is told of the queue, and recipients that are taken off it.
ghost use Rattle.std.specs.Prelude.{◌<◌, length};
ghost use Rattle.std.specs.List.{All};

use crate::test_mail_store::changes::{SUBJECT, is_delivered};
use crate::test_mail_store::{Row, Trial as StoreTrial};
use address_grammar::Address;
use mail_store::{Queued, Store, StoreFault};
use mail_wire::{MemKeeper, Memory, Octets};
use std::alloc::Global;
use std::test::Fail;
use test_mail::{NEVER, all_hold, keeper_of};

// A message without a path for `c@z.org`, who is settled, and `d@z.org`; one of `b@y.org` for an address in UTF-8; and one for
// `c@z.org`, who is settled.
const QUEUE: [u8; 197] =
    *b"MAILJNL2\0\0\x007\x0a\0\0\0\0\0\0\0\x02\0\0\0\x07c@z.org\0\0\0\x07d@z.org\x03\0\0\0\x13Subject: \xc3\xa9\r\n\r\n.x\r\n\0\0\x004\x0a\0\0\0\x07b@y.org\0\0\0\x01\0\0\0\x08\xc3\xa9@z.org\x03\0\0\0\x13Subject: \xc3\xa9\r\n\r\n.x\r\n\0\0\x00,\x0a\0\0\0\0\0\0\0\x01\0\0\0\x07c@z.org\x03\0\0\0\x13Subject: \xc3\xa9\r\n\r\n.x\r\n\0\0\0\x09\x08\0\0\0\0\0\0\0\0\0\0\0\x09\x08\0\0\0\x02\0\0\0\0";

// A message for `c@z.org`, `d@z.org` and `e@z.org`, and one for `c@z.org`.
const THREE: [u8; 126] =
    *b"MAILJNL2\0\0\0B\x0a\0\0\0\0\0\0\0\x03\0\0\0\x07c@z.org\0\0\0\x07d@z.org\0\0\0\x07e@z.org\x03\0\0\0\x13Subject: \xc3\xa9\r\n\r\n.x\r\n\0\0\0,\x0a\0\0\0\0\0\0\0\x01\0\0\0\x07c@z.org\x03\0\0\0\x13Subject: \xc3\xa9\r\n\r\n.x\r\n";

const TWO_WAIT: &[u8] = b"0 <> 1 d@z.org;1 <b@y.org> 0 \xc3\xa9@z.org;";

const ONE_WAITS: &[u8] = b"1 <b@y.org> 0 \xc3\xa9@z.org;";

const SETTLED: [u8; 13] = *b"\0\0\0\x09\x08\0\0\0\0\0\0\0\x01";

fn digit(number: u32) -> u8 {
    b'0' + (number % 10) as u8
}

fn push_address(row: &mut Octets, address: &Address) -> Result<(), Memory> {
    row.push_slice(address.local.as_slice())?;
    row.push(b'@')?;
    row.push_slice(address.domain.as_slice())
}

// An entry as its number, its path in angle brackets, and the places and addresses of its recipients.
fn push_queued(row: &mut Octets, one: &Queued) -> Result<(), Memory> {
    row.push(digit(one.entry))?;
    row.push_slice(b" <")?;
    if let Some(path) = &one.path {
        push_address(row, path)?;
    }
    row.push(b'>')?;
    for recipient in one.unsettled.as_slice() {
        row.push(b' ')?;
        row.push(digit(recipient.index))?;
        row.push(b' ')?;
        push_address(row, &recipient.address)?;
    }
    row.push(b';')
}

// The entries, one after the other.
fn told_of(alloc: Global, queue: &[Queued]) -> Result<Octets, Memory> {
    let mut row = Octets::new(alloc);
    for one in queue {
        push_queued(&mut row, one)?;
    }
    Ok(row)
}

// Whether each entry has the octets of the message.
fn have_octets(store: &Store, queue: &[Queued]) -> bool
    requires { All (λ one. one.entry < length store.now.kept.entries) queue.now }
{
    for one in queue {
        if store.queue_octets(one.entry) != SUBJECT.as_slice() || store.queue_mark(one.entry) != 3 {
            return false;
        }
    }
    true
}

// Whether the queue is told so.
fn observed(store: &Store, alloc: Global, told: &[u8]) -> bool {
    let Ok(queue) = store.queue() else {
        return false;
    };
    let Ok(row) = told_of(alloc, queue.as_slice()) else {
        return false;
    };
    row.as_slice() == told && have_octets(store, queue.as_slice())
}

// Whether the store of these octets tells the queue so.
fn tells_again(alloc: Global, octets: &[u8], told: &[u8]) -> bool {
    let Ok(mut keeper) = keeper_of(alloc, octets, None) else {
        return false;
    };
    match Store::open(alloc, &mut keeper, 1000) {
        Ok(store) => observed(&store, alloc, told),
        Err(_) => false,
    }
}

// Whether taking a recipient of an entry off answers this.
fn settles(
    store: &mut Store,
    keeper: &mut MemKeeper,
    entry: u32,
    index: u32,
    answer: Result<(), StoreFault>,
) -> bool {
    if store.failed() {
        return false;
    }
    store.settle(keeper, entry, index) == answer
}

// Whether the second recipient of the first entry goes, once, and is gone in the journal too.
fn goes_once(store: &mut Store, keeper: &mut MemKeeper, alloc: Global) -> bool {
    settles(store, keeper, 7, 1, Err(StoreFault::NoSuch))
        && settles(store, keeper, 1, 1, Err(StoreFault::NoSuch))
        && settles(store, keeper, 0, 1, Ok(()))
        && settles(store, keeper, 0, 1, Err(StoreFault::NoSuch))
        && keeper.octets().len() == QUEUE.len() + 13
        && keeper.octets().ends_with(&SETTLED)
        && tells_again(alloc, keeper.octets(), ONE_WAITS)
        && observed(store, alloc, ONE_WAITS)
}

// The recipient who goes, and what is told then.
const IN_TURN: [(u32, &[u8]); 3] = [
    (1, b"0 <> 0 c@z.org 2 e@z.org;1 <> 0 c@z.org;"),
    (2, b"0 <> 0 c@z.org;1 <> 0 c@z.org;"),
    (0, b"1 <> 0 c@z.org;"),
];

// Whether the queue is told rightly whenever a recipient of three went, not in their order, and so is that of the journal.
fn go_in_turn(store: &mut Store, keeper: &mut MemKeeper, alloc: Global) -> bool {
    for (index, told) in IN_TURN {
        if !settles(store, keeper, 0, index, Ok(()))
            || !observed(store, alloc, told)
            || !tells_again(alloc, keeper.octets(), told)
        {
            return false;
        }
    }
    true
}

// Whether a recipient stays where the keeper fails.
fn stays(store: &mut Store, keeper: &mut MemKeeper, alloc: Global) -> bool {
    settles(store, keeper, 0, 1, Err(StoreFault::Keeper))
        && store.failed()
        && observed(store, alloc, TWO_WAIT)
}

const THREE_WAIT: &[u8] = b"0 <> 1 d@z.org;1 <b@y.org> 0 \xc3\xa9@z.org;3 <b@y.org> 0 c@z.org;";

// Whether a message that is delivered is told after those that wait.
fn follows(store: &mut Store, keeper: &mut MemKeeper, alloc: Global) -> bool {
    is_delivered(store, keeper, alloc, &[]) == Some(true)
        && observed(store, alloc, THREE_WAIT)
        && tells_again(alloc, keeper.octets(), THREE_WAIT)
}

// Whether a message whose delivery failed isn't in the queue.
fn is_left_out(store: &mut Store, keeper: &mut MemKeeper, alloc: Global) -> bool {
    is_delivered(store, keeper, alloc, &[]) == Some(false)
        && store.failed()
        && observed(store, alloc, TWO_WAIT)
}

/// What is tried of a store's queue.
#[derive(Clone, Copy)]
pub enum Trial {
    Tells(&'static [u8]),
    GoesOnce,
    GoInTurn,
    Stays,
    Follows,
    IsLeftOut,
}

/// Whether the trial goes well.
pub fn goes_well(store: &mut Store, keeper: &mut MemKeeper, alloc: Global, trial: Trial) -> bool {
    match trial {
        Trial::Tells(told) => observed(store, alloc, told),
        Trial::GoesOnce => goes_once(store, keeper, alloc),
        Trial::GoInTurn => go_in_turn(store, keeper, alloc),
        Trial::Stays => stays(store, keeper, alloc),
        Trial::Follows => follows(store, keeper, alloc),
        Trial::IsLeftOut => is_left_out(store, keeper, alloc),
    }
}

const ROWS: [(&str, &[Row]); 7] = [
    (
        "recipients who wait are told",
        &[Row {
            parts: &[&QUEUE],
            call: NEVER,
            trial: StoreTrial::Queue(Trial::Tells(TWO_WAIT)),
        }],
    ),
    (
        "a queue may be empty",
        &[Row {
            parts: &[b""],
            call: NEVER,
            trial: StoreTrial::Queue(Trial::Tells(b"")),
        }],
    ),
    (
        "a recipient goes once",
        &[Row {
            parts: &[&QUEUE],
            call: NEVER,
            trial: StoreTrial::Queue(Trial::GoesOnce),
        }],
    ),
    (
        "recipients go in any order",
        &[Row {
            parts: &[&THREE],
            call: NEVER,
            trial: StoreTrial::Queue(Trial::GoInTurn),
        }],
    ),
    (
        "a recipient stays where the keeper fails",
        &[Row {
            parts: &[&QUEUE],
            call: 12,
            trial: StoreTrial::Queue(Trial::Stays),
        }],
    ),
    (
        "a delivered message waits",
        &[Row {
            parts: &[&QUEUE],
            call: NEVER,
            trial: StoreTrial::Queue(Trial::Follows),
        }],
    ),
    (
        "a message that wasn't delivered doesn't wait",
        &[Row {
            parts: &[&QUEUE],
            call: 12,
            trial: StoreTrial::Queue(Trial::IsLeftOut),
        }],
    ),
];

#[test]
fn the_queue_is_told(rt: HostRuntime) -> Result<(), Fail> {
    all_hold(rt.alloc(), &ROWS)
}
