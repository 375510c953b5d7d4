//! Journals of both versions, cut at each octet and broken off in zeros, the record with which one goes on in version 2, and marks of both.
ghost use Rattle.std.specs.Prelude.{◌<◌, length};
ghost use Rattle.std.specs.List.{All};

use mail_store::{OpenFault, Queued, Store};
use mail_wire::{Failure, MemKeeper, Memory, Octets};
use std::alloc::Global;
use std::test::Fail;
use test_mail::{Case, all_hold, joined, keeper_of};

const ONE: &[u8] = b"MAILJNL1";

const TWO: &[u8] = b"MAILJNL2";

const DOMAIN: &[u8] = b"\0\0\0\x10\x02\0\0\0\x0bexample.org";

const ACCOUNT: &[u8] = b"\0\0\0\x1a\x01\0\0\0\x0fann@example.org\0\0\0\x02pw";

// A message without a mark and with one, and so a queue.
const PLAIN: &[u8] =
    b"\0\0\0A\x04\0\0\0\0\0\0\0\0\x1a01-Jan-1970 00:00:00 +0000\0\0\0\x19Subject: caf\xc3\xa9 bar\r\n\r\nx\r\n";

const MARKED: &[u8] =
    b"\0\0\0B\x09\0\0\0\0\0\x03\0\0\0\x1a01-Jan-1970 00:00:00 +0000\0\0\0\x19Subject: caf\xc3\xa9 bar\r\n\r\nx\r\n";

const PLAIN_QUEUE: &[u8] =
    b"\0\0\0+\x07\0\0\0\0\0\0\0\x01\0\0\0\x07c@z.org\0\0\0\x13Subject: \xc3\xa9\r\n\r\n.x\r\n";

const MARKED_QUEUE: &[u8] =
    b"\0\0\0,\x0a\0\0\0\0\0\0\0\x01\0\0\0\x07c@z.org\x03\0\0\0\x13Subject: \xc3\xa9\r\n\r\n.x\r\n";

const VERSION: &[u8] = b"\0\0\0\x01\x0b";

// A domain's record after these first octets, and these octets after it.
fn with_domain(alloc: Global, first: &[u8], more: &[u8]) -> Result<Octets, Memory> {
    let mut journal = Octets::from_slice(alloc, first)?;
    journal.push_slice(DOMAIN)?;
    journal.push_slice(more)?;
    Ok(journal)
}

// Whether the store's keeper has these octets, and so once more where it is opened again.
fn opens_to(alloc: Global, keeper: &mut MemKeeper, left: &[u8]) -> bool {
    for _ in 0..2 {
        if Store::open(alloc, keeper, 1000).is_err() || keeper.octets() != left {
            return false;
        }
    }
    true
}

// The first octets of a journal, and its records.
struct Cut {
    first: &'static [u8],
    records: &'static [&'static [u8]],
}

// Puts the records last that end within so many octets, and says whether version 2 began with one of them.
fn push_whole(left: &mut Octets, records: &[&[u8]], len: usize) -> Result<bool, Memory> {
    let mut began = false;
    for record in records {
        if left.len().saturating_add(record.len()) > len {
            break;
        }
        left.push_slice(record)?;
        began = began || *record == VERSION;
    }
    Ok(began)
}

// What opening leaves of so many octets of it.
fn left_of(alloc: Global, cut: &Cut, len: usize) -> Result<Octets, Memory> {
    if len < 8 {
        return Octets::from_slice(alloc, TWO);
    }
    let mut left = Octets::from_slice(alloc, cut.first)?;
    let began = push_whole(&mut left, cut.records, len)?;
    if cut.first == ONE && !began {
        left.push_slice(VERSION)?;
    }
    Ok(left)
}

impl Case for Cut {
    fn holds(&self, alloc: Global) -> Result<bool, Memory> {
        let records = joined(alloc, self.records)?;
        let whole = joined(alloc, &[self.first, records.as_slice()])?;
        for len in 0..=whole.len() {
            let left = left_of(alloc, self, len)?;
            let mut keeper = keeper_of(alloc, &whole.as_slice()[..len], None)?;
            if !opens_to(alloc, &mut keeper, left.as_slice()) {
                return Ok(false);
            }
        }
        Ok(true)
    }
}

const CUTS: [(&str, &[Cut]); 2] = [
    (
        "a journal of version 1 that is cut anywhere goes on in version 2, once",
        &[Cut {
            first: ONE,
            records: &[
                DOMAIN,
                ACCOUNT,
                PLAIN,
                PLAIN_QUEUE,
                VERSION,
                MARKED,
                MARKED_QUEUE,
            ],
        }],
    ),
    (
        "one of version 2 is left as it is, up to its last whole record",
        &[Cut {
            first: TWO,
            records: &[DOMAIN, ACCOUNT, MARKED, MARKED_QUEUE],
        }],
    ),
];

#[test]
fn journals_are_cut(rt: HostRuntime) -> Result<(), Fail> {
    all_hold(rt.alloc(), &CUTS)
}

// The call that puts the record of version 2 last fails after so many octets of it.
struct Fails(usize);

impl Case for Fails {
    fn holds(&self, alloc: Global) -> Result<bool, Memory> {
        let before = with_domain(alloc, ONE, b"")?;
        let begun = with_domain(alloc, ONE, &VERSION[..self.0.min(5)])?;
        let whole = with_domain(alloc, ONE, VERSION)?;
        let failure = Failure {
            call: 4,
            kept: self.0,
        };
        let mut keeper = keeper_of(alloc, before.as_slice(), Some(failure))?;
        match Store::open(alloc, &mut keeper, 1000) {
            Ok(_) => Ok(false),
            Err(fault) => Ok(
                fault == OpenFault::Keeper
                    && keeper.octets() == begun.as_slice()
                    && opens_to(alloc, &mut keeper, whole.as_slice()),
            ),
        }
    }
}

const FAILS: [(&str, &[Fails]); 1] = [(
    "a failed append leaves the records, and the journal opens again",
    &[Fails(0), Fails(1), Fails(2), Fails(3), Fails(4), Fails(5)],
)];

#[test]
fn failed_appends_are_made_up_for(rt: HostRuntime) -> Result<(), Fail> {
    all_hold(rt.alloc(), &FAILS)
}

// What becomes of octets after a domain's record.
#[derive(Clone, Copy, PartialEq, Eq)]
enum Becomes {
    Kept,
    Cut,
    Bad,
}

// What stands after a domain's record, which ends at 28, in a journal of either version: these octets, then so many of `x`, so many zeros, and
// these octets.
struct End(&'static [u8], usize, usize, &'static [u8], Becomes);

impl End {
    fn octets(&self, alloc: Global, first: &[u8]) -> Result<Octets, Memory> {
        let mut octets = with_domain(alloc, first, self.0)?;
        for _ in 0..self.1 {
            octets.push(b'x')?;
        }
        for _ in 0..self.2 {
            octets.push(0)?;
        }
        octets.push_slice(self.3)?;
        Ok(octets)
    }

    // Whether it is so in a journal that begins with these octets, after whose records opening puts these.
    fn is_so(&self, alloc: Global, first: &[u8], last: &[u8]) -> Result<bool, Memory> {
        let octets = self.octets(alloc, first)?;
        let mut keeper = keeper_of(alloc, octets.as_slice(), None)?;
        match self.4 {
            Becomes::Kept => {
                let mut left = Octets::from_slice(alloc, octets.as_slice())?;
                left.push_slice(last)?;
                Ok(opens_to(alloc, &mut keeper, left.as_slice()))
            }
            Becomes::Cut => {
                let left = with_domain(alloc, first, last)?;
                Ok(opens_to(alloc, &mut keeper, left.as_slice()))
            }
            Becomes::Bad => Ok(is_bad(alloc, &mut keeper) && keeper.octets() == octets.as_slice()),
        }
    }
}

// Whether the journal is bad after the domain's record.
fn is_bad(alloc: Global, keeper: &mut MemKeeper) -> bool {
    match Store::open(alloc, keeper, 1000) {
        Ok(_) => false,
        Err(fault) => fault == OpenFault::BadJournal { at: 28 },
    }
}

impl Case for End {
    fn holds(&self, alloc: Global) -> Result<bool, Memory> {
        Ok(self.is_so(alloc, ONE, VERSION)? && self.is_so(alloc, TWO, b"")?)
    }
}

// The lengths of records that end at 512, 632, 1,024 and 1,632.
const TO_512: &[u8] = b"\0\0\x01\xe0";

const TO_632: &[u8] = b"\0\0\x02\x58";

const TO_1024: &[u8] = b"\0\0\x03\xe0";

const TO_1632: &[u8] = b"\0\0\x06\x40";

// An account but for its password of 600 octets.
const LONG_ACCOUNT: &[u8] = b"\0\0\x02\x70\x01\0\0\0\x0fann@example.org\0\0\x02\x58";

const ENDS: [(&str, &[End]); 9] = [
    (
        "zeros alone are cut",
        &[
            End(b"", 0, 1, b"", Becomes::Cut),
            End(b"", 0, 4, b"", Becomes::Cut),
            End(b"", 0, 100, b"", Becomes::Cut),
            End(b"", 0, 4096, b"", Becomes::Cut),
            End(b"", 0, 5000, b"", Becomes::Cut),
        ],
    ),
    (
        "zeros before anything else are bad",
        &[
            End(b"", 0, 4, b"x", Becomes::Bad),
            End(b"", 0, 4096, b"x", Becomes::Bad),
            End(b"", 0, 5000, b"x", Becomes::Bad),
            End(b"", 0, 5000, DOMAIN, Becomes::Bad),
        ],
    ),
    (
        "a last record that is zero from a sector on is cut",
        &[
            End(TO_632, 1, 599, b"", Becomes::Cut),
            End(TO_632, 480, 120, b"", Becomes::Cut),
            End(TO_1024, 480, 512, b"", Becomes::Cut),
            End(TO_1632, 1, 1599, b"", Becomes::Cut),
            End(TO_1632, 1504, 96, b"", Becomes::Cut),
        ],
    ),
    (
        "one that has anything else in its last sector is bad",
        &[
            End(TO_632, 481, 119, b"", Becomes::Bad),
            End(TO_632, 1, 598, b"x", Becomes::Bad),
            End(TO_1024, 481, 511, b"", Becomes::Bad),
            End(TO_1632, 1505, 95, b"", Becomes::Bad),
        ],
    ),
    (
        "one within which no sector begins is bad",
        &[
            End(b"\0\0\0\x0a", 1, 9, b"", Becomes::Bad),
            End(TO_512, 1, 479, b"", Becomes::Bad),
        ],
    ),
    (
        "one that isn't the last is bad",
        &[
            End(TO_632, 1, 599, DOMAIN, Becomes::Bad),
            End(TO_632, 1, 600, b"", Becomes::Bad),
        ],
    ),
    (
        "a record that ends in zeros is kept",
        &[End(LONG_ACCOUNT, 0, 600, b"", Becomes::Kept)],
    ),
    (
        "a prefix of a record is cut, whatever it has",
        &[
            End(TO_632, 480, 119, b"", Becomes::Cut),
            End(LONG_ACCOUNT, 0, 599, b"", Becomes::Cut),
        ],
    ),
    (
        "a length of 0, or of more than a record may have, is bad",
        &[
            End(b"\x04\0\0\x01", 0, 0, b"", Becomes::Bad),
            End(b"\x04\0\0\0", 0, 0, b"", Becomes::Cut),
            End(b"\0\0\0\0", 1, 600, b"", Becomes::Bad),
        ],
    ),
];

#[test]
fn ends_in_zeros_are_cut(rt: HostRuntime) -> Result<(), Fail> {
    all_hold(rt.alloc(), &ENDS)
}

// The octets of a message, and their mark.
struct Told(&'static [u8], u8);

// What stands before the octets or the mark: a message of the first folder, and one that waits for `c@z.org`.
const IN_FIRST: &[u8] = b"\0\0\0\0\0";

const DATE: &[u8] = b"\0\0\0\x1a01-Jan-1970 00:00:00 +0000";

const WAITS: &[u8] = b"\0\0\0\0\0\0\0\x01\0\0\0\x07c@z.org";

fn push_number(journal: &mut Octets, number: usize) -> Result<(), Memory> {
    let Ok(number) = u32::try_from(number) else {
        return Err(Memory);
    };
    journal.push_slice(&number.to_be_bytes())
}

// Puts a record last that has these fields, and then these octets.
fn push_record(
    journal: &mut Octets,
    alloc: Global,
    fields: &[&[u8]],
    octets: &[u8],
) -> Result<(), Memory> {
    let front = joined(alloc, fields)?;
    push_number(
        journal,
        front.len().saturating_add(octets.len()).saturating_add(4),
    )?;
    journal.push_slice(front.as_slice())?;
    push_number(journal, octets.len())?;
    journal.push_slice(octets)
}

impl Told {
    fn old(&self, alloc: Global) -> Result<Octets, Memory> {
        let mut journal = joined(alloc, &[ONE, ACCOUNT])?;
        push_record(&mut journal, alloc, &[&[4], IN_FIRST, DATE], self.0)?;
        push_record(&mut journal, alloc, &[&[7], WAITS], self.0)?;
        Ok(journal)
    }

    fn new(&self, alloc: Global) -> Result<Octets, Memory> {
        let mut journal = joined(alloc, &[TWO, ACCOUNT])?;
        push_record(
            &mut journal,
            alloc,
            &[&[9], IN_FIRST, &[self.1], DATE],
            self.0,
        )?;
        push_record(&mut journal, alloc, &[&[10], WAITS, &[self.1]], self.0)?;
        Ok(journal)
    }
}

// Whether each entry has this mark.
fn have_mark(store: &Store, queue: &[Queued], mark: u8) -> bool
    requires { All (λ one. one.entry < length store.now.kept.entries) queue.now }
{
    for one in queue {
        if store.queue_mark(one.entry) != mark {
            return false;
        }
    }
    true
}

// Whether the store has one message and one entry, of this mark.
fn has_marked(store: &Store, mark: u8) -> bool {
    if store.message_count() != 1 || store.mark(0) != mark {
        return false;
    }
    match store.queue() {
        Ok(queue) => queue.as_slice().len() == 1 && have_mark(store, queue.as_slice(), mark),
        Err(_) => false,
    }
}

// Whether that is so of the store of these octets, also where it is opened again.
fn tells_mark(alloc: Global, octets: &[u8], mark: u8) -> Result<bool, Memory> {
    let mut keeper = keeper_of(alloc, octets, None)?;
    for _ in 0..2 {
        match Store::open(alloc, &mut keeper, 1000) {
            Ok(store) => {
                if !has_marked(&store, mark) {
                    return Ok(false);
                }
            }
            Err(_) => return Ok(false),
        }
    }
    Ok(true)
}

impl Case for Told {
    fn holds(&self, alloc: Global) -> Result<bool, Memory> {
        let old = self.old(alloc)?;
        let new = self.new(alloc)?;
        Ok(tells_mark(alloc, old.as_slice(), self.1)? && tells_mark(alloc, new.as_slice(), self.1)?)
    }
}

const TOLD: [(&str, &[Told]); 3] = [
    (
        "a message in ASCII has no mark",
        &[Told(b"A: b\r\n\r\nx\r\n", 0), Told(b"", 0)],
    ),
    (
        "one is marked whose body alone isn't in ASCII",
        &[
            Told(b"A: b\r\n\r\n\xc3\xa9\r\n", 2),
            Told(
                b"Content-Type: text/plain\r\n\r\nSubject: \xc3\xa9\r\n\r\nx\r\n",
                2,
            ),
        ],
    ),
    (
        "one is marked otherwise that has a header that isn't, be it that of a part",
        &[
            Told(b"Subject: \xc3\xa9\r\n\r\nx\r\n", 3),
            Told(
                b"Content-Type: message/rfc822\r\n\r\nSubject: \xc3\xa9\r\n\r\nx\r\n",
                3,
            ),
            Told(
                b"Content-Type: multipart/mixed; boundary=a\r\n\r\n--a\r\n\r\nx\r\n--a\r\nSubject: \xc3\xa9\r\n\r\nx\r\n--a--\r\n",
                3,
            ),
        ],
    ),
];

#[test]
fn marks_are_those_of_the_octets(rt: HostRuntime) -> Result<(), Fail> {
    all_hold(rt.alloc(), &TOLD)
}
