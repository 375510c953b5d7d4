//! The store opened from a keeper's octets.
ghost use Rattle.std.specs.Prelude.{◌≡◌, ◌≢◌, ◌+◌, ◌-◌, ◌≤◌, ◌<◌, ◌^◌, [], length, IfOk, OnOk, OnErr, IfErr, IfSome, option_map, false};
ghost use Rattle.mail_wire.specs.Causes.{HasCause, StaysSure};
ghost use Rattle.mail_wire.specs.Keeping.{HasKeeperCause, PutsLast};
ghost use Rattle.mail_store.specs.private.Adding.{AddsNext};
ghost use Rattle.mail_store.specs.Answers.{BeginsOnce, IsFold, OpensTo, IsJournalFault, IsToBegin, LeavesRecords, PutsNothing};
ghost use Rattle.mail_store.specs.declared.opening.OpenFault.TheVariants as faults;
ghost use Rattle.kept_mail.specs.declared.limits.TheConstants.{MESSAGE_MAX};
ghost use Rattle.kept_mail.specs.Kept.{nothing};
ghost use Rattle.journal_records.specs.Frames.{IsBeginningOf, FitsIn};
ghost use Rattle.mail_store.specs.private.Replaying.{IsOutside, AddsFrameBy, IsReadTo, IsBrokenRest, IsRestFault, ReadsOne, EndsJournalAt, IsReadingFault, brought, repaired, HalfRepairs, CutsAtMost};
ghost use Rattle.journal_records.specs.declared.frames.Beginning.TheVariants as beginnings;
ghost use Rattle.journal_records.specs.declared.versions.Version.TheVariants as versions;

use crate::frames::{cut_after, fill, frame_at, is_broken_off, read_beginning};
use crate::storing::Store;
use journal_records::{
    Beginning, FIRST_OCTETS, Frame, RECORD_MAX, ReadFault, Version, is_of_version, read_record,
    version_after,
};
use mail_wire::{Failed, Keeper};
use std::alloc::{AllocError, Global};
use thiserror::Error;

// The record from which on a journal goes on in version 2.
const VERSION_RECORD: [u8; 5] = [0, 0, 0, 1, 11];

/// Why a store wasn't opened.
#[derive(Clone, Copy, Debug, PartialEq, Eq, Error)]
pub enum OpenFault {
    /// The keeper failed.
    #[error("keeper fault")]
    Keeper,
    /// The octets from here on are no record and no prefix of one.
    #[error("bad journal at {at}")]
    BadJournal { at: u64 },
    /// Want of memory.
    #[error("want of memory")]
    Memory,
}

impl From<Failed> for OpenFault {
    ghost use Rattle.std.specs.Prelude.{◌≡◌};
    ghost use Rattle.mail_store.specs.Answers.{open_fault};

    ghost from_gives = { λ failed fault. fault ≡ open_fault failed };

    fn from(failed: Failed) -> OpenFault {
        match failed {
            Failed::Outside => OpenFault::Keeper,
            Failed::Memory => OpenFault::Memory,
        }
    }
}

impl From<AllocError> for OpenFault {
    ghost use Rattle.mail_store.specs.declared.opening.OpenFault.TheVariants as faults;
    ghost use Rattle.std.specs.Prelude.{◌≡◌};

    ghost from_gives = { λ _ fault. fault ≡ faults.Memory };

    fn from(_error: AllocError) -> OpenFault {
        OpenFault::Memory
    }
}

// The fields of a record of the version are put last, or they are none.
fn add_next(
    alloc: Global,
    store: &mut Store,
    version: &mut Version,
    fields: &[u8],
) -> Result<(), ReadFault>
    requires short { length fields.now ≤ RECORD_MAX }
    requires place { store.old.end + (4 + length fields.now) < 2 ^ 64 }
    ensures { AddsNext version.old version.new store.old store.new result fields.now }
{
    let one = read_record(alloc, fields)?;
    if !is_of_version(*version, &one) {
        return Err(ReadFault::NoRecord);
    }
    let after = version_after(*version, &one);
    store.add(one)?;
    store.lengthen(4 + fields.len() as u64);
    *version = after;
    Ok(())
}

// Puts the record last that a frame has where the store's journal ends. It says whether there is one.
fn add_frame<J: Keeper>(
    alloc: Global,
    keeper: &mut J,
    store: &mut Store,
    version: &mut Version,
    frame: Frame,
    buffer: &mut Vec<u8>,
) -> Result<bool, OpenFault>
    requires within { IfSome (J.observed keeper.old).octets (λ octets. FitsIn frame (length octets - store.old.end)) }
    requires room { FitsIn frame (2 ^ 64 - 1 - store.old.end) }
    ensures adds { AddsFrameBy frame (J.observed keeper.old).octets version.old version.new store.old store.new result }
    ensures same { (J.observed keeper.new).octets ≡ (J.observed keeper.old).octets }
    ensures unappended { (J.observed keeper.new).appends ≡ (J.observed keeper.old).appends }
    ensures cause { HasKeeperCause (J.observed keeper.old) (J.observed keeper.new) result OpenFault.Keeper }
{
    let len = match frame {
        Frame::CutShort => return Ok(false),
        Frame::Bad => return Ok(false),
        Frame::Whole(len) => len,
    };
    fill(alloc, keeper, store.end() + 4, len, buffer)?;
    match add_next(alloc, store, version, buffer) {
        Ok(()) => Ok(true),
        Err(fault) => match fault {
            ReadFault::Memory => Err(OpenFault::Memory),
            ReadFault::NoRecord => Ok(false),
        },
    }
}

// Puts the record last that stands where the store's journal ends. It says whether there is one, or else what stands there is broken off.
fn read_one<J: Keeper>(
    alloc: Global,
    keeper: &mut J,
    store: &mut Store,
    version: &mut Version,
    had: u64,
    buffer: &mut Vec<u8>,
) -> Result<bool, OpenFault>
    requires had { IfSome (J.observed keeper.old).octets (λ octets. had ≡ length octets) }
    requires within { store.old.end ≤ had }
    ensures reads { IsReadTo (J.observed keeper.old).octets version.old version.new store.old store.new }
    ensures one { ReadsOne (J.observed keeper.old).octets version.new store.old store.new result }
    ensures within { store.new.end ≤ had }
    ensures same { (J.observed keeper.new).octets ≡ (J.observed keeper.old).octets }
    ensures unappended { (J.observed keeper.new).appends ≡ (J.observed keeper.old).appends }
    ensures cause { HasKeeperCause (J.observed keeper.old) (J.observed keeper.new) result OpenFault.Keeper }
{
    let at = store.end();
    let frame = frame_at(keeper, at, had)?;
    if add_frame(alloc, keeper, store, version, frame, buffer)? {
        return Ok(true);
    }
    if is_broken_off(alloc, keeper, at, had, frame, buffer)? {
        return Ok(false);
    }
    Err(OpenFault::BadJournal { at })
}

/// Puts the records last, one after the other, that stand after those that the store has.
pub(crate) fn read_on<J: Keeper>(
    alloc: Global,
    keeper: &mut J,
    store: &mut Store,
    version: &mut Version,
    had: u64,
    buffer: &mut Vec<u8>,
) -> Result<(), OpenFault>
    requires had { IfSome (J.observed keeper.old).octets (λ octets. had ≡ length octets) }
    requires within { store.old.end ≤ had }
    ensures reads { IsReadTo (J.observed keeper.old).octets version.old version.new store.old store.new }
    ensures rest { OnOk result (IfSome (J.observed keeper.old).octets (IsBrokenRest version.new store.new)) }
    ensures within { store.new.end ≤ had }
    ensures fault { IfErr result (IsRestFault (J.observed keeper.old).octets version.new store.new) }
    ensures same { (J.observed keeper.new).octets ≡ (J.observed keeper.old).octets }
    ensures unappended { (J.observed keeper.new).appends ≡ (J.observed keeper.old).appends }
    ensures cause { HasKeeperCause (J.observed keeper.old) (J.observed keeper.new) result OpenFault.Keeper }
{
    loop {
        let more = read_one(alloc, keeper, store, version, had, buffer)?;
        if !more {
            return Ok(());
        }
    }
}

// Puts the journal's records last, and says where they end.
fn replay<J: Keeper>(
    alloc: Global,
    keeper: &mut J,
    store: &mut Store,
    version: &mut Version,
    had: u64,
    buffer: &mut Vec<u8>,
) -> Result<u64, OpenFault>
    requires start { store.old.kept ≡ nothing }
    requires start_end { store.old.end ≡ 8 }
    requires had { IfSome (J.observed keeper.old).octets (λ octets. had ≡ length octets) }
    requires long { 8 ≤ had }
    requires first { IfSome (J.observed keeper.old).octets (IsBeginningOf (beginnings.Journal version.old)) }
    ensures ends { IfOk result (λ end. IfSome (J.observed keeper.old).octets (λ octets. EndsJournalAt octets end version.new store.new.kept)) }
    ensures fold { OnOk result (IsFold store.new.kept) }
    ensures within { IfOk result (λ end. end ≤ had) }
    ensures message_max { OnOk result (store.new.message_max ≡ store.old.message_max) }
    ensures failed { OnOk result (store.new.failed ≡ store.old.failed) }
    ensures fault { IfErr result (λ fault. IfSome (J.observed keeper.old).octets (λ octets. IsReadingFault octets fault)) }
    ensures same { (J.observed keeper.new).octets ≡ (J.observed keeper.old).octets }
    ensures unappended { (J.observed keeper.new).appends ≡ (J.observed keeper.old).appends }
    ensures cause { HasKeeperCause (J.observed keeper.old) (J.observed keeper.new) result OpenFault.Keeper }
{
    read_on(alloc, keeper, store, version, had, buffer)?;
    Ok(store.end())
}

// The records of all the octets are put last. It says where they end, which is 0 where no journal is begun; the version is that after them.
fn read_all<J: Keeper>(
    alloc: Global,
    keeper: &mut J,
    store: &mut Store,
    version: &mut Version,
    had: u64,
) -> Result<u64, OpenFault>
    requires start { store.old.kept ≡ nothing }
    requires start_end { store.old.end ≡ 8 }
    requires start_version { version.old ≡ versions.Two }
    requires had { IfSome (J.observed keeper.old).octets (λ octets. had ≡ length octets) }
    ensures ends { IfOk result (λ end. IfSome (J.observed keeper.old).octets (λ octets. EndsJournalAt octets end version.new store.new.kept)) }
    ensures fold { OnOk result (IsFold store.new.kept) }
    ensures within { IfOk result (λ end. end ≤ had) }
    ensures message_max { OnOk result (store.new.message_max ≡ store.old.message_max) }
    ensures failed { OnOk result (store.new.failed ≡ store.old.failed) }
    ensures fault { IfErr result (λ fault. IfSome (J.observed keeper.old).octets (λ octets. IsReadingFault octets fault)) }
    ensures same { (J.observed keeper.new).octets ≡ (J.observed keeper.old).octets }
    ensures unappended { (J.observed keeper.new).appends ≡ (J.observed keeper.old).appends }
    ensures cause { HasKeeperCause (J.observed keeper.old) (J.observed keeper.new) result OpenFault.Keeper }
{
    let mut buffer = Vec::new(alloc);
    match read_beginning(alloc, keeper, had, &mut buffer)? {
        Beginning::Prefix => Ok(0),
        Beginning::Other => Err(OpenFault::BadJournal { at: 0 }),
        Beginning::Journal(first) => {
            *version = first;
            replay(alloc, keeper, store, version, had, &mut buffer)
        }
    }
}

// What opening puts last where the records end here, in this version.
fn brought(end: u64, version: Version) -> &'static [u8]
    ensures { result.now ≡ brought end version }
{
    if end == 0 {
        return &FIRST_OCTETS;
    }
    match version {
        Version::One => &VERSION_RECORD,
        Version::Two => &[],
    }
}

// Puts a text last in a keeper, where there is one.
fn append_some<J: Keeper>(keeper: &mut J, text: &[u8]) -> Result<(), Failed>
    ensures octets { PutsLast (J.observed keeper.old).octets (J.observed keeper.new).octets result text.now }
    ensures appended { BeginsOnce (text.now ≢ []) (J.observed keeper.old).appends (J.observed keeper.new).appends }
    ensures cause { HasCause (J.observed keeper.old).faults (J.observed keeper.new).faults result }
    ensures sure { StaysSure (J.observed keeper.old).never_fails (J.observed keeper.new).never_fails result }
{
    if text.is_empty() {
        return Ok(());
    }
    keeper.append(text)
}

// Cuts what is after the records, begins the journal or has it go on in version 2, and says where it ends then.
fn repair<J: Keeper>(keeper: &mut J, had: u64, end: u64, version: Version) -> Result<u64, OpenFault>
    requires had { IfSome (J.observed keeper.old).octets (λ octets. had ≡ length octets) }
    requires within { end ≤ had }
    ensures repaired { OnOk result ((J.observed keeper.new).octets ≡ option_map (repaired end version) (J.observed keeper.old).octets) }
    ensures place { IfOk result (λ last. last ≡ end + length (brought end version)) }
    ensures half { OnErr result (HalfRepairs end (brought end version) (J.observed keeper.old).octets (J.observed keeper.new).octets) }
    ensures memory { IfErr result (λ fault. fault ≡ faults.Memory → CutsAtMost end (J.observed keeper.old).octets (J.observed keeper.new).octets) }
    ensures appended { BeginsOnce (brought end version ≢ []) (J.observed keeper.old).appends (J.observed keeper.new).appends }
    ensures cause { HasKeeperCause (J.observed keeper.old) (J.observed keeper.new) result OpenFault.Keeper }
    ensures outside { IfErr result IsOutside }
{
    let text = brought(end, version);
    let Some(last) = end.checked_add(text.len() as u64) else {
        return Err(OpenFault::Memory);
    };
    cut_after(keeper, had, end)?;
    append_some(keeper, text)?;
    Ok(last)
}

impl Store {
    /// The store of a keeper's journal. What was broken off at its end is cut, and a journal is begun where none is. One that
    /// ends in version 1 goes on in version 2: a record that says so is put last.
    pub fn open<J: Keeper>(
        alloc: Global,
        keeper: &mut J,
        message_max: u32,
    ) -> Result<Store, OpenFault>
        requires { message_max ≤ MESSAGE_MAX }
        // It keeps the fold of the whole records that were there, and the keeper holds them, the version's record where it is put last, and nothing more.
        ensures opens { IfOk result (λ store. IfSome (J.observed keeper.old).octets (λ old. OpensTo old (J.observed keeper.new).octets store.kept)) }
        ensures fold { IfOk result (λ store. IsFold store.kept) }
        ensures message_max { IfOk result (λ store. store.message_max ≡ message_max) }
        ensures failed { IfOk result (λ store. store.failed ≡ false) }
        ensures end { IfOk result (λ store. IfSome (J.observed keeper.new).octets (λ octets. store.end ≡ length octets)) }

        // A bad journal is bad there, and a fault of the keeper has its cause. Want of memory puts nothing last.
        ensures fault { IfErr result (λ fault. IfSome (J.observed keeper.old).octets (λ old. IsJournalFault old (J.observed keeper.new).octets fault)) }
        ensures cause { HasKeeperCause (J.observed keeper.old) (J.observed keeper.new) result OpenFault.Keeper }
        ensures memory { IfErr result (λ fault. fault ≡ faults.Memory → PutsNothing (J.observed keeper.old).octets (J.observed keeper.new).octets) }

        // Whatever it answers, the keeper's records are the same, but that the version's record may follow them.
        ensures leaves { LeavesRecords (J.observed keeper.old).octets (J.observed keeper.new).octets }
        // It appends nothing, unless no journal is begun there or it ends in version 1, and then once.
        ensures begins { BeginsOnce (IfSome (J.observed keeper.old).octets IsToBegin) (J.observed keeper.old).appends (J.observed keeper.new).appends }
    {
        let had = keeper.len()?;
        let mut store = Store::new(alloc, message_max);
        let mut version = Version::Two;
        let end = read_all(alloc, keeper, &mut store, &mut version, had)?;
        let last = repair(keeper, had, end, version)?;
        store.end_at(last);
        Ok(store)
    }
}
