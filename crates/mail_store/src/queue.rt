//! The queue: the entries with a recipient who waits, and recipients that are taken off.
ghost use Rattle.std.specs.Prelude.{◌≡◌, ◌⊎◌, ◌≤◌, ◌<◌, ◌+◌, ◌∷◌, ◌++◌, [], length, slice_get, IfOk, OnOk, OnErr, IfErr, IfSome, Some, false, option_map};
ghost use Rattle.std.specs.List.{All, AllZip};
ghost use Rattle.std.specs.Option.{option_to_list};
ghost use Rattle.std.specs.BTreeMap.{is_at};
ghost use Rattle.std.specs.Map.{set_value};
ghost use Rattle.std.specs.Ordering.{nat_cmp};
ghost use Rattle.mail_wire.specs.Keeping.{HasKeeperCause, one_more};
ghost use Rattle.journal_records.specs.Addresses.{IsAddressText, IsKeptAddress, IsTextOfAddress};
ghost use Rattle.journal_records.specs.Spelling.{record_text as record_text_of};
ghost use Rattle.journal_records.specs.Stored.{HasMark, IsStored};
ghost use Rattle.journal_records.specs.declared.records.Record.TheVariants as records;
ghost use Rattle.kept_mail.specs.Kept.{change_at, without};
ghost use Rattle.kept_mail.specs.Records.{IsUnsettled, recipient_count};
ghost use Rattle.kept_mail.specs.declared.limits.TheConstants.{THINGS_MAX};
ghost use Rattle.mail_store.specs.Changing.{Changes, LeavesKeeper, IsRefusedAs, settle_refusal};
ghost use Rattle.mail_store.specs.Queue.{HasPaths, IsKeptEntry, IsQueue, IsQueued, IsTextOfPath, IsUnsettledAt, open_counts, places_where, told_count, waiting_count as waiting_count_of, waits};
ghost use Rattle.mail_store.specs.private.Queue.{IsAwaited, PutsUnsettled, awaited as awaited_of, count_at, opened};

use crate::changing::StoreFault;
use crate::storing::Store;
use crate::writing::write;
use address_grammar::Address;
use journal_records::{Record, read_text, record_text};
use kept_mail::{Batch, Entry, Recipient, is_unsettled, put_entry, settle_at};
use mail_wire::{Items, Keeper, Memory, Octets};
use std::alloc::Global;
use std::collections::BTreeMap;

/// A recipient who waits: the place in the entry, and the address.
#[derive(Debug, Drop)]
pub struct Unsettled {
    pub index: u32,
    pub address: Address,
}

/// An entry of the queue: its number, its path, which is none for the null path, and the recipients who wait.
#[derive(Debug, Drop)]
pub struct Queued {
    pub entry: u32,
    pub path: Option<Address>,
    pub unsettled: Items<Unsettled>,
}

// How many recipients of the entry wait.
fn waiting_count(entry: &Entry) -> usize
    ensures { result ≡ waiting_count_of entry.now }
{
    let recipients = entry.recipients.as_slice();
    recipients
        .iter()
        .filter(|recipient| recipient.waits)
        .count()
}

// How many of an entry wait, where there is one.
fn awaited(entry: &Option<Entry>) -> usize
    ensures { result ≡ awaited_of entry.now }
{
    match entry {
        Some(entry) => waiting_count(entry),
        None => 0,
    }
}

/// Counts who waits of the entry that comes next, where somebody does.
pub fn open_next(
    counts: &mut BTreeMap<u32, usize>,
    entries: &[Entry],
    entry: &Option<Entry>,
) -> Result<(), Memory>
    requires counts { counts.old.entries ≡ open_counts entries.now }
    requires few { length entries.now ≤ THINGS_MAX }
    ensures ok { OnOk result (counts.new.entries ≡ open_counts entries.now ++ opened (length entries.now) entry.now) }
    ensures err { OnErr result (counts.new.entries ≡ counts.old.entries) }
{
    let count = awaited(entry);
    if count > 0 {
        counts.insert(entries.len() as u32, count)?;
    }
    Ok(())
}

/// Takes the count of a batch's entry back, which wasn't written.
pub fn close_next(counts: &mut BTreeMap<u32, usize>, entries: &[Entry], batch: Batch)
    requires counts { counts.old.entries ≡ open_counts entries.now ++ opened (length entries.now) batch.waiting.entry }
    requires few { length entries.now ≤ THINGS_MAX }
    ensures { counts.new.entries ≡ open_counts entries.now }
{
    if awaited(&batch.waiting.entry) > 0 {
        let number = entries.len() as u32;
        let _was = counts.remove(&number);
    }
}

/// Puts an entry last, and counts its recipients.
pub fn put_next(
    entries: &mut Vec<Entry>,
    counts: &mut BTreeMap<u32, usize>,
    recipients: &mut usize,
    entry: Option<Entry>,
) -> Result<(), Memory>
    requires counts { counts.old.entries ≡ open_counts entries.old.items }
    requires few { length entries.old.items ≤ THINGS_MAX }
    requires few_recipients { recipients.old + recipient_count (option_to_list entry) ≤ THINGS_MAX }
    ensures entries { OnOk result (entries.new.items ≡ entries.old.items ++ option_to_list entry) }
    ensures counts { OnOk result (counts.new.entries ≡ counts.old.entries ++ opened (length entries.old.items) entry) }
    ensures recipients { OnOk result (recipients.new ≡ recipients.old + recipient_count (option_to_list entry)) }
    ensures same_entries { OnErr result (entries.new.items ≡ entries.old.items) }
    ensures same_counts { OnErr result (counts.new.entries ≡ counts.old.entries) }
    ensures same_recipients { OnErr result (recipients.new ≡ recipients.old) }
{
    entries.reserve(1)?;
    open_next(counts, entries, &entry)?;
    put_entry(entries, recipients, entry);
    Ok(())
}

// One recipient fewer of the entry of this number waits. Answers how many still do.
fn count_down(counts: &mut BTreeMap<u32, usize>, number: u32) -> usize
    requires { IsAwaited counts.old.entries number }
    ensures was { count_at number counts.old.entries ≡ Some (result + 1) }
    ensures is { counts.new.entries ≡ set_value (is_at (nat_cmp number)) counts.old.entries result }
{
    let Some(count) = counts.get_mut(&number) else {
        unreachable!();
    };
    *count -= 1;
    *count
}

/// A recipient is done with, and the entry is open no longer where nobody of it waits. The others aren't looked at.
pub fn settle_open(entries: &mut Vec<Entry>, counts: &mut BTreeMap<u32, usize>, at: u32, index: u32)
    requires unsettled { IsUnsettled (slice_get entries.old.items at) index }
    requires counts { counts.old.entries ≡ open_counts entries.old.items }
    ensures entries { entries.new.items ≡ change_at (without index) entries.old.items at }
    ensures counts { counts.new.entries ≡ open_counts entries.new.items }
{
    settle_at(entries, at, index);
    let left = count_down(counts, at);
    if left == 0 {
        let _was = counts.remove(&at);
    }
}

// The address of a text that has one.
fn address_of(alloc: Global, text: &[u8]) -> Result<Address, Memory>
    requires { IsAddressText text.now }
    ensures { IfOk result (IsTextOfAddress text.now) }
{
    match read_text(alloc, text)? {
        Some(address) => Ok(address),
        None => unreachable!(),
    }
}

// The address of a path's text, and none for the null path.
fn path_of(alloc: Global, text: &[u8]) -> Result<Option<Address>, Memory>
    requires { (text.now ≡ []) ⊎ IsKeptAddress text.now }
    ensures { IfOk result (IsTextOfPath text.now) }
{
    if text.is_empty() {
        return Ok(None);
    }
    Ok(Some(address_of(alloc, text)?))
}

// Tells of a recipient, where it waits.
fn push_unsettled(
    alloc: Global,
    unsettled: &mut Vec<Unsettled>,
    index: u32,
    recipient: &Recipient,
) -> Result<(), Memory>
    requires { IsAddressText recipient.now.address }
    ensures { OnOk result (PutsUnsettled unsettled.old.items unsettled.new.items index recipient.now) }
{
    if !recipient.waits {
        return Ok(());
    }
    let address = address_of(alloc, recipient.address.as_slice())?;
    unsettled.push(Unsettled { index, address })?;
    Ok(())
}

// The recipients who wait.
fn unsettled_of(alloc: Global, recipients: &[Recipient]) -> Result<Items<Unsettled>, Memory>
    requires few { length recipients.now ≤ THINGS_MAX }
    requires kept { All (λ recipient. IsKeptAddress recipient.address) recipients.now }
    ensures { IfOk result (AllZip (IsUnsettledAt recipients.now) (places_where waits 0 recipients.now)) }
{
    let mut unsettled = Vec::new(alloc);
    for (index, recipient) in recipients.iter().enumerate() {
        push_unsettled(alloc, &mut unsettled, index as u32, recipient)?;
    }
    Ok(Items::from_vec(unsettled))
}

// What is told of an entry.
fn tell_entry(alloc: Global, number: u32, entry: &Entry) -> Result<Queued, Memory>
    requires kept { IsKeptEntry entry.now }
    requires few { length entry.now.recipients ≤ THINGS_MAX }
    ensures { IfOk result (IsQueued number entry.now) }
{
    Ok(Queued {
        entry: number,
        path: path_of(alloc, entry.path.as_slice())?,
        unsettled: unsettled_of(alloc, entry.recipients.as_slice())?,
    })
}

// What is told of the open entries.
fn tell_entries(
    alloc: Global,
    counts: &BTreeMap<u32, usize>,
    entries: &[Entry],
) -> Result<Items<Queued>, Memory>
    requires counts { counts.now.entries ≡ open_counts entries.now }
    requires kept { All IsKeptEntry entries.now }
    requires few { recipient_count entries.now ≤ THINGS_MAX }
    ensures { IfOk result (IsQueue entries.now) }
{
    let mut queue = Vec::new(alloc);
    for number in counts.keys() {
        let entry = &entries[*number as usize];
        queue.push(tell_entry(alloc, *number, entry)?)?;
    }
    Ok(Items::from_vec(queue))
}

// The text of the record that a recipient is done with.
fn settle_text(alloc: Global, entry: u32, index: u32) -> Result<Octets, Memory>
    ensures { IfOk result (λ text. text ≡ record_text_of (records.Settle entry index)) }
{
    record_text(alloc, &Record::Settle { entry, index })
}

impl Store {
    /// The entries with a recipient who isn't settled, in order, each with those recipients. Entries that are done with cost nothing.
    pub fn queue(&self) -> Result<Items<Queued>, Memory>
        ensures queue { IfOk result (IsQueue self.now.kept.entries) }
        ensures known { IfOk result (All (λ one. one.entry < length self.now.kept.entries)) }
        ensures paths { IfOk result (All HasPaths) }
        ensures few { IfOk result (λ queue. told_count queue ≤ THINGS_MAX) }
    {
        tell_entries(self.alloc, &self.open_entries, &self.entries)
    }

    /// The octets of an entry.
    pub fn queue_octets(&self, entry: u32) -> &[u8]
        requires { entry < length self.now.kept.entries }
        ensures octets { option_map (λ entry. entry.octets) (slice_get self.now.kept.entries entry) ≡ Some result.now }
        ensures stored { IsStored result.now }
    {
        let entry = &self.entries[entry as usize];
        entry.octets.as_slice()
    }

    /// The mark of an entry's octets: 1 where an octet above 127 stands in a header block, and 2 where one stands anywhere.
    pub fn queue_mark(&self, entry: u32) -> u8
        requires { entry < length self.now.kept.entries }
        ensures { IfSome (slice_get self.now.kept.entries entry) (λ one. HasMark one.octets result) }
    {
        let entry = &self.entries[entry as usize];
        entry.octets.mark()
    }

    /// Takes a recipient off the queue.
    pub fn settle<J: Keeper>(
        &mut self,
        keeper: &mut J,
        entry: u32,
        index: u32,
    ) -> Result<(), StoreFault>
        requires works { self.old.failed ≡ false }
        ensures changes { Changes self.old self.new (J.observed keeper.old).octets (J.observed keeper.new).octets result (records.Settle entry index ∷ []) }
        ensures refusal { IsRefusedAs result (settle_refusal self.old.kept entry index) }
        ensures cause { HasKeeperCause (J.observed keeper.old) (J.observed keeper.new) result StoreFault.Keeper }
        ensures once { OnOk result ((J.observed keeper.new).appends ≡ one_more (J.observed keeper.old).appends) }
        ensures untouched { IfErr result (LeavesKeeper (J.observed keeper.old) (J.observed keeper.new)) }
    {
        if !is_unsettled(&self.entries, entry, index) {
            return Err(StoreFault::NoSuch);
        }
        let text = settle_text(self.alloc, entry, index)?;
        write(keeper, text.as_slice(), &mut self.progress)?;
        settle_open(&mut self.entries, &mut self.open_entries, entry, index);
        Ok(())
    }
}
