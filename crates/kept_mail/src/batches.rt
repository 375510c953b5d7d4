//! What is written of a delivery, and what is put last for it.
ghost use Rattle.std.specs.Prelude.{◌≡◌, ◌≤◌, ◌<◌, ◌+◌, ◌==◌, ◌&&◌, ◌++◌, length, vec_len, vec_capacity, IfOk, OnOk, IfSome, option_and_then, slice_get};
ghost use Rattle.std.specs.List.{All, AllByRecursion, flat_map};
ghost use Rattle.std.specs.Option.{option_to_list};
ghost use Rattle.address_grammar.specs.Paths.{ComesInPath};
ghost use Rattle.journal_records.specs.Spelling.{IsWritableRecord, record_text};
ghost use Rattle.journal_records.specs.Stored.{HasMark};
ghost use Rattle.kept_mail.specs.declared.limits.TheConstants.{THINGS_MAX};
ghost use Rattle.kept_mail.specs.Deliveries.{queued as queued_of};
ghost use Rattle.kept_mail.specs.Kept.{change_at, without};
ghost use Rattle.kept_mail.specs.Records.{IsUnsettled, recipient_count};
ghost use Rattle.kept_mail.specs.private.Chains.{AreChained};
ghost use Rattle.kept_mail.specs.private.Delivering.{entry_of as entry_for, HasOwnMark, IsEntryOf, IsFrontOf, fronts_text, delivery_text};

use crate::contents::{Content, push_reserved, put_messages};
use crate::delivery::Delivery;
use crate::kept::{Entry, Message, waiting_entry};
use journal_records::{Record, StoredOctets, address_texts, path_text, queue_front};
use mail_wire::{Memory as OutOfMemory, Octets};
use std::alloc::Global;

// The record of a message that waits for the remote recipients, where there are any.
fn queued(alloc: Global, delivery: &Delivery) -> Result<Option<Record>, OutOfMemory>
    requires path { IfSome delivery.now.path ComesInPath }
    requires addresses { All ComesInPath delivery.now.remote }
    ensures { IfOk result (λ queued. option_to_list queued ≡ queued_of delivery.now) }
{
    if delivery.remote.len() == 0 {
        return Ok(None);
    }
    Ok(Some(Record::Queue {
        path: path_text(alloc, &delivery.path)?,
        addresses: address_texts(alloc, delivery.remote.as_slice())?,
        mark: Some(delivery.remote_mark),
        octets: Octets::from_slice(alloc, delivery.remote_octets.as_slice())?,
    }))
}

// The entry of a record of the queue.
fn entry_of(alloc: Global, queued: Option<Record>) -> Result<Option<Entry>, OutOfMemory>
    requires { IfSome queued HasOwnMark }
    ensures { IfOk result (λ entry. entry ≡ option_and_then entry_for queued) }
{
    match queued {
        Some(
            Record::Queue {
                path,
                addresses,
                mark,
                octets,
            },
        ) => {
            let Some(mark) = mark else {
                unreachable!();
            };
            let stored = StoredOctets::new(octets, mark);
            Ok(Some(waiting_entry(alloc, path, addresses, stored)?))
        }
        _ => Ok(None),
    }
}

// What stands before the octets of a record of the queue.
fn queued_front(alloc: Global, queued: &Option<Record>) -> Result<Option<Octets>, OutOfMemory>
    requires writable { IfSome queued.now IsWritableRecord }
    requires mark { IfSome queued.now HasOwnMark }
    ensures { IfOk result (λ front. IsFrontOf front queued.now) }
{
    match queued {
        Some(
            Record::Queue {
                path,
                addresses,
                mark,
                octets,
            },
        ) => {
            let Some(mark) = *mark else {
                unreachable!();
            };
            Ok(Some(queue_front(
                alloc,
                path.as_slice(),
                addresses.as_slice(),
                mark,
                octets.as_slice(),
            )?))
        }
        _ => Ok(None),
    }
}

/// What waits for the remote recipients, where there are any: what stands before the octets in the text of its record, and its
/// entry.
#[derive(Drop)]
pub struct Waiting {
    pub front: Option<Octets>,
    pub entry: Option<Entry>,
}

/// What of a delivery waits for the remote recipients.
pub fn waiting_of(alloc: Global, delivery: &Delivery) -> Result<Waiting, OutOfMemory>
    requires path { IfSome delivery.now.path ComesInPath }
    requires addresses { All ComesInPath delivery.now.remote }
    requires writable { AllByRecursion IsWritableRecord (queued_of delivery.now) }
    requires mark { 0 < length delivery.now.remote → HasMark delivery.now.remote_octets delivery.now.remote_mark }
    ensures front { IfOk result (λ waiting. fronts_text (option_to_list waiting.front) delivery.now.remote_octets ≡ flat_map record_text (queued_of delivery.now)) }
    ensures entry { IfOk result (λ waiting. IsEntryOf waiting.entry (queued_of delivery.now)) }
{
    let queued = queued(alloc, delivery)?;
    let front = queued_front(alloc, &queued)?;
    let entry = entry_of(alloc, queued)?;
    Ok(Waiting { front, entry })
}

// Puts the text of a record last, in two parts.
fn push_text<'a>(
    parts: &mut Vec<&'a [u8]>,
    front: &'a Octets,
    octets: &'a Octets,
) -> Result<(), OutOfMemory>
    ensures { OnOk result (flat_map (λ part. part.now) parts.new.items ≡ flat_map (λ part. part.now) parts.old.items ++ (front.now ++ octets.now)) }
{
    parts.push(front.as_slice())?;
    parts.push(octets.as_slice())?;
    Ok(())
}

/// The texts of a delivery's records, in parts: the octets are no copies.
pub fn parts_of<'a>(
    alloc: Global,
    fronts: &'a [Octets],
    waiting: &'a Option<Octets>,
    delivery: &'a Delivery,
) -> Result<Vec<&'a [u8]>, OutOfMemory>
    ensures { IfOk result (λ parts. flat_map (λ part. part.now) parts.items ≡ delivery_text fronts.now waiting.now delivery.now) }
{
    let mut parts = Vec::new(alloc);
    for front in fronts {
        push_text(&mut parts, front, &delivery.local_octets)?;
    }
    if let Some(front) = waiting {
        push_text(&mut parts, front, &delivery.remote_octets)?;
    }
    Ok(parts)
}

/// Makes room for so many messages and for an entry.
pub fn reserve_delivery(
    messages: &mut Vec<Message>,
    previous: &mut Vec<Option<u32>>,
    entries: &mut Vec<Entry>,
    count: usize,
) -> Result<(), OutOfMemory>
    ensures messages { messages.new.items ≡ messages.old.items }
    ensures previous { previous.new.items ≡ previous.old.items }
    ensures entries { entries.new.items ≡ entries.old.items }
    ensures message_room { OnOk result (vec_len messages.new + count ≤ vec_capacity messages.new) }
    ensures previous_room { OnOk result (vec_len previous.new + count ≤ vec_capacity previous.new) }
    ensures entry_room { OnOk result (vec_len entries.new < vec_capacity entries.new) }
{
    messages.reserve(count)?;
    previous.reserve(count)?;
    entries.reserve(1)?;
    Ok(())
}

/// Puts an entry last, for which there is room, and counts its recipients.
pub fn put_entry(entries: &mut Vec<Entry>, recipients: &mut usize, entry: Option<Entry>)
    requires room { vec_len entries.old < vec_capacity entries.old }
    requires few { recipients.old + recipient_count (option_to_list entry) ≤ THINGS_MAX }
    ensures entries { entries.new.items ≡ entries.old.items ++ option_to_list entry }
    ensures recipients { recipients.new ≡ recipients.old + recipient_count (option_to_list entry) }
{
    if let Some(entry) = entry {
        *recipients += entry.recipients.as_slice().len();
        push_reserved(entries, entry);
    }
}

/// What is put last for a delivery: the messages for the local accounts, what stands before their octets in the texts of their
/// records, and what waits.
#[derive(Drop)]
pub struct Batch {
    pub fronts: Vec<Octets>,
    pub copies: Vec<Message>,
    pub waiting: Waiting,
}

/// Puts the messages and the entry of a delivery last, for which there is room.
pub fn put_batch(
    contents: &mut Vec<Content>,
    previous: &mut Vec<Option<u32>>,
    messages: &mut Vec<Message>,
    entries: &mut Vec<Entry>,
    recipients: &mut usize,
    batch: Batch,
)
    requires chained { AreChained messages.old.items contents.old.items previous.old.items }
    requires few { length messages.old.items + length batch.copies.items ≤ THINGS_MAX }
    requires known { All (λ message. message.folder < length contents.old.items) batch.copies.items }
    requires room { vec_len messages.old + length batch.copies.items ≤ vec_capacity messages.old }
    requires room_before { vec_len previous.old + length batch.copies.items ≤ vec_capacity previous.old }
    requires entry_room { vec_len entries.old < vec_capacity entries.old }
    requires few_recipients { recipients.old + recipient_count (option_to_list batch.waiting.entry) ≤ THINGS_MAX }
    ensures messages { messages.new.items ≡ messages.old.items ++ batch.copies.items }
    ensures chained { AreChained messages.new.items contents.new.items previous.new.items }
    ensures count { length contents.new.items ≡ length contents.old.items }
    ensures entries { entries.new.items ≡ entries.old.items ++ option_to_list batch.waiting.entry }
    ensures recipients { recipients.new ≡ recipients.old + recipient_count (option_to_list batch.waiting.entry) }
{
    let waiting = batch.waiting;
    put_messages(contents, previous, messages, batch.copies);
    put_entry(entries, recipients, waiting.entry);
}

/// Whether the delivery is for nobody.
pub fn is_for_nobody(delivery: &Delivery) -> bool
    ensures { result ≡ (length delivery.now.local == 0 && length delivery.now.remote == 0) }
{
    delivery.local.len() == 0 && delivery.remote.len() == 0
}

/// The recipient of an entry is done with.
pub fn settle_at(entries: &mut Vec<Entry>, at: u32, index: u32)
    requires { IsUnsettled (slice_get entries.old.items at) index }
    ensures { entries.new.items ≡ change_at (without index) entries.old.items at }
{
    let entry = &mut entries[at as usize];
    entry.recipients.settle(index);
}
