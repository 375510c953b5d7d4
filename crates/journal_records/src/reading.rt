//! Records read from octets.
ghost use Rattle.std.specs.Prelude.{◌≡◌, ◌≢◌, IfOk, Err};
ghost use Rattle.journal_records.specs.declared.reading.ReadFault.TheVariants.{Memory};
ghost use Rattle.journal_records.specs.declared.records.Record.{Record as RecordValue};
ghost use Rattle.journal_records.specs.Spelling.{Fits, fields_of};
ghost use Rattle.journal_records.specs.private.Reading.{ReadsInto, number_at, octet_at, list_at, lists_at, ended_fields, account_at, domain_at, folder_at, message_at, marked_message_at, flags_at, expunge_at, queue_at, marked_queue_at, settle_at, kind_at, record_at};

use crate::records::{Record, Texts};
use mail_wire::{Memory as OutOfMemory, Octets};
use std::alloc::{AllocError, AllocFailed, Global};

/// Why there is no record.
#[derive(Clone, Copy, Debug, PartialEq, Eq)]
pub enum ReadFault {
    Memory,
    /// The octets are no record.
    NoRecord,
}

impl From<AllocError> for ReadFault {
    ghost from_gives = { λ _ e. e ≡ Memory };

    fn from(_e: AllocError) -> ReadFault {
        ReadFault::Memory
    }
}

impl<T: Drop> From<AllocFailed<T>> for ReadFault {
    ghost from_gives = { λ _ e. e ≡ Memory };

    fn from(_e: AllocFailed<T>) -> ReadFault {
        ReadFault::Memory
    }
}

impl From<OutOfMemory> for ReadFault {
    ghost from_gives = { λ _ e. e ≡ Memory };

    fn from(_e: OutOfMemory) -> ReadFault {
        ReadFault::Memory
    }
}

fn number_of(octets: &[u8]) -> Result<(u32, &[u8]), ReadFault>
    ensures { ReadsInto (λ x. (x.0, x.1.now)) result (number_at octets.now) }
{
    if octets.len() < 4 {
        return Err(ReadFault::NoRecord);
    }
    let (front, rest) = octets.split_at(4);
    let number = u32::from_be_bytes([front[0], front[1], front[2], front[3]]);
    Ok((number, rest))
}

fn octet_of(octets: &[u8]) -> Result<(u8, &[u8]), ReadFault>
    ensures { ReadsInto (λ x. (x.0, x.1.now)) result (octet_at octets.now) }
{
    match octets {
        [] => Err(ReadFault::NoRecord),
        [octet, rest @ ..] => Ok((*octet, rest)),
    }
}

#[tactic(auto, unfolding(crate::specs::private::Reading::list_at))]
fn list_of(alloc: Global, octets: &[u8]) -> Result<(Octets, &[u8]), ReadFault>
    ensures { ReadsInto (λ x. (x.0, x.1.now)) result (list_at octets.now) }
{
    let (len, rest) = number_of(octets)?;
    let len = len as usize;
    if rest.len() < len {
        return Err(ReadFault::NoRecord);
    }
    let (list, rest) = rest.split_at(len);
    Ok((Octets::from_slice(alloc, list)?, rest))
}

// So many texts, one after the other.
fn lists_of(alloc: Global, count: u32, octets: &[u8]) -> Result<(Texts, &[u8]), ReadFault>
    ensures { ReadsInto (λ x. (x.0, x.1.now)) result (lists_at count octets.now) }
{
    let mut texts = Vec::new(alloc);
    let mut rest = octets;
    for _ in 0..count {
        let (text, others) = list_of(alloc, rest)?;
        texts.push(text)?;
        rest = others;
    }
    Ok((Texts::from_vec(texts), rest))
}

fn ended(whole: Record, rest: &[u8]) -> Result<Record, ReadFault>
    ensures { ReadsInto (λ x. x) result (ended_fields whole rest.now) }
{
    if rest.is_empty() {
        Ok(whole)
    } else {
        Err(ReadFault::NoRecord)
    }
}

#[tactic(auto, unfolding(crate::specs::private::Reading::account_at))]
fn account_of(alloc: Global, octets: &[u8]) -> Result<Record, ReadFault>
    ensures { ReadsInto (λ x. x) result (account_at octets.now) }
{
    let (address, rest) = list_of(alloc, octets)?;
    let (password, rest) = list_of(alloc, rest)?;
    ended(Record::Account { address, password }, rest)
}

#[tactic(auto, unfolding(crate::specs::private::Reading::domain_at))]
fn domain_of(alloc: Global, octets: &[u8]) -> Result<Record, ReadFault>
    ensures { ReadsInto (λ x. x) result (domain_at octets.now) }
{
    let (name, rest) = list_of(alloc, octets)?;
    ended(Record::Domain { name }, rest)
}

#[tactic(auto, unfolding(crate::specs::private::Reading::folder_at))]
fn folder_of(alloc: Global, octets: &[u8]) -> Result<Record, ReadFault>
    ensures { ReadsInto (λ x. x) result (folder_at octets.now) }
{
    let (account, rest) = number_of(octets)?;
    let (name, rest) = list_of(alloc, rest)?;
    ended(Record::Folder { account, name }, rest)
}

#[tactic(auto, unfolding(crate::specs::private::Reading::message_at))]
fn message_of(alloc: Global, octets: &[u8]) -> Result<Record, ReadFault>
    ensures { ReadsInto (λ x. x) result (message_at octets.now) }
{
    let (folder, rest) = number_of(octets)?;
    let (flags, rest) = octet_of(rest)?;
    let (date, rest) = list_of(alloc, rest)?;
    let (octets, rest) = list_of(alloc, rest)?;
    ended(
        Record::Message {
            folder,
            flags,
            mark: None,
            date,
            octets,
        },
        rest,
    )
}

#[tactic(auto, unfolding(crate::specs::private::Reading::marked_message_at))]
fn marked_message_of(alloc: Global, octets: &[u8]) -> Result<Record, ReadFault>
    ensures { ReadsInto (λ x. x) result (marked_message_at octets.now) }
{
    let (folder, rest) = number_of(octets)?;
    let (flags, rest) = octet_of(rest)?;
    let (mark, rest) = octet_of(rest)?;
    let (date, rest) = list_of(alloc, rest)?;
    let (octets, rest) = list_of(alloc, rest)?;
    ended(
        Record::Message {
            folder,
            flags,
            mark: Some(mark),
            date,
            octets,
        },
        rest,
    )
}

#[tactic(auto, unfolding(crate::specs::private::Reading::flags_at))]
fn flags_of(octets: &[u8]) -> Result<Record, ReadFault>
    ensures { ReadsInto (λ x. x) result (flags_at octets.now) }
{
    let (message, rest) = number_of(octets)?;
    let (flags, rest) = octet_of(rest)?;
    ended(Record::Flags { message, flags }, rest)
}

#[tactic(auto, unfolding(crate::specs::private::Reading::expunge_at))]
fn expunge_of(octets: &[u8]) -> Result<Record, ReadFault>
    ensures { ReadsInto (λ x. x) result (expunge_at octets.now) }
{
    let (message, rest) = number_of(octets)?;
    ended(Record::Expunge { message }, rest)
}

#[tactic(auto, unfolding(crate::specs::private::Reading::queue_at))]
fn queue_of(alloc: Global, octets: &[u8]) -> Result<Record, ReadFault>
    ensures { ReadsInto (λ x. x) result (queue_at octets.now) }
{
    let (path, rest) = list_of(alloc, octets)?;
    let (count, rest) = number_of(rest)?;
    let (addresses, rest) = lists_of(alloc, count, rest)?;
    let (octets, rest) = list_of(alloc, rest)?;
    ended(
        Record::Queue {
            path,
            addresses,
            mark: None,
            octets,
        },
        rest,
    )
}

#[tactic(auto, unfolding(crate::specs::private::Reading::marked_queue_at))]
fn marked_queue_of(alloc: Global, octets: &[u8]) -> Result<Record, ReadFault>
    ensures { ReadsInto (λ x. x) result (marked_queue_at octets.now) }
{
    let (path, rest) = list_of(alloc, octets)?;
    let (count, rest) = number_of(rest)?;
    let (addresses, rest) = lists_of(alloc, count, rest)?;
    let (mark, rest) = octet_of(rest)?;
    let (octets, rest) = list_of(alloc, rest)?;
    ended(
        Record::Queue {
            path,
            addresses,
            mark: Some(mark),
            octets,
        },
        rest,
    )
}

#[tactic(auto, unfolding(crate::specs::private::Reading::settle_at))]
fn settle_of(octets: &[u8]) -> Result<Record, ReadFault>
    ensures { ReadsInto (λ x. x) result (settle_at octets.now) }
{
    let (entry, rest) = number_of(octets)?;
    let (index, rest) = number_of(rest)?;
    ended(Record::Settle { entry, index }, rest)
}

#[tactic(auto, unfolding(crate::specs::private::Reading::kind_at))]
fn kind_of(alloc: Global, kind: u8, octets: &[u8]) -> Result<Record, ReadFault>
    ensures { ReadsInto (λ x. x) result (kind_at kind octets.now) }
{
    match kind {
        1 => account_of(alloc, octets),
        2 => domain_of(alloc, octets),
        3 => folder_of(alloc, octets),
        4 => message_of(alloc, octets),
        5 => flags_of(octets),
        6 => expunge_of(octets),
        7 => queue_of(alloc, octets),
        8 => settle_of(octets),
        9 => marked_message_of(alloc, octets),
        10 => marked_queue_of(alloc, octets),
        11 => ended(Record::Version, octets),
        _ => Err(ReadFault::NoRecord),
    }
}

#[tactic(auto, unfolding(crate::specs::private::Reading::record_at))]
fn record_of(alloc: Global, fields: &[u8]) -> Result<Record, ReadFault>
    ensures { ReadsInto (λ x. x) result (record_at fields.now) }
{
    let (kind, rest) = octet_of(fields)?;
    kind_of(alloc, kind, rest)
}

/// The record that has these fields.
pub fn read_record(alloc: Global, fields: &[u8]) -> Result<Record, ReadFault>
    ensures spelled { IfOk result (λ one. fields.now ≡ fields_of one) }
    ensures fits { IfOk result Fits }
    ensures no_record { result ≡ Err ReadFault.NoRecord → (one : RecordValue) → Fits one → fields.now ≢ fields_of one }
{
    record_of(alloc, fields)
}
