//! Records written as octets.
ghost use Rattle.std.specs.Prelude.{◌≡◌, ◌+◌, ◌∷◌, ◌++◌, ◌<◌, ◌≤◌, ◌^◌, IfOk, Some, length, map};
ghost use Rattle.std.specs.List.{flat_map, AllByRecursion};
ghost use Rattle.std.specs.Option.{option_to_list};
ghost use Rattle.address_grammar.specs.Addresses.{address_text};
ghost use Rattle.journal_records.specs.declared.limits.TheConstants.{RECORD_MAX, TEXT_MAX};
ghost use Rattle.journal_records.specs.declared.records.Record.TheVariants as records;
ghost use Rattle.journal_records.specs.Addresses.{IsSendable};
ghost use Rattle.journal_records.specs.Spelling.{number as number_octets, octet_list, fields_of, record_text, HasLength, Fits, IsWritableRecord};
ghost use Rattle.journal_records.specs.Writing.{PutsText};
ghost use Rattle.journal_records.specs.private.Heads.{message_head, queue_head, queue_kind};

use crate::records::Record;
use address_grammar::{Address, write_address};
use mail_wire::{Memory, Octets};
use std::alloc::Global;

fn number(n: usize) -> [u8; 4]
    requires { n < 2 ^ 32 }
    ensures { result ≡ number_octets n }
{
    (n as u32).to_be_bytes()
}

// Puts these octets last, one part after the other.
fn push_parts(journal: &mut Octets, parts: &[&[u8]]) -> Result<(), Memory>
    ensures { PutsText journal.old journal.new result (flat_map (λ part. part.now) parts.now) }
{
    for part in parts {
        journal.push_slice(part)?;
    }
    Ok(())
}

fn push_number(journal: &mut Octets, n: usize) -> Result<(), Memory>
    requires { n < 2 ^ 32 }
    ensures { PutsText journal.old journal.new result (number_octets n) }
{
    push_parts(journal, &[&number(n)])
}

fn push_list(journal: &mut Octets, octets: &[u8]) -> Result<(), Memory>
    requires { HasLength octets.now }
    ensures { PutsText journal.old journal.new result (octet_list octets.now) }
{
    push_parts(journal, &[&number(octets.len()), octets])
}

fn push_lists(journal: &mut Octets, lists: &[Octets]) -> Result<(), Memory>
    requires { AllByRecursion HasLength lists.now }
    ensures { PutsText journal.old journal.new result (flat_map octet_list lists.now) }
{
    for list in lists {
        push_list(journal, list.as_slice())?;
    }
    Ok(())
}

// How many octets these lists have, each after its length.
fn lists_len(lists: &[Octets]) -> usize
    requires { length (flat_map octet_list lists.now) ≤ RECORD_MAX }
    ensures { result ≡ length (flat_map octet_list lists.now) }
{
    let mut len = 0;
    for list in lists {
        len += 4 + list.len();
    }
    len
}

// How many octets a mark takes.
fn mark_len(mark: Option<u8>) -> usize
    ensures { result ≡ length (option_to_list mark) }
{
    match mark {
        Some(_) => 1,
        None => 0,
    }
}

// How many octets the kind and the fields of a message have.
fn message_len(mark: Option<u8>, date: &[u8], octets: &[u8]) -> usize
    requires { length (option_to_list mark) + length date.now + length octets.now + 14 ≤ RECORD_MAX }
    ensures { result ≡ 14 + length (option_to_list mark) + length date.now + length octets.now }
{
    14 + mark_len(mark) + date.len() + octets.len()
}

// How many octets the kind and the fields of a waiting message have.
fn queue_len(path: &[u8], addresses: &[Octets], mark: Option<u8>, octets: &[u8]) -> usize
    requires { length (fields_of (records.Queue path.now addresses.now mark octets.now)) ≤ RECORD_MAX }
    ensures { result ≡ length (fields_of (records.Queue path.now addresses.now mark octets.now)) }
{
    13 + path.len() + lists_len(addresses) + mark_len(mark) + octets.len()
}

// How many octets the kind and the fields of a record have.
fn fields_len(one: &Record) -> usize
    requires fits { Fits one.now }
    requires short { length (fields_of one.now) ≤ RECORD_MAX }
    ensures { result ≡ length (fields_of one.now) }
{
    match one {
        Record::Account { address, password } => 9 + address.len() + password.len(),
        Record::Domain { name } => 5 + name.len(),
        Record::Folder { name, .. } => 9 + name.len(),
        Record::Message {
            mark,
            date,
            octets,
            ..
        } => message_len(*mark, date.as_slice(), octets.as_slice()),
        Record::Flags { .. } => 6,
        Record::Expunge { .. } => 5,
        Record::Queue {
            path,
            addresses,
            mark,
            octets,
        } => queue_len(
            path.as_slice(),
            addresses.as_slice(),
            *mark,
            octets.as_slice(),
        ),
        Record::Settle { .. } => 9,
        Record::Version => 1,
    }
}

fn push_account(journal: &mut Octets, address: &[u8], password: &[u8]) -> Result<(), Memory>
    requires address { HasLength address.now }
    requires password { HasLength password.now }
    ensures { PutsText journal.old journal.new result (1 ∷ (octet_list address.now ++ octet_list password.now)) }
{
    push_parts(
        journal,
        &[
            &[1],
            &number(address.len()),
            address,
            &number(password.len()),
            password,
        ],
    )
}

fn push_folder(journal: &mut Octets, account: u32, name: &[u8]) -> Result<(), Memory>
    requires { HasLength name.now }
    ensures { PutsText journal.old journal.new result (3 ∷ (number_octets account ++ octet_list name.now)) }
{
    push_parts(
        journal,
        &[&[3], &account.to_be_bytes(), &number(name.len()), name],
    )
}

// The kind of a message, and what stands before its date.
fn push_message_head(
    journal: &mut Octets,
    folder: u32,
    flags: u8,
    mark: Option<u8>,
) -> Result<(), Memory>
    ensures { PutsText journal.old journal.new result (message_head folder flags mark) }
{
    match mark {
        None => push_parts(journal, &[&[4], &folder.to_be_bytes(), &[flags]]),
        Some(mark) => push_parts(journal, &[&[9], &folder.to_be_bytes(), &[flags, mark]]),
    }
}

// What stands before the octets of a message, which are so many.
fn push_message_front(
    journal: &mut Octets,
    folder: u32,
    flags: u8,
    mark: Option<u8>,
    date: &[u8],
    len: usize,
) -> Result<(), Memory>
    requires date { HasLength date.now }
    requires len { len < 2 ^ 32 }
    ensures { PutsText journal.old journal.new result (message_head folder flags mark ++ (octet_list date.now ++ number_octets len)) }
{
    push_message_head(journal, folder, flags, mark)?;
    push_parts(journal, &[&number(date.len()), date, &number(len)])
}

fn push_message(
    journal: &mut Octets,
    folder: u32,
    flags: u8,
    mark: Option<u8>,
    date: &[u8],
    octets: &[u8],
) -> Result<(), Memory>
    requires date { HasLength date.now }
    requires octets { HasLength octets.now }
    ensures { PutsText journal.old journal.new result (fields_of (records.Message folder flags mark date.now octets.now)) }
{
    push_message_front(journal, folder, flags, mark, date, octets.len())?;
    push_parts(journal, &[octets])
}

// The kind of a waiting message, and what stands before its addresses.
fn push_path(
    journal: &mut Octets,
    path: &[u8],
    mark: Option<u8>,
    count: usize,
) -> Result<(), Memory>
    requires path { HasLength path.now }
    requires count { count < 2 ^ 32 }
    ensures { PutsText journal.old journal.new result (queue_kind mark ∷ (octet_list path.now ++ number_octets count)) }
{
    match mark {
        None => push_parts(journal, &[&[7], &number(path.len()), path, &number(count)]),
        Some(_) => push_parts(journal, &[&[10], &number(path.len()), path, &number(count)]),
    }
}

// The mark, where there is one, and how many octets follow.
fn push_mark(journal: &mut Octets, mark: Option<u8>, len: usize) -> Result<(), Memory>
    requires { len < 2 ^ 32 }
    ensures { PutsText journal.old journal.new result (option_to_list mark ++ number_octets len) }
{
    match mark {
        None => push_number(journal, len),
        Some(mark) => push_parts(journal, &[&[mark], &number(len)]),
    }
}

// What stands before the octets of a waiting message, which are so many.
fn push_queue_front(
    journal: &mut Octets,
    path: &[u8],
    addresses: &[Octets],
    mark: Option<u8>,
    len: usize,
) -> Result<(), Memory>
    requires path { HasLength path.now }
    requires count { length addresses.now < 2 ^ 32 }
    requires addresses { AllByRecursion HasLength addresses.now }
    requires len { len < 2 ^ 32 }
    ensures { PutsText journal.old journal.new result (queue_head path.now addresses.now mark ++ number_octets len) }
{
    push_path(journal, path, mark, addresses.len())?;
    push_lists(journal, addresses)?;
    push_mark(journal, mark, len)
}

fn push_queue(
    journal: &mut Octets,
    path: &[u8],
    addresses: &[Octets],
    mark: Option<u8>,
    octets: &[u8],
) -> Result<(), Memory>
    requires path { HasLength path.now }
    requires count { length addresses.now < 2 ^ 32 }
    requires addresses { AllByRecursion HasLength addresses.now }
    requires octets { HasLength octets.now }
    ensures { PutsText journal.old journal.new result (fields_of (records.Queue path.now addresses.now mark octets.now)) }
{
    push_queue_front(journal, path, addresses, mark, octets.len())?;
    push_parts(journal, &[octets])
}

// Puts the kind and the fields of a record last.
fn push_fields(journal: &mut Octets, one: &Record) -> Result<(), Memory>
    requires { Fits one.now }
    ensures { PutsText journal.old journal.new result (fields_of one.now) }
{
    match one {
        Record::Account { address, password } => {
            push_account(journal, address.as_slice(), password.as_slice())
        }
        Record::Domain { name } => {
            push_parts(journal, &[&[2], &number(name.len()), name.as_slice()])
        }
        Record::Folder { account, name } => push_folder(journal, *account, name.as_slice()),
        Record::Message {
            folder,
            flags,
            mark,
            date,
            octets,
        } => push_message(
            journal,
            *folder,
            *flags,
            *mark,
            date.as_slice(),
            octets.as_slice(),
        ),
        Record::Flags { message, flags } => {
            push_parts(journal, &[&[5], &message.to_be_bytes(), &[*flags]])
        }
        Record::Expunge { message } => push_parts(journal, &[&[6], &message.to_be_bytes()]),
        Record::Queue {
            path,
            addresses,
            mark,
            octets,
        } => push_queue(
            journal,
            path.as_slice(),
            addresses.as_slice(),
            *mark,
            octets.as_slice(),
        ),
        Record::Settle { entry, index } => push_parts(
            journal,
            &[&[8], &entry.to_be_bytes(), &index.to_be_bytes()],
        ),
        Record::Version => push_parts(journal, &[&[11]]),
    }
}

/// Puts a record last, after its length. Want of memory may leave a first part of it there.
pub fn push_record(journal: &mut Octets, one: &Record) -> Result<(), Memory>
    requires fits { Fits one.now }
    requires short { length (fields_of one.now) ≤ RECORD_MAX }
    ensures puts { PutsText journal.old journal.new result (record_text one.now) }
{
    push_number(journal, fields_len(one))?;
    push_fields(journal, one)
}

// How many octets stand there, where the date has 26: room that is made at once.
const FRONT: usize = 45;

/// What stands before the octets in the text of a record of a message with a mark.
pub fn message_front(
    alloc: Global,
    folder: u32,
    flags: u8,
    mark: u8,
    date: &[u8],
    octets: &[u8],
) -> Result<Octets, Memory>
    requires { length date.now + length octets.now + 15 ≤ RECORD_MAX }
    ensures { IfOk result (λ front. front ++ octets.now ≡ record_text (records.Message folder flags (Some mark) date.now octets.now)) }
{
    let mut front = Octets::from_vec(Vec::with_capacity(alloc, FRONT)?);
    push_number(&mut front, message_len(Some(mark), date, octets))?;
    push_message_front(&mut front, folder, flags, Some(mark), date, octets.len())?;
    Ok(front)
}

/// What stands before the octets in the text of a record of a waiting message with a mark.
pub fn queue_front(
    alloc: Global,
    path: &[u8],
    addresses: &[Octets],
    mark: u8,
    octets: &[u8],
) -> Result<Octets, Memory>
    requires { IsWritableRecord (records.Queue path.now addresses.now (Some mark) octets.now) }
    ensures { IfOk result (λ front. front ++ octets.now ≡ record_text (records.Queue path.now addresses.now (Some mark) octets.now)) }
{
    let mut front = Octets::new(alloc);
    push_number(&mut front, queue_len(path, addresses, Some(mark), octets))?;
    push_queue_front(&mut front, path, addresses, Some(mark), octets.len())?;
    Ok(front)
}

/// The text of one record.
pub fn record_text(alloc: Global, one: &Record) -> Result<Octets, Memory>
    requires { IsWritableRecord one.now }
    ensures { IfOk result (λ text. text ≡ record_text one.now) }
{
    let mut text = Octets::new(alloc);
    push_record(&mut text, one)?;
    Ok(text)
}

/// The text of a domain's record.
pub fn domain_text(alloc: Global, name: &[u8]) -> Result<Octets, Memory>
    requires { IsWritableRecord (records.Domain name.now) }
    ensures { IfOk result (λ text. text ≡ record_text (records.Domain name.now)) }
{
    let made = Record::Domain {
        name: Octets::from_slice(alloc, name)?,
    };
    record_text(alloc, &made)
}

/// The text of an account's record.
pub fn account_text(alloc: Global, address: &Address, password: &[u8]) -> Result<Octets, Memory>
    requires address { IsSendable address.now }
    requires password { length password.now ≤ TEXT_MAX }
    ensures { IfOk result (λ text. text ≡ record_text (records.Account (address_text address.now) password.now)) }
{
    let made = Record::Account {
        address: write_address(alloc, address)?,
        password: Octets::from_slice(alloc, password)?,
    };
    record_text(alloc, &made)
}

/// The texts of the records that the messages go.
pub fn expunge_text(alloc: Global, ids: &[u32]) -> Result<Octets, Memory>
    ensures { IfOk result (λ text. text ≡ flat_map record_text (map records.Expunge ids.now)) }
{
    let mut text = Octets::new(alloc);
    for id in ids {
        push_record(&mut text, &Record::Expunge { message: *id })?;
    }
    Ok(text)
}

/// The text of a folder's record.
pub fn folder_text(alloc: Global, account: u32, name: &[u8]) -> Result<Octets, Memory>
    requires { IsWritableRecord (records.Folder account name.now) }
    ensures { IfOk result (λ text. text ≡ record_text (records.Folder account name.now)) }
{
    let made = Record::Folder {
        account,
        name: Octets::from_slice(alloc, name)?,
    };
    record_text(alloc, &made)
}

/// The text of the record that a message's flags are these from now on.
pub fn flags_text(alloc: Global, message: u32, flags: u8) -> Result<Octets, Memory>
    ensures { IfOk result (λ text. text ≡ record_text (records.Flags message flags)) }
{
    record_text(alloc, &Record::Flags { message, flags })
}
