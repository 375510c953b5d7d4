//! Records written to a keeper.
ghost use Rattle.std.specs.Prelude.{◌≡◌, ◌+◌, List, ℕ, None, length, IfOk, OnOk, OnErr, IfErr};
ghost use Rattle.std.specs.List.{flat_map};
ghost use Rattle.mail_wire.specs.Keeping.{HasKeeperCause, one_more};
ghost use Rattle.kept_mail.specs.private.Names.{PutsName, number_named};
ghost use Rattle.mail_store.specs.private.Names.{number_hashed};
ghost use Rattle.mail_store.specs.Changing.{LeavesKeeper};
ghost use Rattle.mail_store.specs.private.Writing.{Writes};

use crate::changing::StoreFault;
use crate::names::{Mailboxes, put_mailbox, take_mailbox};
use kept_mail::{put_first, take_back};
use mail_wire::{Failed, Keeper, Memory as OutOfMemory, Octets};
use std::alloc::Global;
use std::collections::BTreeMap;

/// How far a store is in its journal.
#[derive(Clone, Copy, Debug, PartialEq, Eq)]
pub struct Progress {
    /// Where the journal of the store's records ends.
    pub end: u64,
    /// The keeper may have other records.
    pub failed: bool,
}

// Where a journal ends after these parts. One of 2^64 octets wants more memory than there is.
fn end_following(end: u64, parts: &[&[u8]]) -> Result<u64, OutOfMemory>
    ensures { IfOk result (λ last. last ≡ end + length (flat_map (λ part. part.now) parts.now)) }
{
    let mut last = end;
    for part in parts {
        last = match last.checked_add(part.len() as u64) {
            Some(sum) => sum,
            None => return Err(OutOfMemory),
        };
    }
    Ok(last)
}

/// Puts the text of records, in parts, last in the keeper, and notes where it ends, or that the keeper failed.
pub fn write_parts<J: Keeper>(
    keeper: &mut J,
    parts: &[&[u8]],
    progress: &mut Progress,
) -> Result<(), StoreFault>
    ensures writes { Writes progress.old progress.new (J.observed keeper.old).octets (J.observed keeper.new).octets result (flat_map (λ part. part.now) parts.now) }
    ensures cause { HasKeeperCause (J.observed keeper.old) (J.observed keeper.new) result StoreFault.Keeper }
    ensures once { OnOk result ((J.observed keeper.new).appends ≡ one_more (J.observed keeper.old).appends) }
    ensures untouched { IfErr result (LeavesKeeper (J.observed keeper.old) (J.observed keeper.new)) }
{
    let end = end_following(progress.end, parts)?;
    match keeper.append_all(parts) {
        Ok(()) => {
            progress.end = end;
            Ok(())
        }
        Err(Failed::Outside) => {
            progress.failed = true;
            Err(StoreFault::Keeper)
        }
        Err(Failed::Memory) => Err(StoreFault::Memory),
    }
}

/// Puts the text of records last in the keeper, and notes where it ends, or that the keeper failed.
pub fn write<J: Keeper>(
    keeper: &mut J,
    text: &[u8],
    progress: &mut Progress,
) -> Result<(), StoreFault>
    ensures writes { Writes progress.old progress.new (J.observed keeper.old).octets (J.observed keeper.new).octets result text.now }
    ensures cause { HasKeeperCause (J.observed keeper.old) (J.observed keeper.new) result StoreFault.Keeper }
    ensures once { OnOk result ((J.observed keeper.new).appends ≡ one_more (J.observed keeper.old).appends) }
    ensures untouched { IfErr result (LeavesKeeper (J.observed keeper.old) (J.observed keeper.new)) }
{
    write_parts(keeper, &[text], progress)
}

/// A name, the number that it is to get, and the text of the record that brings it.
#[derive(Drop)]
pub struct Named {
    pub name: Octets,
    pub number: u32,
    pub text: Octets,
}

/// Puts the number at a name that has none, and the text last in the keeper. Where that fails the name has none again.
pub fn write_named<J: Keeper>(
    alloc: Global,
    keeper: &mut J,
    numbers: &mut BTreeMap<Vec<u8>, u32>,
    named: &Named,
    progress: &mut Progress,
) -> Result<(), StoreFault>
    requires { number_named numbers.old named.now.name ≡ None }
    ensures writes { Writes progress.old progress.new (J.observed keeper.old).octets (J.observed keeper.new).octets result named.now.text }
    ensures ok { OnOk result (PutsName (number_named numbers.old) (number_named numbers.new) named.now.name named.now.number) }
    ensures err { OnErr result ((q : List ℕ) → number_named numbers.new q ≡ number_named numbers.old q) }
    ensures cause { HasKeeperCause (J.observed keeper.old) (J.observed keeper.new) result StoreFault.Keeper }
    ensures once { OnOk result ((J.observed keeper.new).appends ≡ one_more (J.observed keeper.old).appends) }
    ensures untouched { IfErr result (LeavesKeeper (J.observed keeper.old) (J.observed keeper.new)) }
{
    put_first(alloc, numbers, named.name.as_slice(), named.number)?;
    match write(keeper, named.text.as_slice(), progress) {
        Ok(()) => Ok(()),
        Err(fault) => {
            take_back(numbers, named.name.as_slice());
            Err(fault)
        }
    }
}

/// Puts the number at the name of a mailbox that has none, and the text last in the keeper. Where that fails the name has none again.
pub fn write_mailbox<J: Keeper>(
    alloc: Global,
    keeper: &mut J,
    numbers: &mut Mailboxes,
    named: &Named,
    progress: &mut Progress,
) -> Result<(), StoreFault>
    requires { number_hashed numbers.old named.now.name ≡ None }
    ensures writes { Writes progress.old progress.new (J.observed keeper.old).octets (J.observed keeper.new).octets result named.now.text }
    ensures ok { OnOk result (PutsName (number_hashed numbers.old) (number_hashed numbers.new) named.now.name named.now.number) }
    ensures err { OnErr result ((q : List ℕ) → number_hashed numbers.new q ≡ number_hashed numbers.old q) }
    ensures cause { HasKeeperCause (J.observed keeper.old) (J.observed keeper.new) result StoreFault.Keeper }
    ensures once { OnOk result ((J.observed keeper.new).appends ≡ one_more (J.observed keeper.old).appends) }
    ensures untouched { IfErr result (LeavesKeeper (J.observed keeper.old) (J.observed keeper.new)) }
{
    put_mailbox(alloc, numbers, named.name.as_slice(), named.number)?;
    match write(keeper, named.text.as_slice(), progress) {
        Ok(()) => Ok(()),
        Err(fault) => {
            take_mailbox(numbers, named.name.as_slice());
            Err(fault)
        }
    }
}
