//! A message put last in a folder.
ghost use Rattle.std.specs.Prelude.{◌≡◌, ◌≢◌, ◌≤◌, ◌<◌, ◌+◌, ◌∷◌, ◌++◌, ◌||◌, [], length, nat_lt, vec_len, vec_capacity, IfOk, OnOk, IfErr, None, Some, Err, false};
ghost use Rattle.mail_wire.specs.Keeping.{HasKeeperCause, one_more};
ghost use Rattle.journal_records.specs.declared.limits.TheConstants.{RECORD_MAX};
ghost use Rattle.journal_records.specs.declared.records.Record.TheVariants as records;
ghost use Rattle.journal_records.specs.Spelling.{record_text};
ghost use Rattle.journal_records.specs.Stored.{HasMark};
ghost use Rattle.kept_mail.specs.Kept.{uid_next};
ghost use Rattle.kept_mail.specs.Records.{are_too_many};
ghost use Rattle.mail_store.specs.Changing.{Changes, LeavesKeeper, IsRefusedAs, IsAppendable, append_refusal};
ghost use Rattle.mail_store.specs.private.Appending.{live_message, IsNewMessage};
ghost use Rattle.mail_store.specs.private.Writing.{Writes};
ghost use Rattle.mail_store.specs.declared.changing.StoreFault.TheVariants as faults;

use crate::changing::StoreFault;
use crate::storing::Store;
use crate::writing::{Progress, write_parts};
use journal_records::{StoredOctets, message_front};
use kept_mail::{Message, are_too_many, put_message};
use mail_wire::{Keeper, Memory as OutOfMemory, Octets};
use std::alloc::Global;

/// What is noted of a message beside its octets: its flags, and the mark of the octets.
#[derive(Clone, Copy, Debug, PartialEq, Eq)]
pub struct Attributes {
    pub flags: u8,
    pub mark: u8,
}

// What is put last for a message: what is written of it before its octets, and itself.
#[derive(Drop)]
struct NewMessage {
    front: Octets,
    mark: u8,
    own: Message,
}

fn message_made(
    alloc: Global,
    folder: u32,
    attributes: Attributes,
    date: &[u8],
    octets: &[u8],
) -> Result<NewMessage, OutOfMemory>
    requires short { length date.now + length octets.now + 15 ≤ RECORD_MAX }
    requires marked { HasMark octets.now attributes.mark }
    ensures front { IfOk result (λ made. made.front ++ octets.now ≡ record_text (records.Message folder attributes.flags (Some attributes.mark) date.now octets.now)) }
    ensures mark { IfOk result (λ made. made.mark ≡ attributes.mark) }
    ensures own { IfOk result (λ made. made.own ≡ live_message folder attributes.flags date.now octets.now) }
{
    let own = Octets::from_slice(alloc, octets)?;
    Ok(NewMessage {
        front: message_front(
            alloc,
            folder,
            attributes.flags,
            attributes.mark,
            date,
            octets,
        )?,
        mark: attributes.mark,
        own: Message {
            folder,
            flags: attributes.flags,
            live: true,
            date: Octets::from_slice(alloc, date)?,
            octets: StoredOctets::new(own, attributes.mark),
        },
    })
}

// Makes room for a message, and writes its record.
fn write_message<J: Keeper>(
    keeper: &mut J,
    messages: &mut Vec<Message>,
    previous: &mut Vec<Option<u32>>,
    progress: &mut Progress,
    made: &NewMessage,
) -> Result<(), StoreFault>
    ensures writes { Writes progress.old progress.new (J.observed keeper.old).octets (J.observed keeper.new).octets result (made.now.front ++ made.now.own.octets) }
    ensures messages { messages.new.items ≡ messages.old.items }
    ensures previous { previous.new.items ≡ previous.old.items }
    ensures message_room { OnOk result (vec_len messages.new < vec_capacity messages.new) }
    ensures previous_room { OnOk result (vec_len previous.new < vec_capacity previous.new) }
    ensures cause { HasKeeperCause (J.observed keeper.old) (J.observed keeper.new) result StoreFault.Keeper }
    ensures once { OnOk result ((J.observed keeper.new).appends ≡ one_more (J.observed keeper.old).appends) }
    ensures untouched { IfErr result (LeavesKeeper (J.observed keeper.old) (J.observed keeper.new)) }
{
    messages.reserve(1)?;
    previous.reserve(1)?;
    let parts = [made.front.as_slice(), made.own.octets.as_slice()];
    write_parts(keeper, &parts, progress)
}

impl Store {
    /// Puts a message with these attributes and this date last in a folder, and answers its UID.
    pub fn append<J: Keeper>(
        &mut self,
        keeper: &mut J,
        folder: u32,
        attributes: Attributes,
        date: &[u8],
        octets: &[u8],
    ) -> Result<u32, StoreFault>
        requires works { self.old.failed ≡ false }
        requires appendable { IsAppendable self.old folder attributes.flags attributes.mark date.now octets.now }
        ensures changes { Changes self.old self.new (J.observed keeper.old).octets (J.observed keeper.new).octets result
            (records.Message folder attributes.flags (Some attributes.mark) date.now octets.now ∷ []) }
        ensures uid { IfOk result (λ uid. uid ≡ uid_next self.old.kept folder) }
        ensures refusal { IsRefusedAs result (append_refusal self.old octets.now) }
        ensures cause { HasKeeperCause (J.observed keeper.old) (J.observed keeper.new) result StoreFault.Keeper }
        ensures once { OnOk result ((J.observed keeper.new).appends ≡ one_more (J.observed keeper.old).appends) }
        ensures untouched { IfErr result (LeavesKeeper (J.observed keeper.old) (J.observed keeper.new)) }
    {
        let made = self.new_message(folder, attributes, date, octets)?;
        self.put_new_message(keeper, made)
    }

    // What is put last for a message, unless it is refused.
    fn new_message(
        &self,
        folder: u32,
        attributes: Attributes,
        date: &[u8],
        octets: &[u8],
    ) -> Result<NewMessage, StoreFault>
        requires { IsAppendable self.now folder attributes.flags attributes.mark date.now octets.now }
        ensures front { IfOk result (λ made. made.front ++ octets.now ≡ record_text (records.Message folder attributes.flags (Some attributes.mark) date.now octets.now)) }
        ensures mark { IfOk result (λ made. made.mark ≡ attributes.mark) }
        ensures own { IfOk result (λ made. made.own ≡ live_message folder attributes.flags date.now octets.now) }
        ensures refusal { IsRefusedAs result (append_refusal self.now octets.now) }
        ensures no_keeper { result ≢ Err faults.Keeper }
    {
        if self.has_no_place(octets) {
            return Err(StoreFault::TooLarge);
        }
        Ok(message_made(self.alloc, folder, attributes, date, octets)?)
    }

    // Whether octets are more than the limit, or there would be too many messages.
    fn has_no_place(&self, octets: &[u8]) -> bool
        ensures { result ≡ (nat_lt self.now.message_max (length octets.now) || are_too_many (length self.now.kept.messages) 1) }
    {
        octets.len() > self.message_max as usize || are_too_many(self.messages.len(), 1)
    }

    // Puts a message last that isn't refused, and writes it.
    fn put_new_message<J: Keeper>(
        &mut self,
        keeper: &mut J,
        made: NewMessage,
    ) -> Result<u32, StoreFault>
        requires { IsNewMessage self.old made.front made.mark made.own }
        ensures changes { Changes self.old self.new (J.observed keeper.old).octets (J.observed keeper.new).octets result
            (records.Message made.own.folder made.own.flags (Some made.mark) made.own.date made.own.octets ∷ []) }
        ensures uid { IfOk result (λ uid. uid ≡ uid_next self.old.kept made.own.folder) }
        ensures refusal { IsRefusedAs result None }
        ensures cause { HasKeeperCause (J.observed keeper.old) (J.observed keeper.new) result StoreFault.Keeper }
        ensures once { OnOk result ((J.observed keeper.new).appends ≡ one_more (J.observed keeper.old).appends) }
        ensures untouched { IfErr result (LeavesKeeper (J.observed keeper.old) (J.observed keeper.new)) }
    {
        let uid = self.uid_next(made.own.folder);
        write_message(
            keeper,
            &mut self.messages,
            &mut self.previous,
            &mut self.progress,
            &made,
        )?;
        put_message(
            &mut self.contents,
            &mut self.previous,
            &mut self.messages,
            made.own,
        );
        Ok(uid)
    }
}
