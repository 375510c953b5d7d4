//! The calls that change a store, and write the change to its keeper.
ghost use Rattle.std.specs.Prelude.{◌≡◌, ◌≢◌, ◌≤◌, ◌<◌, ◌+◌, ◌==◌, ◌||◌, ◌∷◌, [], length, vec_len, vec_capacity, IfOk, OnOk, IfErr, IsUtf8, None, Err, false, map};
ghost use Rattle.std.specs.List.{All, IsDistinct, flat_map};
ghost use Rattle.mail_wire.specs.Keeping.{HasKeeperCause, one_more};
ghost use Rattle.ace_domains.specs.Domains.{normal_form, compared_form};
ghost use Rattle.kept_mail.specs.Kept.{is_local};
ghost use Rattle.mail_store.specs.private.Accounts.{IsNewAccount, room_refusal};
ghost use Rattle.kept_mail.specs.private.Delivering.{copied, IsEntryOf, fronts_text, delivery_text, HasShortCopies};
ghost use Rattle.mail_store.specs.private.Adding.{with_record, keeping};
ghost use Rattle.mail_store.specs.private.Writing.{Writes};
ghost use Rattle.address_grammar.specs.Addresses.{address_text};
ghost use Rattle.address_grammar.specs.Paths.{ComesInPath};
ghost use Rattle.journal_records.specs.declared.limits.TheConstants.{TEXT_MAX};
ghost use Rattle.journal_records.specs.declared.records.Record.TheVariants as records;
ghost use Rattle.journal_records.specs.Addresses.{WithPaths, IsSendable, mailbox_key as mailbox_key_of};
ghost use Rattle.journal_records.specs.Spelling.{record_text};
ghost use Rattle.journal_records.specs.Stored.{HasMark};
ghost use Rattle.mail_store.specs.Changing.{Changes, LeavesAll, LeavesKeeper, IsRefusedAs, IsDeliverable, domain_refusal, account_refusal, delivery_refusal, expunge_refusal, flags_refusal, expunged};
ghost use Rattle.kept_mail.specs.Deliveries.{queued as queued_of, copy_for, inboxes_of, has_many_things, delivered, has_large_octets as has_large_octets_of};
ghost use Rattle.mail_store.specs.declared.changing.StoreFault.TheVariants as faults;

use crate::names::mailbox_number;
use crate::queue::{close_next, open_next};
use crate::storing::Store;
use crate::writing::{Named, Progress, write, write_mailbox, write_named, write_parts};
use address_grammar::{Address, write_address};
use journal_records::{
    StoredOctets, account_text, domain_key, domain_text, expunge_text, flags_text, mailbox_key,
    message_front,
};
use kept_mail::{
    Account, Batch, Delivery, Entry, Message, are_live, are_too_many, has_large_octets,
    is_for_nobody, is_live, number_of, parts_of, push_reserved, put_account, put_batch, put_flags,
    reserve_account, reserve_delivery, take_away, waiting_of,
};
use mail_wire::{Keeper, Memory as OutOfMemory, Octets};
use std::alloc::{AllocError, AllocFailed, Global};
use thiserror::Error;

/// Why a store wasn't changed.
#[derive(Clone, Copy, Debug, PartialEq, Eq, Error)]
pub enum StoreFault {
    /// It is there already.
    #[error("exists")]
    Exists,
    /// It isn't there.
    #[error("not there")]
    NoSuch,
    /// Octets are more than the limit, or a kind of things would pass its limit.
    #[error("too large")]
    TooLarge,
    /// Want of memory.
    #[error("want of memory")]
    Memory,
    /// The keeper failed.
    #[error("keeper fault")]
    Keeper,
}

impl From<OutOfMemory> for StoreFault {
    ghost from_gives = { λ _ fault. fault ≡ faults.Memory };

    fn from(_error: OutOfMemory) -> StoreFault {
        StoreFault::Memory
    }
}

impl From<AllocError> for StoreFault {
    ghost from_gives = { λ _ fault. fault ≡ faults.Memory };

    fn from(_error: AllocError) -> StoreFault {
        StoreFault::Memory
    }
}

impl<T: Drop> From<AllocFailed<T>> for StoreFault {
    ghost from_gives = { λ _ fault. fault ≡ faults.Memory };

    fn from(_error: AllocFailed<T>) -> StoreFault {
        StoreFault::Memory
    }
}

fn account_made(alloc: Global, address: &Address, password: &[u8]) -> Result<Account, OutOfMemory>
    requires { ComesInPath address.now }
    ensures address { IfOk result (λ made. made.address ≡ address_text address.now) }
    ensures password { IfOk result (λ made. made.password ≡ password.now) }
{
    Ok(Account {
        address: write_address(alloc, address)?,
        password: Octets::from_slice(alloc, password)?,
    })
}

// What is put last for an account: what is written of it, and itself.
#[derive(Drop)]
struct NewAccount {
    named: Named,
    own: Account,
}

// What is written of a delivery, and what is put last for it.
#[derive(Clone, Copy)]
struct DeliveryWrite<'a> {
    alloc: Global,
    delivery: &'a Delivery,
    batch: &'a Batch,
}

// Makes room for the messages and the entry of a delivery, and writes its records.
fn write_delivery<J: Keeper>(
    keeper: &mut J,
    messages: &mut Vec<Message>,
    previous: &mut Vec<Option<u32>>,
    entries: &mut Vec<Entry>,
    progress: &mut Progress,
    delivery_write: DeliveryWrite,
) -> Result<(), StoreFault>
    ensures writes { Writes progress.old progress.new (J.observed keeper.old).octets (J.observed keeper.new).octets result
        (delivery_text delivery_write.entry.batch.now.fronts.items delivery_write.entry.batch.now.waiting.front delivery_write.entry.delivery.now) }
    ensures messages { messages.new.items ≡ messages.old.items }
    ensures previous { previous.new.items ≡ previous.old.items }
    ensures entries { entries.new.items ≡ entries.old.items }
    ensures message_room { OnOk result (vec_len messages.new + length delivery_write.entry.batch.now.copies.items ≤ vec_capacity messages.new) }
    ensures previous_room { OnOk result (vec_len previous.new + length delivery_write.entry.batch.now.copies.items ≤ vec_capacity previous.new) }
    ensures entry_room { OnOk result (vec_len entries.new < vec_capacity entries.new) }
    ensures cause { HasKeeperCause (J.observed keeper.old) (J.observed keeper.new) result StoreFault.Keeper }
    ensures once { OnOk result ((J.observed keeper.new).appends ≡ one_more (J.observed keeper.old).appends) }
    ensures untouched { IfErr result (LeavesKeeper (J.observed keeper.old) (J.observed keeper.new)) }
{
    reserve_delivery(
        messages,
        previous,
        entries,
        delivery_write.batch.copies.len(),
    )?;
    let parts = parts_of(
        delivery_write.alloc,
        &delivery_write.batch.fronts,
        &delivery_write.batch.waiting.front,
        delivery_write.delivery,
    )?;
    write_parts(keeper, &parts, progress)
}

impl Store {
    /// Makes a domain local.
    pub fn add_domain<J: Keeper>(&mut self, keeper: &mut J, domain: &str) -> Result<(), StoreFault>
        requires works { self.old.failed ≡ false }
        requires form { normal_form domain.now ≢ None }
        ensures changes { Changes self.old self.new (J.observed keeper.old).octets (J.observed keeper.new).octets result
            (records.Domain (compared_form domain.now) ∷ []) }
        ensures refusal { IsRefusedAs result (domain_refusal self.old.kept domain.now) }
        ensures cause { HasKeeperCause (J.observed keeper.old) (J.observed keeper.new) result StoreFault.Keeper }
        ensures once { OnOk result ((J.observed keeper.new).appends ≡ one_more (J.observed keeper.old).appends) }
        ensures untouched { IfErr result (LeavesKeeper (J.observed keeper.old) (J.observed keeper.new)) }
    {
        let named = self.named_domain(domain)?;
        self.domains.reserve(1)?;
        write_named(
            self.alloc,
            keeper,
            &mut self.locals,
            &named,
            &mut self.progress,
        )?;
        push_reserved(&mut self.domains, named.name);
        Ok(())
    }

    // What is written of a domain, unless it is refused.
    fn named_domain(&self, domain: &str) -> Result<Named, StoreFault>
        requires { normal_form domain.now ≢ None }
        ensures name { IfOk result (λ named. named.name ≡ compared_form domain.now) }
        ensures number { IfOk result (λ named. named.number ≡ length self.now.kept.domains) }
        ensures text { IfOk result (λ named. named.text ≡ record_text (records.Domain (compared_form domain.now))) }
        ensures refusal { IsRefusedAs result (domain_refusal self.now.kept domain.now) }
        ensures no_keeper { result ≢ Err faults.Keeper }
    {
        let name = domain_key(self.alloc, domain)?;
        if number_of(&self.locals, name.as_slice()).is_some() {
            return Err(StoreFault::Exists);
        }
        let number = self.domains.len();
        if are_too_many(number, 1) {
            return Err(StoreFault::TooLarge);
        }
        let text = domain_text(self.alloc, name.as_slice())?;
        Ok(Named {
            name,
            number: number as u32,
            text,
        })
    }

    /// Makes an account and its folder INBOX, and answers the account's number.
    pub fn add_account<J: Keeper>(
        &mut self,
        keeper: &mut J,
        address: &Address,
        password: &[u8],
    ) -> Result<u32, StoreFault>
        requires works { self.old.failed ≡ false }
        requires address { IsSendable address.now }
        requires password { length password.now ≤ TEXT_MAX }
        ensures changes { Changes self.old self.new (J.observed keeper.old).octets (J.observed keeper.new).octets result
            (records.Account (address_text address.now) password.now ∷ []) }
        ensures number { IfOk result (λ account. account ≡ length self.old.kept.accounts) }
        ensures refusal { WithPaths (λ path_of. IsRefusedAs result (account_refusal path_of self.old.kept address.now)) }
        ensures cause { HasKeeperCause (J.observed keeper.old) (J.observed keeper.new) result StoreFault.Keeper }
        ensures once { OnOk result ((J.observed keeper.new).appends ≡ one_more (J.observed keeper.old).appends) }
        ensures untouched { IfErr result (LeavesKeeper (J.observed keeper.old) (J.observed keeper.new)) }
    {
        let made = self.new_account(address, password)?;
        let own = made.own;
        self.put_new_account(keeper, &made.named, own)
    }

    // Puts an account last that isn't refused, and writes it.
    fn put_new_account<J: Keeper>(
        &mut self,
        keeper: &mut J,
        named: &Named,
        own: Account,
    ) -> Result<u32, StoreFault>
        requires { IsNewAccount self.old named.now.name named.now.number named.now.text own }
        ensures changes { Changes self.old self.new (J.observed keeper.old).octets (J.observed keeper.new).octets result
            (records.Account own.address own.password ∷ []) }
        ensures number { IfOk result (λ account. account ≡ length self.old.kept.accounts) }
        ensures refusal { IsRefusedAs result None }
        ensures cause { HasKeeperCause (J.observed keeper.old) (J.observed keeper.new) result StoreFault.Keeper }
        ensures once { OnOk result ((J.observed keeper.new).appends ≡ one_more (J.observed keeper.old).appends) }
        ensures untouched { IfErr result (LeavesKeeper (J.observed keeper.old) (J.observed keeper.new)) }
    {
        let account = named.number;
        let inbox = reserve_account(
            self.alloc,
            &mut self.accounts,
            &mut self.folders,
            &mut self.contents,
            &mut self.inboxes,
        )?;
        write_mailbox(
            self.alloc,
            keeper,
            &mut self.mailboxes,
            named,
            &mut self.progress,
        )?;
        put_account(
            &mut self.accounts,
            &mut self.folders,
            &mut self.contents,
            &mut self.inboxes,
            own,
            inbox,
        );
        Ok(account)
    }

    // What is put last for an account, unless it is refused.
    fn new_account(&self, address: &Address, password: &[u8]) -> Result<NewAccount, StoreFault>
        requires address { IsSendable address.now }
        requires password { length password.now ≤ TEXT_MAX }
        ensures name { IfOk result (λ made. made.named.name ≡ mailbox_key_of address.now) }
        ensures number { IfOk result (λ made. made.named.number ≡ length self.now.kept.accounts) }
        ensures text { IfOk result (λ made. made.named.text ≡ record_text (records.Account (address_text address.now) password.now)) }
        ensures address { IfOk result (λ made. made.own.address ≡ address_text address.now) }
        ensures password { IfOk result (λ made. made.own.password ≡ password.now) }
        ensures refusal { WithPaths (λ path_of. IsRefusedAs result (account_refusal path_of self.now.kept address.now)) }
        ensures no_keeper { result ≢ Err faults.Keeper }
    {
        let key = self.free_key(address)?;
        let text = account_text(self.alloc, address, password)?;
        let own = account_made(self.alloc, address, password)?;
        let number = self.accounts.len() as u32;
        let named = Named {
            name: key,
            number,
            text,
        };
        Ok(NewAccount { named, own })
    }

    // What the mailbox of an address is known by, unless an account of it is refused.
    fn free_key(&self, address: &Address) -> Result<Octets, StoreFault>
        requires { ComesInPath address.now }
        ensures key { IfOk result (λ key. key ≡ mailbox_key_of address.now) }
        ensures refusal { WithPaths (λ path_of. IsRefusedAs result (account_refusal path_of self.now.kept address.now)) }
        ensures no_keeper { result ≢ Err faults.Keeper }
    {
        let key = mailbox_key(self.alloc, address)?;
        if mailbox_number(&self.mailboxes, key.as_slice()).is_some() {
            return Err(StoreFault::Exists);
        }
        self.room_for_account(address.domain.as_slice())?;
        Ok(key)
    }

    // An account in this domain isn't refused for its domain, nor because there would be too many.
    fn room_for_account(&self, domain: &[u8]) -> Result<(), StoreFault>
        requires { IsUtf8 domain.now }
        ensures refusal { IsRefusedAs result (room_refusal self.now.kept domain.now) }
        ensures no_keeper { result ≢ Err faults.Keeper }
    {
        if !self.has_domain(domain)? {
            return Err(StoreFault::NoSuch);
        }
        if are_too_many(self.accounts.len(), 1) || are_too_many(self.folders.len(), 1) {
            return Err(StoreFault::TooLarge);
        }
        Ok(())
    }

    // Whether the octets are a domain that is the same as one of the store's.
    fn has_domain(&self, domain: &[u8]) -> Result<bool, OutOfMemory>
        requires { IsUtf8 domain.now }
        ensures { IfOk result (λ is. is ≡ is_local self.now.kept domain.now) }
    {
        match std::str::from_utf8(domain) {
            Ok(domain) => self.is_local(domain),
            Err(_) => unreachable!(),
        }
    }

    // What is kept of a delivery for a local account.
    fn local_octets(&self, delivery: &Delivery) -> Result<StoredOctets, OutOfMemory>
        requires { HasMark delivery.now.local_octets delivery.now.local_mark }
        ensures { IfOk result (λ octets. octets ≡ delivery.now.local_octets) }
    {
        let octets = Octets::from_slice(self.alloc, delivery.local_octets.as_slice())?;
        Ok(StoredOctets::new(octets, delivery.local_mark))
    }

    // The messages that are kept for the local accounts.
    fn copies(&self, delivery: &Delivery) -> Result<Vec<Message>, OutOfMemory>
        requires known { All (λ account. account < length self.now.kept.accounts) delivery.now.local }
        requires marked { HasMark delivery.now.local_octets delivery.now.local_mark }
        ensures { IfOk result (λ copies. copies.items
            ≡ map (copied delivery.now.date delivery.now.local_octets) (inboxes_of self.now.kept delivery.now.local)) }
    {
        let mut copies = Vec::new(self.alloc);
        for account in delivery.local.as_slice() {
            copies.push(Message {
                folder: self.inbox(*account),
                flags: 0,
                live: true,
                date: Octets::from_slice(self.alloc, delivery.date.as_slice())?,
                octets: self.local_octets(delivery)?,
            })?;
        }
        Ok(copies)
    }

    // What stands before the octets of the records of the messages that are kept for the local accounts.
    fn copy_fronts(&self, delivery: &Delivery) -> Result<Vec<Octets>, OutOfMemory>
        requires known { All (λ account. account < length self.now.kept.accounts) delivery.now.local }
        requires short { HasShortCopies delivery.now }
        ensures { IfOk result (λ fronts. fronts_text fronts.items delivery.now.local_octets
            ≡ flat_map record_text (map (copy_for delivery.now.date delivery.now.local_mark delivery.now.local_octets) (inboxes_of self.now.kept delivery.now.local))) }
    {
        let mut fronts = Vec::new(self.alloc);
        for account in delivery.local.as_slice() {
            let folder = self.inbox(*account);
            fronts.push(message_front(
                self.alloc,
                folder,
                0,
                delivery.local_mark,
                delivery.date.as_slice(),
                delivery.local_octets.as_slice(),
            )?)?;
        }
        Ok(fronts)
    }

    // Whether octets are more than the limit, or a kind of things would pass its limit.
    fn is_too_large(&self, delivery: &Delivery) -> bool
        ensures { result ≡ (has_large_octets_of self.now.message_max delivery.now || has_many_things self.now.kept delivery.now) }
    {
        has_large_octets(delivery, self.message_max)
            || are_too_many(self.messages.len(), delivery.local.len())
            || (delivery.remote.len() > 0
                && (are_too_many(self.entries.len(), 1)
                    || are_too_many(self.recipients, delivery.remote.len())))
    }

    /// Keeps a message for each local account, and puts one into the queue for the remote recipients, all by one call of the
    /// keeper. Nothing is written where there is nobody.
    pub fn deliver<J: Keeper>(
        &mut self,
        keeper: &mut J,
        delivery: &Delivery,
    ) -> Result<(), StoreFault>
        requires works { self.old.failed ≡ false }
        requires deliverable { IsDeliverable self.old delivery.now }
        ensures changes { Changes self.old self.new (J.observed keeper.old).octets (J.observed keeper.new).octets result (delivered self.old.kept delivery.now) }
        ensures refusal { IsRefusedAs result (delivery_refusal self.old delivery.now) }
        ensures nothing { delivered self.old.kept delivery.now ≡ [] → LeavesAll self.old self.new (J.observed keeper.old) (J.observed keeper.new) result }
        ensures cause { HasKeeperCause (J.observed keeper.old) (J.observed keeper.new) result StoreFault.Keeper }
        ensures once { delivered self.old.kept delivery.now ≢ [] → OnOk result ((J.observed keeper.new).appends ≡ one_more (J.observed keeper.old).appends) }
        ensures untouched { IfErr result (LeavesKeeper (J.observed keeper.old) (J.observed keeper.new)) }
    {
        let batch = self.batch(delivery)?;
        if is_for_nobody(delivery) {
            return Ok(());
        }
        self.put_delivery(keeper, delivery, batch)
    }

    // Puts a delivery last that isn't refused, and writes it.
    fn put_delivery<J: Keeper>(
        &mut self,
        keeper: &mut J,
        delivery: &Delivery,
        batch: Batch,
    ) -> Result<(), StoreFault>
        requires deliverable { IsDeliverable self.old delivery.now }
        requires taken { delivery_refusal self.old delivery.now ≡ None }
        requires text { delivery_text batch.fronts.items batch.waiting.front delivery.now
            ≡ flat_map record_text (delivered self.old.kept delivery.now) }
        requires copies { batch.copies.items
            ≡ map (copied delivery.now.date delivery.now.local_octets) (inboxes_of self.old.kept delivery.now.local) }
        requires entry { IsEntryOf batch.waiting.entry (queued_of delivery.now) }
        ensures changes { Changes self.old self.new (J.observed keeper.old).octets (J.observed keeper.new).octets result (delivered self.old.kept delivery.now) }
        ensures refusal { IsRefusedAs result None }
        ensures cause { HasKeeperCause (J.observed keeper.old) (J.observed keeper.new) result StoreFault.Keeper }
        ensures once { OnOk result ((J.observed keeper.new).appends ≡ one_more (J.observed keeper.old).appends) }
        ensures untouched { IfErr result (LeavesKeeper (J.observed keeper.old) (J.observed keeper.new)) }
    {
        let delivery_write = DeliveryWrite {
            alloc: self.alloc,
            delivery,
            batch: &batch,
        };
        open_next(&mut self.open_entries, &self.entries, &batch.waiting.entry)?;
        let written = write_delivery(
            keeper,
            &mut self.messages,
            &mut self.previous,
            &mut self.entries,
            &mut self.progress,
            delivery_write,
        );
        match written {
            Ok(()) => {
                put_batch(
                    &mut self.contents,
                    &mut self.previous,
                    &mut self.messages,
                    &mut self.entries,
                    &mut self.recipients,
                    batch,
                );
                Ok(())
            }
            Err(fault) => {
                close_next(&mut self.open_entries, &self.entries, batch);
                Err(fault)
            }
        }
    }

    // What is put last for a delivery, unless it is refused.
    fn batch(&self, delivery: &Delivery) -> Result<Batch, StoreFault>
        requires { IsDeliverable self.now delivery.now }
        ensures text { IfOk result (λ batch. delivery_text batch.fronts.items batch.waiting.front delivery.now
            ≡ flat_map record_text (delivered self.now.kept delivery.now)) }
        ensures copies { IfOk result (λ batch. batch.copies.items
            ≡ map (copied delivery.now.date delivery.now.local_octets) (inboxes_of self.now.kept delivery.now.local)) }
        ensures entry { IfOk result (λ batch. IsEntryOf batch.waiting.entry (queued_of delivery.now)) }
        ensures refusal { IsRefusedAs result (delivery_refusal self.now delivery.now) }
        ensures no_keeper { result ≢ Err faults.Keeper }
    {
        if self.is_too_large(delivery) {
            return Err(StoreFault::TooLarge);
        }
        Ok(self.made_batch(delivery)?)
    }

    // What is put last for a delivery that isn't refused.
    fn made_batch(&self, delivery: &Delivery) -> Result<Batch, OutOfMemory>
        requires deliverable { IsDeliverable self.now delivery.now }
        requires taken { delivery_refusal self.now delivery.now ≡ None }
        ensures text { IfOk result (λ batch. delivery_text batch.fronts.items batch.waiting.front delivery.now
            ≡ flat_map record_text (delivered self.now.kept delivery.now)) }
        ensures copies { IfOk result (λ batch. batch.copies.items
            ≡ map (copied delivery.now.date delivery.now.local_octets) (inboxes_of self.now.kept delivery.now.local)) }
        ensures entry { IfOk result (λ batch. IsEntryOf batch.waiting.entry (queued_of delivery.now)) }
    {
        let alloc = self.alloc;
        let fronts = self.copy_fronts(delivery)?;
        let copies = self.copies(delivery)?;
        let waiting = waiting_of(alloc, delivery)?;
        Ok(Batch {
            fronts,
            copies,
            waiting,
        })
    }

    /// Gives a message other flags in place of those that it has.
    pub fn set_flags<J: Keeper>(
        &mut self,
        keeper: &mut J,
        id: u32,
        flags: u8,
    ) -> Result<(), StoreFault>
        requires works { self.old.failed ≡ false }
        requires flags { flags < 32 }
        ensures changes { Changes self.old self.new (J.observed keeper.old).octets (J.observed keeper.new).octets result (records.Flags id flags ∷ []) }
        ensures refusal { IsRefusedAs result (flags_refusal self.old.kept id) }
        ensures cause { HasKeeperCause (J.observed keeper.old) (J.observed keeper.new) result StoreFault.Keeper }
        ensures once { OnOk result ((J.observed keeper.new).appends ≡ one_more (J.observed keeper.old).appends) }
        ensures untouched { IfErr result (LeavesKeeper (J.observed keeper.old) (J.observed keeper.new)) }
    {
        if !is_live(&self.messages, id) {
            return Err(StoreFault::NoSuch);
        }
        let text = flags_text(self.alloc, id, flags)?;
        write(keeper, text.as_slice(), &mut self.progress)?;
        put_flags(&mut self.messages, id as usize, flags);
        Ok(())
    }

    // The message goes.
    fn put_expunged(&mut self, id: u32)
        requires { id < length self.old.kept.messages }
        ensures { self.new ≡ with_record self.old (records.Expunge id) }
    {
        take_away(&mut self.messages, id as usize);
    }

    // The messages go.
    fn put_all_expunged(&mut self, ids: &[u32])
        requires { All (λ id. id < length self.old.kept.messages) ids.now }
        ensures { self.new ≡ keeping self.old (expunged ids.now) }
    {
        for id in ids {
            self.put_expunged(*id);
        }
    }

    /// Takes messages away, in order, by one call of the keeper. Nothing is written where there are none.
    pub fn expunge<J: Keeper>(&mut self, keeper: &mut J, ids: &[u32]) -> Result<(), StoreFault>
        requires works { self.old.failed ≡ false }
        requires distinct { IsDistinct (λ a b. a == b) ids.now }
        ensures changes { Changes self.old self.new (J.observed keeper.old).octets (J.observed keeper.new).octets result (expunged ids.now) }
        ensures refusal { IsRefusedAs result (expunge_refusal self.old.kept ids.now) }
        ensures nothing { expunged ids.now ≡ [] → LeavesAll self.old self.new (J.observed keeper.old) (J.observed keeper.new) result }
        ensures cause { HasKeeperCause (J.observed keeper.old) (J.observed keeper.new) result StoreFault.Keeper }
        ensures once { expunged ids.now ≢ [] → OnOk result ((J.observed keeper.new).appends ≡ one_more (J.observed keeper.old).appends) }
        ensures untouched { IfErr result (LeavesKeeper (J.observed keeper.old) (J.observed keeper.new)) }
    {
        if !are_live(&self.messages, ids) {
            return Err(StoreFault::NoSuch);
        }
        if ids.is_empty() {
            return Ok(());
        }
        let text = expunge_text(self.alloc, ids)?;
        write(keeper, text.as_slice(), &mut self.progress)?;
        self.put_all_expunged(ids);
        Ok(())
    }
}
