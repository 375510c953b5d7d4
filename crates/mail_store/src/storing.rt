//! The store: what is kept, and the indexes beside it.
ghost use Rattle.std.specs.Prelude.{◌≡◌, ◌↔◌, ◌+◌, ◌^◌, ◌<◌, ◌≤◌, length, IfOk, IfSome, false, slice_get, Some, IsTrue, option_map, IsUtf8};
ghost use Rattle.std.specs.List.{All};
ghost use Rattle.address_grammar.specs.Paths.{ComesInPath};
ghost use Rattle.kept_mail.specs.declared.limits.TheConstants.{MESSAGE_MAX, THINGS_MAX};
ghost use Rattle.journal_records.specs.declared.records.Record.TheVariants as records;
ghost use Rattle.mail_store.specs.private.Adding.{AddsRecord, CanWait, IsKeyed, IsFolderKeyed, lengthened, ended_at, noted};
ghost use Rattle.journal_records.specs.Addresses.{WithPaths};
ghost use Rattle.kept_mail.specs.Kept.{nothing, inbox_of, uid_next, listed, logged_in, find_account, is_local, name_of};
ghost use Rattle.kept_mail.specs.Records.{IsInOrder};
ghost use Rattle.journal_records.specs.Stored.{HasMark, IsStored};

use crate::names::{Mailboxes, mailbox_number, put_mailbox};
use crate::queue::{put_next, settle_open};
use crate::writing::Progress;
use address_grammar::Address;
use journal_records::{
    ReadFault, Record, StoredOctets, Texts, are_addresses, domain_key, is_domain_text,
    is_folder_name, is_path_text, mailbox_key, read_text,
};
use kept_mail::{
    Account, Content, Entry, Folder, Listed, Message, account_fits, are_too_many, folder_key,
    has_password, has_room, is_live, is_unsettled, list_back, message_fits, number_of,
    push_reserved, put_account, put_first, put_flags, put_folder, put_message, reserve_account,
    reserve_folder, take_away, waiting_entry,
};
use mail_wire::{Memory, Octets};
use std::alloc::Global;
use std::collections::BTreeMap;
use std::marker::Model;

/// The store of a mail system.
#[derive(Debug, Drop)]
pub struct Store {
    pub(crate) alloc: Global,
    pub(crate) message_max: u32,
    pub(crate) progress: Progress,
    pub(crate) accounts: Vec<Account>,
    pub(crate) domains: Vec<Octets>,
    pub(crate) folders: Vec<Folder>,
    pub(crate) messages: Vec<Message>,
    pub(crate) entries: Vec<Entry>,
    // how many messages each folder ever had, and the last of them
    pub(crate) contents: Vec<Content>,
    // the message before each message in its folder
    pub(crate) previous: Vec<Option<u32>>,
    // each account's first folder
    pub(crate) inboxes: Vec<u32>,
    // the first folder of each other name of an account
    pub(crate) names: BTreeMap<Vec<u8>, u32>,
    // the first account of each mailbox
    pub(crate) mailboxes: Mailboxes,
    // the first number of each domain
    pub(crate) locals: BTreeMap<Vec<u8>, u32>,
    // how many recipients the queue ever had
    pub(crate) recipients: usize,
    // how many recipients of each open entry wait
    pub(crate) open_entries: BTreeMap<u32, usize>,
}

impl Model for Store {
    ghost use Rattle.mail_store.specs.StoreState.{StoreState};

    ghost Value = { StoreState };

    ghost use Rattle.mail_store.specs.private.Store.{state_of, IsIndexed};

    ghost view = { state_of };

    ghost invariant = { IsIndexed };
}

// The name of a store without a domain.
const LOCALHOST: &str = "localhost";

// The text of a domain.
fn domain_text(domain: &[u8]) -> &str
    requires { IsUtf8 domain.now }
    ensures { result.now ≡ domain.now }
{
    std::str::from_utf8(domain).unwrap_or(LOCALHOST)
}

impl Store {
    /// A store of nothing.
    pub(crate) fn new(alloc: Global, message_max: u32) -> Self
        requires { message_max ≤ MESSAGE_MAX }
        ensures kept { result.kept ≡ nothing }
        ensures message_max { result.message_max ≡ message_max }
        ensures failed { result.failed ≡ false }
        ensures end { result.end ≡ 8 }
    {
        Store {
            alloc,
            message_max,
            progress: Progress {
                end: 8,
                failed: false,
            },
            accounts: Vec::new(alloc),
            domains: Vec::new(alloc),
            folders: Vec::new(alloc),
            messages: Vec::new(alloc),
            entries: Vec::new(alloc),
            contents: Vec::new(alloc),
            previous: Vec::new(alloc),
            inboxes: Vec::new(alloc),
            names: BTreeMap::new(alloc),
            mailboxes: Mailboxes::new(alloc),
            locals: BTreeMap::new(alloc),
            recipients: 0,
            open_entries: BTreeMap::new(alloc),
        }
    }

    // What the mailbox of an account's record is known by, or that it is none.
    fn recorded_key(&self, address: &[u8], password: &[u8]) -> Result<Octets, ReadFault>
        ensures { IsKeyed result self.now.kept address.now password.now }
    {
        if !account_fits(address, password, self.accounts.len(), self.folders.len()) {
            return Err(ReadFault::NoRecord);
        }
        let Some(own) = read_text(self.alloc, address)? else {
            return Err(ReadFault::NoRecord);
        };
        Ok(mailbox_key(self.alloc, &own)?)
    }

    // The record of an account is put last.
    fn add_account_record(&mut self, address: Octets, password: Octets) -> Result<(), ReadFault>
        ensures { AddsRecord self.old self.new result (records.Account address password) }
    {
        let key = self.recorded_key(address.as_slice(), password.as_slice())?;
        let account = self.accounts.len();
        let inbox = reserve_account(
            self.alloc,
            &mut self.accounts,
            &mut self.folders,
            &mut self.contents,
            &mut self.inboxes,
        )?;
        put_mailbox(
            self.alloc,
            &mut self.mailboxes,
            key.as_slice(),
            account as u32,
        )?;
        put_account(
            &mut self.accounts,
            &mut self.folders,
            &mut self.contents,
            &mut self.inboxes,
            Account { address, password },
            inbox,
        );
        Ok(())
    }

    // The record of a domain is put last.
    fn add_domain_record(&mut self, name: Octets) -> Result<(), ReadFault>
        ensures { AddsRecord self.old self.new result (records.Domain name) }
    {
        let number = self.domains.len();
        if !has_room(number) || !is_domain_text(self.alloc, name.as_slice())? {
            return Err(ReadFault::NoRecord);
        }
        self.domains.reserve(1)?;
        put_first(self.alloc, &mut self.locals, name.as_slice(), number as u32)?;
        push_reserved(&mut self.domains, name);
        Ok(())
    }

    // What the folder of a record is known by, or that it is none.
    fn recorded_folder_key(&self, account: u32, name: &[u8]) -> Result<Octets, ReadFault>
        ensures { IsFolderKeyed result self.now.kept account name.now }
    {
        if account as usize >= self.accounts.len()
            || !has_room(self.folders.len())
            || !is_folder_name(self.alloc, name)?
        {
            return Err(ReadFault::NoRecord);
        }
        Ok(folder_key(self.alloc, account, name)?)
    }

    // The record of a folder is put last.
    fn add_folder_record(&mut self, account: u32, name: Octets) -> Result<(), ReadFault>
        ensures { AddsRecord self.old self.new result (records.Folder account name) }
    {
        let key = self.recorded_folder_key(account, name.as_slice())?;
        let number = self.folders.len();
        reserve_folder(&mut self.folders, &mut self.contents)?;
        put_first(self.alloc, &mut self.names, key.as_slice(), number as u32)?;
        put_folder(
            &mut self.folders,
            &mut self.contents,
            Folder { account, name },
        );
        Ok(())
    }

    // The record of a message is put last.
    fn add_message_record(
        &mut self,
        folder: u32,
        flags: u8,
        mark: Option<u8>,
        date: Octets,
        octets: Octets,
    ) -> Result<(), ReadFault>
        ensures { AddsRecord self.old self.new result (records.Message folder flags mark date octets) }
    {
        let Some(octets) = StoredOctets::read(self.alloc, octets, mark)? else {
            return Err(ReadFault::NoRecord);
        };
        let count = self.messages.len();
        if !message_fits(folder, flags, date.as_slice(), self.folders.len(), count) {
            return Err(ReadFault::NoRecord);
        }
        self.messages.reserve(1)?;
        self.previous.reserve(1)?;
        let message = Message {
            folder,
            flags,
            live: true,
            date,
            octets,
        };
        put_message(
            &mut self.contents,
            &mut self.previous,
            &mut self.messages,
            message,
        );
        Ok(())
    }

    // The record of a message's flags is put last.
    fn add_flags_record(&mut self, message: u32, flags: u8) -> Result<(), ReadFault>
        ensures { AddsRecord self.old self.new result (records.Flags message flags) }
    {
        if flags >= 32 || !is_live(&self.messages, message) {
            return Err(ReadFault::NoRecord);
        }
        put_flags(&mut self.messages, message as usize, flags);
        Ok(())
    }

    // The record that a message goes is put last.
    fn add_expunge_record(&mut self, message: u32) -> Result<(), ReadFault>
        ensures { AddsRecord self.old self.new result (records.Expunge message) }
    {
        if !is_live(&self.messages, message) {
            return Err(ReadFault::NoRecord);
        }
        take_away(&mut self.messages, message as usize);
        Ok(())
    }

    // Whether the texts of a message that waits are in order, and there is room for it.
    fn can_wait(&self, path: &[u8], addresses: &[Octets]) -> Result<bool, Memory>
        ensures { IfOk result (λ can. IsTrue can ↔ CanWait self.now.kept path.now addresses.now) }
    {
        if !has_room(self.entries.len())
            || are_too_many(self.recipients, addresses.len())
            || !is_path_text(self.alloc, path)?
            || !are_addresses(self.alloc, addresses)?
        {
            return Ok(false);
        }
        Ok(true)
    }

    // The record of a message that waits is put last.
    fn add_queue_record(
        &mut self,
        path: Octets,
        addresses: Texts,
        mark: Option<u8>,
        octets: Octets,
    ) -> Result<(), ReadFault>
        ensures { AddsRecord self.old self.new result (records.Queue path addresses mark octets) }
    {
        if !self.can_wait(path.as_slice(), addresses.as_slice())? {
            return Err(ReadFault::NoRecord);
        }
        let Some(octets) = StoredOctets::read(self.alloc, octets, mark)? else {
            return Err(ReadFault::NoRecord);
        };
        let entry = waiting_entry(self.alloc, path, addresses, octets)?;
        put_next(
            &mut self.entries,
            &mut self.open_entries,
            &mut self.recipients,
            Some(entry),
        )?;
        Ok(())
    }

    // The record that a recipient is done with is put last.
    fn add_settle_record(&mut self, entry: u32, index: u32) -> Result<(), ReadFault>
        ensures { AddsRecord self.old self.new result (records.Settle entry index) }
    {
        if !is_unsettled(&self.entries, entry, index) {
            return Err(ReadFault::NoRecord);
        }
        settle_open(&mut self.entries, &mut self.open_entries, entry, index);
        Ok(())
    }

    /// A record is put last, or there is none.
    pub(crate) fn add(&mut self, one: Record) -> Result<(), ReadFault>
        ensures { AddsRecord self.old self.new result one }
    {
        match one {
            Record::Account { address, password } => self.add_account_record(address, password),
            Record::Domain { name } => self.add_domain_record(name),
            Record::Folder { account, name } => self.add_folder_record(account, name),
            Record::Message {
                folder,
                flags,
                mark,
                date,
                octets,
            } => self.add_message_record(folder, flags, mark, date, octets),
            Record::Flags { message, flags } => self.add_flags_record(message, flags),
            Record::Expunge { message } => self.add_expunge_record(message),
            Record::Queue {
                path,
                addresses,
                mark,
                octets,
            } => self.add_queue_record(path, addresses, mark, octets),
            Record::Settle { entry, index } => self.add_settle_record(entry, index),
            Record::Version => Ok(()),
        }
    }

    /// Whether the keeper may have other records than the store: a call was answered Keeper, or catching up was refused, and
    /// the store hasn't caught up since.
    pub fn failed(&self) -> bool
        ensures { result ≡ self.now.failed }
    {
        self.progress.failed
    }

    /// Where the journal of the store's records ends.
    pub(crate) fn end(&self) -> u64
        ensures { result ≡ self.now.end }
    {
        self.progress.end
    }

    /// The journal is so many octets longer.
    pub(crate) fn lengthen(&mut self, len: u64)
        requires { self.old.end + len < 2 ^ 64 }
        ensures { self.new ≡ lengthened self.old len }
    {
        self.progress.end += len;
    }

    /// The journal ends there.
    pub(crate) fn end_at(&mut self, end: u64)
        ensures { self.new ≡ ended_at self.old end }
    {
        self.progress.end = end;
    }

    /// Notes whether the keeper may have other records than the store.
    pub(crate) fn note_failed(&mut self, failed: bool)
        ensures { self.new ≡ noted self.old failed }
    {
        self.progress.failed = failed;
    }

    /// The most octets that a message may have that is taken.
    pub fn message_max(&self) -> u32
        ensures value { result ≡ self.now.message_max }
        ensures bound { result ≤ MESSAGE_MAX }
    {
        self.message_max
    }

    /// The first account whose mailbox the address names.
    pub fn find_account(&self, address: &Address) -> Result<Option<u32>, Memory>
        requires { ComesInPath address.now }
        ensures found { IfOk result (λ found. WithPaths (λ path_of. found ≡ find_account path_of self.now.kept address.now)) }
        ensures known { IfOk result (λ found. IfSome found (λ account. account < length self.now.kept.accounts)) }
    {
        let key = mailbox_key(self.alloc, address)?;
        Ok(mailbox_number(&self.mailboxes, key.as_slice()))
    }

    /// The account whose address the name is, and whose password this is. The first account of the mailbox counts alone.
    pub fn login(&self, name: &[u8], password: &[u8]) -> Result<Option<u32>, Memory>
        ensures found { IfOk result (λ found. WithPaths (λ path_of. found ≡ logged_in path_of self.now.kept name.now password.now)) }
        ensures known { IfOk result (λ found. IfSome found (λ account. account < length self.now.kept.accounts)) }
    {
        let Some(address) = read_text(self.alloc, name)? else {
            return Ok(None);
        };
        match self.find_account(&address)? {
            Some(account) if has_password(&self.accounts, account, password) => Ok(Some(account)),
            _ => Ok(None),
        }
    }

    /// Whether the domain is the same as one of the store's.
    pub fn is_local(&self, domain: &str) -> Result<bool, Memory>
        ensures { IfOk result (λ is. is ≡ is_local self.now.kept domain.now) }
    {
        let key = domain_key(self.alloc, domain)?;
        Ok(number_of(&self.locals, key.as_slice()).is_some())
    }

    /// The first folder of an account, its INBOX.
    pub fn inbox(&self, account: u32) -> u32
        requires { account < length self.now.kept.accounts }
        ensures value { inbox_of self.now.kept account ≡ Some result }
        ensures known { result < length self.now.kept.folders }
    {
        self.inboxes[account as usize]
    }

    /// The live messages of a folder, in order of their UIDs.
    pub fn list(&self, folder: u32) -> Result<Vec<Listed>, Memory>
        requires { folder < length self.now.kept.folders }
        ensures listing { IfOk result (λ listing. listing.items ≡ listed self.now.kept folder) }
        ensures known { IfOk result (λ listing. All (λ one. one.id < length self.now.kept.messages) listing.items) }
        ensures few { IfOk result (λ listing. length listing.items ≤ THINGS_MAX) }
    {
        let content = self.contents[folder as usize];
        let mut listing = list_back(self.alloc, &self.messages, &self.previous, content)?;
        listing.reverse();
        Ok(listing)
    }

    /// A message's octets.
    pub fn octets(&self, id: u32) -> &[u8]
        requires { id < length self.now.kept.messages }
        ensures octets { option_map (λ message. message.octets) (slice_get self.now.kept.messages id) ≡ Some result.now }
        ensures stored { IsStored result.now }
    {
        let message = &self.messages[id as usize];
        message.octets.as_slice()
    }

    /// The mark of a message's octets: 1 where an octet above 127 stands in a header block, and 2 where one stands anywhere.
    pub fn mark(&self, id: u32) -> u8
        requires { id < length self.now.kept.messages }
        ensures { IfSome (slice_get self.now.kept.messages id) (λ message. HasMark message.octets result) }
    {
        let message = &self.messages[id as usize];
        message.octets.mark()
    }

    /// A message's date.
    pub fn date(&self, id: u32) -> &[u8]
        requires { id < length self.now.kept.messages }
        ensures { option_map (λ message. message.date) (slice_get self.now.kept.messages id) ≡ Some result.now }
    {
        let message = &self.messages[id as usize];
        message.date.as_slice()
    }

    /// The number that the next message of a folder gets.
    pub fn uid_next(&self, folder: u32) -> u32
        requires { folder < length self.now.kept.folders }
        ensures { result ≡ uid_next self.now.kept folder }
    {
        self.contents[folder as usize].count + 1
    }

    /// The first domain, or else `localhost`.
    pub fn name(&self) -> &str
        ensures { result.now ≡ name_of self.now.kept }
    {
        match self.domains.first() {
            Some(domain) => domain_text(domain.as_slice()),
            None => LOCALHOST,
        }
    }

    /// How many accounts there are.
    pub fn account_count(&self) -> usize
        ensures { result ≡ length self.now.kept.accounts }
    {
        self.accounts.len()
    }

    /// How many folders there are.
    pub fn folder_count(&self) -> usize
        ensures { result ≡ length self.now.kept.folders }
    {
        self.folders.len()
    }

    /// How many messages there ever were.
    pub fn message_count(&self) -> usize
        ensures { result ≡ length self.now.kept.messages }
    {
        self.messages.len()
    }
}
