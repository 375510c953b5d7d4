//! What the store keeps.
ghost use Rattle.std.specs.Prelude.{◌≡◌, ◌<◌, ◌↔◌, IfOk, IsTrue, length, map, slice_get};
ghost use Rattle.kept_mail.specs.Kept.{waiting, change_at, settled};
ghost use Rattle.kept_mail.specs.Records.{IsWaiting};

use journal_records::{StoredOctets, Texts};
use mail_wire::{Items, Memory, Octets};
use std::alloc::Global;
use std::marker::Model;

/// An account: the text `local@domain` of its address, and its password.
#[derive(Debug, Drop)]
pub struct Account {
    pub address: Octets,
    pub password: Octets,
}

/// A folder: the number of its account, and its name, such as `INBOX`.
#[derive(Debug, Drop)]
pub struct Folder {
    pub account: u32,
    pub name: Octets,
}

/// A message: the number of its folder, its flags, whether it lives, its date, and its octets as they were delivered.
#[derive(Debug, Drop)]
pub struct Message {
    pub folder: u32,
    /// A sum of 1 Seen, 2 Answered, 4 Flagged, 8 Deleted and 16 Draft (RFC 3501, 2.3.2), as flags are everywhere here.
    pub flags: u8,
    /// It isn't expunged.
    pub live: bool,
    /// A date-time (RFC 3501), such as `01-Jan-1970 00:00:00 +0000`.
    pub date: Octets,
    pub octets: StoredOctets,
}

/// A recipient of the queue: the text `local@domain` of the address, and whether the recipient waits.
#[derive(Debug, Drop)]
pub struct Recipient {
    pub address: Octets,
    /// It isn't settled.
    pub waits: bool,
}

/// A list of recipients.
#[derive(Debug, Drop)]
pub struct Recipients {
    recipients: Vec<Recipient>,
}

impl Model for Recipients {
    ghost use Rattle.std.specs.Prelude.{List};
    ghost use Rattle.kept_mail.specs.declared.kept.Recipient.{Recipient};

    ghost Value = { List Recipient };

    ghost view = { λ a. a.recipients.items };
}

impl Recipients {
    /// Recipients at these addresses, each of whom waits.
    pub fn waiting(alloc: Global, addresses: Texts) -> Result<Self, Memory>
        ensures { IfOk result (λ made. made ≡ map waiting addresses) }
    {
        let mut recipients = Vec::new(alloc);
        for address in addresses.into_vec() {
            recipients.push(Recipient {
                address,
                waits: true,
            })?;
        }
        Ok(Recipients { recipients })
    }

    pub fn as_slice(&self) -> &[Recipient]
        ensures { result.now ≡ self.now }
    {
        &self.recipients
    }

    /// Whether there is such a recipient, who waits.
    pub fn is_waiting(&self, index: u32) -> bool
        ensures value { IsTrue result ↔ IsWaiting (slice_get self.now index) }
        ensures there { IsTrue result → index < length self.now }
    {
        match self.recipients.get(index as usize) {
            Some(recipient) => recipient.waits,
            None => false,
        }
    }

    /// The recipient waits no longer.
    pub fn settle(&mut self, index: u32)
        requires { index < length self.old }
        ensures { self.new ≡ change_at settled self.old index }
    {
        let recipient = &mut self.recipients[index as usize];
        recipient.waits = false;
    }
}

/// A message that waits for its recipients: the text of the path's address, empty for the null path, then they, then its octets.
#[derive(Debug, Drop)]
pub struct Entry {
    pub path: Octets,
    pub recipients: Recipients,
    pub octets: StoredOctets,
}

/// An entry whose recipients at these addresses all wait.
pub fn waiting_entry(
    alloc: Global,
    path: Octets,
    addresses: Texts,
    octets: StoredOctets,
) -> Result<Entry, Memory>
    ensures { IfOk result (λ entry. entry ≡ record { path = path; recipients = map waiting addresses; octets = octets }) }
{
    Ok(Entry {
        path,
        recipients: Recipients::waiting(alloc, addresses)?,
        octets,
    })
}

/// A live message of a folder: its number in the store, its UID in the folder, from 1 on (RFC 3501, 2.3.1.1), and its flags.
#[derive(Clone, Copy, Debug, PartialEq, Eq)]
pub struct Listed {
    pub id: u32,
    pub uid: u32,
    pub flags: u8,
}

/// A list of numbers.
pub type Numbers = Items<u32>;
