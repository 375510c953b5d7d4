//! Whether a record is in order, but for its addresses, its domain and its message's octets.
ghost use Rattle.std.specs.Prelude.{◌≡◌, ◌↔◌, ◌≤◌, ◌<◌, IsTrue, length, slice_get, false};
ghost use Rattle.std.specs.List.{list_all};
ghost use Rattle.std.specs.Option.{option_map_or};
ghost use Rattle.journal_records.specs.Grammar.{IsDate};
ghost use Rattle.kept_mail.specs.declared.kept.Message.{Message as MessageValue};
ghost use Rattle.kept_mail.specs.Records.{HasRoom, are_too_many, IsLive, IsUnsettled};

use crate::kept::{Entry, Message};
use crate::limits::THINGS_MAX;
use journal_records::{TEXT_MAX, is_date};

/// Whether one more thing of a kind passes no limit.
pub fn has_room(count: usize) -> bool
    ensures { IsTrue result ↔ HasRoom count }
{
    count < THINGS_MAX
}

/// Whether so many more things of a kind pass its limit.
pub fn are_too_many(count: usize, more: usize) -> bool
    requires { count ≤ THINGS_MAX }
    ensures { result ≡ are_too_many count more }
{
    more > THINGS_MAX - count
}

/// Whether an account's texts are within their limits, and there is room for it and its folder.
pub fn account_fits(address: &[u8], password: &[u8], accounts: usize, folders: usize) -> bool
    ensures { IsTrue result ↔ ((length address.now ≤ TEXT_MAX) × (length password.now ≤ TEXT_MAX) × HasRoom accounts × HasRoom folders) }
{
    address.len() <= TEXT_MAX
        && password.len() <= TEXT_MAX
        && has_room(accounts)
        && has_room(folders)
}

/// Whether a message's numbers and its date are in order, and there is room for it.
pub fn message_fits(folder: u32, flags: u8, date: &[u8], folders: usize, messages: usize) -> bool
    ensures { IsTrue result ↔ ((folder < folders) × (flags < 32) × IsDate date.now × HasRoom messages) }
{
    (folder as usize) < folders && flags < 32 && is_date(date) && has_room(messages)
}

/// Whether the message is there and isn't expunged.
pub fn is_live(messages: &[Message], message: u32) -> bool
    ensures value { IsTrue result ↔ IsLive (slice_get messages.now message) }
    ensures there { IsTrue result → message < length messages.now }
{
    match messages.get(message as usize) {
        Some(message) => message.live,
        None => false,
    }
}

/// Whether the entry has this recipient, who isn't settled.
pub fn is_unsettled(entries: &[Entry], entry: u32, index: u32) -> bool
    ensures value { IsTrue result ↔ IsUnsettled (slice_get entries.now entry) index }
    ensures there { IsTrue result → entry < length entries.now }
{
    match entries.get(entry as usize) {
        Some(entry) => entry.recipients.is_waiting(index),
        None => false,
    }
}

/// Whether each of the messages is there and isn't expunged.
pub fn are_live(messages: &[Message], ids: &[u32]) -> bool
    ensures { result ≡ list_all (λ id. option_map_or (λ (message : MessageValue). message.live) (slice_get messages.now id) false) ids.now }
{
    ids.iter().all(|id| is_live(messages, *id))
}
