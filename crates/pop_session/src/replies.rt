//! Replies on messages.
ghost use Rattle.std.specs.Prelude.{◌≡◌, ◌<◌, ◌-◌, ◌^◌, min, ℕ, ◌++◌, length, IfOk, IfSome, OnOk, string_bytes, codes, []};
ghost use Rattle.mail_wire.specs.Lines.{crlf};
ghost use Rattle.session_core.specs.Desks.{IsOpen, stored_octets};
ghost use Rattle.session_core.specs.Doing.{Asks, AsksAndReplies, Replies, wanting};
ghost use Rattle.session_core.specs.Keeps.{Keeps, fault_of};
ghost use Rattle.session_core.specs.Oracles.{Oracles, WithOracles};
ghost use Rattle.pop_session.specs.private.Asked.{IsAsked, IsKnown};
ghost use Rattle.mail_wire.specs.Numbers.{number_of};
ghost use Rattle.pop_session.specs.Machine.{asked_for, asked_for_left, size_of, uid_row, stat_reply, listing_reply, listing_one_reply, retr_reply, top_reply, listed_at as message_at_of, two_numbers};
ghost use Rattle.pop_session.specs.Replies.{reply_octets};
ghost use Rattle.pop_session.specs.States.{Knows};

use crate::states::MaildropMessage;
use crate::stuffing::{ShownLines, StoredLines};
use crate::top::top_length;
use kept_mail::Listed;
use mail_store::Store;
use mail_wire::{Clock, Fault, Keeper, Memory, Wire, read_number};
use session_core::{Giving, Outside};
use std::alloc::Global;
use surrogate_cache::View;

// How many octets a session of this kind is served of a message.
fn size<V: View, W: Wire, J: Keeper, C: Clock>(
    one: &Listed,
    outside: &mut Outside<W, J, C>,
) -> Result<usize, Memory>
    requires opens { IsOpen outside.old.desk }
    requires id { one.now.id < length outside.old.desk.store.kept.messages }
    ensures size { IfOk result (λ n. WithOracles (λ oracles. n ≡ size_of oracles V.mode outside.old.desk.store one.now)) }
    ensures asks { Asks outside.old outside.new (wanting result) (asked_for V.mode outside.old.desk.store one.now) }
    ensures keeps { Keeps outside.old outside.new (wanting result) }
{
    outside.size::<V>(one.id)
}

/// How many messages aren't marked, and the sum of their sizes.
pub fn stat<V: View, W: Wire, J: Keeper, C: Clock>(
    maildrop: &[MaildropMessage],
    outside: &mut Outside<W, J, C>,
) -> Result<String, Memory>
    requires opens { IsOpen outside.old.desk }
    requires known { Knows outside.old.desk.store maildrop.now }
    ensures text { IfOk result (λ text. WithOracles (λ oracles.
        string_bytes text ≡ reply_octets oracles (stat_reply oracles V.mode outside.old.desk.store maildrop.now))) }
    ensures asks { Asks outside.old outside.new (wanting result) (asked_for_left V.mode outside.old.desk.store maildrop.now) }
    ensures keeps { Keeps outside.old outside.new (wanting result) }
{
    let mut count: usize = 0;
    let mut total: u128 = 0;
    for one in maildrop {
        if !one.deleted {
            count += 1;
            total += size::<V, W, J, C>(&one.listed, outside)? as u128;
        }
    }
    let alloc = outside.alloc();
    Ok(format!(in alloc; "+OK {count} {total}\r\n")?)
}

fn listing_line(alloc: Global, number: usize, value: usize) -> Result<String, Memory>
    ensures { IfOk result (λ text. string_bytes text ≡ two_numbers [] number value ++ crlf) }
{
    Ok(format!(in alloc; "{number} {value}\r\n")?)
}

// Puts the line of a message last, with its size.
fn push_listing<V: View, W: Wire, J: Keeper, C: Clock>(
    text: &mut String,
    number: usize,
    one: &Listed,
    outside: &mut Outside<W, J, C>,
) -> Result<(), Memory>
    requires opens { IsOpen outside.old.desk }
    requires id { one.now.id < length outside.old.desk.store.kept.messages }
    ensures text { OnOk result (WithOracles (λ oracles.
        string_bytes text.new ≡ string_bytes text.old ++ (two_numbers [] number (size_of oracles V.mode outside.old.desk.store one.now) ++ crlf))) }
    ensures asks { Asks outside.old outside.new (wanting result) (asked_for V.mode outside.old.desk.store one.now) }
    ensures keeps { Keeps outside.old outside.new (wanting result) }
{
    let value = size::<V, W, J, C>(one, outside)?;
    let line = listing_line(outside.alloc(), number, value)?;
    text.push_str(line.as_str())?;
    Ok(())
}

// The text with the line last that ends a listing.
fn ended(mut text: String) -> Result<String, Memory>
    ensures { IfOk result (λ whole. string_bytes whole ≡ string_bytes text ++ codes ".\r\n") }
{
    text.push_str(".\r\n")?;
    Ok(text)
}

/// A line for each message that isn't marked, with its size.
pub fn list<V: View, W: Wire, J: Keeper, C: Clock>(
    maildrop: &[MaildropMessage],
    outside: &mut Outside<W, J, C>,
) -> Result<String, Memory>
    requires opens { IsOpen outside.old.desk }
    requires known { Knows outside.old.desk.store maildrop.now }
    ensures text { IfOk result (λ text. WithOracles (λ oracles.
        string_bytes text ≡ reply_octets oracles (listing_reply (size_of oracles V.mode outside.old.desk.store) maildrop.now))) }
    ensures asks { Asks outside.old outside.new (wanting result) (asked_for_left V.mode outside.old.desk.store maildrop.now) }
    ensures keeps { Keeps outside.old outside.new (wanting result) }
{
    let mut text = String::from_str(outside.alloc(), "+OK\r\n")?;
    for (place, one) in maildrop.iter().enumerate() {
        if !one.deleted {
            push_listing::<V, W, J, C>(&mut text, place + 1, &one.listed, outside)?;
        }
    }
    ended(text)
}

/// A line for each message that isn't marked, with its UID.
pub fn uidl(alloc: Global, maildrop: &[MaildropMessage]) -> Result<String, Memory>
    ensures { IfOk result (λ text. (oracles : Oracles) → string_bytes text ≡ reply_octets oracles (listing_reply uid_row maildrop.now)) }
{
    let mut text = String::from_str(alloc, "+OK\r\n")?;
    for (place, one) in maildrop.iter().enumerate() {
        if !one.deleted {
            let line = listing_line(alloc, place + 1, one.listed.uid as usize)?;
            text.push_str(line.as_str())?;
        }
    }
    text.push_str(".\r\n")?;
    Ok(text)
}

/// The line of one message, with its size.
pub fn list_one<V: View, W: Wire, J: Keeper, C: Clock>(
    number: u64,
    one: &Listed,
    outside: &mut Outside<W, J, C>,
) -> Result<String, Memory>
    requires opens { IsOpen outside.old.desk }
    requires id { one.now.id < length outside.old.desk.store.kept.messages }
    ensures text { IfOk result (λ text. WithOracles (λ oracles.
        string_bytes text ≡ reply_octets oracles (listing_one_reply (size_of oracles V.mode outside.old.desk.store) number one.now))) }
    ensures asks { Asks outside.old outside.new (wanting result) (asked_for V.mode outside.old.desk.store one.now) }
    ensures keeps { Keeps outside.old outside.new (wanting result) }
{
    let size = size::<V, W, J, C>(one, outside)?;
    let alloc = outside.alloc();
    Ok(format!(in alloc; "+OK {number} {size}\r\n")?)
}

/// The line of one message, with its UID.
pub fn uidl_one(alloc: Global, number: u64, one: &Listed) -> Result<String, Memory>
    ensures { IfOk result (λ text. (oracles : Oracles) → string_bytes text ≡ reply_octets oracles (listing_one_reply uid_row number one.now)) }
{
    let uid = one.uid;
    Ok(format!(in alloc; "+OK {number} {uid}\r\n")?)
}

// Gives the lines of a message as a reply.
fn give_lines<G: Giving, W: Wire, J: Keeper, C: Clock>(
    id: u32,
    lines: &G,
    outside: &mut Outside<W, J, C>,
) -> Result<(), Fault>
    requires id { id < length outside.old.desk.store.kept.messages }
    requires fits { G.fits lines.now (stored_octets outside.old.desk.store id) }
    ensures replies { Replies outside.old outside.new (fault_of result) (codes "+OK\r\n" ++ G.given lines.now (stored_octets outside.old.desk.store id)) }
    ensures keeps { Keeps outside.old outside.new (fault_of result) }
{
    outside.give(b"+OK\r\n")?;
    outside.give_of(id, lines)
}

/// The octets of a message. Where UTF-8 is enabled they are those that are stored, and no tree is read for them.
pub fn retr<V: View, W: Wire, J: Keeper, C: Clock>(
    one: &Listed,
    outside: &mut Outside<W, J, C>,
) -> Result<(), Fault>
    requires opens { IsOpen outside.old.desk }
    requires id { one.now.id < length outside.old.desk.store.kept.messages }
    ensures replies { WithOracles (λ oracles. AsksAndReplies outside.old outside.new (fault_of result) (asked_for V.mode outside.old.desk.store one.now)
        (reply_octets oracles (retr_reply oracles V.mode outside.old.desk.store 0 one.now))) }
    ensures keeps { Keeps outside.old outside.new (fault_of result) }
{
    if V::enabled() {
        return give_lines(one.id, &StoredLines {}, outside);
    }
    let shown = outside.show::<V>(one.id)?;
    let len = shown.size(outside.octets(one.id));
    let lines = ShownLines { shown: &shown, len };
    give_lines(one.id, &lines, outside)
}

/// The header of a message, and so many lines after its empty line.
pub fn top<V: View, W: Wire, J: Keeper, C: Clock>(
    one: &Listed,
    lines: u64,
    outside: &mut Outside<W, J, C>,
) -> Result<(), Fault>
    requires opens { IsOpen outside.old.desk }
    requires id { one.now.id < length outside.old.desk.store.kept.messages }
    ensures replies { WithOracles (λ oracles. (n : ℕ) → min n (2 ^ 64 - 1) ≡ lines →
        AsksAndReplies outside.old outside.new (fault_of result) (asked_for V.mode outside.old.desk.store one.now)
        (reply_octets oracles (top_reply oracles V.mode outside.old.desk.store n 0 one.now))) }
    ensures keeps { Keeps outside.old outside.new (fault_of result) }
{
    let shown = outside.show::<V>(one.id)?;
    let len = top_length(&shown, outside.octets(one.id), lines);
    let lines = ShownLines { shown: &shown, len };
    give_lines(one.id, &lines, outside)
}

/// What a text asks for that is to be the number of a message.
#[derive(Clone, Copy, Debug)]
pub enum Asked {
    NotNumber,
    NoSuch,
    Found { number: u64, one: Listed },
}

/// The message of a number, from 1 on, unless it is marked.
pub fn message_at(store: &Store, maildrop: &[MaildropMessage], number: u64) -> Option<Listed>
    requires { Knows store.now maildrop.now }
    ensures message { result ≡ message_at_of maildrop.now number }
    ensures known { IfSome result (λ one. one.id < length store.now.kept.messages) }
{
    if number == 0 || number > maildrop.len() as u64 {
        return None;
    }
    let one = maildrop[(number - 1) as usize];
    if one.deleted {
        return None;
    }
    Some(one.listed)
}

/// The message that a text names.
pub fn find_message(store: &Store, maildrop: &[MaildropMessage], text: &[u8]) -> Asked
    requires { Knows store.now maildrop.now }
    ensures asked { IsAsked result maildrop.now (number_of text.now) }
    ensures known { IsKnown result store.now }
{
    let Some(number) = read_number(text) else {
        return Asked::NotNumber;
    };
    match message_at(store, maildrop, number) {
        Some(one) => Asked::Found { number, one },
        None => Asked::NoSuch,
    }
}
