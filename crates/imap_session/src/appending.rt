//! APPEND (RFC 3501, 6.3.11; RFC 6855, 4).
ghost use Rattle.std.specs.Prelude.{◌≡◌, ◌<◌, ◌^◌, ℕ, List, Some, length, IfOk, IfSome, OnOk};
ghost use Rattle.journal_records.specs.Grammar.{IsDate};
ghost use Rattle.kept_mail.specs.Kept.{Kept, listed};
ghost use Rattle.session_core.specs.Desks.{IsOpen};
ghost use Rattle.session_core.specs.Doing.{Does, Makes};
ghost use Rattle.session_core.specs.Keeps.{Keeps, fault_of};
ghost use Rattle.session_core.specs.Oracles.{Oracles, WithOracles};
ghost use Rattle.imap_session.specs.Machine.{authenticated, completed, context_of, date_or, lacks_date, selected as selected_in};
ghost use Rattle.imap_session.specs.Replies.{part_octets, reply_octets};
ghost use Rattle.imap_session.specs.Session.{TakesStepAt, selection_of};
ghost use Rattle.imap_session.specs.private.Appending.{IsDateFrom, WereListed, command_of, request_step, put_changes, put_lines, put_octets as put_octets_of, put_of, words_of_put};
ghost use Rattle.imap_session.specs.private.Selected.{KnowsSelected};

use crate::folders::find_named;
use crate::replies::{DONE, NO_SUCH_FOLDER, TOO_LARGE, answer, say};
use crate::states::{Authenticated, Imap, ImapState, Kind, Selected};
use journal_records::mark_of;
use kept_mail::Listed;
use mail_store::{Attributes, Store};
use mail_wire::{Clock, Fault, Keeper, Memory, Octets, Wire, is_ended};
use mime_tree::complete;
use session_core::{Delivered, Outside};
use std::alloc::Global;

/// What APPEND says: the name of a folder as it was written, and a message.
#[derive(Drop)]
pub struct AppendRequest<'a> {
    pub written: &'a [u8],
    pub flags: u8,
    pub date: &'a Option<Octets>,
    /// The octets came in the form with `UTF8`.
    pub in_utf8: bool,
    pub octets: &'a [u8],
}

/// The folder that a message was put into, or why it wasn't.
#[derive(Clone, Copy, Debug, PartialEq, Eq)]
pub enum Put {
    In(u32),
    NoFolder,
    /// UTF-8 is for sessions that enabled it.
    NotEnabled,
    /// The octets have no tree of entities.
    NoMessage,
    TooLarge,
}

/// The date that is given, or else that of this moment.
pub fn date_of<W: Wire, J: Keeper, C: Clock>(
    given: &Option<Octets>,
    outside: &mut Outside<W, J, C>,
) -> Result<Octets, Memory>
    ensures from { IfOk result (IsDateFrom outside.old.clock given.now) }
    ensures same { outside.new ≡ outside.old }
{
    match given {
        Some(date) => Octets::from_slice(outside.alloc(), date.as_slice()),
        None => {
            let timestamp = outside.now()?;
            Ok(timestamp.internal)
        }
    }
}

// Puts octets last in a folder, unless they are refused.
fn put_octets<W: Wire, J: Keeper, C: Clock>(
    folder: u32,
    flags: u8,
    date: &[u8],
    octets: &[u8],
    outside: &mut Outside<W, J, C>,
) -> Result<Put, Fault>
    requires opens { IsOpen outside.old.desk }
    requires folder { folder < length outside.old.desk.store.kept.folders }
    requires flags { flags < 32 }
    requires dated { IsDate date.now }
    ensures put { IfOk result (λ put. WithOracles (λ oracles. put ≡ put_octets_of (oracles.has_tree octets.now) outside.old.desk.store folder octets.now)) }
    ensures makes { WithOracles (λ oracles. Makes outside.old outside.new (fault_of result)
        (put_changes flags (oracles.mark_of octets.now) date.now octets.now (put_octets_of (oracles.has_tree octets.now) outside.old.desk.store folder octets.now))) }
    ensures keeps { Keeps outside.old outside.new (fault_of result) }
{
    let Some(mark) = mark_of(outside.alloc(), octets)? else {
        return Ok(Put::NoMessage);
    };
    let attributes = Attributes { flags, mark };
    match outside.append(folder, attributes, date, octets)? {
        Delivered::Stored => Ok(Put::In(folder)),
        Delivered::TooLarge => Ok(Put::TooLarge),
    }
}

// Puts the octets of a request last in a folder, with CRLF at their end, unless they are refused.
fn put_completed<W: Wire, J: Keeper, C: Clock>(
    folder: u32,
    request: &AppendRequest,
    date: &[u8],
    outside: &mut Outside<W, J, C>,
) -> Result<Put, Fault>
    requires opens { IsOpen outside.old.desk }
    requires folder { folder < length outside.old.desk.store.kept.folders }
    requires flags { request.now.flags < 32 }
    requires dated { IsDate date.now }
    ensures put { IfOk result (λ put. WithOracles (λ oracles.
        put ≡ put_octets_of (oracles.has_tree (completed request.now.octets.now)) outside.old.desk.store folder (completed request.now.octets.now))) }
    ensures makes { WithOracles (λ oracles. Makes outside.old outside.new (fault_of result)
        (put_changes request.now.flags (oracles.mark_of (completed request.now.octets.now)) date.now (completed request.now.octets.now)
        (put_octets_of (oracles.has_tree (completed request.now.octets.now)) outside.old.desk.store folder (completed request.now.octets.now)))) }
    ensures keeps { Keeps outside.old outside.new (fault_of result) }
{
    if is_ended(request.octets) {
        return put_octets(folder, request.flags, date, request.octets, outside);
    }
    let mut octets = Octets::from_slice(outside.alloc(), request.octets)?;
    complete(&mut octets)?;
    put_octets(folder, request.flags, date, octets.as_slice(), outside)
}

// Puts a request with this date last in the folder that it names, unless it is refused.
fn put_request<V: Kind, W: Wire, J: Keeper, C: Clock>(
    account: u32,
    request: &AppendRequest,
    date: &[u8],
    outside: &mut Outside<W, J, C>,
) -> Result<Put, Fault>
    requires opens { IsOpen outside.old.desk }
    requires flags { request.now.flags < 32 }
    requires dated { IsDate date.now }
    ensures put { IfOk result (λ put. WithOracles (λ oracles. put ≡ put_of oracles V.mode account outside.old.desk.store request.now)) }
    ensures makes { WithOracles (λ oracles. Makes outside.old outside.new (fault_of result)
        (put_changes request.now.flags (oracles.mark_of (completed request.now.octets.now)) date.now (completed request.now.octets.now) (put_of oracles V.mode account outside.old.desk.store request.now))) }
    ensures keeps { Keeps outside.old outside.new (fault_of result) }
{
    let found = find_named::<V>(outside.alloc(), outside.store(), account, request.written)?;
    let Some(folder) = found else {
        return Ok(Put::NoFolder);
    };
    if request.in_utf8 && !V::enabled() {
        return Ok(Put::NotEnabled);
    }
    put_completed(folder, request, date, outside)
}

// What APPEND answers.
fn put_words(put: Put) -> &'static [u8]
    ensures { result.now ≡ words_of_put put }
{
    match put {
        Put::In(_) => DONE,
        Put::NoFolder => NO_SUCH_FOLDER,
        Put::NotEnabled => b"NO not enabled",
        Put::NoMessage => b"NO not a message",
        Put::TooLarge => TOO_LARGE,
    }
}

// Lists the message that was put into the selected folder as its last one, if one was.
fn list_put(
    messages: &mut Vec<Listed>,
    opened: u32,
    put: Put,
    flags: u8,
    store: &Store,
) -> Result<(), Memory>
    requires known { opened < length store.now.kept.folders }
    requires were { WereListed store.now.kept opened flags put messages.old.items }
    requires few { length messages.old.items < 2 ^ 32 }
    ensures listing { OnOk result (messages.new.items ≡ listed store.now.kept opened) }
    ensures few { OnOk result (length messages.new.items < 2 ^ 32) }
{
    let Put::In(folder) = put else {
        return Ok(());
    };
    if folder != opened {
        return Ok(());
    }
    let id = (store.message_count() - 1) as u32;
    let uid = store.uid_next(folder) - 1;
    messages.push(Listed { id, uid, flags })?;
    Ok(())
}

// The line that tells how many messages the selected folder has, where one was put into it.
fn exists_line(alloc: Global, put: Put, opened: u32, count: usize) -> Result<Octets, Memory>
    ensures { IfOk result (λ line. (oracles : Oracles) (kept : Kept) → count ≡ length (listed kept opened) → line ≡ reply_octets oracles (put_lines (Some opened) kept put)) }
{
    let Put::In(folder) = put else {
        return Ok(Octets::new(alloc));
    };
    if opened != folder {
        return Ok(Octets::new(alloc));
    }
    let line = format!(in alloc; "* {count} EXISTS\r\n")?;
    Ok(Octets::from_vec(line.into_bytes()))
}

/// APPEND where no folder is selected.
pub fn append<V: Kind, W: Wire, J: Keeper, C: Clock>(
    imap: Imap<Authenticated, V>,
    tag: &[u8],
    request: &AppendRequest,
    outside: &mut Outside<W, J, C>,
) -> Result<Option<ImapState>, Fault>
    requires opens { IsOpen outside.old.desk }
    requires known { imap.state.account < length outside.old.desk.store.kept.accounts }
    requires flags { request.now.flags < 32 }
    requires dated { IfSome request.now.date.now IsDate }
    ensures takes { TakesStepAt outside.old outside.new result (lacks_date (command_of request.now)) (λ oracles now.
        request_step (context_of oracles now tag.now outside.old.desk.store) (authenticated V.mode imap.state.account) V.mode imap.state.account request.now
        (date_or now request.now.date.now)) }
    ensures keeps { Keeps outside.old outside.new (fault_of result) }
{
    let date = date_of(request.date, outside)?;
    let account = imap.state.account;
    let put = put_request::<V, W, J, C>(account, request, date.as_slice(), outside)?;
    say(tag, put_words(put), outside)?;
    Ok(Some(V::in_authenticated(imap)))
}

/// APPEND with this date where a folder is selected. The list of its messages is only put on, so the time is that of the message.
pub fn append_within<V: Kind, W: Wire, J: Keeper, C: Clock>(
    selected: &mut Selected,
    tag: &[u8],
    request: &AppendRequest,
    date: &[u8],
    outside: &mut Outside<W, J, C>,
) -> Result<(), Fault>
    requires opens { IsOpen outside.old.desk }
    requires known { KnowsSelected outside.old.desk.store selected.old }
    requires flags { request.now.flags < 32 }
    requires dated { IsDate date.now }
    ensures does { WithOracles (λ oracles. (now : List ℕ) → Does (part_octets oracles) outside.old outside.new (fault_of result)
        (request_step (context_of oracles now tag.now outside.old.desk.store) (selected_in (selection_of V.mode selected.old)) V.mode selected.old.account request.now
        date.now).acts) }
    ensures known { OnOk result (KnowsSelected outside.new.desk.store selected.new) }
    ensures same { selected.new ≡ record selected.old { messages = selected.new.messages } }
    ensures keeps { Keeps outside.old outside.new (fault_of result) }
{
    let put = put_request::<V, W, J, C>(selected.account, request, date, outside)?;
    list_put(
        &mut selected.messages,
        selected.folder,
        put,
        request.flags,
        outside.store(),
    )?;
    let count = selected.messages.len();
    let lines = exists_line(outside.alloc(), put, selected.folder, count)?;
    answer(lines, tag, put_words(put), outside)
}
