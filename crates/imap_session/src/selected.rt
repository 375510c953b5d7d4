//! The commands on messages of a folder that is selected.
ghost use Rattle.std.specs.Prelude.{◌≡◌, ◌≢◌, ◌<◌, ◌^◌, ℕ, List, false, length, IfOk, IfSome, OnOk};
ghost use Rattle.std.specs.List.{All, flat_map};
ghost use Rattle.std.specs.List.Sorted.{IsStrictlyIncreasing};
ghost use Rattle.journal_records.specs.Grammar.{IsDate};
ghost use Rattle.kept_mail.specs.Kept.{listed};
ghost use Rattle.mail_store.specs.StoreState.{StoreState};
ghost use Rattle.mail_store.specs.Changing.{expunged};
ghost use Rattle.imap_grammar.specs.declared.command.Command.TheVariants as command_is;
ghost use Rattle.surrogate_cache.specs.Served.{Mode};
ghost use Rattle.session_core.specs.Changes.{calls_of};
ghost use Rattle.session_core.specs.Desks.{IsOpen};
ghost use Rattle.session_core.specs.Doing.{Does, Makes};
ghost use Rattle.session_core.specs.Keeps.{Keeps, fault_of};
ghost use Rattle.session_core.specs.Oracles.{WithOracles};
ghost use Rattle.imap_session.specs.Machine.{State, authenticated, close_step, context_of, date_or, deleted_ids as ids_of_deleted, done, ends_with, expunge_step, fetch_step, for_each, lacks_date, numbered_at, selected as selected_in, selected_step, store_step};
ghost use Rattle.imap_session.specs.Replies.{part_octets};
ghost use Rattle.imap_session.specs.Session.{IsSaid, KnowsFolder, KnowsNext, TakesStep, TakesStepAt, selection_of, state_or_ended};
ghost use Rattle.imap_session.specs.private.Appending.{command_of, request_step};
ghost use Rattle.imap_session.specs.private.Messages.{KeepsListing, selects_or_appends};
ghost use Rattle.imap_session.specs.private.Selected.{AreListed, KnowsSelected};

use crate::appending::{AppendRequest, append_within, date_of};
use crate::commands::{answer_on_folders, select};
use crate::expunging::{deleted_ids, expunge_lines};
use crate::fetching::Fetching;
use crate::messages::{EachMessage, take_each};
use crate::replies::{DONE, NO_SUCH_MESSAGE, READ_ONLY, answer, say};
use crate::states::{Imap, ImapState, Kind, Selected};
use crate::storing::Storing;
use imap_grammar::{Command, FetchItem, Set};
use imap_mailboxes::places;
use kept_mail::Listed;
use mail_wire::{Clock, Fault, Keeper, Octets, Wire};
use session_core::Outside;
use std::marker::PhantomData;

// ---- FETCH and STORE

// Does something with each message at these places, and tells that it was done.
fn answer_each<E: EachMessage, W: Wire, J: Keeper, C: Clock>(
    each: &E,
    places: &[u32],
    messages: &mut Vec<Listed>,
    tag: &[u8],
    outside: &mut Outside<W, J, C>,
) -> Result<(), Fault>
    requires ready { E.may_take each.now }
    requires opens { IsOpen outside.old.desk }
    requires listing { AreListed outside.old.desk.store.kept messages.old.items }
    requires few { length messages.old.items < 2 ^ 32 }
    requires rising { IsStrictlyIncreasing places.now }
    requires within { All (λ place. place < length messages.old.items) places.now }
    ensures does { WithOracles (λ oracles. (state : State) → Does (part_octets oracles) outside.old outside.new (fault_of result)
        (ends_with tag.now done (flat_map (E.acts each.now oracles outside.old.desk.store) (flat_map (numbered_at messages.old.items) places.now)) state).acts) }
    ensures listing { OnOk result (KeepsListing outside.old.desk.store outside.new.desk.store messages.old.items messages.new.items) }
    ensures keeps { Keeps outside.old outside.new (fault_of result) }
{
    let mut pending = Octets::new(outside.alloc());
    take_each(each, places, messages, &mut pending, outside)?;
    answer(pending, tag, DONE, outside)
}

// Does something with each message of a set, unless it names one that isn't there.
fn answer_over<E: EachMessage, W: Wire, J: Keeper, C: Clock>(
    each: &E,
    messages: &mut Vec<Listed>,
    tag: &[u8],
    by_uid: bool,
    set: &Set,
    outside: &mut Outside<W, J, C>,
) -> Result<(), Fault>
    requires ready { E.may_take each.now }
    requires opens { IsOpen outside.old.desk }
    requires listing { AreListed outside.old.desk.store.kept messages.old.items }
    requires few { length messages.old.items < 2 ^ 32 }
    ensures does { WithOracles (λ oracles. (state : State) → Does (part_octets oracles) outside.old outside.new (fault_of result)
        (for_each tag.now state by_uid set.now messages.old.items (E.acts each.now oracles outside.old.desk.store)).acts) }
    ensures listing { OnOk result (KeepsListing outside.old.desk.store outside.new.desk.store messages.old.items messages.new.items) }
    ensures keeps { Keeps outside.old outside.new (fault_of result) }
{
    let Some(places) = places(outside.alloc(), by_uid, set, messages)? else {
        return say(tag, NO_SUCH_MESSAGE, outside);
    };
    answer_each(each, &places, messages, tag, outside)
}

// FETCH and UID FETCH.
fn fetch<V: Kind, W: Wire, J: Keeper, C: Clock>(
    selected: &mut Selected,
    tag: &[u8],
    by_uid: bool,
    set: &Set,
    items: &[FetchItem],
    outside: &mut Outside<W, J, C>,
) -> Result<(), Fault>
    requires opens { IsOpen outside.old.desk }
    requires known { KnowsSelected outside.old.desk.store selected.old }
    ensures does { WithOracles (λ oracles. (now : List ℕ) → Does (part_octets oracles) outside.old outside.new (fault_of result)
        (fetch_step (context_of oracles now tag.now outside.old.desk.store) (selection_of V.mode selected.old)
        (record { by_uid = by_uid; set = set.now; items = items.now })).acts) }
    ensures known { OnOk result (KnowsSelected outside.new.desk.store selected.new) }
    ensures same { selected.new ≡ record selected.old { messages = selected.new.messages } }
    ensures keeps { Keeps outside.old outside.new (fault_of result) }
{
    let fetching = Fetching::<V> {
        items,
        by_uid,
        read_only: selected.read_only,
        view: PhantomData,
    };
    answer_over(&fetching, &mut selected.messages, tag, by_uid, set, outside)
}

// STORE and UID STORE, as they are done with each message.
fn store<W: Wire, J: Keeper, C: Clock>(
    selected: &mut Selected,
    tag: &[u8],
    set: &Set,
    storing: Storing,
    outside: &mut Outside<W, J, C>,
) -> Result<(), Fault>
    requires opens { IsOpen outside.old.desk }
    requires known { KnowsSelected outside.old.desk.store selected.old }
    ensures does { WithOracles (λ oracles. (now : List ℕ) (mode : Mode) → Does (part_octets oracles) outside.old outside.new (fault_of result)
        (store_step (context_of oracles now tag.now outside.old.desk.store) (selection_of mode selected.old)
        (record { by_uid = storing.by_uid; set = set.now; op = storing.op; silent = storing.silent; flags = storing.named })).acts) }
    ensures known { OnOk result (KnowsSelected outside.new.desk.store selected.new) }
    ensures same { selected.new ≡ record selected.old { messages = selected.new.messages } }
    ensures keeps { Keeps outside.old outside.new (fault_of result) }
{
    if selected.read_only {
        return say(tag, READ_ONLY, outside);
    }
    answer_over(
        &storing,
        &mut selected.messages,
        tag,
        storing.by_uid,
        set,
        outside,
    )
}

// ---- EXPUNGE and CLOSE

// Takes the messages out of the store that are marked as deleted.
fn take_deleted_out<W: Wire, J: Keeper, C: Clock>(
    messages: &[Listed],
    outside: &mut Outside<W, J, C>,
) -> Result<(), Fault>
    requires opens { IsOpen outside.old.desk }
    requires listing { AreListed outside.old.desk.store.kept messages.now }
    ensures makes { Makes outside.old outside.new (fault_of result) (calls_of (expunged (ids_of_deleted messages.now))) }
    ensures keeps { Keeps outside.old outside.new (fault_of result) }
{
    let ids = deleted_ids(outside.alloc(), messages)?;
    outside.expunge(&ids)
}

// EXPUNGE: the messages go, and then it is told which.
fn expunge<W: Wire, J: Keeper, C: Clock>(
    selected: &mut Selected,
    tag: &[u8],
    outside: &mut Outside<W, J, C>,
) -> Result<(), Fault>
    requires opens { IsOpen outside.old.desk }
    requires known { KnowsSelected outside.old.desk.store selected.old }
    ensures does { WithOracles (λ oracles. (state : State) → Does (part_octets oracles) outside.old outside.new (fault_of result)
        (expunge_step tag.now state selected.old.read_only (listed outside.old.desk.store.kept selected.old.folder)).acts) }
    ensures known { OnOk result (KnowsSelected outside.new.desk.store selected.new) }
    ensures same { selected.new ≡ record selected.old { messages = selected.new.messages } }
    ensures keeps { Keeps outside.old outside.new (fault_of result) }
{
    if selected.read_only {
        return say(tag, READ_ONLY, outside);
    }
    let lines = expunge_lines(outside.alloc(), &selected.messages)?;
    take_deleted_out(&selected.messages, outside)?;
    selected.messages = outside.store().list(selected.folder)?;
    answer(lines, tag, DONE, outside)
}

// CLOSE: the messages go silently, unless the folder is read only.
fn close<W: Wire, J: Keeper, C: Clock>(
    selected: &Selected,
    tag: &[u8],
    outside: &mut Outside<W, J, C>,
) -> Result<(), Fault>
    requires opens { IsOpen outside.old.desk }
    requires known { KnowsSelected outside.old.desk.store selected.now }
    ensures does { WithOracles (λ oracles. (state : State) → Does (part_octets oracles) outside.old outside.new (fault_of result)
        (close_step tag.now state selected.now.read_only (listed outside.old.desk.store.kept selected.now.folder)).acts) }
    ensures accounts { OnOk result (length outside.new.desk.store.kept.accounts ≡ length outside.old.desk.store.kept.accounts) }
    ensures keeps { Keeps outside.old outside.new (fault_of result) }
{
    if selected.read_only {
        return say(tag, DONE, outside);
    }
    take_deleted_out(&selected.messages, outside)?;
    say(tag, DONE, outside)
}

// ---- commands

// The folder stays selected, unless a fault broke the command off.
fn stay<V: Kind>(
    imap: Imap<Selected, V>,
    done: Result<(), Fault>,
) -> Result<Option<ImapState>, Fault>
    ensures met { fault_of result ≡ fault_of done }
    ensures state { IfOk result (λ next. state_or_ended next ≡ selected_in (selection_of V.mode imap.state)) }
    ensures known { (store : StoreState) → OnOk done (KnowsFolder store imap.state.account imap.state.folder imap.state.messages.items) → IfOk result (KnowsNext store) }
{
    done?;
    Ok(Some(V::in_selected(imap)))
}

// No folder is selected any more, unless a fault broke the command off.
fn leave<V: Kind>(
    imap: Imap<Selected, V>,
    done: Result<(), Fault>,
) -> Result<Option<ImapState>, Fault>
    ensures met { fault_of result ≡ fault_of done }
    ensures state { IfOk result (λ next. state_or_ended next ≡ authenticated V.mode imap.state.account) }
    ensures known { (store : StoreState) → OnOk done (imap.state.account < length store.kept.accounts) → IfOk result (KnowsNext store) }
{
    done?;
    Ok(Some(V::in_authenticated(imap.unselect())))
}

// APPEND, after which the folder is still selected.
fn append_selected<V: Kind, W: Wire, J: Keeper, C: Clock>(
    mut imap: Imap<Selected, V>,
    tag: &[u8],
    request: &AppendRequest,
    outside: &mut Outside<W, J, C>,
) -> Result<Option<ImapState>, Fault>
    requires opens { IsOpen outside.old.desk }
    requires known { KnowsSelected outside.old.desk.store imap.state }
    requires flags { request.now.flags < 32 }
    requires dated { IfSome request.now.date.now IsDate }
    ensures takes { TakesStepAt outside.old outside.new result (lacks_date (command_of request.now)) (λ oracles now.
        request_step (context_of oracles now tag.now outside.old.desk.store) (selected_in (selection_of V.mode imap.state)) V.mode imap.state.account request.now
        (date_or now request.now.date.now)) }
    ensures keeps { Keeps outside.old outside.new (fault_of result) }
{
    let date = date_of(request.date, outside)?;
    let done = append_within::<V, W, J, C>(&mut imap.state, tag, request, date.as_slice(), outside);
    stay(imap, done)
}

// A command after which the folder is still selected, or one that ends the session.
fn answer_within<V: Kind, W: Wire, J: Keeper, C: Clock>(
    mut imap: Imap<Selected, V>,
    tag: &[u8],
    command: &Command,
    outside: &mut Outside<W, J, C>,
) -> Result<Option<ImapState>, Fault>
    requires opens { IsOpen outside.old.desk }
    requires known { KnowsSelected outside.old.desk.store imap.state }
    requires other { selects_or_appends command.now ≡ false }
    requires stays { command.now ≢ command_is.Close }
    ensures takes { (now : List ℕ) → TakesStep outside.old outside.new result (λ oracles.
        selected_step (context_of oracles now tag.now outside.old.desk.store) (selection_of V.mode imap.state) command.now) }
    ensures keeps { Keeps outside.old outside.new (fault_of result) }
{
    match command {
        Command::Check => {
            let done = say(tag, DONE, outside);
            stay(imap, done)
        }
        Command::Fetch { uid, set, items } => {
            let items = items.as_slice();
            let done = fetch::<V, W, J, C>(&mut imap.state, tag, *uid, set, items, outside);
            stay(imap, done)
        }
        Command::Store {
            uid,
            set,
            op,
            silent,
            flags,
        } => {
            let storing = Storing {
                by_uid: *uid,
                silent: *silent,
                op: *op,
                named: *flags,
            };
            let done = store(&mut imap.state, tag, set, storing, outside);
            stay(imap, done)
        }
        Command::Expunge => {
            let done = expunge(&mut imap.state, tag, outside);
            stay(imap, done)
        }
        _ => {
            let account = imap.state.account;
            let session = V::in_selected(imap);
            answer_on_folders::<V, W, J, C>(session, account, tag, command, outside)
        }
    }
}

/// A command where a folder is selected.
pub fn answer_selected<V: Kind, W: Wire, J: Keeper, C: Clock>(
    imap: Imap<Selected, V>,
    tag: &[u8],
    command: &Command,
    outside: &mut Outside<W, J, C>,
) -> Result<Option<ImapState>, Fault>
    requires opens { IsOpen outside.old.desk }
    requires known { KnowsFolder outside.old.desk.store imap.state.account imap.state.folder imap.state.messages.items }
    requires said { IsSaid command.now }
    ensures takes { TakesStepAt outside.old outside.new result (lacks_date command.now) (λ oracles now.
        selected_step (context_of oracles now tag.now outside.old.desk.store) (selection_of V.mode imap.state) command.now) }
    ensures keeps { Keeps outside.old outside.new (fault_of result) }
{
    match command {
        Command::Select { name } => {
            select(imap.unselect(), tag, name.as_slice(), false, outside)
        }
        Command::Examine { name } => {
            select(imap.unselect(), tag, name.as_slice(), true, outside)
        }
        Command::Close => {
            let done = close(&imap.state, tag, outside);
            leave(imap, done)
        }
        Command::Append {
            name,
            flags,
            date,
            utf8,
            octets,
        } => {
            let request = AppendRequest {
                written: name.as_slice(),
                flags: *flags,
                date,
                in_utf8: *utf8,
                octets: octets.as_slice(),
            };
            append_selected(imap, tag, &request, outside)
        }
        _ => answer_within(imap, tag, command, outside),
    }
}
