//! FETCH (RFC 3501, 6.4.5 and 7.4.2).
ghost use Rattle.std.specs.Prelude.{◌≡◌, ◌<◌, ◌++◌, ◌∷◌, [], ⊤, true, false, length, map, codes, decimal, IfOk, IfSome, OnOk};
ghost use Rattle.std.specs.List.{list_any};
ghost use Rattle.std.specs.Option.{option_copied};
ghost use Rattle.mail_store.specs.StoreState.{StoreState};
ghost use Rattle.surrogate_rope.specs.Served.{IsShownOf};
ghost use Rattle.surrogate_cache.specs.Served.{is_enabled};
ghost use Rattle.session_core.specs.Desks.{IsOpen, stored_octets};
ghost use Rattle.session_core.specs.Doing.{Asks, wanting};
ghost use Rattle.session_core.specs.Keeps.{Keeps, fault_of};
ghost use Rattle.session_core.specs.Oracles.{WithOracles};
ghost use Rattle.imap_session.specs.Items.{asked_of, is_flags as is_flags_of, is_uid as is_uid_of, item_parts, sets_seen as sets_seen_of};
ghost use Rattle.imap_session.specs.Machine.{becomes_seen, fetch_one, fetch_told, parts_following, reply};
ghost use Rattle.imap_session.specs.Replies.{part_octets, reply_octets};
ghost use Rattle.imap_session.specs.private.Fetched.{end_octets, space_octets, tells_flags_last, tells_uid_first, uid_first_octets};
ghost use Rattle.imap_session.specs.private.Pending.{Carries};
ghost use Rattle.imap_session.specs.private.Messages.{ShowsAlike};
ghost use Rattle.imap_session.specs.private.Shown.{HasShown, asks_section, octets_shown, shows};

use crate::messages::{EachMessage, change_flags};
use crate::sections::{asked_by, is_message, push_number, put_section, put_stored};
use crate::states::Kind;
use crate::views::{put_envelope, put_structure};
use imap_grammar::{FetchItem, StoreOp};
use imap_mailboxes::{has_flag, push_flags};
use kept_mail::Listed;
use mail_wire::{Clock, Fault, Keeper, Memory, Octets, Wire};
use session_core::Outside;
use std::marker::PhantomData;
use surrogate_rope::Shown;

const SEEN: u8 = 1;

fn is_uid(item: &FetchItem) -> bool
    ensures { result ≡ is_uid_of item.now }
{
    matches!(item, FetchItem::Uid)
}

fn is_flags(item: &FetchItem) -> bool
    ensures { result ≡ is_flags_of item.now }
{
    matches!(item, FetchItem::Flags)
}

fn sets_seen(item: &FetchItem) -> bool
    ensures { result ≡ sets_seen_of item.now }
{
    match item {
        FetchItem::Rfc822 => true,
        FetchItem::Rfc822Text => true,
        FetchItem::Section { peek, .. } => !*peek,
        _ => false,
    }
}

// Whether what is shown of a message, for which its tree is read, is needed to tell the item. Where UTF-8 is enabled it isn't for all that is stored.
fn needs_shown(item: &FetchItem, enabled: bool) -> bool
    ensures { result ≡ shows enabled item.now }
{
    match item {
        FetchItem::Flags => false,
        FetchItem::Uid => false,
        FetchItem::InternalDate => false,
        FetchItem::Size => !enabled,
        FetchItem::Rfc822 => !enabled,
        FetchItem::Section { path, part, .. } => !(enabled && is_message(path.as_slice(), part)),
        _ => true,
    }
}

// Whether it is needed for some item.
fn asks_shown(items: &[FetchItem], enabled: bool) -> bool
    ensures { result ≡ list_any (shows enabled) items.now }
{
    items.iter().any(|item| needs_shown(item, enabled))
}

fn asks_uid(items: &[FetchItem]) -> bool
    ensures { result ≡ list_any is_uid_of items.now }
{
    items.iter().any(is_uid)
}

fn asks_flags(items: &[FetchItem]) -> bool
    ensures { result ≡ list_any is_flags_of items.now }
{
    items.iter().any(is_flags)
}

// Whether some item is shown without `PEEK`.
fn asks_seen(items: &[FetchItem]) -> bool
    ensures { result ≡ list_any sets_seen_of items.now }
{
    items.iter().any(sets_seen)
}

/// FETCH, as it is done with each message, for a session of a kind.
#[derive(Drop)]
pub struct Fetching<'a, V> {
    pub items: &'a [FetchItem],
    pub by_uid: bool,
    pub read_only: bool,
    pub view: PhantomData<V>,
}

// What a session of this kind is shown of a message, where an item needs it.
fn shown_for<V: Kind, W: Wire, J: Keeper, C: Clock>(
    items: &[FetchItem],
    id: u32,
    outside: &mut Outside<W, J, C>,
) -> Result<Option<Shown>, Memory>
    requires opens { IsOpen outside.old.desk }
    requires id { id < length outside.old.desk.store.kept.messages }
    ensures shown { IfOk result (λ shown. HasShown V.mode (stored_octets outside.old.desk.store id) (list_any (shows (is_enabled V.mode)) items.now) shown) }
    ensures asks { Asks outside.old outside.new (wanting result) (asked_of V.mode outside.old.desk.store items.now id) }
    ensures keeps { Keeps outside.old outside.new (wanting result) }
{
    if !asks_shown(items, V::enabled()) {
        return Ok(None);
    }
    Ok(Some(outside.show::<V>(id)?))
}

// Puts a date last.
fn push_date(pending: &mut Octets, date: &[u8]) -> Result<(), Memory>
    ensures { OnOk result (pending.new ≡ pending.old ++ (codes "INTERNALDATE \"" ++ (date.now ++ codes "\""))) }
{
    pending.push_slice(b"INTERNALDATE \"")?;
    pending.push_slice(date)?;
    pending.push(b'"')
}

// Puts the beginning of a message's reply last.
fn push_front(pending: &mut Octets, number: u32) -> Result<(), Memory>
    ensures { OnOk result (pending.new ≡ pending.old ++ (codes "* " ++ (decimal number ++ codes " FETCH ("))) }
{
    push_number(pending, b"* ", number as usize)?;
    pending.push_slice(b" FETCH (")
}

// How many octets are shown of a message: those that are stored, where nothing else tells it.
fn shown_size(shown: Option<&Shown>, msg: &[u8]) -> usize
    requires { IfSome (option_copied shown) (IsShownOf msg.now) }
    ensures { result ≡ length (octets_shown msg.now (option_copied shown.entry)) }
{
    match shown {
        Some(shown) => shown.size(msg),
        None => msg.len(),
    }
}

// Puts what an item tells of a message last, where it asks no section.
fn push_told<V: Kind, W: Wire, J: Keeper, C: Clock>(
    item: &FetchItem,
    one: &Listed,
    shown: Option<&Shown>,
    outside: &Outside<W, J, C>,
    pending: &mut Octets,
) -> Result<(), Memory>
    requires id { one.now.id < length outside.now.desk.store.kept.messages }
    requires other { asks_section item.now ≡ false }
    requires shown { HasShown V.mode (stored_octets outside.now.desk.store one.now.id) (shows (is_enabled V.mode) item.now) (option_copied shown) }
    ensures { WithOracles (λ oracles. (store : StoreState) → ShowsAlike store outside.now.desk.store
        → OnOk result (pending.new ≡ pending.old ++ reply_octets oracles (item_parts oracles V.mode store one.now item.now))) }
{
    let alloc = outside.alloc();
    match (item, shown) {
        (FetchItem::Flags, _) => push_flags(pending, one.flags),
        (FetchItem::Uid, _) => push_number(pending, b"UID ", one.uid as usize),
        (FetchItem::InternalDate, _) => push_date(pending, outside.date(one.id)),
        (FetchItem::Size, _) => {
            let size = shown_size(shown, outside.octets(one.id));
            push_number(pending, b"RFC822.SIZE ", size)
        }
        (FetchItem::Envelope, Some(shown)) => {
            put_envelope(alloc, shown, outside.octets(one.id), pending)
        }
        (FetchItem::Body, Some(shown)) => {
            put_structure(alloc, shown, outside.octets(one.id), false, pending)
        }
        (FetchItem::BodyStructure, Some(shown)) => {
            put_structure(alloc, shown, outside.octets(one.id), true, pending)
        }
        _ => unreachable!(),
    }
}

// Tells an item of a message. What is to be given may stay pending.
fn put_item<V: Kind, W: Wire, J: Keeper, C: Clock>(
    item: &FetchItem,
    one: &Listed,
    shown: Option<&Shown>,
    pending: &mut Octets,
    outside: &mut Outside<W, J, C>,
) -> Result<(), Fault>
    requires id { one.now.id < length outside.old.desk.store.kept.messages }
    requires shown { HasShown V.mode (stored_octets outside.old.desk.store one.now.id) (shows (is_enabled V.mode) item.now) (option_copied shown) }
    ensures carries { WithOracles (λ oracles. (store : StoreState) → ShowsAlike store outside.old.desk.store → Carries (part_octets oracles) outside.old outside.new (fault_of result)
        pending.old pending.new (reply (item_parts oracles V.mode store one.now item.now))) }
    ensures desk { OnOk result (outside.new.desk ≡ outside.old.desk) }
    ensures keeps { Keeps outside.old outside.new (fault_of result) }
{
    match (asked_by(item), shown) {
        (None, _) => Ok(push_told::<V, W, J, C>(item, one, shown, outside, pending)?),
        (Some(asked), Some(shown)) => {
            put_section::<V, W, J, C>(&asked, one, shown, pending, outside)
        }
        (Some(asked), None) => put_stored::<V, W, J, C>(&asked, one, pending, outside),
    }
}

// Puts a space last where something stands before what comes next.
fn push_space(pending: &mut Octets, is_separated: bool) -> Result<(), Memory>
    ensures { OnOk result (pending.new ≡ pending.old ++ space_octets is_separated) }
{
    if is_separated {
        pending.push(b' ')?;
    }
    Ok(())
}

// Tells an item of a message, after a space where something stands before it.
fn put_after<V: Kind, W: Wire, J: Keeper, C: Clock>(
    item: &FetchItem,
    is_separated: bool,
    one: &Listed,
    shown: Option<&Shown>,
    pending: &mut Octets,
    outside: &mut Outside<W, J, C>,
) -> Result<(), Fault>
    requires id { one.now.id < length outside.old.desk.store.kept.messages }
    requires shown { HasShown V.mode (stored_octets outside.old.desk.store one.now.id) (shows (is_enabled V.mode) item.now) (option_copied shown) }
    ensures carries { WithOracles (λ oracles. (store : StoreState) → ShowsAlike store outside.old.desk.store → Carries (part_octets oracles) outside.old outside.new (fault_of result)
        pending.old pending.new (reply (parts_following is_separated (item_parts oracles V.mode store one.now item.now ∷ [])))) }
    ensures desk { OnOk result (outside.new.desk ≡ outside.old.desk) }
    ensures keeps { Keeps outside.old outside.new (fault_of result) }
{
    push_space(pending, is_separated)?;
    put_item::<V, W, J, C>(item, one, shown, pending, outside)
}

// Tells items of a message, with a space between any two, and before the first where others stand before them.
fn put_items<V: Kind, W: Wire, J: Keeper, C: Clock>(
    items: &[FetchItem],
    after_others: bool,
    one: &Listed,
    shown: Option<&Shown>,
    pending: &mut Octets,
    outside: &mut Outside<W, J, C>,
) -> Result<(), Fault>
    requires id { one.now.id < length outside.old.desk.store.kept.messages }
    requires shown { HasShown V.mode (stored_octets outside.old.desk.store one.now.id) (list_any (shows (is_enabled V.mode)) items.now) (option_copied shown) }
    ensures carries { WithOracles (λ oracles. (store : StoreState) → ShowsAlike store outside.old.desk.store → Carries (part_octets oracles) outside.old outside.new (fault_of result)
        pending.old pending.new (reply (parts_following after_others (map (item_parts oracles V.mode store one.now) items.now)))) }
    ensures desk { OnOk result (outside.new.desk ≡ outside.old.desk) }
    ensures keeps { Keeps outside.old outside.new (fault_of result) }
{
    let mut is_separated = after_others;
    for item in items {
        put_after::<V, W, J, C>(item, is_separated, one, shown, pending, outside)?;
        is_separated = true;
    }
    Ok(())
}

impl<'a, V: Kind> Fetching<'a, V> {
    fn becomes_seen(&self, one: &Listed) -> bool
        ensures { result ≡ becomes_seen self.now.read_only self.now.items.now one.now }
    {
        !self.read_only && asks_seen(self.items) && !has_flag(one.flags, SEEN)
    }

    // Puts the UID of a message last, where it is told before all that was asked, and answers whether it is.
    fn push_uid_first(&self, one: &Listed, pending: &mut Octets) -> Result<bool, Memory>
        ensures first { IfOk result (λ first. first ≡ tells_uid_first self.now.by_uid self.now.items.now) }
        ensures told { IfOk result (λ first. pending.new ≡ pending.old ++ uid_first_octets first one.now) }
    {
        if !self.by_uid || asks_uid(self.items) {
            return Ok(false);
        }
        push_number(pending, b"UID ", one.uid as usize)?;
        Ok(true)
    }

    // Puts the end of a message's reply last, after its flags where they changed and weren't asked.
    fn push_end(
        &self,
        one: &Listed,
        flags_changed: bool,
        pending: &mut Octets,
    ) -> Result<(), Memory>
        ensures { OnOk result (pending.new ≡ pending.old ++ end_octets (tells_flags_last flags_changed self.now.items.now) one.now) }
    {
        if flags_changed && !asks_flags(self.items) {
            pending.push(b' ')?;
            push_flags(pending, one.flags)?;
        }
        pending.push_slice(b")\r\n")
    }

    // Asks for a message where an item is of it, and tells all that was asked of it.
    fn tell<W: Wire, J: Keeper, C: Clock>(
        &self,
        number: u32,
        one: &Listed,
        flags_changed: bool,
        pending: &mut Octets,
        outside: &mut Outside<W, J, C>,
    ) -> Result<(), Fault>
        requires opens { IsOpen outside.old.desk }
        requires id { one.now.id < length outside.old.desk.store.kept.messages }
        requires seen { flags_changed ≡ true → list_any sets_seen_of self.now.items.now ≡ true }
        ensures carries { WithOracles (λ oracles. (store : StoreState) → ShowsAlike store outside.old.desk.store → Carries (part_octets oracles) outside.old outside.new (fault_of result)
            pending.old pending.new (fetch_told oracles store
            (record { mode = V.mode; read_only = self.now.read_only; by_uid = self.now.by_uid; items = self.now.items.now })
            (record { number = number; listed = one.now }) flags_changed)) }
        ensures store { OnOk result (outside.new.desk.store ≡ outside.old.desk.store) }
        ensures keeps { Keeps outside.old outside.new (fault_of result) }
    {
        let shown = shown_for::<V, W, J, C>(self.items, one.id, outside)?;
        push_front(pending, number)?;
        let uid_first = self.push_uid_first(one, pending)?;
        let shown = shown.as_ref();
        put_items::<V, W, J, C>(self.items, uid_first, one, shown, pending, outside)?;
        self.push_end(one, flags_changed, pending)?;
        Ok(())
    }
}

impl<'a, V: Kind> EachMessage for Fetching<'a, V> {
    ghost acts = { λ fetching oracles store one. fetch_one oracles store
        (record { mode = V.mode; read_only = fetching.read_only; by_uid = fetching.by_uid; items = fetching.items.now }) one };

    ghost may_take = { λ fetching. ⊤ };

    fn take<W: Wire, J: Keeper, C: Clock>(
        &self,
        number: u32,
        one: &mut Listed,
        pending: &mut Octets,
        outside: &mut Outside<W, J, C>,
    ) -> Result<(), Fault> {
        if !self.becomes_seen(one) {
            return self.tell(number, one, false, pending, outside);
        }
        change_flags(StoreOp::Add, SEEN, one, pending, outside)?;
        self.tell(number, one, true, pending, outside)
    }
}
