//! All that a session meets, as one value: its wire, its keeper, its clock, and the desk that it is served from.
ghost use Rattle.std.specs.Prelude.{◌≡◌, ◌+◌, ◌<◌, ◌≤◌, ◌==◌, ◌∷◌, ℕ, List, length, take, drop, IfOk, OnErr, OnOk, Err, None, false, []};
ghost use Rattle.std.specs.List.{IsDistinct};
ghost use Rattle.mail_wire.specs.Keeping.{HasKeeperCause};
ghost use Rattle.mail_wire.specs.Moves.{GivesOrFails, HasWireCause, TakesNothing, TakesPiece};
ghost use Rattle.journal_records.specs.Grammar.{IsFolderName, kept_name};
ghost use Rattle.journal_records.specs.declared.records.Record.TheVariants as records;
ghost use Rattle.mail_store.specs.Changing.{IsAppendable, IsDeliverable, append_refusal, delivery_refusal, expunged, expunge_refusal, flags_refusal, folder_refusal, settle_refusal};
ghost use Rattle.surrogate_rope.specs.Served.{IsShownOf, shown_octets};
ghost use Rattle.surrogate_cache.specs.Caching.{Fetched, LosesShown, asked_by};
ghost use Rattle.surrogate_cache.specs.Served.{IsServed, HasServedHeaders};
ghost use Rattle.session_core.specs.Around.{LeavesDesk};
ghost use Rattle.session_core.specs.Moments.{IsMoment, IsTold, moment_of};
ghost use Rattle.session_core.specs.Changes.{append_changes, calls_of, advance_of, changes_of, created_of, folder_changes};
ghost use Rattle.session_core.specs.Desks.{IsCacheOf, IsOpen, stored_date, stored_octets};
ghost use Rattle.session_core.specs.Doing.{Asks, IsChanged, Makes, Replies, wanting};
ghost use Rattle.session_core.specs.Keeps.{Keeps, fault_of};

use crate::desk::{Desk, Limits};
use crate::giving::{Giving, ShownRange, StoredRange};
use kept_mail::Delivery;
use mail_store::{Attributes, Store, StoreFault};
use mail_wire::{
    Clock, Fault, Keeper, Memory, Octets, Span, Wire, date_text, give_all, internal_date,
    take_piece,
};
use std::alloc::Global;
use std::marker::Model;
use surrogate_cache::{Cache, View};
use surrogate_rope::Shown;

/// The outside of a session. Sessions use a wire, a store and a clock by its calls alone.
#[derive(Drop)]
pub struct Outside<'w, 'k, 'c, W: Wire, J: Keeper, C: Clock> {
    alloc: Global,
    desk: Desk,
    wire: &'w mut W,
    keeper: &'k mut J,
    clock: &'c mut C,
}

impl<'w, 'k, 'c, W: Wire, J: Keeper, C: Clock> Model for Outside<'w, 'k, 'c, W, J, C> {
    ghost use Rattle.session_core.specs.Around.{Around};

    ghost Value = { Around };

    ghost view = { λ a. record {
      wire = W.observed a.wire.now;
      keeper = J.observed a.keeper.now;
      clock = C.observed a.clock.now;
      desk = a.desk;
      loans = record { wire = a.wire.ghost_name; keeper = a.keeper.ghost_name; clock = a.clock.ghost_name };
    } };
}

/// A moment: the seconds since 1970, and its texts.
#[derive(Debug, Drop)]
pub struct Timestamp {
    pub seconds: u64,
    /// In a field of a message (RFC 5322, 3.3).
    pub date: Octets,
    /// Under which a message is kept (RFC 3501, date-time, without its quotes).
    pub internal: Octets,
}

/// What came of a message that was to be kept.
#[derive(Clone, Copy, Debug, PartialEq, Eq)]
pub enum Delivered {
    Stored,
    /// It would pass a limit of the store.
    TooLarge,
}

/// What came of a folder that was to be made.
#[derive(Clone, Copy, Debug, PartialEq, Eq)]
pub enum Created {
    Made,
    /// The account has a folder that is meant by the name.
    Exists,
    /// It would pass a limit of the store.
    TooLarge,
}

// What a session of this kind is shown of a message of the store, by way of the cache.
fn show_message<V: View>(
    alloc: Global,
    store: &Store,
    cache: &mut Cache,
    id: u32,
) -> Result<Shown, Memory>
    requires id { id < length store.now.kept.messages }
    requires cached { IsCacheOf cache.old store.now.kept }
    ensures shown { IfOk result (IsShownOf (stored_octets store.now id)) }
    ensures served { IfOk result (λ shown. IsServed V.mode (stored_octets store.now id) (shown_octets (stored_octets store.now id) shown)) }
    ensures headers { IfOk result (λ shown. HasServedHeaders V.mode (shown_octets (stored_octets store.now id) shown)) }
    ensures fetched { OnOk result (Fetched cache.old (asked_by V.mode id (stored_octets store.now id)) cache.new) }
    ensures loses { OnErr result (LosesShown V.mode (stored_octets store.now id) cache.old cache.new id) }
{
    V::show(alloc, cache, id, store.octets(id))
}

// How many octets a session of this kind is served of a message. A legacy one is served its surrogate, which is fetched from the cache.
fn served_size<V: View>(
    alloc: Global,
    store: &Store,
    cache: &mut Cache,
    id: u32,
) -> Result<usize, Memory>
    requires id { id < length store.now.kept.messages }
    requires cached { IsCacheOf cache.old store.now.kept }
    ensures size { IfOk result (λ size. (shown : List ℕ) × IsServed V.mode (stored_octets store.now id) shown × (size ≡ length shown)) }
    ensures fetched { OnOk result (Fetched cache.old (asked_by V.mode id (stored_octets store.now id)) cache.new) }
    ensures loses { OnErr result (LosesShown V.mode (stored_octets store.now id) cache.old cache.new id) }
{
    if V::enabled() {
        return Ok(store.octets(id).len());
    }
    let shown = show_message::<V>(alloc, store, cache, id)?;
    Ok(shown.size(store.octets(id)))
}

// Gives of a message.
fn give_from<G: Giving, W: Wire>(
    store: &Store,
    id: u32,
    giving: &G,
    wire: &mut W,
) -> Result<(), Fault>
    requires id { id < length store.now.kept.messages }
    requires fits { G.fits giving.now (stored_octets store.now id) }
    ensures gives { GivesOrFails (W.observed wire.old) (W.observed wire.new) result (G.given giving.now (stored_octets store.now id)) }
    ensures cause { HasWireCause (W.observed wire.old) (W.observed wire.new) result Fault.Wire }
    ensures keeper { ¬ (result ≡ Err Fault.Keeper) }
{
    match giving.give_to(store.octets(id), wire) {
        Ok(()) => Ok(()),
        Err(failed) => Err(Fault::from(failed)),
    }
}

// Keeps a message, or tells that it would pass a limit.
fn deliver_to<J: Keeper>(
    store: &mut Store,
    keeper: &mut J,
    delivery: &Delivery,
) -> Result<Delivered, Fault>
    requires works { store.old.failed ≡ false }
    requires deliverable { IsDeliverable store.old delivery.now }
    ensures advance { IfOk result (λ advance. advance ≡ advance_of (delivery_refusal store.old delivery.now)) }
    ensures changes { IsChanged store.old store.new (J.observed keeper.old).octets (J.observed keeper.new).octets (fault_of result) (changes_of store.old delivery.now) }
    ensures cause { HasKeeperCause (J.observed keeper.old) (J.observed keeper.new) result Fault.Keeper }
    ensures wire { ¬ (result ≡ Err Fault.Wire) }
{
    match store.deliver(keeper, delivery) {
        Ok(()) => Ok(Delivered::Stored),
        Err(StoreFault::TooLarge) => Ok(Delivered::TooLarge),
        Err(StoreFault::Keeper) => Err(Fault::Keeper),
        Err(StoreFault::Memory) => Err(Fault::Memory),
        Err(StoreFault::Exists | StoreFault::NoSuch) => unreachable!(),
    }
}

// Puts a message last in a folder, or tells that it would pass a limit.
fn append_to<J: Keeper>(
    store: &mut Store,
    keeper: &mut J,
    folder: u32,
    attributes: Attributes,
    date: &[u8],
    octets: &[u8],
) -> Result<Delivered, Fault>
    requires works { store.old.failed ≡ false }
    requires appendable { IsAppendable store.old folder attributes.flags attributes.mark date.now octets.now }
    ensures advance { IfOk result (λ advance. advance ≡ advance_of (append_refusal store.old octets.now)) }
    ensures changes { IsChanged store.old store.new (J.observed keeper.old).octets (J.observed keeper.new).octets (fault_of result) (append_changes store.old folder attributes.flags attributes.mark date.now octets.now) }
    ensures cause { HasKeeperCause (J.observed keeper.old) (J.observed keeper.new) result Fault.Keeper }
    ensures wire { ¬ (result ≡ Err Fault.Wire) }
{
    match store.append(keeper, folder, attributes, date, octets) {
        Ok(_) => Ok(Delivered::Stored),
        Err(StoreFault::TooLarge) => Ok(Delivered::TooLarge),
        Err(StoreFault::Keeper) => Err(Fault::Keeper),
        Err(StoreFault::Memory) => Err(Fault::Memory),
        Err(StoreFault::Exists | StoreFault::NoSuch) => unreachable!(),
    }
}

// Takes messages away, none of which is gone.
fn expunge_from<J: Keeper>(store: &mut Store, keeper: &mut J, ids: &[u32]) -> Result<(), Fault>
    requires works { store.old.failed ≡ false }
    requires live { expunge_refusal store.old.kept ids.now ≡ None }
    requires distinct { IsDistinct (λ a b. a == b) ids.now }
    ensures changes { IsChanged store.old store.new (J.observed keeper.old).octets (J.observed keeper.new).octets (fault_of result) (calls_of (expunged ids.now)) }
    ensures nothing { ids.now ≡ [] → (store.new ≡ store.old) × (J.observed keeper.new ≡ J.observed keeper.old) }
    ensures cause { HasKeeperCause (J.observed keeper.old) (J.observed keeper.new) result Fault.Keeper }
    ensures wire { ¬ (result ≡ Err Fault.Wire) }
{
    match store.expunge(keeper, ids) {
        Ok(()) => Ok(()),
        Err(StoreFault::Keeper) => Err(Fault::Keeper),
        Err(StoreFault::Memory) => Err(Fault::Memory),
        Err(StoreFault::Exists | StoreFault::NoSuch | StoreFault::TooLarge) => unreachable!(),
    }
}

// Gives a message that isn't gone other flags.
fn set_flags_in<J: Keeper>(
    store: &mut Store,
    keeper: &mut J,
    id: u32,
    flags: u8,
) -> Result<(), Fault>
    requires works { store.old.failed ≡ false }
    requires live { flags_refusal store.old.kept id ≡ None }
    requires flags { flags < 32 }
    ensures changes { IsChanged store.old store.new (J.observed keeper.old).octets (J.observed keeper.new).octets (fault_of result) ((records.Flags id flags ∷ []) ∷ []) }
    ensures cause { HasKeeperCause (J.observed keeper.old) (J.observed keeper.new) result Fault.Keeper }
    ensures wire { ¬ (result ≡ Err Fault.Wire) }
{
    match store.set_flags(keeper, id, flags) {
        Ok(()) => Ok(()),
        Err(StoreFault::Keeper) => Err(Fault::Keeper),
        Err(StoreFault::Memory) => Err(Fault::Memory),
        Err(StoreFault::Exists | StoreFault::NoSuch | StoreFault::TooLarge) => unreachable!(),
    }
}

// Takes a recipient off the queue who isn't settled.
fn settle_in<J: Keeper>(
    store: &mut Store,
    keeper: &mut J,
    entry: u32,
    index: u32,
) -> Result<(), Fault>
    requires works { store.old.failed ≡ false }
    requires waits { settle_refusal store.old.kept entry index ≡ None }
    ensures changes { IsChanged store.old store.new (J.observed keeper.old).octets (J.observed keeper.new).octets (fault_of result) ((records.Settle entry index ∷ []) ∷ []) }
    ensures cause { HasKeeperCause (J.observed keeper.old) (J.observed keeper.new) result Fault.Keeper }
    ensures wire { ¬ (result ≡ Err Fault.Wire) }
{
    match store.settle(keeper, entry, index) {
        Ok(()) => Ok(()),
        Err(StoreFault::Keeper) => Err(Fault::Keeper),
        Err(StoreFault::Memory) => Err(Fault::Memory),
        Err(StoreFault::Exists | StoreFault::NoSuch | StoreFault::TooLarge) => unreachable!(),
    }
}

// Makes a folder, or tells why it is refused.
fn create_folder_in<J: Keeper>(
    store: &mut Store,
    keeper: &mut J,
    account: u32,
    name: &str,
) -> Result<Created, Fault>
    requires works { store.old.failed ≡ false }
    requires known { account < length store.old.kept.accounts }
    requires name { IsFolderName (kept_name name.now) }
    ensures advance { IfOk result (λ advance. advance ≡ created_of (folder_refusal store.old.kept account name.now)) }
    ensures changes { IsChanged store.old store.new (J.observed keeper.old).octets (J.observed keeper.new).octets (fault_of result) (folder_changes store.old account name.now) }
    ensures cause { HasKeeperCause (J.observed keeper.old) (J.observed keeper.new) result Fault.Keeper }
    ensures wire { ¬ (result ≡ Err Fault.Wire) }
{
    match store.create_folder(keeper, account, name) {
        Ok(_) => Ok(Created::Made),
        Err(StoreFault::Exists) => Ok(Created::Exists),
        Err(StoreFault::TooLarge) => Ok(Created::TooLarge),
        Err(StoreFault::Keeper) => Err(Fault::Keeper),
        Err(StoreFault::Memory) => Err(Fault::Memory),
        Err(StoreFault::NoSuch) => unreachable!(),
    }
}

// The texts of this moment.
fn read_timestamp<C: Clock>(alloc: Global, clock: &mut C) -> Result<Timestamp, Memory>
    ensures told { IfOk result (λ timestamp. IsTold (C.observed clock.old) (moment_of timestamp)) }
    ensures seconds { IfOk result (λ timestamp. IsMoment timestamp.seconds (moment_of timestamp)) }
    ensures clock { C.observed clock.new ≡ C.observed clock.old }
{
    let seconds = clock.now();
    Ok(Timestamp {
        seconds,
        date: date_text(alloc, seconds)?,
        internal: internal_date(alloc, seconds)?,
    })
}

impl<'w, 'k, 'c, W: Wire, J: Keeper, C: Clock> Outside<'w, 'k, 'c, W, J, C> {
    /// The desk, over what the caller lends.
    pub fn new(
        alloc: Global,
        desk: Desk,
        wire: &'w mut W,
        keeper: &'k mut J,
        clock: &'c mut C,
    ) -> Self
        ensures desk { result.desk ≡ desk }
        ensures wire { result.wire ≡ W.observed wire.old }
        ensures keeper { result.keeper ≡ J.observed keeper.old }
        ensures clock { result.clock ≡ C.observed clock.old }
        ensures loans { result.loans ≡ record { wire = wire.entry.ghost_name; keeper = keeper.entry.ghost_name; clock = clock.entry.ghost_name } }
    {
        Outside {
            alloc,
            desk,
            wire,
            keeper,
            clock,
        }
    }

    /// Gives the desk back, and all that was lent.
    pub fn into_parts(self) -> (Desk, &'w mut W, &'k mut J, &'c mut C)
        ensures desk { result.0 ≡ self.entry.desk }
        ensures wire { W.observed result.1.now ≡ self.entry.wire }
        ensures keeper { J.observed result.2.now ≡ self.entry.keeper }
        ensures clock { C.observed result.3.now ≡ self.entry.clock }
        ensures wire_loan { result.1.ghost_name ≡ self.entry.loans.wire }
        ensures keeper_loan { result.2.ghost_name ≡ self.entry.loans.keeper }
        ensures clock_loan { result.3.ghost_name ≡ self.entry.loans.clock }
    {
        let Outside {
            alloc: _,
            desk,
            wire,
            keeper,
            clock,
        } = self;
        (desk, wire, keeper, clock)
    }

    pub fn alloc(&self) -> Global {
        self.alloc
    }

    pub fn store(&self) -> &Store
        ensures { result.now ≡ self.now.desk.store }
    {
        &self.desk.store
    }

    /// The octets of a message of the store.
    pub fn octets(&self, id: u32) -> &[u8]
        requires { id < length self.now.desk.store.kept.messages }
        ensures { result.now ≡ stored_octets self.now.desk.store id }
    {
        self.desk.store.octets(id)
    }

    /// The date of a message of the store.
    pub fn date(&self, id: u32) -> &[u8]
        requires { id < length self.now.desk.store.kept.messages }
        ensures { result.now ≡ stored_date self.now.desk.store id }
    {
        self.desk.store.date(id)
    }

    pub fn limits(&self) -> Limits
        ensures { result ≡ self.now.desk.limits }
    {
        self.desk.limits
    }

    /// What a session of this kind is shown of a message of the store.
    pub fn show<V: View>(&mut self, id: u32) -> Result<Shown, Memory>
        requires opens { IsOpen self.old.desk }
        requires id { id < length self.old.desk.store.kept.messages }
        ensures shown { IfOk result (IsShownOf (stored_octets self.old.desk.store id)) }
        ensures served { IfOk result (λ shown. IsServed V.mode (stored_octets self.old.desk.store id) (shown_octets (stored_octets self.old.desk.store id) shown)) }
        ensures headers { IfOk result (λ shown. HasServedHeaders V.mode (shown_octets (stored_octets self.old.desk.store id) shown)) }
        ensures asks { Asks self.old self.new (wanting result) (asked_by V.mode id (stored_octets self.old.desk.store id)) }
        ensures keeps { Keeps self.old self.new (wanting result) }
    {
        show_message::<V>(self.alloc, &self.desk.store, &mut self.desk.cache, id)
    }

    /// How many octets a session of this kind is served of a message of the store. Where UTF-8 is enabled no tree is read for it.
    pub fn size<V: View>(&mut self, id: u32) -> Result<usize, Memory>
        requires opens { IsOpen self.old.desk }
        requires id { id < length self.old.desk.store.kept.messages }
        ensures size { IfOk result (λ size. (shown : List ℕ) × IsServed V.mode (stored_octets self.old.desk.store id) shown × (size ≡ length shown)) }
        ensures asks { Asks self.old self.new (wanting result) (asked_by V.mode id (stored_octets self.old.desk.store id)) }
        ensures keeps { Keeps self.old self.new (wanting result) }
    {
        served_size::<V>(self.alloc, &self.desk.store, &mut self.desk.cache, id)
    }

    /// Takes the next piece, which is empty only at the end of input.
    pub fn take(&mut self, into: &mut [u8]) -> Result<usize, Fault>
        requires { 0 < length into.old }
        ensures bound { IfOk result (λ n. n ≤ length into.new) }
        ensures takes { IfOk result (λ n. TakesPiece self.old.wire self.new.wire n into.new) }
        ensures fails { OnErr result (TakesNothing self.old.wire self.new.wire) }
        ensures leaves { LeavesDesk self.old self.new }
        ensures keeper { ¬ (result ≡ Err Fault.Keeper) }
        ensures keeps { Keeps self.old self.new (fault_of result) }
    {
        take_piece(self.wire, into)
    }

    /// Gives the octets, or a prefix of them where that fails.
    pub fn give(&mut self, octets: &[u8]) -> Result<(), Fault>
        ensures replies { Replies self.old self.new (fault_of result) octets.now }
        ensures keeps { Keeps self.old self.new (fault_of result) }
    {
        give_all(self.wire, octets)
    }

    /// Gives of a message of the store, whose octets are lent meanwhile.
    pub fn give_of<G: Giving>(&mut self, id: u32, giving: &G) -> Result<(), Fault>
        requires id { id < length self.old.desk.store.kept.messages }
        requires fits { G.fits giving.now (stored_octets self.old.desk.store id) }
        ensures replies { Replies self.old self.new (fault_of result) (G.given giving.now (stored_octets self.old.desk.store id)) }
        ensures keeps { Keeps self.old self.new (fault_of result) }
    {
        give_from(&self.desk.store, id, giving, self.wire)
    }

    /// Gives a range of what is shown of a message of the store.
    pub fn give_range(&mut self, id: u32, shown: &Shown, span: Span) -> Result<(), Fault>
        requires id { id < length self.old.desk.store.kept.messages }
        requires shown { IsShownOf (stored_octets self.old.desk.store id) shown.now }
        requires within { span.at + span.len ≤ length (shown_octets (stored_octets self.old.desk.store id) shown.now) }
        ensures replies { Replies self.old self.new (fault_of result) (take span.len (drop span.at (shown_octets (stored_octets self.old.desk.store id) shown.now))) }
        ensures keeps { Keeps self.old self.new (fault_of result) }
    {
        self.give_of(id, &ShownRange { shown, span })
    }

    /// Gives a range of a message of the store as it is stored, for which no tree is read.
    pub fn give_stored(&mut self, id: u32, span: Span) -> Result<(), Fault>
        requires id { id < length self.old.desk.store.kept.messages }
        requires within { span.at + span.len ≤ length (stored_octets self.old.desk.store id) }
        ensures replies { Replies self.old self.new (fault_of result) (take span.len (drop span.at (stored_octets self.old.desk.store id))) }
        ensures keeps { Keeps self.old self.new (fault_of result) }
    {
        self.give_of(id, &StoredRange { span })
    }

    /// Keeps a message for each local account, and puts one into the queue for the remote recipients, all by one call of the
    /// keeper. What the store has no room for it refuses.
    pub fn deliver(&mut self, delivery: &Delivery) -> Result<Delivered, Fault>
        requires opens { IsOpen self.old.desk }
        requires deliverable { IsDeliverable self.old.desk.store delivery.now }
        ensures advance { IfOk result (λ advance. advance ≡ advance_of (delivery_refusal self.old.desk.store delivery.now)) }
        ensures makes { Makes self.old self.new (fault_of result) (changes_of self.old.desk.store delivery.now) }
        ensures wire { ¬ (result ≡ Err Fault.Wire) }
        ensures keeps { Keeps self.old self.new (fault_of result) }
    {
        deliver_to(&mut self.desk.store, self.keeper, delivery)
    }

    /// Puts a message with these flags, this mark and this date last in a folder, by one call of the keeper. What the store has
    /// no room for it refuses.
    pub fn append(
        &mut self,
        folder: u32,
        attributes: Attributes,
        date: &[u8],
        octets: &[u8],
    ) -> Result<Delivered, Fault>
        requires opens { IsOpen self.old.desk }
        requires appendable { IsAppendable self.old.desk.store folder attributes.flags attributes.mark date.now octets.now }
        ensures advance { IfOk result (λ advance. advance ≡ advance_of (append_refusal self.old.desk.store octets.now)) }
        ensures makes { Makes self.old self.new (fault_of result) (append_changes self.old.desk.store folder attributes.flags attributes.mark date.now octets.now) }
        ensures keeps { Keeps self.old self.new (fault_of result) }
    {
        append_to(
            &mut self.desk.store,
            self.keeper,
            folder,
            attributes,
            date,
            octets,
        )
    }

    /// Takes messages away, in order, by one call of the keeper, which isn't called where there are none.
    pub fn expunge(&mut self, ids: &[u32]) -> Result<(), Fault>
        requires opens { IsOpen self.old.desk }
        requires live { expunge_refusal self.old.desk.store.kept ids.now ≡ None }
        requires distinct { IsDistinct (λ a b. a == b) ids.now }
        ensures makes { Makes self.old self.new (fault_of result) (calls_of (expunged ids.now)) }
        ensures nothing { ids.now ≡ [] → self.new ≡ self.old }
        ensures keeps { Keeps self.old self.new (fault_of result) }
    {
        expunge_from(&mut self.desk.store, self.keeper, ids)
    }

    /// Gives a message other flags in place of those that it has, also where they are the same.
    pub fn set_flags(&mut self, id: u32, flags: u8) -> Result<(), Fault>
        requires opens { IsOpen self.old.desk }
        requires live { flags_refusal self.old.desk.store.kept id ≡ None }
        requires flags { flags < 32 }
        ensures makes { Makes self.old self.new (fault_of result) ((records.Flags id flags ∷ []) ∷ []) }
        ensures keeps { Keeps self.old self.new (fault_of result) }
    {
        set_flags_in(&mut self.desk.store, self.keeper, id, flags)
    }

    /// Takes a recipient off the queue.
    pub fn settle(&mut self, entry: u32, index: u32) -> Result<(), Fault>
        requires opens { IsOpen self.old.desk }
        requires waits { settle_refusal self.old.desk.store.kept entry index ≡ None }
        ensures makes { Makes self.old self.new (fault_of result) ((records.Settle entry index ∷ []) ∷ []) }
        ensures wire { ¬ (result ≡ Err Fault.Wire) }
        ensures keeps { Keeps self.old self.new (fault_of result) }
    {
        settle_in(&mut self.desk.store, self.keeper, entry, index)
    }

    /// Makes a folder of an account. Its name is kept in NFC.
    pub fn create_folder(&mut self, account: u32, name: &str) -> Result<Created, Fault>
        requires opens { IsOpen self.old.desk }
        requires known { account < length self.old.desk.store.kept.accounts }
        requires name { IsFolderName (kept_name name.now) }
        ensures advance { IfOk result (λ advance. advance ≡ created_of (folder_refusal self.old.desk.store.kept account name.now)) }
        ensures makes { Makes self.old self.new (fault_of result) (folder_changes self.old.desk.store account name.now) }
        ensures keeps { Keeps self.old self.new (fault_of result) }
    {
        create_folder_in(&mut self.desk.store, self.keeper, account, name)
    }

    /// The present moment, in UTC.
    pub fn now(&mut self) -> Result<Timestamp, Memory>
        ensures told { IfOk result (λ timestamp. IsTold self.old.clock (moment_of timestamp)) }
        ensures seconds { IfOk result (λ timestamp. IsMoment timestamp.seconds (moment_of timestamp)) }
        ensures same { self.new ≡ self.old }
    {
        read_timestamp(self.alloc, self.clock)
    }
}
