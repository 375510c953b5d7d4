//! Stored ropes in a pool, and the order of their use.
ghost use Rattle.std.specs.Prelude.{◌≡◌, ℕ, ◌-◌, ◌<◌, ◌≤◌, ◌∷◌, [], ◌↔◌, List, nat_eq, length, take, IfOk, OnOk, OnErr, IsTrue, None};
ghost use Rattle.std.specs.Map.{keys_of, lookup};
ghost use Rattle.block_pool.specs.Pool.{HoldsUnder, IsAccounted, needed_blocks, free_blocks};
ghost use Rattle.lru.specs.LruCache.{lru_cache, promoted};
ghost use Rattle.surrogate_rope.specs.Ropes.{RopeValue};
ghost use Rattle.surrogate_rope.specs.Stored.{IsStoredRope};
ghost use Rattle.surrogate_cache.specs.Caching.{IsStoredForm, entries_beside, entries_built, entries_within, stored_under};
ghost use Rattle.surrogate_cache.specs.private.Kept.{IsKept, entries_at};

use block_pool::{Pool, needed};
use lru::LruCache;
use mail_wire::Memory;
use std::alloc::Global;
use std::num::NonZeroUsize;
use surrogate_rope::Rope;

// The messages by their numbers, the one that was fetched last before all others, each with the id of its stored rope in the pool.
pub(crate) type Order = LruCache<u32, u32>;

// An order of no message, with places for so many.
pub(crate) fn open_order(alloc: Global, places: u32) -> Result<Order, Memory>
    requires { 1 ≤ places }
    ensures { IfOk result (λ order. order ≡ lru_cache [] places) }
{
    let Some(places) = NonZeroUsize::new(places as usize) else {
        unreachable!();
    };
    Ok(LruCache::sparse(alloc, places)?)
}

// Finds where the stored rope of a message is, which moves to the front.
pub(crate) fn touch(order: &mut Order, id: u32) -> Option<u32>
    ensures place { result ≡ lookup (nat_eq id) order.old.entries }
    ensures order { order.new ≡ lru_cache (promoted (nat_eq id) order.old.entries) order.old.cap }
{
    let Some(place) = order.peek(&id).copied() else {
        return None;
    };
    order.promote(&id);
    Some(place)
}

// The rope whose stored form is at this place.
pub(crate) fn load_at(alloc: Global, pool: &Pool, place: u32) -> Result<Rope, Memory>
    requires { (stored : List ℕ) × HoldsUnder pool.now place stored × IsStoredForm stored }
    ensures { IfOk result (λ made. (stored : List ℕ) (rope : RopeValue) → HoldsUnder pool.now place stored → IsStoredRope stored rope → made ≡ rope) }
{
    let mut stored = vec![in alloc; 0; pool.len(place)]?;
    pool.read(place, 0, &mut stored);
    Rope::load(alloc, &stored)
}

// Whether so many blocks are free, and a place.
fn has_room(pool: &Pool, order: &Order, blocks: usize) -> bool
    ensures room { IsTrue result ↔ (blocks ≤ free_blocks pool.now) × (length order.now.entries < order.now.cap) }
    ensures whole { IsAccounted pool.now }
    ensures some { 0 < order.now.cap }
{
    let free = pool.free() as usize;
    let len = order.len();
    blocks <= free && len < order.cap().get()
}

// Takes the last entry off. Its blocks are free then.
fn drop_last(pool: &mut Pool, order: &mut Order)
    requires kept { IsKept pool.old order.old.entries }
    requires whole { IsAccounted pool.old }
    requires some { 0 < length order.old.entries }
    ensures kept { IsKept pool.new order.new.entries }
    ensures entries { entries_at pool.new.held order.new.entries ≡ take (length order.old.entries - 1) (entries_at pool.old.held order.old.entries) }
    ensures shorter { length order.new.entries < length order.old.entries }
    ensures same { (pool.new.blocks ≡ pool.old.blocks) × (order.new.cap ≡ order.old.cap) }
{
    let Some((_, last)) = order.pop_lru() else {
        unreachable!();
    };
    pool.give_back(last);
}

// Takes the last entries off until so many blocks are free, and a place.
fn make_room(pool: &mut Pool, order: &mut Order, blocks: usize)
    requires kept { IsKept pool.old order.old.entries }
    requires can { blocks ≤ pool.old.blocks }
    ensures kept { IsKept pool.new order.new.entries }
    ensures entries { entries_at pool.new.held order.new.entries ≡ entries_within (pool.old.blocks - blocks) (order.old.cap - 1) (entries_at pool.old.held order.old.entries) }
    ensures room { (blocks ≤ free_blocks pool.new) × (length order.new.entries < order.new.cap) }
    ensures same { (pool.new.blocks ≡ pool.old.blocks) × (order.new.cap ≡ order.old.cap) }
{
    while !has_room(pool, order, blocks) {
        drop_last(pool, order);
    }
}

// Puts an entry before all others, for which there is room.
fn put_first(pool: &mut Pool, order: &mut Order, id: u32, stored: &[u8]) -> Result<(), Memory>
    requires kept { IsKept pool.old order.old.entries }
    requires missed { stored_under (entries_at pool.old.held order.old.entries) id ≡ None }
    requires rope { IsStoredForm stored.now }
    requires room { (needed_blocks (length stored.now) ≤ free_blocks pool.old) × (length order.old.entries < order.old.cap) }
    ensures kept { IsKept pool.new order.new.entries }
    ensures ok { OnOk result (entries_at pool.new.held order.new.entries ≡ record { id = id; stored = stored.now } ∷ entries_at pool.old.held order.old.entries) }
    ensures err { OnErr result (entries_at pool.new.held order.new.entries ≡ entries_at pool.old.held order.old.entries) }
    ensures same { (pool.new.blocks ≡ pool.old.blocks) × (order.new.cap ≡ order.old.cap) }
{
    let Some(place) = pool.put(stored) else {
        unreachable!();
    };
    match order.put(id, place) {
        Ok(_) => Ok(()),
        Err(_) => {
            pool.give_back(place);
            Err(Memory)
        }
    }
}

// Keeps a stored rope before all others, for which the last ones go. One that needs more blocks than the pool has isn't kept.
pub(crate) fn keep_first(
    pool: &mut Pool,
    order: &mut Order,
    most: u32,
    id: u32,
    stored: &[u8],
) -> Result<(), Memory>
    requires kept { IsKept pool.old order.old.entries }
    requires most { pool.old.blocks ≡ most }
    requires missed { stored_under (entries_at pool.old.held order.old.entries) id ≡ None }
    requires rope { IsStoredForm stored.now }
    ensures kept { IsKept pool.new order.new.entries }
    ensures ok { OnOk result (entries_at pool.new.held order.new.entries ≡ entries_built most order.old.cap (entries_at pool.old.held order.old.entries) id stored.now) }
    ensures err { OnErr result (entries_at pool.new.held order.new.entries ≡ entries_beside most order.old.cap (entries_at pool.old.held order.old.entries) stored.now) }
    ensures same { (pool.new.blocks ≡ pool.old.blocks) × (order.new.cap ≡ order.old.cap) }
{
    let blocks = needed(stored.len());
    if blocks > most as usize {
        return Ok(());
    }
    make_room(pool, order, blocks);
    put_first(pool, order, id, stored)
}

// The numbers of the messages, in order.
pub(crate) fn ids_of(alloc: Global, order: &Order) -> Result<Vec<u32>, Memory>
    ensures ids { IfOk result (λ ids. ids.items ≡ keys_of order.now.entries) }
    ensures few { length order.now.entries ≤ order.now.cap }
{
    let mut ids = Vec::with_capacity(alloc, order.len())?;
    for (id, _) in order.iter() {
        ids.push(*id)?;
    }
    Ok(ids)
}
