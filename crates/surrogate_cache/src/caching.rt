//! The cache of surrogates.
ghost use Rattle.std.specs.Prelude.{◌≡◌, ◌≤◌, ℕ, List, [], map, IfOk, IfSome, OnErr, OnOk, None};
ghost use Rattle.mime_tree.specs.Tree.{HasTree};
ghost use Rattle.surrogate_rope.specs.Ropes.{IsRopeOf};
ghost use Rattle.surrogate_cache.specs.Caching.{Entry, FindsHeld, LosesHit, Builds, LosesBuild, Fetches, LosesFetch, IsHeldOf, IsCacheState, IsStoredForm, stored_under, after_build, with_entries, entries_beside};

use crate::keeping::{Order, ids_of, keep_first, load_at, open_order, touch};
use block_pool::{BLOCKS_MAX, Pool};
use mail_wire::Memory;
use mime_tree::Tree;
use std::alloc::Global;
use std::marker::Model;
use surrogate_rope::Rope;

/// How many ropes were built, and how many were held already.
#[derive(Clone, Copy, Debug, PartialEq, Eq)]
pub struct Counts {
    pub built: u64,
    pub hits: u64,
}

/// The ropes of the messages that were fetched last, each in its stored form, in blocks that are reserved when the cache is opened.
#[derive(Drop)]
pub struct Cache {
    pool: Pool,
    blocks: u32,
    order: Order,
    counts: Counts,
}

impl Model for Cache {
    ghost use Rattle.std.specs.Prelude.{◌≡◌};
    ghost use Rattle.surrogate_cache.specs.Caching.{CacheState};
    ghost use Rattle.surrogate_cache.specs.private.Kept.{IsKept, entries_at};

    ghost Value = { CacheState };

    ghost view = { λ a. record {
      entries = entries_at a.pool.held a.order.entries;
      counts = a.counts;
      blocks = a.blocks;
      places = a.order.cap;
    } };

    ghost invariant = { λ a. IsKept a.pool a.order.entries × (a.pool.blocks ≡ a.blocks) };
}

impl Cache {
    /// A cache of so many blocks for so many entries, with none so far.
    pub fn open(alloc: Global, blocks: u32, entries: u32) -> Result<Cache, Memory>
        requires some_blocks { 1 ≤ blocks }
        requires few_blocks { blocks ≤ BLOCKS_MAX }
        requires some_entries { 1 ≤ entries }
        ensures { IfOk result (λ cache. cache ≡ record { entries = []; counts = record { built = 0; hits = 0 }; blocks = blocks; places = entries }) }
    {
        let pool = Pool::open(alloc, blocks)?;
        let order = open_order(alloc, entries)?;
        Ok(Cache {
            pool,
            blocks,
            order,
            counts: Counts { built: 0, hits: 0 },
        })
    }

    /// The rope that is held under a message's number, if one is. That is a hit: it is counted, and the entry goes before all others.
    pub fn held(&mut self, alloc: Global, id: u32) -> Result<Option<Rope>, Memory>
        ensures finds { IfOk result (FindsHeld self.old self.new id) }
        // If what is held is of a message, the rope is.
        ensures rope { (msg : List ℕ) → IsHeldOf self.old id msg → IfOk result (λ found. IfSome found (IsRopeOf msg)) }
        ensures loses { OnErr result (LosesHit self.old self.new id) }
    {
        let Some(place) = touch(&mut self.order, id) else {
            return Ok(None);
        };
        self.counts.hits = self.counts.hits.saturating_add(1);
        match load_at(alloc, &self.pool, place) {
            Ok(rope) => Ok(Some(rope)),
            Err(fault) => Err(fault),
        }
    }

    // Keeps the stored form of a rope that was built, if the pool can have it, and counts it.
    fn keep(&mut self, id: u32, stored: &[u8]) -> Result<(), Memory>
        requires missed { stored_under self.old.entries id ≡ None }
        requires rope { IsStoredForm stored.now }
        ensures builds { OnOk result (self.new ≡ after_build self.old id stored.now) }
        ensures loses { OnErr result (self.new ≡ with_entries self.old (entries_beside self.old.blocks self.old.places self.old.entries stored.now)) }
    {
        keep_first(&mut self.pool, &mut self.order, self.blocks, id, stored)?;
        self.counts.built = self.counts.built.saturating_add(1);
        Ok(())
    }

    // Builds the rope of a message that isn't held.
    fn build(&mut self, alloc: Global, id: u32, msg: &[u8], tree: &Tree) -> Result<Rope, Memory>
        requires tree { HasTree msg.now tree.now.entities }
        requires missed { stored_under self.old.entries id ≡ None }
        ensures builds { IfOk result (Builds msg.now self.old self.new id) }
        ensures loses { OnErr result (LosesBuild msg.now self.old self.new id) }
    {
        let rope = Rope::build(alloc, msg, tree)?;
        let stored = rope.store(alloc)?;
        self.keep(id, stored.as_slice())?;
        Ok(rope)
    }

    /// The rope of a message, whose tree this is: the one that is held, or else one that is built and, if the pool can have it, held from
    /// now on before all others.
    pub fn fetch(&mut self, alloc: Global, id: u32, msg: &[u8], tree: &Tree) -> Result<Rope, Memory>
        requires tree { HasTree msg.now tree.now.entities }
        requires held { IsHeldOf self.old id msg.now }
        ensures rope { IfOk result (IsRopeOf msg.now) }
        ensures fetches { IfOk result (Fetches msg.now self.old self.new id) }
        ensures loses { OnErr result (LosesFetch msg.now self.old self.new id) }
    {
        match self.held(alloc, id)? {
            Some(rope) => Ok(rope),
            None => self.build(alloc, id, msg, tree),
        }
    }

    /// The numbers of the messages whose ropes are held, the one that was fetched last before all others.
    pub fn entries(&self, alloc: Global) -> Result<Vec<u32>, Memory>
        ensures ids { IfOk result (λ ids. ids.items ≡ map (λ (entry : Entry). entry.id) self.now.entries) }
        ensures sound { IsCacheState self.now }
    {
        ids_of(alloc, &self.order)
    }

    /// How many ropes were built, and how many were held already.
    pub fn counts(&self) -> Counts
        ensures { result ≡ self.now.counts }
    {
        self.counts
    }
}
