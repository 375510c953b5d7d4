//! The pool.
ghost use Rattle.std.specs.Prelude.{◌≡◌, ℕ, ◌-◌, ◌<◌, ◌≤◌, ◌↔◌, min, List, [], ◌++◌, length, take, drop, IfOk, IfSome, IfNone, IsNone};
ghost use Rattle.block_pool.specs.Pool.{PoolState, needed_blocks, free_blocks, HoldsUnder, IsHeldUnder, Puts, TakesBack, IsAccounted};

use crate::chains::{BLOCK, copy_out, fill, following, in_order, needed};
use mail_wire::Memory;
use std::alloc::Global;
use std::marker::Model;

/// How many blocks a pool has at most.
pub const BLOCKS_MAX: u32 = 65_536;

/// Blocks of 4,096 octets, all reserved when the pool is opened, and what is held in them.
#[derive(Drop)]
pub struct Pool {
    region: Vec<u8>,
    // the block after each block, in the chain of a thing or of the free blocks
    next: Vec<u32>,
    // the length of the thing that begins at each block
    lens: Vec<Option<usize>>,
    first_free: u32,
    free: u32,
}

impl Model for Pool {
    ghost use Rattle.std.specs.Prelude.{length};
    ghost use Rattle.block_pool.specs.Pool.{PoolState};
    ghost use Rattle.block_pool.specs.private.Kept.{held_by, IsPool};

    ghost Value = { PoolState };

    ghost view = { λ a. record {
      held = held_by a.region.items a.next.items a.lens.items;
      blocks = length a.lens.items;
    } };

    ghost invariant = { λ a. IsPool a.region.items a.next.items a.lens.items a.first_free a.free };
}

impl Pool {
    /// A pool of so many blocks, all free. No other call takes memory.
    pub fn open(alloc: Global, blocks: u32) -> Result<Pool, Memory>
        requires some { 1 ≤ blocks }
        requires most { blocks ≤ BLOCKS_MAX }
        ensures held { IfOk result (λ pool. pool.held ≡ []) }
        ensures blocks { IfOk result (λ pool. pool.blocks ≡ blocks) }
    {
        let count = blocks as usize;
        let region = vec![in alloc; 0; BLOCK * count]?;
        let next = in_order(alloc, blocks)?;
        let lens = vec![in alloc; None; count]?;
        Ok(Pool {
            region,
            next,
            lens,
            first_free: 0,
            free: blocks,
        })
    }

    /// Holds a copy of these octets from now on, under the id that it answers; None where too few blocks are free.
    pub fn put(&mut self, octets: &[u8]) -> Option<u32>
        ensures none { IsNone result ↔ (free_blocks self.old < needed_blocks (length octets.now)) }
        ensures same { IfNone result (self.new ≡ self.old) }
        ensures fresh { IfSome result (λ id. ¬ IsHeldUnder self.old id) }
        ensures puts { IfSome result (λ id. Puts self.old self.new id octets.now) }
    {
        let blocks = needed(octets.len());
        if (self.free as usize) < blocks {
            return None;
        }
        let id = self.first_free;
        self.first_free = fill(&mut self.region, &self.next, id, octets);
        self.free -= blocks as u32;
        self.lens[id as usize] = Some(octets.len());
        Some(id)
    }

    /// How many octets are held under an id.
    pub fn len(&self, id: u32) -> usize
        requires { IsHeldUnder self.now id }
        ensures { (octets : List ℕ) → HoldsUnder self.now id octets → result ≡ length octets }
    {
        match self.lens[id as usize] {
            Some(len) => len,
            None => unreachable!(),
        }
    }

    /// Copies the octets of an id from `at` on, as many as the buffer holds, and answers how many these are.
    pub fn read(&self, id: u32, at: usize, into: &mut [u8]) -> usize
        requires { IsHeldUnder self.now id }
        ensures count { (octets : List ℕ) → HoldsUnder self.now id octets → result ≡ min (length into.old) (length octets - at) }
        ensures octets { (octets : List ℕ) → HoldsUnder self.now id octets → into.new ≡ take result (drop at octets) ++ drop result into.old }
    {
        let len = self.len(id);
        if len <= at {
            return 0;
        }
        let count = into.len().min(len - at);
        let first = following(&self.next, id, at / BLOCK);
        copy_out(
            &self.region,
            &self.next,
            first,
            at % BLOCK,
            &mut into[..count],
        );
        count
    }

    /// Holds no more what is held under an id: its blocks are free again.
    pub fn give_back(&mut self, id: u32)
        requires { IsHeldUnder self.old id }
        ensures { TakesBack self.old self.new id }
    {
        let blocks = needed(self.len(id));
        let last = following(&self.next, id, blocks - 1);
        self.next[last as usize] = self.first_free;
        self.first_free = id;
        self.free += blocks as u32;
        self.lens[id as usize] = None;
    }

    /// How many blocks are free.
    pub fn free(&self) -> u32
        ensures count { result ≡ free_blocks self.now }
        ensures whole { IsAccounted self.now }
    {
        self.free
    }
}
