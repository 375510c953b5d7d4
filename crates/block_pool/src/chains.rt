//! Chains of blocks in one region: each block has the number of the one after it.
ghost use Rattle.std.specs.Prelude.{◌≡◌, ℕ, ◌+◌, ◌*◌, ◌<◌, ◌≤◌, length, take, drop, IfOk};
ghost use Rattle.block_pool.specs.Pool.{needed_blocks};
ghost use Rattle.block_pool.specs.private.Chains.{StaysInside, GoesInOrder, block_after, along, written, filled};

use mail_wire::Memory;
use std::alloc::Global;

// How many octets a block has.
pub(crate) const BLOCK: usize = 4096;

/// How many blocks so many octets take: at least one, so that nothing has an id of its own too.
pub fn needed(len: usize) -> usize
    ensures { result ≡ needed_blocks len }
{
    len.div_ceil(BLOCK).max(1)
}

// Each block with the next one after it; the last goes back to the first.
pub(crate) fn in_order(alloc: Global, blocks: u32) -> Result<Vec<u32>, Memory>
    requires { 1 ≤ blocks }
    ensures len { IfOk result (λ next. length next.items ≡ blocks) }
    ensures inside { IfOk result (λ next. StaysInside next.items 0) }
    ensures order { IfOk result (λ next. GoesInOrder next.items) }
{
    let mut next = Vec::with_capacity(alloc, blocks as usize)?;
    for block in 1..blocks {
        next.push(block)?;
    }
    next.push(0)?;
    Ok(next)
}

// The block so many steps after a block.
pub(crate) fn following(next: &[u32], first: u32, steps: usize) -> u32
    requires { StaysInside next.now first }
    ensures value { result ≡ block_after next.now first steps }
    ensures inside { result < length next.now }
{
    let mut block = first;
    for _step in 0..steps {
        block = next[block as usize];
    }
    block
}

// Copies at most a block of octets to the beginning of a block.
fn write(region: &mut [u8], block: u32, piece: &[u8])
    requires fits { length piece.now ≤ 4096 }
    requires inside { 4096 * block + 4096 ≤ length region.old }
    ensures { region.new ≡ written region.old block piece.now }
{
    let start = block as usize * BLOCK;
    region[start..start + piece.len()].copy_from_slice(piece);
}

// Copies octets to the blocks from `first` on, and answers the block after those that they take.
pub(crate) fn fill(region: &mut [u8], next: &[u32], first: u32, octets: &[u8]) -> u32
    requires inside { StaysInside next.now first }
    requires region { length region.old ≡ 4096 * length next.now }
    ensures filled { region.new ≡ filled region.old next.now first octets.now (needed_blocks (length octets.now)) }
    ensures following { result ≡ block_after next.now first (needed_blocks (length octets.now)) }
{
    let mut block = first;
    for place in 0..needed(octets.len()) {
        let (_, rest) = octets.split_at(place * BLOCK);
        let (piece, _) = rest.split_at(rest.len().min(BLOCK));
        write(region, block, piece);
        block = next[block as usize];
    }
    block
}

// Fills a buffer with the octets of a chain, from `start` of its first block on.
pub(crate) fn copy_out(region: &[u8], next: &[u32], first: u32, start: usize, into: &mut [u8])
    requires inside { StaysInside next.now first }
    requires region { length region.now ≡ 4096 * length next.now }
    requires starts { start < 4096 }
    ensures { (count : ℕ) → start + length into.old ≤ 4096 * count → into.new ≡ take (length into.old) (drop start (along region.now next.now first count)) }
{
    let mut block = first;
    let mut start = start;
    let mut done = 0;
    while done < into.len() {
        let count = (into.len() - done).min(BLOCK - start);
        let from = block as usize * BLOCK + start;
        into[done..done + count].copy_from_slice(&region[from..from + count]);
        done += count;
        start = 0;
        block = next[block as usize];
    }
}
