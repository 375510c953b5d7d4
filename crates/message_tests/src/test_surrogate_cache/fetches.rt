//! What a cache holds after fetches.
ghost use Rattle.std.specs.Prelude.{◌≤◌, IfOk, OnOk, [], slice_index_or};
ghost use Rattle.surrogate_cache.specs.Caching.{HoldsEach, IsStoredOf};

use mail_wire::{Memory, Octets};
use mime_tree::read_tree;
use std::alloc::Global;
use std::test::Fail;
use surrogate_cache::{Cache, Counts};
use surrogate_rope::Rope;

// How many octets the subjects of the messages 0 to 5 have.
const SUBJECTS: [usize; 6] = [4, 12, 3200, 40, 5500, 3600];

// How many blocks their stored ropes need.
const BLOCKS: [usize; 6] = [1, 1, 2, 1, 3, 2];

// A message with a subject of so many octets that aren't ASCII.
fn message(alloc: Global, octets: usize) -> Result<Octets, Memory> {
    let mut made = Octets::from_slice(alloc, b"Subject: ")?;
    for _ in 0..octets / 2 {
        made.push_slice("é".as_bytes())?;
    }
    made.push_slice(b"\r\n\r\nx\r\n")?;
    Ok(made)
}

fn all_messages(alloc: Global) -> Result<Vec<Octets>, Memory> {
    let mut all = Vec::new(alloc);
    for octets in SUBJECTS {
        all.push(message(alloc, octets)?)?;
    }
    Ok(all)
}

fn open(alloc: Global, blocks: u32, entries: u32, messages: &[Octets]) -> Result<Cache, Memory>
    requires blocks { (1 ≤ blocks) × (blocks ≤ 65536) }
    requires entries { 1 ≤ entries }
    ensures { IfOk result (HoldsEach (λ id. IsStoredOf (slice_index_or messages.now id []))) }
{
    Cache::open(alloc, blocks, entries)
}

// Fetches one of the messages, and answers its rope, unless the fetch was refused.
fn try_fetch(
    alloc: Global,
    cache: &mut Cache,
    messages: &[Octets],
    id: u32,
) -> Result<Result<Rope, Memory>, Fail>
    requires { HoldsEach (λ id. IsStoredOf (slice_index_or messages.now id [])) cache.old }
    ensures { OnOk result (HoldsEach (λ id. IsStoredOf (slice_index_or messages.now id [])) cache.new) }
{
    let Some(octets) = messages.get(id as usize) else {
        return Err(Fail::from("no message"));
    };
    let tree = read_tree(alloc, octets.as_slice()).map_err(|_| "no tree")?;
    Ok(cache.fetch(alloc, id, octets.as_slice(), &tree))
}

// The same, and answers the stored form of its rope.
fn fetch(alloc: Global, cache: &mut Cache, messages: &[Octets], id: u32) -> Result<Octets, Fail>
    requires { HoldsEach (λ id. IsStoredOf (slice_index_or messages.now id [])) cache.old }
    ensures { OnOk result (HoldsEach (λ id. IsStoredOf (slice_index_or messages.now id [])) cache.new) }
{
    let rope = try_fetch(alloc, cache, messages, id)??;
    Ok(rope.store(alloc)?)
}

// The rope of one of the messages, if it is held.
fn held(
    alloc: Global,
    cache: &mut Cache,
    messages: &[Octets],
    id: u32,
) -> Result<Option<Rope>, Memory>
    requires { HoldsEach (λ id. IsStoredOf (slice_index_or messages.now id [])) cache.old }
    ensures { OnOk result (HoldsEach (λ id. IsStoredOf (slice_index_or messages.now id [])) cache.new) }
{
    cache.held(alloc, id)
}

// What is held, by the rule over a plain list of numbers and blocks.
#[derive(Drop)]
struct Plain {
    held: Vec<(u32, usize)>,
    counts: Counts,
    blocks: usize,
    places: usize,
}

// The list with an entry before all others, of which the first ones stay as long as there is room.
fn with_first(
    alloc: Global,
    held: &[(u32, usize)],
    first: (u32, usize),
    blocks: usize,
    places: usize,
) -> Result<Vec<(u32, usize)>, Memory> {
    let mut made = vec![in alloc; first]?;
    let mut used = first.1;
    for one in held {
        if one.0 != first.0 {
            used = used.saturating_add(one.1);
            if used > blocks || made.len() >= places {
                break;
            }
            made.push(*one)?;
        }
    }
    Ok(made)
}

impl Plain {
    fn new(alloc: Global, blocks: usize, places: usize) -> Plain {
        Plain {
            held: Vec::new(alloc),
            counts: Counts { built: 0, hits: 0 },
            blocks,
            places,
        }
    }

    fn fetch(&mut self, alloc: Global, id: u32, blocks: usize) -> Result<(), Memory> {
        if self.held.iter().any(|one| one.0 == id) {
            self.counts.hits = self.counts.hits.saturating_add(1);
        } else {
            self.counts.built = self.counts.built.saturating_add(1);
            if blocks > self.blocks {
                return Ok(());
            }
        }
        self.held = with_first(alloc, &self.held, (id, blocks), self.blocks, self.places)?;
        Ok(())
    }

    fn is(&self, entries: &[u32], counts: Counts) -> bool {
        counts == self.counts
            && entries.len() == self.held.len()
            && entries
                .iter()
                .zip(self.held.iter())
                .all(|(entry, one)| *entry == one.0)
    }
}

// Whether a cache of so many blocks and entries is the plain list after each of these fetches.
fn agrees(
    alloc: Global,
    messages: &[Octets],
    blocks: u32,
    entries: u32,
    ids: &[u32],
) -> Result<bool, Fail>
    requires blocks { (1 ≤ blocks) × (blocks ≤ 65536) }
    requires entries { 1 ≤ entries }
{
    let mut cache = open(alloc, blocks, entries, messages)?;
    let mut plain = Plain::new(alloc, blocks as usize, entries as usize);
    for id in ids {
        fetch(alloc, &mut cache, messages, *id)?;
        let needed = BLOCKS.get(*id as usize).copied().unwrap_or(0);
        plain.fetch(alloc, *id, needed)?;
        if !plain.is(cache.entries(alloc)?.as_slice(), cache.counts()) {
            return Ok(false);
        }
    }
    Ok(true)
}

// Whether a cache of two blocks holds these entries after these fetches, with these counts.
fn holds_after(
    alloc: Global,
    messages: &[Octets],
    ids: &[u32],
    entries: &[u32],
    counts: Counts,
) -> Result<bool, Fail> {
    let mut cache = open(alloc, 2, 8, messages)?;
    for id in ids {
        fetch(alloc, &mut cache, messages, *id)?;
    }
    Ok(cache.entries(alloc)?.as_slice() == entries && cache.counts() == counts)
}

// Fetches, the entries that are held then, and how many were built and found. The last row ends with one that no cache of this size holds.
const FETCHES: [(&[u32], [u32; 2], u64, u64); 3] = [
    (&[0, 1, 3], [3, 1], 3, 0),
    (&[0, 1, 3, 1, 0], [0, 1], 4, 1),
    (&[0, 1, 3, 1, 0, 4], [0, 1], 5, 1),
];

#[test]
fn the_last_fetched_are_held(rt: HostRuntime) -> Result<(), Fail> {
    let messages = all_messages(rt.alloc())?;
    for (ids, entries, built, hits) in FETCHES {
        let counts = Counts { built, hits };
        assert!(rt; holds_after(rt.alloc(), &messages, ids, &entries, counts)?);
    }
    Ok(())
}

#[test]
fn each_pool_is_a_plain_list(rt: HostRuntime) -> Result<(), Fail> {
    let messages = all_messages(rt.alloc())?;
    let ids = [
        0, 1, 2, 0, 3, 4, 3, 2, 5, 1, 1, 4, 0, 0, 5, 2, 3, 1, 0, 5, 4, 4, 3, 0, 2, 5, 1, 3, 3, 0,
    ];
    for blocks in 1..5 {
        for entries in 1..5 {
            assert!(rt; agrees(rt.alloc(), &messages, blocks, entries, &ids)?);
        }
    }
    Ok(())
}

// Whether a cache holds these entries, with these counts.
fn has_left(
    alloc: Global,
    cache: &Cache,
    entries: &[u32],
    built: u64,
    hits: u64,
) -> Result<bool, Memory> {
    let held = cache.entries(alloc)?;
    Ok(held.as_slice() == entries && cache.counts() == Counts { built, hits })
}

// Whether a message that is fetched again after others has the rope that it had.
fn is_same_again(alloc: Global, cache: &mut Cache, messages: &[Octets]) -> Result<bool, Fail>
    requires { HoldsEach (λ id. IsStoredOf (slice_index_or messages.now id [])) cache.old }
{
    fetch(alloc, cache, messages, 0)?;
    let built = fetch(alloc, cache, messages, 1)?;
    fetch(alloc, cache, messages, 3)?;
    let hit = fetch(alloc, cache, messages, 1)?;
    Ok(hit.as_slice() == built.as_slice())
}

// Whether the rope of a message is held, and stored as this.
fn is_held(
    alloc: Global,
    cache: &mut Cache,
    messages: &[Octets],
    id: u32,
    stored: &[u8],
) -> Result<bool, Memory>
    requires { HoldsEach (λ id. IsStoredOf (slice_index_or messages.now id [])) cache.old }
{
    match held(alloc, cache, messages, id)? {
        Some(rope) => Ok(rope.store(alloc)?.as_slice() == stored),
        None => Ok(false),
    }
}

// Whether a rope that is held needs no tree, and one that isn't held isn't counted.
fn is_held_without_tree(alloc: Global, cache: &mut Cache, messages: &[Octets]) -> Result<bool, Fail>
    requires { HoldsEach (λ id. IsStoredOf (slice_index_or messages.now id [])) cache.old }
{
    if held(alloc, cache, messages, 0)?.is_some() || !has_left(alloc, cache, &[], 0, 0)? {
        return Ok(false);
    }
    let built = fetch(alloc, cache, messages, 0)?;
    fetch(alloc, cache, messages, 2)?;
    let is_held = is_held(alloc, cache, messages, 0, built.as_slice())?;
    Ok(is_held && has_left(alloc, cache, &[0, 2], 2, 1)?)
}

// Whether a build that was refused isn't counted, and leaves one entry or two.
fn is_uncounted(alloc: Global, cache: &Cache) -> Result<bool, Memory> {
    Ok(has_left(alloc, cache, &[1, 0], 2, 0)? || has_left(alloc, cache, &[1], 2, 0)?)
}

// This and the next one say more where memory is refused, one request after the other, as `rt try --test --fail-alloc N` does.
fn refused_build_counts_nothing(
    alloc: Global,
    cache: &mut Cache,
    messages: &[Octets],
) -> Result<bool, Fail>
    requires { HoldsEach (λ id. IsStoredOf (slice_index_or messages.now id [])) cache.old }
{
    fetch(alloc, cache, messages, 0)?;
    fetch(alloc, cache, messages, 1)?;
    if try_fetch(alloc, cache, messages, 2)?.is_err() {
        if !is_uncounted(alloc, cache)? {
            return Ok(false);
        }
        fetch(alloc, cache, messages, 2)?;
    }
    Ok(has_left(alloc, cache, &[2, 1], 3, 0)?)
}

fn refused_hit_is_counted_and_moves(
    alloc: Global,
    cache: &mut Cache,
    messages: &[Octets],
) -> Result<bool, Fail>
    requires { HoldsEach (λ id. IsStoredOf (slice_index_or messages.now id [])) cache.old }
{
    let built = fetch(alloc, cache, messages, 2)?;
    fetch(alloc, cache, messages, 0)?;
    let refused = try_fetch(alloc, cache, messages, 2)?.is_err();
    if !has_left(alloc, cache, &[2, 0], 2, 1)? {
        return Ok(false);
    }
    if !refused {
        return Ok(true);
    }
    let held = fetch(alloc, cache, messages, 2)?;
    Ok(held.as_slice() == built.as_slice() && cache.counts() == Counts { built: 2, hits: 2 })
}

// What is tried of a cache of all messages.
#[derive(Clone, Copy)]
enum Trial {
    SameAgain,
    HeldWithoutTree,
    RefusedBuild,
    RefusedHit,
}

fn goes_well(
    alloc: Global,
    cache: &mut Cache,
    messages: &[Octets],
    trial: Trial,
) -> Result<bool, Fail>
    requires { HoldsEach (λ id. IsStoredOf (slice_index_or messages.now id [])) cache.old }
{
    match trial {
        Trial::SameAgain => is_same_again(alloc, cache, messages),
        Trial::HeldWithoutTree => is_held_without_tree(alloc, cache, messages),
        Trial::RefusedBuild => refused_build_counts_nothing(alloc, cache, messages),
        Trial::RefusedHit => refused_hit_is_counted_and_moves(alloc, cache, messages),
    }
}

// Whether the trial goes well with one of so many blocks and entries.
fn tried(alloc: Global, messages: &[Octets], size: u32, trial: Trial) -> Result<bool, Fail>
    requires size { (1 ≤ size) × (size ≤ 65536) }
{
    let mut cache = open(alloc, size, size, messages)?;
    goes_well(alloc, &mut cache, messages, trial)
}

#[test]
fn ropes_are_held_and_refused(rt: HostRuntime) -> Result<(), Fail> {
    let messages = all_messages(rt.alloc())?;
    for (size, trial) in [
        (2, Trial::SameAgain),
        (4, Trial::HeldWithoutTree),
        (3, Trial::RefusedBuild),
        (3, Trial::RefusedHit),
    ] {
        assert!(rt; tried(rt.alloc(), &messages, size, trial)?);
    }
    Ok(())
}
