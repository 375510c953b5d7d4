//! Things that are put, read and given back.
ghost use Rattle.std.specs.Prelude.{◌≢◌, ℕ, IfSome, OnSome};
ghost use Rattle.block_pool.specs.Pool.{IsHeldUnder};

use block_pool::{Pool, needed};
use std::test::Fail;

// Octets that tell their places.
fn long() -> [u8; 5000] {
    let mut octets = [0; 5000];
    for (place, octet) in octets.iter_mut().enumerate() {
        *octet = (place % 251) as u8;
    }
    octets
}

// Puts octets, and tells what that leaves.
fn put(pool: &mut Pool, octets: &[u8]) -> Option<u32>
    ensures held { IfSome result (λ id. IsHeldUnder pool.new id) }
    ensures kept { OnSome result ((other : ℕ) → IsHeldUnder pool.old other → IsHeldUnder pool.new other) }
    ensures differ { IfSome result (λ id. (other : ℕ) → IsHeldUnder pool.old other → other ≢ id) }
{
    match pool.put(octets) {
        Some(id) => Some(id),
        None => None,
    }
}

// Gives back what is held under an id, and tells what that leaves.
fn give_back(pool: &mut Pool, id: u32)
    requires { IsHeldUnder pool.old id }
    ensures { (other : ℕ) → other ≢ id → IsHeldUnder pool.old other → IsHeldUnder pool.new other }
{
    pool.give_back(id);
}

// Whether exactly these octets are held under an id.
fn holds(pool: &Pool, id: u32, octets: &[u8]) -> bool
    requires { IsHeldUnder pool.now id }
{
    let mut into = [0; 5001];
    let count = pool.read(id, 0, &mut into);
    pool.len(id) == octets.len() && &into[..count] == octets
}

// The octet at a place, if there is one.
fn octet(pool: &Pool, id: u32, at: usize) -> Option<u8>
    requires { IsHeldUnder pool.now id }
{
    let mut into = [0; 1];
    match pool.read(id, at, &mut into) {
        0 => None,
        _ => Some(into[0]),
    }
}

// Whether the octets of a thing of two blocks are read at each border.
fn is_read(pool: &mut Pool, octets: &[u8]) -> Option<bool> {
    let id = put(pool, octets)?;
    let first = octet(pool, id, 0) == octets.first().copied();
    let last_of_first = octet(pool, id, 4095) == octets.get(4095).copied();
    let first_of_last = octet(pool, id, 4096) == octets.get(4096).copied();
    let last = octet(pool, id, 4999) == octets.get(4999).copied();
    let end = octet(pool, id, 5000).is_none();
    let past = octet(pool, id, 9000).is_none();
    Some(first & last_of_first & first_of_last & last & end & past)
}

// Whether a read fills a buffer over the border of two blocks, and leaves what it has no octets for.
fn is_filled(pool: &mut Pool, octets: &[u8; 5000]) -> Option<bool> {
    let id = put(pool, octets)?;
    let mut into = [7; 4];
    let over = pool.read(id, 4094, &mut into);
    let filled = into == [octets[4094], octets[4095], octets[4096], octets[4097]];
    let less = pool.read(id, 4998, &mut into);
    let left = into == [octets[4998], octets[4999], octets[4096], octets[4097]];
    Some((over == 4) & filled & (less == 2) & left)
}

// Whether things stay what they are, whatever is given back beside them.
fn stay(pool: &mut Pool, long: &[u8], block: &[u8]) -> Option<bool> {
    let first = put(pool, long)?;
    let second = put(pool, b"")?;
    let third = put(pool, block)?;
    let put_all = holds(pool, first, long) & holds(pool, second, b"") & holds(pool, third, block);
    give_back(pool, second);
    let without_second = holds(pool, first, long) & holds(pool, third, block);
    let fourth = put(pool, b"fourth")?;
    let with_fourth = holds(pool, first, long) & holds(pool, fourth, b"fourth");
    give_back(pool, first);
    let without_first = holds(pool, third, block) & holds(pool, fourth, b"fourth");
    let fifth = put(pool, long)?;
    let with_fifth = holds(pool, third, block) & holds(pool, fifth, long);
    Some(put_all & without_second & with_fourth & without_first & with_fifth)
}

// Whether octets of two blocks leave no room in a pool of two, until they are given back.
fn takes_all(pool: &mut Pool, octets: &[u8]) -> Option<bool> {
    let id = put(pool, octets)?;
    let none_free = pool.free() == 0;
    if pool.put(b"").is_some() {
        return Some(false);
    }
    pool.give_back(id);
    Some(none_free)
}

#[test]
fn octets_take_whole_blocks(rt: HostRuntime) {
    assert!(rt; needed(0) == 1 && needed(4096) == 1);
    assert!(rt; needed(4097) == 2 && needed(8193) == 3);
}

#[test]
fn blocks_are_taken_and_given_back(rt: HostRuntime) -> Result<(), Fail> {
    let mut pool = Pool::open(rt.alloc(), 2)?;
    assert!(rt; pool.free() == 2);
    assert!(rt; takes_all(&mut pool, &[7; 4097]) == Some(true));
    assert!(rt; pool.free() == 2);
    Ok(())
}

#[test]
fn octets_are_read_from_each_place(rt: HostRuntime) -> Result<(), Fail> {
    let mut pool = Pool::open(rt.alloc(), 4)?;
    let octets = long();
    assert!(rt; is_read(&mut pool, &octets) == Some(true));
    assert!(rt; is_filled(&mut pool, &octets) == Some(true));
    Ok(())
}

#[test]
fn each_thing_stays_until_it_is_given_back(rt: HostRuntime) -> Result<(), Fail> {
    let mut pool = Pool::open(rt.alloc(), 4)?;
    let octets = long();
    assert!(rt; stay(&mut pool, &octets, &octets[..4096]) == Some(true));
    assert!(rt; pool.free() == 0);
    Ok(())
}
