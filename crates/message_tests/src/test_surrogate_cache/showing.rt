//! What is shown of a message, in both kinds.
ghost use Rattle.std.specs.Prelude.{◌≤◌, IfOk, OnOk};
ghost use Rattle.surrogate_cache.specs.Caching.{HoldsEach, IsStoredOf};
ghost use Rattle.surrogate_rope.specs.Served.{IsShownOf};

use mail_wire::{Entry, Failed, Memory, Octets};
use mime_tree::read_tree;
use std::alloc::Global;
use std::test::Fail;
use surrogate_cache::{Cache, Counts, Enabled, Legacy, View, give_range};
use surrogate_rope::Shown;
use test_mail::{NEVER, failing, wire_of};

// All that is shown, read in pieces of seven octets.
fn all_of(alloc: Global, shown: &Shown, msg: &[u8]) -> Result<Octets, Memory>
    requires { IsShownOf msg.now shown.now }
{
    let mut all = Octets::new(alloc);
    let mut piece = [0; 7];
    for _ in 0..shown.size(msg) {
        let count = shown.read_at(msg, all.len(), &mut piece);
        all.push_slice(&piece[..count])?;
    }
    Ok(all)
}

// A cache of so many blocks and entries, for one message.
fn open(alloc: Global, blocks: u32, entries: u32, msg: &[u8]) -> Result<Cache, Memory>
    requires blocks { (1 ≤ blocks) × (blocks ≤ 65536) }
    requires entries { 1 ≤ entries }
    ensures { IfOk result (HoldsEach (λ _. IsStoredOf msg.now)) }
{
    Cache::open(alloc, blocks, entries)
}

// Shows the message that a cache is for, under any number.
fn show<V: View>(alloc: Global, cache: &mut Cache, id: u32, msg: &[u8]) -> Result<Shown, Fail>
    requires { HoldsEach (λ _. IsStoredOf msg.now) cache.old }
    ensures shown { IfOk result (IsShownOf msg.now) }
    ensures holds { OnOk result (HoldsEach (λ _. IsStoredOf msg.now) cache.new) }
{
    let _tree = read_tree(alloc, msg).map_err(|_| "no tree")?;
    Ok(V::show(alloc, cache, id, msg)?)
}

// What is shown of a message.
fn shown<V: View>(alloc: Global, msg: &[u8]) -> Result<Octets, Fail> {
    let mut cache = open(alloc, 1, 1, msg)?;
    let shown = show::<V>(alloc, &mut cache, 0, msg)?;
    Ok(all_of(alloc, &shown, msg)?)
}

// A message, and what is shown of it where UTF-8 isn't enabled.
const SHOWN: [(&str, &str); 2] = [
    (
        "Subject: café bar\r\n\r\nx\r\n",
        "Subject:\r\n =?UTF-8?B?Y2Fmw6k=?=\r\n bar\r\n\r\nx\r\n",
    ),
    // the fields of an inner message are rewritten, too
    (
        "Content-Type: message/global\r\n\r\nSubject: é\r\n\r\né",
        "Content-Type: message/rfc822\r\n\r\nSubject:\r\n =?UTF-8?B?w6k=?=\r\n\r\né",
    ),
];

// Whether this is shown of a message where UTF-8 isn't enabled, and the message itself where it is.
fn is_shown_by_kind(alloc: Global, message: &[u8], made: &[u8]) -> Result<bool, Fail> {
    let legacy = shown::<Legacy>(alloc, message)?;
    let enabled = shown::<Enabled>(alloc, message)?;
    Ok(legacy.as_slice() == made && enabled.as_slice() == message)
}

#[test]
fn messages_are_shown_by_kind(rt: HostRuntime) -> Result<(), Fail> {
    for (message, made) in &SHOWN {
        assert!(rt; is_shown_by_kind(rt.alloc(), message.as_bytes(), made.as_bytes())?);
    }
    assert!(rt; Enabled::enabled() && !Legacy::enabled());
    Ok(())
}

// Whether these parts were given, and nothing was taken.
fn are_given(entries: &[Entry], parts: &[&str]) -> bool {
    entries.len() == parts.len()
        && entries.iter().zip(parts).all(|(entry, part)| match entry {
            Entry::Given(octets) => octets.as_slice() == part.as_bytes(),
            Entry::Taken(_) => false,
        })
}

// A range of what is shown, the call of the wire that fails, what is answered then, and the parts that were given.
struct Range {
    at: usize,
    len: usize,
    call: u64,
    answer: Result<(), Failed>,
    parts: &'static [&'static str],
}

const STORED: &str = "A: b\r\nSubject: é\r\nC: d\r\n\r\nx\r\n";

// Whether a range of what is shown is given so.
fn gives(alloc: Global, shown: &Shown, msg: &[u8], range: &Range) -> Result<bool, Memory>
    requires { IsShownOf msg.now shown.now }
{
    let size = shown.size(msg);
    if size < range.len || size - range.len < range.at {
        return Ok(false);
    }
    let mut wire = wire_of(alloc, b"", &[], failing(range.call))?;
    let answer = give_range(shown, msg, range.at, range.len, &mut wire);
    Ok(answer == range.answer && are_given(wire.entries(), range.parts))
}

// Whether this range of what is shown of it is.
fn is_given<V: View>(alloc: Global, range: &Range) -> Result<bool, Fail> {
    let msg = STORED.as_bytes();
    let mut cache = open(alloc, 1, 1, msg)?;
    let shown = show::<V>(alloc, &mut cache, 0, msg)?;
    Ok(gives(alloc, &shown, msg, range)?)
}

const MADE: &str = "Subject:\r\n =?UTF-8?B?w6k=?=\r\n";

// Ranges where UTF-8 isn't enabled.
const LEGACY: [Range; 4] = [
    Range {
        at: 0,
        len: 46,
        call: NEVER,
        answer: Ok(()),
        parts: &["A: b\r\n", MADE, "C: d\r\n\r\nx\r\n"],
    },
    Range {
        at: 3,
        len: 38,
        call: NEVER,
        answer: Ok(()),
        parts: &["b\r\n", MADE, "C: d\r\n"],
    },
    Range {
        at: 46,
        len: 0,
        call: NEVER,
        answer: Ok(()),
        parts: &[],
    },
    // a wire that fails was given a prefix
    Range {
        at: 3,
        len: 38,
        call: 1,
        answer: Err(Failed::Outside),
        parts: &["b\r\n", "Sub"],
    },
];

const ENABLED: Range = Range {
    at: 6,
    len: 11,
    call: NEVER,
    answer: Ok(()),
    parts: &["Subject: é"],
};

#[test]
fn a_range_is_given_run_by_run(rt: HostRuntime) -> Result<(), Fail> {
    for range in &LEGACY {
        assert!(rt; is_given::<Legacy>(rt.alloc(), range)?);
    }
    assert!(rt; is_given::<Enabled>(rt.alloc(), &ENABLED)?);
    Ok(())
}

// Whether the same is shown of a message by both.
fn are_alike(alloc: Global, first: &Shown, second: &Shown, msg: &[u8]) -> Result<bool, Memory>
    requires first { IsShownOf msg.now first.now }
    requires second { IsShownOf msg.now second.now }
{
    let all = all_of(alloc, first, msg)?;
    Ok(all_of(alloc, second, msg)?.as_slice() == all.as_slice())
}

// Whether the same is shown of it twice, from where it is built and from where it is held.
fn is_same_again(alloc: Global, cache: &mut Cache, msg: &[u8]) -> Result<bool, Fail>
    requires { HoldsEach (λ _. IsStoredOf msg.now) cache.old }
    ensures { OnOk result (HoldsEach (λ _. IsStoredOf msg.now) cache.new) }
{
    let built = show::<Legacy>(alloc, cache, 5, msg)?;
    let held = show::<Legacy>(alloc, cache, 5, msg)?;
    Ok(are_alike(alloc, &built, &held, msg)?)
}

// Whether a message that is shown where UTF-8 isn't enabled comes through the cache, and no other.
fn comes_through(alloc: Global, cache: &mut Cache, msg: &[u8]) -> Result<bool, Fail>
    requires { HoldsEach (λ _. IsStoredOf msg.now) cache.old }
{
    show::<Enabled>(alloc, cache, 5, msg)?;
    let begun = cache.counts() == Counts { built: 0, hits: 0 };
    let same = is_same_again(alloc, cache, msg)?;
    show::<Legacy>(alloc, cache, 4, msg)?;
    let counted = cache.counts() == Counts { built: 2, hits: 1 };
    show::<Enabled>(alloc, cache, 5, msg)?;
    let left = cache.counts() == Counts { built: 2, hits: 1 };
    Ok(begun && same && counted && left && cache.entries(alloc)?.as_slice() == [4, 5].as_slice())
}

#[test]
fn a_legacy_message_comes_through_the_cache(rt: HostRuntime) -> Result<(), Fail> {
    let mut cache = open(rt.alloc(), 2, 2, STORED.as_bytes())?;
    assert!(rt; comes_through(rt.alloc(), &mut cache, STORED.as_bytes())?);
    Ok(())
}
