//! Which messages of a folder a set names (RFC 3501, 9, sequence-set).
ghost use Rattle.std.specs.Prelude.{◌≡◌, ℕ, ◌<◌, ◌≤◌, ◌-◌, ◌^◌, ◌++◌, ◌↔◌, ◌&&◌, nat_le, length, map, slice_index_or, true, false, Option, IfOk, OnOk, IfSome, IsNone};
ghost use Rattle.std.specs.List.{All, range_with_len};
ghost use Rattle.std.specs.List.Sorted.{IsStrictlyIncreasing, IsNonDecreasingBy};
ghost use Rattle.kept_mail.specs.declared.kept.Listed.{Listed as ListedValue};
ghost use Rattle.imap_mailboxes.specs.Sets.{chosen_places, is_refused, end_of as end_is, passes_last as passes, last_of as last_is, is_within, is_in_set, called};
ghost use Rattle.imap_mailboxes.specs.private.Stretches.{is_inside, in_stretches, EndWithin, places_below};
ghost use Rattle.imap_mailboxes.specs.declared.sets.Stretch.{Stretch as StretchValue};

use imap_grammar::Set;
use kept_mail::Listed;
use mail_wire::Memory;
use std::alloc::Global;

// The places of a folder from one on, up to another.
#[derive(Clone, Copy)]
struct Stretch {
    from: u32,
    to: u32,
}

fn end_of(last: u32, end: Option<u32>) -> u32
    ensures { result ≡ end_is last end }
{
    end.unwrap_or(last)
}

fn passes_last(last: u32, set: &Set) -> bool
    ensures { result ≡ passes last set.now }
{
    set.ranges.as_slice().iter().any(|range| last < end_of(last, range.0)
        || last < end_of(last, range.1))
}

// What `*` stands for.
fn last_of(by_uid: bool, messages: &[Listed]) -> u32
    requires { length messages.now < 2 ^ 32 }
    ensures { result ≡ last_is by_uid messages.now }
{
    if !by_uid {
        return messages.len() as u32;
    }
    match messages.last() {
        Some(one) => one.uid,
        None => 0,
    }
}

// The places of the messages that have UIDs from one to another.
fn uid_stretch(low: u32, high: u32, messages: &[Listed]) -> Stretch
    requires uids_rise { IsNonDecreasingBy (λ (one : ListedValue). one.uid) messages.now }
    requires few { length messages.now < 2 ^ 32 }
    ensures inside { (place : ℕ) (one : ListedValue) → place < length messages.now
        → is_inside place result ≡ (nat_le low (slice_index_or messages.now place one).uid && nat_le (slice_index_or messages.now place one).uid high) }
    ensures within { result.to ≤ length messages.now }
{
    let from = messages.partition_point(|one| one.uid < low);
    let to = messages.partition_point(|one| one.uid <= high);
    Stretch {
        from: from as u32,
        to: to as u32,
    }
}

// The places of the messages that a range names.
fn stretch_of(
    by_uid: bool,
    last: u32,
    range: (Option<u32>, Option<u32>),
    messages: &[Listed],
) -> Stretch
    requires uids_rise { IsNonDecreasingBy (λ (one : ListedValue). one.uid) messages.now }
    requires few { length messages.now < 2 ^ 32 }
    ensures inside { (place : ℕ) (one : ListedValue) → place < length messages.now
        → is_inside place result ≡ is_within last (called by_uid place (slice_index_or messages.now place one)) range }
    ensures within { (by_uid ≡ false → (end_is last range.0 ≤ length messages.now) × (end_is last range.1 ≤ length messages.now)) → result.to ≤ length messages.now }
{
    let a = end_of(last, range.0);
    let b = end_of(last, range.1);
    let low = a.min(b);
    let high = a.max(b);
    if by_uid {
        return uid_stretch(low, high, messages);
    }
    Stretch {
        from: low.saturating_sub(1),
        to: high,
    }
}

// The places of the messages that each range names.
fn stretches_of(
    alloc: Global,
    by_uid: bool,
    last: u32,
    set: &Set,
    messages: &[Listed],
) -> Result<Vec<Stretch>, Memory>
    requires uids_rise { IsNonDecreasingBy (λ (one : ListedValue). one.uid) messages.now }
    requires few { length messages.now < 2 ^ 32 }
    requires last { last ≡ last_is by_uid messages.now }
    requires not_refused { is_refused by_uid set.now messages.now ≡ false }
    ensures among { IfOk result (λ made. (place : ℕ) (one : ListedValue) → place < length messages.now
        → in_stretches made.items place ≡ is_in_set last set.now (called by_uid place (slice_index_or messages.now place one))) }
    ensures within { IfOk result (λ made. EndWithin (length messages.now) made.items) }
{
    let mut made = Vec::new(alloc);
    for range in set.ranges.as_slice() {
        made.push(stretch_of(by_uid, last, *range, messages))?;
    }
    Ok(made)
}

fn push_places(places: &mut Vec<u32>, from: u32, to: u32) -> Result<(), Memory>
    ensures { OnOk result (places.new.items ≡ places.old.items ++ range_with_len from (to - from)) }
{
    for place in from..to {
        places.push(place)?;
    }
    Ok(())
}

// The places of all stretches, each once and in ascending order.
fn places_of(alloc: Global, stretches: &[Stretch]) -> Result<Vec<u32>, Memory>
    requires { IsNonDecreasingBy (λ (one : StretchValue). one.from) stretches.now }
    ensures { IfOk result (λ places. (count : ℕ) → EndWithin count stretches.now → places.items ≡ places_below stretches.now count) }
{
    let mut places = Vec::new(alloc);
    let mut next = 0u32;
    for stretch in stretches {
        push_places(&mut places, next.max(stretch.from), stretch.to)?;
        next = next.max(stretch.to);
    }
    Ok(places)
}

/// The places, from 0 on, of the messages of a folder that a set names by their numbers or by their UIDs, each once and in
/// the order of the folder. It is `None` where a number is past the last one. It costs the ranges, sorted, and the places.
pub fn places(
    alloc: Global,
    by_uid: bool,
    set: &Set,
    messages: &[Listed],
) -> Result<Option<Vec<u32>>, Memory>
    requires uids_rise { IsStrictlyIncreasing (map (λ (one : ListedValue). one.uid) messages.now) }
    requires few { length messages.now < 2 ^ 32 }
    ensures refused { IfOk result (λ places. IsNone places ↔ (is_refused by_uid set.now messages.now ≡ true)) }
    ensures chosen { IfOk result (λ places. IfSome places (λ v. v.items ≡ chosen_places by_uid set.now messages.now)) }
    ensures within { IfOk result (λ places. IfSome places (λ v. All (λ place. place < length messages.now) v.items)) }
{
    let last = last_of(by_uid, messages);
    if !by_uid && passes_last(last, set) {
        return Ok(None);
    }
    let mut stretches = stretches_of(alloc, by_uid, last, set, messages)?;
    stretches.sort_unstable_by_key(|stretch| stretch.from);
    Ok(Some(places_of(alloc, &stretches)?))
}
