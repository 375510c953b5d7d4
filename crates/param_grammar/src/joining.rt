//! What the parts of a name say together.
ghost use Rattle.std.specs.Prelude.{◌≡◌, ◌==◌, ◌<◌, ℕ, true, false, [], ◌∷◌, List, ◌++◌, IfOk, OnOk, IfSome, IfNone, length, map, take};
ghost use Rattle.std.specs.List.{All, flat_map};
ghost use Rattle.std.specs.Option.{option_map_or};
ghost use Rattle.encoded_words.specs.private.Values.{value_of};
ghost use Rattle.param_grammar.specs.declared.Piece.{Piece};
ghost use Rattle.param_grammar.specs.Extended.{unit_of as unit_value};
ghost use Rattle.param_grammar.specs.Joining.{AreNumbered, first_parts, has_number};
ghost use Rattle.param_grammar.specs.Places.{ArePlaced, piece_in};
ghost use Rattle.param_grammar.specs.private.Slots.{AreSlots, HoldBelow};

use crate::extended::unit_of;
use crate::numbers::number_below;
use crate::places::{Place, digits_of, piece_at};
use encoded_words::Unit;
use mail_wire::{Memory, Octets};
use std::alloc::Global;

// The number of a piece, where it is below a bound.
fn number_of(text: &[u8], places: &[Place], part: u32, bound: usize) -> Option<usize>
    ensures below { IfSome result (λ number. number < bound) }
    ensures number { (pieces : List Piece) → ArePlaced text.now places.now pieces → part < length places.now → (n : ℕ) → n < bound
        → has_number n (piece_in pieces part) ≡ option_map_or (λ number. number == n) result false }
{
    let Some(place) = places.get(part as usize) else {
        return None;
    };
    match digits_of(text, *place) {
        Some(digits) => number_below(digits, bound),
        None => None,
    }
}

fn empty_slots(alloc: Global, count: usize) -> Result<Vec<Option<u32>>, Memory>
    ensures empty { IfOk result (λ slots. (piece : ℕ → Piece) → AreSlots piece count [] slots.items) }
    ensures within { IfOk result (λ slots. (bound : ℕ) → HoldBelow bound slots.items) }
{
    let mut slots = Vec::new(alloc);
    for _ in 0..count {
        slots.push(None)?;
    }
    Ok(slots)
}

// Puts a part into the slot of its number, where there is one. Answers whether that was free.
fn put_part(text: &[u8], places: &[Place], part: u32, slots: &mut Vec<Option<u32>>) -> bool
    ensures counted { length slots.new.items ≡ length slots.old.items }
    ensures within { (bound : ℕ) → HoldBelow bound slots.old.items → part < bound → HoldBelow bound slots.new.items }
    ensures put { (pieces parts : List Piece) → ArePlaced text.now places.now pieces → part < length places.now
        → AreSlots (piece_in pieces) (length slots.old.items) parts slots.old.items → result ≡ true
        → AreSlots (piece_in pieces) (length slots.old.items) (parts ++ piece_in pieces part ∷ []) slots.new.items }
    ensures taken { (pieces parts following : List Piece) → ArePlaced text.now places.now pieces → part < length places.now
        → AreSlots (piece_in pieces) (length slots.old.items) parts slots.old.items → length slots.old.items ≡ length (parts ++ piece_in pieces part ∷ following) → result ≡ false
        → ¬ AreNumbered (parts ++ piece_in pieces part ∷ following) }
{
    let Some(number) = number_of(text, places, part, slots.len()) else {
        return true;
    };
    if slots[number].is_some() {
        return false;
    }
    slots[number] = Some(part);
    true
}

// The parts by their numbers below the count of the parts, and nothing where one number stands at two of them.
fn slots_of(
    alloc: Global,
    text: &[u8],
    places: &[Place],
    parts: &[u32],
) -> Result<Option<Vec<Option<u32>>>, Memory>
    requires { All (λ part. part < length places.now) parts.now }
    ensures found { (pieces : List Piece) → ArePlaced text.now places.now pieces → IfOk result (λ o. IfSome o (λ slots. AreSlots (piece_in pieces) (length parts.now) (map (piece_in pieces) parts.now) slots.items)) }
    ensures within { IfOk result (λ o. IfSome o (λ slots. HoldBelow (length places.now) slots.items)) }
    ensures none { (pieces : List Piece) → ArePlaced text.now places.now pieces → IfOk result (λ o. IfNone o (¬ AreNumbered (map (piece_in pieces) parts.now))) }
{
    let mut slots = empty_slots(alloc, parts.len())?;
    for part in parts {
        if !put_part(text, places, *part, &mut slots) {
            return Ok(None);
        }
    }
    Ok(Some(slots))
}

// The parts in the order of their numbers, and nothing exactly where these aren't the numbers from 0 on.
pub(crate) fn in_order(
    alloc: Global,
    text: &[u8],
    places: &[Place],
    parts: &[u32],
) -> Result<Option<Vec<u32>>, Memory>
    requires { All (λ part. part < length places.now) parts.now }
    ensures numbered { (pieces : List Piece) → ArePlaced text.now places.now pieces → IfOk result (λ o. IfSome o (λ made. AreNumbered (map (piece_in pieces) parts.now))) }
    ensures found { (pieces : List Piece) → ArePlaced text.now places.now pieces
        → IfOk result (λ o. IfSome o (λ made. map (piece_in pieces) made.items ≡ first_parts (length parts.now) (map (piece_in pieces) parts.now))) }
    ensures within { IfOk result (λ o. IfSome o (λ made. All (λ part. part < length places.now) made.items)) }
    ensures none { (pieces : List Piece) → ArePlaced text.now places.now pieces → IfOk result (λ o. IfNone o (¬ AreNumbered (map (piece_in pieces) parts.now))) }
{
    let Some(slots) = slots_of(alloc, text, places, parts)? else {
        return Ok(None);
    };
    let mut made = Vec::new(alloc);
    for slot in &slots {
        let Some(part) = slot else {
            return Ok(None);
        };
        made.push(*part)?;
    }
    Ok(Some(made))
}

// Puts what a part says last.
fn push_said(
    alloc: Global,
    text: &[u8],
    places: &[Place],
    part: u32,
    octets: &mut Octets,
) -> Result<(), Memory>
    requires placed { (pieces : List Piece) × ArePlaced text.now places.now pieces }
    requires within { part < length places.now }
    ensures { (pieces : List Piece) → ArePlaced text.now places.now pieces → OnOk result (octets.new ≡ octets.old ++ (piece_in pieces part).octets) }
{
    let piece = piece_at(alloc, text, places[part as usize])?;
    octets.push_slice(piece.octets.as_slice())
}

fn joined_octets(
    alloc: Global,
    text: &[u8],
    places: &[Place],
    parts: &[u32],
) -> Result<Octets, Memory>
    requires placed { (pieces : List Piece) × ArePlaced text.now places.now pieces }
    requires within { All (λ part. part < length places.now) parts.now }
    ensures { (pieces : List Piece) → ArePlaced text.now places.now pieces → IfOk result (λ octets. octets ≡ flat_map (λ part. part.octets) (map (piece_in pieces) parts.now)) }
{
    let mut octets = Octets::new(alloc);
    for part in parts {
        push_said(alloc, text, places, *part, &mut octets)?;
    }
    Ok(octets)
}

// The charset of the first part.
fn first_charset(
    alloc: Global,
    text: &[u8],
    places: &[Place],
    parts: &[u32],
) -> Result<Octets, Memory>
    requires placed { (pieces : List Piece) × ArePlaced text.now places.now pieces }
    requires within { All (λ part. part < length places.now) parts.now }
    ensures { (pieces : List Piece) → ArePlaced text.now places.now pieces
        → IfOk result (λ charset. charset ≡ flat_map (λ part. part.charset) (take 1 (map (piece_in pieces) parts.now))) }
{
    match parts {
        [first, ..] => {
            let piece = piece_at(alloc, text, places[*first as usize])?;
            Octets::from_slice(alloc, piece.charset.as_slice())
        }
        [] => Ok(Octets::new(alloc)),
    }
}

// What parts in the order of their numbers say.
pub(crate) fn joined_unit(
    alloc: Global,
    text: &[u8],
    places: &[Place],
    parts: &[u32],
) -> Result<Unit, Memory>
    requires placed { (pieces : List Piece) × ArePlaced text.now places.now pieces }
    requires within { All (λ part. part < length places.now) parts.now }
    ensures { (pieces : List Piece) → ArePlaced text.now places.now pieces → IfOk result (λ unit. value_of unit
        ≡ unit_value (flat_map (λ part. part.charset) (take 1 (map (piece_in pieces) parts.now))) (flat_map (λ part. part.octets) (map (piece_in pieces) parts.now))) }
{
    let octets = joined_octets(alloc, text, places, parts)?;
    let charset = first_charset(alloc, text, places, parts)?;
    unit_of(alloc, charset.as_slice(), octets)
}
