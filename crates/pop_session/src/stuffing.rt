//! Gives octets of a message as the lines of a reply.
ghost use Rattle.std.specs.Prelude.{◌≡◌, ◌+◌, ◌<◌, ◌≤◌, ◌++◌, ⊤, length, take, drop, IfOk, [], if◌then◌else◌, codes};
ghost use Rattle.mail_wire.specs.Dots.{stuffed};
ghost use Rattle.mail_wire.specs.Lines.{crlf};
ghost use Rattle.mail_wire.specs.Message.{IsEnded};
ghost use Rattle.mail_wire.specs.Moves.{GivesOrFails, HasWireCause};
ghost use Rattle.surrogate_rope.specs.Served.{IsShownOf, shown_octets};
ghost use Rattle.pop_session.specs.Replies.{ended_lines};
ghost use Rattle.pop_session.specs.private.Stuffing.{is_start, begins_with_dot, next_place as place_by, place_after, dot_before, stuffed_from, HasNoLfDot};

use mail_wire::{Failed, Wire};
use memchr::memmem;
use session_core::Giving;
use surrogate_rope::Shown;

/// Where in its line an octet stands.
#[derive(Clone, Copy, Debug, PartialEq, Eq)]
pub enum Place {
    LineStart,
    AfterCr,
    Within,
}

// Whether a dot is put before the first of these octets, which stand from a place on.
fn needs_dot(place: Place, octets: &[u8]) -> bool
    ensures { result ≡ begins_with_dot place octets.now }
{
    matches!(place, Place::LineStart) && matches!(octets, [b'.', ..])
}

/// The place after an octet.
pub fn next_place(place: Place, octet: u8) -> Place
    ensures { result ≡ place_by place octet }
{
    match octet {
        b'\r' => Place::AfterCr,
        b'\n' if matches!(place, Place::AfterCr) => Place::LineStart,
        _ => Place::Within,
    }
}

// The place after octets that stand from a place on. Only the last two tell it.
fn place_following(place: Place, octets: &[u8]) -> Place
    ensures { result ≡ place_after place octets.now }
{
    match octets {
        [] => place,
        [octet] => next_place(place, *octet),
        [.., before, octet] => next_place(next_place(Place::Within, *before), *octet),
    }
}

// How many octets stand before the next dot that follows an LF.
fn run_len(octets: &[u8]) -> usize
    ensures bound { result ≤ length octets.now }
    ensures some { 0 < length octets.now → 0 < result }
    ensures run { HasNoLfDot (take result octets.now) }
{
    match memmem::find(octets, b"\n.") {
        Some(at) => at + 1,
        None => octets.len(),
    }
}

// Gives octets as they are.
fn give_plain<W: Wire>(octets: &[u8], wire: &mut W) -> Result<(), Failed>
    ensures gives { GivesOrFails (W.observed wire.old) (W.observed wire.new) result octets.now }
    ensures cause { HasWireCause (W.observed wire.old) (W.observed wire.new) result Failed.Outside }
{
    wire.give(octets)
}

// Gives the dot that is put before these octets, which stand from a place on, where there is one.
fn give_dot<W: Wire>(place: Place, octets: &[u8], wire: &mut W) -> Result<(), Failed>
    ensures gives { GivesOrFails (W.observed wire.old) (W.observed wire.new) result (dot_before place octets.now) }
    ensures cause { HasWireCause (W.observed wire.old) (W.observed wire.new) result Failed.Outside }
{
    if needs_dot(place, octets) {
        return give_plain(b".", wire);
    }
    Ok(())
}

// Gives octets that stand from a place on, with a dot more before each line that begins with one, and answers the place after them.
fn give_stuffed<W: Wire>(place: Place, octets: &[u8], wire: &mut W) -> Result<Place, Failed>
    ensures place { IfOk result (λ following. following ≡ place_after place octets.now) }
    ensures gives { GivesOrFails (W.observed wire.old) (W.observed wire.new) result (stuffed_from place octets.now) }
    ensures cause { HasWireCause (W.observed wire.old) (W.observed wire.new) result Failed.Outside }
{
    let mut at = place;
    let mut rest = octets;
    while !rest.is_empty() {
        give_dot(at, rest, wire)?;
        let (run, others) = rest.split_at(run_len(rest));
        give_plain(run, wire)?;
        at = place_following(at, run);
        rest = others;
    }
    Ok(at)
}

/// Gives the lines of a range of what is shown of a message, with a dot more before each that begins with one, or a prefix of them where
/// that fails. They go to the wire from where they stand, in runs up to the next dot, so it takes no memory.
pub fn give_dotted<W: Wire>(
    shown: &Shown,
    msg: &[u8],
    at: usize,
    len: usize,
    wire: &mut W,
) -> Result<(), Failed>
    requires shown { IsShownOf msg.now shown.now }
    requires within { at + len ≤ length (shown_octets msg.now shown.now) }
    // It starts where a line does: nothing stands before it, or a CRLF.
    requires start { IsEnded (take at (shown_octets msg.now shown.now)) }
    ensures gives { GivesOrFails (W.observed wire.old) (W.observed wire.new) result (stuffed (take len (drop at (shown_octets msg.now shown.now)))) }
    ensures cause { HasWireCause (W.observed wire.old) (W.observed wire.new) result Failed.Outside }
{
    // Its places are numbers, as they stand within a size.
    let _size = shown.size(msg);
    let mut given = 0;
    let mut place = Place::LineStart;
    while given < len {
        let run = shown.run_at(msg, at + given);
        let count = run.len().min(len - given);
        let (run, _) = run.split_at(count);
        place = give_stuffed(place, run, wire)?;
        given += count;
    }
    Ok(())
}

// The place after the first octets, so many, of what is shown of a message.
fn place_at(shown: &Shown, msg: &[u8], len: usize) -> Place
    requires shown { IsShownOf msg.now shown.now }
    requires len { len ≤ length (shown_octets msg.now shown.now) }
    ensures { result ≡ place_after Place.LineStart (take len (shown_octets msg.now shown.now)) }
{
    let mut last = [0; 2];
    let count = shown.read_at(msg, len.saturating_sub(2), &mut last);
    place_following(Place::LineStart, &last[..count.min(len)])
}

// The end of a reply of many lines, whose last octet stands before this place.
fn end_of(place: Place) -> &'static [u8]
    ensures { result.now ≡ (if is_start place then [] else crlf) ++ codes ".\r\n" }
{
    match place {
        Place::LineStart => b".\r\n",
        Place::AfterCr | Place::Within => b"\r\n.\r\n",
    }
}

/// The first octets, so many, of what is shown of a message, as the lines of a reply up to its end.
#[derive(Clone, Copy)]
pub struct ShownLines<'a> {
    pub shown: &'a Shown,
    pub len: usize,
}

impl<'a> Giving for ShownLines<'a> {
    ghost given = { λ lines msg. ended_lines (take lines.len (shown_octets msg lines.shown.now)) };

    ghost fits = { λ lines msg. IsShownOf msg lines.shown.now × (lines.len ≤ length (shown_octets msg lines.shown.now)) };

    fn give_to<W: Wire>(&self, msg: &[u8], wire: &mut W) -> Result<(), Failed> {
        give_dotted(self.shown, msg, 0, self.len, wire)?;
        give_plain(end_of(place_at(self.shown, msg, self.len)), wire)
    }
}

/// A message as it is stored, as the lines of a reply up to its end.
#[derive(Clone, Copy)]
pub struct StoredLines {}

impl Giving for StoredLines {
    ghost given = { λ lines msg. ended_lines msg };

    ghost fits = { λ lines msg. ⊤ };

    fn give_to<W: Wire>(&self, msg: &[u8], wire: &mut W) -> Result<(), Failed> {
        let place = give_stuffed(Place::LineStart, msg, wire)?;
        give_plain(end_of(place), wire)
    }
}
