//! Sizes and ranges of a message of the store, by the calls of the outside.
ghost use Rattle.std.specs.Prelude.{OnOk};
ghost use Rattle.session_core.specs.Desks.{IsOpen};

use mail_wire::{Fault, FixedClock, MemKeeper, MemWire, Memory, Span};
use session_core::{LIMITS, Outside, open_desk};
use std::alloc::Global;
use surrogate_cache::{Counts, Enabled, Legacy, View};
use test_mail::{given, journal_of, keeper_of, wire_of};

const MESSAGE: &str = "Subject: é\r\n\r\n.x\r\n";

const SURROGATE: &str = "Subject:\r\n =?UTF-8?B?w6k=?=\r\n\r\n.x\r\n";

// What is given of both.
const GIVEN: &str = "\r\n =?UTF-8?B?w6k=?=\r\n\r\n.xSubject\r";

// Whether a session of this kind is served so many octets of the message.
fn has_size<V: View>(
    outside: &mut Outside<MemWire, MemKeeper, FixedClock>,
    wanted: usize,
) -> Result<bool, Fault>
    requires { IsOpen outside.old.desk }
    ensures { OnOk result (IsOpen outside.new.desk) }
{
    if outside.store().message_count() == 0 {
        return Ok(false);
    }
    Ok(outside.size::<V>(0)? == wanted)
}

// Gives a range of what a session of this kind is shown of the message, if there is one.
fn gives_shown<V: View>(
    outside: &mut Outside<MemWire, MemKeeper, FixedClock>,
    span: Span,
) -> Result<bool, Fault>
    requires { IsOpen outside.old.desk }
    ensures { OnOk result (IsOpen outside.new.desk) }
{
    if outside.store().message_count() == 0 {
        return Ok(false);
    }
    let shown = outside.show::<V>(0)?;
    let size = shown.size(outside.octets(0));
    if size < span.at || size - span.at < span.len {
        return Ok(false);
    }
    outside.give_range(0, &shown, span)?;
    Ok(true)
}

// Gives a range of the message as it is stored, if there is one.
fn gives_stored(
    outside: &mut Outside<MemWire, MemKeeper, FixedClock>,
    span: Span,
) -> Result<bool, Fault> {
    if outside.store().message_count() == 0 {
        return Ok(false);
    }
    let size = outside.octets(0).len();
    if size < span.at || size - span.at < span.len {
        return Ok(false);
    }
    outside.give_stored(0, span)?;
    Ok(true)
}

// Whether the message is served in both sizes, and ranges are given.
fn serves(outside: &mut Outside<MemWire, MemKeeper, FixedClock>) -> Result<bool, Fault>
    requires { IsOpen outside.old.desk }
{
    Ok(
        has_size::<Enabled>(outside, MESSAGE.len())?
            && has_size::<Legacy>(outside, SURROGATE.len())?
            && gives_shown::<Legacy>(outside, Span { at: 8, len: 25 })?
            && gives_shown::<Enabled>(outside, Span { at: 0, len: 7 })?
            && gives_stored(outside, Span { at: 17, len: 1 })?
            && gives_stored(outside, Span { at: 18, len: 0 })?,
    )
}

// Whether they are, over a store of the message.
fn is_served(alloc: Global) -> Result<bool, Memory> {
    let journal = journal_of(alloc, &[(0, MESSAGE.as_bytes())])?;
    let mut keeper = keeper_of(alloc, journal.as_slice(), None)?;
    let mut wire = wire_of(alloc, b"", &[], None)?;
    let mut clock = FixedClock::new(0);
    let Ok(desk) = open_desk(alloc, &mut keeper, LIMITS) else {
        return Ok(false);
    };
    let mut outside = Outside::new(alloc, desk, &mut wire, &mut keeper, &mut clock);
    let served = serves(&mut outside);
    let (desk, _wire, _keeper, _clock) = outside.into_parts();
    let counted = desk.cache.counts() == Counts { built: 1, hits: 1 };
    let given = given(alloc, wire.entries())?;
    Ok(served == Ok(true) && counted && given.as_slice() == GIVEN.as_bytes())
}

#[test]
fn ranges_are_given_as_they_are_served(rt: HostRuntime) {
    assert!(rt; is_served(rt.alloc()) == Ok(true));
}
