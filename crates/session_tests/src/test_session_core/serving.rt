//! The toy over a wire in memory, with every first cut of its input.
use crate::echo::Echo;
use mail_wire::{FixedClock, MemKeeper, MemWire, Memory, Octets};
use session_core::{Framed, Limits, Outside, Served, open_desk, serve};
use std::alloc::Global;
use test_mail::{given, keeper_of, wire_of};

const INPUT: &[u8] = b"one\r\nab{3}\r\nx\r\nyz\r\nQUIT\r\nlater\r\n";

const ANSWER: &[u8] = b"one\r\n+ go\r\nx\r\nab{3}\r\nx\r\nyz\r\nbye\r\n";

// A cache of one block, since it is opened for each cut.
const SMALL: Limits = Limits {
    message_max: 1_000,
    session_max: 1_000_000,
    pool_blocks: 1,
    cache_entries: 1,
};

// Whether the session ends, and this is given to this input, whose first piece has this size.
fn is_answered(alloc: Global, input: &[u8], size: usize, answer: &[u8]) -> Result<bool, Memory> {
    let mut keeper = keeper_of(alloc, b"", None)?;
    let mut wire = wire_of(alloc, input, &[size], None)?;
    let mut clock = FixedClock::new(0);
    let Ok(desk) = open_desk(alloc, &mut keeper, SMALL) else {
        return Ok(false);
    };
    let mut outside = Outside::new(alloc, desk, &mut wire, &mut keeper, &mut clock);
    let served = serve::<Framed<Echo>, MemWire, MemKeeper, FixedClock>(&mut outside);
    let (_desk, wire, _keeper, _clock) = outside.into_parts();
    Ok(served == Served::Ended && given(alloc, wire.entries())?.as_slice() == answer)
}

#[test]
fn every_first_cut_gives_the_same(rt: HostRuntime) {
    for size in 1..=INPUT.len() {
        assert!(rt;
            is_answered(rt.alloc(), INPUT, size, ANSWER) == Ok(true),
            "at {size}"
        );
    }
}

// Whether a line of 70,000 octets ends the session, where the first piece has this size.
fn is_too_long(alloc: Global, size: usize) -> Result<bool, Memory> {
    let mut input = Octets::from_slice(alloc, b"one\r\n")?;
    input.push_slice(Vec::from_elem(alloc, b'x', 70000)?.as_slice())?;
    input.push_slice(b"\r\ntwo\r\n")?;
    is_answered(alloc, input.as_slice(), size, b"one\r\ntoo long\r\n")
}

#[test]
fn a_line_that_is_too_long_ends_the_session(rt: HostRuntime) {
    for size in [1, 5, 4096] {
        assert!(rt; is_too_long(rt.alloc(), size) == Ok(true), "at {size}");
    }
}
