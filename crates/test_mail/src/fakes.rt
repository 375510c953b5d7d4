//! Wires, keepers and dials in memory, of which one call fails, and what a wire was given.
use crate::streams::joined;
use mail_wire::{Entry, Failure, MemDial, MemKeeper, MemServer, MemWire, Memory, Octets, Words};
use std::alloc::Global;

/// The number of no call.
pub const NEVER: u64 = u64::MAX;

/// The call of this number fails, of a `give` or an `append` when three octets went over.
pub fn failing(call: u64) -> Option<Failure> {
    Some(Failure { call, kept: 3 })
}

// The failures that a fake is told.
fn failures_of(alloc: Global, failure: Option<Failure>) -> Result<Vec<Failure>, Memory> {
    let mut failures = Vec::new(alloc);
    if let Some(failure) = failure {
        failures.push(failure)?;
    }
    Ok(failures)
}

/// A wire with this input, in pieces of these sizes, that fails so.
pub fn wire_of(
    alloc: Global,
    input: &[u8],
    sizes: &[usize],
    failure: Option<Failure>,
) -> Result<MemWire, Memory> {
    let input = Octets::from_slice(alloc, input)?;
    let sizes = Vec::from_slice(alloc, sizes)?;
    Ok(MemWire::new(alloc, input, sizes, failures_of(alloc, failure)?))
}

/// A keeper of these octets that fails so.
pub fn keeper_of(
    alloc: Global,
    octets: &[u8],
    failure: Option<Failure>,
) -> Result<MemKeeper, Memory> {
    let octets = Octets::from_slice(alloc, octets)?;
    Ok(MemKeeper::new(octets, failures_of(alloc, failure)?))
}

/// A keeper of these parts, one after the other, that fails so.
pub fn keeper_of_parts(
    alloc: Global,
    parts: &[&[u8]],
    failure: Option<Failure>,
) -> Result<MemKeeper, Memory> {
    let octets = joined(alloc, parts)?;
    keeper_of(alloc, octets.as_slice(), failure)
}

/// A dial that reaches servers that send this. Its calls with these numbers fail.
pub fn dial_of(alloc: Global, sends: &[u8], failing: &[u64]) -> Result<MemDial, Memory> {
    let server = MemServer {
        sends: Octets::from_slice(alloc, sends)?,
        sizes: Vec::new(alloc),
        failures: Vec::new(alloc),
    };
    Ok(MemDial::new(alloc, server, Vec::from_slice(alloc, failing)?))
}

/// What was given of what went over a wire.
pub fn given(alloc: Global, entries: &[Entry]) -> Result<Octets, Memory> {
    let mut given = Octets::new(alloc);
    for entry in entries {
        if let Entry::Given(octets) = entry {
            given.push_slice(octets.as_slice())?;
        }
    }
    Ok(given)
}

/// These words.
pub fn words_of(alloc: Global, list: &[&str]) -> Result<Words, Memory> {
    let mut words = Words::none(alloc);
    for word in list {
        words.push(word)?;
    }
    Ok(words)
}
