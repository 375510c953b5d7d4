//! Octets put together, and cut to pieces.
use mail_wire::{Memory, Octets};
use std::alloc::Global;

/// The parts, one after the other.
pub fn joined(alloc: Global, parts: &[&[u8]]) -> Result<Octets, Memory> {
    let mut octets = Octets::new(alloc);
    for part in parts {
        octets.push_slice(part)?;
    }
    Ok(octets)
}

/// A piece for each octet.
pub fn octet_by_octet(alloc: Global, octets: &[u8]) -> Result<Vec<&[u8]>, Memory> {
    let mut pieces = Vec::new(alloc);
    for piece in octets.chunks(1) {
        pieces.push(piece)?;
    }
    Ok(pieces)
}
