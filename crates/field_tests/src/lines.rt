//! What was made: octets, and pieces that are put on lines after what stood before.
use mail_wire::{Memory, Octets};
use std::alloc::Global;

const FRONT: &[u8] = b"Name:";

/// What stands before the pieces.
pub fn front(alloc: Global) -> Result<Octets, Memory> {
    Octets::from_slice(alloc, FRONT)
}

/// Whether these pieces stand after the front, each on a line of its own.
pub fn are_lines(made: &Octets, pieces: &[&str]) -> bool {
    let Some(mut rest) = made.as_slice().strip_prefix(FRONT) else {
        return false;
    };
    for piece in pieces {
        let Some(line) = rest.strip_prefix(b"\r\n ") else {
            return false;
        };
        let Some(after) = line.strip_prefix(piece.as_bytes()) else {
            return false;
        };
        rest = after;
    }
    rest.is_empty()
}

/// Whether this was made.
pub fn is_made(made: Result<Octets, Memory>, wanted: &str) -> Result<bool, Memory> {
    match made {
        Ok(octets) => Ok(octets.as_slice() == wanted.as_bytes()),
        Err(_) => Err(Memory),
    }
}
