//! What octets begin with, as far as a length tells.
ghost use Rattle.std.specs.Prelude.{◌≡◌, ◌≤◌, ℕ, List, length, take};
ghost use Rattle.journal_records.specs.Frames.{IsFrame, FitsIn, IsBeginningOf, IsLong};

use crate::limits::RECORD_MAX;
use crate::versions::Version;

/// What a journal of version 2 begins with.
pub const FIRST_OCTETS: [u8; 8] = *b"MAILJNL2";

// What one of version 1 begins with.
const FIRST_OCTETS_OF_ONE: [u8; 8] = *b"MAILJNL1";

/// What octets begin with.
#[derive(Clone, Copy, Debug, PartialEq, Eq)]
pub enum Frame {
    /// A prefix of a record.
    CutShort,
    /// Neither a record nor a prefix of one.
    Bad,
    /// A length, and so many octets.
    Whole(usize),
}

/// What the first octets are.
#[derive(Clone, Copy, Debug, PartialEq, Eq)]
pub enum Beginning {
    /// Fewer octets than a journal begins with.
    Prefix,
    /// Those of a journal that begins in this version.
    Journal(Version),
    Other,
}

/// What octets begin with whose first four and whose number these are.
pub fn frame_of(front: &[u8], left: u64) -> Frame
    requires four { length front.now ≡ 4 }
    requires left { 4 ≤ left }
    ensures frame { (octets : List ℕ) → left ≡ length octets → front.now ≡ take 4 octets → IsFrame result octets }
    ensures room { FitsIn result left }
{
    let len = u32::from_be_bytes([front[0], front[1], front[2], front[3]]) as usize;
    if len == 0 || len > RECORD_MAX {
        return Frame::Bad;
    }
    if left - 4 < len as u64 {
        return Frame::CutShort;
    }
    Frame::Whole(len)
}

/// What octets begin with whose first eight, or fewer where there are no more, these are.
pub fn beginning_of(front: &[u8]) -> Beginning
    ensures beginning { (octets : List ℕ) → front.now ≡ take 8 octets → IsBeginningOf result octets }
    ensures long { IsLong result (length front.now) }
{
    if front.len() < 8 {
        if front == &FIRST_OCTETS[..front.len()] {
            Beginning::Prefix
        } else {
            Beginning::Other
        }
    } else if front == FIRST_OCTETS.as_slice() {
        Beginning::Journal(Version::Two)
    } else if front == FIRST_OCTETS_OF_ONE.as_slice() {
        Beginning::Journal(Version::One)
    } else {
        Beginning::Other
    }
}
