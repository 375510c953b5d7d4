//! What octets begin with.
use journal_records::{Beginning, Frame, Version, beginning_of, frame_of};
use mail_wire::Memory;
use std::alloc::Global;
use std::test::Fail;
use test_mail::{Case, all_hold};

// The length of a record, how many octets are left from there on, and its frame; or the first octets of a journal, and what they are.
enum Front {
    Frame([u8; 4], u64, Frame),
    Beginning(&'static [u8], Beginning),
}

impl Case for Front {
    fn holds(&self, _alloc: Global) -> Result<bool, Memory> {
        match self {
            Front::Frame(front, left, frame) => Ok(is_frame(front, *left, *frame)),
            Front::Beginning(front, beginning) => Ok(beginning_of(*front) == *beginning),
        }
    }
}

// Whether four octets are a length with such a frame.
fn is_frame(front: &[u8; 4], left: u64, wanted: Frame) -> bool {
    if left < 4 {
        return false;
    }
    frame_of(front, left) == wanted
}

const FRONTS: [(&str, &[Front]); 2] = [
    (
        "a length tells a frame",
        &[
            Front::Frame([0, 0, 0, 1], 5, Frame::Whole(1)),
            Front::Frame([0, 0, 0, 1], 100, Frame::Whole(1)),
            Front::Frame([0, 0, 1, 2], 262, Frame::Whole(258)),
            Front::Frame([0, 0, 0, 1], 4, Frame::CutShort),
            Front::Frame([0, 0, 1, 2], 261, Frame::CutShort),
            Front::Frame([4, 0, 0, 0], 4, Frame::CutShort),
            Front::Frame([4, 0, 0, 1], 1 << 30, Frame::Bad),
            Front::Frame([255, 255, 255, 255], 4, Frame::Bad),
            Front::Frame([0, 0, 0, 0], 4, Frame::Bad),
        ],
    ),
    (
        "a journal begins so",
        &[
            Front::Beginning(b"", Beginning::Prefix),
            Front::Beginning(b"MAILJNL", Beginning::Prefix),
            Front::Beginning(b"MAILJNL1", Beginning::Journal(Version::One)),
            Front::Beginning(b"MAILJNL2", Beginning::Journal(Version::Two)),
            Front::Beginning(b"MAILJNL3", Beginning::Other),
            Front::Beginning(b"mail", Beginning::Other),
        ],
    ),
];

#[test]
fn fronts_are_told(rt: HostRuntime) -> Result<(), Fail> {
    all_hold(rt.alloc(), &FRONTS)
}
