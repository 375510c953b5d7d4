//! Replies that come in pieces.
ghost use Rattle.std.specs.Prelude.{◌≡◌, [], IfOk};
ghost use Rattle.relay_choice.specs.Pieces.{HasBegunReply, TakesReplyPiece};

use crate::reader::ReplyReader;
use crate::steps::{BEGINNING, Step, step_by};
use mail_wire::{Memory, Octets};
use std::alloc::Global;

/// What came of a piece.
#[derive(Debug, Drop)]
pub enum Taken {
    /// All of it belongs to a reply, of which more is to come.
    Begun(ReplyReader),
    /// A reply, or the least octets in its place that begin none, with so many octets of the piece at its end.
    Decided { octets: Octets, used: usize },
}

impl ReplyReader {
    /// A reply of which nothing came yet.
    pub fn new(alloc: Global) -> Self
        ensures octets { result.octets ≡ [] }
        ensures begun { HasBegunReply result }
    {
        ReplyReader {
            octets: Octets::new(alloc),
            place: BEGINNING,
        }
    }

    /// Takes a reply as far as it is in the piece. No octet is looked at twice.
    pub fn take(self, piece: &[u8]) -> Result<Taken, Memory>
        ensures { IfOk result (λ taken. HasBegunReply self → TakesReplyPiece self.octets piece.now taken) }
    {
        let mut octets = self.octets;
        let mut place = self.place;
        let mut used = 0;
        while used < piece.len() {
            let octet = piece[used];
            let advance = step_by(octets.as_slice(), place, octet);
            octets.push(octet)?;
            used += 1;
            match advance {
                Step::Within(next) => place = next,
                Step::Whole => return Ok(Taken::Decided { octets, used }),
                Step::NotReply => return Ok(Taken::Decided { octets, used }),
            }
        }
        Ok(Taken::Begun(ReplyReader { octets, place }))
    }
}
