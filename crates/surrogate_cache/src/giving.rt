//! Gives what is shown to a wire.
ghost use Rattle.std.specs.Prelude.{◌≡◌, ◌+◌, ◌≤◌, length, take, drop};
ghost use Rattle.mail_wire.specs.Moves.{GivesOrFails, HasWireCause};
ghost use Rattle.surrogate_rope.specs.Served.{IsShownOf, shown_octets};

use mail_wire::{Failed, Wire};
use surrogate_rope::Shown;

/// Gives so many octets of what is shown, from a place on, or a prefix of them where it fails. They go to the wire from the message
/// and from the new octets themselves, in runs as long as these stand together, so it takes no memory.
pub fn give_range<W: Wire>(
    shown: &Shown,
    msg: &[u8],
    at: usize,
    len: usize,
    wire: &mut W,
) -> Result<(), Failed>
    requires shown { IsShownOf msg.now shown.now }
    requires within { at + len ≤ length (shown_octets msg.now shown.now) }
    ensures gives { GivesOrFails (W.observed wire.old) (W.observed wire.new) result (take len (drop at (shown_octets msg.now shown.now))) }
    ensures cause { HasWireCause (W.observed wire.old) (W.observed wire.new) result Failed.Outside }
{
    let mut place = at;
    let mut left = len;
    while left > 0 {
        let run = shown.run_at(msg, place);
        let (piece, _) = run.split_at(run.len().min(left));
        wire.give(piece)?;
        place += piece.len();
        left -= piece.len();
    }
    Ok(())
}
