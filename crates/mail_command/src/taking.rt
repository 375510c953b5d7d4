//! Takes a whole input.
ghost use Rattle.std.specs.Prelude.{◌≡◌, Err, IfOk, OnErr};
ghost use Rattle.mail_wire.specs.Moves.{HasWireCause};
ghost use Rattle.mail_command.specs.Taking.{TakesUpTo, TakesSome};

use mail_wire::{Fault, Octets, PIECE, Wire, take_piece};
use std::alloc::Global;

/// Takes what is left, or the first octets of it, once they are more than `max`: up to a piece more.
pub fn take_up_to<W: Wire>(alloc: Global, wire: &mut W, max: usize) -> Result<Octets, Fault>
    ensures taken { IfOk result (TakesUpTo max (W.observed wire.old) (W.observed wire.new)) }
    ensures some { OnErr result (TakesSome max (W.observed wire.old) (W.observed wire.new)) }
    ensures cause { HasWireCause (W.observed wire.old) (W.observed wire.new) result Fault.Wire }
    ensures keeper { ¬ (result ≡ Err Fault.Keeper) }
{
    let mut taken = Octets::new(alloc);
    let mut piece = [0; PIECE];
    while taken.len() <= max {
        let count = take_piece(wire, &mut piece)?;
        if count == 0 {
            return Ok(taken);
        }
        taken.push_slice(&piece[..count])?;
    }
    Ok(taken)
}
