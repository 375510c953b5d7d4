//! Gives octets to a wire and takes them from it. Sessions and commands use a wire by these two calls alone.
ghost use Rattle.std.specs.Prelude.{◌≡◌, ◌<◌, ◌≤◌, Err, length, IfOk, OnErr};
ghost use Rattle.mail_wire.specs.Moves.{GivesOrFails, TakesPiece, TakesNothing, HasWireCause};

use crate::outside::{Fault, Wire};

/// The most octets that are taken at a time.
pub const PIECE: usize = 4096;

/// Gives all the octets, or a prefix of them where it fails.
pub fn give_all<W: Wire>(wire: &mut W, octets: &[u8]) -> Result<(), Fault>
    ensures gives { GivesOrFails (W.observed wire.old) (W.observed wire.new) result octets.now }
    ensures cause { HasWireCause (W.observed wire.old) (W.observed wire.new) result Fault.Wire }
    ensures keeper { ¬ (result ≡ Err Fault.Keeper) }
{
    match wire.give(octets) {
        Ok(()) => Ok(()),
        Err(failed) => Err(Fault::from(failed)),
    }
}

/// Takes the next piece. It is empty only at the end of input.
pub fn take_piece<W: Wire>(wire: &mut W, into: &mut [u8]) -> Result<usize, Fault>
    requires { 0 < length into.old }
    ensures bound { IfOk result (λ n. n ≤ length into.new) }
    ensures takes { IfOk result (λ n. TakesPiece (W.observed wire.old) (W.observed wire.new) n into.new) }
    ensures fails { OnErr result (TakesNothing (W.observed wire.old) (W.observed wire.new)) }
    ensures cause { HasWireCause (W.observed wire.old) (W.observed wire.new) result Fault.Wire }
    ensures keeper { ¬ (result ≡ Err Fault.Keeper) }
{
    match wire.take(into) {
        Ok(count) => Ok(count),
        Err(failed) => Err(Fault::from(failed)),
    }
}
