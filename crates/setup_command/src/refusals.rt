//! Tells why a journal isn't opened, or a record refused.
ghost use Rattle.std.specs.Prelude.{◌≡◌};
ghost use Rattle.mail_wire.specs.Moves.{HasWireCause};
ghost use Rattle.setup_command.specs.AddingRuns.{TellsLine, TellsRefused, TellsUnopened};

use crate::lines::place_line;
use crate::statuses::{ADDING_REFUSED, BAD_JOURNAL};
use mail_store::{OpenFault, StoreFault};
use mail_wire::{Fault, Wire, give_all};
use std::alloc::Global;

/// Gives octets, and answers the status.
pub fn tell<W: Wire>(wire: &mut W, status: u8, line: &[u8]) -> Result<u8, Fault>
    ensures observed { TellsLine (W.observed wire.old) (W.observed wire.new) result status line.now }
    ensures cause { HasWireCause (W.observed wire.old) (W.observed wire.new) result Fault.Wire }
{
    give_all(wire, line)?;
    Ok(status)
}

/// Tells why a journal isn't opened: `BAD_JOURNAL`. Want of memory and a fault of the keeper are only answered.
pub fn tell_unopened<W: Wire>(alloc: Global, fault: OpenFault, wire: &mut W) -> Result<u8, Fault>
    ensures observed { TellsUnopened fault (W.observed wire.old) (W.observed wire.new) result }
    ensures cause { HasWireCause (W.observed wire.old) (W.observed wire.new) result Fault.Wire }
{
    match fault {
        OpenFault::BadJournal { at } => {
            let line = place_line(alloc, b"bad journal at ", at)?;
            tell(wire, BAD_JOURNAL, line.as_slice())
        }
        OpenFault::Keeper => Err(Fault::Keeper),
        OpenFault::Memory => Err(Fault::Memory),
    }
}

/// Tells why a record is refused: `ADDING_REFUSED`. Want of memory and a fault of the keeper are only answered.
pub fn tell_refused<W: Wire>(why: StoreFault, wire: &mut W) -> Result<u8, Fault>
    ensures observed { TellsRefused why (W.observed wire.old) (W.observed wire.new) result }
    ensures cause { HasWireCause (W.observed wire.old) (W.observed wire.new) result Fault.Wire }
{
    match why {
        StoreFault::Exists => tell(wire, ADDING_REFUSED, b"exists\r\n"),
        StoreFault::NoSuch => tell(wire, ADDING_REFUSED, b"no such domain\r\n"),
        StoreFault::TooLarge => tell(wire, ADDING_REFUSED, b"too large\r\n"),
        StoreFault::Memory => Err(Fault::Memory),
        StoreFault::Keeper => Err(Fault::Keeper),
    }
}
