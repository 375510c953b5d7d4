//! The commands that serve a session.
ghost use Rattle.std.specs.Prelude.{◌≡◌, IfSome};
ghost use Rattle.session_core.specs.Serving.{OfInstance};
ghost use Rattle.session_core.specs.declared.desk.TheConstants.{LIMITS};
ghost use Rattle.setup_command.specs.Running.{IsExactJournal, HasStatusCause};
ghost use Rattle.setup_command.specs.Statuses.{status_of};
ghost use Rattle.mail_command.specs.Protocols.{protocol_for};
ghost use Rattle.mail_command.specs.Running.{RunsSession, status_of_served};

use crate::roles::{Role, serve_one};
use mail_wire::{Clock, Fault, Keeper, Wire};
use session_core::{LIMITS, Outside, Served, open_desk};
use setup_command::{DONE, LIMIT_REACHED, tell_unopened};
use std::alloc::Global;

// The answer of a command whose session came to its end so.
fn answer_of(served: Served) -> Result<u8, Fault>
    ensures { status_of result ≡ status_of_served served }
{
    match served {
        Served::Ended => Ok(DONE),
        Served::Limit => Ok(LIMIT_REACHED),
        Served::WireFault => Err(Fault::Wire),
        Served::KeeperFault => Err(Fault::Keeper),
        Served::Memory => Err(Fault::Memory),
    }
}

/// Opens the journal of the keeper, and serves one session.
pub fn run_session<W: Wire, J: Keeper, C: Clock>(
    alloc: Global,
    role: Role,
    wire: &mut W,
    keeper: &mut J,
    clock: &mut C,
) -> Result<u8, Fault>
    ensures runs { OfInstance (protocol_for role) (C.observed clock.old) (λ instance. RunsSession instance LIMITS
        (J.observed keeper.old).octets (J.observed keeper.new).octets (W.observed wire.old) (W.observed wire.new) (status_of result)) }
    // A bad journal is told.
    ensures journal { IfSome (J.observed keeper.old).octets (λ octets. IsExactJournal octets (status_of result)) }
    ensures cause { HasStatusCause (W.observed wire.old) (W.observed wire.new) (J.observed keeper.old) (J.observed keeper.new) (status_of result) }
{
    let desk = match open_desk(alloc, keeper, LIMITS) {
        Ok(desk) => desk,
        Err(fault) => return tell_unopened(alloc, fault, wire),
    };
    let mut outside = Outside::new(alloc, desk, wire, keeper, clock);
    let served = serve_one(role, &mut outside);
    let (_desk, wire, keeper, _clock) = outside.into_parts();
    // Used once more: a loan that ends within the bundle tells nothing of what was lent.
    let _wire = &mut *wire;
    let _keeper = &mut *keeper;
    answer_of(served)
}
