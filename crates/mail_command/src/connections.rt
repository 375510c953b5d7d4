//! Serves the connections of a program, one after the other, from one desk.
ghost use Rattle.std.specs.Prelude.{◌≡◌, ◌≢◌, ◌↔◌, [], IfErr, IfOk, IfSome, IsNone, IsTrue, OnErr};
ghost use Rattle.mail_wire.specs.Keeping.{HasKeeperCause};
ghost use Rattle.mail_store.specs.Answers.{IsJournalFault, LeavesRecords, PutsNothing};
ghost use Rattle.session_core.specs.Desks.{WorksWithin};
ghost use Rattle.session_core.specs.Serving.{OfInstance};
ghost use Rattle.session_core.specs.declared.desk.TheConstants.{LIMITS};
ghost use Rattle.session_core.specs.declared.serving.Served.{Served as ServedValue};
ghost use Rattle.mail_command.specs.Protocols.{protocol_for};
ghost use Rattle.setup_command.specs.Running.{HasStatusCause};
ghost use Rattle.mail_command.specs.Connections.{GoesOnFrom, ServesNext};
ghost use Rattle.mail_command.specs.Running.{status_of_served};

use crate::roles::{Role, serve_one};
use mail_store::OpenFault;
use mail_wire::{Clock, Keeper, Memory, Wire};
use session_core::{Desk, LIMITS, Outside, Served, next_desk};
use std::alloc::Global;

// The name of a store without a domain.
const LOCALHOST: &str = "localhost";

/// Whether the desk's store has a domain.
pub fn has_domain(desk: &Desk) -> Result<bool, Memory>
    ensures { IfOk result (λ has. IsTrue has ↔ (desk.now.store.kept.domains ≢ [])) }
{
    // A domain may have this name, too.
    if desk.store.name() != LOCALHOST {
        return Ok(true);
    }
    desk.store.is_local(LOCALHOST)
}

/// Serves the next connection: the desk that was kept catches up with the journal or is opened anew, and serves one session. It
/// says how that ended, and gives the desk for the next one, unless the keeper failed.
pub fn serve_next<W: Wire, J: Keeper, C: Clock>(
    alloc: Global,
    role: Role,
    kept: Option<Desk>,
    wire: &mut W,
    keeper: &mut J,
    clock: &mut C,
) -> Result<(Served, Option<Desk>), OpenFault>
    requires { IfSome kept (WorksWithin LIMITS) }
    // The session works on the whole records that the journal has when it begins, whoever wrote them, from connection to connection.
    ensures serves { IfOk result (λ advance. OfInstance (protocol_for role) (C.observed clock.old) (λ instance. ServesNext instance kept advance.1 LIMITS
        (J.observed keeper.old).octets (J.observed keeper.new).octets (W.observed wire.old) (W.observed wire.new) advance.0)) }
    ensures goes_on { IfOk result (λ advance. GoesOnFrom kept advance.1 (J.observed keeper.old).octets (J.observed keeper.new).octets) }
    ensures kept { IfOk result (λ advance. IfSome advance.1 (WorksWithin LIMITS)) }
    ensures gone { IfOk result (λ advance. IsNone advance.1 ↔ (advance.0 ≡ ServedValue.KeeperFault)) }
    ensures session_cause { IfOk result (λ advance. HasStatusCause (W.observed wire.old) (W.observed wire.new) (J.observed keeper.old) (J.observed keeper.new) (status_of_served advance.0)) }

    // A desk that can't be opened serves nobody.
    ensures quiet { OnErr result (W.observed wire.new ≡ W.observed wire.old) }
    ensures fault { IfErr result (λ fault. IfSome (J.observed keeper.old).octets (λ old. IsJournalFault old (J.observed keeper.new).octets fault)) }
    ensures leaves { OnErr result (LeavesRecords (J.observed keeper.old).octets (J.observed keeper.new).octets) }
    ensures memory { IfErr result (λ fault. fault ≡ OpenFault.Memory → PutsNothing (J.observed keeper.old).octets (J.observed keeper.new).octets) }
    ensures cause { HasKeeperCause (J.observed keeper.old) (J.observed keeper.new) result OpenFault.Keeper }
{
    let desk = next_desk(alloc, kept, keeper, LIMITS)?;
    let mut outside = Outside::new(alloc, desk, wire, keeper, clock);
    let served = serve_one(role, &mut outside);
    let (desk, wire, keeper, _clock) = outside.into_parts();
    // Used once more: a loan that ends within the bundle tells nothing of what was lent.
    let _wire = &mut *wire;
    let _keeper = &mut *keeper;
    match served {
        Served::KeeperFault => Ok((served, None)),
        _ => Ok((served, Some(desk))),
    }
}
