//! The relay over a connection that a dial makes.
ghost use Rattle.std.specs.Prelude.{◌≡◌, ◌≢◌, ◌≤◌, [], Some, Err, IfOk, IsTrue};
ghost use Rattle.kept_mail.specs.declared.limits.TheConstants.{THINGS_MAX};
ghost use Rattle.mail_store.specs.Queue.{IsQueue, told_count};
ghost use Rattle.mail_wire.specs.Keeping.{HasKeeperCause};
ghost use Rattle.session_core.specs.Around.{Loans};
ghost use Rattle.session_core.specs.Desks.{IsOpen};
ghost use Rattle.relay_session.specs.Dialling.{AroundDial, HasDialCause, RelaysQueue};
ghost use Rattle.relay_session.specs.Relaying.{HasLeftCause, Relays};
ghost use Rattle.relay_session.specs.declared.ends.LeftCause.TheVariants as cause;

use crate::ends::{LeftCause, RelayEnd, Tally};
use crate::relaying::{open_count, relay_mail_objects};
use mail_store::Queued;
use mail_wire::{Clock, Dial, Failed, Fault, Keeper, Memory, Wire};
use session_core::{Desk, Outside};
use std::alloc::Global;

// Sends this queue, in which somebody waits, over a connection, and gives the desk back.
fn relay_connected<W: Wire, J: Keeper, C: Clock>(
    alloc: Global,
    desk: Desk,
    queue: &[Queued],
    wire: &mut W,
    keeper: &mut J,
    clock: &mut C,
) -> (Desk, Result<RelayEnd, Fault>)
    requires opens { IsOpen desk }
    requires queue { IsQueue desk.store.kept.entries queue.now }
    requires some { queue.now ≢ [] }
    requires few { told_count queue.now ≤ THINGS_MAX }
    ensures relays { (loans : Loans) × Relays
        (record { wire = W.observed wire.old; keeper = J.observed keeper.old; clock = C.observed clock.old; desk = desk; loans = loans })
        (record { wire = W.observed wire.new; keeper = J.observed keeper.new; clock = C.observed clock.new; desk = result.0; loans = loans }) result.1 }
    ensures left { IfOk result.1 HasLeftCause }
    ensures cause { IfOk result.1 (λ end. IsTrue (W.observed wire.old).never_fails → end.cause ≢ Some cause.Wire) }
    ensures keeper { HasKeeperCause (J.observed keeper.old) (J.observed keeper.new) result.1 Fault.Keeper }
{
    let mut outside = Outside::new(alloc, desk, wire, keeper, clock);
    let end = relay_mail_objects(queue, &mut outside);
    let (desk, wire, keeper, clock) = outside.into_parts();
    // Used once more: a loan that ends within the bundle tells nothing of what was lent.
    let _wire = &mut *wire;
    let _keeper = &mut *keeper;
    let _clock = &mut *clock;
    (desk, end)
}

/// Sends the queue of a desk to the server that the host names, and reports whom it couldn't be sent to. Gives the desk back.
///
/// The host is for the dial to read. It is dialled once, where somebody waits in the queue, and no other host is. The connection is
/// handed back before this answers, also with a fault.
pub fn relay_queue<L: Dial, J: Keeper, C: Clock>(
    alloc: Global,
    desk: Desk,
    host: &str,
    dial: &mut L,
    keeper: &mut J,
    clock: &mut C,
) -> (Desk, Result<RelayEnd, Fault>)
    requires { IsOpen desk }
    ensures relays { RelaysQueue host.now
        (record { dial = L.observed dial.old; keeper = J.observed keeper.old; clock = C.observed clock.old; desk = desk })
        (record { dial = L.observed dial.new; keeper = J.observed keeper.new; clock = C.observed clock.new; desk = result.0 }) result.1 }
    ensures left { IfOk result.1 HasLeftCause }
    ensures later { (L.observed dial.old).faults ≤ (L.observed dial.new).faults }
    ensures cause { IfOk result.1 (HasDialCause (L.observed dial.old) (L.observed dial.new)) }
    ensures keeper { HasKeeperCause (J.observed keeper.old) (J.observed keeper.new) result.1 Fault.Keeper }
    ensures no_wire { ¬ (result.1 ≡ Err Fault.Wire) }
{
    let queue = match desk.store.queue() {
        Ok(queue) => queue,
        Err(Memory) => return (desk, Err(Fault::Memory)),
    };
    if queue.is_empty() {
        return (desk, Ok(Tally::before(0).end(None)));
    }
    let mut conn = match dial.dial(host) {
        Ok(conn) => conn,
        Err(Failed::Outside) => {
            let left = open_count(queue.as_slice());
            return (desk, Ok(Tally::before(left).end(Some(LeftCause::Dial))));
        }
        Err(Failed::Memory) => return (desk, Err(Fault::Memory)),
    };
    let answer = relay_connected(alloc, desk, queue.as_slice(), &mut conn, keeper, clock);
    dial.hand_back(conn);
    answer
}
