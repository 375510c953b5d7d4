//! The command that sends the queue on.
ghost use Rattle.std.specs.Prelude.{◌≡◌, ◌++◌, decimal, IfOk, IfSome, OnOk};
ghost use Rattle.mail_wire.specs.Moves.{HasWireCause};
ghost use Rattle.session_core.specs.declared.desk.TheConstants.{LIMITS};
ghost use Rattle.setup_command.specs.AddingRuns.{TellsLine};
ghost use Rattle.setup_command.specs.Running.{HasStatusCause, IsExactJournal};
ghost use Rattle.setup_command.specs.Statuses.{status_of};
ghost use Rattle.mail_command.specs.RelayRuns.{RunsRelay, relay_line as relay_line_of, relay_status as relay_status_of};

use itoa::Buffer;
use mail_wire::{Clock, Dial, Fault, Keeper, Memory, Octets, Wire};
use relay_session::{RelayEnd, relay_queue};
use session_core::{LIMITS, open_desk};
use setup_command::{DONE, LEFT_QUEUED, tell, tell_unopened};
use std::alloc::Global;

// Puts a word and a number last.
fn push_count(line: &mut Octets, word: &[u8], count: u32) -> Result<(), Memory>
    ensures { OnOk result (line.new ≡ line.old ++ (word.now ++ decimal count)) }
{
    let mut buffer = Buffer::new();
    line.push_slice(word)?;
    line.push_slice(buffer.format(count).as_bytes())
}

// The line that tells how the relay ended.
fn relay_line(alloc: Global, end: &RelayEnd) -> Result<Octets, Memory>
    ensures { IfOk result (λ line. line ≡ relay_line_of end.now) }
{
    let mut line = Octets::new(alloc);
    push_count(&mut line, b"sent ", end.sent)?;
    push_count(&mut line, b", reported ", end.reported)?;
    push_count(&mut line, b", left ", end.left)?;
    line.push_slice(b"\r\n")?;
    Ok(line)
}

// The status of a relay that ended so.
fn relay_status(end: &RelayEnd) -> u8
    ensures { result ≡ relay_status_of end.now }
{
    if end.left == 0 { DONE } else { LEFT_QUEUED }
}

// Tells how the relay ended.
fn tell_end<W: Wire>(alloc: Global, end: &RelayEnd, wire: &mut W) -> Result<u8, Fault>
    ensures observed { TellsLine (W.observed wire.old) (W.observed wire.new) result (relay_status_of end.now) (relay_line_of end.now) }
    ensures cause { HasWireCause (W.observed wire.old) (W.observed wire.new) result Fault.Wire }
{
    let line = relay_line(alloc, end)?;
    tell(wire, relay_status(end), line.as_slice())
}

/// Opens the journal of the keeper, and sends its queue to the server that the host names: `LEFT_QUEUED` where somebody is left in it.
pub fn run_relay<W: Wire, J: Keeper, L: Dial, C: Clock>(
    alloc: Global,
    host: &str,
    wire: &mut W,
    keeper: &mut J,
    dial: &mut L,
    clock: &mut C,
) -> Result<u8, Fault>
    ensures runs { RunsRelay LIMITS host.now
        (record { wire = W.observed wire.old; keeper = J.observed keeper.old; dial = L.observed dial.old; clock = C.observed clock.old })
        (record { wire = W.observed wire.new; keeper = J.observed keeper.new; dial = L.observed dial.new; clock = C.observed clock.new }) (status_of result) }
    // A bad journal is told.
    ensures journal { IfSome (J.observed keeper.old).octets (λ octets. IsExactJournal octets (status_of result)) }
    ensures cause { HasStatusCause (W.observed wire.old) (W.observed wire.new) (J.observed keeper.old) (J.observed keeper.new) (status_of result) }
{
    let desk = match open_desk(alloc, keeper, LIMITS) {
        Ok(desk) => desk,
        Err(fault) => return tell_unopened(alloc, fault, wire),
    };
    let (_desk, end) = relay_queue(alloc, desk, host, dial, keeper, clock);
    let end = end?;
    tell_end(alloc, &end, wire)
}
