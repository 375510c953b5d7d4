//! The relay over a wire to a next server.
ghost use Rattle.std.specs.Prelude.{◌≡◌, ◌≢◌, ◌≤◌, [], IfOk};
ghost use Rattle.journal_records.specs.Addresses.{WithPaths};
ghost use Rattle.kept_mail.specs.declared.limits.TheConstants.{THINGS_MAX};
ghost use Rattle.mail_store.specs.Queue.{IsQueue, told_count};
ghost use Rattle.session_core.specs.Around.{Around};
ghost use Rattle.session_core.specs.Desks.{IsOpen};
ghost use Rattle.session_core.specs.Keeps.{Keeps, fault_of};
ghost use Rattle.relay_session.specs.MailObjects.{Mailbag};
ghost use Rattle.relay_session.specs.Relaying.{HasLeftCause, Relays, RelaysTo};
ghost use Rattle.relay_session.specs.private.Running.{IsAtWork, IsRunning, IsWireCause};

use crate::ends::{LeftCause, RelayEnd, Tally};
use crate::mail_objects::mail_objects_of;
use crate::running::{Advance, Run, feed};
use mail_store::Queued;
use mail_wire::{Clock, Fault, Keeper, Octets, PIECE, Wire};
use relay_choice::{Client, ReplyReader};
use session_core::Outside;

/// How many recipients wait.
pub fn open_count(queue: &[Queued]) -> u32
    requires { told_count queue.now ≤ THINGS_MAX }
    ensures { result ≡ told_count queue.now }
{
    let mut count: usize = 0;
    for queued in queue {
        count += queued.unsettled.len();
    }
    count as u32
}

// Runs until the run ends, or the wire fails.
fn run_to_end<W: Wire, J: Keeper, C: Clock>(
    run: Run,
    queue: &[Queued],
    outside: &mut Outside<W, J, C>,
) -> Result<RelayEnd, Fault>
    requires opens { IsOpen outside.old.desk }
    requires work { (before : Around) × (bag : Mailbag before.desk.store.kept) × (bag.queue ≡ queue.now) × IsAtWork before outside.old bag run [] }
    ensures relays { WithPaths (λ path_of. (before : Around) (bag : Mailbag before.desk.store.kept) → bag.queue ≡ queue.now
        → IsRunning path_of before outside.old bag run [] → RelaysTo path_of before outside.new bag result) }
    ensures cause { IfOk result (IsWireCause outside.old outside.new) }
    ensures keeps { Keeps outside.old outside.new (fault_of result) }
{
    let mut run = run;
    let mut piece = [0; PIECE];
    loop {
        let count = match outside.take(&mut piece) {
            Ok(count) => count,
            Err(Fault::Wire) => return Ok(run.tally.end(Some(LeftCause::Wire))),
            // It uses no keeper.
            Err(Fault::Keeper) => unreachable!(),
            Err(Fault::Memory) => return Err(Fault::Memory),
        };
        if count == 0 {
            let octets = run.reader.octets;
            return Ok(run.tally.end(Some(LeftCause::Reply(octets))));
        }
        match feed(run, &piece[..count], queue, outside)? {
            Advance::Goes(next) => run = next,
            Advance::Ends(end) => return Ok(end),
        }
    }
}

/// Sends this queue, in which somebody waits, to the server at the other end of the wire.
pub fn relay_mail_objects<W: Wire, J: Keeper, C: Clock>(
    queue: &[Queued],
    outside: &mut Outside<W, J, C>,
) -> Result<RelayEnd, Fault>
    requires opens { IsOpen outside.old.desk }
    requires queue { IsQueue outside.old.desk.store.kept.entries queue.now }
    requires some { queue.now ≢ [] }
    requires few { told_count queue.now ≤ THINGS_MAX }
    ensures relays { Relays outside.old outside.new result }
    ensures left { IfOk result HasLeftCause }
    ensures cause { IfOk result (IsWireCause outside.old outside.new) }
    ensures keeps { Keeps outside.old outside.new (fault_of result) }
{
    let alloc = outside.alloc();
    let mail_objects = mail_objects_of(alloc, outside.store(), queue)?;
    let name = Octets::from_slice(alloc, outside.store().name().as_bytes())?;
    let run = Run {
        client: Client::new(alloc, name, mail_objects),
        reader: ReplyReader::new(alloc),
        tally: Tally::before(open_count(queue)),
    };
    run_to_end(run, queue, outside)
}

/// Sends the queue to the server at the other end of the wire, in order, and reports whom it couldn't be sent to.
///
/// The client awaits one reply after each command but QUIT. Where nobody waits in the queue, the wire isn't used.
pub fn relay_over<W: Wire, J: Keeper, C: Clock>(
    outside: &mut Outside<W, J, C>,
) -> Result<RelayEnd, Fault>
    requires { IsOpen outside.old.desk }
    // What was given are the acts of the client over the replies that were taken, in their order and each at its time, and what these
    // settle is reported and settled in the store and in the keeper. At Ok the numbers are those of what was done; every mail object is
    // done with, or the cause says why the run stopped: the wire failed, or these octets came in a reply's place.
    ensures relays { Relays outside.old outside.new result }
    ensures left { IfOk result HasLeftCause }
    ensures cause { IfOk result (IsWireCause outside.old outside.new) }
    ensures keeps { Keeps outside.old outside.new (fault_of result) }
{
    let queue = outside.store().queue()?;
    if queue.is_empty() {
        return Ok(Tally::before(0).end(None));
    }
    relay_mail_objects(queue.as_slice(), outside)
}
