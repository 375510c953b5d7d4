//! Entries of the queue that are done with.
ghost use Rattle.std.specs.Prelude.{◌≡◌, ◌+◌, ◌≤◌, ◌<◌, ◌^◌, [], ◌∷◌, length, map, Err, OnOk};
ghost use Rattle.std.specs.List.{All};
ghost use Rattle.journal_records.specs.Addresses.{WithPaths};
ghost use Rattle.mail_wire.specs.declared.outside.Fault.TheVariants as fault;
ghost use Rattle.relay_choice.specs.Settling.{IsFitOutcome};
ghost use Rattle.session_core.specs.Acts.{changes};
ghost use Rattle.session_core.specs.Desks.{IsOpen};
ghost use Rattle.session_core.specs.Keeps.{Keeps, fault_of};
ghost use Rattle.relay_session.specs.Carrying.{taken_off};
ghost use Rattle.relay_session.specs.private.Acting.{DoesActs, IsKnownEntry, IsOpenIn, Settles, counted};

use crate::ends::Tally;
use crate::reporting::report;
use mail_store::Queued;
use mail_wire::{Clock, Fault, Keeper, Wire};
use relay_choice::Outcome;
use session_core::Outside;

// Counts what came of a recipient, who was left so far.
fn count_outcome(tally: &mut Tally, outcome: Outcome)
    requires sent { tally.old.sent + 1 < 2 ^ 32 }
    requires left { 1 ≤ tally.old.left }
    ensures { tally.new ≡ counted tally.old (outcome ∷ []) 0 }
{
    match outcome {
        Outcome::Sent => tally.sent += 1,
        Outcome::Refused { .. } => {}
    }
    tally.left -= 1;
}

// Takes the recipients off, in order.
fn settle_all<W: Wire, J: Keeper, C: Clock>(
    queued: &Queued,
    outcomes: &[Outcome],
    tally: &mut Tally,
    outside: &mut Outside<W, J, C>,
) -> Result<(), Fault>
    requires opens { IsOpen outside.old.desk }
    requires known { IsKnownEntry outside.old.desk.store.kept queued.now }
    requires open { IsOpenIn outside.old.desk.store.kept queued.now }
    requires each { length outcomes.now ≡ length queued.now.unsettled }
    requires sent { tally.old.sent + length outcomes.now < 2 ^ 32 }
    requires left { length outcomes.now ≤ tally.old.left }
    ensures does { DoesActs outside.old outside.new (fault_of result) (map changes (taken_off queued.now.entry queued.now.unsettled outcomes.now)) }
    ensures wire { ¬ (result ≡ Err fault.Wire) }
    ensures tally { OnOk result (tally.new ≡ counted tally.old outcomes.now 0) }
    ensures keeps { Keeps outside.old outside.new (fault_of result) }
{
    for (one, outcome) in queued.unsettled.as_slice().iter().zip(outcomes) {
        outside.settle(queued.entry, one.index)?;
        count_outcome(tally, *outcome);
    }
    Ok(())
}

/// Reports the recipients of an entry who failed, and then takes all of them off the queue.
pub fn settle<W: Wire, J: Keeper, C: Clock>(
    queued: &Queued,
    outcomes: &[Outcome],
    tally: &mut Tally,
    outside: &mut Outside<W, J, C>,
) -> Result<(), Fault>
    requires opens { IsOpen outside.old.desk }
    requires known { IsKnownEntry outside.old.desk.store.kept queued.now }
    requires open { IsOpenIn outside.old.desk.store.kept queued.now }
    requires each { length outcomes.now ≡ length queued.now.unsettled }
    requires fit { All IsFitOutcome outcomes.now }
    requires sent { tally.old.sent + length outcomes.now < 2 ^ 32 }
    requires reported { tally.old.reported + 1 < 2 ^ 32 }
    requires left { length outcomes.now ≤ tally.old.left }
    ensures settles { WithPaths (λ path_of. Settles path_of outside.old outside.new queued.now outcomes.now tally.old tally.new (fault_of result)) }
    ensures keeps { Keeps outside.old outside.new (fault_of result) }
{
    let kept = report(queued, outcomes, outside)?;
    tally.reported += u32::from(kept);
    settle_all(queued, outcomes, tally, outside)
}
