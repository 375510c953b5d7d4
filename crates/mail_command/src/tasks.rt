//! The commands of one message: `downgrade` and `check`.
ghost use Rattle.std.specs.Prelude.{◌≡◌, ◌≢◌, Err, IfOk, OnErr, OnOk};
ghost use Rattle.mail_wire.specs.Moves.{GivesOrFails, HasWireCause};
ghost use Rattle.mime_tree.specs.Tree.{HasTree};
ghost use Rattle.surrogate_rope.specs.Ropes.{IsRopeOf, octets_of};
ghost use Rattle.mail_command.specs.Giving.{GivesOne, BeginsOne};
ghost use Rattle.mail_command.specs.Outcome.{IsGivenBy, IsOutcome, Outcome, fault_line};
ghost use Rattle.setup_command.specs.Running.{IsBrokenOff};
ghost use Rattle.mail_command.specs.Running.{AnswersAll, BreaksOff};

use crate::figures::{figures_of, figures_text};
use crate::lines::refusal_line;
use crate::taking::take_up_to;
use mail_wire::{Fault, Memory, Octets, Wire, give_all};
use mime_tree::{Tree, TreeFault, complete, read_tree};
use setup_command::{DONE, MESSAGE_REFUSED};
use std::alloc::Global;
use surrogate_cache::give_range;
use surrogate_rope::{Rope, Shown};

/// The most octets of a message: 32 MiB.
pub const MESSAGE_MAX: usize = kept_mail::MESSAGE_MAX as usize;

/// What is done with one message.
#[derive(Clone, Copy)]
pub enum Task {
    /// Its surrogate is given.
    Downgrade,
    /// It is told what the message and its surrogate count.
    Check,
}

// The line that tells the fault of a message, or want of memory.
fn fault_line(alloc: Global, fault: TreeFault) -> Result<Octets, Memory>
    ensures { IfOk result (λ line. (fault ≢ TreeFault.Memory) × (line ≡ fault_line fault)) }
{
    match fault {
        TreeFault::Nul { at } => refusal_line(alloc, at as u64, b"nul"),
        TreeFault::BareCr { at } => refusal_line(alloc, at as u64, b"bare cr"),
        TreeFault::BareLf { at } => refusal_line(alloc, at as u64, b"bare lf"),
        TreeFault::NotField { at } => refusal_line(alloc, at as u64, b"not a field"),
        TreeFault::NotUtf8 { at } => refusal_line(alloc, at as u64, b"not utf-8"),
        TreeFault::Memory => Err(Memory),
    }
}

// Gives the line that refuses a message.
fn refuse<W: Wire>(wire: &mut W, line: Octets) -> Result<u8, Fault>
    ensures gives { GivesOrFails (W.observed wire.old) (W.observed wire.new) result line }
    ensures status { IfOk result (λ status. status ≡ 7) }
    ensures cause { HasWireCause (W.observed wire.old) (W.observed wire.new) result Fault.Wire }
    ensures keeper { ¬ (result ≡ Err Fault.Keeper) }
{
    give_all(wire, line.as_slice())?;
    Ok(MESSAGE_REFUSED)
}

// Gives all octets of a rope, piece by piece.
fn give_rope<W: Wire>(msg: &[u8], rope: Rope, wire: &mut W) -> Result<(), Fault>
    requires { IsRopeOf msg.now rope }
    ensures gives { GivesOrFails (W.observed wire.old) (W.observed wire.new) result (octets_of msg.now rope) }
    ensures cause { HasWireCause (W.observed wire.old) (W.observed wire.new) result Fault.Wire }
    ensures keeper { ¬ (result ≡ Err Fault.Keeper) }
{
    let len = rope.size();
    let shown = Shown::Rope(rope);
    match give_range(&shown, msg, 0, len, wire) {
        Ok(()) => Ok(()),
        Err(failed) => Err(Fault::from(failed)),
    }
}

// Gives what the task makes of a message.
fn give_made<W: Wire>(
    alloc: Global,
    task: Task,
    msg: &[u8],
    tree: &Tree,
    wire: &mut W,
) -> Result<(), Fault>
    requires { HasTree msg.now tree.now.entities }
    ensures gives { OnOk result (GivesOne (IsGivenBy task msg.now) (W.observed wire.old) (W.observed wire.new)) }
    ensures begun { OnErr result (BeginsOne (IsGivenBy task msg.now) (W.observed wire.old) (W.observed wire.new)) }
    ensures cause { HasWireCause (W.observed wire.old) (W.observed wire.new) result Fault.Wire }
    ensures keeper { ¬ (result ≡ Err Fault.Keeper) }
{
    let rope = Rope::build(alloc, msg, tree)?;
    match task {
        Task::Downgrade => give_rope(msg, rope, wire),
        Task::Check => {
            let text = figures_text(alloc, &figures_of(msg, tree, &rope))?;
            give_all(wire, text.as_slice())
        }
    }
}

/// Gives what the task comes to on these octets, and answers its status.
pub fn give_outcome<W: Wire>(
    alloc: Global,
    task: Task,
    octets: Octets,
    wire: &mut W,
) -> Result<u8, Fault>
    ensures gives { IfOk result (λ status. GivesOne (Outcome task octets status) (W.observed wire.old) (W.observed wire.new)) }
    ensures begun { OnErr result (BeginsOne (IsOutcome task octets) (W.observed wire.old) (W.observed wire.new)) }
    ensures cause { HasWireCause (W.observed wire.old) (W.observed wire.new) result Fault.Wire }
    ensures keeper { ¬ (result ≡ Err Fault.Keeper) }
{
    if octets.len() > MESSAGE_MAX {
        let line = refusal_line(alloc, MESSAGE_MAX as u64, b"too large")?;
        return refuse(wire, line);
    }
    let mut completed = octets;
    complete(&mut completed)?;
    let tree = match read_tree(alloc, completed.as_slice()) {
        Ok(tree) => tree,
        Err(fault) => {
            let reason = fault_line(alloc, fault)?;
            return refuse(wire, reason);
        }
    };
    give_made(alloc, task, completed.as_slice(), &tree, wire)?;
    Ok(DONE)
}

/// Takes one message, and gives what the task makes of it or why it is refused.
pub fn run_task<W: Wire>(alloc: Global, task: Task, wire: &mut W) -> Result<u8, Fault>
    ensures answers { IfOk result (AnswersAll task (W.observed wire.old) (W.observed wire.new)) }
    ensures fine { IfOk result (λ status. ¬ IsBrokenOff status) }
    ensures broken_off { OnErr result (BreaksOff task (W.observed wire.old) (W.observed wire.new)) }
    ensures cause { HasWireCause (W.observed wire.old) (W.observed wire.new) result Fault.Wire }
    ensures keeper { ¬ (result ≡ Err Fault.Keeper) }
{
    let taken = take_up_to(alloc, wire, MESSAGE_MAX)?;
    give_outcome(alloc, task, taken, wire)
}
