//! The commands that leave the keeper alone.
ghost use Rattle.std.specs.Prelude.{◌≡◌};
ghost use Rattle.mail_wire.specs.KeeperState.{KeeperState};
ghost use Rattle.setup_command.specs.Running.{HasStatusCause};
ghost use Rattle.setup_command.specs.Statuses.{status_of};
ghost use Rattle.mail_command.specs.Running.{RunsStandalone};
ghost use Rattle.mail_command.specs.private.Few.{MakesFew};

use crate::generating::run_gen;
use crate::tasks::{Task, run_task};
use mail_wire::{Fault, Wire};
use setup_command::run_help;
use std::alloc::Global;

/// A command that leaves the keeper alone.
#[derive(Clone, Copy)]
pub enum Standalone {
    /// Of one message.
    Message(Task),
    /// So many messages are made.
    Gen(u32),
    Help,
}

/// Runs it.
pub fn run_standalone<W: Wire>(
    alloc: Global,
    command: Standalone,
    wire: &mut W,
) -> Result<u8, Fault>
    requires { MakesFew command }
    ensures runs { RunsStandalone command (W.observed wire.old) (W.observed wire.new) (status_of result) }
    ensures cause { (keeper : KeeperState) → HasStatusCause (W.observed wire.old) (W.observed wire.new) keeper keeper (status_of result) }
{
    match command {
        Standalone::Message(task) => run_task(alloc, task, wire),
        Standalone::Gen(number) => run_gen(alloc, number, wire),
        Standalone::Help => run_help(alloc, wire),
    }
}
