//! The command that gives help.
ghost use Rattle.std.specs.Prelude.{List, ℕ};
ghost use Rattle.mail_wire.specs.Moves.{HasWireCause};
ghost use Rattle.setup_command.specs.AddingRuns.{TellsLine};
ghost use Rattle.setup_command.specs.declared.statuses.TheConstants.{DONE};

use crate::refusals::tell;
use crate::statuses::DONE;
use clap::Command;
use mail_wire::{Fault, Memory, Wire};
use std::alloc::Global;

/// The version of the program.
pub const VERSION: &str = "0.9.0";

// The commands, and what each does.
const COMMANDS: [(&str, &str); 11] = [
    (
        "downgrade",
        "Take one message, give its surrogate in ASCII headers",
    ),
    (
        "check",
        "Take one message, give what it and its surrogate count",
    ),
    ("pop", "Serve one POP3 session"),
    ("smtp", "Serve one SMTP session"),
    ("imap", "Serve one IMAP session"),
    (
        "serve",
        "Serve ROLE (pop, smtp or imap) on PORT of 127.0.0.1, N connections",
    ),
    (
        "account",
        "Add the account ADDRESS with PASSWORD, or with the first line of the input",
    ),
    ("domain", "Make the domain of the word DOMAIN local"),
    (
        "relay",
        "Send the queue to the next server HOST (host or host:port)",
    ),
    ("gen", "Make N messages and serve them to two clients"),
    ("help", "Give this text"),
];

// The program, as yet without its commands.
fn program<'a>(alloc: Global) -> Command<'a> {
    Command::new(alloc, "dervlask")
        .version(VERSION)
        .about("A mail server over standard input and output, or over a port")
        .override_usage("dervlask COMMAND [WORDS]")
        .after_help("License: Apache-2.0 OR MIT")
        .disable_version_flag(true)
        .disable_help_flag(true)
        .disable_help_subcommand(true)
}

// The command of which the others are subcommands.
fn all_commands<'a>(alloc: Global) -> Result<Command<'a>, Memory> {
    let mut all = program(alloc);
    for (name, does) in COMMANDS {
        all = all.subcommand(Command::new(alloc, name).about(does))?;
    }
    Ok(all)
}

// A line with the version, and then the commands.
fn described(all: &mut Command) -> Result<String, Memory> {
    let help = all.render_help()?;
    let mut text = all.render_version()?;
    text.push_str(help.as_str())?;
    Ok(text)
}

// The text of `help`.
fn help_text(alloc: Global) -> Result<String, Memory> {
    let mut all = all_commands(alloc)?;
    described(&mut all)
}

/// Gives the text of `help`, which begins with the version.
pub fn run_help<W: Wire>(alloc: Global, wire: &mut W) -> Result<u8, Fault>
    ensures gives { (text : List ℕ) × TellsLine (W.observed wire.old) (W.observed wire.new) result DONE text }
    ensures cause { HasWireCause (W.observed wire.old) (W.observed wire.new) result Fault.Wire }
{
    let text = help_text(alloc)?;
    tell(wire, DONE, text.as_str().as_bytes())
}
