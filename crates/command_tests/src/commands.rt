//! The one call of `run` that the tests of commands go through, and what comes of it.
use mail_command::run;
use mail_wire::{Failure, FixedClock, MemDial, Memory, Octets};
use std::alloc::Global;
use test_mail::{dial_of, given, keeper_of, wire_of, words_of};

/// The words of a command, its input in pieces of these sizes, and the journal before.
#[derive(Clone, Copy, Debug)]
pub struct Command<'a> {
    pub words: &'a [&'a str],
    pub input: &'a [u8],
    pub sizes: &'a [usize],
    pub journal: &'a [u8],
}

/// The call of the wire or the keeper that fails.
#[derive(Clone, Copy, Debug)]
pub enum Failing {
    Nothing,
    Wire(Failure),
    Keeper(Failure),
}

impl Failing {
    fn of_wire(self) -> Option<Failure> {
        match self {
            Failing::Wire(failure) => Some(failure),
            _ => None,
        }
    }

    fn of_keeper(self) -> Option<Failure> {
        match self {
            Failing::Keeper(failure) => Some(failure),
            _ => None,
        }
    }
}

/// What came of a command: its status, what it gave, how often its wire was called, and the journal then.
#[derive(Debug, Drop)]
pub struct Outcome {
    pub status: u8,
    pub given: Octets,
    pub calls: u64,
    pub journal: Octets,
}

/// What comes of a command at the clock's second 0, by this dial.
pub fn outcome_by(
    alloc: Global,
    command: &Command,
    failing: Failing,
    dial: &mut MemDial,
) -> Result<Outcome, Memory> {
    let words = words_of(alloc, command.words)?;
    let mut wire = wire_of(alloc, command.input, command.sizes, failing.of_wire())?;
    let mut keeper = keeper_of(alloc, command.journal, failing.of_keeper())?;
    let mut clock = FixedClock::new(0);
    let status = run(alloc, &words, &mut wire, &mut keeper, dial, &mut clock);
    Ok(Outcome {
        status,
        given: given(alloc, wire.entries())?,
        calls: wire.entries().len() as u64,
        journal: Octets::from_slice(alloc, keeper.octets())?,
    })
}

/// What comes of a command that dials nobody.
pub fn run_command(alloc: Global, command: &Command, failing: Failing) -> Result<Outcome, Memory> {
    let mut dial = dial_of(alloc, b"", &[0])?;
    outcome_by(alloc, command, failing, &mut dial)
}

/// What comes of these words over a journal, without input.
pub fn outcome_of_words(
    alloc: Global,
    words: &[&str],
    journal: &[u8],
    failing: Failing,
) -> Result<Outcome, Memory> {
    let command = Command {
        words,
        input: b"",
        sizes: &[],
        journal,
    };
    run_command(alloc, &command, failing)
}
