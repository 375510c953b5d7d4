//! The program: the words of the command line over standard input, standard output and the journal `mail.journal`.
#![tactic(auto)]

mod serve;
mod telling;

use crate::serve::serve;
use crate::telling::{CUT, JOURNAL, tell_cut, tell_failure, tell_help, tell_left, tell_memory};
use journal_file::FileKeeper;
use mail_command::{KEEPER_FAULT, WANT_OF_MEMORY, WIRE_FAULT, run, serve_words};
use mail_wire::{Memory, StdWire, SystemClock, Words};
use std::alloc::{Alloc, Global};
use std::env::{self, Env};
use std::fs::{File, Files, OpenOptions};
use std::io::{self, BufWriter, Eprint, Input, Print, Read, Write};
use std::net::{Net, TcpListener, TcpStream};
use std::process::ExitCode;
use std::rt::Clock;
use tcp_wire::TcpDial;

// The words after the program's name. Arguments that aren't UTF-8 are the words of no command: none.
fn words<R: Env + Alloc<A = Global>>(rt: &R) -> Result<Words, Memory> {
    let mut words = Words::none(rt.alloc());
    match env::args(rt) {
        Ok(args) => {
            for word in args.skip(1) {
                words.push(word.as_str())?;
            }
            Ok(words)
        }
        Err(error) if error.kind() == io::ErrorKind::OutOfMemory => Err(Memory),
        Err(_) => Ok(words),
    }
}

// The root folder, opened.
fn root_folder<F: Files<File = File>>(files: &F) -> Option<File> {
    OpenOptions::new().read(true).open(files, "/").ok()
}

// The status that the program ends with: all that was given is to go out, unless the command failed before.
fn finished<R: Read, W: Write>(status: u8, wire: &mut StdWire<R, W>) -> u8 {
    match (status, wire.finish()) {
        (KEEPER_FAULT | WANT_OF_MEMORY, _) | (_, Ok(())) => status,
        (_, Err(_)) => WIRE_FAULT,
    }
}

// Lets all go out that was given, and says what was cut and why the command failed. The status that the program ends with.
fn status_told<T, R, W>(
    rt: &T,
    status: u8,
    wire: &mut StdWire<R, W>,
    keeper: &mut FileKeeper<&T>,
    dial: &TcpDial<&T>,
) -> u8
where
    T: Net<Listener = TcpListener, Stream = TcpStream>
        + Files<File = File>
        + Eprint
        + Alloc<A = Global>,
    R: Read,
    W: Write,
{
    let status = finished(status, wire);
    let _cut = tell_cut(rt, keeper);
    let _told = tell_failure(rt, status, wire, keeper);
    let _help = tell_help(rt, status);
    let _left = tell_left(rt, status, dial);
    status
}

// Runs the command that the words name over a wire, and says why it failed. The status that the program ends with.
fn run_over<T, R, W>(rt: &T, words: &Words, wire: &mut StdWire<R, W>) -> u8
where
    T: Net<Listener = TcpListener, Stream = TcpStream>
        + Files<File = File>
        + Clock
        + Eprint
        + Alloc<A = Global>,
    R: Read,
    W: Write,
{
    let mut keeper = FileKeeper::new(rt, JOURNAL, CUT);
    let mut dial = TcpDial::new(rt.alloc(), rt);
    let mut clock = SystemClock::new(rt);
    let status = run(rt.alloc(), words, wire, &mut keeper, &mut dial, &mut clock);
    status_told(rt, status, wire, &mut keeper, &dial)
}

// Runs it over standard input and output.
fn run_words<T>(rt: &T, words: &Words) -> u8
where
    T: Net<Listener = TcpListener, Stream = TcpStream>
        + Files<File = File>
        + Clock
        + Input
        + Print
        + Eprint
        + Alloc<A = Global>,
{
    let Ok(output) = BufWriter::new(rt.alloc(), io::writer(rt)) else {
        let _told = tell_memory(rt);
        return WANT_OF_MEMORY;
    };
    let mut wire = StdWire::new(rt.reader(), output);
    run_over(rt, words, &mut wire)
}

fn main(rt: HostRuntime) -> ExitCode {
    // Of standard input, output and error those that are closed become a folder, which nothing can be read from or written
    // to: else the journal would be opened in the place of one.
    let _taken = [root_folder(&rt), root_folder(&rt), root_folder(&rt)];
    let Ok(words) = words(&rt) else {
        let _told = tell_memory(&rt);
        return ExitCode::from(WANT_OF_MEMORY);
    };
    ExitCode::from(match serve_words(&words) {
        Some((role, port, connections)) => serve(&rt, role, port, connections),
        None => run_words(&rt, &words),
    })
}
