//! Tells on standard error what failed, as the system puts it.
use journal_file::{FileKeeper, JournalFailure};
use mail_command::{KEEPER_FAULT, LEFT_QUEUED, Served, WANT_OF_MEMORY, WIRE_FAULT, WORDS_REFUSED};
use mail_wire::{StdWire, WireFailure};
use std::alloc::{Alloc, Global};
use std::fs::{File, Files};
use std::io::{self, Eprint, ErrorKind, Read, Write};
use tcp_wire::{TcpDial, TcpWire};

/// The journal, in the current folder.
pub const JOURNAL: &str = "mail.journal";

/// What was cut of the journal, beside it.
pub const CUT: &str = "mail.journal.cut";

// The text of an error without the system's number for it.
fn without_number(text: &str) -> &str {
    match text.split_once(" (os error ") {
        Some((reason, _)) => reason,
        None => text,
    }
}

/// Says what failed, and why.
pub fn tell<T: Eprint + Alloc<A = Global>>(
    rt: &T,
    place: &str,
    error: io::Error,
) -> io::Result<()> {
    let text = format!(in rt.alloc(); "{error}")?;
    let reason = without_number(text.as_str());
    eprintln!(rt; "dervlask: {place}: {reason}")
}

/// Says that memory was wanting.
pub fn tell_memory<T: Eprint>(rt: &T) -> io::Result<()> {
    eprintln!(rt; "dervlask: out of memory")
}

// Why a call of the keeper failed, and at which file.
fn place_and_error(failure: JournalFailure) -> (&'static str, io::Error) {
    match failure {
        JournalFailure::Journal(error) => (JOURNAL, error),
        JournalFailure::Cut(error) => (CUT, error),
    }
}

/// Says how many octets were cut of the journal since this was said last, and where they are.
pub fn tell_cut<T, F>(rt: &T, keeper: &mut FileKeeper<F>) -> io::Result<()>
where
    T: Eprint,
    F: Files<File = File>,
{
    match keeper.take_cut_octets() {
        0 => Ok(()),
        1 => {
            eprintln!(rt;
                "dervlask: {JOURNAL}: cut 1 octet that was no whole record; it is in {CUT}"
            )
        }
        count => {
            eprintln!(rt;
                "dervlask: {JOURNAL}: cut {count} octets that were no whole record; they are in {CUT}"
            )
        }
    }
}

/// Says why a command ended with this status, where the outside failed or memory was wanting.
pub fn tell_failure<T, R, W, F>(
    rt: &T,
    status: u8,
    wire: &StdWire<R, W>,
    keeper: &FileKeeper<F>,
) -> io::Result<()>
where
    T: Eprint + Alloc<A = Global>,
    R: Read,
    W: Write,
    F: Files<File = File>,
{
    match status {
        WIRE_FAULT => match wire.failure() {
            Some(WireFailure::Input(error)) => tell(rt, "standard input", error),
            Some(WireFailure::Output(error)) => tell(rt, "standard output", error),
            None => Ok(()),
        },
        KEEPER_FAULT => match keeper.failure() {
            Some(failure) => {
                let (place, error) = place_and_error(failure);
                tell(rt, place, error)
            }
            None => Ok(()),
        },
        WANT_OF_MEMORY => tell_memory(rt),
        _ => Ok(()),
    }
}

/// Says why a connection failed. A call that waited too long is told so by either of two kinds. Want of memory is told
/// without asking for any.
pub fn tell_connection<T: Eprint + Alloc<A = Global>>(
    rt: &T,
    number: u32,
    error: io::Error,
) -> io::Result<()> {
    match error.kind() {
        ErrorKind::WouldBlock | ErrorKind::TimedOut => {
            eprintln!(rt; "dervlask: connection {number}: timed out")
        }
        ErrorKind::OutOfMemory => eprintln!(rt; "dervlask: connection {number}: out of memory"),
        _ => {
            let place = format!(in rt.alloc(); "connection {number}")?;
            tell(rt, place.as_str(), error)
        }
    }
}

// Says why the wire of a connection failed.
fn tell_wire<T: Eprint + Alloc<A = Global>>(rt: &T, number: u32, wire: &TcpWire) -> io::Result<()> {
    match wire.failure() {
        Some(WireFailure::Input(error) | WireFailure::Output(error)) => {
            tell_connection(rt, number, error)
        }
        None => Ok(()),
    }
}

// Says why the keeper failed while a connection was served.
fn tell_keeper<T, F>(rt: &T, number: u32, keeper: &FileKeeper<F>) -> io::Result<()>
where
    T: Eprint + Alloc<A = Global>,
    F: Files<File = File>,
{
    match keeper.failure() {
        Some(failure) => {
            let (file, error) = place_and_error(failure);
            let place = format!(in rt.alloc(); "connection {number}: {file}")?;
            tell(rt, place.as_str(), error)
        }
        None => Ok(()),
    }
}

/// Says why a connection came to its end before its client ended it.
pub fn tell_served<T, F>(
    rt: &T,
    number: u32,
    served: Served,
    wire: &TcpWire,
    keeper: &FileKeeper<F>,
) -> io::Result<()>
where
    T: Eprint + Alloc<A = Global>,
    F: Files<File = File>,
{
    match served {
        Served::Ended => Ok(()),
        Served::WireFault => tell_wire(rt, number, wire),
        Served::KeeperFault => tell_keeper(rt, number, keeper),
        Served::Memory => eprintln!(rt; "dervlask: connection {number}: out of memory"),
        Served::Limit => eprintln!(rt; "dervlask: connection {number}: it took 1 GiB"),
    }
}

/// Says how to list the commands, where the words are those of none.
pub fn tell_help<T: Eprint>(rt: &T, status: u8) -> io::Result<()> {
    if status != WORDS_REFUSED {
        return Ok(());
    }
    eprintln!(rt; "dervlask: try 'dervlask help'")
}

/// Says why the next server couldn't be reached, or why the connection to it failed, where recipients are left for that.
pub fn tell_left<T, N>(rt: &T, status: u8, dial: &TcpDial<N>) -> io::Result<()>
where
    T: Eprint + Alloc<A = Global>,
{
    if status != LEFT_QUEUED {
        return Ok(());
    }
    match (dial.failure(), dial.wire_failure()) {
        (Some(error), _) => tell(rt, "next server", error),
        (None, Some(WireFailure::Input(error) | WireFailure::Output(error))) => {
            tell(rt, "next server", error)
        }
        (None, None) => Ok(()),
    }
}
