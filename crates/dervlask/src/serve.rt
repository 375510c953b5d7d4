//! Serves connections to a port of this machine, one after the other.
ghost use Rattle.std.specs.Prelude.{◌≡◌, IfOk, IfSome};
ghost use Rattle.session_core.specs.Desks.{WorksWithin};
ghost use Rattle.session_core.specs.declared.desk.TheConstants.{LIMITS};

use crate::telling::{CUT, JOURNAL, tell, tell_connection, tell_cut, tell_failure, tell_served};
use journal_file::FileKeeper;
use mail_command::{
    DONE, Desk, KEEPER_FAULT, LIMITS, OpenFault, Role, Served, WIRE_FAULT, has_domain, open_desk,
    serve_next, status_after, tell_unopened,
};
use mail_wire::{StdWire, SystemClock};
use std::alloc::{Alloc, Global};
use std::fs::{self, File, Files};
use std::io::{self, Eprint, ErrorKind, Input, Print};
use std::net::{Net, TcpListener, TcpStream};
use std::rt::Clock;
use std::time::Duration;
use tcp_wire::TcpWire;

// Says why the desk can't be opened. The status that the program ends with.
fn status_unopened<T>(rt: &T, fault: OpenFault, keeper: &FileKeeper<&T>) -> u8
where
    T: Files<File = File> + Input + Print + Eprint + Alloc<A = Global>,
{
    let mut wire = StdWire::new(rt.reader(), io::writer(rt));
    let status = status_after(tell_unopened(rt.alloc(), fault, &mut wire));
    let _told = tell_failure(rt, status, &wire, keeper);
    status
}

// Says why nobody can be served after this port.
fn tell_port<T: Eprint + Alloc<A = Global>>(rt: &T, port: u16, error: io::Error) -> io::Result<()> {
    let place = format!(in rt.alloc(); "127.0.0.1, port {port}")?;
    tell(rt, place.as_str(), error)
}

// Whether there is no journal.
fn lacks_journal<F: Files<File = File>>(files: &F) -> bool {
    match fs::symlink_metadata(files, JOURNAL) {
        Ok(_) => false,
        Err(error) => error.kind() == ErrorKind::NotFound,
    }
}

// Says that the journal has no domain. The status that the program ends with.
fn refuse_journal<T: Eprint>(rt: &T) -> u8 {
    let _told = eprintln!(rt; "dervlask: {JOURNAL}: no domain: add one by 'dervlask domain NAME'");
    KEEPER_FAULT
}

// How a session came to its end: all that was given is to go out, unless it failed before.
fn finished(served: Served, wire: &mut TcpWire) -> Served {
    match (served, wire.finish()) {
        (Served::Ended | Served::Limit, Err(_)) => Served::WireFault,
        _ => served,
    }
}

// Serves a session over a wire, from the desk that was kept. How it ended, and the desk for the next one.
fn serve_from<T>(
    rt: &T,
    role: Role,
    kept: Option<Desk>,
    wire: &mut TcpWire,
    keeper: &mut FileKeeper<&T>,
) -> Result<(Served, Option<Desk>), OpenFault>
where
    T: Files<File = File> + Clock + Alloc<A = Global>,
    requires { IfSome kept (WorksWithin LIMITS) }
    ensures { IfOk result (λ advance. IfSome advance.1 (WorksWithin LIMITS)) }
{
    let mut clock = SystemClock::new(rt);
    match serve_next(rt.alloc(), role, kept, wire, keeper, &mut clock) {
        Ok(advance) => Ok(advance),
        // Opened anew, a desk may do with less, and what was read of the journal is read once more.
        Err(_) => serve_next(rt.alloc(), role, None, wire, keeper, &mut clock),
    }
}

// Serves a session over a wire, and leaves the desk for the next one. How it ended.
fn serve_wire<T>(
    rt: &T,
    role: Role,
    kept: &mut Option<Desk>,
    wire: &mut TcpWire,
    keeper: &mut FileKeeper<&T>,
) -> Result<Served, OpenFault>
where
    T: Files<File = File> + Clock + Alloc<A = Global>,
    requires { IfSome kept.old (WorksWithin LIMITS) }
    ensures { IfSome kept.new (WorksWithin LIMITS) }
{
    let (served, next) = serve_from(rt, role, kept.take(), wire, keeper)?;
    *kept = next;
    Ok(served)
}

// Serves a connection, and says why it ended if its client didn't end it. It leaves the desk for the next one.
fn serve_stream<T>(
    rt: &T,
    role: Role,
    number: u32,
    stream: TcpStream,
    kept: &mut Option<Desk>,
    keeper: &mut FileKeeper<&T>,
) -> Result<(), OpenFault>
where
    T: Files<File = File> + Clock + Eprint + Alloc<A = Global>,
    requires { IfSome kept.old (WorksWithin LIMITS) }
    ensures { IfSome kept.new (WorksWithin LIMITS) }
{
    let patience = Duration::from_secs(role.patience());
    let mut wire = match TcpWire::new(rt.alloc(), stream, patience) {
        Ok(wire) => wire,
        Err(error) => {
            let _told = tell_connection(rt, number, error);
            return Ok(());
        }
    };
    let served = serve_wire(rt, role, kept, &mut wire, keeper)?;
    let served = finished(served, &mut wire);
    let _told = tell_served(rt, number, served, &wire, keeper);
    Ok(())
}

// The next connection, or none: then it is said why.
fn accepted<T: Eprint + Alloc<A = Global>>(rt: &T, listener: &TcpListener) -> Option<TcpStream> {
    match listener.accept() {
        Ok((stream, _)) => Some(stream),
        Err(error) => {
            let _told = tell(rt, "accepting", error);
            None
        }
    }
}

// Serves so many connections, the first of them from the desk that is kept. The status that the program ends with, or why the desk can't
// be opened.
fn serve_each<T>(
    rt: &T,
    role: Role,
    connections: u32,
    listener: &TcpListener,
    kept: &mut Option<Desk>,
    keeper: &mut FileKeeper<&T>,
) -> Result<u8, OpenFault>
where
    T: Files<File = File> + Clock + Eprint + Alloc<A = Global>,
    requires { IfSome kept.old (WorksWithin LIMITS) }
{
    for number in 1..=connections {
        let Some(stream) = accepted(rt, listener) else {
            return Ok(WIRE_FAULT);
        };
        serve_stream(rt, role, number, stream, kept, keeper)?;
        let _cut = tell_cut(rt, keeper);
        keeper.release();
    }
    Ok(DONE)
}

// The desk, or none where its store has no domain.
fn with_domain(desk: Desk) -> Result<Option<Desk>, OpenFault>
    ensures { IfOk result (λ kept. IfSome kept (λ same. same ≡ desk)) }
{
    match has_domain(&desk) {
        Ok(true) => Ok(Some(desk)),
        Ok(false) => Ok(None),
        Err(_) => Err(OpenFault::Memory),
    }
}

// The desk over the journal, or none where there is no journal or it has no domain. Opening makes one where there is none.
fn open_served<T>(rt: &T, keeper: &mut FileKeeper<&T>) -> Result<Option<Desk>, OpenFault>
where
    T: Files<File = File> + Eprint + Alloc<A = Global>,
    ensures { IfOk result (λ kept. IfSome kept (WorksWithin LIMITS)) }
{
    if lacks_journal(rt) {
        return Ok(None);
    }
    let desk = open_desk(rt.alloc(), keeper, LIMITS)?;
    let _cut = tell_cut(rt, keeper);
    with_domain(desk)
}

// Serves so many connections, the first of them from this desk.
fn serve_from_first<T>(
    rt: &T,
    role: Role,
    connections: u32,
    listener: &TcpListener,
    first: Desk,
    keeper: &mut FileKeeper<&T>,
) -> Result<u8, OpenFault>
where
    T: Files<File = File> + Clock + Eprint + Alloc<A = Global>,
    requires { WorksWithin LIMITS first }
{
    let mut kept = Some(first);
    keeper.release();
    serve_each(rt, role, connections, listener, &mut kept, keeper)
}

// Serves so many connections. The status that the program ends with, or why the desk can't be opened.
fn serve_all<T>(
    rt: &T,
    role: Role,
    connections: u32,
    listener: &TcpListener,
    keeper: &mut FileKeeper<&T>,
) -> Result<u8, OpenFault>
where
    T: Files<File = File> + Clock + Eprint + Alloc<A = Global>,
{
    match open_served(rt, keeper)? {
        Some(first) => serve_from_first(rt, role, connections, listener, first, keeper),
        None => Ok(refuse_journal(rt)),
    }
}

// Serves so many connections by this listener. The status that the program ends with.
fn serve_by<T>(rt: &T, role: Role, connections: u32, listener: &TcpListener) -> u8
where
    T: Files<File = File> + Clock + Input + Print + Eprint + Alloc<A = Global>,
{
    let mut keeper = FileKeeper::new(rt, JOURNAL, CUT);
    match serve_all(rt, role, connections, listener, &mut keeper) {
        Ok(status) => status,
        Err(fault) => {
            let _cut = tell_cut(rt, &mut keeper);
            status_unopened(rt, fault, &keeper)
        }
    }
}

/// Serves so many connections to this port of 127.0.0.1, each by one session of the role, and answers the status that the program ends
/// with. A journal without a domain isn't served from. The journal is this program's alone while a connection is served, and anyone's in between.
pub fn serve<T>(rt: &T, role: Role, port: u16, connections: u32) -> u8
where
    T: Net<Listener = TcpListener, Stream = TcpStream>
        + Files<File = File>
        + Clock
        + Input
        + Print
        + Eprint
        + Alloc<A = Global>,
{
    let listener = match TcpListener::bind(rt, ("127.0.0.1", port)) {
        Ok(listener) => listener,
        Err(error) => {
            let _told = tell_port(rt, port, error);
            return WIRE_FAULT;
        }
    };
    let _told = eprintln!(rt; "dervlask: {} on 127.0.0.1, port {port}", role.word());
    serve_by(rt, role, connections, &listener)
}
