//! The dial of a server over TCP.
ghost use Rattle.std.specs.Prelude.{None, false, ◌≡◌};

use crate::stream::TcpWire;
use mail_wire::{Dial, Failed, Faults, WireFailure};
use std::alloc::Global;
use std::io::{self, ErrorKind};
use std::net::{Net, TcpStream};
use std::time::Duration;

// The port of SMTP (RFC 5321, 4.5.4.2).
const SMTP_PORT: u16 = 25;

// The longest that a client should wait for any reply (RFC 5321, 4.5.3.2), in seconds.
const PATIENCE: u64 = 600;

// The port of this text.
fn read_port(port: &str) -> io::Result<u16> {
    port.parse()
        .map_err(|_| io::Error::from(ErrorKind::InvalidInput))
}

// The host and the port of `host`, `host:port`, `[address]` or `[address]:port`. What has more colons and no brackets is an
// address of IPv6.
fn read_place(place: &str) -> io::Result<(&str, u16)> {
    if let Some(bracketed) = place.strip_prefix('[') {
        let Some((host, rest)) = bracketed.split_once(']') else {
            return Err(io::Error::from(ErrorKind::InvalidInput));
        };
        return match rest.strip_prefix(':') {
            Some(port) => Ok((host, read_port(port)?)),
            None if rest.is_empty() => Ok((host, SMTP_PORT)),
            None => Err(io::Error::from(ErrorKind::InvalidInput)),
        };
    }
    match place.split_once(':') {
        Some((host, port)) if !port.contains(':') => Ok((host, read_port(port)?)),
        _ => Ok((place, SMTP_PORT)),
    }
}

fn connect<N: Net<Stream = TcpStream>>(alloc: Global, net: &N, place: &str) -> io::Result<TcpWire> {
    let stream = TcpStream::connect(net, read_place(place)?)?;
    TcpWire::new(alloc, stream, Duration::from_secs(PATIENCE))
}

/// Connects to servers by TCP. A server is named by its host, or by its host and its port as in `host:port`; the port of SMTP is taken
/// where none is named. Each address of the host is tried. It tells nothing of its connections, and counts its failures.
#[derive(Drop)]
pub struct TcpDial<N> {
    alloc: Global,
    net: N,
    faults: Faults<io::Error>,
    handed_back: Option<WireFailure>,
}

impl<N> TcpDial<N> {
    /// A dial that has failed at nothing.
    pub fn new(alloc: Global, net: N) -> Self
        ensures net { result.net ≡ net }
        ensures count { result.faults.count ≡ 0 }
        ensures failure { result.faults.last ≡ None }
        ensures wire_failure { result.handed_back ≡ None }
    {
        TcpDial {
            alloc,
            net,
            faults: Faults::none(),
            handed_back: None,
        }
    }

    /// Why the last connection that couldn't be made wasn't.
    pub fn failure(&self) -> Option<io::Error>
        ensures { result ≡ self.now.faults.last }
    {
        self.faults.last
    }

    /// Why the last call of the connection that was handed back last failed, where one did.
    pub fn wire_failure(&self) -> Option<WireFailure>
        ensures { result ≡ self.now.handed_back }
    {
        self.handed_back
    }
}

impl<N: Net<Stream = TcpStream>> Dial for TcpDial<N> {
    type Conn = TcpWire;

    ghost observed = { λ dial. record { sends = None; server_never_fails = false; transcript = None; asked = None; faults = dial.faults.count } };

    fn dial(&mut self, host: &str) -> Result<TcpWire, Failed> {
        match connect(self.alloc, &self.net, host) {
            Err(error) if error.kind() == ErrorKind::OutOfMemory => Err(Failed::Memory),
            connected => self.faults.counted(connected),
        }
    }

    fn hand_back(&mut self, mut conn: TcpWire) {
        let _given = conn.finish();
        self.handed_back = conn.failure();
    }
}
