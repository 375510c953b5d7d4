//! A connected stream as a wire. It tells nothing of what it carries, and counts its failures.
ghost use Rattle.std.specs.Prelude.{◌≡◌, ◌<◌};
ghost use Rattle.std.specs.Duration.{as_nanos};
ghost use Rattle.mail_wire.specs.Causes.{HasCause};

use mail_wire::{Failed, StdWire, Wire, WireFailure};
use std::alloc::Global;
use std::io::{self, BufWriter};
use std::net::TcpStream;
use std::time::Duration;

// The most octets that are given before some go out.
const GIVEN: usize = 65_536;

/// A connected stream as a wire. What is given goes out before more is taken, and by `finish`. A call that waits longer than its
/// patience has failed.
#[derive(Drop)]
pub struct TcpWire {
    sides: StdWire<TcpStream, BufWriter<TcpStream>>,
}

impl TcpWire {
    /// The stream as a wire, or why the system doesn't let it be one.
    pub fn new(alloc: Global, stream: TcpStream, patience: Duration) -> io::Result<Self>
        requires { 0 < as_nanos patience }
    {
        stream.set_nodelay(true)?;
        stream.set_read_timeout(Some(patience))?;
        stream.set_write_timeout(Some(patience))?;
        let output = BufWriter::with_capacity(alloc, GIVEN, stream.try_clone()?)?;
        Ok(TcpWire {
            sides: StdWire::new(stream, output),
        })
    }

    /// Lets all that was given go out. The last call of a wire.
    pub fn finish(&mut self) -> Result<(), Failed>
        ensures { HasCause (⟦<TcpWire as Wire>⟧.observed self.old).faults (⟦<TcpWire as Wire>⟧.observed self.new).faults result }
    {
        self.sides.finish()
    }

    /// Why the last call that failed did.
    pub fn failure(&self) -> Option<WireFailure>
        ensures { result ≡ self.now.sides.faults.last }
    {
        self.sides.failure()
    }
}

impl Wire for TcpWire {
    ghost observed = { λ wire. ⟦<StdWire<TcpStream, BufWriter<TcpStream>> as Wire>⟧.observed wire.sides };

    fn take(&mut self, into: &mut [u8]) -> Result<usize, Failed> {
        self.sides.take(into)
    }

    fn give(&mut self, from: &[u8]) -> Result<(), Failed> {
        self.sides.give(from)
    }
}
