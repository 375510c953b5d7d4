//! The wire over standard input and output. It tells nothing of what it carries, and counts its failures.
ghost use Rattle.std.specs.Prelude.{◌≡◌, ◌≤◌, None, false, length, IfOk};
ghost use Rattle.mail_wire.specs.Causes.{HasCause};

use crate::faults::Faults;
use crate::outside::{Failed, Wire};
use std::io::{self, ErrorKind, Read, Write};

// Reads once, and again where a signal came in between.
fn read_some<R: Read>(reader: &mut R, into: &mut [u8]) -> io::Result<usize>
    ensures { IfOk result (λ n. n ≤ length into.new) }
{
    for _ in 0..u64::MAX {
        match reader.read(into) {
            Ok(count) => return Ok(count),
            Err(error) if error.kind() == ErrorKind::Interrupted => {}
            Err(error) => return Err(error),
        }
    }
    Err(io::Error::from(ErrorKind::Interrupted))
}

/// Which side of a wire failed, and why.
#[derive(Clone, Copy)]
pub enum WireFailure {
    Input(io::Error),
    Output(io::Error),
}

// Reads once all that was written has gone out.
fn read_after<R: Read, W: Write>(
    reader: &mut R,
    writer: &mut W,
    into: &mut [u8],
) -> Result<usize, WireFailure>
    ensures { IfOk result (λ n. n ≤ length into.new) }
{
    writer.flush().map_err(|error| WireFailure::Output(error))?;
    read_some(reader, into).map_err(|error| WireFailure::Input(error))
}

/// A reader and a writer as a wire. What is given may wait in the writer: it goes out before more is taken, and by `finish`.
#[derive(Drop)]
pub struct StdWire<R, W> {
    reader: R,
    writer: W,
    faults: Faults<WireFailure>,
}

impl<R: Read, W: Write> StdWire<R, W> {
    /// A wire over these sides, which hasn't failed yet.
    pub fn new(reader: R, writer: W) -> Self
        ensures reader { result.reader ≡ reader }
        ensures writer { result.writer ≡ writer }
        ensures count { result.faults.count ≡ 0 }
        ensures failure { result.faults.last ≡ None }
    {
        StdWire {
            reader,
            writer,
            faults: Faults::none(),
        }
    }

    /// Lets all that was given go out. The last call of a wire.
    pub fn finish(&mut self) -> Result<(), Failed>
        ensures { HasCause self.old.faults.count self.new.faults.count result }
    {
        let done = self.writer.flush();
        self.faults
            .counted(done.map_err(|error| WireFailure::Output(error)))
    }

    /// Why the last call that failed did.
    pub fn failure(&self) -> Option<WireFailure>
        ensures { result ≡ self.now.faults.last }
    {
        self.faults.last
    }
}

impl<R: Read, W: Write> Wire for StdWire<R, W> {
    ghost observed = { λ wire. record { left = None; transcript = None; faults = wire.faults.count; never_fails = false } };

    fn take(&mut self, into: &mut [u8]) -> Result<usize, Failed> {
        let done = read_after(&mut self.reader, &mut self.writer, into);
        self.faults.counted(done)
    }

    fn give(&mut self, from: &[u8]) -> Result<(), Failed> {
        let done = self.writer.write_all(from);
        self.faults
            .counted(done.map_err(|error| WireFailure::Output(error)))
    }
}
