//! How a run of the relay ends.
ghost use Rattle.std.specs.Prelude.{◌≡◌};

use mail_wire::Octets;

/// Why recipients were left.
#[derive(Debug, Drop)]
pub enum LeftCause {
    /// The next server couldn't be reached.
    Dial,
    /// The wire to it failed.
    Wire,
    /// These octets came where a reply was awaited: a reply that stops the run, the least octets that begin none, or all that
    /// came of one before the input ended.
    Reply(Octets),
}

/// What came of the queue: how many recipients a message was sent to, how many reports were made that have somebody to go to, how
/// many recipients are left, and why.
#[derive(Debug, Drop)]
pub struct RelayEnd {
    pub sent: u32,
    pub reported: u32,
    pub left: u32,
    pub cause: Option<LeftCause>,
}

/// What was done so far.
#[derive(Clone, Copy, Debug, PartialEq, Eq)]
pub struct Tally {
    pub sent: u32,
    pub reported: u32,
    pub left: u32,
}

impl Tally {
    /// Before a run, with so many recipients in the queue.
    pub fn before(left: u32) -> Self
        ensures { result ≡ record { sent = 0; reported = 0; left = left } }
    {
        Tally {
            sent: 0,
            reported: 0,
            left,
        }
    }

    /// The end of a run that did so much.
    pub fn end(self, cause: Option<LeftCause>) -> RelayEnd
        ensures { result ≡ record { sent = self.sent; reported = self.reported; left = self.left; cause = cause } }
    {
        RelayEnd {
            sent: self.sent,
            reported: self.reported,
            left: self.left,
            cause,
        }
    }
}
