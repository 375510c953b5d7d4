//! Failures, and what a report says of one.
ghost use Rattle.std.specs.Prelude.{◌≡◌};
ghost use Rattle.utf8_reports.specs.declared.failure.ReportFault.TheVariants.{Memory};

use address_grammar::Address;
use mail_wire::{Items, Memory as OutOfMemory, Octets};

/// A recipient that a message couldn't be brought to: the address as it was accepted, a status such as `5.0.0` (RFC 3463),
/// and the code that the next server answered, where one is kept.
#[derive(Debug, Drop)]
pub struct FailedRecipient {
    pub address: Address,
    pub status: Octets,
    pub code: Option<u16>,
}

/// A list of such recipients.
pub type FailedRecipients = Items<FailedRecipient>;

/// A failure of which the sender is told: the path of the message, the name of the server that tells it, the recipients and
/// the moment.
#[derive(Debug, Drop)]
pub struct Failure {
    pub path: Address,
    pub name: Octets,
    pub failed: FailedRecipients,
    pub seconds: u64,
}

/// What a report says: whether it is in UTF-8, and which recipients failed.
#[derive(Debug, Drop)]
pub struct Report {
    pub global: bool,
    pub failed: FailedRecipients,
}

/// Why octets weren't read as a report.
#[derive(Clone, Copy, Debug, PartialEq, Eq)]
pub enum ReportFault {
    NotReport,
    Memory,
}

impl From<OutOfMemory> for ReportFault {
    ghost from_gives = { λ _ fault. fault ≡ Memory };

    fn from(_memory: OutOfMemory) -> ReportFault {
        ReportFault::Memory
    }
}
