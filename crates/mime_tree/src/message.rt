//! Messages: octets without NUL, and with CR and LF only as CRLF.
ghost use Rattle.std.specs.Prelude.{MatchResult};
ghost use Rattle.mail_wire.specs.Message.{IsSound, IsFaulty};
ghost use Rattle.mime_tree.specs.Faults.{IsFaultAt, IsOctetFault};

use crate::entity::TreeFault;
use mail_wire::first_faulty;

// What is wrong with the octet that stands there.
fn fault_at(octets: &[u8], at: usize) -> TreeFault
    requires { IsFaulty octets.now at }
    ensures { IsFaultAt octets.now at result }
{
    match octets.get(at) {
        Some(0) => TreeFault::Nul { at },
        Some(b'\r') => TreeFault::BareCr { at },
        _ => TreeFault::BareLf { at },
    }
}

/// Tests the octets, and tells the first faulty one.
pub fn check_message(octets: &[u8]) -> Result<(), TreeFault>
    ensures { MatchResult result (λ _. IsSound octets.now) (IsOctetFault octets.now) }
{
    match first_faulty(octets) {
        None => Ok(()),
        Some(at) => Err(fault_at(octets, at)),
    }
}
