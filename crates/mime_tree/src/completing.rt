//! The CRLF that a message's last line may lack.
ghost use Rattle.std.specs.Prelude.{◌≡◌, ◌++◌, ◌∷◌, [], ◌↔◌, ℕ, List, IsTrue, OnOk, OnErr};
ghost use Rattle.mime_tree.specs.Completing.{EndsInCr, IsCompleted};

use mail_wire::{Memory, Octets, is_ended};

// Whether the last octet is a CR.
fn ends_in_cr(octets: &[u8]) -> bool
    ensures { IsTrue result ↔ EndsInCr octets.now }
{
    matches!(octets, [.., b'\r'])
}

/// Ends the last line with CRLF, where it lacks one. A CR at the end is left alone: it is faulty, and stays so.
pub fn complete(octets: &mut Octets) -> Result<(), Memory>
    ensures ok { OnOk result (IsCompleted octets.old octets.new) }
    ensures err { OnErr result (octets.new ≡ octets.old) }
{
    if is_ended(octets.as_slice()) || ends_in_cr(octets.as_slice()) {
        return Ok(());
    }
    octets.push_slice(b"\r\n")
}
