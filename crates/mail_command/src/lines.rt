//! What commands give.
ghost use Rattle.std.specs.Prelude.{◌≡◌, IfOk};
ghost use Rattle.mail_command.specs.Outcome.{refusal_line};

use itoa::Buffer;
use mail_wire::{Memory, Octets};
use std::alloc::Global;

/// The line that tells where a message is refused, and why.
pub fn refusal_line(alloc: Global, at: u64, reason: &[u8]) -> Result<Octets, Memory>
    ensures { IfOk result (λ line. line ≡ refusal_line at reason.now) }
{
    let mut place = Buffer::new();
    let mut line = Octets::from_slice(alloc, b"refused at ")?;
    line.push_slice(place.format(at).as_bytes())?;
    line.push_slice(b": ")?;
    line.push_slice(reason)?;
    line.push_slice(b"\r\n")?;
    Ok(line)
}
