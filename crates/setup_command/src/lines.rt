//! Lines that commands give.
ghost use Rattle.std.specs.Prelude.{◌≡◌, IfOk};
ghost use Rattle.setup_command.specs.Running.{place_line};

use itoa::Buffer;
use mail_wire::{Memory, Octets};
use std::alloc::Global;

/// A text, a place, and the end of the line.
pub fn place_line(alloc: Global, text: &[u8], at: u64) -> Result<Octets, Memory>
    ensures { IfOk result (λ line. line ≡ place_line text.now at) }
{
    let mut place = Buffer::new();
    let mut line = Octets::from_slice(alloc, text)?;
    line.push_slice(place.format(at).as_bytes())?;
    line.push_slice(b"\r\n")?;
    Ok(line)
}
