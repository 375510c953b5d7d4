//! The lines of replies (RFC 3501, 7).
ghost use Rattle.std.specs.Prelude.{◌≡◌, ◌++◌, codes, IfOk, OnOk};
ghost use Rattle.mail_wire.specs.Lines.{crlf};
ghost use Rattle.session_core.specs.Doing.{Replies};
ghost use Rattle.session_core.specs.Keeps.{Keeps, fault_of};
ghost use Rattle.imap_session.specs.private.Lines.{tagged_octets};

use mail_wire::{Clock, Fault, Keeper, Memory, Octets, Wire};
use session_core::Outside;
use std::alloc::Global;

pub const DONE: &[u8] = b"OK done";

pub const OUT_OF_ORDER: &[u8] = b"BAD out of order";

pub const NO_SUCH_FOLDER: &[u8] = b"NO no such folder";

pub const NO_SUCH_MESSAGE: &[u8] = b"BAD no such message";

pub const READ_ONLY: &[u8] = b"NO read only";

pub const TOO_LARGE: &[u8] = b"NO too large";

/// Puts the line last that ends the replies of a command.
pub fn push_tagged(text: &mut Octets, tag: &[u8], words: &[u8]) -> Result<(), Memory>
    ensures { OnOk result (text.new ≡ text.old ++ tagged_octets tag.now words.now) }
{
    text.push_slice(tag)?;
    text.push(b' ')?;
    text.push_slice(words)?;
    text.push_slice(b"\r\n")
}

/// Gives these lines, and then the line that ends the replies of a command.
pub fn answer<W: Wire, J: Keeper, C: Clock>(
    mut lines: Octets,
    tag: &[u8],
    words: &[u8],
    outside: &mut Outside<W, J, C>,
) -> Result<(), Fault>
    ensures replies { Replies outside.old outside.new (fault_of result) (lines ++ tagged_octets tag.now words.now) }
    ensures keeps { Keeps outside.old outside.new (fault_of result) }
{
    push_tagged(&mut lines, tag, words)?;
    outside.give(lines.as_slice())
}

/// Gives these lines, whose text is fixed, and then the line that ends the replies of a command.
pub fn answer_text<W: Wire, J: Keeper, C: Clock>(
    lines: &[u8],
    tag: &[u8],
    words: &[u8],
    outside: &mut Outside<W, J, C>,
) -> Result<(), Fault>
    ensures replies { Replies outside.old outside.new (fault_of result) (lines.now ++ tagged_octets tag.now words.now) }
    ensures keeps { Keeps outside.old outside.new (fault_of result) }
{
    let lines = Octets::from_slice(outside.alloc(), lines)?;
    answer(lines, tag, words, outside)
}

/// Gives the line that ends the replies of a command, and no other.
pub fn say<W: Wire, J: Keeper, C: Clock>(
    tag: &[u8],
    words: &[u8],
    outside: &mut Outside<W, J, C>,
) -> Result<(), Fault>
    ensures replies { Replies outside.old outside.new (fault_of result) (tagged_octets tag.now words.now) }
    ensures keeps { Keeps outside.old outside.new (fault_of result) }
{
    answer(Octets::new(outside.alloc()), tag, words, outside)
}
