//! What the octets of a client tell.

use crate::command::Command;
use mail_wire::Octets;

/// The greatest size of a message that APPEND may announce.
pub const APPEND_MAX: u32 = 33_554_432;

/// What comes of octets.
#[derive(Debug, Drop)]
pub enum Event {
    /// All octets were used, and nothing is due.
    More,
    /// A literal was announced, and the client waits for leave to send it.
    Go,
    Command { tag: Octets, command: Command },
    /// The octet at this place of the command is the first with which no command begins so. The tag is there where the
    /// command's first line begins with one and a space.
    Bad { tag: Option<Octets>, at: usize },
    /// APPEND announced more octets than a message may have.
    TooLarge { tag: Octets },
    /// More octets came than a command may have.
    TooLong,
}
