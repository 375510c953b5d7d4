//! What a client keeps.
ghost use Rattle.std.specs.List.{All};
ghost use Rattle.relay_choice.specs.MailObjects.{IsAddressed};
ghost use Rattle.relay_choice.specs.Within.{HasItsMailObject};

use crate::mail_objects::MailObjects;
use crate::plans::Offer;
use mail_wire::{Items, Octets};
use std::alloc::Global;

// What the next reply answers:
//
//   Greeting -> Ehlo -> Mail -> Rcpt .. Rcpt -> Data -> End -> the next mail object's Mail, or QUIT
//                         |             |         |
//                         +-> Reset <---+         +-> the next mail object's Mail, or QUIT
//                               |
//                               +-> the next mail object's Mail, or QUIT
#[derive(Clone, Copy, Debug, PartialEq, Eq)]
pub enum Awaited {
    Greeting,
    Ehlo,
    Mail,
    /// RCPT for the recipient before this place.
    Rcpt(usize),
    Data,
    /// The end of the data.
    End,
    Reset,
}

/// A client that awaits a reply.
#[derive(Debug, Drop)]
pub struct Client {
    pub alloc: Global,
    pub name: Octets,
    pub mail_objects: MailObjects,
    // The number of the mail object that it is at.
    pub at: usize,
    pub offer: Offer,
    pub awaited: Awaited,
    // The codes of the answers to RCPT, or of the one to MAIL for each recipient, where that refused them.
    pub answers: Items<u16>,
    ghost within: { HasItsMailObject awaited at mail_objects },
    ghost addressed: { All IsAddressed mail_objects },
}
