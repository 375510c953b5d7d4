//! Which reports on delivery a sender asks for (RFC 3461): the parameters RET and ENVID of MAIL, NOTIFY and ORCPT of RCPT,
//! also with internationalized addresses (RFC 6533).
#![tactic(auto)]

mod keeping;
pub mod laws;
mod mail_terms;
mod outcomes;
mod parameters;
mod recipient_terms;
mod writing;
mod xtext;

pub use keeping::{can_keep_envid, can_keep_orcpt};
pub use mail_terms::read_mail_terms;
use mail_wire::Octets;
pub use outcomes::owed;
pub use recipient_terms::read_rcpt_terms;
pub use writing::{write_mail_terms, write_rcpt_terms};

/// The sender wants to hear that its mail was delivered.
pub const SUCCESS: u8 = 1;
/// The sender wants to hear that its mail couldn't be delivered.
pub const FAILURE: u8 = 2;
/// The sender wants to hear that its mail is late.
pub const DELAY: u8 = 4;
/// The mail was delivered here. No client can ask for this.
pub const DELIVERED_HERE: u8 = 8;

/// What a sender asks for a message.
#[derive(Drop)]
pub struct Terms {
    /// The sender's identifier of this message, or nothing.
    pub envid: Octets,
    /// Whether a report of a failure carries the whole message.
    pub full: bool,
}

/// What a sender asks for a recipient.
#[derive(Drop)]
pub struct Asked {
    /// The reports that it wants: a sum of `SUCCESS`, `FAILURE`, `DELAY` and `DELIVERED_HERE`.
    pub notify: u8,
    /// The recipient as the sender first wrote it, `rfc822;` or `utf-8;` and an address, or nothing.
    pub orcpt: Octets,
}

/// What became of a recipient.
#[derive(Clone, Copy, Debug, PartialEq, Eq)]
pub enum Outcome {
    Failed,
    /// The mail was sent to a server that doesn't give reports.
    Relayed,
    Delivered,
}
