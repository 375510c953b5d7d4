//! Queued messages, and what a client does with them.
use crate::plans::{Demands, Form};
use address_grammar::Address;
use mail_wire::{Items, Octets};

/// A recipient, and the form of his address.
#[derive(Debug, Drop)]
pub struct Recipient {
    pub address: Address,
    pub form: Form,
}

pub type Recipients = Items<Recipient>;

/// All of a queued message but its octets: the path that it came from, none for the null path, what it asks for, and the recipients for
/// whom it waits.
#[derive(Debug, Drop)]
pub struct MailObject {
    pub path: Option<Address>,
    pub demands: Demands,
    pub recipients: Recipients,
}

pub type MailObjects = Items<MailObject>;

/// What came of a recipient.
#[derive(Clone, Copy, Debug, PartialEq, Eq)]
pub enum Outcome {
    /// The mail object was sent to him.
    Sent,
    /// He failed: with the status 5.6 and this detail, or 5.0.0 where that is 0, and with the code of the reply that refused him.
    Refused { detail: u8, code: Option<u16> },
}

pub type Outcomes = Items<Outcome>;

/// What a client does.
#[derive(Debug, Drop)]
pub enum Act {
    /// Gives these octets.
    Say(Octets),
    /// Gives the data of the mail object of this number.
    SayData(usize),
    /// Is done with the mail object of this number: what came of its recipients, in order.
    Settle(usize, Outcomes),
}

pub type Acts = Items<Act>;
