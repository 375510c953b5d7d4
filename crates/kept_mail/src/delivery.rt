//! A message that is to be kept, and for whom.
ghost use Rattle.std.specs.Prelude.{◌≡◌};
ghost use Rattle.kept_mail.specs.Deliveries.{has_large_octets as has_large_octets_of};

use crate::kept::Numbers;
use address_grammar::Address;
use mail_wire::{Items, Octets};

/// A list of addresses.
pub type Addresses = Items<Address>;

/// A message that came from a path: what is kept of it for local accounts, and what waits for remote recipients. Without a
/// path it came from the null path. Octets come with their marks.
#[derive(Debug, Drop)]
pub struct Delivery {
    pub path: Option<Address>,
    pub local: Numbers,
    pub local_octets: Octets,
    pub local_mark: u8,
    pub remote: Addresses,
    pub remote_octets: Octets,
    pub remote_mark: u8,
    /// A date-time (RFC 3501), such as `01-Jan-1970 00:00:00 +0000`.
    pub date: Octets,
}

/// Whether the octets for the local accounts, or those for the remote recipients, are more than the limit. Octets that nobody
/// is to have don't count.
pub fn has_large_octets(delivery: &Delivery, message_max: u32) -> bool
    ensures { result ≡ has_large_octets_of message_max delivery.now }
{
    (delivery.local.len() > 0 && delivery.local_octets.len() > message_max as usize)
        || (delivery.remote.len() > 0 && delivery.remote_octets.len() > message_max as usize)
}
