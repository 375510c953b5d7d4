//! What is kept of a reply.
ghost use Rattle.relay_choice.specs.private.Places.{IsPlaceIn};

use crate::steps::Place;
use mail_wire::Octets;

/// The front of a reply, as far as it came.
#[derive(Debug, Drop)]
pub struct ReplyReader {
    pub octets: Octets,
    pub place: Place,
    ghost place_is: { IsPlaceIn octets place },
}
