//! What FETCH tells of a message beside its octets (RFC 3501, 7.4.2): envelopes, structures and fields chosen by name.
#![tactic(auto)]

mod addresses;
mod chosen;
mod envelopes;
mod headers;
pub mod laws;
mod params;
mod parts;
mod phrases;
mod ranges;
mod strings;
mod structures;

pub use chosen::chosen_fields;
pub use envelopes::envelope;
pub use ranges::read_range;
pub use structures::structure;
