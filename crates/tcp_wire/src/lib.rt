//! The wire over a connected stream of TCP, and the dial that connects one.
#![tactic(auto)]

mod dial;
mod stream;

pub use dial::TcpDial;
pub use stream::TcpWire;
