//! Sessions over wires and keepers in memory, each module by the public calls of the crate that it is named by; and a toy protocol over
//! the driver: lines are echoed, `{n}` at a line's end announces a literal of n octets, one to nine, and `QUIT` ends the session.
#![tactic(auto)]

mod echo;
#[cfg(test)]
mod test_pop_session;
#[cfg(test)]
mod test_relay_session;
#[cfg(test)]
mod test_session_core;
#[cfg(test)]
mod test_smtp_grammar;
#[cfg(test)]
mod test_smtp_session;

pub use echo::Echo;
