//! SMTP sessions over a wire (RFC 5321), which take mail in people's own scripts (RFC 6531).
#![tactic(auto)]

pub mod laws;
mod loops;
mod rows;
mod session;
mod states;
mod trace;

pub use session::{SmtpMachine, SmtpSession, serve_smtp};
pub use trace::{received_field, return_path_field};
