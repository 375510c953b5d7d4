//! POP3 sessions over a wire (RFC 1939), legacy ones and those that asked for UTF-8 (RFC 6856).
#![tactic(auto)]

mod command;
pub mod laws;
mod replies;
mod session;
mod states;
mod stuffing;
mod top;

pub use session::{PopSession, serve_pop};
pub use states::PopState;
pub use stuffing::give_dotted;
