//! Lines of HTTP that reach a server of another protocol.
#![tactic(auto)]

mod requests;

pub use requests::is_http_request;
