//! Parameters of Content-Type and Content-Disposition in ASCII (RFC 2231; RFC 6857, 3.2).
#![tactic(auto)]

mod global_types;
pub mod laws;
mod rewriting;
mod writing;

pub use global_types::find_global;
pub use rewriting::rewrite_params;
pub use writing::write_param;
