//! Fields that keep a value under a `Downgraded-` name (RFC 6857, 3.1), and the text forms of internationalized
//! addresses in reports (RFC 6533, 3).
#![tactic(auto)]

pub mod address_forms;
pub mod downgraded;
pub mod laws;
pub mod xtext;

pub use address_forms::{unitext_of, xtext_of};
pub use downgraded::encapsulate;
pub use xtext::read_xtext;
