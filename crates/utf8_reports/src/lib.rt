//! Reports of failed delivery (RFC 3461, 6; RFC 6522; RFC 3464), also in UTF-8 (RFC 6533).
#![tactic(auto)]

mod addresses;
mod dates;
mod destinations;
mod failure;
mod fields;
pub mod laws;
mod reading;
mod recipients;
mod shown;
mod statuses;
mod writing;

pub use failure::{FailedRecipient, FailedRecipients, Failure, Report, ReportFault};
pub use reading::read_report;
pub use writing::make_report;
