//! One driver for every session: a machine reads what comes next, and the loop, proved once, feeds it a stream in any cut.
#![tactic(auto)]

mod desk;
mod feeding;
mod giving;
pub mod laws;
mod machine;
mod outside;
mod rows;
mod serving;

pub use desk::{Desk, LIMITS, Limits, next_desk, open_desk};
pub use feeding::{Reading, Session, feed};
pub use giving::Giving;
pub use machine::{Advance, Machine};
pub use outside::{Created, Delivered, Outside, Timestamp};
pub use rows::{Framed, Rows, Wants};
pub use serving::{Served, serve};
