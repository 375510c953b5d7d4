//! Header blocks whose fields are UTF-8.
#![tactic(auto)]

mod block;
pub mod laws;
mod parts;
mod reading;
mod values;

pub use block::{Block, Field, FieldFault, Fields};
pub use parts::{Parts, split_ending, split_field};
pub use reading::{read_block, read_block_at, write_block};
pub use values::{line_value, trim, value_of};
