//! A pool of blocks: octets are put and given back in memory that was reserved at once.
#![tactic(auto)]

mod chains;
mod pool;

pub use chains::needed;
pub use pool::{BLOCKS_MAX, Pool};
