//! Where a reader stops.

/// Why a word was not read.
#[derive(Clone, Copy, Debug, PartialEq, Eq)]
pub enum Stop {
    /// The text ended, and it can go on as such a word.
    More,
    /// An octet came with which no such word begins. So many octets of the text are left there, that octet the first.
    Bad(usize),
    /// Memory was wanting.
    Memory,
}
