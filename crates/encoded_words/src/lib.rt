//! Encoded words (RFC 2047), and the units of a text: what the text says once its encoded words are decoded.
#![tactic(auto)]

mod comments;
mod contexts;
pub mod laws;
mod units;
mod word;
mod writing;
mod written_words;

pub use comments::{read_comment, rewrite_comment};
pub use contexts::read_units;
use mail_wire::Octets;
pub use units::{Merging, read_unstructured};
pub use word::{are_name_octets, hex_value, lower_case, names_text, read_word, split_at_byte};
pub use writing::{push_line, write_units};
pub use written_words::{push_words, write_words};

/// A piece of what a text says: text, or octets of a charset that is not read, with the encoded word that they come from.
#[derive(Drop)]
pub enum Unit {
    Text(Octets),
    Opaque {
        charset: Octets,
        octets: Octets,
        source: Octets,
    },
}

/// Where a text stands.
#[derive(Clone, Copy)]
pub enum Context {
    /// The value of an unstructured field, unfolded (RFC 5322, 2.2.1).
    Unstructured,
    /// What stands in a comment between two parentheses (RFC 5322, 3.2.2).
    Comment,
}
