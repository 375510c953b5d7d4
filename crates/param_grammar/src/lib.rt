//! The grammar of parameters of Content-Type and Content-Disposition (RFC 2045, 5.1; RFC 2231).
#![tactic(auto)]

mod bodies;
mod contents;
mod escapes;
mod extended;
mod joining;
mod names;
mod names_order;
mod numbers;
mod places;
mod reading;
mod role;
mod tokens;

pub use bodies::{read_body, read_parts};
pub use contents::{inner, unquoted};
use encoded_words::Unit;
pub use escapes::{escaped_len, push_escaped, read_escaped};
pub use extended::{split_extended, unit_of};
use field_tokens::Comment;
use mail_wire::{Items, Octets};
pub use names::{Name, read_name};
pub use numbers::number_below;
pub use places::{Place, base_at, piece_at, push_written};
pub use reading::read_params;
pub use role::{Placed, Role, place_pieces};
pub use tokens::{Tokens, next_solid};

/// Which of the two fields with parameters.
#[derive(Clone, Copy, Debug, PartialEq, Eq)]
pub enum ParamKind {
    /// Content-Type
    Content,
    /// Content-Disposition
    Disposition,
}

/// A parameter, or a piece of one.
#[derive(Drop)]
pub struct Piece {
    /// Its name without stars and number, in lower case.
    pub base: Octets,
    /// The digits of its number, where it is a piece.
    pub number: Option<Octets>,
    /// The charset that its value gives, as it is written, and nothing where it gives none.
    pub charset: Octets,
    /// The octets of its value.
    pub octets: Octets,
    /// Its name, `=` and its value as they are written.
    pub written: Octets,
}

/// A parameter: its name in lower case, and what it says.
#[derive(Drop)]
pub struct Param {
    pub name: Octets,
    pub value: Unit,
}

/// Parameters, in the order of their first pieces.
pub type ParamList = Items<Param>;

/// What a field with parameters says.
#[derive(Drop)]
pub struct Params {
    /// The main part in lower case.
    pub main: Octets,
    pub list: ParamList,
    /// The comments, in the order of their places.
    pub comments: Vec<Comment>,
}

/// The body of a field with parameters.
#[derive(Drop)]
pub struct Body {
    /// The main part in lower case.
    pub main: Octets,
    pub placed: Placed,
}

/// Why a text was not read.
#[derive(Clone, Copy, Debug, PartialEq, Eq)]
pub enum ParamFault {
    Malformed,
    Memory,
}
