//! The tokens of a structured field's text (RFC 5322, 3.2; RFC 2045, 5.1), and its comments as trees.
#![tactic(auto)]

mod comments;
mod groups;
mod kinds;
pub mod laws;
mod lexemes;
mod places;
mod reading;
mod squeezing;
mod trees;

pub use comments::{write_comment, write_comments};
pub use kinds::{is_blank, is_comment};
pub use lexemes::{Lexeme, Lexemes, Mark, read_marks};
use mail_wire::Span;
pub use reading::{first_token, is_atom_octet, read_tokens, tokens};
pub use squeezing::squeezed;
pub use trees::comment_tree;

/// How a text is cut into tokens: as addresses are (RFC 5322), or as parameters are (RFC 2045).
#[derive(Clone, Copy, PartialEq, Eq)]
pub enum Style {
    Mail,
    Mime,
}

#[derive(Clone, Copy, PartialEq, Eq)]
pub enum TokenKind {
    Atom,
    Quoted,
    Literal,
    Special,
    Gap,
    Comment,
}

/// A token of a text: what it is, and where its octets stand.
#[derive(Clone, Copy, PartialEq, Eq)]
pub struct Token {
    pub kind: TokenKind,
    pub span: Span,
}

/// Why a text was not cut into tokens.
#[derive(Clone, Copy, PartialEq, Eq)]
pub enum TokenFault {
    Malformed,
    Memory,
}

/// What stands in a comment: text without the white at its ends, or a comment.
#[derive(Drop)]
#[cycle(comments)]
pub enum Item {
    Run(Span),
    Nested(Comment),
}

/// What stands between two parentheses.
#[derive(Drop)]
#[cycle(comments)]
pub struct Comment {
    pub items: Vec<Item>,
}
