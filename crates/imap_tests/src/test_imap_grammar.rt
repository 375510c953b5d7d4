//! Commands of IMAP from octets in pieces, by the public calls of imap_grammar.
mod commands;
mod limits;
mod spelling;
mod telling;
