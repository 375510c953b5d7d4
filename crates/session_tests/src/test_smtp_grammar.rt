//! Tests of smtp_grammar, by its public calls.
mod command;
mod data;
