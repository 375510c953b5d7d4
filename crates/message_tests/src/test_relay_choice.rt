//! Tests of relay_choice, by its public calls.
mod client;
mod plan;
mod reply;
