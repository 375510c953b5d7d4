//! The worked rows of param_grammar, by its public calls.
mod bodies;
mod reading;
mod values;
