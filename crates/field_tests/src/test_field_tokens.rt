//! The worked rows of field_tokens, by its public calls.
mod comments;
mod tokens;
