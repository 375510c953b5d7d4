//! The worked rows of field_downgrade, by its public calls.
mod fields;
mod plain;
mod received;
mod rows;
mod typed;
