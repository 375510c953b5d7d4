//! The grammar of SMTP: commands with their paths and parameters (RFC 5321, 4.1; RFC 6531, 3.4), and the data of a message
//! (RFC 5321, 4.5.2).
#![tactic(auto)]

mod command;
mod data;
pub mod laws;

pub use command::{
    Command, Parameters, PathAndRest, Verb, is_client, path_after, read_command, read_parameters,
};
pub use data::DataReader;
