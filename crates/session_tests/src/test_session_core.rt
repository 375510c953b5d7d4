//! A toy protocol over the driver, and the calls of the outside, by the public calls of session_core.
mod changing;
mod giving;
mod serving;
