//! Sending queued messages to a next server (RFC 5321): which form each is sent in, what the server's replies mean, and the client.
#![tactic(auto)]

mod client;
mod data;
pub mod laws;
mod mail_objects;
mod making;
mod offers;
mod outcomes;
mod plans;
mod reader;
mod reading;
mod replies;
mod said;
mod states;
mod steps;

pub use client::Turn;
pub use data::push_data;
pub use mail_objects::{
    Act, Acts, MailObject, MailObjects, Outcome, Outcomes, Recipient, Recipients,
};
pub use making::mail_object_of;
pub use offers::{is_completed, is_intermediate, is_permanent, offer_of};
pub use plans::{Demands, Form, Offer, Plan, choose, form_of, needs};
pub use reader::ReplyReader;
pub use reading::Taken;
pub use replies::{REPLY_LINE_MAX, REPLY_LINES, Reply, ReplyRead, Texts, read_reply};
pub use states::Client;
