//! The records of a journal: what their texts may be, their one spelling as octets, and reading and writing them.
#![tactic(auto)]

mod addresses;
mod frames;
mod grammar;
pub mod laws;
mod limits;
mod reading;
mod records;
mod stored;
mod versions;
mod writing;

pub use addresses::{
    address_texts, are_addresses, domain_key, is_domain_text, is_path_text, mailbox_key, path_text,
    read_text,
};
pub use frames::{Beginning, FIRST_OCTETS, Frame, beginning_of, frame_of};
pub use grammar::{is_date, is_folder_name, kept_name, may_name_folder};
pub use limits::{NAME_MAX, RECORD_MAX, TEXT_MAX};
pub use reading::{ReadFault, read_record};
pub use records::{Record, Texts};
pub use stored::{StoredOctets, is_stored, mark_in, mark_of};
pub use versions::{Version, is_of_version, version_after};
pub use writing::{
    account_text, domain_text, expunge_text, flags_text, folder_text, message_front, push_record,
    queue_front, record_text,
};
