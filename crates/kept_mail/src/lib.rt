//! What a mail store keeps of domains, accounts, folders and messages, how one record changes it, and the indexes that find
//! it again.
#![tactic(auto)]

mod accounts;
mod batches;
mod checks;
mod contents;
mod delivery;
mod folders;
mod kept;
mod limits;
mod messages;
mod names;

pub use accounts::{has_password, put_account, reserve_account};
pub use batches::{
    Batch, is_for_nobody, parts_of, put_batch, put_entry, reserve_delivery, settle_at, waiting_of,
};
pub use checks::{
    account_fits, are_live, are_too_many, has_room, is_live, is_unsettled, message_fits,
};
pub use contents::{Content, push_reserved, put_message};
pub use delivery::{Addresses, Delivery, has_large_octets};
pub use folders::{folder_key, names_among, put_folder, reserve_folder};
pub use kept::{
    Account, Entry, Folder, Listed, Message, Numbers, Recipient, Recipients, waiting_entry,
};
pub use limits::{MESSAGE_MAX, RECIPIENTS_MAX, THINGS_MAX, limits_are_these};
pub use messages::{list_back, put_flags, take_away};
pub use names::{number_of, put_first, take_back};
