//! Names, patterns, sets and flags of mailboxes, by the public calls of imap_mailboxes.
mod flags;
mod names;
mod patterns;
mod sets;
