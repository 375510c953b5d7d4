//! Words of IMAP and mailbox names, by the public calls of imap_words.
mod dates;
mod names;
mod reading;
