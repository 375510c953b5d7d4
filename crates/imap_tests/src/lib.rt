//! The words, commands, mailboxes and views of IMAP, each module by the public calls of the crate that it is named by.
#![tactic(auto)]

#[cfg(test)]
mod test_imap_grammar;
#[cfg(test)]
mod test_imap_mailboxes;
#[cfg(test)]
mod test_imap_views;
#[cfg(test)]
mod test_imap_words;
