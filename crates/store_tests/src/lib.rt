//! Journals, stores and the commands that set them up, each module by the public calls of the crate that it is named by.
#![tactic(auto)]

#[cfg(test)]
mod test_journal_records;
#[cfg(test)]
mod test_mail_store;
#[cfg(test)]
mod test_setup_command;
