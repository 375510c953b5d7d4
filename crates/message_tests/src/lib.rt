//! Trees, surrogates, reports and what a next server is sent, each module by the public calls of the crate that it is named by.
#![tactic(auto)]

#[cfg(test)]
mod test_mime_tree;
#[cfg(test)]
mod test_relay_choice;
#[cfg(test)]
mod test_surrogate_cache;
#[cfg(test)]
mod test_surrogate_rope;
#[cfg(test)]
mod test_utf8_reports;
