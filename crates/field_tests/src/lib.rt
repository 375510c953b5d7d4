//! The grammars of fields and how each is rewritten, each module by the public calls of the crate that it is named by.
#![tactic(auto)]

#[cfg(test)]
mod lines;
#[cfg(test)]
mod test_ace_domains;
#[cfg(test)]
mod test_address_grammar;
#[cfg(test)]
mod test_address_lists;
#[cfg(test)]
mod test_dsn_terms;
#[cfg(test)]
mod test_encapsulated_fields;
#[cfg(test)]
mod test_field_downgrade;
#[cfg(test)]
mod test_field_tokens;
#[cfg(test)]
mod test_param_2231;
#[cfg(test)]
mod test_param_grammar;
