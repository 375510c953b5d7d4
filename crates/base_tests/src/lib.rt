//! Wires, texts, the file of a journal, lines of HTTP, pools of blocks, connections, fields and encoded words, each module by the public calls of the crate that it is named by.
#![tactic(auto)]

#[cfg(test)]
mod test_block_pool;
#[cfg(test)]
mod test_encoded_words;
#[cfg(test)]
mod test_http_lines;
#[cfg(test)]
mod test_journal_file;
#[cfg(test)]
mod test_mail_wire;
#[cfg(test)]
mod test_tcp_wire;
#[cfg(test)]
mod test_utf8_fields;
