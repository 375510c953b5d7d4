//! Mailbox names in commands and replies (RFC 3501, 5.1; RFC 6855, 3).
ghost use Rattle.std.specs.Prelude.{◌≡◌, ◌++◌, ℕ, List, Option, IfOk, OnOk, IfSome, IfNone, IsUtf8, false, true, option_map, string_bytes};
ghost use Rattle.std.specs.List.{list_all};
ghost use Rattle.mail_wire.specs.Octets.{is_ascii};
ghost use Rattle.imap_mailboxes.specs.Names.{quoted, in_quotes, shown_name as name_shown, NamesMailbox};

use imap_words::{read_mutf7, write_mutf7};
use mail_wire::{Memory, Octets};
use std::alloc::Global;

fn push_in_quotes(text: &mut Octets, octet: u8) -> Result<(), Memory>
    ensures { OnOk result (text.new ≡ text.old ++ in_quotes octet) }
{
    if octet == b'"' || octet == b'\\' {
        text.push(b'\\')?;
    }
    text.push(octet)
}

/// The octets as a quoted string, as replies have the names of mailboxes.
pub fn quote(alloc: Global, octets: &[u8]) -> Result<Octets, Memory>
    ensures { IfOk result (λ text. text ≡ quoted octets.now) }
{
    let mut text = Octets::new(alloc);
    text.push(b'"')?;
    for octet in octets {
        push_in_quotes(&mut text, *octet)?;
    }
    text.push(b'"')?;
    Ok(text)
}

/// The name as a session shows it: in modified UTF-7, or as it is where the client enabled UTF8=ACCEPT.
pub fn shown_name(alloc: Global, enabled: bool, name: &str) -> Result<Octets, Memory>
    ensures form { IfOk result (λ text. text ≡ name_shown enabled name.now) }
    ensures ascii { enabled ≡ false → IfOk result (λ text. list_all is_ascii text ≡ true) }
{
    if enabled {
        return Octets::from_slice(alloc, name.as_bytes());
    }
    write_mutf7(alloc, name)
}

// The octets as a name, where they are UTF-8.
fn as_it_is(alloc: Global, octets: &[u8]) -> Result<Option<String>, Memory>
    ensures some { IfOk result (λ name. IfSome name (λ s. (string_bytes s ≡ octets.now) × IsUtf8 octets.now)) }
    ensures none { IfOk result (λ name. IfNone name (IsUtf8 octets.now → ⊥)) }
{
    match str::from_utf8(octets) {
        Ok(name) => Ok(Some(String::from_str(alloc, name)?)),
        Err(_) => Ok(None),
    }
}

/// The name that the text of a command writes, if there is one. Modified UTF-7 is read in the one spelling that
/// `shown_name` gives.
pub fn read_name(alloc: Global, enabled: bool, text: &[u8]) -> Result<Option<String>, Memory>
    ensures names { IfOk result (λ name. NamesMailbox enabled text.now (option_map string_bytes name)) }
    ensures one { (name : Option (List ℕ)) → NamesMailbox enabled text.now name → IfOk result (λ read. option_map string_bytes read ≡ name) }
{
    if enabled {
        return as_it_is(alloc, text);
    }
    match read_mutf7(alloc, text)? {
        Some(name) => as_it_is(alloc, name.as_slice()),
        None => Ok(None),
    }
}
