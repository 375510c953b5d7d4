//! EXPUNGE (RFC 3501, 6.4.3 and 7.4.1).
ghost use Rattle.std.specs.Prelude.{◌≡◌, ◌+◌, ◌++◌, [], length, IfOk, OnOk};
ghost use Rattle.session_core.specs.Oracles.{Oracles};
ghost use Rattle.imap_session.specs.Machine.{closing_up, deleted_ids as ids_of_deleted, is_deleted as is_deleted_of};
ghost use Rattle.imap_session.specs.Replies.{reply_octets};

use imap_mailboxes::has_flag;
use kept_mail::Listed;
use mail_wire::{Memory, Octets};
use std::alloc::Global;

const DELETED: u8 = 8;

fn is_deleted(one: &Listed) -> bool
    ensures { result ≡ is_deleted_of one.now }
{
    has_flag(one.flags, DELETED)
}

/// The numbers in the store of the messages that are marked as deleted.
pub fn deleted_ids(alloc: Global, messages: &[Listed]) -> Result<Vec<u32>, Memory>
    ensures { IfOk result (λ ids. ids.items ≡ ids_of_deleted messages.now) }
{
    let mut ids = Vec::new(alloc);
    for one in messages {
        if is_deleted(one) {
            ids.push(one.id)?;
        }
    }
    Ok(ids)
}

/// A line for each message that is marked as deleted, with its number once those before it are gone.
pub fn expunge_lines(alloc: Global, messages: &[Listed]) -> Result<Octets, Memory>
    ensures { IfOk result (λ lines. (oracles : Oracles) → lines ≡ reply_octets oracles (closing_up 1 messages.now)) }
{
    let mut lines = Octets::new(alloc);
    let mut number: usize = 1;
    for one in messages {
        if is_deleted(one) {
            let line = format!(in alloc; "* {number} EXPUNGE\r\n")?;
            lines.push_slice(line.as_bytes())?;
        } else {
            number += 1;
        }
    }
    Ok(lines)
}
