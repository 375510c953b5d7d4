//! STORE (RFC 3501, 6.4.6).
ghost use Rattle.std.specs.Prelude.{◌≡◌, ◌<◌, ◌++◌, ⊤, OnOk, false};
ghost use Rattle.mail_store.specs.StoreState.{StoreState};
ghost use Rattle.session_core.specs.Keeps.{Keeps, fault_of};
ghost use Rattle.session_core.specs.Oracles.{Oracles};
ghost use Rattle.imap_session.specs.Machine.{flags_reply, store_one};
ghost use Rattle.imap_session.specs.Replies.{reply_octets};

use crate::messages::{EachMessage, change_flags};
use imap_grammar::StoreOp;
use imap_mailboxes::push_flags;
use kept_mail::Listed;
use mail_wire::{Clock, Fault, Keeper, Memory, Octets, Wire};
use session_core::Outside;
use std::alloc::Global;

/// STORE, as it is done with each message.
#[derive(Clone, Copy, Debug)]
pub struct Storing {
    pub by_uid: bool,
    pub silent: bool,
    pub op: StoreOp,
    pub named: u8,
}

// Puts the line last that tells the flags of a message.
fn push_flags_line(
    alloc: Global,
    pending: &mut Octets,
    by_uid: bool,
    number: u32,
    one: &Listed,
) -> Result<(), Memory>
    ensures { (oracles : Oracles) → OnOk result (pending.new ≡ pending.old ++ reply_octets oracles (flags_reply by_uid false (record { number = number; listed = one.now }) one.now.flags)) }
{
    let front = if by_uid {
        format!(in alloc; "* {number} FETCH (UID {} ", one.uid)?
    } else {
        format!(in alloc; "* {number} FETCH (")?
    };
    pending.push_slice(front.as_bytes())?;
    push_flags(pending, one.flags)?;
    pending.push_slice(b")\r\n")
}

impl EachMessage for Storing {
    ghost acts = { λ storing oracles store one. store_one storing.by_uid storing.silent storing.op storing.named one };

    ghost may_take = { λ storing. ⊤ };

    fn take<W: Wire, J: Keeper, C: Clock>(
        &self,
        number: u32,
        one: &mut Listed,
        pending: &mut Octets,
        outside: &mut Outside<W, J, C>,
    ) -> Result<(), Fault> {
        change_flags(self.op, self.named, one, pending, outside)?;
        if self.silent {
            return Ok(());
        }
        push_flags_line(outside.alloc(), pending, self.by_uid, number, one)?;
        Ok(())
    }
}
