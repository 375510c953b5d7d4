//! What FETCH and STORE do with each message of a set.
ghost use Rattle.std.specs.Prelude.{◌≡◌, ◌+◌, ◌<◌, ◌^◌, ◌++◌, ℕ, List, [], ◌∷◌, length, slice_get, OnOk};
ghost use Rattle.std.specs.List.{All, flat_map};
ghost use Rattle.std.specs.List.Sorted.{IsStrictlyIncreasing};
ghost use Rattle.kept_mail.specs.Kept.{after_record};
ghost use Rattle.journal_records.specs.declared.records.Record.TheVariants as records;
ghost use Rattle.imap_mailboxes.specs.Flags.{stored_flags as flags_stored};
ghost use Rattle.kept_mail.specs.Records.{IsLive};
ghost use Rattle.mail_store.specs.StoreState.{StoreState};
ghost use Rattle.session_core.specs.Acts.{Act, changes};
ghost use Rattle.session_core.specs.Desks.{IsOpen};
ghost use Rattle.session_core.specs.Keeps.{Keeps, fault_of};
ghost use Rattle.session_core.specs.Oracles.{Oracles, WithOracles};
ghost use Rattle.imap_session.specs.Machine.{Numbered, flags_change, numbered_at};
ghost use Rattle.imap_session.specs.Replies.{ReplyPart, part_octets};
ghost use Rattle.imap_session.specs.private.Messages.{HasNewFlags, KeepsListing, ShowsAlike};
ghost use Rattle.imap_session.specs.private.Pending.{Carries};

use imap_grammar::StoreOp;
use imap_mailboxes::stored_flags;
use kept_mail::Listed;
use mail_wire::{Clock, Fault, Keeper, Octets, PIECE, Wire};
use session_core::Outside;

/// What is done with each message.
pub trait EachMessage {
    ghost acts: { Self → Oracles → StoreState → Numbered → List (Act ReplyPart) };

    /// What it needs.
    ghost may_take: { Self → Type 0 };

    /// Does it with the message of this number. What is to be given may stay pending.
    fn take<W: Wire, J: Keeper, C: Clock>(
        &self,
        number: u32,
        one: &mut Listed,
        pending: &mut Octets,
        outside: &mut Outside<W, J, C>,
    ) -> Result<(), Fault>
        requires ready { may_take self.now }
        requires opens { IsOpen outside.old.desk }
        requires live { IsLive (slice_get outside.old.desk.store.kept.messages one.old.id) }
        ensures carries { WithOracles (λ oracles. (store : StoreState) → ShowsAlike store outside.old.desk.store
            → Carries (part_octets oracles) outside.old outside.new (fault_of result) pending.old pending.new
            (acts self.now oracles store (record { number = number; listed = one.old }))) }
        ensures flags { OnOk result (HasNewFlags outside.old.desk.store.kept outside.new.desk.store.kept one.old one.new) }
        ensures keeps { Keeps outside.old outside.new (fault_of result) };
}

/// Gives what is pending, and nothing is then.
pub fn give_pending<W: Wire, J: Keeper, C: Clock>(
    pending: &mut Octets,
    outside: &mut Outside<W, J, C>,
) -> Result<(), Fault>
    ensures carries { (oracles : Oracles) → Carries (part_octets oracles) outside.old outside.new (fault_of result) pending.old pending.new [] }
    ensures nothing { OnOk result (pending.new ≡ []) }
    ensures desk { OnOk result (outside.new.desk ≡ outside.old.desk) }
    ensures keeps { Keeps outside.old outside.new (fault_of result) }
{
    if pending.is_empty() {
        return Ok(());
    }
    outside.give(pending.as_slice())?;
    pending.clear();
    Ok(())
}

// Gives what is pending once it is a piece.
fn give_piece<W: Wire, J: Keeper, C: Clock>(
    pending: &mut Octets,
    outside: &mut Outside<W, J, C>,
) -> Result<(), Fault>
    ensures carries { (oracles : Oracles) → Carries (part_octets oracles) outside.old outside.new (fault_of result) pending.old pending.new [] }
    ensures desk { OnOk result (outside.new.desk ≡ outside.old.desk) }
    ensures keeps { Keeps outside.old outside.new (fault_of result) }
{
    if pending.len() < PIECE {
        return Ok(());
    }
    give_pending(pending, outside)
}

/// Changes the flags of a message as STORE does, once what is pending was given.
pub fn change_flags<W: Wire, J: Keeper, C: Clock>(
    op: StoreOp,
    named: u8,
    one: &mut Listed,
    pending: &mut Octets,
    outside: &mut Outside<W, J, C>,
) -> Result<(), Fault>
    requires opens { IsOpen outside.old.desk }
    requires live { IsLive (slice_get outside.old.desk.store.kept.messages one.old.id) }
    ensures carries { (oracles : Oracles) → Carries (part_octets oracles) outside.old outside.new (fault_of result) pending.old pending.new
        (changes (flags_change one.old (flags_stored op one.old.flags named)) ∷ []) }
    ensures changed { OnOk result (one.new ≡ record one.old { flags = flags_stored op one.old.flags named }) }
    ensures kept { OnOk result (outside.new.desk.store.kept
        ≡ after_record outside.old.desk.store.kept (records.Flags one.old.id (flags_stored op one.old.flags named))) }
    ensures keeps { Keeps outside.old outside.new (fault_of result) }
{
    let flags = stored_flags(op, one.flags, named);
    give_pending(pending, outside)?;
    outside.set_flags(one.id, flags)?;
    one.flags = flags;
    Ok(())
}

// The messages at these places, one after the other. What is pending is given once it is a piece.
pub fn take_each<E: EachMessage, W: Wire, J: Keeper, C: Clock>(
    each: &E,
    places: &[u32],
    messages: &mut Vec<Listed>,
    pending: &mut Octets,
    outside: &mut Outside<W, J, C>,
) -> Result<(), Fault>
    requires ready { E.may_take each.now }
    requires opens { IsOpen outside.old.desk }
    requires live { All (λ one. IsLive (slice_get outside.old.desk.store.kept.messages one.id)) messages.old.items }
    requires rising { IsStrictlyIncreasing places.now }
    requires few { length messages.old.items < 2 ^ 32 }
    requires within { All (λ place. place < length messages.old.items) places.now }
    ensures carries { WithOracles (λ oracles. Carries (part_octets oracles) outside.old outside.new (fault_of result) pending.old pending.new
        (flat_map (E.acts each.now oracles outside.old.desk.store) (flat_map (numbered_at messages.old.items) places.now))) }
    ensures listing { OnOk result (KeepsListing outside.old.desk.store outside.new.desk.store messages.old.items messages.new.items) }
    ensures keeps { Keeps outside.old outside.new (fault_of result) }
{
    for place in places {
        let one = &mut messages[*place as usize];
        each.take(*place + 1, one, pending, outside)?;
        give_piece(pending, outside)?;
    }
    Ok(())
}
