//! Laws of names.
ghost use Rattle.std.specs.Prelude.{ℕ, Bool, List, Option};
ghost use Rattle.imap_mailboxes.specs.Names.{ReadsMailboxes};

/// Some function tells of each text which mailbox it names.
pub fn mailboxes_are_read()
    ensures { (name_of : Bool → List ℕ → Option (List ℕ)) × ReadsMailboxes name_of }
{}
