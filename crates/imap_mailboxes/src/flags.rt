//! Flags of messages (RFC 3501, 2.3.2): a `u8` has a bit for each.
ghost use Rattle.std.specs.Prelude.{◌≡◌, ◌<◌, ℕ, List, [], ◌∷◌, ◌++◌, OnOk, IfOk, if◌then◌else◌};
ghost use Rattle.imap_mailboxes.specs.Flags.{flags_text, has_flag as flag_is_set, stored_flags as flags_stored};
ghost use Rattle.imap_mailboxes.specs.private.Words.{EndsWithWords};

use imap_grammar::StoreOp;
use mail_wire::{Memory, Octets};

/// The message has been read.
pub const SEEN: u8 = 1;
/// The message has been answered.
pub const ANSWERED: u8 = 2;
/// The message is flagged for attention.
pub const FLAGGED: u8 = 4;
/// The message goes when its folder is expunged.
pub const DELETED: u8 = 8;
/// The message isn't finished.
pub const DRAFT: u8 = 16;

/// The flag, one of the five, is among these.
pub fn has_flag(flags: u8, flag: u8) -> bool
    requires { 0 < flag }
    ensures { result ≡ flag_is_set flags flag }
{
    flags / flag % 2 == 1
}

// Puts the word last where the flag is set, after a space where a word was put before it. It tells whether none was yet.
fn push_flag(text: &mut Octets, is_first: bool, is_set: bool, word: &[u8]) -> Result<bool, Memory>
    ensures { (front : List ℕ) (words : List (List ℕ)) → EndsWithWords front words text.old is_first
        → IfOk result (λ first. EndsWithWords front (words ++ (if is_set then word.now ∷ [] else [])) text.new first) }
{
    if !is_set {
        return Ok(is_first);
    }
    if !is_first {
        text.push(b' ')?;
    }
    text.push_slice(word)?;
    Ok(false)
}

/// Puts `FLAGS` and the flags in parentheses last, as the replies of FETCH have them.
pub fn push_flags(text: &mut Octets, flags: u8) -> Result<(), Memory>
    ensures { OnOk result (text.new ≡ text.old ++ flags_text flags) }
{
    text.push_slice(b"FLAGS (")?;
    let first = push_flag(text, true, has_flag(flags, ANSWERED), b"\\Answered")?;
    let first = push_flag(text, first, has_flag(flags, FLAGGED), b"\\Flagged")?;
    let first = push_flag(text, first, has_flag(flags, DELETED), b"\\Deleted")?;
    let first = push_flag(text, first, has_flag(flags, SEEN), b"\\Seen")?;
    push_flag(text, first, has_flag(flags, DRAFT), b"\\Draft")?;
    text.push(b')')
}

/// The flags of a message that STORE changes: the five alone, whatever else is named.
pub fn stored_flags(op: StoreOp, old: u8, named: u8) -> u8
    ensures value { result ≡ flags_stored op old named }
    ensures five { result < 32 }
{
    match op {
        StoreOp::Replace => named & 31,
        StoreOp::Add => (old | named) & 31,
        StoreOp::Remove => old & !named & 31,
    }
}
