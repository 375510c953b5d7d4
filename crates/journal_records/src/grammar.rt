//! The date of a message record, and the names of folders.
ghost use Rattle.std.specs.Prelude.{◌≡◌, ◌↔◌, IfOk, IsTrue, chars};
ghost use Rattle.std.specs.List.{All, list_any};
ghost use Rattle.mail_wire.specs.Octets.{same_name};
ghost use Rattle.journal_records.specs.Grammar.{fits_letter, IsDate, IsFolderName, IsNameChar, kept_name, months};

use crate::limits::NAME_MAX;
use mail_wire::{Memory, Octets, is_same_name};
use std::alloc::Global;
use unicode_normalization::{is_nfc, to_nfc};

// A digit stands for any digit, `d` for a digit or a space, `+` for a sign, `a` for any octet.
const SHAPE: [u8; 26] = *b"d9-aaa-9999 99:99:99 +9999";

const MONTHS: [[u8; 3]; 12] = [
    *b"Jan", *b"Feb", *b"Mar", *b"Apr", *b"May", *b"Jun", *b"Jul", *b"Aug", *b"Sep", *b"Oct",
    *b"Nov", *b"Dec",
];

#[tactic(auto, unfolding(crate::specs::Grammar::fits_letter))]
fn fits_letter(letter: u8, octet: u8) -> bool
    ensures { result ≡ fits_letter letter octet }
{
    match letter {
        b'9' => octet.is_ascii_digit(),
        b'd' => octet.is_ascii_digit() || octet == b' ',
        b'+' => octet == b'+' || octet == b'-',
        b'a' => true,
        _ => octet == letter,
    }
}

fn is_month(text: &[u8]) -> bool
    ensures { result ≡ list_any (λ month. same_name month text.now) months }
{
    MONTHS.iter().any(|month| is_same_name(month, text))
}

/// Whether the text is a date-time.
pub fn is_date(date: &[u8]) -> bool
    ensures { IsTrue result ↔ IsDate date.now }
{
    if date.len() != 26 || !is_month(&date[3..6]) {
        return false;
    }
    for at in 0..26 {
        if !fits_letter(SHAPE[at], date[at]) {
            return false;
        }
    }
    true
}

fn is_name_char(c: char) -> bool
    ensures { IsTrue result ↔ IsNameChar c }
{
    !c.is_control() && c != '*' && c != '%'
}

// A folder's name has no control, no `*` and no `%`.
fn are_name_chars(name: &str) -> bool
    ensures { IsTrue result ↔ All IsNameChar (chars name.now) }
{
    name.chars().all(|c| is_name_char(c))
}

/// Whether the text is the name of a folder.
pub fn is_folder_name(alloc: Global, text: &[u8]) -> Result<bool, Memory>
    ensures { IfOk result (λ is. IsTrue is ↔ IsFolderName text.now) }
{
    if text.is_empty() || text.len() > NAME_MAX {
        return Ok(false);
    }
    let Ok(name) = std::str::from_utf8(text) else {
        return Ok(false);
    };
    Ok(are_name_chars(name) && is_nfc(alloc, name)?)
}

// What an account's first folder is called.
const INBOX: [u8; 5] = *b"INBOX";

/// The name by which a folder is kept that is named so: INBOX whatever the case of its letters, and any other name in NFC.
pub fn kept_name(alloc: Global, name: &str) -> Result<Octets, Memory>
    ensures { IfOk result (λ kept. kept ≡ kept_name name.now) }
{
    if is_same_name(&INBOX, name.as_bytes()) {
        return Octets::from_slice(alloc, &INBOX);
    }
    let composed = to_nfc(alloc, name)?;
    Ok(Octets::from_vec(composed.into_bytes()))
}

/// Whether the name, in the form in which it would be kept, is the name of a folder.
pub fn may_name_folder(alloc: Global, name: &str) -> Result<bool, Memory>
    ensures { IfOk result (λ may. IsTrue may ↔ IsFolderName (kept_name name.now)) }
{
    let kept = kept_name(alloc, name)?;
    is_folder_name(alloc, kept.as_slice())
}
