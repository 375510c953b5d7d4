//! Bodies of Content-Type fields that name message/global (RFC 6532, 3.7).
ghost use Rattle.std.specs.Prelude.{◌≡◌, ◌||◌, ◌≤◌, ℕ, false, not, List, ◌∷◌, ◌++◌, length, filter, position, IfOk, IfSome, IfNone};
ghost use Rattle.mail_wire.specs.Octets.{is_white as is_white_octet, is_line_end as is_line_end_octet};
ghost use Rattle.mail_wire.specs.Folds.{IsFolded};
ghost use Rattle.mail_wire.specs.Spans.{IsSpan};
ghost use Rattle.utf8_fields.specs.Parts.{HasValue};
ghost use Rattle.param_2231.specs.GlobalTypes.{NamesGlobal};
ghost use Rattle.field_downgrade.specs.GlobalBodies.{ChangesGlobal};

use mail_wire::{Memory, Octets, is_white};
use param_2231::find_global;
use std::alloc::Global;

/// Whether an octet is CR or LF.
pub fn is_line_end(octet: u8) -> bool
    ensures { result ≡ is_line_end_octet octet }
{
    octet == b'\r' || octet == b'\n'
}

// Where the first octet stands that is no white and no line end.
fn find_text(body: &[u8]) -> Option<usize>
    ensures { result ≡ position (λ x. not (is_white_octet x || is_line_end_octet x)) body.now }
{
    body.iter()
        .position(|octet| !(is_white(*octet) || is_line_end(*octet)))
}

// The white and the line ends at the beginning of a body, and what follows them.
fn split_lead(body: &[u8]) -> (&[u8], &[u8])
    ensures { IsSpan (λ x. is_white_octet x || is_line_end_octet x) body.now result.0.now result.1.now }
{
    match find_text(body) {
        Some(at) => body.split_at(at),
        None => body.split_at(body.len()),
    }
}

// Where the octet stands after so many others, of which line ends aren't counted.
fn place_following(octets: &[u8], count: usize) -> usize
    ensures bound { result ≤ length octets.now }
    ensures place { (before rest : List ℕ) (x : ℕ) → octets.now ≡ before ++ x ∷ rest → is_line_end_octet x ≡ false
        → length (filter (λ y. not (is_line_end_octet y)) before) ≡ count → result ≡ length before }
{
    let mut left = count;
    let mut at = 0;
    while at < octets.len() {
        if !is_line_end(octets[at]) {
            if left == 0 {
                return at;
            }
            left -= 1;
        }
        at += 1;
    }
    at
}

// A body with `rfc822` in place of the `global` that stands at this place of its value.
fn with_rfc822(alloc: Global, body: &[u8], at: usize) -> Result<Octets, Memory>
    requires folded { IsFolded body.now }
    requires names { (value : List ℕ) × HasValue body.now value × NamesGlobal value at }
    ensures { IfOk result (ChangesGlobal body.now) }
{
    let (lead, following) = split_lead(body);
    let (front, rest) = following.split_at(place_following(following, at));
    let (_, after) = rest.split_at(6);
    let mut made = Octets::from_slice(alloc, lead)?;
    made.push_slice(front)?;
    made.push_slice(b"rfc822")?;
    made.push_slice(after)?;
    Ok(made)
}

/// A body with `rfc822` in place of `global`, where its value is a Content-Type of message/global, and nothing exactly where
/// it is none.
pub fn change_global(alloc: Global, body: &[u8], value: &[u8]) -> Result<Option<Octets>, Memory>
    requires folded { IsFolded body.now }
    requires value { HasValue body.now value.now }
    ensures changed { IfOk result (λ o. IfSome o (ChangesGlobal body.now)) }
    ensures none { IfOk result (λ o. IfNone o ((at : ℕ) → ¬ NamesGlobal value.now at)) }
{
    let Some(at) = find_global(alloc, value)? else {
        return Ok(None);
    };
    let changed = with_rfc822(alloc, body, at)?;
    Ok(Some(changed))
}
