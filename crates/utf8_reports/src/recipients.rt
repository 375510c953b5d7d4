//! The fields of a failed recipient, written and read.
ghost use Rattle.std.specs.Prelude.{◌≡◌, ◌++◌, ◌∷◌, ℕ, List, codes, Option, Some, slice_get, IsTrue, ◌↔◌, IfOk, IfSome, IsSomeAnd, OnOk};
ghost use Rattle.std.specs.List.{All, flat_map};
ghost use Rattle.utf8_reports.specs.declared.failure.FailedRecipient.{FailedRecipient};
ghost use Rattle.utf8_reports.specs.Fields.{text_line, field_line};
ghost use Rattle.utf8_reports.specs.Recipients.{IsFailed, IsStatusCode, IsReplyCode, diagnostic_field, recipient_fields};
ghost use Rattle.utf8_reports.specs.private.Reading.{BeginsRecipient, BeginsRecipients, EndsRecipient};

use crate::addresses::{read_typed, typed_address};
use crate::destinations::text_of;
use crate::failure::{FailedRecipient, FailedRecipients};
use crate::fields::{field_body, following, push_field, push_line};
use crate::statuses::{is_status, push_code, read_code};
use mail_wire::{Memory, Octets};
use std::alloc::Global;

const CODE: &[u8] = b"Diagnostic-Code: smtp; ";

fn push_diagnostic(made: &mut Octets, code: Option<u16>) -> Result<(), Memory>
    requires { IfSome code IsReplyCode }
    ensures { OnOk result (made.new ≡ made.old ++ diagnostic_field code) }
{
    let Some(code) = code else {
        return Ok(());
    };
    made.push_slice(CODE)?;
    push_code(made, code)?;
    made.push_slice(b"\r\n")
}

// Puts the fields of a recipient last.
fn push_recipient(
    alloc: Global,
    made: &mut Octets,
    one: &FailedRecipient,
    global: bool,
) -> Result<(), Memory>
    requires { IsFailed one.now }
    ensures { OnOk result (made.new ≡ made.old ++ recipient_fields global one.now) }
{
    let text = text_of(alloc, &one.address)?;
    let typed = typed_address(alloc, text.as_slice(), global)?;
    made.push_slice(b"\r\n")?;
    push_field(made, b"Final-Recipient: ", typed.as_slice())?;
    push_line(made, b"Action: failed")?;
    push_field(made, b"Status: ", one.status.as_slice())?;
    push_diagnostic(made, one.code)
}

/// Puts the fields of each of the recipients last.
pub fn push_recipients(
    alloc: Global,
    made: &mut Octets,
    failed: &[FailedRecipient],
    global: bool,
) -> Result<(), Memory>
    requires { All IsFailed failed.now }
    ensures { OnOk result (made.new ≡ made.old ++ flat_map (recipient_fields global) failed.now) }
{
    for one in failed {
        push_recipient(alloc, made, one, global)?;
    }
    Ok(())
}

// The code with which octets begin, if one is there, and what follows it. A field of a code that holds no code is nothing.
fn read_diagnostic(octets: &[u8]) -> Option<(Option<u16>, &[u8])>
    ensures found { IfSome result (λ x. IfSome x.0 IsReplyCode × (octets.now ≡ diagnostic_field x.0 ++ x.1.now)) }
    ensures exact { (code : Option ℕ) (rest : List ℕ) → IfSome code IsReplyCode → EndsRecipient rest → octets.now ≡ diagnostic_field code ++ rest
        → IsSomeAnd result (λ x. (x.0 ≡ code) × (x.1.now ≡ rest)) }
{
    let Some((digits, rest)) = field_body(octets, CODE) else {
        return Some((None, octets));
    };
    match read_code(digits) {
        Some(code) => Some((Some(code), rest)),
        None => None,
    }
}

// What stands after a recipient's address.
#[derive(Clone, Copy)]
struct Outcome<'a> {
    status: &'a [u8],
    code: Option<u16>,
    rest: &'a [u8],
}

// A recipient's further fields, and what follows them.
fn read_outcome(octets: &[u8]) -> Option<Outcome<'_>>
    ensures found { IfSome result (λ x. IsStatusCode x.status.now × IfSome x.code IsReplyCode
        × (octets.now ≡ text_line (codes "Action: failed") ++ (field_line (codes "Status: ") x.status.now ++ (diagnostic_field x.code ++ x.rest.now)))) }
    ensures exact { (status : List ℕ) (code : Option ℕ) (rest : List ℕ) → IsStatusCode status → IfSome code IsReplyCode → EndsRecipient rest
        → octets.now ≡ text_line (codes "Action: failed") ++ (field_line (codes "Status: ") status ++ (diagnostic_field code ++ rest))
        → IsSomeAnd result (λ x. (x.status.now ≡ status) × (x.code ≡ code) × (x.rest.now ≡ rest)) }
{
    let Some(after) = following(octets, b"Action: failed\r\n") else {
        return None;
    };
    let Some((status, after)) = field_body(after, b"Status: ") else {
        return None;
    };
    if !is_status(status) {
        return None;
    }
    let Some((code, rest)) = read_diagnostic(after) else {
        return None;
    };
    Some(Outcome { status, code, rest })
}

// The recipient with whose fields octets begin, and what follows them.
fn read_recipient(
    alloc: Global,
    octets: &[u8],
    global: bool,
) -> Result<Option<(FailedRecipient, &[u8])>, Memory>
    ensures found { IfOk result (λ o. IfSome o (λ x. BeginsRecipient global octets.now x.0 x.1.now)) }
    ensures exact { (one : FailedRecipient) (rest : List ℕ) → BeginsRecipient global octets.now one rest → EndsRecipient rest
        → IfOk result (λ o. IsSomeAnd o (λ x. (x.0 ≡ one) × (x.1.now ≡ rest))) }
{
    let Some((typed, after)) = field_body(octets, b"\r\nFinal-Recipient: ") else {
        return Ok(None);
    };
    let Some(address) = read_typed(alloc, typed, global)? else {
        return Ok(None);
    };
    let Some(outcome) = read_outcome(after) else {
        return Ok(None);
    };
    let status = Octets::from_slice(alloc, outcome.status)?;
    let one = FailedRecipient {
        address,
        status,
        code: outcome.code,
    };
    Ok(Some((one, outcome.rest)))
}

// Whether an empty line comes first.
fn begins_empty(octets: &[u8]) -> bool
    ensures { IsTrue result ↔ ((rest : List ℕ) × (octets.now ≡ 13 ∷ 10 ∷ rest)) }
{
    matches!(octets, [b'\r', b'\n', ..])
}

// Whether a hyphen comes first, as in the line of a boundary.
fn begins_hyphen(octets: &[u8]) -> bool
    ensures { IsTrue result ↔ (slice_get octets.now 0 ≡ Some 45) }
{
    octets.first().copied() == Some(b'-')
}

/// The recipients with whose fields octets begin, one at least, and what follows them, which is the line of a boundary.
pub fn read_recipients(
    alloc: Global,
    octets: &[u8],
    global: bool,
) -> Result<Option<(FailedRecipients, &[u8])>, Memory>
    ensures found { IfOk result (λ o. IfSome o (λ x. BeginsRecipients global octets.now x.0 x.1.now)) }
    ensures exact { (failed : List FailedRecipient) (rest : List ℕ) → BeginsRecipients global octets.now failed rest
        → IfOk result (λ o. IsSomeAnd o (λ x. (x.0 ≡ failed) × (x.1.now ≡ rest))) }
{
    let mut failed = FailedRecipients::new(alloc);
    let mut rest = octets;
    while begins_empty(rest) {
        let Some((one, after)) = read_recipient(alloc, rest, global)? else {
            return Ok(None);
        };
        failed.push(one)?;
        rest = after;
    }
    if failed.is_empty() || !begins_hyphen(rest) {
        return Ok(None);
    }
    Ok(Some((failed, rest)))
}
