//! The fields that are put before the data of a message (RFC 5321, 4.4), and the mark of what stands after them.
ghost use Rattle.std.specs.Prelude.{◌≡◌, ◌++◌, ℕ, List, IfOk, IfSome, OnOk, codes};
ghost use Rattle.std.specs.List.{All, concat};
ghost use Rattle.mail_wire.specs.Lines.{crlf};
ghost use Rattle.address_grammar.specs.Paths.{ComesInPath};
ghost use Rattle.mime_tree.specs.Openings.{IsOtherField};
ghost use Rattle.journal_records.specs.Stored.{HasMark};
ghost use Rattle.smtp_session.specs.Trace.{received, return_path as return_path_of};

use address_grammar::Address;
use journal_records::path_text;
use mail_wire::{Memory, Octets, is_ascii};
use std::alloc::Global;

// The mark of a message whose header block has octets above 127.
const HIGH_HEADER: u8 = 3;

// Puts two texts last.
fn push_both(field: &mut Octets, first: &[u8], second: &[u8]) -> Result<(), Memory>
    ensures { OnOk result (field.new ≡ field.old ++ (first.now ++ second.now)) }
{
    field.push_slice(first)?;
    field.push_slice(second)
}

// Puts last where a message came from, by which protocol and when.
fn push_trace(
    field: &mut Octets,
    client: &[u8],
    name: &[u8],
    protocol: &[u8],
    date: &[u8],
) -> Result<(), Memory>
    ensures { OnOk result (field.new ≡ field.old
        ++ (client.now ++ codes " by " ++ name.now ++ codes " with " ++ protocol.now ++ codes "; " ++ date.now ++ crlf)) }
{
    field.push_slice(client)?;
    push_both(field, b" by ", name)?;
    push_both(field, b" with ", protocol)?;
    push_both(field, b"; ", date)?;
    field.push_slice(b"\r\n")
}

/// The field that tells where a message came from, by which protocol and when.
pub fn received_field(
    alloc: Global,
    client: &[u8],
    name: &[u8],
    protocol: &[u8],
    date: &[u8],
) -> Result<Octets, Memory>
    ensures { IfOk result (λ field. field ≡ received client.now name.now protocol.now date.now) }
{
    let mut field = Octets::from_slice(alloc, b"Received: from ")?;
    push_trace(&mut field, client, name, protocol, date)?;
    Ok(field)
}

/// The field that tells the path which a message came from.
pub fn return_path_field(alloc: Global, path: &Option<Address>) -> Result<Octets, Memory>
    requires { IfSome path.now ComesInPath }
    ensures { IfOk result (λ field. field ≡ return_path_of path.now) }
{
    let text = path_text(alloc, path)?;
    let mut field = Octets::from_slice(alloc, b"Return-Path: <")?;
    field.push_slice(text.as_slice())?;
    field.push_slice(b">\r\n")?;
    Ok(field)
}

/// The mark of a message after these fields, by its mark without them. A path may be UTF-8 (RFC 6531, 3.3), and so may its field.
pub fn mark_after(front: &[u8], mark: u8) -> u8
    ensures { (content : List ℕ) (fields : List (List ℕ)) → front.now ≡ concat fields → All IsOtherField fields → HasMark content mark
        → HasMark (front.now ++ content) result }
{
    if is_ascii(front) { mark } else { HIGH_HEADER }
}
