//! The kinds of fields.
ghost use Rattle.std.specs.Prelude.{◌≡◌, ◌↔◌, IsTrue, List};
ghost use Rattle.mail_wire.specs.Tables.{Named, said_by};
ghost use Rattle.field_downgrade.specs.Kinds.{kind_named};
ghost use Rattle.field_downgrade.specs.declared.kind.Kind.{Kind};
ghost use Rattle.field_downgrade.specs.private.ByLength.{IsByLength};
ghost use Rattle.field_downgrade.specs.private.Steps.{KeepsWords};

use mail_wire::{TableWord, find_word};
use param_grammar::ParamKind;

/// What the value of a field is read as.
#[derive(Clone, Copy, PartialEq, Eq)]
pub enum Kind {
    Unstructured,
    Addresses,
    Phrases,
    Params(ParamKind),
    Ids,
    Path,
    Typed,
    Trace,
    Plain,
}

// The kinds of fields that are structured, by the number of octets of their names, from 0 on.
const KINDS_BY_LENGTH: [&[TableWord<Kind>]; 26] = [
    &[],
    &[],
    &[
        TableWord(b"To", Kind::Addresses),
        TableWord(b"Cc", Kind::Addresses),
    ],
    &[TableWord(b"Bcc", Kind::Addresses)],
    &[
        TableWord(b"From", Kind::Addresses),
        TableWord(b"Date", Kind::Plain),
    ],
    &[],
    &[TableWord(b"Sender", Kind::Addresses)],
    &[],
    &[
        TableWord(b"Reply-To", Kind::Addresses),
        TableWord(b"Keywords", Kind::Phrases),
        TableWord(b"Received", Kind::Trace),
    ],
    &[
        TableWord(b"Resent-To", Kind::Addresses),
        TableWord(b"Resent-Cc", Kind::Addresses),
    ],
    &[
        TableWord(b"Resent-Bcc", Kind::Addresses),
        TableWord(b"Message-ID", Kind::Ids),
        TableWord(b"References", Kind::Ids),
        TableWord(b"Content-ID", Kind::Ids),
    ],
    &[
        TableWord(b"Resent-From", Kind::Addresses),
        TableWord(b"In-Reply-To", Kind::Ids),
        TableWord(b"Return-Path", Kind::Path),
        TableWord(b"Resent-Date", Kind::Plain),
    ],
    &[
        TableWord(b"Content-Type", Kind::Params(ParamKind::Content)),
        TableWord(b"MIME-Version", Kind::Plain),
    ],
    &[TableWord(b"Resent-Sender", Kind::Addresses)],
    &[],
    &[
        TableWord(b"Resent-Reply-To", Kind::Addresses),
        TableWord(b"Final-Recipient", Kind::Typed),
    ],
    &[],
    &[TableWord(b"Resent-Message-ID", Kind::Ids)],
    &[TableWord(b"Original-Recipient", Kind::Typed)],
    &[TableWord(b"Content-Disposition", Kind::Params(ParamKind::Disposition))],
    &[],
    &[],
    &[],
    &[],
    &[],
    &[TableWord(b"Content-Transfer-Encoding", Kind::Plain)],
];

// What a table says of a name, by the parts of the table for names of 0, 1, 2 .. octets.
fn find_by_length(parts: &[&[TableWord<Kind>]], name: &[u8]) -> Option<Kind>
    ensures { (table : List (Named Kind)) → IsByLength parts.now table → result ≡ said_by table name.now }
{
    match parts.get(name.len()) {
        Some(part) => find_word(part, name),
        None => None,
    }
}

/// The kind of the fields of a name.
pub fn kind_of(name: &[u8]) -> Kind
    ensures { result ≡ kind_named name.now }
{
    find_by_length(&KINDS_BY_LENGTH, name).unwrap_or(Kind::Unstructured)
}

fn is_unstructured(kind: Kind) -> bool
    ensures { IsTrue result ↔ (kind ≡ Kind.Unstructured) }
{
    matches!(kind, Kind::Unstructured)
}

/// Whether the words of fields of a name, and so of this kind, are rewritten under that name.
pub(crate) fn keeps_words(kind: Kind, name: &[u8]) -> bool
    requires { kind ≡ kind_named name.now }
    ensures { IsTrue result ↔ KeepsWords name.now }
{
    is_unstructured(kind) && !name.starts_with(b"-")
}

/// Whether fields of a name tell the type of a body.
pub(crate) fn is_type(name: &[u8]) -> bool
    ensures { IsTrue result ↔ (kind_named name.now ≡ Kind.Params ParamKind.Content) }
{
    matches!(kind_of(name), Kind::Params(ParamKind::Content))
}
