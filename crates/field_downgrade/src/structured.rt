//! The rewriting of structured fields.
ghost use Rattle.std.specs.Prelude.{◌≡◌, false, IfOk, OnOk, IsUtf8};
ghost use Rattle.std.specs.List.{list_all};
ghost use Rattle.mail_wire.specs.Octets.{is_ascii};
ghost use Rattle.mail_wire.specs.Folds.{IsFolded};
ghost use Rattle.utf8_fields.specs.Parts.{HasValue};
ghost use Rattle.utf8_fields.specs.private.Views.{parts_value};
ghost use Rattle.address_lists.specs.ListPieces.{AddressesPieces};
ghost use Rattle.address_lists.specs.PhraseLists.{PhrasesPieces};
ghost use Rattle.param_2231.specs.Layout.{ParamsPieces};
ghost use Rattle.field_downgrade.specs.Kinds.{kind_named};
ghost use Rattle.field_downgrade.specs.Stands.{PiecesAs, is_encoding_name as is_encoding_of, keeps_name as keeps_name_of};
ghost use Rattle.field_downgrade.specs.private.Steps.{named_of, AddsOctets, AddsWordField, HasNoPieces, IsOther, MakesField, PutsPieces, WritesWhere};

use crate::kind::Kind;
use crate::plain::rewrite_plain;
use crate::received::rewrite_received;
use crate::typed::rewrite_typed;
use address_grammar::AddressFault;
use address_lists::{rewrite_list, rewrite_path, rewrite_phrases};
use encoded_words::push_words;
use mail_wire::{Memory, Octets, is_same_name};
use param_2231::rewrite_params;
use param_grammar::{ParamFault, ParamKind};
use std::alloc::Global;
use utf8_fields::{Parts, line_value, value_of};

#[tactic(auto, unfolding(crate::specs::Stands::is_encoding_name))]
fn is_encoding_name(name: &[u8]) -> bool
    ensures { result ≡ is_encoding_of name.now }
{
    is_same_name(name, b"Content-Transfer-Encoding")
}

// Whether a field whose value is malformed keeps its name.
#[tactic(auto, unfolding(crate::specs::Stands::keeps_name))]
fn keeps_name(name: &[u8]) -> bool
    ensures { result ≡ keeps_name_of name.now }
{
    is_same_name(name, b"Content-Type") || is_encoding_name(name)
}

// Puts the pieces of phrases last, and answers whether there are any.
fn write_phrases(alloc: Global, value: &[u8], made: &mut Octets) -> Result<bool, Memory>
    ensures { IfOk result (λ wrote. WritesWhere wrote (PhrasesPieces value.now) made.old made.new) }
{
    match rewrite_phrases(alloc, value, made) {
        Ok(()) => Ok(true),
        Err(AddressFault::Malformed) => Ok(false),
        Err(AddressFault::Memory) => Err(Memory),
    }
}

// Puts the pieces of a list of addresses last, and answers whether there are any.
fn write_addresses(alloc: Global, value: &[u8], made: &mut Octets) -> Result<bool, Memory>
    ensures { IfOk result (λ wrote. WritesWhere wrote (AddressesPieces value.now) made.old made.new) }
{
    match rewrite_list(alloc, value, made) {
        Ok(()) => Ok(true),
        Err(AddressFault::Malformed) => Ok(false),
        Err(AddressFault::Memory) => Err(Memory),
    }
}

// Puts the pieces of a main part and parameters last, and answers whether there are any.
fn write_params(
    alloc: Global,
    kind: ParamKind,
    open_global: bool,
    value: &[u8],
    made: &mut Octets,
) -> Result<bool, Memory>
    ensures { IfOk result (λ wrote. WritesWhere wrote (ParamsPieces kind open_global value.now) made.old made.new) }
{
    match rewrite_params(alloc, kind, value, open_global, made) {
        Ok(()) => Ok(true),
        Err(ParamFault::Malformed) => Ok(false),
        Err(ParamFault::Memory) => Err(Memory),
    }
}

// Puts the pieces of a field's value last, and answers whether a value of its kind has any.
fn write_value(
    alloc: Global,
    kind: Kind,
    open_global: bool,
    name: &[u8],
    value: &[u8],
    made: &mut Octets,
) -> Result<bool, Memory>
    ensures { IfOk result (λ wrote. WritesWhere wrote (PiecesAs kind open_global name.now value.now) made.old made.new) }
{
    match kind {
        Kind::Unstructured => Ok(false),
        Kind::Addresses => write_addresses(alloc, value, made),
        Kind::Phrases => write_phrases(alloc, value, made),
        Kind::Params(kind) => write_params(alloc, kind, open_global, value, made),
        Kind::Ids => Ok(false),
        Kind::Path => rewrite_path(alloc, value, made),
        Kind::Typed => rewrite_typed(alloc, value, made),
        Kind::Trace => rewrite_received(alloc, value, made),
        Kind::Plain => rewrite_plain(alloc, is_encoding_name(name), value, made),
    }
}

// Puts a field of its value's pieces last, where that has any, and answers whether it has. If not only its name was put.
fn push_pieces(
    alloc: Global,
    open_global: bool,
    kind: Kind,
    parts: &Parts<'_>,
    value: &[u8],
    made: &mut Octets,
) -> Result<bool, Memory>
    requires { kind ≡ kind_named parts.now.name.now }
    ensures { IfOk result (λ wrote. PutsPieces wrote open_global (parts_value parts.now) value.now made.old made.new) }
{
    made.push_slice(parts.name)?;
    made.push(b':')?;
    if !write_value(alloc, kind, open_global, parts.name, value, made)? {
        return Ok(false);
    }
    made.push_slice(parts.ending)?;
    Ok(true)
}

// Puts a field last that keeps a value under its name with this before it.
fn push_kept(
    made: &mut Octets,
    prefix: &[u8],
    parts: &Parts<'_>,
    value: &[u8],
) -> Result<(), Memory>
    requires { IsUtf8 value.now }
    ensures { OnOk result (AddsWordField (named_of prefix.now (parts_value parts.now)) value.now made.old made.new) }
{
    made.push_slice(prefix)?;
    made.push_slice(parts.name)?;
    made.push(b':')?;
    push_words(made, b' ', value)?;
    made.push_slice(parts.ending)
}

// Puts a field last whose value has no pieces. Its value is kept, under a `Downgraded-` name where it can be.
fn push_whole(
    open_global: bool,
    made: &mut Octets,
    parts: &Parts<'_>,
    value: &[u8],
) -> Result<(), Memory>
    requires other { IsOther (parts_value parts.now) }
    requires none { HasNoPieces (kind_named parts.now.name.now) open_global parts.now.name.now value.now }
    requires value { HasValue parts.now.body.now value.now }
    requires utf8 { IsUtf8 value.now }
    ensures { OnOk result (AddsOctets (MakesField open_global (parts_value parts.now)) made.old made.new) }
{
    if keeps_name(parts.name) {
        push_kept(made, b"", parts, value)
    } else {
        push_kept(made, b"Downgraded-", parts, value)
    }
}

// Puts a field of this value last, made anew.
fn push_valued(
    alloc: Global,
    open_global: bool,
    kind: Kind,
    parts: &Parts<'_>,
    value: &[u8],
    made: &mut Octets,
) -> Result<(), Memory>
    requires kind { kind ≡ kind_named parts.now.name.now }
    requires other { IsOther (parts_value parts.now) }
    requires value { HasValue parts.now.body.now value.now }
    requires utf8 { IsUtf8 value.now }
    ensures { OnOk result (AddsOctets (MakesField open_global (parts_value parts.now)) made.old made.new) }
{
    let len = made.len();
    if push_pieces(alloc, open_global, kind, parts, value, made)? {
        return Ok(());
    }
    made.truncate(len);
    push_whole(open_global, made, parts, value)
}

/// Puts a structured field last, or one whose name begins with `-`, made anew.
pub fn push_structured(
    alloc: Global,
    open_global: bool,
    kind: Kind,
    parts: &Parts<'_>,
    made: &mut Octets,
) -> Result<(), Memory>
    requires kind { kind ≡ kind_named parts.now.name.now }
    requires other { IsOther (parts_value parts.now) }
    requires folded { IsFolded parts.now.body.now }
    requires utf8 { IsUtf8 parts.now.body.now }
    requires high { list_all is_ascii parts.now.body.now ≡ false }
    ensures { OnOk result (AddsOctets (MakesField open_global (parts_value parts.now)) made.old made.new) }
{
    if let Some(value) = line_value(parts.body) {
        return push_valued(alloc, open_global, kind, parts, value, made);
    }
    let value = value_of(alloc, parts.body)?;
    push_valued(alloc, open_global, kind, parts, value.as_slice(), made)
}
