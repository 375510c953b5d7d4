//! The rewriting of a field.
ghost use Rattle.std.specs.Prelude.{◌≡◌, ◌↔◌, ◌++◌, true, false, IfOk, OnOk, IsUtf8};
ghost use Rattle.std.specs.List.{list_all};
ghost use Rattle.mail_wire.specs.Folds.{IsFolded};
ghost use Rattle.mail_wire.specs.Octets.{is_ascii};
ghost use Rattle.utf8_fields.specs.Parts.{IsField, field_octets};
ghost use Rattle.utf8_fields.specs.private.Views.{parts_value};
ghost use Rattle.field_downgrade.specs.Message.{IsServedField, PutsServed};
ghost use Rattle.field_downgrade.specs.Stands.{HasFieldLayout, Stands, KeepsLines, with_body};
ghost use Rattle.field_downgrade.specs.private.Steps.{AddsOctets, MakesUnstructured, PutsNamed};
ghost use Rattle.field_downgrade.specs.private.Views.{made_from, IsKeep};

use crate::global_bodies::change_global;
use crate::kind::{is_type, keeps_words, kind_of};
use crate::segments::write_body;
use crate::structured::push_structured;
use mail_wire::{Memory, Octets, is_ascii};
use std::alloc::Global;
use utf8_fields::{Parts, split_field, value_of};

/// A field as it is served: as it was, or made anew.
#[derive(Drop)]
pub enum Rewrite {
    Keep,
    New(Octets),
}

// Puts an unstructured field last, with its words in ASCII.
fn push_unstructured(alloc: Global, parts: &Parts<'_>, made: &mut Octets) -> Result<(), Memory>
    requires folded { IsFolded parts.now.body.now }
    requires utf8 { IsUtf8 parts.now.body.now }
    ensures { OnOk result (AddsOctets (MakesUnstructured (parts_value parts.now)) made.old made.new) }
{
    made.push_slice(parts.name)?;
    made.push(b':')?;
    write_body(alloc, parts.body, made)?;
    made.push_slice(parts.ending)
}

// Puts a field with an octet above 127 last, made anew.
fn push_high(alloc: Global, raw: &[u8], open_global: bool, made: &mut Octets) -> Result<(), Memory>
    requires field { IsField raw.now }
    requires high { list_all is_ascii raw.now ≡ false }
    ensures { OnOk result (AddsOctets (IsServedField open_global raw.now) made.old made.new) }
{
    let parts = split_field(raw);
    let kind = kind_of(parts.name);
    if keeps_words(kind, parts.name) {
        push_unstructured(alloc, &parts, made)
    } else {
        push_structured(alloc, open_global, kind, &parts, made)
    }
}

// Puts a field of these parts with another body last.
fn push_with_body(made: &mut Octets, parts: &Parts<'_>, body: &[u8]) -> Result<(), Memory>
    ensures { OnOk result (made.new ≡ made.old ++ field_octets (with_body (parts_value parts.now) body.now)) }
{
    made.push_slice(parts.name)?;
    made.push_slice(parts.white)?;
    made.push(b':')?;
    made.push_slice(body)?;
    made.push_slice(parts.ending)
}

// Puts the ASCII Content-Type of an opened message/global last as the one of a message, and answers whether it is one.
fn push_named(alloc: Global, raw: &[u8], made: &mut Octets) -> Result<bool, Memory>
    requires field { IsField raw.now }
    requires ascii { list_all is_ascii raw.now ≡ true }
    ensures { IfOk result (λ named. PutsNamed raw.now named made.old made.new) }
{
    let parts = split_field(raw);
    if !is_type(parts.name) {
        return Ok(false);
    }
    let value = value_of(alloc, parts.body)?;
    let Some(body) = change_global(alloc, parts.body, value.as_slice())? else {
        return Ok(false);
    };
    push_with_body(made, &parts, body.as_slice())?;
    Ok(true)
}

/// Puts a field of a block last as it is served, where that is another field, and answers whether it is: it is ASCII then. A
/// Content-Type of an entity that is an opened message/global says `message/rfc822`.
pub fn push_downgraded(
    alloc: Global,
    raw: &[u8],
    open_global: bool,
    made: &mut Octets,
) -> Result<bool, Memory>
    requires { IsField raw.now }
    ensures { IfOk result (λ is_new. PutsServed open_global raw.now is_new made.old made.new) }
{
    if !is_ascii(raw) {
        push_high(alloc, raw, open_global, made)?;
        return Ok(true);
    }
    if !open_global {
        return Ok(false);
    }
    push_named(alloc, raw, made)
}

/// Rewrites a field of a block, so that it is ASCII, as `push_downgraded` does.
pub fn downgrade_field(alloc: Global, raw: &[u8], open_global: bool) -> Result<Rewrite, Memory>
    requires { IsField raw.now }
    ensures layout { IfOk result (λ r. HasFieldLayout open_global raw.now (made_from raw.now r)) }
    ensures keep { IfOk result (λ r. IsKeep r ↔ (made_from raw.now r ≡ raw.now)) }
    ensures stands { IfOk result (λ r. Stands raw.now (made_from raw.now r) open_global) }
    ensures ascii { IfOk result (λ r. list_all is_ascii (made_from raw.now r) ≡ true) }
    ensures lines { IfOk result (λ r. KeepsLines raw.now (made_from raw.now r)) }
{
    let mut made = Octets::new(alloc);
    if push_downgraded(alloc, raw, open_global, &mut made)? {
        Ok(Rewrite::New(made))
    } else {
        Ok(Rewrite::Keep)
    }
}
