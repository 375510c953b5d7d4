//! Addresses in a report.
ghost use Rattle.std.specs.Prelude.{◌≡◌, ◌≢◌, ◌++◌, ℕ, true, List, Some, IsUtf8, IfOk, IfSome, IsSomeAnd};
ghost use Rattle.std.specs.List.{list_all};
ghost use Rattle.mail_wire.specs.Octets.{is_ascii};
ghost use Rattle.address_grammar.specs.declared.Address.{Address};
ghost use Rattle.address_grammar.specs.Addresses.{address_text};
ghost use Rattle.address_grammar.specs.Paths.{ComesInPath, HasPath, in_angles};
ghost use Rattle.utf8_reports.specs.Recipients.{typed_address, utf8_form};
ghost use Rattle.utf8_reports.specs.private.Reading.{SpellsAddress};

use crate::fields::following;
use address_grammar::{Address, AddressFault, read_path, write_address};
use encapsulated_fields::{read_xtext, unitext_of, xtext_of};
use mail_wire::{Memory, Octets, is_ascii};
use std::alloc::Global;

/// Octets in angle brackets.
pub fn in_angles(alloc: Global, text: &[u8]) -> Result<Octets, Memory>
    ensures { IfOk result (λ made. made ≡ in_angles text.now) }
{
    let mut made = Octets::from_slice(alloc, b"<")?;
    made.push_slice(text)?;
    made.push(b'>')?;
    Ok(made)
}

// The address of a path, and nothing of the null path and of what is no path.
fn path_address(alloc: Global, path: &[u8]) -> Result<Option<Address>, Memory>
    ensures found { IfOk result (λ o. IfSome o (λ address. HasPath path.now (Some address))) }
    ensures exact { (address : Address) → HasPath path.now (Some address) → IfOk result (λ o. o ≡ Some address) }
{
    match read_path(alloc, path) {
        Ok(found) => Ok(found),
        Err(AddressFault::Malformed) => Ok(None),
        Err(AddressFault::Memory) => Err(Memory),
    }
}

/// The address of which this is the text, as it is written.
pub fn read_address(alloc: Global, text: &[u8]) -> Result<Option<Address>, Memory>
    ensures found { IfOk result (λ o. IfSome o (SpellsAddress text.now)) }
    ensures exact { (address : Address) → SpellsAddress text.now address → IfOk result (λ o. IsSomeAnd o (λ found. found ≡ address)) }
{
    let path = in_angles(alloc, text)?;
    let Some(address) = path_address(alloc, path.as_slice())? else {
        return Ok(None);
    };
    let written = write_address(alloc, &address)?;
    if written.as_slice() != text {
        return Ok(None);
    }
    Ok(Some(address))
}

// The form that an address takes which isn't ASCII.
fn utf8_form(alloc: Global, text: &[u8], global: bool) -> Result<Octets, Memory>
    requires { IsUtf8 text.now }
    ensures { IfOk result (λ form. form ≡ utf8_form global text.now) }
{
    if global {
        unitext_of(alloc, text)
    } else {
        xtext_of(alloc, text)
    }
}

/// The text of an address, after its type.
pub fn typed_address(alloc: Global, text: &[u8], global: bool) -> Result<Octets, Memory>
    requires { IsUtf8 text.now }
    ensures { IfOk result (λ typed. typed ≡ typed_address global text.now) }
{
    if is_ascii(text) {
        let mut typed = Octets::from_slice(alloc, b"rfc822; ")?;
        typed.push_slice(text)?;
        return Ok(typed);
    }
    let form = utf8_form(alloc, text, global)?;
    let mut typed = Octets::from_slice(alloc, b"utf-8; ")?;
    typed.push_slice(form.as_slice())?;
    Ok(typed)
}

// The text that isn't ASCII and has this form.
fn formed_text(alloc: Global, form: &[u8], global: bool) -> Result<Option<Octets>, Memory>
    ensures found { IfOk result (λ o. IfSome o (λ text. IsUtf8 text × (list_all is_ascii text ≢ true) × (form.now ≡ utf8_form global text))) }
    ensures exact { (text : List ℕ) → IsUtf8 text → list_all is_ascii text ≢ true → form.now ≡ utf8_form global text → IfOk result (λ o. o ≡ Some text) }
{
    let Some(text) = read_xtext(alloc, form)? else {
        return Ok(None);
    };
    if is_ascii(text.as_slice()) {
        return Ok(None);
    }
    let written = utf8_form(alloc, text.as_slice(), global)?;
    if written.as_slice() != form {
        return Ok(None);
    }
    Ok(Some(text))
}

// The text that stands after its type so.
fn typed_text(alloc: Global, typed: &[u8], global: bool) -> Result<Option<Octets>, Memory>
    ensures found { IfOk result (λ o. IfSome o (λ text. typed.now ≡ typed_address global text)) }
    ensures exact { (text : List ℕ) → IsUtf8 text → typed.now ≡ typed_address global text → IfOk result (λ o. o ≡ Some text) }
{
    if let Some(text) = following(typed, b"rfc822; ") {
        if !is_ascii(text) {
            return Ok(None);
        }
        let text = Octets::from_slice(alloc, text)?;
        return Ok(Some(text));
    }
    match following(typed, b"utf-8; ") {
        Some(form) => formed_text(alloc, form, global),
        None => Ok(None),
    }
}

/// The address that stands after its type so.
pub fn read_typed(alloc: Global, typed: &[u8], global: bool) -> Result<Option<Address>, Memory>
    ensures found { IfOk result (λ o. IfSome o (λ address. ComesInPath address × (typed.now ≡ typed_address global (address_text address)))) }
    ensures exact { (address : Address) → ComesInPath address → typed.now ≡ typed_address global (address_text address)
        → IfOk result (λ o. IsSomeAnd o (λ found. found ≡ address)) }
{
    match typed_text(alloc, typed, global)? {
        Some(text) => read_address(alloc, text.as_slice()),
        None => Ok(None),
    }
}
