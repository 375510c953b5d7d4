//! Paths, and the text of an address.
ghost use Rattle.std.specs.Prelude.{◌≡◌, ◌==◌, ◌++◌, ◌∷◌, [], ℕ, true, List, position, Option, Some, IfOk, IfSome, IfNone, OnOk, MatchResult, IsTrue, ◌↔◌, IsUtf8};
ghost use Rattle.std.specs.List.{flat_map, list_all};
ghost use Rattle.field_tokens.specs.Tokens.{TokenValue};
ghost use Rattle.field_tokens.specs.TokenOctets.{is_atom_octet as is_atom_octet_of};
ghost use Rattle.field_tokens.specs.declared.Style.TheVariants.{Mail};
ghost use Rattle.address_grammar.specs.private.Lexemes.{are_blank as are_blank_of};
ghost use Rattle.address_grammar.specs.private.PlainPaths.{IsPlainPath};
ghost use Rattle.field_tokens.specs.Lexemes.{values_of};
ghost use Rattle.address_grammar.specs.Addresses.{is_some_atom as is_some_atom_of, is_dot_atom as is_dot_atom_of, quoted_octet, quoted_string, local_text, address_text};
ghost use Rattle.address_grammar.specs.Paths.{IsFirstAngled, HasPath, ComesInPath, in_angles};
ghost use Rattle.address_grammar.specs.declared.Address.{Address};

use crate::addresses::read_address;
use crate::lexemes::{are_blank, mail_marks, split_at_mark};
use crate::{Address, AddressFault};
use field_tokens::{Lexemes, Style, is_atom_octet};
use mail_wire::{Memory, Octets, is_ascii, is_utf8};
use std::alloc::Global;

/// What stands before and within angle brackets, the first of each kind, after which nothing but gaps and comments stands.
pub fn split_angled<'a, 'b>(lexemes: Lexemes<'a, 'b>) -> Option<(Lexemes<'a, 'b>, Lexemes<'a, 'b>)>
    ensures found { IfSome result (λ x. IsFirstAngled (values_of lexemes.entry) (values_of x.0) (values_of x.1)) }
    ensures none { IfNone result ((before inner : List TokenValue) → ¬ IsFirstAngled (values_of lexemes.entry) before inner) }
{
    let Some((before, following)) = split_at_mark(lexemes, b'<') else {
        return None;
    };
    let Some((inner, after)) = split_at_mark(following, b'>') else {
        return None;
    };
    if !are_blank(after) {
        return None;
    }
    Some((before, inner))
}

// The address of a path, however it is written, and nothing for the null path `<>`.
fn read_any_path(alloc: Global, text: &[u8]) -> Result<Option<Address>, AddressFault>
    ensures ok { IfOk result (HasPath text.now) }
    ensures malformed { result ≡ Err AddressFault.Malformed → (answer : Option Address) → ¬ HasPath text.now answer }
    ensures exact { (answer : Option Address) → HasPath text.now answer
        → MatchResult result (λ found. found ≡ answer) (λ fault. fault ≡ AddressFault.Memory) }
{
    let marks = mail_marks(alloc, text)?;
    let Some((before, inner)) = split_angled(Lexemes::new(text, &marks)) else {
        return Err(AddressFault::Malformed);
    };
    if !are_blank(before) {
        return Err(AddressFault::Malformed);
    }
    if are_blank(inner) {
        return Ok(None);
    }
    let address = read_address(alloc, inner)?;
    Ok(Some(address))
}

fn are_atom_octets(octets: &[u8]) -> bool
    ensures { result ≡ list_all (is_atom_octet_of Mail) octets.now }
{
    octets
        .iter()
        .all(|octet| is_atom_octet(Style::Mail, *octet))
}

fn is_some_atom(octets: &[u8]) -> bool
    ensures { result ≡ is_some_atom_of octets.now }
{
    !octets.is_empty() && are_atom_octets(octets)
}

// Atoms divided by dots.
fn is_dot_atom(octets: &[u8]) -> bool
    ensures { result ≡ is_dot_atom_of octets.now }
{
    octets
        .split(|octet| *octet == b'.')
        .all(|atom| is_some_atom(atom))
}

fn find_at_sign(octets: &[u8]) -> Option<usize>
    ensures { result ≡ position (λ x. x == 64) octets.now }
{
    octets.iter().position(|octet| *octet == b'@')
}

// What stands before the first at sign, and what stands after it.
fn split_at_sign(octets: &[u8]) -> Option<(&[u8], &[u8])>
    ensures { IfSome result (λ x. octets.now ≡ x.0.now ++ 64 ∷ x.1.now) }
{
    let Some(at) = find_at_sign(octets) else {
        return None;
    };
    Some((&octets[..at], &octets[at + 1..]))
}

// Whether the octets are UTF-8. Most are ASCII, and that is sooner seen.
fn is_short_utf8(octets: &[u8]) -> bool
    ensures { IsTrue result ↔ IsUtf8 octets.now }
{
    if is_ascii(octets) {
        return true;
    }
    is_utf8(octets)
}

// The local part and the domain of a path in which no quotes, gaps, comments and literals stand.
fn split_plain(text: &[u8]) -> Option<(&[u8], &[u8])>
    ensures { IfSome result (λ x. IsPlainPath text.now x.0.now x.1.now) }
{
    let [b'<', inner @ .., b'>'] = text else {
        return None;
    };
    let Some((local, domain)) = split_at_sign(inner) else {
        return None;
    };
    if is_dot_atom(local) && is_dot_atom(domain) && is_short_utf8(text) {
        Some((local, domain))
    } else {
        None
    }
}

fn copied(alloc: Global, local: &[u8], domain: &[u8]) -> Result<Address, Memory>
    ensures local { IfOk result (λ address. address.local ≡ local.now) }
    ensures domain { IfOk result (λ address. address.domain ≡ domain.now) }
{
    let local = Octets::from_slice(alloc, local)?;
    let domain = Octets::from_slice(alloc, domain)?;
    Ok(Address { local, domain })
}

/// The address of a path, and nothing for the null path `<>`.
pub fn read_path(alloc: Global, text: &[u8]) -> Result<Option<Address>, AddressFault>
    ensures ok { IfOk result (HasPath text.now) }
    ensures malformed { result ≡ Err AddressFault.Malformed → (answer : Option Address) → ¬ HasPath text.now answer }
    ensures exact { (answer : Option Address) → HasPath text.now answer
        → MatchResult result (λ found. found ≡ answer) (λ fault. fault ≡ AddressFault.Memory) }
{
    let Some((local, domain)) = split_plain(text) else {
        return read_any_path(alloc, text);
    };
    let Ok(address) = copied(alloc, local, domain) else {
        return Err(AddressFault::Memory);
    };
    Ok(Some(address))
}

fn push_quoted_octet(made: &mut Octets, octet: u8) -> Result<(), Memory>
    ensures { OnOk result (made.new ≡ made.old ++ quoted_octet octet) }
{
    if octet == b'"' || octet == b'\\' {
        made.push(b'\\')?;
    }
    made.push(octet)
}

/// Puts a quoted string with this content last (RFC 5322, 3.2.4).
pub fn push_quoted_string(made: &mut Octets, content: &[u8]) -> Result<(), Memory>
    ensures { OnOk result (made.new ≡ made.old ++ quoted_string content.now) }
{
    made.push(b'"')?;
    for octet in content {
        push_quoted_octet(made, *octet)?;
    }
    made.push(b'"')
}

fn push_local(made: &mut Octets, local: &[u8]) -> Result<(), Memory>
    ensures { OnOk result (made.new ≡ made.old ++ local_text local.now) }
{
    if is_dot_atom(local) {
        made.push_slice(local)
    } else {
        push_quoted_string(made, local)
    }
}

/// Puts the text of an address last.
pub fn push_address(made: &mut Octets, address: &Address) -> Result<(), Memory>
    ensures { OnOk result (made.new ≡ made.old ++ address_text address.now) }
{
    push_local(made, address.local.as_slice())?;
    made.push(b'@')?;
    made.push_slice(address.domain.as_slice())
}

/// The text of an address: its local part, in quotes where it isn't atoms divided by dots, `@` and its domain.
pub fn write_address(alloc: Global, address: &Address) -> Result<Octets, Memory>
    requires { ComesInPath address.now }
    ensures text { IfOk result (λ made. made ≡ address_text address.now) }
    // In angle brackets it is read back.
    ensures read_back { IfOk result (λ made. HasPath (in_angles made) (Some address.now)) }
{
    let room = address.local.len().saturating_add(address.domain.len());
    let mut made = Octets::from_vec(Vec::with_capacity(alloc, room.saturating_add(1))?);
    push_address(&mut made, address)?;
    Ok(made)
}
