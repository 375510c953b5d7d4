//! The texts of addresses and domains, and what mailboxes and domains are known by.
ghost use Rattle.std.specs.Prelude.{◌≡◌, ◌⊎◌, ◌↔◌, [], map, IfOk, IfSome, IfNone, IsTrue, Some, encode_utf8_all, chars};
ghost use Rattle.std.specs.List.{All};
ghost use Rattle.caseless.specs.Caseless.{canonical_key};
ghost use Rattle.ace_domains.specs.Domains.{compared_form};
ghost use Rattle.address_grammar.specs.Addresses.{address_text};
ghost use Rattle.address_grammar.specs.Paths.{ComesInPath};
ghost use Rattle.address_grammar.specs.declared.Address.{Address as AddressValue};
ghost use Rattle.journal_records.specs.Addresses.{IsTextOfAddress, IsKeptAddress, IsDomainText, mailbox_key, path_text as path_text_of};

use crate::limits::TEXT_MAX;
use crate::records::Texts;
use ace_domains::normal;
use address_grammar::{Address, AddressFault, read_path, write_address};
use caseless::default_case_fold_str;
use mail_wire::{Memory, Octets};
use std::alloc::Global;
use unicode_normalization::to_nfd;

/// The address of a text such as `ann@example.com`, which in angle brackets is a path (RFC 5321, 4.1.2), or none where it is
/// the text of no address.
pub fn read_text(alloc: Global, text: &[u8]) -> Result<Option<Address>, Memory>
    ensures some { IfOk result (λ found. IfSome found (IsTextOfAddress text.now)) }
    ensures none { IfOk result (λ found. IfNone found ((address : AddressValue) → ¬ IsTextOfAddress text.now address)) }
{
    let mut path = Octets::from_slice(alloc, b"<")?;
    path.push_slice(text)?;
    path.push(b'>')?;
    match read_path(alloc, path.as_slice()) {
        Ok(found) => Ok(found),
        Err(AddressFault::Malformed) => Ok(None),
        Err(AddressFault::Memory) => Err(Memory),
    }
}

// Whether the text is that of an address, and within its limit.
fn is_address(alloc: Global, text: &[u8]) -> Result<bool, Memory>
    ensures { IfOk result (λ is. IsTrue is ↔ IsKeptAddress text.now) }
{
    if text.len() > TEXT_MAX {
        return Ok(false);
    }
    match read_text(alloc, text)? {
        Some(_) => Ok(true),
        None => Ok(false),
    }
}

/// Whether each of the texts is that of an address, and within its limit.
pub fn are_addresses(alloc: Global, texts: &[Octets]) -> Result<bool, Memory>
    ensures { IfOk result (λ are. IsTrue are ↔ All IsKeptAddress texts.now) }
{
    for text in texts {
        if !is_address(alloc, text.as_slice())? {
            return Ok(false);
        }
    }
    Ok(true)
}

/// Whether the text is that of a path: none, or that of an address.
pub fn is_path_text(alloc: Global, text: &[u8]) -> Result<bool, Memory>
    ensures { IfOk result (λ is. IsTrue is ↔ ((text.now ≡ []) ⊎ IsKeptAddress text.now)) }
{
    if text.is_empty() {
        return Ok(true);
    }
    is_address(alloc, text)
}

/// Whether the text is a domain's normal form.
pub fn is_domain_text(alloc: Global, text: &[u8]) -> Result<bool, Memory>
    ensures { IfOk result (λ is. IsTrue is ↔ IsDomainText text.now) }
{
    let Ok(domain) = std::str::from_utf8(text) else {
        return Ok(false);
    };
    match normal(alloc, domain)? {
        Some(form) => Ok(form.as_slice() == text),
        None => Ok(false),
    }
}

/// What a domain is known by: its normal form, or itself where it has none.
pub fn domain_key(alloc: Global, domain: &str) -> Result<Octets, Memory>
    ensures { IfOk result (λ key. key ≡ compared_form domain.now) }
{
    match normal(alloc, domain)? {
        Some(form) => Ok(form),
        None => Octets::from_slice(alloc, domain.as_bytes()),
    }
}

// What any local part is known by.
fn folded_key(alloc: Global, local: &str) -> Result<Octets, Memory>
    ensures { IfOk result (λ key. key ≡ encode_utf8_all (canonical_key (chars local.now))) }
{
    let decomposed = to_nfd(alloc, local)?;
    let folded = default_case_fold_str(alloc, decomposed.as_str())?;
    let key = to_nfd(alloc, folded.as_str())?;
    Ok(Octets::from_vec(key.into_bytes()))
}

// What a local part is known by. One of ASCII needs no tables.
fn local_key(alloc: Global, local: &str) -> Result<Octets, Memory>
    ensures { IfOk result (λ key. key ≡ encode_utf8_all (canonical_key (chars local.now))) }
{
    if local.is_ascii() {
        let key = local.as_bytes().to_ascii_lowercase(alloc)?;
        return Ok(Octets::from_vec(key));
    }
    folded_key(alloc, local)
}

/// What a mailbox is known by.
pub fn mailbox_key(alloc: Global, address: &Address) -> Result<Octets, Memory>
    requires { ComesInPath address.now }
    ensures { IfOk result (λ key. key ≡ mailbox_key address.now) }
{
    let Ok(local) = std::str::from_utf8(address.local.as_slice()) else {
        unreachable!();
    };
    let Ok(domain) = std::str::from_utf8(address.domain.as_slice()) else {
        unreachable!();
    };
    let mut key = local_key(alloc, local)?;
    key.push(255)?;
    key.push_slice(domain_key(alloc, domain)?.as_slice())?;
    Ok(key)
}

/// The address text of each address.
pub fn address_texts(alloc: Global, addresses: &[Address]) -> Result<Texts, Memory>
    requires { All ComesInPath addresses.now }
    ensures { IfOk result (λ texts. texts ≡ map address_text addresses.now) }
{
    let mut texts = Vec::new(alloc);
    for address in addresses {
        texts.push(write_address(alloc, address)?)?;
    }
    Ok(Texts::from_vec(texts))
}

/// The text `local@domain` of a path's address, without angle brackets; the null path `<>` has none (RFC 5321, 4.5.5).
pub fn path_text(alloc: Global, path: &Option<Address>) -> Result<Octets, Memory>
    requires { IfSome path.now ComesInPath }
    ensures { IfOk result (λ text. text ≡ path_text_of path.now) }
{
    match path {
        Some(address) => write_address(alloc, address),
        None => Ok(Octets::new(alloc)),
    }
}
