//! Whether terms can be kept.
ghost use Rattle.std.specs.Prelude.{◌≡◌, ◌≢◌, ◌≤◌, ◌↔◌, ◌++◌, ℕ, List, true, length, IfOk, IsTrue, IsUtf8, MatchOption};
ghost use Rattle.std.specs.List.{list_all};
ghost use Rattle.encapsulated_fields.specs.AddressForms.{xtext_form};
ghost use Rattle.dsn_terms.specs.Xtexts.{is_printable, shortest_xtext};
ghost use Rattle.dsn_terms.specs.KeptTerms.{CanKeepEnvid, CanKeepOrcpt};

use crate::xtext::{are_printable, fits_xtext};
use encapsulated_fields::xtext_of;
use mail_wire::{Memory, is_utf8};
use std::alloc::Global;

// Whether octets can be kept that are written as xtext of at most so many.
fn can_keep_octets(octets: &[u8], most: usize) -> bool
    requires { most ≤ 1000 }
    ensures { IsTrue result ↔ ((list_all is_printable octets.now ≡ true) × (length (shortest_xtext octets.now) ≤ most)) }
{
    are_printable(octets) && fits_xtext(octets, most)
}

/// Whether an identifier of a message can be kept: one that is empty, or that a parameter can say.
pub fn can_keep_envid(envid: &[u8]) -> bool
    ensures { IsTrue result ↔ CanKeepEnvid envid.now }
{
    can_keep_octets(envid, 100)
}

// What follows a type with its `;`, which has to be in lower case.
fn after_type<'a>(front: &[u8], orcpt: &'a [u8]) -> Option<&'a [u8]>
    ensures { MatchOption result ((rest : List ℕ) → orcpt.now ≢ front.now ++ rest) (λ rest. orcpt.now ≡ front.now ++ rest.now) }
{
    orcpt.strip_prefix(front)
}

// Whether an address of type `utf-8` can be kept.
fn can_keep_utf8(alloc: Global, address: &[u8]) -> Result<bool, Memory>
    ensures { IfOk result (λ can. IsTrue can ↔ (IsUtf8 address.now × (length (xtext_form address.now) ≤ 500))) }
{
    if !is_utf8(address) {
        return Ok(false);
    }
    let text = xtext_of(alloc, address)?;
    Ok(text.len() <= 500)
}

/// Whether an original recipient can be kept: one that is empty, or that a parameter can say.
pub fn can_keep_orcpt(alloc: Global, orcpt: &[u8]) -> Result<bool, Memory>
    ensures { IfOk result (λ can. IsTrue can ↔ CanKeepOrcpt orcpt.now) }
{
    if orcpt.is_empty() {
        return Ok(true);
    }
    if let Some(address) = after_type(b"rfc822;", orcpt) {
        return Ok(can_keep_octets(address, 500));
    }
    if let Some(address) = after_type(b"utf-8;", orcpt) {
        return can_keep_utf8(alloc, address);
    }
    Ok(false)
}
