//! Domains in their A-label form: ToASCII of UTS #46, and which domains are the same.
#![tactic(auto)]

ghost use Rattle.std.specs.Prelude.{◌≡◌, ◌↔◌, IfOk, IfSome, IsAscii, IsTrue, Some};
ghost use Rattle.ace_domains.specs.Domains.{IsDomain, IsDnsName, SameDomain, compared_form, normal_form};

pub mod laws;

use idna::Errors;
use mail_wire::{Memory, Octets};
use std::alloc::Global;

/// The form of a domain in A-labels, by which domains are compared and by which they are known where UTF-8 isn't.
///
/// Processing is nontransitional: `ß` and `ς` are letters of their own. A domain that ends with a dot has no form, and
/// neither has one with an octet such as `_` that no host name has.
#[tactic(auto, using(crate::proofs::FormLemmas::form_name, crate::proofs::FormLemmas::form_domain, crate::proofs::FormLemmas::form_own, crate::proofs::FormLemmas::form_ascii))]
pub fn normal(alloc: Global, domain: &str) -> Result<Option<Octets>, Memory>
    ensures value { IfOk result (λ form. form ≡ normal_form domain.now) }
    ensures ascii { IfOk result (λ answer. IfSome answer (λ form. IsAscii form)) }
    ensures domain { IfOk result (λ answer. IfSome answer (λ form. IsDomain form)) }
    ensures name { IfOk result (λ answer. IfSome answer (λ form. IsDnsName form)) }
    ensures own { IfOk result (λ answer. IfSome answer (λ form. normal_form form ≡ Some form)) }
{
    match idna::domain_to_ascii_strict(alloc, domain) {
        Ok(form) => Ok(Some(Octets::from_vec(form.into_bytes()))),
        Err(Errors::Invalid) => Ok(None),
        Err(Errors::OutOfMemory) => Err(Memory),
    }
}

// The form, or the domain where it has none.
fn compared<'a>(form: &'a Option<Octets>, domain: &'a str) -> &'a [u8]
    requires { form.now ≡ normal_form domain.now }
    ensures { result.now ≡ compared_form domain.now }
{
    match form {
        Some(form) => form.as_slice(),
        None => domain.as_bytes(),
    }
}

/// Whether two domains are the same. One without a normal form is the same as itself alone.
pub fn same(alloc: Global, a: &str, b: &str) -> Result<bool, Memory>
    ensures { IfOk result (λ same. IsTrue same ↔ SameDomain a.now b.now) }
{
    let a_form = normal(alloc, a)?;
    let b_form = normal(alloc, b)?;
    Ok(compared(&a_form, a) == compared(&b_form, b))
}
