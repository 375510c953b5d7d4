//! Addresses as they are served.
ghost use Rattle.std.specs.Prelude.{◌≡◌, is_some, IfOk, IsTrue, IsUtf8};
ghost use Rattle.address_lists.specs.ListPieces.{served_domain as served_domain_of, served_address};

use address_grammar::Address;
use mail_wire::{Memory, Octets, is_ascii};
use std::alloc::Global;

fn served_domain(alloc: Global, domain: &[u8]) -> Result<Option<Octets>, Memory>
    requires { IsUtf8 domain.now }
    ensures { IfOk result (λ served. served ≡ served_domain_of domain.now) }
{
    if is_ascii(domain) {
        let domain = Octets::from_slice(alloc, domain)?;
        return Ok(Some(domain));
    }
    let Ok(domain) = str::from_utf8(domain) else {
        unreachable!();
    };
    ace_domains::normal(alloc, domain)
}

/// Whether an address is ASCII, and so served as it is.
pub fn is_ascii_address(address: &Address) -> bool
    ensures { IsTrue result → served_address address.now ≡ Some address.now }
{
    is_ascii(address.local.as_slice()) && is_ascii(address.domain.as_slice())
}

/// An address as it is served, or nothing where it can't be.
pub fn served(alloc: Global, address: &Address) -> Result<Option<Address>, Memory>
    requires { IsUtf8 address.now.domain }
    ensures { IfOk result (λ served. served ≡ served_address address.now) }
{
    if !is_ascii(address.local.as_slice()) {
        return Ok(None);
    }
    let Some(domain) = served_domain(alloc, address.domain.as_slice())? else {
        return Ok(None);
    };
    let local = Octets::from_slice(alloc, address.local.as_slice())?;
    Ok(Some(Address { local, domain }))
}

/// Whether an address can be served. The domain of most is ASCII, and then nothing is made to see it.
pub fn can_be_served(alloc: Global, address: &Address) -> Result<bool, Memory>
    requires { IsUtf8 address.now.domain }
    ensures { IfOk result (λ can. can ≡ is_some (served_address address.now)) }
{
    let local = address.local.as_slice();
    if !is_ascii(local) {
        return Ok(false);
    }
    if is_ascii(address.domain.as_slice()) {
        return Ok(true);
    }
    let domain = served_domain(alloc, address.domain.as_slice())?;
    Ok(domain.is_some())
}
