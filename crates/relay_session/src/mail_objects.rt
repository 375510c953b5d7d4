//! The queue as mail objects.
ghost use Rattle.std.specs.Prelude.{◌≡◌, IfOk};
ghost use Rattle.std.specs.List.{All, AllZip};
ghost use Rattle.relay_choice.specs.MailObjects.{IsAddressed};
ghost use Rattle.relay_session.specs.MailObjects.{IsMailObjectAt, addresses_of as addresses_in};
ghost use Rattle.relay_session.specs.private.Acting.{IsKnownEntry};

use address_grammar::Address;
use mail_store::{Queued, Store, Unsettled};
use mail_wire::{Items, Memory, Octets};
use relay_choice::{MailObject, MailObjects, mail_object_of};
use std::alloc::Global;

/// A copy of an address.
pub fn copy_of(alloc: Global, address: &Address) -> Result<Address, Memory>
    ensures { IfOk result (λ copy. copy ≡ address.now) }
{
    Ok(Address {
        local: Octets::from_slice(alloc, address.local.as_slice())?,
        domain: Octets::from_slice(alloc, address.domain.as_slice())?,
    })
}

// A copy of a path.
fn path_of(alloc: Global, path: &Option<Address>) -> Result<Option<Address>, Memory>
    ensures { IfOk result (λ copy. copy ≡ path.now) }
{
    match path {
        Some(address) => Ok(Some(copy_of(alloc, address)?)),
        None => Ok(None),
    }
}

// Copies of the addresses of recipients.
fn addresses_of(alloc: Global, unsettled: &[Unsettled]) -> Result<Items<Address>, Memory>
    ensures { IfOk result (λ addresses. addresses ≡ addresses_in unsettled.now) }
{
    let mut addresses = Items::new(alloc);
    for one in unsettled {
        addresses.push(copy_of(alloc, &one.address)?)?;
    }
    Ok(addresses)
}

// The mail object of an entry of the queue.
#[tactic(auto, using(crate::proofs::MailObjectAddresses::text_path, crate::proofs::MailObjectAddresses::mail_object_there))]
fn mail_object_at(alloc: Global, store: &Store, queued: &Queued) -> Result<MailObject, Memory>
    requires { IsKnownEntry store.now.kept queued.now }
    ensures mail_object { IfOk result (IsMailObjectAt store.now.kept queued.now) }
    ensures addressed { IfOk result IsAddressed }
{
    let mark = store.queue_mark(queued.entry);
    let path = path_of(alloc, &queued.path)?;
    let addresses = addresses_of(alloc, queued.unsettled.as_slice())?;
    mail_object_of(alloc, path, addresses, mark)
}

/// The mail objects of a queue, in order.
pub fn mail_objects_of(
    alloc: Global,
    store: &Store,
    queue: &[Queued],
) -> Result<MailObjects, Memory>
    requires { All (IsKnownEntry store.now.kept) queue.now }
    ensures mail_objects { IfOk result (AllZip (IsMailObjectAt store.now.kept) queue.now) }
    ensures addressed { IfOk result (All IsAddressed) }
{
    let mut mail_objects = Items::new(alloc);
    for queued in queue {
        mail_objects.push(mail_object_at(alloc, store, queued)?)?;
    }
    Ok(mail_objects)
}
