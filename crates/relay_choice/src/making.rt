//! Mail objects, made of what a queue keeps.
ghost use Rattle.std.specs.Prelude.{◌≡◌, ℕ, List, IfOk, IfSome, map};
ghost use Rattle.std.specs.List.{All};
ghost use Rattle.journal_records.specs.Stored.{HasMark, mark_in};
ghost use Rattle.mime_tree.specs.declared.entity.Entity.{Entity};
ghost use Rattle.relay_choice.specs.MailObjects.{HasTextDomain, IsAddressed, mail_object_of as mail_object_at_addresses, path_form as path_form_of, recipient_at as recipient_at_address};

use crate::mail_objects::{MailObject, Recipient, Recipients};
use crate::plans::{Form, form_of, needs};
use address_grammar::Address;
use mail_wire::{Items, Memory};
use std::alloc::Global;

#[tactic(auto, using(crate::proofs::TextLemmas::text_domain))]
fn recipient_at(alloc: Global, address: Address) -> Result<Recipient, Memory>
    requires { HasTextDomain address }
    ensures { IfOk result (λ recipient. recipient ≡ recipient_at_address address) }
{
    let form = form_of(alloc, &address)?;
    Ok(Recipient { address, form })
}

fn recipients_at(alloc: Global, addresses: Items<Address>) -> Result<Recipients, Memory>
    requires { All HasTextDomain addresses }
    ensures { IfOk result (λ recipients. recipients ≡ map recipient_at_address addresses) }
{
    let mut recipients = Items::new(alloc);
    for address in addresses.into_vec() {
        recipients.push(recipient_at(alloc, address)?)?;
    }
    Ok(recipients)
}

// The form of a path; the null path is ASCII.
#[tactic(auto, using(crate::proofs::TextLemmas::text_domain))]
fn path_form(alloc: Global, path: &Option<Address>) -> Result<Form, Memory>
    requires { IfSome path.now HasTextDomain }
    ensures { IfOk result (λ form. form ≡ path_form_of path.now) }
{
    match path {
        Some(address) => form_of(alloc, address),
        None => Ok(Form::Ascii),
    }
}

/// The mail object of a queued message whose octets have this mark, from a path to recipients at these addresses.
pub fn mail_object_of(
    alloc: Global,
    path: Option<Address>,
    addresses: Items<Address>,
    mark: u8,
) -> Result<MailObject, Memory>
    requires mark { (octets : List ℕ) × HasMark octets mark }
    requires path { IfSome path HasTextDomain }
    requires addresses { All HasTextDomain addresses }
    ensures mail_object { IfOk result (λ mail_object. (octets : List ℕ) (entities : List Entity) → mark ≡ mark_in octets entities
        → mail_object ≡ mail_object_at_addresses path addresses octets entities) }
    ensures addressed { IfOk result IsAddressed }
{
    let form = path_form(alloc, &path)?;
    let recipients = recipients_at(alloc, addresses)?;
    Ok(MailObject {
        path,
        demands: needs(form, mark),
        recipients,
    })
}
