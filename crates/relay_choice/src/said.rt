//! The commands of a client.
ghost use Rattle.std.specs.Prelude.{◌≡◌, ◌++◌, Some, IfOk, OnOk, IsUtf8, codes, not, ◌&&◌, unwrap_or};
ghost use Rattle.std.specs.List.{list_any};
ghost use Rattle.address_grammar.specs.declared.Address.{Address as AddressValue};
ghost use Rattle.relay_choice.specs.declared.mail_objects.Recipient.{Recipient as RecipientValue};
ghost use Rattle.relay_choice.specs.MailObjects.{HasTextDomain, IsAddressed};
ghost use Rattle.relay_choice.specs.Relay.{sent_to};
ghost use Rattle.relay_choice.specs.Said.{is_ascii_form as is_ascii_form_of, said_domain, said_address, said_path, eight_word, smtputf8_word, ehlo_line as ehlo_line_of, needs_smtputf8, mail_line as mail_line_of, rcpt_line as rcpt_line_of};

use crate::mail_objects::{MailObject, Recipient};
use crate::plans::{Form, Offer};
use address_grammar::{Address, push_address};
use mail_wire::{Memory, Octets, is_ascii};
use std::alloc::Global;

/// EHLO, by this name.
pub fn ehlo_line(alloc: Global, name: &[u8]) -> Result<Octets, Memory>
    ensures { IfOk result (λ line. line ≡ ehlo_line_of name.now) }
{
    let mut line = Octets::from_slice(alloc, b"EHLO ")?;
    line.push_slice(name)?;
    line.push_slice(b"\r\n")?;
    Ok(line)
}

// A domain as this server is told it: none where it stays as it is.
fn normal_domain(alloc: Global, offer: Offer, domain: &[u8]) -> Result<Option<Octets>, Memory>
    requires { IsUtf8 domain.now }
    ensures { IfOk result (λ form. said_domain offer domain.now ≡ unwrap_or form domain.now) }
{
    if offer.smtputf8 || is_ascii(domain) {
        return Ok(None);
    }
    let Ok(domain) = str::from_utf8(domain) else {
        unreachable!();
    };
    ace_domains::normal(alloc, domain)
}

#[tactic(auto, using(crate::proofs::TextLemmas::text_domain))]
fn push_said_address(
    alloc: Global,
    line: &mut Octets,
    offer: Offer,
    address: &Address,
) -> Result<(), Memory>
    requires { HasTextDomain address.now }
    ensures { OnOk result (line.new ≡ line.old ++ said_address offer address.now) }
{
    let Some(domain) = normal_domain(alloc, offer, address.domain.as_slice())? else {
        return push_address(line, address);
    };
    let local = Octets::from_slice(alloc, address.local.as_slice())?;
    push_address(line, &Address { local, domain })
}

fn push_path(alloc: Global, line: &mut Octets, offer: Offer, path: &Address) -> Result<(), Memory>
    requires { HasTextDomain path.now }
    ensures { OnOk result (line.new ≡ line.old ++ said_path offer (Some path.now)) }
{
    line.push(b'<')?;
    push_said_address(alloc, line, offer, path)?;
    line.push(b'>')
}

fn is_ascii_form(form: Form) -> bool
    ensures { result ≡ is_ascii_form_of form }
{
    matches!(form, Form::Ascii)
}

fn is_some_not_ascii(recipients: &[Recipient]) -> bool
    ensures { result ≡ list_any (λ (recipient : RecipientValue). not (is_ascii_form_of recipient.form)) recipients.now }
{
    recipients
        .iter()
        .any(|recipient| !is_ascii_form(recipient.form))
}

// Whether the mail object asks for SMTPUTF8, where it is sent to all its recipients.
fn needs_smtputf8(mail_object: &MailObject) -> bool
    ensures { result ≡ needs_smtputf8 mail_object.now.demands mail_object.now.recipients }
{
    mail_object.demands.header
        || !is_ascii_form(mail_object.demands.path)
        || is_some_not_ascii(mail_object.recipients.as_slice())
}

// MAIL, up to its path.
fn mail_front(alloc: Global, offer: Offer, path: &Option<Address>) -> Result<Octets, Memory>
    requires { (address : AddressValue) → path.now ≡ Some address → HasTextDomain address }
    ensures { IfOk result (λ line. line ≡ codes "MAIL FROM:" ++ said_path offer path.now) }
{
    let mut line = Octets::from_slice(alloc, b"MAIL FROM:")?;
    match path {
        Some(path) => push_path(alloc, &mut line, offer, path)?,
        None => line.push_slice(b"<>")?,
    }
    Ok(line)
}

// Whether SMTPUTF8 is asked for: where it is offered, the mail object is sent to all its recipients.
#[tactic(auto, using(crate::proofs::TextLemmas::asked_of_all))]
fn asks_smtputf8(offer: Offer, mail_object: &MailObject) -> bool
    ensures { result ≡ (offer.smtputf8 && needs_smtputf8 mail_object.now.demands (sent_to offer mail_object.now)) }
{
    offer.smtputf8 && needs_smtputf8(mail_object)
}

// Puts the parameter BODY last, where it is asked for.
fn push_eight(line: &mut Octets, asked: bool) -> Result<(), Memory>
    ensures { OnOk result (line.new ≡ line.old ++ eight_word asked) }
{
    if asked {
        return line.push_slice(b" BODY=8BITMIME");
    }
    Ok(())
}

// Puts the parameter SMTPUTF8 last, where it is asked for.
fn push_smtputf8(line: &mut Octets, asked: bool) -> Result<(), Memory>
    ensures { OnOk result (line.new ≡ line.old ++ smtputf8_word asked) }
{
    if asked {
        return line.push_slice(b" SMTPUTF8");
    }
    Ok(())
}

/// MAIL for a mail object that is sent to one recipient or more.
pub fn mail_line(alloc: Global, offer: Offer, mail_object: &MailObject) -> Result<Octets, Memory>
    requires { IsAddressed mail_object.now }
    ensures { IfOk result (λ line. line ≡ mail_line_of offer mail_object.now (sent_to offer mail_object.now)) }
{
    let mut line = mail_front(alloc, offer, &mail_object.path)?;
    push_eight(&mut line, mail_object.demands.eight && offer.eight)?;
    push_smtputf8(&mut line, asks_smtputf8(offer, mail_object))?;
    line.push_slice(b"\r\n")?;
    Ok(line)
}

/// RCPT for a recipient.
pub fn rcpt_line(alloc: Global, offer: Offer, recipient: &Recipient) -> Result<Octets, Memory>
    requires { HasTextDomain recipient.now.address }
    ensures { IfOk result (λ line. line ≡ rcpt_line_of offer recipient.now) }
{
    let mut line = Octets::from_slice(alloc, b"RCPT TO:")?;
    push_path(alloc, &mut line, offer, &recipient.address)?;
    line.push_slice(b"\r\n")?;
    Ok(line)
}
