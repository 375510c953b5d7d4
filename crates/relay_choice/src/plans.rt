//! The form in which a queued message is sent.
ghost use Rattle.std.specs.Prelude.{◌≡◌, ◌<◌, IfOk, IsUtf8};
ghost use Rattle.relay_choice.specs.Plans.{form_of as form_of_address, has_bit, is_normal as is_normal_form, is_sent as is_sent_by, is_utf8 as is_utf8_form, plan_for};

use address_grammar::Address;
use mail_wire::{Memory, is_ascii};
use std::alloc::Global;

/// How an address can be written.
#[derive(Clone, Copy, Debug, PartialEq, Eq)]
pub enum Form {
    /// All octets are ASCII.
    Ascii,
    /// With its domain in A-labels (RFC 5890, 2.3.2.1) they are.
    Normal,
    /// Only with octets above 127.
    Utf8,
}

/// What a message asks of the server that it is sent to.
#[derive(Clone, Copy, Debug, PartialEq, Eq)]
pub struct Demands {
    /// A header block has an octet above 127.
    pub header: bool,
    /// The message has one.
    pub eight: bool,
    /// The form of the path that it came from.
    pub path: Form,
}

/// What a server offers. SMTPUTF8 counts only with 8BITMIME.
#[derive(Clone, Copy, Debug, PartialEq, Eq)]
pub struct Offer {
    pub smtputf8: bool,
    pub eight: bool,
}

/// How a message goes to a recipient.
#[derive(Clone, Copy, Debug, PartialEq, Eq)]
pub enum Plan {
    /// As it is.
    Send,
    /// With domains in A-labels.
    SendNormal,
    /// Not at all: a report with the status 5.6 and this detail (RFC 3463, 3.7; RFC 6531, 3.7.1).
    Report5(u8),
}

/// The form of an address.
pub fn form_of(alloc: Global, address: &Address) -> Result<Form, Memory>
    requires { IsUtf8 address.now.domain }
    ensures { IfOk result (λ form. form ≡ form_of_address address.now) }
{
    if !is_ascii(address.local.as_slice()) {
        return Ok(Form::Utf8);
    }
    if is_ascii(address.domain.as_slice()) {
        return Ok(Form::Ascii);
    }
    let Ok(domain) = str::from_utf8(address.domain.as_slice()) else {
        unreachable!();
    };
    match ace_domains::normal(alloc, domain)? {
        Some(_) => Ok(Form::Normal),
        None => Ok(Form::Utf8),
    }
}

/// What a message with this mark asks for that came from a path of this form.
pub fn needs(path: Form, mark: u8) -> Demands
    requires mark { mark < 4 }
    ensures header { result.header ≡ has_bit 1 mark }
    ensures eight { result.eight ≡ has_bit 2 mark }
    ensures path { result.path ≡ path }
{
    Demands {
        header: mark & 1 != 0,
        eight: mark & 2 != 0,
        path,
    }
}

/// Whether domains of such an address may have to be written in A-labels.
pub fn is_normal(form: Form) -> bool
    ensures { result ≡ is_normal_form form }
{
    matches!(form, Form::Normal)
}

/// Whether such an address needs UTF-8.
pub fn is_utf8(form: Form) -> bool
    ensures { result ≡ is_utf8_form form }
{
    matches!(form, Form::Utf8)
}

/// How a message that asks for this goes to a recipient with an address of this form.
pub fn choose(needs: &Demands, recipient: Form, offer: Offer) -> Plan
    ensures { result ≡ plan_for needs.now recipient offer }
{
    if offer.smtputf8 {
        Plan::Send
    } else if needs.header {
        Plan::Report5(9)
    } else if is_utf8(needs.path) || is_utf8(recipient) {
        Plan::Report5(7)
    } else if needs.eight && !offer.eight {
        Plan::Report5(3)
    } else if is_normal(needs.path) || is_normal(recipient) {
        Plan::SendNormal
    } else {
        Plan::Send
    }
}

/// Whether the message goes to the recipient.
pub fn is_sent(plan: Plan) -> bool
    ensures { result ≡ is_sent_by plan }
{
    match plan {
        Plan::Send => true,
        Plan::SendNormal => true,
        Plan::Report5(_) => false,
    }
}
