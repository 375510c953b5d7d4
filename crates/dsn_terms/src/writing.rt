//! The writers of terms.
ghost use Rattle.std.specs.Prelude.{◌≡◌, ◌%◌, ◌<◌, ◌++◌, codes, None, OnOk, IfOk, IsUtf8};
ghost use Rattle.encapsulated_fields.specs.AddressForms.{xtext_form};
ghost use Rattle.dsn_terms.specs.Xtexts.{shortest_xtext};
ghost use Rattle.dsn_terms.specs.Parameters.{behind as behind_of};
ghost use Rattle.dsn_terms.specs.KeptTerms.{CanKeepEnvid, CanKeepOrcpt, CanKeepAsked};
ghost use Rattle.dsn_terms.specs.TermTexts.{ret_text as ret_text_of, envid_text, mail_terms_text, IsMailTermsText, notify_value as notify_value_of, orcpt_text, recipient_terms_text, IsRecipientTermsText};

use crate::parameters::behind;
use crate::xtext::push_xtext;
use crate::{Asked, Terms};
use encapsulated_fields::xtext_of;
use mail_wire::{Memory, Octets};
use std::alloc::Global;

fn ret_text(full: bool) -> &'static [u8]
    ensures { result.now ≡ ret_text_of full }
{
    if full { b" RET=FULL" } else { b" RET=HDRS" }
}

fn push_envid(text: &mut Octets, envid: &[u8]) -> Result<(), Memory>
    ensures { OnOk result (text.new ≡ text.old ++ envid_text envid.now) }
{
    if envid.is_empty() {
        return Ok(());
    }
    text.push_slice(b" ENVID=")?;
    push_xtext(text, envid)
}

/// RET, and ENVID where there is an identifier, each with a space before it.
pub fn write_mail_terms(alloc: Global, terms: &Terms) -> Result<Octets, Memory>
    requires { CanKeepEnvid terms.now.envid }
    ensures text { IfOk result (λ text. text ≡ mail_terms_text terms.now) }
    ensures read_back { IfOk result (IsMailTermsText terms.now) }
{
    let mut text = Octets::from_slice(alloc, ret_text(terms.full))?;
    push_envid(&mut text, terms.envid.as_slice())?;
    Ok(text)
}

fn notify_value(notify: u8) -> &'static [u8]
    requires { notify < 8 }
    ensures { result.now ≡ notify_value_of notify }
{
    match notify {
        0 => b"NEVER",
        1 => b"SUCCESS",
        2 => b"FAILURE",
        3 => b"SUCCESS,FAILURE",
        4 => b"DELAY",
        5 => b"SUCCESS,DELAY",
        6 => b"FAILURE,DELAY",
        _ => b"SUCCESS,FAILURE,DELAY",
    }
}

// Puts an original recipient of type `rfc822` last.
fn push_rfc822(text: &mut Octets, address: &[u8]) -> Result<(), Memory>
    ensures { OnOk result (text.new ≡ text.old ++ (codes " ORCPT=" ++ (codes "rfc822;" ++ shortest_xtext address.now))) }
{
    text.push_slice(b" ORCPT=rfc822;")?;
    push_xtext(text, address)
}

// Puts one of type `utf-8` last.
fn push_utf8(alloc: Global, text: &mut Octets, address: &[u8]) -> Result<(), Memory>
    requires { IsUtf8 address.now }
    ensures { OnOk result (text.new ≡ text.old ++ (codes " ORCPT=" ++ (codes "utf-8;" ++ xtext_form address.now))) }
{
    text.push_slice(b" ORCPT=utf-8;")?;
    let form = xtext_of(alloc, address)?;
    text.push_slice(form.as_slice())
}

// Puts an original recipient last that isn't of type `rfc822`.
fn push_other(alloc: Global, text: &mut Octets, orcpt: &[u8]) -> Result<(), Memory>
    requires kept { CanKeepOrcpt orcpt.now }
    requires other { behind_of (codes "rfc822;") orcpt.now ≡ None }
    ensures { OnOk result (text.new ≡ text.old ++ orcpt_text orcpt.now) }
{
    let Some(address) = behind(b"utf-8;", orcpt) else {
        return Ok(());
    };
    push_utf8(alloc, text, address)
}

fn push_orcpt(alloc: Global, text: &mut Octets, orcpt: &[u8]) -> Result<(), Memory>
    requires { CanKeepOrcpt orcpt.now }
    ensures { OnOk result (text.new ≡ text.old ++ orcpt_text orcpt.now) }
{
    let Some(address) = behind(b"rfc822;", orcpt) else {
        return push_other(alloc, text, orcpt);
    };
    push_rfc822(text, address)
}

/// NOTIFY with the reports that a client can ask for, and ORCPT where there is an original recipient, each with a space before it.
pub fn write_rcpt_terms(alloc: Global, asked: &Asked) -> Result<Octets, Memory>
    requires { CanKeepAsked asked.now }
    ensures text { IfOk result (λ text. text ≡ recipient_terms_text asked.now) }
    ensures read_back { IfOk result (IsRecipientTermsText asked.now) }
{
    let mut text = Octets::from_slice(alloc, b" NOTIFY=")?;
    text.push_slice(notify_value(asked.notify % 8))?;
    push_orcpt(alloc, &mut text, asked.orcpt.as_slice())?;
    Ok(text)
}
