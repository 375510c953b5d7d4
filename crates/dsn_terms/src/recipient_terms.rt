//! The reader of what a sender asks for a recipient (RFC 3461, 4.1 and 4.2; RFC 6533, 3).
ghost use Rattle.std.specs.Prelude.{◌≡◌, ◌*◌, ◌<◌, ◌≤◌, ◌++◌, List, ℕ, IfOk, IfSome, IfNone};
ghost use Rattle.std.specs.List.{list_all};
ghost use Rattle.std.specs.Option.{option_copied};
ghost use Rattle.dsn_terms.specs.RecipientTerms.{times as times_of, comma_words, is_report_word as is_report_word_of, IsReportList, NotifySays, IsRfc822Recipient, IsUtf8Recipient, IsOrcpt, OrcptSays, HasRecipientTerms};
ghost use Rattle.dsn_terms.specs.KeptTerms.{CanKeepAsked};
ghost use Rattle.dsn_terms.specs.declared.Asked.{Asked};

use crate::parameters::{are_parameters, behind, value_under};
use crate::xtext::read_printable;
use crate::{Asked, DELAY, FAILURE, SUCCESS};
use encapsulated_fields::{read_xtext, xtext_of};
use mail_wire::{Memory, Octets, is_ascii, is_same_name};
use std::alloc::Global;

// How often this word stands among those that commas divide.
fn times(name: &[u8], value: &[u8]) -> usize
    ensures { result ≡ times_of name.now value.now }
{
    value
        .split(|octet| *octet == b',')
        .filter(|word| is_same_name(word, name))
        .count()
}

fn is_report_word(word: &[u8]) -> bool
    ensures { result ≡ is_report_word_of word.now }
{
    is_same_name(word, b"SUCCESS") || is_same_name(word, b"FAILURE") || is_same_name(word, b"DELAY")
}

fn are_report_words(value: &[u8]) -> bool
    ensures { result ≡ list_all is_report_word_of (comma_words value.now) }
{
    value
        .split(|octet| *octet == b',')
        .all(|word| is_report_word(word))
}

// The bit of a word that stands once among those that commas divide, 0 where it stands nowhere, and nothing where it stands twice.
fn read_report(name: &[u8], bit: u8, value: &[u8]) -> Option<u8>
    ensures found { IfSome result (λ bits. (times_of name.now value.now ≤ 1) × (bits ≡ bit * times_of name.now value.now) × (bits ≤ bit)) }
    ensures none { IfNone result (1 < times_of name.now value.now) }
{
    match times(name, value) {
        0 => Some(0),
        1 => Some(bit),
        _ => None,
    }
}

// The reports of a list of words with commas between them.
fn read_list(value: &[u8]) -> Option<u8>
    ensures found { IfSome result (IsReportList value.now) }
    ensures none { IfNone result ((notify : ℕ) → ¬ IsReportList value.now notify) }
{
    if !are_report_words(value) {
        return None;
    }
    let success = read_report(b"SUCCESS", SUCCESS, value)?;
    let failure = read_report(b"FAILURE", FAILURE, value)?;
    let delay = read_report(b"DELAY", DELAY, value)?;
    Some(success + failure + delay)
}

// The reports that NOTIFY says.
fn read_notify(value: Option<&[u8]>) -> Option<u8>
    ensures found { IfSome result (NotifySays (option_copied value.entry)) }
    ensures none { IfNone result ((notify : ℕ) → ¬ NotifySays (option_copied value.entry) notify) }
{
    let Some(value) = value else {
        return Some(FAILURE);
    };
    if is_same_name(value, b"NEVER") {
        return Some(0);
    }
    read_list(value)
}

// A type with its `;`, and an address after it.
fn typed(alloc: Global, front: &[u8], address: &[u8]) -> Result<Octets, Memory>
    ensures { IfOk result (λ made. made ≡ front.now ++ address.now) }
{
    let mut made = Octets::from_slice(alloc, front)?;
    made.push_slice(address)?;
    Ok(made)
}

// The recipient of what stands after `rfc822;`.
fn read_rfc822(alloc: Global, text: &[u8]) -> Result<Option<Octets>, Memory>
    ensures found { IfOk result (λ o. IfSome o (IsRfc822Recipient text.now)) }
    ensures none { IfOk result (λ o. IfNone o ((orcpt : List ℕ) → ¬ IsRfc822Recipient text.now orcpt)) }
{
    if text.len() > 500 {
        return Ok(None);
    }
    let Some(address) = read_printable(alloc, text)? else {
        return Ok(None);
    };
    let orcpt = typed(alloc, b"rfc822;", address.as_slice())?;
    Ok(Some(orcpt))
}

// The recipient of what stands after `utf-8;`.
fn read_utf8(alloc: Global, utf8: bool, text: &[u8]) -> Result<Option<Octets>, Memory>
    ensures found { IfOk result (λ o. IfSome o (IsUtf8Recipient utf8 text.now)) }
    ensures none { IfOk result (λ o. IfNone o ((orcpt : List ℕ) → ¬ IsUtf8Recipient utf8 text.now orcpt)) }
{
    if !utf8 && !is_ascii(text) {
        return Ok(None);
    }
    let Some(address) = read_xtext(alloc, text)? else {
        return Ok(None);
    };
    if xtext_of(alloc, address.as_slice())?.len() > 500 {
        return Ok(None);
    }
    let orcpt = typed(alloc, b"utf-8;", address.as_slice())?;
    Ok(Some(orcpt))
}

// The recipient of a type and an address.
fn read_typed(alloc: Global, utf8: bool, value: &[u8]) -> Result<Option<Octets>, Memory>
    ensures found { IfOk result (λ o. IfSome o (IsOrcpt utf8 value.now)) }
    ensures none { IfOk result (λ o. IfNone o ((orcpt : List ℕ) → ¬ IsOrcpt utf8 value.now orcpt)) }
{
    if let Some(text) = behind(b"rfc822;", value) {
        return read_rfc822(alloc, text);
    }
    if let Some(text) = behind(b"utf-8;", value) {
        return read_utf8(alloc, utf8, text);
    }
    Ok(None)
}

// The recipient that ORCPT says.
fn read_orcpt(alloc: Global, utf8: bool, value: Option<&[u8]>) -> Result<Option<Octets>, Memory>
    ensures found { IfOk result (λ o. IfSome o (OrcptSays utf8 (option_copied value.entry))) }
    ensures none { IfOk result (λ o. IfNone o ((orcpt : List ℕ) → ¬ OrcptSays utf8 (option_copied value.entry) orcpt)) }
{
    match value {
        Some(value) => read_typed(alloc, utf8, value),
        None => Ok(Some(Octets::new(alloc))),
    }
}

/// What the parameters of RCPT ask for a recipient; `utf8` says whether UTF-8 may stand in them. Nothing exactly where one is neither
/// NOTIFY nor ORCPT, is there twice or has a value that isn't one of its own.
pub fn read_rcpt_terms(
    alloc: Global,
    params: &[Octets],
    utf8: bool,
) -> Result<Option<Asked>, Memory>
    ensures found { IfOk result (λ o. IfSome o (HasRecipientTerms utf8 params.now)) }
    ensures none { IfOk result (λ o. IfNone o ((asked : Asked) → ¬ HasRecipientTerms utf8 params.now asked)) }
    ensures kept { IfOk result (λ o. IfSome o CanKeepAsked) }
{
    if !are_parameters(b"NOTIFY=", b"ORCPT=", params) {
        return Ok(None);
    }
    let Some(notify) = read_notify(value_under(b"NOTIFY=", params)) else {
        return Ok(None);
    };
    let Some(orcpt) = read_orcpt(alloc, utf8, value_under(b"ORCPT=", params))? else {
        return Ok(None);
    };
    Ok(Some(Asked { notify, orcpt }))
}
