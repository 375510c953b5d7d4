//! Mailboxes.
ghost use Rattle.std.specs.Prelude.{◌≡◌, [], IfOk, IfSome, IfNone, IsTrue, ◌↔◌};
ghost use Rattle.address_grammar.specs.Phrases.{SaysNothing};
ghost use Rattle.address_grammar.specs.Found.{found_value, SaysSomePhrase, IsFoundBy, IsFoundMailbox};
ghost use Rattle.address_grammar.specs.AddressLists.{IsHop, IsRoute, MailboxValue, IsBare, IsMailbox, IsRoutedOrNot, IsNamedBy};
ghost use Rattle.field_tokens.specs.Lexemes.{values_of};
ghost use Rattle.address_grammar.specs.private.ListViews.{unit_values, mailbox_value};
ghost use Rattle.address_grammar.specs.declared.Address.{Address};

use crate::addresses::{is_domain, read_address};
use crate::lexemes::{are_blank, lacks_mark, split_at_mark};
use crate::paths::split_angled;
use crate::phrases::{is_phrase, read_phrase};
use crate::{Address, AddressFault, FoundMailbox, Mailbox, Units};
use field_tokens::Lexemes;
use mail_wire::Memory;
use std::alloc::Global;

// `@` and a domain of a route.
fn is_hop(lexemes: Lexemes<'_, '_>) -> bool
    ensures { IsTrue result ↔ IsHop (values_of lexemes.entry) }
{
    match split_at_mark(lexemes, b'@') {
        Some((before, domain)) => are_blank(before) && is_domain(domain),
        None => false,
    }
}

fn is_route(lexemes: Lexemes<'_, '_>) -> bool
    ensures { IsTrue result ↔ IsRoute (values_of lexemes.entry) }
{
    let mut rest = lexemes;
    while let Some((hop, following)) = split_at_mark(rest, b',') {
        if !is_hop(hop) {
            return false;
        }
        rest = following;
    }
    is_hop(rest)
}

// An address, after a route or by itself. The route is dropped.
fn read_routed(alloc: Global, lexemes: Lexemes<'_, '_>) -> Result<Address, AddressFault>
    ensures ok { IfOk result (IsRoutedOrNot (values_of lexemes.entry)) }
    ensures malformed { result ≡ Err AddressFault.Malformed → (address : Address) → ¬ IsRoutedOrNot (values_of lexemes.entry) address }
{
    match split_at_mark(lexemes, b':') {
        Some((route, following)) => {
            if is_route(route) {
                read_address(alloc, following)
            } else {
                Err(AddressFault::Malformed)
            }
        }
        None => read_address(alloc, lexemes),
    }
}

// Whether there is a phrase, where nothing else stands before angle brackets.
fn has_phrase(lexemes: Lexemes<'_, '_>) -> Option<bool>
    ensures some { IfSome result (SaysSomePhrase (values_of lexemes.entry)) }
    ensures none { IfNone result (SaysNothing (values_of lexemes.entry)) }
{
    if are_blank(lexemes) {
        return Some(false);
    }
    if is_phrase(lexemes) { Some(true) } else { None }
}

fn find_named(
    alloc: Global,
    before: Lexemes<'_, '_>,
    inner: Lexemes<'_, '_>,
) -> Result<FoundMailbox, AddressFault>
    ensures ok { IfOk result (IsFoundBy (values_of before.entry) (values_of inner.entry)) }
    ensures malformed { result ≡ Err AddressFault.Malformed → (m : MailboxValue) → ¬ IsNamedBy (values_of before.entry) (values_of inner.entry) m }
{
    let Some(phrase) = has_phrase(before) else {
        return Err(AddressFault::Malformed);
    };
    let address = read_routed(alloc, inner)?;
    Ok(FoundMailbox {
        phrase,
        angle: true,
        address,
    })
}

fn find_bare(alloc: Global, lexemes: Lexemes<'_, '_>) -> Result<FoundMailbox, AddressFault>
    ensures ok { IfOk result (λ m. IsBare (values_of lexemes.entry) (found_value m [])) }
    ensures malformed { result ≡ Err AddressFault.Malformed → (m : MailboxValue) → ¬ IsBare (values_of lexemes.entry) m }
{
    let address = read_address(alloc, lexemes)?;
    Ok(FoundMailbox {
        phrase: false,
        angle: false,
        address,
    })
}

/// The mailbox that tokens are, without what its phrase says: that may be much, and is read by itself.
pub fn find_mailbox(alloc: Global, lexemes: Lexemes<'_, '_>) -> Result<FoundMailbox, AddressFault>
    ensures ok { IfOk result (IsFoundMailbox (values_of lexemes.entry)) }
    ensures malformed { result ≡ Err AddressFault.Malformed → (m : MailboxValue) → ¬ IsMailbox (values_of lexemes.entry) m }
{
    if let Some((before, inner)) = split_angled(lexemes) {
        return find_named(alloc, before, inner);
    }
    if lacks_mark(lexemes, b'<') {
        return find_bare(alloc, lexemes);
    }
    Err(AddressFault::Malformed)
}

// What the phrase of a mailbox says.
fn read_display(
    alloc: Global,
    lexemes: Lexemes<'_, '_>,
    found: &FoundMailbox,
) -> Result<Units, Memory>
    requires { IsFoundMailbox (values_of lexemes) found.now }
    ensures { IfOk result (λ units. IsMailbox (values_of lexemes.entry) (found_value found.now (unit_values units))) }
{
    if !found.phrase {
        return Ok(Units::from_vec(Vec::new(alloc)));
    }
    let Some((before, _)) = split_at_mark(lexemes, b'<') else {
        unreachable!();
    };
    let units = read_phrase(alloc, before)?;
    Ok(Units::from_vec(units))
}

/// The mailbox that tokens are.
pub fn read_mailbox(alloc: Global, lexemes: Lexemes<'_, '_>) -> Result<Mailbox, AddressFault>
    ensures ok { IfOk result (λ m. IsMailbox (values_of lexemes.entry) (mailbox_value m)) }
    ensures malformed { result ≡ Err AddressFault.Malformed → (m : MailboxValue) → ¬ IsMailbox (values_of lexemes.entry) m }
{
    let found = find_mailbox(alloc, lexemes)?;
    let Ok(display) = read_display(alloc, lexemes, &found) else {
        return Err(AddressFault::Memory);
    };
    Ok(Mailbox {
        phrase: found.phrase,
        display,
        angle: found.angle,
        address: found.address,
    })
}
