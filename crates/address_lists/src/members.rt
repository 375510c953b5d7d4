//! The members of groups, one after another.
ghost use Rattle.std.specs.Prelude.{◌≡◌, ◌&&◌, List, IfOk};
ghost use Rattle.field_tokens.specs.Lexemes.{values_of};
ghost use Rattle.address_grammar.specs.AddressLists.{AreDivided, MailboxValue, IsOneMailbox, AreMembers, ElementValue};
ghost use Rattle.address_grammar.specs.private.ListSteps.{SaysGroup};
ghost use Rattle.address_grammar.specs.Found.{IsFoundMailbox};
ghost use Rattle.address_lists.specs.private.ListWriting.{CanBeWritten, IsSomeMailbox, TellsServed, AreServed, AreServedMembers, IsServedGroupBy};

use crate::serving::can_be_served;
use address_grammar::{
    AddressFault, FoundMailbox, are_blank, find_mailbox, is_phrase, split_at_mark, split_place,
};
use field_tokens::Lexemes;
use mail_wire::Memory;
use std::alloc::Global;

/// The mailbox that tokens are, which are known to be one.
pub fn find_member(alloc: Global, lexemes: Lexemes<'_, '_>) -> Result<FoundMailbox, Memory>
    requires { IsSomeMailbox (values_of lexemes) }
    ensures { IfOk result (IsFoundMailbox (values_of lexemes.entry)) }
{
    match find_mailbox(alloc, lexemes) {
        Ok(mailbox) => Ok(mailbox),
        Err(AddressFault::Malformed) => unreachable!(),
        Err(AddressFault::Memory) => Err(Memory),
    }
}

// Whether the address of the mailbox that tokens are can be served.
fn is_served(alloc: Global, lexemes: Lexemes<'_, '_>) -> Result<bool, AddressFault>
    requires { CanBeWritten (values_of lexemes) }
    ensures ok { IfOk result (TellsServed (values_of lexemes.entry)) }
    ensures malformed { result ≡ Err AddressFault.Malformed → (ms : List MailboxValue) → ¬ IsOneMailbox (values_of lexemes.entry) ms }
{
    let mailbox = find_mailbox(alloc, lexemes)?;
    match can_be_served(alloc, &mailbox.address) {
        Ok(is) => Ok(is),
        Err(_) => Err(AddressFault::Memory),
    }
}

fn both(first: bool, second: bool) -> bool
    ensures { result ≡ (first && second) }
{
    first && second
}

// Whether the addresses of mailboxes divided by commas can be served.
fn are_served(alloc: Global, lexemes: Lexemes<'_, '_>) -> Result<bool, AddressFault>
    requires { CanBeWritten (values_of lexemes) }
    ensures ok { IfOk result (AreServed (values_of lexemes.entry)) }
    ensures malformed { result ≡ Err AddressFault.Malformed → (ms : List MailboxValue) → ¬ AreDivided IsOneMailbox (values_of lexemes.entry) ms }
{
    let mut are = true;
    let mut rest = lexemes;
    while let Some((member, following)) = split_place(rest) {
        let is = is_served(alloc, member)?;
        are = both(are, is);
        rest = following;
    }
    let is = is_served(alloc, rest)?;
    let all = both(are, is);
    Ok(all)
}

// Whether the addresses of what stands in a group can be served.
fn are_served_members(alloc: Global, lexemes: Lexemes<'_, '_>) -> Result<bool, AddressFault>
    requires { CanBeWritten (values_of lexemes) }
    ensures ok { IfOk result (AreServedMembers (values_of lexemes.entry)) }
    ensures malformed { result ≡ Err AddressFault.Malformed → (ms : List MailboxValue) → ¬ AreMembers (values_of lexemes.entry) ms }
{
    if are_blank(lexemes) {
        return Ok(true);
    }
    are_served(alloc, lexemes)
}

/// Whether the addresses of the group of this name can be served, of what stands after its colon.
pub fn is_served_group(
    alloc: Global,
    name: Lexemes<'_, '_>,
    following: Lexemes<'_, '_>,
) -> Result<bool, AddressFault>
    requires { CanBeWritten (values_of following) }
    ensures ok { IfOk result (IsServedGroupBy (values_of name.entry) (values_of following.entry)) }
    ensures malformed { result ≡ Err AddressFault.Malformed → (e : ElementValue) → ¬ SaysGroup (values_of name.entry) (values_of following.entry) e }
{
    let Some((inner, after)) = split_at_mark(following, b';') else {
        return Err(AddressFault::Malformed);
    };
    if !are_blank(after) {
        return Err(AddressFault::Malformed);
    }
    if !is_phrase(name) {
        return Err(AddressFault::Malformed);
    }
    are_served_members(alloc, inner)
}
