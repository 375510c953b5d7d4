//! Lists of addresses.
ghost use Rattle.std.specs.Prelude.{◌≡◌, List, IfOk, IfSome, IfNone, OnOk, MatchResult};
ghost use Rattle.field_tokens.specs.declared.Style.TheVariants.{Mail};
ghost use Rattle.field_tokens.specs.Tokens.{TokenValue, HasTokens, IsTokenOf};
ghost use Rattle.field_tokens.specs.Trees.{Tree};
ghost use Rattle.address_grammar.specs.AddressLists.{MailboxValue, ElementValue, IsMailbox, AreDivided, IsOneMailbox, AreMembers, IsElement, SaysPlace, HaveTrees, comment_tokens, HasAddresses};
ghost use Rattle.address_grammar.specs.private.ListSteps.{AddsMailbox, AddsPlace, AddsTree, SplitsName, SaysGroup, SaysSingle, IsListOf};
ghost use Rattle.field_tokens.specs.Lexemes.{values_of};
ghost use Rattle.address_grammar.specs.private.ListViews.{mailbox_values, element_value, element_values, trees_of};

use crate::lexemes::{are_blank, lacks_mark, mail_marks, mail_tokens, split_at_mark};
use crate::mailboxes::read_mailbox;
use crate::phrases::{is_phrase, read_phrase};
use crate::places::split_place;
use crate::{AddressFault, AddressList, Element, Elements, Mailbox, Mailboxes, Units};
use field_tokens::{Comment, Lexemes, Token, TokenKind, comment_tree};
use mail_wire::Memory;
use std::alloc::Global;

fn push_mailbox(
    alloc: Global,
    made: &mut Vec<Mailbox>,
    lexemes: Lexemes<'_, '_>,
) -> Result<(), AddressFault>
    ensures ok { OnOk result (AddsMailbox (values_of lexemes.entry) made.old.items made.new.items) }
    ensures malformed { result ≡ Err AddressFault.Malformed → (ms : List MailboxValue) → ¬ IsOneMailbox (values_of lexemes.entry) ms }
{
    let mailbox = read_mailbox(alloc, lexemes)?;
    let Ok(()) = made.push(mailbox) else {
        return Err(AddressFault::Memory);
    };
    Ok(())
}

// Mailboxes divided by commas.
fn read_mailboxes(alloc: Global, lexemes: Lexemes<'_, '_>) -> Result<Vec<Mailbox>, AddressFault>
    ensures ok { IfOk result (λ made. AreDivided IsOneMailbox (values_of lexemes.entry) (mailbox_values made.items)) }
    ensures malformed { result ≡ Err AddressFault.Malformed → (ms : List MailboxValue) → ¬ AreDivided IsOneMailbox (values_of lexemes.entry) ms }
{
    let mut made = Vec::new(alloc);
    let mut rest = lexemes;
    while let Some((part, following)) = split_place(rest) {
        push_mailbox(alloc, &mut made, part)?;
        rest = following;
    }
    push_mailbox(alloc, &mut made, rest)?;
    Ok(made)
}

// The members of a group.
fn read_members(alloc: Global, lexemes: Lexemes<'_, '_>) -> Result<Mailboxes, AddressFault>
    ensures ok { IfOk result (λ made. AreMembers (values_of lexemes.entry) (mailbox_values made)) }
    ensures malformed { result ≡ Err AddressFault.Malformed → (ms : List MailboxValue) → ¬ AreMembers (values_of lexemes.entry) ms }
{
    if are_blank(lexemes) {
        return Ok(Mailboxes::from_vec(Vec::new(alloc)));
    }
    let members = read_mailboxes(alloc, lexemes)?;
    Ok(Mailboxes::from_vec(members))
}

/// What stands before the first colon, and what stands after it, where no angle bracket opens before it: a group's name,
/// and its members.
pub fn split_name<'a, 'b>(lexemes: Lexemes<'a, 'b>) -> Option<(Lexemes<'a, 'b>, Lexemes<'a, 'b>)>
    ensures found { IfSome result (λ x. SplitsName (values_of lexemes.entry) (values_of x.0) (values_of x.1)) }
    ensures none { IfNone result ((before following : List TokenValue) → ¬ SplitsName (values_of lexemes.entry) before following) }
{
    let Some((before, following)) = split_at_mark(lexemes, b':') else {
        return None;
    };
    if lacks_mark(before, b'<') {
        Some((before, following))
    } else {
        None
    }
}

// The group of this name, of what stands after its colon.
fn read_group(
    alloc: Global,
    name: Lexemes<'_, '_>,
    following: Lexemes<'_, '_>,
) -> Result<Element, AddressFault>
    ensures ok { IfOk result (λ e. SaysGroup (values_of name.entry) (values_of following.entry) (element_value e)) }
    ensures malformed { result ≡ Err AddressFault.Malformed → (e : ElementValue) → ¬ SaysGroup (values_of name.entry) (values_of following.entry) e }
{
    let Some((inner, after)) = split_at_mark(following, b';') else {
        return Err(AddressFault::Malformed);
    };
    if !are_blank(after) {
        return Err(AddressFault::Malformed);
    }
    if !is_phrase(name) {
        return Err(AddressFault::Malformed);
    }
    let members = read_members(alloc, inner)?;
    let Ok(name) = read_phrase(alloc, name) else {
        return Err(AddressFault::Memory);
    };
    Ok(Element::Group {
        name: Units::from_vec(name),
        members,
    })
}

fn read_single(alloc: Global, lexemes: Lexemes<'_, '_>) -> Result<Element, AddressFault>
    ensures ok { IfOk result (λ e. SaysSingle (values_of lexemes.entry) (element_value e)) }
    ensures malformed { result ≡ Err AddressFault.Malformed → (m : MailboxValue) → ¬ IsMailbox (values_of lexemes.entry) m }
{
    let mailbox = read_mailbox(alloc, lexemes)?;
    Ok(Element::Mailbox(mailbox))
}

pub fn read_element(alloc: Global, lexemes: Lexemes<'_, '_>) -> Result<Element, AddressFault>
    ensures ok { IfOk result (λ e. IsElement (values_of lexemes.entry) (element_value e)) }
    ensures malformed { result ≡ Err AddressFault.Malformed → (e : ElementValue) → ¬ IsElement (values_of lexemes.entry) e }
{
    match split_name(lexemes) {
        Some((name, following)) => read_group(alloc, name, following),
        None => read_single(alloc, lexemes),
    }
}

// Puts the element of a place last, if it has one.
fn push_place(
    alloc: Global,
    made: &mut Vec<Element>,
    lexemes: Lexemes<'_, '_>,
) -> Result<(), AddressFault>
    ensures ok { OnOk result (AddsPlace (values_of lexemes.entry) made.old.items made.new.items) }
    ensures malformed { result ≡ Err AddressFault.Malformed → (es : List ElementValue) → ¬ SaysPlace (values_of lexemes.entry) es }
{
    if are_blank(lexemes) {
        return Ok(());
    }
    let element = read_element(alloc, lexemes)?;
    let Ok(()) = made.push(element) else {
        return Err(AddressFault::Memory);
    };
    Ok(())
}

// Places divided by commas.
fn read_elements(alloc: Global, lexemes: Lexemes<'_, '_>) -> Result<Vec<Element>, AddressFault>
    ensures ok { IfOk result (λ made. AreDivided SaysPlace (values_of lexemes.entry) (element_values made.items)) }
    ensures malformed { result ≡ Err AddressFault.Malformed → (es : List ElementValue) → ¬ AreDivided SaysPlace (values_of lexemes.entry) es }
{
    let mut made = Vec::new(alloc);
    let mut rest = lexemes;
    while let Some((place, following)) = split_place(rest) {
        push_place(alloc, &mut made, place)?;
        rest = following;
    }
    push_place(alloc, &mut made, rest)?;
    Ok(made)
}

fn push_comment(
    alloc: Global,
    made: &mut Vec<Comment>,
    text: &[u8],
    token: &Token,
) -> Result<(), Memory>
    requires { IsTokenOf text.now token.now }
    ensures { OnOk result (AddsTree text.now token.now made.old.items made.new.items) }
{
    match token.kind {
        TokenKind::Comment => {
            let comment = comment_tree(alloc, text, token)?;
            made.push(comment)?;
            Ok(())
        }
        TokenKind::Atom
        | TokenKind::Quoted
        | TokenKind::Literal
        | TokenKind::Special
        | TokenKind::Gap => Ok(()),
    }
}

// The comments among tokens.
fn read_comments(alloc: Global, text: &[u8], tokens: &[Token]) -> Result<Vec<Comment>, Memory>
    requires { HasTokens Mail text.now tokens.now }
    ensures { IfOk result (λ made. HaveTrees text.now (comment_tokens tokens.now) (trees_of made.items)) }
{
    let mut made = Vec::new(alloc);
    for token in tokens {
        push_comment(alloc, &mut made, text, token)?;
    }
    Ok(made)
}

/// The elements of a list of addresses, and its comments. The time is linear in the text's length, whatever it holds.
pub fn read_list(alloc: Global, text: &[u8]) -> Result<AddressList, AddressFault>
    ensures ok { IfOk result (λ list. HasAddresses text.now (element_values list.elements) (trees_of list.comments.items)) }
    ensures malformed { result ≡ Err AddressFault.Malformed → (elements : List ElementValue) (comments : List Tree) → ¬ HasAddresses text.now elements comments }
    ensures exact { (elements : List ElementValue) (comments : List Tree) → HasAddresses text.now elements comments
        → MatchResult result (IsListOf elements comments) (λ fault. fault ≡ AddressFault.Memory) }
{
    let found = mail_tokens(alloc, text)?;
    let marks = mail_marks(alloc, text)?;
    let elements = read_elements(alloc, Lexemes::new(text, &marks))?;
    let Ok(comments) = read_comments(alloc, text, &found) else {
        return Err(AddressFault::Memory);
    };
    Ok(AddressList {
        elements: Elements::from_vec(elements),
        comments,
    })
}
