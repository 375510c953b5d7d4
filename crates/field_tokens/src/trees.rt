//! The reader of comments.
ghost use Rattle.std.specs.Prelude.{◌≡◌, ◌<◌, ◌≤◌, length, IfSome, IfNone, IfOk, OnOk};
ghost use Rattle.mail_wire.specs.Octets.{is_white};
ghost use Rattle.mail_wire.specs.Spans.{Stops};
ghost use Rattle.field_tokens.specs.Tokens.{IsTokenOf};
ghost use Rattle.field_tokens.specs.Trees.{tree_of, run_then, NestedThen, HasComment};
ghost use Rattle.field_tokens.specs.private.Bodies.{BeginsNoItem, BeginsItem, SplitsRun, SplitsText, HoldsBody, ReadsBody, AddsItem};

use crate::places::{octets_of, split_mark};
use crate::{Comment, Item, Token, TokenKind};
use mail_wire::{Memory, Span, split_white};
use std::alloc::Global;

// What follows the octet or the quoted pair that comes first.
fn item_rest(octets: &[u8]) -> Option<&[u8]>
    ensures found { IfSome result (λ rest. BeginsItem octets.now rest.now) }
    ensures shorter { IfSome result (λ rest. length rest.now < length octets.now) }
    ensures none { IfNone result (BeginsNoItem octets.now) }
{
    let [octet, after @ ..] = octets else {
        return None;
    };
    if *octet == b'\\' {
        let [_, following @ ..] = after else {
            return None;
        };
        return Some(following);
    }
    if *octet == b'(' || *octet == b')' {
        return None;
    }
    Some(after)
}

/// The length of the run that comes first, and what follows the white after it. A run begins with no white.
pub(crate) fn split_run(octets: &[u8]) -> (usize, &[u8])
    requires { Stops is_white octets.now }
    ensures { SplitsRun octets.now result.0 result.1.now }
{
    let mut run = 0;
    let mut rest = octets;
    loop {
        let (_, next) = split_white(rest);
        let Some(after) = item_rest(next) else {
            return (run, next);
        };
        run = octets.len() - after.len();
        rest = after;
    }
}

// The run of the text that comes first, and what follows the text. The last octet stands before `end`.
fn split_text(end: usize, octets: &[u8]) -> (Option<Span>, &[u8])
    requires { length octets.now ≤ end }
    ensures { SplitsText end octets.now result.0 result.1.now }
{
    let (_, following) = split_white(octets);
    let (len, after) = split_run(following);
    if len == 0 {
        return (None, after);
    }
    let at = end - following.len();
    (Some(Span { at, len }), after)
}

fn push_run(items: &mut Vec<Item>, run: Option<Span>) -> Result<(), Memory>
    ensures { OnOk result (AddsItem items.old.items items.new.items (run_then run)) }
{
    if let Some(span) = run {
        items.push(Item::Run(span))?;
    }
    Ok(())
}

fn push_nested(items: &mut Vec<Item>, comment: Comment) -> Result<(), Memory>
    ensures { OnOk result (AddsItem items.old.items items.new.items (NestedThen (tree_of comment))) }
{
    items.push(Item::Nested(comment))?;
    Ok(())
}

// The comment whose opening parenthesis stands before the octets, and what follows its closing parenthesis. The last
// octet stands before `end`. Calls of itself go no deeper than `levels`.
fn read_comment(
    alloc: Global,
    end: usize,
    octets: &[u8],
    levels: usize,
) -> Result<(Comment, &[u8]), Memory>
    requires bound { length octets.now ≤ end }
    requires body { HoldsBody levels octets.now }
    ensures { IfOk result (λ x. ReadsBody end octets.now (tree_of x.0) x.1.now) }
{
    let mut items = Vec::new(alloc);
    let mut rest = octets;
    loop {
        let (run, after) = split_text(end, rest);
        push_run(&mut items, run)?;
        let (mark, following) = split_mark(after);
        if mark == b')' {
            return Ok((Comment { items }, following));
        }
        let (comment, next) = read_comment(alloc, end, following, levels - 1)?;
        push_nested(&mut items, comment)?;
        rest = next;
    }
}

/// The tree of a comment.
pub fn comment_tree(alloc: Global, text: &[u8], token: &Token) -> Result<Comment, Memory>
    requires token { IsTokenOf text.now token.now }
    requires comment { token.now.kind ≡ TokenKind.Comment }
    ensures { IfOk result (λ comment. HasComment text.now token.now (tree_of comment)) }
{
    let (_, octets) = split_mark(octets_of(text, token.span));
    let end = token.span.at + token.span.len;
    let (comment, _) = read_comment(alloc, end, octets, 64)?;
    Ok(comment)
}
