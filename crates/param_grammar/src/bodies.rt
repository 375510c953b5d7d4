//! The reader of bodies: the main part, the pieces of parameters and the comments.
ghost use Rattle.std.specs.Prelude.{◌≡◌, ℕ, List, filter, map, IfOk, IfSome, IfNone, OnOk};
ghost use Rattle.field_tokens.specs.declared.Style.TheVariants.{Mime};
ghost use Rattle.field_tokens.specs.Squeezed.{is_comment as is_comment_of};
ghost use Rattle.field_tokens.specs.Tokens.{HasTokens, IsTokenOf};
ghost use Rattle.field_tokens.specs.Trees.{tree_of};
ghost use Rattle.param_grammar.specs.declared.Piece.{Piece};
ghost use Rattle.field_tokens.specs.declared.Token.{Token};
ghost use Rattle.param_grammar.specs.Bodies.{HaveComments, IsBody, PushesComment, WritesBody};
ghost use Rattle.param_grammar.specs.Joining.{HasSaidBody, ParamValue};
ghost use Rattle.param_grammar.specs.Placed.{HasBodyAt};
ghost use Rattle.param_grammar.specs.Places.{ArePlaced};
ghost use Rattle.param_grammar.specs.private.Marked.{tokens_of};

use crate::places::{Place, read_places};
use crate::role::place_pieces;
use crate::tokens::{Tokens, first_solid, is_main, run_octets, split_section};
use crate::{Body, ParamFault, ParamKind};
use encoded_words::lower_case;
use field_tokens::{Comment, Style, Token, comment_tree, is_comment, read_marks};
use mail_wire::{Memory, Octets};
use std::alloc::Global;

/// The main part as it is written, and the places of the pieces, of a text with these tokens. Nothing exactly where they are
/// no body.
pub fn read_parts(
    alloc: Global,
    kind: ParamKind,
    text: &[u8],
    tokens: Tokens<'_>,
) -> Result<Option<(Octets, Vec<Place>)>, Memory>
    ensures found { IfOk result (λ o. IfSome o (λ x. (pieces : List Piece) × WritesBody kind text.now (tokens_of tokens.entry) x.0 pieces × ArePlaced text.now x.1.items pieces)) }
    ensures none { IfOk result (λ o. IfNone o ((main : List ℕ) (pieces : List Piece) → ¬ IsBody kind text.now (tokens_of tokens.entry) main pieces)) }
{
    let (first, following) = split_section(text, tokens);
    let first = first_solid(alloc, first)?;
    if !is_main(kind, text, &first) {
        return Ok(None);
    }
    let Some(places) = read_places(alloc, text, following)? else {
        return Ok(None);
    };
    let written = run_octets(alloc, text, &first)?;
    Ok(Some((written, places)))
}

// Puts the comment that a token is last, where it is one.
fn push_comment(
    alloc: Global,
    text: &[u8],
    token: &Token,
    comments: &mut Vec<Comment>,
) -> Result<(), Memory>
    requires { IsTokenOf text.now token.now }
    ensures { OnOk result (PushesComment text.now token.now comments.old.items comments.new.items) }
{
    if is_comment(token.kind) {
        comments.push(comment_tree(alloc, text, token)?)?;
    }
    Ok(())
}

// The comments among tokens.
fn read_comments(alloc: Global, text: &[u8], tokens: Tokens<'_>) -> Result<Vec<Comment>, Memory>
    requires { HasTokens Mime text.now (tokens_of tokens) }
    ensures { IfOk result (λ v. HaveComments text.now (filter (λ token. is_comment_of token.kind) (tokens_of tokens.entry)) (map tree_of v.items)) }
{
    let mut comments = Vec::new(alloc);
    let mut rest = tokens;
    while let Some((token, following)) = rest.split_first() {
        push_comment(alloc, text, &token, &mut comments)?;
        rest = following;
    }
    Ok(comments)
}

// The main part in lower case, and the pieces, of a text, and nothing exactly where it has none.
fn body_of(alloc: Global, kind: ParamKind, text: &[u8]) -> Result<Option<Body>, Memory>
    ensures found { IfOk result (λ o. IfSome o (HasBodyAt kind text.now)) }
    ensures none { IfOk result (λ o. IfNone o ((main : List ℕ) (params : List ParamValue) → ¬ HasSaidBody kind text.now main params)) }
{
    let Some(marks) = read_marks(alloc, Style::Mime, text)? else {
        return Ok(None);
    };
    let parts = read_parts(alloc, kind, text, Tokens::new(text, &marks));
    drop(marks);
    let Some((written, places)) = parts? else {
        return Ok(None);
    };
    let Some(placed) = place_pieces(alloc, text, places)? else {
        return Ok(None);
    };
    let main = lower_case(alloc, written.as_slice())?;
    Ok(Some(Body { main, placed }))
}

/// The main part and the pieces of a text.
pub fn read_body(alloc: Global, kind: ParamKind, text: &[u8]) -> Result<Body, ParamFault>
    ensures ok { IfOk result (HasBodyAt kind text.now) }
    ensures malformed { result ≡ Err ParamFault.Malformed → (main : List ℕ) (params : List ParamValue) → ¬ HasSaidBody kind text.now main params }
{
    match body_of(alloc, kind, text) {
        Ok(Some(body)) => Ok(body),
        Ok(None) => Err(ParamFault::Malformed),
        Err(_) => Err(ParamFault::Memory),
    }
}

/// The comments of a text, and nothing exactly where it has no tokens.
pub fn comments_of(alloc: Global, text: &[u8]) -> Result<Option<Vec<Comment>>, Memory>
    ensures found { IfOk result (λ o. IfSome o (λ v. (tokens : List Token) × HasTokens Mime text.now tokens
        × HaveComments text.now (filter (λ token. is_comment_of token.kind) tokens) (map tree_of v.items))) }
    ensures none { IfOk result (λ o. IfNone o ((tokens : List Token) → ¬ HasTokens Mime text.now tokens)) }
{
    let Some(marks) = read_marks(alloc, Style::Mime, text)? else {
        return Ok(None);
    };
    let comments = read_comments(alloc, text, Tokens::new(text, &marks))?;
    Ok(Some(comments))
}
