//! The reader of parameters.
ghost use Rattle.std.specs.Prelude.{◌≡◌, ◌<◌, ◌++◌, ℕ, List, length, map, IfOk, IfSome, IfNone, OnOk, MatchResult};
ghost use Rattle.field_tokens.specs.declared.Style.TheVariants.{Mime};
ghost use Rattle.field_tokens.specs.declared.Token.{Token};
ghost use Rattle.field_tokens.specs.Tokens.{HasTokens};
ghost use Rattle.field_tokens.specs.Trees.{Tree, tree_of};
ghost use Rattle.param_grammar.specs.declared.Piece.{Piece};
ghost use Rattle.param_grammar.specs.Joining.{HasParams, ParamValue, param_value, params_of};
ghost use Rattle.param_grammar.specs.Placed.{HasBodyAt, HasPlaced};
ghost use Rattle.param_grammar.specs.private.Beginning.{begun_at};

use crate::bodies::{comments_of, read_body};
use crate::places::piece_at;
use crate::role::{Placed, Role};
use crate::{Body, Param, ParamFault, ParamKind, ParamList, Params};
use mail_wire::{Memory, Octets};
use std::alloc::Global;

// Puts the parameter that begins with a piece last, where one does.
fn push_param(
    alloc: Global,
    text: &[u8],
    placed: &Placed,
    number: usize,
    params: &mut Vec<Param>,
) -> Result<(), Memory>
    requires number { number < length placed.now.places.items }
    requires placed { (pieces : List Piece) × HasPlaced text.now placed.now pieces }
    ensures { (pieces : List Piece) → HasPlaced text.now placed.now pieces
        → OnOk result (map param_value params.new.items ≡ map param_value params.old.items ++ begun_at pieces number) }
{
    match placed.roles[number] {
        Role::GoesOn { .. } => Ok(()),
        Role::Begins { .. } => {
            let value = placed.unit(alloc, text, number)?;
            let piece = piece_at(alloc, text, placed.places[number])?;
            let name = Octets::from_slice(alloc, piece.base.as_slice())?;
            params.push(Param { name, value })?;
            Ok(())
        }
    }
}

// The parameters of pieces.
fn params_of(alloc: Global, text: &[u8], placed: &Placed) -> Result<Vec<Param>, Memory>
    requires { (pieces : List Piece) × HasPlaced text.now placed.now pieces }
    ensures { (pieces : List Piece) → HasPlaced text.now placed.now pieces → IfOk result (λ params. map param_value params.items ≡ params_of pieces) }
{
    let mut params = Vec::new(alloc);
    for number in 0..placed.places.len() {
        push_param(alloc, text, placed, number, &mut params)?;
    }
    Ok(params)
}

// The parameters and the comments of a text with this body, and nothing exactly where it has no tokens.
fn params_with(alloc: Global, text: &[u8], body: Body) -> Result<Option<Params>, Memory>
    requires { (kind : ParamKind) × HasBodyAt kind text.now body }
    ensures found { (kind : ParamKind) → HasBodyAt kind text.now body
        → IfOk result (λ o. IfSome o (λ p. HasParams kind text.now p.main (map param_value p.list) (map tree_of p.comments.items))) }
    ensures none { IfOk result (λ o. IfNone o ((tokens : List Token) → ¬ HasTokens Mime text.now tokens)) }
{
    let Some(comments) = comments_of(alloc, text)? else {
        return Ok(None);
    };
    let list = params_of(alloc, text, &body.placed)?;
    Ok(Some(Params {
        main: body.main,
        list: ParamList::from_vec(list),
        comments,
    }))
}

/// The main part, the parameters and the comments of a text (RFC 2045, 5.1; RFC 2231).
pub fn read_params(alloc: Global, kind: ParamKind, text: &[u8]) -> Result<Params, ParamFault>
    ensures ok { IfOk result (λ p. HasParams kind text.now p.main (map param_value p.list) (map tree_of p.comments.items)) }
    ensures malformed { result ≡ Err ParamFault.Malformed → (main : List ℕ) (params : List ParamValue) (comments : List Tree)
        → ¬ HasParams kind text.now main params comments }
    ensures exact { (main : List ℕ) (params : List ParamValue) (comments : List Tree) → HasParams kind text.now main params comments
        → MatchResult result (λ p. (p.main ≡ main) × (map param_value p.list ≡ params) × (map tree_of p.comments.items ≡ comments))
        (λ fault. fault ≡ ParamFault.Memory) }
{
    let body = read_body(alloc, kind, text)?;
    match params_with(alloc, text, body) {
        Ok(Some(params)) => Ok(params),
        Ok(None) => Err(ParamFault::Malformed),
        Err(_) => Err(ParamFault::Memory),
    }
}
