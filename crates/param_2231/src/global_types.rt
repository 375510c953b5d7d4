//! The type of a message whose headers are UTF-8 (RFC 6532, 3.7).
ghost use Rattle.std.specs.Prelude.{◌≡◌, ◌≢◌, ℕ, List, ◌∷◌, codes, IfOk, IfSome, IfNone};
ghost use Rattle.std.specs.Str.{bytes_eq};
ghost use Rattle.field_tokens.specs.Comments.{CommentValue};
ghost use Rattle.field_tokens.specs.declared.Token.{Token};
ghost use Rattle.param_grammar.specs.declared.ParamKind.TheVariants.{Content};
ghost use Rattle.param_grammar.specs.Bodies.{solid};
ghost use Rattle.param_grammar.specs.Joining.{ParamValue, SaysParams};
ghost use Rattle.param_grammar.specs.private.Marked.{tokens_of};
ghost use Rattle.param_2231.specs.GlobalTypes.{NamesGlobal};

use field_tokens::{Style, read_marks};
use mail_wire::{Memory, Octets};
use param_grammar::{ParamFault, ParamKind, Tokens, next_solid, read_body};
use std::alloc::Global;

// The main part of a Content-Type, in lower case, and nothing exactly where the text is none.
fn read_type(alloc: Global, text: &[u8]) -> Result<Option<Octets>, Memory>
    ensures found { IfOk result (λ o. IfSome o (λ main. (params : List ParamValue) × (comments : List CommentValue)
        × SaysParams Content text.now main params comments)) }
    ensures none { IfOk result (λ o. IfNone o ((main : List ℕ) (params : List ParamValue) (comments : List CommentValue)
        → ¬ SaysParams Content text.now main params comments)) }
{
    match read_body(alloc, ParamKind::Content, text) {
        Ok(body) => Ok(Some(body.main)),
        Err(ParamFault::Malformed) => Ok(None),
        Err(ParamFault::Memory) => Err(Memory),
    }
}

fn is_global(main: &[u8]) -> bool
    ensures { result ≡ bytes_eq main.now (codes "message/global") }
{
    main == b"message/global".as_slice()
}

// Where the third token stands that is no gap and no comment.
fn third_place(tokens: Tokens<'_>) -> Option<usize>
    ensures found { IfSome result (λ at. (first second third : Token) × (more : List Token)
        × (solid (tokens_of tokens.entry) ≡ first ∷ second ∷ third ∷ more) × (third.span.at ≡ at)) }
    ensures none { IfNone result ((first second third : Token) (more : List Token) → solid (tokens_of tokens.entry) ≢ first ∷ second ∷ third ∷ more) }
{
    let Some((_, following)) = next_solid(tokens) else {
        return None;
    };
    let Some((_, following)) = next_solid(following) else {
        return None;
    };
    match next_solid(following) {
        Some((third, _)) => Some(third.span.at),
        None => None,
    }
}

/// Where `global` stands in a Content-Type whose main part is message/global, in any case, and nothing exactly where the text
/// is none.
pub fn find_global(alloc: Global, text: &[u8]) -> Result<Option<usize>, Memory>
    ensures found { IfOk result (λ o. IfSome o (NamesGlobal text.now)) }
    ensures none { IfOk result (λ o. IfNone o ((at : ℕ) → ¬ NamesGlobal text.now at)) }
{
    let Some(main) = read_type(alloc, text)? else {
        return Ok(None);
    };
    if !is_global(main.as_slice()) {
        return Ok(None);
    }
    let Some(marks) = read_marks(alloc, Style::Mime, text)? else {
        return Ok(None);
    };
    Ok(third_place(Tokens::new(text, &marks)))
}
