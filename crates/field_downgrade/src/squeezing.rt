//! Squeezed text of tokens.
ghost use Rattle.std.specs.Prelude.{◌≡◌, [], ◌∷◌, ◌++◌, if◌then◌else◌, IfOk, OnOk};
ghost use Rattle.field_tokens.specs.Lexemes.{values_of};
ghost use Rattle.field_tokens.specs.Squeezed.{squeezed_values};

use field_tokens::{Lexemes, is_blank};
use mail_wire::{Memory, Octets};
use std::alloc::Global;

fn push_token(made: &mut Octets, has_space_before: bool, octets: &[u8]) -> Result<(), Memory>
    ensures { OnOk result (made.new ≡ made.old ++ ((if has_space_before then 32 ∷ [] else []) ++ octets.now)) }
{
    if has_space_before {
        made.push(b' ')?;
    }
    made.push_slice(octets)
}

/// The octets of tokens without their comments, with one space where a gap or a comment stood between two of them.
pub fn squeezed(alloc: Global, tokens: Lexemes<'_, '_>) -> Result<Octets, Memory>
    ensures { IfOk result (λ made. made ≡ squeezed_values (values_of tokens.entry)) }
{
    let mut made = Octets::new(alloc);
    // Whether a token was put, and whether what follows stands apart from it.
    let mut is_after = false;
    let mut has_space_before = false;
    let mut rest = tokens;
    while let Some((token, following)) = rest.split_first() {
        if is_blank(token.kind) {
            has_space_before = is_after;
        } else {
            push_token(&mut made, has_space_before, token.octets)?;
            is_after = true;
            has_space_before = false;
        }
        rest = following;
    }
    Ok(made)
}
