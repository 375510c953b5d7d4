//! Squeezed text.
ghost use Rattle.std.specs.Prelude.{◌≡◌, [], ◌∷◌, ◌++◌, if◌then◌else◌, IfOk, OnOk};
ghost use Rattle.field_tokens.specs.Squeezed.{squeezed_text, AreNeighbours};

use crate::Token;
use crate::kinds::is_blank;
use crate::places::octets_of;
use mail_wire::{Memory, Octets};
use std::alloc::Global;

fn push_token(made: &mut Octets, has_space_before: bool, octets: &[u8]) -> Result<(), Memory>
    ensures { OnOk result (made.new ≡ made.old ++ ((if has_space_before then 32 ∷ [] else []) ++ octets.now)) }
{
    if has_space_before {
        made.push(b' ')?;
    }
    made.push_slice(octets)
}

/// The octets of neighbouring tokens without their comments, with one space where a gap or a comment stood between two
/// of them.
pub fn squeezed(alloc: Global, text: &[u8], tokens: &[Token]) -> Result<Octets, Memory>
    requires { AreNeighbours text.now tokens.now }
    ensures { IfOk result (λ made. made ≡ squeezed_text text.now tokens.now) }
{
    let mut made = Octets::new(alloc);
    let mut has_space_before = false;
    for token in tokens {
        if is_blank(token.kind) {
            has_space_before = !made.is_empty();
        } else {
            push_token(&mut made, has_space_before, octets_of(text, token.span))?;
            has_space_before = false;
        }
    }
    Ok(made)
}
