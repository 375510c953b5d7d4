//! Phrases as they stand, without encoded words read.
ghost use Rattle.std.specs.Prelude.{◌≡◌, IfOk};
ghost use Rattle.field_tokens.specs.Lexemes.{values_of};
ghost use Rattle.imap_views.specs.Addresses.{plain_text};

use address_grammar::{is_blank, push_content};
use field_tokens::Lexemes;
use mail_wire::{Memory, Octets};
use std::alloc::Global;

/// The words of a phrase as they stand, with a space where they are separated.
pub fn plain_phrase(alloc: Global, lexemes: Lexemes<'_, '_>) -> Result<Octets, Memory>
    ensures { IfOk result (λ made. made ≡ plain_text (values_of lexemes.entry)) }
{
    let mut made = Octets::new(alloc);
    let mut is_first = true;
    let mut has_space_before = false;
    let mut rest = lexemes;
    while let Some((lexeme, following)) = rest.split_first() {
        if is_blank(lexeme) {
            has_space_before = !is_first;
        } else {
            if has_space_before {
                made.push(b' ')?;
            }
            push_content(&mut made, lexeme)?;
            is_first = false;
            has_space_before = false;
        }
        rest = following;
    }
    Ok(made)
}
