//! The rewriting of plain texts with comments.
ghost use Rattle.std.specs.Prelude.{◌≡◌, ◌++◌, ◌↔◌, IfOk, OnOk, IsTrue};
ghost use Rattle.encoded_words.specs.Folding.{lines_of};
ghost use Rattle.field_tokens.specs.Lexemes.{values_of};
ghost use Rattle.field_tokens.specs.Squeezed.{is_atom_kind};
ghost use Rattle.field_downgrade.specs.PlainTexts.{style_where as style_of, text_piece, PlainPieces};
ghost use Rattle.field_downgrade.specs.private.PlainSteps.{IsOneAtom};
ghost use Rattle.field_downgrade.specs.private.Steps.{WritesWhere};

use crate::squeezing::squeezed;
use address_grammar::are_blank;
use encoded_words::push_line;
use field_tokens::{Lexemes, Style, TokenKind, is_blank, read_marks, write_comments};
use mail_wire::{Memory, Octets, is_ascii};
use std::alloc::Global;

fn style_where(is_encoding: bool) -> Style
    ensures { result ≡ style_of is_encoding }
{
    if is_encoding {
        Style::Mime
    } else {
        Style::Mail
    }
}

fn is_atom(kind: TokenKind) -> bool
    ensures { result ≡ is_atom_kind kind }
{
    kind == TokenKind::Atom
}

// Whether the tokens are one atom with gaps and comments around it.
fn is_one_atom(tokens: Lexemes<'_, '_>) -> bool
    ensures { IsTrue result ↔ IsOneAtom (values_of tokens.entry) }
{
    let mut rest = tokens;
    while let Some((token, following)) = rest.split_first() {
        if !is_blank(token.kind) {
            if !is_atom(token.kind) {
                return false;
            }
            return are_blank(following);
        }
        rest = following;
    }
    false
}

// Puts a text last on a line of its own, if it is one.
fn push_text(made: &mut Octets, text: &[u8]) -> Result<(), Memory>
    ensures { OnOk result (made.new ≡ made.old ++ lines_of (text_piece text.now)) }
{
    if text.is_empty() {
        return Ok(());
    }
    push_line(made, text)
}

/// Puts the pieces of a text last that is ASCII outside comments, and answers whether it is. An encoding is one atom.
pub fn rewrite_plain(
    alloc: Global,
    is_encoding: bool,
    text: &[u8],
    made: &mut Octets,
) -> Result<bool, Memory>
    ensures { IfOk result (λ wrote. WritesWhere wrote (PlainPieces is_encoding text.now) made.old made.new) }
{
    let Some(marks) = read_marks(alloc, style_where(is_encoding), text)? else {
        return Ok(false);
    };
    let tokens = Lexemes::new(text, &marks);
    if is_encoding && !is_one_atom(tokens) {
        return Ok(false);
    }
    let said = squeezed(alloc, tokens)?;
    if !is_ascii(said.as_slice()) {
        return Ok(false);
    }
    push_text(made, said.as_slice())?;
    write_comments(alloc, tokens, made)?;
    Ok(true)
}
