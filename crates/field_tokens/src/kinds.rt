//! What kinds of tokens are for.
ghost use Rattle.std.specs.Prelude.{◌≡◌};
ghost use Rattle.field_tokens.specs.Squeezed.{is_blank as is_blank_of, is_comment as is_comment_of};

use crate::TokenKind;

/// Whether a token of this kind is a gap or a comment, which only stands between others.
pub fn is_blank(kind: TokenKind) -> bool
    ensures { result ≡ is_blank_of kind }
{
    matches!(kind, TokenKind::Gap | TokenKind::Comment)
}

/// Whether a token of this kind is a comment.
pub fn is_comment(kind: TokenKind) -> bool
    ensures { result ≡ is_comment_of kind }
{
    matches!(kind, TokenKind::Comment)
}
