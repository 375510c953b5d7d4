//! The writers of comments.
ghost use Rattle.std.specs.Prelude.{◌≡◌, ◌++◌, ◌∷◌, [], if◌then◌else◌, take, IfOk, OnOk, IsUtf8};
ghost use Rattle.encoded_words.specs.Folding.{lines_of, AddsLines};
ghost use Rattle.field_tokens.specs.Comments.{IsComment, CommentPieces, AreWritableComments, CommentsPieces};
ghost use Rattle.field_tokens.specs.Lexemes.{values_of};
ghost use Rattle.field_tokens.specs.Squeezed.{comments_of};
ghost use Rattle.field_tokens.specs.private.CommentWriting.{BeginsComment, WritesRun, WritesText, WritesComment};

use crate::kinds::is_comment;
use crate::lexemes::Lexemes;
use crate::places::split_mark;
use crate::trees::split_run;
use encoded_words::{push_line, rewrite_comment};
use mail_wire::{Memory, Octets, is_ascii, split_white};
use std::alloc::Global;

// Puts the pieces of a run last, and answers whether it is ASCII.
fn write_run(alloc: Global, run: &[u8], made: &mut Octets) -> Result<bool, Memory>
    requires { IsUtf8 run.now }
    ensures { IfOk result (λ ascii. WritesRun run.now ascii made.old made.new) }
{
    if is_ascii(run) {
        push_line(made, run)?;
        return Ok(true);
    }
    rewrite_comment(alloc, run, made)?;
    Ok(false)
}

// Puts the pieces of the text that comes first last, and answers whether it is ASCII, and what follows it.
fn write_text<'a>(
    alloc: Global,
    octets: &'a [u8],
    made: &mut Octets,
) -> Result<(bool, &'a [u8]), Memory>
    requires { IsUtf8 octets.now }
    ensures { IfOk result (λ x. WritesText octets.now x.0 x.1.now made.old made.new) }
{
    let (_, following) = split_white(octets);
    let (len, after) = split_run(following);
    if len == 0 {
        return Ok((true, after));
    }
    let (run, _) = following.split_at(len);
    let ascii = write_run(alloc, run, made)?;
    Ok((ascii, after))
}

// Ends the pieces of a comment, which begin after `start`: an ASCII comment becomes one piece.
fn end_comment(comment: &[u8], ascii: bool, start: usize, made: &mut Octets) -> Result<(), Memory>
    ensures { OnOk result (made.new ≡ (if ascii then take start made.old ++ lines_of (comment.now ∷ []) else made.old ++ lines_of ((41 ∷ []) ∷ []))) }
{
    if ascii {
        made.truncate(start);
        return push_line(made, comment);
    }
    push_line(made, b")")
}

// Puts the pieces of the comment that comes first last, and answers whether it is ASCII, and what follows it. That is
// known only where the comment ends, so until then its parts are put as if it weren't. Calls of itself go no deeper than
// `levels`.
fn write_nested<'a>(
    alloc: Global,
    octets: &'a [u8],
    levels: usize,
    made: &mut Octets,
) -> Result<(bool, &'a [u8]), Memory>
    requires comment { BeginsComment levels octets.now }
    requires utf8 { IsUtf8 octets.now }
    ensures { IfOk result (λ x. WritesComment octets.now x.0 x.1.now made.old made.new) }
{
    let start = made.len();
    push_line(made, b"(")?;
    let (_, mut rest) = split_mark(octets);
    let mut ascii = true;
    loop {
        let (ascii_text, after) = write_text(alloc, rest, made)?;
        let (mark, following) = split_mark(after);
        if mark == b')' {
            let (comment, _) = octets.split_at(octets.len() - following.len());
            let ascii_comment = ascii & ascii_text;
            end_comment(comment, ascii_comment, start, made)?;
            return Ok((ascii_comment, following));
        }
        let (ascii_nested, next) = write_nested(alloc, after, levels - 1, made)?;
        ascii = ascii & ascii_text & ascii_nested;
        rest = next;
    }
}

/// Puts the pieces of a comment last, each on a line of its own.
pub fn write_comment(alloc: Global, comment: &[u8], made: &mut Octets) -> Result<(), Memory>
    requires comment { IsComment comment.now }
    requires utf8 { IsUtf8 comment.now }
    ensures { OnOk result (AddsLines (CommentPieces comment.now) made.old made.new) }
{
    if is_ascii(comment) {
        return push_line(made, comment);
    }
    write_nested(alloc, comment, 64, made)?;
    Ok(())
}

/// Puts the pieces of the comments among lexemes last, each on a line of its own.
pub fn write_comments(
    alloc: Global,
    lexemes: Lexemes<'_, '_>,
    made: &mut Octets,
) -> Result<(), Memory>
    requires { AreWritableComments (comments_of (values_of lexemes)) }
    ensures { OnOk result (AddsLines (CommentsPieces (comments_of (values_of lexemes.entry))) made.old made.new) }
{
    let mut rest = lexemes;
    while let Some((lexeme, following)) = rest.split_first() {
        if is_comment(lexeme.kind) {
            write_comment(alloc, lexeme.octets, made)?;
        }
        rest = following;
    }
    Ok(())
}
