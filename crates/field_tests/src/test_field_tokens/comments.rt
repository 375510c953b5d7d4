//! Comments are written.
ghost use Rattle.std.specs.Prelude.{◌≡◌, [], ◌∷◌, true, IsTrue};
ghost use Rattle.field_tokens.specs.Squeezed.{is_comment as is_comment_of};
ghost use Rattle.field_tokens.specs.declared.Token.{Token};

use crate::lines::{are_lines, front};
use encoded_words::push_line;
use field_tokens::{
    Lexemes, Style, Token, is_comment, read_marks, read_tokens, write_comment, write_comments,
};
use mail_wire::{Memory, Octets};
use std::alloc::Global;
use std::test::Fail;
use test_mail::{Case, all_hold};

// What is written, on lines.
enum Row {
    // the pieces of a text that is one comment
    Comment(&'static str, &'static [&'static str]),
    // those of the comments of any text
    Comments(&'static str, &'static [&'static str]),
    // a word in so many comments, one in another
    Nested(usize),
    // so many of them, which are none
    NestedTooDeep(usize),
    // so many comments in ASCII, one in another, within a comment that has a word beyond ASCII
    Nest(usize),
}

impl Case for Row {
    fn holds(&self, alloc: Global) -> Result<bool, Memory> {
        match self {
            Row::Comment(text, pieces) => has_pieces(alloc, *text, *pieces),
            Row::Comments(text, pieces) => comments_have_pieces(alloc, *text, *pieces),
            Row::Nested(levels) => is_nested(alloc, *levels),
            Row::NestedTooDeep(levels) => is_too_deep(alloc, *levels),
            Row::Nest(levels) => keeps_nest(alloc, *levels),
        }
    }
}

// Whether a comment is the only token.
fn is_one_comment(tokens: &[Token]) -> bool
    ensures { IsTrue result → (token : Token) × (tokens.now ≡ token ∷ []) × (is_comment_of token.kind ≡ true) }
{
    match tokens {
        [token] => is_comment(token.kind),
        _ => false,
    }
}

// Puts the pieces of a text that is one comment, and `none` for any other.
fn put_comment(alloc: Global, text: &str, made: &mut Octets) -> Result<(), Memory> {
    let octets = text.as_bytes();
    let Ok(Some(found)) = read_tokens(alloc, Style::Mail, octets) else {
        return push_line(made, b"none");
    };
    if !is_one_comment(&found) {
        return push_line(made, b"none");
    }
    write_comment(alloc, octets, made)
}

fn has_pieces(alloc: Global, comment: &str, wanted: &[&str]) -> Result<bool, Memory> {
    let mut made = front(alloc)?;
    put_comment(alloc, comment, &mut made)?;
    Ok(are_lines(&made, wanted))
}

// Whether the comments of a text have these pieces.
fn comments_have_pieces(alloc: Global, text: &str, wanted: &[&str]) -> Result<bool, Memory> {
    let octets = text.as_bytes();
    let Ok(Some(marks)) = read_marks(alloc, Style::Mail, octets) else {
        return Ok(false);
    };
    let mut made = front(alloc)?;
    write_comments(alloc, Lexemes::new(octets, &marks), &mut made)?;
    Ok(are_lines(&made, wanted))
}

// This text in so many comments, one in another.
fn nested(alloc: Global, levels: usize, inside: &str) -> Result<String, Memory> {
    let mut text = String::new(alloc);
    for _ in 0..levels {
        text.push('(')?;
    }
    text.push_str(inside)?;
    for _ in 0..levels {
        text.push(')')?;
    }
    Ok(text)
}

// The pieces of a word in so many comments.
fn nested_pieces(alloc: Global, levels: usize) -> Result<Vec<&'static str>, Memory> {
    let mut pieces = Vec::from_elem(alloc, "(", levels)?;
    pieces.push("=?UTF-8?B?w6k=?=")?;
    for _ in 0..levels {
        pieces.push(")")?;
    }
    Ok(pieces)
}

fn is_nested(alloc: Global, levels: usize) -> Result<bool, Memory> {
    let pieces = nested_pieces(alloc, levels)?;
    has_pieces(alloc, &nested(alloc, levels, "é")?, &pieces)
}

fn is_too_deep(alloc: Global, levels: usize) -> Result<bool, Memory> {
    has_pieces(alloc, &nested(alloc, levels, "é")?, &["none"])
}

fn keeps_nest(alloc: Global, levels: usize) -> Result<bool, Memory> {
    let nest = nested(alloc, levels, "a")?;
    let mut comment = String::new(alloc);
    comment.push_str("(é")?;
    comment.push_str(&nest)?;
    comment.push(')')?;
    has_pieces(alloc, &comment, &["(", "=?UTF-8?B?w6k=?=", &nest, ")"])
}

const ROWS: [(&str, &[Row]); 7] = [
    (
        "comments among other tokens are written in their order",
        &[
            Row::Comments(
                "(x) a\t(é), <b@c> (y z)",
                &["(x)", "(", "=?UTF-8?B?w6k=?=", ")", "(y z)"],
            ),
            Row::Comments("a, é \"(x)\"", &[]),
        ],
    ),
    (
        "an ASCII comment is one piece",
        &[Row::Comment(r"( a  (b) \) )", &[r"( a  (b) \) )"])],
    ),
    (
        "a run beyond ASCII is encoded",
        &[
            Row::Comment("(é)", &["(", "=?UTF-8?B?w6k=?=", ")"]),
            Row::Comment(r"(é\ )", &["(", "=?UTF-8?B?w6kg?=", ")"]),
            Row::Comment(
                "(=?x?Q?a?= é)",
                &["(", "=?x?Q?a?=", "=?UTF-8?B?IMOp?=", ")"],
            ),
        ],
    ),
    (
        "what is ASCII stays",
        &[
            Row::Comment("(a (b) é)", &["(", "a", "(b)", "=?UTF-8?B?w6k=?=", ")"]),
            Row::Comment(
                r"( a  (é) \( )",
                &["(", "a", "(", "=?UTF-8?B?w6k=?=", ")", r"\(", ")"],
            ),
        ],
    ),
    (
        "ASCII comments within others stay whole",
        &[
            Row::Comment(
                "(é (a (b) \\( c) ((é) (d ((e)))) (f))",
                &[
                    "(",
                    "=?UTF-8?B?w6k=?=",
                    "(a (b) \\( c)",
                    "(",
                    "(",
                    "=?UTF-8?B?w6k=?=",
                    ")",
                    "(d ((e)))",
                    ")",
                    "(f)",
                    ")",
                ],
            ),
            Row::Comment(
                "((a (b)) (c) é)",
                &["(", "(a (b))", "(c)", "=?UTF-8?B?w6k=?=", ")"],
            ),
        ],
    ),
    (
        "comments are written 64 deep",
        &[Row::Nested(64), Row::NestedTooDeep(65)],
    ),
    ("an ASCII nest stays whole", &[Row::Nest(63)]),
];

#[test]
fn comments_are_written(rt: HostRuntime) -> Result<(), Fail> {
    all_hold(rt.alloc(), &ROWS)
}
