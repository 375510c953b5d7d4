//! Texts and their tokens, each public call once with ample memory.
use field_tokens::{
    Comment, Item, Lexemes, Style, Token, TokenFault, TokenKind, comment_tree, first_token,
    is_blank, is_comment, read_marks, read_tokens, squeezed, tokens,
};
use mail_wire::Memory;
use std::alloc::Global;
use std::test::Fail;
use test_mail::{Case, all_hold};

// A kind, a place and a length.
type Place = (TokenKind, usize, usize);

// What is read of texts.
enum Row {
    // the tokens
    Tokens(Style, &'static str, &'static [Place]),
    // the tokens of so many opening parentheses and so many closing ones, of which there are none where they are malformed
    Parentheses(Style, [usize; 2], &'static [Place]),
    // a text that is malformed
    Malformed(Style, &'static [u8]),
    // of each token, whether it is blank and whether it is a comment
    Kinds(&'static [u8], &'static [[bool; 2]]),
    // a text without tokens
    NoKinds(&'static [u8]),
    // of the third token, which is a comment, the place of a run, before an empty comment and one with a run in this place
    Tree(&'static str, [usize; 2], [usize; 2]),
    // the text with a space for each gap and comment between two others
    Squeezed(&'static [u8], &'static [u8]),
    // the kinds and octets of the tokens
    Lexemes(&'static str, &'static [(TokenKind, &'static str)]),
    // those of so many of them
    Front(&'static str, usize, &'static [(TokenKind, &'static str)]),
    // how many marks there are
    Marks(Style, &'static [u8], usize),
    // a text that has none
    NoMarks(&'static [u8]),
    // the kind of the first token of a text that isn't empty, and the rest
    First(&'static [u8], TokenKind, &'static [u8]),
    // one that begins with no token
    NoFirst(&'static [u8]),
}

impl Case for Row {
    fn holds(&self, alloc: Global) -> Result<bool, Memory> {
        match self {
            Row::Tokens(style, text, wanted) => has_tokens(alloc, *style, text.as_bytes(), *wanted),
            Row::Parentheses(style, counts, wanted) => {
                have_tokens(alloc, *style, *counts, *wanted)
            }
            Row::Malformed(style, text) => has_tokens(alloc, *style, *text, &[]),
            Row::Kinds(text, wanted) => has_kinds(alloc, *text, *wanted),
            Row::NoKinds(text) => has_no_tokens(alloc, *text),
            Row::Tree(text, first, second) => has_tree(alloc, text.as_bytes(), *first, *second),
            Row::Squeezed(text, wanted) => is_squeezed(alloc, *text, *wanted),
            Row::Lexemes(text, wanted) => has_lexemes(alloc, text.as_bytes(), None, *wanted),
            Row::Front(text, count, wanted) => {
                has_lexemes(alloc, text.as_bytes(), Some(*count), *wanted)
            }
            Row::Marks(style, text, count) => has_marks(alloc, *style, *text, Some(*count)),
            Row::NoMarks(text) => has_marks(alloc, Style::Mail, *text, None),
            Row::First(text, kind, rest) => Ok(begins_with(*text, *kind, *rest)),
            Row::NoFirst(text) => Ok(begins_with_none(*text)),
        }
    }
}

fn are_tokens(found: &[Token], wanted: &[Place]) -> bool {
    if found.len() != wanted.len() {
        return false;
    }
    for (token, place) in found.iter().zip(wanted) {
        if (token.kind, token.span.at, token.span.len) != *place {
            return false;
        }
    }
    true
}

// Whether a text has these tokens, or is malformed where they are none.
fn has_tokens(alloc: Global, style: Style, text: &[u8], wanted: &[Place]) -> Result<bool, Memory> {
    match tokens(alloc, style, text) {
        Ok(found) => Ok(!wanted.is_empty() && are_tokens(&found, wanted)),
        Err(TokenFault::Malformed) => Ok(wanted.is_empty()),
        Err(TokenFault::Memory) => Err(Memory),
    }
}

fn parentheses(alloc: Global, [opening, closing]: [usize; 2]) -> Result<Vec<u8>, Memory> {
    let mut text = Vec::from_elem(alloc, b'(', opening)?;
    for _ in 0..closing {
        text.push(b')')?;
    }
    Ok(text)
}

fn have_tokens(
    alloc: Global,
    style: Style,
    counts: [usize; 2],
    wanted: &[Place],
) -> Result<bool, Memory> {
    has_tokens(alloc, style, &parentheses(alloc, counts)?, wanted)
}

fn are_kinds(found: &[Token], wanted: &[[bool; 2]]) -> bool {
    if found.len() != wanted.len() {
        return false;
    }
    for (token, kinds) in found.iter().zip(wanted) {
        if [is_blank(token.kind), is_comment(token.kind)] != *kinds {
            return false;
        }
    }
    true
}

fn has_kinds(alloc: Global, text: &[u8], wanted: &[[bool; 2]]) -> Result<bool, Memory> {
    match read_tokens(alloc, Style::Mime, text)? {
        Some(found) => Ok(are_kinds(&found, wanted)),
        None => Ok(false),
    }
}

fn has_no_tokens(alloc: Global, text: &[u8]) -> Result<bool, Memory> {
    Ok(read_tokens(alloc, Style::Mime, text)?.is_none())
}

fn has_items(comment: &Comment, first: [usize; 2], second: [usize; 2]) -> bool {
    let [
        Item::Run(run),
        Item::Nested(empty),
        Item::Nested(Comment { items }),
    ] = comment.items.as_slice()
    else {
        return false;
    };
    let [Item::Run(inner)] = items.as_slice() else {
        return false;
    };
    [run.at, run.len] == first && empty.items.is_empty() && [inner.at, inner.len] == second
}

fn has_tree(
    alloc: Global,
    text: &[u8],
    first: [usize; 2],
    second: [usize; 2],
) -> Result<bool, Memory> {
    let Ok(found) = tokens(alloc, Style::Mail, text) else {
        return Ok(false);
    };
    if found.len() != 3 {
        return Ok(false);
    }
    let TokenKind::Comment = found[2].kind else {
        return Ok(false);
    };
    let comment = comment_tree(alloc, text, &found[2])?;
    Ok(has_items(&comment, first, second))
}

fn is_squeezed(alloc: Global, text: &[u8], wanted: &[u8]) -> Result<bool, Memory> {
    let Ok(found) = tokens(alloc, Style::Mail, text) else {
        return Ok(false);
    };
    let made = squeezed(alloc, text, found.as_slice())?;
    Ok(made.as_slice() == wanted)
}

// Whether the tokens are these, and no others.
fn are(lexemes: Lexemes<'_, '_>, wanted: &[(TokenKind, &str)]) -> bool {
    let mut left = lexemes;
    for (kind, text) in wanted {
        let Some((lexeme, following)) = left.split_first() else {
            return false;
        };
        if lexeme.kind != *kind || lexeme.octets != text.as_bytes() {
            return false;
        }
        left = following;
    }
    left.is_empty() && lexemes.len() == wanted.len()
}

fn has_lexemes(
    alloc: Global,
    text: &[u8],
    count: Option<usize>,
    wanted: &[(TokenKind, &str)],
) -> Result<bool, Memory> {
    let Some(marks) = read_marks(alloc, Style::Mail, text)? else {
        return Ok(false);
    };
    let all = Lexemes::new(text, &marks);
    match count {
        Some(count) => Ok(are(all.front(count), wanted)),
        None => Ok(are(all, wanted)),
    }
}

fn has_marks(
    alloc: Global,
    style: Style,
    text: &[u8],
    wanted: Option<usize>,
) -> Result<bool, Memory> {
    match (read_marks(alloc, style, text)?, wanted) {
        (Some(marks), Some(count)) => Ok(marks.len() == count),
        (None, None) => Ok(true),
        _ => Ok(false),
    }
}

fn begins_with(text: &[u8], kind: TokenKind, rest: &[u8]) -> bool {
    if text.is_empty() {
        return false;
    }
    match first_token(Style::Mime, text) {
        Some((found, left)) => found == kind && left == rest,
        None => false,
    }
}

fn begins_with_none(text: &[u8]) -> bool {
    !text.is_empty() && first_token(Style::Mime, text).is_none()
}

const ROWS: [(&str, &[Row]); 11] = [
    (
        "an address has tokens",
        &[Row::Tokens(
            Style::Mail,
            "é. (a (b) \\)) <\"a\\\" \u{1}b\"@[1\t]>",
            &[
                (TokenKind::Atom, 0, 2),
                (TokenKind::Special, 2, 1),
                (TokenKind::Gap, 3, 1),
                (TokenKind::Comment, 4, 10),
                (TokenKind::Gap, 14, 1),
                (TokenKind::Special, 15, 1),
                (TokenKind::Quoted, 16, 8),
                (TokenKind::Special, 24, 1),
                (TokenKind::Literal, 25, 4),
                (TokenKind::Special, 29, 1),
            ],
        )],
    ),
    (
        "parameters have tokens",
        &[Row::Tokens(
            Style::Mime,
            "a/b.; c=[d]",
            &[
                (TokenKind::Atom, 0, 1),
                (TokenKind::Special, 1, 1),
                (TokenKind::Atom, 2, 2),
                (TokenKind::Special, 4, 1),
                (TokenKind::Gap, 5, 1),
                (TokenKind::Atom, 6, 1),
                (TokenKind::Special, 7, 1),
                (TokenKind::Special, 8, 1),
                (TokenKind::Atom, 9, 1),
                (TokenKind::Special, 10, 1),
            ],
        )],
    ),
    (
        "malformed texts have none",
        &[
            Row::Malformed(Style::Mail, b"a)"),
            Row::Malformed(Style::Mail, b"a]"),
            Row::Malformed(Style::Mail, b"a\\b"),
            Row::Malformed(Style::Mail, b"\"a"),
            Row::Malformed(Style::Mail, b"(a\\)"),
            Row::Malformed(Style::Mail, b"[a"),
            Row::Malformed(Style::Mail, b"[[a]]"),
            Row::Malformed(Style::Mail, b"[\x01]"),
            Row::Malformed(Style::Mail, b"[\\\x7f]"),
            Row::Malformed(Style::Mail, b"a\x01"),
            Row::Malformed(Style::Mail, b"a\r\n b"),
            Row::Malformed(Style::Mail, b"\xc3"),
            Row::Malformed(Style::Mime, b"(\0)"),
        ],
    ),
    (
        "gaps and comments are blank",
        &[
            Row::Kinds(b"a (b)", &[[false, false], [true, false], [true, true]]),
            Row::NoKinds(b"a)"),
        ],
    ),
    (
        "comments are at most 64 deep",
        &[
            Row::Parentheses(Style::Mail, [64, 64], &[(TokenKind::Comment, 0, 128)]),
            Row::Parentheses(Style::Mail, [65, 65], &[]),
        ],
    ),
    (
        "a million parentheses are malformed",
        &[Row::Parentheses(Style::Mime, [1_000_000, 0], &[])],
    ),
    (
        "the white of a quoted pair stays in its run",
        &[Row::Tree("1 ( é\\  ( ) (b)\t)", [4, 4], [14, 1])],
    ),
    (
        "gaps and comments become spaces",
        &[Row::Squeezed(b"(x) a.b (y) \t c(z)", b"a.b c")],
    ),
    (
        "tokens are read by their marks",
        &[
            Row::Lexemes(
                "é.<\"b\"@[1]>\t(c)",
                &[
                    (TokenKind::Atom, "é"),
                    (TokenKind::Special, "."),
                    (TokenKind::Special, "<"),
                    (TokenKind::Quoted, "\"b\""),
                    (TokenKind::Special, "@"),
                    (TokenKind::Literal, "[1]"),
                    (TokenKind::Special, ">"),
                    (TokenKind::Gap, "\t"),
                    (TokenKind::Comment, "(c)"),
                ],
            ),
            Row::Front(
                "é.<\"b\"@[1]>\t(c)",
                3,
                &[
                    (TokenKind::Atom, "é"),
                    (TokenKind::Special, "."),
                    (TokenKind::Special, "<"),
                ],
            ),
            Row::Front(
                "é.<\"b\"@[1]>\t(c)",
                10,
                &[
                    (TokenKind::Atom, "é"),
                    (TokenKind::Special, "."),
                    (TokenKind::Special, "<"),
                    (TokenKind::Quoted, "\"b\""),
                    (TokenKind::Special, "@"),
                    (TokenKind::Literal, "[1]"),
                    (TokenKind::Special, ">"),
                    (TokenKind::Gap, "\t"),
                    (TokenKind::Comment, "(c)"),
                ],
            ),
        ],
    ),
    (
        "texts without tokens have no marks",
        &[
            Row::NoMarks(b"a)"),
            Row::NoMarks(b"a (b"),
            Row::NoMarks(b"a\0"),
            Row::NoMarks(b"\xff"),
            Row::Marks(Style::Mime, b"", 0),
        ],
    ),
    (
        "the first token of a text is cut off",
        &[
            Row::First(b"a.b;c", TokenKind::Atom, b";c"),
            Row::NoFirst(b")a"),
        ],
    ),
];

#[test]
fn texts_have_tokens(rt: HostRuntime) -> Result<(), Fail> {
    all_hold(rt.alloc(), &ROWS)
}
