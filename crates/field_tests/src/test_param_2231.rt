//! Texts and the pieces that they are written in, and the place of `global` in types.
use crate::lines::{are_lines, front};
use encoded_words::push_line;
use mail_wire::{Memory, Octets};
use param_2231::{find_global, rewrite_params, write_param};
use param_grammar::{ParamFault, ParamKind, read_params};
use std::alloc::Global;
use std::test::Fail;
use test_mail::{Case, all_hold};

// A text, and what is made of it or found.
enum Row {
    // the pieces of a Content-Disposition of an opened message/global
    Disposed(&'static str, &'static [&'static str]),
    // those of a Content-Type of one
    Opened(&'static str, &'static [&'static str]),
    // those of a Content-Disposition of another message
    Kept(&'static str, &'static [&'static str]),
    // that of the first parameter of a Content-Disposition
    First(&'static [u8], &'static str),
    // where `global` stands in a type
    Global(&'static str, usize),
    // a type without it
    NoGlobal(&'static str),
}

impl Case for Row {
    fn holds(&self, alloc: Global) -> Result<bool, Memory> {
        match self {
            Row::Disposed(text, pieces) => {
                has_pieces(alloc, ParamKind::Disposition, true, *text, *pieces)
            }
            Row::Opened(text, pieces) => {
                has_pieces(alloc, ParamKind::Content, true, *text, *pieces)
            }
            Row::Kept(text, pieces) => {
                has_pieces(alloc, ParamKind::Disposition, false, *text, *pieces)
            }
            Row::First(text, piece) => is_written(alloc, *text, *piece),
            Row::Global(text, place) => Ok(find_global(alloc, text.as_bytes())? == Some(*place)),
            Row::NoGlobal(text) => Ok(find_global(alloc, text.as_bytes())?.is_none()),
        }
    }
}

// Whether a text has these pieces, or is `malformed`.
fn has_pieces(
    alloc: Global,
    kind: ParamKind,
    open_global: bool,
    text: &str,
    pieces: &[&str],
) -> Result<bool, Memory> {
    let mut made = front(alloc)?;
    match rewrite_params(alloc, kind, text.as_bytes(), open_global, &mut made) {
        Ok(()) => {}
        Err(ParamFault::Malformed) => push_line(&mut made, b"malformed")?,
        Err(ParamFault::Memory) => return Err(Memory),
    }
    Ok(are_lines(&made, pieces))
}

// Puts the piece of the first parameter of a text.
fn put_first(alloc: Global, text: &[u8], made: &mut Octets) -> Result<(), Memory> {
    let Ok(params) = read_params(alloc, ParamKind::Disposition, text) else {
        return Err(Memory);
    };
    let [param, ..] = params.list.as_slice() else {
        return Ok(());
    };
    write_param(param.name.as_slice(), &param.value, made)
}

fn is_written(alloc: Global, text: &[u8], piece: &str) -> Result<bool, Memory> {
    let mut made = front(alloc)?;
    put_first(alloc, text, &mut made)?;
    Ok(are_lines(&made, &[piece]))
}

const ROWS: [(&str, &[Row]); 10] = [
    (
        "a file name is extended",
        &[
            Row::Disposed(
                "attachment; filename=\"é.txt\"",
                &["attachment;", "filename*=UTF-8''%C3%A9.txt"],
            ),
            Row::Disposed("a;x*=utf-8'é'", &["a;", "x*=UTF-8''"]),
        ],
    ),
    (
        "a long value is cut between characters",
        &[
            Row::Disposed(
                "attachment; filename=ééééééééééa",
                &[
                    "attachment;",
                    "filename*0*=UTF-8''%C3%A9%C3%A9%C3%A9%C3%A9%C3%A9%C3%A9%C3%A9%C3%A9%C3%A9%C3%A9;",
                    "filename*1*=a",
                ],
            ),
            Row::Disposed(
                "attachment; filename=éééééééééあ",
                &[
                    "attachment;",
                    "filename*0*=UTF-8''%C3%A9%C3%A9%C3%A9%C3%A9%C3%A9%C3%A9%C3%A9%C3%A9%C3%A9;",
                    "filename*1*=%E3%81%82",
                ],
            ),
        ],
    ),
    (
        "octets of another charset are cut anywhere",
        &[Row::Disposed(
            "a;x*=iso-8859-1''aéééééééééé",
            &[
                "a;",
                "x*0*=iso-8859-1''a%C3%A9%C3%A9%C3%A9%C3%A9%C3%A9%C3%A9%C3%A9%C3%A9%C3%A9%C3;",
                "x*1*=%A9",
            ],
        )],
    ),
    (
        "doubled names are written whole",
        &[
            Row::Disposed(
                "attachment; filename=é; filename=b",
                &["attachment;", "filename*=UTF-8''%C3%A9;", "filename=b"],
            ),
            Row::Disposed(
                "a;x=ééééééééééé;x*0=b",
                &[
                    "a;",
                    "x*=UTF-8''%C3%A9%C3%A9%C3%A9%C3%A9%C3%A9%C3%A9%C3%A9%C3%A9%C3%A9%C3%A9%C3%A9;",
                    "x*0=b",
                ],
            ),
        ],
    ),
    (
        "roles tell of whole parameters",
        &[Row::Disposed(
            "a; x=b; y*0=c; X=d; y*1=\"é\"; z*1=f; z*0=g; z=\"é\"",
            &[
                "a;",
                "x=b;",
                "y*=UTF-8''c%C3%A9;",
                "X=d;",
                "z*1=f;",
                "z*0=g;",
                "z*=UTF-8''%C3%A9",
            ],
        )],
    ),
    (
        "messages with UTF-8 headers are opened",
        &[Row::Opened(
            "Message/Global; a=é",
            &["message/rfc822;", "a*=UTF-8''%C3%A9"],
        )],
    ),
    (
        "other texts are malformed",
        &[Row::Kept("é", &["malformed"])],
    ),
    (
        "a parameter is written by itself",
        &[Row::First(b"a; X*=iso-8859-1''%E9", "x*=iso-8859-1''%E9")],
    ),
    (
        "global is found",
        &[
            Row::Global("message/global", 8),
            Row::Global("Message/ GLOBAL (x)", 9),
            Row::Global("(global) message/global; a=global", 17),
        ],
    ),
    (
        "other types are none",
        &[
            Row::NoGlobal("text/global"),
            Row::NoGlobal("message/rfc822; a=global"),
            Row::NoGlobal("message/global; x"),
            Row::NoGlobal("message/global("),
        ],
    ),
];

#[test]
fn parameters_are_rewritten(rt: HostRuntime) -> Result<(), Fail> {
    all_hold(rt.alloc(), &ROWS)
}
