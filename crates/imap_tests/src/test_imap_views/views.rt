//! The views of worked messages, by the public calls.
ghost use Rattle.std.specs.Prelude.{IfSome};
ghost use Rattle.imap_views.specs.Fields.{HasSomeBlock};
ghost use Rattle.surrogate_rope.specs.Served.{IsShownOf};

use imap_views::{envelope, read_range, structure};
use mail_wire::{Memory, Octets, Span};
use mime_tree::read_tree;
use std::alloc::Global;
use std::test::Fail;
use surrogate_rope::{Rope, Shown};
use test_mail::{Case, all_hold};
use utf8_fields::read_block;

const NIL_ENVELOPE: &str = "(NIL NIL NIL NIL NIL NIL NIL NIL NIL NIL)";

const MESSAGE: &str =
    "Date: today\r\nSubject: =?UTF-8?Q?x?= \"y\\\r\nFrom: Ann (her) \"B.\\\" C\" =?UTF-8?Q?d?= . <@r:\"a b\"@x.org>, <c@[1]>,\r\nTo: friends . of: a@x, B <b@y>;, none:;\r\nCc: ,\r\nBcc: a\r\nsender: s @ x\r\nMessage-ID: <1@x>\r\nsubject: other\r\n\r\n";

const ENVELOPE: &str =
    "(\"today\" \"=?UTF-8?Q?x?= \\\"y\\\\\" ((\"Ann B.\\\" C =?UTF-8?Q?d?= .\" NIL \"a b\" \"x.org\")(NIL NIL \"c\" \"[1]\")) ((NIL NIL \"s\" \"x\")) ((\"Ann B.\\\" C =?UTF-8?Q?d?= .\" NIL \"a b\" \"x.org\")(NIL NIL \"c\" \"[1]\")) ((NIL NIL \"friends . of\" NIL)(NIL NIL \"a\" \"x\")(\"B\" NIL \"b\" \"y\")(NIL NIL NIL NIL)(NIL NIL \"none\" NIL)(NIL NIL NIL NIL)) NIL NIL NIL \"<1@x>\")";

const NESTED: &str =
    "Content-Type: multipart/digest; Boundary=\"b\\ b\"; x*0*=''%41\r\nContent-Disposition: InLine; a=b\r\n\r\n--b b\r\n\r\nSubject: s\r\n\r\none\r\ntwo\r\n--b b\r\nContent-Type: Text/HTML;;\r\nContent-ID: <i>\r\nContent-Description: d\r\nContent-Transfer-Encoding: (c) Base64\r\nContent-Disposition: a b\r\n\r\none\r\ntwo\r\n--b b--\r\n";

const NESTED_BODY: &str =
    "((\"message\" \"rfc822\" (\"charset\" \"us-ascii\") NIL NIL \"7bit\" 22 (NIL \"s\" NIL NIL NIL NIL NIL NIL NIL NIL) (\"text\" \"plain\" (\"charset\" \"us-ascii\") NIL NIL \"7bit\" 8 1) 3)(\"text\" \"html\" NIL \"<i>\" \"d\" \"Base64\" 8 1) \"digest\")";

const NESTED_STRUCTURE: &str =
    "((\"message\" \"rfc822\" (\"charset\" \"us-ascii\") NIL NIL \"7bit\" 22 (NIL \"s\" NIL NIL NIL NIL NIL NIL NIL NIL) (\"text\" \"plain\" (\"charset\" \"us-ascii\") NIL NIL \"7bit\" 8 1 NIL NIL NIL NIL) 3 NIL NIL NIL NIL)(\"text\" \"html\" NIL \"<i>\" \"d\" \"Base64\" 8 1 NIL NIL NIL NIL) \"digest\" (\"Boundary\" \"b b\" \"x*0*\" \"''%41\") (\"inline\" (\"a\" \"b\")) NIL NIL)";

fn has_block(alloc: Global, header: &[u8]) -> Option<&[u8]>
    ensures { IfSome result (λ x. HasSomeBlock x.now) }
{
    match read_block(alloc, header) {
        Ok(_) => Some(header),
        Err(_) => None,
    }
}

fn shown_of(alloc: Global, msg: &[u8], enabled: bool) -> Option<Shown>
    ensures { IfSome result (IsShownOf msg.now) }
{
    let Ok(tree) = read_tree(alloc, msg) else {
        return None;
    };
    if enabled {
        return Some(Shown::Whole(tree));
    }
    match Rope::build(alloc, msg, &tree) {
        Ok(rope) => Some(Shown::Rope(rope)),
        Err(_) => None,
    }
}

// A view and what it says.
enum View {
    // of a header
    Envelope(&'static str, &'static str),
    // of a message as it is shown where UTF-8 is enabled or isn't, and with extensions or without
    Structure(&'static str, bool, bool, &'static str),
    // of a message that is so shown: so many octets from a place on, if there are
    Range(bool, usize, usize, Option<&'static str>),
}

impl Case for View {
    fn holds(&self, alloc: Global) -> Result<bool, Memory> {
        match self {
            View::Envelope(header, wanted) => envelope_is(alloc, *header, *wanted),
            View::Structure(msg, enabled, extended, wanted) => {
                structure_is(alloc, msg.as_bytes(), *enabled, *extended, *wanted)
            }
            View::Range(enabled, at, len, wanted) => {
                range_is(alloc, *enabled, Span { at: *at, len: *len }, *wanted)
            }
        }
    }
}

fn envelope_is(alloc: Global, header: &str, wanted: &str) -> Result<bool, Memory> {
    let Some(header) = has_block(alloc, header.as_bytes()) else {
        return Ok(false);
    };
    let mut text = Octets::new(alloc);
    envelope(alloc, header, &mut text)?;
    Ok(text.as_slice() == wanted.as_bytes())
}

fn structure_is(
    alloc: Global,
    msg: &[u8],
    enabled: bool,
    extended: bool,
    wanted: &str,
) -> Result<bool, Memory> {
    let Some(shown) = shown_of(alloc, msg, enabled) else {
        return Ok(false);
    };
    let mut text = Octets::new(alloc);
    structure(alloc, &shown, msg, extended, &mut text)?;
    Ok(text.as_slice() == wanted.as_bytes())
}

// Whether these octets of what is shown say this, or there are none.
fn range_is(
    alloc: Global,
    enabled: bool,
    span: Span,
    wanted: Option<&str>,
) -> Result<bool, Memory> {
    let msg = "Subject: café bar\r\n\r\nx\r\n".as_bytes();
    let Some(shown) = shown_of(alloc, msg, enabled) else {
        return Ok(false);
    };
    let size = shown.size(msg);
    if span.at > size || span.len > size - span.at {
        return Ok(wanted.is_none());
    }
    let made = read_range(alloc, &shown, msg, span)?;
    Ok(wanted.is_some_and(|text| made.as_slice() == text.as_bytes()))
}

const ENVELOPES: [(&str, &[View]); 5] = [
    (
        "an envelope tells the first fields",
        &[
            View::Envelope(MESSAGE, ENVELOPE),
            View::Envelope("", NIL_ENVELOPE),
            View::Envelope(
                "Downgraded-Message-ID:\r\n =?UTF-8?B?PMOpQHg+?=\r\n",
                NIL_ENVELOPE,
            ),
            View::Envelope(
                "Message-ID: <é@x>\r\n",
                "(NIL NIL NIL NIL NIL NIL NIL NIL NIL \"<é@x>\")",
            ),
        ],
    ),
    (
        "a malformed sender is nil",
        &[View::Envelope(
            "From: a@x\r\nSender: a\r\n",
            "(NIL NIL ((NIL NIL \"a\" \"x\")) NIL ((NIL NIL \"a\" \"x\")) NIL NIL NIL NIL NIL)",
        )],
    ),
    (
        "absent senders are from",
        &[
            View::Envelope(
                "From: Ann <a@x>\r\n",
                "(NIL NIL ((\"Ann\" NIL \"a\" \"x\")) ((\"Ann\" NIL \"a\" \"x\")) ((\"Ann\" NIL \"a\" \"x\")) NIL NIL NIL NIL NIL)",
            ),
            View::Envelope("From: a\r\n", NIL_ENVELOPE),
            View::Envelope("Reply-To:\r\nFrom: ,\r\n", NIL_ENVELOPE),
        ],
    ),
    (
        "names stay as they are written",
        &[
            View::Envelope(
                "To: =?UTF-8?B?w6k=?= (c) x <a@x>\r\n",
                "(NIL NIL NIL NIL NIL ((\"=?UTF-8?B?w6k=?= x\" NIL \"a\" \"x\")) NIL NIL NIL NIL)",
            ),
            View::Envelope(
                "To: é <é@é>\r\n",
                "(NIL NIL NIL NIL NIL ((\"é\" NIL \"é\" \"é\")) NIL NIL NIL NIL)",
            ),
            View::Envelope(
                "Cc: =?x?Q?y?=:;\r\n",
                "(NIL NIL NIL NIL NIL NIL ((NIL NIL \"=?x?Q?y?=\" NIL)(NIL NIL NIL NIL)) NIL NIL NIL)",
            ),
        ],
    ),
    (
        "values are unfolded",
        &[View::Envelope(
            "DATE :  a\r\n\tb \r\nSubject:\r\nIn-Reply-To: <\"x\\\">\r\n\r\n",
            "(\"a\tb\" \"\" NIL NIL NIL NIL NIL NIL \"<\\\"x\\\\\\\">\" NIL)",
        )],
    ),
];

#[test]
fn envelopes_tell_the_first_fields(rt: HostRuntime) -> Result<(), Fail> {
    all_hold(rt.alloc(), &ENVELOPES)
}

const STRUCTURES: [(&str, &[View]); 4] = [
    (
        "a structure tells all parts",
        &[
            View::Structure(NESTED, true, false, NESTED_BODY),
            View::Structure(NESTED, true, true, NESTED_STRUCTURE),
            View::Structure(NESTED, false, true, NESTED_STRUCTURE),
        ],
    ),
    (
        "a structure is that of what is shown",
        &[
            View::Structure(
                "Subject: café bar\r\n\r\nx\r\n",
                false,
                false,
                "(\"text\" \"plain\" (\"charset\" \"us-ascii\") NIL NIL \"7bit\" 3 1)",
            ),
            View::Structure(
                "Content-Type: a/b; c=\"é\"\r\nContent-Description: é\r\n\r\n",
                true,
                false,
                "(\"a\" \"b\" (\"c\" \"é\") NIL \"é\" \"7bit\" 0)",
            ),
            View::Structure(
                "Content-Type: a/b; c=\"é\"\r\nContent-Description: é\r\n\r\n",
                false,
                false,
                "(\"a\" \"b\" (\"c*\" \"UTF-8''%C3%A9\") NIL \"=?UTF-8?B?w6k=?=\" \"7bit\" 0)",
            ),
        ],
    ),
    (
        "lines are those that end",
        &[
            View::Structure(
                "",
                true,
                false,
                "(\"text\" \"plain\" (\"charset\" \"us-ascii\") NIL NIL \"7bit\" 0 0)",
            ),
            View::Structure(
                "\r\n",
                true,
                false,
                "(\"text\" \"plain\" (\"charset\" \"us-ascii\") NIL NIL \"7bit\" 0 0)",
            ),
            View::Structure(
                "\r\n\r\n",
                true,
                false,
                "(\"text\" \"plain\" (\"charset\" \"us-ascii\") NIL NIL \"7bit\" 2 1)",
            ),
            View::Structure(
                "A: b\r\n\r\na\r\nb",
                true,
                false,
                "(\"text\" \"plain\" (\"charset\" \"us-ascii\") NIL NIL \"7bit\" 4 1)",
            ),
            View::Structure(
                "A: b\r\n\r\na\r\n\r\n",
                true,
                false,
                "(\"text\" \"plain\" (\"charset\" \"us-ascii\") NIL NIL \"7bit\" 5 2)",
            ),
        ],
    ),
    (
        "what is malformed is usual",
        &[
            View::Structure(
                "Content-Type: Message/RFC822\r\nContent-Transfer-Encoding: base64\r\n\r\na\r\n",
                true,
                false,
                "(\"message\" \"rfc822\" NIL NIL NIL \"base64\" 3)",
            ),
            View::Structure(
                "Content-Type: multipart/mixed; A=\"\\b\\\"\"; b=c/d\r\n\r\na\r\n",
                true,
                true,
                "(\"multipart\" \"mixed\" (\"A\" \"b\\\"\" \"b\" \"c/d\") NIL NIL \"7bit\" 3 NIL NIL NIL NIL)",
            ),
            View::Structure(
                "Content-Type: x\r\nContent-Disposition: a b\r\n\r\na",
                true,
                false,
                "(\"text\" \"plain\" (\"charset\" \"us-ascii\") NIL NIL \"7bit\" 1 0)",
            ),
            View::Structure(
                "Content-Transfer-Encoding: 8 bit\r\n\r\na",
                true,
                false,
                "(\"text\" \"plain\" (\"charset\" \"us-ascii\") NIL NIL \"7bit\" 1 0)",
            ),
            View::Structure(
                "Content-Transfer-Encoding: é\r\n\r\na",
                true,
                false,
                "(\"text\" \"plain\" (\"charset\" \"us-ascii\") NIL NIL \"7bit\" 1 0)",
            ),
            View::Structure(
                "Content-Transfer-Encoding: é\r\n\r\na",
                false,
                false,
                "(\"text\" \"plain\" (\"charset\" \"us-ascii\") NIL NIL \"7bit\" 1 0)",
            ),
            View::Structure(
                "Content-Transfer-Encoding: base64 (é)\r\n\r\na",
                true,
                false,
                "(\"text\" \"plain\" (\"charset\" \"us-ascii\") NIL NIL \"base64\" 1 0)",
            ),
        ],
    ),
];

#[test]
fn structures_tell_all_parts_of_what_is_shown(rt: HostRuntime) -> Result<(), Fail> {
    all_hold(rt.alloc(), &STRUCTURES)
}

const RANGES: [(&str, &[View]); 2] = [
    (
        "ranges are of what is shown",
        &[
            View::Range(true, 8, 10, Some(" café bar")),
            View::Range(false, 8, 10, Some("\r\n =?UTF-8")),
            View::Range(false, 41, 3, Some("x\r\n")),
            View::Range(true, 25, 0, Some("")),
        ],
    ),
    (
        "there is no range past the end",
        &[View::Range(true, 25, 1, None)],
    ),
];

#[test]
fn ranges_are_of_what_is_shown(rt: HostRuntime) -> Result<(), Fail> {
    all_hold(rt.alloc(), &RANGES)
}
