//! Texts and the pieces that they are written in.
use crate::lines::{are_lines, front};
use address_grammar::AddressFault;
use address_lists::{rewrite_list, rewrite_path, rewrite_phrases};
use encoded_words::push_line;
use mail_wire::{Memory, Octets};
use std::alloc::Global;
use std::test::Fail;
use test_mail::{Case, all_hold};

// How a text is rewritten.
#[derive(Clone, Copy)]
enum Call {
    List,
    Phrases,
    Path,
}

// A text and its pieces, or `malformed`, or `none` for a path that isn't served.
struct Row(Call, &'static str, &'static [&'static str]);

impl Case for Row {
    fn holds(&self, alloc: Global) -> Result<bool, Memory> {
        let mut made = front(alloc)?;
        tell(alloc, self.0, self.1.as_bytes(), &mut made)?;
        Ok(are_lines(&made, self.2))
    }
}

fn tell(alloc: Global, call: Call, text: &[u8], made: &mut Octets) -> Result<(), Memory> {
    match call {
        Call::List => {
            let done = rewrite_list(alloc, text, made);
            tell_fault(made, done)
        }
        Call::Phrases => {
            let done = rewrite_phrases(alloc, text, made);
            tell_fault(made, done)
        }
        Call::Path => {
            if rewrite_path(alloc, text, made)? {
                return Ok(());
            }
            push_line(made, b"none")
        }
    }
}

fn tell_fault(made: &mut Octets, done: Result<(), AddressFault>) -> Result<(), Memory> {
    match done {
        Ok(()) => Ok(()),
        Err(AddressFault::Malformed) => push_line(made, b"malformed"),
        Err(AddressFault::Memory) => Err(Memory),
    }
}

const ROWS: [(&str, &[Row]); 8] = [
    (
        "mailboxes are rewritten",
        &[
            Row(
                Call::List,
                "José <josé@example.com>",
                &["=?UTF-8?B?Sm9zw6kgam9zw6lAZXhhbXBsZS5jb20=?=", ":;"],
            ),
            Row(
                Call::List,
                "=?x?Q?a?= <é@b>",
                &["=?x?Q?a?=", "=?UTF-8?B?IMOpQGI=?=", ":;"],
            ),
            Row(
                Call::List,
                "Ann <a@bücher.example>, (x) b@example.com",
                &["Ann", "<a@xn--bcher-kva.example>,", "(x) b@example.com"],
            ),
            Row(Call::List, "a.<a@é>", &["a.", "<a@xn--9ca>"]),
            Row(Call::List, "\"\"@é", &["\"\"@xn--9ca"]),
            Row(Call::List, "\".\"@é", &["\".\"@xn--9ca"]),
            Row(
                Call::List,
                "(x) é (y) é <a@b> (z)",
                &["=?UTF-8?B?w6kgw6k=?=", "(x)", "(y)", "<a@b>", "(z)"],
            ),
            Row(Call::List, "a@é,", &["a@xn--9ca"]),
            Row(Call::List, "a@é, (x)", &["a@xn--9ca", "(x)"]),
            Row(
                Call::List,
                ",a@b (x),, (é), <c@d>,",
                &["a@b (x),", "(", "=?UTF-8?B?w6k=?=", ")", "<c@d>"],
            ),
        ],
    ),
    (
        "groups are rewritten",
        &[
            Row(
                Call::List,
                "x: josé@example.com, b@example.com;",
                &[
                    "=?UTF-8?Q?x_jos=C3=A9=40example=2Ecom=2C_b=40example=2Ecom?=",
                    ":;",
                ],
            ),
            Row(
                Call::List,
                "é =?x?Q?a?=: a@b, é@c;",
                &[
                    "=?UTF-8?B?w6kg?=",
                    "=?x?Q?a?=",
                    "=?UTF-8?B?IGFAYiwgw6lAYw==?=",
                    ":;",
                ],
            ),
            Row(
                Call::List,
                "Team: a@bücher.example;",
                &["Team", ":", "a@xn--bcher-kva.example", ";"],
            ),
            Row(
                Call::List,
                "(é)\"\":;",
                &["\"\"", "(", "=?UTF-8?B?w6k=?=", ")", ":", ";"],
            ),
            Row(
                Call::List,
                "é: (x) ;",
                &["=?UTF-8?B?w6k=?=", ":", "(x)", ";"],
            ),
            Row(
                Call::List,
                "é: a <b@c> (x) , d@é; (y), e@f",
                &[
                    "=?UTF-8?B?w6k=?=",
                    ":",
                    "a <b@c> (x),",
                    "d@xn--9ca",
                    ";",
                    "(y),",
                    "e@f",
                ],
            ),
        ],
    ),
    (
        "other lists are malformed",
        &[
            Row(Call::List, "é", &["malformed"]),
            Row(Call::List, "a@é, b", &["malformed"]),
            Row(Call::List, "é: a@b,;", &["malformed"]),
            Row(Call::List, "a@é <", &["malformed"]),
        ],
    ),
    (
        "phrases are written",
        &[
            Row(Call::Phrases, "é", &["=?UTF-8?B?w6k=?="]),
            Row(Call::Phrases, " a b ", &["a b"]),
            Row(
                Call::Phrases,
                "é =?x?Q?a?= b",
                &["=?UTF-8?B?w6kg?=", "=?x?Q?a?=", "=?UTF-8?Q?_b?="],
            ),
            Row(Call::Phrases, "\"\"é", &["=?UTF-8?B?w6k=?="]),
            Row(Call::Phrases, " \"é\" ", &["=?UTF-8?B?w6k=?="]),
            Row(Call::Phrases, "\"\" . a", &["\"\" . a"]),
        ],
    ),
    (
        "phrases are rewritten",
        &[
            Row(Call::Phrases, "é, b", &["=?UTF-8?B?w6k=?=", ",", "b"]),
            Row(
                Call::Phrases,
                " a b ,\"é\"",
                &["a b", ",", "=?UTF-8?B?w6k=?="],
            ),
        ],
    ),
    (
        "other phrases are malformed",
        &[
            Row(Call::Phrases, "é,,b", &["malformed"]),
            Row(Call::Phrases, "", &["malformed"]),
            Row(Call::Phrases, "é,", &["malformed"]),
            Row(Call::Phrases, "a<b>", &["malformed"]),
        ],
    ),
    (
        "paths are served",
        &[
            Row(
                Call::Path,
                "<a@bücher.example>",
                &["<a@xn--bcher-kva.example>"],
            ),
            Row(
                Call::Path,
                "(é)<a@b>(c)",
                &["<a@b>", "(", "=?UTF-8?B?w6k=?=", ")", "(c)"],
            ),
        ],
    ),
    (
        "some paths have no pieces",
        &[
            Row(Call::Path, "<é@x>", &["none"]),
            Row(Call::Path, "<>(é)", &["none"]),
            Row(Call::Path, "a@bücher.example", &["none"]),
        ],
    ),
];

#[test]
fn lists_phrases_and_paths_are_rewritten(rt: HostRuntime) -> Result<(), Fail> {
    all_hold(rt.alloc(), &ROWS)
}
