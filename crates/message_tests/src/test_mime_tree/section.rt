//! Sections of worked messages, by the public calls.
use mail_wire::Memory;
use mime_tree::{Part, read_tree};
use std::alloc::Global;
use std::test::Fail;
use test_mail::{Case, all_hold};

const NESTED: &[u8] =
    b"Content-Type:multipart/x;boundary=a\r\n\r\n--a\r\n\r\nleaf\r\n--a\r\nContent-Type:message/rfc822\r\n\r\nContent-Type:multipart/x;boundary=b\r\n\r\n--b\r\n\r\ninner\r\n--b--\r\n--a--";

const MESSAGE: &[u8] = b"Content-Type:message/rfc822\r\n\r\nA: b\r\n\r\nleaf";

const PLAIN: &[u8] = b"A: b\r\n\r\nleaf";

// A message, a path, a part, and the octets that stand there, if there are any.
struct Section(&'static [u8], &'static [u32], Part, Option<&'static [u8]>);

impl Case for Section {
    fn holds(&self, alloc: Global) -> Result<bool, Memory> {
        Ok(octets_of(alloc, self.0, self.1, self.2) == self.3)
    }
}

// The octets of a section, where there is one.
fn octets_of<'a>(alloc: Global, octets: &'a [u8], path: &[u32], part: Part) -> Option<&'a [u8]> {
    let tree = read_tree(alloc, octets).ok()?;
    let span = tree.section(path, part)?;
    octets.get(span.at..)?.get(..span.len)
}

const SECTIONS: [(&str, &[Section]); 4] = [
    (
        "a path names an entity",
        &[
            Section(NESTED, &[1], Part::Whole, Some(b"leaf")),
            Section(NESTED, &[1, 1], Part::Whole, Some(b"leaf")),
            Section(NESTED, &[1, 2], Part::Whole, None),
            Section(
                NESTED,
                &[2],
                Part::Whole,
                Some(b"Content-Type:multipart/x;boundary=b\r\n\r\n--b\r\n\r\ninner\r\n--b--"),
            ),
            Section(NESTED, &[2, 1], Part::Whole, Some(b"inner")),
            Section(NESTED, &[2, 1, 1], Part::Whole, Some(b"inner")),
            Section(NESTED, &[2, 2], Part::Whole, None),
            Section(NESTED, &[3], Part::Whole, None),
            Section(NESTED, &[0], Part::Whole, None),
        ],
    ),
    (
        "a leaf names itself",
        &[
            Section(PLAIN, &[1], Part::Whole, Some(b"leaf")),
            Section(PLAIN, &[1, 1], Part::Whole, Some(b"leaf")),
            Section(PLAIN, &[2], Part::Whole, None),
            Section(PLAIN, &[1], Part::Mime, Some(b"A: b\r\n\r\n")),
            Section(PLAIN, &[1], Part::Header, None),
        ],
    ),
    (
        "header and text are those of a message",
        &[
            Section(
                NESTED,
                &[2],
                Part::Header,
                Some(b"Content-Type:multipart/x;boundary=b\r\n\r\n"),
            ),
            Section(NESTED, &[2], Part::Text, Some(b"--b\r\n\r\ninner\r\n--b--")),
            Section(
                NESTED,
                &[2],
                Part::Mime,
                Some(b"Content-Type:message/rfc822\r\n\r\n"),
            ),
            Section(NESTED, &[1], Part::Header, None),
            Section(NESTED, &[2, 1], Part::Text, None),
            Section(
                NESTED,
                &[],
                Part::Header,
                Some(b"Content-Type:multipart/x;boundary=a\r\n\r\n"),
            ),
            Section(NESTED, &[], Part::Whole, Some(NESTED)),
            Section(NESTED, &[], Part::Mime, None),
        ],
    ),
    (
        "a named message is entered",
        &[
            Section(MESSAGE, &[1], Part::Whole, Some(b"A: b\r\n\r\nleaf")),
            Section(MESSAGE, &[1], Part::Header, Some(b"A: b\r\n\r\n")),
            Section(MESSAGE, &[1, 1], Part::Whole, Some(b"leaf")),
            Section(MESSAGE, &[1, 2], Part::Whole, None),
        ],
    ),
];

#[test]
fn sections_are_named_by_paths(rt: HostRuntime) -> Result<(), Fail> {
    all_hold(rt.alloc(), &SECTIONS)
}
