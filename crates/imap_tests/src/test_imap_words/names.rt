//! Mailbox names in modified UTF-7, read and written.
use imap_words::{read_mutf7, write_mutf7};
use mail_wire::Memory;
use std::alloc::Global;
use std::test::Fail;
use test_mail::{Case, all_hold};

// A text, and the name that it is, if it is one.
struct Name(&'static [u8], Option<&'static str>);

impl Case for Name {
    fn holds(&self, alloc: Global) -> Result<bool, Memory> {
        match self.1 {
            Some(name) => is_name(alloc, self.0, name),
            None => Ok(read_mutf7(alloc, self.0)?.is_none()),
        }
    }
}

// Whether the text is read as this name, and the name is written so.
fn is_name(alloc: Global, text: &[u8], name: &str) -> Result<bool, Memory> {
    let made = write_mutf7(alloc, name)?;
    match read_mutf7(alloc, text)? {
        Some(read) => Ok(made.as_slice() == text && read.as_slice() == name.as_bytes()),
        None => Ok(false),
    }
}

const NAMES: [(&str, &[Name]); 7] = [
    (
        "printable octets are themselves",
        &[
            Name(b"", Some("")),
            Name(b"INBOX", Some("INBOX")),
            Name(b" ~", Some(" ~")),
            Name(b"AH8-\"", Some("AH8-\"")),
            Name(b",/+-\\{}%*()", Some(",/+-\\{}%*()")),
        ],
    ),
    (
        "an ampersand is written with a dash",
        &[
            Name(b"&-", Some("&")),
            Name(b"&-&-&AMk-", Some("&&É")),
            Name(b"&A8I-&-&-9", Some("ς&&9")),
            Name(b"&---", Some("&--")),
            Name(b"&", None),
            Name(b"a&b", None),
            Name(b"& -", None),
        ],
    ),
    (
        "other characters are written in runs",
        &[
            Name(
                b"~peter/mail/&U,BTFw-/&ZeVnLIqe-",
                Some("~peter/mail/台北/日本語"),
            ),
            Name(b"&Jjo-!", Some("☺!")),
            Name(b"&A6M-", Some("Σ")),
            Name(b"&A6MAAQ-", Some("Σ\u{1}")),
            Name(b"&A6MDowOj-", Some("ΣΣΣ")),
            Name(b"&zJaU,w-", Some("첖铿")),
            Name(b"&AAk-.*", Some("\t.*")),
            Name(b"&AH8-", Some("\u{7f}")),
            Name(b"&AIA-a", Some("\u{80}a")),
            Name(b"e&AwE-K", Some("e\u{301}K")),
        ],
    ),
    (
        "characters above 65535 are pairs",
        &[
            Name(b"&2D3eAA-", Some("😀")),
            Name(b"+&2D3eAA-a", Some("+😀a")),
            Name(b"*&ATHYPd4A-", Some("*ı😀")),
            Name(b"&2D3eAB+z-", Some("😀ᾳ")),
            Name(b"&2ADcANv,3,8-", Some("\u{10000}\u{10ffff}")),
            Name(b"&2D0-", None),
            Name(b"&3gA-", None),
            Name(b"&3gDYPQ-", None),
            Name(b"&2D3YPQ-", None),
        ],
    ),
    (
        "a second spelling is none",
        &[
            Name(b"&A6M-a&A6M-", Some("ΣaΣ")),
            // printable characters in a run
            Name(b"&AEE-", None),
            Name(b"&AGEA6Q-", None),
            Name(b"&ACY-", None),
            // two runs in place of one
            Name(b"&A6M-&A6M-", None),
            Name(b"&AMk-&2D3eAA-", None),
            // bits after the last octet that aren't 0
            Name(b"&A6N-", None),
            Name(b"&2D3eAB-", None),
        ],
    ),
    (
        "runs that say nothing are none",
        &[
            // not ended
            Name(b"&A6M", None),
            Name(b"a&AN8", None),
            Name(b"&2D3eAA", None),
            // so many symbols that no octets, or an odd number of them, have
            Name(b"&A-", None),
            Name(b"&AQ-", None),
            Name(b"&A6MA-", None),
            Name(b"&A6MAA-", None),
            // other symbols
            Name(b"&zJaU/w-", None),
            Name(b"&A6M=-", None),
            Name(b"&A 6M-", None),
            Name(b"&A\xc3\xa9-", None),
        ],
    ),
    (
        "octets that are not printable are none",
        &[
            Name(b"a\tb", None),
            Name(b"a\r\n", None),
            Name(b"\0", None),
            Name(b"\x7f", None),
            Name(b"\xc3\xa9", None),
            Name(b"&A6M-\xff", None),
        ],
    ),
];

#[test]
fn names_have_one_text(rt: HostRuntime) -> Result<(), Fail> {
    all_hold(rt.alloc(), &NAMES)
}
