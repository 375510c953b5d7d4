//! The texts that a record may have.
ghost use Rattle.std.specs.Prelude.{◌≤◌};

use journal_records::{
    are_addresses, is_date, is_domain_text, is_folder_name, is_path_text, read_text,
};
use mail_wire::{Memory, Octets};
use std::alloc::Global;
use std::test::Fail;
use test_mail::{Case, all_hold};

// A text, and whether a record may have it so.
enum Text {
    Address(&'static str, bool),
    Path(&'static str, bool),
    Domain(&'static [u8], bool),
    Date(&'static str, bool),
    Folder(&'static [u8], bool),
}

impl Case for Text {
    fn holds(&self, alloc: Global) -> Result<bool, Memory> {
        match self {
            Text::Address(text, is) => is_address_if(alloc, text.as_bytes(), *is),
            Text::Path(text, is) => Ok(is_path_text(alloc, text.as_bytes())? == *is),
            Text::Domain(text, is) => Ok(is_domain_text(alloc, *text)? == *is),
            Text::Date(text, is) => Ok(is_date(text.as_bytes()) == *is),
            Text::Folder(text, is) => Ok(is_folder_name(alloc, *text)? == *is),
        }
    }
}

// Whether a text is read as an address, and is one that a record may have, if it is one.
fn is_address_if(alloc: Global, text: &[u8], is: bool) -> Result<bool, Memory> {
    let read = read_text(alloc, text)?.is_some();
    let texts = [Octets::from_slice(alloc, text)?];
    Ok(read == is && are_addresses(alloc, &texts)? == is)
}

const TEXTS: [(&str, &[Text]); 10] = [
    (
        "addresses are read",
        &[
            Text::Address("ann@example.org", true),
            Text::Address("\"a b\"@x.org", true),
            Text::Address("é@é.org", true),
        ],
    ),
    (
        "other texts are none",
        &[
            Text::Address("ann", false),
            Text::Address("@x.org", false),
            Text::Address("a@b@c", false),
            Text::Address("<ann@example.org>", false),
            Text::Address("", false),
        ],
    ),
    (
        "a path is an address or the null path",
        &[Text::Path("", true), Text::Path("a@x.org", true)],
    ),
    (
        "other texts are no paths",
        &[Text::Path("a", false), Text::Path("<>", false)],
    ),
    (
        "domains are normal forms",
        &[
            Text::Domain(b"x.org", true),
            Text::Domain(b"xn--9ca.org", true),
        ],
    ),
    (
        "other forms are none",
        &[
            Text::Domain(b"X.org", false),
            Text::Domain(b"\xc3\xa9.org", false),
            Text::Domain(b"\xff", false),
            Text::Domain(b"", false),
        ],
    ),
    (
        "dates are of their shape",
        &[
            Text::Date("01-Jan-1970 00:00:00 +0000", true),
            Text::Date(" 1-feb-2026 23:59:60 -0130", true),
            Text::Date("99-DEC-9999 99:99:99 +9999", true),
        ],
    ),
    (
        "other shapes are none",
        &[
            Text::Date("01-Foo-1970 00:00:00 +0000", false),
            Text::Date("01-Jan-1970 00:00:00 00000", false),
            Text::Date("1-Jan-1970 00:00:00 +0000", false),
            Text::Date("01-Jan-1970 00:00:00 +00000", false),
            Text::Date("01 Jan 1970 00:00:00 +0000", false),
            Text::Date("", false),
        ],
    ),
    (
        "folders have their names",
        &[
            Text::Folder(b"INBOX", true),
            Text::Folder(b"caf\xc3\xa9", true),
        ],
    ),
    (
        "other texts are no names",
        &[
            Text::Folder(b"cafe\xcc\x81", false),
            Text::Folder(b"a*", false),
            Text::Folder(b"a%", false),
            Text::Folder(b"a\tb", false),
            Text::Folder(b"a\x7f", false),
            Text::Folder(b"a\xc2\x80", false),
            Text::Folder(b"\xff", false),
            Text::Folder(b"", false),
        ],
    ),
];

#[test]
fn records_have_such_texts(rt: HostRuntime) -> Result<(), Fail> {
    all_hold(rt.alloc(), &TEXTS)
}

// Whether the address of a local part of so many octets may be a path.
fn is_path_of(alloc: Global, len: usize) -> Result<bool, Memory>
    requires { len ≤ 65531 }
{
    let mut text = Vec::new(alloc);
    text.resize(len, b'a')?;
    text.extend_from_slice(b"@x.org")?;
    is_path_text(alloc, &text)
}

#[test]
fn long_addresses_are_none(rt: HostRuntime) {
    assert!(rt;
        is_path_of(rt.alloc(), 65_530) == Ok(true) && is_path_of(rt.alloc(), 65_531) == Ok(false)
    );
}

#[test]
fn long_names_are_none(rt: HostRuntime) {
    assert!(rt;
        is_folder_name(rt.alloc(), &[b'a'; 255]) == Ok(true)
            && is_folder_name(rt.alloc(), &[b'a'; 256]) == Ok(false)
    );
}
