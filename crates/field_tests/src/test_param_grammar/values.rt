//! Names, numbers, escapes and extended values.
use crate::lines::is_made;
use encoded_words::Unit;
use mail_wire::{Memory, Octets};
use param_grammar::{
    number_below, push_escaped, read_escaped, read_name, split_extended, unit_of, unquoted,
};
use std::alloc::Global;
use std::test::Fail;
use test_mail::{Case, all_hold};

// What is read or written.
enum Row {
    // of a name, what stands before the stars, the digits of a number or nothing, and whether the value is extended
    Name(&'static str, &'static str, &'static str, bool),
    // a name that isn't one
    NoName(&'static str),
    // digits, and the number, which is below a bound
    Number(&'static [u8], usize, usize),
    // digits of a number that isn't
    NoNumber(&'static [u8], usize),
    // the octets of escapes
    Read(&'static str, &'static str),
    // escapes that have none
    NotRead(&'static str),
    // octets as they are escaped
    Escaped(&'static str, &'static str),
    // what a quoted string says
    Unquoted(&'static str, &'static str),
    // octets of no charset that are a text
    Text(&'static [u8]),
    // other octets of a charset, and the charset in lower case
    Opaque(&'static [u8], &'static [u8], &'static [u8]),
    // the charset and the text of an extended value
    Extended(&'static str, &'static str, &'static str),
    // a value that isn't extended
    NotExtended(&'static str),
}

impl Case for Row {
    fn holds(&self, alloc: Global) -> Result<bool, Memory> {
        match self {
            Row::Name(name, base, number, is) => {
                Ok(has_parts(name.as_bytes(), *base, *number, *is))
            }
            Row::NoName(name) => Ok(has_no_parts(name.as_bytes())),
            Row::Number(digits, bound, number) => Ok(is_number(*digits, *bound, *number)),
            Row::NoNumber(digits, bound) => Ok(is_no_number(*digits, *bound)),
            Row::Read(text, octets) => reads(alloc, text.as_bytes(), *octets),
            Row::NotRead(text) => reads_none(alloc, text.as_bytes()),
            Row::Escaped(octets, text) => is_escaped(alloc, octets.as_bytes(), text.as_bytes()),
            Row::Unquoted(octets, said) => is_made(unquoted(alloc, octets.as_bytes()), *said),
            Row::Text(octets) => is_text(alloc, *octets),
            Row::Opaque(charset, octets, lower) => is_opaque(alloc, *charset, *octets, *lower),
            Row::Extended(value, charset, text) => Ok(is_cut(value.as_bytes(), *charset, *text)),
            Row::NotExtended(value) => Ok(is_not_cut(value.as_bytes())),
        }
    }
}

fn has_parts(name: &[u8], base: &str, number: &str, is_extended: bool) -> bool {
    match read_name(name) {
        Some(parts) => {
            parts.base == base.as_bytes()
                && parts.number.unwrap_or(b"") == number.as_bytes()
                && parts.is_extended == is_extended
        }
        None => false,
    }
}

fn has_no_parts(name: &[u8]) -> bool {
    read_name(name).is_none()
}

fn is_number(digits: &[u8], bound: usize, number: usize) -> bool {
    number_below(digits, bound) == Some(number)
}

fn is_no_number(digits: &[u8], bound: usize) -> bool {
    number_below(digits, bound).is_none()
}

fn reads(alloc: Global, text: &[u8], wanted: &str) -> Result<bool, Memory> {
    match read_escaped(alloc, text)? {
        Some(octets) => Ok(octets.as_slice() == wanted.as_bytes()),
        None => Ok(false),
    }
}

fn reads_none(alloc: Global, text: &[u8]) -> Result<bool, Memory> {
    Ok(read_escaped(alloc, text)?.is_none())
}

fn is_escaped(alloc: Global, octets: &[u8], text: &[u8]) -> Result<bool, Memory> {
    let mut made = Octets::new(alloc);
    push_escaped(&mut made, octets)?;
    Ok(made.as_slice() == text)
}

fn is_text(alloc: Global, octets: &[u8]) -> Result<bool, Memory> {
    match unit_of(alloc, b"", Octets::from_slice(alloc, octets)?)? {
        Unit::Text(text) => Ok(text.as_slice() == octets),
        Unit::Opaque { .. } => Ok(false),
    }
}

fn is_opaque(alloc: Global, name: &[u8], text: &[u8], lower: &[u8]) -> Result<bool, Memory> {
    match unit_of(alloc, name, Octets::from_slice(alloc, text)?)? {
        Unit::Text(_) => Ok(false),
        Unit::Opaque {
            charset,
            octets,
            ..
        } => Ok(charset.as_slice() == lower && octets.as_slice() == text),
    }
}

fn is_cut(value: &[u8], charset: &str, text: &str) -> bool {
    match split_extended(value) {
        Some((found, left)) => found == charset.as_bytes() && left == text.as_bytes(),
        None => false,
    }
}

fn is_not_cut(value: &[u8]) -> bool {
    split_extended(value).is_none()
}

const ROWS: [(&str, &[Row]); 10] = [
    (
        "names are read",
        &[
            Row::Name("a", "a", "", false),
            Row::Name("a*", "a", "", true),
            Row::Name("a*0", "a", "0", false),
            Row::Name("a*10*", "a", "10", true),
        ],
    ),
    (
        "other names are none",
        &[
            Row::NoName("*"),
            Row::NoName("a*01"),
            Row::NoName("a**"),
            Row::NoName("a*1*1"),
            Row::NoName("aaaaaaaaaaaaaaaaaaaaaaaaaaaaaaaaaaaaaaaaaaaaaaaaaaaaaaaaaaaaa"),
        ],
    ),
    (
        "numbers are below a bound",
        &[
            Row::Number(b"0", 1, 0),
            Row::Number(b"12", 13, 12),
            Row::NoNumber(b"12", 12),
            Row::NoNumber(b"99999999999999999999999999", 13),
        ],
    ),
    ("escapes are read", &[Row::Read("a%c3%A9 %25", "aé %")]),
    (
        "other escapes are none",
        &[Row::NotRead("%4"), Row::NotRead("%4g")],
    ),
    (
        "other octets are escaped",
        &[Row::Escaped("é '~.txt", "%C3%A9%20%27~.txt")],
    ),
    // After the last backslash nothing stands.
    (
        "quoted pairs are their second octets",
        &[Row::Unquoted("a\\\"b\\\\\\c\\", "a\"b\\c\\")],
    ),
    (
        "octets of no charset are text where they are UTF-8",
        &[Row::Text(b"\xC3\xA9")],
    ),
    (
        "other octets are of their charset",
        &[Row::Opaque(b"ISO-8859-1", b"\xE9", b"iso-8859-1")],
    ),
    (
        "extended values are cut at apostrophes",
        &[
            Row::Extended("UTF-8'en'a'b", "UTF-8", "a'b"),
            Row::NotExtended("UTF-8'a"),
            Row::NotExtended("é''a"),
        ],
    ),
];

#[test]
fn names_numbers_and_values_are_read(rt: HostRuntime) -> Result<(), Fail> {
    all_hold(rt.alloc(), &ROWS)
}
