//! What is read at the front of a text. A row has the text, and what is told: what is read, a bar and the rest, or where it stops.
use imap_words::{
    Head, Kind, Stop, date_time, header, header8, line_end, line_feed, name_head, non_zero, number,
    octet, passes, read_word, run, set_and_space, string_head,
};
use itoa::Buffer;
use mail_wire::{Items, Memory, Octets, TableWord};
use std::alloc::Global;
use std::test::Fail;
use test_mail::{Case, all_hold};

/// What is read.
#[derive(Clone, Copy)]
pub enum Call {
    Octet,
    LineFeed,
    LineEnd,
    Run(Kind),
    Number,
    NonZero,
    Set,
    Header,
    Header8,
    Astring(bool),
    ListMailbox,
    Name,
    Word,
    Date,
}

/// A text that is read so, and what is told.
pub struct Row(pub Call, pub &'static [u8], pub &'static [u8]);

impl Case for Row {
    fn holds(&self, alloc: Global) -> Result<bool, Memory> {
        let mut told = Octets::new(alloc);
        tell(alloc, self.0, self.1, &mut told)?;
        Ok(told.as_slice() == self.2)
    }
}

fn tell(alloc: Global, call: Call, text: &[u8], told: &mut Octets) -> Result<(), Memory> {
    match call {
        Call::Octet => tell_rest(told, octet(b'(', text)),
        Call::LineFeed => tell_rest(told, line_feed(text)),
        Call::LineEnd => tell_rest(told, line_end(text)),
        Call::Run(kind) => tell_octets(told, run(kind, text)),
        Call::Number => tell_number(told, number(text)),
        Call::NonZero => tell_number(told, non_zero(text)),
        Call::Set => tell_set(told, set_and_space(alloc, text)),
        Call::Header => tell_number(told, header(text)),
        Call::Header8 => tell_number(told, header8(text)),
        Call::Astring(utf8) => tell_head(told, astring(alloc, utf8, text)),
        Call::ListMailbox => tell_head(told, list_mailbox(alloc, text)),
        Call::Name => tell_head(told, name_head(alloc, text)),
        Call::Word => tell_number(told, read_word(&DIRECTIONS, text)),
        Call::Date => tell_octets(told, date_time(text)),
    }
}

const DIRECTIONS: [TableWord<u32>; 3] = [
    TableWord(b"IN", 1),
    TableWord(b"INBOX", 2),
    TableWord(b"OUT", 3),
];

fn astring(alloc: Global, utf8: bool, text: &[u8]) -> Result<(Head, &[u8]), Stop> {
    string_head(alloc, utf8, Kind::Astring, text)
}

fn list_mailbox(alloc: Global, text: &[u8]) -> Result<(Head, &[u8]), Stop> {
    string_head(alloc, false, Kind::ListMailbox, text)
}

fn put_number(told: &mut Octets, number: usize) -> Result<(), Memory> {
    let mut digits = Buffer::new();
    told.push_slice(digits.format(number).as_bytes())
}

fn tell_stop(told: &mut Octets, stop: Stop) -> Result<(), Memory> {
    match stop {
        Stop::More => told.push_slice(b"more"),
        Stop::Bad(left) => {
            told.push_slice(b"bad ")?;
            put_number(told, left)
        }
        Stop::Memory => Err(Memory),
    }
}

fn tell_rest(told: &mut Octets, read: Result<&[u8], Stop>) -> Result<(), Memory> {
    match read {
        Ok(rest) => {
            told.push(b'|')?;
            told.push_slice(rest)
        }
        Err(stop) => tell_stop(told, stop),
    }
}

fn tell_octets(told: &mut Octets, read: Result<(&[u8], &[u8]), Stop>) -> Result<(), Memory> {
    match read {
        Ok((octets, rest)) => {
            told.push_slice(octets)?;
            tell_rest(told, Ok(rest))
        }
        Err(stop) => tell_stop(told, stop),
    }
}

fn tell_number(told: &mut Octets, read: Result<(u32, &[u8]), Stop>) -> Result<(), Memory> {
    match read {
        Ok((number, rest)) => {
            put_number(told, number as usize)?;
            tell_rest(told, Ok(rest))
        }
        Err(stop) => tell_stop(told, stop),
    }
}

// Tells a string, or the size of a literal in braces.
fn tell_head(told: &mut Octets, read: Result<(Head, &[u8]), Stop>) -> Result<(), Memory> {
    let (head, rest) = match read {
        Ok(read) => read,
        Err(stop) => return tell_stop(told, stop),
    };
    match head {
        Head::Whole(octets) => told.push_slice(octets.as_slice())?,
        Head::Literal(size) => {
            told.push(b'{')?;
            put_number(told, size as usize)?;
            told.push(b'}')?;
        }
    }
    tell_rest(told, Ok(rest))
}

fn put_end(told: &mut Octets, end: Option<u32>) -> Result<(), Memory> {
    match end {
        Some(number) => put_number(told, number as usize),
        None => told.push(b'*'),
    }
}

// Tells ranges, with a space between two.
fn tell_set(
    told: &mut Octets,
    read: Result<(Items<(Option<u32>, Option<u32>)>, &[u8]), Stop>,
) -> Result<(), Memory> {
    let (ranges, rest) = match read {
        Ok(read) => read,
        Err(stop) => return tell_stop(told, stop),
    };
    for (first, last) in ranges.as_slice() {
        if !told.is_empty() {
            told.push(b' ')?;
        }
        put_end(told, *first)?;
        told.push(b':')?;
        put_end(told, *last)?;
    }
    tell_rest(told, Ok(rest))
}

const NUMBERS: [(&str, &[Row]); 7] = [
    (
        "single octets are read",
        &[
            Row(Call::Octet, b"(a", b"|a"),
            Row(Call::Octet, b"", b"more"),
            Row(Call::Octet, b"a(", b"bad 2"),
            Row(Call::LineFeed, b"\na", b"|a"),
            Row(Call::LineEnd, b"\r\na", b"|a"),
            Row(Call::LineEnd, b"\r", b"more"),
            Row(Call::LineEnd, b"\n", b"bad 1"),
            Row(Call::LineEnd, b"\r\r\n", b"bad 2"),
        ],
    ),
    (
        "runs end where their kind does",
        &[
            Row(Call::Run(Kind::Atom), b"a+b!~]", b"a+b!~|]"),
            Row(Call::Run(Kind::Atom), b"a\x7f", b"a|\x7f"),
            Row(Call::Run(Kind::Atom), b"a\xc3", b"a|\xc3"),
            Row(Call::Run(Kind::Astring), b"a]b%", b"a]b|%"),
            Row(Call::Run(Kind::ListMailbox), b"~/%*] ", b"~/%*]| "),
            Row(Call::Run(Kind::Tag), b"a]1+", b"a]1|+"),
            Row(Call::Run(Kind::FieldName), b"X-(a)\"{:", b"X-(a)\"{|:"),
            Row(Call::Run(Kind::NameAstring), b"X-A](", b"X-A]|("),
            Row(Call::Run(Kind::NameAstring), b"X:", b"X|:"),
            Row(Call::Run(Kind::Atom), b"(a", b"bad 2"),
            Row(Call::Run(Kind::Atom), b"abc", b"more"),
            Row(Call::Run(Kind::Atom), b"", b"more"),
        ],
    ),
    (
        "numbers have 32 bits",
        &[
            Row(Call::Number, b"0 ", b"0| "),
            Row(Call::Number, b"007)", b"7|)"),
            Row(Call::Number, b"4294967295\r", b"4294967295|\r"),
            Row(Call::Number, b"4294967296\r", b"429496729|6\r"),
            Row(Call::Number, b"00000000000001x", b"1|x"),
            Row(Call::Number, b"", b"more"),
            Row(Call::Number, b"12", b"more"),
            Row(Call::Number, b"-1 ", b"bad 3"),
        ],
    ),
    (
        "other numbers begin with another digit than zero",
        &[
            Row(Call::NonZero, b"10:", b"10|:"),
            Row(Call::NonZero, b"4294967295,", b"4294967295|,"),
            Row(Call::NonZero, b"0 ", b"bad 2"),
            Row(Call::NonZero, b"01 ", b"bad 3"),
            Row(Call::NonZero, b"* ", b"bad 2"),
            Row(Call::NonZero, b"", b"more"),
        ],
    ),
    (
        "sets are numbers and ranges",
        &[
            Row(Call::Set, b"1 x", b"1:1|x"),
            Row(Call::Set, b"* ", b"*:*|"),
            Row(
                Call::Set,
                b"5:3,*:1,2:*,4294967295 ",
                b"5:3 *:1 2:* 4294967295:4294967295|",
            ),
        ],
    ),
    (
        "sets have no zeros and no gaps",
        &[
            Row(Call::Set, b"0 ", b"bad 2"),
            Row(Call::Set, b"01 ", b"bad 3"),
            Row(Call::Set, b"1:0 ", b"bad 2"),
            Row(Call::Set, b"1, ", b"bad 1"),
            Row(Call::Set, b"1,,2 ", b"bad 3"),
            Row(Call::Set, b"1:2:3 ", b"bad 3"),
            Row(Call::Set, b"1-2 ", b"bad 3"),
            Row(Call::Set, b"**", b"bad 1"),
            Row(Call::Set, b"4294967296 ", b"bad 2"),
        ],
    ),
    (
        "a part of a set goes on",
        &[
            Row(Call::Set, b"", b"more"),
            Row(Call::Set, b"1", b"more"),
            Row(Call::Set, b"1:", b"more"),
            Row(Call::Set, b"1:*", b"more"),
            Row(Call::Set, b"1,", b"more"),
            Row(Call::Set, b"1:2,3", b"more"),
        ],
    ),
];

#[test]
fn octets_runs_numbers_and_sets_are_read(rt: HostRuntime) -> Result<(), Fail> {
    all_hold(rt.alloc(), &NUMBERS)
}

const STRINGS: [(&str, &[Row]); 12] = [
    (
        "headers tell the size of a literal",
        &[
            Row(Call::Header, b"{3}\r\nabc", b"3|abc"),
            Row(Call::Header, b"{0}\r\n", b"0|"),
            Row(Call::Header, b"{007}\r\n", b"7|"),
            Row(Call::Header, b"{4294967295}\r\n", b"4294967295|"),
            Row(Call::Header8, b"~{3}\r\nabc", b"3|abc"),
        ],
    ),
    (
        "other headers stop at their first octet",
        &[
            Row(Call::Header, b"{4294967296}\r\n", b"bad 4"),
            Row(Call::Header, b"{}\r\n", b"bad 3"),
            Row(Call::Header, b"{3+}\r\n", b"bad 4"),
            Row(Call::Header, b"{3} \r\n", b"bad 3"),
            Row(Call::Header, b"{3}\n", b"bad 1"),
        ],
    ),
    (
        "a part of a header goes on",
        &[
            Row(Call::Header, b"", b"more"),
            Row(Call::Header, b"{", b"more"),
            Row(Call::Header, b"{3", b"more"),
            Row(Call::Header, b"{3}", b"more"),
            Row(Call::Header, b"{3}\r", b"more"),
        ],
    ),
    (
        "headers of UTF-8 literals stop, too, at their first octet",
        &[
            Row(Call::Header8, b"~", b"more"),
            Row(Call::Header8, b"{3}\r\n", b"bad 5"),
            Row(Call::Header8, b"~~", b"bad 1"),
        ],
    ),
    (
        "strings are runs, quoted or literals",
        &[
            Row(Call::Astring(false), b"a]b ", b"a]b| "),
            Row(Call::Astring(false), b"\"\" x", b"| x"),
            Row(Call::Astring(false), b"\"a (b) {1}%*]\"", b"a (b) {1}%*]|"),
            Row(Call::Astring(false), b"{12}\r\nabc", b"{12}|abc"),
            Row(Call::ListMailbox, b"INBOX/%* ", b"INBOX/%*| "),
            Row(Call::ListMailbox, b"\"%\"\r\n", b"%|\r\n"),
            Row(Call::ListMailbox, b"{1}\r\n*", b"{1}|*"),
        ],
    ),
    (
        "other strings stop at their first octet",
        &[
            Row(Call::Astring(false), b"%", b"bad 1"),
            Row(Call::Astring(false), b"(a)", b"bad 3"),
            Row(Call::Astring(false), b"{4294967296}\r\n", b"bad 4"),
            Row(Call::Astring(false), b"\"\\n\"", b"bad 2"),
            Row(Call::Astring(false), b"\"a\rb\"", b"bad 3"),
            Row(Call::Astring(false), b"\"a\n\"", b"bad 2"),
            Row(Call::Astring(false), b"\"\0\"", b"bad 2"),
        ],
    ),
    (
        "a part of a string goes on",
        &[
            Row(Call::Astring(false), b"", b"more"),
            Row(Call::Astring(false), b"abc", b"more"),
            Row(Call::Astring(false), b"\"a", b"more"),
            Row(Call::Astring(false), b"\"a\\", b"more"),
            Row(Call::Astring(false), b"\"a\\\"", b"more"),
        ],
    ),
    (
        "quoted strings escape quotes and backslashes",
        &[
            Row(Call::Astring(false), b"\"a\\\"\\\\b\"c", b"a\"\\b|c"),
            Row(Call::Astring(false), b"\"\x01\t\x7f\"", b"\x01\t\x7f|"),
        ],
    ),
    (
        "quoted strings hold UTF-8 where it is enabled",
        &[
            Row(
                Call::Astring(true),
                b"\"\xc3\xa9 \xe3\x81\x82 \xf0\x9f\x98\x80\"",
                b"\xc3\xa9 \xe3\x81\x82 \xf0\x9f\x98\x80|",
            ),
            Row(
                Call::Astring(true),
                b"\"\xdf\xbf\xed\x9f\xbf\xee\x80\x80\xf4\x8f\xbf\xbf\"",
                b"\xdf\xbf\xed\x9f\xbf\xee\x80\x80\xf4\x8f\xbf\xbf|",
            ),
            Row(Call::Astring(false), b"\"\xc3\xa9\"", b"bad 3"),
            Row(Call::Astring(true), b"\xc3\xa9", b"bad 2"),
            Row(Call::Astring(true), b"\"\\\xc3\xa9\"", b"bad 3"),
        ],
    ),
    (
        "octets of no character are told where they come",
        &[
            Row(Call::Astring(true), b"\"\x80x", b"bad 2"),
            Row(Call::Astring(true), b"\"\xc1\x80", b"bad 2"),
            Row(Call::Astring(true), b"\"\xf5\x80", b"bad 2"),
            Row(Call::Astring(true), b"\"\xc3\"", b"bad 1"),
            Row(Call::Astring(true), b"\"\xe0\x9f", b"bad 1"),
            Row(Call::Astring(true), b"\"\xed\xa0", b"bad 1"),
            Row(Call::Astring(true), b"\"\xf0\x8f", b"bad 1"),
            Row(Call::Astring(true), b"\"\xf4\x90", b"bad 1"),
            Row(Call::Astring(true), b"\"\xe3\x81\"", b"bad 1"),
            Row(Call::Astring(true), b"\"\xf0\x9f\x98\"", b"bad 1"),
        ],
    ),
    (
        "a part of a character goes on",
        &[
            Row(Call::Astring(true), b"\"\xc3", b"more"),
            Row(Call::Astring(true), b"\"\xe3", b"more"),
            Row(Call::Astring(true), b"\"\xe3\x81", b"more"),
            Row(Call::Astring(true), b"\"\xf0\x9f\x98", b"more"),
        ],
    ),
    (
        "field names have an octet",
        &[
            Row(Call::Name, b"Subject)", b"Subject|)"),
            Row(Call::Name, b"\"X-(a)\\\\\" ", b"X-(a)\\| "),
            Row(Call::Name, b"{1}\r\nA", b"{1}|A"),
            Row(Call::Name, b"{010}\r\n", b"{10}|"),
            Row(Call::Name, b"{0}\r\n", b"bad 3"),
            Row(Call::Name, b"\"\" ", b"bad 2"),
            Row(Call::Name, b"\"a b\"", b"bad 3"),
            Row(Call::Name, b"\"a:\"", b"bad 2"),
            Row(Call::Name, b"\"\xc3\xa9\"", b"bad 3"),
            Row(Call::Name, b":", b"bad 1"),
            Row(Call::Name, b"{0", b"more"),
            Row(Call::Name, b"\"a", b"more"),
            Row(Call::Name, b"Subject", b"more"),
        ],
    ),
];

#[test]
fn strings_and_literals_are_read(rt: HostRuntime) -> Result<(), Fail> {
    all_hold(rt.alloc(), &STRINGS)
}

const WORDS: [(&str, &[Row]); 3] = [
    (
        "words are read in any case",
        &[
            Row(Call::Word, b"IN ", b"1| "),
            Row(Call::Word, b"in)", b"1|)"),
            Row(Call::Word, b"iN\r\n", b"1|\r\n"),
            Row(Call::Word, b"InBoX ", b"2| "),
            Row(Call::Word, b"ouT ", b"3| "),
        ],
    ),
    (
        "the longest word is read",
        &[
            Row(Call::Word, b"inboxes", b"2|es"),
            Row(Call::Word, b"inn", b"1|n"),
            Row(Call::Word, b"inbo ", b"bad 1"),
            Row(Call::Word, b"inb.x ", b"bad 3"),
        ],
    ),
    (
        "other words stop at their first octet",
        &[
            Row(Call::Word, b"", b"more"),
            Row(Call::Word, b"i", b"more"),
            Row(Call::Word, b"in", b"more"),
            Row(Call::Word, b"inbox", b"more"),
            Row(Call::Word, b" in", b"bad 3"),
            Row(Call::Word, b"ou ", b"bad 1"),
            Row(Call::Word, b"o\x95t ", b"bad 3"),
            Row(Call::Word, b"\tn ", b"bad 3"),
        ],
    ),
];

#[test]
fn words_of_a_table_are_read(rt: HostRuntime) -> Result<(), Fail> {
    all_hold(rt.alloc(), &WORDS)
}

// A kind, an octet, and whether a run of that kind has it.
const PASSED: [(Kind, u8, bool); 8] = [
    (Kind::Atom, b']', false),
    (Kind::Astring, b']', true),
    (Kind::Astring, b'*', false),
    (Kind::ListMailbox, b'*', true),
    (Kind::Astring, b'+', true),
    (Kind::Tag, b'+', false),
    (Kind::Astring, b':', true),
    (Kind::NameAstring, b':', false),
];

#[test]
fn kinds_differ_in_few_octets(rt: HostRuntime) {
    for (kind, octet, passed) in &PASSED {
        assert!(rt; passes(*kind, *octet) == *passed);
    }
    for octet in b"(){ \"\\\0\x7f\x80\xff" {
        for kind in &[Kind::Atom, Kind::Astring, Kind::ListMailbox, Kind::Tag] {
            assert!(rt; !passes(*kind, *octet));
        }
    }
}
