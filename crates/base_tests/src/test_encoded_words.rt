//! Encoded words and units, by the public calls of encoded_words.
use encoded_words::{
    Context, Merging, Unit, push_line, push_words, read_comment, read_units, read_unstructured,
    read_word, rewrite_comment, write_units, write_words,
};
use mail_wire::{Memory, Octets};
use std::alloc::Global;
use std::test::Fail;
use test_mail::{Case, all_hold};

// What is called with a text.
#[derive(Clone, Copy)]
enum Call {
    ReadComment,
    ReadUnstructured,
    ReadUnits(Context),
    ReadWord,
    RewriteComment,
    WriteWords,
    PushWords,
    WriteUnits,
    Merge,
}

// A call, its text, and what is told of what the call makes of it.
struct Row(Call, &'static str, &'static str);

impl Case for Row {
    fn holds(&self, alloc: Global) -> Result<bool, Memory> {
        let mut told = Octets::from_slice(alloc, b"Subject:")?;
        tell(alloc, self.0, self.1, &mut told)?;
        Ok(told.as_slice().strip_prefix(b"Subject:") == Some(self.2.as_bytes()))
    }
}

fn tell(alloc: Global, call: Call, text: &str, told: &mut Octets) -> Result<(), Memory> {
    match call {
        Call::ReadComment => tell_units(told, &read_comment(alloc, text.as_bytes())?),
        Call::ReadUnstructured => tell_units(told, &read_unstructured(alloc, text.as_bytes())?),
        Call::ReadUnits(context) => {
            tell_units(told, &read_units(alloc, context, text.as_bytes())?)
        }
        Call::ReadWord => tell_word(told, read_word(alloc, text.as_bytes())?),
        Call::RewriteComment => rewrite_comment(alloc, text.as_bytes(), told),
        Call::WriteWords => tell_pieces(alloc, text, told),
        Call::PushWords => push_words(told, b'\t', text.as_bytes()),
        Call::WriteUnits => written(alloc, text, told),
        Call::Merge => tell_merging(alloc, text.as_bytes(), told),
    }
}

// Tells a text between angle brackets, and the charset and the octets of another word before its source.
fn tell_unit(told: &mut Octets, unit: &Unit) -> Result<(), Memory> {
    match unit {
        Unit::Text(octets) => put_all(told, &[b"<", octets.as_slice(), b">"]),
        Unit::Opaque {
            charset,
            octets,
            source,
        } => put_all(
            told,
            &[
                charset.as_slice(),
                b" ",
                octets.as_slice(),
                b" ",
                source.as_slice(),
            ],
        ),
    }
}

fn put_all(told: &mut Octets, parts: &[&[u8]]) -> Result<(), Memory> {
    for part in parts {
        told.push_slice(part)?;
    }
    Ok(())
}

fn tell_units(told: &mut Octets, units: &[Unit]) -> Result<(), Memory> {
    for unit in units {
        tell_unit(told, unit)?;
    }
    Ok(())
}

fn tell_word(told: &mut Octets, word: Option<Unit>) -> Result<(), Memory> {
    match word {
        Some(unit) => tell_unit(told, &unit),
        None => told.push_slice(b"none"),
    }
}

// Tells the encoded words of a text, each on a line.
fn tell_pieces(alloc: Global, text: &str, told: &mut Octets) -> Result<(), Memory> {
    let mut pieces = Vec::new(alloc);
    write_words(alloc, text.as_bytes(), &mut pieces)?;
    for piece in &pieces {
        push_line(told, piece.as_slice())?;
    }
    Ok(())
}

fn written(alloc: Global, text: &str, told: &mut Octets) -> Result<(), Memory> {
    let Ok(units) = read_unstructured(alloc, text.as_bytes()) else {
        return Err(Memory);
    };
    write_units(&units, told)?;
    push_line(told, b"b")
}

// Tells what is done when an octet and a word after a space were taken, and then what is left.
fn tell_merging(alloc: Global, word: &[u8], told: &mut Octets) -> Result<(), Memory> {
    let mut units = Merging::new(alloc);
    for (run, word) in [(&b""[..], &b"a"[..]), (b" ", word), (b"", b"")] {
        let is_encoded = units.push_word(alloc, run, false, word)?;
        tell_units(told, &units.take_done(alloc))?;
        told.push(if is_encoded { b'+' } else { b'-' })?;
    }
    Ok(())
}

const LONG: &str = "ああああああああああああああああ";

const ROWS: [(&str, &[Row]); 26] = [
    (
        "a quoted pair gives its second octet",
        &[Row(Call::ReadComment, r"a\(b \\ \é", r"<a(b \ é>")],
    ),
    (
        "a backslash at the end stays",
        &[Row(Call::ReadComment, r"a \", r"<a \>")],
    ),
    (
        "white at the ends is left out",
        &[Row(Call::ReadComment, "\té  b ", "<é  b>")],
    ),
    (
        "quoted white at the end isn't",
        &[Row(Call::ReadComment, "é\\  ", "<é >")],
    ),
    (
        "white alone has no unit",
        &[Row(Call::ReadComment, " \t", "")],
    ),
    (
        "an encoded word is decoded",
        &[Row(Call::ReadComment, "=?UTF-8?Q?x=C3=A9?= y", "<xé y>")],
    ),
    (
        "white between two is dropped",
        &[Row(
            Call::ReadComment,
            "=?UTF-8?Q?a?= \t =?UTF-8?Q?b?= c",
            "<ab c>",
        )],
    ),
    (
        "quoted white between two isn't",
        &[Row(
            Call::ReadComment,
            "=?UTF-8?Q?a?= \\  =?UTF-8?Q?b?=",
            "<a   b>",
        )],
    ),
    (
        "a quoted pair makes a plain word",
        &[Row(
            Call::ReadComment,
            r"=?UTF-8?Q?\a?= =?UTF-8?Q?b?=",
            "<=?UTF-8?Q?a?= b>",
        )],
    ),
    (
        "another charset stays apart in a comment",
        &[Row(
            Call::ReadComment,
            " é =?ISO-8859-1?Q?x?= ",
            "<é >iso-8859-1 x =?ISO-8859-1?Q?x?=",
        )],
    ),
    (
        "another charset stays apart in a text",
        &[Row(
            Call::ReadUnstructured,
            "é =?ISO-8859-1?Q?x?= z",
            "<é >iso-8859-1 x =?ISO-8859-1?Q?x?=< z>",
        )],
    ),
    (
        "a backslash is an octet in a text",
        &[Row(Call::ReadUnits(Context::Unstructured), r" a\)", r"< a\)>")],
    ),
    (
        "a backslash quotes in a comment",
        &[Row(Call::ReadUnits(Context::Comment), r" a\)", "<a)>")],
    ),
    (
        "white alone is written as nothing",
        &[Row(Call::RewriteComment, " \t", "")],
    ),
    (
        "a comment is written as it is read",
        &[Row(Call::RewriteComment, " é ", "\r\n =?UTF-8?B?w6k=?=")],
    ),
    (
        "words of a charset and texts are written in turn",
        &[Row(
            Call::RewriteComment,
            "=?x?Q?a?= =?x?Q?b?= é =?utf-8?Q?=C3=A9?= =?utf-8?Q?_?= =?x?Q?c?= ",
            "\r\n =?x?Q?a?=\r\n =?x?Q?b?=\r\n =?UTF-8?B?IMOpIMOpIA==?=\r\n =?x?Q?c?=",
        )],
    ),
    ("no text has no word", &[Row(Call::WriteWords, "", "")]),
    (
        "words are the shorter of both",
        &[
            Row(Call::WriteWords, "café", "\r\n =?UTF-8?B?Y2Fmw6k=?="),
            Row(Call::WriteWords, "Zoë", "\r\n =?UTF-8?Q?Zo=C3=AB?="),
            Row(Call::WriteWords, " é ", "\r\n =?UTF-8?Q?_=C3=A9_?="),
            Row(Call::WriteWords, "_", "\r\n =?UTF-8?Q?=5F?="),
            Row(Call::WriteWords, "a?=.", "\r\n =?UTF-8?B?YT89Lg==?="),
            Row(
                Call::WriteWords,
                "azAZ09!*+-/ ",
                "\r\n =?UTF-8?Q?azAZ09!*+-/_?=",
            ),
            Row(
                Call::WriteWords,
                "naïve reading of café",
                "\r\n =?UTF-8?Q?na=C3=AFve_reading_of_caf=C3=A9?=",
            ),
            Row(
                Call::WriteWords,
                "x josé@example.com, b@example.com",
                "\r\n =?UTF-8?Q?x_jos=C3=A9=40example=2Ecom=2C_b=40example=2Ecom?=",
            ),
        ],
    ),
    (
        "a text's first word may be a Q word and its second a B word",
        &[Row(
            Call::WriteWords,
            "a letter from Zoë to all who read plain mail ああ",
            "\r\n =?UTF-8?Q?a_letter_from_Zo=C3=AB_to_all_who_read_plain_mail?=\r\n =?UTF-8?B?IOOBguOBgg==?=",
        )],
    ),
    (
        "words hold as many characters as fit",
        &[Row(
            Call::WriteWords,
            LONG,
            "\r\n =?UTF-8?B?44GC44GC44GC44GC44GC44GC44GC44GC44GC44GC44GC44GC44GC44GC44GC?=\r\n =?UTF-8?B?44GC?=",
        )],
    ),
    (
        "words are put on lines",
        &[Row(
            Call::PushWords,
            LONG,
            "\r\n\t=?UTF-8?B?44GC44GC44GC44GC44GC44GC44GC44GC44GC44GC44GC44GC44GC44GC44GC?=\r\n =?UTF-8?B?44GC?=",
        )],
    ),
    (
        "a B word is read",
        &[Row(Call::ReadWord, "=?UTF-8?B?Y2Fmw6k=?=", "<café>")],
    ),
    (
        "a Q word with a language is read",
        &[Row(Call::ReadWord, "=?utf-8*fr?q?caf=C3=a9_1?=", "<café 1>")],
    ),
    (
        "a cut word isn't read",
        &[Row(Call::ReadWord, "=?utf-8?Q?caf=C?=", "none")],
    ),
    (
        "units are written",
        &[Row(
            Call::WriteUnits,
            "é =?x?Q?a?=",
            "\r\n =?UTF-8?B?w6kg?=\r\n =?x?Q?a?=\r\n b",
        )],
    ),
    (
        "units that are done are taken away",
        &[Row(Call::Merge, "=?x?Q?b?=", "-<a >x b =?x?Q?b?=+-")],
    ),
];

#[test]
fn words_and_units_are_read_and_written(rt: HostRuntime) -> Result<(), Fail> {
    all_hold(rt.alloc(), &ROWS)
}
