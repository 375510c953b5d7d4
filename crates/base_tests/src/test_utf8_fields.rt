//! The worked rows, by the public calls.
use mail_wire::{Memory, Span};
use std::alloc::Global;
use std::test::Fail;
use test_mail::{Case, all_hold};
use utf8_fields::{
    Field, FieldFault, Fields, Parts, read_block, read_block_at, split_field, value_of, write_block,
};

// What is read of octets.
enum Row {
    // the first fault
    Fault(&'static [u8], FieldFault),
    // the block from a place on: the place, the octets of the name and all octets of each field, and where it ends
    Block(&'static [u8], usize, &'static [[usize; 3]], usize),
    // what is written of the block
    Written(&'static [u8], &'static [u8]),
    // the name, the white, the body and the ending of the one field
    Field(&'static [u8], &'static [&'static [u8]]),
    // the value of a body
    Value(&'static [u8], &'static [u8]),
}

impl Case for Row {
    fn holds(&self, alloc: Global) -> Result<bool, Memory> {
        match self {
            Row::Fault(octets, fault) => Ok(has_fault(alloc, *octets, *fault)),
            Row::Block(octets, at, fields, end) => Ok(reads(alloc, *octets, *at, *fields, *end)),
            Row::Written(octets, written) => Ok(writes(alloc, *octets, *written)),
            Row::Field(octets, parts) => Ok(has_parts(alloc, *octets, *parts)),
            Row::Value(body, value) => Ok(value_of(alloc, *body)?.as_slice() == *value),
        }
    }
}

fn has_fault(alloc: Global, octets: &[u8], wanted: FieldFault) -> bool {
    match read_block(alloc, octets) {
        Ok(_) => false,
        Err(fault) => fault == wanted,
    }
}

fn are_fields(found: &[Field], wanted: &[[usize; 3]]) -> bool {
    if found.len() != wanted.len() {
        return false;
    }
    for (field, places) in found.iter().zip(wanted) {
        if [field.name.at, field.name.len, field.raw.len] != *places
            || field.raw.at != field.name.at
        {
            return false;
        }
    }
    true
}

fn reads(alloc: Global, octets: &[u8], at: usize, fields: &[[usize; 3]], end: usize) -> bool {
    if at > octets.len() {
        return false;
    }
    match read_block_at(alloc, octets, at) {
        Ok(block) => are_fields(block.fields.as_slice(), fields) && block.end == end,
        Err(_) => false,
    }
}

fn writes(alloc: Global, octets: &[u8], written: &[u8]) -> bool {
    let Ok(block) = read_block(alloc, octets) else {
        return false;
    };
    match write_block(alloc, octets, &block) {
        Ok(made) => made.as_slice() == written,
        Err(_) => false,
    }
}

// Whether these are the parts of a field.
fn are_parts(cut: &Parts, parts: &[&[u8]]) -> bool {
    match parts {
        [name, white, body, ending] => {
            cut.name == *name && cut.white == *white && cut.body == *body && cut.ending == *ending
        }
        _ => false,
    }
}

// Whether the octets are one field of these parts.
fn has_parts(alloc: Global, octets: &[u8], parts: &[&[u8]]) -> bool {
    let Ok(block) = read_block(alloc, octets) else {
        return false;
    };
    match block.fields.as_slice() {
        [field] => are_parts(
            &split_field(&octets[field.raw.at..field.raw.at + field.raw.len]),
            parts,
        ),
        _ => false,
    }
}

const BLOCK: &[u8] = b"A: b\r\n c\r\nSubject : \xC3\xA9\r\n\r\nbody\r\n";

const ROWS: [(&str, &[Row]); 5] = [
    (
        "the first faulty line is told",
        &[
            Row::Fault(b"Subject", FieldFault::NotField { at: 0 }),
            Row::Fault(b"A: \xFF\r\n", FieldFault::NotUtf8 { at: 3 }),
            Row::Fault(b"A: \xC3x", FieldFault::NotUtf8 { at: 3 }),
            Row::Fault(b" A: b", FieldFault::NotField { at: 0 }),
            Row::Fault(b": b\r\n", FieldFault::NotField { at: 0 }),
            Row::Fault(b"A: b\r\nc", FieldFault::NotField { at: 6 }),
            Row::Fault(b"A: b\rc\r\n", FieldFault::NotField { at: 0 }),
            Row::Fault(b"A: b\nc\r\n", FieldFault::NotField { at: 0 }),
            Row::Fault(b"A: b\r", FieldFault::NotField { at: 0 }),
            Row::Fault(b"A: \xFF\0\r\n", FieldFault::NotField { at: 0 }),
            Row::Fault(b"A: b\r\n c\0\r\n", FieldFault::NotField { at: 6 }),
            Row::Fault(b"A: b\r\n c\xC3\r\n", FieldFault::NotUtf8 { at: 8 }),
        ],
    ),
    (
        "blocks are read",
        &[
            Row::Block(BLOCK, 0, &[[0, 1, 10], [10, 7, 14]], 24),
            Row::Block(BLOCK, 10, &[[10, 7, 14]], 24),
            Row::Block(b"", 0, &[], 0),
            Row::Block(b"\r\n", 0, &[], 0),
            Row::Block(b"\r\nA: b\r\n", 0, &[], 0),
        ],
    ),
    (
        "blocks are written",
        &[Row::Written(BLOCK, b"A: b\r\n c\r\nSubject : \xC3\xA9\r\n")],
    ),
    (
        "fields are split",
        &[
            Row::Field(b"A \t: b\r\n c\r\n", &[b"A", b" \t", b" b\r\n c", b"\r\n"]),
            Row::Field(b"B:", &[b"B", b"", b"", b""]),
        ],
    ),
    (
        "values are unfolded and trimmed",
        &[
            Row::Value(b" \t b\r\n c\t\r\n ", b"b c"),
            Row::Value(b"b", b"b"),
            Row::Value(b" \t", b""),
            Row::Value(b"", b""),
        ],
    ),
];

#[test]
fn blocks_fields_and_values_are_read_and_written(rt: HostRuntime) -> Result<(), Fail> {
    all_hold(rt.alloc(), &ROWS)
}

// How many octets of `x`, and the octet, are the name of `x`, the octet, and `: y`.
fn name_of_two(alloc: Global, octet: u8) -> Option<usize> {
    let raw = [b'x', octet, b':', b' ', b'y', b'\r', b'\n'];
    let Ok(block) = read_block(alloc, &raw) else {
        return None;
    };
    match block.fields.as_slice() {
        [field] => Some(field.name.len),
        _ => None,
    }
}

#[test]
fn names_have_the_octets_33_to_126_but_the_colon(rt: HostRuntime) {
    for octet in 0..=255u8 {
        let want = match octet {
            b'\t' | b' ' | b':' => Some(1),
            33..=126 => Some(2),
            _ => None,
        };
        assert!(rt; name_of_two(rt.alloc(), octet) == want);
    }
}

#[test]
fn fields_are_a_list(rt: HostRuntime) -> Result<(), Fail> {
    let field = Field {
        name: Span { at: 0, len: 1 },
        raw: Span { at: 0, len: 10 },
    };
    let mut fields = Fields::new(rt.alloc());
    fields.push(field)?;
    let fields = Fields::from_vec(fields.into_vec());
    assert!(rt; fields.len() == 1 && fields.as_slice() == [field].as_slice());
    Ok(())
}
