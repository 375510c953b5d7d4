//! Data that come in pieces.
use mail_wire::Memory;
use smtp_grammar::DataReader;
use std::alloc::Global;
use std::test::Fail;
use test_mail::{Case, all_hold};

// Whether data say this, or more than their limit.
fn says(reader: DataReader, wanted: Option<&[u8]>) -> bool {
    match (reader.into_content(), wanted) {
        (Some(content), Some(wanted)) => content.as_slice() == wanted,
        (None, None) => true,
        _ => false,
    }
}

// Whether data that come in two pieces, after a front, have so many octets of these and say this.
fn reads(
    alloc: Global,
    limit: u32,
    pieces: [&[u8]; 3],
    used: usize,
    wanted: Option<&[u8]>,
) -> Result<bool, Memory> {
    let [front, first, second] = pieces;
    let mut reader = DataReader::new(alloc, limit);
    if reader.take(front)?.is_some() {
        return Ok(false);
    }
    let found = match reader.take(first)? {
        Some(end) => Some(end),
        None => reader
            .take(second)?
            .map(|end| first.len().saturating_add(end)),
    };
    Ok(found == Some(used) && says(reader, wanted))
}

// Whether the octets after a front are read so wherever they are cut in two.
fn reads_at_each_cut(
    alloc: Global,
    limit: u32,
    front: &[u8],
    octets: &[u8],
    used: usize,
    wanted: Option<&[u8]>,
) -> Result<bool, Memory> {
    for cut in 0..=octets.len() {
        let (first, second) = octets.split_at(cut);
        if !reads(alloc, limit, [front, first, second], used, wanted)? {
            return Ok(false);
        }
    }
    Ok(true)
}

// A limit, a front, the octets after it, how many of them are used, and what the data say, unless they are more than the limit.
struct Data {
    limit: u32,
    front: &'static [u8],
    octets: &'static [u8],
    used: usize,
    wanted: Option<&'static [u8]>,
}

impl Case for Data {
    fn holds(&self, alloc: Global) -> Result<bool, Memory> {
        reads_at_each_cut(
            alloc,
            self.limit,
            self.front,
            self.octets,
            self.used,
            self.wanted,
        )
    }
}

const LONG: [u8; 500] = [b'x'; 500];

const DATA: [(&str, &[Data]); 6] = [
    (
        "data end at each cut",
        &[
            Data {
                limit: 100,
                front: b"",
                octets: b"a\r\n..b\r\n.\r\nrest",
                used: 11,
                wanted: Some(b"a\r\n.b\r\n"),
            },
            Data {
                limit: 100,
                front: b"",
                octets: b".\r\nQUIT\r\n",
                used: 3,
                wanted: Some(b""),
            },
            Data {
                limit: 100,
                front: b"",
                octets: b"\r\n.\r\n.\r\n",
                used: 5,
                wanted: Some(b"\r\n"),
            },
            Data {
                limit: 100,
                front: b"",
                octets: b"..\r\n.x\r\nx.\r\n...\r\n.\r\n",
                used: 20,
                wanted: Some(b".\r\nx\r\nx.\r\n..\r\n"),
            },
            Data {
                limit: 100,
                front: b"",
                octets: b"\n.\n\r.\r\r\n.\r.\r\n.\n\r\n.\r\n",
                used: 20,
                wanted: Some(b"\n.\n\r.\r\r\n\r.\r\n\n\r\n"),
            },
        ],
    ),
    (
        "more than the limit is dropped",
        &[
            Data {
                limit: 0,
                front: b"",
                octets: b"a\r\n..b\r\n.\r\nrest",
                used: 11,
                wanted: None,
            },
            Data {
                limit: 1,
                front: b"",
                octets: b"a\r\n..b\r\n.\r\nrest",
                used: 11,
                wanted: None,
            },
            Data {
                limit: 2,
                front: b"",
                octets: b"a\r\n..b\r\n.\r\nrest",
                used: 11,
                wanted: None,
            },
            Data {
                limit: 3,
                front: b"",
                octets: b"a\r\n..b\r\n.\r\nrest",
                used: 11,
                wanted: None,
            },
            Data {
                limit: 4,
                front: b"",
                octets: b"a\r\n..b\r\n.\r\nrest",
                used: 11,
                wanted: None,
            },
            Data {
                limit: 5,
                front: b"",
                octets: b"a\r\n..b\r\n.\r\nrest",
                used: 11,
                wanted: None,
            },
            Data {
                limit: 6,
                front: b"",
                octets: b"a\r\n..b\r\n.\r\nrest",
                used: 11,
                wanted: None,
            },
        ],
    ),
    (
        "the limit itself isn't",
        &[Data {
            limit: 7,
            front: b"",
            octets: b"a\r\n..b\r\n.\r\nrest",
            used: 11,
            wanted: Some(b"a\r\n.b\r\n"),
        }],
    ),
    (
        "no data need no room",
        &[Data {
            limit: 0,
            front: b"",
            octets: b".\r\n",
            used: 3,
            wanted: Some(b""),
        }],
    ),
    (
        "the limit may be the greatest",
        &[Data {
            limit: u32::MAX,
            front: b"",
            octets: b".\r\n",
            used: 3,
            wanted: Some(b""),
        }],
    ),
    (
        "a long line is dropped",
        &[
            Data {
                limit: 10,
                front: &LONG,
                octets: b"\r\n.\r\n",
                used: 5,
                wanted: None,
            },
            Data {
                limit: 10,
                front: &LONG,
                octets: b".\r\n.\r\nrest",
                used: 6,
                wanted: None,
            },
            Data {
                limit: 10,
                front: &LONG,
                octets: b"\r\r\n..\r\n.\r\n",
                used: 10,
                wanted: None,
            },
            Data {
                limit: 10,
                front: &LONG,
                octets: b"\r\nabcdef.\r\n.\r\n.\r\n",
                used: 14,
                wanted: None,
            },
        ],
    ),
];

#[test]
fn data_end_at_each_cut(rt: HostRuntime) -> Result<(), Fail> {
    all_hold(rt.alloc(), &DATA)
}

#[test]
fn a_long_line_within_the_limit_is_none_that_was_dropped(rt: HostRuntime) -> Result<(), Fail> {
    assert!(rt; !reads_at_each_cut(rt.alloc(), 502, &LONG, b"\r\n.\r\n", 5, None)?);
    Ok(())
}

// Data that go on.
struct Part(&'static [u8]);

impl Case for Part {
    fn holds(&self, alloc: Global) -> Result<bool, Memory> {
        let mut reader = DataReader::new(alloc, 100);
        Ok(reader.take(self.0)?.is_none())
    }
}

const PARTS: [(&str, &[Part]); 1] = [(
    "data go on",
    &[
        Part(b""),
        Part(b"."),
        Part(b".\r"),
        Part(b"\r\n.\r"),
        Part(b".\n"),
        Part(b"..\r\n"),
        Part(b"x.\r\n"),
        Part(b"\n.\r"),
    ],
)];

#[test]
fn data_go_on(rt: HostRuntime) -> Result<(), Fail> {
    all_hold(rt.alloc(), &PARTS)
}
