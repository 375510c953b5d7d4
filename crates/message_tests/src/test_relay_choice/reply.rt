//! Replies, whole and in pieces, and what they offer and mean.
ghost use Rattle.std.specs.Prelude.{◌≤◌, length};

use mail_wire::{Memory, Octets};
use relay_choice::{
    Offer, Reply, ReplyRead, ReplyReader, Taken, is_completed, is_intermediate, is_permanent,
    offer_of, push_data, read_reply,
};
use std::alloc::Global;
use std::test::Fail;
use test_mail::{Case, all_hold};

// What is read: a whole reply by its code, its octets and its last line, or by its octets alone.
#[derive(Clone, Copy)]
enum Read {
    Whole(u16, usize, &'static [u8]),
    WholeOf(usize),
    More,
    NotReply(usize),
}

// Octets, so many lines, or a line of so many octets.
enum Row {
    Octets(&'static [u8], Read),
    Lines(usize, Read),
    Line(usize, Read),
}

impl Case for Row {
    fn holds(&self, alloc: Global) -> Result<bool, Memory> {
        match self {
            Row::Octets(octets, wanted) => reads(alloc, *octets, *wanted),
            Row::Lines(count, wanted) => reads(alloc, lines(alloc, *count)?.as_slice(), *wanted),
            Row::Line(len, wanted) => reads(alloc, line(alloc, *len)?.as_slice(), *wanted),
        }
    }
}

fn reads(alloc: Global, octets: &[u8], wanted: Read) -> Result<bool, Memory> {
    match read_reply(alloc, octets)? {
        ReplyRead::Whole { reply, used } => Ok(is_whole(&reply, used, wanted)),
        ReplyRead::More => Ok(matches!(wanted, Read::More)),
        ReplyRead::NotReply { used } => match wanted {
            Read::NotReply(len) => Ok(used == len),
            _ => Ok(false),
        },
    }
}

fn is_whole(reply: &Reply, used: usize, wanted: Read) -> bool {
    match (wanted, reply.lines.as_slice().last()) {
        (Read::Whole(code, len, last), Some(text)) => {
            reply.code == code && used == len && text.as_slice() == last
        }
        (Read::WholeOf(len), Some(_)) => used == len,
        _ => false,
    }
}

// So many lines, all but the last of which go on.
fn lines(alloc: Global, count: usize) -> Result<Octets, Memory> {
    let mut made = Octets::new(alloc);
    for _ in 1..count {
        made.push_slice(b"250-x\r\n")?;
    }
    made.push_slice(b"250 x\r\n")?;
    Ok(made)
}

// A line with so many octets before its CRLF.
fn line(alloc: Global, len: usize) -> Result<Octets, Memory> {
    let mut made = Octets::from_slice(alloc, b"250 ")?;
    for _ in 4..len {
        made.push(b'x')?;
    }
    made.push_slice(b"\r\n")?;
    Ok(made)
}

const REPLIES: [(&str, &[Row]); 7] = [
    (
        "a reply goes to its last line",
        &[
            Row::Octets(b"220 x\r\n", Read::Whole(220, 7, b"x")),
            Row::Octets(b"354\r\nrest", Read::Whole(354, 5, b"")),
            Row::Octets(b"550 \r\n", Read::Whole(550, 6, b"")),
            Row::Octets(b"250-a\r\n250 b\r\n", Read::Whole(250, 14, b"b")),
            Row::Octets(b"250-\r\n250 a\r\r\n", Read::Whole(250, 14, b"a\r")),
        ],
    ),
    (
        "a part of a reply goes on",
        &[
            Row::Octets(b"", Read::More),
            Row::Octets(b"250-x\r\n", Read::More),
            Row::Octets(b"250-x\r\n25", Read::More),
            Row::Octets(b"250 x\r", Read::More),
        ],
    ),
    (
        "the least octets that begin no reply are told",
        &[
            Row::Octets(b"2xy", Read::NotReply(2)),
            Row::Octets(b"650 x\r\n", Read::NotReply(1)),
            Row::Octets(b"250x", Read::NotReply(4)),
            Row::Octets(b"250\rx", Read::NotReply(5)),
            Row::Octets(b"250-x\r\n251 x\r\n", Read::NotReply(10)),
            Row::Octets(b"250-x\r\n\r\n", Read::NotReply(8)),
        ],
    ),
    (
        "a reply has 100 lines at most",
        &[Row::Lines(100, Read::Whole(250, 700, b"x"))],
    ),
    ("and no 101", &[Row::Lines(101, Read::NotReply(697))]),
    (
        "a line has 2048 octets at most",
        &[Row::Line(2046, Read::WholeOf(2048))],
    ),
    ("and no 2049", &[Row::Line(2047, Read::NotReply(2047))]),
];

#[test]
fn replies_are_read(rt: HostRuntime) -> Result<(), Fail> {
    all_hold(rt.alloc(), &REPLIES)
}

// Whether a reader decides at so many of the octets, whatever the first piece is.
fn is_decided_at_each_cut(alloc: Global, octets: &[u8], wanted: usize) -> Result<bool, Memory>
    requires { wanted ≤ length octets.now }
{
    for cut in 0..wanted {
        let (first, second) = octets.split_at(cut);
        let Taken::Begun(reader) = ReplyReader::new(alloc).take(first)? else {
            return Ok(false);
        };
        let Taken::Decided {
            octets: advance,
            used,
        } = reader.take(second)?
        else {
            return Ok(false);
        };
        if used != wanted - cut || advance.as_slice() != &octets[..wanted] {
            return Ok(false);
        }
    }
    Ok(true)
}

#[test]
fn a_reply_is_the_same_in_pieces(rt: HostRuntime) -> Result<(), Fail> {
    let alloc = rt.alloc();
    assert!(rt; is_decided_at_each_cut(alloc, b"250-a\r\n250 b\r\n220 x\r\n", 14)?);
    assert!(rt; is_decided_at_each_cut(alloc, b"250-a\r\n251 b\r\n", 10)?);
    Ok(())
}

// A reply, and whether it offers SMTPUTF8 and 8BITMIME.
struct Offered(&'static [u8], [bool; 2]);

impl Case for Offered {
    fn holds(&self, alloc: Global) -> Result<bool, Memory> {
        let [smtputf8, eight] = self.1;
        match read_reply(alloc, self.0)? {
            ReplyRead::Whole { reply, .. } => Ok(offer_of(&reply) == Offer { smtputf8, eight }),
            _ => Ok(false),
        }
    }
}

const OFFERS: [(&str, &[Offered]); 1] = [(
    "SMTPUTF8 counts only with 8BITMIME",
    &[
        Offered(b"250 8BITMIME\r\n", [false, false]),
        Offered(b"250-x\r\n250 SMTPUTF8\r\n", [false, false]),
        Offered(b"250-x\r\n250 8bitMIME y\r\n", [false, true]),
        Offered(
            b"250-x\r\n250-8BITMIMEX\r\n250 SMTPUTF8\r\n",
            [false, false],
        ),
        Offered(
            b"250-x\r\n250- smtputf8\r\n250 \t8BITMIME\r\n",
            [true, true],
        ),
    ],
)];

#[test]
fn smtputf8_counts_only_with_8bitmime(rt: HostRuntime) -> Result<(), Fail> {
    all_hold(rt.alloc(), &OFFERS)
}

#[test]
fn the_first_digit_says_what_a_reply_means(rt: HostRuntime) {
    for (code, meant) in [
        (249, [true, false, false]),
        (250, [true, false, false]),
        (299, [true, false, false]),
        (300, [false, true, false]),
        (354, [false, true, false]),
        (400, [false, false, false]),
        (421, [false, false, false]),
        (499, [false, false, false]),
        (500, [false, false, true]),
    ] {
        assert!(rt;
            [
                is_completed(code),
                is_intermediate(code),
                is_permanent(code)
            ] == meant
        );
    }
}

// Octets, and how they are sent as data.
struct Data(&'static [u8], &'static [u8]);

impl Case for Data {
    fn holds(&self, alloc: Global) -> Result<bool, Memory> {
        let mut made = Octets::new(alloc);
        push_data(&mut made, self.0)?;
        Ok(made.as_slice() == self.1)
    }
}

const DATA: [(&str, &[Data]); 1] = [(
    "dots are stuffed and a last line is ended",
    &[
        Data(b"", b".\r\n"),
        Data(b"a\r\n", b"a\r\n.\r\n"),
        Data(b"a", b"a\r\n.\r\n"),
        Data(b".\r\n..\r\n.a.\r\n", b"..\r\n...\r\n..a.\r\n.\r\n"),
        Data(b"a\r\n.", b"a\r\n..\r\n.\r\n"),
    ],
)];

#[test]
fn dots_are_stuffed_and_a_last_line_is_ended(rt: HostRuntime) -> Result<(), Fail> {
    all_hold(rt.alloc(), &DATA)
}
