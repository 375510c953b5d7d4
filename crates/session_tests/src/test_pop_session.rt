//! Ranges of messages, given as lines with their dots.
ghost use Rattle.std.specs.Prelude.{◌≡◌, ◌≤◌, length, take, IfOk};
ghost use Rattle.surrogate_rope.specs.Served.{IsShownOf, shown_octets};

use mail_wire::{Failed, Failure, MemWire, Memory, is_ended};
use mime_tree::read_tree;
use pop_session::give_dotted;
use std::alloc::Global;
use std::test::Fail;
use surrogate_cache::{Cache, Enabled, Legacy, View};
use surrogate_rope::Shown;
use test_mail::{Case, all_hold, given, wire_of};

// The first octets, so many, of what is shown.
fn front_of(alloc: Global, shown: &Shown, msg: &[u8], len: usize) -> Result<Vec<u8>, Memory>
    requires shown { IsShownOf msg.now shown.now }
    requires len { len ≤ length (shown_octets msg.now shown.now) }
    ensures { IfOk result (λ front. front.items ≡ take len (shown_octets msg.now shown.now)) }
{
    let mut front = Vec::new(alloc);
    front.resize(len, 0)?;
    shown.read_at(msg, 0, &mut front);
    Ok(front)
}

// Gives the lines of a range of what a session of this kind is shown of a message. There is none where no line starts.
fn give_lines<V: View>(
    alloc: Global,
    msg: &[u8],
    at: usize,
    len: usize,
    wire: &mut MemWire,
) -> Result<Option<Result<(), Failed>>, Memory> {
    let Ok(_tree) = read_tree(alloc, msg) else {
        return Ok(None);
    };
    let shown = V::show(alloc, &mut Cache::open(alloc, 1, 1)?, 0, msg)?;
    let size = shown.size(msg);
    if size < at || size - at < len {
        return Ok(None);
    }
    let front = front_of(alloc, &shown, msg, at)?;
    if !is_ended(&front) {
        return Ok(None);
    }
    Ok(Some(give_dotted(&shown, msg, at, len, wire)))
}

// Whether the lines of a range are given so.
fn are_given<V: View>(
    alloc: Global,
    msg: &str,
    range: [usize; 2],
    want: &str,
) -> Result<bool, Memory> {
    let [at, len] = range;
    let mut wire = wire_of(alloc, b"", &[], None)?;
    let done = give_lines::<V>(alloc, msg.as_bytes(), at, len, &mut wire)?;
    Ok(done == Some(Ok(())) && given(alloc, wire.entries())?.as_slice() == want.as_bytes())
}

const TEXT: &str = "A: 1\r\n\r\n.x\r\ny.z\r\n.\r\n..";

const WORD: &str = "Subject: é\r\n.X: 1\r\n\r\n.b\r\nc.d";

// A message, the place and the octets of a range, and what is given, where UTF-8 is enabled or isn't.
enum Lines {
    Enabled(&'static str, [usize; 2], &'static str),
    Legacy(&'static str, [usize; 2], &'static str),
}

impl Case for Lines {
    fn holds(&self, alloc: Global) -> Result<bool, Memory> {
        match self {
            Lines::Enabled(msg, range, want) => are_given::<Enabled>(alloc, *msg, *range, *want),
            Lines::Legacy(msg, range, want) => are_given::<Legacy>(alloc, *msg, *range, *want),
        }
    }
}

const LINES: [(&str, &[Lines]); 12] = [
    (
        "dots go before lines that begin with one",
        &[Lines::Enabled(TEXT, [0, 22], "A: 1\r\n\r\n..x\r\ny.z\r\n..\r\n...")],
    ),
    (
        "where UTF-8 isn't enabled, too",
        &[Lines::Legacy(TEXT, [0, 22], "A: 1\r\n\r\n..x\r\ny.z\r\n..\r\n...")],
    ),
    (
        "at the beginning of a range",
        &[Lines::Enabled(TEXT, [8, 4], "..x\r\n")],
    ),
    (
        "and on to its end",
        &[Lines::Enabled(TEXT, [8, 14], "..x\r\ny.z\r\n..\r\n...")],
    ),
    ("of one octet", &[Lines::Enabled(TEXT, [8, 1], "..")]),
    (
        "at the end of a message",
        &[Lines::Enabled(TEXT, [20, 2], "...")],
    ),
    (
        "and not within a line",
        &[Lines::Enabled(TEXT, [12, 3], "y.z")],
    ),
    (
        "an empty range has none",
        &[Lines::Enabled(TEXT, [20, 0], "")],
    ),
    ("nor an empty message", &[Lines::Enabled("", [0, 0], "")]),
    (
        "runs of a surrogate are one text",
        &[Lines::Legacy(
            WORD,
            [0, 45],
            "Subject:\r\n =?UTF-8?B?w6k=?=\r\n..X: 1\r\n\r\n..b\r\nc.d",
        )],
    ),
    (
        "a range may begin in one",
        &[Lines::Legacy(WORD, [29, 6], "..X: 1\r")],
    ),
    (
        "and end in another",
        &[Lines::Legacy(WORD, [10, 21], " =?UTF-8?B?w6k=?=\r\n..X")],
    ),
];

#[test]
fn dots_go_before_lines_that_begin_with_one(rt: HostRuntime) -> Result<(), Fail> {
    all_hold(rt.alloc(), &LINES)
}

#[test]
fn after_a_fault_a_prefix_was_given(rt: HostRuntime) -> Result<(), Fail> {
    let alloc = rt.alloc();
    for call in 0..6 {
        let mut wire = wire_of(alloc, b"", &[], Some(Failure { call, kept: 1 }))?;
        let done = give_lines::<Enabled>(alloc, TEXT.as_bytes(), 8, 14, &mut wire)?;
        assert!(rt; done == Some(Err(Failed::Outside)));
        let octets = given(alloc, wire.entries())?;
        assert!(rt; b"..x\r\ny.z\r\n..\r\n...".starts_with(octets.as_slice()));
    }
    Ok(())
}
