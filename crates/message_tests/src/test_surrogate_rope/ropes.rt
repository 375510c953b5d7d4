//! The ropes of worked messages, by the public calls.
ghost use Rattle.std.specs.Prelude.{◌≡◌, IfSome, IfOk};
ghost use Rattle.surrogate_rope.specs.Ropes.{IsRopeOf};
ghost use Rattle.surrogate_rope.specs.Served.{IsShownOf};

use mail_wire::{Memory, Octets, Span};
use mime_tree::{Part, read_tree};
use std::alloc::Global;
use std::test::Fail;
use surrogate_rope::{Rope, Shown};
use test_mail::{Case, all_hold};

// A section by its path and what is asked, and the octets that stand there.
type Section = (&'static [u32], Part, Option<&'static str>);

pub const GLOBAL: &str =
    "Content-Type: multipart/mixed; boundary=b\r\n\r\n--b\r\nContent-Type: message/global\r\n\r\nSubject: é\r\n\r\nt\r\n--b--\r\n";

pub const GLOBAL_MADE: &str =
    "Content-Type: multipart/mixed; boundary=b\r\n\r\n--b\r\nContent-Type: message/rfc822\r\n\r\nSubject:\r\n =?UTF-8?B?w6k=?=\r\n\r\nt\r\n--b--\r\n";

pub const SHUT: &str =
    "Content-Type: multipart/mixed; boundary=b\r\n\r\n--b\r\nContent-Type: message/global\r\nContent-Transfer-Encoding: base64\r\n\r\nSubject: é\r\n\r\nt\r\n--b--\r\n";

const MENU: &str =
    "From: Zoë <zoe@example.org>\r\nTo: Ann <ann@example.com>\r\nSubject: Menü für Freitag\r\nDate: Thu, 01 Jan 1970 00:00:00 +0000\r\nMessage-ID: <1@example.org>\r\nMIME-Version: 1.0\r\nContent-Type: multipart/mixed; boundary=\"=_b\"\r\n\r\n--=_b\r\nContent-Type: text/plain; charset=utf-8\r\nContent-Transfer-Encoding: 8bit\r\n\r\nGrüße\r\n--=_b\r\nContent-Type: application/pdf; name=\"Menü.pdf\"\r\nContent-Disposition: attachment; filename=\"Menü.pdf\"\r\nContent-Transfer-Encoding: base64\r\n\r\nJVBERg==\r\n--=_b--\r\n";

const MENU_MADE: &str =
    "From:\r\n =?UTF-8?Q?Zo=C3=AB?=\r\n <zoe@example.org>\r\nTo: Ann <ann@example.com>\r\nSubject:\r\n =?UTF-8?B?TWVuw7wgZsO8cg==?=\r\n Freitag\r\nDate: Thu, 01 Jan 1970 00:00:00 +0000\r\nMessage-ID: <1@example.org>\r\nMIME-Version: 1.0\r\nContent-Type: multipart/mixed; boundary=\"=_b\"\r\n\r\n--=_b\r\nContent-Type: text/plain; charset=utf-8\r\nContent-Transfer-Encoding: 8bit\r\n\r\nGrüße\r\n--=_b\r\nContent-Type:\r\n application/pdf;\r\n name*=UTF-8''Men%C3%BC.pdf\r\nContent-Disposition:\r\n attachment;\r\n filename*=UTF-8''Men%C3%BC.pdf\r\nContent-Transfer-Encoding: base64\r\n\r\nJVBERg==\r\n--=_b--\r\n";

fn rope_of(alloc: Global, msg: &[u8]) -> Option<Rope>
    ensures { IfSome result (IsRopeOf msg.now) }
{
    let Ok(tree) = read_tree(alloc, msg) else {
        return None;
    };
    match Rope::build(alloc, msg, &tree) {
        Ok(rope) => Some(rope),
        Err(_) => None,
    }
}

fn stands_at(octets: &[u8], span: Option<Span>, wanted: Option<&str>) -> bool {
    match (span, wanted) {
        (Some(span), Some(wanted)) => match octets.get(span.at..) {
            Some(rest) => rest.get(..span.len) == Some(wanted.as_bytes()),
            None => false,
        },
        (None, None) => true,
        _ => false,
    }
}

// A message, its surrogate, the octets of both and how many fields were made anew, and sections.
struct Given(&'static str, &'static str, [usize; 3], &'static [Section]);

impl Case for Given {
    fn holds(&self, alloc: Global) -> Result<bool, Memory> {
        let msg = self.0.as_bytes();
        let made = self.1.as_bytes();
        let Some(rope) = rope_of(alloc, msg) else {
            return Ok(false);
        };
        let mut buffer = [0; 1000];
        let count = rope.read_at(msg, 0, &mut buffer);
        Ok(
            &buffer[..count] == made
                && [msg.len(), rope.size(), rope.rewritten()] == self.2
                && have_sections(&rope, made, self.3),
        )
    }
}

fn have_sections(rope: &Rope, made: &[u8], sections: &[Section]) -> bool {
    for section in sections {
        if !stands_at(made, rope.section(section.0, section.1), section.2) {
            return false;
        }
    }
    true
}

const OPENED: [Section; 11] = [
    (&[], Part::Whole, Some(GLOBAL_MADE)),
    (
        &[],
        Part::Header,
        Some("Content-Type: multipart/mixed; boundary=b\r\n\r\n"),
    ),
    (
        &[1],
        Part::Mime,
        Some("Content-Type: message/rfc822\r\n\r\n"),
    ),
    (
        &[1],
        Part::Whole,
        Some("Subject:\r\n =?UTF-8?B?w6k=?=\r\n\r\nt"),
    ),
    (
        &[1],
        Part::Header,
        Some("Subject:\r\n =?UTF-8?B?w6k=?=\r\n\r\n"),
    ),
    (&[1], Part::Text, Some("t")),
    (
        &[1, 1],
        Part::Mime,
        Some("Subject:\r\n =?UTF-8?B?w6k=?=\r\n\r\n"),
    ),
    (&[1, 1], Part::Whole, Some("t")),
    (&[1, 1], Part::Header, None),
    (&[1, 2], Part::Whole, None),
    (&[2], Part::Whole, None),
];

const KEPT_SHUT: [Section; 3] = [
    (&[1], Part::Whole, Some("Subject: é\r\n\r\nt")),
    (&[1], Part::Header, None),
    (&[2], Part::Whole, None),
];

const DELIMITED: [Section; 4] = [
    (
        &[1],
        Part::Mime,
        Some("Downgraded---b:\r\n =?UTF-8?B?w6k=?=\r\n\r\n"),
    ),
    (&[1], Part::Whole, Some("t")),
    (&[1], Part::Header, None),
    (&[2], Part::Whole, None),
];

const TYPED: [Section; 5] = [
    (&[], Part::Text, Some("--b\r\n\r\nt\r\n--b--\r\n")),
    (&[1], Part::Whole, Some("--b\r\n\r\nt\r\n--b--\r\n")),
    (&[1], Part::Header, None),
    (&[1, 1], Part::Whole, Some("--b\r\n\r\nt\r\n--b--\r\n")),
    (&[2], Part::Whole, None),
];

const SERVED: [Section; 7] = [
    (&[], Part::Whole, Some(MENU_MADE)),
    (
        &[1],
        Part::Mime,
        Some("Content-Type: text/plain; charset=utf-8\r\nContent-Transfer-Encoding: 8bit\r\n\r\n"),
    ),
    (&[1], Part::Whole, Some("Grüße")),
    (
        &[2],
        Part::Mime,
        Some(
            "Content-Type:\r\n application/pdf;\r\n name*=UTF-8''Men%C3%BC.pdf\r\nContent-Disposition:\r\n attachment;\r\n filename*=UTF-8''Men%C3%BC.pdf\r\nContent-Transfer-Encoding: base64\r\n\r\n",
        ),
    ),
    (&[2], Part::Whole, Some("JVBERg==")),
    (&[2], Part::Header, None),
    (&[3], Part::Whole, None),
];

const GIVEN: [(&str, &[Given]); 5] = [
    (
        "an opened global message is named anew",
        &[Given(GLOBAL, GLOBAL_MADE, [107, 123, 2], &OPENED)],
    ),
    (
        "a shut global message is kept",
        &[Given(SHUT, SHUT, [142, 142, 0], &KEPT_SHUT)],
    ),
    (
        "a made field is no delimiter",
        &[Given(
            "Content-Type: multipart/mixed; boundary=\"b:\"\r\n\r\n--b:\r\n--b: é\r\n\r\nt\r\n--b:--\r\n",
            "Content-Type: multipart/mixed; boundary=\"b:\"\r\n\r\n--b:\r\nDowngraded---b:\r\n =?UTF-8?B?w6k=?=\r\n\r\nt\r\n--b:--\r\n",
            [76, 103, 1],
            &DELIMITED,
        )],
    ),
    (
        "a made type opens nothing",
        &[Given(
            "Content-Type: é\r\nContent-Type: multipart/mixed; boundary=b\r\n\r\n--b\r\n\r\nt\r\n--b--\r\n",
            "Content-Type:\r\n =?UTF-8?B?w6k=?=\r\nContent-Type: multipart/mixed; boundary=b\r\n\r\n--b\r\n\r\nt\r\n--b--\r\n",
            [80, 96, 1],
            &TYPED,
        )],
    ),
    (
        "each block is served",
        &[Given(MENU, MENU_MADE, [481, 551, 4], &SERVED)],
    ),
];

#[test]
fn surrogates_and_their_sections_are_given(rt: HostRuntime) -> Result<(), Fail> {
    all_hold(rt.alloc(), &GIVEN)
}

// Reads what is shown in pieces of seven octets, until a piece is empty.
fn read_all(alloc: Global, shown: &Shown, msg: &[u8]) -> Result<Octets, Memory>
    requires { IsShownOf msg.now shown.now }
{
    let mut read = Octets::new(alloc);
    for _ in 0..100 {
        let mut piece = [0; 7];
        let count = shown.read_at(msg, read.len(), &mut piece);
        read.push_slice(&piece[..count])?;
    }
    Ok(read)
}

// Whether what is shown is read in pieces up to its end, and no piece puts more than there is.
fn is_read_in_pieces(
    alloc: Global,
    shown: &Shown,
    msg: &[u8],
    wanted: &[u8],
) -> Result<bool, Memory>
    requires { IsShownOf msg.now shown.now }
{
    let size = wanted.len();
    let read = read_all(alloc, shown, msg)?;
    let mut buffer = [9; 3];
    let last = shown.read_at(msg, size.saturating_sub(2), &mut buffer);
    let at_end = shown.read_at(msg, size, &mut buffer);
    let past_end = shown.read_at(msg, size.saturating_add(1), &mut buffer);
    Ok(
        shown.size(msg) == size
            && read.as_slice() == wanted
            && [last, at_end, past_end] == [2, 0, 0]
            && buffer == [13, 10, 9],
    )
}

// Whether it is, and its second part stands in it.
fn is_shown(alloc: Global, shown: &Shown, msg: &[u8], wanted: &[u8]) -> bool
    requires { IsShownOf msg.now shown.now }
{
    stands_at(wanted, shown.section(&[2], Part::Whole), Some("JVBERg=="))
        && is_read_in_pieces(alloc, shown, msg, wanted) == Ok(true)
}

// Whether the surrogate of a message is shown so.
fn is_made(alloc: Global, msg: &[u8], made: &[u8]) -> bool {
    match rope_of(alloc, msg) {
        Some(rope) => is_shown(alloc, &Shown::Rope(rope), msg, made),
        None => false,
    }
}

// Whether a message is shown as it is.
fn is_kept(alloc: Global, msg: &[u8]) -> bool {
    match read_tree(alloc, msg) {
        Ok(tree) => is_shown(alloc, &Shown::Whole(tree), msg, msg),
        Err(_) => false,
    }
}

#[test]
fn what_is_shown_is_read_in_pieces(rt: HostRuntime) {
    let msg = MENU.as_bytes();
    assert!(rt; is_made(rt.alloc(), msg, MENU_MADE.as_bytes()) && is_kept(rt.alloc(), msg));
}

// Whether so many octets from each place on are those of the surrogate.
fn reads_alike(rope: &Rope, msg: &[u8], made: &[u8], len: usize) -> bool
    requires { IsRopeOf msg.now rope.now }
{
    for offset in 0..560 {
        let rest = made.get(offset..).unwrap_or(&[]);
        let mut buffer = [9; 600];
        let wanted = len.min(600);
        let count = rope.read_at(msg, offset, &mut buffer[..wanted]);
        if count != wanted.min(rest.len()) || !rest.starts_with(&buffer[..count]) {
            return false;
        }
    }
    true
}

// Whether each of these lengths is.
fn each_reads_alike(alloc: Global, msg: &str, made: &str, lens: &[usize]) -> bool {
    let Some(rope) = rope_of(alloc, msg.as_bytes()) else {
        return false;
    };
    for len in lens {
        if !reads_alike(&rope, msg.as_bytes(), made.as_bytes(), *len) {
            return false;
        }
    }
    true
}

const LENS: [usize; 10] = [0, 1, 2, 7, 33, 90, 180, 400, 551, 600];

#[test]
fn each_place_is_read(rt: HostRuntime) {
    assert!(rt; each_reads_alike(rt.alloc(), MENU, MENU_MADE, &LENS));
    for len in 0..125 {
        assert!(rt; each_reads_alike(rt.alloc(), GLOBAL, GLOBAL_MADE, &[len]));
    }
}

// Whether the runs of a rope have these lengths, one after another, and are the surrogate.
fn has_runs(rope: &Rope, msg: &[u8], made: &[u8], lens: &[usize]) -> bool
    requires { IsRopeOf msg.now rope.now }
{
    let mut rest = made;
    let mut at = 0;
    for len in lens {
        let run = rope.run_at(msg, at);
        let Some(following) = rest.strip_prefix(run) else {
            return false;
        };
        if run.len() != *len {
            return false;
        }
        rest = following;
        at += run.len();
    }
    rest.is_empty() && rope.run_at(msg, at).is_empty()
}

// Whether what stands together from each place on is some of the surrogate.
fn runs_alike(shown: &Shown, msg: &[u8], made: &[u8]) -> bool
    requires { IsShownOf msg.now shown.now }
{
    for offset in 0..560 {
        let rest = made.get(offset..).unwrap_or(&[]);
        let run = shown.run_at(msg, offset);
        if run.is_empty() != rest.is_empty() || !rest.starts_with(run) {
            return false;
        }
    }
    true
}

const MENU_LENS: [usize; 7] = [50, 27, 51, 235, 63, 69, 56];

// Whether a surrogate has runs of these lengths.
fn is_made_in_runs(alloc: Global, msg: &[u8], made: &[u8], lens: &[usize]) -> bool {
    match rope_of(alloc, msg) {
        Some(rope) => {
            has_runs(&rope, msg, made, lens) && runs_alike(&Shown::Rope(rope), msg, made)
        }
        None => false,
    }
}

// Whether a message is one run.
fn is_one_run(alloc: Global, msg: &[u8]) -> bool {
    match read_tree(alloc, msg) {
        Ok(tree) => {
            let shown = Shown::Whole(tree);
            runs_alike(&shown, msg, msg) && shown.run_at(msg, 0).len() == msg.len()
        }
        Err(_) => false,
    }
}

#[test]
fn a_surrogate_is_read_in_runs(rt: HostRuntime) {
    let msg = MENU.as_bytes();
    assert!(rt;
        is_made_in_runs(rt.alloc(), msg, MENU_MADE.as_bytes(), &MENU_LENS)
            && is_one_run(rt.alloc(), msg)
    );
}

// The rope that is loaded from the stored form of this one, and how many octets that form has.
fn again(alloc: Global, rope: &Rope) -> Result<(Rope, usize), Memory>
    ensures { IfOk result (λ made. made.0 ≡ rope.now) }
{
    let stored = rope.store(alloc)?;
    let loaded = Rope::load(alloc, stored.as_slice())?;
    Ok((loaded, stored.len()))
}

// Whether the rope of a message with four fields made anew is stored in so many octets, and loaded.
fn is_loaded(alloc: Global, msg: &[u8], made: &[u8], stored: usize) -> bool {
    let Some(rope) = rope_of(alloc, msg) else {
        return false;
    };
    let Ok((loaded, size)) = again(alloc, &rope) else {
        return false;
    };
    size == stored
        && loaded.size() == made.len()
        && loaded.rewritten() == 4
        && reads_alike(&loaded, msg, made, 600)
        && stands_at(made, loaded.section(&[2], Part::Whole), Some("JVBERg=="))
}

// How many octets the stored rope of a message has.
fn stored_size(alloc: Global, msg: &[u8]) -> Option<usize> {
    let rope = rope_of(alloc, msg)?;
    match again(alloc, &rope) {
        Ok((_loaded, size)) => Some(size),
        Err(_) => None,
    }
}

// How many octets the stored rope of the message with two parts has.
const MENU_STORED: usize = 24 + 3 * 17 + 4 * 9 + 233 + 3 * 41;

#[test]
fn a_stored_rope_is_small_and_loaded(rt: HostRuntime) {
    let msg = MENU.as_bytes();
    assert!(rt;
        is_loaded(rt.alloc(), msg, MENU_MADE.as_bytes(), MENU_STORED) && MENU_STORED <= 617
    );
    assert!(rt; stored_size(rt.alloc(), SHUT.as_bytes()) == Some(24 + 17 + 2 * 41));
}
