//! A reply octet by octet.
ghost use Rattle.std.specs.Prelude.{◌≡◌, ◌↔◌, ◌≤◌, ◌<◌, ◌-◌, ◌==◌, [], IsTrue, length, drop, slice_index, if◌then◌else◌};
ghost use Rattle.relay_choice.specs.declared.steps.Step.TheVariants as advance;
ghost use Rattle.relay_choice.specs.private.Places.{IsPlaceIn, IsStepIn, IsReplyFront, StepsTo, code_fits, sign_fits, text_fits, EndsReplyLine};

use crate::replies::{REPLY_LINE_MAX, REPLY_LINES};

/// Where the line begins that a reply has come to, and how many lines stand before it.
#[derive(Clone, Copy, Debug, PartialEq, Eq)]
pub struct Place {
    pub start: usize,
    pub lines: usize,
}

/// That of a reply of which nothing came yet.
pub const BEGINNING: Place = Place { start: 0, lines: 0 };

/// What one more octet makes of the front of a reply.
#[derive(Clone, Copy)]
pub enum Step {
    /// A longer front.
    Within(Place),
    /// The whole reply.
    Whole,
    /// Octets that begin no reply.
    NotReply,
}

// Whether an octet may stand at this place of a code. All lines have the code of the first one.
fn code_fits(before: &[u8], place: Place, octet: u8) -> bool
    requires within { IsPlaceIn before.now place }
    requires short { length before.now - place.start < 3 }
    ensures { result ≡ code_fits before.now place octet }
{
    let at = before.len() - place.start;
    if place.lines > 0 {
        before[at] == octet
    } else if at == 0 {
        b'2' <= octet && octet <= b'5'
    } else {
        b'0' <= octet && octet <= b'9'
    }
}

// Whether an octet may stand after the code. Another line may follow, unless this is the last that a reply may have.
fn sign_fits(place: Place, octet: u8) -> bool
    ensures { result ≡ sign_fits place.lines octet }
{
    octet == b' ' || octet == b'\r' || (octet == b'-' && place.lines < REPLY_LINES - 1)
}

// Whether an octet may stand after these octets of a line, which has to end by CRLF. A CR after the code ends it.
fn text_fits(line: &[u8], octet: u8) -> bool
    requires { 4 ≤ length line.now }
    ensures { result ≡ text_fits line.now octet }
{
    line[3] != b'\r'
        && (line.len() < REPLY_LINE_MAX - 2 || (line.len() == REPLY_LINE_MAX - 2 && octet == b'\r'))
}

// Whether an octet ends the line.
fn ends_line(line: &[u8], octet: u8) -> bool
    ensures { IsTrue result ↔ EndsReplyLine line.now octet }
{
    octet == b'\n' && matches!(line, [_, _, _, .., b'\r'])
}

fn within_if(fits: bool, place: Place) -> Step
    ensures { result ≡ (if fits then advance.Within place else advance.NotReply) }
{
    if fits {
        Step::Within(place)
    } else {
        Step::NotReply
    }
}

/// What an octet makes of these, which are the front of a reply.
pub fn step_by(before: &[u8], place: Place, octet: u8) -> Step
    requires { IsPlaceIn before.now place }
    ensures step { IsReplyFront before.now place → StepsTo before.now octet result }
    ensures place { IsStepIn before.now octet result }
{
    let line = &before[place.start..];
    if line.len() < 3 {
        return within_if(code_fits(before, place, octet), place);
    }
    if line.len() == 3 {
        return within_if(sign_fits(place, octet), place);
    }
    if !ends_line(line, octet) {
        return within_if(text_fits(line, octet), place);
    }
    if line[3] != b'-' {
        return Step::Whole;
    }
    Step::Within(Place {
        start: before.len() + 1,
        lines: place.lines + 1,
    })
}
