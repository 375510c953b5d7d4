//! Where a line ends in a stream that comes in pieces.
ghost use Rattle.std.specs.Prelude.{◌≡◌, ◌<◌, ◌≤◌, ◌++◌, length, take, drop, Some, None, MatchOption, IfSome, IsTrue, ◌↔◌, ◌-◌, slice_get};
ghost use Rattle.mail_wire.specs.Lines.{first_line};
ghost use Rattle.mail_wire.specs.Framing.{next_line, waiting, framed_as, ends_in};

use crate::text::find_crlf;

/// The most octets of a line, its CRLF counted.
pub const LINE_MAX: usize = 65_536;

// Whether a CRLF stands across the two parts.
fn joins(kept: &[u8], piece: &[u8]) -> bool
    ensures { IsTrue result ↔ ((slice_get kept.now (length kept.now - 1) ≡ Some 13) × (slice_get piece.now 0 ≡ Some 10)) }
{
    kept.last().copied() == Some(b'\r') && piece.first().copied() == Some(b'\n')
}

/// How many octets of the piece the first line has, where the octets that were kept have no whole line. Only the
/// piece is looked at, and the last octet that was kept.
pub fn line_end(kept: &[u8], piece: &[u8]) -> Option<usize>
    ensures bound { IfSome result (λ n. (0 < n) × (n ≤ length piece.now)) }
    ensures line { first_line kept.now ≡ None → MatchOption result (first_line (kept.now ++ piece.now) ≡ None)
        (λ n. first_line (kept.now ++ piece.now) ≡ Some (record { line = kept.now ++ take n piece.now; rest = drop n piece.now })) }
{
    if joins(kept, piece) {
        return Some(1);
    }
    // a search is dear for a single octet, which has no CRLF
    if piece.len() < 2 {
        return None;
    }
    match find_crlf(piece) {
        Some(at) => Some(at + 2),
        None => None,
    }
}

/// What the octets of a stream begin with, as far as they are there.
#[derive(Clone, Copy, Debug, PartialEq, Eq)]
pub enum FoundLine {
    /// No whole line.
    Waiting,
    /// A line, which has so many octets of the piece.
    Whole(usize),
    /// More octets than a line may have.
    TooLong,
}

/// What the octets that were kept, which have no whole line, and a piece begin with.
pub fn find_line(kept: &[u8], piece: &[u8]) -> FoundLine
    requires { next_line kept.now ≡ waiting }
    ensures line { next_line (kept.now ++ piece.now) ≡ framed_as result kept.now piece.now }
    ensures bound { ends_in result piece.now }
{
    let room = LINE_MAX - kept.len();
    match line_end(kept, piece) {
        Some(end) if end <= room => FoundLine::Whole(end),
        None if piece.len() <= room => FoundLine::Waiting,
        _ => FoundLine::TooLong,
    }
}
