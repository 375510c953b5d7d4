//! How much of a message TOP shows (RFC 1939, 7).
ghost use Rattle.std.specs.Prelude.{◌≡◌, ◌≤◌, length};
ghost use Rattle.surrogate_rope.specs.Served.{IsShownOf, shown_octets};
ghost use Rattle.pop_session.specs.Machine.{top_length as top_length_of};
ghost use Rattle.pop_session.specs.private.Top.{begin, is_ended, following_octet, all_after, count_from};

use crate::stuffing::{Place, next_place};
use mail_wire::PIECE;
use surrogate_rope::Shown;

/// What is known of a message after the octets that were read.
#[derive(Clone, Copy, Debug)]
pub struct Scan {
    /// Where in its line the next octet stands.
    pub place: Place,
    /// Whether the next octet is the second one of its line.
    pub is_second: bool,
    /// Whether no empty line has ended yet.
    pub in_header: bool,
    /// How many lines after the header are left.
    pub lines: u64,
}

impl Scan {
    // Before the first octet.
    fn new(lines: u64) -> Self
        ensures { result ≡ begin lines }
    {
        Scan {
            place: Place::LineStart,
            is_second: false,
            in_header: true,
            lines,
        }
    }

    // Whether nothing more is shown.
    fn is_ended(&self) -> bool
        ensures { result ≡ is_ended self.now }
    {
        !self.in_header && self.lines == 0
    }

    // Goes on by an octet.
    fn read_octet(&mut self, octet: u8)
        ensures { self.new ≡ following_octet self.old octet }
    {
        let place = next_place(self.place, octet);
        if matches!(place, Place::LineStart) {
            if self.in_header {
                self.in_header = !self.is_second;
            } else {
                self.lines = self.lines.saturating_sub(1);
            }
        }
        self.is_second = matches!(self.place, Place::LineStart);
        self.place = place;
    }

    // Goes on over a piece, but not past the end, and answers how many octets of it are shown.
    fn read_piece(&mut self, piece: &[u8]) -> usize
        ensures scan { self.new ≡ all_after self.old piece.now }
        ensures count { result ≡ count_from self.old piece.now }
    {
        let mut count = 0;
        for octet in piece {
            if self.is_ended() {
                return count;
            }
            self.read_octet(*octet);
            count += 1;
        }
        count
    }
}

/// How many octets the header, its empty line and so many lines after it have, of what is shown of a message.
pub fn top_length(shown: &Shown, msg: &[u8], lines: u64) -> usize
    requires { IsShownOf msg.now shown.now }
    ensures length { result ≡ top_length_of lines (shown_octets msg.now shown.now) }
    ensures bound { result ≤ length (shown_octets msg.now shown.now) }
{
    let mut scan = Scan::new(lines);
    let mut at = 0;
    let mut piece = [0; PIECE];
    let size = shown.size(msg);
    while at < size && !scan.is_ended() {
        let count = shown.read_at(msg, at, &mut piece);
        at += scan.read_piece(&piece[..count]);
    }
    at
}
