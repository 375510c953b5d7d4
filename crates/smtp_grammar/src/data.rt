//! The data of a message (RFC 5321, 4.1.1.4 and 4.5.2).
ghost use Rattle.std.specs.Prelude.{◌≡◌, ◌↔◌, ℕ, List, [], ◌++◌, None, IfOk, IsTrue, OnOk, codes, length};
ghost use Rattle.mail_wire.specs.Dots.{unstuffed_line};
ghost use Rattle.mail_wire.specs.Lines.{first_line};
ghost use Rattle.smtp_grammar.specs.Reading.{DataHaveEnded, HasRead, IsBounded, DataSay, TakesOfPiece, last_four};
ghost use Rattle.smtp_grammar.specs.private.LinesRead.{EndsLine, DataHaveRoom, TakesLine};

use mail_wire::{Memory, Octets, line_end};
use std::alloc::Global;

// A line without the dot that it begins with, where it does.
fn without_dot(line: &[u8]) -> &[u8]
    ensures { result.now ≡ unstuffed_line line.now }
{
    match line {
        [b'.', rest @ ..] => rest,
        _ => line,
    }
}

// Whether two parts are the line that ends the data.
fn are_last(line: &[u8], part: &[u8]) -> bool
    ensures { IsTrue result ↔ (line.now ++ part.now ≡ codes ".\r\n") }
{
    match b".\r\n".strip_prefix(line) {
        Some(rest) => rest == part,
        None => false,
    }
}

// Whether a line that comes in two parts is the one that ends the data.
fn is_last(line: &[u8], part: &[u8]) -> bool
    ensures { IsTrue result ↔ (line.now ++ part.now ≡ codes ".\r\n") }
{
    // Most lines have more.
    if part.len() > 3 {
        return false;
    }
    are_last(line, part)
}

// Puts a line that comes in two parts last, without the dot that it begins with, where it does.
fn put_line(content: &mut Octets, line: &[u8], part: &[u8]) -> Result<(), Memory>
    ensures { OnOk result (content.new ≡ content.old ++ unstuffed_line (line.now ++ part.now)) }
{
    if line.is_empty() {
        return content.push_slice(without_dot(part));
    }
    content.push_slice(without_dot(line))?;
    content.push_slice(part)
}

// The last four octets, or all of fewer.
fn last_four(octets: &[u8]) -> &[u8]
    ensures { result.now ≡ last_four octets.now }
{
    &octets[octets.len().saturating_sub(4)..]
}

// The last four octets of a line's front, which comes in two parts.
fn tail_of(alloc: Global, line: &[u8], more: &[u8]) -> Result<Octets, Memory>
    ensures { IfOk result (λ tail. tail ≡ last_four (line.now ++ more.now)) }
{
    let mut tail = Octets::from_slice(alloc, last_four(line))?;
    tail.push_slice(last_four(more))?;
    Octets::from_slice(alloc, last_four(tail.as_slice()))
}

// A shorter piece brings too little to make room for it.
const WORTH_ROOM: usize = 64;

/// What was read of data: what their whole lines say, and the front of the next line. Data that say more than the limit are dropped
/// as they come, and then the last octets of that front are kept alone.
#[derive(Debug, Drop)]
pub struct DataReader {
    alloc: Global,
    content: Octets,
    line: Octets,
    limit: u32,
    dropped: bool,
}

impl DataReader {
    /// Data of which nothing came yet, and which may say so many octets.
    pub fn new(alloc: Global, limit: u32) -> Self
        ensures read { HasRead result [] }
        ensures limit { result.limit ≡ limit }
    {
        DataReader {
            alloc,
            content: Octets::new(alloc),
            line: Octets::new(alloc),
            limit,
            dropped: false,
        }
    }

    // Whether more of the front of a line is kept: the data may still say no more than the limit. The line may lose a dot, and one of
    // a dot and CR may be the last.
    fn has_room(&self, more: &[u8]) -> bool
        ensures { IsTrue result ↔ DataHaveRoom self.now more.now }
    {
        let front = self.line.len().saturating_add(more.len());
        !self.dropped && self.content.len().saturating_add(front) <= self.limit as usize + 2
    }

    // Takes more of the front of a line.
    fn take_front(&mut self, more: &[u8]) -> Result<(), Memory>
        ensures takes { OnOk result ((octets : List ℕ) → HasRead self.old octets → first_line (self.old.line ++ more.now) ≡ None → HasRead self.new (octets ++ more.now)) }
        ensures limit { self.new.limit ≡ self.old.limit }
        ensures bounded { OnOk result (IsBounded self.new) }
    {
        if self.has_room(more) {
            return self.line.push_slice(more);
        }
        let tail = tail_of(self.alloc, self.line.as_slice(), more)?;
        self.line = tail;
        self.content = Octets::new(self.alloc);
        self.dropped = true;
        Ok(())
    }

    // Takes the last part of a line that doesn't end the data.
    fn take_part(&mut self, part: &[u8]) -> Result<(), Memory>
        ensures takes { OnOk result ((octets : List ℕ) → HasRead self.old octets → EndsLine self.old part.now → ¬ (self.old.line ++ part.now ≡ codes ".\r\n")
            → HasRead self.new (octets ++ part.now)) }
        ensures limit { self.new.limit ≡ self.old.limit }
        ensures bounded { OnOk result (IsBounded self.old → IsBounded self.new) }
    {
        if self.dropped {
            self.line.clear();
            return Ok(());
        }
        put_line(&mut self.content, self.line.as_slice(), part)?;
        self.line = Octets::new(self.alloc);
        if self.content.len() > self.limit as usize {
            self.content = Octets::new(self.alloc);
            self.dropped = true;
        }
        Ok(())
    }

    // Takes the last part of a line: whether that line ends the data.
    fn take_line(&mut self, part: &[u8]) -> Result<bool, Memory>
        ensures takes { IfOk result (λ last. (octets : List ℕ) → HasRead self.old octets → EndsLine self.old part.now → TakesLine self.new (octets ++ part.now) last) }
        ensures limit { self.new.limit ≡ self.old.limit }
        ensures bounded { IfOk result (λ _. IsBounded self.old → IsBounded self.new) }
    {
        if is_last(self.line.as_slice(), part) {
            return Ok(true);
        }
        self.take_part(part)?;
        Ok(false)
    }

    // Makes room at once for what a piece brings, where nothing is kept yet.
    fn make_room(&mut self, piece: &[u8]) -> Result<(), Memory>
        ensures same { OnOk result (self.new ≡ self.old) }
        ensures limit { self.new.limit ≡ self.old.limit }
    {
        if !self.dropped && self.content.is_empty() && piece.len() >= WORTH_ROOM {
            let count = piece.len().min(self.limit as usize);
            self.content = Octets::from_vec(Vec::with_capacity(self.alloc, count)?);
        }
        Ok(())
    }

    // Takes the lines that are whole in the piece, and the front of a next one.
    fn take_lines(&mut self, piece: &[u8]) -> Result<Option<usize>, Memory>
        ensures takes { IfOk result (λ found. (octets : List ℕ) → HasRead self.old octets → TakesOfPiece self.new octets piece.now found) }
        ensures limit { self.new.limit ≡ self.old.limit }
        ensures bounded { IfOk result (λ _. IsBounded self.old → IsBounded self.new) }
    {
        let mut used = 0;
        while used < piece.len() {
            let rest = &piece[used..];
            let Some(end) = line_end(self.line.as_slice(), rest) else {
                self.take_front(rest)?;
                return Ok(None);
            };
            used += end;
            if self.take_line(&rest[..end])? {
                return Ok(Some(used));
            }
        }
        Ok(None)
    }

    /// Takes data as far as they are in the piece: how many of its octets are theirs, with the line that ends them; none where they
    /// go on.
    pub fn take(&mut self, piece: &[u8]) -> Result<Option<usize>, Memory>
        ensures takes { IfOk result (λ found. (octets : List ℕ) → HasRead self.old octets → TakesOfPiece self.new octets piece.now found) }
        ensures limit { self.new.limit ≡ self.old.limit }
        ensures bounded { IfOk result (λ _. IsBounded self.old → IsBounded self.new) }
    {
        self.make_room(piece)?;
        self.take_lines(piece)
    }

    /// What the data say; none where that is more than the limit.
    pub fn into_content(self) -> Option<Octets>
        ensures { (line : List ℕ) → DataHaveEnded self line → DataSay self.limit line result }
    {
        if self.dropped {
            None
        } else {
            Some(self.content)
        }
    }
}
