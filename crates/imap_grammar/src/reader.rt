//! The reader of commands. It parses a line at a time, keeps what was read where a literal is awaited, and looks at no octet again.
ghost use Rattle.std.specs.Prelude.{◌≡◌, ◌+◌, ◌-◌, ◌<◌, ◌≤◌, nat_lt, ℕ, Bool, true, List, [], ◌++◌, length, take, None, Err, not, position, if◌then◌else◌, IfOk, IfSome, OnOk, MatchResult, MatchOption};
ghost use Rattle.mail_wire.specs.Lines.{first_line};
ghost use Rattle.imap_words.specs.declared.stop.Stop.TheVariants.{More};
ghost use Rattle.std.specs.List.{list_all};
ghost use Rattle.imap_words.specs.Reading.{StopsReading, never};
ghost use Rattle.imap_words.specs.Going.{Leaves};
ghost use Rattle.imap_words.specs.Tokens.{is_name_char};
ghost use Rattle.imap_grammar.specs.Commands.{IsCommand};
ghost use Rattle.imap_grammar.specs.Awaiting.{Comes, IsLiteralBody, IsAfterLiteral, IsRestAtLiteral, IsSized};
ghost use Rattle.imap_grammar.specs.Events.{Tells, HasTag, IsDue, IsWholeLine, seen_after};
ghost use Rattle.imap_grammar.specs.Standing.{HasSeen, Reached, HasNoDataBefore, left_of, LineComes, TurnTells, HasBadName, line_with, HasLineEnd, EndsThere, went_on, Stopped, size_of, is_data, too_large, IsFoundWithin, Finds, HasPut, IsAtLine, left_after};

use crate::append::{after_append_name, after_data};
use crate::awaited::{Awaited, Next};
use crate::command::Command;
use crate::commands::{
    after_mailbox, after_name, after_reference, after_status_name, after_user, bare,
};
use crate::event::{APPEND_MAX, Event};
use crate::fetch::after_field_name;
use crate::tables::command_name;
use imap_words::{Kind, Stop, octet, passes, run};
use mail_wire::{LINE_MAX, Memory, Octets, line_end};
use std::alloc::Global;

/// Where a reader stands: at the beginning of a command, or after the header of a literal.
#[derive(Drop)]
pub enum Stage {
    Begin,
    AfterLiteral {
        tag: Octets,
        size: usize,
        awaited: Awaited,
    },
}

// What a piece has of the line that is awaited: all is used up, it ends after so many octets, or so many are more than a
// command may have.
#[derive(Clone, Copy)]
enum Found {
    Waiting,
    Whole(usize),
    TooLong(usize),
}

/// A reader of commands from octets in pieces.
#[derive(Drop)]
pub struct Reader {
    alloc: Global,
    stage: Stage,
    // the literal's octets so far, and those of the line after it
    literal: Octets,
    line: Octets,
    // how many octets of the command came before these
    seen: usize,
    // how many of all that came count to the limit
    counted: usize,
}

impl Reader {
    /// A reader that has seen nothing.
    pub fn open(alloc: Global) -> Reader
        ensures { (utf8 : Bool) → HasSeen utf8 result [] }
    {
        Reader {
            alloc,
            stage: Stage::Begin,
            literal: Octets::new(alloc),
            line: Octets::new(alloc),
            seen: 0,
            counted: 0,
        }
    }

    /// Uses octets up to the next event, and says how many. `utf8` says whether the session has enabled UTF-8; it stays the same
    /// within a command.
    pub fn feed(&mut self, piece: &[u8], utf8: bool) -> Result<(usize, Event), Memory>
        ensures observed { (seen : List ℕ) → HasSeen utf8 self.old seen → IfOk result (λ r. Tells utf8 seen piece.now r.0 r.1) }
        ensures stands { (seen : List ℕ) → HasSeen utf8 self.old seen → IfOk result (λ r. HasSeen utf8 self.new (seen_after seen piece.now r.0 r.1)) }
    {
        match self.find(piece) {
            Found::TooLong(used) => {
                self.begin();
                Ok((used, Event::TooLong))
            }
            Found::Waiting => {
                self.put(piece)?;
                Ok((piece.len(), Event::More))
            }
            Found::Whole(used) => {
                let (front, _) = piece.split_at(used);
                self.put(front)?;
                let event = self.whole_line(utf8)?;
                Ok((used, event))
            }
        }
    }

    // How many octets of a literal are awaited.
    fn wanted(&self) -> usize
        ensures { result ≡ size_of self.now.stage - length self.now.literal }
    {
        match &self.stage {
            Stage::Begin => 0,
            Stage::AfterLiteral { size, .. } => (*size).saturating_sub(self.literal.len()),
        }
    }

    // Whether the data of APPEND are awaited.
    fn awaits_data(&self) -> bool
        ensures { result ≡ is_data self.now.stage }
    {
        matches!(
            &self.stage,
            Stage::AfterLiteral {
                awaited: Awaited::AppendData { .. },
                ..
            }
        )
    }

    // Begins with a new command.
    fn begin(&mut self)
        ensures { (utf8 : Bool) → HasSeen utf8 self.new [] }
    {
        self.stage = Stage::Begin;
        self.literal.clear();
        self.line.clear();
        self.seen = 0;
        self.counted = 0;
    }

    // How many octets of the piece there are up to the end of the line that is awaited.
    fn line_len(&self, piece: &[u8]) -> Option<usize>
        ensures bound { IfSome result (λ n. (0 < n) × (n ≤ length piece.now)) }
        ensures ends { IfSome result (λ n. HasLineEnd (line_with self.now (take n piece.now))) }
        ensures line { first_line self.now.line ≡ None → MatchOption result (first_line (line_with self.now piece.now) ≡ None)
            (λ n. IsWholeLine (line_with self.now (take n piece.now)) × (size_of self.now.stage ≤ length self.now.literal + n)) }
    {
        let wanted = self.wanted();
        if piece.len() < wanted {
            return None;
        }
        let (_, following) = piece.split_at(wanted);
        let end = line_end(self.line.as_slice(), following)?;
        Some(wanted + end)
    }

    // How many of so many octets of a piece don't count to the limit: those of the data of APPEND.
    fn free(&self, used: usize) -> usize
        ensures { result ≡ (if is_data self.now.stage then (if nat_lt (size_of self.now.stage - length self.now.literal) used then size_of self.now.stage - length self.now.literal else used) else 0) }
    {
        let wanted = self.wanted();
        if !self.awaits_data() {
            return 0;
        }
        if wanted < used { wanted } else { used }
    }

    // Where in the piece the line ends that is awaited, or the first octet stands that is one too many.
    fn find(&self, piece: &[u8]) -> Found
        ensures bound { IsFoundWithin result piece.now }
        ensures ends { EndsThere self.now piece.now result }
        ensures finds { (utf8 : Bool) (seen : List ℕ) → HasSeen utf8 self.now seen → Finds utf8 self.now seen piece.now result }
    {
        let room = LINE_MAX.saturating_sub(self.counted);
        match self.line_len(piece) {
            Some(end) => {
                let free = self.free(end);
                if end - free > room {
                    return Found::TooLong(free + room + 1);
                }
                Found::Whole(end)
            }
            None => {
                let free = self.free(piece.len());
                if piece.len() - free > room {
                    return Found::TooLong(free + room + 1);
                }
                Found::Waiting
            }
        }
    }

    // Puts octets last, in the literal and then in the line.
    fn put(&mut self, octets: &[u8]) -> Result<(), Memory>
        ensures { OnOk result (HasPut self.old octets.now self.new) }
    {
        let wanted = self.wanted();
        let taken = if wanted < octets.len() {
            wanted
        } else {
            octets.len()
        };
        let counting = if self.awaits_data() {
            octets.len() - taken
        } else {
            octets.len()
        };
        let (front, following) = octets.split_at(taken);
        self.literal.push_slice(front)?;
        self.line.push_slice(following)?;
        self.counted = self.counted.saturating_add(counting);
        Ok(())
    }

    // What is due at the end of the line.
    fn whole_line(&mut self, utf8: bool) -> Result<Event, Memory>
        requires { HasLineEnd self.old.line }
        ensures { (seen : List ℕ) → IsAtLine utf8 self.old seen → IfOk result (λ event. IsDue utf8 seen event × HasSeen utf8 self.new (left_after seen event)) }
    {
        let begun = Reader::open(self.alloc);
        let reader = std::mem::replace(self, begun);
        let (event, next) = reader.following_line(utf8)?;
        *self = next;
        Ok(event)
    }

    // What is due at the end of the line, and the reader that goes on.
    fn following_line(self, utf8: bool) -> Result<(Event, Reader), Memory>
        requires { HasLineEnd self.line }
        ensures { (seen : List ℕ) → IsAtLine utf8 self seen → IfOk result (λ r. IsDue utf8 seen r.0 × HasSeen utf8 r.1 (left_after seen r.0)) }
    {
        let Reader {
            alloc,
            stage,
            literal,
            line,
            seen,
            counted,
        } = self;
        let seen = seen
            .saturating_add(literal.len())
            .saturating_add(line.len());
        let turn = line_turn(alloc, utf8, stage, literal, line.as_slice());
        drop(line);
        match turn? {
            Turn::Whole(tag, command) => {
                Ok((Event::Command { tag, command }, Reader::open(alloc)))
            }
            Turn::Awaits(tag, size, awaited) => {
                if is_too_large(size, &awaited) {
                    return Ok((Event::TooLarge { tag }, Reader::open(alloc)));
                }
                let size = size as usize;
                let next = Reader {
                    alloc,
                    stage: Stage::AfterLiteral { tag, size, awaited },
                    literal: Octets::new(alloc),
                    line: Octets::new(alloc),
                    seen,
                    counted,
                };
                Ok((Event::Go, next))
            }
            Turn::Bad(tag, left) => {
                let at = seen.saturating_sub(left);
                Ok((Event::Bad { tag, at }, Reader::open(alloc)))
            }
        }
    }
}

/// What comes of a whole line. A place counts how many octets of the literal and the line are left.
#[derive(Drop)]
enum Turn {
    Whole(Octets, Command),
    Awaits(Octets, u32, Awaited),
    Bad(Option<Octets>, usize),
}

// Whether APPEND announced more octets than a message may have.
fn is_too_large(size: u32, awaited: &Awaited) -> bool
    ensures { result ≡ too_large size awaited.now }
{
    match awaited {
        Awaited::AppendData { .. } => size > APPEND_MAX,
        _ => false,
    }
}

// The tag with which the line begins, if a space follows it.
fn tag_of(alloc: Global, line: &[u8]) -> Result<Option<Octets>, Memory>
    ensures { IfOk result (λ tag. HasTag line.now tag) }
{
    match run(Kind::Tag, line) {
        Ok((tag, rest)) => {
            let Some((first, _)) = rest.split_first() else {
                return Ok(None);
            };
            if *first != b' ' {
                return Ok(None);
            }
            let tag = Octets::from_slice(alloc, tag)?;
            Ok(Some(tag))
        }
        Err(Stop::More) => Ok(None),
        Err(Stop::Bad(_)) => Ok(None),
        Err(Stop::Memory) => Err(Memory),
    }
}

// Reads a command from its first octet.
#[tactic(auto, using(crate::proofs::LineEnds::begun_steps))]
fn begun_line(alloc: Global, utf8: bool, line: &[u8]) -> Result<Next, Stop>
    ensures more { result ≡ Err More → first_line line.now ≡ None }
    ensures reads { MatchResult result (λ next. LineComes utf8 line.now next) (λ stop. StopsReading (IsCommand utf8) never line.now stop) }
{
    let (_, after_tag) = run(Kind::Tag, line)?;
    let after_space = octet(b' ', after_tag)?;
    let (name, arguments) = command_name(after_space)?;
    let (next, _) = after_name(alloc, utf8, name, arguments)?;
    Ok(next)
}

fn went(tag: Octets, next: Next) -> Turn
    ensures { result ≡ went_on tag next }
{
    match next {
        Next::Whole(command) => Turn::Whole(tag, command),
        Next::Awaits(size, awaited) => Turn::Awaits(tag, size, awaited),
    }
}

// What comes where a reader stopped: a line that ends is a command, ends with a literal's header, or is bad.
fn stopped(tag: Option<Octets>, stop: Stop) -> Result<Turn, Memory>
    requires { stop ≡ More → ⊥ }
    ensures { IfOk result (Stopped tag stop) }
{
    match stop {
        Stop::Bad(left) => Ok(Turn::Bad(tag, left)),
        Stop::More => unreachable!(),
        Stop::Memory => Err(Memory),
    }
}

// Reads a line after a literal, or from the first octet of a command.
fn line_turn(
    alloc: Global,
    utf8: bool,
    stage: Stage,
    literal: Octets,
    line: &[u8],
) -> Result<Turn, Memory>
    requires { HasLineEnd line.now }
    ensures { (front : List ℕ) → Leaves (IsCommand utf8) front (left_of utf8 stage) [] → Reached utf8 stage front → HasNoDataBefore utf8 front → length literal ≡ size_of stage → IsWholeLine line.now
        → IfOk result (TurnTells utf8 (front ++ (literal ++ line.now))) }
{
    match stage {
        Stage::Begin => {
            let tag = tag_of(alloc, line)?;
            match begun_line(alloc, utf8, line) {
                Ok(next) => {
                    let Some(tag) = tag else {
                        unreachable!();
                    };
                    Ok(went(tag, next))
                }
                Err(stop) => stopped(tag, stop),
            }
        }
        Stage::AfterLiteral { tag, awaited, .. } => {
            match following_literal(alloc, utf8, awaited, literal, line) {
                Ok((next, _)) => Ok(went(tag, next)),
                Err(stop) => stopped(Some(tag), stop),
            }
        }
    }
}

// Where the first octet stands that no field's name has.
fn find_bad(literal: &[u8]) -> Option<usize>
    ensures { result ≡ position (λ x. not (is_name_char x)) literal.now }
{
    literal
        .iter()
        .position(|octet| !passes(Kind::FieldName, *octet))
}

// Where a literal that is to be a field's name has another octet, so many octets are left there.
fn name_left(literal: &[u8], line: &[u8]) -> Option<usize>
    ensures { MatchOption result (list_all is_name_char literal.now ≡ true) (λ left. HasBadName literal.now line.now left) }
{
    let at = find_bad(literal)?;
    Some((literal.len() - at).saturating_add(line.len()))
}

// Reads what follows a literal.
fn following_literal(
    alloc: Global,
    utf8: bool,
    awaited: Awaited,
    literal: Octets,
    line: &[u8],
) -> Result<(Next, &[u8]), Stop>
    ensures more { result ≡ Err More → first_line line.now ≡ None }
    ensures reads { IsSized (length literal) awaited → MatchResult result (λ x. IsLiteralBody (length literal) awaited literal literal × Comes utf8 (IsAfterLiteral utf8 awaited literal) line.now x.0 x.1.now)
        (λ stop. StopsReading (IsRestAtLiteral utf8 (length literal) awaited) never (literal ++ line.now) stop) }
{
    match awaited {
        Awaited::LoginName => after_user(alloc, utf8, literal, line),
        Awaited::LoginPassword { name } => bare(
            Command::Login {
                name,
                password: literal,
            },
            line,
        ),
        Awaited::Mailbox(naming) => after_mailbox(naming, literal, line),
        Awaited::ListReference => after_reference(alloc, utf8, literal, line),
        Awaited::ListPattern { reference } => bare(
            Command::List {
                reference,
                pattern: literal,
            },
            line,
        ),
        Awaited::StatusName => after_status_name(alloc, literal, line),
        Awaited::AppendName => after_append_name(alloc, literal, line),
        Awaited::AppendData {
            name,
            flags,
            date,
            utf8,
        } => after_data(
            utf8,
            Command::Append {
                name,
                flags,
                date,
                utf8,
                octets: literal,
            },
            line,
        ),
        Awaited::FieldName(so_far) => {
            if let Some(left) = name_left(literal.as_slice(), line) {
                return Err(Stop::Bad(left));
            }
            after_field_name(alloc, utf8, so_far, literal, line)
        }
    }
}
