//! Readers of flags.
#![tactic(auto, using(crate::proofs::LineEnds::flag_steps))]

ghost use Rattle.std.specs.Prelude.{◌≡◌, ◌∷◌, ◌++◌, ℕ, List, [], None, Err, MatchResult};
ghost use Rattle.mail_wire.specs.Lines.{first_line};
ghost use Rattle.imap_words.specs.declared.stop.Stop.TheVariants.{More};
ghost use Rattle.imap_words.specs.Reading.{Reads, StopsReading, never, always};
ghost use Rattle.imap_words.specs.Tokens.{is_atom_char};
ghost use Rattle.imap_words.specs.Keywords.{IsWordOf};
ghost use Rattle.imap_grammar.specs.Flags.{IsFlag, IsFlagList, IsFlagsToEnd, AreFlags, HasFlags, EndsFlags, flags_of, storing_words, after_storing, IsBits};

use crate::command::StoreOp;
use imap_words::{Kind, Stop, line_end, line_feed, octet, read_word, run};
use mail_wire::{TableWord, is_same_name};

/// Which flags were named.
#[derive(Clone, Copy)]
struct Bits {
    seen: bool,
    answered: bool,
    flagged: bool,
    deleted: bool,
    draft: bool,
}

fn no_bits() -> Bits
    ensures { IsBits [] result }
{
    Bits {
        seen: false,
        answered: false,
        flagged: false,
        deleted: false,
        draft: false,
    }
}

fn with_flag(bits: Bits, name: &[u8]) -> Bits
    ensures { (flags : List (List ℕ)) → IsBits flags bits → IsBits (flags ++ name.now ∷ []) result }
{
    Bits {
        seen: bits.seen || is_same_name(b"\\Seen", name),
        answered: bits.answered || is_same_name(b"\\Answered", name),
        flagged: bits.flagged || is_same_name(b"\\Flagged", name),
        deleted: bits.deleted || is_same_name(b"\\Deleted", name),
        draft: bits.draft || is_same_name(b"\\Draft", name),
    }
}

#[tactic(auto, unfolding(crate::specs::Flags::flags_of))]
fn value(bits: Bits) -> u8
    ensures { (flags : List (List ℕ)) → IsBits flags bits → result ≡ flags_of flags }
{
    let seen = if bits.seen { 1 } else { 0 };
    let answered = if bits.answered { 2 } else { 0 };
    let flagged = if bits.flagged { 4 } else { 0 };
    let deleted = if bits.deleted { 8 } else { 0 };
    let draft = if bits.draft { 16 } else { 0 };
    seen + answered + flagged + deleted + draft
}

// Reads a flag to its last octet.
fn flag(text: &[u8]) -> Result<(&[u8], &[u8]), Stop>
    ensures { MatchResult result (λ x. Reads IsFlag (always is_atom_char) text.now x.0.now x.1.now) (λ stop. StopsReading IsFlag (always is_atom_char) text.now stop) }
{
    let Some((first, others)) = text.split_first() else {
        return Err(Stop::More);
    };
    if *first != b'\\' {
        let (name, rest) = run(Kind::Atom, text)?;
        return Ok((name, rest));
    }
    let (_, following) = run(Kind::Atom, others)?;
    Ok(text.split_at(text.len() - following.len()))
}

// Reads flags with a space between any two, and this octet after them.
fn flags_until(close: u8, text: &[u8]) -> Result<(u8, &[u8]), Stop>
    requires { EndsFlags close }
    ensures { MatchResult result (λ x. Reads (HasFlags (AreFlags close)) never text.now x.0 x.1.now) (λ stop. StopsReading (HasFlags (AreFlags close)) never text.now stop) }
{
    let (first, after_first) = flag(text)?;
    let mut bits = with_flag(no_bits(), first);
    let mut rest = after_first;
    while let Some((separator, others)) = rest.split_first() {
        if *separator != b' ' {
            let following = octet(close, rest)?;
            return Ok((value(bits), following));
        }
        let (name, following) = flag(others)?;
        bits = with_flag(bits, name);
        rest = following;
    }
    Err(Stop::More)
}

// Reads flags in parentheses.
pub fn flag_list(text: &[u8]) -> Result<(u8, &[u8]), Stop>
    ensures { MatchResult result (λ x. Reads (HasFlags IsFlagList) never text.now x.0 x.1.now) (λ stop. StopsReading (HasFlags IsFlagList) never text.now stop) }
{
    let after_open = octet(b'(', text)?;
    let Some((first, others)) = after_open.split_first() else {
        return Err(Stop::More);
    };
    if *first == b')' {
        return Ok((0, others));
    }
    let (flags, rest) = flags_until(b')', after_open)?;
    Ok((flags, rest))
}

// Reads the flags of STORE and the end of its line.
pub fn flags_to_end(text: &[u8]) -> Result<(u8, &[u8]), Stop>
    ensures more { result ≡ Err More → first_line text.now ≡ None }
    ensures reads { MatchResult result (λ x. Reads (HasFlags IsFlagsToEnd) never text.now x.0 x.1.now) (λ stop. StopsReading (HasFlags IsFlagsToEnd) never text.now stop) }
{
    let Some((first, _)) = text.split_first() else {
        return Err(Stop::More);
    };
    if *first == b'(' {
        let (flags, after_list) = flag_list(text)?;
        let rest = line_end(after_list)?;
        return Ok((flags, rest));
    }
    let (flags, after_return) = flags_until(b'\r', text)?;
    let rest = line_feed(after_return)?;
    Ok((flags, rest))
}

// What STORE does, and whether it is silent.
const STORING_WORDS: [TableWord<(StoreOp, bool)>; 6] = [
    TableWord(b"FLAGS", (StoreOp::Replace, false)),
    TableWord(b"FLAGS.SILENT", (StoreOp::Replace, true)),
    TableWord(b"+FLAGS", (StoreOp::Add, false)),
    TableWord(b"+FLAGS.SILENT", (StoreOp::Add, true)),
    TableWord(b"-FLAGS", (StoreOp::Remove, false)),
    TableWord(b"-FLAGS.SILENT", (StoreOp::Remove, true)),
];

// Reads a word of that table.
pub fn storing_word(text: &[u8]) -> Result<((StoreOp, bool), &[u8]), Stop>
    ensures { MatchResult result (λ x. Reads (IsWordOf storing_words) after_storing text.now x.0 x.1.now) (λ stop. StopsReading (IsWordOf storing_words) after_storing text.now stop) }
{
    read_word(&STORING_WORDS, text)
}
