//! Readers of APPEND.
#![tactic(auto, using(crate::proofs::LineEnds::append_steps))]

ghost use Rattle.std.specs.Prelude.{◌≡◌, ℕ, Bool, None, Err, MatchResult};
ghost use Rattle.mail_wire.specs.Lines.{first_line};
ghost use Rattle.imap_words.specs.declared.stop.Stop.TheVariants.{More};
ghost use Rattle.imap_words.specs.Languages.{After, Is};
ghost use Rattle.imap_words.specs.Reading.{Reads, StopsReading, always, never};
ghost use Rattle.imap_grammar.specs.Commands.{at_octet, IsAppend, IsDataFront, IsDataEnd, IsFlagBits, IsDateAndSpace};
ghost use Rattle.imap_grammar.specs.Awaiting.{Comes, IsAfterAppendName, announced_of};

use crate::awaited::{Awaited, Next};
use crate::command::Command;
use crate::commands::bare;
use crate::flags::flag_list;
use crate::tables::utf8_word;
use imap_words::{Head, Kind, Stop, date_time, header, header8, octet, string_head};
use mail_wire::Octets;
use std::alloc::Global;

// Reads what stands before the data: whether they come in the form with `UTF8`, and their size.
fn data_front(text: &[u8]) -> Result<((bool, u32), &[u8]), Stop>
    ensures more { result ≡ Err More → first_line text.now ≡ None }
    ensures reads { MatchResult result (λ x. Reads IsDataFront never text.now (announced_of x.0) x.1.now) (λ stop. StopsReading IsDataFront never text.now stop) }
{
    let Some((first, _)) = text.split_first() else {
        return Err(Stop::More);
    };
    if *first == b'{' {
        let (size, rest) = header(text)?;
        return Ok(((false, size), rest));
    }
    let (_, after_word) = utf8_word(text)?;
    let after_space = octet(b' ', after_word)?;
    let after_open = octet(b'(', after_space)?;
    let (size, rest) = header8(after_open)?;
    Ok(((true, size), rest))
}

// Reads flags and a space, where they come next.
fn maybe_flags(text: &[u8]) -> Result<(u8, &[u8]), Stop>
    ensures { MatchResult result (λ x. Reads IsFlagBits (always (at_octet 40)) text.now x.0 x.1.now) (λ stop. StopsReading IsFlagBits (always (at_octet 40)) text.now stop) }
{
    let Some((first, _)) = text.split_first() else {
        return Err(Stop::More);
    };
    if *first != b'(' {
        return Ok((0, text));
    }
    let (flags, after_flags) = flag_list(text)?;
    let rest = octet(b' ', after_flags)?;
    Ok((flags, rest))
}

// Reads a date and a space, where it comes next.
fn maybe_date(alloc: Global, text: &[u8]) -> Result<(Option<Octets>, &[u8]), Stop>
    ensures { MatchResult result (λ x. Reads IsDateAndSpace (always (at_octet 34)) text.now x.0 x.1.now) (λ stop. StopsReading IsDateAndSpace (always (at_octet 34)) text.now stop) }
{
    let Some((first, _)) = text.split_first() else {
        return Err(Stop::More);
    };
    if *first != b'"' {
        return Ok((None, text));
    }
    let (date, after_date) = date_time(text)?;
    let rest = octet(b' ', after_date)?;
    let Ok(date) = Octets::from_slice(alloc, date) else {
        return Err(Stop::Memory);
    };
    Ok((Some(date), rest))
}

pub fn after_append_name(alloc: Global, name: Octets, text: &[u8]) -> Result<(Next, &[u8]), Stop>
    ensures more { result ≡ Err More → first_line text.now ≡ None }
    ensures reads { MatchResult result (λ x. (utf8 : Bool) → Comes utf8 (IsAfterAppendName name) text.now x.0 x.1.now) (λ stop. StopsReading (IsAfterAppendName name) never text.now stop) }
{
    let after_space = octet(b' ', text)?;
    let (flags, after_flags) = maybe_flags(after_space)?;
    let (date, after_date) = maybe_date(alloc, after_flags)?;
    let ((utf8, size), rest) = data_front(after_date)?;
    let awaited = Awaited::AppendData {
        name,
        flags,
        date,
        utf8,
    };
    Ok((Next::Awaits(size, awaited), rest))
}

pub fn append(alloc: Global, utf8: bool, text: &[u8]) -> Result<(Next, &[u8]), Stop>
    ensures more { result ≡ Err More → first_line text.now ≡ None }
    ensures reads { MatchResult result (λ x. Comes utf8 (IsAppend utf8) text.now x.0 x.1.now) (λ stop. StopsReading (IsAppend utf8) never text.now stop) }
{
    let after_space = octet(b' ', text)?;
    let (head, rest) = string_head(alloc, utf8, Kind::Astring, after_space)?;
    match head {
        Head::Whole(name) => after_append_name(alloc, name, rest),
        Head::Literal(size) => Ok((Next::Awaits(size, Awaited::AppendName), rest)),
    }
}

// Reads what follows the data, with which this command is whole. In the form with `UTF8` they stand in parentheses.
pub fn after_data(in_utf8: bool, command: Command, text: &[u8]) -> Result<(Next, &[u8]), Stop>
    ensures more { result ≡ Err More → first_line text.now ≡ None }
    ensures reads { MatchResult result (λ x. (utf8 : Bool) → Comes utf8 (After (IsDataEnd in_utf8) (Is command)) text.now x.0 x.1.now) (λ stop. StopsReading (After (IsDataEnd in_utf8) (Is command)) never text.now stop) }
{
    if !in_utf8 {
        return bare(command, text);
    }
    let rest = octet(b')', text)?;
    bare(command, rest)
}
