//! Readers of sets of messages.
ghost use Rattle.std.specs.Prelude.{◌≡◌, ℕ, MatchResult};
ghost use Rattle.imap_words.specs.Reading.{Reads, StopsReading, never, always};
ghost use Rattle.imap_words.specs.Sets.{IsSeqNumber, IsSeqRange, IsSetAndSpace, after_range};
ghost use Rattle.imap_words.specs.Tokens.{is_digit};

use crate::stop::Stop;
use crate::tokens::{non_zero, octet};
use mail_wire::Items;
use std::alloc::Global;

// Reads a number, or `*`.
fn seq_number(text: &[u8]) -> Result<(Option<u32>, &[u8]), Stop>
    ensures { MatchResult result (λ x. Reads IsSeqNumber (always is_digit) text.now x.0 x.1.now) (λ stop. StopsReading IsSeqNumber (always is_digit) text.now stop) }
{
    let Some((first, others)) = text.split_first() else {
        return Err(Stop::More);
    };
    if *first == b'*' {
        return Ok((None, others));
    }
    let (number, rest) = non_zero(text)?;
    Ok((Some(number), rest))
}

// Reads a number alone, or a range.
fn seq_range(text: &[u8]) -> Result<((Option<u32>, Option<u32>), &[u8]), Stop>
    ensures { MatchResult result (λ x. Reads IsSeqRange (always after_range) text.now x.0 x.1.now) (λ stop. StopsReading IsSeqRange (always after_range) text.now stop) }
{
    let (first, rest) = seq_number(text)?;
    let Some((octet, others)) = rest.split_first() else {
        return Err(Stop::More);
    };
    if *octet != b':' {
        return Ok(((first, first), rest));
    }
    let (last, rest) = seq_number(others)?;
    Ok(((first, last), rest))
}

/// Reads a set of messages (`sequence-set` of RFC 3501, 9) and the space after it. It gives the ranges in the order written:
/// `None` is `*`, and a number alone is the range from itself to itself.
pub fn set_and_space(
    alloc: Global,
    text: &[u8],
) -> Result<(Items<(Option<u32>, Option<u32>)>, &[u8]), Stop>
    ensures { MatchResult result (λ x. Reads IsSetAndSpace never text.now x.0 x.1.now) (λ stop. StopsReading IsSetAndSpace never text.now stop) }
{
    let (first, after_first) = seq_range(text)?;
    let mut ranges = Items::new(alloc);
    let Ok(()) = ranges.push(first) else {
        return Err(Stop::Memory);
    };
    let mut rest = after_first;
    while let Some((separator, others)) = rest.split_first() {
        if *separator != b',' {
            let following = octet(b' ', rest)?;
            return Ok((ranges, following));
        }
        let (range, following) = seq_range(others)?;
        let Ok(()) = ranges.push(range) else {
            return Err(Stop::Memory);
        };
        rest = following;
    }
    Err(Stop::More)
}
