//! Readers of dates with times.
ghost use Rattle.std.specs.Prelude.{◌≡◌, ℕ, MatchResult};
ghost use Rattle.imap_words.specs.Reading.{Reads, StopsReading, never};
ghost use Rattle.imap_words.specs.Keywords.{IsWordOf};
ghost use Rattle.imap_words.specs.Tokens.{is_digit as is_digit_of};
ghost use Rattle.imap_words.specs.Dates.{IsDateTime, IsDateTimeText, IsDigit, IsTwoDigits, IsFourDigits, IsTime, IsZone, IsDateDayFixed, months};

use crate::keywords::read_word;
use crate::stop::Stop;
use crate::tokens::octet;
use mail_wire::TableWord;

#[tactic(auto, unfolding(crate::specs::Tokens::is_digit))]
fn is_digit(octet: u8) -> bool
    ensures { result ≡ is_digit_of octet }
{
    octet > 47 && octet < 58
}

fn digit(text: &[u8]) -> Result<(u8, &[u8]), Stop>
    ensures { MatchResult result (λ x. Reads IsDigit never text.now x.0 x.1.now) (λ stop. StopsReading IsDigit never text.now stop) }
{
    let Some((first, rest)) = text.split_first() else {
        return Err(Stop::More);
    };
    if is_digit(*first) {
        return Ok((*first, rest));
    }
    Err(Stop::Bad(text.len()))
}

fn two_digits(text: &[u8]) -> Result<(u8, &[u8]), Stop>
    ensures { MatchResult result (λ x. Reads IsTwoDigits never text.now x.0 x.1.now) (λ stop. StopsReading IsTwoDigits never text.now stop) }
{
    let (_, text) = digit(text)?;
    digit(text)
}

fn four_digits(text: &[u8]) -> Result<(u8, &[u8]), Stop>
    ensures { MatchResult result (λ x. Reads IsFourDigits never text.now x.0 x.1.now) (λ stop. StopsReading IsFourDigits never text.now stop) }
{
    let (_, text) = two_digits(text)?;
    two_digits(text)
}

// Reads a day of two digits, or a space and a digit.
fn day(text: &[u8]) -> Result<(u8, &[u8]), Stop>
    ensures { MatchResult result (λ x. Reads IsDateDayFixed never text.now x.0 x.1.now) (λ stop. StopsReading IsDateDayFixed never text.now stop) }
{
    let Some((first, others)) = text.split_first() else {
        return Err(Stop::More);
    };
    if *first == b' ' {
        return digit(others);
    }
    two_digits(text)
}

// The months.
const MONTHS: [TableWord<u8>; 12] = [
    TableWord(b"JAN", 1),
    TableWord(b"FEB", 2),
    TableWord(b"MAR", 3),
    TableWord(b"APR", 4),
    TableWord(b"MAY", 5),
    TableWord(b"JUN", 6),
    TableWord(b"JUL", 7),
    TableWord(b"AUG", 8),
    TableWord(b"SEP", 9),
    TableWord(b"OCT", 10),
    TableWord(b"NOV", 11),
    TableWord(b"DEC", 12),
];

// Reads a month.
fn month(text: &[u8]) -> Result<(u8, &[u8]), Stop>
    ensures { MatchResult result (λ x. Reads (IsWordOf months) never text.now x.0 x.1.now) (λ stop. StopsReading (IsWordOf months) never text.now stop) }
{
    read_word(&MONTHS, text)
}

fn time(text: &[u8]) -> Result<(u8, &[u8]), Stop>
    ensures { MatchResult result (λ x. Reads IsTime never text.now x.0 x.1.now) (λ stop. StopsReading IsTime never text.now stop) }
{
    let (_, text) = two_digits(text)?;
    let text = octet(b':', text)?;
    let (_, text) = two_digits(text)?;
    let text = octet(b':', text)?;
    two_digits(text)
}

fn zone(text: &[u8]) -> Result<(u8, &[u8]), Stop>
    ensures { MatchResult result (λ x. Reads IsZone never text.now x.0 x.1.now) (λ stop. StopsReading IsZone never text.now stop) }
{
    let Some((first, others)) = text.split_first() else {
        return Err(Stop::More);
    };
    if *first == b'+' {
        return four_digits(others);
    }
    if *first == b'-' {
        return four_digits(others);
    }
    Err(Stop::Bad(text.len()))
}

// Reads what stands between the quotes of a date with its time.
fn date_text(text: &[u8]) -> Result<(u8, &[u8]), Stop>
    ensures { MatchResult result (λ x. Reads IsDateTimeText never text.now x.0 x.1.now) (λ stop. StopsReading IsDateTimeText never text.now stop) }
{
    let (_, text) = day(text)?;
    let text = octet(b'-', text)?;
    let (_, text) = month(text)?;
    let text = octet(b'-', text)?;
    let (_, text) = four_digits(text)?;
    let text = octet(b' ', text)?;
    let (_, text) = time(text)?;
    let text = octet(b' ', text)?;
    zone(text)
}

/// Reads a date with its quotes (`date-time` of RFC 3501, 9), and gives what stands between them, and what follows.
pub fn date_time(text: &[u8]) -> Result<(&[u8], &[u8]), Stop>
    ensures { MatchResult result (λ x. Reads IsDateTime never text.now x.0.now x.1.now) (λ stop. StopsReading IsDateTime never text.now stop) }
{
    let after_open = octet(b'"', text)?;
    let (_, following) = date_text(after_open)?;
    let (date, following) = after_open.split_at(after_open.len() - following.len());
    let rest = octet(b'"', following)?;
    Ok((date, rest))
}
