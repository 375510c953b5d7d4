//! Readers of the smallest productions.
ghost use Rattle.std.specs.Prelude.{◌≡◌, ℕ, ◌+◌, ◌-◌, ◌*◌, ◌<◌, ◌^◌, [], None, Err, MatchResult, MatchOption, position, not, true};
ghost use Rattle.mail_wire.specs.Lines.{first_line};
ghost use Rattle.imap_words.specs.declared.stop.Stop.TheVariants.{More};
ghost use Rattle.imap_words.specs.Languages.{IsOctet};
ghost use Rattle.imap_words.specs.Reading.{Reads, StopsReading, never, always};
ghost use Rattle.imap_words.specs.Tokens.{IsCrlf, IsRunOf, IsNumber32, IsNonZero, is_atom_char as is_atom_char_of, is_digit as is_digit_of, passes as passes_of};

use crate::stop::Stop;

/// Which octets a run has (RFC 3501, 9).
#[derive(Clone, Copy, Debug, PartialEq, Eq)]
pub enum Kind {
    /// Those of `atom`.
    Atom,
    /// Those of `astring`, where it is written without quotes.
    Astring,
    /// Those of `list-mailbox`, where it is written without quotes.
    ListMailbox,
    /// Those of `tag`.
    Tag,
    /// From 33 to 126 but the colon: the octets of a field's name (RFC 5322, 2.2).
    FieldName,
    /// Those of `Astring` that are of `FieldName`, too.
    NameAstring,
}

/// Reads this octet, and gives what follows it.
pub fn octet(wanted: u8, text: &[u8]) -> Result<&[u8], Stop>
    ensures { MatchResult result (λ rest. Reads (IsOctet wanted) never text.now wanted rest.now) (λ stop. StopsReading (IsOctet wanted) never text.now stop) }
{
    let Some((first, rest)) = text.split_first() else {
        return Err(Stop::More);
    };
    if *first == wanted {
        Ok(rest)
    } else {
        Err(Stop::Bad(text.len()))
    }
}

/// Reads LF, and gives what follows it. After a CR a text that has no octet has no line's end.
pub fn line_feed(text: &[u8]) -> Result<&[u8], Stop>
    ensures more { result ≡ Err More → text.now ≡ [] }
    ensures reads { MatchResult result (λ rest. Reads (IsOctet 10) never text.now 10 rest.now) (λ stop. StopsReading (IsOctet 10) never text.now stop) }
{
    let Some((first, rest)) = text.split_first() else {
        return Err(Stop::More);
    };
    if *first == b'\n' {
        Ok(rest)
    } else {
        Err(Stop::Bad(text.len()))
    }
}

/// Reads CR and LF, and gives what follows them.
#[tactic(auto, using(crate::proofs::InLine::octet_open, crate::proofs::InLine::return_last))]
pub fn line_end(text: &[u8]) -> Result<&[u8], Stop>
    ensures more { result ≡ Err More → first_line text.now ≡ None }
    ensures reads { MatchResult result (λ rest. Reads IsCrlf never text.now 10 rest.now) (λ stop. StopsReading IsCrlf never text.now stop) }
{
    let after_return = octet(b'\r', text)?;
    let rest = line_feed(after_return)?;
    Ok(rest)
}

#[tactic(auto, unfolding(crate::specs::Tokens::is_atom_char))]
fn is_atom_char(octet: u8) -> bool
    ensures { result ≡ is_atom_char_of octet }
{
    octet > 32 && octet < 127 && !b"(){%*\"\\]".contains(&octet)
}

/// Whether a run of this kind may have the octet.
#[tactic(auto, unfolding(crate::specs::Tokens::is_astring_char, crate::specs::Tokens::is_list_char, crate::specs::Tokens::is_tag_char, crate::specs::Tokens::is_name_char))]
pub fn passes(kind: Kind, octet: u8) -> bool
    ensures { result ≡ passes_of kind octet }
{
    match kind {
        Kind::Atom => is_atom_char(octet),
        Kind::Astring => is_atom_char(octet) || octet == b']',
        Kind::ListMailbox => {
            is_atom_char(octet) || octet == b'%' || octet == b'*' || octet == b']'
        }
        Kind::Tag => (is_atom_char(octet) || octet == b']') && octet != b'+',
        Kind::FieldName => octet > 32 && octet < 127 && octet != b':',
        Kind::NameAstring => (is_atom_char(octet) || octet == b']')
            && octet > 32
            && octet < 127
            && octet != b':',
    }
}

fn find_end(kind: Kind, text: &[u8]) -> Option<usize>
    ensures { result ≡ position (λ x. not (passes_of kind x)) text.now }
{
    text.iter().position(|octet| !passes(kind, *octet))
}

/// Reads the longest run of octets of this kind, one at least, and gives it and what follows it. A text that ends within a run
/// stops with `More`.
pub fn run(kind: Kind, text: &[u8]) -> Result<(&[u8], &[u8]), Stop>
    ensures { MatchResult result (λ x. Reads (IsRunOf (passes_of kind)) (always (passes_of kind)) text.now x.0.now x.1.now) (λ stop. StopsReading (IsRunOf (passes_of kind)) (always (passes_of kind)) text.now stop) }
{
    match find_end(kind, text) {
        None => Err(Stop::More),
        Some(0) => Err(Stop::Bad(text.len())),
        Some(end) => Ok(text.split_at(end)),
    }
}

// The number with this digit after it, where it is one and the number is none too large.
#[tactic(auto, unfolding(crate::specs::Tokens::is_digit))]
fn with_digit(value: u32, octet: u8) -> Option<u32>
    ensures { MatchOption result ((is_digit_of octet ≡ true) → ¬ (value * 10 + (octet - 48) < 2 ^ 32)) (λ next. (is_digit_of octet ≡ true) × (next ≡ value * 10 + (octet - 48)) × (next < 2 ^ 32)) }
{
    if octet < 48 || octet > 57 {
        return None;
    }
    let wide = value as u64 * 10 + (octet as u64 - 48);
    if wide <= 4294967295 {
        Some(wide as u32)
    } else {
        None
    }
}

/// Reads a number below 2 ^ 32 (`number` of RFC 3501, 9) to its last digit. A digit with which it would be too large is left.
pub fn number(text: &[u8]) -> Result<(u32, &[u8]), Stop>
    ensures { MatchResult result (λ x. Reads IsNumber32 (always is_digit_of) text.now x.0 x.1.now) (λ stop. StopsReading IsNumber32 (always is_digit_of) text.now stop) }
{
    let Some((first, others)) = text.split_first() else {
        return Err(Stop::More);
    };
    let Some(begun) = with_digit(0, *first) else {
        return Err(Stop::Bad(text.len()));
    };
    let mut value = begun;
    let mut rest = others;
    while let Some((octet, others)) = rest.split_first() {
        let Some(next) = with_digit(value, *octet) else {
            return Ok((value, rest));
        };
        value = next;
        rest = others;
    }
    Err(Stop::More)
}

/// The same of a number that doesn't begin with a zero (`nz-number`).
pub fn non_zero(text: &[u8]) -> Result<(u32, &[u8]), Stop>
    ensures { MatchResult result (λ x. Reads IsNonZero (always is_digit_of) text.now x.0 x.1.now) (λ stop. StopsReading IsNonZero (always is_digit_of) text.now stop) }
{
    let Some((first, _)) = text.split_first() else {
        return Err(Stop::More);
    };
    if *first == b'0' {
        return Err(Stop::Bad(text.len()));
    }
    let (value, rest) = number(text)?;
    Ok((value, rest))
}
