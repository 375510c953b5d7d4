//! Messages: lines that end with CRLF, without NUL, and with CR and LF only as CRLF.
ghost use Rattle.std.specs.Prelude.{◌≡◌, ◌↔◌, ◌+◌, ◌<◌, ℕ, length, drop, IfSome, IfNone, MatchOption, IsTrue};
ghost use Rattle.mail_wire.specs.Message.{IsFirstFaulty, IsSound, IsEnded, IsMessage, BeginsCrlf};
ghost use Rattle.mail_wire.specs.private.Pairs.{IsSoundPair, ArePairsBelow, HasSoundEnds};

use memchr::memchr3;

/// The most octets of a message: 32 MiB.
pub const MESSAGE_MAX: u32 = 33_554_432;

// Whether the second of two octets that follow one another isn't NUL, and is LF exactly where the first is CR. It has no branch, so that many
// pairs are looked at together.
fn is_sound_pair(before: u8, octet: u8) -> bool
    ensures { IsTrue result ↔ IsSoundPair before octet }
{
    (octet != 0) & ((before == b'\r') == (octet == b'\n'))
}

// Whether neither NUL nor LF comes first, and CR doesn't come last.
fn has_sound_ends(octets: &[u8]) -> bool
    ensures { IsTrue result ↔ HasSoundEnds octets.now }
{
    !matches!(octets, [0 | b'\n', ..] | [.., b'\r'])
}

// Whether each octet and the one after it are a sound pair.
fn are_pairs_sound(octets: &[u8]) -> bool
    ensures { IsTrue result ↔ ArePairsBelow octets.now (length octets.now) }
{
    let mut sound = true;
    for at in 1..octets.len() {
        sound &= is_sound_pair(octets[at - 1], octets[at]);
    }
    sound
}

// Whether no octet is faulty. It doesn't tell where one is, and so is much faster than a search.
fn is_sound(octets: &[u8]) -> bool
    ensures { IsTrue result ↔ IsSound octets.now }
{
    has_sound_ends(octets) && are_pairs_sound(octets)
}

// Whether CRLF comes first.
fn begins_crlf(octets: &[u8]) -> bool
    ensures { IsTrue result ↔ BeginsCrlf octets.now }
{
    matches!(octets, [b'\r', b'\n', ..])
}

/// The place of the first octet that is NUL, a CR that LF doesn't follow, or an LF that CR doesn't precede.
pub fn first_faulty(octets: &[u8]) -> Option<usize>
    ensures { MatchOption result (IsSound octets.now) (IsFirstFaulty octets.now) }
{
    if is_sound(octets) {
        return None;
    }
    let mut at = 0;
    while let Some(passed) = memchr3(0, b'\r', b'\n', &octets[at..]) {
        let found = at + passed;
        if !begins_crlf(&octets[found..]) {
            return Some(found);
        }
        at = found + 2;
    }
    None
}

/// Whether there are no octets, or the last line ends with CRLF.
pub fn is_ended(octets: &[u8]) -> bool
    ensures { IsTrue result ↔ IsEnded octets.now }
{
    matches!(octets, [] | [.., b'\r', b'\n'])
}

/// Whether the octets are a message.
pub fn is_message(octets: &[u8]) -> bool
    ensures { IsTrue result ↔ IsMessage octets.now }
{
    is_ended(octets) && is_sound(octets)
}
