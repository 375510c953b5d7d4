//! Words of a table, read in any case of their letters.
ghost use Rattle.std.specs.Prelude.{◌≡◌, ◌<◌, ◌≤◌, ◌+◌, ◌∷◌, ◌++◌, ℕ, Bool, List, [], length, map, take, get_or, MatchResult};
ghost use Rattle.mail_wire.specs.Tables.{entries_of};
ghost use Rattle.imap_words.specs.Reading.{Reads, StopsReading};
ghost use Rattle.imap_words.specs.Keywords.{Named, IsWordOf, upper as upper_of, TellsLonger, IsTable, IsCommon, IsBest};

use crate::stop::Stop;
use mail_wire::TableWord;

fn upper(octet: u8) -> u8
    ensures { result ≡ upper_of octet }
{
    if octet > 96 && octet < 123 {
        octet - 32
    } else {
        octet
    }
}

// How many octets the text and the word have in common from the front on, whatever the case of the text's letters.
fn common_len(text: &[u8], word: &[u8]) -> usize
    ensures { IsCommon text.now word.now result }
{
    let mut at = 0;
    while at < text.len() && at < word.len() && upper(text[at]) == word[at] {
        at += 1;
    }
    at
}

// Of a table of words and a text: the length of the longest front of the text with which a word begins, and what that front says
// where it is a word.
#[derive(Clone, Copy)]
struct Best<V: Copy> {
    len: usize,
    found: Option<V>,
}

// What is found of a table without words.
fn no_word<V: Copy>() -> Best<V>
    ensures { (text : List ℕ) → IsBest [] text result.len result.found }
{
    Best {
        len: 0,
        found: None,
    }
}

// The same with a further word of the table. It is given in upper case, and the letters of the text may be of any case.
fn better<V: Copy>(best: Best<V>, text: &[u8], word: &[u8], says: V) -> Best<V>
    ensures { (table : List (Named V)) → IsBest table text.now best.len best.found → IsBest (table ++ record { word = word.now; says = says } ∷ []) text.now result.len result.found }
{
    let len = common_len(text, word);
    if len < best.len {
        return best;
    }
    if len > best.len {
        if len == word.len() {
            return Best {
                len,
                found: Some(says),
            };
        }
        return Best { len, found: None };
    }
    if len == word.len() && best.found.is_none() {
        return Best {
            len,
            found: Some(says),
        };
    }
    best
}

// Reads the word that was found in the text, and gives what the word says and the octets that follow it.
fn take_word<V: Copy>(best: Best<V>, text: &[u8]) -> Result<(V, &[u8]), Stop>
    requires { best.len ≤ length text.now }
    ensures { (table : List (Named V)) (later : V → ℕ → Bool) → IsBest table text.now best.len best.found → IsTable table → TellsLonger table later
        → MatchResult result (λ x. Reads (IsWordOf table) later text.now x.0 x.1.now) (λ stop. StopsReading (IsWordOf table) later text.now stop) }
{
    if best.len == text.len() {
        return Err(Stop::More);
    }
    match best.found {
        Some(says) => Ok((says, &text[best.len..])),
        None => Err(Stop::Bad(text.len() - best.len)),
    }
}

/// Reads the longest word of a table with which a text begins, and gives what the word says and the octets that follow it. The words
/// are in upper case, and the letters of the text may be of any case. A text that ends with or within a word stops with `More`,
/// since a longer word may come.
pub fn read_word<'a, V: Copy>(table: &[TableWord<V>], text: &'a [u8]) -> Result<(V, &'a [u8]), Stop>
    ensures { let words = entries_of table.now in
        (later : V → ℕ → Bool) → IsTable words → TellsLonger words later
        → MatchResult result (λ x. Reads (IsWordOf words) later text.now x.0 x.1.now) (λ stop. StopsReading (IsWordOf words) later text.now stop) }
{
    let mut best = no_word();
    for entry in table {
        let TableWord(word, says) = *entry;
        best = better(best, text, word, says);
    }
    take_word(best, text)
}
