//! Tables of words.
ghost use Rattle.std.specs.Prelude.{◌≡◌};
ghost use Rattle.mail_wire.specs.Tables.{said_by, entries_of};

use crate::text::is_same_name;

/// A word of a table, and what it says.
#[derive(Clone, Copy)]
pub struct TableWord<V: Copy>(pub &'static [u8], pub V);

/// What the first entry of a table says whose word is this one, whatever the case of ASCII letters.
#[tactic(auto, unfolding(crate::specs::Tables::said_by))]
pub fn find_word<V: Copy>(table: &[TableWord<V>], word: &[u8]) -> Option<V>
    ensures { result ≡ said_by (entries_of table.now) word.now }
{
    for entry in table {
        let TableWord(known, says) = *entry;
        if is_same_name(word, known) {
            return Some(says);
        }
    }
    None
}
