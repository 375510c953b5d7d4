//! The words of a command line.
ghost use Rattle.std.specs.Prelude.{◌≡◌, ℕ, ◌≤◌, ◌↔◌, List, [], ◌∷◌, ◌++◌, length, slice_get, OnOk, OnErr, IsNone, IfSome, Some};

use crate::values::Memory;
use std::alloc::Global;
use std::marker::Model;

/// A list of texts, as the words of a command line.
#[derive(Debug, Drop)]
pub struct Words {
    alloc: Global,
    words: Vec<String>,
}

impl Model for Words {
    ghost use Rattle.std.specs.Prelude.{List, ℕ, map, string_bytes};

    ghost Value = { List (List ℕ) };

    ghost view = { λ a. map string_bytes a.words.items };
}

impl Words {
    /// The empty list.
    pub fn none(alloc: Global) -> Self
        ensures { result ≡ [] }
    {
        Words {
            alloc,
            words: Vec::new(alloc),
        }
    }

    /// Puts a text last.
    pub fn push(&mut self, word: &str) -> Result<(), Memory>
        ensures ok { OnOk result (self.new ≡ self.old ++ word.now ∷ []) }
        ensures err { OnErr result (self.new ≡ self.old) }
    {
        let word = String::from_str(self.alloc, word)?;
        self.words.push(word)?;
        Ok(())
    }

    /// The text at a place.
    pub fn get(&self, at: usize) -> Option<&str>
        ensures none { IsNone result ↔ (length self.now ≤ at) }
        ensures some { IfSome result (λ word. slice_get self.now at ≡ Some word.now) }
    {
        let word = self.words.get(at)?;
        Some(word.as_str())
    }
}
