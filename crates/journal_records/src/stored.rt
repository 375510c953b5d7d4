//! The octets that a journal may keep as a message, and their mark.
ghost use Rattle.std.specs.Prelude.{◌≡◌, ◌↔◌, length, IfOk, IfSome, IfNone, IsTrue};
ghost use Rattle.mime_tree.specs.Tree.{HasTree};
ghost use Rattle.journal_records.specs.Stored.{HasMark, IsStored, IsStoredWith, mark_in};

use mail_wire::{Memory, Octets, is_ascii};
use mime_tree::{Tree, TreeFault, has_high_block, read_tree};
use std::alloc::Global;
use std::marker::Model;

/// Octets that a journal may keep, and their mark. Contracts see the octets.
#[derive(Debug, Drop)]
pub struct StoredOctets {
    octets: Octets,
    mark: u8,
}

impl Model for StoredOctets {
    ghost use Rattle.std.specs.Prelude.{List, ℕ};
    ghost use Rattle.journal_records.specs.Stored.{HasMark};

    ghost Value = { List ℕ };

    ghost view = { λ a. a.octets };

    ghost invariant = { λ a. HasMark a.octets a.mark };
}

/// The mark of octets whose tree is given: 1 for a header block with octets above 127, and 2 for any such octet.
pub fn mark_in(octets: &[u8], tree: &Tree) -> u8
    requires { HasTree octets.now tree.now.entities }
    ensures { result ≡ mark_in octets.now tree.now.entities }
{
    let header = if has_high_block(octets, tree) { 1 } else { 0 };
    let any = if is_ascii(octets) { 0 } else { 2 };
    header + any
}

/// The mark of octets, or none where they may not be kept.
pub fn mark_of(alloc: Global, octets: &[u8]) -> Result<Option<u8>, Memory>
    ensures mark { IfOk result (λ found. IfSome found (HasMark octets.now)) }
    ensures none { IfOk result (λ found. IfNone found (¬ IsStored octets.now)) }
{
    match read_tree(alloc, octets) {
        Ok(tree) => Ok(Some(mark_in(octets, &tree))),
        Err(fault) => {
            if matches!(fault, TreeFault::Memory) {
                Err(Memory)
            } else {
                Ok(None)
            }
        }
    }
}

/// Whether the octets may be kept.
pub fn is_stored(alloc: Global, octets: &[u8]) -> Result<bool, Memory>
    ensures { IfOk result (λ is. IsTrue is ↔ IsStored octets.now) }
{
    match mark_of(alloc, octets)? {
        Some(_) => Ok(true),
        None => Ok(false),
    }
}

impl StoredOctets {
    /// Octets whose mark this is.
    pub fn new(octets: Octets, mark: u8) -> Self
        requires { HasMark octets mark }
        ensures { result ≡ octets }
    {
        StoredOctets { octets, mark }
    }

    /// The octets, or none where they may not be kept, or where another mark than theirs comes with them.
    pub fn read(alloc: Global, octets: Octets, mark: Option<u8>) -> Result<Option<Self>, Memory>
        ensures same { IfOk result (λ found. IfSome found (λ stored. stored ≡ octets)) }
        ensures stored { IfOk result (λ found. IfSome found (IsStoredWith mark)) }
        ensures none { IfOk result (λ found. IfNone found (¬ IsStoredWith mark octets)) }
    {
        let Some(own) = mark_of(alloc, octets.as_slice())? else {
            return Ok(None);
        };
        if let Some(mark) = mark {
            if mark != own {
                return Ok(None);
            }
        }
        Ok(Some(StoredOctets { octets, mark: own }))
    }

    /// The octets.
    pub fn as_slice(&self) -> &[u8]
        ensures { result.now ≡ self.now }
    {
        self.octets.as_slice()
    }

    /// How many octets there are.
    pub fn len(&self) -> usize
        ensures { result ≡ length self.now }
    {
        self.octets.len()
    }

    /// The mark of the octets.
    pub fn mark(&self) -> u8
        ensures { HasMark self.now result }
    {
        self.mark
    }

    /// The octets alone.
    pub fn into_octets(self) -> Octets
        ensures { result ≡ self }
    {
        self.octets
    }
}
