//! Fields and blocks.
ghost use Rattle.std.specs.Prelude.{◌≡◌};
ghost use Rattle.utf8_fields.specs.declared.block.FieldFault.TheVariants.{Memory};

use mail_wire::{Items, Memory as OutOfMemory, Span};
use std::alloc::AllocFailed;

/// A header field: where its name and where all of it stands.
#[derive(Clone, Copy, Debug, PartialEq, Eq)]
pub struct Field {
    pub name: Span,
    pub raw: Span,
}

/// A list of fields.
pub type Fields = Items<Field>;

/// A header block: its fields, and the place after the last one.
#[derive(Debug, Drop)]
pub struct Block {
    pub fields: Fields,
    pub end: usize,
}

/// Why octets have no header block.
#[derive(Clone, Copy, PartialEq, Eq)]
pub enum FieldFault {
    /// The line that stands there is no field line.
    NotField { at: usize },
    /// The octet that stands there is no well-formed UTF-8.
    NotUtf8 { at: usize },
    Memory,
}

impl From<OutOfMemory> for FieldFault {
    ghost from_gives = { λ _ fault. fault ≡ Memory };

    fn from(_memory: OutOfMemory) -> FieldFault {
        FieldFault::Memory
    }
}

impl<T: Drop> From<AllocFailed<T>> for FieldFault {
    ghost from_gives = { λ _ fault. fault ≡ Memory };

    fn from(_error: AllocFailed<T>) -> FieldFault {
        FieldFault::Memory
    }
}
