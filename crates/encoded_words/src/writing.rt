//! The writer of units.
ghost use Rattle.std.specs.Prelude.{◌≡◌, ◌++◌, ◌∷◌, [], map, OnOk};
ghost use Rattle.encoded_words.specs.private.Values.{value_of};
ghost use Rattle.encoded_words.specs.Folding.{lines_of, AddsLines};
ghost use Rattle.encoded_words.specs.Written.{WritesUnit, WriteAll, IsWritable, AreWritable};

use crate::Unit;
use crate::written_words::push_words;
use mail_wire::{Memory, Octets};

/// Puts a piece last, on a line of its own after a space. After want of memory a front of this line was put.
pub fn push_line(made: &mut Octets, piece: &[u8]) -> Result<(), Memory>
    ensures { OnOk result (made.new ≡ made.old ++ lines_of (piece.now ∷ [])) }
{
    made.push_slice(b"\r\n ")?;
    made.push_slice(piece)
}

fn push_unit(unit: &Unit, made: &mut Octets) -> Result<(), Memory>
    requires { IsWritable (value_of unit.now) }
    ensures { OnOk result (AddsLines (WritesUnit (value_of unit.now)) made.old made.new) }
{
    match unit {
        Unit::Text(octets) => push_words(made, b' ', octets.as_slice()),
        Unit::Opaque { source, .. } => push_line(made, source.as_slice()),
    }
}

/// Puts the pieces of units last, each on a line of its own: each text as its encoded words, and each opaque unit as the word
/// that it came from. After want of memory a front of these lines was put.
pub fn write_units(units: &[Unit], made: &mut Octets) -> Result<(), Memory>
    requires { AreWritable (map value_of units.now) }
    ensures { OnOk result (AddsLines (WriteAll (map value_of units.now)) made.old made.new) }
{
    for unit in units {
        push_unit(unit, made)?;
    }
    Ok(())
}
