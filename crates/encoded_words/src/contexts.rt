//! The reader of the units of a text, by where it stands.
ghost use Rattle.std.specs.Prelude.{map, IfOk};
ghost use Rattle.encoded_words.specs.private.Values.{value_of};
ghost use Rattle.encoded_words.specs.Contexts.{HasUnitsIn};

use crate::comments::read_comment;
use crate::units::read_unstructured;
use crate::{Context, Unit};
use mail_wire::Memory;
use std::alloc::Global;

/// The units of a text that stands in this context. Any octets are read; of UTF-8 each `Unit::Text` is UTF-8.
pub fn read_units(alloc: Global, context: Context, text: &[u8]) -> Result<Vec<Unit>, Memory>
    ensures { IfOk result (λ units. HasUnitsIn context text.now (map value_of units.items)) }
{
    match context {
        Context::Unstructured => read_unstructured(alloc, text),
        Context::Comment => read_comment(alloc, text),
    }
}
