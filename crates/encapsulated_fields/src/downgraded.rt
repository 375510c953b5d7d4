//! The writer of `Downgraded-` fields.
ghost use Rattle.std.specs.Prelude.{◌≡◌, ◌<◌, true, List, [], ◌∷◌, length, IfOk};
ghost use Rattle.std.specs.List.{list_all};
ghost use Rattle.std.specs.Str.{IsUtf8};
ghost use Rattle.mail_wire.specs.Octets.{is_ascii};
ghost use Rattle.encoded_words.specs.Words.{Text};
ghost use Rattle.encapsulated_fields.specs.Encapsulated.{IsFieldName, downgraded_name, Encapsulates, FieldSays};

use encoded_words::push_words;
use mail_wire::{Memory, Octets};
use std::alloc::Global;

/// The field that keeps a value where a field of this name can't: `Downgraded-` before its name, and the value as encoded words,
/// with the CRLF at its end.
pub fn encapsulate(alloc: Global, name: &[u8], value: &[u8]) -> Result<Octets, Memory>
    requires name { IsFieldName name.now }
    requires value { IsUtf8 value.now }
    requires some { 0 < length value.now }
    ensures layout { IfOk result (Encapsulates name.now value.now) }
    ensures ascii { IfOk result (λ field. list_all is_ascii field ≡ true) }
    ensures read_back { IfOk result (λ field. FieldSays (downgraded_name name.now) field (Text value.now ∷ [])) }
{
    let mut field = Octets::from_slice(alloc, b"Downgraded-")?;
    field.push_slice(name)?;
    field.push(b':')?;
    push_words(&mut field, b' ', value)?;
    field.push_slice(b"\r\n")?;
    Ok(field)
}
