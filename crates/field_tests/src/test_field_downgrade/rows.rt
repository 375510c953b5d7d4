//! Fields and what they give.
ghost use Rattle.std.specs.Prelude.{◌≡◌, ◌+◌, ◌≤◌, length};
ghost use Rattle.utf8_fields.specs.Block.{raw_of};
ghost use Rattle.utf8_fields.specs.Parts.{IsField};

use field_downgrade::{Kind, Rewrite, downgrade_field, kind_of, push_downgraded};
use mail_wire::{Memory, Octets};
use std::alloc::Global;
use test_mail::Case;
use utf8_fields::{Field, read_block};

/// What fields give.
pub enum Row {
    /// A field and what it becomes.
    Field(&'static str, &'static str),
    /// The same of an opened message/global.
    Opened(&'static str, &'static str),
    /// The names of fields of a kind.
    Kind(&'static [&'static str], Kind),
}

impl Case for Row {
    fn holds(&self, alloc: Global) -> Result<bool, Memory> {
        match self {
            Row::Field(field, want) => gives(alloc, false, field.as_bytes(), want.as_bytes()),
            Row::Opened(field, want) => gives(alloc, true, field.as_bytes(), want.as_bytes()),
            Row::Kind(names, kind) => Ok(are_of_kind(*names, *kind)),
        }
    }
}

// Whether fields of each of these names are of this kind.
fn are_of_kind(names: &[&str], kind: Kind) -> bool {
    for name in names {
        if kind_of(name.as_bytes()) != kind {
            return false;
        }
    }
    true
}

// The raw octets of a field.
fn raw_of<'m>(msg: &'m [u8], field: &Field) -> &'m [u8]
    requires { field.now.raw.at + field.now.raw.len ≤ length msg.now }
    ensures { result.now ≡ raw_of msg.now field.now }
{
    &msg[field.raw.at..field.raw.at + field.raw.len]
}

// Rewrites the only field of a message, and compares.
fn gives(alloc: Global, open_global: bool, msg: &[u8], want: &[u8]) -> Result<bool, Memory> {
    let Ok(block) = read_block(alloc, msg) else {
        return Ok(false);
    };
    match block.fields.as_slice() {
        [field] => {
            let raw = raw_of(msg, field);
            Ok(is_made(alloc, open_global, raw, want)? && is_put(alloc, open_global, raw, want)?)
        }
        _ => Ok(false),
    }
}

fn is_made(alloc: Global, open_global: bool, raw: &[u8], want: &[u8]) -> Result<bool, Memory>
    requires { IsField raw.now }
{
    match downgrade_field(alloc, raw, open_global)? {
        Rewrite::New(made) => Ok(made.as_slice() == want),
        Rewrite::Keep => Ok(raw == want),
    }
}

// Whether the field is put after others as it is wanted, and not at all where it stays.
fn is_put(alloc: Global, open_global: bool, raw: &[u8], want: &[u8]) -> Result<bool, Memory>
    requires { IsField raw.now }
{
    let mut made = Octets::from_slice(alloc, b"A: b\r\n")?;
    if push_downgraded(alloc, raw, open_global, &mut made)? {
        return Ok(made.as_slice().strip_prefix(b"A: b\r\n") == Some(want));
    }
    Ok(raw == want && made.as_slice() == b"A: b\r\n".as_slice())
}
