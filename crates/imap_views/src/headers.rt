//! Headers, and the first field of a name in one.
ghost use Rattle.std.specs.Prelude.{◌≡◌, IfOk};
ghost use Rattle.mime_tree.specs.Openings.{IsFirstValue};
ghost use Rattle.imap_views.specs.Fields.{HasSomeBlock};
ghost use Rattle.imap_views.specs.private.Reading.{IsRead, raws_in};

use mail_wire::{Memory, Octets};
use mime_tree::first_value;
use std::alloc::Global;
use utf8_fields::{Block, FieldFault, read_block};

/// A header and its block.
#[derive(Drop)]
pub struct Header<'a> {
    pub octets: &'a [u8],
    pub block: Block,
}

/// Reads the block of a header.
pub fn read_header(alloc: Global, octets: &[u8]) -> Result<Header<'_>, Memory>
    requires { HasSomeBlock octets.now }
    ensures read { IfOk result (λ header. IsRead header) }
    ensures same { IfOk result (λ header. header.octets.now ≡ octets.now) }
{
    match read_block(alloc, octets) {
        Ok(block) => Ok(Header { octets, block }),
        Err(FieldFault::Memory) => Err(Memory),
        Err(FieldFault::NotField { .. }) => unreachable!(),
        Err(FieldFault::NotUtf8 { .. }) => unreachable!(),
    }
}

impl Header<'_> {
    /// The value of the first field of this name.
    pub fn first(&self, alloc: Global, name: &[u8]) -> Result<Option<Octets>, Memory>
        requires { IsRead self.now }
        ensures { IfOk result (IsFirstValue name.now (raws_in self.now)) }
    {
        first_value(alloc, self.octets, self.block.fields.as_slice(), name)
    }
}
