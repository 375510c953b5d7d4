//! Whether a header block has octets above 127.
ghost use Rattle.std.specs.Prelude.{◌≡◌};
ghost use Rattle.std.specs.List.{All, list_any};
ghost use Rattle.mail_wire.specs.Octets.{is_high};
ghost use Rattle.mime_tree.specs.Openings.{AreFieldsWithin};
ghost use Rattle.mime_tree.specs.Tree.{HasTree, has_high_block, raws_of};

use crate::entity::{Entity, Tree};
use mail_wire::is_ascii;

// Whether an octet above 127 stands in the entity's header block.
fn is_high_block(octets: &[u8], entity: &Entity) -> bool
    requires { AreFieldsWithin octets.now entity.now.block.fields }
    ensures { result ≡ list_any is_high (raws_of octets.now entity.now.block) }
{
    for field in entity.block.fields.as_slice() {
        if !is_ascii(&octets[field.raw.at..field.raw.at + field.raw.len]) {
            return true;
        }
    }
    false
}

// Whether one of the entities has such a block.
fn is_any_high(octets: &[u8], entities: &[Entity]) -> bool
    requires { All (λ (entity : Entity). AreFieldsWithin octets.now entity.block.fields) entities.now }
    ensures { result ≡ has_high_block octets.now entities.now }
{
    for entity in entities {
        if is_high_block(octets, entity) {
            return true;
        }
    }
    false
}

/// Whether an octet above 127 stands in the header block of an entity of the message, whose tree is given.
pub fn has_high_block(octets: &[u8], tree: &Tree) -> bool
    requires { HasTree octets.now tree.now.entities }
    ensures { result ≡ has_high_block octets.now tree.now.entities }
{
    is_any_high(octets, tree.entities.as_slice())
}
