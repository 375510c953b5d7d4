//! Messages that go in a circle (RFC 5321, 6.3).
ghost use Rattle.std.specs.Prelude.{◌≡◌, ◌+◌, ◌≤◌, length};
ghost use Rattle.mime_tree.specs.Tree.{HasTree};
ghost use Rattle.utf8_fields.specs.Block.{HasBlock, name_of};
ghost use Rattle.smtp_session.specs.Loops.{is_looping as is_looping_of, is_received as is_received_of, received_count as received_count_of};

use mail_wire::is_same_name;
use mime_tree::Tree;
use utf8_fields::{Block, Field};

// Each server that a message passes puts one such field before it. With so many it goes in a circle.
const RECEIVED_MAX: usize = 100;

fn is_received(octets: &[u8], field: &Field) -> bool
    requires { field.now.name.at + field.now.name.len ≤ length octets.now }
    ensures { result ≡ is_received_of (name_of octets.now field.now) }
{
    let name = field.name;
    is_same_name(&octets[name.at..name.at + name.len], b"Received")
}

// How many fields of the block are named Received.
fn received_count(octets: &[u8], block: &Block) -> usize
    requires { HasBlock octets.now block.now.fields block.now.end }
    ensures { result ≡ received_count_of octets.now }
{
    let mut count = 0;
    for field in block.fields.as_slice() {
        if is_received(octets, field) {
            count += 1;
        }
    }
    count
}

/// Whether a message goes in a circle, by the header block of its tree: the fields of enclosed messages don't count.
pub fn is_looping(octets: &[u8], tree: &Tree) -> bool
    requires { HasTree octets.now tree.now.entities }
    ensures { result ≡ is_looping_of octets.now }
{
    let root = &tree.entities.as_slice()[0];
    received_count(octets, &root.block) >= RECEIVED_MAX
}
