//! The header that a report returns.
ghost use Rattle.std.specs.Prelude.{◌≡◌, ◌↔◌, ◌≤◌, ℕ, false, List, take, length, IsTrue, IfOk, IfSome, IfNone};
ghost use Rattle.utf8_fields.specs.declared.block.Field.{Field};
ghost use Rattle.utf8_fields.specs.Block.{HasBlock};
ghost use Rattle.mime_tree.specs.declared.entity.Entity.{Entity};
ghost use Rattle.mime_tree.specs.Tree.{HasTree};
ghost use Rattle.mime_tree.specs.declared.entity.TreeFault.{TreeFault};
ghost use Rattle.surrogate_rope.specs.Layout.{HasSurrogate};
ghost use Rattle.surrogate_rope.specs.Ropes.{IsRopeOf, octets_of};
ghost use Rattle.utf8_reports.specs.Shown.{HasEndedHeader, IsShownHeader};
ghost use Rattle.utf8_reports.specs.private.Reading.{HoldsHeader, IsSomeHeader};

use mail_wire::{Memory, Octets, Span, is_ended};
use mime_tree::{Part, Tree, TreeFault, complete, read_tree};
use std::alloc::Global;
use surrogate_rope::Rope;
use utf8_fields::{FieldFault, read_block};

// The place after the last field of a header block.
fn block_end(alloc: Global, octets: &[u8]) -> Result<usize, Memory>
    requires { (fields : List Field) × (end : ℕ) × HasBlock octets.now fields end }
    ensures { IfOk result (λ end. (fields : List Field) × HasBlock octets.now fields end) }
{
    match read_block(alloc, octets) {
        Ok(block) => Ok(block.end),
        Err(FieldFault::Memory) => Err(Memory),
        Err(FieldFault::NotField { .. }) => unreachable!(),
        Err(FieldFault::NotUtf8 { .. }) => unreachable!(),
    }
}

// The header block of octets, its last line ended.
fn header_of(alloc: Global, octets: &[u8]) -> Result<Octets, Memory>
    requires { (fields : List Field) × (end : ℕ) × HasBlock octets.now fields end }
    ensures { IfOk result (HasEndedHeader octets.now) }
{
    let end = block_end(alloc, octets)?;
    let mut header = Octets::from_slice(alloc, &octets[..end])?;
    complete(&mut header)?;
    Ok(header)
}

// The first octets of a surrogate.
fn first_octets(alloc: Global, rope: &Rope, msg: &[u8], len: usize) -> Result<Octets, Memory>
    requires rope { IsRopeOf msg.now rope.now }
    requires fits { len ≤ length (octets_of msg.now rope.now) }
    ensures { IfOk result (λ made. made ≡ take len (octets_of msg.now rope.now)) }
{
    let mut made = Vec::new(alloc);
    made.resize(len, 0)?;
    rope.read_at(msg, 0, &mut made);
    Ok(Octets::from_vec(made))
}

// Where a surrogate's header and its empty line stand.
fn header_span(rope: &Rope) -> Span
    requires { (msg : List ℕ) × IsRopeOf msg rope.now }
    ensures { (msg : List ℕ) → IsRopeOf msg rope.now → HoldsHeader (octets_of msg rope.now) result.len }
{
    match rope.section(&[], Part::Header) {
        Some(span) => span,
        None => unreachable!(),
    }
}

// The header of a message's surrogate.
fn surrogate_header(alloc: Global, msg: &[u8], tree: &Tree) -> Result<Octets, Memory>
    requires { HasTree msg.now tree.now.entities }
    ensures { IfOk result (IsShownHeader false msg.now) }
{
    let rope = Rope::build(alloc, msg, tree)?;
    let span = header_span(&rope);
    let front = first_octets(alloc, &rope, msg, span.len)?;
    header_of(alloc, front.as_slice())
}

/// The header of what a report shows of a message.
pub fn shown_header(alloc: Global, msg: &[u8], tree: &Tree, global: bool) -> Result<Octets, Memory>
    requires { HasTree msg.now tree.now.entities }
    ensures { IfOk result (IsShownHeader global msg.now) }
{
    if global {
        header_of(alloc, msg)
    } else {
        surrogate_header(alloc, msg, tree)
    }
}

// Whether memory was wanting.
fn is_memory(fault: TreeFault) -> bool
    ensures { IsTrue result ↔ (fault ≡ TreeFault.Memory) }
{
    matches!(fault, TreeFault::Memory)
}

// The tree of octets, where they have one.
fn tree_of(alloc: Global, octets: &[u8]) -> Result<Option<Tree>, Memory>
    ensures found { IfOk result (λ o. IfSome o (λ tree. HasTree octets.now tree.entities)) }
    ensures none { IfOk result (λ o. IfNone o ((entities : List Entity) → ¬ HasTree octets.now entities)) }
{
    match read_tree(alloc, octets) {
        Ok(tree) => Ok(Some(tree)),
        Err(fault) => {
            if is_memory(fault) {
                return Err(Memory);
            }
            Ok(None)
        }
    }
}

// Whether the whole octets are the block of the message that they are.
fn is_all_header(octets: &[u8], tree: &Tree) -> bool
    requires { HasTree octets.now tree.now.entities }
    ensures { IsTrue result ↔ ((fields : List Field) × HasBlock octets.now fields (length octets.now)) }
{
    match tree.entities.as_slice() {
        [whole, ..] => whole.block.end == octets.len(),
        [] => unreachable!(),
    }
}

// Whether a header block is its own surrogate.
fn is_own_surrogate(alloc: Global, msg: &[u8], tree: &Tree) -> Result<bool, Memory>
    requires tree { HasTree msg.now tree.now.entities }
    requires whole { (fields : List Field) × HasBlock msg.now fields (length msg.now) }
    ensures { IfOk result (λ is. IsTrue is ↔ HasSurrogate msg.now msg.now) }
{
    let rope = Rope::build(alloc, msg, tree)?;
    Ok(rope.rewritten() == 0)
}

/// Whether some message's header is shown so: it is a header block with its last line ended, and in an ASCII report its own
/// surrogate, as the header of each surrogate is.
pub fn is_some_header(alloc: Global, header: &[u8], global: bool) -> Result<bool, Memory>
    ensures { IfOk result (λ is. IsTrue is ↔ IsSomeHeader global header.now) }
{
    if !is_ended(header) {
        return Ok(false);
    }
    let Some(tree) = tree_of(alloc, header)? else {
        return Ok(false);
    };
    if !is_all_header(header, &tree) {
        return Ok(false);
    }
    if global {
        return Ok(true);
    }
    is_own_surrogate(alloc, header, &tree)
}
