//! Where the entities of a message are in its surrogate.
ghost use Rattle.std.specs.Prelude.{◌≡◌, ◌<◌, ◌^◌, map, IfOk};
ghost use Rattle.std.specs.List.{AllByRecursion};
ghost use Rattle.std.specs.List.Sorted.{IsNonDecreasingBy};
ghost use Rattle.mime_tree.specs.Outlines.{outlines_of, seen_outline};
ghost use Rattle.mime_tree.specs.Rewriting.{moved_outline};
ghost use Rattle.surrogate_rope.specs.declared.moving.End.{End as EndValue};
ghost use Rattle.surrogate_rope.specs.private.Moving.{moved_by, IsNear, HasPlaces};

use mail_wire::Memory;
use mime_tree::{Entity, Outline, Outlined};
use std::alloc::Global;

/// Where a block ends in the message, and where in the surrogate.
#[derive(Clone, Copy)]
pub struct End {
    pub at: usize,
    pub made: usize,
}

// Where a place of the message is in the surrogate: as far after the last block that ends at or before it.
fn moved(ends: &[End], place: usize) -> usize
    requires rise { IsNonDecreasingBy (λ (end : EndValue). end.at) ends.now }
    requires near { AllByRecursion IsNear ends.now }
    requires place { place < 2 ^ 63 }
    ensures { result ≡ moved_by 0 0 ends.now place }
{
    let following = ends.partition_point(|end| end.at <= place);
    if following == 0 {
        return place;
    }
    let end = &ends[following - 1];
    end.made + (place - end.at)
}

// The outline in the surrogate.
fn moved_to(ends: &[End], outline: &Outline) -> Outline
    requires rise { IsNonDecreasingBy (λ (end : EndValue). end.at) ends.now }
    requires near { AllByRecursion IsNear ends.now }
    requires places { HasPlaces (seen_outline outline.now) }
    ensures { seen_outline result ≡ moved_outline (moved_by 0 0 ends.now) (seen_outline outline.now) }
{
    Outline {
        parent: outline.parent,
        depth: outline.depth,
        at: moved(ends, outline.at),
        body: moved(ends, outline.body),
        end: moved(ends, outline.end),
        shape: outline.shape,
    }
}

/// The outlines of entities in the surrogate.
pub fn moved_outlines(
    alloc: Global,
    ends: &[End],
    entities: &[Entity],
) -> Result<Vec<Outline>, Memory>
    requires rise { IsNonDecreasingBy (λ (end : EndValue). end.at) ends.now }
    requires near { AllByRecursion IsNear ends.now }
    requires places { AllByRecursion HasPlaces (outlines_of entities.now) }
    ensures { IfOk result (λ made. map seen_outline made.items ≡ map (moved_outline (moved_by 0 0 ends.now)) (outlines_of entities.now)) }
{
    let mut outlines = Vec::with_capacity(alloc, entities.len())?;
    for entity in entities {
        outlines.push(moved_to(ends, &entity.outline()))?;
    }
    Ok(outlines)
}
