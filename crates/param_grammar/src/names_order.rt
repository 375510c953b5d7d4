//! The pieces in the order of their names.
ghost use Rattle.std.specs.Prelude.{◌≡◌, ◌<◌, ℕ, List, Some, None, length, filter, map, position, not, IfOk};
ghost use Rattle.std.specs.List.{list_all, slice_get};
ghost use Rattle.std.specs.Cmp.Lexicographic.{slice_cmp};
ghost use Rattle.std.specs.Ordering.{nat_cmp, is_lt};
ghost use Rattle.std.specs.Str.{bytes_eq};
ghost use Rattle.mail_wire.specs.Spans.{IsSpan};
ghost use Rattle.param_grammar.specs.private.Ordered.{name_in, numbered_in, ascii_in, numbers_below, InNameOrder};

use crate::places::{Place, base_of};
use mail_wire::Memory;
use std::alloc::Global;
use std::cmp::Ordering;

/// Pieces by their places, and the text in lower case.
#[derive(Clone, Copy)]
pub(crate) struct Named<'a> {
    pub(crate) lower: &'a [u8],
    pub(crate) places: &'a [Place],
}

impl<'a> Named<'a> {
    // The name of a piece.
    pub(crate) fn name(self, number: u32) -> &'a [u8]
        ensures { result.now ≡ name_in self.entry.lower.now self.entry.places.now number }
    {
        match self.places.get(number as usize) {
            Some(place) => base_of(self.lower, *place),
            None => &[],
        }
    }
}

// The numbers of the pieces, those of a name after one another and in order.
pub(crate) fn in_name_order(alloc: Global, named: Named<'_>) -> Result<Vec<u32>, Memory>
    ensures { IfOk result (λ order. InNameOrder (name_in named.entry.lower.now named.entry.places.now) (length named.entry.places.now) order.items) }
{
    if named.places.len() > u32::MAX as usize {
        return Err(Memory);
    }
    let mut order = Vec::with_capacity(alloc, named.places.len())?;
    for number in 0..named.places.len() {
        order.push(number as u32)?;
    }
    order.sort_by(|number, other| compare(named, *number, *other))?;
    Ok(order)
}

// Where the first piece stands that has another name.
fn find_other(named: Named<'_>, name: &[u8], order: &[u32]) -> Option<usize>
    ensures { result ≡ position (λ number. not (bytes_eq name.now (name_in named.entry.lower.now named.entry.places.now number))) order.now }
{
    order.iter().position(|number| name != named.name(*number))
}

// The first pieces that have a name, and those after them.
fn split_named<'b>(named: Named<'_>, name: &[u8], order: &'b [u32]) -> (&'b [u32], &'b [u32])
    ensures { IsSpan (λ number. bytes_eq name.now (name_in named.entry.lower.now named.entry.places.now number)) order.now result.0.now result.1.now }
{
    match find_other(named, name, order) {
        Some(at) => order.split_at(at),
        None => order.split_at(order.len()),
    }
}

// The first pieces that have the name of a piece, and those after them.
pub(crate) fn split_run<'b>(
    named: Named<'_>,
    first: u32,
    order: &'b [u32],
) -> (&'b [u32], &'b [u32])
    ensures { IsSpan (λ number. bytes_eq (name_in named.entry.lower.now named.entry.places.now first) (name_in named.entry.lower.now named.entry.places.now number))
        order.now result.0.now result.1.now }
{
    split_named(named, named.name(first), order)
}

// The order of the names of two pieces.
fn compare(named: Named<'_>, number: u32, other: u32) -> Ordering
    ensures { result ≡ slice_cmp nat_cmp (name_in named.entry.lower.now named.entry.places.now number) (name_in named.entry.lower.now named.entry.places.now other) }
{
    named.name(number).cmp(&named.name(other))
}

// Whether the name of a piece stands before that of another.
fn is_before(named: Named<'_>, number: u32, other: u32) -> bool
    ensures { result ≡ is_lt (slice_cmp nat_cmp (name_in named.entry.lower.now named.entry.places.now number) (name_in named.entry.lower.now named.entry.places.now other)) }
{
    compare(named, number, other).is_lt()
}

// The pieces of the name of a piece.
pub(crate) fn run_of<'b>(named: Named<'_>, order: &'b [u32], number: u32) -> &'b [u32]
    requires { InNameOrder (name_in named.lower.now named.places.now) (length named.places.now) order.now }
    ensures { result.now ≡ filter (λ other. bytes_eq (name_in named.entry.lower.now named.entry.places.now number) (name_in named.entry.lower.now named.entry.places.now other))
        (numbers_below (length named.entry.places.now)) }
{
    let at = order.partition_point(|other| is_before(named, *other, number));
    let (_, following) = order.split_at(at);
    let (run, _) = split_run(named, number, following);
    run
}

// The pieces that have a number.
pub(crate) fn parts_among(alloc: Global, named: Named<'_>, run: &[u32]) -> Result<Vec<u32>, Memory>
    ensures { IfOk result (λ parts. parts.items ≡ filter (numbered_in named.entry.places.now) run.now) }
{
    let mut parts = Vec::new(alloc);
    for number in run {
        if is_numbered(named, *number) {
            parts.push(*number)?;
        }
    }
    Ok(parts)
}

// Whether a piece has a number.
pub(crate) fn is_numbered(named: Named<'_>, number: u32) -> bool
    ensures { result ≡ numbered_in named.entry.places.now number }
{
    match named.places.get(number as usize) {
        Some(place) => place.is_numbered,
        None => false,
    }
}

// Whether no name and no value of the pieces has an octet above 127.
pub(crate) fn are_ascii(named: Named<'_>, run: &[u32]) -> bool
    ensures { result ≡ list_all (ascii_in named.entry.places.now) run.now }
{
    run.iter().all(|number| is_ascii(named, *number))
}

pub(crate) fn is_ascii(named: Named<'_>, number: u32) -> bool
    ensures { result ≡ ascii_in named.entry.places.now number }
{
    match named.places.get(number as usize) {
        Some(place) => place.is_ascii,
        None => true,
    }
}
