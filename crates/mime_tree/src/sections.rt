//! Sections of a message: what can be asked for by a path of numbers (RFC 3501, 6.4.5).
ghost use Rattle.std.specs.Prelude.{◌≡◌, ◌<◌, length, map, option_map};
ghost use Rattle.mime_tree.specs.Outlines.{outlines_of, seen_outline};
ghost use Rattle.mime_tree.specs.Sections.{is_in, child, itself, named, next, named_by, between, whole_of, header_of, content_of, child_of, part_at, part_of_all, section};

use crate::entity::{Shape, Tree};
use crate::outlines::{Outline, Outlined};
use mail_wire::Span;

/// What is asked of an entity.
#[derive(Clone, Copy, Debug, PartialEq, Eq)]
pub enum Part {
    /// Nothing else than the path: `BODY[1]`.
    Whole,
    /// The header block of a message, as by `BODY[1.HEADER]`.
    Header,
    /// The content of a message, as by `BODY[1.TEXT]`.
    Text,
    /// The header block of a part, as by `BODY[1.MIME]`.
    Mime,
}

// Whether an entity is directly in the one of this number.
fn is_in(entity: &Outline, number: usize) -> bool
    ensures { result ≡ is_in entity.now.parent number }
{
    match entity.parent {
        Some(parent) => parent == number,
        None => false,
    }
}

// The n-th child, counted from 1.
fn child<E: Outlined>(entities: &[E], number: usize, n: u32) -> Option<usize>
    ensures { result ≡ child (map E.outlined entities.now) number n }
{
    let mut left = n.checked_sub(1)?;
    for (place, entity) in entities.iter().enumerate() {
        if is_in(&entity.outline(), number) {
            if left == 0 {
                return Some(place);
            }
            left -= 1;
        }
    }
    None
}

// An entity that has no parts is its own first part.
fn itself(number: usize, n: u32) -> Option<usize>
    ensures { result ≡ itself number n }
{
    if n == 1 { Some(number) } else { None }
}

// What n names at the entity of this number.
fn named<E: Outlined>(entities: &[E], number: usize, n: u32) -> Option<usize>
    ensures { result ≡ named (map E.outlined entities.now) number n }
{
    let entity = entities.get(number)?.outline();
    match entity.shape {
        Shape::Multipart => child(entities, number, n),
        Shape::Message => itself(number, n),
        Shape::Leaf => itself(number, n),
    }
}

// What n names after an earlier number has named this entity.
fn next<E: Outlined>(entities: &[E], number: usize, n: u32) -> Option<usize>
    ensures { result ≡ next (map E.outlined entities.now) number n }
{
    let entity = entities.get(number)?.outline();
    match entity.shape {
        Shape::Message => named(entities, number + 1, n),
        Shape::Multipart => named(entities, number, n),
        Shape::Leaf => named(entities, number, n),
    }
}

// The entity that a path names.
fn named_by<E: Outlined>(entities: &[E], path: &[u32]) -> Option<usize>
    ensures { result ≡ named_by (map E.outlined entities.now) path.now }
{
    let (first, rest) = path.split_first()?;
    let mut number = named(entities, 0, *first)?;
    for n in rest {
        number = next(entities, number, *n)?;
    }
    Some(number)
}

fn between(from: usize, to: usize) -> Span
    ensures { result ≡ between from to }
{
    Span {
        at: from,
        len: to.saturating_sub(from),
    }
}

fn whole_of(entity: &Outline) -> Span
    ensures { result ≡ whole_of (seen_outline entity.now) }
{
    between(entity.at, entity.end)
}

fn header_of(entity: &Outline) -> Span
    ensures { result ≡ header_of (seen_outline entity.now) }
{
    between(entity.at, entity.body)
}

fn content_of(entity: &Outline) -> Span
    ensures { result ≡ content_of (seen_outline entity.now) }
{
    between(entity.body, entity.end)
}

// The child of an entity that is a message.
fn child_of<E: Outlined>(entities: &[E], number: usize, shape: Shape) -> Option<Outline>
    requires { number < length entities.now }
    ensures { option_map seen_outline result ≡ child_of (map E.outlined entities.now) number shape }
{
    match shape {
        Shape::Message => Some(entities.get(number + 1)?.outline()),
        Shape::Multipart => None,
        Shape::Leaf => None,
    }
}

// What is asked of an entity that a path has named.
fn part_at<E: Outlined>(entities: &[E], part: Part, number: usize) -> Option<Span>
    ensures { result ≡ part_at (map E.outlined entities.now) part number }
{
    let entity = entities.get(number)?.outline();
    match part {
        Part::Whole => Some(content_of(&entity)),
        Part::Mime => Some(header_of(&entity)),
        Part::Header => Some(header_of(&child_of(entities, number, entity.shape)?)),
        Part::Text => Some(content_of(&child_of(entities, number, entity.shape)?)),
    }
}

// What is asked of the whole message.
fn part_of_all(part: Part, entity: &Outline) -> Option<Span>
    ensures { result ≡ part_of_all part (seen_outline entity.now) }
{
    match part {
        Part::Whole => Some(whole_of(entity)),
        Part::Header => Some(header_of(entity)),
        Part::Text => Some(content_of(entity)),
        Part::Mime => None,
    }
}

/// Where a section of a message of these entities stands (RFC 3501, 6.4.5): what is asked of the entity that the path names, or without a path of the whole
/// message.
pub fn section<E: Outlined>(entities: &[E], path: &[u32], part: Part) -> Option<Span>
    ensures { result ≡ section (map E.outlined entities.now) path.now part }
{
    if path.is_empty() {
        return part_of_all(part, &entities.first()?.outline());
    }
    part_at(entities, part, named_by(entities, path)?)
}

impl Tree {
    /// Where a section stands (RFC 3501, 6.4.5).
    pub fn section(&self, path: &[u32], part: Part) -> Option<Span>
        ensures { result ≡ section (outlines_of self.now.entities) path.now part }
    {
        section(self.entities.as_slice(), path, part)
    }
}
