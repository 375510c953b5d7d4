//! Reads the tree in one pass, with the boundaries that are open.
ghost use Rattle.std.specs.Prelude.{◌≡◌, ◌≢◌, ◌+◌, ◌<◌, ◌≤◌, ◌++◌, ◌∷◌, ℕ, List, [], length, drop, IfOk, IfErr, IsErrAnd, OnOk, IsTrue, true, false, None, MatchResult, ◌⊎◌};
ghost use Rattle.utf8_fields.specs.declared.block.FieldFault.{FieldFault};
ghost use Rattle.mail_wire.specs.Lines.{lines_of};
ghost use Rattle.mail_wire.specs.Message.{IsSound};
ghost use Rattle.utf8_fields.specs.Faults.{IsFaultIn};
ghost use Rattle.mime_tree.specs.declared.entity.Entity.{Entity};
ghost use Rattle.mime_tree.specs.declared.entity.TreeFault.{TreeFault};
ghost use Rattle.mime_tree.specs.declared.openings.Opening.{Opening};
ghost use Rattle.mime_tree.specs.Openings.{AreFieldsWithin, Opens};
ghost use Rattle.mime_tree.specs.Parts.{parts_of};
ghost use Rattle.mime_tree.specs.private.Open.{lines_at, begins_marked, region, after, later, end_place, IsStop, IsHeaderStop, IsStart, IsAfterLine, IsNext, IsContentStart};
ghost use Rattle.mime_tree.specs.Tree.{HasTree, IsEntity};
ghost use Rattle.mime_tree.specs.Faults.{IsTreeFault, IsFaultOf, IsFaultAmong, told_of};
ghost use Rattle.mime_tree.specs.private.Reading.{region_at, IsHeadRead, IsInsideRead, IsDividedRead, IsEntityRead, IsFaultWithin};

use crate::entity::{Entities, Entity, Shape, Tree, TreeFault};
use crate::marks::{first_line, is_delimiter, is_marked};
use crate::message::check_message;
use crate::openings::{Opening, opening_of};
use mail_wire::Octets;
use std::alloc::Global;
use utf8_fields::{Block, FieldFault, read_block_at};

/// How deep an entity may be that is opened.
pub const DEPTH_MAX: u32 = 32;

/// Where the lines of an entity stop: before a line that an open boundary marks, or at the end of the message.
#[derive(Clone, Copy)]
pub struct Stop {
    pub at: usize,
    pub marked: bool,
}

/// Where a part begins. It is read from `from` on; its place is `at`, which differs where nothing is in it.
#[derive(Clone, Copy)]
pub struct Start {
    pub from: usize,
    pub at: usize,
}

/// What follows in a multipart: a part, or its end.
#[derive(Clone, Copy)]
pub enum Next {
    Part(Start),
    End(Stop),
}

/// A block, and where the content begins after it.
#[derive(Drop)]
pub struct Head {
    pub block: Block,
    pub content: Start,
}

/// What an entity is, and where it stops.
#[derive(Clone, Copy)]
pub struct Opened {
    pub shape: Shape,
    pub stop: Stop,
}

/// An entity that is to be read.
#[derive(Clone, Copy)]
pub struct Place {
    /// The number of the entity that it is in.
    pub parent: Option<usize>,
    /// Whether it is in a digest.
    pub digest: bool,
    pub start: Start,
    /// How many levels of entities may be in it.
    pub levels: u32,
}

/// A content that is to be read.
#[derive(Clone, Copy)]
pub struct Content {
    /// The number of its entity.
    pub number: usize,
    pub start: Start,
    /// How many levels of entities may be in it.
    pub levels: u32,
}

/// A content with parts that are to be read.
#[derive(Clone, Copy)]
pub struct Division {
    /// The number of its entity.
    pub number: usize,
    /// Whether it is a digest.
    pub digest: bool,
    pub start: Start,
    /// How many levels of entities may be in a part.
    pub levels: u32,
}

// Whether the line that stands there is marked.
fn is_marked_at(octets: &[u8], boundaries: &[Octets], at: usize) -> bool
    requires fits { at ≤ length octets.now }
    ensures { result ≡ begins_marked boundaries.now (lines_at octets.now at) }
{
    let (_, rest) = octets.split_at(at);
    if rest.is_empty() {
        return false;
    }
    // the end of most lines isn't looked for
    if !rest.starts_with(b"--") {
        return false;
    }
    let (text, _) = rest.split_at(first_line(rest).text);
    is_marked(boundaries, text)
}

// Passes the lines up to the next marked one.
fn skip_lines(octets: &[u8], boundaries: &[Octets], from: usize) -> Stop
    requires fits { from ≤ length octets.now }
    ensures { IsStop boundaries.now octets.now from result }
{
    if boundaries.is_empty() {
        return Stop {
            at: octets.len(),
            marked: false,
        };
    }
    let mut at = from;
    while at < octets.len() {
        let (_, rest) = octets.split_at(at);
        let line = first_line(rest);
        let (text, _) = rest.split_at(line.text);
        if is_marked(boundaries, text) {
            return Stop { at, marked: true };
        }
        at += line.len;
    }
    Stop { at, marked: false }
}

// Passes the lines of a header block, up to an empty line, a marked one, or the end.
fn skip_header(octets: &[u8], boundaries: &[Octets], from: usize) -> Stop
    requires fits { from ≤ length octets.now }
    ensures { IsHeaderStop boundaries.now octets.now from result }
{
    let mut at = from;
    while at < octets.len() {
        let (_, rest) = octets.split_at(at);
        let line = first_line(rest);
        let (whole, _) = rest.split_at(line.len);
        let (text, _) = rest.split_at(line.text);
        if is_marked(boundaries, text) {
            return Stop { at, marked: true };
        }
        if whole == b"\r\n".as_slice() {
            return Stop { at, marked: false };
        }
        at += line.len;
    }
    Stop { at, marked: false }
}

// Where an entity ends that begins at `at`, is read from `from` on, and stops there.
fn end_of(from: usize, at: usize, stop: Stop) -> usize
    requires { IsTrue stop.marked → stop.at ≢ from → 2 ≤ stop.at }
    ensures { result ≡ end_place from at stop }
{
    if !stop.marked {
        stop.at
    } else if stop.at == from {
        at
    } else {
        stop.at - 2
    }
}

// Where that begins which follows the line at `at`.
fn start_after(octets: &[u8], boundaries: &[Octets], at: usize) -> Start
    requires fits { at < length octets.now }
    ensures { IsAfterLine boundaries.now octets.now at result }
{
    let (_, rest) = octets.split_at(at);
    let line = first_line(rest);
    let from = at + line.len;
    if is_marked_at(octets, boundaries, from) {
        Start {
            from,
            at: at + line.text,
        }
    } else {
        Start { from, at: from }
    }
}

// Where the content begins after a header that stops there and ends at `end`.
fn content_after(octets: &[u8], boundaries: &[Octets], stop: Stop, end: usize) -> Start
    requires fits { stop.at ≤ length octets.now }
    ensures { IsContentStart boundaries.now octets.now stop end result }
{
    if stop.marked {
        return Start {
            from: stop.at,
            at: end,
        };
    }
    if stop.at == octets.len() {
        return Start {
            from: stop.at,
            at: end,
        };
    }
    start_after(octets, boundaries, stop.at)
}

// Reads the header block.
fn read_head(
    alloc: Global,
    octets: &[u8],
    boundaries: &[Octets],
    start: Start,
) -> Result<Head, FieldFault>
    requires start { IsStart boundaries.now octets.now start }
    ensures head { IfOk result (IsHeadRead boundaries.now octets.now start) }
    ensures fault { IfErr result (IsFaultIn (region_at boundaries.now octets.now start.from) start.at) }
{
    let stop = skip_header(octets, boundaries, start.from);
    let end = end_of(start.from, start.at, stop);
    let (front, _) = octets.split_at(end);
    let block = read_block_at(alloc, front, start.at)?;
    let content = content_after(octets, boundaries, stop, end);
    Ok(Head { block, content })
}

// The first part: it follows the first delimiter line.
fn first_part(octets: &[u8], boundaries: &[Octets], boundary: &[u8], start: Start) -> Next
    requires start { IsStart boundaries.now octets.now start }
    ensures { let outer = boundaries.now in
        IsNext outer boundary.now octets.now (parts_of boundary.now start.at (region_at outer octets.now start.from)) start.from result }
{
    let mut at = start.from;
    while at < octets.len() {
        let (_, rest) = octets.split_at(at);
        let line = first_line(rest);
        let (text, _) = rest.split_at(line.text);
        if is_marked(boundaries, text) {
            return Next::End(Stop { at, marked: true });
        }
        if is_delimiter(boundary, text) {
            return Next::Part(start_after(octets, boundaries, at));
        }
        at += line.len;
    }
    Next::End(Stop { at, marked: false })
}

// What follows a part that stopped there.
fn next_part(octets: &[u8], boundaries: &[Octets], boundary: &[u8], stop: Stop) -> Next
    requires fits { stop.at ≤ length octets.now }
    requires marked { stop.marked ≡ begins_marked (boundaries.now ++ boundary.now ∷ []) (lines_at octets.now stop.at) }
    requires at_end { stop.marked ≡ false → lines_at octets.now stop.at ≡ [] }
    ensures { let outer = boundaries.now in
        IsNext outer boundary.now octets.now (later outer boundary.now stop.at (lines_at octets.now stop.at)) stop.at result }
{
    if !stop.marked {
        return Next::End(stop);
    }
    let (_, rest) = octets.split_at(stop.at);
    let line = first_line(rest);
    let (text, _) = rest.split_at(line.text);
    if is_marked(boundaries, text) {
        return Next::End(stop);
    }
    if is_delimiter(boundary, text) {
        Next::Part(start_after(octets, boundaries, stop.at))
    } else {
        Next::End(skip_lines(octets, boundaries, stop.at + line.len))
    }
}

// Takes the last boundary away.
fn take_last(boundaries: &mut Vec<Octets>) -> Octets
    requires { 0 < length boundaries.old.items }
    ensures { boundaries.old.items ≡ boundaries.new.items ++ result ∷ [] }
{
    let last = boundaries.len() - 1;
    boundaries.remove(last)
}

// Reads the parts of a content that a boundary divides.
#[cycle(tree)]
fn read_parts(
    alloc: Global,
    octets: &[u8],
    entities: &mut Entities,
    boundaries: &mut Vec<Octets>,
    boundary: Octets,
    division: Division,
) -> Result<Opened, FieldFault>
    requires start { IsStart boundaries.old.items octets.now division.start }
    requires number { division.number + 1 ≡ length entities.old }
    requires levels { division.levels ≤ 32 }
    ensures read { let outer = boundaries.old.items in let parts = parts_of boundary division.start.at (region_at outer octets.now division.start.from) in
        IfOk result (IsDividedRead division.levels outer octets.now parts division.digest division.number division.start.from entities.old entities.new) }
    ensures fault { let outer = boundaries.old.items in let parts = parts_of boundary division.start.at (region_at outer octets.now division.start.from) in
        IfErr result (IsFaultAmong (IsEntity division.levels octets.now) (IsFaultOf division.levels octets.now) division.digest parts) }
    ensures restored { OnOk result (boundaries.new.items ≡ boundaries.old.items) }
{
    let mut shape = Shape::Leaf;
    let mut own = boundary;
    let mut next = first_part(
        octets,
        boundaries.as_slice(),
        own.as_slice(),
        division.start,
    );
    'parts: loop {
        match next {
            Next::End(stop) => return Ok(Opened { shape, stop }),
            Next::Part(start) => {
                shape = Shape::Multipart;
                boundaries.push(own)?;
                let part = Place {
                    parent: Some(division.number),
                    digest: division.digest,
                    start,
                    levels: division.levels,
                };
                let stop = read_entity(alloc, octets, entities, boundaries, part)?;
                own = take_last(boundaries);
                next = next_part(octets, boundaries.as_slice(), own.as_slice(), stop);
            }
        }
    }
}

// Reads what is in an entity that is opened so.
#[cycle(tree)]
fn read_inside(
    alloc: Global,
    octets: &[u8],
    entities: &mut Entities,
    boundaries: &mut Vec<Octets>,
    opening: Opening,
    content: Content,
) -> Result<Opened, FieldFault>
    requires start { IsStart boundaries.old.items octets.now content.start }
    requires number { content.number + 1 ≡ length entities.old }
    requires levels { content.levels ≤ 32 }
    ensures read { IfOk result (IsInsideRead content.levels boundaries.old.items octets.now opening content.number content.start entities.old entities.new) }
    ensures fault { IfErr result (λ fault. fault ≡ FieldFault.Memory ⊎ IsFaultWithin content.levels octets.now opening content.start.at (region_at boundaries.old.items octets.now content.start.from) fault) }
    ensures restored { OnOk result (boundaries.new.items ≡ boundaries.old.items) }
{
    if content.levels == 0 {
        let stop = skip_lines(octets, boundaries.as_slice(), content.start.from);
        return Ok(Opened {
            shape: Shape::Leaf,
            stop,
        });
    }
    match opening {
        Opening::Nothing => {
            let stop = skip_lines(octets, boundaries.as_slice(), content.start.from);
            Ok(Opened {
                shape: Shape::Leaf,
                stop,
            })
        }
        Opening::Message => {
            let message = Place {
                parent: Some(content.number),
                digest: false,
                start: content.start,
                levels: content.levels - 1,
            };
            let stop = read_entity(alloc, octets, entities, boundaries, message)?;
            Ok(Opened {
                shape: Shape::Message,
                stop,
            })
        }
        Opening::Parts { boundary, digest } => {
            let division = Division {
                number: content.number,
                digest,
                start: content.start,
                levels: content.levels - 1,
            };
            read_parts(alloc, octets, entities, boundaries, boundary, division)
        }
    }
}

// Reads an entity and those in it.
#[cycle(tree)]
fn read_entity(
    alloc: Global,
    octets: &[u8],
    entities: &mut Entities,
    boundaries: &mut Vec<Octets>,
    place: Place,
) -> Result<Stop, FieldFault>
    requires start { IsStart boundaries.old.items octets.now place.start }
    requires levels { place.levels ≤ 32 }
    ensures read { IfOk result (IsEntityRead place.levels boundaries.old.items octets.now place.parent place.digest place.start entities.old entities.new) }
    ensures fault { IfErr result (IsFaultOf place.levels octets.now place.digest place.start.at (region_at boundaries.old.items octets.now place.start.from)) }
    ensures restored { OnOk result (boundaries.new.items ≡ boundaries.old.items) }
{
    let number = entities.len();
    let start = place.start;
    let head = read_head(alloc, octets, boundaries.as_slice(), start)?;
    let content = Content {
        number,
        start: head.content,
        levels: place.levels,
    };
    let Ok(opening) = opening_of(alloc, octets, head.block.fields.as_slice(), place.digest) else {
        return Err(FieldFault::Memory);
    };
    entities.push(Entity {
        parent: place.parent,
        depth: DEPTH_MAX + 1 - place.levels,
        at: start.at,
        body: content.start.at,
        end: start.at,
        shape: Shape::Leaf,
        block: head.block,
    })?;
    let opened = read_inside(alloc, octets, entities, boundaries, opening, content)?;
    entities.settle(
        number,
        end_of(start.from, start.at, opened.stop),
        opened.shape,
    );
    Ok(opened.stop)
}

// The fault of a line, as the tree's.
fn told(fault: FieldFault) -> TreeFault
    ensures { result ≡ told_of fault }
{
    match fault {
        FieldFault::NotField { at } => TreeFault::NotField { at },
        FieldFault::NotUtf8 { at } => TreeFault::NotUtf8 { at },
        FieldFault::Memory => TreeFault::Memory,
    }
}

/// Reads the tree of octets without NUL, and with CR and LF only as CRLF.
pub fn read_sound_tree(alloc: Global, octets: &[u8]) -> Result<Tree, TreeFault>
    requires { IsSound octets.now }
    ensures tree { IfOk result (λ tree. HasTree octets.now tree.entities) }
    ensures fault { IfErr result (IsTreeFault octets.now) }

    // Where the octets have a tree or a fault, that is the answer, unless memory is wanting.
    ensures exact { (entities : List Entity) → HasTree octets.now entities → MatchResult result (λ tree. tree.entities ≡ entities) (λ fault. fault ≡ TreeFault.Memory) }
    ensures exact_fault { (fault : TreeFault) → IsTreeFault octets.now fault → fault ≢ TreeFault.Memory →
        IsErrAnd result (λ found. (found ≡ fault) ⊎ (found ≡ TreeFault.Memory)) }
{
    let mut entities = Entities::new(alloc);
    let mut boundaries = Vec::new(alloc);
    let start = Start { from: 0, at: 0 };
    let message = Place {
        parent: None,
        digest: false,
        start,
        levels: DEPTH_MAX,
    };
    match read_entity(alloc, octets, &mut entities, &mut boundaries, message) {
        Ok(_) => Ok(Tree { entities }),
        Err(fault) => Err(told(fault)),
    }
}

/// Reads the tree of a message.
pub fn read_tree(alloc: Global, octets: &[u8]) -> Result<Tree, TreeFault>
    ensures tree { IfOk result (λ tree. HasTree octets.now tree.entities) }
    ensures fault { IfErr result (IsTreeFault octets.now) }

    // Where the octets have a tree or a fault, that is the answer, unless memory is wanting.
    ensures exact { (entities : List Entity) → HasTree octets.now entities → MatchResult result (λ tree. tree.entities ≡ entities) (λ fault. fault ≡ TreeFault.Memory) }
    ensures exact_fault { (fault : TreeFault) → IsTreeFault octets.now fault → fault ≢ TreeFault.Memory →
        IsErrAnd result (λ found. (found ≡ fault) ⊎ (found ≡ TreeFault.Memory)) }
{
    check_message(octets)?;
    read_sound_tree(alloc, octets)
}
