//! Structures of messages.
ghost use Rattle.std.specs.Prelude.{◌≡◌, ◌≤◌, ◌<◌, ◌++◌, ◌∷◌, [], ◌+◌, ◌-◌, ℕ, List, length, map, replicate, set, slice_index_or, slice_range, IfOk, OnOk, OnErr};
ghost use Rattle.std.specs.List.{All};
ghost use Rattle.mime_tree.specs.Sections.{children_from};
ghost use Rattle.surrogate_rope.specs.Served.{IsShownOf, shown_octets, shown_outlines, seen_outline};
ghost use Rattle.imap_views.specs.Envelopes.{HasEnvelope};
ghost use Rattle.imap_views.specs.Fields.{HasSomeBlock};
ghost use Rattle.imap_views.specs.Strings.{AddsText};
ghost use Rattle.imap_views.specs.Structures.{IsForm, IsMessageForm, IsMultipartForm, HasStructure, ended_lines, header_at, lines_in, leaf_form, part_extension, multipart_extension};
ghost use Rattle.imap_views.specs.private.Reading.{HasChildren, IsInPlace, IsSeeing, IsStanding, goes_on_counting, part_value, seen_by};

use crate::envelopes::envelope_of;
use crate::headers::read_header;
use crate::parts::{PartWords, push_basic_words, push_sub_type, read_part};
use crate::ranges;
use crate::strings::{push_after_space, push_number};
use mail_wire::{Items, Memory, Octets, PIECE, Span};
use mime_tree::Shape;
use std::alloc::Global;
use surrogate_rope::{Outline, Shown};

// How many levels of entities a message has at most.
const LEVELS: u32 = 33;

/// What is shown of a message, its entities, the numbers of those that are directly in each, and whether the structure is
/// told with what extends it.
#[derive(Drop)]
pub struct Seeing<'a> {
    pub shown: &'a Shown,
    pub msg: &'a [u8],
    pub outlines: Vec<Outline>,
    pub children: Vec<Items<usize>>,
    pub extended: bool,
}

// An entity: its number, whether it is in a digest, and how many levels of entities, with itself, it may have.
#[derive(Clone, Copy)]
struct Place {
    levels: u32,
    digest: bool,
    number: usize,
}

// So many empty lists.
fn empty_lists(alloc: Global, count: usize) -> Result<Vec<Items<usize>>, Memory>
    ensures { IfOk result (λ lists. lists.items ≡ replicate count []) }
{
    let mut lists: Vec<Items<usize>> = Vec::new(alloc);
    for _ in 0..count {
        lists.push(Items::new(alloc))?;
    }
    Ok(lists)
}

// Puts a number last in the list of this place, if there is one.
fn push_at(lists: &mut Vec<Items<usize>>, place: usize, number: usize) -> Result<(), Memory>
    ensures { OnOk result (lists.new.items ≡ set lists.old.items place (slice_index_or lists.old.items place [] ++ number ∷ [])) }
{
    if place < lists.len() {
        lists[place].push(number)?;
    }
    Ok(())
}

// The numbers of the entities that are directly in each.
fn children_of(alloc: Global, outlines: &[Outline]) -> Result<Vec<Items<usize>>, Memory>
    ensures { IfOk result (λ children. HasChildren (map seen_outline outlines.now) children.items) }
{
    let mut children = empty_lists(alloc, outlines.len())?;
    for (number, outline) in outlines.iter().enumerate() {
        if let Some(parent) = outline.parent {
            push_at(&mut children, parent, number)?;
        }
    }
    Ok(children)
}

// The octets that are shown between two places.
fn read_range(alloc: Global, seeing: &Seeing<'_>, from: usize, to: usize) -> Result<Octets, Memory>
    requires shown { IsSeeing seeing.now }
    requires order { from ≤ to }
    requires within { to ≤ length (seen_by seeing.now).octets }
    ensures { IfOk result (λ made. made ≡ slice_range (seen_by seeing.now).octets from to) }
{
    let span = Span {
        at: from,
        len: to - from,
    };
    ranges::read_range(alloc, seeing.shown, seeing.msg, span)
}

// Counts the lines that end in octets, where a CR stands before them or not, and tells whether a CR is the last octet.
fn count_ends(octets: &[u8], is_after_cr: bool) -> (usize, bool)
    ensures { (rest : List ℕ) → result.0 + goes_on_counting result.1 rest ≡ goes_on_counting is_after_cr (octets.now ++ rest) }
{
    let mut count = 0;
    let mut is_after_cr = is_after_cr;
    for octet in octets {
        if is_after_cr && *octet == b'\n' {
            count += 1;
        }
        is_after_cr = *octet == b'\r';
    }
    (count, is_after_cr)
}

// How many lines end in what is shown between two places.
fn count_lines(seeing: &Seeing<'_>, from: usize, to: usize) -> usize
    requires shown { IsSeeing seeing.now }
    requires order { from ≤ to }
    requires within { to ≤ length (seen_by seeing.now).octets }
    ensures { result ≡ ended_lines (slice_range (seen_by seeing.now).octets from to) }
{
    let mut piece = [0; PIECE];
    let mut at = from;
    let mut lines = 0;
    let mut is_after_cr = false;
    while at < to {
        let wanted = PIECE.min(to - at);
        let count = seeing.shown.read_at(seeing.msg, at, &mut piece[..wanted]);
        let (more, is_cr_last) = count_ends(&piece[..count], is_after_cr);
        lines += more;
        is_after_cr = is_cr_last;
        at += count;
    }
    lines
}

// Puts how many lines end in an entity's content last, after a space.
fn push_lines(
    alloc: Global,
    made: &mut Octets,
    seeing: &Seeing<'_>,
    outline: Outline,
) -> Result<(), Memory>
    requires shown { IsSeeing seeing.now }
    requires order { outline.body ≤ outline.end }
    requires within { outline.end ≤ length (seen_by seeing.now).octets }
    ensures { OnOk result (made.new ≡ made.old ++ 32 ∷ lines_in (seen_by seeing.now) (seen_outline outline)) }
{
    made.push(b' ')?;
    let lines = count_lines(seeing, outline.body, outline.end);
    push_number(alloc, made, lines)
}

// Puts what extends a part last.
fn push_part_extension(
    made: &mut Octets,
    seeing: &Seeing<'_>,
    part: &PartWords,
) -> Result<(), Memory>
    ensures { OnOk result (made.new ≡ made.old ++ part_extension (seen_by seeing.now) (part_value part.now)) }
{
    if !seeing.extended {
        return Ok(());
    }
    made.push_slice(b" NIL")?;
    push_after_space(made, part.disposition.as_slice())?;
    made.push_slice(b" NIL NIL")
}

// Puts what extends a multipart last.
fn push_multipart_extension(
    made: &mut Octets,
    seeing: &Seeing<'_>,
    part: &PartWords,
) -> Result<(), Memory>
    ensures { OnOk result (made.new ≡ made.old ++ multipart_extension (seen_by seeing.now) (part_value part.now)) }
{
    if !seeing.extended {
        return Ok(());
    }
    push_after_space(made, part.params.as_slice())?;
    push_after_space(made, part.disposition.as_slice())?;
    made.push_slice(b" NIL NIL")
}

// Puts the form of a part without parts last.
fn push_leaf(
    alloc: Global,
    made: &mut Octets,
    seeing: &Seeing<'_>,
    outline: Outline,
    part: &PartWords,
) -> Result<(), Memory>
    requires shown { IsSeeing seeing.now }
    requires order { outline.body ≤ outline.end }
    requires within { outline.end ≤ length (seen_by seeing.now).octets }
    ensures { OnOk result (made.new ≡ made.old ++ leaf_form (seen_by seeing.now) (seen_outline outline) (part_value part.now)) }
{
    made.push(b'(')?;
    push_basic_words(alloc, made, part, outline.end - outline.body)?;
    if part.main.as_slice().starts_with(b"text/") {
        push_lines(alloc, made, seeing, outline)?;
    }
    push_part_extension(made, seeing, part)?;
    made.push(b')')
}

// The envelope of the message that is this entity.
fn envelope_at(alloc: Global, seeing: &Seeing<'_>, outline: Outline) -> Result<Octets, Memory>
    requires shown { IsSeeing seeing.now }
    requires order { outline.at ≤ outline.body }
    requires within { outline.body ≤ length (seen_by seeing.now).octets }
    requires block { HasSomeBlock (header_at (seen_by seeing.now) (seen_outline outline)) }
    ensures { IfOk result (λ made. HasEnvelope (header_at (seen_by seeing.now) (seen_outline outline)) made) }
{
    let octets = read_range(alloc, seeing, outline.at, outline.body)?;
    let header = read_header(alloc, octets.as_slice())?;
    envelope_of(alloc, &header)
}

// Puts the form of a part that is a message last.
#[cycle(form)]
fn push_message(
    alloc: Global,
    made: &mut Octets,
    seeing: &Seeing<'_>,
    place: Place,
    outline: Outline,
    part: &PartWords,
) -> Result<(), Memory>
    requires shown { IsSeeing seeing.now }
    requires levels { 0 < place.levels }
    requires place { IsInPlace (seen_by seeing.now) place.number (seen_outline outline) }
    requires child { IsStanding (place.levels - 1) (seen_by seeing.now) (place.number + 1) }
    ensures { let seen = seen_by seeing.now in
        OnOk result (AddsText (IsMessageForm (IsForm (place.levels - 1) seen) seen place.number (seen_outline outline) (part_value part.now)) made.old made.new) }
{
    let child = Place {
        levels: place.levels - 1,
        digest: false,
        number: place.number + 1,
    };
    made.push(b'(')?;
    push_basic_words(alloc, made, part, outline.end - outline.body)?;
    made.push(b' ')?;
    made.push_slice(envelope_at(alloc, seeing, seeing.outlines[child.number])?.as_slice())?;
    made.push(b' ')?;
    push_form(alloc, made, seeing, child)?;
    push_lines(alloc, made, seeing, outline)?;
    push_part_extension(made, seeing, part)?;
    made.push(b')')
}

// Puts the form of a part with parts last.
#[cycle(form)]
fn push_multipart(
    alloc: Global,
    made: &mut Octets,
    seeing: &Seeing<'_>,
    place: Place,
    part: &PartWords,
) -> Result<(), Memory>
    requires shown { IsSeeing seeing.now }
    requires levels { 0 < place.levels }
    requires number { place.number < length (seen_by seeing.now).outlines }
    requires children { All (IsStanding (place.levels - 1) (seen_by seeing.now)) (children_from 0 (seen_by seeing.now).outlines place.number) }
    ensures { let seen = seen_by seeing.now in
        OnOk result (AddsText (IsMultipartForm (IsForm (place.levels - 1) seen) seen place.number (part_value part.now)) made.old made.new) }
{
    let digest = part.main.as_slice() == b"multipart/digest".as_slice();
    made.push(b'(')?;
    for number in seeing.children[place.number].as_slice() {
        let child = Place {
            levels: place.levels - 1,
            digest,
            number: *number,
        };
        push_form(alloc, made, seeing, child)?;
    }
    made.push(b' ')?;
    push_sub_type(made, part.main.as_slice())?;
    push_multipart_extension(made, seeing, part)?;
    made.push(b')')
}

// Puts the form of an entity last.
#[cycle(form)]
fn push_form(
    alloc: Global,
    made: &mut Octets,
    seeing: &Seeing<'_>,
    place: Place,
) -> Result<(), Memory>
    requires shown { IsSeeing seeing.now }
    requires standing { IsStanding place.levels (seen_by seeing.now) place.number }
    ensures { OnOk result (AddsText (IsForm place.levels (seen_by seeing.now) place.digest place.number) made.old made.new) }
{
    let outline = seeing.outlines[place.number];
    let octets = read_range(alloc, seeing, outline.at, outline.body)?;
    let header = read_header(alloc, octets.as_slice())?;
    let part = read_part(alloc, &header, place.digest)?;
    match outline.shape {
        Shape::Leaf => push_leaf(alloc, made, seeing, outline, &part),
        Shape::Message => push_message(alloc, made, seeing, place, outline, &part),
        Shape::Multipart => push_multipart(alloc, made, seeing, place, &part),
    }
}

/// Puts the structure of what is shown of a message last, as BODY tells it, or with what BODYSTRUCTURE adds.
pub fn structure(
    alloc: Global,
    shown: &Shown,
    msg: &[u8],
    extended: bool,
    out: &mut Octets,
) -> Result<(), Memory>
    requires { IsShownOf msg.now shown.now }
    ensures ok { OnOk result (AddsText (HasStructure (record { octets = shown_octets msg.now shown.now; outlines = shown_outlines shown.now; extended = extended })) out.old out.new) }
    ensures err { OnErr result (out.new ≡ out.old) }
{
    let outlines = shown.outlines(alloc)?;
    let children = children_of(alloc, &outlines)?;
    let seeing = Seeing {
        shown,
        msg,
        outlines,
        children,
        extended,
    };
    let whole = Place {
        levels: LEVELS,
        digest: false,
        number: 0,
    };
    let mut made = Octets::new(alloc);
    push_form(alloc, &mut made, &seeing, whole)?;
    out.push_slice(made.as_slice())
}
