//! The cores of a body, and what is copied between them.
ghost use Rattle.std.specs.Prelude.{◌≡◌, ◌++◌, [], not, OnOk, IfOk, IsTrue, IsUtf8};
ghost use Rattle.std.specs.List.{list_all};
ghost use Rattle.mail_wire.specs.Folds.{IsFolded, unfolded};
ghost use Rattle.mail_wire.specs.Octets.{is_line_end as is_line_end_octet};
ghost use Rattle.encoded_words.specs.Folding.{AddsWordLines};
ghost use Rattle.field_downgrade.specs.Layout.{CutsLeft, CutsRight};
ghost use Rattle.field_downgrade.specs.private.Steps.{NeedsRun};
ghost use Rattle.field_downgrade.specs.private.Stretches.{CanWriteStretches, WritesStretches, WritesUnstructuredBody};

use crate::global_bodies::is_line_end;
use crate::lines::push_copied_line;
use crate::words::{Stretch, split_core, split_gap, split_low};
use encoded_words::push_words;
use mail_wire::{Memory, Octets, push_unfolded, unfold};
use std::alloc::Global;

/// What stands beside a core: an end of the value, an encoded word, or another word.
#[derive(Clone, Copy)]
pub enum Side {
    Edge,
    Encoded,
    Plain,
}

// The white octet before a core's first encoded word, and the part of the run before the core that goes into its text.
fn cut_left(side: Side, run: &[u8]) -> (u8, &[u8])
    requires { NeedsRun side run.now }
    ensures { CutsLeft side run.now result.1.now result.0 }
{
    match side {
        Side::Edge => (b' ', &[]),
        Side::Encoded => (b' ', run),
        Side::Plain => match run {
            [white, part @ ..] => (*white, part),
            [] => unreachable!(),
        },
    }
}

// The part of the run after a core that goes into its text, and the white octet before what is copied next.
fn cut_right(side: Side, run: &[u8]) -> (&[u8], u8)
    requires { NeedsRun side run.now }
    ensures { CutsRight side run.now result.0.now result.1 }
{
    match side {
        Side::Edge => (&[], b' '),
        Side::Encoded => (run, b' '),
        Side::Plain => match run {
            [part @ .., white] => (part, *white),
            [] => unreachable!(),
        },
    }
}

fn has_no_line_end(octets: &[u8]) -> bool
    ensures { result ≡ list_all (λ x. not (is_line_end_octet x)) octets.now }
{
    octets.iter().all(|octet| !is_line_end(*octet))
}

// Whether a core is the text of its encoded words.
fn is_whole_text(left: &[u8], core: &[u8], right: &[u8]) -> bool
    ensures { IsTrue result → (left.now ++ unfolded core.now) ++ right.now ≡ core.now }
{
    match (left, right) {
        ([], []) => has_no_line_end(core),
        _ => false,
    }
}

// No octets, and room for so many.
fn room_for(alloc: Global, count: usize) -> Result<Octets, Memory>
    ensures { IfOk result (λ made. made ≡ []) }
{
    Ok(Octets::from_vec(Vec::with_capacity(alloc, count)?))
}

// Puts the lines of a core's encoded words last. Its text has these parts of the runs beside it.
fn push_joined(
    alloc: Global,
    made: &mut Octets,
    white: u8,
    left: &[u8],
    core: &[u8],
    right: &[u8],
) -> Result<(), Memory>
    requires { IsUtf8 ((left.now ++ unfolded core.now) ++ right.now) }
    ensures { OnOk result (AddsWordLines ((left.now ++ unfolded core.now) ++ right.now) white made.old made.new) }
{
    let count = left
        .len()
        .saturating_add(core.len())
        .saturating_add(right.len());
    let mut text = room_for(alloc, count)?;
    text.push_slice(left)?;
    push_unfolded(&mut text, core)?;
    text.push_slice(right)?;
    push_words(made, white, text.as_slice())
}

// The same. A core that is the whole text is encoded where it stands.
fn push_core(
    alloc: Global,
    made: &mut Octets,
    white: u8,
    left: &[u8],
    core: &[u8],
    right: &[u8],
) -> Result<(), Memory>
    requires { IsUtf8 ((left.now ++ unfolded core.now) ++ right.now) }
    ensures { OnOk result (AddsWordLines ((left.now ++ unfolded core.now) ++ right.now) white made.old made.new) }
{
    if is_whole_text(left, core, right) {
        push_words(made, white, core)
    } else {
        push_joined(alloc, made, white, left, core, right)
    }
}

// Puts the pieces of a core last, and of the words after it that are copied.
fn write_segment(
    alloc: Global,
    before: &Stretch<'_>,
    core: &Stretch<'_>,
    copied: &Stretch<'_>,
    made: &mut Octets,
) -> Result<(), Memory>
    requires { CanWriteStretches before.now core.now copied.now }
    ensures { OnOk result (WritesStretches before.now core.now copied.now made.old made.new) }
{
    let left_run = unfold(alloc, before.gap)?;
    let (white, left) = cut_left(before.last, left_run.as_slice());
    let right_run = unfold(alloc, core.gap)?;
    let (right, next) = cut_right(copied.first, right_run.as_slice());
    push_core(alloc, made, white, left, core.octets, right)?;
    push_copied_line(made, next, copied.octets)
}

/// Puts the lines of an unstructured body's words last.
pub fn write_body(alloc: Global, body: &[u8], made: &mut Octets) -> Result<(), Memory>
    requires folded { IsFolded body.now }
    requires utf8 { IsUtf8 body.now }
    ensures { OnOk result (WritesUnstructuredBody body.now made.old made.new) }
{
    let (_, words) = split_gap(body);
    let (mut copied, mut rest) = split_low(alloc, words)?;
    push_copied_line(made, b' ', copied.octets)?;
    while !rest.is_empty() {
        let (core, following) = split_core(alloc, rest)?;
        let (next_copied, next) = split_low(alloc, following)?;
        write_segment(alloc, &copied, &core, &next_copied, made)?;
        copied = next_copied;
        rest = next;
    }
    Ok(())
}
