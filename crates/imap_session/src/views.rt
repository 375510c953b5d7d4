//! Views of a message, as FETCH tells them: its envelope, its structure, and fields that were chosen (RFC 3501, 7.4.2).
ghost use Rattle.std.specs.Prelude.{◌≡◌, codes, IfOk, OnOk};
ghost use Rattle.surrogate_rope.specs.Served.{IsShownOf, shown_octets};
ghost use Rattle.imap_views.specs.Fields.{HasSomeBlock};
ghost use Rattle.imap_views.specs.Views.{envelope as envelope_of, structure as structure_of};
ghost use Rattle.imap_session.specs.private.Asking.{AddsFields};
ghost use Rattle.imap_session.specs.private.Viewing.{AddsView, header_shown, structure_words};

use crate::sections::{Asked, Chosen, partial_span, push_head};
use imap_views::{chosen_fields, envelope, read_range, structure};
use mail_wire::{Memory, Octets, Span};
use mime_tree::Part;
use std::alloc::Global;
use surrogate_rope::Shown;

// The header of what is shown of a message.
fn read_header(alloc: Global, shown: &Shown, msg: &[u8]) -> Result<Octets, Memory>
    requires { IsShownOf msg.now shown.now }
    ensures header { IfOk result (λ header. header ≡ header_shown msg.now shown.now) }
    ensures block { IfOk result (λ header. HasSomeBlock header) }
{
    match shown.section(&[], Part::Header) {
        Some(span) => read_range(alloc, shown, msg, span),
        // A message has a header.
        None => unreachable!(),
    }
}

/// Puts the envelope of what is shown of a message last, after its name.
pub fn put_envelope(
    alloc: Global,
    shown: &Shown,
    msg: &[u8],
    pending: &mut Octets,
) -> Result<(), Memory>
    requires { IsShownOf msg.now shown.now }
    ensures { OnOk result (AddsView (codes "ENVELOPE ") envelope_of (header_shown msg.now shown.now) pending.old pending.new) }
{
    let header = read_header(alloc, shown, msg)?;
    pending.push_slice(b"ENVELOPE ")?;
    envelope(alloc, header.as_slice(), pending)
}

fn structure_word(extended: bool) -> &'static [u8]
    ensures { result.now ≡ structure_words extended }
{
    if extended {
        b"BODYSTRUCTURE "
    } else {
        b"BODY "
    }
}

/// Puts the structure of what is shown of a message last, after its name.
pub fn put_structure(
    alloc: Global,
    shown: &Shown,
    msg: &[u8],
    extended: bool,
    pending: &mut Octets,
) -> Result<(), Memory>
    requires { IsShownOf msg.now shown.now }
    ensures { OnOk result (AddsView (structure_words extended) (structure_of extended) (shown_octets msg.now shown.now) pending.old pending.new) }
{
    pending.push_slice(structure_word(extended))?;
    structure(alloc, shown, msg, extended, pending)
}

/// Puts fields of a header last as a literal, or the part of them that was asked.
pub fn put_fields(
    alloc: Global,
    asked: &Asked<'_>,
    chosen: Chosen<'_>,
    header: &[u8],
    pending: &mut Octets,
) -> Result<(), Memory>
    requires { HasSomeBlock header.now }
    ensures { OnOk result (AddsFields asked.now chosen.entry header.now pending.old pending.new) }
{
    let mut text = Octets::new(alloc);
    chosen_fields(alloc, header, chosen.names, chosen.negated, &mut text)?;
    let whole = Span {
        at: 0,
        len: text.len(),
    };
    let span = partial_span(asked.partial, whole);
    push_head(alloc, pending, asked, span.len)?;
    pending.push_slice(&text.as_slice()[span.at..span.at + span.len])
}
