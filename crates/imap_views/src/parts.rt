//! What a part says of itself in its header block.
ghost use Rattle.std.specs.Prelude.{◌≡◌, ◌++◌, ◌∷◌, codes, IfOk, OnOk};
ghost use Rattle.mime_tree.specs.Openings.{IsFirstValue};
ghost use Rattle.imap_views.specs.Parts.{IsByFirst, IsDispositionBy, IsEncodingBy, IsTypeBy, SaysPart, main_type, sub_type};
ghost use Rattle.imap_views.specs.Structures.{basic_words};
ghost use Rattle.imap_views.specs.private.Reading.{IsRead, other_words, part_value, raws_in};

use crate::headers::Header;
use crate::params::{disposition_of, encoding_of, type_of};
use crate::strings::{push_after_space, push_nstring, push_number, slice_of, split_mark};
use address_grammar::push_quoted_string;
use mail_wire::{Memory, Octets};
use std::alloc::Global;

/// A part's own words: its type in lower case, its parameters as a list, and what its other fields say.
#[derive(Drop)]
pub struct PartWords {
    pub main: Octets,
    pub params: Octets,
    pub id: Option<Octets>,
    pub description: Option<Octets>,
    pub encoding: Octets,
    pub disposition: Octets,
}

// The type that a part says it has, in lower case, and its parameters as a list.
fn type_said(alloc: Global, header: &Header<'_>, digest: bool) -> Result<(Octets, Octets), Memory>
    requires { IsRead header.now }
    ensures { IfOk result (λ said. IsByFirst (codes "Content-Type") (IsTypeBy digest) (raws_in header.now) (record { main = said.0; params = said.1 })) }
{
    let value = header.first(alloc, b"Content-Type")?;
    type_of(alloc, &value, digest)
}

fn encoding_said(alloc: Global, header: &Header<'_>) -> Result<Octets, Memory>
    requires { IsRead header.now }
    ensures { IfOk result (λ name. IsByFirst (codes "Content-Transfer-Encoding") IsEncodingBy (raws_in header.now) name) }
{
    let value = header.first(alloc, b"Content-Transfer-Encoding")?;
    encoding_of(alloc, &value)
}

fn disposition_said(alloc: Global, header: &Header<'_>) -> Result<Octets, Memory>
    requires { IsRead header.now }
    ensures { IfOk result (λ form. IsByFirst (codes "Content-Disposition") IsDispositionBy (raws_in header.now) form) }
{
    let value = header.first(alloc, b"Content-Disposition")?;
    disposition_of(alloc, &value)
}

// What a part's id and its description say.
fn texts_said(
    alloc: Global,
    header: &Header<'_>,
) -> Result<(Option<Octets>, Option<Octets>), Memory>
    requires { IsRead header.now }
    ensures id { IfOk result (λ said. IsFirstValue (codes "Content-ID") (raws_in header.now) said.0) }
    ensures description { IfOk result (λ said. IsFirstValue (codes "Content-Description") (raws_in header.now) said.1) }
{
    let id = header.first(alloc, b"Content-ID")?;
    let description = header.first(alloc, b"Content-Description")?;
    Ok((id, description))
}

/// Reads what a part says of itself.
pub fn read_part(alloc: Global, header: &Header<'_>, digest: bool) -> Result<PartWords, Memory>
    requires { IsRead header.now }
    ensures { IfOk result (λ words. SaysPart digest (raws_in header.now) (part_value words)) }
{
    let (main, params) = type_said(alloc, header, digest)?;
    let (id, description) = texts_said(alloc, header)?;
    let encoding = encoding_said(alloc, header)?;
    let disposition = disposition_said(alloc, header)?;
    Ok(PartWords {
        main,
        params,
        id,
        description,
        encoding,
        disposition,
    })
}

fn push_main_type(made: &mut Octets, main: &[u8]) -> Result<(), Memory>
    ensures { OnOk result (made.new ≡ made.old ++ main_type main.now) }
{
    let (main, _) = split_mark(main, b'/');
    push_quoted_string(made, main)
}

/// Puts a subtype last.
pub fn push_sub_type(made: &mut Octets, main: &[u8]) -> Result<(), Memory>
    ensures { OnOk result (made.new ≡ made.old ++ sub_type main.now) }
{
    let (_, sub) = split_mark(main, b'/');
    push_quoted_string(made, sub)
}

// Puts id, description and encoding last, each after a space.
fn push_other_words(made: &mut Octets, part: &PartWords) -> Result<(), Memory>
    ensures { OnOk result (made.new ≡ made.old ++ other_words (part_value part.now)) }
{
    made.push(b' ')?;
    push_nstring(made, slice_of(&part.id))?;
    made.push(b' ')?;
    push_nstring(made, slice_of(&part.description))?;
    made.push(b' ')?;
    push_quoted_string(made, part.encoding.as_slice())
}

/// Puts type, subtype, parameters, id, description, encoding and size last.
pub fn push_basic_words(
    alloc: Global,
    made: &mut Octets,
    part: &PartWords,
    size: usize,
) -> Result<(), Memory>
    ensures { OnOk result (made.new ≡ made.old ++ basic_words (part_value part.now) size) }
{
    push_main_type(made, part.main.as_slice())?;
    made.push(b' ')?;
    push_sub_type(made, part.main.as_slice())?;
    push_after_space(made, part.params.as_slice())?;
    push_other_words(made, part)?;
    made.push(b' ')?;
    push_number(alloc, made, size)
}
