//! The writer of parameters.
ghost use Rattle.std.specs.Prelude.{◌≡◌, ◌<◌, ◌≤◌, ◌||◌, ◌++◌, ◌↔◌, [], not, nat_lt, false, length, codes, OnOk, IsTrue, IsUtf8};
ghost use Rattle.std.specs.Str.{IsCharBoundary};
ghost use Rattle.encoded_words.specs.private.Values.{value_of};
ghost use Rattle.encoded_words.specs.Folding.{AddsLines};
ghost use Rattle.param_grammar.specs.Escapes.{escaped};
ghost use Rattle.param_2231.specs.Layout.{number_digits, charset_of as charset_value, octets_in as octets_value, IsPartOf, charset_part, whole_piece, numbered_piece, is_short as is_short_value, ParamPieces};
ghost use Rattle.param_2231.specs.private.Lines.{AddsAfter, line_after};
ghost use Rattle.param_2231.specs.private.Parts.{IsCuttable, IsWritableUnit, IsFitting, IsLastBoundary, IsLastEnd};
ghost use Rattle.param_2231.specs.WrittenParam.{ComesInParams, ReadsAsOne};

use encoded_words::Unit;
use itoa::Buffer;
use mail_wire::{Memory, Octets};
use param_grammar::{escaped_len, push_escaped};

// The most octets that spell a whole value, or a part of one.
const MOST: usize = 60;

// What a unit's charset is called.
fn charset_of(unit: &Unit) -> &[u8]
    ensures { result.now ≡ charset_value (value_of unit.now) }
{
    match unit {
        Unit::Text(_) => b"UTF-8",
        Unit::Opaque { charset, .. } => charset.as_slice(),
    }
}

fn octets_in(unit: &Unit) -> &[u8]
    ensures { result.now ≡ octets_value (value_of unit.now) }
{
    match unit {
        Unit::Text(octets) => octets.as_slice(),
        Unit::Opaque { octets, .. } => octets.as_slice(),
    }
}

// How many octets, from the first one on, are spelled by so few octets as one part may have.
fn fitting(octets: &[u8]) -> usize
    ensures { IsFitting octets.now result }
{
    let mut fits = 0;
    let mut spelled = 0;
    for octet in octets {
        let more = spelled + escaped_len(*octet);
        if more > MOST {
            return fits;
        }
        spelled = more;
        fits += 1;
    }
    fits
}

// Whether no character goes on at a place.
fn is_boundary(octets: &[u8], at: usize) -> bool
    requires { at ≤ length octets.now }
    ensures { IsTrue result ↔ IsCharBoundary octets.now at }
{
    at == octets.len() || !matches!(octets[at], 128..=191)
}

// The last place between two characters up to a place. It is at most three octets before that.
fn last_boundary(octets: &[u8], at: usize) -> usize
    requires bound { at ≤ length octets.now }
    requires utf8 { IsUtf8 octets.now }
    ensures { IsLastBoundary octets.now at result }
{
    let mut end = at;
    while !is_boundary(octets, end) {
        end -= 1;
    }
    end
}

// The last place up to a place where a part may end.
fn last_end(unit: &Unit, octets: &[u8], at: usize) -> usize
    requires bound { at ≤ length octets.now }
    requires text { IsCuttable (value_of unit.now) octets.now }
    ensures { IsLastEnd (value_of unit.now) octets.now at result }
{
    match unit {
        Unit::Text(_) => last_boundary(octets, at),
        Unit::Opaque { .. } => at,
    }
}

// The first part of octets, and the octets after it.
fn split_part<'a>(unit: &Unit, octets: &'a [u8]) -> (&'a [u8], &'a [u8])
    requires some { 0 < length octets.now }
    requires text { IsCuttable (value_of unit.now) octets.now }
    ensures whole { octets.now ≡ result.0.now ++ result.1.now }
    ensures part { IsPartOf (value_of unit.now) result.0.now result.1.now }
    ensures following { IsCuttable (value_of unit.now) result.1.now }
{
    octets.split_at(last_end(unit, octets, fitting(octets)))
}

// Puts a charset and no language last.
fn push_charset(made: &mut Octets, unit: &Unit) -> Result<(), Memory>
    ensures { OnOk result (made.new ≡ made.old ++ charset_part (value_of unit.now)) }
{
    made.push_slice(charset_of(unit))?;
    made.push_slice(b"''")
}

// Begins a line, with this put after the line before.
pub(crate) fn begin_line(made: &mut Octets, lead: &[u8]) -> Result<(), Memory>
    ensures { OnOk result (made.new ≡ made.old ++ line_after lead.now []) }
{
    made.push_slice(lead)?;
    made.push_slice(b"\r\n ")
}

// Puts a whole value last.
fn push_whole(name: &[u8], unit: &Unit, lead: &[u8], made: &mut Octets) -> Result<(), Memory>
    ensures { OnOk result (made.new ≡ made.old ++ line_after lead.now (whole_piece name.now (value_of unit.now))) }
{
    begin_line(made, lead)?;
    made.push_slice(name)?;
    made.push_slice(b"*=")?;
    push_charset(made, unit)?;
    push_escaped(made, octets_in(unit))
}

// Puts the digits of a number last.
fn push_number(piece: &mut Octets, number: usize) -> Result<(), Memory>
    ensures { OnOk result (piece.new ≡ piece.old ++ number_digits number) }
{
    let mut digits = Buffer::new();
    piece.push_slice(digits.format(number).as_bytes())
}

// Puts what stands before the value of a numbered piece last.
fn begin_piece(name: &[u8], number: usize, lead: &[u8], made: &mut Octets) -> Result<(), Memory>
    ensures { OnOk result (made.new ≡ made.old ++ line_after lead.now (name.now ++ codes "*" ++ number_digits number ++ codes "*=")) }
{
    begin_line(made, lead)?;
    made.push_slice(name)?;
    made.push(b'*')?;
    push_number(made, number)?;
    made.push_slice(b"*=")
}

// Puts the first of several pieces last.
fn push_first(
    name: &[u8],
    unit: &Unit,
    part: &[u8],
    lead: &[u8],
    made: &mut Octets,
) -> Result<(), Memory>
    ensures { OnOk result (made.new ≡ made.old ++ line_after lead.now (numbered_piece name.now 0 (charset_part (value_of unit.now) ++ escaped part.now))) }
{
    begin_piece(name, 0, lead, made)?;
    push_charset(made, unit)?;
    push_escaped(made, part)
}

// Puts another of several pieces last.
fn push_part(
    name: &[u8],
    number: usize,
    part: &[u8],
    lead: &[u8],
    made: &mut Octets,
) -> Result<(), Memory>
    ensures { OnOk result (made.new ≡ made.old ++ line_after lead.now (numbered_piece name.now number (escaped part.now))) }
{
    begin_piece(name, number, lead, made)?;
    push_escaped(made, part)
}

// Puts the pieces of a value that is not short last.
fn push_parts(name: &[u8], unit: &Unit, lead: &[u8], made: &mut Octets) -> Result<(), Memory>
    requires text { IsWritableUnit (value_of unit.now) }
    requires long { is_short_value (value_of unit.now) ≡ false }
    ensures { OnOk result (AddsAfter lead.now (ParamPieces false name.now (value_of unit.now)) made.old made.new) }
{
    let (first, following) = split_part(unit, octets_in(unit));
    push_first(name, unit, first, lead, made)?;
    let mut rest = following;
    let mut number = 1;
    while !rest.is_empty() {
        let (part, after) = split_part(unit, rest);
        push_part(name, number, part, lead, made)?;
        number += 1;
        rest = after;
    }
    Ok(())
}

// Whether octets are spelled by so few octets as one part may have.
fn is_short(octets: &[u8]) -> bool
    ensures { result ≡ not (nat_lt 60 (length (escaped octets.now))) }
{
    fitting(octets) == octets.len()
}

// Whether a value is to be written whole.
fn is_whole(unit: &Unit, whole: bool) -> bool
    ensures { result ≡ (whole || is_short_value (value_of unit.now)) }
{
    whole || is_short(octets_in(unit))
}

// Puts the pieces of a parameter last: one, where it has to be whole.
pub(crate) fn push_param(
    name: &[u8],
    unit: &Unit,
    whole: bool,
    lead: &[u8],
    made: &mut Octets,
) -> Result<(), Memory>
    requires { IsWritableUnit (value_of unit.now) }
    ensures { OnOk result (AddsAfter lead.now (ParamPieces whole name.now (value_of unit.now)) made.old made.new) }
{
    if is_whole(unit, whole) {
        return push_whole(name, unit, lead, made);
    }
    push_parts(name, unit, lead, made)
}

/// Puts the pieces of a parameter last, each on a line of its own after a space. After want of memory a front of these lines
/// was put.
pub fn write_param(name: &[u8], value: &Unit, made: &mut Octets) -> Result<(), Memory>
    requires { ComesInParams name.now (value_of value.now) }
    ensures layout { OnOk result (AddsLines (ParamPieces false name.now (value_of value.now)) made.old made.new) }
    ensures read_back { OnOk result (AddsLines (ReadsAsOne name.now (value_of value.now)) made.old made.new) }
{
    push_param(name, value, false, b"", made)
}
