//! Reads and writes header blocks.
ghost use Rattle.std.specs.Prelude.{◌≡◌, ◌≢◌, ◌⊎◌, ℕ, ◌+◌, ◌^◌, ◌<◌, ◌≤◌, ◌↔◌, List, length, take, drop, IsTrue, IfSome, IsNone, IfOk, IfErr, IsErrAnd, MatchResult, IsUtf8};
ghost use Rattle.std.specs.List.{All, flat_map};
ghost use Rattle.mail_wire.specs.Lines.{lines_of};
ghost use Rattle.mail_wire.specs.Message.{IsSound};
ghost use Rattle.utf8_fields.specs.declared.block.Field.{Field};
ghost use Rattle.utf8_fields.specs.declared.block.FieldFault.{FieldFault};
ghost use Rattle.utf8_fields.specs.Lines.{BeginsField, BeginsWhite};
ghost use Rattle.utf8_fields.specs.Parts.{IsField};
ghost use Rattle.utf8_fields.specs.Block.{EndsBlock, HasBlock, HasBlockIn, raw_of};
ghost use Rattle.utf8_fields.specs.Named.{HasFieldName};
ghost use Rattle.utf8_fields.specs.Faults.{IsFault, IsFaultIn};
ghost use Rattle.utf8_fields.specs.private.Steps.{BeginsColon, IsBadLine, AreFurther, IsBadFurther, EndsField, IsNextField};

use crate::block::{Block, Field, FieldFault, Fields};
use crate::parts::split_name;
use mail_wire::{Memory, Octets, Span, first_faulty, is_ascii, is_white, line_len, split_white};
use std::alloc::Global;

// Whether a colon comes first.
fn begins_colon(octets: &[u8]) -> bool
    ensures { IsTrue result ↔ BeginsColon octets.now }
{
    matches!(octets, [b':', ..])
}

// How long the name is of the field that the line begins.
fn name_len(line: &[u8]) -> Option<usize>
    ensures some { IfSome result (λ len. BeginsField (take len line.now) line.now) }
    ensures none { IsNone result → (name : List ℕ) → ¬ BeginsField name line.now }
{
    let (name, rest) = split_name(line);
    let (_, after) = split_white(rest);
    if !name.is_empty() && begins_colon(after) {
        Some(name.len())
    } else {
        None
    }
}

// Whether white comes first.
fn begins_white(octets: &[u8]) -> bool
    ensures { IsTrue result ↔ BeginsWhite octets.now }
{
    octets.first().is_some_and(|octet| is_white(*octet))
}

// Whether nothing or an empty line comes first.
fn ends_block(octets: &[u8]) -> bool
    ensures { IsTrue result ↔ EndsBlock (lines_of octets.now) }
{
    octets.is_empty() || octets.starts_with(b"\r\n")
}

// Whether the line has no NUL, no CR that LF doesn't follow and no LF that CR doesn't precede.
fn is_sound(line: &[u8]) -> bool
    ensures { IsTrue result ↔ IsSound line.now }
{
    first_faulty(line).is_none()
}

// Whether a line is UTF-8. Most are ASCII, and that is sooner seen. The baseline goes by comparisons, many octets
// together: the shuffles of the other way are done octet by octet.
fn is_utf8(line: &[u8]) -> bool
    ensures { IsTrue result ↔ IsUtf8 line.now }
{
    is_ascii(line) || simdutf8::is_utf8_baseline(line)
}

// Passes a line that is sound and well-formed UTF-8. It stands at `at`.
fn check_line(line: &[u8], at: usize) -> Result<(), FieldFault>
    requires { at + length line.now < 2 ^ 64 }
    ensures sound { IfOk result (λ _. IsSound line.now) }
    ensures utf8 { IfOk result (λ _. IsUtf8 line.now) }
    ensures bad { IfErr result (IsBadLine at line.now) }
{
    if !is_sound(line) {
        return Err(FieldFault::NotField { at });
    }
    // most lines pass, and this test is much faster than the one that tells a place
    if is_utf8(line) {
        return Ok(());
    }
    match simdutf8::compat::from_utf8(line) {
        Ok(_) => Ok(()),
        Err(error) => Err(FieldFault::NotUtf8 {
            at: at + error.valid_up_to(),
        }),
    }
}

// How long the further lines of a field are. They come first, at `at`.
fn further_len(octets: &[u8], at: usize) -> Result<usize, FieldFault>
    requires { at + length octets.now < 2 ^ 64 }
    ensures lines { IfOk result (AreFurther octets.now) }
    ensures ends { IfOk result (λ len. EndsField (lines_of (drop len octets.now))) }
    ensures bad { IfErr result (IsBadFurther octets.now at) }
{
    let mut len = 0;
    let mut rest = octets;
    while begins_white(rest) {
        let (line, after) = rest.split_at(line_len(rest));
        check_line(line, at + len)?;
        len += line.len();
        rest = after;
    }
    Ok(len)
}

// Reads the field at `at`, where the block goes on.
fn read_field(octets: &[u8], at: usize) -> Result<Field, FieldFault>
    requires fits { at ≤ length octets.now }
    requires goes_on { ¬ EndsBlock (lines_of (drop at octets.now)) }
    ensures field { IfOk result (IsNextField octets.now at) }
    ensures fault { IfErr result (IsFaultIn (lines_of (drop at octets.now)) at) }
{
    let (_, rest) = octets.split_at(at);
    let (first, others) = rest.split_at(line_len(rest));
    let Some(name) = name_len(first) else {
        return Err(FieldFault::NotField { at });
    };
    check_line(first, at)?;
    let further = further_len(others, at + first.len())?;
    Ok(Field {
        name: Span { at, len: name },
        raw: Span {
            at,
            len: first.len() + further,
        },
    })
}

/// Reads the header block that stands at `start`.
pub fn read_block_at(alloc: Global, octets: &[u8], start: usize) -> Result<Block, FieldFault>
    requires { start ≤ length octets.now }
    ensures block { IfOk result (λ block. HasBlockIn (lines_of (drop start octets.now)) start block.fields block.end) }
    ensures fault { IfErr result (IsFaultIn (lines_of (drop start octets.now)) start) }

    // Where the octets have a block or a fault, that is the answer, unless memory is wanting.
    ensures exact { (fields : List Field) (end : ℕ) → HasBlockIn (lines_of (drop start octets.now)) start fields end →
        MatchResult result (λ block. (block.fields ≡ fields) × (block.end ≡ end)) (λ fault. fault ≡ FieldFault.Memory) }
    ensures exact_fault { (fault : FieldFault) → IsFaultIn (lines_of (drop start octets.now)) start fault → fault ≢ FieldFault.Memory →
        IsErrAnd result (λ found. (found ≡ fault) ⊎ (found ≡ FieldFault.Memory)) }

    // Each raw field has its parts, and the name span holds the name.
    ensures parts { IfOk result (λ block. All (λ field. IsField (raw_of octets.now field)) block.fields) }
    ensures names { IfOk result (λ block. All (HasFieldName octets.now) block.fields) }
    ensures bound { IfOk result (λ block. (start ≤ block.end) × (block.end ≤ length octets.now)) }
    ensures within { IfOk result (λ block. All (λ field. field.raw.at + field.raw.len ≤ length octets.now) block.fields) }
{
    let mut fields = Fields::new(alloc);
    let mut at = start;
    while !ends_block(&octets[at..]) {
        let field = read_field(octets, at)?;
        fields.push(field)?;
        at += field.raw.len;
    }
    Ok(Block { fields, end: at })
}

/// Reads the header block that the octets begin with.
pub fn read_block(alloc: Global, octets: &[u8]) -> Result<Block, FieldFault>
    ensures block { IfOk result (λ block. HasBlock octets.now block.fields block.end) }
    ensures fault { IfErr result (IsFault octets.now) }

    // Where the octets have a block or a fault, that is the answer, unless memory is wanting.
    ensures exact { (fields : List Field) (end : ℕ) → HasBlock octets.now fields end →
        MatchResult result (λ block. (block.fields ≡ fields) × (block.end ≡ end)) (λ fault. fault ≡ FieldFault.Memory) }
    ensures exact_fault { (fault : FieldFault) → IsFault octets.now fault → fault ≢ FieldFault.Memory →
        IsErrAnd result (λ found. (found ≡ fault) ⊎ (found ≡ FieldFault.Memory)) }

    // Each raw field has its parts, and the name span holds the name.
    ensures parts { IfOk result (λ block. All (λ field. IsField (raw_of octets.now field)) block.fields) }
    ensures names { IfOk result (λ block. All (HasFieldName octets.now) block.fields) }
    ensures bound { IfOk result (λ block. block.end ≤ length octets.now) }
    ensures within { IfOk result (λ block. All (λ field. field.raw.at + field.raw.len ≤ length octets.now) block.fields) }
{
    match read_block_at(alloc, octets, 0) {
        Ok(block) => Ok(block),
        Err(fault) => Err(fault),
    }
}

/// Gives the raw fields of the block that the octets have.
pub fn write_block(alloc: Global, octets: &[u8], block: &Block) -> Result<Octets, Memory>
    requires { HasBlock octets.now block.now.fields block.now.end }
    ensures fields { IfOk result (λ made. made ≡ flat_map (raw_of octets.now) block.now.fields) }
    ensures joined { IfOk result (λ made. made ≡ take block.now.end octets.now) }
{
    let mut made = Octets::new(alloc);
    for field in block.fields.as_slice() {
        made.push_slice(&octets[field.raw.at..field.raw.at + field.raw.len])?;
    }
    Ok(made)
}
