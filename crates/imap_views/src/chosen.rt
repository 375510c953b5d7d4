//! Fields chosen by their names.
ghost use Rattle.std.specs.Prelude.{◌≡◌, ◌≤◌, ◌+◌, ℕ, List, length, filter, IfOk, OnOk, OnErr};
ghost use Rattle.std.specs.BTreeSet.{contains_by};
ghost use Rattle.std.specs.Cmp.Lexicographic.{slice_cmp};
ghost use Rattle.std.specs.Ordering.{nat_cmp};
ghost use Rattle.std.specs.List.{flat_map};
ghost use Rattle.utf8_fields.specs.Block.{raw_of, name_of};
ghost use Rattle.imap_views.specs.Chosen.{AreChosen, is_chosen};
ghost use Rattle.imap_views.specs.Fields.{HasSomeBlock};
ghost use Rattle.imap_views.specs.Strings.{AddsText};
ghost use Rattle.imap_views.specs.private.Reading.{IsRead, HoldsNames};

use crate::headers::{Header, read_header};
use mail_wire::{Memory, Octets};
use std::alloc::Global;
use std::collections::BTreeSet;
use utf8_fields::Field;

// Names in lower case.
type Names = BTreeSet<Vec<u8>>;

fn lower_names(alloc: Global, names: &[Octets]) -> Result<Names, Memory>
    ensures { IfOk result (λ lower. HoldsNames names.now (λ q. contains_by (λ key. slice_cmp nat_cmp q key.items) lower)) }
{
    let mut lower = BTreeSet::new(alloc);
    for name in names {
        lower.insert(name.as_slice().to_ascii_lowercase(alloc)?)?;
    }
    Ok(lower)
}

// Whether a field is chosen.
fn is_chosen(
    alloc: Global,
    header: &Header<'_>,
    field: &Field,
    names: &Names,
    negated: bool,
) -> Result<bool, Memory>
    requires { field.now.name.at + field.now.name.len ≤ length header.now.octets.now }
    ensures { (asked : List (List ℕ)) → HoldsNames asked (λ q. contains_by (λ key. slice_cmp nat_cmp q key.items) names.now)
        → IfOk result (λ is. is ≡ is_chosen asked negated (name_of header.now.octets.now field.now)) }
{
    let span = field.name;
    let name = header.octets[span.at..span.at + span.len].to_ascii_lowercase(alloc)?;
    Ok(names.contains(&name) != negated)
}

fn chosen_in(
    alloc: Global,
    header: &Header<'_>,
    names: &Names,
    negated: bool,
) -> Result<Octets, Memory>
    requires { IsRead header.now }
    ensures { (asked : List (List ℕ)) → HoldsNames asked (λ q. contains_by (λ key. slice_cmp nat_cmp q key.items) names.now)
        → IfOk result (λ made. made
        ≡ flat_map (raw_of header.now.octets.now) (filter (λ field. is_chosen asked negated (name_of header.now.octets.now field)) header.now.block.fields)) }
{
    let mut made = Octets::new(alloc);
    for field in header.block.fields.as_slice() {
        if is_chosen(alloc, header, field, names, negated)? {
            made.push_slice(&header.octets[field.raw.at..field.raw.at + field.raw.len])?;
        }
    }
    Ok(made)
}

/// Puts the fields of a header that have one of these names last, or all others, and an empty line. The time is that of
/// sorting the names and finding each field's name among them.
pub fn chosen_fields(
    alloc: Global,
    header: &[u8],
    names: &[Octets],
    negated: bool,
    out: &mut Octets,
) -> Result<(), Memory>
    requires { HasSomeBlock header.now }
    ensures ok { OnOk result (AddsText (AreChosen header.now names.now negated) out.old out.new) }
    ensures err { OnErr result (out.new ≡ out.old) }
{
    let header = read_header(alloc, header)?;
    let names = lower_names(alloc, names)?;
    let mut made = chosen_in(alloc, &header, &names, negated)?;
    made.push_slice(b"\r\n")?;
    out.push_slice(made.as_slice())
}
