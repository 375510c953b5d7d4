//! The first number of each name.
ghost use Rattle.std.specs.Prelude.{◌≡◌, ℕ, List, OnOk, OnErr, None};
ghost use Rattle.kept_mail.specs.private.Names.{number_named, PutsName};

use mail_wire::Memory;
use std::alloc::Global;
use std::collections::BTreeMap;

/// Puts a number at a name, where none is there.
pub fn put_first(
    alloc: Global,
    numbers: &mut BTreeMap<Vec<u8>, u32>,
    name: &[u8],
    number: u32,
) -> Result<(), Memory>
    ensures ok { OnOk result (PutsName (number_named numbers.old) (number_named numbers.new) name.now number) }
    ensures err { OnErr result ((q : List ℕ) → number_named numbers.new q ≡ number_named numbers.old q) }
{
    if numbers.contains_key(name) {
        return Ok(());
    }
    let key = Vec::from_slice(alloc, name)?;
    numbers.insert(key, number)?;
    Ok(())
}

/// Takes the number at a name away.
pub fn take_back(numbers: &mut BTreeMap<Vec<u8>, u32>, name: &[u8])
    ensures gone { number_named numbers.new name.now ≡ None }
    ensures others { (q : List ℕ) → ¬ (q ≡ name.now) → number_named numbers.new q ≡ number_named numbers.old q }
{
    let _number = numbers.remove(name);
}

/// The number at a name.
pub fn number_of(numbers: &BTreeMap<Vec<u8>, u32>, name: &[u8]) -> Option<u32>
    ensures { result ≡ number_named numbers.now name.now }
{
    numbers.get(name).copied()
}
