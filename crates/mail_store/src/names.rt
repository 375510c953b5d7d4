//! The first account of each mailbox, by what the mailbox is known by.
ghost use Rattle.std.specs.Prelude.{◌≡◌, ℕ, List, OnOk, OnErr, None};
ghost use Rattle.kept_mail.specs.private.Names.{PutsName};
ghost use Rattle.mail_store.specs.private.Names.{number_hashed};

use mail_wire::Memory;
use std::alloc::Global;
use std::collections::HashMap;

/// The numbers of mailboxes. Whoever runs the system names them, so it is no harm that names can be found that collide.
pub type Mailboxes = HashMap<Vec<u8>, u32>;

/// Puts a number at a name, where none is there.
pub fn put_mailbox(
    alloc: Global,
    numbers: &mut Mailboxes,
    name: &[u8],
    number: u32,
) -> Result<(), Memory>
    ensures ok { OnOk result (PutsName (number_hashed numbers.old) (number_hashed numbers.new) name.now number) }
    ensures err { OnErr result ((q : List ℕ) → number_hashed numbers.new q ≡ number_hashed numbers.old q) }
{
    if numbers.contains_key(name) {
        return Ok(());
    }
    let key = Vec::from_slice(alloc, name)?;
    numbers.insert(key, number)?;
    Ok(())
}

/// Takes the number at a name away.
pub fn take_mailbox(numbers: &mut Mailboxes, name: &[u8])
    ensures gone { number_hashed numbers.new name.now ≡ None }
    ensures others { (q : List ℕ) → ¬ (q ≡ name.now) → number_hashed numbers.new q ≡ number_hashed numbers.old q }
{
    let _number = numbers.remove(name);
}

/// The number at a name.
pub fn mailbox_number(numbers: &Mailboxes, name: &[u8]) -> Option<u32>
    ensures { result ≡ number_hashed numbers.now name.now }
{
    numbers.get(name).copied()
}
