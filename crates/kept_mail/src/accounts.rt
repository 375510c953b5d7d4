//! Accounts, each with its INBOX.
ghost use Rattle.std.specs.Prelude.{◌≡◌, ◌≤◌, ◌<◌, ◌∷◌, ◌++◌, [], length, vec_len, vec_capacity, slice_get, IfOk, OnOk};
ghost use Rattle.journal_records.specs.Grammar.{inbox};
ghost use Rattle.kept_mail.specs.declared.limits.TheConstants.{THINGS_MAX};
ghost use Rattle.kept_mail.specs.Kept.{has_password};
ghost use Rattle.kept_mail.specs.private.Chains.{empty_content};

use crate::contents::{Content, EMPTY, push_reserved};
use crate::kept::{Account, Folder};
use mail_wire::{Memory as OutOfMemory, Octets};
use std::alloc::Global;

/// Makes room for an account and its folder, and the folder's name.
pub fn reserve_account(
    alloc: Global,
    accounts: &mut Vec<Account>,
    folders: &mut Vec<Folder>,
    contents: &mut Vec<Content>,
    inboxes: &mut Vec<u32>,
) -> Result<Octets, OutOfMemory>
    ensures name { IfOk result (λ name. name ≡ inbox) }
    ensures accounts { accounts.new.items ≡ accounts.old.items }
    ensures folders { folders.new.items ≡ folders.old.items }
    ensures contents { contents.new.items ≡ contents.old.items }
    ensures inboxes { inboxes.new.items ≡ inboxes.old.items }
    ensures account_room { OnOk result (vec_len accounts.new < vec_capacity accounts.new) }
    ensures folder_room { OnOk result (vec_len folders.new < vec_capacity folders.new) }
    ensures content_room { OnOk result (vec_len contents.new < vec_capacity contents.new) }
    ensures inbox_room { OnOk result (vec_len inboxes.new < vec_capacity inboxes.new) }
{
    accounts.reserve(1)?;
    folders.reserve(1)?;
    contents.reserve(1)?;
    inboxes.reserve(1)?;
    Octets::from_slice(alloc, b"INBOX")
}

/// Puts an account and its folder last, for which there is room.
pub fn put_account(
    accounts: &mut Vec<Account>,
    folders: &mut Vec<Folder>,
    contents: &mut Vec<Content>,
    inboxes: &mut Vec<u32>,
    own: Account,
    name: Octets,
)
    requires account_room { vec_len accounts.old < vec_capacity accounts.old }
    requires folder_room { vec_len folders.old < vec_capacity folders.old }
    requires content_room { vec_len contents.old < vec_capacity contents.old }
    requires inbox_room { vec_len inboxes.old < vec_capacity inboxes.old }
    requires few { length accounts.old.items ≤ THINGS_MAX }
    requires few_folders { length folders.old.items ≤ THINGS_MAX }
    ensures accounts { accounts.new.items ≡ accounts.old.items ++ own ∷ [] }
    ensures folders { folders.new.items ≡ folders.old.items ++ record { account = length accounts.old.items; name = name } ∷ [] }
    ensures contents { contents.new.items ≡ contents.old.items ++ empty_content ∷ [] }
    ensures inboxes { inboxes.new.items ≡ inboxes.old.items ++ length folders.old.items ∷ [] }
{
    let account = accounts.len() as u32;
    let folder = folders.len() as u32;
    push_reserved(accounts, own);
    push_reserved(folders, Folder { account, name });
    push_reserved(contents, EMPTY);
    push_reserved(inboxes, folder);
}

/// Whether there is such an account, and the password is its own.
pub fn has_password(accounts: &[Account], account: u32, password: &[u8]) -> bool
    ensures { result ≡ has_password (slice_get accounts.now account) password.now }
{
    match accounts.get(account as usize) {
        Some(account) => account.password.as_slice() == password,
        None => false,
    }
}
