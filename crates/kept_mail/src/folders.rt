//! Folders, and the names of an account's.
ghost use Rattle.std.specs.Prelude.{◌≡◌, ◌<◌, ◌∷◌, ◌++◌, [], vec_len, vec_capacity, IfOk, OnOk};
ghost use Rattle.kept_mail.specs.Kept.{names_among};
ghost use Rattle.kept_mail.specs.private.Chains.{empty_content};
ghost use Rattle.kept_mail.specs.private.Names.{folder_key};

use crate::contents::{Content, EMPTY, push_reserved};
use crate::kept::Folder;
use mail_wire::{Memory as OutOfMemory, Octets};
use std::alloc::Global;

/// What an account's folder of this name is known by.
pub fn folder_key(alloc: Global, account: u32, name: &[u8]) -> Result<Octets, OutOfMemory>
    ensures { IfOk result (λ key. key ≡ folder_key account name.now) }
{
    let mut key = Octets::from_slice(alloc, &account.to_be_bytes())?;
    key.push_slice(name)?;
    Ok(key)
}

/// Makes room for a folder.
pub fn reserve_folder(
    folders: &mut Vec<Folder>,
    contents: &mut Vec<Content>,
) -> Result<(), OutOfMemory>
    ensures folders { folders.new.items ≡ folders.old.items }
    ensures contents { contents.new.items ≡ contents.old.items }
    ensures folder_room { OnOk result (vec_len folders.new < vec_capacity folders.new) }
    ensures content_room { OnOk result (vec_len contents.new < vec_capacity contents.new) }
{
    folders.reserve(1)?;
    contents.reserve(1)?;
    Ok(())
}

/// Puts a folder last, for which there is room.
pub fn put_folder(folders: &mut Vec<Folder>, contents: &mut Vec<Content>, own: Folder)
    requires folder_room { vec_len folders.old < vec_capacity folders.old }
    requires content_room { vec_len contents.old < vec_capacity contents.old }
    ensures folders { folders.new.items ≡ folders.old.items ++ own ∷ [] }
    ensures contents { contents.new.items ≡ contents.old.items ++ empty_content ∷ [] }
{
    push_reserved(folders, own);
    push_reserved(contents, EMPTY);
}

/// The names of an account's folders, in order of their numbers.
pub fn names_among(
    alloc: Global,
    folders: &[Folder],
    account: u32,
) -> Result<Vec<Octets>, OutOfMemory>
    ensures { IfOk result (λ names. names.items ≡ names_among account folders.now) }
{
    let mut names = Vec::new(alloc);
    for folder in folders {
        if folder.account == account {
            names.push(Octets::from_slice(alloc, folder.name.as_slice())?)?;
        }
    }
    Ok(names)
}
