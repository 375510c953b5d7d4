//! The folders of accounts, by their names.
ghost use Rattle.std.specs.Prelude.{◌≡◌, ◌≢◌, ◌<◌, ◌∷◌, [], length, slice_get, bytes_eq, IfOk, OnOk, IfErr, IfSome, IsUtf8, None, Err, false};
ghost use Rattle.std.specs.List.{All};
ghost use Rattle.mail_wire.specs.Keeping.{HasKeeperCause, one_more};
ghost use Rattle.journal_records.specs.declared.records.Record.TheVariants as records;
ghost use Rattle.journal_records.specs.Grammar.{IsFolderName, inbox, kept_name};
ghost use Rattle.journal_records.specs.Spelling.{record_text};
ghost use Rattle.mail_store.specs.Changing.{Changes, LeavesKeeper, IsRefusedAs, folder_refusal};
ghost use Rattle.kept_mail.specs.Kept.{first_named, find_folder, folder_names, kept_folder_name};
ghost use Rattle.kept_mail.specs.Records.{HasRoom};
ghost use Rattle.mail_store.specs.private.Folders.{IsNewFolder};
ghost use Rattle.kept_mail.specs.private.Names.{folder_key};
ghost use Rattle.mail_store.specs.declared.changing.StoreFault.TheVariants as faults;

use crate::changing::StoreFault;
use crate::storing::Store;
use crate::writing::{Named, write_named};
use journal_records::{folder_text, kept_name};
use kept_mail::{
    Folder, are_too_many, folder_key, names_among, number_of, put_folder, reserve_folder,
};
use mail_wire::{Keeper, Memory as OutOfMemory, Octets};

const INBOX: [u8; 5] = *b"INBOX";

fn is_inbox(name: &[u8]) -> bool
    ensures { result ≡ bytes_eq name.now inbox }
{
    name == INBOX.as_slice()
}

// The number at a place, where there is one.
fn number_at(numbers: &[u32], at: u32) -> Option<u32>
    ensures { result ≡ slice_get numbers.now at }
{
    numbers.get(at as usize).copied()
}

// What is put last for a folder: what is written of it, and itself.
#[derive(Drop)]
struct NewFolder {
    named: Named,
    own: Folder,
}

impl Store {
    /// The account's first folder that is meant by a name. INBOX is meant in any case of its letters; any other name is
    /// brought to NFC.
    pub fn find_folder(&self, account: u32, name: &str) -> Result<Option<u32>, OutOfMemory>
        ensures found { IfOk result (λ found. found ≡ find_folder self.now.kept account name.now) }
        ensures known { IfOk result (λ found. IfSome found (λ folder. folder < length self.now.kept.folders)) }
    {
        let kept = kept_name(self.alloc, name)?;
        self.named_folder(account, kept.as_slice())
    }

    // The account's first folder of this very name.
    fn named_folder(&self, account: u32, name: &[u8]) -> Result<Option<u32>, OutOfMemory>
        ensures found { IfOk result (λ found. found ≡ first_named account name.now 0 self.now.kept.folders) }
        ensures known { IfOk result (λ found. IfSome found (λ folder. folder < length self.now.kept.folders)) }
    {
        if is_inbox(name) {
            return Ok(number_at(&self.inboxes, account));
        }
        let key = folder_key(self.alloc, account, name)?;
        Ok(number_of(&self.names, key.as_slice()))
    }

    /// The names of an account's folders, in order of their numbers.
    pub fn folder_names(&self, account: u32) -> Result<Vec<Octets>, OutOfMemory>
        ensures names { IfOk result (λ names. names.items ≡ folder_names self.now.kept account) }
        ensures utf8 { IfOk result (λ names. All IsUtf8 names.items) }
    {
        names_among(self.alloc, &self.folders, account)
    }

    /// The name of a folder, by its number.
    pub fn folder_name(&self, folder: u32) -> &[u8]
        requires { folder < length self.now.kept.folders }
        ensures name { result.now ≡ kept_folder_name self.now.kept folder }
        ensures utf8 { IsUtf8 result.now }
    {
        let folder = &self.folders[folder as usize];
        folder.name.as_slice()
    }

    /// Makes a folder of an account, and answers its number. Its name is kept in NFC.
    pub fn create_folder<J: Keeper>(
        &mut self,
        keeper: &mut J,
        account: u32,
        name: &str,
    ) -> Result<u32, StoreFault>
        requires works { self.old.failed ≡ false }
        requires known { account < length self.old.kept.accounts }
        requires name { IsFolderName (kept_name name.now) }
        ensures changes { Changes self.old self.new (J.observed keeper.old).octets (J.observed keeper.new).octets result
            (records.Folder account (kept_name name.now) ∷ []) }
        ensures number { IfOk result (λ folder. folder ≡ length self.old.kept.folders) }
        ensures refusal { IsRefusedAs result (folder_refusal self.old.kept account name.now) }
        ensures cause { HasKeeperCause (J.observed keeper.old) (J.observed keeper.new) result StoreFault.Keeper }
        ensures once { OnOk result ((J.observed keeper.new).appends ≡ one_more (J.observed keeper.old).appends) }
        ensures untouched { IfErr result (LeavesKeeper (J.observed keeper.old) (J.observed keeper.new)) }
    {
        let made = self.new_folder(account, name)?;
        self.put_new_folder(keeper, made)
    }

    // Puts a folder last that isn't refused, and writes it.
    fn put_new_folder<J: Keeper>(
        &mut self,
        keeper: &mut J,
        made: NewFolder,
    ) -> Result<u32, StoreFault>
        requires { IsNewFolder self.old made.named.name made.named.number made.named.text made.own }
        ensures changes { Changes self.old self.new (J.observed keeper.old).octets (J.observed keeper.new).octets result
            (records.Folder made.own.account made.own.name ∷ []) }
        ensures number { IfOk result (λ folder. folder ≡ length self.old.kept.folders) }
        ensures refusal { IsRefusedAs result None }
        ensures cause { HasKeeperCause (J.observed keeper.old) (J.observed keeper.new) result StoreFault.Keeper }
        ensures once { OnOk result ((J.observed keeper.new).appends ≡ one_more (J.observed keeper.old).appends) }
        ensures untouched { IfErr result (LeavesKeeper (J.observed keeper.old) (J.observed keeper.new)) }
    {
        let folder = made.named.number;
        reserve_folder(&mut self.folders, &mut self.contents)?;
        write_named(
            self.alloc,
            keeper,
            &mut self.names,
            &made.named,
            &mut self.progress,
        )?;
        put_folder(&mut self.folders, &mut self.contents, made.own);
        Ok(folder)
    }

    // What is put last for a folder, unless it is refused.
    fn new_folder(&self, account: u32, name: &str) -> Result<NewFolder, StoreFault>
        requires { IsFolderName (kept_name name.now) }
        ensures account { IfOk result (λ made. made.own.account ≡ account) }
        ensures name { IfOk result (λ made. made.own.name ≡ kept_name name.now) }
        ensures key { IfOk result (λ made. made.named.name ≡ folder_key account (kept_name name.now)) }
        ensures number { IfOk result (λ made. made.named.number ≡ length self.now.kept.folders) }
        ensures text { IfOk result (λ made. made.named.text ≡ record_text (records.Folder account (kept_name name.now))) }
        ensures refusal { IsRefusedAs result (folder_refusal self.now.kept account name.now) }
        ensures no_keeper { result ≢ Err faults.Keeper }
    {
        let kept = self.free_name(account, name)?;
        let key = folder_key(self.alloc, account, kept.as_slice())?;
        let text = folder_text(self.alloc, account, kept.as_slice())?;
        let number = self.folders.len() as u32;
        let named = Named {
            name: key,
            number,
            text,
        };
        let own = Folder {
            account,
            name: kept,
        };
        Ok(NewFolder { named, own })
    }

    // The name of a folder in the form in which it is kept, unless such a folder is refused.
    fn free_name(&self, account: u32, name: &str) -> Result<Octets, StoreFault>
        ensures name { IfOk result (λ kept. kept ≡ kept_name name.now) }
        ensures room { OnOk result (HasRoom (length self.now.kept.folders)) }
        ensures refusal { IsRefusedAs result (folder_refusal self.now.kept account name.now) }
        ensures no_keeper { result ≢ Err faults.Keeper }
    {
        let kept = kept_name(self.alloc, name)?;
        if self.named_folder(account, kept.as_slice())?.is_some() {
            return Err(StoreFault::Exists);
        }
        if are_too_many(self.folders.len(), 1) {
            return Err(StoreFault::TooLarge);
        }
        Ok(kept)
    }
}
