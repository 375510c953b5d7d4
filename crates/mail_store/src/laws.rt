//! Laws of journals and stores.
ghost use Rattle.std.specs.Prelude.{◌≡◌, ◌⊎◌, ◌==◌, ◌<◌, ◌≤◌, ℕ, List, ◌++◌, length, map, slice_get, Option, Some, Ok, Err, IfSome};
ghost use Rattle.std.specs.List.{AllByRecursion, IsDistinct};
ghost use Rattle.std.specs.List.Sorted.{IsStrictlyIncreasing};
ghost use Rattle.mail_store.specs.declared.changing.StoreFault.{StoreFault};
ghost use Rattle.kept_mail.specs.declared.kept.Listed.{Listed as ListedValue};
ghost use Rattle.journal_records.specs.declared.records.Record.{Record};
ghost use Rattle.journal_records.specs.Spelling.{journal};
ghost use Rattle.mail_store.specs.Catching.{HasReadFirst};
ghost use Rattle.mail_store.specs.Changing.{IsStoreOf, Changes, HoldsFirst};
ghost use Rattle.mail_store.specs.Following.{Follows, Breaks};
ghost use Rattle.kept_mail.specs.Kept.{Kept, listed, uid_next, after_all, IsListedOrNew};
ghost use Rattle.mail_store.specs.Answers.{IsToBegin, LeavesRecords, OpensTo, upgraded};
ghost use Rattle.mail_store.specs.Opening.{HasRecords, HasRecordsIn, IsBadAt};
ghost use Rattle.journal_records.specs.declared.versions.Version.{Version};
ghost use Rattle.kept_mail.specs.Records.{IsLive};
ghost use Rattle.mail_store.specs.StoreState.{StoreState};

/// Octets have their records in one way only, in one version, or are bad.
pub fn one_reading()
    ensures same { (octets : List ℕ) (a b : List Record) → HasRecords octets a → HasRecords octets b → a ≡ b }
    ensures version { (octets : List ℕ) (first second : Version) (a b : List Record) → HasRecordsIn first octets a → HasRecordsIn second octets b → first ≡ second }
    ensures not_bad { (octets : List ℕ) (a : List Record) (at : ℕ) → HasRecords octets a → IsBadAt octets at → ⊥ }
    ensures one_bad { (octets : List ℕ) (at place : ℕ) → IsBadAt octets at → IsBadAt octets place → at ≡ place }
{}

/// What opening leaves of octets has their records, after which the record of version 2 may stand; and it appends nothing to what it has opened.
pub fn opening_settles()
    ensures left { (old new : List ℕ) (version : Version) (all : List Record) → HasRecordsIn version old all → LeavesRecords (Some old) (Some new)
        → HasRecordsIn version new all ⊎ HasRecordsIn version new (upgraded version all) }
    ensures again { (old new : List ℕ) (kept other : Kept) (again : Option (List ℕ)) → OpensTo old (Some new) kept → OpensTo new again other → (again ≡ Some new) × (other ≡ kept) }
    ensures begun { (old new : List ℕ) (kept : Kept) → OpensTo old (Some new) kept → IsToBegin new → ⊥ }
    ensures store { (old : List ℕ) (new : Option (List ℕ)) (store : StoreState) → (opens : OpensTo old new store.kept) → IsStoreOf store new opens.all }
{}

/// After a call that changes a store, the store and the keeper have the new records too; where the keeper failed, it
/// opens with the old ones and the first of the new ones.
pub fn one_more_change()
    ensures ok { (old new : StoreState) (had has : Option (List ℕ)) (all more : List Record) → IsStoreOf old had all
        → Changes {T = Unit {0}} old new had has (Ok tt) more → IsStoreOf new has (all ++ more) }
    ensures keeper { (old new : StoreState) (had has : Option (List ℕ)) (all more : List Record) → IsStoreOf old had all
        → Changes {T = Unit {0}} old new had has (Err StoreFault.Keeper) more → HoldsFirst has all more }
{}

/// After several calls the store and the keeper have the records of all of them; where the keeper failed in one, it opens
/// with the old records and the first of the new ones up to that call's.
pub fn changes_follow()
    ensures made { (old new : StoreState) (had has : Option (List ℕ)) (all more : List Record) → IsStoreOf old had all
        → Follows old new had has more → IsStoreOf new has (all ++ more) }
    ensures fails { (old new : StoreState) (had has : Option (List ℕ)) (all made failing : List Record) → IsStoreOf old had all
        → Breaks old new had has made failing → HoldsFirst has all (made ++ failing) }
{}

/// The messages of a listing aren't expunged, and their numbers differ.
pub fn listings_are_live()
    ensures live { (kept : Kept) (folder : ℕ) → AllByRecursion (λ one. IsLive (slice_get kept.messages one.id)) (listed kept folder) }
    ensures distinct { (kept : Kept) (folder : ℕ) → IsDistinct (λ a b. a == b) (map (λ (one : ListedValue). one.id) (listed kept folder)) }
{}

/// A folder's UIDs rise, a message keeps its own whatever comes later, and none is given again.
pub fn uids_stay()
    ensures rise { (kept : Kept) (folder : ℕ) → IsStrictlyIncreasing (map (λ (one : ListedValue). one.uid) (listed kept folder)) }
    ensures below { (kept : Kept) (folder : ℕ) → AllByRecursion (λ one. one.uid < uid_next kept folder) (listed kept folder) }
    ensures stay { (kept : Kept) (more : List Record) (folder : ℕ) → AllByRecursion (IsListedOrNew kept folder) (listed (after_all kept more) folder) }
    ensures next { (kept : Kept) (more : List Record) (folder : ℕ) → uid_next kept folder ≤ uid_next (after_all kept more) folder }
{}

/// A store that was opened or changed has what its keeper begins with, whatever others put after that, and also where the keeper
/// failed in a change: so it catches up with the whole records that are there.
pub fn stores_catch_up()
    ensures changed { (version : Version) (old new : StoreState) (had has : Option (List ℕ)) (all more : List Record) → old.end ≡ length (journal version all)
        → Changes {T = Unit {0}} old new had has (Ok tt) more → new.end ≡ length (journal version (all ++ more)) }
    ensures following { (version : Version) (store : StoreState) (octets : List ℕ) (all : List Record) (more : List ℕ) → IsStoreOf store (Some octets) all
        → store.end ≡ length (journal version all) → HasReadFirst store (octets ++ more) all }
    ensures failed { (version : Version) (old new : StoreState) (had has : Option (List ℕ)) (all more : List Record) → IsStoreOf old had all → old.end ≡ length (journal version all)
        → Changes {T = Unit {0}} old new had has (Err StoreFault.Keeper) more → IfSome has (λ octets. HasReadFirst new octets all) }
{}
