//! Laws of records, of marks and of limits.
ghost use Rattle.std.specs.Prelude.{◌≡◌, ◌<◌, ℕ, List, ◌++◌};
ghost use Rattle.journal_records.specs.declared.limits.TheConstants.{NAME_MAX, RECORD_MAX, TEXT_MAX};
ghost use Rattle.journal_records.specs.declared.records.Record.{Record};
ghost use Rattle.journal_records.specs.Spelling.{Fits, IsWritableRecord, fields_of, record_text};
ghost use Rattle.journal_records.specs.Stored.{HasMark, IsStored};

/// No two records have the same fields, and octets begin with one record's text at most.
pub fn records_are_told_apart()
    ensures fields { (a b : Record) → Fits a → Fits b → fields_of a ≡ fields_of b → a ≡ b }
    ensures texts { (a b : Record) (x y : List ℕ) → IsWritableRecord a → IsWritableRecord b → record_text a ++ x ≡ record_text b ++ y → (a ≡ b) × (x ≡ y) }
{}

/// Octets that may be kept have one mark, which is below 4, and no others have one.
pub fn marks_are_one()
    ensures there { (octets : List ℕ) → IsStored octets → (mark : ℕ) × HasMark octets mark }
    ensures stored { (octets : List ℕ) (mark : ℕ) → HasMark octets mark → IsStored octets }
    ensures one { (octets : List ℕ) (mark other : ℕ) → HasMark octets mark → HasMark octets other → mark ≡ other }
    ensures below { (octets : List ℕ) (mark : ℕ) → HasMark octets mark → mark < 4 }
{}

/// The limits have these values: a text of 64 KiB, a name of 255 octets, a record of 64 MiB.
pub fn limits_are_these()
    ensures text { TEXT_MAX ≡ 65536 }
    ensures name { NAME_MAX ≡ 255 }
    ensures record_octets { RECORD_MAX ≡ 67108864 }
{}
