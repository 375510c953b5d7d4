//! Laws of `Downgraded-` fields and of address forms.
ghost use Rattle.std.specs.Prelude.{◌≡◌, ℕ, List};
ghost use Rattle.std.specs.Str.{IsUtf8};
ghost use Rattle.encapsulated_fields.specs.Encapsulated.{Encapsulates};
ghost use Rattle.encapsulated_fields.specs.AddressForms.{xtext_form, unitext_form};
ghost use Rattle.encapsulated_fields.specs.Xtext.{ReadsAs};

/// One field keeps a value under a name.
pub fn encapsulated_fields_are_one()
    ensures { (name value field other : List ℕ) → Encapsulates name value field → Encapsulates name value other → field ≡ other }
{}

/// A text is read as one address, and both are UTF-8.
pub fn addresses_are_one()
    ensures one { (text address other : List ℕ) → ReadsAs text address → ReadsAs text other → address ≡ other }
    ensures utf8 { (text address : List ℕ) → ReadsAs text address → IsUtf8 text × IsUtf8 address }
{}

/// Each address is read back from both of its forms.
pub fn addresses_are_read_back()
    ensures xtext { (address : List ℕ) → IsUtf8 address → ReadsAs (xtext_form address) address }
    ensures unitext { (address : List ℕ) → IsUtf8 address → ReadsAs (unitext_form address) address }
{}
