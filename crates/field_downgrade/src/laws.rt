//! Laws of the layout.
ghost use Rattle.std.specs.Prelude.{◌≡◌, ℕ, Bool, List};
ghost use Rattle.utf8_fields.specs.Parts.{FieldParts, IsField};
ghost use Rattle.field_downgrade.specs.Message.{IsServedField};
ghost use Rattle.field_downgrade.specs.Stands.{HasFieldLayout, Meaning, Means};

/// A field has one layout.
pub fn layouts_are_one()
    ensures { (open_global : Bool) (octets made other : List ℕ) → HasFieldLayout open_global octets made → HasFieldLayout open_global octets other
        → made ≡ other }
{}

/// A field has one meaning at most.
pub fn oracles_are_one()
    ensures { (f : FieldParts) (meaning other : Meaning) → Means f meaning → Means f other → meaning ≡ other }
{}

/// Each field has a served form, which is its layout, stands for it, is ASCII and keeps its lines.
pub fn served_forms_are_there()
    ensures { (open_global : Bool) (octets : List ℕ) → IsField octets → (made : List ℕ) × IsServedField open_global octets made }
{}
