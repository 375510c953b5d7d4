//! What holds of every block, field and body.
ghost use Rattle.std.specs.Prelude.{◌≡◌, ◌≢◌, ℕ, ◌+◌, ◌≤◌, List, length};
ghost use Rattle.std.specs.List.{All};
ghost use Rattle.utf8_fields.specs.declared.block.Field.{Field};
ghost use Rattle.utf8_fields.specs.declared.block.FieldFault.{FieldFault};
ghost use Rattle.utf8_fields.specs.Parts.{FieldParts, HasParts, IsField, HasValue};
ghost use Rattle.utf8_fields.specs.Block.{HasBlock, raw_of};
ghost use Rattle.utf8_fields.specs.Named.{HasFieldName};
ghost use Rattle.utf8_fields.specs.Faults.{IsFault};

/// Octets have one block at most.
pub fn one_block()
    ensures { (octets : List ℕ) (fields others : List Field) (end other : ℕ) → HasBlock octets fields end → HasBlock octets others other → (fields ≡ others) × (end ≡ other) }
{}

/// Octets that have a block have no faulty line.
pub fn no_faulty_line()
    ensures { (octets : List ℕ) (fields : List Field) (end : ℕ) (fault : FieldFault) → HasBlock octets fields end → IsFault octets fault → fault ≡ FieldFault.Memory }
{}

/// The first faulty line and its fault are one.
pub fn one_fault()
    ensures { (octets : List ℕ) (fault other : FieldFault) → IsFault octets fault → IsFault octets other → fault ≢ FieldFault.Memory → other ≢ FieldFault.Memory → fault ≡ other }
{}

/// The raw octets of each field of a block are a field, and its name span holds the name.
pub fn fields_of_a_block_have_parts()
    ensures parts { (octets : List ℕ) (fields : List Field) (end : ℕ) → HasBlock octets fields end → All (λ field. IsField (raw_of octets field)) fields }
    ensures names { (octets : List ℕ) (fields : List Field) (end : ℕ) → HasBlock octets fields end → All (HasFieldName octets) fields }
    ensures within { (octets : List ℕ) (fields : List Field) (end : ℕ) → HasBlock octets fields end → All (λ field. field.raw.at + field.raw.len ≤ end) fields }
    ensures bound { (octets : List ℕ) (fields : List Field) (end : ℕ) → HasBlock octets fields end → end ≤ length octets }
{}

/// A field's parts are one.
pub fn parts_are_one()
    ensures { (octets : List ℕ) (f g : FieldParts) → HasParts octets f → HasParts octets g → f ≡ g }
{}

/// A body has one value.
pub fn values_are_one()
    ensures { (body value other : List ℕ) → HasValue body value → HasValue body other → value ≡ other }
{}
