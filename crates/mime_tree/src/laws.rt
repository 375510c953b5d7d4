//! Laws of the definitions.
ghost use Rattle.std.specs.Prelude.{◌≡◌, ◌≢◌, ◌++◌, ◌||◌, ℕ, List, Bool};
ghost use Rattle.std.specs.List.{All, concat, list_any};
ghost use Rattle.mail_wire.specs.Octets.{is_high};
ghost use Rattle.mime_tree.specs.declared.entity.Entity.{Entity};
ghost use Rattle.mime_tree.specs.declared.entity.TreeFault.{TreeFault};
ghost use Rattle.mime_tree.specs.declared.openings.Opening.{Opening};
ghost use Rattle.mime_tree.specs.Openings.{Opens, IsOtherField};
ghost use Rattle.mime_tree.specs.Tree.{HasTree, has_high_block};
ghost use Rattle.mime_tree.specs.Faults.{IsTreeFault};

/// Fields open an entity in one way at most.
pub fn openings_are_one()
    ensures { (digest : Bool) (raws : List (List ℕ)) (opening other : Opening) → Opens digest raws opening → Opens digest raws other → opening ≡ other }
{}

/// A message has one tree at most.
pub fn trees_are_one()
    ensures { (octets : List ℕ) (entities others : List Entity) → HasTree octets entities → HasTree octets others → entities ≡ others }
{}

/// A message with a tree has one too where fields of other names than Content-Type and Content-Transfer-Encoding are put before it. A
/// header block in it has an octet above 127 exactly where one had, or where one of these fields has.
pub fn fields_may_come_before()
    ensures tree { (octets : List ℕ) (fields : List (List ℕ)) (entities : List Entity) → HasTree octets entities → All IsOtherField fields
        → (others : List Entity) × HasTree (concat fields ++ octets) others }
    ensures high { (octets : List ℕ) (fields : List (List ℕ)) (entities others : List Entity) → HasTree octets entities → All IsOtherField fields
        → HasTree (concat fields ++ octets) others → has_high_block (concat fields ++ octets) others ≡ (list_any is_high fields || has_high_block octets entities) }
{}

/// The first fault of a message is one, and a message with a tree has none.
pub fn tree_faults_are_one()
    ensures one { (octets : List ℕ) (fault other : TreeFault) → IsTreeFault octets fault → IsTreeFault octets other → fault ≢ TreeFault.Memory
        → other ≢ TreeFault.Memory → fault ≡ other }
    ensures none { (octets : List ℕ) (entities : List Entity) (fault : TreeFault) → HasTree octets entities → IsTreeFault octets fault → fault ≡ TreeFault.Memory }
{}
