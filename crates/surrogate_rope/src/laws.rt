//! Laws of the definitions.
ghost use Rattle.std.specs.Prelude.{◌≡◌, ℕ, List, Bool};
ghost use Rattle.std.specs.List.{AllZip};
ghost use Rattle.mime_tree.specs.declared.entity.Entity.{Entity};
ghost use Rattle.mime_tree.specs.declared.openings.Opening.{Opening};
ghost use Rattle.mime_tree.specs.Openings.{Opens};
ghost use Rattle.mime_tree.specs.Tree.{HasTree, raws_of};
ghost use Rattle.field_downgrade.specs.Message.{IsServedField};
ghost use Rattle.surrogate_rope.specs.Layout.{HasLayout, HasSurrogate, IsItsOwnSurrogate, InEntity};

/// The fields of a surrogate open an entity as the message's do.
pub fn surrogates_open_alike()
    ensures { (msg : List ℕ) (entity : Entity) (fields : List (List ℕ)) (digest : Bool) (opening : Opening) → AllZip (InEntity IsServedField msg entity) (raws_of msg entity.block) fields
        → Opens digest (raws_of msg entity.block) opening → Opens digest fields opening }
{}

/// A message has one layout at most.
pub fn layouts_are_one()
    ensures { (msg made other : List ℕ) (entities others : List Entity) → HasTree msg entities → HasTree msg others → HasLayout msg entities made → HasLayout msg others other → made ≡ other }
{}

/// Every message with a tree has a surrogate.
pub fn surrogates_are_there()
    ensures { (msg : List ℕ) (entities : List Entity) → HasTree msg entities → (made : List ℕ) × HasSurrogate msg made }
{}

/// A surrogate of a surrogate is itself.
pub fn surrogates_are_their_own()
    ensures own { (msg made : List ℕ) → HasSurrogate msg made → IsItsOwnSurrogate made }
    ensures no_other { (msg made other : List ℕ) → HasSurrogate msg made → HasSurrogate made other → other ≡ made }
{}
