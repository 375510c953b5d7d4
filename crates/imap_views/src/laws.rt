//! Laws of the definitions. A header has one view of a kind, where it has a block, and octets have one structure, where they have a tree; and what is
//! told of ASCII headers is ASCII, so that all of it may be told to a client that knows no other. Sections of what is shown stand in it, and so each of
//! their headers has its views.
ghost use Rattle.std.specs.Prelude.{◌≡◌, ℕ, ◌+◌, ◌≤◌, List, [], Bool, true, Some, length, take, drop};
ghost use Rattle.std.specs.List.{list_all};
ghost use Rattle.mail_wire.specs.Octets.{is_ascii};
ghost use Rattle.mail_wire.specs.declared.values.Span.{Span};
ghost use Rattle.mime_tree.specs.declared.entity.Entity.{Entity};
ghost use Rattle.mime_tree.specs.declared.sections.Part.{Part};
ghost use Rattle.mime_tree.specs.declared.sections.Part.TheVariants.{Header};
ghost use Rattle.mime_tree.specs.Sections.{section};
ghost use Rattle.mime_tree.specs.Tree.{HasTree};
ghost use Rattle.surrogate_rope.specs.Layout.{HasAsciiBlocks};
ghost use Rattle.surrogate_rope.specs.Served.{IsShownOf, shown_octets, shown_outlines};
ghost use Rattle.surrogate_rope.specs.declared.shown.Shown.{Shown};
ghost use Rattle.imap_views.specs.Chosen.{AreChosen};
ghost use Rattle.imap_views.specs.Envelopes.{HasEnvelope};
ghost use Rattle.imap_views.specs.Fields.{HasSomeBlock};
ghost use Rattle.imap_views.specs.Structures.{HasStructure};
ghost use Rattle.imap_views.specs.Views.{IsStructureOf};

/// A header has one envelope at most.
pub fn envelopes_are_one()
    ensures { (header text other : List ℕ) → HasEnvelope header text → HasEnvelope header other → text ≡ other }
{}

/// A header with a block has an envelope.
pub fn envelopes_are_there()
    ensures { (header : List ℕ) → HasSomeBlock header → (text : List ℕ) × HasEnvelope header text }
{}

/// Fields chosen from a header are one text at most.
pub fn chosen_fields_are_one()
    ensures { (header : List ℕ) (names : List (List ℕ)) (negated : Bool) (text other : List ℕ) → AreChosen header names negated text
        → AreChosen header names negated other → text ≡ other }
{}

/// Of a header with a block fields may be chosen by any names.
pub fn chosen_fields_are_there()
    ensures { (header : List ℕ) (names : List (List ℕ)) (negated : Bool) → HasSomeBlock header → (text : List ℕ) × AreChosen header names negated text }
{}

/// Octets have one structure at most.
pub fn structures_are_one()
    ensures { (extended : Bool) (octets text other : List ℕ) → IsStructureOf extended octets text → IsStructureOf extended octets other → text ≡ other }
{}

/// Octets that have a tree have a structure.
pub fn structures_are_there()
    ensures { (extended : Bool) (octets : List ℕ) (entities : List Entity) → HasTree octets entities → (text : List ℕ) × IsStructureOf extended octets text }
{}

/// The envelope of an ASCII header is ASCII.
pub fn envelopes_are_ascii()
    ensures { (header text : List ℕ) → HasEnvelope header text → list_all is_ascii header ≡ true → list_all is_ascii text ≡ true }
{}

/// Fields chosen from an ASCII header are ASCII.
pub fn chosen_fields_are_ascii()
    ensures { (header : List ℕ) (names : List (List ℕ)) (negated : Bool) (text : List ℕ) → AreChosen header names negated text
        → list_all is_ascii header ≡ true → list_all is_ascii text ≡ true }
{}

/// The structure of a message whose blocks are ASCII is ASCII.
pub fn structures_are_ascii()
    ensures { (msg : List ℕ) (shown : Shown) (extended : Bool) (text : List ℕ) → IsShownOf msg shown → HasAsciiBlocks (shown_octets msg shown)
        → HasStructure (record { octets = shown_octets msg shown; outlines = shown_outlines shown; extended = extended }) text
        → list_all is_ascii text ≡ true }
{}

/// A section of what is shown stands within its octets.
pub fn sections_stand_within()
    ensures { (msg : List ℕ) (shown : Shown) (path : List ℕ) (part : Part) (span : Span) → IsShownOf msg shown
        → section (shown_outlines shown) path part ≡ Some span → span.at + span.len ≤ length (shown_octets msg shown) }
{}

/// The header of a message that is a section of what is shown has a block.
pub fn headers_have_blocks()
    ensures { (msg : List ℕ) (shown : Shown) (path : List ℕ) (span : Span) → IsShownOf msg shown → section (shown_outlines shown) path Header ≡ Some span
        → HasSomeBlock (take span.len (drop span.at (shown_octets msg shown))) }
{}

/// What is shown of a message has a header.
pub fn whole_messages_have_headers()
    ensures { (msg : List ℕ) (shown : Shown) → IsShownOf msg shown → (span : Span) × (section (shown_outlines shown) [] Header ≡ Some span) }
{}
