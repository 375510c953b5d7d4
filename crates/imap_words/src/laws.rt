//! Laws of strings.
ghost use Rattle.std.specs.Prelude.{◌↔◌, ℕ, Bool, List};
ghost use Rattle.imap_words.specs.Languages.{Then};
ghost use Rattle.imap_words.specs.Strings.{BodyOf, IsAstring, IsHead, IsListMailbox};
ghost use Rattle.imap_words.specs.declared.tokens.Kind.TheVariants.{Astring, ListMailbox};

/// A string of the grammar (RFC 3501, 9) is what its reader finds first, and after it what is left of the string: nothing, or
/// the octets of a literal.
pub fn strings_are_heads_and_bodies()
    ensures astring { (utf8 : Bool) (octets value : List ℕ) → IsAstring utf8 octets value ↔ Then (IsHead utf8 Astring) BodyOf octets value }
    ensures list_mailbox { (utf8 : Bool) (octets value : List ℕ) → IsListMailbox utf8 octets value ↔ Then (IsHead utf8 ListMailbox) BodyOf octets value }
{}
