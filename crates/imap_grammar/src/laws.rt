//! Laws of commands and of the names in them.
ghost use Rattle.std.specs.Prelude.{◌≡◌, ℕ, Bool, List, ◌++◌, Option, Some};
ghost use Rattle.imap_grammar.specs.Events.{IsDue};
ghost use Rattle.imap_grammar.specs.FirstDue.{Due, IsFirstDue, ReadsCommands};
ghost use Rattle.imap_grammar.specs.MailboxNames.{ReadsNames};
ghost use Rattle.imap_grammar.specs.declared.event.Event.{Event};
ghost use Rattle.imap_grammar.specs.declared.event.TheConstants.{APPEND_MAX};

/// Some function tells what is due first.
pub fn commands_are_read()
    ensures { (event_of : Bool → (seen octets : List ℕ) → Option Due) × ReadsCommands event_of }
{}

/// At some octets one event at most is due. What is due first is one thing, or nothing is, and it stays due first with more octets
/// after these.
pub fn events_are_one()
    ensures event { (utf8 : Bool) (octets : List ℕ) (event other : Event) → IsDue utf8 octets event → IsDue utf8 octets other → event ≡ other }
    ensures first { (utf8 : Bool) (seen octets : List ℕ) (answer other : Option Due) → IsFirstDue utf8 seen octets answer → IsFirstDue utf8 seen octets other → answer ≡ other }
    ensures stays { (utf8 : Bool) (seen octets more : List ℕ) (due : Due) (other : Option Due) → IsFirstDue utf8 seen octets (Some due) → IsFirstDue utf8 seen (octets ++ more) other → other ≡ Some due }
{}

/// Some function gives the name of each text that is one in modified UTF-7.
pub fn names_are_read()
    ensures { (name_of : List ℕ → Option (List ℕ)) × ReadsNames name_of }
{}

/// A message that APPEND brings has at most 32 MiB.
pub fn append_limit_is_this()
    ensures { APPEND_MAX ≡ 33554432 }
{}
