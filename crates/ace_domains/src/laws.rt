//! Laws of normal forms and of sameness.
ghost use Rattle.std.specs.Prelude.{◌≡◌, ℕ, List, map, IsAscii, Some, None};
ghost use Rattle.std.specs.Char.{to_ascii_lowercase};
ghost use Rattle.ace_domains.specs.Domains.{IsDomain, IsDnsName, IsHostName, SameDomain, normal_form};

/// A normal form is its own, a domain of the grammar, and a name of the DNS.
pub fn forms_are_names()
    ensures own { (domain form : List ℕ) → normal_form domain ≡ Some form → normal_form form ≡ Some form }
    ensures ascii { (domain form : List ℕ) → normal_form domain ≡ Some form → IsAscii form }
    ensures domain { (domain form : List ℕ) → normal_form domain ≡ Some form → IsDomain form }
    ensures name { (domain form : List ℕ) → normal_form domain ≡ Some form → IsDnsName form }
{}

/// Sameness is an equivalence.
pub fn sameness_is_an_equivalence()
    ensures reflexive { (a : List ℕ) → SameDomain a a }
    ensures symmetric { (a b : List ℕ) → SameDomain a b → SameDomain b a }
    ensures transitive { (a b c : List ℕ) → SameDomain a b → SameDomain b c → SameDomain a c }
{}

/// A domain is the same as its form, and one without a form is the same as itself alone.
pub fn forms_stand_for_domains()
    ensures form { (domain form : List ℕ) → normal_form domain ≡ Some form → SameDomain domain form }
    ensures alone { (a b : List ℕ) → normal_form a ≡ None → SameDomain a b → a ≡ b }
{}

/// A host name in lower case is its own form, and in ASCII the case of letters doesn't matter.
pub fn host_names_are_their_own_forms()
    ensures own { (name : List ℕ) → IsHostName name → normal_form name ≡ Some name }
    ensures case { (name : List ℕ) → IsAscii name → normal_form (map to_ascii_lowercase name) ≡ normal_form name }
{}
