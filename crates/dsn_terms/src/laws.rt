//! Laws of terms and of xtext.
ghost use Rattle.std.specs.Prelude.{◌≡◌, ◌≤◌, ℕ, List, Bool, true, length};
ghost use Rattle.std.specs.List.{list_all};
ghost use Rattle.dsn_terms.specs.Xtexts.{IsXtext, IsPrintableXtext, is_printable, shortest_xtext};
ghost use Rattle.dsn_terms.specs.MailTerms.{HasMailTerms};
ghost use Rattle.dsn_terms.specs.RecipientTerms.{HasRecipientTerms};
ghost use Rattle.dsn_terms.specs.declared.Terms.{Terms};
ghost use Rattle.dsn_terms.specs.declared.Asked.{Asked};

/// Parameters say one thing.
pub fn terms_are_one()
    ensures mail { (words : List (List ℕ)) (terms other : Terms) → HasMailTerms words terms → HasMailTerms words other → terms ≡ other }
    ensures recipient { (utf8 : Bool) (words : List (List ℕ)) (asked other : Asked) → HasRecipientTerms utf8 words asked
        → HasRecipientTerms utf8 words other → asked ≡ other }
{}

/// A text is xtext of one list of octets.
pub fn xtexts_are_one()
    ensures { (text octets other : List ℕ) → IsXtext text octets → IsXtext text other → octets ≡ other }
{}

/// The shortest xtext of octets is xtext of them, and no other is shorter.
pub fn shortest_xtext_is_shortest()
    ensures reads { (octets : List ℕ) → list_all is_printable octets ≡ true → IsPrintableXtext (shortest_xtext octets) octets }
    ensures least { (text octets : List ℕ) → IsXtext text octets → length (shortest_xtext octets) ≤ length text }
{}
