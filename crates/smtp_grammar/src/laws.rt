//! Laws of the data, and of paths.
ghost use Rattle.std.specs.Prelude.{◌≡◌, ◌≢◌, ◌++◌, ◌∷◌, ℕ, List, Option, Some, length, true, codes};
ghost use Rattle.std.specs.List.{All};
ghost use Rattle.mail_wire.specs.Dots.{stuffed, unstuffed};
ghost use Rattle.mail_wire.specs.Lines.{Cut, lines_of};
ghost use Rattle.mail_wire.specs.Message.{IsEnded};
ghost use Rattle.address_grammar.specs.declared.Address.{Address};
ghost use Rattle.smtp_grammar.specs.Commands.{path_after, path_len, ends_word};
ghost use Rattle.smtp_grammar.specs.Data.{data_cut, sent};
ghost use Rattle.smtp_grammar.specs.Paths.{IsPathText};
ghost use Rattle.smtp_grammar.specs.declared.command.Place.TheVariants.{Plain};

/// No line of the data is a dot alone, and after the data stand such a line and the rest.
pub fn data_end_once()
    ensures none { (octets : List ℕ) (cut : Cut) → data_cut octets ≡ Some cut → All (λ line. line ≢ codes ".\r\n") (lines_of cut.line) }
    ensures split { (octets : List ℕ) (cut : Cut) → data_cut octets ≡ Some cut → octets ≡ cut.line ++ (codes ".\r\n" ++ cut.rest) }
{}

/// Data that a client sends of any lines are found exactly there, and say these lines again.
pub fn sent_data_are_found()
    ensures found { (octets : List ℕ) → IsEnded octets → (rest : List ℕ) → data_cut (sent octets rest) ≡ Some (record { line = stuffed octets; rest = rest }) }
    ensures back { (octets : List ℕ) → unstuffed (stuffed octets) ≡ octets }
{}

/// Each path of the grammar, and the null path, is found whole from its `<` to its `>` where it has no comments, after any word, also
/// where a space stands between, and where nothing follows or white does.
pub fn grammar_paths_are_found()
    ensures whole { (text : List ℕ) (answer : Option Address) → IsPathText text answer → (rest : List ℕ) → path_len Plain (text ++ rest) ≡ Some (length text) }
    ensures following { (word text : List ℕ) (answer : Option Address) → IsPathText text answer → (rest : List ℕ) → ends_word rest ≡ true
        → path_after word (word ++ (text ++ rest)) ≡ Some (record { path = text; rest = rest }) }
    ensures spaced { (word text : List ℕ) (answer : Option Address) → IsPathText text answer → (rest : List ℕ) → ends_word rest ≡ true
        → path_after word (word ++ 32 ∷ (text ++ rest)) ≡ Some (record { path = text; rest = rest }) }
{}
