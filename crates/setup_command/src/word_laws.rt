//! Laws of the words of commands.
ghost use Rattle.std.specs.Prelude.{◌≡◌, ℕ, List};
ghost use Rattle.address_grammar.specs.declared.Address.{Address};
ghost use Rattle.setup_command.specs.WordForms.{IsAccountByInput, IsAccountCommand, IsDomainCommand, IsHelpCommand};

/// Words are those of one command at most, and name one thing.
pub fn words_have_one_meaning()
    ensures address { (words : List (List ℕ)) (a b : Address) (p q : List ℕ) → IsAccountCommand words a p → IsAccountCommand words b q → a ≡ b }
    ensures password { (words : List (List ℕ)) (a b : Address) (p q : List ℕ) → IsAccountCommand words a p → IsAccountCommand words b q → p ≡ q }
    ensures by_input { (words : List (List ℕ)) (a b : Address) → IsAccountByInput words a → IsAccountByInput words b → a ≡ b }
    ensures domain { (words : List (List ℕ)) (a b : List ℕ) → IsDomainCommand words a → IsDomainCommand words b → a ≡ b }
    ensures account_alone { (words : List (List ℕ)) (a : Address) (p : List ℕ) → IsAccountCommand words a p → ((name : List ℕ) → ¬ IsDomainCommand words name) × ¬ IsHelpCommand words }
    ensures by_input_alone { (words : List (List ℕ)) (a : Address) → IsAccountByInput words a
        → ((b : Address) (p : List ℕ) → ¬ IsAccountCommand words b p) × ((name : List ℕ) → ¬ IsDomainCommand words name) × ¬ IsHelpCommand words }
    ensures domain_alone { (words : List (List ℕ)) (name : List ℕ) → IsDomainCommand words name → ¬ IsHelpCommand words }
{}
