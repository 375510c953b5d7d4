//! Laws of addresses and their texts.
ghost use Rattle.std.specs.Prelude.{◌≡◌, ℕ, ◌⊎◌, false, List, Option, Some, IsUtf8};
ghost use Rattle.std.specs.List.{list_all};
ghost use Rattle.mail_wire.specs.Octets.{is_ascii};
ghost use Rattle.address_grammar.specs.Paths.{HasPath, ReadsPaths};
ghost use Rattle.encoded_words.specs.Words.{UnitValue};
ghost use Rattle.field_tokens.specs.Comments.{CommentValue};
ghost use Rattle.field_tokens.specs.Trees.{Tree};
ghost use Rattle.address_lists.specs.PhraseLists.{SaysPhrases, PhrasesPieces};
ghost use Rattle.address_lists.specs.private.PhraseListSteps.{ArePhrasesAgain};
ghost use Rattle.address_grammar.specs.AddressLists.{ElementValue, HasAddresses};
ghost use Rattle.address_lists.specs.ListPieces.{served_address, SaysAddresses, AddressesPieces};
ghost use Rattle.address_lists.specs.ListReadBack.{AreAddressesAgain};
ghost use Rattle.address_lists.specs.PathPieces.{SaysPath, PathPieces, IsPathAgain};
ghost use Rattle.address_grammar.specs.declared.Address.{Address};

/// A text is the path of one address at most, or of none.
pub fn paths_are_one()
    ensures { (text : List ℕ) (answer other : Option Address) → HasPath text answer → HasPath text other → answer ≡ other }
{}

/// The parts of a path's address are UTF-8.
pub fn paths_are_utf8()
    ensures local { (text : List ℕ) (address : Address) → HasPath text (Some address) → IsUtf8 address.local }
    ensures domain { (text : List ℕ) (address : Address) → HasPath text (Some address) → IsUtf8 address.domain }
{}

/// Some function gives what each path says.
pub fn paths_are_read()
    ensures { (path_of : List ℕ → Option (Option Address)) × ReadsPaths path_of }
{}

/// A text is one list of addresses at most, and so has one list of comments.
pub fn lists_are_one()
    ensures elements { (text : List ℕ) (es fs : List ElementValue) (cs ds : List Tree) → HasAddresses text es cs → HasAddresses text fs ds
        → es ≡ fs }
    ensures comments { (text : List ℕ) (es fs : List ElementValue) (cs ds : List Tree) → HasAddresses text es cs → HasAddresses text fs ds
        → cs ≡ ds }
{}

/// A text is phrases in one way at most, and they are written in one way.
pub fn phrases_are_one()
    ensures phrases { (text : List ℕ) (us vs : List (List UnitValue)) (cs ds : List CommentValue) → SaysPhrases text us cs → SaysPhrases text vs ds
        → us ≡ vs }
    ensures comments { (text : List ℕ) (us vs : List (List UnitValue)) (cs ds : List CommentValue) → SaysPhrases text us cs → SaysPhrases text vs ds
        → cs ≡ ds }
    ensures pieces { (text : List ℕ) (ps qs : List (List ℕ)) → PhrasesPieces text ps → PhrasesPieces text qs → ps ≡ qs }
{}

/// Of each text it is decided whether it is phrases, and it has pieces where it is.
pub fn phrases_are_there()
    ensures decided { (text : List ℕ) → ((phrases : List (List UnitValue)) × (comments : List CommentValue) × SaysPhrases text phrases comments)
        ⊎ ((phrases : List (List UnitValue)) (comments : List CommentValue) → ¬ SaysPhrases text phrases comments) }
    ensures pieces { (text : List ℕ) (phrases : List (List UnitValue)) (comments : List CommentValue) → SaysPhrases text phrases comments
        → (pieces : List (List ℕ)) × PhrasesPieces text pieces }
    ensures phrases { (text : List ℕ) (pieces : List (List ℕ)) → PhrasesPieces text pieces
        → (phrases : List (List UnitValue)) × (comments : List CommentValue) × SaysPhrases text phrases comments }
{}

/// The pieces of phrases, with a space between any two, are a text of phrases with the same units and comments, and each
/// of them is ASCII.
pub fn written_phrases_are_read_back()
    ensures { (text : List ℕ) (pieces : List (List ℕ)) (phrases : List (List UnitValue)) (comments : List CommentValue) → PhrasesPieces text pieces
        → SaysPhrases text phrases comments → ArePhrasesAgain phrases comments pieces }
{}

/// A text says one list of addresses at most, and so one list of comments, and is written in one way.
pub fn addresses_are_one()
    ensures elements { (text : List ℕ) (es fs : List ElementValue) (cs ds : List CommentValue) → SaysAddresses text es cs → SaysAddresses text fs ds
        → es ≡ fs }
    ensures comments { (text : List ℕ) (es fs : List ElementValue) (cs ds : List CommentValue) → SaysAddresses text es cs → SaysAddresses text fs ds
        → cs ≡ ds }
    ensures pieces { (text : List ℕ) (ps qs : List (List ℕ)) → AddressesPieces text ps → AddressesPieces text qs → ps ≡ qs }
{}

/// Of each text it is decided whether it says a list of addresses, and it has pieces exactly where it does.
pub fn addresses_are_there()
    ensures decided { (text : List ℕ) → ((elements : List ElementValue) × (comments : List CommentValue) × SaysAddresses text elements comments)
        ⊎ ((elements : List ElementValue) (comments : List CommentValue) → ¬ SaysAddresses text elements comments) }
    ensures pieces { (text : List ℕ) (elements : List ElementValue) (comments : List CommentValue) → SaysAddresses text elements comments
        → (pieces : List (List ℕ)) × AddressesPieces text pieces }
    ensures addresses { (text : List ℕ) (pieces : List (List ℕ)) → AddressesPieces text pieces
        → (elements : List ElementValue) × (comments : List CommentValue) × SaysAddresses text elements comments }
{}

/// The pieces of a list of addresses, with a space between any two, are a list of addresses again: its elements stand for the
/// others in order, its comments are the same, and each piece is ASCII.
pub fn written_addresses_are_read_back()
    ensures { (text : List ℕ) (pieces : List (List ℕ)) (elements : List ElementValue) (comments : List CommentValue)
        → list_all is_ascii text ≡ false → AddressesPieces text pieces → SaysAddresses text elements comments
        → AreAddressesAgain elements comments pieces }
{}

/// A text says one path at most, and so one list of comments, and is written in one way.
pub fn served_paths_are_one()
    ensures answer { (text : List ℕ) (a b : Option Address) (cs ds : List CommentValue) → SaysPath text a cs → SaysPath text b ds → a ≡ b }
    ensures comments { (text : List ℕ) (a b : Option Address) (cs ds : List CommentValue) → SaysPath text a cs → SaysPath text b ds → cs ≡ ds }
    ensures pieces { (text : List ℕ) (ps qs : List (List ℕ)) → PathPieces text ps → PathPieces text qs → ps ≡ qs }
{}

/// Of each text it is decided whether it says a path, and it has pieces exactly where that is one of an address that can be
/// served.
pub fn served_paths_are_there()
    ensures decided { (text : List ℕ) → ((answer : Option Address) × (comments : List CommentValue) × SaysPath text answer comments)
        ⊎ ((answer : Option Address) (comments : List CommentValue) → ¬ SaysPath text answer comments) }
    ensures pieces { (text : List ℕ) (address served : Address) (comments : List CommentValue) → SaysPath text (Some address) comments
        → served_address address ≡ Some served → (pieces : List (List ℕ)) × PathPieces text pieces }
    ensures paths { (text : List ℕ) (pieces : List (List ℕ)) → PathPieces text pieces
        → (address : Address) × (comments : List CommentValue) × SaysPath text (Some address) comments }
{}

/// The pieces of a path, with a space between any two, are the path of the same address as it is served, with the same
/// comments, and each of them is ASCII.
pub fn written_paths_are_read_back()
    ensures { (text : List ℕ) (pieces : List (List ℕ)) (address : Address) (comments : List CommentValue) → PathPieces text pieces
        → SaysPath text (Some address) comments → IsPathAgain address comments pieces }
{}
