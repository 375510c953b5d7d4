//! Laws of texts and their units.
ghost use Rattle.std.specs.Prelude.{◌≡◌, ℕ, true, List, [], ◌∷◌, IsUtf8};
ghost use Rattle.std.specs.List.{AllByRecursion, join_with_byte};
ghost use Rattle.encoded_words.specs.Words.{UnitValue};
ghost use Rattle.encoded_words.specs.Units.{HasUnits};
ghost use Rattle.encoded_words.specs.CommentUnits.{HasCommentUnits};
ghost use Rattle.encoded_words.specs.PhraseUnits.{PhraseItem, Content, IsUtf8Item, HasPhraseUnits, separated};
ghost use Rattle.encoded_words.specs.WrittenWords.{AreWordsOf};
ghost use Rattle.encoded_words.specs.Written.{AreUnits, AreWritable, WriteAll, has_no_backslash};

/// A text or a phrase has one list of units.
pub fn units_are_one()
    ensures unstructured { (text : List ℕ) (us vs : List UnitValue) → HasUnits text us → HasUnits text vs → us ≡ vs }
    ensures comment { (text : List ℕ) (us vs : List UnitValue) → HasCommentUnits text us → HasCommentUnits text vs → us ≡ vs }
    ensures phrase { (items : List PhraseItem) (us vs : List UnitValue) → HasPhraseUnits items us → HasPhraseUnits items vs
        → us ≡ vs }
{}

/// Every text and every phrase has units.
pub fn units_are_there()
    ensures unstructured { (text : List ℕ) → (units : List UnitValue) × HasUnits text units }
    ensures comment { (text : List ℕ) → (units : List UnitValue) × HasCommentUnits text units }
    ensures phrase { (items : List PhraseItem) → (units : List UnitValue) × HasPhraseUnits items units }
{}

/// Units of text never touch, and none is empty.
pub fn units_are_apart()
    ensures unstructured { (text : List ℕ) (units : List UnitValue) → HasUnits text units → AreUnits units }
    ensures comment { (text : List ℕ) (units : List UnitValue) → HasCommentUnits text units → AreUnits units }
    ensures phrase { (items : List PhraseItem) (units : List UnitValue) → HasPhraseUnits items units → AreUnits units }
{}

/// The units of UTF-8 can be written.
pub fn units_are_writable()
    ensures unstructured { (text : List ℕ) (units : List UnitValue) → IsUtf8 text → HasUnits text units → AreWritable units }
    ensures comment { (text : List ℕ) (units : List UnitValue) → IsUtf8 text → HasCommentUnits text units → AreWritable units }
    ensures phrase { (items : List PhraseItem) (units : List UnitValue) → AllByRecursion IsUtf8Item items
        → HasPhraseUnits items units → AreWritable units }
{}

/// A text has one list of encoded words.
pub fn words_are_one()
    ensures { (text : List ℕ) (words others : List (List ℕ)) → AreWordsOf text words → AreWordsOf text others → words ≡ others }
{}

/// Units that are written, with a space between any two pieces, are read back. (In a comment a backslash quotes, and
/// what an opaque unit comes from may hold one.)
pub fn written_units_are_read_back()
    ensures unstructured { (units : List UnitValue) (pieces : List (List ℕ)) → AreUnits units → AreWritable units → WriteAll units pieces
        → HasUnits (join_with_byte 32 pieces) units }
    ensures comment { (units : List UnitValue) (pieces : List (List ℕ)) → AreUnits units → AreWritable units → WriteAll units pieces
        → has_no_backslash (join_with_byte 32 pieces) ≡ true → HasCommentUnits (join_with_byte 32 pieces) units }
    ensures phrase { (units : List UnitValue) (pieces : List (List ℕ)) → AreUnits units → AreWritable units → WriteAll units pieces
        → HasPhraseUnits (separated pieces) units }
    // A phrase is never empty (RFC 5322, 3.2.5), so no units are written as an empty quoted string.
    ensures no_units { HasPhraseUnits (Content [] ∷ []) [] }
{}
