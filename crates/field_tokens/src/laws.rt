//! Laws of texts and their tokens.
ghost use Rattle.std.specs.Prelude.{◌≡◌, ℕ, List, [], IsUtf8};
ghost use Rattle.std.specs.List.{flat_map};
ghost use Rattle.field_tokens.specs.Squeezed.{squeezed_text, runs_of, squeezed_values, comments_of, words_of, joined_by_spaces};
ghost use Rattle.field_tokens.specs.Tokens.{TokenValue, tokens_from, HasTokens, HasTokenValues, octets_at};
ghost use Rattle.field_tokens.specs.Trees.{Tree, HasComment};
ghost use Rattle.field_tokens.specs.Comments.{IsComment, CommentValue, CommentSays, CommentPieces, IsWritten};
ghost use Rattle.field_tokens.specs.declared.Style.{Style};
ghost use Rattle.field_tokens.specs.declared.Token.{Token};

/// In each style a text has one list of tokens at most.
pub fn tokens_are_one()
    ensures { (style : Style) (text : List ℕ) (tokens others : List Token) → HasTokens style text tokens
        → HasTokens style text others → tokens ≡ others }
{}

/// The octets of its tokens, one after another, are the text.
pub fn tokens_join()
    ensures { (style : Style) (text : List ℕ) (tokens : List Token) → HasTokens style text tokens
        → flat_map (λ token. octets_at text token.span) tokens ≡ text }
{}

/// A comment has one tree.
pub fn comment_trees_are_one()
    ensures { (text : List ℕ) (token : Token) (tree other : Tree) → HasComment text token tree → HasComment text token other
        → tree ≡ other }
{}

/// Squeezed text is one text, by the places of tokens and by their octets. Its tokens are those of the text without gaps
/// and comments, with a space where one stood between two of them, and it is squeezed to itself.
pub fn squeezed_texts_have_tokens()
    ensures text { (style : Style) (text : List ℕ) (tokens : List TokenValue) → HasTokenValues style text tokens
        → squeezed_text text (tokens_from 0 tokens) ≡ squeezed_values tokens }
    ensures tokens { (style : Style) (text : List ℕ) (tokens : List TokenValue) → HasTokenValues style text tokens
        → HasTokenValues style (squeezed_values tokens) (joined_by_spaces (runs_of tokens)) }
    ensures again { (style : Style) (text : List ℕ) (tokens : List TokenValue) → HasTokenValues style text tokens
        → squeezed_values (joined_by_spaces (runs_of tokens)) ≡ squeezed_values tokens }
    ensures comments { (style : Style) (text : List ℕ) (tokens : List TokenValue) → HasTokenValues style text tokens
        → comments_of (joined_by_spaces (runs_of tokens)) ≡ [] }
    ensures words { (style : Style) (text : List ℕ) (tokens : List TokenValue) → HasTokenValues style text tokens
        → words_of (joined_by_spaces (runs_of tokens)) ≡ words_of tokens }
{}

/// A comment says one thing, and has one list of pieces.
pub fn comments_are_one()
    ensures value { (octets : List ℕ) (value other : CommentValue) → CommentSays octets value → CommentSays octets other
        → value ≡ other }
    ensures pieces { (octets : List ℕ) (pieces others : List (List ℕ)) → CommentPieces octets pieces
        → CommentPieces octets others → pieces ≡ others }
{}

/// Every comment says something, and every comment of UTF-8 has pieces.
pub fn comments_are_there()
    ensures value { (octets : List ℕ) → IsComment octets → (value : CommentValue) × CommentSays octets value }
    ensures pieces { (octets : List ℕ) → IsComment octets → IsUtf8 octets → (pieces : List (List ℕ)) × CommentPieces octets pieces }
{}

/// The pieces of a comment, with a space between any two, are an ASCII comment that says the same.
pub fn written_comments_are_read_back()
    ensures { (octets : List ℕ) (value : CommentValue) (pieces : List (List ℕ)) → IsUtf8 octets → IsComment octets
        → CommentSays octets value → CommentPieces octets pieces → IsWritten value pieces }
{}
