//! Laws of texts and their parameters.
ghost use Rattle.std.specs.Prelude.{◌≡◌, ℕ, ◌⊎◌, Bool, List};
ghost use Rattle.field_tokens.specs.Comments.{CommentValue};
ghost use Rattle.field_tokens.specs.Trees.{Tree};
ghost use Rattle.param_grammar.specs.declared.ParamKind.{ParamKind};
ghost use Rattle.param_grammar.specs.declared.Piece.{Piece};
ghost use Rattle.param_grammar.specs.Bodies.{HasBody};
ghost use Rattle.param_grammar.specs.Joining.{ParamValue, HasParams, SaysParams};
ghost use Rattle.param_2231.specs.Layout.{ParamsPieces};
ghost use Rattle.param_2231.specs.ParamsReadBack.{AreParamsAgain};

/// A text of each kind is read in one way at most.
pub fn parameters_are_one()
    ensures pieces { (kind : ParamKind) (text main other : List ℕ) (ps qs : List Piece) (ts us : List Tree)
        → HasBody kind text main ps ts → HasBody kind text other qs us → (main ≡ other) × (ps ≡ qs) × (ts ≡ us) }
    ensures parameters { (kind : ParamKind) (text main other : List ℕ) (ps qs : List ParamValue) (ts us : List Tree)
        → HasParams kind text main ps ts → HasParams kind text other qs us → (main ≡ other) × (ps ≡ qs) × (ts ≡ us) }
{}

/// A text says one main part, one list of parameters and one list of comments at most, and is written in one way.
pub fn params_are_said_once()
    ensures main { (kind : ParamKind) (text main other : List ℕ) (ps qs : List ParamValue) (cs ds : List CommentValue)
        → SaysParams kind text main ps cs → SaysParams kind text other qs ds → main ≡ other }
    ensures params { (kind : ParamKind) (text main other : List ℕ) (ps qs : List ParamValue) (cs ds : List CommentValue)
        → SaysParams kind text main ps cs → SaysParams kind text other qs ds → ps ≡ qs }
    ensures comments { (kind : ParamKind) (text main other : List ℕ) (ps qs : List ParamValue) (cs ds : List CommentValue)
        → SaysParams kind text main ps cs → SaysParams kind text other qs ds → cs ≡ ds }
    ensures pieces { (kind : ParamKind) (open_global : Bool) (text : List ℕ) (ps qs : List (List ℕ)) → ParamsPieces kind open_global text ps
        → ParamsPieces kind open_global text qs → ps ≡ qs }
{}

/// Of each text it is decided whether it says parameters, and it has pieces exactly where it does.
pub fn params_are_there()
    ensures decided { (kind : ParamKind) (text : List ℕ)
        → ((main : List ℕ) × (params : List ParamValue) × (comments : List CommentValue) × SaysParams kind text main params comments)
        ⊎ ((main : List ℕ) (params : List ParamValue) (comments : List CommentValue) → ¬ SaysParams kind text main params comments) }
    ensures pieces { (kind : ParamKind) (open_global : Bool) (text main : List ℕ) (params : List ParamValue) (comments : List CommentValue)
        → SaysParams kind text main params comments → (pieces : List (List ℕ)) × ParamsPieces kind open_global text pieces }
    ensures params { (kind : ParamKind) (open_global : Bool) (text : List ℕ) (pieces : List (List ℕ)) → ParamsPieces kind open_global text pieces
        → (main : List ℕ) × (params : List ParamValue) × (comments : List CommentValue) × SaysParams kind text main params comments }
{}

/// The pieces of a text, with a space between any two, are a text with the same parameters and comments, and with the main part
/// as it is served.
pub fn written_params_are_read_back()
    ensures { (kind : ParamKind) (open_global : Bool) (text : List ℕ) (pieces : List (List ℕ)) (main : List ℕ) (params : List ParamValue)
        (comments : List CommentValue) → ParamsPieces kind open_global text pieces → SaysParams kind text main params comments
        → AreParamsAgain kind open_global main params comments pieces }
{}
