//! The rewriting of parameters in ASCII.
ghost use Rattle.std.specs.Prelude.{◌≡◌, ◌<◌, ◌++◌, ℕ, [], true, false, List, length, take, codes, IfOk, IfSome, IfNone, OnOk};
ghost use Rattle.std.specs.List.{list_all};
ghost use Rattle.std.specs.Str.{str_to_ascii_lowercase};
ghost use Rattle.encoded_words.specs.Folding.{AddsLines};
ghost use Rattle.field_tokens.specs.declared.Style.TheVariants.{Mime};
ghost use Rattle.field_tokens.specs.Comments.{CommentValue, CommentsPieces};
ghost use Rattle.field_tokens.specs.Squeezed.{comments_of};
ghost use Rattle.field_tokens.specs.Tokens.{TokenValue, HasTokenValues};
ghost use Rattle.param_grammar.specs.declared.Piece.{Piece};
ghost use Rattle.param_grammar.specs.Joining.{ParamValue, params_of, unit_at, HasSaidBody, SaysParams};
ghost use Rattle.param_grammar.specs.Placed.{HasPlaced};
ghost use Rattle.param_grammar.specs.Places.{IsPlaced, piece_in};
ghost use Rattle.param_2231.specs.Layout.{ParamPieces, PieceGives, PiecesGive, is_global as is_global_of, written_main as written_main_of, ParamsPieces};
ghost use Rattle.param_2231.specs.ParamsReadBack.{AreParamsAgain};
ghost use Rattle.param_2231.specs.private.Given.{is_no_parenthesis, is_ascii_role, SaysPlaced};
ghost use Rattle.param_2231.specs.private.Lines.{AddsAfter, line_after};

use crate::writing::{begin_line, push_param};
use encoded_words::{lower_case, push_line};
use field_tokens::{Lexemes, Style, read_marks, write_comments};
use mail_wire::{Memory, Octets};
use param_grammar::{
    ParamFault, ParamKind, Place, Placed, Role, Tokens, base_at, place_pieces, push_written,
    read_parts,
};
use std::alloc::Global;

// Puts the piece at a place last as it is written, on a line after a semicolon.
fn push_copy(text: &[u8], place: Place, made: &mut Octets) -> Result<(), Memory>
    ensures { (piece : Piece) → IsPlaced text.now place piece → OnOk result (made.new ≡ made.old ++ line_after (codes ";") piece.written) }
{
    begin_line(made, b";")?;
    push_written(made, text, place)
}

// Whether a main part is the type of messages whose headers are UTF-8.
fn is_global(kind: ParamKind, main: &[u8]) -> bool
    ensures { result ≡ is_global_of kind (str_to_ascii_lowercase main.now) }
{
    match kind {
        ParamKind::Content => main.eq_ignore_ascii_case(b"message/global"),
        ParamKind::Disposition => false,
    }
}

// A main part, opened where it is the type of messages whose headers are UTF-8.
fn written_main(kind: ParamKind, open_global: bool, main: &[u8]) -> &[u8]
    ensures { result.now ≡ written_main_of open_global kind (str_to_ascii_lowercase main.now) main.now }
{
    if open_global && is_global(kind, main) {
        return b"message/rfc822";
    }
    main
}

// Puts the pieces of the parameter last that begins with a piece.
fn push_begun(
    alloc: Global,
    text: &[u8],
    placed: &Placed,
    number: usize,
    is_doubled: bool,
    made: &mut Octets,
) -> Result<(), Memory>
    requires number { number < length placed.now.places.items }
    requires placed { (pieces : List Piece) × HasPlaced text.now placed.now pieces }
    ensures { (pieces : List Piece) → HasPlaced text.now placed.now pieces
        → OnOk result (AddsAfter (codes ";") (ParamPieces is_doubled (piece_in pieces number).base (unit_at pieces (piece_in pieces number))) made.old made.new) }
{
    let name = lower_case(alloc, base_at(text, placed.places[number]))?;
    let unit = placed.unit(alloc, text, number)?;
    push_param(name.as_slice(), &unit, is_doubled, b";", made)
}

// Whether a role is that of a piece of an ASCII parameter.
fn is_ascii(role: Role) -> bool
    ensures { result ≡ is_ascii_role role }
{
    match role {
        Role::GoesOn { is_ascii } => is_ascii,
        Role::Begins { is_ascii, .. } => is_ascii,
    }
}

// Puts what a piece gives last.
fn push_given(
    alloc: Global,
    text: &[u8],
    placed: &Placed,
    number: usize,
    made: &mut Octets,
) -> Result<(), Memory>
    requires number { number < length placed.now.places.items }
    requires placed { (pieces : List Piece) × HasPlaced text.now placed.now pieces }
    ensures { (pieces : List Piece) → HasPlaced text.now placed.now pieces
        → OnOk result (AddsAfter (codes ";") (PieceGives pieces (params_of pieces) (take number pieces) (piece_in pieces number)) made.old made.new) }
{
    let role = placed.roles[number];
    if is_ascii(role) {
        return push_copy(text, placed.places[number], made);
    }
    match role {
        Role::GoesOn { .. } => Ok(()),
        Role::Begins { is_doubled, .. } => {
            push_begun(alloc, text, placed, number, is_doubled, made)
        }
    }
}

// Puts what the pieces give last, each line after a semicolon.
fn push_all_given(
    alloc: Global,
    text: &[u8],
    placed: &Placed,
    made: &mut Octets,
) -> Result<(), Memory>
    requires { (pieces : List Piece) × HasPlaced text.now placed.now pieces }
    ensures { (pieces : List Piece) → HasPlaced text.now placed.now pieces
        → OnOk result (AddsAfter (codes ";") (PiecesGive pieces (params_of pieces) [] pieces) made.old made.new) }
{
    for number in 0..placed.places.len() {
        push_given(alloc, text, placed, number, made)?;
    }
    Ok(())
}

// Whether no octet opens a comment.
fn has_no_parenthesis(text: &[u8]) -> bool
    ensures { result ≡ list_all is_no_parenthesis text.now }
{
    text.iter().all(|octet| *octet != b'(')
}

// Puts the pieces of the comments of a text last.
fn push_comments(alloc: Global, text: &[u8], made: &mut Octets) -> Result<(), Memory>
    requires { (tokens : List TokenValue) × HasTokenValues Mime text.now tokens }
    ensures { (tokens : List TokenValue) → HasTokenValues Mime text.now tokens → OnOk result (AddsLines (CommentsPieces (comments_of tokens)) made.old made.new) }
{
    // most texts have no comments
    if has_no_parenthesis(text) {
        return Ok(());
    }
    let Some(marks) = read_marks(alloc, Style::Mime, text)? else {
        unreachable!();
    };
    write_comments(alloc, Lexemes::new(text, &marks), made)
}

// The pieces of a text by their places, and its main part as it is written. Nothing exactly where it has no parameters.
fn read_placed(
    alloc: Global,
    kind: ParamKind,
    text: &[u8],
) -> Result<Option<(Octets, Placed)>, Memory>
    ensures found { IfOk result (λ o. IfSome o (λ x. SaysPlaced kind text.now x.0 x.1)) }
    ensures none { IfOk result (λ o. IfNone o ((main : List ℕ) (params : List ParamValue) → ¬ HasSaidBody kind text.now main params)) }
{
    let Some(marks) = read_marks(alloc, Style::Mime, text)? else {
        return Ok(None);
    };
    let parts = read_parts(alloc, kind, text, Tokens::new(text, &marks));
    drop(marks);
    let Some((main, places)) = parts? else {
        return Ok(None);
    };
    match place_pieces(alloc, text, places)? {
        Some(placed) => Ok(Some((main, placed))),
        None => Ok(None),
    }
}

// Puts the pieces of a text last. Answers whether it has parameters.
fn write_all(
    alloc: Global,
    kind: ParamKind,
    text: &[u8],
    open_global: bool,
    made: &mut Octets,
) -> Result<bool, Memory>
    ensures found { IfOk result (λ is. is ≡ true → AddsLines (ParamsPieces kind open_global text.now) made.old made.new) }
    ensures none { IfOk result (λ is. is ≡ false → (main : List ℕ) (params : List ParamValue) → ¬ HasSaidBody kind text.now main params) }
    ensures unchanged { IfOk result (λ is. is ≡ false → made.new ≡ made.old) }
{
    let Some((main, placed)) = read_placed(alloc, kind, text)? else {
        return Ok(false);
    };
    push_line(made, written_main(kind, open_global, main.as_slice()))?;
    push_all_given(alloc, text, &placed, made)?;
    drop(placed);
    push_comments(alloc, text, made)?;
    Ok(true)
}

/// Puts the pieces of a text in ASCII last, each on a line of its own after a space: its main part, its parameters and its
/// comments. `open_global` says that the type of messages whose headers are UTF-8 becomes the type of other messages. After
/// want of memory a front of these lines was put.
pub fn rewrite_params(
    alloc: Global,
    kind: ParamKind,
    text: &[u8],
    open_global: bool,
    made: &mut Octets,
) -> Result<(), ParamFault>
    ensures layout { OnOk result (AddsLines (ParamsPieces kind open_global text.now) made.old made.new) }
    // With a space between any two they are read as the same parameters and comments.
    ensures read_back { OnOk result (AddsLines (λ pieces. (main : List ℕ) (params : List ParamValue) (comments : List CommentValue)
        → SaysParams kind text.now main params comments → AreParamsAgain kind open_global main params comments pieces) made.old made.new) }
    ensures malformed { result ≡ Err ParamFault.Malformed → (main : List ℕ) (params : List ParamValue)
        → ¬ HasSaidBody kind text.now main params }
    ensures unchanged { result ≡ Err ParamFault.Malformed → made.new ≡ made.old }
{
    match write_all(alloc, kind, text, open_global, made) {
        Ok(true) => Ok(()),
        Ok(false) => Err(ParamFault::Malformed),
        Err(_) => Err(ParamFault::Memory),
    }
}
