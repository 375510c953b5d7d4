//! The reader of names.
ghost use Rattle.std.specs.Prelude.{◌≡◌, ◌≢◌, ◌↔◌, ℕ, Bool, true, List, [], ◌∷◌, ◌++◌, IsTrue, false, Option, position, ◌==◌, IfSome, IfNone};
ghost use Rattle.std.specs.Option.{option_copied};
ghost use Rattle.encoded_words.specs.private.Parts.{lacks};
ghost use Rattle.encoded_words.specs.Words.{language_suffix};
ghost use Rattle.param_grammar.specs.Names.{leads_with_zero as leads_with_zero_of, IsNumber, NameParts, HasNameParts, HasSuffix, HasAfter, IsBase, star_suffix, parts_value};

use encoded_words::split_at_byte;
use mail_wire::{are_digits, is_ascii};

/// A parameter's name by its parts.
#[derive(Clone, Copy, Debug)]
pub struct Name<'a> {
    /// What the parameter is called.
    pub base: &'a [u8],
    /// The digits of its piece's number, where it is a piece.
    pub number: Option<&'a [u8]>,
    /// Whether the value has `%XX` for octets.
    pub is_extended: bool,
}

// What stands before the first star, and what stands after it.
fn cut_name(name: &[u8]) -> (&[u8], Option<&[u8]>)
    ensures spelled { name.now ≡ result.0.now ++ language_suffix (option_copied result.1) }
    ensures first { lacks 42 result.0.now ≡ true }
{
    match split_at_byte(name, b'*') {
        Some((base, suffix)) => (base, Some(suffix)),
        None => (name, None),
    }
}

// Whether a zero stands before other digits.
fn leads_with_zero(digits: &[u8]) -> bool
    ensures { result ≡ leads_with_zero_of digits.now }
{
    matches!(digits, [b'0', _, ..])
}

// Whether octets are the digits of a piece's number.
fn is_number(octets: &[u8]) -> bool
    ensures { IsTrue result ↔ IsNumber octets.now }
{
    !octets.is_empty() && are_digits(octets) && !leads_with_zero(octets)
}

// What stands before a star at the end, and whether one stands there.
fn cut_star(suffix: &[u8]) -> (&[u8], bool)
    ensures spelled { suffix.now ≡ result.0.now ++ star_suffix result.1 }
    ensures none { result.1 ≡ false → (front : List ℕ) → suffix.now ≢ front ++ 42 ∷ [] }
{
    match suffix {
        [digits @ .., b'*'] => (digits, true),
        _ => (suffix, false),
    }
}

// What stands after a name's first star.
fn read_suffix(suffix: &[u8]) -> Option<(Option<&[u8]>, bool)>
    ensures found { IfSome result (λ x. HasSuffix suffix.now (option_copied x.0) x.1) }
    ensures none { IfNone result ((number : Option (List ℕ)) (is_extended : Bool) → ¬ HasSuffix suffix.now number is_extended) }
{
    if suffix.is_empty() {
        return Some((None, true));
    }
    let (digits, is_extended) = cut_star(suffix);
    if !is_number(digits) {
        return None;
    }
    Some((Some(digits), is_extended))
}

// The number of a piece and the mark of extended values, as they stand after a name's base.
fn read_after(following: Option<&[u8]>) -> Option<(Option<&[u8]>, bool)>
    ensures found { IfSome result (λ x. HasAfter (option_copied following.entry) (option_copied x.0) x.1) }
    ensures none { IfNone result ((number : Option (List ℕ)) (is_extended : Bool)
        → ¬ HasAfter (option_copied following.entry) number is_extended) }
{
    match following {
        Some(suffix) => read_suffix(suffix),
        None => Some((None, false)),
    }
}

// Whether octets are what a parameter may be called.
fn is_base(octets: &[u8]) -> bool
    ensures { IsTrue result ↔ IsBase octets.now }
{
    !octets.is_empty() && octets.len() <= 60 && is_ascii(octets)
}

/// The parts of a name, and nothing exactly where it has none.
pub fn read_name(name: &[u8]) -> Option<Name<'_>>
    ensures found { IfSome result (λ p. HasNameParts name.now (parts_value p)) }
    ensures none { IfNone result ((p : NameParts) → ¬ HasNameParts name.now p) }
{
    let (base, following) = cut_name(name);
    if !is_base(base) {
        return None;
    }
    let Some((number, is_extended)) = read_after(following) else {
        return None;
    };
    Some(Name {
        base,
        number,
        is_extended,
    })
}
