//! The reader of extended values.
ghost use Rattle.std.specs.Prelude.{◌≡◌, ℕ, true, List, IfOk, IfSome, IfNone};
ghost use Rattle.std.specs.List.{list_all};
ghost use Rattle.std.specs.Str.{str_to_ascii_lowercase};
ghost use Rattle.encoded_words.specs.Words.{is_token_octet as is_name_octet_of, gives_text};
ghost use Rattle.encoded_words.specs.private.Values.{value_of};
ghost use Rattle.param_grammar.specs.Extended.{IsExtended, is_text_of, unit_of as unit_value};

use encoded_words::{Unit, are_name_octets, lower_case, names_text, split_at_byte};
use mail_wire::{Memory, Octets};
use std::alloc::Global;

/// The charset and the text of an extended value, and nothing exactly where it has none.
pub fn split_extended(value: &[u8]) -> Option<(&[u8], &[u8])>
    ensures found { IfSome result (λ x. IsExtended value.now x.0.now x.1.now) }
    ensures none { IfNone result ((charset text : List ℕ) → ¬ IsExtended value.now charset text) }
{
    let Some((charset, after)) = split_at_byte(value, b'\'') else {
        return None;
    };
    let Some((_, text)) = split_at_byte(after, b'\'') else {
        return None;
    };
    if !are_name_octets(charset) {
        return None;
    }
    Some((charset, text))
}

// Whether octets of a charset, or of none, are text.
fn is_text(charset: &[u8], octets: &[u8]) -> bool
    ensures { result ≡ is_text_of (str_to_ascii_lowercase charset.now) octets.now }
{
    if charset.is_empty() {
        str::from_utf8(octets).is_ok()
    } else {
        names_text(charset, octets)
    }
}

/// What octets of a charset, or of none, say. Where they are no text, they come from no encoded word.
#[tactic(auto, unfolding(crate::specs::Extended::unit_of))]
pub fn unit_of(alloc: Global, charset: &[u8], octets: Octets) -> Result<Unit, Memory>
    ensures { IfOk result (λ u. value_of u ≡ unit_value charset.now octets) }
{
    if is_text(charset, octets.as_slice()) {
        return Ok(Unit::Text(octets));
    }
    let charset = lower_case(alloc, charset)?;
    Ok(Unit::Opaque {
        charset,
        octets,
        source: Octets::new(alloc),
    })
}
