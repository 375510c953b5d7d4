//! Strings and lists of a reply (RFC 3501, 4.3 and 4.4).
ghost use Rattle.std.specs.Prelude.{◌≡◌, ◌++◌, ◌∷◌, [], decimal, OnOk, IfOk};
ghost use Rattle.std.specs.Option.{option_copied};
ghost use Rattle.encoded_words.specs.private.Parts.{lacks};
ghost use Rattle.imap_views.specs.Strings.{nstring, before_mark, after_mark};

use address_grammar::push_quoted_string;
use encoded_words::split_at_byte;
use mail_wire::{Memory, Octets};
use std::alloc::Global;

/// Puts a quoted string last, or NIL.
pub fn push_nstring(made: &mut Octets, content: Option<&[u8]>) -> Result<(), Memory>
    ensures { OnOk result (made.new ≡ made.old ++ nstring (option_copied content.entry)) }
{
    match content {
        Some(content) => push_quoted_string(made, content),
        None => made.push_slice(b"NIL"),
    }
}

/// Puts a space and a text last.
pub fn push_after_space(made: &mut Octets, text: &[u8]) -> Result<(), Memory>
    ensures { OnOk result (made.new ≡ made.old ++ 32 ∷ text.now) }
{
    made.push(b' ')?;
    made.push_slice(text)
}

/// Puts a number last.
pub fn push_number(alloc: Global, made: &mut Octets, number: usize) -> Result<(), Memory>
    ensures { OnOk result (made.new ≡ made.old ++ decimal number) }
{
    let text = format!(in alloc; "{number}")?;
    made.push_slice(text.as_bytes())
}

/// The octets of an optional text.
pub fn slice_of(text: &Option<Octets>) -> Option<&[u8]>
    ensures { option_copied result ≡ text.now }
{
    match text {
        Some(text) => Some(text.as_slice()),
        None => None,
    }
}

/// What stands before the first such octet, and what stands after it.
pub fn split_mark(octets: &[u8], mark: u8) -> (&[u8], &[u8])
    ensures before { result.0.now ≡ before_mark mark octets.now }
    ensures following { result.1.now ≡ after_mark mark octets.now }
{
    match split_at_byte(octets, mark) {
        Some((before, following)) => (before, following),
        None => (octets, &[]),
    }
}
