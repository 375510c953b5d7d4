//! The writers of the two forms of an address.
ghost use Rattle.std.specs.Prelude.{◌≡◌, ◌<◌, [], ◌∷◌, ◌++◌, true, IfOk, OnOk};
ghost use Rattle.std.specs.List.{list_all};
ghost use Rattle.std.specs.Str.{IsUtf8};
ghost use Rattle.std.specs.Char.{encode_utf8};
ghost use Rattle.mail_wire.specs.Octets.{is_ascii};
ghost use Rattle.encapsulated_fields.specs.AddressForms.{upper_digit, digit_at, leading_digit, hexadecimal, escape_of, is_plain as is_plain_char, xtext_char, unitext_char, xtext_form, unitext_form};
ghost use Rattle.encapsulated_fields.specs.Xtext.{ReadsAs};

use mail_wire::{Memory, Octets};
use std::alloc::Global;

// An upper-case hexadecimal digit.
fn upper_digit(digit: u8) -> u8
    requires { digit < 16 }
    ensures { result ≡ upper_digit digit }
{
    match digit {
        0..=9 => b'0' + digit,
        _ => b'A' - 10 + digit,
    }
}

// Puts the digit at the place of this weight last.
fn push_digit(made: &mut Octets, weight: u32, number: u32) -> Result<(), Memory>
    requires { 0 < weight }
    ensures { OnOk result (made.new ≡ made.old ++ digit_at weight number ∷ []) }
{
    made.push(upper_digit((number / weight % 16) as u8))
}

// Puts that digit last where it is no leading zero.
fn push_leading(made: &mut Octets, weight: u32, number: u32) -> Result<(), Memory>
    requires { 0 < weight }
    ensures { OnOk result (made.new ≡ made.old ++ leading_digit weight number) }
{
    if number < weight {
        return Ok(());
    }
    push_digit(made, weight, number)
}

// Puts the number of a character last.
fn push_hexadecimal(made: &mut Octets, number: u32) -> Result<(), Memory>
    ensures { OnOk result (made.new ≡ made.old ++ hexadecimal number) }
{
    push_leading(made, 0x10_0000, number)?;
    push_leading(made, 0x1_0000, number)?;
    push_leading(made, 0x1000, number)?;
    push_leading(made, 0x100, number)?;
    push_digit(made, 0x10, number)?;
    push_digit(made, 1, number)
}

// Puts a character last by its number.
fn push_escape(made: &mut Octets, character: char) -> Result<(), Memory>
    ensures { OnOk result (made.new ≡ made.old ++ escape_of character) }
{
    made.push_slice(b"\\x{")?;
    push_hexadecimal(made, character as u32)?;
    made.push(b'}')
}

/// Puts a character last as it is.
pub(crate) fn push_char(made: &mut Octets, character: char) -> Result<(), Memory>
    ensures { OnOk result (made.new ≡ made.old ++ encode_utf8 character) }
{
    made.push_slice(character.encode_utf8(&mut [0; 4]).as_bytes())
}

// Whether a character stands for itself in both forms.
fn is_plain(character: char) -> bool
    ensures { result ≡ is_plain_char character }
{
    let is_visible = character > ' ' && character <= '~';
    is_visible && !(character == '+' || character == '=' || character == '\\')
}

// Puts what a character gives in the ASCII form last.
fn push_xtext(made: &mut Octets, character: char) -> Result<(), Memory>
    ensures { OnOk result (made.new ≡ made.old ++ xtext_char character) }
{
    if is_plain(character) {
        push_char(made, character)
    } else {
        push_escape(made, character)
    }
}

// Puts what a character gives in the UTF-8 form last.
fn push_unitext(made: &mut Octets, character: char) -> Result<(), Memory>
    ensures { OnOk result (made.new ≡ made.old ++ unitext_char character) }
{
    if is_plain(character) || !character.is_ascii() {
        push_char(made, character)
    } else {
        push_escape(made, character)
    }
}

/// The ASCII form of an address.
pub fn xtext_of(alloc: Global, address: &[u8]) -> Result<Octets, Memory>
    requires { IsUtf8 address.now }
    ensures form { IfOk result (λ text. text ≡ xtext_form address.now) }
    ensures ascii { IfOk result (λ text. list_all is_ascii text ≡ true) }
    ensures read_back { IfOk result (λ text. ReadsAs text address.now) }
{
    let Ok(characters) = str::from_utf8(address) else {
        unreachable!();
    };
    let mut text = Octets::new(alloc);
    for character in characters.chars() {
        push_xtext(&mut text, character)?;
    }
    Ok(text)
}

/// The UTF-8 form of an address.
pub fn unitext_of(alloc: Global, address: &[u8]) -> Result<Octets, Memory>
    requires { IsUtf8 address.now }
    ensures form { IfOk result (λ text. text ≡ unitext_form address.now) }
    ensures read_back { IfOk result (λ text. ReadsAs text address.now) }
{
    let Ok(characters) = str::from_utf8(address) else {
        unreachable!();
    };
    let mut text = Octets::new(alloc);
    for character in characters.chars() {
        push_unitext(&mut text, character)?;
    }
    Ok(text)
}
