//! The parts of a field.
ghost use Rattle.std.specs.Prelude.{◌≡◌, not, position};
ghost use Rattle.mail_wire.specs.Spans.{IsSpan};
ghost use Rattle.utf8_fields.specs.Parts.{FieldParts, HasParts, IsField, SplitsEnding};
ghost use Rattle.utf8_fields.specs.private.Views.{parts_value};
ghost use Rattle.mail_wire.specs.Octets.{is_field_name_octet};

use mail_wire::split_white;

/// The parts of a field. The ending is CRLF, or nothing.
#[derive(Clone, Copy)]
pub struct Parts<'a> {
    pub name: &'a [u8],
    pub white: &'a [u8],
    pub body: &'a [u8],
    pub ending: &'a [u8],
}

// An octet of a field name: 33 to 126, and no colon.
fn is_name_octet(octet: u8) -> bool
    ensures { result ≡ is_field_name_octet octet }
{
    (33..=126).contains(&octet) && octet != b':'
}

// Where the first octet stands that isn't one of a name.
fn find_not_name(octets: &[u8]) -> Option<usize>
    ensures { result ≡ position (λ x. not (is_field_name_octet x)) octets.now }
{
    octets.iter().position(|octet| !is_name_octet(*octet))
}

/// The longest front of octets of a field name, and what follows it.
pub fn split_name(octets: &[u8]) -> (&[u8], &[u8])
    ensures { IsSpan is_field_name_octet octets.now result.0.now result.1.now }
{
    match find_not_name(octets) {
        Some(at) => octets.split_at(at),
        None => octets.split_at(octets.len()),
    }
}

/// What stands before a CRLF at the end, and the CRLF, if there is one.
pub fn split_ending(octets: &[u8]) -> (&[u8], &[u8])
    ensures { SplitsEnding octets.now result.0.now result.1.now }
{
    if octets.ends_with(b"\r\n") {
        octets.split_at(octets.len() - 2)
    } else {
        (octets, &[])
    }
}

/// The parts of a field. The body isn't looked at.
pub fn split_field(raw: &[u8]) -> Parts<'_>
    requires { IsField raw.now }
    ensures { (f : FieldParts) → HasParts raw.now f → parts_value result ≡ f }
{
    let (name, rest) = split_name(raw);
    let (white, rest) = split_white(rest);
    let (_, rest) = rest.split_at(1);
    let (body, ending) = split_ending(rest);
    Parts {
        name,
        white,
        body,
        ending,
    }
}
