//! The octets of a span.
ghost use Rattle.std.specs.Prelude.{◌≡◌, ◌+◌, ◌<◌, ◌≤◌, ◌∷◌, length};
ghost use Rattle.field_tokens.specs.Tokens.{octets_at};

use mail_wire::Span;

pub fn octets_of(text: &[u8], span: Span) -> &[u8]
    requires { span.at + span.len ≤ length text.now }
    ensures { result.now ≡ octets_at text.now span }
{
    let (_, following) = text.split_at(span.at);
    let (octets, _) = following.split_at(span.len);
    octets
}

/// The first octet, and what follows it.
pub fn split_mark(octets: &[u8]) -> (u8, &[u8])
    requires { 0 < length octets.now }
    ensures { octets.now ≡ result.0 ∷ result.1.now }
{
    (octets[0], &octets[1..])
}
