//! What a reply means, and what a server offers.
ghost use Rattle.std.specs.Prelude.{◌≡◌, drop, position};
ghost use Rattle.mail_wire.specs.Octets.{is_nonwhite, is_white};
ghost use Rattle.relay_choice.specs.Offers.{is_completed as is_completed_code, is_intermediate as is_intermediate_code, is_permanent as is_permanent_code, keyword_of, offers, offer_of as offer_of_reply};

use crate::plans::Offer;
use crate::replies::Reply;
use mail_wire::{Octets, is_same_name, is_white};

/// Whether what was asked for is done.
pub fn is_completed(code: u16) -> bool
    ensures { result ≡ is_completed_code code }
{
    200 <= code && code < 300
}

/// Whether more is awaited, as the data are.
pub fn is_intermediate(code: u16) -> bool
    ensures { result ≡ is_intermediate_code code }
{
    300 <= code && code < 400
}

/// Whether what was asked for is refused for good.
pub fn is_permanent(code: u16) -> bool
    ensures { result ≡ is_permanent_code code }
{
    500 <= code && code < 600
}

fn find_white(text: &[u8]) -> Option<usize>
    ensures { result ≡ position is_white text.now }
{
    text.iter().position(|octet| is_white(*octet))
}

fn find_nonwhite(text: &[u8]) -> Option<usize>
    ensures { result ≡ position is_nonwhite text.now }
{
    text.iter().position(|octet| !is_white(*octet))
}

// The first word of a text.
fn keyword_of(text: &[u8]) -> &[u8]
    ensures { result.now ≡ keyword_of text.now }
{
    let (_, text) = text.split_at(find_nonwhite(text).unwrap_or(text.len()));
    let (word, _) = text.split_at(find_white(text).unwrap_or(text.len()));
    word
}

// Whether one of the texts begins with this keyword.
fn offers(keyword: &[u8], texts: &[Octets]) -> bool
    ensures { result ≡ offers keyword.now texts.now }
{
    texts
        .iter()
        .any(|text| is_same_name(keyword_of(text.as_slice()), keyword))
}

// All texts but the first.
fn after_first(texts: &[Octets]) -> &[Octets]
    ensures { result.now ≡ drop 1 texts.now }
{
    match texts {
        [] => texts,
        [_, others @ ..] => others,
    }
}

/// What the reply to EHLO offers.
pub fn offer_of(reply: &Reply) -> Offer
    ensures { result ≡ offer_of_reply reply.now }
{
    let texts = after_first(reply.lines.as_slice());
    let eight = offers(b"8bitmime", texts);
    Offer {
        smtputf8: eight && offers(b"smtputf8", texts),
        eight,
    }
}
