//! The date of a report.
ghost use Rattle.std.specs.Prelude.{◌↔◌, ◌≡◌, ◌++◌, ◌≤◌, ℕ, List, codes, take, length, IsTrue};
ghost use Rattle.httpdate.specs.Date.{date_text};
ghost use Rattle.httpdate.specs.declared.date.HttpDate.{HttpDate as Date};
ghost use Rattle.utf8_reports.specs.private.Reading.{IsSomeDate};

use crate::fields::following;
use httpdate::HttpDate;

// The octets of a date's text, but for its zone.
const FRONT: usize = 26;

// The text that HTTP has for a date whose text begins so.
fn http_text(front: &[u8]) -> [u8; 29]
    requires { length front.now ≡ 26 }
    ensures { result ≡ front.now ++ codes "GMT" }
{
    let mut text = *b"                          GMT";
    text[..FRONT].copy_from_slice(front);
    text
}

// Whether HTTP has this text for a date.
fn is_http_date(text: &[u8]) -> bool
    ensures { IsTrue result ↔ ((date : Date) × (text.now ≡ date_text date)) }
{
    match HttpDate::parse_ascii(text) {
        Ok(date) => date.to_bytes().as_slice() == text,
        Err(_) => false,
    }
}

/// Whether the text is the date of some moment that a clock tells.
pub fn is_date(text: &[u8]) -> bool
    ensures { IsTrue result ↔ IsSomeDate text.now }
{
    if text.len() < FRONT {
        return false;
    }
    let (front, zone) = text.split_at(FRONT);
    zone == b"+0000".as_slice() && is_http_date(&http_text(front))
}
