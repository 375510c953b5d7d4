//! The texts of a moment.
ghost use Rattle.std.specs.Prelude.{◌≡◌, ◌<◌, ℕ, List, IfOk};
ghost use Rattle.mail_wire.specs.Dates.{IsDateText, IsInternalDate};
ghost use Rattle.mail_wire.specs.declared.clock.TheConstants.{CLOCK_END};
ghost use Rattle.httpdate.specs.Date.{unix_secs, date_text};
ghost use Rattle.httpdate.specs.declared.date.HttpDate.{HttpDate as Date};

use crate::values::{Memory, Octets};
use httpdate::HttpDate;
use std::alloc::Global;

// The octets of a moment's date as HTTP writes it.
fn http_date(seconds: u64) -> [u8; 29]
    requires { seconds < CLOCK_END }
    ensures { (date : Date) × (unix_secs date ≡ seconds) × (result ≡ date_text date) }
{
    match HttpDate::from_unix_secs(seconds) {
        Ok(date) => date.to_bytes(),
        Err(_) => unreachable!(),
    }
}

/// The date and time of a message's field (RFC 5322, 3.3), in UTC, such as `Thu, 01 Jan 1970 00:00:00 +0000`.
pub fn date_text(alloc: Global, seconds: u64) -> Result<Octets, Memory>
    requires { seconds < CLOCK_END }
    ensures { IfOk result (IsDateText seconds) }
{
    let date = http_date(seconds);
    let (front, _zone) = date.as_slice().split_at(26);
    let mut text = Octets::from_slice(alloc, front)?;
    text.push_slice(b"+0000")?;
    Ok(text)
}

/// The date and time under which a message is kept (RFC 3501, date-time, without its quotes), in UTC, such as
/// `01-Jan-1970 00:00:00 +0000`.
pub fn internal_date(alloc: Global, seconds: u64) -> Result<Octets, Memory>
    requires { seconds < CLOCK_END }
    ensures { IfOk result (IsInternalDate seconds) }
{
    let date = http_date(seconds);
    let mut text = Octets::from_slice(alloc, &date[5..7])?;
    text.push(b'-')?;
    text.push_slice(&date[8..11])?;
    text.push(b'-')?;
    text.push_slice(&date[12..25])?;
    text.push_slice(b" +0000")?;
    Ok(text)
}

/// A moment has one text of each kind.
pub fn texts_are_one()
    ensures date { (seconds : ℕ) (a b : List ℕ) → IsDateText seconds a → IsDateText seconds b → a ≡ b }
    ensures internal { (seconds : ℕ) (a b : List ℕ) → IsInternalDate seconds a → IsInternalDate seconds b → a ≡ b }
{}
