//! Dates with times.
use crate::test_imap_words::reading::{Call, Row};
use imap_words::{Stop, date_time};
use mail_wire::{Memory, Octets};
use std::alloc::Global;
use std::test::Fail;
use test_mail::all_hold;

// The grammar asks for digits alone: whether there is such a day or hour is asked of what was read.
const DATES: [(&str, &[Row]); 5] = [
    (
        "dates are read with their quotes",
        &[
            Row(
                Call::Date,
                b"\"28-Nov-2026 13:05:32 +0000\"",
                b"28-Nov-2026 13:05:32 +0000|",
            ),
            Row(
                Call::Date,
                b"\" 1-jan-0000 00:00:00 -1200\" {3}",
                b" 1-jan-0000 00:00:00 -1200| {3}",
            ),
        ],
    ),
    (
        "months are read in any case",
        &[
            Row(
                Call::Date,
                b"\"01-Jan-2026 00:00:00 +0000\"",
                b"01-Jan-2026 00:00:00 +0000|",
            ),
            Row(
                Call::Date,
                b"\"01-fEb-2026 00:00:00 +0000\"",
                b"01-fEb-2026 00:00:00 +0000|",
            ),
            Row(
                Call::Date,
                b"\"01-MAR-2026 00:00:00 +0000\"",
                b"01-MAR-2026 00:00:00 +0000|",
            ),
            Row(
                Call::Date,
                b"\"01-Apr-2026 00:00:00 +0000\"",
                b"01-Apr-2026 00:00:00 +0000|",
            ),
            Row(
                Call::Date,
                b"\"01-MAY-2026 00:00:00 +0000\"",
                b"01-MAY-2026 00:00:00 +0000|",
            ),
            Row(
                Call::Date,
                b"\"01-jun-2026 00:00:00 +0000\"",
                b"01-jun-2026 00:00:00 +0000|",
            ),
            Row(
                Call::Date,
                b"\"01-juL-2026 00:00:00 +0000\"",
                b"01-juL-2026 00:00:00 +0000|",
            ),
            Row(
                Call::Date,
                b"\"01-Aug-2026 00:00:00 +0000\"",
                b"01-Aug-2026 00:00:00 +0000|",
            ),
            Row(
                Call::Date,
                b"\"01-sep-2026 00:00:00 +0000\"",
                b"01-sep-2026 00:00:00 +0000|",
            ),
            Row(
                Call::Date,
                b"\"01-oCT-2026 00:00:00 +0000\"",
                b"01-oCT-2026 00:00:00 +0000|",
            ),
            Row(
                Call::Date,
                b"\"01-Nov-2026 00:00:00 +0000\"",
                b"01-Nov-2026 00:00:00 +0000|",
            ),
            Row(
                Call::Date,
                b"\"01-Dec-2026 00:00:00 +0000\"",
                b"01-Dec-2026 00:00:00 +0000|",
            ),
        ],
    ),
    (
        "other months are refused where no month goes on",
        &[
            Row(Call::Date, b"\"01-Mai-", b"bad 2"),
            Row(Call::Date, b"\"01-Ju-", b"bad 1"),
            Row(Call::Date, b"\"01-Sept-", b"bad 2"),
            Row(Call::Date, b"\"01-11-", b"bad 3"),
        ],
    ),
    (
        "fields are digits, whether or not there is such a day or hour",
        &[
            Row(
                Call::Date,
                b"\"31-Feb-2026 00:00:00 +0000\"",
                b"31-Feb-2026 00:00:00 +0000|",
            ),
            Row(
                Call::Date,
                b"\"32-Jan-2026 00:00:00 +0000\"",
                b"32-Jan-2026 00:00:00 +0000|",
            ),
            Row(
                Call::Date,
                b"\"00-Dec-9999 99:99:99 +9999\"",
                b"00-Dec-9999 99:99:99 +9999|",
            ),
        ],
    ),
    (
        "fields have so many digits",
        &[
            Row(Call::Date, b"01-Jan-2026", b"bad 11"),
            Row(Call::Date, b"\"1-Jan", b"bad 4"),
            Row(Call::Date, b"\"  1", b"bad 2"),
            Row(Call::Date, b"\"001", b"bad 1"),
            Row(Call::Date, b"\"01-Jan-26 ", b"bad 1"),
            Row(Call::Date, b"\"01-Jan-02026", b"bad 1"),
            Row(Call::Date, b"\"01-Jan-2026 0:", b"bad 1"),
            Row(Call::Date, b"\"01-Jan-2026 00:00 ", b"bad 1"),
            Row(Call::Date, b"\"01-Jan-2026 00:00:00 0000", b"bad 4"),
            Row(Call::Date, b"\"01-Jan-2026 00:00:00 GMT", b"bad 3"),
            Row(Call::Date, b"\"01-Jan-2026 00:00:00 +000\"", b"bad 1"),
        ],
    ),
];

#[test]
fn dates_are_read(rt: HostRuntime) -> Result<(), Fail> {
    all_hold(rt.alloc(), &DATES)
}

const WHOLE: &[u8] = b"\"28-Nov-2026 13:05:32 +0000\"";

// Whether a date goes on after a front, and is refused at this octet after it.
fn stops_after(alloc: Global, front: &[u8], octet: u8) -> Result<bool, Memory> {
    let mut text = Octets::from_slice(alloc, front)?;
    text.push(octet)?;
    text.push(b'x')?;
    Ok(date_time(front) == Err(Stop::More) && date_time(text.as_slice()) == Err(Stop::Bad(2)))
}

#[test]
fn an_octet_of_no_date_is_told_where_it_comes(rt: HostRuntime) -> Result<(), Fail> {
    for end in 0..WHOLE.len() {
        let (front, _) = WHOLE.split_at(end);
        for octet in [b'!', 0xff] {
            assert!(rt; stops_after(rt.alloc(), front, octet)?);
        }
    }
    Ok(())
}
