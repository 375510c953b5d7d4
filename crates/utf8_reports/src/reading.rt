//! The reader of reports.
ghost use Rattle.std.specs.Prelude.{◌≡◌, ◌≢◌, ℕ, Bool, List, Err, IfOk, IfSome, IfNone, IsSomeAnd, MatchResult};
ghost use Rattle.utf8_reports.specs.declared.failure.FailedRecipient.{FailedRecipient};
ghost use Rattle.utf8_reports.specs.declared.failure.Failure.{Failure};
ghost use Rattle.utf8_reports.specs.declared.failure.ReportFault.{ReportFault};
ghost use Rattle.utf8_reports.specs.Reports.{IsReportOn, IsSaidOf, SaysReport, status_heading as status_heading_of, header_heading as header_heading_of, header_part as header_part_of};
ghost use Rattle.utf8_reports.specs.private.Reading.{BeginsHeading, EndsHeading, EndsReport};

use crate::dates::is_date;
use crate::destinations::{is_reporter, read_destination};
use crate::failure::{FailedRecipients, Report, ReportFault};
use crate::fields::{field_body, following};
use crate::recipients::read_recipients;
use crate::shown::is_some_header;
use crate::writing::{push_header_heading, push_status_heading};
use mail_wire::{Memory, Octets};
use std::alloc::Global;

const FIXED_LINES: &[u8] =
    b"Subject: Undelivered mail\r\nMIME-Version: 1.0\r\nContent-Type: multipart/report; report-type=delivery-status; boundary=report\r\n\r\n--report\r\n\r\nSome recipients could not be served.\r\n";

// A report's own fields: the name of the server, whether the report is in UTF-8, and what follows them.
#[derive(Clone, Copy)]
struct Heading<'a> {
    name: &'a [u8],
    global: bool,
    rest: &'a [u8],
}

// What follows the date, and the lines after it that are the same in each report.
fn after_date(octets: &[u8]) -> Option<&[u8]>
    ensures found { IfSome result (λ rest. EndsHeading octets.now rest.now) }
    ensures none { IfNone result ((rest : List ℕ) → ¬ EndsHeading octets.now rest) }
{
    let Some((date, after)) = field_body(octets, b"Date: ") else {
        return None;
    };
    if !is_date(date) {
        return None;
    }
    following(after, FIXED_LINES)
}

// The heading with which octets begin.
fn read_heading(alloc: Global, octets: &[u8]) -> Result<Option<Heading<'_>>, Memory>
    ensures found { IfOk result (λ o. IfSome o (λ x. BeginsHeading octets.now x.name.now x.global x.rest.now)) }
    ensures exact { (name : List ℕ) (global : Bool) (rest : List ℕ) → BeginsHeading octets.now name global rest
        → IfOk result (λ o. IsSomeAnd o (λ x. (x.name.now ≡ name) × (x.global ≡ global) × (x.rest.now ≡ rest))) }
{
    let Some((name, after)) = field_body(octets, b"From: MAILER-DAEMON@") else {
        return Ok(None);
    };
    if !is_reporter(alloc, name)? {
        return Ok(None);
    }
    let Some((to, after)) = field_body(after, b"To: ") else {
        return Ok(None);
    };
    let Some(global) = read_destination(alloc, to)? else {
        return Ok(None);
    };
    match after_date(after) {
        Some(rest) => Ok(Some(Heading { name, global, rest })),
        None => Ok(None),
    }
}

fn status_heading(alloc: Global, global: bool, name: &[u8]) -> Result<Octets, Memory>
    ensures { IfOk result (λ made. made ≡ status_heading_of global name.now) }
{
    let mut made = Octets::new(alloc);
    push_status_heading(&mut made, global, name)?;
    Ok(made)
}

fn header_heading(alloc: Global, global: bool) -> Result<Octets, Memory>
    ensures { IfOk result (λ made. made ≡ header_heading_of global) }
{
    let mut made = Octets::new(alloc);
    push_header_heading(&mut made, global)?;
    Ok(made)
}

// The header that the last part returns.
fn header_in(alloc: Global, octets: &[u8], global: bool) -> Result<Option<&[u8]>, Memory>
    ensures found { IfOk result (λ o. IfSome o (λ header. octets.now ≡ header_part_of global header.now)) }
    ensures none { IfOk result (λ o. IfNone o ((header : List ℕ) → octets.now ≢ header_part_of global header)) }
{
    let front = header_heading(alloc, global)?;
    let Some(rest) = following(octets, front.as_slice()) else {
        return Ok(None);
    };
    Ok(rest.strip_suffix(b"--report--\r\n"))
}

// The recipients that a report names, which begins with this heading.
fn read_failed(alloc: Global, heading: &Heading<'_>) -> Result<Option<FailedRecipients>, Memory>
    ensures found { IfOk result (λ o. IfSome o (EndsReport heading.now.global heading.now.name.now heading.now.rest.now)) }
    ensures exact { (failed : List FailedRecipient) → EndsReport heading.now.global heading.now.name.now heading.now.rest.now failed
        → IfOk result (λ o. IsSomeAnd o (λ found. found ≡ failed)) }
{
    let front = status_heading(alloc, heading.global, heading.name)?;
    let after_front = following(heading.rest, front.as_slice());
    drop(front);
    let Some(fields) = after_front else {
        return Ok(None);
    };
    let Some((failed, rest)) = read_recipients(alloc, fields, heading.global)? else {
        return Ok(None);
    };
    let Some(header) = header_in(alloc, rest, heading.global)? else {
        return Ok(None);
    };
    if !is_some_header(alloc, header, heading.global)? {
        return Ok(None);
    }
    Ok(Some(failed))
}

// What a report says, and nothing of other octets.
fn find_report(alloc: Global, octets: &[u8]) -> Result<Option<Report>, Memory>
    ensures found { IfOk result (λ o. IfSome o (SaysReport octets.now)) }
    ensures exact { (failure : Failure) (msg : List ℕ) → IsReportOn failure msg octets.now → IfOk result (λ o. IsSomeAnd o (IsSaidOf failure)) }
{
    let Some(heading) = read_heading(alloc, octets)? else {
        return Ok(None);
    };
    match read_failed(alloc, &heading)? {
        Some(failed) => Ok(Some(Report {
            global: heading.global,
            failed,
        })),
        None => Ok(None),
    }
}

/// What a report says.
pub fn read_report(alloc: Global, octets: &[u8]) -> Result<Report, ReportFault>
    ensures report { IfOk result (SaysReport octets.now) }
    ensures not_report { result ≡ Err ReportFault.NotReport → (failure : Failure) (msg : List ℕ) → ¬ IsReportOn failure msg octets.now }

    // Where the octets are the report of a failure, that failure is what they say, unless memory is wanting.
    ensures exact { (failure : Failure) (msg : List ℕ) → IsReportOn failure msg octets.now
        → MatchResult result (IsSaidOf failure) (λ fault. fault ≡ ReportFault.Memory) }
{
    match find_report(alloc, octets)? {
        Some(report) => Ok(report),
        None => Err(ReportFault::NotReport),
    }
}
