//! The writer of reports.
ghost use Rattle.std.specs.Prelude.{◌≡◌, ◌++◌, true, false, List, IfOk, OnOk};
ghost use Rattle.std.specs.List.{list_all};
ghost use Rattle.mail_wire.specs.Octets.{is_ascii};
ghost use Rattle.mime_tree.specs.declared.entity.Entity.{Entity};
ghost use Rattle.mime_tree.specs.Tree.{HasTree};
ghost use Rattle.utf8_reports.specs.Destinations.{is_global};
ghost use Rattle.utf8_reports.specs.Reports.{IsFailure, IsReportOn, fixed_lines, heading, status_type as status_type_of, status_heading, header_type as header_type_of, header_heading, header_part};
ghost use Rattle.utf8_reports.specs.private.Writing.{report_text};

use crate::destinations::{Destination, destination_of};
use crate::failure::Failure;
use crate::fields::{push_field, push_line};
use crate::recipients::push_recipients;
use crate::shown::shown_header;
use mail_wire::{Memory, Octets, date_text};
use mime_tree::Tree;
use std::alloc::Global;

const DELIMITER: &[u8] = b"--report";

// Puts the fields that are the same in each report last, and the part that a person reads.
fn push_fixed_lines(made: &mut Octets) -> Result<(), Memory>
    ensures { OnOk result (made.new ≡ made.old ++ fixed_lines) }
{
    push_line(made, b"Subject: Undelivered mail")?;
    push_line(made, b"MIME-Version: 1.0")?;
    push_line(
        made,
        b"Content-Type: multipart/report; report-type=delivery-status; boundary=report",
    )?;
    push_line(made, b"")?;
    push_line(made, DELIMITER)?;
    push_line(made, b"")?;
    push_line(made, b"Some recipients could not be served.")
}

// Puts the report's own fields last, and that part.
fn push_heading(made: &mut Octets, name: &[u8], to: &[u8], date: &[u8]) -> Result<(), Memory>
    ensures { OnOk result (made.new ≡ made.old ++ heading name.now to.now date.now) }
{
    push_field(made, b"From: MAILER-DAEMON@", name)?;
    push_field(made, b"To: ", to)?;
    push_field(made, b"Date: ", date)?;
    push_fixed_lines(made)
}

fn status_type(global: bool) -> &'static [u8]
    ensures { result.now ≡ status_type_of global }
{
    if global {
        b"Content-Type: message/global-delivery-status"
    } else {
        b"Content-Type: message/delivery-status"
    }
}

/// Puts the beginning of the delivery status last.
pub fn push_status_heading(made: &mut Octets, global: bool, name: &[u8]) -> Result<(), Memory>
    ensures { OnOk result (made.new ≡ made.old ++ status_heading global name.now) }
{
    push_line(made, DELIMITER)?;
    push_line(made, status_type(global))?;
    push_line(made, b"")?;
    push_field(made, b"Reporting-MTA: dns; ", name)
}

fn header_type(global: bool) -> &'static [u8]
    ensures { result.now ≡ header_type_of global }
{
    if global {
        b"Content-Type: message/global-headers"
    } else {
        b"Content-Type: text/rfc822-headers"
    }
}

/// Puts the beginning of the part last that returns the header.
pub fn push_header_heading(made: &mut Octets, global: bool) -> Result<(), Memory>
    ensures { OnOk result (made.new ≡ made.old ++ header_heading global) }
{
    push_line(made, DELIMITER)?;
    push_line(made, header_type(global))?;
    push_line(made, b"")
}

// Puts the part last that returns the header, and the end.
fn push_header_part(made: &mut Octets, global: bool, header: &[u8]) -> Result<(), Memory>
    ensures { OnOk result (made.new ≡ made.old ++ header_part global header.now) }
{
    push_header_heading(made, global)?;
    made.push_slice(header)?;
    push_line(made, b"--report--")
}

// Puts a report to this destination last, of this date, that returns this header.
fn push_report(
    alloc: Global,
    made: &mut Octets,
    failure: &Failure,
    to: &Destination,
    date: &[u8],
    header: &[u8],
) -> Result<(), Memory>
    requires { IsFailure failure.now }
    ensures { OnOk result (made.new ≡ made.old ++ report_text failure.now to.now.text to.now.global date.now header.now) }
{
    let name = failure.name.as_slice();
    push_heading(made, name, to.text.as_slice(), date)?;
    push_status_heading(made, to.global, name)?;
    push_recipients(alloc, made, failure.failed.as_slice(), to.global)?;
    push_header_part(made, to.global, header)
}

/// The report of a failure to deliver a message, whose tree this is. It is in ASCII unless the path can't be.
pub fn make_report(
    alloc: Global,
    failure: &Failure,
    msg: &[u8],
    tree: &Tree,
) -> Result<Octets, Memory>
    requires tree { HasTree msg.now tree.now.entities }
    requires failure { IsFailure failure.now }
    ensures report { IfOk result (IsReportOn failure.now msg.now) }
    ensures tree { IfOk result (λ made. (entities : List Entity) × HasTree made entities) }
    ensures ascii { is_global failure.now.path ≡ false → IfOk result (λ made. list_all is_ascii made ≡ true) }
{
    let to = destination_of(alloc, &failure.path)?;
    let date = date_text(alloc, failure.seconds)?;
    let header = shown_header(alloc, msg, tree, to.global)?;
    let mut made = Octets::new(alloc);
    push_report(
        alloc,
        &mut made,
        failure,
        &to,
        date.as_slice(),
        header.as_slice(),
    )?;
    Ok(made)
}
