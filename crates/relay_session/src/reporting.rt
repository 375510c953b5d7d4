//! Reports of who couldn't be served.
ghost use Rattle.std.specs.Prelude.{◌≡◌, ◌≢◌, ◌++◌, [], Some, Err, IfOk, IfSome, OnOk};
ghost use Rattle.std.specs.List.{All};
ghost use Rattle.address_grammar.specs.Paths.{ComesInPath};
ghost use Rattle.journal_records.specs.Addresses.{WithPaths};
ghost use Rattle.journal_records.specs.Stored.{HasMark, IsStored};
ghost use Rattle.kept_mail.specs.Kept.{name_of};
ghost use Rattle.mail_store.specs.Changing.{IsDeliverable};
ghost use Rattle.mail_wire.specs.declared.outside.Fault.TheVariants as fault;
ghost use Rattle.mime_tree.specs.Tree.{HasTree};
ghost use Rattle.relay_choice.specs.Settling.{IsFitOutcome};
ghost use Rattle.session_core.specs.Desks.{IsOpen, IsStoreName};
ghost use Rattle.session_core.specs.Doing.{Makes};
ghost use Rattle.session_core.specs.Keeps.{Keeps, fault_of};
ghost use Rattle.session_core.specs.Moments.{IsMoment, moment_of};
ghost use Rattle.utf8_reports.specs.Recipients.{IsFailed};
ghost use Rattle.utf8_reports.specs.Reports.{IsFailure, IsReportOn};
ghost use Rattle.relay_session.specs.MailObjects.{entry_octets};
ghost use Rattle.relay_session.specs.Reporting.{delivery_to, destination_of as destination_in, failed_by, failed_of as failed_among, is_report_kept, remote_destination as remote_destination_of, report_changes, status_text};
ghost use Rattle.relay_session.specs.private.Acting.{IsDestinationIn, IsKnownEntry, MakesReport};
ghost use Rattle.relay_session.specs.private.Reported.{IsReported};

use crate::mail_objects::copy_of;
use address_grammar::{Address, write_address};
use itoa::Buffer;
use journal_records::{TEXT_MAX, mark_of};
use kept_mail::Delivery;
use mail_store::{Queued, Store};
use mail_wire::{Clock, Fault, Items, Keeper, Memory, Octets, Wire, is_ascii};
use mime_tree::{Tree, TreeFault, read_tree};
use relay_choice::Outcome;
use session_core::{Delivered, Outside, Timestamp};
use std::alloc::Global;
use utf8_reports::{FailedRecipient, FailedRecipients, Failure, make_report};

// The status of a failure with this detail (RFC 3463, 3.7; RFC 6531, 3.7.1), or of one that only the next server knows of.
fn status_of(alloc: Global, detail: u8) -> Result<Octets, Memory>
    ensures { IfOk result (λ status. status ≡ status_text detail) }
{
    if detail == 0 {
        return Octets::from_slice(alloc, b"5.0.0");
    }
    let mut status = Octets::from_slice(alloc, b"5.6.")?;
    let mut buffer = Buffer::new();
    status.push_slice(buffer.format(detail).as_bytes())?;
    Ok(status)
}

// Puts a recipient last, if this outcome is a failure.
fn push_failed(
    alloc: Global,
    failed: &mut FailedRecipients,
    address: &Address,
    outcome: Outcome,
) -> Result<(), Memory>
    ensures { OnOk result (failed.new ≡ failed.old ++ failed_by address.now outcome) }
{
    if let Outcome::Refused { detail, code } = outcome {
        failed.push(FailedRecipient {
            address: copy_of(alloc, address)?,
            status: status_of(alloc, detail)?,
            code,
        })?;
    }
    Ok(())
}

// The recipients of an entry who failed.
fn failed_of(
    alloc: Global,
    queued: &Queued,
    outcomes: &[Outcome],
) -> Result<FailedRecipients, Memory>
    ensures { IfOk result (λ failed. failed ≡ failed_among queued.now.unsettled outcomes.now) }
{
    let mut failed = Items::new(alloc);
    for (one, outcome) in queued.unsettled.as_slice().iter().zip(outcomes) {
        push_failed(alloc, &mut failed, &one.address, *outcome)?;
    }
    Ok(failed)
}

// Where a report goes.
#[derive(Clone, Copy, Debug, PartialEq, Eq)]
enum Destination {
    Account(u32),
    Queue,
    /// The domain is local, and the account isn't there.
    Nowhere,
}

// The queue, for an address whose text can be kept there. (Another program may have written a longer one.)
fn remote_destination(alloc: Global, path: &Address) -> Result<Destination, Memory>
    requires { ComesInPath path.now }
    ensures { IfOk result (λ destination. destination ≡ remote_destination_of path.now) }
{
    if write_address(alloc, path)?.len() > TEXT_MAX {
        return Ok(Destination::Nowhere);
    }
    Ok(Destination::Queue)
}

fn destination_of(alloc: Global, store: &Store, path: &Address) -> Result<Destination, Memory>
    requires { ComesInPath path.now }
    ensures destination { IfOk result (λ destination. WithPaths (λ path_of. destination ≡ destination_in path_of store.now.kept path.now)) }
    ensures known { IfOk result (IsDestinationIn store.now.kept path.now) }
{
    let Ok(domain) = std::str::from_utf8(path.domain.as_slice()) else {
        unreachable!();
    };
    if !store.is_local(domain)? {
        return remote_destination(alloc, path);
    }
    match store.find_account(path)? {
        Some(account) => Ok(Destination::Account(account)),
        None => Ok(Destination::Nowhere),
    }
}

// The report, which has this mark, as a delivery from the null path (RFC 5321, 4.5.5); none where it goes nowhere.
fn delivery_of(
    alloc: Global,
    destination: Destination,
    path: &Address,
    report: Octets,
    mark: u8,
    date: Octets,
) -> Result<Option<Delivery>, Memory>
    ensures { IfOk result (λ delivery. delivery ≡ delivery_to destination path.now report mark date) }
{
    let mut local = Items::new(alloc);
    let mut remote = Items::new(alloc);
    // No octets have the mark 0.
    let (local_octets, local_mark, remote_octets, remote_mark) = match destination {
        Destination::Account(account) => {
            local.push(account)?;
            (report, mark, Octets::new(alloc), 0)
        }
        Destination::Queue => {
            remote.push(copy_of(alloc, path)?)?;
            (Octets::new(alloc), 0, report, mark)
        }
        Destination::Nowhere => return Ok(None),
    };
    Ok(Some(Delivery {
        path: None,
        local,
        local_octets,
        local_mark,
        remote,
        remote_octets,
        remote_mark,
        date,
    }))
}

// The tree of a message that is kept.
fn tree_of(alloc: Global, octets: &[u8]) -> Result<Tree, Memory>
    requires { IsStored octets.now }
    ensures { IfOk result (λ tree. HasTree octets.now tree.entities) }
{
    match read_tree(alloc, octets) {
        Ok(tree) => Ok(tree),
        Err(TreeFault::Memory) => Err(Memory),
        // It has a tree.
        Err(_) => unreachable!(),
    }
}

// The report of these failures, with this moment.
fn report_of(
    alloc: Global,
    store: &Store,
    queued: &Queued,
    path: &Address,
    failed: FailedRecipients,
    seconds: u64,
) -> Result<Octets, Memory>
    requires known { IsKnownEntry store.now.kept queued.now }
    requires failure { IsFailure (record { path = path.now; name = name_of store.now.kept; failed = failed; seconds = seconds }) }
    ensures report { IfOk result (IsReportOn (record { path = path.now; name = name_of store.now.kept; failed = failed; seconds = seconds }) (entry_octets store.now.kept queued.now.entry)) }
    ensures stored { IfOk result IsStored }
{
    let failure = Failure {
        path: copy_of(alloc, path)?,
        name: Octets::from_slice(alloc, store.name().as_bytes())?,
        failed,
        seconds,
    };
    let octets = store.queue_octets(queued.entry);
    let tree = tree_of(alloc, octets)?;
    make_report(alloc, &failure, octets, &tree)
}

// The mark of a report. Most are in ASCII, and have the mark 0.
#[tactic(auto, using(crate::proofs::ReportMarks::ascii_mark))]
fn report_mark(alloc: Global, report: &[u8]) -> Result<u8, Memory>
    requires { IsStored report.now }
    ensures { IfOk result (HasMark report.now) }
{
    if is_ascii(report) {
        return Ok(0);
    }
    match mark_of(alloc, report)? {
        Some(mark) => Ok(mark),
        // It has a tree, and so a mark.
        None => unreachable!(),
    }
}

// The report of failures at this moment, as a delivery; none where it goes nowhere.
fn reported(
    alloc: Global,
    store: &Store,
    queued: &Queued,
    path: &Address,
    failed: FailedRecipients,
    timestamp: Timestamp,
) -> Result<Option<Delivery>, Memory>
    requires known { IsKnownEntry store.now.kept queued.now }
    requires named { IsStoreName (name_of store.now.kept) }
    requires path { queued.now.path ≡ Some path.now }
    requires some { failed ≢ [] }
    requires failed { All IsFailed failed }
    requires moment { IsMoment timestamp.seconds (moment_of timestamp) }
    ensures reported { IfOk result (λ delivery. WithPaths (λ path_of. IsReported path_of store.now.kept queued.now path.now failed (moment_of timestamp) delivery)) }
    ensures deliverable { IfOk result (λ delivery. IfSome delivery (IsDeliverable store.now)) }
{
    let Timestamp {
        seconds,
        date: _,
        internal,
    } = timestamp;
    let destination = destination_of(alloc, store, path)?;
    let report = report_of(alloc, store, queued, path, failed, seconds)?;
    let mark = report_mark(alloc, report.as_slice())?;
    delivery_of(alloc, destination, path, report, mark, internal)
}

// Delivers a report. Whether it was kept: one for which there is no room is dropped.
fn deliver<W: Wire, J: Keeper, C: Clock>(
    delivery: &Delivery,
    outside: &mut Outside<W, J, C>,
) -> Result<bool, Fault>
    requires opens { IsOpen outside.old.desk }
    requires deliverable { IsDeliverable outside.old.desk.store delivery.now }
    ensures kept { IfOk result (λ kept. kept ≡ is_report_kept outside.old.desk.store (Some delivery.now)) }
    ensures makes { Makes outside.old outside.new (fault_of result) (report_changes outside.old.desk.store (Some delivery.now)) }
    ensures wire { ¬ (result ≡ Err fault.Wire) }
    ensures keeps { Keeps outside.old outside.new (fault_of result) }
{
    match outside.deliver(delivery)? {
        Delivered::Stored => Ok(true),
        Delivered::TooLarge => Ok(false),
    }
}

/// Tells the sender of a message which recipients failed, unless none did or the message came from the null path. Whether a report was
/// kept: one that has nowhere to go, or for which there is no room, is dropped.
pub fn report<W: Wire, J: Keeper, C: Clock>(
    queued: &Queued,
    outcomes: &[Outcome],
    outside: &mut Outside<W, J, C>,
) -> Result<bool, Fault>
    requires opens { IsOpen outside.old.desk }
    requires known { IsKnownEntry outside.old.desk.store.kept queued.now }
    requires fit { All IsFitOutcome outcomes.now }
    ensures reports { WithPaths (λ path_of. MakesReport path_of outside.old outside.new queued.now outcomes.now result) }
    ensures keeps { Keeps outside.old outside.new (fault_of result) }
{
    let alloc = outside.alloc();
    let Some(path) = &queued.path else {
        return Ok(false);
    };
    let failed = failed_of(alloc, queued, outcomes)?;
    if failed.is_empty() {
        return Ok(false);
    }
    let timestamp = outside.now()?;
    match reported(alloc, outside.store(), queued, path, failed, timestamp)? {
        Some(delivery) => deliver(&delivery, outside),
        None => Ok(false),
    }
}
