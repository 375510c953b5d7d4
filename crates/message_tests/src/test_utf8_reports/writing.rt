//! Reports of worked failures.
ghost use Rattle.std.specs.Prelude.{◌<◌, IfOk, IfSome, length};
ghost use Rattle.std.specs.List.{All};
ghost use Rattle.address_grammar.specs.Paths.{ComesInPath};
ghost use Rattle.utf8_reports.specs.Recipients.{IsFailed};
ghost use Rattle.utf8_reports.specs.Reports.{IsFailure};

use crate::test_utf8_reports::spelling::{GLOBAL, PLAIN, Spelling, spelled};
use address_grammar::{Address, read_path};
use mail_wire::{Memory, Octets};
use mime_tree::read_tree;
use std::alloc::Global;
use std::test::Fail;
use test_mail::{Case, all_hold};
use utf8_reports::{FailedRecipient, FailedRecipients, Failure, make_report};

// The address of a path.
fn address_of(alloc: Global, path: &str) -> Option<Address>
    ensures { IfSome result ComesInPath }
{
    match read_path(alloc, path.as_bytes()) {
        Ok(Some(address)) => Some(address),
        _ => None,
    }
}

// A recipient of which can be reported, alone.
fn failed_one(alloc: Global, address: Address) -> Result<FailedRecipients, Memory>
    requires { ComesInPath address }
    ensures { IfOk result (λ failed. (0 < length failed) × All IsFailed failed) }
{
    let mut failed = FailedRecipients::new(alloc);
    failed.push(FailedRecipient {
        address,
        status: Octets::from_slice(alloc, b"5.6.9")?,
        code: None,
    })?;
    Ok(failed)
}

// The failure to bring a message of this path to a recipient that isn't ASCII.
fn failure_of(alloc: Global, path: &str) -> Option<Failure>
    ensures { IfSome result IsFailure }
{
    let Some(path) = address_of(alloc, path) else {
        return None;
    };
    let Some(address) = address_of(alloc, "<josé@example.com>") else {
        return None;
    };
    let Ok(failed) = failed_one(alloc, address) else {
        return None;
    };
    match Octets::from_slice(alloc, b"example.org") {
        Ok(name) => Some(Failure {
            path,
            name,
            failed,
            seconds: 0,
        }),
        Err(_) => None,
    }
}

// Whether the report of that failure is spelled so, where the message has this text.
fn is_made(alloc: Global, path: &str, msg: &str, spelling: Spelling<'_>) -> bool {
    let Some(failure) = failure_of(alloc, path) else {
        return false;
    };
    let Ok(tree) = read_tree(alloc, msg.as_bytes()) else {
        return false;
    };
    let Ok(wanted) = spelled(alloc, spelling) else {
        return false;
    };
    match make_report(alloc, &failure, msg.as_bytes(), &tree) {
        Ok(made) => made.as_slice() == wanted.as_slice(),
        Err(_) => false,
    }
}

// A path, a message, and how the report of that failure is spelled.
struct Made(&'static str, &'static str, Spelling<'static>);

impl Case for Made {
    fn holds(&self, alloc: Global) -> Result<bool, Memory> {
        Ok(is_made(alloc, self.0, self.1, self.2))
    }
}

const MADE: [(&str, &[Made]); 6] = [
    (
        "a report returns the header of what is shown",
        &[Made("<a@example.org>", "Subject: é\r\n\r\n", PLAIN)],
    ),
    (
        "in UTF-8 to a path that is so",
        &[Made("<é@x.example>", "Subject: é\r\n\r\n", GLOBAL)],
    ),
    (
        "a domain is in its normal form",
        &[Made(
            "<a@Bücher.example>",
            "Subject: é\r\n\r\nbody",
            Spelling {
                to: "a@xn--bcher-kva.example",
                ..PLAIN
            },
        )],
    ),
    (
        "the last line of a header is ended",
        &[Made("<a@example.org>", "Subject: é", PLAIN)],
    ),
    (
        "in UTF-8, too",
        &[Made("<é@x.example>", "Subject: é", GLOBAL)],
    ),
    (
        "a header may be empty",
        &[Made(
            "<a@example.org>",
            "\r\nx",
            Spelling {
                header: "",
                ..PLAIN
            },
        )],
    ),
];

#[test]
fn reports_are_made(rt: HostRuntime) -> Result<(), Fail> {
    all_hold(rt.alloc(), &MADE)
}
