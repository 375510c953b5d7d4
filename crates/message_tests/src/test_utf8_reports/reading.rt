//! What reports say, and octets that are no report.
use crate::test_utf8_reports::spelling::{GLOBAL, PLAIN, Spelling, spelled};
use mail_wire::Memory;
use std::alloc::Global;
use std::test::Fail;
use test_mail::{Case, all_hold};
use utf8_reports::{FailedRecipient, ReportFault, read_report};

// A report that is spelled so: whether it is in UTF-8, and the status and the code of its one recipient, or that it is refused.
enum Read {
    Says(Spelling<'static>, bool, &'static str, Option<u16>),
    Refused(Spelling<'static>),
}

impl Case for Read {
    fn holds(&self, alloc: Global) -> Result<bool, Memory> {
        match self {
            Read::Says(spelling, global, status, code) => {
                let octets = spelled(alloc, *spelling)?;
                let Ok(report) = read_report(alloc, octets.as_slice()) else {
                    return Ok(false);
                };
                match report.failed.as_slice() {
                    [one] => Ok(report.global == *global && names(one, *status, *code)),
                    _ => Ok(false),
                }
            }
            Read::Refused(spelling) => {
                let octets = spelled(alloc, *spelling)?;
                match read_report(alloc, octets.as_slice()) {
                    Ok(_) => Ok(false),
                    Err(fault) => Ok(fault == ReportFault::NotReport),
                }
            }
        }
    }
}

// Whether it is josé@example.com, with this status and this code.
fn names(one: &FailedRecipient, status: &str, code: Option<u16>) -> bool {
    one.address.local.as_slice() == "josé".as_bytes()
        && one.address.domain.as_slice() == b"example.com".as_slice()
        && one.status.as_slice() == status.as_bytes()
        && one.code == code
}

const READ: [(&str, &[Read]); 23] = [
    (
        "a report in ASCII says who failed",
        &[Read::Says(PLAIN, false, "5.6.9", None)],
    ),
    (
        "one in UTF-8 does",
        &[Read::Says(GLOBAL, true, "5.6.9", None)],
    ),
    (
        "a reply's code is told",
        &[Read::Says(
            Spelling {
                recipients: "\r\nFinal-Recipient: utf-8; jos\\x{E9}@example.com\r\nAction: failed\r\nStatus: 5.0.0\r\nDiagnostic-Code: smtp; 550\r\n",
                ..PLAIN
            },
            false,
            "5.0.0",
            Some(550),
        )],
    ),
    (
        "a report in UTF-8 for an ASCII path is refused",
        &[Read::Refused(Spelling {
            to: "a@example.org",
            ..GLOBAL
        })],
    ),
    (
        "a domain that has a form in ASCII is written so",
        &[Read::Refused(Spelling {
            to: "a@bücher.example",
            ..GLOBAL
        })],
    ),
    (
        "a report in ASCII for another path is refused",
        &[Read::Refused(Spelling {
            to: "é@x.example",
            ..PLAIN
        })],
    ),
    (
        "a stored header in an ASCII report is refused",
        &[Read::Refused(Spelling {
            header: "Subject: é\r\n",
            ..PLAIN
        })],
    ),
    (
        "so is the type of a global message",
        &[Read::Refused(Spelling {
            header: "Content-Type: message/global\r\n",
            ..PLAIN
        })],
    ),
    (
        "which one in UTF-8 has",
        &[Read::Says(
            Spelling {
                header: "Content-Type: message/global\r\n",
                ..GLOBAL
            },
            true,
            "5.6.9",
            None,
        )],
    ),
    (
        "where it isn't opened, its type stays as it is",
        &[Read::Says(
            Spelling {
                header: "Content-Type: message/global\r\nContent-Transfer-Encoding: base64\r\n",
                ..PLAIN
            },
            false,
            "5.6.9",
            None,
        )],
    ),
    (
        "a header may be empty",
        &[Read::Says(
            Spelling {
                header: "",
                ..PLAIN
            },
            false,
            "5.6.9",
            None,
        )],
    ),
    (
        "but has no empty line",
        &[Read::Refused(Spelling {
            header: "\r\n",
            ..PLAIN
        })],
    ),
    (
        "its last line is ended",
        &[Read::Refused(Spelling {
            header: "Subject: s",
            ..PLAIN
        })],
    ),
    (
        "nothing comes after it",
        &[Read::Refused(Spelling {
            header: "Subject: s\r\n\r\nx\r\n",
            ..PLAIN
        })],
    ),
    (
        "what looks like a delimiter is a field",
        &[Read::Says(
            Spelling {
                header: "--report--: x\r\n",
                ..PLAIN
            },
            false,
            "5.6.9",
            None,
        )],
    ),
    (
        "no recipient is refused",
        &[Read::Refused(Spelling {
            recipients: "",
            ..PLAIN
        })],
    ),
    (
        "small hexadecimal digits are refused",
        &[Read::Refused(Spelling {
            recipients: "\r\nFinal-Recipient: utf-8; jos\\x{e9}@example.com\r\nAction: failed\r\nStatus: 5.6.9\r\n",
            ..PLAIN
        })],
    ),
    (
        "UTF-8 is refused in a report in ASCII",
        &[Read::Refused(Spelling {
            recipients: "\r\nFinal-Recipient: utf-8; josé@example.com\r\nAction: failed\r\nStatus: 5.6.9\r\n",
            ..PLAIN
        })],
    ),
    (
        "the type of UTF-8 is refused for what is ASCII",
        &[Read::Refused(Spelling {
            recipients: "\r\nFinal-Recipient: utf-8; a@example.com\r\nAction: failed\r\nStatus: 5.6.9\r\n",
            ..PLAIN
        })],
    ),
    (
        "quotes that aren't needed are refused",
        &[Read::Refused(Spelling {
            recipients: "\r\nFinal-Recipient: rfc822; \"a\"@example.com\r\nAction: failed\r\nStatus: 5.6.9\r\n",
            ..PLAIN
        })],
    ),
    (
        "a status of two numbers is refused",
        &[Read::Refused(Spelling {
            recipients: "\r\nFinal-Recipient: rfc822; a@example.com\r\nAction: failed\r\nStatus: 5.6\r\n",
            ..PLAIN
        })],
    ),
    (
        "a code of no reply is refused",
        &[Read::Refused(Spelling {
            recipients: "\r\nFinal-Recipient: rfc822; a@example.com\r\nAction: failed\r\nStatus: 5.0.0\r\nDiagnostic-Code: smtp; 600\r\n",
            ..PLAIN
        })],
    ),
    (
        "another action is refused",
        &[Read::Refused(Spelling {
            recipients: "\r\nFinal-Recipient: rfc822; a@example.com\r\nAction: delivered\r\nStatus: 5.0.0\r\n",
            ..PLAIN
        })],
    ),
];

#[test]
fn reports_are_read(rt: HostRuntime) -> Result<(), Fail> {
    all_hold(rt.alloc(), &READ)
}
