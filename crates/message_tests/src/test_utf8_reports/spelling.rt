//! The octets of a report, spelled out.
use mail_wire::{Memory, Octets};
use std::alloc::Global;
use test_mail::joined;

/// What differs between the reports of the tests. The fields of the recipients begin with an empty line.
#[derive(Clone, Copy)]
pub struct Spelling<'a> {
    pub to: &'a str,
    pub status_type: &'a str,
    pub recipients: &'a str,
    pub header_type: &'a str,
    pub header: &'a str,
}

const AFTER_TO: &str =
    "\r\nDate: Thu, 01 Jan 1970 00:00:00 +0000\r\nSubject: Undelivered mail\r\nMIME-Version: 1.0\r\nContent-Type: multipart/report; report-type=delivery-status; boundary=report\r\n\r\n--report\r\n\r\nSome recipients could not be served.\r\n--report\r\nContent-Type: ";

/// The report in ASCII to a mailbox of this text, of one recipient that isn't ASCII.
pub const PLAIN: Spelling<'static> = Spelling {
    to: "a@example.org",
    status_type: "message/delivery-status",
    recipients: "\r\nFinal-Recipient: utf-8; jos\\x{E9}@example.com\r\nAction: failed\r\nStatus: 5.6.9\r\n",
    header_type: "text/rfc822-headers",
    header: "Subject:\r\n =?UTF-8?B?w6k=?=\r\n",
};

/// The report in UTF-8 to a mailbox that has no form in ASCII.
pub const GLOBAL: Spelling<'static> = Spelling {
    to: "é@x.example",
    status_type: "message/global-delivery-status",
    recipients: "\r\nFinal-Recipient: utf-8; josé@example.com\r\nAction: failed\r\nStatus: 5.6.9\r\n",
    header_type: "message/global-headers",
    header: "Subject: é\r\n",
};

/// The report that is spelled so.
pub fn spelled(alloc: Global, spelling: Spelling<'_>) -> Result<Octets, Memory> {
    joined(
        alloc,
        &[
            b"From: MAILER-DAEMON@example.org\r\nTo: ",
            spelling.to.as_bytes(),
            AFTER_TO.as_bytes(),
            spelling.status_type.as_bytes(),
            b"\r\n\r\nReporting-MTA: dns; example.org\r\n",
            spelling.recipients.as_bytes(),
            b"--report\r\nContent-Type: ",
            spelling.header_type.as_bytes(),
            b"\r\n\r\n",
            spelling.header.as_bytes(),
            b"--report--\r\n",
        ],
    )
}
