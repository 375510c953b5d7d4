//! What a sender asks for, each row as an independent reference reads it and writes it again.
use crate::lines::is_made;
use dsn_terms::{
    Asked, DELAY, DELIVERED_HERE, FAILURE, Outcome, SUCCESS, can_keep_envid, can_keep_orcpt, owed,
    read_mail_terms, read_rcpt_terms, write_mail_terms, write_rcpt_terms,
};
use mail_wire::{Memory, Octets};
use std::alloc::Global;
use std::test::Fail;
use test_mail::{Case, all_hold};

// What is read, kept or owed.
enum Row {
    // the parameters of MAIL, and how they are written again, or nothing where they aren't read
    Mail(&'static str, &'static str),
    // the same of RCPT, and whether UTF-8 may stand in its parameters
    Recipient(bool, &'static str, &'static str),
    // what so many times this text makes after `ORCPT=rfc822;`, and whether it is read
    Says(&'static [u8], usize, bool),
    // a front, and so many times this text after it: whether it can be kept as the recipient that was first written
    KeepsOrcpt(&'static [u8], &'static [u8], usize, bool),
    // so many times this text: whether it can be kept as an identifier
    KeepsEnvid(&'static [u8], usize, bool),
    // the reports that are wanted, and whether a failed, a relayed and a delivered recipient is owed one
    Owes(u8, [bool; 3]),
    // what is written of a recipient who wants none but one that was given here
    DeliveredHere(&'static str),
}

impl Case for Row {
    fn holds(&self, alloc: Global) -> Result<bool, Memory> {
        match self {
            Row::Mail(line, written) => is_mail_row(alloc, *line, *written),
            Row::Recipient(utf8, line, written) => is_recipient_row(alloc, *utf8, *line, *written),
            Row::Says(text, times, is_read) => Ok(says(alloc, *text, *times)? == *is_read),
            Row::KeepsOrcpt(front, text, times, can) => {
                Ok(keeps_orcpt(alloc, *front, *text, *times)? == *can)
            }
            Row::KeepsEnvid(text, times, can) => Ok(keeps_envid(alloc, *text, *times)? == *can),
            Row::Owes(notify, outcomes) => Ok(owes(alloc, *notify) == *outcomes),
            Row::DeliveredHere(written) => writes_delivered(alloc, *written),
        }
    }
}

fn words(alloc: Global, line: &str) -> Result<Vec<Octets>, Memory> {
    let mut words = Vec::new(alloc);
    for word in line.as_bytes().split(|octet| *octet == b' ') {
        if !word.is_empty() {
            words.push(Octets::from_slice(alloc, word)?)?;
        }
    }
    Ok(words)
}

fn is_mail_row(alloc: Global, line: &str, written: &str) -> Result<bool, Memory> {
    let params = words(alloc, line)?;
    match read_mail_terms(alloc, &params)? {
        Some(terms) => is_made(write_mail_terms(alloc, &terms), written),
        None => Ok(written.is_empty()),
    }
}

fn is_recipient_row(alloc: Global, utf8: bool, line: &str, written: &str) -> Result<bool, Memory> {
    let params = words(alloc, line)?;
    match read_rcpt_terms(alloc, &params, utf8)? {
        Some(asked) => is_made(write_rcpt_terms(alloc, &asked), written),
        None => Ok(written.is_empty()),
    }
}

// A front, and so many times this text after it.
fn repeated(alloc: Global, front: &[u8], text: &[u8], times: usize) -> Result<Octets, Memory> {
    let mut made = Octets::from_slice(alloc, front)?;
    for _ in 0..times {
        made.push_slice(text)?;
    }
    Ok(made)
}

fn says(alloc: Global, text: &[u8], times: usize) -> Result<bool, Memory> {
    let mut params = Vec::new(alloc);
    params.push(repeated(alloc, b"ORCPT=rfc822;", text, times)?)?;
    Ok(read_rcpt_terms(alloc, &params, false)?.is_some())
}

fn keeps_orcpt(alloc: Global, front: &[u8], text: &[u8], times: usize) -> Result<bool, Memory> {
    let orcpt = repeated(alloc, front, text, times)?;
    can_keep_orcpt(alloc, orcpt.as_slice())
}

fn keeps_envid(alloc: Global, text: &[u8], times: usize) -> Result<bool, Memory> {
    Ok(can_keep_envid(repeated(alloc, b"", text, times)?.as_slice()))
}

fn owes(alloc: Global, notify: u8) -> [bool; 3] {
    let asked = Asked {
        notify,
        orcpt: Octets::new(alloc),
    };
    [Outcome::Failed, Outcome::Relayed, Outcome::Delivered].map(|outcome| owed(&asked, outcome))
}

fn writes_delivered(alloc: Global, written: &str) -> Result<bool, Memory> {
    let asked = Asked {
        notify: DELIVERED_HERE,
        orcpt: Octets::new(alloc),
    };
    is_made(write_rcpt_terms(alloc, &asked), written)
}

const ROWS: [(&str, &[Row]); 7] = [
    (
        "parameters of MAIL are read",
        &[
            Row::Mail("", " RET=HDRS"),
            Row::Mail("ReT=Hdrs", " RET=HDRS"),
            Row::Mail("RET=full ENVID=a", " RET=FULL ENVID=a"),
            Row::Mail("envid=id-1 ret=FULL", " RET=FULL ENVID=id-1"),
            Row::Mail("ENVID=i+20d", " RET=HDRS ENVID=i+20d"),
            Row::Mail("ENVID=+2B+3D", " RET=HDRS ENVID=+2B+3D"),
            Row::Mail("ENVID=+41", " RET=HDRS ENVID=A"),
            Row::Mail("ENVID=.2B", " RET=HDRS ENVID=.2B"),
            Row::Mail("ENVID=", ""),
            Row::Mail("ENVID=a=b", ""),
            Row::Mail("ENVID=a+b", ""),
            Row::Mail("ENVID=+2", ""),
            Row::Mail("ENVID=+2b", ""),
            Row::Mail("ENVID=+1F", ""),
            Row::Mail("ENVID=+7F", ""),
            Row::Mail("ENVID=é", ""),
            Row::Mail("ENVID=a ENVID=a", ""),
            Row::Mail("ret=HDRS RET=FULL", ""),
            Row::Mail("RET", ""),
            Row::Mail("RET=", ""),
            Row::Mail("RET=FULLX", ""),
            Row::Mail("RET=HDR", ""),
            Row::Mail("RET=FULL FOO", ""),
            Row::Mail("RET=FULL NOTIFY=NEVER", ""),
        ],
    ),
    (
        "parameters of recipients are read",
        &[
            Row::Recipient(false, "", " NOTIFY=FAILURE"),
            Row::Recipient(false, "NOTIFY=Never", " NOTIFY=NEVER"),
            Row::Recipient(false, "notify=SUCCESS", " NOTIFY=SUCCESS"),
            Row::Recipient(false, "NOTIFY=failure,success", " NOTIFY=SUCCESS,FAILURE"),
            Row::Recipient(
                false,
                "NOTIFY=DELAY,FAILURE,SUCCESS",
                " NOTIFY=SUCCESS,FAILURE,DELAY",
            ),
            Row::Recipient(false, "NOTIFY=", ""),
            Row::Recipient(false, "NOTIFY=,", ""),
            Row::Recipient(false, "NOTIFY=SUCCESS,", ""),
            Row::Recipient(false, "NOTIFY=NEVER,SUCCESS", ""),
            Row::Recipient(false, "NOTIFY=SUCCESS,NEVER", ""),
            Row::Recipient(false, "NOTIFY=NEVER,NEVER", ""),
            Row::Recipient(false, "NOTIFY=SUCCESS,SUCCESS", ""),
            Row::Recipient(false, "NOTIFY=X", ""),
            Row::Recipient(false, "NOTIFY", ""),
            Row::Recipient(false, "NOTIFY=NEVER NOTIFY=NEVER", ""),
            Row::Recipient(
                false,
                "ORCPT=rfc822;a@b NOTIFY=NEVER",
                " NOTIFY=NEVER ORCPT=rfc822;a@b",
            ),
            Row::Recipient(
                false,
                "ORCPT=RFC822;a+2Bb@c",
                " NOTIFY=FAILURE ORCPT=rfc822;a+2Bb@c",
            ),
            Row::Recipient(false, "orcpt=rfc822;", " NOTIFY=FAILURE ORCPT=rfc822;"),
            Row::Recipient(false, "ORCPT=rfc822;a+b", ""),
            Row::Recipient(true, "ORCPT=rfc822;é@x", ""),
            Row::Recipient(false, "ORCPT=rfc822", ""),
            Row::Recipient(false, "ORCPT=;a", ""),
            Row::Recipient(false, "ORCPT=x400;a", ""),
            Row::Recipient(false, "ORCPT=utf-8;a@b", " NOTIFY=FAILURE ORCPT=utf-8;a@b"),
            Row::Recipient(
                true,
                "ORCPT=utf-8;é@x",
                " NOTIFY=FAILURE ORCPT=utf-8;\\x{E9}@x",
            ),
            Row::Recipient(false, "ORCPT=utf-8;é@x", ""),
            Row::Recipient(
                false,
                "ORCPT=UTF-8;\\x{E9}@x",
                " NOTIFY=FAILURE ORCPT=utf-8;\\x{E9}@x",
            ),
            Row::Recipient(
                true,
                "ORCPT=utf-8;a=b+c",
                " NOTIFY=FAILURE ORCPT=utf-8;a\\x{3D}b\\x{2B}c",
            ),
            Row::Recipient(
                false,
                "ORCPT=utf-8;\\x{000041}",
                " NOTIFY=FAILURE ORCPT=utf-8;A",
            ),
            Row::Recipient(
                true,
                "ORCPT=utf-8;\\x{0A}",
                " NOTIFY=FAILURE ORCPT=utf-8;\\x{0A}",
            ),
            Row::Recipient(false, "ORCPT=utf-8;", " NOTIFY=FAILURE ORCPT=utf-8;"),
            Row::Recipient(false, "ORCPT=utf-8;\\x{9}", ""),
            Row::Recipient(false, "ORCPT=utf-8;\\x{D800}", ""),
            Row::Recipient(false, "ORCPT=utf-8;\\", ""),
            Row::Recipient(false, "ORCPT=rfc822;a ORCPT=rfc822;a", ""),
            Row::Recipient(false, "FOO FOO", ""),
        ],
    ),
    (
        "recipients are read that have 500 octets at most",
        &[
            Row::Says(b"a", 500, true),
            Row::Says(b"a", 501, false),
            Row::Says(b"+2B", 166, true),
            Row::Says(b"+2B", 167, false),
        ],
    ),
    (
        "recipients are kept that are written so",
        &[
            Row::KeepsOrcpt(b"rfc822;", b"+", 166, true),
            Row::KeepsOrcpt(b"rfc822;", b"+", 167, false),
            Row::KeepsOrcpt(b"utf-8;", b"\xC3\xA9", 83, true),
            Row::KeepsOrcpt(b"utf-8;", b"\xC3\xA9", 84, false),
            Row::KeepsOrcpt(b"", b"", 0, true),
            Row::KeepsOrcpt(b"RFC822;", b"a", 1, false),
            Row::KeepsOrcpt(b"rfc822;", b"\x1F", 1, false),
            Row::KeepsOrcpt(b"utf-8;", b"\xFF", 1, false),
        ],
    ),
    (
        "identifiers are kept that are written in 100 octets at most",
        &[
            Row::KeepsEnvid(b"a", 100, true),
            Row::KeepsEnvid(b"a", 101, false),
            Row::KeepsEnvid(b"=", 33, true),
            Row::KeepsEnvid(b"=", 34, false),
            Row::KeepsEnvid(b"", 1, true),
            Row::KeepsEnvid(b"\x7F", 1, false),
        ],
    ),
    (
        "reports are owed that are asked for",
        &[
            Row::Owes(0, [false, false, false]),
            Row::Owes(SUCCESS, [false, true, false]),
            Row::Owes(FAILURE + DELAY, [true, false, false]),
            Row::Owes(FAILURE + DELIVERED_HERE, [true, false, false]),
            Row::Owes(SUCCESS + DELIVERED_HERE, [false, true, true]),
        ],
    ),
    (
        "what was delivered here is not written",
        &[Row::DeliveredHere(" NOTIFY=NEVER")],
    ),
];

#[test]
fn terms_are_read_and_kept(rt: HostRuntime) -> Result<(), Fail> {
    all_hold(rt.alloc(), &ROWS)
}
