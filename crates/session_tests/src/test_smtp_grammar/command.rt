//! Commands, paths and parameters, each public call with ample memory and a row or two for each rule.
use mail_wire::Memory;
use smtp_grammar::{Parameters, Verb, is_client, path_after, read_command, read_parameters};
use std::alloc::Global;
use std::test::Fail;
use test_mail::{Case, all_hold};

// What is read.
enum Line {
    // a command: its verb and argument
    Command(&'static [u8], Verb, &'static [u8]),
    // the name of a client, if it is one
    Client(&'static [u8], bool),
    // an argument of MAIL, its path and what follows it
    Path(&'static [u8], Option<(&'static [u8], &'static [u8])>),
    // parameters: whether some are unknown, whether there is SMTPUTF8, and the size
    Parameters(&'static [u8], [bool; 2], u64),
    // parameters that are malformed or aren't
    Malformed(&'static [u8], bool),
}

impl Case for Line {
    fn holds(&self, alloc: Global) -> Result<bool, Memory> {
        match self {
            Line::Command(line, verb, argument) => Ok(is_command(*line, *verb, *argument)),
            Line::Client(name, is) => Ok(is_client(*name) == *is),
            Line::Path(argument, found) => Ok(is_path(*argument, *found)),
            Line::Parameters(text, [unknown, smtputf8], size) => {
                let wanted = Parameters {
                    malformed: false,
                    unknown: *unknown,
                    smtputf8: *smtputf8,
                    size: *size,
                };
                Ok(read_parameters(alloc, *text)? == wanted)
            }
            Line::Malformed(text, malformed) => {
                Ok(read_parameters(alloc, *text)?.malformed == *malformed)
            }
        }
    }
}

fn is_command(line: &[u8], verb: Verb, argument: &[u8]) -> bool {
    if line.len() < 2 {
        return false;
    }
    let command = read_command(line);
    command.verb == verb && command.argument == argument
}

fn is_path(argument: &[u8], wanted: Option<(&[u8], &[u8])>) -> bool {
    match (path_after(b"FROM:", argument), wanted) {
        (Some(found), Some((path, rest))) => found.path == path && found.rest == rest,
        (None, None) => true,
        _ => false,
    }
}

const COMMANDS: [(&str, &[Line]); 9] = [
    (
        "verbs are read in any case",
        &[
            Line::Command(b"EHLO a.example\r\n", Verb::Ehlo, b"a.example"),
            Line::Command(b"heLO [192.0.2.1]\r\n", Verb::Helo, b"[192.0.2.1]"),
            Line::Command(b"mail FROM:<>\r\n", Verb::Mail, b"FROM:<>"),
            Line::Command(b"Rcpt to:<a@b> X\r\n", Verb::Rcpt, b"to:<a@b> X"),
            Line::Command(b"dATA\r\n", Verb::Data, b""),
            Line::Command(b"RSET\r\n", Verb::Rset, b""),
            Line::Command(b"noop x  y\r\n", Verb::Noop, b"x  y"),
            Line::Command(b"VRFY ann\r\n", Verb::Vrfy, b"ann"),
            Line::Command(b"Quit\r\n", Verb::Quit, b""),
        ],
    ),
    (
        "another word is another verb",
        &[
            Line::Command(b"EXPN list\r\n", Verb::Other, b"list"),
            Line::Command(b"MAILX\r\n", Verb::Other, b""),
            Line::Command(b"\r\n", Verb::Other, b""),
        ],
    ),
    (
        "white at both ends is passed over",
        &[
            Line::Command(b" \tQUIT\r\n", Verb::Quit, b""),
            Line::Command(b"QUIT \t \r\n", Verb::Quit, b""),
            Line::Command(b"NOOP\t \ta b\t\r\n", Verb::Noop, b"a b"),
            Line::Command(b" \t\r\n", Verb::Other, b""),
        ],
    ),
    (
        "clients say names",
        &[Line::Client(b"mail_1.example-Z", true)],
    ),
    ("or literals", &[Line::Client(b"[IPv6:2001:db8::1]", true)]),
    ("a name isn't empty", &[Line::Client(b"", false)]),
    ("it has no white", &[Line::Client(b"a b", false)]),
    ("nor parentheses", &[Line::Client(b"a(b)", false)]),
    (
        "nor octets above 127",
        &[Line::Client(b"caf\xc3\xa9", false)],
    ),
];

#[test]
fn commands_and_clients_are_read(rt: HostRuntime) -> Result<(), Fail> {
    all_hold(rt.alloc(), &COMMANDS)
}

const PATHS: [(&str, &[Line]); 4] = [
    (
        "paths begin after one space",
        &[
            Line::Path(b"FROM:<a@b>", Some((b"<a@b>", b""))),
            Line::Path(b"from:<> SIZE=1", Some((b"<>", b" SIZE=1"))),
            Line::Path(b"FROM: <a@b>\tX", Some((b"<a@b>", b"\tX"))),
        ],
    ),
    (
        "and not after anything else",
        &[
            Line::Path(b"FROM:\t<a@b>", None),
            Line::Path(b"FROM:  <a@b>", None),
            Line::Path(b"FROM <a@b>", None),
            Line::Path(b"TO:<a@b>", None),
            Line::Path(b"FROM:a@b", None),
            Line::Path(b"FROM:", None),
            Line::Path(b"FR", None),
        ],
    ),
    (
        "paths end outside of quotes and literals",
        &[
            Line::Path(b"FROM:<\"a>b\"@c> X", Some((b"<\"a>b\"@c>", b" X"))),
            Line::Path(b"FROM:<\"a\\\">b\"@c>", Some((b"<\"a\\\">b\"@c>", b""))),
            Line::Path(b"FROM:<a@[b>c]>", Some((b"<a@[b>c]>", b""))),
            Line::Path(b"FROM:<a@[b\\]>c]>", Some((b"<a@[b\\]>c]>", b""))),
            Line::Path(b"FROM:<\"(\"@[(]>", Some((b"<\"(\"@[(]>", b""))),
            Line::Path(b"FROM:<a> <b>", Some((b"<a>", b" <b>"))),
            Line::Path(b"FROM:<a> (b)", Some((b"<a>", b" (b)"))),
        ],
    ),
    (
        "what doesn't end so is none",
        &[
            Line::Path(b"FROM:<a(b)@c>", None),
            Line::Path(b"FROM:<a@b", None),
            Line::Path(b"FROM:<\"a>", None),
            Line::Path(b"FROM:<\"a\\", None),
            Line::Path(b"FROM:<a@[b>", None),
            Line::Path(b"FROM:<a@b>X", None),
        ],
    ),
];

#[test]
fn paths_are_found(rt: HostRuntime) -> Result<(), Fail> {
    all_hold(rt.alloc(), &PATHS)
}

const PARAMETERS: [(&str, &[Line]); 7] = [
    (
        "there may be no parameters",
        &[Line::Parameters(b"", [false, false], 0)],
    ),
    (
        "known parameters are read in any case",
        &[Line::Parameters(b"\t body=8bitmime  Size=0120 SmtpUtf8 ", [false, true], 120)],
    ),
    (
        "others are told",
        &[Line::Parameters(b" BODY=7BIT RET=HDRS =", [true, false], 0)],
    ),
    (
        "a size has a greatest value",
        &[Line::Parameters(b" SIZE=18446744073709551616", [false, false], u64::MAX)],
    ),
    (
        "whatever its digits",
        &[Line::Parameters(b" SIZE=99999999999999999999999", [false, false], u64::MAX)],
    ),
    (
        "malformed parameters are told",
        &[
            Line::Malformed(b" SIZE", true),
            Line::Malformed(b" SIZE=", true),
            Line::Malformed(b" SIZE=1x", true),
            Line::Malformed(b" BODY=9BIT", true),
            Line::Malformed(b" BODY", true),
            Line::Malformed(b" SMTPUTF8=", true),
            Line::Malformed(b" size=1 SIZE=1", true),
            Line::Malformed(b" X=1 Y=2 x", true),
        ],
    ),
    (
        "others may have any words",
        &[Line::Malformed(b" X=1 Y=2 XY=3", false)],
    ),
];

#[test]
fn parameters_are_read(rt: HostRuntime) -> Result<(), Fail> {
    all_hold(rt.alloc(), &PARAMETERS)
}

#[test]
fn limits_and_other_words(rt: HostRuntime) {
    assert!(rt; is_client(&[b'a'; 255]) && !is_client(&[b'a'; 256]));
    assert!(rt; path_after(b"TO:", b"tO:<a@b>").is_some());
}
