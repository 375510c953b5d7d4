//! Whole commands, in single octets and in pieces. A row has the octets, and what is told of them.
use crate::test_imap_grammar::telling::{observed, tells_always};
use mail_wire::Memory;
use std::alloc::Global;
use std::test::Fail;
use test_mail::{Case, all_hold};

// Octets and what is told of them: in either session, where UTF-8 is enabled, and where it isn't.
enum Told {
    Always(&'static [u8], &'static [u8]),
    Enabled(&'static [u8], &'static [u8]),
    Legacy(&'static [u8], &'static [u8]),
}

impl Case for Told {
    fn holds(&self, alloc: Global) -> Result<bool, Memory> {
        match self {
            Told::Always(octets, wanted) => tells_always(alloc, *octets, *wanted),
            Told::Enabled(octets, wanted) => observed(alloc, true, *octets, *wanted),
            Told::Legacy(octets, wanted) => observed(alloc, false, *octets, *wanted),
        }
    }
}

const COMMANDS: [(&str, &[Told]); 16] = [
    (
        "commands without strings",
        &[
            Told::Always(b"a CAPABILITY\r\n", b"14 a Capability\n"),
            Told::Always(b"a.1/] noop\r\n", b"12 a.1/] Noop\n"),
            Told::Always(b"1 Check\r\n2 LOGOUT\r\n", b"9 1 Check\n19 2 Logout\n"),
            Told::Always(b"a EXPUNGE\r\n", b"11 a Expunge\n"),
            Told::Always(b"a CLOSE\r\n", b"9 a Close\n"),
            Told::Always(
                b"a ENABLE UTF8=ACCEPT x\r\n",
                b"24 a Enable <UTF8=ACCEPT> <x>\n",
            ),
            Told::Always(b"a SEARCH {3}\r\n", b"14 a NotHere\n"),
            Told::Always(b"a uid copy \x80\0\r\r\n", b"16 a NotHere\n"),
        ],
    ),
    (
        "commands with strings",
        &[
            Told::Always(
                b"a login jo \"p \\\" w\"\r\n",
                b"21 a Login <jo> <p \" w>\n",
            ),
            Told::Always(b"a SELECT a]&AOk-\r\n", b"18 a Select <a]&AOk->\n"),
            Told::Always(b"a EXAMINE \"\"\r\n", b"14 a Examine <>\n"),
            Told::Always(b"a CREATE inBox\r\n", b"16 a Create <inBox>\n"),
            Told::Always(b"a LIST \"\" %*\r\n", b"14 a List <> <%*>\n"),
            Told::Always(b"a LIST x/ \"\"\r\n", b"14 a List <x/> <>\n"),
            Told::Always(
                b"a STATUS x (MESSAGES recent UidNext UIDVALIDITY UNSEEN)\r\n",
                b"57 a Status <x> Messages Recent UidNext UidValidity Unseen\n",
            ),
        ],
    ),
    (
        "what fetch asks",
        &[
            Told::Always(
                b"a FETCH 1 ALL\r\n",
                b"15 a Fetch 1:1 Flags InternalDate Size Envelope\n",
            ),
            Told::Always(
                b"a UID FETCH *:4294967295,2 full\r\n",
                b"33 a UidFetch *:4294967295 2:2 Flags InternalDate Size Envelope Body\n",
            ),
            Told::Always(
                b"a FETCH 3:* Fast\r\n",
                b"18 a Fetch 3:* Flags InternalDate Size\n",
            ),
            Told::Always(
                b"a FETCH 1 (UID RFC822 RFC822.HEADER RFC822.TEXT RFC822.SIZE)\r\n",
                b"62 a Fetch 1:1 Uid Rfc822 Rfc822Header Rfc822Text Size\n",
            ),
            Told::Always(b"a FETCH 1 BODY\r\n", b"16 a Fetch 1:1 Body\n"),
            Told::Always(
                b"a FETCH 1 (BODYSTRUCTURE)\r\n",
                b"27 a Fetch 1:1 BodyStructure\n",
            ),
        ],
    ),
    (
        "sections of fetch",
        &[
            Told::Always(
                b"a FETCH 1 BODY[]<007.5>\r\n",
                b"25 a Fetch 1:1 Section[Whole]<7.5>\n",
            ),
            Told::Always(
                b"a FETCH 1 (BODY[header] body.peek[2.1.MIME]<0.1>)\r\n",
                b"51 a Fetch 1:1 Section[Header] Peek[2.1.Mime]<0.1>\n",
            ),
            Told::Always(
                b"a FETCH 1 BODY.PEEK[1.TEXT]\r\n",
                b"29 a Fetch 1:1 Peek[1.Text]\n",
            ),
            Told::Always(
                b"a FETCH 1 (BODY[HEADER.FIELDS (To \"x]\")] BODY[3])\r\n",
                b"51 a Fetch 1:1 Section[Fields <To> <x]>] Section[3.Whole]\n",
            ),
            Told::Always(
                b"a FETCH 1 BODY[1.HEADER.FIELDS.NOT (\"a\\\"\")]\r\n",
                b"45 a Fetch 1:1 Section[1.Not <a\">]\n",
            ),
        ],
    ),
    (
        "what store does",
        &[
            Told::Always(b"a STORE 1 FLAGS ()\r\n", b"20 a Store 1:1 Replace 0\n"),
            Told::Always(
                b"a STORE 1:2 +FLAGS (\\Seen x)\r\n",
                b"30 a Store 1:2 Add 1\n",
            ),
            Told::Always(
                b"a UID STORE * -flags.silent \\Draft \\deleted \\Other\r\n",
                b"52 a UidStore *:* Remove silent 24\n",
            ),
            Told::Always(
                b"a STORE 1 FLAGS.SILENT \\Answered\r\n",
                b"34 a Store 1:1 Replace silent 2\n",
            ),
            Told::Always(
                b"a STORE 1 +FLAGS.SILENT (\\Flagged)\r\n",
                b"36 a Store 1:1 Add silent 4\n",
            ),
        ],
    ),
    (
        "literals wait for leave",
        &[
            Told::Always(
                b"a LOGIN {2}\r\n\r\n {1}\r\n\0\r\n",
                b"13 go\n21 go\n24 a Login <\r\n> <\0>\n",
            ),
            Told::Always(b"a SELECT {0}\r\n\r\n", b"14 go\n16 a Select <>\n"),
            Told::Always(
                b"a CREATE {03}\r\na b\r\nb NOOP\r\n",
                b"15 go\n20 a Create <a b>\n28 b Noop\n",
            ),
            Told::Always(
                b"a LIST {1}\r\nx {1}\r\n*\r\n",
                b"12 go\n19 go\n22 a List <x> <*>\n",
            ),
            Told::Always(
                b"a STATUS {1}\r\n\xff (UNSEEN)\r\n",
                b"14 go\n26 a Status <\xff> Unseen\n",
            ),
            Told::Always(
                b"a FETCH 1 (BODY[HEADER.FIELDS ({2}\r\nTo Cc)] UID)\r\n",
                b"36 go\n50 a Fetch 1:1 Section[Fields <To> <Cc>] Uid\n",
            ),
            Told::Always(
                b"a FETCH 1 BODY[1.HEADER.FIELDS.NOT (a {1}\r\nb)]<1.2>\r\n",
                b"43 go\n53 a Fetch 1:1 Section[1.Not <a> <b>]<1.2>\n",
            ),
        ],
    ),
    (
        "data of append",
        &[
            Told::Always(
                b"a APPEND INBOX {3}\r\nA\0b\r\n",
                b"20 go\n25 a Append <INBOX> 0 data <A\0b>\n",
            ),
            Told::Always(
                b"a APPEND {1}\r\nx (\\Seen) {4}\r\n{1}\r\r\n",
                b"14 go\n29 go\n35 a Append <x> 1 data <{1}\r>\n",
            ),
            Told::Always(
                b"a APPEND x () \" 1-jan-2020 99:99:99 -9999\" {0}\r\n\r\n",
                b"48 go\n50 a Append <x> 0 < 1-jan-2020 99:99:99 -9999> data <>\n",
            ),
            Told::Always(
                b"a APPEND x utf8 (~{2}\r\n)\n)\r\n",
                b"23 go\n28 a AppendUtf8 <x> 0 data <)\n>\n",
            ),
        ],
    ),
    (
        "bad octets are told at the line end",
        &[
            Told::Always(b"\r\n", b"2 bad 0\n"),
            Told::Always(b"a\r\n", b"3 bad 1\n"),
            Told::Always(b"* NOOP\r\n", b"8 bad 0\n"),
            Told::Always(b"+a NOOP\r\n", b"9 bad 0\n"),
            Told::Always(b"a  NOOP\r\n", b"9 bad 2 <a>\n"),
            Told::Always(b"a NOOP \r\n", b"9 bad 6 <a>\n"),
            Told::Always(b"a NOOP\n\r\nb NOOP\r\n", b"9 bad 6 <a>\n17 b Noop\n"),
            Told::Always(b"a LOGIN x\r\n", b"11 bad 9 <a>\n"),
            Told::Always(b"a SELECT {4294967296}\r\n", b"23 bad 19 <a>\n"),
            Told::Always(b"a SELECT {3+}\r\n", b"15 bad 11 <a>\n"),
        ],
    ),
    (
        "bad octets of sets and items",
        &[
            Told::Always(b"a FETCH 0 UID\r\n", b"15 bad 8 <a>\n"),
            Told::Always(b"a FETCH 1:4294967296 UID\r\n", b"26 bad 19 <a>\n"),
            Told::Always(b"a FETCH 1 (ALL)\r\n", b"17 bad 11 <a>\n"),
            Told::Always(b"a FETCH 1 (UID UID \r\n", b"21 bad 19 <a>\n"),
            Told::Always(b"a FETCH 1 BODY[MIME]\r\n", b"22 bad 15 <a>\n"),
            Told::Always(b"a FETCH 1 BODY[1.0]\r\n", b"21 bad 17 <a>\n"),
            Told::Always(b"a FETCH 1 BODY[]<0.0>\r\n", b"23 bad 19 <a>\n"),
            Told::Always(
                b"a FETCH 1 BODY[HEADER.FIELDS (a:b)]\r\n",
                b"37 bad 31 <a>\n",
            ),
            Told::Always(b"a STORE 1 FLAGS \r\n", b"18 bad 16 <a>\n"),
            Told::Always(b"a STATUS x ()\r\n", b"15 bad 12 <a>\n"),
        ],
    ),
    (
        "bad octets after a literal",
        &[
            Told::Always(b"a LOGIN {1}\r\nxy\r\n", b"13 go\n17 bad 14 <a>\n"),
            Told::Always(
                b"a FETCH 1 BODY[HEADER.FIELDS ({3}\r\na b)]\r\n",
                b"35 go\n42 bad 36 <a>\n",
            ),
            Told::Always(b"a APPEND x {1}\r\n\r\r\r\n", b"16 go\n20 bad 18 <a>\n"),
            Told::Always(
                b"a SELECT {2}\r\n\r\n\r\n\r\n",
                b"14 go\n18 a Select <\r\n>\n20 bad 0\n",
            ),
        ],
    ),
    (
        "strings where UTF-8 is enabled",
        &[Told::Enabled(
            b"a SELECT \"\xc3\xa9 \xe3\x81\x82\"\r\n",
            b"19 a Select <\xc3\xa9 \xe3\x81\x82>\n",
        )],
    ),
    (
        "and where it isn't",
        &[Told::Legacy(
            b"a SELECT \"\xc3\xa9 \xe3\x81\x82\"\r\n",
            b"19 bad 10 <a>\n",
        )],
    ),
    (
        "an atom is ASCII in either",
        &[Told::Always(b"a SELECT \xc3\xa9\r\n", b"13 bad 9 <a>\n")],
    ),
    (
        "a character that is cut short",
        &[Told::Enabled(b"a SELECT \"\xe3\x81\"\r\n", b"15 bad 12 <a>\n")],
    ),
    (
        "and where UTF-8 isn't enabled",
        &[Told::Legacy(b"a SELECT \"\xe3\x81\"\r\n", b"15 bad 10 <a>\n")],
    ),
    (
        "messages that are too large",
        &[
            Told::Always(b"a APPEND x {33554432}\r\n", b"23 go\n"),
            Told::Always(
                b"a APPEND x {33554433}\r\nb NOOP\r\n",
                b"23 large <a>\n31 b Noop\n",
            ),
            Told::Always(b"a APPEND x UTF8 (~{4294967295}\r\n", b"32 large <a>\n"),
        ],
    ),
];

#[test]
fn commands_are_told(rt: HostRuntime) -> Result<(), Fail> {
    all_hold(rt.alloc(), &COMMANDS)
}
