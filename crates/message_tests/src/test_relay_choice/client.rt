//! Whole runs over the octets of a server, which come one by one: what is said, and what comes of the recipients.
ghost use Rattle.std.specs.Prelude.{IfOk, IfSome};
ghost use Rattle.std.specs.List.{All};
ghost use Rattle.relay_choice.specs.MailObjects.{HasTextDomain, IsAddressed};

use address_grammar::Address;
use journal_records::mark_of;
use mail_wire::{Items, Memory, Octets};
use relay_choice::{
    Act, Acts, Client, MailObject, MailObjects, Outcome, ReplyRead, ReplyReader, Taken, Turn,
    mail_object_of, push_data, read_reply,
};
use std::alloc::Global;
use std::test::Fail;
use test_mail::{Case, all_hold};

// The local part and the domain of an address.
type Parts<'a> = (&'a str, &'a str);

// A message of a queue: its path, none for the null path, its recipients, and its octets.
struct Queued<'a> {
    path: Option<Parts<'a>>,
    recipients: &'a [Parts<'a>],
    octets: &'a [u8],
}

fn address_of(alloc: Global, parts: Parts) -> Result<Address, Memory>
    ensures { IfOk result HasTextDomain }
{
    let (local, domain) = parts;
    Ok(Address {
        local: Octets::from_slice(alloc, local.as_bytes())?,
        domain: Octets::from_slice(alloc, domain.as_bytes())?,
    })
}

fn addresses_of(alloc: Global, all: &[Parts]) -> Result<Items<Address>, Memory>
    ensures { IfOk result (All HasTextDomain) }
{
    let mut made = Items::new(alloc);
    for parts in all {
        made.push(address_of(alloc, *parts)?)?;
    }
    Ok(made)
}

fn path_of(alloc: Global, parts: Option<Parts>) -> Result<Option<Address>, Memory>
    ensures { IfOk result (λ path. IfSome path HasTextDomain) }
{
    match parts {
        Some(parts) => Ok(Some(address_of(alloc, parts)?)),
        None => Ok(None),
    }
}

// The mail object of a message; none of octets that are no message.
fn queued_mail_object(alloc: Global, queued: &Queued) -> Result<Option<MailObject>, Memory>
    ensures { IfOk result (λ found. IfSome found IsAddressed) }
{
    let Some(mark) = mark_of(alloc, queued.octets)? else {
        return Ok(None);
    };
    let path = path_of(alloc, queued.path)?;
    let recipients = addresses_of(alloc, queued.recipients)?;
    Ok(Some(mail_object_of(alloc, path, recipients, mark)?))
}

fn queued_mail_objects(alloc: Global, queue: &[Queued]) -> Result<Option<MailObjects>, Memory>
    ensures { IfOk result (λ found. IfSome found (All IsAddressed)) }
{
    let mut mail_objects = Items::new(alloc);
    for queued in queue {
        match queued_mail_object(alloc, queued)? {
            Some(mail_object) => mail_objects.push(mail_object)?,
            None => return Ok(None),
        }
    }
    Ok(Some(mail_objects))
}

fn put_outcome(made: &mut Octets, outcome: Outcome) -> Result<(), Memory> {
    match outcome {
        Outcome::Sent => made.push_slice(b" sent")?,
        Outcome::Refused { detail, code } => {
            made.push_slice(b" 5.")?;
            made.push(b'0' + detail % 10)?;
            if code.is_some() {
                made.push_slice(b" coded")?;
            }
        }
    }
    Ok(())
}

// What acts give, and what is settled in brackets.
fn put_acts(made: &mut Octets, acts: &Acts, queue: &[Queued]) -> Result<(), Memory> {
    for act in acts.as_slice() {
        match act {
            Act::Say(octets) => made.push_slice(octets.as_slice())?,
            Act::SayData(number) => {
                if let Some(queued) = queue.get(*number) {
                    push_data(made, queued.octets)?;
                }
            }
            Act::Settle(_, outcomes) => {
                made.push(b'[')?;
                for outcome in outcomes.as_slice() {
                    put_outcome(made, *outcome)?;
                }
                made.push_slice(b" ]\r\n")?;
            }
        }
    }
    Ok(())
}

// Puts `!` and the octets that stop a run.
fn put_stop(made: &mut Octets, octets: &[u8]) -> Result<(), Memory> {
    made.push(b'!')?;
    made.push_slice(octets)
}

// The client after a reply, unless the run ends with it, whose acts are put last.
fn answered(
    alloc: Global,
    client: Client,
    octets: &[u8],
    queue: &[Queued],
    made: &mut Octets,
) -> Result<Option<Client>, Memory> {
    let ReplyRead::Whole { reply, .. } = read_reply(alloc, octets)? else {
        put_stop(made, octets)?;
        return Ok(None);
    };
    match client.take(&reply)? {
        Turn::Goes { client: next, acts } => {
            put_acts(made, &acts, queue)?;
            Ok(Some(next))
        }
        Turn::Ends(acts) => {
            put_acts(made, &acts, queue)?;
            Ok(None)
        }
        Turn::Stops => {
            put_stop(made, octets)?;
            Ok(None)
        }
    }
}

// Puts what a run over the server's octets gives last.
fn run(
    alloc: Global,
    mut client: Client,
    queue: &[Queued],
    peer: &[u8],
    made: &mut Octets,
) -> Result<(), Memory> {
    let mut reader = ReplyReader::new(alloc);
    for octet in peer.chunks(1) {
        match reader.take(octet)? {
            Taken::Begun(longer) => reader = longer,
            Taken::Decided { octets, .. } => {
                match answered(alloc, client, octets.as_slice(), queue, made)? {
                    Some(next) => client = next,
                    None => return Ok(()),
                }
                reader = ReplyReader::new(alloc);
            }
        }
    }
    made.push(b'?')
}

// A queue, what a server sends, and what is said and settled.
struct Talk(&'static [Queued<'static>], &'static [u8], &'static str);

impl Case for Talk {
    fn holds(&self, alloc: Global) -> Result<bool, Memory> {
        let Some(mail_objects) = queued_mail_objects(alloc, self.0)? else {
            return Ok(false);
        };
        let name = Octets::from_slice(alloc, b"example.org")?;
        let mut made = Octets::new(alloc);
        let client = Client::new(alloc, name, mail_objects);
        run(alloc, client, self.0, self.1, &mut made)?;
        Ok(made.as_slice() == self.2.as_bytes())
    }
}

const HIGH: Queued = Queued {
    path: Some(("a", "example.org")),
    recipients: &[("josé", "example.com")],
    octets: b"Subject: \xc3\xa9\r\n\r\n",
};

const PLAIN: Queued = Queued {
    path: None,
    recipients: &[("ann", "example.com"), ("bob", "bücher.example")],
    octets: b"A: b\r\n\r\n.x",
};

const RUNS: [(&str, &[Talk]); 12] = [
    (
        "a UTF-8 header is sent to no server without SMTPUTF8",
        &[Talk(
            &[HIGH],
            b"220 x\r\n250-x\r\n250 8BITMIME\r\n",
            "EHLO example.org\r\n[ 5.9 ]\r\nQUIT\r\n",
        )],
    ),
    (
        "a refused recipient keeps his code when the transaction is reset",
        &[Talk(
            &[HIGH],
            b"220 x\r\n250-x\r\n250-8BITMIME\r\n250 SMTPUTF8\r\n250 ok\r\n550 no\r\n250 ok\r\n",
            "EHLO example.org\r\nMAIL FROM:<a@example.org> BODY=8BITMIME SMTPUTF8\r\nRCPT TO:<josé@example.com>\r\nRSET\r\n[ 5.0 coded ]\r\nQUIT\r\n",
        )],
    ),
    (
        "a refused reset stops the run",
        &[Talk(
            &[HIGH],
            b"220 x\r\n250-x\r\n250-8BITMIME\r\n250 SMTPUTF8\r\n250 ok\r\n550 no\r\n451 x\r\n250 x\r\n",
            "EHLO example.org\r\nMAIL FROM:<a@example.org> BODY=8BITMIME SMTPUTF8\r\nRCPT TO:<josé@example.com>\r\nRSET\r\n!451 x\r\n",
        )],
    ),
    (
        "data go to those who were accepted",
        &[Talk(
            &[PLAIN],
            b"220 x\r\n250 x\r\n250 ok\r\n250 ok\r\n550 no\r\n354 go\r\n250 ok\r\n",
            "EHLO example.org\r\nMAIL FROM:<>\r\nRCPT TO:<ann@example.com>\r\nRCPT TO:<bob@xn--bcher-kva.example>\r\nDATA\r\nA: b\r\n\r\n..x\r\n.\r\n[ sent 5.0 coded ]\r\nQUIT\r\n",
        )],
    ),
    (
        "refused data fail them",
        &[Talk(
            &[PLAIN],
            b"220 x\r\n250 x\r\n250 ok\r\n250 ok\r\n550 no\r\n354 go\r\n554 no\r\n",
            "EHLO example.org\r\nMAIL FROM:<>\r\nRCPT TO:<ann@example.com>\r\nRCPT TO:<bob@xn--bcher-kva.example>\r\nDATA\r\nA: b\r\n\r\n..x\r\n.\r\n[ 5.0 coded 5.0 coded ]\r\nQUIT\r\n",
        )],
    ),
    (
        "data that may go later stop the run",
        &[Talk(
            &[PLAIN],
            b"220 x\r\n250 x\r\n250 ok\r\n250 ok\r\n550 no\r\n354 go\r\n452 x\r\n",
            "EHLO example.org\r\nMAIL FROM:<>\r\nRCPT TO:<ann@example.com>\r\nRCPT TO:<bob@xn--bcher-kva.example>\r\nDATA\r\nA: b\r\n\r\n..x\r\n.\r\n!452 x\r\n",
        )],
    ),
    (
        "a refused DATA fails all recipients",
        &[Talk(
            &[PLAIN],
            b"220 x\r\n250 x\r\n250 ok\r\n250 ok\r\n250 ok\r\n554 no\r\n",
            "EHLO example.org\r\nMAIL FROM:<>\r\nRCPT TO:<ann@example.com>\r\nRCPT TO:<bob@xn--bcher-kva.example>\r\nDATA\r\n[ 5.0 coded 5.0 coded ]\r\nQUIT\r\n",
        )],
    ),
    (
        "a refused path fails all recipients",
        &[Talk(
            &[PLAIN],
            b"220 x\r\n250 x\r\n550 no\r\n250 ok\r\n",
            "EHLO example.org\r\nMAIL FROM:<>\r\nRSET\r\n[ 5.0 coded 5.0 coded ]\r\nQUIT\r\n",
        )],
    ),
    (
        "nothing is said after a reply that stops the run",
        &[
            Talk(&[PLAIN], b"554 no\r\n250 x\r\n", "!554 no\r\n"),
            Talk(
                &[PLAIN],
                b"220 x\r\n502 no\r\n250 x\r\n",
                "EHLO example.org\r\n!502 no\r\n",
            ),
        ],
    ),
    (
        "nor after what is no reply",
        &[Talk(&[PLAIN], b"220 x\r\n2xy", "EHLO example.org\r\n!2x")],
    ),
    (
        "nor where there is none",
        &[Talk(&[PLAIN], b"220 x\r\n250-x\r\n", "EHLO example.org\r\n?")],
    ),
    (
        "mail objects follow each other",
        &[Talk(
            &[HIGH, PLAIN, HIGH],
            b"220 x\r\n250-x\r\n250 8BITMIME\r\n250 ok\r\n250 ok\r\n250 ok\r\n354 go\r\n250 ok\r\n",
            "EHLO example.org\r\n[ 5.9 ]\r\nMAIL FROM:<>\r\nRCPT TO:<ann@example.com>\r\nRCPT TO:<bob@xn--bcher-kva.example>\r\nDATA\r\nA: b\r\n\r\n..x\r\n.\r\n[ sent sent ]\r\n[ 5.9 ]\r\nQUIT\r\n",
        )],
    ),
];

#[test]
fn what_is_said_follows_from_what_the_server_sends(rt: HostRuntime) -> Result<(), Fail> {
    all_hold(rt.alloc(), &RUNS)
}
