//! The rows of words and of what is added, over wires and keepers in memory.
use mail_wire::{Failure, Fault, MemKeeper, MemWire, Memory};
use setup_command::{read_account, read_domain, run_account, run_domain, run_help};
use std::alloc::Global;
use std::test::Fail;
use test_mail::{Case, NEVER, all_hold, failing, given, keeper_of, wire_of, words_of};

// An empty journal of each version, and one with the domain `x.org`.
const BEGUN: &[u8] = b"MAILJNL2";

const OLD: &[u8] = b"MAILJNL1";

const WITH_DOMAIN: &[u8] = b"MAILJNL2\0\0\0\x0a\x02\0\0\0\x05x.org";

// The status of the words of `account` or `domain`, if they are such.
fn answer(
    alloc: Global,
    list: &[&str],
    wire: &mut MemWire,
    keeper: &mut MemKeeper,
) -> Result<Option<u8>, Memory> {
    let words = words_of(alloc, list)?;
    let status = match (read_account(alloc, &words)?, read_domain(alloc, &words)?) {
        (Some(said), None) => match &said.password {
            Some(password) => run_account(alloc, &said.address, password.as_slice(), wire, keeper),
            None => return Ok(None),
        },
        (None, Some(domain)) => run_domain(alloc, domain.as_str(), wire, keeper),
        _ => return Ok(None),
    };
    Ok(Some(match status {
        Ok(status) => status,
        Err(Fault::Wire) => 1,
        Err(Fault::Keeper) => 2,
        Err(Fault::Memory) => 3,
    }))
}

// What a keeper has, the calls of it and of the wire that fail, and the status and what is given then, when the domain `x.org` is added.
// What it had stays.
struct Adding {
    kept: &'static [u8],
    calls: [u64; 2],
    status: u8,
    given: &'static [u8],
}

impl Case for Adding {
    fn holds(&self, alloc: Global) -> Result<bool, Memory> {
        let [keeper_call, wire_call] = self.calls;
        let mut wire = wire_of(alloc, b"", &[], failing(wire_call))?;
        let failure = Some(Failure {
            call: keeper_call,
            kept: 2,
        });
        let mut keeper = keeper_of(alloc, self.kept, failure)?;
        let status = answer(alloc, &["domain", "x.org"], &mut wire, &mut keeper)?;
        let given = given(alloc, wire.entries())?;
        Ok(
            status == Some(self.status)
                && given.as_slice() == self.given
                && keeper.octets().starts_with(self.kept),
        )
    }
}

// The keeper's calls are one for the length, one for the first octets, one that has a journal of version 1 go on in version 2, and one that puts the
// record last.
const ADDING: [(&str, &[Adding]); 2] = [
    (
        "each failing call of the keeper breaks off",
        &[
            Adding {
                kept: BEGUN,
                calls: [0, NEVER],
                status: 2,
                given: b"",
            },
            Adding {
                kept: BEGUN,
                calls: [1, NEVER],
                status: 2,
                given: b"",
            },
            Adding {
                kept: BEGUN,
                calls: [2, NEVER],
                status: 2,
                given: b"",
            },
            Adding {
                kept: OLD,
                calls: [2, NEVER],
                status: 2,
                given: b"",
            },
            Adding {
                kept: OLD,
                calls: [3, NEVER],
                status: 2,
                given: b"",
            },
        ],
    ),
    (
        "so does that of the wire",
        &[Adding {
            kept: WITH_DOMAIN,
            calls: [NEVER, 0],
            status: 1,
            given: b"exi",
        }],
    ),
];

#[test]
fn each_failing_call_breaks_off(rt: HostRuntime) -> Result<(), Fail> {
    all_hold(rt.alloc(), &ADDING)
}

// Words of `account`, the local part that they name, and the password that they have.
struct Said {
    words: &'static [&'static str],
    local: &'static [u8],
    password: Option<&'static [u8]>,
}

impl Case for Said {
    fn holds(&self, alloc: Global) -> Result<bool, Memory> {
        let words = words_of(alloc, self.words)?;
        let Some(said) = read_account(alloc, &words)? else {
            return Ok(false);
        };
        let password = said.password.as_ref().map(|octets| octets.as_slice());
        Ok(said.address.local.as_slice() == self.local && password == self.password)
    }
}

const SAID: [(&str, &[Said]); 2] = [
    (
        "a password is a word",
        &[Said {
            words: &["account", "ann@x.org", "secret"],
            local: b"ann",
            password: Some(b"secret"),
        }],
    ),
    (
        "or isn't said",
        &[Said {
            words: &["account", "ann@x.org"],
            local: b"ann",
            password: None,
        }],
    ),
];

#[test]
fn a_password_may_be_left_out(rt: HostRuntime) -> Result<(), Fail> {
    all_hold(rt.alloc(), &SAID)
}

const HELP: &str = "dervlask 0.9.0\n\
        A mail server over standard input and output, or over a port\n\
        \n\
        Usage: dervlask COMMAND [WORDS]\n\
        \n\
        Commands:\n\
        \x20 downgrade  Take one message, give its surrogate in ASCII headers\n\
        \x20 check      Take one message, give what it and its surrogate count\n\
        \x20 pop        Serve one POP3 session\n\
        \x20 smtp       Serve one SMTP session\n\
        \x20 imap       Serve one IMAP session\n\
        \x20 serve      Serve ROLE (pop, smtp or imap) on PORT of 127.0.0.1, N connections\n\
        \x20 account    Add the account ADDRESS with PASSWORD, or with the first line of the input\n\
        \x20 domain     Make the domain of the word DOMAIN local\n\
        \x20 relay      Send the queue to the next server HOST (host or host:port)\n\
        \x20 gen        Make N messages and serve them to two clients\n\
        \x20 help       Give this text\n\
        \n\
        License: Apache-2.0 OR MIT\n";

// Whether this text is given.
fn gives_help(alloc: Global) -> Result<bool, Memory> {
    let mut wire = wire_of(alloc, b"", &[], None)?;
    let status = run_help(alloc, &mut wire);
    let given = given(alloc, wire.entries())?;
    Ok(status == Ok(0) && given.as_slice() == HELP.as_bytes())
}

#[test]
fn the_text_of_help(rt: HostRuntime) {
    assert!(rt; gives_help(rt.alloc()) == Ok(true));
}
