//! What domains and mailboxes are known by.
use journal_records::{domain_key, mailbox_key, read_text};
use mail_wire::{Memory, Octets};
use std::alloc::Global;
use std::test::Fail;
use test_mail::{Case, all_hold};

// What the mailbox of an address text is known by, if it is an address.
fn key_of(alloc: Global, text: &str) -> Result<Option<Octets>, Memory> {
    match read_text(alloc, text.as_bytes())? {
        Some(address) => Ok(Some(mailbox_key(alloc, &address)?)),
        None => Ok(None),
    }
}

// Whether two addresses are of the same mailbox, if both are addresses.
fn are_same(alloc: Global, first: &str, second: &str) -> Result<Option<bool>, Memory> {
    match (key_of(alloc, first)?, key_of(alloc, second)?) {
        (Some(first), Some(second)) => Ok(Some(first.as_slice() == second.as_slice())),
        _ => Ok(None),
    }
}

enum Known {
    // a domain and its form
    By(&'static str, &'static [u8]),
    // two addresses of one mailbox, or of two
    Same(&'static str, &'static str),
    Apart(&'static str, &'static str),
}

impl Case for Known {
    fn holds(&self, alloc: Global) -> Result<bool, Memory> {
        match self {
            Known::By(domain, key) => Ok(domain_key(alloc, *domain)?.as_slice() == *key),
            Known::Same(first, second) => Ok(are_same(alloc, *first, *second)? == Some(true)),
            Known::Apart(first, second) => Ok(are_same(alloc, *first, *second)? == Some(false)),
        }
    }
}

const KNOWN: [(&str, &[Known]); 3] = [
    (
        "domains are known by their forms",
        &[
            Known::By("X.org", b"x.org"),
            Known::By("é.org", b"xn--9ca.org"),
            Known::By("É.ORG", b"xn--9ca.org"),
            Known::By("a_b.org", b"a_b.org"),
        ],
    ),
    (
        "a mailbox has many spellings",
        &[
            Known::Same("A@X.org", "a@x.org"),
            Known::Same("STRASSE@x.org", "straße@x.org"),
            Known::Same("é@é.org", "E\u{301}@xn--9ca.org"),
            Known::Same("\"ann\"@x.org", "ann@x.org"),
        ],
    ),
    (
        "others are told apart",
        &[
            Known::Apart("a@x.org", "b@x.org"),
            Known::Apart("a@x.org", "a@y.org"),
        ],
    ),
];

#[test]
fn domains_and_mailboxes_are_known(rt: HostRuntime) -> Result<(), Fail> {
    all_hold(rt.alloc(), &KNOWN)
}
