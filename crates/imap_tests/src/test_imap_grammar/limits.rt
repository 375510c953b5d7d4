//! Commands that are longer than may be.
use crate::test_imap_grammar::telling::told_cut;
use mail_wire::{LINE_MAX, Memory, Octets};
use std::alloc::Global;
use std::test::Fail;
use test_mail::{Case, all_hold};

// A LOGIN with a literal, whose password makes the command so long.
fn long_login(alloc: Global, len: usize) -> Result<Octets, Memory> {
    let mut octets = Octets::from_slice(alloc, b"a LOGIN {1}\r\nx ")?;
    for _ in octets.len()..len.saturating_sub(2) {
        octets.push(b'p')?;
    }
    octets.push_slice(b"\r\n")?;
    Ok(octets)
}

// Whether what is told of such a command that comes in two pieces begins so.
fn is_told(alloc: Global, len: usize, cut: usize, wanted: &[u8]) -> Result<bool, Memory> {
    let octets = long_login(alloc, len)?;
    let Some((front, back)) = octets.as_slice().split_at_checked(cut) else {
        return Ok(false);
    };
    let told = told_cut(alloc, false, front, back)?;
    Ok(told.as_slice().starts_with(wanted))
}

// The length of a command, where it is cut, and how what is told begins.
struct Long(usize, usize, &'static [u8]);

impl Case for Long {
    fn holds(&self, alloc: Global) -> Result<bool, Memory> {
        is_told(alloc, self.0, self.1, self.2)
    }
}

const WITHIN: &[u8] = b"13 go\n65536 a Login <x> <p";

const ABOVE: &[u8] = b"13 go\n65537 long\n";

const LONG: [(&str, &[Long]); 2] = [
    (
        "a command of the greatest length is read",
        &[
            Long(LINE_MAX, 0, WITHIN),
            Long(LINE_MAX, 9, WITHIN),
            Long(LINE_MAX, 14, WITHIN),
            Long(LINE_MAX, 65_530, WITHIN),
        ],
    ),
    (
        "a longer one is told",
        &[
            Long(LINE_MAX + 1, 0, ABOVE),
            Long(LINE_MAX + 1, 9, ABOVE),
            Long(LINE_MAX + 1, 14, ABOVE),
            Long(LINE_MAX + 1, 65_530, ABOVE),
        ],
    ),
];

#[test]
fn commands_have_a_limit(rt: HostRuntime) -> Result<(), Fail> {
    all_hold(rt.alloc(), &LONG)
}
