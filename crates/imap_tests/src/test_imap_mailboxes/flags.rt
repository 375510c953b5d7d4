//! Flags and their text.
use imap_grammar::StoreOp;
use imap_mailboxes::{ANSWERED, DELETED, DRAFT, FLAGGED, SEEN, has_flag, push_flags, stored_flags};
use mail_wire::{Memory, Octets};
use std::alloc::Global;
use std::test::Fail;
use test_mail::{Case, all_hold};

// Flags, and their text.
struct Text(u8, &'static [u8]);

impl Case for Text {
    fn holds(&self, alloc: Global) -> Result<bool, Memory> {
        let mut told = Octets::from_slice(alloc, b"* 1 ")?;
        push_flags(&mut told, self.0)?;
        Ok(told.as_slice().strip_prefix(b"* 1 ") == Some(self.1))
    }
}

const TEXTS: [(&str, &[Text]); 6] = [
    ("there may be none", &[Text(0, b"FLAGS ()")]),
    ("one is seen", &[Text(SEEN, b"FLAGS (\\Seen)")]),
    ("another a draft", &[Text(DRAFT, b"FLAGS (\\Draft)")]),
    (
        "they come in one order",
        &[Text(SEEN + ANSWERED, b"FLAGS (\\Answered \\Seen)")],
    ),
    (
        "whichever they are",
        &[Text(FLAGGED + DELETED, b"FLAGS (\\Flagged \\Deleted)")],
    ),
    (
        "all of them, too",
        &[Text(31, b"FLAGS (\\Answered \\Flagged \\Deleted \\Seen \\Draft)")],
    ),
];

#[test]
fn flags_are_told_in_one_order(rt: HostRuntime) -> Result<(), Fail> {
    all_hold(rt.alloc(), &TEXTS)
}

#[test]
fn store_replaces_adds_and_removes(rt: HostRuntime) {
    for (op, stored) in [
        (StoreOp::Replace, DELETED + DRAFT),
        (StoreOp::Add, SEEN + DELETED + DRAFT),
        (StoreOp::Remove, SEEN),
    ] {
        assert!(rt; stored_flags(op, SEEN + DELETED, DELETED + DRAFT) == stored);
    }
}

#[test]
fn a_flag_is_set_or_not(rt: HostRuntime) {
    for (flag, set) in [
        (DELETED, true),
        (SEEN, true),
        (FLAGGED, false),
        (DRAFT, false),
    ] {
        assert!(rt; has_flag(DELETED + SEEN, flag) == set);
    }
}
