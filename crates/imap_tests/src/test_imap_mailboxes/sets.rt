//! Which messages a set names.
ghost use Rattle.std.specs.Prelude.{◌≡◌, map};
ghost use Rattle.std.specs.List.Sorted.{IsStrictlyIncreasing};
ghost use Rattle.kept_mail.specs.declared.kept.Listed.{Listed as ListedValue};

use imap_grammar::Set;
use imap_mailboxes::places;
use imap_words::set_and_space;
use kept_mail::Listed;
use mail_wire::{Items, Memory};
use std::alloc::Global;
use std::test::Fail;
use test_mail::{Case, all_hold};

fn listed(id: u32, uid: u32) -> Listed
    ensures { result.uid ≡ uid }
{
    Listed { id, uid, flags: 0 }
}

// Four messages, with UIDs 2, 5, 6 and 9.
fn four() -> [Listed; 4]
    ensures { IsStrictlyIncreasing (map (λ (one : ListedValue). one.uid) result) }
{
    [listed(0, 2), listed(3, 5), listed(4, 6), listed(9, 9)]
}

// The set that is written so, with a space after it.
fn set_of(alloc: Global, text: &[u8]) -> Result<Set, Memory> {
    match set_and_space(alloc, text) {
        Ok((ranges, _)) => Ok(Set { ranges }),
        Err(_) => Err(Memory),
    }
}

// Whether UIDs are named, a set, and the places of the messages of four that it names, if it may.
struct Chosen(bool, &'static [u8], Option<&'static [u32]>);

impl Case for Chosen {
    fn holds(&self, alloc: Global) -> Result<bool, Memory> {
        let set = set_of(alloc, self.1)?;
        match places(alloc, self.0, &set, &four())? {
            Some(places) => Ok(self.2 == Some(places.as_slice())),
            None => Ok(self.2.is_none()),
        }
    }
}

const CHOSEN: [(&str, &[Chosen]); 4] = [
    (
        "numbers name messages in order",
        &[
            Chosen(false, b"1 ", Some(&[0])),
            Chosen(false, b"1,1:2 ", Some(&[0, 1])),
            Chosen(false, b"3:1,2 ", Some(&[0, 1, 2])),
            Chosen(false, b"*:1 ", Some(&[0, 1, 2, 3])),
            Chosen(false, b"* ", Some(&[3])),
            Chosen(false, b"4,2,4,2:2 ", Some(&[1, 3])),
            Chosen(false, b"1:4,2:3 ", Some(&[0, 1, 2, 3])),
        ],
    ),
    (
        "UIDs name messages that are there",
        &[
            Chosen(true, b"1 ", Some(&[])),
            Chosen(true, b"2,3,9 ", Some(&[0, 3])),
            Chosen(true, b"3:8 ", Some(&[1, 2])),
            Chosen(true, b"8:3,5:9 ", Some(&[1, 2, 3])),
            Chosen(true, b"4294967295:* ", Some(&[3])),
            Chosen(true, b"*:7 ", Some(&[3])),
            Chosen(true, b"1:* ", Some(&[0, 1, 2, 3])),
            Chosen(true, b"10:4294967295 ", Some(&[])),
        ],
    ),
    (
        "numbers past the last are refused",
        &[
            Chosen(false, b"5 ", None),
            Chosen(false, b"1,2:5 ", None),
            Chosen(false, b"4294967295:* ", None),
            Chosen(false, b"4 ", Some(&[3])),
        ],
    ),
    (
        "but no UIDs past the last",
        &[Chosen(true, b"4294967295 ", Some(&[]))],
    ),
];

#[test]
fn sets_name_messages_in_order(rt: HostRuntime) -> Result<(), Fail> {
    all_hold(rt.alloc(), &CHOSEN)
}

#[test]
fn no_ranges_name_nothing(rt: HostRuntime) -> Result<(), Fail> {
    let set = Set {
        ranges: Items::new(rt.alloc()),
    };
    let chosen = places(rt.alloc(), false, &set, &four())?;
    assert!(rt; chosen.is_some_and(|places| places.is_empty()));
    Ok(())
}

// Whether UIDs are named, a set, and whether it names no message of an empty folder; else it is refused there.
struct Empty(bool, &'static [u8], bool);

impl Case for Empty {
    fn holds(&self, alloc: Global) -> Result<bool, Memory> {
        let set = set_of(alloc, self.1)?;
        match places(alloc, self.0, &set, &[])? {
            Some(places) => Ok(self.2 && places.is_empty()),
            None => Ok(!self.2),
        }
    }
}

const EMPTY: [(&str, &[Empty]); 3] = [
    ("the last of none is none", &[Empty(false, b"* ", true)]),
    ("a number is refused", &[Empty(false, b"1:* ", false)]),
    ("a UID isn't", &[Empty(true, b"1:* ", true)]),
];

#[test]
fn an_empty_folder_has_nothing_to_name(rt: HostRuntime) -> Result<(), Fail> {
    all_hold(rt.alloc(), &EMPTY)
}
