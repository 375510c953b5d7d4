//! Folders made, and flags set, by the calls of the outside over a keeper in memory.
ghost use Rattle.std.specs.Prelude.{OnOk};
ghost use Rattle.session_core.specs.Desks.{IsOpen};

use journal_records::may_name_folder;
use mail_store::laws::listings_are_live;
use mail_wire::{Fault, FixedClock, MemKeeper, MemWire, Memory};
use session_core::{Created, LIMITS, Outside, open_desk};
use std::alloc::Global;
use std::test::Fail;
use test_mail::{Case, JOURNAL, NEVER, all_hold, failing, keeper_of, wire_of};

const DATE: [u8; 26] = *b"01-Jan-1970 00:00:00 +0000";

// A folder of the account.
const FOLDER: [u8; 17] = *b"\0\0\0\x0d\x03\0\0\0\0\0\0\0\x04work";

// The message's flags are Seen and Draft.
const FLAGS: [u8; 10] = *b"\0\0\0\x06\x05\0\0\0\0\x11";

// Whether this comes of a folder that the account is to have.
fn creates(
    outside: &mut Outside<MemWire, MemKeeper, FixedClock>,
    name: &str,
    wanted: Created,
) -> Result<bool, Fault>
    requires { IsOpen outside.old.desk }
    ensures { OnOk result (IsOpen outside.new.desk) }
{
    if outside.store().account_count() == 0 || !may_name_folder(outside.alloc(), name)? {
        return Ok(false);
    }
    Ok(outside.create_folder(0, name)? == wanted)
}

// Whether a folder is made once, and INBOX never, in an account whose message has its date.
fn makes_folder(outside: &mut Outside<MemWire, MemKeeper, FixedClock>) -> Result<bool, Fault>
    requires { IsOpen outside.old.desk }
{
    if !is_dated(outside) {
        return Ok(false);
    }
    Ok(
        creates(outside, "work", Created::Made)?
            && creates(outside, "work", Created::Exists)?
            && creates(outside, "Inbox", Created::Exists)?,
    )
}

// Whether the keeper's failure is told where a folder is to be made.
fn tells_failure(
    outside: &mut Outside<MemWire, MemKeeper, FixedClock>,
    name: &str,
) -> Result<bool, Fault>
    requires { IsOpen outside.old.desk }
{
    if outside.store().account_count() == 0 || !may_name_folder(outside.alloc(), name)? {
        return Ok(false);
    }
    let told = outside.create_folder(0, name) == Err(Fault::Keeper);
    Ok(told && outside.store().failed())
}

// Whether the first message of INBOX gets these flags.
fn marks(outside: &mut Outside<MemWire, MemKeeper, FixedClock>, flags: u8) -> Result<bool, Fault>
    requires { IsOpen outside.old.desk }
{
    if outside.store().folder_count() == 0 || flags >= 32 {
        return Ok(false);
    }
    listings_are_live();
    let listing = outside.store().list(0)?;
    let Some(one) = listing.as_slice().first() else {
        return Ok(false);
    };
    let id = one.id;
    outside.set_flags(id, flags)?;
    Ok(true)
}

// Whether the first message of INBOX has these flags.
fn has_flags(outside: &Outside<MemWire, MemKeeper, FixedClock>, flags: u8) -> bool {
    if outside.store().folder_count() == 0 {
        return false;
    }
    match outside.store().list(0) {
        Ok(listing) => listing
            .as_slice()
            .first()
            .is_some_and(|one| one.flags == flags),
        Err(_) => false,
    }
}

fn sets_flags(outside: &mut Outside<MemWire, MemKeeper, FixedClock>) -> Result<bool, Fault>
    requires { IsOpen outside.old.desk }
{
    Ok(has_flags(outside, 0) && marks(outside, 17)? && has_flags(outside, 17))
}

// Whether the message has its date.
fn is_dated(outside: &Outside<MemWire, MemKeeper, FixedClock>) -> bool {
    outside.store().message_count() > 0 && outside.date(0) == DATE.as_slice()
}

// What is tried of the outside.
#[derive(Clone, Copy)]
enum Trial {
    MakesFolder,
    SetsFlags,
    TellsFailure,
}

fn goes_well(outside: &mut Outside<MemWire, MemKeeper, FixedClock>, trial: Trial) -> bool
    requires { IsOpen outside.old.desk }
{
    let tried = match trial {
        Trial::MakesFolder => makes_folder(outside),
        Trial::SetsFlags => sets_flags(outside),
        Trial::TellsFailure => tells_failure(outside, "work"),
    };
    tried == Ok(true)
}

// What is tried, the call of the keeper that fails, and what it keeps then after what it had.
struct Row(Trial, u64, &'static [u8]);

impl Case for Row {
    fn holds(&self, alloc: Global) -> Result<bool, Memory> {
        let mut keeper = keeper_of(alloc, JOURNAL, failing(self.1))?;
        let mut wire = wire_of(alloc, b"", &[], None)?;
        let mut clock = FixedClock::new(0);
        let Ok(desk) = open_desk(alloc, &mut keeper, LIMITS) else {
            return Ok(false);
        };
        let mut outside = Outside::new(alloc, desk, &mut wire, &mut keeper, &mut clock);
        let tried = goes_well(&mut outside, self.0);
        let (_desk, _wire, _keeper, _clock) = outside.into_parts();
        Ok(tried && keeper.octets().strip_prefix(JOURNAL) == Some(self.2))
    }
}

const ROWS: [(&str, &[Row]); 3] = [
    (
        "a folder is made once",
        &[Row(Trial::MakesFolder, NEVER, &FOLDER)],
    ),
    ("flags are set", &[Row(Trial::SetsFlags, NEVER, &FLAGS)]),
    (
        "a failed append is told",
        &[Row(Trial::TellsFailure, 8, b"\0\0\0")],
    ),
];

#[test]
fn folders_and_flags_are_kept(rt: HostRuntime) -> Result<(), Fail> {
    all_hold(rt.alloc(), &ROWS)
}
