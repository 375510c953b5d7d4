//! The command `gen`: messages are made, stored, and served to a legacy client and to one that enables UTF-8.
ghost use Rattle.std.specs.Prelude.{◌≡◌, ◌<◌, ◌≤◌, ◌+◌, length, Err, IfOk, IsTrue, None, OnOk};
ghost use Rattle.mail_wire.specs.Moves.{HasWireCause};
ghost use Rattle.journal_records.specs.Spelling.{journal};
ghost use Rattle.journal_records.specs.Stored.{HasMark};
ghost use Rattle.journal_records.specs.declared.versions.Version.TheVariants as versions;
ghost use Rattle.kept_mail.specs.Kept.{store_of};
ghost use Rattle.session_core.specs.Desks.{IsOpen, stored_octets};
ghost use Rattle.session_core.specs.Keeps.{Keeps};
ghost use Rattle.session_core.specs.declared.desk.TheConstants.{LIMITS};
ghost use Rattle.setup_command.specs.Statuses.{status_of};
ghost use Rattle.mail_command.specs.Generating.{AreTotals, generated, totals_text};
ghost use Rattle.mail_command.specs.Running.{RunsGen};
ghost use Rattle.mail_command.specs.private.Account.{first_records};
ghost use Rattle.mail_command.specs.private.Sizes.{AreSizes};
ghost use Rattle.mail_command.specs.private.Sure.{IsSure};

use crate::figures::push_number_line;
use crate::roles::{Role, serve_one};
use itoa::Buffer;
use mail_store::{Attributes, OpenFault};
use mail_wire::{Fault, FixedClock, MemKeeper, MemWire, Memory, Octets, Wire, give_all};
use session_core::{Delivered, Desk, LIMITS, Outside, Served, open_desk};
use setup_command::DONE;
use std::alloc::Global;
use surrogate_cache::Legacy;

// A journal with the domain `example.org` and the account `a@example.org`, whose password is `a`.
const JOURNAL: &[u8] = b"MAILJNL2\
\0\0\0\x10\x02\0\0\0\x0bexample.org\
\0\0\0\x17\x01\0\0\0\x0da@example.org\0\0\0\x01a";

// The date of each message.
const DATE: &[u8] = b"01-Jan-1970 00:00:00 +0000";

// What is noted of each message. It has an octet above 127, and that stands in its header.
const NOTED: Attributes = Attributes { flags: 0, mark: 3 };

// How a client begins that enables UTF-8, and how every client goes on.
const ENABLING: &[u8] = b"UTF8\r\n";

const LOGGING_IN: &[u8] = b"USER a@example.org\r\nPASS a\r\nSTAT\r\n";

/// The sizes of all messages, and of all surrogates.
#[derive(Clone, Copy)]
pub struct Totals {
    pub stored: u128,
    pub served: u128,
}

// The sizes of a message and of its surrogate.
#[derive(Clone, Copy)]
struct Sizes {
    stored: usize,
    served: usize,
}

// The message of a number.
fn generated(alloc: Global, number: u32) -> Result<Octets, Memory>
    ensures { IfOk result (λ octets. octets ≡ generated number) }
{
    let mut buffer = Buffer::new();
    let digits = buffer.format(number).as_bytes();
    let mut octets = Octets::from_slice(alloc, b"From: a@example.org\r\nSubject: s")?;
    octets.push_slice(digits)?;
    octets.push_slice(" é\r\n\r\n".as_bytes())?;
    octets.push_slice(digits)?;
    octets.push_slice(b"\r\n")?;
    Ok(octets)
}

// Puts a message last in a folder, and answers its number.
#[tactic(auto, using(crate::proofs::GeneratingLemmas::date_is, crate::proofs::GeneratingLemmas::append_counts, crate::proofs::GeneratingLemmas::room_there))]
fn append_message(
    outside: &mut Outside<MemWire, MemKeeper, FixedClock>,
    folder: u32,
    octets: &[u8],
) -> Result<u32, Memory>
    requires opens { IsOpen outside.old.desk }
    requires sure { IsSure outside.old }
    requires limits { outside.old.desk.limits ≡ LIMITS }
    requires few { length outside.old.desk.store.kept.messages < 100000 }
    requires short { length octets.now ≤ 100 }
    requires marked { HasMark octets.now 3 }
    requires known { folder < length outside.old.desk.store.kept.folders }
    ensures known { IfOk result (λ id. id < length outside.new.desk.store.kept.messages) }
    ensures octets { IfOk result (λ id. stored_octets outside.new.desk.store id ≡ octets.now) }
    ensures keeps { OnOk result (Keeps outside.old outside.new None) }
    ensures count { OnOk result (length outside.new.desk.store.kept.messages ≡ length outside.old.desk.store.kept.messages + 1) }
    ensures folders { OnOk result (outside.new.desk.store.kept.folders ≡ outside.old.desk.store.kept.folders) }
{
    let id = outside.store().message_count() as u32;
    match outside.append(folder, NOTED, DATE, octets) {
        Ok(Delivered::Stored) => Ok(id),
        Err(Fault::Memory) => Err(Memory),
        // There is room.
        Ok(Delivered::TooLarge) => unreachable!(),
        Err(Fault::Wire | Fault::Keeper) => unreachable!(),
    }
}

// Puts a message last in a folder, and answers its size and that of what a legacy client is served.
#[tactic(auto, using(crate::proofs::GeneratingLemmas::opens_still))]
fn put_message(
    outside: &mut Outside<MemWire, MemKeeper, FixedClock>,
    folder: u32,
    octets: &[u8],
) -> Result<Sizes, Memory>
    requires opens { IsOpen outside.old.desk }
    requires sure { IsSure outside.old }
    requires limits { outside.old.desk.limits ≡ LIMITS }
    requires few { length outside.old.desk.store.kept.messages < 100000 }
    requires short { length octets.now ≤ 100 }
    requires marked { HasMark octets.now 3 }
    requires known { folder < length outside.old.desk.store.kept.folders }
    ensures sizes { IfOk result (AreSizes octets.now) }
    ensures keeps { OnOk result (Keeps outside.old outside.new None) }
    ensures count { OnOk result (length outside.new.desk.store.kept.messages ≡ length outside.old.desk.store.kept.messages + 1) }
    ensures folders { OnOk result (outside.new.desk.store.kept.folders ≡ outside.old.desk.store.kept.folders) }
{
    let id = append_message(outside, folder, octets)?;
    let served = outside.size::<Legacy>(id)?;
    Ok(Sizes {
        stored: octets.len(),
        served,
    })
}

// Puts so many messages last in the account's INBOX, and adds their sizes up.
fn put_messages(
    outside: &mut Outside<MemWire, MemKeeper, FixedClock>,
    number: u32,
) -> Result<Totals, Memory>
    requires opens { IsOpen outside.old.desk }
    requires sure { IsSure outside.old }
    requires limits { outside.old.desk.limits ≡ LIMITS }
    requires few { number ≤ 100000 }
    requires kept { outside.old.desk.store.kept ≡ store_of first_records }
    ensures totals { IfOk result (AreTotals number) }
    ensures keeps { OnOk result (Keeps outside.old outside.new None) }
{
    let inbox = outside.store().inbox(0);
    let mut stored: u128 = 0;
    let mut served: u128 = 0;
    for message in 0..number {
        let octets = generated(outside.alloc(), message)?;
        let sizes = put_message(outside, inbox, octets.as_slice())?;
        stored += sizes.stored as u128;
        served += sizes.served as u128;
    }
    Ok(Totals { stored, served })
}

// Opens the journal that has the one account.
fn open_first(alloc: Global, keeper: &mut MemKeeper) -> Result<Desk, Memory>
    requires octets { keeper.old.octets ≡ journal versions.Two first_records }
    requires sure { IsTrue keeper.old.never_fails }
    ensures opens { IfOk result IsOpen }
    ensures limits { IfOk result (λ desk. desk.limits ≡ LIMITS) }
    ensures kept { IfOk result (λ desk. desk.store.kept ≡ store_of first_records) }
    ensures sure { OnOk result (IsTrue keeper.new.never_fails) }
{
    match open_desk(alloc, keeper, LIMITS) {
        Ok(desk) => Ok(desk),
        Err(OpenFault::Memory) => Err(Memory),
        // All its records are good.
        Err(OpenFault::BadJournal { .. }) => unreachable!(),
        Err(OpenFault::Keeper) => unreachable!(),
    }
}

// A wire that never fails.
fn wire_of(alloc: Global, input: Octets) -> MemWire
    ensures left { result.left ≡ input }
    ensures sure { IsTrue result.never_fails }
{
    MemWire::new(alloc, input, Vec::new(alloc), Vec::new(alloc))
}

// Makes so many messages on a desk.
#[tactic(auto, using(crate::proofs::GeneratingLemmas::opens_still, crate::proofs::GeneratingLemmas::sure_still))]
fn make_messages(
    alloc: Global,
    desk: Desk,
    keeper: &mut MemKeeper,
    number: u32,
) -> Result<(Desk, Totals), Memory>
    requires opens { IsOpen desk }
    requires limits { desk.limits ≡ LIMITS }
    requires kept { desk.store.kept ≡ store_of first_records }
    requires sure { IsTrue keeper.old.never_fails }
    requires few { number ≤ 100000 }
    ensures opens { IfOk result (λ made. IsOpen made.0) }
    ensures limits { IfOk result (λ made. made.0.limits ≡ LIMITS) }
    ensures sure { OnOk result (IsTrue keeper.new.never_fails) }
    ensures totals { IfOk result (λ made. AreTotals number made.1) }
{
    let mut wire = wire_of(alloc, Octets::new(alloc));
    let mut clock = FixedClock::new(0);
    let mut outside = Outside::new(alloc, desk, &mut wire, keeper, &mut clock);
    let totals = put_messages(&mut outside, number)?;
    let (desk, _wire, keeper, _clock) = outside.into_parts();
    // Used once more: a loan that ends within the bundle tells nothing of what was lent.
    let _keeper = &mut *keeper;
    Ok((desk, totals))
}

// What a client says that logs in, asks for the totals, retrieves so many messages and quits.
fn client_input(alloc: Global, enabling: &[u8], number: u32) -> Result<Octets, Memory>
    requires few { number ≤ 100000 }
    requires short { length enabling.now ≤ 6 }
    ensures { IfOk result (λ input. length input < LIMITS.session_max) }
{
    let mut input = Octets::from_slice(alloc, enabling)?;
    input.push_slice(LOGGING_IN)?;
    for message in 0..number {
        push_number_line(&mut input, b"RETR ", message as u128 + 1)?;
    }
    input.push_slice(b"QUIT\r\n")?;
    Ok(input)
}

// Serves one such client, and gives the desk back. It is served to the end but for want of memory.
fn serve_client(
    alloc: Global,
    desk: Desk,
    keeper: &mut MemKeeper,
    enabling: &[u8],
    number: u32,
) -> Result<Desk, Memory>
    requires opens { IsOpen desk }
    requires limits { desk.limits ≡ LIMITS }
    requires sure { IsTrue keeper.old.never_fails }
    requires short { length enabling.now ≤ 6 }
    requires few { number ≤ 100000 }
    ensures opens { IfOk result IsOpen }
    ensures limits { IfOk result (λ desk. desk.limits ≡ LIMITS) }
    ensures sure { OnOk result (IsTrue keeper.new.never_fails) }
{
    let input = client_input(alloc, enabling, number)?;
    let mut wire = wire_of(alloc, input);
    let mut clock = FixedClock::new(0);
    let mut outside = Outside::new(alloc, desk, &mut wire, keeper, &mut clock);
    let served = serve_one(Role::Pop, &mut outside);
    let (desk, _wire, keeper, _clock) = outside.into_parts();
    // Used once more: a loan that ends within the bundle tells nothing of what was lent.
    let _keeper = &mut *keeper;
    match served {
        Served::Ended => Ok(desk),
        Served::Memory => Err(Memory),
        // It says less than a session may take.
        Served::Limit => unreachable!(),
        Served::WireFault | Served::KeeperFault => unreachable!(),
    }
}

// Makes so many messages on a desk, and serves them to both clients.
fn make_and_serve(
    alloc: Global,
    desk: Desk,
    keeper: &mut MemKeeper,
    number: u32,
) -> Result<Totals, Memory>
    requires opens { IsOpen desk }
    requires limits { desk.limits ≡ LIMITS }
    requires kept { desk.store.kept ≡ store_of first_records }
    requires sure { IsTrue keeper.old.never_fails }
    requires few { number ≤ 100000 }
    ensures { IfOk result (AreTotals number) }
{
    let (desk, totals) = make_messages(alloc, desk, keeper, number)?;
    let desk = serve_client(alloc, desk, keeper, b"", number)?;
    serve_client(alloc, desk, keeper, ENABLING, number)?;
    Ok(totals)
}

// Does so on a desk of its own, which has one account.
fn generate(alloc: Global, number: u32) -> Result<Totals, Memory>
    requires { number ≤ 100000 }
    ensures { IfOk result (AreTotals number) }
{
    let mut keeper = MemKeeper::new(Octets::from_slice(alloc, JOURNAL)?, Vec::new(alloc));
    let desk = open_first(alloc, &mut keeper)?;
    make_and_serve(alloc, desk, &mut keeper, number)
}

// The lines of the totals.
fn totals_text(alloc: Global, number: u32, totals: &Totals) -> Result<Octets, Memory>
    ensures { IfOk result (λ text. text ≡ totals_text number totals.now) }
{
    let mut text = Octets::new(alloc);
    push_number_line(&mut text, b"messages ", number as u128)?;
    push_number_line(&mut text, b"stored ", totals.stored)?;
    push_number_line(&mut text, b"served ", totals.served)?;
    Ok(text)
}

/// Makes so many messages, serves them, and gives the totals of their sizes.
pub fn run_gen<W: Wire>(alloc: Global, number: u32, wire: &mut W) -> Result<u8, Fault>
    requires { number ≤ 100000 }
    ensures runs { RunsGen number (W.observed wire.old) (W.observed wire.new) (status_of result) }
    ensures fine { IfOk result (λ status. status ≡ 0) }
    ensures cause { HasWireCause (W.observed wire.old) (W.observed wire.new) result Fault.Wire }
    ensures keeper { ¬ (result ≡ Err Fault.Keeper) }
{
    let totals = generate(alloc, number)?;
    let text = totals_text(alloc, number, &totals)?;
    give_all(wire, text.as_slice())?;
    Ok(DONE)
}
