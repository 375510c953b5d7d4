//! A run: the client's acts over the outside, as replies come.
ghost use Rattle.std.specs.Prelude.{◌≡◌, ◌<◌, ℕ, List, [], ◌∷◌, ◌++◌, length, IfOk, OnOk};
ghost use Rattle.std.specs.List.{All};
ghost use Rattle.journal_records.specs.Addresses.{WithPaths};
ghost use Rattle.relay_choice.specs.Replies.{IsDecided};
ghost use Rattle.relay_choice.specs.Said.{data_text};
ghost use Rattle.session_core.specs.Around.{Around};
ghost use Rattle.session_core.specs.Desks.{IsOpen};
ghost use Rattle.session_core.specs.Doing.{Replies};
ghost use Rattle.session_core.specs.Keeps.{Keeps, fault_of};
ghost use Rattle.relay_session.specs.MailObjects.{Mailbag, entry_octets};
ghost use Rattle.relay_session.specs.private.Acting.{ActsBy, AreKnown, AreOpenFrom, CanCount, IsActIn, KeepsQueue, SettleFrom, WereDone};
ghost use Rattle.relay_session.specs.private.Running.{AdvancesBy, AdvancesTo, IsAtWork, IsOfSome, IsRunning, IsWireCause, OnEnds, OnGoes, StaysAtWork, StaysShort, TurnsBy, ending_with, going_on};

use crate::ends::{LeftCause, RelayEnd, Tally};
use crate::settling::settle;
use mail_store::Queued;
use mail_wire::{Clock, Fault, Keeper, Memory, Octets, Wire};
use relay_choice::{Act, Acts, Client, ReplyRead, ReplyReader, Taken, Turn, push_data, read_reply};
use session_core::Outside;
use std::alloc::Global;

/// A run that awaits a reply: its client, what came of the reply, and what was done.
#[derive(Drop)]
pub struct Run {
    pub client: Client,
    pub reader: ReplyReader,
    pub tally: Tally,
}

/// What came of octets.
#[derive(Drop)]
pub enum Advance {
    /// A further reply is awaited, or more of one.
    Goes(Run),
    Ends(RelayEnd),
}

// Gives the data of an entry.
fn give_data<W: Wire, J: Keeper, C: Clock>(
    entry: u32,
    outside: &mut Outside<W, J, C>,
) -> Result<(), Fault>
    requires { entry < length outside.old.desk.store.kept.entries }
    ensures replies { Replies outside.old outside.new (fault_of result) (data_text (entry_octets outside.old.desk.store.kept entry)) }
    ensures keeps { Keeps outside.old outside.new (fault_of result) }
{
    let mut data = Octets::new(outside.alloc());
    push_data(&mut data, outside.store().queue_octets(entry))?;
    outside.give(data.as_slice())
}

// Does an act.
fn do_act<W: Wire, J: Keeper, C: Clock>(
    act: &Act,
    queue: &[Queued],
    tally: &mut Tally,
    outside: &mut Outside<W, J, C>,
) -> Result<(), Fault>
    requires opens { IsOpen outside.old.desk }
    requires known { AreKnown outside.old.desk.store.kept queue.now }
    requires within { IsActIn queue.now act.now }
    requires order { (place : ℕ) × AreOpenFrom outside.old.desk.store.kept queue.now place × SettleFrom place (act.now ∷ []) }
    requires room { CanCount tally.old (act.now ∷ []) }
    ensures acts { WithPaths (λ path_of. ActsBy path_of outside.old outside.new queue.now (act.now ∷ []) tally.old tally.new (fault_of result)) }
    ensures queue { OnOk result (KeepsQueue outside.old outside.new queue.now (act.now ∷ [])) }
    ensures keeps { Keeps outside.old outside.new (fault_of result) }
{
    match act {
        Act::Say(octets) => outside.give(octets.as_slice()),
        Act::SayData(number) => give_data(queue[*number].entry, outside),
        Act::Settle(number, outcomes) => {
            settle(&queue[*number], outcomes.as_slice(), tally, outside)
        }
    }
}

// Does the acts, in order, up to a fault.
fn do_acts<W: Wire, J: Keeper, C: Clock>(
    acts: &Acts,
    queue: &[Queued],
    tally: &mut Tally,
    outside: &mut Outside<W, J, C>,
) -> Result<(), Fault>
    requires opens { IsOpen outside.old.desk }
    requires known { AreKnown outside.old.desk.store.kept queue.now }
    requires within { All (IsActIn queue.now) acts.now }
    requires order { (place : ℕ) × AreOpenFrom outside.old.desk.store.kept queue.now place × SettleFrom place acts.now }
    requires room { CanCount tally.old acts.now }
    ensures acts { WithPaths (λ path_of. ActsBy path_of outside.old outside.new queue.now acts.now tally.old tally.new (fault_of result)) }
    ensures queue { OnOk result (KeepsQueue outside.old outside.new queue.now acts.now) }
    ensures keeps { Keeps outside.old outside.new (fault_of result) }
{
    for act in acts.as_slice() {
        do_act(act, queue, tally, outside)?;
    }
    Ok(())
}

// Does the acts, in order, unless a fault breaks them off. Whether the wire took what they give.
fn all_done<W: Wire, J: Keeper, C: Clock>(
    acts: &Acts,
    queue: &[Queued],
    tally: &mut Tally,
    outside: &mut Outside<W, J, C>,
) -> Result<bool, Fault>
    requires opens { IsOpen outside.old.desk }
    requires known { AreKnown outside.old.desk.store.kept queue.now }
    requires within { All (IsActIn queue.now) acts.now }
    requires order { (place : ℕ) × AreOpenFrom outside.old.desk.store.kept queue.now place × SettleFrom place acts.now }
    requires room { CanCount tally.old acts.now }
    ensures done { WereDone outside.old outside.new queue.now acts.now tally.old tally.new result }
{
    match do_acts(acts, queue, tally, outside) {
        Ok(()) => Ok(true),
        Err(Fault::Wire) => Ok(false),
        Err(Fault::Keeper) => Err(Fault::Keeper),
        Err(Fault::Memory) => Err(Fault::Memory),
    }
}

// The turn of a client after octets that are a reply, or that begin none and so stop the run.
fn turn_after(alloc: Global, client: Client, octets: &[u8]) -> Result<Turn, Memory>
    requires { IsDecided octets.now }
    ensures { IfOk result (TurnsBy client octets.now) }
{
    let ReplyRead::Whole { reply, .. } = read_reply(alloc, octets)? else {
        return Ok(Turn::Stops);
    };
    client.take(&reply)
}

// A run that awaits a further reply, where all was done.
fn go_on(run: Run, done: Result<bool, Fault>) -> Result<Advance, Fault>
    ensures { result ≡ going_on run done }
{
    match done {
        Ok(true) => Ok(Advance::Goes(run)),
        Ok(false) => Ok(Advance::Ends(run.tally.end(Some(LeftCause::Wire)))),
        Err(fault) => Err(fault),
    }
}

// The end of a run whose last acts were done. Of these QUIT alone gives octets, and it doesn't matter whether it arrives.
fn end_with(tally: Tally, done: Result<bool, Fault>) -> Result<Advance, Fault>
    ensures { result ≡ ending_with tally done }
{
    match done {
        Ok(_) => Ok(Advance::Ends(tally.end(None))),
        Err(fault) => Err(fault),
    }
}

// What the run comes to by octets that are a reply, or that begin none.
fn take_reply<W: Wire, J: Keeper, C: Clock>(
    run: Run,
    octets: Octets,
    queue: &[Queued],
    outside: &mut Outside<W, J, C>,
) -> Result<Advance, Fault>
    requires opens { IsOpen outside.old.desk }
    requires decided { IsDecided octets }
    requires anew { run.reader.octets ≡ [] }
    requires work { IsOfSome outside.old queue.now run octets }
    ensures advance { AdvancesBy outside.old outside.new queue.now run octets result }
    ensures work { IfOk result (StaysAtWork outside.old outside.new queue.now run octets) }
    ensures short { IfOk result (StaysShort run octets) }
    ensures cause { IfOk result (OnEnds (IsWireCause outside.old outside.new)) }
    ensures keeps { Keeps outside.old outside.new (fault_of result) }
{
    let Run {
        client,
        reader,
        mut tally,
    } = run;
    match turn_after(outside.alloc(), client, octets.as_slice())? {
        Turn::Stops => Ok(Advance::Ends(tally.end(Some(LeftCause::Reply(octets))))),
        Turn::Goes { client, acts } => {
            drop(octets);
            let done = all_done(&acts, queue, &mut tally, outside);
            drop(acts);
            let next = Run {
                client,
                reader,
                tally,
            };
            go_on(next, done)
        }
        Turn::Ends(acts) => {
            drop(octets);
            drop(reader);
            let done = all_done(&acts, queue, &mut tally, outside);
            drop(acts);
            end_with(tally, done)
        }
    }
}

/// Takes a piece of what the next server sends.
pub fn feed<W: Wire, J: Keeper, C: Clock>(
    run: Run,
    piece: &[u8],
    queue: &[Queued],
    outside: &mut Outside<W, J, C>,
) -> Result<Advance, Fault>
    requires opens { IsOpen outside.old.desk }
    requires work { (before : Around) × (bag : Mailbag before.desk.store.kept) × (bag.queue ≡ queue.now) × IsAtWork before outside.old bag run piece.now }
    ensures advance { WithPaths (λ path_of. (before : Around) (bag : Mailbag before.desk.store.kept) → bag.queue ≡ queue.now
        → IsRunning path_of before outside.old bag run piece.now → AdvancesTo path_of before outside.new bag [] result) }
    ensures work { IfOk result (OnGoes (λ next. (before : Around) (bag : Mailbag before.desk.store.kept) → bag.queue ≡ queue.now
        → IsAtWork before outside.old bag run piece.now → IsAtWork before outside.new bag next [])) }
    ensures short { IfOk result (StaysShort run piece.now) }
    ensures cause { IfOk result (OnEnds (IsWireCause outside.old outside.new)) }
    ensures keeps { Keeps outside.old outside.new (fault_of result) }
{
    let mut run = run;
    let mut rest = piece;
    while !rest.is_empty() {
        let Run {
            client,
            reader,
            tally,
        } = run;
        match reader.take(rest)? {
            Taken::Begun(reader) => {
                return Ok(Advance::Goes(Run {
                    client,
                    reader,
                    tally,
                }));
            }
            Taken::Decided { octets, used } => {
                let reader = ReplyReader::new(outside.alloc());
                let begun = Run {
                    client,
                    reader,
                    tally,
                };
                match take_reply(begun, octets, queue, outside)? {
                    Advance::Goes(next) => run = next,
                    Advance::Ends(end) => return Ok(Advance::Ends(end)),
                }
                rest = &rest[used..];
            }
        }
    }
    Ok(Advance::Goes(run))
}
