//! A session over its outside.
ghost use Rattle.std.specs.Prelude.{◌≡◌, Option, None, Some, Ok, Err, MatchResult};
ghost use Rattle.surrogate_cache.specs.Served.{is_enabled as is_enabled_in};
ghost use Rattle.session_core.specs.Desks.{IsOpen};
ghost use Rattle.session_core.specs.Doing.{Replies};
ghost use Rattle.session_core.specs.Keeps.{Keeps, fault_of};
ghost use Rattle.session_core.specs.Served.{met_of};
ghost use Rattle.session_core.specs.Serving.{ServesBy};
ghost use Rattle.imap_session.specs.Machine.{mode_of};
ghost use Rattle.imap_session.specs.Session.{ImapReady, ImapStands, IsSaidIn, KnowsState, TakesStepAt, due_step, event_takes, imap_protocol, machine_next, state_of};
ghost use Rattle.imap_session.specs.laws.ImapLaws.{begins_fit_by, fits_by, framed_by, goes_on_by, quiet_by, waits_by};
ghost use Rattle.imap_session.specs.private.Lines.{bad_octets};

use crate::commands::answer_command;
use crate::replies::{TOO_LARGE, say};
use crate::states::{Imap, ImapState};
use imap_grammar::{Event, Reader};
use mail_wire::{Clock, Fault, Keeper, Octets, Wire};
use session_core::{Advance, Machine, Outside, Served, Session, serve};

/// A session that has not ended: the reader of its commands, and its state.
#[derive(Drop)]
pub struct ImapMachine {
    pub reader: Reader,
    pub state: ImapState,
}

// Whether the session has enabled UTF-8.
fn is_enabled(session: &ImapState) -> bool
    ensures { result ≡ is_enabled_in (mode_of (state_of session.now)) }
{
    matches!(
        session,
        ImapState::EnabledAuthenticated(_) | ImapState::EnabledSelected(_)
    )
}

// Tells that a line is no command.
fn refuse<W: Wire, J: Keeper, C: Clock>(
    tag: &Option<Octets>,
    outside: &mut Outside<W, J, C>,
) -> Result<(), Fault>
    ensures replies { Replies outside.old outside.new (fault_of result) (bad_octets tag.now) }
    ensures keeps { Keeps outside.old outside.new (fault_of result) }
{
    match tag {
        Some(tag) => say(tag.as_slice(), b"BAD syntax", outside),
        None => outside.give(b"* BAD syntax\r\n"),
    }
}

// The session goes on where the reply was given.
fn go_on(session: ImapState, given: Result<(), Fault>) -> Result<Option<ImapState>, Fault>
    ensures { MatchResult given (λ done. result ≡ Ok (Some session)) (λ met. result ≡ Err met) }
{
    match given {
        Ok(()) => Ok(Some(session)),
        Err(fault) => Err(fault),
    }
}

// The session is over where the reply was given.
fn end(given: Result<(), Fault>) -> Result<Option<ImapState>, Fault>
    ensures { MatchResult given (λ done. result ≡ Ok None) (λ met. result ≡ Err met) }
{
    match given {
        Ok(()) => Ok(None),
        Err(fault) => Err(fault),
    }
}

// Does what is due. None where the session has ended.
fn answer_event<W: Wire, J: Keeper, C: Clock>(
    session: ImapState,
    event: &Event,
    outside: &mut Outside<W, J, C>,
) -> Result<Option<ImapState>, Fault>
    requires opens { IsOpen outside.old.desk }
    requires known { KnowsState outside.old.desk.store session }
    requires said { IsSaidIn event.now }
    ensures takes { TakesStepAt outside.old outside.new result (event_takes (state_of session) event.now) (λ oracles now. due_step oracles now (state_of session) outside.old.desk.store event.now) }
    ensures keeps { Keeps outside.old outside.new (fault_of result) }
{
    match event {
        Event::More => Ok(Some(session)),
        Event::Go => go_on(session, outside.give(b"+ go\r\n")),
        Event::Command { tag, command } => {
            answer_command(session, tag.as_slice(), command, outside)
        }
        Event::Bad { tag, .. } => go_on(session, refuse(tag, outside)),
        Event::TooLarge { tag } => { go_on(session, say(tag.as_slice(), TOO_LARGE, outside)) }
        Event::TooLong => {
            drop(session);
            end(outside.give(b"* BYE line too long\r\n"))
        }
    }
}

fn advance_of(reader: Reader, next: Option<ImapState>, used: usize) -> Advance<ImapMachine>
    ensures { result ≡ record { next = machine_next reader next; used = used } }
{
    match next {
        Some(state) => Advance {
            next: Some(ImapMachine { reader, state }),
            used,
        },
        None => Advance { next: None, used },
    }
}

impl Machine for ImapMachine {
    ghost protocol = { imap_protocol };

    ghost stands = { ImapStands };

    ghost is_ready = { ImapReady };

    fn begin<W: Wire, J: Keeper, C: Clock>(outside: &mut Outside<W, J, C>) -> Result<Self, Fault> {
        outside.give(b"* OK IMAP4rev1 ready\r\n")?;
        Ok(ImapMachine {
            reader: Reader::open(outside.alloc()),
            state: ImapState::NotAuthenticated(Imap::new()),
        })
    }

    fn take_next<W: Wire, J: Keeper, C: Clock>(
        self,
        kept: &mut Octets,
        piece: &[u8],
        outside: &mut Outside<W, J, C>,
    ) -> Result<Advance<Self>, Fault> {
        let ImapMachine { mut reader, state } = self;
        let (used, event) = reader.feed(piece, is_enabled(&state))?;
        let answer = answer_event(state, &event, outside);
        drop(event);
        let next = answer?;
        Ok(advance_of(reader, next, used))
    }

    ghost framed = { framed_by };

    ghost waits = { waits_by };

    ghost goes_on = { goes_on_by };

    ghost quiet = { quiet_by };

    ghost begins_fit = { begins_fit_by };

    ghost fits = { fits_by };
}

/// A session, to feed it a stream.
pub type ImapSession = Session<ImapMachine>;

/// Serves one session: gives the greeting, takes pieces of at most 4,096 octets, and answers each command as soon as it is whole, and
/// each literal's header as soon as its line is.
///
/// A command of more than 65,536 octets, an APPEND's data not counted, ends the session with a reply. `KeeperFault` comes where a change
/// couldn't be written to the journal; then the store has failed.
pub fn serve_imap<W: Wire, J: Keeper, C: Clock>(outside: &mut Outside<W, J, C>) -> Served
    requires { IsOpen outside.old.desk }
    ensures serves { ServesBy imap_protocol outside.old outside.new result }
    ensures keeps { Keeps outside.old outside.new (met_of result) }
{
    serve::<ImapMachine, W, J, C>(outside)
}
