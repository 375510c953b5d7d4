//! A session, and the loop over a piece of its stream, for every machine.
ghost use Rattle.std.specs.Prelude.{◌≡◌, ◌<◌, ℕ, List, IfOk, IsTrue, ◌↔◌};
ghost use Rattle.session_core.specs.Desks.{IsOpen};
ghost use Rattle.session_core.specs.Keeps.{Keeps, fault_of};
ghost use Rattle.session_core.specs.Sessions.{BeginsSession, Feeds, HasEnded, IsReady};

use crate::machine::{Advance, Machine};
use crate::outside::Outside;
use mail_wire::{Clock, Fault, Keeper, Octets, Wire};

/// A session that has not ended: what came of its next turn, and its machine.
#[derive(Debug, Drop)]
pub struct Reading<M> {
    pub kept: Octets,
    pub machine: M,
}

/// A session.
#[derive(Debug, Drop)]
pub enum Session<M> {
    Open(Reading<M>),
    Ended,
}

// The next piece of a session that has not ended.
fn feed_open<M: Machine, W: Wire, J: Keeper, C: Clock>(
    reading: Reading<M>,
    piece: &[u8],
    outside: &mut Outside<W, J, C>,
) -> Result<Session<M>, Fault>
    requires opens { IsOpen outside.old.desk }
    requires ready { M.is_ready reading.machine reading.kept outside.old.desk }
    ensures feeds { Feeds M.protocol M.stands outside.old outside.new (Session.Open reading) result piece.now }
    ensures ready { IfOk result (λ session. IsReady M.is_ready session outside.new.desk) }
    ensures keeps { Keeps outside.old outside.new (fault_of result) }
{
    let Reading {
        mut kept,
        mut machine,
    } = reading;
    let mut rest = piece;
    while !rest.is_empty() {
        let advance = machine.take_next(&mut kept, rest, outside)?;
        let Advance { next, used } = advance;
        let Some(next) = next else {
            return Ok(Session::Ended);
        };
        let (_, others) = rest.split_at(used);
        machine = next;
        rest = others;
    }
    Ok(Session::Open(Reading { kept, machine }))
}

/// Takes the next piece of the stream, and does the acts of all turns that are whole now, in their order.
///
/// What comes next is sought in the piece alone, and of what came before only where the machine looks. After the end pieces are taken
/// and bring nothing. An `Err` takes the session away, and no reply says so.
pub fn feed<M: Machine, W: Wire, J: Keeper, C: Clock>(
    session: Session<M>,
    piece: &[u8],
    outside: &mut Outside<W, J, C>,
) -> Result<Session<M>, Fault>
    requires opens { IsOpen outside.old.desk }
    requires ready { IsReady M.is_ready session outside.old.desk }
    ensures feeds { Feeds M.protocol M.stands outside.old outside.new session result piece.now }
    ensures ready { IfOk result (λ session. IsReady M.is_ready session outside.new.desk) }
    ensures keeps { Keeps outside.old outside.new (fault_of result) }
{
    match session {
        Session::Open(reading) => feed_open(reading, piece, outside),
        Session::Ended => Ok(Session::Ended),
    }
}

impl<M: Machine> Session<M> {
    /// Begins a session: does what its protocol opens with.
    pub fn begin<W: Wire, J: Keeper, C: Clock>(
        outside: &mut Outside<W, J, C>,
    ) -> Result<Self, Fault>
        requires { IsOpen outside.old.desk }
        ensures begins { BeginsSession M.protocol M.stands outside.old outside.new result }
        ensures goes_on { IfOk result (λ session. ¬ HasEnded session) }
        ensures ready { IfOk result (λ session. IsReady M.is_ready session outside.new.desk) }
        ensures keeps { Keeps outside.old outside.new (fault_of result) }
    {
        let machine = M::begin(outside)?;
        Ok(Session::Open(Reading {
            kept: Octets::new(outside.alloc()),
            machine,
        }))
    }
}

impl<M> Session<M> {
    /// Whether the session has ended.
    pub fn ended(&self) -> bool
        ensures { IsTrue result ↔ HasEnded self.now }
    {
        matches!(self, Session::Ended)
    }
}
