//! Serves a session of any machine over its wire, from its opening to its end.
ghost use Rattle.std.specs.Prelude.{◌≡◌, ◌<◌, ◌≤◌, IfOk, IfSome, None, Ok, length};
ghost use Rattle.session_core.specs.Around.{Around};
ghost use Rattle.session_core.specs.Desks.{IsOpen};
ghost use Rattle.session_core.specs.Keeps.{Keeps, fault_of};
ghost use Rattle.session_core.specs.Served.{met_of, served_of};
ghost use Rattle.session_core.specs.Serving.{ServesBy};
ghost use Rattle.session_core.specs.Sessions.{BeginsSession, HasEnded, IsReady};
ghost use Rattle.session_core.specs.private.Taking.{TakesAndFeeds};

use crate::feeding::{Session, feed};
use crate::machine::Machine;
use crate::outside::Outside;
use mail_wire::{Clock, Fault, Keeper, PIECE, Wire};

/// How a session came to its end.
#[derive(Clone, Copy, Debug, PartialEq, Eq)]
pub enum Served {
    /// The session or its input ended.
    Ended,
    WireFault,
    KeeperFault,
    Memory,
    /// As many octets were taken as a session may take.
    Limit,
}

/// A session that was fed with what was taken, and how many octets that were.
#[derive(Drop)]
pub struct Fed<M> {
    pub session: Session<M>,
    pub count: usize,
}

// Takes a piece of the stream, and feeds it to a session. Nothing comes of it where the input has ended.
fn take_and_feed<M: Machine, W: Wire, J: Keeper, C: Clock>(
    session: Session<M>,
    piece: &mut [u8],
    outside: &mut Outside<W, J, C>,
) -> Result<Option<Fed<M>>, Fault>
    requires room { 0 < length piece.old }
    requires opens { IsOpen outside.old.desk }
    requires ready { IsReady M.is_ready session outside.old.desk }
    ensures takes { TakesAndFeeds M.protocol M.stands outside.old outside.new session (length piece.old) result }
    ensures some { IfOk result (λ answer. IfSome answer (λ fed. 0 < fed.count)) }
    ensures bound { IfOk result (λ answer. IfSome answer (λ fed. fed.count ≤ length piece.old)) }
    ensures ready { IfOk result (λ answer. IfSome answer (λ fed. IsReady M.is_ready fed.session outside.new.desk)) }
    ensures keeps { Keeps outside.old outside.new (fault_of result) }
{
    let count = outside.take(piece)?;
    if count == 0 {
        return Ok(None);
    }
    let session = feed(session, &piece[..count], outside)?;
    Ok(Some(Fed { session, count }))
}

// Serves a session that has begun, until it has taken so many octets. Whether it or its input ended before.
fn serve_begun<M: Machine, W: Wire, J: Keeper, C: Clock>(
    mut session: Session<M>,
    max: u64,
    outside: &mut Outside<W, J, C>,
) -> Result<bool, Fault>
    requires opens { IsOpen outside.old.desk }
    requires ready { IsReady M.is_ready session outside.old.desk }
    requires goes_on { ¬ HasEnded session }
    requires most { max ≡ outside.old.desk.limits.session_max }
    ensures serves { (start : Around) → IsOpen start.desk → BeginsSession M.protocol M.stands start outside.old (Ok session) → Keeps start outside.old None
        → ServesBy M.protocol start outside.new (served_of result) }
    ensures keeps { Keeps outside.old outside.new (fault_of result) }
{
    let mut piece = [0; PIECE];
    let mut taken: u64 = 0;
    while taken < max {
        let room = (max - taken).min(PIECE as u64) as usize;
        let Some(fed) = take_and_feed(session, &mut piece[..room], outside)? else {
            return Ok(true);
        };
        session = fed.session;
        taken += fed.count as u64;
        if session.ended() {
            return Ok(true);
        }
    }
    Ok(false)
}

// Serves a session. Whether it or its input ended before the limit.
fn serve_up_to_limit<M: Machine, W: Wire, J: Keeper, C: Clock>(
    outside: &mut Outside<W, J, C>,
) -> Result<bool, Fault>
    requires { IsOpen outside.old.desk }
    ensures serves { ServesBy M.protocol outside.old outside.new (served_of result) }
    ensures keeps { Keeps outside.old outside.new (fault_of result) }
{
    let session = Session::<M>::begin(outside)?;
    let max = outside.limits().session_max;
    serve_begun(session, max, outside)
}

/// Serves one session: does what its protocol opens with, takes pieces of at most 4,096 octets, and answers each command as soon as it
/// is whole.
pub fn serve<M: Machine, W: Wire, J: Keeper, C: Clock>(outside: &mut Outside<W, J, C>) -> Served
    requires { IsOpen outside.old.desk }
    // By the machine of the protocol: before each take all that was taken was answered and had not ended the session, no take was of
    // more than a piece, nothing else was ever given, and no more was taken than the limit. What was taken was done: the replies given
    // and the changes made in the store and in the keeper, in their order, or, after a fault, the first of them. At Ended it was sent
    // what is due for all that was left, and has ended, or nothing is left. At Limit it was sent what is due for as many octets as a
    // session may take, and has not ended. At both the desk's cache is what the fetches that were asked for lead to, and no others.
    ensures serves { ServesBy M.protocol outside.old outside.new result }
    ensures keeps { Keeps outside.old outside.new (met_of result) }
{
    match serve_up_to_limit::<M, W, J, C>(outside) {
        Ok(true) => Served::Ended,
        Ok(false) => Served::Limit,
        Err(Fault::Wire) => Served::WireFault,
        Err(Fault::Keeper) => Served::KeeperFault,
        Err(Fault::Memory) => Served::Memory,
    }
}
