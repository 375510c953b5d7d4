//! What sessions are served from, and within which limits.
ghost use Rattle.std.specs.Prelude.{◌≡◌, Some, length, IfOk, IfErr, IfSome, OnErr, OnOk, is_err};
ghost use Rattle.mail_wire.specs.Keeping.{HasKeeperCause};
ghost use Rattle.mail_store.specs.Answers.{IsFold, OpensTo, IsJournalFault, LeavesRecords, PutsNothing};
ghost use Rattle.mail_store.specs.Catching.{ReadsOn, CatchesUp, IsCatchFault};
ghost use Rattle.session_core.specs.Desks.{AreLimits, HasFirst, IsNextCache, IsOpen, OpensOrCatchesUp, WorksWithin, new_cache};

use kept_mail::MESSAGE_MAX;
use mail_store::{OpenFault, Store};
use mail_wire::Keeper;
use std::alloc::Global;
use surrogate_cache::Cache;

/// How much a desk serves: octets of a message and of a session, blocks and entries of the cache.
#[derive(Clone, Copy, Debug, PartialEq, Eq)]
pub struct Limits {
    pub message_max: u32,
    pub session_max: u64,
    pub pool_blocks: u32,
    pub cache_entries: u32,
}

/// The limits of the program: messages of 32 MiB, sessions that take 1 GiB.
pub const LIMITS: Limits = Limits {
    message_max: MESSAGE_MAX,
    session_max: 1_073_741_824,
    pool_blocks: 1024,
    cache_entries: 256,
};

/// What sessions are served from.
#[derive(Drop)]
pub struct Desk {
    pub store: Store,
    pub cache: Cache,
    pub limits: Limits,
}

/// The desk over the journal of a keeper.
pub fn open_desk<J: Keeper>(
    alloc: Global,
    keeper: &mut J,
    limits: Limits,
) -> Result<Desk, OpenFault>
    requires { AreLimits limits }
    // Its store is the fold of the whole records that were there. The keeper holds them, and the record that begins version 2 after those
    // of version 1, and nothing more.
    ensures opens { IfOk result (λ desk. IfSome (J.observed keeper.old).octets (λ old. OpensTo old (J.observed keeper.new).octets desk.store.kept)) }
    ensures fold { IfOk result (λ desk. IsFold desk.store.kept) }
    ensures end { IfOk result (λ desk. IfSome (J.observed keeper.new).octets (λ octets. desk.store.end ≡ length octets)) }
    ensures open { IfOk result IsOpen }
    ensures limits { IfOk result (λ desk. desk.limits ≡ limits) }
    ensures cache { IfOk result (λ desk. desk.cache ≡ new_cache limits) }

    ensures fault { IfErr result (λ fault. IfSome (J.observed keeper.old).octets (λ old. IsJournalFault old (J.observed keeper.new).octets fault)) }
    ensures cause { HasKeeperCause (J.observed keeper.old) (J.observed keeper.new) result OpenFault.Keeper }
    ensures memory { IfErr result (λ fault. fault ≡ OpenFault.Memory → PutsNothing (J.observed keeper.old).octets (J.observed keeper.new).octets) }
    ensures leaves { LeavesRecords (J.observed keeper.old).octets (J.observed keeper.new).octets }
{
    let Ok(cache) = Cache::open(alloc, limits.pool_blocks, limits.cache_entries) else {
        return Err(OpenFault::Memory);
    };
    let store = Store::open(alloc, keeper, limits.message_max)?;
    Ok(Desk {
        store,
        cache,
        limits,
    })
}

impl Desk {
    /// The store catches up with what others wrote to its journal. The cache stays, since the messages have the numbers that they had. Where
    /// that is refused, the desk isn't to be served from before it has caught up.
    pub fn catch_up<J: Keeper>(&mut self, keeper: &mut J) -> Result<(), OpenFault>
        ensures reads { ReadsOn (J.observed keeper.old).octets self.old.store self.new.store }
        ensures catches { OnOk result (IfSome (J.observed keeper.old).octets (λ old. CatchesUp self.old.store old (J.observed keeper.new).octets self.new.store.kept)) }
        ensures end { OnOk result (IfSome (J.observed keeper.new).octets (λ octets. self.new.store.end ≡ length octets)) }
        ensures open { OnOk result (WorksWithin self.old.limits self.old → IsOpen self.new) }
        ensures limits { self.new.limits ≡ self.old.limits }
        ensures cache { self.new.cache ≡ self.old.cache }

        ensures same { OnErr result ((J.observed keeper.new).octets ≡ (J.observed keeper.old).octets) }
        ensures fault { IfErr result (λ fault. IfSome (J.observed keeper.old).octets (λ old. IsCatchFault self.old.store old fault)) }
        ensures cause { HasKeeperCause (J.observed keeper.old) (J.observed keeper.new) result OpenFault.Keeper }
        ensures failed { self.new.store.failed ≡ is_err result }
    {
        self.store.catch_up(keeper)
    }
}

// The desk that was kept, once it has caught up, or one that is opened anew where the journal doesn't go on from what it had.
fn caught_up<J: Keeper>(
    alloc: Global,
    desk: Desk,
    keeper: &mut J,
    limits: Limits,
) -> Result<Desk, OpenFault>
    requires limits { AreLimits limits }
    requires kept { WorksWithin limits desk }
    ensures opens { IfOk result (λ next. IfSome (J.observed keeper.old).octets (λ old. HasFirst (Some desk) old → OpensTo old (J.observed keeper.new).octets next.store.kept)) }
    ensures anew { IfOk result (λ next. IfSome (J.observed keeper.old).octets (λ old. OpensOrCatchesUp (Some desk) old (J.observed keeper.new).octets next.store.kept)) }
    ensures end { IfOk result (λ next. IfSome (J.observed keeper.new).octets (λ octets. next.store.end ≡ length octets)) }
    ensures open { IfOk result IsOpen }
    ensures limits { IfOk result (λ next. next.limits ≡ limits) }
    ensures cache { IfOk result (λ next. IfSome (J.observed keeper.old).octets (λ old. IsNextCache limits (Some desk) old next.cache)) }

    ensures fault { IfErr result (λ fault. IfSome (J.observed keeper.old).octets (λ old. IsJournalFault old (J.observed keeper.new).octets fault)) }
    ensures cause { HasKeeperCause (J.observed keeper.old) (J.observed keeper.new) result OpenFault.Keeper }
    ensures memory { IfErr result (λ fault. fault ≡ OpenFault.Memory → PutsNothing (J.observed keeper.old).octets (J.observed keeper.new).octets) }
    ensures leaves { OnErr result (LeavesRecords (J.observed keeper.old).octets (J.observed keeper.new).octets) }
{
    let mut desk = desk;
    match desk.catch_up(keeper) {
        Ok(()) => Ok(desk),
        Err(fault) => {
            drop(desk);
            match fault {
                OpenFault::BadJournal { .. } => open_desk(alloc, keeper, limits),
                OpenFault::Keeper => Err(OpenFault::Keeper),
                OpenFault::Memory => Err(OpenFault::Memory),
            }
        }
    }
}

/// The desk for the next session: the one that was kept, once it has caught up. Where there is none, or the journal doesn't go on from what
/// it had, one that is opened anew. A fault of the keeper and want of memory are answered, and the desk that was kept is gone then.
pub fn next_desk<J: Keeper>(
    alloc: Global,
    kept: Option<Desk>,
    keeper: &mut J,
    limits: Limits,
) -> Result<Desk, OpenFault>
    requires limits { AreLimits limits }
    requires kept { IfSome kept (WorksWithin limits) }
    // Its store is the fold of the whole records that are there, whoever wrote them. The keeper holds them, and the record that begins
    // version 2 after those of version 1, and nothing more.
    ensures opens { IfOk result (λ desk. IfSome (J.observed keeper.old).octets (λ old. HasFirst kept old → OpensTo old (J.observed keeper.new).octets desk.store.kept)) }
    // Whatever the desk had that was kept, no record goes: at most what is broken off is cut.
    ensures anew { IfOk result (λ desk. IfSome (J.observed keeper.old).octets (λ old. OpensOrCatchesUp kept old (J.observed keeper.new).octets desk.store.kept)) }
    ensures end { IfOk result (λ desk. IfSome (J.observed keeper.new).octets (λ octets. desk.store.end ≡ length octets)) }
    ensures open { IfOk result IsOpen }
    ensures limits { IfOk result (λ desk. desk.limits ≡ limits) }
    // What the last sessions were shown is still held.
    ensures cache { IfOk result (λ desk. IfSome (J.observed keeper.old).octets (λ old. IsNextCache limits kept old desk.cache)) }

    ensures fault { IfErr result (λ fault. IfSome (J.observed keeper.old).octets (λ old. IsJournalFault old (J.observed keeper.new).octets fault)) }
    ensures cause { HasKeeperCause (J.observed keeper.old) (J.observed keeper.new) result OpenFault.Keeper }
    ensures memory { IfErr result (λ fault. fault ≡ OpenFault.Memory → PutsNothing (J.observed keeper.old).octets (J.observed keeper.new).octets) }
    ensures leaves { OnErr result (LeavesRecords (J.observed keeper.old).octets (J.observed keeper.new).octets) }
{
    match kept {
        Some(desk) => caught_up(alloc, desk, keeper, limits),
        None => open_desk(alloc, keeper, limits),
    }
}
