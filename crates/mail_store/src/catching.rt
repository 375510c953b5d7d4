//! A store that catches up with what others wrote to its journal.
ghost use Rattle.std.specs.Prelude.{◌≡◌, length, OnOk, OnErr, IfErr, IfSome, is_err};
ghost use Rattle.mail_wire.specs.Keeping.{HasKeeperCause};
ghost use Rattle.mail_store.specs.Catching.{ReadsOn, CatchesUp, IsCatchFault};
ghost use Rattle.mail_store.specs.private.Replaying.{ReadsTwo};

use crate::frames::cut_after;
use crate::opening::{OpenFault, read_on};
use crate::storing::Store;
use journal_records::Version;
use mail_wire::Keeper;
use std::alloc::Global;

// Puts the records last that stand after those that the store has, and cuts off what is broken off after them.
fn read_after<J: Keeper>(alloc: Global, keeper: &mut J, store: &mut Store) -> Result<(), OpenFault>
    ensures reads { ReadsTwo (J.observed keeper.old).octets store.old store.new }
    ensures catches { OnOk result (IfSome (J.observed keeper.old).octets (λ old. CatchesUp store.old old (J.observed keeper.new).octets store.new.kept)) }
    ensures end { OnOk result (IfSome (J.observed keeper.new).octets (λ octets. store.new.end ≡ length octets)) }
    ensures same { OnErr result ((J.observed keeper.new).octets ≡ (J.observed keeper.old).octets) }
    ensures fault { IfErr result (λ fault. IfSome (J.observed keeper.old).octets (λ old. IsCatchFault store.old old fault)) }
    ensures cause { HasKeeperCause (J.observed keeper.old) (J.observed keeper.new) result OpenFault.Keeper }
    ensures unappended { (J.observed keeper.new).appends ≡ (J.observed keeper.old).appends }
{
    let had = keeper.len()?;
    let end = store.end();
    if had < end {
        return Err(OpenFault::BadJournal { at: had });
    }
    let mut buffer = Vec::new(alloc);
    let mut version = Version::Two;
    read_on(alloc, keeper, store, &mut version, had, &mut buffer)?;
    cut_after(keeper, had, store.end())?;
    Ok(())
}

impl Store {
    /// Puts the records last that others wrote to the keeper after those that the store has. What was broken off at its end is
    /// cut. Where this is refused, the store has the records before the fault and is marked as failed: it isn't to be
    /// changed before it has caught up, which goes on where it stopped.
    pub fn catch_up<J: Keeper>(&mut self, keeper: &mut J) -> Result<(), OpenFault>
        // Whatever it answers, it goes on with the records that stand next, and reads none twice.
        ensures reads { ReadsOn (J.observed keeper.old).octets self.old self.new }

        // It keeps the fold of the whole records that were there, and the keeper holds them and nothing more.
        ensures catches { OnOk result (IfSome (J.observed keeper.old).octets (λ old. CatchesUp self.old old (J.observed keeper.new).octets self.new.kept)) }
        ensures end { OnOk result (IfSome (J.observed keeper.new).octets (λ octets. self.new.end ≡ length octets)) }

        // A refusal leaves the octets. A journal is bad at that place, or is shorter than it was; a fault of the keeper has its cause.
        ensures same { OnErr result ((J.observed keeper.new).octets ≡ (J.observed keeper.old).octets) }
        ensures fault { IfErr result (λ fault. IfSome (J.observed keeper.old).octets (λ old. IsCatchFault self.old old fault)) }
        ensures cause { HasKeeperCause (J.observed keeper.old) (J.observed keeper.new) result OpenFault.Keeper }
        ensures unappended { (J.observed keeper.new).appends ≡ (J.observed keeper.old).appends }

        // The store is marked as failed exactly where it is refused.
        ensures failed { self.new.failed ≡ is_err result }
    {
        let alloc = self.alloc;
        let caught = read_after(alloc, keeper, self);
        self.note_failed(caught.is_err());
        caught
    }
}
