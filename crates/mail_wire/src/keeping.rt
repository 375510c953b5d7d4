//! The keeper of a journal, and what its calls mean.
ghost use Rattle.std.specs.Prelude.{◌≡◌, ◌+◌, ◌≤◌, length, IfSome};
ghost use Rattle.std.specs.List.{flat_map};
ghost use Rattle.mail_wire.specs.Causes.{HasCause, StaysSure};
ghost use Rattle.mail_wire.specs.KeeperState.{KeeperState};
ghost use Rattle.mail_wire.specs.Keeping.{TellsLen, FillsFrom, PutsLast, AppendsOnce, CutsTo};

use crate::outside::Failed;

/// Octets that stay when the program ends. They grow at their end, or are cut there.
pub trait Keeper {
    /// What the keeper tells of itself. Whether it tells its octets never changes, so that a place that is within them
    /// stays so.
    ghost observed: { Self → KeeperState };

    /// How many octets there are.
    fn len(&mut self) -> Result<u64, Failed>
        ensures len { TellsLen (observed self.old).octets result }
        ensures same { (observed self.new).octets ≡ (observed self.old).octets }
        ensures appends { (observed self.new).appends ≡ (observed self.old).appends }
        ensures cause { HasCause (observed self.old).faults (observed self.new).faults result }
        ensures sure { StaysSure (observed self.old).never_fails (observed self.new).never_fails result };

    /// Fills the buffer with the octets from this place on.
    fn read_at(&mut self, at: u64, into: &mut [u8]) -> Result<(), Failed>
        requires { IfSome (observed self.old).octets (λ kept. at + length into.old ≤ length kept) }
        ensures read { FillsFrom (observed self.old).octets at result into.new }
        ensures same { (observed self.new).octets ≡ (observed self.old).octets }
        ensures appends { (observed self.new).appends ≡ (observed self.old).appends }
        ensures cause { HasCause (observed self.old).faults (observed self.new).faults result }
        ensures sure { StaysSure (observed self.old).never_fails (observed self.new).never_fails result };

    /// Puts octets last.
    fn append(&mut self, from: &[u8]) -> Result<(), Failed>
        ensures octets { PutsLast (observed self.old).octets (observed self.new).octets result from.now }
        ensures appends { AppendsOnce (observed self.old).appends (observed self.new).appends result }
        ensures cause { HasCause (observed self.old).faults (observed self.new).faults result }
        ensures sure { StaysSure (observed self.old).never_fails (observed self.new).never_fails result }
    {
        self.append_all(&[from])
    }

    /// Puts the parts last, one after the other, by one call.
    fn append_all(&mut self, parts: &[&[u8]]) -> Result<(), Failed>
        ensures octets { PutsLast (observed self.old).octets (observed self.new).octets result (flat_map (λ part. part.now) parts.now) }
        ensures appends { AppendsOnce (observed self.old).appends (observed self.new).appends result }
        ensures cause { HasCause (observed self.old).faults (observed self.new).faults result }
        ensures sure { StaysSure (observed self.old).never_fails (observed self.new).never_fails result };

    /// Leaves only the first octets.
    fn cut(&mut self, len: u64) -> Result<(), Failed>
        requires { IfSome (observed self.old).octets (λ kept. len ≤ length kept) }
        ensures octets { CutsTo (observed self.old).octets (observed self.new).octets result len }
        ensures appends { (observed self.new).appends ≡ (observed self.old).appends }
        ensures cause { HasCause (observed self.old).faults (observed self.new).faults result }
        ensures sure { StaysSure (observed self.old).never_fails (observed self.new).never_fails result };
}
