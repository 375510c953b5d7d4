//! A keeper in memory, for tests: it tells its octets, and fails at the calls that a list names.
ghost use Rattle.std.specs.Prelude.{◌≡◌, ◌==◌, ◌++◌, Some, length, IsTrue, IsNone, OnOk, OnErr};
ghost use Rattle.std.specs.List.{flat_map};

use crate::in_memory::{Failing, Failure};
use crate::keeping::Keeper;
use crate::outside::Failed;
use crate::values::Octets;
use std::alloc::AllocError;
use std::marker::Model;

#[derive(Debug, Drop)]
pub struct MemKeeper {
    octets: Vec<u8>,
    failing: Failing,
    appends: u64,
    faults: u64,
}

impl Model for MemKeeper {
    ghost use Rattle.std.specs.Prelude.{length, ◌==◌};
    ghost use Rattle.mail_wire.specs.private.MemKept.{MemKept};

    ghost Value = { MemKept };

    ghost view = { λ a. record {
      octets = a.octets.items;
      appends = a.appends;
      faults = a.faults;
      never_fails = length a.failing.failures.items == 0;
    } };
}

impl MemKeeper {
    /// A keeper of these octets.
    pub fn new(octets: Octets, failures: Vec<Failure>) -> Self
        ensures octets { result.octets ≡ octets }
        ensures appends { result.appends ≡ 0 }
        ensures faults { result.faults ≡ 0 }
        ensures never_fails { result.never_fails ≡ (length failures.items == 0) }
    {
        MemKeeper {
            octets: octets.into_vec(),
            failing: Failing::new(failures),
            appends: 0,
            faults: 0,
        }
    }

    /// What is kept.
    pub fn octets(&self) -> &[u8]
        ensures { result.now ≡ self.now.octets }
    {
        &self.octets
    }
}

// Puts the parts last, or none of them for want of memory.
fn put_all(octets: &mut Vec<u8>, parts: &[&[u8]]) -> Result<(), AllocError>
    ensures ok { OnOk result (octets.new.items ≡ octets.old.items ++ flat_map (λ part. part.now) parts.now) }
    ensures err { OnErr result (octets.new.items ≡ octets.old.items) }
{
    let before = octets.len();
    for part in parts {
        if let Err(error) = octets.extend_from_slice(part) {
            octets.truncate(before);
            return Err(error);
        }
    }
    Ok(())
}

impl Keeper for MemKeeper {
    ghost observed = { λ keeper. record {
      octets = Some keeper.octets;
      appends = Some keeper.appends;
      faults = keeper.faults;
      never_fails = keeper.never_fails;
    } };

    fn len(&mut self) -> Result<u64, Failed> {
        if self.failing.next().is_some() {
            self.faults = self.faults.saturating_add(1);
            return Err(Failed::Outside);
        }
        Ok(self.octets.len() as u64)
    }

    fn read_at(&mut self, at: u64, into: &mut [u8]) -> Result<(), Failed> {
        if self.failing.next().is_some() {
            self.faults = self.faults.saturating_add(1);
            return Err(Failed::Outside);
        }
        let at = at as usize;
        into.copy_from_slice(&self.octets[at..at + into.len()]);
        Ok(())
    }

    fn append_all(&mut self, parts: &[&[u8]]) -> Result<(), Failed> {
        let failure = self.failing.next();
        let before = self.octets.len();
        // 2^64 appends want more memory than there is
        let Some(appends) = self.appends.checked_add(1) else {
            return Err(Failed::Memory);
        };
        put_all(&mut self.octets, parts)?;
        self.appends = appends;
        if let Some(failure) = failure {
            self.octets.truncate(before.saturating_add(failure.kept));
            self.faults = self.faults.saturating_add(1);
            return Err(Failed::Outside);
        }
        Ok(())
    }

    fn cut(&mut self, len: u64) -> Result<(), Failed> {
        if self.failing.next().is_some() {
            self.faults = self.faults.saturating_add(1);
            return Err(Failed::Outside);
        }
        self.octets.truncate(len as usize);
        Ok(())
    }
}
