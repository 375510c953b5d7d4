//! A dial in memory, for tests: each server that it reaches sends the same octets, and it fails at the calls that a
//! list names.
ghost use Rattle.std.specs.Prelude.{◌≡◌, ◌==◌, Some, [], length};

use crate::dialling::Dial;
use crate::in_memory::{Failure, MemWire};
use crate::outside::{Entry, Failed};
use crate::values::Octets;
use crate::words::Words;
use std::alloc::Global;
use std::marker::Model;

/// What each server does that a dial in memory reaches.
#[derive(Debug, Drop)]
pub struct MemServer {
    /// The octets that it sends.
    pub sends: Octets,
    /// The sizes of the pieces that its wire hands out, as for `MemWire`.
    pub sizes: Vec<usize>,
    /// The calls of its wire that are to fail.
    pub failures: Vec<Failure>,
}

#[derive(Debug, Drop)]
pub struct MemDial {
    alloc: Global,
    server: MemServer,
    failing: Vec<u64>,
    calls: u64,
    entries: Vec<Entry>,
    asked: Words,
    faults: u64,
}

impl Model for MemDial {
    ghost use Rattle.std.specs.Prelude.{length, ◌==◌};
    ghost use Rattle.mail_wire.specs.private.MemDialled.{MemDialled};

    ghost Value = { MemDialled };

    ghost view = { λ a. record {
      sends = a.server.sends;
      server_never_fails = length a.server.failures.items == 0;
      entries = a.entries.items;
      asked = a.asked;
      faults = a.faults;
    } };
}

impl MemDial {
    /// A dial that reaches such servers. Its calls with these numbers, from 0, fail.
    pub fn new(alloc: Global, server: MemServer, failing: Vec<u64>) -> Self
        ensures sends { result.sends ≡ server.sends }
        ensures server_never_fails { result.server_never_fails ≡ (length server.failures.items == 0) }
        ensures entries { result.entries ≡ [] }
        ensures asked { result.asked ≡ [] }
        ensures faults { result.faults ≡ 0 }
    {
        MemDial {
            alloc,
            server,
            failing,
            calls: 0,
            entries: Vec::new(alloc),
            asked: Words::none(alloc),
            faults: 0,
        }
    }

    /// What was taken and given over the connection that was handed back last.
    pub fn entries(&self) -> &[Entry]
        ensures { result.now ≡ self.now.entries }
    {
        &self.entries
    }

    /// The hosts that were asked for, in order, also where a call failed.
    pub fn asked(&self) -> &Words
        ensures { result.now ≡ self.now.asked }
    {
        &self.asked
    }
}

impl Dial for MemDial {
    type Conn = MemWire;

    ghost observed = { λ dial. record {
      sends = Some dial.sends;
      server_never_fails = dial.server_never_fails;
      transcript = Some dial.entries;
      asked = Some dial.asked;
      faults = dial.faults;
    } };

    fn dial(&mut self, host: &str) -> Result<MemWire, Failed> {
        self.asked.push(host)?;
        let call = self.calls;
        self.calls = call.saturating_add(1);
        if self.failing.contains(&call) {
            self.faults = self.faults.saturating_add(1);
            return Err(Failed::Outside);
        }
        let sends = Octets::from_slice(self.alloc, self.server.sends.as_slice())?;
        let sizes = Vec::from_slice(self.alloc, &self.server.sizes)?;
        let failures = Vec::from_slice(self.alloc, &self.server.failures)?;
        Ok(MemWire::new(self.alloc, sends, sizes, failures))
    }

    fn hand_back(&mut self, conn: MemWire) {
        self.entries = conn.into_entries();
    }
}
