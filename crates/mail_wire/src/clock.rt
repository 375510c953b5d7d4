//! Clocks: one that tells a fixed reading, and the system's.
ghost use Rattle.std.specs.Prelude.{◌≡◌, ◌<◌, ℕ, None, Option, Some, IfSome};
ghost use Rattle.mail_wire.specs.declared.clock.TheConstants.{CLOCK_END};

use std::marker::Model;
use std::rt::Clock as SystemHandle;
use std::time::{SystemTime, UNIX_EPOCH};

/// The second after the last one that a clock tells, counted from 1970: the first of the year 10000.
pub const CLOCK_END: u64 = 253_402_300_800;

/// Tells the time.
pub trait Clock {
    /// The reading of a clock that tells a fixed one.
    ghost observed: { Self → Option ℕ };

    /// Seconds from the beginning of 1970, in UTC.
    fn now(&mut self) -> u64
        ensures bound { result < CLOCK_END }
        ensures reading { IfSome (observed self.old) (λ seconds. result ≡ seconds) }
        ensures same { observed self.new ≡ observed self.old };
}

/// A clock that stands still, for tests.
#[derive(Debug, Drop)]
pub struct FixedClock {
    seconds: u64,
}

impl Model for FixedClock {
    ghost use Rattle.std.specs.Prelude.{ℕ, ◌<◌};
    ghost use Rattle.mail_wire.specs.declared.clock.TheConstants.{CLOCK_END};

    ghost Value = { ℕ };

    ghost view = { λ a. a.seconds };

    ghost invariant = { λ a. a.seconds < CLOCK_END };
}

impl FixedClock {
    /// A clock that always tells these seconds.
    pub fn new(seconds: u64) -> Self
        requires { seconds < CLOCK_END }
        ensures { result ≡ seconds }
    {
        FixedClock { seconds }
    }
}

impl Clock for FixedClock {
    ghost observed = { λ clock. Some clock };

    fn now(&mut self) -> u64 {
        self.seconds
    }
}

/// The system's clock, which tells the beginning of 1970 where there is none or it stands before that.
#[derive(Drop)]
pub struct SystemClock<R> {
    rt: R,
}

impl<R: SystemHandle> SystemClock<R> {
    /// The clock of this handle.
    pub fn new(rt: R) -> Self
        ensures { result.rt ≡ rt }
    {
        SystemClock { rt }
    }
}

impl<R: SystemHandle> Clock for SystemClock<R> {
    ghost observed = { λ _. None };

    fn now(&mut self) -> u64 {
        let Ok(time) = SystemTime::now(&self.rt) else {
            return 0;
        };
        match time.duration_since(UNIX_EPOCH) {
            Ok(since) => since.as_secs().min(CLOCK_END - 1),
            Err(_) => 0,
        }
    }
}
