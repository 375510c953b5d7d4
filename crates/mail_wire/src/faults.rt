//! Failures of the outside: how many there were, and why the last one came.
ghost use Rattle.std.specs.Prelude.{◌≡◌, Ok, None, IfOk};
ghost use Rattle.mail_wire.specs.Causes.{HasCause, KeepsLast};

use crate::outside::Failed;

/// The failures of an object of the outside.
#[derive(Drop)]
pub struct Faults<E> {
    pub count: u64,
    pub last: Option<E>,
}

impl<E: Copy> Faults<E> {
    /// No failure yet.
    pub fn none() -> Self
        ensures count { result.count ≡ 0 }
        ensures last { result.last ≡ None }
    {
        Faults {
            count: 0,
            last: None,
        }
    }

    /// Counts a failure, and keeps why it came. The reason of an earlier one is then gone.
    pub fn counted<T>(&mut self, done: Result<T, E>) -> Result<T, Failed>
        ensures cause { HasCause self.old.count self.new.count result }
        ensures ok { IfOk result (λ value. done ≡ Ok value) }
        ensures last { KeepsLast self.old.last self.new.last done }
    {
        match done {
            Ok(value) => Ok(value),
            Err(error) => {
                self.count = self.count.saturating_add(1);
                self.last = Some(error);
                Err(Failed::Outside)
            }
        }
    }
}
