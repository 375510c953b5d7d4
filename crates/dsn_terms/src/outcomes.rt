//! Which outcome owes a report.
ghost use Rattle.std.specs.Prelude.{◌≡◌, ◌<◌};
ghost use Rattle.dsn_terms.specs.Outcomes.{asks as asks_of, is_owed};

use crate::{Asked, DELIVERED_HERE, FAILURE, Outcome, SUCCESS};

// Whether this bit is among those of `notify`.
fn asks(notify: u8, bit: u8) -> bool
    requires { 0 < bit }
    ensures { result ≡ asks_of notify bit }
{
    notify / bit % 2 == 1
}

/// Whether the sender is owed a report that this became of a recipient.
pub fn owed(asked: &Asked, outcome: Outcome) -> bool
    ensures { result ≡ is_owed asked.now.notify outcome }
{
    match outcome {
        Outcome::Failed => asks(asked.notify, FAILURE),
        Outcome::Relayed => asks(asked.notify, SUCCESS),
        Outcome::Delivered => asks(asked.notify, SUCCESS) && asks(asked.notify, DELIVERED_HERE),
    }
}
