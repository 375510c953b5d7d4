//! The dial of the next server, and what its calls mean.
ghost use Rattle.std.specs.Prelude.{◌≡◌, IfOk};
ghost use Rattle.mail_wire.specs.Causes.{HasCause};
ghost use Rattle.mail_wire.specs.DialState.{AsksHost, DialState, IsDialled};

use crate::outside::{Failed, Wire};

/// Makes connections to servers, and takes them back.
pub trait Dial {
    /// A connection that was made.
    type Conn: Wire;

    /// What the dial tells of itself.
    ghost observed: { Self → DialState };

    /// Makes a connection to this server.
    fn dial(&mut self, host: &str) -> Result<Self::Conn, Failed>
        ensures dialled { IfOk result (λ wire. IsDialled (observed self.old) (⟦<Self::Conn as Wire>⟧.observed wire)) }
        ensures asked { AsksHost (observed self.old).asked (observed self.new).asked result host.now }
        ensures transcript { (observed self.new).transcript ≡ (observed self.old).transcript }
        ensures cause { HasCause (observed self.old).faults (observed self.new).faults result };

    /// Takes a connection back, with its transcript. It takes no memory.
    fn hand_back(&mut self, conn: Self::Conn)
        ensures transcript { (observed self.new).transcript ≡ (⟦<Self::Conn as Wire>⟧.observed conn).transcript }
        ensures asked { (observed self.new).asked ≡ (observed self.old).asked }
        ensures faults { (observed self.new).faults ≡ (observed self.old).faults };
}
