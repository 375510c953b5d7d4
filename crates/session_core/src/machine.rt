//! What a protocol gives to the driver.
ghost use Rattle.std.specs.Prelude.{◌≡◌, ◌<◌, ◌≤◌, ℕ, List, [], IfOk, length, None, Some};
ghost use Rattle.session_core.specs.Turns.{Turn, IsFramed};
ghost use Rattle.session_core.specs.Acts.{Act};
ghost use Rattle.session_core.specs.declared.desk.Desk.{Desk as DeskValue};
ghost use Rattle.session_core.specs.Desks.{IsOpen};
ghost use Rattle.session_core.specs.Keeps.{Keeps, fault_of};
ghost use Rattle.session_core.specs.Oracles.{Oracles, AreOracles};
ghost use Rattle.session_core.specs.Moments.{Moment};
ghost use Rattle.session_core.specs.Protocol.{Protocol, IsFitTurn};
ghost use Rattle.session_core.specs.Steps.{Begins, IsReadyAfter, Steps};

use crate::outside::Outside;
use mail_wire::{Clock, Fault, Keeper, Octets, Wire};

/// What came of a piece: the machine after it, none where the session has ended, and how many octets were used.
#[derive(Debug, Drop)]
pub struct Advance<M> {
    pub next: Option<M>,
    pub used: usize,
}

/// A machine that reads a stream.
pub trait Machine: Drop {
    /// The protocol as a machine over whole lists.
    ghost protocol: { Protocol };

    /// The states and the rests of the stream that a machine with these octets kept stands for, with these moments to come.
    ghost stands: { List Moment → Self → List ℕ → DeskValue → protocol.S → List ℕ → Type 0 };

    /// What was kept has no whole turn, and the machine has what it needs.
    ghost is_ready: { Self → List ℕ → DeskValue → Type 0 };

    /// Begins a session: does what the protocol opens with.
    fn begin<W: Wire, J: Keeper, C: Clock>(outside: &mut Outside<W, J, C>) -> Result<Self, Fault>
        requires { IsOpen outside.old.desk }
        ensures begins { Begins protocol stands outside.old outside.new result }
        ensures ready { IfOk result (λ machine. is_ready machine [] outside.new.desk) }
        ensures keeps { Keeps outside.old outside.new (fault_of result) };

    /// Takes a line, a block of data or whatever comes next, as far as it is in the piece, and does the acts that it brings.
    fn take_next<W: Wire, J: Keeper, C: Clock>(
        self,
        kept: &mut Octets,
        piece: &[u8],
        outside: &mut Outside<W, J, C>,
    ) -> Result<Advance<Self>, Fault>
        requires some { 0 < length piece.now }
        requires opens { IsOpen outside.old.desk }
        requires ready { is_ready self kept.old outside.old.desk }
        ensures steps { Steps protocol stands outside.old outside.new self kept.old kept.new piece.now result }
        ensures used { IfOk result (λ advance. (0 < advance.used) × (advance.used ≤ length piece.now)) }
        ensures ready { IfOk result (λ advance. IsReadyAfter is_ready advance kept.new outside.new.desk) }
        ensures keeps { Keeps outside.old outside.new (fault_of result) };

    /// A turn takes an octet at least, and doesn't depend on what comes after it.
    ghost framed: { (oracles : Oracles) → AreOracles oracles → IsFramed (protocol.next oracles) };

    /// What was kept brings no turn.
    ghost waits: { (oracles : Oracles) → AreOracles oracles → (more : List Moment) (machine : Self) (kept : List ℕ) (desk : DeskValue) (state : protocol.S) (rest : List ℕ)
        → is_ready machine kept desk → stands more machine kept desk state rest → protocol.next oracles state rest ≡ None };

    /// A machine stands for no end, after which nothing brings a turn.
    ghost goes_on: { (more : List Moment) (machine : Self) (kept : List ℕ) (desk : DeskValue) (state : protocol.S) (rest : List ℕ)
        → stands more machine kept desk state rest → ¬ protocol.HasEnded state };

    ghost quiet: { (oracles : Oracles) (state : protocol.S) (rest : List ℕ) → protocol.HasEnded state → protocol.next oracles state rest ≡ None };

    /// Whatever is asked for, the replies may be sent.
    ghost begins_fit: { (oracles : Oracles) → AreOracles oracles → (moments : List Moment) (desk : DeskValue) → IsOpen desk
        → IsFitTurn protocol oracles (record { parts = protocol.opening desk.store; after = protocol.start moments desk.store; rest = [] }) };

    ghost fits: { (oracles : Oracles) → AreOracles oracles → (state : protocol.S) (octets : List ℕ) (turn : Turn protocol.S (Act protocol.P)) → protocol.IsSound state
        → protocol.next oracles state octets ≡ Some turn → IsFitTurn protocol oracles turn };
}
