//! What gives octets of a message to a wire, while the store lends them.
ghost use Rattle.std.specs.Prelude.{◌+◌, ◌≤◌, ℕ, List, length, take, drop};
ghost use Rattle.mail_wire.specs.Moves.{GivesOrFails, HasWireCause};
ghost use Rattle.surrogate_rope.specs.Served.{IsShownOf, shown_octets};

use mail_wire::{Failed, Span, Wire};
use surrogate_cache::give_range;
use surrogate_rope::Shown;

/// Gives what it makes of a message.
pub trait Giving {
    /// What is given of a message with these octets.
    ghost given: { Self → List ℕ → List ℕ };

    /// The message is one of which it gives.
    ghost fits: { Self → List ℕ → Type 0 };

    /// Gives it, or a prefix of it where that fails.
    fn give_to<W: Wire>(&self, msg: &[u8], wire: &mut W) -> Result<(), Failed>
        requires { fits self.now msg.now }
        ensures gives { GivesOrFails (W.observed wire.old) (W.observed wire.new) result (given self.now msg.now) }
        ensures cause { HasWireCause (W.observed wire.old) (W.observed wire.new) result Failed.Outside };
}

/// A range of what is shown of a message.
#[derive(Clone, Copy)]
pub struct ShownRange<'a> {
    pub shown: &'a Shown,
    pub span: Span,
}

impl<'a> Giving for ShownRange<'a> {
    ghost given = { λ range msg. take range.span.len (drop range.span.at (shown_octets msg range.shown.now)) };

    ghost fits = { λ range msg. IsShownOf msg range.shown.now × (range.span.at + range.span.len ≤ length (shown_octets msg range.shown.now)) };

    fn give_to<W: Wire>(&self, msg: &[u8], wire: &mut W) -> Result<(), Failed> {
        give_range(self.shown, msg, self.span.at, self.span.len, wire)
    }
}

/// A range of the octets of a message, as they are stored.
#[derive(Clone, Copy)]
pub struct StoredRange {
    pub span: Span,
}

impl Giving for StoredRange {
    ghost given = { λ range msg. take range.span.len (drop range.span.at msg) };

    ghost fits = { λ range msg. range.span.at + range.span.len ≤ length msg };

    fn give_to<W: Wire>(&self, msg: &[u8], wire: &mut W) -> Result<(), Failed> {
        let (_, rest) = msg.split_at(self.span.at);
        let (octets, _) = rest.split_at(self.span.len);
        wire.give(octets)
    }
}
