//! Octets of what is shown of a message.
ghost use Rattle.std.specs.Prelude.{◌≡◌, ◌≤◌, ◌+◌, length, take, drop, IfOk};
ghost use Rattle.surrogate_rope.specs.Served.{IsShownOf, shown_octets};

use mail_wire::{Memory, Octets, PIECE, Span};
use std::alloc::Global;
use surrogate_rope::Shown;

/// The octets of a span of what is shown.
pub fn read_range(alloc: Global, shown: &Shown, msg: &[u8], span: Span) -> Result<Octets, Memory>
    requires shown { IsShownOf msg.now shown.now }
    requires within { span.at + span.len ≤ length (shown_octets msg.now shown.now) }
    ensures { IfOk result (λ made. made ≡ take span.len (drop span.at (shown_octets msg.now shown.now))) }
{
    let end = shown.size(msg).min(span.at.saturating_add(span.len));
    let mut made = Octets::new(alloc);
    let mut piece = [0; PIECE];
    let mut at = span.at;
    while at < end {
        let wanted = PIECE.min(end - at);
        let count = shown.read_at(msg, at, &mut piece[..wanted]);
        made.push_slice(&piece[..count])?;
        at += count;
    }
    Ok(made)
}
