//! Laws of the relay.
ghost use Rattle.std.specs.Prelude.{◌≡◌, ℕ, List, IfOk, Result, Some};
ghost use Rattle.mail_wire.specs.declared.outside.Fault.{Fault};
ghost use Rattle.relay_choice.specs.declared.replies.Reply.{Reply};
ghost use Rattle.session_core.specs.Around.{Around};
ghost use Rattle.relay_session.specs.Relaying.{HasLeftCause, Relays, SaysFrontOf};
ghost use Rattle.relay_session.specs.Streams.{AreAllReplies};
ghost use Rattle.relay_session.specs.declared.ends.RelayEnd.{RelayEnd};

/// Whatever a server sends, somebody is left exactly where a cause is told.
pub fn somebody_is_left_for_a_cause()
    ensures { (before now : Around) (result : Result RelayEnd Fault) → Relays before now result → IfOk result HasLeftCause }
{}

/// However a run ends, what was given is a front of what the client says to all replies that the server sends.
pub fn no_more_is_said_than_is_due()
    ensures { (before now : Around) (result : Result RelayEnd Fault) (octets : List ℕ) (replies : List Reply) → Relays before now result → before.wire.left ≡ Some octets
        → AreAllReplies octets replies → SaysFrontOf before now replies }
{}
