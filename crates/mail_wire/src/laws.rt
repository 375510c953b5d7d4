//! A law of limits.
ghost use Rattle.std.specs.Prelude.{◌≡◌};
ghost use Rattle.mail_wire.specs.declared.clock.TheConstants.{CLOCK_END};
ghost use Rattle.mail_wire.specs.declared.framing.TheConstants.{LINE_MAX};
ghost use Rattle.mail_wire.specs.declared.message.TheConstants.{MESSAGE_MAX};
ghost use Rattle.mail_wire.specs.declared.traffic.TheConstants.{PIECE};

/// The limits have these values: a message of 32 MiB, a line of 64 KiB, pieces of 4 KiB, and the year 10000.
pub fn limits_are_these()
    ensures message { MESSAGE_MAX ≡ 33554432 }
    ensures line { LINE_MAX ≡ 65536 }
    ensures piece { PIECE ≡ 4096 }
    ensures clock { CLOCK_END ≡ 253402300800 }
{}
