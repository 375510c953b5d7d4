//! How many things a store may have, and how large a message may be.
ghost use Rattle.std.specs.Prelude.{◌≡◌};
ghost use Rattle.kept_mail.specs.declared.limits.TheConstants.{MESSAGE_MAX, RECIPIENTS_MAX, THINGS_MAX};

/// The greatest number of things of each kind, gone ones counted.
pub const THINGS_MAX: usize = 4_294_967_294;

/// Octets of a message, at most.
pub const MESSAGE_MAX: u32 = mail_wire::MESSAGE_MAX;

/// Recipients of a message in the queue, at most, that is put there from now on.
pub const RECIPIENTS_MAX: usize = 100;

/// The limits have these values: 2^32 - 2 things of a kind, a message of 32 MiB, 100 recipients.
pub fn limits_are_these()
    ensures things { THINGS_MAX ≡ 4294967294 }
    ensures message { MESSAGE_MAX ≡ 33554432 }
    ensures recipients { RECIPIENTS_MAX ≡ 100 }
{}
