//! The statuses that commands end with.
ghost use Rattle.std.specs.Prelude.{◌≡◌};
ghost use Rattle.setup_command.specs.declared.statuses.TheConstants.{DONE, WIRE_FAULT, KEEPER_FAULT, WANT_OF_MEMORY, WORDS_REFUSED, BAD_JOURNAL, LIMIT_REACHED, MESSAGE_REFUSED, LEFT_QUEUED, ADDING_REFUSED};

/// All was done.
pub const DONE: u8 = 0;

/// The wire failed.
pub const WIRE_FAULT: u8 = 1;

/// The keeper failed.
pub const KEEPER_FAULT: u8 = 2;

/// Memory was refused.
pub const WANT_OF_MEMORY: u8 = 3;

/// The words are those of no command.
pub const WORDS_REFUSED: u8 = 4;

/// The octets of the keeper are no journal.
pub const BAD_JOURNAL: u8 = 5;

/// A session took as many octets as it may.
pub const LIMIT_REACHED: u8 = 6;

/// The message has no surrogate.
pub const MESSAGE_REFUSED: u8 = 7;

/// Recipients are left in the queue.
pub const LEFT_QUEUED: u8 = 8;

/// The store refuses what is to be added.
pub const ADDING_REFUSED: u8 = 9;

/// The statuses have these values, on which scripts rely.
pub fn statuses_are_these()
    ensures done { DONE ≡ 0 }
    ensures wire { WIRE_FAULT ≡ 1 }
    ensures keeper { KEEPER_FAULT ≡ 2 }
    ensures memory { WANT_OF_MEMORY ≡ 3 }
    ensures words { WORDS_REFUSED ≡ 4 }
    ensures journal { BAD_JOURNAL ≡ 5 }
    ensures limit { LIMIT_REACHED ≡ 6 }
    ensures message { MESSAGE_REFUSED ≡ 7 }
    ensures queued { LEFT_QUEUED ≡ 8 }
    ensures adding { ADDING_REFUSED ≡ 9 }
{}
