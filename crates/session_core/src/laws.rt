//! What holds of what every session takes as given.
ghost use Rattle.std.specs.Prelude.{◌≡◌};
ghost use Rattle.session_core.specs.Oracles.{Oracles, AreOracles};
ghost use Rattle.session_core.specs.declared.desk.TheConstants.{LIMITS};

/// There are functions that give surrogates, read paths, tell trees and marks, and read commands and names, so what is said of
/// all such functions is said of some.
pub fn oracles_are_given()
    ensures { (oracles : Oracles) × AreOracles oracles }
{}

/// The limits of the program have these values: a message of 32 MiB, 1 GiB that a session takes, a cache of 256 surrogates in 1,024 blocks.
pub fn limits_are_these()
    ensures message { LIMITS.message_max ≡ 33554432 }
    ensures session { LIMITS.session_max ≡ 1073741824 }
    ensures blocks { LIMITS.pool_blocks ≡ 1024 }
    ensures entries { LIMITS.cache_entries ≡ 256 }
{}
