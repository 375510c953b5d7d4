//! What holds of what every session is served, and of every cache.
ghost use Rattle.std.specs.Prelude.{◌≡◌, ℕ, List, length};
ghost use Rattle.surrogate_cache.specs.Caching.{AreCounts, Asked, CacheState, Fetched, HasCounted, HoldsEach, WasHeldOrAsked};
ghost use Rattle.surrogate_cache.specs.Served.{Mode, IsServed, GivesSurrogates};

/// In each mode a message is served in one form at most.
pub fn one_served_form()
    ensures { (mode : Mode) (msg shown other : List ℕ) → IsServed mode msg shown → IsServed mode msg other → shown ≡ other }
{}

/// There is a function that gives surrogates, so what is said of all such functions is said of one.
pub fn surrogates_are_given()
    ensures { (surrogate : List ℕ → List ℕ) × GivesSurrogates surrogate }
{}

/// Each fetch is counted once, as a build or as a hit.
pub fn fetches_are_counted()
    ensures { (old new : CacheState) (asked : List Asked) → AreCounts old.counts → Fetched old asked new → HasCounted (length asked) old.counts new.counts }
{}

/// What a cache holds after fetches it held before, or it is of a message that was asked for, under the number of that message.
pub fn what_is_held_was_asked_for()
    ensures { (old new : CacheState) (asked : List Asked) → Fetched old asked new → HoldsEach (WasHeldOrAsked old asked) new }
{}
