//! The two kinds of session.
ghost use Rattle.std.specs.Prelude.{◌≡◌, List, IfOk, OnErr, OnOk};
ghost use Rattle.mime_tree.specs.declared.entity.Entity.{Entity};
ghost use Rattle.mime_tree.specs.Tree.{HasTree};
ghost use Rattle.surrogate_rope.specs.Ropes.{IsRopeOf};
ghost use Rattle.surrogate_rope.specs.Served.{IsShownOf, shown_octets};
ghost use Rattle.surrogate_cache.specs.Caching.{Fetched, Fetches, IsFetchedShown, IsHeldOf, LosesFetch, LosesShown, asked_by};
ghost use Rattle.surrogate_cache.specs.Served.{Mode, legacy, enabled, is_enabled, IsServed, IsShownBy, HasServedHeaders};

use crate::caching::Cache;
use mail_wire::Memory;
use mime_tree::{Tree, TreeFault, read_sound_tree};
use std::alloc::Global;
use surrogate_rope::{Rope, Shown};

/// A kind of session.
pub trait View {
    ghost mode: { Mode };

    /// Whether a session of this kind has enabled UTF-8.
    fn enabled() -> bool
        ensures { result ≡ is_enabled mode };

    /// What a session of this kind is shown of the message of a number. Its tree isn't read where the cache holds its rope.
    fn show(alloc: Global, cache: &mut Cache, id: u32, msg: &[u8]) -> Result<Shown, Memory>
        requires tree { (entities : List Entity) × HasTree msg.now entities }
        requires held { IsHeldOf cache.old id msg.now }
        ensures shown { IfOk result (IsShownOf msg.now) }
        ensures served { IfOk result (λ shown. IsServed mode msg.now (shown_octets msg.now shown)) }
        ensures headers { IfOk result (λ shown. HasServedHeaders mode (shown_octets msg.now shown)) }
        ensures kind { IfOk result (IsShownBy mode) }
        ensures from { IfOk result (IsFetchedShown mode msg.now cache.old cache.new id) }
        ensures fetched { OnOk result (Fetched cache.old (asked_by mode id msg.now) cache.new) }
        ensures loses { OnErr result (LosesShown mode msg.now cache.old cache.new id) };
}

/// A session that has not enabled UTF-8: it is shown the surrogate.
#[derive(Clone, Copy, Debug)]
pub struct Legacy;

/// A session that has enabled UTF-8: it is shown the message as it is stored.
#[derive(Clone, Copy, Debug)]
pub struct Enabled;

// The tree of octets that have one.
fn tree_of(alloc: Global, msg: &[u8]) -> Result<Tree, Memory>
    requires { (entities : List Entity) × HasTree msg.now entities }
    ensures { IfOk result (λ tree. HasTree msg.now tree.entities) }
{
    match read_sound_tree(alloc, msg) {
        Ok(tree) => Ok(tree),
        Err(TreeFault::Memory) => Err(Memory),
        // They have a tree.
        Err(_) => unreachable!(),
    }
}

// The rope of a message: one that is held, or else one that is built of its tree.
fn rope_of(alloc: Global, cache: &mut Cache, id: u32, msg: &[u8]) -> Result<Rope, Memory>
    requires tree { (entities : List Entity) × HasTree msg.now entities }
    requires held { IsHeldOf cache.old id msg.now }
    ensures rope { IfOk result (IsRopeOf msg.now) }
    ensures fetches { IfOk result (Fetches msg.now cache.old cache.new id) }
    ensures loses { OnErr result (LosesFetch msg.now cache.old cache.new id) }
{
    match cache.held(alloc, id)? {
        Some(rope) => Ok(rope),
        None => {
            let tree = tree_of(alloc, msg)?;
            cache.fetch(alloc, id, msg, &tree)
        }
    }
}

impl View for Legacy {
    ghost mode = { legacy };

    fn enabled() -> bool {
        false
    }

    fn show(alloc: Global, cache: &mut Cache, id: u32, msg: &[u8]) -> Result<Shown, Memory> {
        let rope = rope_of(alloc, cache, id, msg)?;
        Ok(Shown::Rope(rope))
    }
}

impl View for Enabled {
    ghost mode = { enabled };

    fn enabled() -> bool {
        true
    }

    fn show(alloc: Global, _cache: &mut Cache, _id: u32, msg: &[u8]) -> Result<Shown, Memory> {
        let tree = tree_of(alloc, msg)?;
        Ok(Shown::Whole(tree))
    }
}
