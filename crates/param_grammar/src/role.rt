//! What each piece is to its parameter.
ghost use Rattle.std.specs.Prelude.{◌≡◌, ◌<◌, ℕ, true, false, List, length, IfOk, IfSome, IfNone};
ghost use Rattle.std.specs.List.{All};
ghost use Rattle.encoded_words.specs.private.Values.{value_of};
ghost use Rattle.param_grammar.specs.declared.Piece.{Piece};
ghost use Rattle.param_grammar.specs.Joining.{AreNumbered, AreParams, ParamValue, parts_named, unit_at};
ghost use Rattle.param_grammar.specs.Placed.{HasPlaced};
ghost use Rattle.param_grammar.specs.Places.{ArePlaced, IsPlaced, piece_in};
ghost use Rattle.param_grammar.specs.Extended.{unit_of as unit_value};
ghost use Rattle.param_grammar.specs.private.Ordered.{InNameOrder, name_in};
ghost use Rattle.param_grammar.specs.private.Roles.{AreLowered, ArePut, HasRole, IsNameRun, SetsRoles, role_at};

use crate::extended::unit_of;
use crate::joining::{in_order, joined_unit};
use crate::names_order::{
    Named, are_ascii, in_name_order, is_ascii, is_numbered, parts_among, run_of, split_run,
};
use crate::places::{Place, said_at};
use encoded_words::{Unit, lower_case};
use mail_wire::{Memory, Octets};
use std::alloc::Global;

/// What a piece is to its parameter.
#[derive(Clone, Copy)]
pub enum Role {
    /// The parameter began before it.
    GoesOn {
        /// Whether no name and no value of the parameter has an octet above 127.
        is_ascii: bool,
    },
    /// The parameter begins with it.
    Begins {
        /// Whether no name and no value of the parameter has an octet above 127.
        is_ascii: bool,
        /// Whether another parameter has the same name.
        is_doubled: bool,
    },
}

/// The pieces of a text, by their places, and what each is to its parameter.
#[derive(Drop)]
pub struct Placed {
    pub places: Vec<Place>,
    pub roles: Vec<Role>,
    lower: Octets,
    order: Vec<u32>,
}

// What the pieces of one name are.
#[derive(Clone, Copy)]
struct NameRoles {
    // the first part
    first: Option<u32>,
    // whether the parts have no octet above 127
    is_ascii: bool,
    // whether a piece is a whole parameter
    has_whole: bool,
    // whether there are two pieces or more
    is_doubled: bool,
}

// The role of a piece of a name.
fn role_in(named: Named<'_>, name: NameRoles, number: u32) -> Role
    ensures { result ≡ role_at named.entry.places.now name number }
{
    if !is_numbered(named, number) {
        return Role::Begins {
            is_ascii: is_ascii(named, number),
            is_doubled: name.is_doubled,
        };
    }
    if name.first == Some(number) {
        return Role::Begins {
            is_ascii: name.is_ascii,
            is_doubled: name.has_whole,
        };
    }
    Role::GoesOn {
        is_ascii: name.is_ascii,
    }
}

// Sets the roles of some pieces of a name.
fn put_roles(named: Named<'_>, name: NameRoles, run: &[u32], roles: &mut Vec<Role>)
    requires { All (λ number. number < length roles.now.items) run.now }
    ensures counted { length roles.new.items ≡ length roles.old.items }
    ensures put { ArePut named.entry.places.now name run.now roles.old.items roles.new.items }
{
    for number in run {
        roles[*number as usize] = role_in(named, name, *number);
    }
}

// Sets the roles of the pieces of one name. Answers whether the numbers of its parts are those from 0 on.
fn set_roles(
    alloc: Global,
    text: &[u8],
    named: Named<'_>,
    run: &[u32],
    roles: &mut Vec<Role>,
) -> Result<bool, Memory>
    requires counted { length roles.now.items ≡ length named.places.now }
    requires within { All (λ number. number < length named.places.now) run.now }
    ensures counted { length roles.new.items ≡ length roles.old.items }
    ensures set { (pieces : List Piece) (first : ℕ) → AreLowered text.now named.entry.lower.now named.entry.places.now pieces → IsNameRun named.entry.lower.now named.entry.places.now run.now first
        → IfOk result (λ done. done ≡ true → SetsRoles named.entry.lower.now named.entry.places.now pieces first roles.old.items roles.new.items) }
    ensures none { (pieces : List Piece) (first : ℕ) → AreLowered text.now named.entry.lower.now named.entry.places.now pieces → IsNameRun named.entry.lower.now named.entry.places.now run.now first
        → IfOk result (λ done. done ≡ false → ¬ AreNumbered (parts_named (piece_in pieces first).base pieces)) }
{
    let parts = parts_among(alloc, named, run)?;
    if in_order(alloc, text, named.places, &parts)?.is_none() {
        return Ok(false);
    }
    let name = NameRoles {
        first: parts.first().copied(),
        is_ascii: are_ascii(named, &parts),
        has_whole: parts.len() < run.len(),
        is_doubled: run.len() > 1,
    };
    put_roles(named, name, run, roles);
    Ok(true)
}

// A role for each piece, to be set.
fn no_roles(alloc: Global, count: usize) -> Result<Vec<Role>, Memory>
    ensures { IfOk result (λ roles. length roles.items ≡ count) }
{
    let mut roles = Vec::with_capacity(alloc, count)?;
    for _ in 0..count {
        roles.push(Role::GoesOn { is_ascii: false })?;
    }
    Ok(roles)
}

// The role of each piece, and nothing exactly where the numbers of the pieces of a name aren't those from 0 on.
fn roles_of(
    alloc: Global,
    text: &[u8],
    named: Named<'_>,
    order: &[u32],
) -> Result<Option<Vec<Role>>, Memory>
    requires { InNameOrder (name_in named.lower.now named.places.now) (length named.places.now) order.now }
    ensures counted { IfOk result (λ o. IfSome o (λ roles. length roles.items ≡ length named.entry.places.now)) }
    ensures found { (pieces : List Piece) → AreLowered text.now named.entry.lower.now named.entry.places.now pieces
        → IfOk result (λ o. IfSome o (λ roles. (number : ℕ) → number < length pieces → HasRole pieces roles.items number)) }
    ensures numbered { (pieces : List Piece) → AreLowered text.now named.entry.lower.now named.entry.places.now pieces
        → IfOk result (λ o. IfSome o (λ roles. (base : List ℕ) → AreNumbered (parts_named base pieces))) }
    ensures none { (pieces : List Piece) → AreLowered text.now named.entry.lower.now named.entry.places.now pieces
        → IfOk result (λ o. IfNone o (¬ ((base : List ℕ) → AreNumbered (parts_named base pieces)))) }
{
    let mut roles = no_roles(alloc, named.places.len())?;
    let mut rest = order;
    while let Some((first, _)) = rest.split_first() {
        let (run, following) = split_run(named, *first, rest);
        if !set_roles(alloc, text, named, run, &mut roles)? {
            return Ok(None);
        }
        rest = following;
    }
    Ok(Some(roles))
}

/// The pieces at places of a text, and nothing exactly where the numbers of the pieces of a name aren't those from 0 on.
pub fn place_pieces(
    alloc: Global,
    text: &[u8],
    places: Vec<Place>,
) -> Result<Option<Placed>, Memory>
    ensures found { (pieces : List Piece) → ArePlaced text.now places.items pieces → IfOk result (λ o. IfSome o (λ placed. HasPlaced text.now placed pieces)) }
    ensures none { (pieces : List Piece) → ArePlaced text.now places.items pieces → IfOk result (λ o. IfNone o ((params : List ParamValue) → ¬ AreParams pieces params)) }
{
    let lower = lower_case(alloc, text)?;
    let named = Named {
        lower: lower.as_slice(),
        places: places.as_slice(),
    };
    let order = in_name_order(alloc, named)?;
    let Some(roles) = roles_of(alloc, text, named, &order)? else {
        return Ok(None);
    };
    Ok(Some(Placed {
        places,
        roles,
        lower,
        order,
    }))
}

// What a whole parameter says.
fn whole_unit(alloc: Global, text: &[u8], place: Place) -> Result<Unit, Memory>
    requires { (piece : Piece) × IsPlaced text.now place piece }
    ensures { (piece : Piece) → IsPlaced text.now place piece → IfOk result (λ unit. value_of unit ≡ unit_value piece.charset piece.octets) }
{
    let (charset, octets) = said_at(alloc, text, place)?;
    unit_of(alloc, charset.as_slice(), octets)
}

impl Placed {
    /// What the parameter says that a piece is, or is a part of.
    pub fn unit(&self, alloc: Global, text: &[u8], number: usize) -> Result<Unit, Memory>
        requires number { number < length self.now.places.items }
        requires placed { (pieces : List Piece) × HasPlaced text.now self.now pieces }
        ensures { (pieces : List Piece) → HasPlaced text.now self.now pieces → IfOk result (λ unit. value_of unit ≡ unit_at pieces (piece_in pieces number)) }
    {
        let place = self.places[number];
        if !place.is_numbered {
            return whole_unit(alloc, text, place);
        }
        let named = Named {
            lower: self.lower.as_slice(),
            places: self.places.as_slice(),
        };
        let parts = parts_among(alloc, named, run_of(named, &self.order, number as u32))?;
        match in_order(alloc, text, named.places, &parts)? {
            Some(made) => joined_unit(alloc, text, named.places, &made),
            None => unreachable!(),
        }
    }
}
