//! The members of tuples, and the owners of facts.
ghost use Rattle.std.specs.Prelude.{◌≡◌, ℕ, List, [], IfOk, IfSome, option_map};
ghost use Rattle.std.specs.Option.{option_map_or};
ghost use Rattle.ix_base.specs.Asks.{only};
ghost use Rattle.ix_base.specs.Elements.{placed};
ghost use Rattle.ix_base.specs.Ids as ids;
ghost use Rattle.ix_base.specs.LocatedElements.{located, offset_of};
ghost use Rattle.ix_base.specs.Membership as member;
ghost use Rattle.ix_base.specs.Spots.{IsOnOnePage};
ghost use Rattle.id_table.specs.Model.{asked};
ghost use Rattle.id_table.specs.Slices.{slice_at};
ghost use Rattle.id_table.specs.Tables.{all_located, spots_at, AreOnOwnPages};
ghost use Rattle.tuples.specs.MemberTables.{members_at};
ghost use Rattle.tuples.specs.Model.{listed, owner_in, AreAllOnOwnPages, AreMembersOf};

use crate::owners::nearest_tuple;
use id_table::{Holders, Index, Slice, Slices, enter, one_in, slice_in};
use ix_base::{NoMemory, Spot};
use link_ids::{tuple_id_at, tuple_ref};
use std::alloc::Global;
use std::marker::Model;

/// The members of the tuples of a set, and the owners of its facts.
///
/// Contracts see the members with the places of their tuples, and the tuples with their tuple ids.
pub struct Members<'a> {
    slices: Slices<'a>,
    tuples: Holders<'a>,
}

impl Drop for Members<'_> {
    fn drop(self) {
        let Members {
            slices: _,
            tuples: _,
        } = self;
    }
}

impl<'a> Model for Members<'a> {
    ghost use Rattle.id_table.specs.Slices.{lists_in};
    ghost use Rattle.tuples.specs.Model.{kept_code, tuples_in, AreAllOnOwnPages, Kept};

    ghost Value = { Kept };

    ghost coded = { kept_code };

    ghost view = { λ m. record { lists = lists_in m.slices; tuples = tuples_in m.tuples } };

    ghost invariant = { λ m. AreAllOnOwnPages m.tuples };
}

/// The tuples by their tuple ids.
fn tuples_of<'a>(alloc: Global, index: &Index<'a>) -> Result<Holders<'a>, NoMemory>
    ensures tuples { IfOk result (λ m. (id : List ℕ)
        → option_map (λ s. located s.now) (only (spots_at m id)) ≡ ids.one_tuple (asked index.now) id) }
    ensures pages { IfOk result (λ m. AreAllOnOwnPages m) }
{
    let mut tuples = Holders::new(alloc);
    for spot in index.facts() {
        enter(&mut tuples, tuple_id_at(spot), *spot)?;
    }
    Ok(tuples)
}

/// The members that are kept at a place.
fn spots_in<'a>(slices: &Slices<'a>, key: (u32, u64)) -> &'a [&'a Spot<'a>]
    ensures members { all_located result.now ≡ option_map_or (λ l. l) (slice_at slices.now key.0 key.1) [] }
    ensures pages { AreOnOwnPages result.now }
{
    let none = Slice { spots: &[] };
    slice_in(slices, key).unwrap_or(none).spots
}

/// The place of an element.
fn place_of(spot: &Spot<'_>) -> (u32, u64)
    ensures page { result.0 ≡ (located spot.now).page }
    ensures offset { result.1 ≡ offset_of (located spot.now) }
{
    (spot.element.place.page, spot.element.place.offset)
}

/// The nearest tuple around an element.
fn tuple_around<'a>(spot: &Spot<'a>) -> Option<&'a Spot<'a>>
    ensures placed { option_map (λ s. placed s.now) result
        ≡ option_map (λ o. o.placed) (member.nearest_tuple (located spot.now).page (located spot.now).placed.above) }
    ensures located { IsOnOnePage spot.now → option_map (λ s. located s.now) result
        ≡ member.nearest_tuple (located spot.now).page (located spot.now).placed.above }
    ensures page { IsOnOnePage spot.now → IfSome result (λ s. IsOnOnePage s.now) }
{
    match nearest_tuple(spot.element.place.page, spot.up) {
        Some(owner) => Some(owner.spot),
        None => None,
    }
}

impl<'a> Members<'a> {
    /// Those of a set without tuples. It takes no memory.
    pub(crate) fn none(alloc: Global) -> Members<'a>
        ensures { result ≡ record { lists = []; tuples = [] } }
    {
        Members {
            slices: Slices::new(alloc),
            tuples: Holders::new(alloc),
        }
    }

    /// The members of a tuple by rising order, those with equal orders as they came, and those without one behind all others. It
    /// takes no memory.
    pub fn of(&self, tuple: &Spot<'a>) -> &'a [&'a Spot<'a>]
        ensures members { all_located result.now ≡ listed self.now (located tuple.now).page (offset_of (located tuple.now)) }
        ensures pages { AreOnOwnPages result.now }
    {
        spots_in(&self.slices, place_of(tuple))
    }

    /// The tuple that owns a fact, none where there is none: the element and those around it. It takes no memory.
    pub fn owner(&self, fact: &Spot<'a>) -> Option<&'a Spot<'a>>
        ensures placed { option_map (λ s. placed s.now) result ≡ option_map (λ o. o.placed) (owner_in self.now (located fact.now)) }

        // Where all that stands above the fact is of its page, so it is with the tuple.
        ensures located { IsOnOnePage fact.now → option_map (λ s. located s.now) result ≡ owner_in self.now (located fact.now) }
        ensures page { IsOnOnePage fact.now → IfSome result (λ s. IsOnOnePage s.now) }
    {
        match tuple_ref(fact) {
            Some(id) => one_in(&self.tuples, id),
            None => tuple_around(fact),
        }
    }
}

/// The members and owners, by the members.
pub(crate) fn kept<'a>(
    alloc: Global,
    index: &Index<'a>,
    slices: Slices<'a>,
) -> Result<Members<'a>, NoMemory>
    requires { (page offset : ℕ)
        → option_map_or (λ l. l) (slice_at slices page offset) [] ≡ members_at index.now.spots page offset }
    ensures { IfOk result (λ m. AreMembersOf m index.now.spots) }
{
    let tuples = tuples_of(alloc, index)?;
    Ok(Members { slices, tuples })
}
