//! Chains as slices of an arena.
ghost use Rattle.std.specs.Prelude.{◌≡◌, ◌<◌, ℕ, [], OnOk, IfOk, Some, option_map, is_some, length, slice_get, true};
ghost use Rattle.ix_base.specs.Chain as chains;
ghost use Rattle.ix_base.specs.LinkRules.{is_at};
ghost use Rattle.ix_base.specs.LocatedElements.{Located, located, offset_of};
ghost use Rattle.id_table.specs.Model.{asked};
ghost use Rattle.id_table.specs.Slices.{put_first, spots_in};
ghost use Rattle.id_table.specs.Tables.{all_located, AreOnOwnPages};
ghost use Rattle.continuations.specs.Links.{AreLinks};
ghost use Rattle.continuations.specs.Model.{chain_at, AreChainsOf};

use crate::by_place::ByPlace;
use crate::links::Links;
use crate::trail::put_chain;
use bumpalo::Bump;
use bumpalo::collections::into_bump_slice;
use id_table::{Index, Slice};
use ix_base::{NoMemory, Spot};
use std::alloc::Global;
use std::marker::Model;

/// The chains of a set, each found by the place of its first element.
///
/// Contracts see them with their places, in the order in which they were made.
pub struct Chains<'a> {
    chains: ByPlace<'a>,
}

impl Drop for Chains<'_> {
    fn drop(self) {
        let Chains { chains: _ } = self;
    }
}

impl<'a> Model for Chains<'a> {
    ghost use Rattle.std.specs.Prelude.{ℕ, List as Items};
    ghost use Rattle.ix_base.specs.LocatedElements.{Located};
    ghost use Rattle.continuations.specs.Model.{kept_code};

    ghost Value = { Items ((ℕ × ℕ) × Items Located) };

    ghost coded = { kept_code };

    ghost view = { λ c. c.chains };
}

/// Enters a chain at the place of its first element, unless there is one.
fn enter_at_head<'a>(
    kept: &mut ByPlace<'a>,
    head: &Spot<'_>,
    chain: Slice<'a>,
) -> Result<(), NoMemory>
    ensures { OnOk result ((page offset : ℕ) → chain_at kept.new page offset
        ≡ put_first (chain_at kept.old page offset) (is_at page offset (located head.now)) (spots_in chain.entry)) }
{
    let place = head.element.place;
    kept.enter((place.page, place.offset), chain)
}

/// A chain, in the arena.
fn slice_of<'a>(arena: &'a Bump, chain: &[&'a Spot<'a>]) -> Result<Slice<'a>, NoMemory>
    requires { AreOnOwnPages chain.now }
    ensures { IfOk result (λ s. s.spots.now ≡ chain.now) }
{
    let mut kept = Vec::with_capacity(arena, chain.len())?;
    kept.extend_from_slice(chain)?;
    Ok(Slice {
        spots: into_bump_slice(kept),
    })
}

/// Enters a copy of a chain in the arena at the place of its first element, unless there is one.
fn enter_copy<'a>(
    arena: &'a Bump,
    head: &Spot<'_>,
    chain: &[&'a Spot<'a>],
    kept: &mut ByPlace<'a>,
) -> Result<(), NoMemory>
    requires { AreOnOwnPages chain.now }
    ensures { OnOk result ((page offset : ℕ) → chain_at kept.new page offset
        ≡ put_first (chain_at kept.old page offset) (is_at page offset (located head.now)) (all_located chain.now)) }
{
    let slice = slice_of(arena, chain)?;
    enter_at_head(kept, head, slice)
}

/// Enters the chain from a numbered element. It is put in the place of what was in `chain`, and copied from there.
fn enter_chain<'a>(
    arena: &'a Bump,
    index: &Index<'a>,
    links: &Links<'a>,
    number: usize,
    chain: &mut Vec<&'a Spot<'a>>,
    kept: &mut ByPlace<'a>,
) -> Result<(), NoMemory>
    requires links { AreLinks index.now.spots links.now }
    requires number { number < length links.now.spots.items }
    ensures { OnOk result ((e : Located) → slice_get (all_located links.now.spots.items) number ≡ Some e
        → (page offset : ℕ) → chain_at kept.new page offset
        ≡ put_first (chain_at kept.old page offset) (is_at page offset e) (chains.chain (asked index.now) e)) }
{
    match put_chain(index, links, number, chain) {
        Ok(()) => enter_copy(arena, links.spots[number], chain.as_slice(), kept),
        Err(error) => Err(error),
    }
}

/// The chains from all elements with which one begins, by their places.
fn kept_chains<'a>(
    arena: &'a Bump,
    index: &Index<'a>,
    links: &Links<'a>,
) -> Result<ByPlace<'a>, NoMemory>
    requires { AreLinks index.now.spots links.now }
    ensures { IfOk result (λ c. AreChainsOf c index.now.spots) }
{
    let first = links.continuations;
    let mut chain = Vec::new(links.alloc);
    let mut kept = ByPlace::with_capacity(links.alloc, links.spots.len() - first)?;
    for number in first..links.spots.len() {
        enter_chain(arena, index, links, number, &mut chain, &mut kept)?;
    }
    Ok(kept)
}

/// The chains from all elements with which one begins.
pub(crate) fn chains_of<'a>(
    arena: &'a Bump,
    index: &Index<'a>,
    links: &Links<'a>,
) -> Result<Chains<'a>, NoMemory>
    requires { AreLinks index.now.spots links.now }
    ensures { IfOk result (λ c. AreChainsOf c index.now.spots) }
{
    let chains = kept_chains(arena, index, links)?;
    Ok(Chains { chains })
}

/// No chains. It takes no memory.
pub(crate) fn no_chains<'a>(alloc: Global) -> Chains<'a>
    ensures { result ≡ [] }
{
    Chains {
        chains: ByPlace::new(alloc),
    }
}

/// The chain that begins with an element.
fn find<'a>(chains: &ByPlace<'a>, head: &Spot<'_>) -> Option<Slice<'a>>
    ensures { option_map spots_in result ≡ chain_at chains.now (located head.now).page (offset_of (located head.now)) }
{
    let place = head.element.place;
    chains.find((place.page, place.offset))
}

impl<'a> Chains<'a> {
    /// Whether a chain begins with an element. It takes no memory.
    pub fn has(&self, head: &Spot<'_>) -> bool
        ensures { result ≡ is_some (chain_at self.now (located head.now).page (offset_of (located head.now))) }
    {
        find(&self.chains, head).is_some()
    }

    /// The chain from an element with which one begins, itself first. It takes no memory.
    pub fn of(&self, head: &Spot<'a>) -> &'a [&'a Spot<'a>]
        requires { is_some (chain_at self.now (located head.now).page (offset_of (located head.now))) ≡ true }
        ensures chain { chain_at self.now (located head.now).page (offset_of (located head.now)) ≡ Some (all_located result.now) }
        ensures pages { AreOnOwnPages result.now }
    {
        match find(&self.chains, head) {
            Some(slice) => slice.spots,
            None => unreachable!(),
        }
    }
}
