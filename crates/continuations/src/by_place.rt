//! Chains by the places of their first elements.
ghost use Rattle.std.specs.Prelude.{◌≡◌, ◌<◌, ◌==◌, ◌&&◌, [], ℕ, OnOk, IfOk, IfSome, Some, true, length, option_map};
ghost use Rattle.std.specs.Map.{lookup};
ghost use Rattle.std.specs.Ordering.{is_lt};
ghost use Rattle.id_table.specs.Slices.{is_key, put_first, spots_in};
ghost use Rattle.continuations.specs.ByPlace.{AreBefore, AreNotBefore, IsBehind, IsRising};
ghost use Rattle.continuations.specs.Model.{chain_at};
ghost use Rattle.continuations.specs.Nesting.{key_cmp};

use id_table::{Slice, Slices, enter_slice, slice_in};
use ix_base::NoMemory;
use std::alloc::Global;
use std::marker::Model;

/// A place: the number of a page, and an offset in it.
pub(crate) type Key = (u32, u64);

/// So many slots may have the number of one chain.
const PROBES: usize = 8;

/// What stands in a slot that is free.
const BLANK: u32 = u32::MAX;

/// Places that are so many bytes apart get slots of their own.
const APART: u64 = 32;

/// The slots of one page are far from those of another.
const MIXER: u64 = 0x9E37_79B9_7F4A_7C15;

/// Chains by the places of their first elements. As long as they come in the order of these places, as those of pages do
/// that were added in the order of their numbers, they are kept in this order, and found where a hint says, or else by halving.
///
/// Contracts see them with their places.
pub(crate) struct ByPlace<'a> {
    front: Vec<(Key, Slice<'a>)>,
    /// Numbers of those in order, where they are looked for first. None of them is relied on.
    hints: Vec<u32>,
    /// All chains from the first on that came out of order.
    rest: Slices<'a>,
}

impl Drop for ByPlace<'_> {
    fn drop(self) {
        let ByPlace {
            front: _,
            hints: _,
            rest: _,
        } = self;
    }
}

impl<'a> Model for ByPlace<'a> {
    ghost use Rattle.std.specs.Prelude.{ℕ, List as Items};
    ghost use Rattle.ix_base.specs.LocatedElements.{Located};
    ghost use Rattle.continuations.specs.ByPlace.{chains_in, IsRising};
    ghost use Rattle.continuations.specs.Model.{kept_code};

    ghost Value = { Items ((ℕ × ℕ) × Items Located) };

    ghost coded = { kept_code };

    ghost view = { λ c. chains_in c.front.items c.rest };

    ghost invariant = { λ c. IsRising c.front.items };
}

/// Whether a place is before another.
fn is_before(place: Key, other: Key) -> bool
    ensures { result ≡ is_lt (key_cmp place other) }
{
    place < other
}

/// How many of these chains are before a place, by halving.
fn count_before(chains: &[(Key, Slice<'_>)], place: Key) -> usize
    requires { IsRising chains.now }
    ensures before { AreBefore place result chains.now }
    ensures behind { AreNotBefore place result chains.now }
{
    let mut low = 0;
    let mut high = chains.len();
    while low < high {
        let middle = low + (high - low) / 2;
        if is_before(chains[middle].0, place) {
            low = middle + 1;
        } else {
            high = middle;
        }
    }
    low
}

/// The chain at a place, by halving.
fn find_by_halving<'a>(chains: &[(Key, Slice<'a>)], place: Key) -> Option<Slice<'a>>
    requires { IsRising chains.now }
    ensures { result ≡ lookup (is_key place.0 place.1) chains.now }
{
    let number = count_before(chains, place);
    if number >= chains.len() {
        return None;
    }
    let entry = chains[number];
    if place == entry.0 {
        Some(entry.1)
    } else {
        None
    }
}

/// The slot from which on the number of the chain at a place is noted, of so many. Places that follow each other have slots that do, so
/// that whoever goes through a page finds them at hand.
fn slot_of(place: Key, count: usize) -> usize
    requires { 0 < count }
    ensures { result < count }
{
    let page = (place.0 as u64).wrapping_mul(MIXER);
    let number = (place.1 / APART).wrapping_add(page);
    number as usize % count
}

/// Notes the number of the chain at a place in the first free one of a few slots, where one of them is free.
fn note(hints: &mut [u32], place: Key, number: usize)
    ensures { length hints.new ≡ length hints.old }
{
    let Ok(number) = u32::try_from(number) else {
        return;
    };
    if hints.len() <= PROBES {
        return;
    }
    let first = slot_of(place, hints.len() - PROBES);
    for step in 0..PROBES {
        if hints[first + step] == BLANK {
            hints[first + step] = number;
            return;
        }
    }
}

/// The chain at a place, where its number was noted. Whatever is noted, no other chain is given.
fn find_noted<'a>(chains: &[(Key, Slice<'a>)], hints: &[u32], place: Key) -> Option<Slice<'a>>
    requires { IsRising chains.now }
    ensures { IfSome result (λ s. lookup (is_key place.0 place.1) chains.now ≡ Some s) }
{
    if hints.len() <= PROBES {
        return None;
    }
    let first = slot_of(place, hints.len() - PROBES);
    for step in 0..PROBES {
        let number = hints[first + step] as usize;
        if number >= chains.len() {
            return None;
        }
        let entry = chains[number];
        if place == entry.0 {
            return Some(entry.1);
        }
    }
    None
}

/// The chain at a place.
fn find_in<'a>(chains: &[(Key, Slice<'a>)], hints: &[u32], place: Key) -> Option<Slice<'a>>
    requires { IsRising chains.now }
    ensures { result ≡ lookup (is_key place.0 place.1) chains.now }
{
    match find_noted(chains, hints, place) {
        Some(chain) => Some(chain),
        None => find_by_halving(chains, place),
    }
}

/// Whether none came out of order, and a place is behind those of all in order.
fn is_next(front: &[(Key, Slice<'_>)], rest: &Slices<'_>, place: Key) -> bool
    requires { IsRising front.now }
    ensures rest { result ≡ true → rest.now.entries ≡ [] }
    ensures behind { result ≡ true → IsBehind place front.now }
{
    if !rest.is_empty() {
        return false;
    }
    let count = front.len();
    count == 0 || is_before(front[count - 1].0, place)
}

impl<'a> ByPlace<'a> {
    /// No chains. It takes no memory.
    pub fn new(alloc: Global) -> ByPlace<'a>
        ensures { result ≡ [] }
    {
        ByPlace {
            front: Vec::new(alloc),
            hints: Vec::new(alloc),
            rest: Slices::new(alloc),
        }
    }

    /// No chains, with room for so many in order.
    pub fn with_capacity(alloc: Global, count: usize) -> Result<ByPlace<'a>, NoMemory>
        ensures { IfOk result (λ c. c ≡ []) }
    {
        Ok(ByPlace {
            front: Vec::with_capacity(alloc, count)?,
            hints: vec![in alloc; BLANK; count.saturating_mul(2).saturating_add(PROBES)]?,
            rest: Slices::new(alloc),
        })
    }

    /// Keeps a chain at a place, unless one is kept there.
    pub fn enter(&mut self, place: Key, chain: Slice<'a>) -> Result<(), NoMemory>
        ensures { OnOk result ((page offset : ℕ) → chain_at self.new page offset
            ≡ put_first (chain_at self.old page offset) ((place.0 == page) && (place.1 == offset)) (spots_in chain.entry)) }
    {
        if is_next(self.front.as_slice(), &self.rest, place) {
            let number = self.front.len();
            self.front.push((place, chain))?;
            note(self.hints.as_mut_slice(), place, number);
            return Ok(());
        }
        enter_slice(&mut self.rest, place, chain)
    }

    /// The chain at a place. It takes no memory.
    pub fn find(&self, place: Key) -> Option<Slice<'a>>
        ensures { option_map spots_in result ≡ chain_at self.now place.0 place.1 }
    {
        match find_in(self.front.as_slice(), self.hints.as_slice(), place) {
            Some(chain) => Some(chain),
            None => slice_in(&self.rest, place),
        }
    }
}
