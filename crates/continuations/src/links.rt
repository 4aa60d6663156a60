//! The elements of chains, numbered, so that a walk from one to the next takes no look-up.
ghost use Rattle.std.specs.Prelude.{◌≡◌, ◌++◌, ◌∷◌, [], ◌&&◌, ◌||◌, OnOk, IfOk, None, false, is_some, is_none, filter};
ghost use Rattle.std.specs.List.{list_any};
ghost use Rattle.ix_base.specs.LinkRules.{lacks_continuation};
ghost use Rattle.ix_base.specs.LocatedElements.{is_continuation as spec_is_continuation, located};
ghost use Rattle.id_table.specs.Model.{asked};
ghost use Rattle.id_table.specs.Tables.{all_located, chain_spots};
ghost use Rattle.continuations.specs.Links.{AreLinks};
ghost use Rattle.continuations.specs.Numbers.{IsTableOf, numbered_in, nexts_of};

use crate::marks::any_joined;
use crate::numbers::{Numbers, number_behind, number_of};
use id_table::{ChainElement, Index};
use ix_base::{NoMemory, Spot};
use std::alloc::Global;

/// The elements of chains, numbered: so many continuations, and behind them the elements with which chains begin. For
/// each the number of the continuation at which it goes on.
pub(crate) struct Links<'a> {
    /// The allocator with which they were made.
    pub alloc: Global,
    pub spots: Vec<&'a Spot<'a>>,
    pub continuations: usize,
    pub nexts: Vec<Option<usize>>,
    /// Whether an element goes on at an id that isn't the one id of a continuation.
    pub lacks: bool,
    /// Whether two elements go on at one continuation.
    pub joins: bool,
}

impl Drop for Links<'_> {
    fn drop(self) {
        let Links {
            alloc: _,
            spots: _,
            continuations: _,
            nexts: _,
            lacks: _,
            joins: _,
        } = self;
    }
}

/// Whether an element that goes on at an id has found no number there.
fn is_lost(id: Option<&str>, next: Option<usize>) -> bool
    ensures { result ≡ (is_some id.entry && is_none next) }
{
    id.is_some() && next.is_none()
}

/// Elements of chains that were numbered, and the numbers of the continuations at which they go on.
struct Numbered<'a> {
    spots: Vec<&'a Spot<'a>>,
    nexts: Vec<Option<usize>>,
    /// Whether one of them goes on at an id that isn't the one id of a continuation.
    lacks: bool,
    /// Mostly an element goes on behind where the one before it does, so that is tried first.
    likely: usize,
    /// The numbers of the continuations by their ids, where they were needed.
    table: Option<Numbers<'a>>,
}

impl Drop for Numbered<'_> {
    fn drop(self) {
        let Numbered {
            spots: _,
            nexts: _,
            lacks: _,
            likely: _,
            table: _,
        } = self;
    }
}

/// Elements of chains, the numbers at which they go on, and whether one of them lacks its continuation.
type Parts<'a> = (Vec<&'a Spot<'a>>, Vec<Option<usize>>, bool);

impl<'a> Numbered<'a> {
    /// No elements. It takes no memory.
    fn new(alloc: Global) -> Numbered<'a>
        ensures spots { result.spots.items ≡ [] }
        ensures nexts { result.nexts.items ≡ [] }
        ensures lacks { result.lacks ≡ false }
        ensures table { result.table ≡ None }
    {
        Numbered {
            spots: Vec::new(alloc),
            nexts: Vec::new(alloc),
            lacks: false,
            likely: 0,
            table: None,
        }
    }

    /// Numbers an element.
    fn add(
        &mut self,
        alloc: Global,
        index: &Index<'a>,
        continuations: &[ChainElement<'a>],
        element: &ChainElement<'a>,
    ) -> Result<(), NoMemory>
        requires continuations { all_located (chain_spots continuations.now) ≡ filter spec_is_continuation index.now.spots }
        requires table { IsTableOf continuations.now self.old.table }
        ensures spots { OnOk result (self.new.spots.items ≡ self.old.spots.items ++ element.now.spot ∷ []) }
        ensures nexts { OnOk result (numbered_in (filter spec_is_continuation index.now.spots) self.new.nexts.items
            ≡ numbered_in (filter spec_is_continuation index.now.spots) self.old.nexts.items
            ++ nexts_of (asked index.now) (located element.now.spot.now ∷ [])) }
        ensures lacks { OnOk result (self.new.lacks
            ≡ (self.old.lacks || lacks_continuation (asked index.now) (located element.now.spot.now))) }
        ensures table { OnOk result (IsTableOf continuations.now self.new.table) }
    {
        let id = element.continued_at;
        let next = number_of(
            alloc,
            index,
            continuations,
            &mut self.table,
            id,
            self.likely,
        )?;
        self.lacks |= is_lost(id, next);
        self.likely = number_behind(next, continuations.len(), self.likely);
        self.nexts.push(next)?;
        self.spots.push(element.spot)?;
        Ok(())
    }

    /// Numbers elements, one after the other.
    fn add_all(
        &mut self,
        alloc: Global,
        index: &Index<'a>,
        continuations: &[ChainElement<'a>],
        elements: &[ChainElement<'a>],
    ) -> Result<(), NoMemory>
        requires continuations { all_located (chain_spots continuations.now) ≡ filter spec_is_continuation index.now.spots }
        requires table { IsTableOf continuations.now self.old.table }
        ensures spots { OnOk result (self.new.spots.items ≡ self.old.spots.items ++ chain_spots elements.now) }
        ensures nexts { OnOk result (numbered_in (filter spec_is_continuation index.now.spots) self.new.nexts.items
            ≡ numbered_in (filter spec_is_continuation index.now.spots) self.old.nexts.items
            ++ nexts_of (asked index.now) (all_located (chain_spots elements.now))) }
        ensures lacks { OnOk result (self.new.lacks
            ≡ (self.old.lacks || list_any (lacks_continuation (asked index.now)) (all_located (chain_spots elements.now)))) }
        ensures table { OnOk result (IsTableOf continuations.now self.new.table) }
    {
        self.spots.reserve(elements.len())?;
        self.nexts.reserve(elements.len())?;
        for element in elements {
            self.add(alloc, index, continuations, element)?;
        }
        Ok(())
    }

    /// What is kept of them.
    fn into_parts(self) -> Parts<'a>
        ensures { result ≡ (self.entry.spots, self.entry.nexts, self.entry.lacks) }
    {
        let Numbered {
            spots,
            nexts,
            lacks,
            likely: _,
            table: _,
        } = self;
        (spots, nexts, lacks)
    }
}

/// The elements of the chains of a set, numbered, continuations first.
fn number_all<'a>(
    alloc: Global,
    index: &Index<'a>,
    continuations: &[ChainElement<'a>],
    starts: &[ChainElement<'a>],
) -> Result<Parts<'a>, NoMemory>
    requires { all_located (chain_spots continuations.now) ≡ filter spec_is_continuation index.now.spots }
    ensures spots { IfOk result (λ n. n.0.items ≡ chain_spots continuations.now ++ chain_spots starts.now) }
    ensures nexts { IfOk result (λ n. numbered_in (filter spec_is_continuation index.now.spots) n.1.items
        ≡ nexts_of (asked index.now) (all_located (chain_spots continuations.now ++ chain_spots starts.now))) }
    ensures lacks { IfOk result (λ n. n.2
        ≡ list_any (lacks_continuation (asked index.now)) (all_located (chain_spots continuations.now ++ chain_spots starts.now))) }
{
    let mut numbered = Numbered::new(alloc);
    numbered.add_all(alloc, index, continuations, continuations)?;
    numbered.add_all(alloc, index, continuations, starts)?;
    Ok(numbered.into_parts())
}

/// The elements of the chains of a set, numbered.
pub(crate) fn links_of<'a>(alloc: Global, index: &Index<'a>) -> Result<Links<'a>, NoMemory>
    ensures { IfOk result (λ l. AreLinks index.now.spots l) }
{
    let elements = index.continuations();
    let (spots, nexts, lacks) = number_all(alloc, index, elements, index.starts())?;
    let continuations = elements.len();
    let joins = any_joined(alloc, nexts.as_slice(), continuations)?;
    Ok(Links {
        alloc,
        spots,
        continuations,
        nexts,
        lacks,
        joins,
    })
}
