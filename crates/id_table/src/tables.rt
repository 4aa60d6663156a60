//! The marked elements of pages, with tables from their ids.
ghost use Rattle.std.specs.Prelude.{◌≡◌, ◌++◌, ◌∷◌, [], OnOk, IfOk, filter, All};
ghost use Rattle.ix_base.specs.Elements.{elements_from, pages_of, path_above, place_of, placed, placed_at};
ghost use Rattle.ix_base.specs.Kinds as kinds;
ghost use Rattle.ix_base.specs.LocatedElements.{located, is_marked as spec_is_marked, page_marked};
ghost use Rattle.ix_base.specs.Spaces.{AreNumbered, spaces_of};
ghost use Rattle.ix_base.specs.Spots.{IsOn, IsOnOnePage, elements_up};
ghost use Rattle.ix_base.specs.Trees.{tree_of};
ghost use Rattle.id_table.specs.Tables.{AreWhole, all_located, elements_above, marked_on};

use crate::entries::{Entries, enter_entry};
use crate::holders::{Holders, enter_tuple};
use crate::lists::Lists;
use bumpalo::Bump;
use ix_base::{Element, Kind, NoMemory, Node, Spot, kind_of};
use std::alloc::Global;
use text_map::TextMap;

/// Elements in order, for each id and tuple id those that have it, and lists of them by what they are.
pub struct Tables<'a> {
    pub spots: Vec<&'a Spot<'a>>,
    pub ids: Entries<'a>,
    pub tuples: Holders<'a>,
    pub lists: Lists<'a>,
    /// Whether an id or a tuple id was met again.
    pub repeats: bool,
}

impl Drop for Tables<'_> {
    fn drop(self) {
        let Tables {
            spots: _,
            ids: _,
            tuples: _,
            lists: _,
            repeats: _,
        } = self;
    }
}

/// A spot of the arena.
fn spot_in<'a>(
    arena: &'a Bump,
    element: &'a Element<'a>,
    up: Option<&'a Spot<'a>>,
) -> Result<&'a Spot<'a>, NoMemory>
    ensures placed { IfOk result (λ s. placed s.now ≡ placed_at (tree_of element.now) (path_above up.entry)) }
    ensures place { IfOk result (λ s. place_of s.now ≡ element.now.place) }
    ensures up { IfOk result (λ s. elements_up s.now ≡ element.now ∷ elements_above up.entry) }
{
    let spot = arena.try_alloc(Spot { element, up })?;
    Ok(spot)
}

impl<'a> Tables<'a> {
    pub fn new(alloc: Global) -> Tables<'a>
        ensures spots { result.spots.items ≡ [] }
        ensures whole { AreWhole result.ids result.tuples result.lists result.repeats result.spots.items }
    {
        Tables {
            spots: Vec::new(alloc),
            ids: TextMap::new(alloc),
            tuples: TextMap::new(alloc),
            lists: Lists::new(alloc),
            repeats: false,
        }
    }

    /// Adds an element of a kind at the end.
    fn add(&mut self, alloc: Global, spot: &'a Spot<'a>, kind: Kind) -> Result<(), NoMemory>
        requires kind { kind ≡ kinds.kind_of (placed spot.now) }
        requires whole { AreWhole self.old.ids self.old.tuples self.old.lists self.old.repeats self.old.spots.items }
        requires page { IsOnOnePage spot.now }
        ensures spots { OnOk result (self.new.spots.items ≡ self.old.spots.items ++ spot.entry ∷ []) }
        ensures whole { OnOk result (AreWhole self.new.ids self.new.tuples self.new.lists self.new.repeats self.new.spots.items) }
    {
        let shares_id = enter_entry(alloc, &mut self.ids, spot, kind)?;
        let shares_tuple_id = enter_tuple(&mut self.tuples, spot)?;
        self.repeats |= shares_id | shares_tuple_id;
        self.lists.add(spot, kind)?;
        self.spots.push(spot)?;
        Ok(())
    }

    /// Adds an element where it is a marked one.
    fn add_marked(&mut self, alloc: Global, spot: &'a Spot<'a>) -> Result<(), NoMemory>
        requires whole { AreWhole self.old.ids self.old.tuples self.old.lists self.old.repeats self.old.spots.items }
        requires page { IsOnOnePage spot.now }
        ensures spots { OnOk result (all_located self.new.spots.items
            ≡ all_located self.old.spots.items ++ filter spec_is_marked (located spot.entry.now ∷ [])) }
        ensures whole { OnOk result (AreWhole self.new.ids self.new.tuples self.new.lists self.new.repeats self.new.spots.items) }
    {
        match kind_of(spot) {
            Kind::Other => Ok(()),
            kind => self.add(alloc, spot, kind),
        }
    }

    /// Adds the marked ones of an element and of all below it, in document order. All of them and those above are of one page.
    fn add_from(
        &mut self,
        alloc: Global,
        arena: &'a Bump,
        element: &'a Element<'a>,
        up: Option<&'a Spot<'a>>,
    ) -> Result<(), NoMemory>
        requires whole { AreWhole self.old.ids self.old.tuples self.old.lists self.old.repeats self.old.spots.items }
        requires page { All (λ p. p ≡ element.now.place.page) (pages_of element.now) }
        requires spaces { AreNumbered (spaces_of element.now) }
        requires above { All (IsOn element.now.place.page) (elements_above up) }
        ensures spots { OnOk result (all_located self.new.spots.items ≡ all_located self.old.spots.items
            ++ marked_on element.now.place.page (elements_from (path_above up.entry) (tree_of element.now))) }
        ensures whole { OnOk result (AreWhole self.new.ids self.new.tuples self.new.lists self.new.repeats self.new.spots.items) }
    {
        let spot = spot_in(arena, element, up)?;
        self.add_marked(alloc, spot)?;
        for node in element.children {
            let Node::Elem(below) = node else {
                continue;
            };
            self.add_from(alloc, arena, below, Some(spot))?;
        }
        Ok(())
    }

    /// Adds the marked elements of a page, in document order.
    pub fn add_page(
        &mut self,
        alloc: Global,
        arena: &'a Bump,
        root: &'a Element<'a>,
    ) -> Result<(), NoMemory>
        requires whole { AreWhole self.old.ids self.old.tuples self.old.lists self.old.repeats self.old.spots.items }
        requires page { All (λ p. p ≡ root.now.place.page) (pages_of root.now) }
        requires spaces { AreNumbered (spaces_of root.now) }
        ensures spots { OnOk result (all_located self.new.spots.items
            ≡ all_located self.old.spots.items ++ page_marked root.now.place.page (tree_of root.now)) }
        ensures whole { OnOk result (AreWhole self.new.ids self.new.tuples self.new.lists self.new.repeats self.new.spots.items) }
    {
        self.add_from(alloc, arena, root, None)
    }
}
