//! The marked elements of the pages, found by id, and what was chosen for ids that several have.
ghost use Rattle.std.specs.Prelude.{◌≡◌, ◌++◌, [], ℕ, List, OnOk, OnErr, IfSome, IsErr, true, false, filter, if◌then◌else◌, bytes_eq, is_some, option_map, map, flat_map, All, Bool};
ghost use Rattle.std.specs.List.{list_any};
ghost use Rattle.std.specs.Option.{option_map_or};
ghost use Rattle.ix_base.specs.declared.kind.Kind.{Kind as KindOf};
ghost use Rattle.ix_base.specs.declared.rule.Rule.TheVariants.{L1};
ghost use Rattle.ix_base.specs.Asks.{if_such};
ghost use Rattle.ix_base.specs.Elements.{placed, pages_of};
ghost use Rattle.ix_base.specs.Fronts.{AppendsFront};
ghost use Rattle.ix_base.specs.Ids as ids;
ghost use Rattle.ix_base.specs.Kinds as kinds;
ghost use Rattle.ix_base.specs.LinkRules.{breaking};
ghost use Rattle.ix_base.specs.LocatedElements.{Located, is_continuation, is_fact, is_kind, is_start, located, page_marked};
ghost use Rattle.ix_base.specs.Spaces.{AreNumbered, spaces_of};
ghost use Rattle.ix_base.specs.Spots.{IsOnOnePage};
ghost use Rattle.ix_base.specs.Trees.{tree_of};
ghost use Rattle.id_table.specs.Gathered.{AreGathered};
ghost use Rattle.id_table.specs.Model.{AreChosen, AreUnowned, IsApart, IsHeldFor, IsHolder, IsOfOthers, asked, chosen, doubled_at, has_own_target, is_checked, is_of_tuples, one_held};
ghost use Rattle.id_table.specs.Tables.{AreOnOwnPages, all_located, chain_spots, is_other};

use crate::chain_element::ChainElement;
use crate::choices::{choice_in, chosen_or_only, set_choice};
use crate::doubled::add_if_doubled;
use crate::entries::{Entry, entries_in, entry_at};
use crate::holders::{count_in, one_in};
use crate::kept::Kept;
use crate::named::NamedIds;
use bumpalo::Bump;
use ix_base::{Breaches, Element, NoMemory, Spot};
use std::alloc::Global;
use std::marker::Model;

/// The marked elements of the pages that were added, in order, with tables from their ids, and what was chosen for ids that several of
/// them have.
///
/// Contracts see the elements, the choices, and whether memory was wanting. Once it was, the index has no elements, and takes none.
pub struct Index<'a> {
    alloc: Global,
    kept: Kept<'a>,
    /// What is shown of an id that no element has.
    none: Vec<Entry<'a>>,
    is_spent: bool,
}

impl Drop for Index<'_> {
    fn drop(self) {
        let Index {
            alloc: _,
            kept: _,
            none: _,
            is_spent: _,
        } = self;
    }
}

impl<'a> Model for Index<'a> {
    ghost use Rattle.std.specs.Prelude.{◌≡◌, []};
    ghost use Rattle.id_table.specs.Model.{Held};
    ghost use Rattle.id_table.specs.ModelCodes.{held_code};
    ghost use Rattle.id_table.specs.Tables.{IsIndexed, all_located, choices_of};

    ghost Value = { Held };

    ghost coded = { held_code };

    ghost view = { λ t. record {
      spots = all_located t.kept.tables.spots.items;
      choices = choices_of t.kept.choices;
      is_spent = t.is_spent;
    } };

    ghost invariant = { λ t. IsIndexed t.kept.tables.ids t.kept.tables.tuples t.kept.tables.lists t.kept.tables.repeats
        t.kept.tables.spots.items t.kept.choices t.none };
}

impl<'a> Index<'a> {
    /// An index of no pages. It takes no memory.
    pub fn new(alloc: Global) -> Index<'a>
        ensures { result ≡ record { spots = []; choices = []; is_spent = false } }
    {
        Index {
            alloc,
            kept: Kept::new(alloc),
            none: Vec::new(alloc),
            is_spent: false,
        }
    }

    /// Adds the marked elements of a page, in document order. The choices stay as they are. Where memory is wanting, the index has no
    /// elements from then on, and each call answers so.
    pub fn add_page(&mut self, arena: &'a Bump, root: &'a Element<'a>) -> Result<(), NoMemory>
        requires page { All (λ p. p ≡ root.now.place.page) (pages_of root.now) }
        requires spaces { AreNumbered (spaces_of root.now) }
        ensures ok { OnOk result (self.new ≡ record {
          spots = self.old.spots ++ page_marked root.now.place.page (tree_of root.now);
          choices = self.old.choices;
          is_spent = false;
        }) }
        ensures err { OnErr result (self.new ≡ record { spots = []; choices = []; is_spent = true }) }
        ensures spent { self.old.is_spent ≡ true → IsErr result }
    {
        if self.is_spent || self.kept.tables.add_page(self.alloc, arena, root).is_err() {
            self.kept.clear(self.alloc);
            self.is_spent = true;
            return Err(NoMemory);
        }
        Ok(())
    }

    /// Lets a choice stand for an id that several have, or takes it away. Where memory is wanting, the index has no elements from then
    /// on, and each call answers so.
    pub fn choose(&mut self, id: &str, choice: Option<&'a Spot<'a>>) -> Result<(), NoMemory>
        requires holder { IfSome choice (λ s. IsHolder self.old.spots id.now (located s.now)) }
        requires page { IfSome choice (λ s. IsOnOnePage s.now) }
        ensures spots { OnOk result ((self.new.spots ≡ self.old.spots) × (self.new.is_spent ≡ false)) }
        ensures choices { OnOk result ((q : List ℕ) → chosen self.new q
            ≡ (if bytes_eq q id.now then option_map (λ s. located s.now) choice.entry else chosen self.old q)) }
        ensures err { OnErr result (self.new ≡ record { spots = []; choices = []; is_spent = true }) }
        ensures spent { self.old.is_spent ≡ true → IsErr result }
    {
        if self.is_spent {
            self.kept.clear(self.alloc);
            return Err(NoMemory);
        }
        match set_choice(&mut self.kept.choices, id, choice) {
            Ok(()) => Ok(()),
            Err(_) => {
                self.kept.clear(self.alloc);
                self.is_spent = true;
                Err(NoMemory)
            }
        }
    }

    /// The elements in order. It takes no memory.
    pub fn spots(&self) -> &[&'a Spot<'a>]
        ensures elements { all_located result.now ≡ self.now.spots }
        ensures pages { AreOnOwnPages result.now }
    {
        self.kept.tables.spots.as_slice()
    }

    /// The items and tuples, in order. It takes no memory.
    pub fn facts(&self) -> &[&'a Spot<'a>]
        ensures elements { all_located result.now ≡ filter is_fact self.now.spots }
        ensures pages { AreOnOwnPages result.now }
    {
        self.kept.tables.lists.facts.as_slice()
    }

    /// The items whose values may break a rule, in order: those that aren't nil, and are numbers or have a format. It takes no memory.
    pub fn checked(&self) -> &[&'a Spot<'a>]
        ensures elements { all_located result.now ≡ filter is_checked self.now.spots }
        ensures pages { AreOnOwnPages result.now }
    {
        self.kept.tables.lists.checked.as_slice()
    }

    /// The ids of the contexts and units that items name, in order, but not again where the item before names it, too. It takes no
    /// memory.
    pub fn named(&self) -> &NamedIds<'a>
        ensures { AreGathered self.now.spots result.now }
    {
        &self.kept.tables.lists.named
    }

    /// The elements with which chains begin, in order, each with its ids. It takes no memory.
    pub fn starts(&self) -> &[ChainElement<'a>]
        ensures elements { all_located (chain_spots result.now) ≡ filter is_start self.now.spots }
        ensures pages { AreOnOwnPages (chain_spots result.now) }
    {
        self.kept.tables.lists.starts.as_slice()
    }

    /// The continuations, in order, each with its ids. It takes no memory.
    pub fn continuations(&self) -> &[ChainElement<'a>]
        ensures elements { all_located (chain_spots result.now) ≡ filter is_continuation self.now.spots }
        ensures pages { AreOnOwnPages (chain_spots result.now) }
    {
        self.kept.tables.lists.continuations.as_slice()
    }

    /// The elements that are neither facts nor of chains, in order: contexts, units, references, relationships and what is around
    /// them. It takes no memory.
    pub fn others(&self) -> &[&'a Spot<'a>]
        ensures elements { all_located result.now ≡ filter is_other self.now.spots }
        ensures pages { AreOnOwnPages result.now }
    {
        self.kept.tables.lists.others.as_slice()
    }

    /// The marked elements with the id, as they were added, each with its kind. It takes no memory.
    pub fn holders(&self, id: &str) -> &[Entry<'a>]
        ensures elements { map (λ e. located e.spot.now) result.now ≡ ids.holders self.now.spots id.now }
        ensures kinds { All (λ e. e.kind ≡ kinds.kind_of (placed e.spot.now)) result.now }
        ensures pages { All (λ e. IsOnOnePage e.spot.now) result.now }
    {
        entries_in(&self.kept.tables.ids, &self.none, id)
    }

    /// What was chosen for the id, or without a choice the one marked element with it; none where there is no choice and their number
    /// isn't one. Whatever was chosen, it is of no other kind than the only one with the id would be, but for contexts and units. It takes
    /// no memory.
    pub fn one(&self, id: &str) -> Option<Entry<'a>>
        ensures element { option_map (λ e. located e.spot.now) result ≡ one_held self.now id.now }
        ensures kind { IfSome result (λ e. e.kind ≡ kinds.kind_of (placed e.spot.now)) }
        ensures page { IfSome result (λ e. IsOnOnePage e.spot.now) }
        ensures held { IfSome result (λ e. IsHeldFor self.now.spots id.now (located e.spot.now)) }
        ensures stands { AreChosen self.now → (k : KindOf)
            → option_map_or (λ e. is_kind k (located e.spot.now)) result false ≡ ids.stands_for k (asked self.now) id.now }
        ensures others { (p : Located → Bool) → IsOfOthers p
            → if_such p (option_map (λ e. located e.spot.now) result) ≡ ids.one_such p (asked self.now) id.now }
    {
        chosen_or_only(
            choice_in(&self.kept.choices, id),
            entries_in(&self.kept.tables.ids, &self.none, id),
        )
    }

    /// The tuple with the tuple id, none where their number isn't one. It takes no memory.
    pub fn one_tuple(&self, id: &str) -> Option<Entry<'a>>
        ensures element { option_map (λ e. located e.spot.now) result ≡ ids.one_tuple (asked self.now) id.now }
        ensures kind { IfSome result (λ e. e.kind ≡ kinds.kind_of (placed e.spot.now)) }
        ensures page { IfSome result (λ e. IsOnOnePage e.spot.now) }
    {
        entry_at(one_in(&self.kept.tables.tuples, id))
    }

    /// Whether something was chosen for the id.
    pub(crate) fn is_chosen(&self, id: &str) -> bool
        ensures { result ≡ is_some (chosen self.now id.now) }
    {
        choice_in(&self.kept.choices, id).is_some()
    }

    /// How many marked elements have the id.
    pub(crate) fn count(&self, id: &str) -> usize
        ensures { result ≡ (asked self.now).count (ids.holds_id id.now) }
    {
        entries_in(&self.kept.tables.ids, &self.none, id).len()
    }

    /// How many tuples have the tuple id.
    pub(crate) fn count_tuples(&self, id: &str) -> usize
        ensures { result ≡ (asked self.now).count (ids.holds_tuple_id id.now) }
    {
        count_in(&self.kept.tables.tuples, id)
    }

    /// Whether an id or a tuple id was met again. It takes no memory.
    pub fn has_repeats(&self) -> bool
        ensures apart { result ≡ false → IsApart self.now }
        ensures met { result ≡ true → ¬ IsApart self.now }
    {
        self.kept.tables.repeats
    }

    /// Whether one of the elements is a tuple or refers to one. It takes no memory.
    pub fn has_tuples(&self) -> bool
        ensures tuples { result ≡ list_any is_of_tuples self.now.spots }
        ensures unowned { result ≡ false → AreUnowned self.now.spots }
    {
        self.kept.tables.lists.has_tuples
    }

    /// Whether one of the elements has a target, and not the default one. It takes no memory.
    pub fn has_targets(&self) -> bool
        ensures { result ≡ list_any has_own_target self.now.spots }
    {
        self.kept.tables.lists.has_targets
    }

    /// Adds exactly the elements of each id that several have and for which nothing was chosen, and the tuples that share a
    /// tuple id. Where the choices are those that the elements ask for, these are those that break the rule on doubled ids.
    /// After a refusal a front of them may have been added. An index for which memory was wanting refuses, and adds none.
    pub fn doubled(&self, breaches: &mut Breaches) -> Result<(), NoMemory>
        ensures ok { OnOk result (breaches.new ≡ breaches.old ++ flat_map (doubled_at self.now) self.now.spots) }
        ensures err { OnErr result (AppendsFront (flat_map (doubled_at self.now) self.now.spots) breaches.old breaches.new) }
        ensures chosen { AreChosen self.now → flat_map (doubled_at self.now) self.now.spots ≡ breaking L1 self.now.spots }
        ensures spent { self.now.is_spent ≡ true → IsErr result × (breaches.new ≡ breaches.old) }
    {
        if self.is_spent {
            return Err(NoMemory);
        }
        if !self.has_repeats() {
            return Ok(());
        }
        for spot in self.spots() {
            add_if_doubled(self, spot, breaches)?;
        }
        Ok(())
    }
}
