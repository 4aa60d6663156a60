//! Elements by what they are for links and facts.
ghost use Rattle.std.specs.Prelude.{◌≡◌, ◌++◌, ◌∷◌, [], ◌||◌, filter, OnOk};
ghost use Rattle.ix_base.specs.LocatedElements as located_elements;
ghost use Rattle.ix_base.specs.Elements.{placed};
ghost use Rattle.ix_base.specs.Kinds as kinds;
ghost use Rattle.ix_base.specs.LocatedElements.{located};
ghost use Rattle.std.specs.List.{filter_map};
ghost use Rattle.link_ids.specs.Links.{context_named, unit_named};
ghost use Rattle.id_table.specs.Gathered.{Gathers, texts_of};
ghost use Rattle.id_table.specs.Model.{has_own_target as spec_has_own_target, is_checked as spec_is_checked, is_of_tuples as spec_is_of_tuples};
ghost use Rattle.id_table.specs.Tables.{AreSorted, chain_spots, is_other as spec_is_other, spots_where};

use crate::chain_element::{ChainElement, chain_element};
use crate::named::NamedIds;
use ix_base::{Kind, NoMemory, Spot, attr_of, is_start, token_at};
use link_ids::tuple_ref;
use std::alloc::Global;
use value_forms::is_nil;

/// Elements by what they are, each list in order, so that whoever speaks of facts alone, say, doesn't look at all elements. An element
/// may be in two of them.
pub struct Lists<'a> {
    /// Items and tuples.
    pub facts: Vec<&'a Spot<'a>>,
    /// The items whose values may break a rule.
    pub checked: Vec<&'a Spot<'a>>,
    /// The elements with which chains begin.
    pub starts: Vec<ChainElement<'a>>,
    /// The elements at which others go on.
    pub continuations: Vec<ChainElement<'a>>,
    /// All that are neither.
    pub others: Vec<&'a Spot<'a>>,
    /// The ids of contexts and units that items name, as they were met, but not one again that was the last.
    pub named: NamedIds<'a>,
    /// Whether one of the elements is a tuple or refers to one.
    pub has_tuples: bool,
    /// Whether one of the elements has a target, and not the default one.
    pub has_targets: bool,
}

impl Drop for Lists<'_> {
    fn drop(self) {
        let Lists {
            facts: _,
            checked: _,
            starts: _,
            continuations: _,
            others: _,
            named: _,
            has_tuples: _,
            has_targets: _,
        } = self;
    }
}

/// Adds an element to a list, where it is one for it.
fn push_where<'a>(
    list: &mut Vec<&'a Spot<'a>>,
    spot: &'a Spot<'a>,
    is_one: bool,
) -> Result<(), NoMemory>
    ensures { OnOk result (list.new.items ≡ list.old.items ++ spots_where is_one spot.entry) }
{
    if is_one {
        list.push(spot)?;
    }
    Ok(())
}

/// Adds an element to a list of elements of chains, where it is one for it.
fn push_element_where<'a>(
    list: &mut Vec<ChainElement<'a>>,
    spot: &'a Spot<'a>,
    is_one: bool,
) -> Result<(), NoMemory>
    ensures { OnOk result (chain_spots list.new.items ≡ chain_spots list.old.items ++ spots_where is_one spot.entry) }
{
    if is_one {
        list.push(chain_element(spot))?;
    }
    Ok(())
}

/// Whether an element of a kind is an item whose value may break a rule: it isn't nil, and is a number or has a format.
fn is_checked(spot: &Spot<'_>, kind: Kind) -> bool
    requires { kind ≡ kinds.kind_of (placed spot.now) }
    ensures { result ≡ spec_is_checked (located spot.now) }
{
    let has_form = match kind {
        Kind::NonFraction | Kind::Fraction => true,
        Kind::NonNumeric => attr_of(spot.element, "", "format").is_some(),
        _ => false,
    };
    has_form && !is_nil(spot.element)
}

/// Whether an element of a kind is a tuple or refers to one.
fn is_of_tuples(spot: &Spot<'_>, kind: Kind) -> bool
    requires { kind ≡ kinds.kind_of (placed spot.now) }
    ensures { result ≡ spec_is_of_tuples (located spot.now) }
{
    kind == Kind::Tuple || tuple_ref(spot).is_some()
}

/// Whether an element has a target, and not the default one.
fn has_own_target(spot: &Spot<'_>) -> bool
    ensures { result ≡ spec_has_own_target (located spot.now) }
{
    match token_at(spot.element, "target") {
        Some(target) => !target.is_empty(),
        None => false,
    }
}

impl<'a> Lists<'a> {
    /// Lists of no elements. It takes no memory.
    pub fn new(alloc: Global) -> Lists<'a>
        ensures { AreSorted result [] }
    {
        Lists {
            facts: Vec::new(alloc),
            checked: Vec::new(alloc),
            starts: Vec::new(alloc),
            continuations: Vec::new(alloc),
            others: Vec::new(alloc),
            named: NamedIds::new(alloc),
            has_tuples: false,
            has_targets: false,
        }
    }

    /// Adds an element of a kind at the end.
    pub fn add(&mut self, spot: &'a Spot<'a>, kind: Kind) -> Result<(), NoMemory>
        requires { kind ≡ kinds.kind_of (placed spot.now) }
        ensures facts { OnOk result (self.new.facts.items
            ≡ self.old.facts.items ++ spots_where (located_elements.is_fact (located spot.now)) spot.entry) }
        ensures checked { OnOk result (self.new.checked.items
            ≡ self.old.checked.items ++ spots_where (spec_is_checked (located spot.now)) spot.entry) }
        ensures starts { OnOk result (chain_spots self.new.starts.items
            ≡ chain_spots self.old.starts.items ++ spots_where (located_elements.is_start (located spot.now)) spot.entry) }
        ensures continuations { OnOk result (chain_spots self.new.continuations.items
            ≡ chain_spots self.old.continuations.items ++ spots_where (located_elements.is_continuation (located spot.now)) spot.entry) }
        ensures others { OnOk result (self.new.others.items
            ≡ self.old.others.items ++ spots_where (spec_is_other (located spot.now)) spot.entry) }
        ensures contexts { OnOk result (Gathers (texts_of self.old.named.contexts.items) (texts_of self.new.named.contexts.items)
            (filter_map context_named (filter located_elements.is_item (located spot.now ∷ [])))) }
        ensures units { OnOk result (Gathers (texts_of self.old.named.units.items) (texts_of self.new.named.units.items)
            (filter_map unit_named (filter located_elements.is_item (located spot.now ∷ [])))) }
        ensures tuples { OnOk result (self.new.has_tuples ≡ (self.old.has_tuples || spec_is_of_tuples (located spot.now))) }
        ensures targets { OnOk result (self.new.has_targets ≡ (self.old.has_targets || spec_has_own_target (located spot.now))) }
    {
        self.has_tuples = self.has_tuples || is_of_tuples(spot, kind);
        self.has_targets = self.has_targets || has_own_target(spot);
        let is_fact = kind.is_fact();
        let is_start = is_start(spot);
        let is_continuation = kind == Kind::Continuation;
        self.named.add(spot)?;
        push_where(&mut self.facts, spot, is_fact)?;
        push_where(&mut self.checked, spot, is_checked(spot, kind))?;
        push_element_where(&mut self.starts, spot, is_start)?;
        push_element_where(&mut self.continuations, spot, is_continuation)?;
        push_where(
            &mut self.others,
            spot,
            !is_fact && !is_start && !is_continuation,
        )
    }
}
