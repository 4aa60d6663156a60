//! The facts of a target, tuples with their members within.
ghost use Rattle.std.specs.Prelude.{◌≡◌, ℕ, All, Contains, true, IfOk};
ghost use Rattle.ix_base.specs.Facts.{Facts, before, facts_of, tuple};
ghost use Rattle.ix_base.specs.Ids.{id_of};
ghost use Rattle.ix_base.specs.LocatedElements as kinds;
ghost use Rattle.ix_base.specs.LocatedElements.{located};
ghost use Rattle.ix_base.specs.Membership as member;
ghost use Rattle.id_table.specs.Tables.{all_located};
ghost use Rattle.target_contents.specs.LinkedSets.{SaysIn};
ghost use Rattle.target_contents.specs.Visits.{AreAmong};
ghost use Rattle.target_contents.specs.TargetFacts.{AreFacts, IsFactOf, members_read, one_less};

use crate::linked::ValuedSet;
use crate::values::item_at;
use fact_view::fact_name;
use facts::ItemFault;
use ix_base::{Fact, Kind, List, NoMemory, OwnName, Spot, Text, Tuple, kind_of};
use link_ids::id_at;
use std::alloc::Global;
use value_forms::is_nil;

/// An item as a fact.
fn item_fact<'a>(
    alloc: Global,
    valued: &ValuedSet<'_, '_, 'a>,
    spot: &Spot<'a>,
) -> Result<Fact, NoMemory>
    requires among { Contains valued.now.elements (located spot.now) }
    requires item { kinds.is_item (located spot.now) ≡ true }
    ensures { IfOk result (λ f. (n : ℕ) → IsFactOf (SaysIn valued.now) valued.now.elements n (located spot.now) f) }
{
    match item_at(alloc, &valued.set, spot) {
        Ok(item) => Ok(Fact::Item(item)),
        Err(ItemFault::Breach(_)) => unreachable!(),
        Err(ItemFault::NoMemory) => Err(NoMemory),
    }
}

/// A tuple with these facts within.
fn tuple_of(alloc: Global, spot: &Spot<'_>, members: List<Fact>) -> Result<Tuple, NoMemory>
    ensures name { IfOk result (λ t. t.name ≡ member.fact_name (located spot.now)) }
    ensures id { IfOk result (λ t. t.id ≡ id_of (located spot.now)) }
    ensures nil { IfOk result (λ t. t.nil ≡ kinds.is_nil (located spot.now)) }
    ensures members { IfOk result (λ t. t.members ≡ members) }
{
    let name = OwnName::of(alloc, fact_name(spot.element))?;
    let id = Text::of_some(alloc, id_at(spot))?;
    Ok(Tuple {
        name,
        id,
        nil: is_nil(spot.element),
        members,
    })
}

/// The same as a fact.
fn tuple_fact(alloc: Global, spot: &Spot<'_>, members: List<Fact>) -> Result<Fact, NoMemory>
    ensures { IfOk result (λ f. (rest : Facts) → before f rest
        ≡ tuple (member.fact_name (located spot.now)) (id_of (located spot.now)) (kinds.is_nil (located spot.now)) (facts_of members)
        rest) }
{
    let tuple = tuple_of(alloc, spot, members)?;
    Ok(Fact::Tuple(tuple))
}

/// The facts within a tuple, where tuples are read so deep.
#[cycle(facts)]
fn members_in<'a>(
    alloc: Global,
    valued: &ValuedSet<'_, '_, 'a>,
    tuple: &Spot<'a>,
    depth: u32,
) -> Result<List<Fact>, NoMemory>
    ensures { IfOk result (λ l. AreFacts (SaysIn valued.now) valued.now.elements (one_less depth)
        (members_read depth valued.now.elements (located tuple.now)) (facts_of l)) }
{
    if depth == 0 {
        return Ok(List::new(alloc));
    }
    let set = &valued.set;
    facts_at(alloc, valued, set.linked.members.of(tuple), depth - 1)
}

/// The facts that these elements are, with those within tuples, read to so many tuples deep.
#[cycle(facts)]
pub(crate) fn facts_at<'a>(
    alloc: Global,
    valued: &ValuedSet<'_, '_, 'a>,
    spots: &[&'a Spot<'a>],
    depth: u32,
) -> Result<List<Fact>, NoMemory>
    requires among { AreAmong valued.now.elements spots.now }
    requires facts { All (λ s. kinds.is_fact (located s.now) ≡ true) spots.now }
    ensures { IfOk result (λ l. AreFacts (SaysIn valued.now) valued.now.elements depth (all_located spots.now) (facts_of l)) }
{
    let mut facts = Vec::with_capacity(alloc, spots.len())?;
    for spot in spots {
        if kind_of(spot) != Kind::Tuple {
            let item = item_fact(alloc, valued, spot)?;
            facts.push(item)?;
            continue;
        }
        let members = members_in(alloc, valued, spot, depth)?;
        let tuple = tuple_fact(alloc, spot, members)?;
        facts.push(tuple)?;
    }
    Ok(List::of(facts))
}
