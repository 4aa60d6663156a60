//! The facts of a set, each with its order and its owner.
ghost use Rattle.std.specs.Prelude.{◌≡◌, ◌++◌, OnOk, IfOk, All, true, [], ◌∷◌, filter, option_map};
ghost use Rattle.ix_base.specs.LocatedElements as kinds;
ghost use Rattle.ix_base.specs.LocatedElements.{located};
ghost use Rattle.ix_base.specs.Membership as member;
ghost use Rattle.ix_base.specs.Spots.{IsOnOnePage};
ghost use Rattle.id_table.specs.Model.{asked};
ghost use Rattle.tuples.specs.OrderNumbers.{fits};
ghost use Rattle.tuples.specs.OwnedFacts.{seen, all_seen, IsKnown};

use crate::fact::Fact;
use crate::owners::owner_of;
use id_table::Index;
use ix_base::{NoMemory, Spot, is_fact, token_at};
use std::alloc::Global;

fn order_of<'a>(spot: &Spot<'a>) -> Option<&'a str>
    ensures { option_map (λ s. s.now) result ≡ member.order_of (located spot.now) }
{
    token_at(spot.element, "order")
}

/// A fact with its order and its owner.
fn fact_of<'a>(index: &Index<'a>, spot: &'a Spot<'a>) -> Fact<'a>
    requires fact { kinds.is_fact (located spot.now) ≡ true }
    requires fits { fits (located spot.now) ≡ true }
    requires page { IsOnOnePage spot.now }
    ensures seen { seen result ≡ located spot.entry.now }
    ensures known { IsKnown (asked index.now) result }
{
    Fact {
        spot,
        order: order_of(spot),
        owner: owner_of(index, spot),
    }
}

/// Adds an element at the end, where it is a fact.
fn push_if_fact<'a>(
    index: &Index<'a>,
    spot: &'a Spot<'a>,
    facts: &mut Vec<Fact<'a>>,
) -> Result<(), NoMemory>
    requires fits { fits (located spot.now) ≡ true }
    requires page { IsOnOnePage spot.now }
    requires known { All (IsKnown (asked index.now)) facts.old.items }
    ensures seen { OnOk result (all_seen facts.new.items ≡ all_seen facts.old.items ++ filter kinds.is_fact (located spot.entry.now ∷ [])) }
    ensures known { OnOk result (All (IsKnown (asked index.now)) facts.new.items) }
{
    if is_fact(spot) {
        facts.push(fact_of(index, spot))?;
    }
    Ok(())
}

/// The facts of a set, in order.
pub(crate) fn facts_of<'a>(alloc: Global, index: &Index<'a>) -> Result<Vec<Fact<'a>>, NoMemory>
    requires fits { All (λ e. fits e ≡ true) index.now.spots }
    ensures seen { IfOk result (λ v. all_seen v.items ≡ filter kinds.is_fact index.now.spots) }
    ensures known { IfOk result (λ v. All (IsKnown (asked index.now)) v.items) }
{
    let mut facts = Vec::new(alloc);
    for spot in index.facts() {
        push_if_fact(index, *spot, &mut facts)?;
    }
    Ok(facts)
}
