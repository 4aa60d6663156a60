//! Facts by the places of their owners.
ghost use Rattle.std.specs.Prelude.{◌≡◌, ◌++◌, ◌==◌, ◌&&◌, if◌then◌else◌, ℕ, OnOk, IfOk, All, [], ◌∷◌, filter};
ghost use Rattle.ix_base.specs.LocatedElements.{is_fact};
ghost use Rattle.id_table.specs.Model.{asked};
ghost use Rattle.tuples.specs.FactGroups.{group_at, put_at, AreGroups};
ghost use Rattle.tuples.specs.MemberTables.{AreGrouped};
ghost use Rattle.tuples.specs.OwnedFacts.{all_seen, is_owned_at, IsKnown};

use crate::fact::Fact;
use crate::owners::place_of;
use crate::sorting::ranked;
use id_table::Index;
use indexmap::IndexMap;
use ix_base::NoMemory;
use std::alloc::Global;

/// The facts that tuples own, by the places of these.
pub(crate) type Groups<'a> = IndexMap<(u32, u64), Vec<Fact<'a>>>;

/// Takes out what is entered at a place.
fn taken<'a>(alloc: Global, groups: &mut Groups<'a>, key: (u32, u64)) -> Vec<Fact<'a>>
    ensures taken { result.items ≡ group_at groups.old key.0 key.1 }
    ensures left { (page offset : ℕ) → group_at groups.new page offset
        ≡ (if (key.0 == page) && (key.1 == offset) then [] else group_at groups.old page offset) }
{
    match groups.swap_remove(&key) {
        Some(group) => group,
        None => Vec::new(alloc),
    }
}

/// Puts facts at a place at which nothing is entered.
fn put<'a>(groups: &mut Groups<'a>, key: (u32, u64), group: Vec<Fact<'a>>) -> Result<(), NoMemory>
    ensures { OnOk result ((page offset : ℕ) → group_at groups.new page offset
        ≡ (if (key.0 == page) && (key.1 == offset) then group.entry.items else group_at groups.old page offset)) }
{
    groups.insert(key, group)?;
    Ok(())
}

/// Enters a fact at a place.
fn enter_at<'a>(
    alloc: Global,
    groups: &mut Groups<'a>,
    key: (u32, u64),
    fact: Fact<'a>,
) -> Result<(), NoMemory>
    ensures { OnOk result ((page offset : ℕ) → group_at groups.new page offset
        ≡ put_at ((key.0 == page) && (key.1 == offset)) fact.entry (group_at groups.old page offset)) }
{
    let mut group = taken(alloc, groups, key);
    group.push(fact)?;
    put(groups, key, group)
}

/// Enters a fact at the place of its owner, where it has one.
fn enter<'a>(alloc: Global, fact: Fact<'a>, groups: &mut Groups<'a>) -> Result<(), NoMemory>
    ensures { OnOk result ((page offset : ℕ) → group_at groups.new page offset
        ≡ group_at groups.old page offset ++ filter (is_owned_at page offset) (fact.entry ∷ [])) }
{
    if let Some(owner) = fact.owner {
        enter_at(alloc, groups, place_of(owner), fact)?;
    }
    Ok(())
}

/// Enters facts at the places of their owners.
fn entered<'a>(alloc: Global, facts: &[Fact<'a>]) -> Result<Groups<'a>, NoMemory>
    ensures { IfOk result (λ g. (page offset : ℕ) → group_at g page offset ≡ filter (is_owned_at page offset) facts.now) }
{
    let mut groups = IndexMap::new(alloc);
    for fact in facts {
        enter(alloc, *fact, &mut groups)?;
    }
    Ok(groups)
}

/// The facts that tuples own, by the places of these, each list by rising order.
fn groups_of<'a>(alloc: Global, facts: &[Fact<'a>]) -> Result<Groups<'a>, NoMemory>
    ensures { IfOk result (λ g. AreGroups g facts.now) }
{
    let ranks = ranked(alloc, facts)?;
    entered(alloc, ranks.as_slice())
}

/// The members of each tuple, by its place and by rising order.
pub(crate) fn members_of<'a>(
    alloc: Global,
    index: &Index<'a>,
    facts: &[Fact<'a>],
) -> Result<Groups<'a>, NoMemory>
    requires seen { all_seen facts.now ≡ filter is_fact index.now.spots }
    requires known { All (IsKnown (asked index.now)) facts.now }
    ensures { IfOk result (λ g. AreGrouped g index.now.spots) }
{
    groups_of(alloc, facts)
}
