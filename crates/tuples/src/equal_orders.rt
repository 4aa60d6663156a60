//! Members of one tuple with equal orders.
ghost use Rattle.std.specs.Prelude.{◌≡◌, ◌≤◌, true, false, length, filter, nat_lt};
ghost use Rattle.std.specs.List.Sorted.{IsPartitionPoint, IsSortedBy};
ghost use Rattle.ix_base.specs.LinkRules as rules_of;
ghost use Rattle.id_table.specs.Model.{asked};
ghost use Rattle.tuples.specs.FactGroups.{group_at, is_earlier};
ghost use Rattle.tuples.specs.MemberTables.{AreGrouped};
ghost use Rattle.tuples.specs.OwnedFacts.{all_seen, seen, IsKnown};

use crate::fact::Fact;
use crate::groups::Groups;
use crate::owners::place_of;
use crate::sorting::compare;
use id_table::Index;
use std::cmp::Ordering;

/// Whether both have an order, and one.
fn have_same_order(x: &Fact<'_>, y: &Fact<'_>) -> bool
    ensures { result ≡ rules_of.same_order (seen x.now) (seen y.now) }
{
    match (x.order, y.order) {
        (Some(_), Some(_)) => compare(x, y) == Ordering::Equal,
        _ => false,
    }
}

/// How many of some facts in rising order have a lesser order than this one.
fn earlier_than(facts: &[Fact<'_>], fact: &Fact<'_>) -> usize
    requires { IsSortedBy is_earlier facts.now }
    ensures bound { result ≤ length facts.now }
    ensures parts { IsPartitionPoint (λ f. is_earlier f fact.now ≡ true) (λ f. is_earlier f fact.now ≡ false) facts.now result }
{
    facts.partition_point(|other| compare(other, fact) == Ordering::Less)
}

/// Whether more than one of some facts in rising order has the order of this one.
fn is_order_repeated(facts: &[Fact<'_>], fact: &Fact<'_>) -> bool
    requires { IsSortedBy is_earlier facts.now }
    ensures { result ≡ nat_lt 1 (length (filter (rules_of.same_order (seen fact.now)) (all_seen facts.now))) }
{
    let second = earlier_than(facts, fact) + 1;
    second < facts.len() && have_same_order(fact, &facts[second])
}

/// Whether more than one member at a place has the order of this one.
fn is_order_repeated_at(groups: &Groups<'_>, key: (u32, u64), fact: &Fact<'_>) -> bool
    requires { IsSortedBy is_earlier (group_at groups.now key.0 key.1) }
    ensures { result ≡ nat_lt 1 (length (filter (rules_of.same_order (seen fact.now)) (all_seen (group_at groups.now key.0 key.1)))) }
{
    match groups.get(&key) {
        Some(group) => is_order_repeated(group.as_slice(), fact),
        None => false,
    }
}

/// Whether another member of a fact's tuple has its order.
pub(crate) fn repeats_order(index: &Index<'_>, groups: &Groups<'_>, fact: &Fact<'_>) -> bool
    requires known { IsKnown (asked index.now) fact.now }
    requires groups { AreGrouped groups.now index.now.spots }
    ensures { result ≡ rules_of.repeats_order (asked index.now) (seen fact.now) }
{
    match fact.owner {
        Some(owner) => is_order_repeated_at(groups, place_of(owner), fact),
        None => false,
    }
}
