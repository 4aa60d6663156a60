//! The rules on tuples.
ghost use Rattle.std.specs.Prelude.{◌≡◌, ◌++◌, OnOk, OnErr, All, not, false, ◌==◌, length, filter, option_map, is_none};
ghost use Rattle.std.specs.Option.{option_map_or};
ghost use Rattle.ix_base.specs.Fronts.{AppendsFront};
ghost use Rattle.ix_base.specs.Ids as ids;
ghost use Rattle.ix_base.specs.LinkRules as rules_of;
ghost use Rattle.ix_base.specs.LinkRules.{breaking, broken_at, breaks_link};
ghost use Rattle.ix_base.specs.LocatedElements as kinds;
ghost use Rattle.ix_base.specs.Membership as member;
ghost use Rattle.id_table.specs.Model.{asked};
ghost use Rattle.tuples.specs.MemberTables.{AreGrouped};
ghost use Rattle.tuples.specs.OwnedFacts.{all_seen, owner_seen, seen, IsKnown};
ghost use Rattle.tuples.specs.Owners.{are_above};
ghost use Rattle.tuples.specs.Tests.{tuple_rule};

use crate::equal_orders::repeats_order;
use crate::fact::{Fact, Owner};
use crate::groups::Groups;
use crate::owners::owner_on;
use fact_view::target_of;
use id_table::Index;
use ix_base::limits::DEEPEST_TUPLE;
use ix_base::{Breaches, NoMemory, Rule, is_tuple};
use link_ids::tuple_ref;
use value_forms::is_nil;

/// What is asked of each fact.
#[derive(Clone, Copy)]
pub(crate) enum Test {
    /// Its tuple isn't there, or its owner is nil.
    Lacking,
    /// It is a tuple with too many owners above it.
    Deep,
    /// Its target isn't that of its owner.
    Leaving,
    /// Another member of its tuple has its order.
    Repeating,
    /// It has an owner and no order.
    Unordered,
}

impl Test {
    /// The rule on tuples for which a test looks.
    fn tuple_rule(self) -> Rule
        ensures { result ≡ tuple_rule self }
    {
        match self {
            Test::Lacking => Rule::L8,
            Test::Deep => Rule::L9,
            Test::Leaving => Rule::L10,
            Test::Repeating => Rule::L12,
            Test::Unordered => Rule::L13,
        }
    }
}

/// Whether a fact refers to a tuple id that isn't the one of a tuple.
fn misses_tuple(index: &Index<'_>, fact: &Fact<'_>) -> bool
    requires { IsKnown (asked index.now) fact.now }
    ensures { result ≡ option_map_or (λ id. is_none (ids.one_tuple (asked index.now) id)) (member.tuple_ref_of (seen fact.now)) false }
{
    tuple_ref(fact.spot).is_some() && fact.owner.is_none()
}

/// Whether the owner of a fact is nil.
fn has_nil_owner(index: &Index<'_>, fact: &Fact<'_>) -> bool
    requires { IsKnown (asked index.now) fact.now }
    ensures { result ≡ option_map_or kinds.is_nil (member.owner (asked index.now) (seen fact.now)) false }
{
    match fact.owner {
        Some(owner) => is_nil(owner.spot.element),
        None => false,
    }
}

/// Whether the tuple of a fact isn't there, or its owner is nil.
fn lacks_tuple(index: &Index<'_>, fact: &Fact<'_>) -> bool
    requires { IsKnown (asked index.now) fact.now }
    ensures { result ≡ rules_of.lacks_tuple (asked index.now) (seen fact.now) }
{
    misses_tuple(index, fact) || has_nil_owner(index, fact)
}

/// Whether so many owners stand above, from this one on.
fn are_above<'a>(index: &Index<'a>, most: usize, first: Option<Owner<'a>>) -> bool
    ensures { result ≡ are_above (asked index.now) most (option_map owner_seen first.entry) }
{
    let mut at = first;
    for i in 0..most {
        match at {
            None => return false,
            Some(owner) => at = owner_on(index, owner.page, owner.spot),
        }
    }
    true
}

fn has_many_owners<'a>(index: &Index<'a>, fact: &Fact<'a>) -> bool
    requires { IsKnown (asked index.now) fact.now }
    ensures { result ≡ (length (member.owners (asked index.now) member.deepest (seen fact.now)) == member.deepest) }
{
    are_above(index, DEEPEST_TUPLE as usize, fact.owner)
}

/// Whether a tuple has too many owners above it.
fn is_too_deep<'a>(index: &Index<'a>, fact: &Fact<'a>) -> bool
    requires { IsKnown (asked index.now) fact.now }
    ensures { result ≡ rules_of.is_too_deep (asked index.now) (seen fact.now) }
{
    is_tuple(fact.spot) && has_many_owners(index, fact)
}

/// Whether the target of a fact isn't that of its owner.
fn leaves_target(index: &Index<'_>, fact: &Fact<'_>) -> bool
    requires { IsKnown (asked index.now) fact.now }
    ensures { result ≡ rules_of.leaves_target (asked index.now) (seen fact.now) }
{
    match fact.owner {
        Some(owner) => target_of(fact.spot.element) != target_of(owner.spot.element),
        None => false,
    }
}

/// Whether a fact has an owner and no order.
fn lacks_order(index: &Index<'_>, fact: &Fact<'_>) -> bool
    requires { IsKnown (asked index.now) fact.now }
    ensures { result ≡ rules_of.lacks_order (asked index.now) (seen fact.now) }
{
    fact.owner.is_some() && fact.order.is_none()
}

/// Whether a fact breaks a rule.
fn is_broken<'a>(index: &Index<'a>, groups: &Groups<'a>, fact: &Fact<'a>, test: Test) -> bool
    requires known { IsKnown (asked index.now) fact.now }
    requires groups { AreGrouped groups.now index.now.spots }
    ensures { result ≡ breaks_link (asked index.now) (seen fact.now) (tuple_rule test) }
{
    match test {
        Test::Lacking => lacks_tuple(index, fact),
        Test::Deep => is_too_deep(index, fact),
        Test::Leaving => leaves_target(index, fact),
        Test::Repeating => repeats_order(index, groups, fact),
        Test::Unordered => lacks_order(index, fact),
    }
}

/// Adds a fact that breaks a rule.
fn add_if_broken<'a>(
    index: &Index<'a>,
    groups: &Groups<'a>,
    fact: &Fact<'a>,
    test: Test,
    breaches: &mut Breaches,
) -> Result<(), NoMemory>
    requires known { IsKnown (asked index.now) fact.now }
    requires groups { AreGrouped groups.now index.now.spots }
    ensures ok { OnOk result (breaches.new ≡ breaches.old ++ broken_at (asked index.now) (tuple_rule test) (seen fact.now)) }
    ensures err { OnErr result (breaches.new ≡ breaches.old) }
{
    let is_broken = is_broken(index, groups, fact, test);
    breaches.add_if(fact.spot.element.place, test.tuple_rule(), is_broken)
}

/// Adds exactly the facts that break a rule.
pub(crate) fn add_broken<'a>(
    index: &Index<'a>,
    groups: &Groups<'a>,
    facts: &[Fact<'a>],
    test: Test,
    breaches: &mut Breaches,
) -> Result<(), NoMemory>
    requires seen { all_seen facts.now ≡ filter kinds.is_fact index.now.spots }
    requires known { All (IsKnown (asked index.now)) facts.now }
    requires groups { AreGrouped groups.now index.now.spots }
    ensures ok { OnOk result (breaches.new ≡ breaches.old ++ breaking (tuple_rule test) index.now.spots) }
    ensures err { OnErr result (AppendsFront (breaking (tuple_rule test) index.now.spots) breaches.old breaches.new) }
{
    for fact in facts {
        add_if_broken(index, groups, fact, test, breaches)?;
    }
    Ok(())
}
