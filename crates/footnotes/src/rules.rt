//! The rules on relationships, and the call that asks them and gives the relations of a set.
ghost use Rattle.std.specs.Prelude.{◌≡◌, ◌++◌, ◌&&◌, ◌||◌, IfOk, OnOk, OnErr, All, not, filter, find, bytes_eq, option_map, is_some, true};
ghost use Rattle.std.specs.List.{list_any};
ghost use Rattle.ix_base.specs.Fronts.{AppendsFront};
ghost use Rattle.ix_base.specs.LinkRules as rules_of;
ghost use Rattle.ix_base.specs.LinkRules.{breaking, broken_at, breaks_link, is_relationship};
ghost use Rattle.ix_base.specs.LocatedElements as kinds;
ghost use Rattle.ix_base.specs.LocatedElements.{Located, located};
ghost use Rattle.ix_base.specs.declared.rule.Rule.TheVariants.{L11, L15, L16};
ghost use Rattle.id_table.specs.Model.{asked};
ghost use Rattle.id_table.specs.Tables.{all_located};
ghost use Rattle.footnotes.specs.Model.{AreRelationsOf};
ghost use Rattle.footnotes.specs.NamedEnds.{seen, all_seen, IsKnown};
ghost use Rattle.footnotes.specs.Tests.{relationship_rule};

use crate::arcs::groups_of;
use crate::footnote_links::{Relations, relations_from};
use crate::relationships::{Relationship, is_footnote, relationships_of, target_at};
use bumpalo::Bump;
use id_table::Index;
use ix_base::{Breaches, NoMemory, Rule, Spot, is_fact};
use std::alloc::Global;

/// What is asked of each relationship.
#[derive(Clone, Copy)]
enum Test {
    /// An end from which it goes isn't a fact.
    Sources,
    /// An end to which it goes is no fact and no footnote, or there are both.
    Ends,
    /// It goes to a fact, and two of its facts differ in target.
    Targets,
}

impl Test {
    /// The rule on relationships for which a test looks.
    fn relationship_rule(self) -> Rule
        ensures { result ≡ relationship_rule self }
    {
        match self {
            Test::Sources => Rule::L11,
            Test::Ends => Rule::L15,
            Test::Targets => Rule::L16,
        }
    }
}

/// The first fact among some elements.
fn first_fact<'a>(spots: &[&'a Spot<'a>]) -> Option<&'a Spot<'a>>
    ensures { option_map (λ s. located s.now) result ≡ find kinds.is_fact (all_located spots.now) }
{
    for spot in spots {
        if is_fact(spot) {
            return Some(*spot);
        }
    }
    None
}

/// Whether a fact is among some elements.
fn has_fact(spots: &[&Spot<'_>]) -> bool
    ensures { result ≡ is_some (find kinds.is_fact (all_located spots.now)) }
{
    first_fact(spots).is_some()
}

/// Whether a footnote is among some elements.
fn has_footnote(spots: &[&Spot<'_>]) -> bool
    ensures { result ≡ list_any rules_of.is_footnote (all_located spots.now) }
{
    for spot in spots {
        if is_footnote(spot) {
            return true;
        }
    }
    false
}

/// Whether an element is a fact of another target than this one.
fn differs_in_target(spot: &Spot<'_>, target: &str) -> bool
    ensures { result
        ≡ (kinds.is_fact (located spot.now) && not (bytes_eq target.now (rules_of.target_of (located spot.now)))) }
{
    is_fact(spot) && target != target_at(spot)
}

/// Whether a fact of another target than this one is among some elements.
fn any_differs_in_target(spots: &[&Spot<'_>], target: &str) -> bool
    ensures { result
        ≡ list_any (λ e. kinds.is_fact e && not (bytes_eq target.now (rules_of.target_of e))) (all_located spots.now) }
{
    for spot in spots {
        if differs_in_target(spot, target) {
            return true;
        }
    }
    false
}

/// Whether a fact of another target than this one is among some elements or among others.
fn ends_differ_in_target(sources: &[&Spot<'_>], ends: &[&Spot<'_>], target: &str) -> bool
    ensures { let differs = λ (e : Located). kinds.is_fact e && not (bytes_eq target.now (rules_of.target_of e)) in
        result ≡ (list_any differs (all_located sources.now) || list_any differs (all_located ends.now)) }
{
    any_differs_in_target(sources, target) || any_differs_in_target(ends, target)
}

/// Whether an end from which a relationship goes isn't a fact.
fn comes_from_nothing(index: &Index<'_>, relationship: &Relationship<'_>) -> bool
    requires known { IsKnown (asked index.now) relationship.now }
    requires is { is_relationship (seen relationship.now) ≡ true }
    ensures { result ≡ rules_of.comes_from_nothing (asked index.now) (seen relationship.now) }
{
    relationship.sources.is_missing
}

/// Whether both a fact and a footnote are among some elements.
fn has_both(spots: &[&Spot<'_>]) -> bool
    ensures { result
        ≡ (is_some (find kinds.is_fact (all_located spots.now)) && list_any rules_of.is_footnote (all_located spots.now)) }
{
    has_fact(spots) && has_footnote(spots)
}

/// Whether an end to which a relationship goes is no fact and no footnote, or there are both.
fn goes_to_nothing(index: &Index<'_>, relationship: &Relationship<'_>) -> bool
    requires known { IsKnown (asked index.now) relationship.now }
    requires is { is_relationship (seen relationship.now) ≡ true }
    ensures { result ≡ rules_of.goes_to_nothing (asked index.now) (seen relationship.now) }
{
    relationship.ends.is_missing || has_both(relationship.ends.spots)
}

/// Whether a relationship goes to a fact, and two of its facts differ in target: whether one differs from the first fact
/// to which it goes.
fn crosses_targets(index: &Index<'_>, relationship: &Relationship<'_>) -> bool
    requires known { IsKnown (asked index.now) relationship.now }
    requires is { is_relationship (seen relationship.now) ≡ true }
    ensures { result ≡ rules_of.crosses_targets (asked index.now) (seen relationship.now) }
{
    match first_fact(relationship.ends.spots) {
        Some(first) => ends_differ_in_target(
            relationship.sources.spots,
            relationship.ends.spots,
            target_at(first),
        ),
        None => false,
    }
}

/// Whether a relationship breaks a rule.
fn is_broken(index: &Index<'_>, relationship: &Relationship<'_>, test: Test) -> bool
    requires known { IsKnown (asked index.now) relationship.now }
    requires is { is_relationship (seen relationship.now) ≡ true }
    ensures { result ≡ breaks_link (asked index.now) (seen relationship.now) (relationship_rule test) }
{
    match test {
        Test::Sources => comes_from_nothing(index, relationship),
        Test::Ends => goes_to_nothing(index, relationship),
        Test::Targets => crosses_targets(index, relationship),
    }
}

/// Adds a relationship that breaks a rule.
fn add_if_broken(
    index: &Index<'_>,
    relationship: &Relationship<'_>,
    test: Test,
    breaches: &mut Breaches,
) -> Result<(), NoMemory>
    requires known { IsKnown (asked index.now) relationship.now }
    requires is { is_relationship (seen relationship.now) ≡ true }
    ensures ok { OnOk result (breaches.new
        ≡ breaches.old ++ broken_at (asked index.now) (relationship_rule test) (seen relationship.now)) }
    ensures err { OnErr result (breaches.new ≡ breaches.old) }
{
    let is_broken = is_broken(index, relationship, test);
    breaches.add_if(
        relationship.spot.element.place,
        test.relationship_rule(),
        is_broken,
    )
}

/// Adds exactly the relationships that break a rule.
fn add_broken(
    index: &Index<'_>,
    relationships: &[Relationship<'_>],
    test: Test,
    breaches: &mut Breaches,
) -> Result<(), NoMemory>
    requires seen { all_seen relationships.now ≡ filter is_relationship index.now.spots }
    requires known { All (IsKnown (asked index.now)) relationships.now }
    ensures ok { OnOk result (breaches.new ≡ breaches.old ++ breaking (relationship_rule test) index.now.spots) }
    ensures err { OnErr result (AppendsFront (breaking (relationship_rule test) index.now.spots) breaches.old breaches.new) }
{
    for relationship in relationships {
        add_if_broken(index, relationship, test, breaches)?;
    }
    Ok(())
}

/// Adds exactly the breaches of the rules on relationships.
fn add_breaches<'a>(
    index: &Index<'a>,
    relationships: &[Relationship<'a>],
    breaches: &mut Breaches,
) -> Result<(), NoMemory>
    requires seen { all_seen relationships.now ≡ filter is_relationship index.now.spots }
    requires known { All (IsKnown (asked index.now)) relationships.now }
    ensures ok { OnOk result (breaches.new ≡ breaches.old ++ breaking L11 index.now.spots ++ breaking L15 index.now.spots
        ++ breaking L16 index.now.spots) }
    ensures err { OnErr result (AppendsFront (breaking L11 index.now.spots ++ breaking L15 index.now.spots
        ++ breaking L16 index.now.spots) breaches.old breaches.new) }
{
    add_broken(index, relationships, Test::Sources, breaches)?;
    add_broken(index, relationships, Test::Ends, breaches)?;
    add_broken(index, relationships, Test::Targets, breaches)
}

/// The relations that some relationships make.
fn relations_by<'a>(
    alloc: Global,
    arena: &'a Bump,
    index: &Index<'a>,
    relationships: &[Relationship<'a>],
) -> Result<Relations<'a>, NoMemory>
    requires seen { all_seen relationships.now ≡ filter is_relationship index.now.spots }
    requires known { All (IsKnown (asked index.now)) relationships.now }
    ensures { IfOk result (λ r. AreRelationsOf r index.now.spots) }
{
    let groups = groups_of(alloc, arena, index, relationships)?;
    Ok(relations_from(groups))
}

/// Adds exactly the breaches of the rules on relationships, and gives the relations that these make.
fn related<'a>(
    alloc: Global,
    arena: &'a Bump,
    index: &Index<'a>,
    relationships: &[Relationship<'a>],
    breaches: &mut Breaches,
) -> Result<Relations<'a>, NoMemory>
    requires seen { all_seen relationships.now ≡ filter is_relationship index.now.spots }
    requires known { All (IsKnown (asked index.now)) relationships.now }
    ensures relations { IfOk result (λ r. AreRelationsOf r index.now.spots) }
    ensures ok { OnOk result (breaches.new ≡ breaches.old ++ breaking L11 index.now.spots ++ breaking L15 index.now.spots
        ++ breaking L16 index.now.spots) }
    ensures err { OnErr result (AppendsFront (breaking L11 index.now.spots ++ breaking L15 index.now.spots
        ++ breaking L16 index.now.spots) breaches.old breaches.new) }
{
    add_breaches(index, relationships, breaches)?;
    relations_by(alloc, arena, index, relationships)
}

/// Adds exactly the breaches of the rules on relationships, and gives the relations of the set, also where there are
/// breaches. Each id of a relationship is looked up once, and none of its arcs is made. After a refusal a front of the
/// breaches may have been added.
pub fn relate<'a>(
    alloc: Global,
    arena: &'a Bump,
    index: &Index<'a>,
    breaches: &mut Breaches,
) -> Result<Relations<'a>, NoMemory>
    ensures breaches { OnOk result (breaches.new ≡ breaches.old ++ breaking L11 index.now.spots ++ breaking L15 index.now.spots
        ++ breaking L16 index.now.spots) }
    ensures err { OnErr result (AppendsFront (breaking L11 index.now.spots ++ breaking L15 index.now.spots
        ++ breaking L16 index.now.spots) breaches.old breaches.new) }
    ensures relations { IfOk result (λ r. AreRelationsOf r index.now.spots) }
{
    let relationships = relationships_of(alloc, arena, index)?;
    related(alloc, arena, index, relationships.as_slice(), breaches)
}
