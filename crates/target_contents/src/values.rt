//! The items of a set, and the rules of values that they break.
ghost use Rattle.std.specs.Prelude.{◌≡◌, ◌<◌, ◌++◌, [], All, Contains, length, true, filter, Some, IfOk, IfSome, OnOk};
ghost use Rattle.ix_base.specs.Asks.{asks};
ghost use Rattle.ix_base.specs.Chain as chains;
ghost use Rattle.ix_base.specs.Elements.{place_of};
ghost use Rattle.ix_base.specs.LocatedElements as kinds;
ghost use Rattle.ix_base.specs.LocatedElements.{base_in, is_kind, located};
ghost use Rattle.ix_base.specs.declared.kind.Kind.TheVariants as kind;
ghost use Rattle.ix_base.specs.declared.content.Item.{Item as ItemOf};
ghost use Rattle.ix_base.specs.declared.rule.Rule.{Rule as RuleOf};
ghost use Rattle.std.specs.Prelude.{Result as ResultOf};
ghost use Rattle.facts.specs.ItemValue.{IsItem};
ghost use Rattle.facts.specs.Verdicts.{rule_said, said};
ghost use Rattle.id_table.specs.Tables.{all_located, AreOnOwnPages};
ghost use Rattle.target_contents.specs.Faults.{AreOfItems, fault_by, value_fault};
ghost use Rattle.target_contents.specs.Visits.{AreAmong};

use crate::linked::LinkedSet;
use facts::{ItemFault, item_of, value_rule};
use ix_base::{Breaches, Item, Kind, NoMemory, Rule, Spot, kind_of};
use std::alloc::Global;

/// The chain of a nonNumeric; for another item nothing.
fn chain_of<'a>(set: &LinkedSet<'_, '_, 'a>, spot: &Spot<'a>) -> &'a [&'a Spot<'a>]
    requires { Contains set.now.elements (located spot.now) }
    ensures chain { is_kind kind.NonNumeric (located spot.now) ≡ true
        → all_located result.now ≡ chains.chain (asks set.now.elements) (located spot.now) }
    ensures pages { All (λ s. (place_of s.now).page < length set.now.bases) result.now }
    ensures own { AreOnOwnPages result.now }
{
    if kind_of(spot) == Kind::NonNumeric {
        set.linked.chains.of(spot)
    } else {
        &[]
    }
}

/// What an item says, or the lowest rule of values that it breaks.
pub(crate) fn item_at<'a>(
    alloc: Global,
    set: &LinkedSet<'_, '_, 'a>,
    spot: &Spot<'a>,
) -> Result<Item, ItemFault>
    requires { Contains set.now.elements (located spot.now) }
    ensures { IfSome (said result) (IsItem (base_in set.now.bases) (asks set.now.elements) (located spot.now)) }
{
    item_of(alloc, spot, chain_of(set, spot), set.linked.bases)
}

/// The lowest rule of values that an item breaks, if it breaks one.
fn rule_at<'a>(
    alloc: Global,
    set: &LinkedSet<'_, '_, 'a>,
    spot: &Spot<'a>,
) -> Result<Option<Rule>, NoMemory>
    requires { Contains set.now.elements (located spot.now) }
    ensures { IfOk result (λ o. (r : ResultOf ItemOf RuleOf) × IsItem (base_in set.now.bases) (asks set.now.elements) (located spot.now) r
        × (rule_said r ≡ o)) }
{
    value_rule(alloc, spot, chain_of(set, spot), set.linked.bases)
}

/// Adds a rule of values that an item breaks.
fn add_at(spot: &Spot<'_>, rule: Rule, found: &mut Breaches) -> Result<(), NoMemory>
    ensures { OnOk result (found.new ≡ found.old ++ fault_by (located spot.now) (Some rule)) }
{
    found.add(spot.element.place, rule)
}

/// Adds the rule of values that an item breaks, if it breaks one.
fn add_value<'a>(
    alloc: Global,
    set: &LinkedSet<'_, '_, 'a>,
    spot: &Spot<'a>,
    found: &mut Breaches,
) -> Result<(), NoMemory>
    requires { Contains set.now.elements (located spot.now) }
    ensures { OnOk result ((r : ResultOf ItemOf RuleOf)
        × IsItem (base_in set.now.bases) (asks set.now.elements) (located spot.now) r
        × (found.new ≡ found.old ++ value_fault (located spot.now) r)) }
{
    match rule_at(alloc, set, spot)? {
        Some(rule) => add_at(spot, rule, found),
        None => Ok(()),
    }
}

/// The rules of values that these items break.
fn faults_among<'a>(
    alloc: Global,
    set: &LinkedSet<'_, '_, 'a>,
    spots: &[&'a Spot<'a>],
) -> Result<Breaches, NoMemory>
    requires { AreAmong set.now.elements spots.now }
    ensures { IfOk result (AreOfItems (IsItem (base_in set.now.bases) (asks set.now.elements)) (all_located spots.now)) }
{
    let mut found = Breaches::new(alloc);
    for spot in spots {
        add_value(alloc, set, spot, &mut found)?;
    }
    Ok(found)
}

/// The rules of values that the items of a set break. Those that break none, as their attributes tell, aren't looked at.
pub fn value_faults(alloc: Global, set: &LinkedSet<'_, '_, '_>) -> Result<Breaches, NoMemory>
    ensures { IfOk result (AreOfItems (IsItem (base_in set.now.bases) (asks set.now.elements))
        (filter kinds.is_item set.now.elements)) }
{
    faults_among(alloc, set, set.linked.index.checked())
}
