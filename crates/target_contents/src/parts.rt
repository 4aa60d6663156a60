//! The contexts and the units that items name.
ghost use Rattle.std.specs.Prelude.{◌≡◌, ◌++◌, ◌∷◌, [], filter, IfOk, OnOk};
ghost use Rattle.std.specs.List.{filter_map};
ghost use Rattle.ix_base.specs.Ids.{context_for, unit_for};
ghost use Rattle.ix_base.specs.LocatedElements as kinds;
ghost use Rattle.ix_base.specs.Once.{in_order};
ghost use Rattle.ix_base.specs.SortedLists.{text_cmp};
ghost use Rattle.id_table.specs.Gathered.{Gathers};
ghost use Rattle.id_table.specs.Model.{AreChosen};
ghost use Rattle.id_table.specs.Tables.{all_located};
ghost use Rattle.link_ids.specs.Links.{context_named, unit_named};
ghost use Rattle.target_contents.specs.Named.{AreNamed};
ghost use Rattle.target_contents.specs.Visits.{values_of};

use id_table::{Index, NamedIds};
use ix_base::{Context, Kind, List, NoMemory, Spot, Unit, each_once};
use std::alloc::Global;
use xbrl_parts::{read_context, read_unit};

/// The ids that the items among these elements name. Those that the item before names, too, aren't there again.
fn each_named<'a>(alloc: Global, spots: &[&'a Spot<'a>]) -> Result<NamedIds<'a>, NoMemory>
    ensures contexts { IfOk result (λ n. Gathers [] (values_of n.contexts.items)
        (filter_map context_named (filter kinds.is_item (all_located spots.now)))) }
    ensures units { IfOk result (λ n. Gathers [] (values_of n.units.items)
        (filter_map unit_named (filter kinds.is_item (all_located spots.now)))) }
{
    let mut named = NamedIds::new(alloc);
    for spot in spots {
        named.add(spot)?;
    }
    Ok(named)
}

/// The ids that the items among these elements name, in order, each once.
pub(crate) fn ids_named<'a>(alloc: Global, spots: &[&'a Spot<'a>]) -> Result<NamedIds<'a>, NoMemory>
    ensures { IfOk result (AreNamed (all_located spots.now)) }
{
    let mut named = each_named(alloc, spots)?;
    each_once(&mut named.contexts);
    each_once(&mut named.units);
    Ok(named)
}

/// Ids in order, each once.
fn once_each<'a>(alloc: Global, ids: &[&'a str]) -> Result<Vec<&'a str>, NoMemory>
    ensures { IfOk result (λ v. values_of v.items ≡ in_order text_cmp (values_of ids.now)) }
{
    let mut once = Vec::new(alloc);
    once.extend_from_slice(ids)?;
    each_once(&mut once);
    Ok(once)
}

/// The ids that the items of a set name, in order, each once.
pub(crate) fn all_named<'a>(alloc: Global, index: &Index<'a>) -> Result<NamedIds<'a>, NoMemory>
    ensures { IfOk result (AreNamed index.now.spots) }
{
    let gathered = index.named();
    let contexts = once_each(alloc, gathered.contexts.as_slice())?;
    let units = once_each(alloc, gathered.units.as_slice())?;
    Ok(NamedIds { contexts, units })
}

/// The context with an id, where there is one.
fn context_with(alloc: Global, index: &Index<'_>, id: &str) -> Result<Option<Context>, NoMemory>
    requires { AreChosen index.now }
    ensures { IfOk result (λ o. o ≡ context_for index.now.spots id.now) }
{
    let Some(entry) = index.one(id) else {
        return Ok(None);
    };
    if entry.kind != Kind::Context {
        return Ok(None);
    }
    read_context(alloc, entry.spot.element)
}

/// Adds the context of an id, where there is one.
fn push_context(
    alloc: Global,
    index: &Index<'_>,
    id: &str,
    contexts: &mut List<Context>,
) -> Result<(), NoMemory>
    requires { AreChosen index.now }
    ensures { OnOk result (contexts.new ≡ contexts.old ++ filter_map (context_for index.now.spots) (id.now ∷ [])) }
{
    if let Some(context) = context_with(alloc, index, id)? {
        contexts.push(context)?;
    }
    Ok(())
}

/// The contexts of these ids.
fn contexts_of(alloc: Global, index: &Index<'_>, ids: &[&str]) -> Result<List<Context>, NoMemory>
    requires { AreChosen index.now }
    ensures { IfOk result (λ l. l ≡ filter_map (context_for index.now.spots) (values_of ids.now)) }
{
    let mut contexts = List::new(alloc);
    for id in ids {
        push_context(alloc, index, *id, &mut contexts)?;
    }
    Ok(contexts)
}

/// The unit with an id, where there is one.
fn unit_with(alloc: Global, index: &Index<'_>, id: &str) -> Result<Option<Unit>, NoMemory>
    requires { AreChosen index.now }
    ensures { IfOk result (λ o. o ≡ unit_for index.now.spots id.now) }
{
    let Some(entry) = index.one(id) else {
        return Ok(None);
    };
    if entry.kind != Kind::Unit {
        return Ok(None);
    }
    read_unit(alloc, entry.spot.element)
}

/// Adds the unit of an id, where there is one.
fn push_unit(
    alloc: Global,
    index: &Index<'_>,
    id: &str,
    units: &mut List<Unit>,
) -> Result<(), NoMemory>
    requires { AreChosen index.now }
    ensures { OnOk result (units.new ≡ units.old ++ filter_map (unit_for index.now.spots) (id.now ∷ [])) }
{
    if let Some(unit) = unit_with(alloc, index, id)? {
        units.push(unit)?;
    }
    Ok(())
}

/// The units of these ids.
fn units_of(alloc: Global, index: &Index<'_>, ids: &[&str]) -> Result<List<Unit>, NoMemory>
    requires { AreChosen index.now }
    ensures { IfOk result (λ l. l ≡ filter_map (unit_for index.now.spots) (values_of ids.now)) }
{
    let mut units = List::new(alloc);
    for id in ids {
        push_unit(alloc, index, *id, &mut units)?;
    }
    Ok(units)
}

/// The contexts and the units of these ids.
pub(crate) fn parts_of(
    alloc: Global,
    index: &Index<'_>,
    named: &NamedIds<'_>,
) -> Result<(List<Context>, List<Unit>), NoMemory>
    requires { AreChosen index.now }
    ensures contexts { IfOk result (λ p. p.0 ≡ filter_map (context_for index.now.spots) (values_of named.now.contexts.items)) }
    ensures units { IfOk result (λ p. p.1 ≡ filter_map (unit_for index.now.spots) (values_of named.now.units.items)) }
{
    let contexts = contexts_of(alloc, index, named.contexts.as_slice())?;
    let units = units_of(alloc, index, named.units.as_slice())?;
    Ok((contexts, units))
}
