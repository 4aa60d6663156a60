//! The contents of the targets of a set.
ghost use Rattle.std.specs.Prelude.{◌≡◌, ◌≤◌, ◌++◌, ◌∷◌, [], ◌&&◌, ◌==◌, All, length, map, filter, not, is_some, true, IfOk, OnOk};
ghost use Rattle.std.specs.List.{flat_map, list_any};
ghost use Rattle.ix_base.specs.Asks.{asks};
ghost use Rattle.ix_base.specs.LocatedElements.{base_in, is_fact, is_item, located};
ghost use Rattle.ix_base.specs.LinkRules as rules;
ghost use Rattle.ix_base.specs.Facts.{facts_of};
ghost use Rattle.ix_base.specs.Membership.{deepest};
ghost use Rattle.ix_base.specs.declared.limits.TheConstants.{DEEPEST_TUPLE};
ghost use Rattle.id_table.specs.Gathered.{Gathers};
ghost use Rattle.id_table.specs.Model.{has_own_target};
ghost use Rattle.id_table.specs.Tables.{all_located};
ghost use Rattle.instance_lines.specs.Elements.{lines_of_facts};
ghost use Rattle.instance_lines.specs.Writable.{IsWritable, depth};
ghost use Rattle.tuples.specs.Model.{AreMembersOf, owner_in};
ghost use Rattle.target_contents.specs.Contents as contents;
ghost use Rattle.target_contents.specs.Contents.{IsContent, IsGathered, target_names};
ghost use Rattle.target_contents.specs.LinkedSets.{IsValued, SaysIn, all_of};
ghost use Rattle.target_contents.specs.SetOutcomes.{AreAllTargets, AreTargets, CanBeWritten};
ghost use Rattle.target_contents.specs.Visits.{AreAmong, values_of};
ghost use Rattle.target_contents.specs.TargetFacts.{AreFacts};

use crate::facts_in::facts_at;
use crate::groups::{at, groups_of};
use crate::linked::{LinkedSet, ValuedSet};
use crate::links::Linked;
use crate::notes::{arcroles_for, notes_for, roles_for};
use crate::outcome::{Outcome, Target};
use crate::parts::{ids_named, parts_of};
use crate::references::{addresses_at, linkbases_at};
use fact_view::target_of;
use id_table::Index;
use instance_lines::arrange_with_lines;
use ix_base::limits::DEEPEST_TUPLE;
use ix_base::{
    Content, Context, Fact, Kind, Linkbase, List, NoMemory, Spot, Text, Unit, each_once, kind_of,
    push_unlike,
};
use std::alloc::Global;
use tuples::Members;

/// Adds an element that has no owner.
fn push_outer<'a>(
    members: &Members<'a>,
    spot: &'a Spot<'a>,
    outer: &mut Vec<&'a Spot<'a>>,
) -> Result<(), NoMemory>
    ensures { OnOk result (all_located outer.new.items ≡ all_located outer.old.items
        ++ filter (λ e. not (is_some (owner_in members.now e))) (located spot.entry.now ∷ [])) }
{
    if members.owner(spot).is_none() {
        outer.push(spot)?;
    }
    Ok(())
}

/// Those of some elements that have no owner. Where a set has no tuples, these are all.
fn outer_of<'a>(
    alloc: Global,
    linked: &Linked<'_, 'a>,
    spots: &[&'a Spot<'a>],
) -> Result<Vec<&'a Spot<'a>>, NoMemory>
    requires members { AreMembersOf linked.now.members (all_of linked.now) }
    requires among { AreAmong (all_of linked.now) spots.now }
    ensures { IfOk result (λ v. all_located v.items
        ≡ filter (λ e. not (is_some (owner_in linked.now.members e))) (all_located spots.now)) }
{
    let mut outer = Vec::with_capacity(alloc, spots.len())?;
    if !linked.index.has_tuples() {
        outer.extend_from_slice(spots)?;
        return Ok(outer);
    }
    for spot in spots {
        push_outer(&linked.members, *spot, &mut outer)?;
    }
    Ok(outer)
}

/// The addresses of the schemas of a target.
fn schemas_for<'a>(
    alloc: Global,
    valued: &ValuedSet<'_, '_, 'a>,
    target: &str,
) -> Result<List<Text>, NoMemory>
    ensures { IfOk result (λ l. l
        ≡ map (rules.address_of (base_in valued.now.bases)) (filter (rules.is_schema_for target.now) valued.now.elements)) }
{
    let spots = at(&valued.groups.schemas, &valued.groups.none, target);
    let set = &valued.set;
    addresses_at(alloc, set.linked.bases, spots)
}

/// The references to linkbases of a target.
fn linkbases_for<'a>(
    alloc: Global,
    valued: &ValuedSet<'_, '_, 'a>,
    target: &str,
) -> Result<List<Linkbase>, NoMemory>
    ensures { IfOk result (λ l. l
        ≡ map (contents.linkbase_at (base_in valued.now.bases)) (filter (contents.is_linkbase_for target.now) valued.now.elements)) }
{
    let spots = at(&valued.groups.linkbases, &valued.groups.none, target);
    let set = &valued.set;
    linkbases_at(alloc, set.linked.bases, spots)
}

/// Whether all facts of a set are of a target: it is the default one, and all targets are.
fn are_all_of(index: &Index<'_>, target: &str) -> bool
    ensures is { result ≡ (not (list_any has_own_target index.now.spots) && (length target.now == 0)) }
    ensures items { result ≡ true → filter is_item index.now.spots ≡ filter (contents.is_item_of target.now) index.now.spots }
{
    !index.has_targets() && target.is_empty()
}

/// The contexts and the units that the items of a target name. The items aren't looked through where all are of the target.
fn parts_for<'a>(
    alloc: Global,
    valued: &ValuedSet<'_, '_, 'a>,
    target: &str,
) -> Result<(List<Context>, List<Unit>), NoMemory>
    ensures contexts { IfOk result (λ p. p.0 ≡ contents.contexts_of valued.now.elements target.now) }
    ensures units { IfOk result (λ p. p.1 ≡ contents.units_of valued.now.elements target.now) }
{
    let set = &valued.set;
    let linked = set.linked;
    if are_all_of(linked.index, target) {
        return parts_of(alloc, linked.index, &linked.named);
    }
    let named = ids_named(alloc, valued.facts_of(target))?;
    parts_of(alloc, linked.index, &named)
}

/// The facts of a target, members within their tuples.
fn facts_for<'a>(
    alloc: Global,
    valued: &ValuedSet<'_, '_, 'a>,
    target: &str,
) -> Result<List<Fact>, NoMemory>
    ensures facts { IfOk result (λ l. AreFacts (SaysIn valued.now) valued.now.elements deepest
        (filter (contents.is_outer (asks valued.now.elements) target.now) valued.now.elements) (facts_of l)) }
    ensures shallow { IfOk result (λ l. depth (facts_of l) ≤ DEEPEST_TUPLE) }
{
    let set = &valued.set;
    let outer = outer_of(alloc, set.linked, valued.facts_of(target))?;
    facts_at(alloc, valued, outer.as_slice(), DEEPEST_TUPLE)
}

/// What the elements of a set say of a target, each list as they come.
fn gathered<'a>(
    alloc: Global,
    valued: &ValuedSet<'_, '_, 'a>,
    target: &str,
) -> Result<Content, NoMemory>
    ensures gathered { IfOk result (IsGathered (base_in valued.now.bases) valued.now.elements target.now) }
    ensures writable { IfOk result IsWritable }
{
    let schemas = schemas_for(alloc, valued, target)?;
    let linkbases = linkbases_for(alloc, valued, target)?;
    let (contexts, units) = parts_for(alloc, valued, target)?;
    let facts = facts_for(alloc, valued, target)?;
    let notes = notes_for(alloc, &valued.set, target)?;
    let roles = roles_for(alloc, &valued.set, notes.as_slice())?;
    let arcroles = arcroles_for(alloc, &valued.set, notes.as_slice())?;
    Ok(Content {
        notes,
        roles,
        arcroles,
        schemas,
        linkbases,
        contexts,
        units,
        facts,
    })
}

/// The content of a target, and the lines of its facts.
fn content_of<'a>(
    alloc: Global,
    valued: &ValuedSet<'_, '_, 'a>,
    target: &str,
) -> Result<(Content, List<Text>), NoMemory>
    ensures content { IfOk result (λ p. IsContent (base_in valued.now.bases) valued.now.elements target.now p.0) }
    ensures written { IfOk result (λ p. IsWritable p.0) }
    ensures lines { IfOk result (λ p. p.1 ≡ lines_of_facts p.0) }
{
    let content = gathered(alloc, valued, target)?;
    arrange_with_lines(alloc, content)
}

/// Adds the target that an element has, if it has one and this isn't the last target.
fn push_target<'a>(spot: &Spot<'a>, names: &mut Vec<&'a str>) -> Result<(), NoMemory>
    ensures { OnOk result (Gathers (values_of names.old.items) (values_of names.new.items) (contents.targets_at (located spot.now))) }
{
    let kind = kind_of(spot);
    if kind.is_fact() || kind == Kind::References {
        push_unlike(names, target_of(spot.element))?;
    }
    Ok(())
}

/// The targets that elements have. Those that the element before has, too, aren't there again.
fn each_target<'a>(alloc: Global, spots: &[&'a Spot<'a>]) -> Result<Vec<&'a str>, NoMemory>
    ensures { IfOk result (λ v. Gathers [] (values_of v.items) (flat_map contents.targets_at (all_located spots.now))) }
{
    let mut names = Vec::new(alloc);
    for spot in spots {
        push_target(*spot, &mut names)?;
    }
    Ok(names)
}

/// Whether a set has facts, and all targets are the default one.
fn has_only_default(index: &Index<'_>) -> bool
    ensures is { result ≡ (not (list_any has_own_target index.now.spots) && not (length (filter is_fact index.now.spots) == 0)) }
    ensures names { result ≡ true → target_names index.now.spots ≡ [] ∷ [] }
{
    !index.has_targets() && !index.facts().is_empty()
}

/// The default target alone.
fn only_default<'a>(alloc: Global) -> Result<Vec<&'a str>, NoMemory>
    ensures { IfOk result (λ v. values_of v.items ≡ [] ∷ []) }
{
    let mut names = Vec::new(alloc);
    names.push("")?;
    Ok(names)
}

/// The targets of a set, in byte order, each once.
fn names_of<'a>(alloc: Global, index: &Index<'a>) -> Result<Vec<&'a str>, NoMemory>
    ensures { IfOk result (λ v. values_of v.items ≡ target_names index.now.spots) }
{
    if has_only_default(index) {
        return only_default(alloc);
    }
    let mut names = each_target(alloc, index.spots())?;
    each_once(&mut names);
    Ok(names)
}

/// A target with its content.
fn target_named<'a>(
    alloc: Global,
    valued: &ValuedSet<'_, '_, 'a>,
    name: &str,
) -> Result<Target, NoMemory>
    ensures name { IfOk result (λ t. t.name ≡ name.now) }
    ensures content { IfOk result (λ t. IsContent (base_in valued.now.bases) valued.now.elements t.name t.content) }
    ensures written { IfOk result (λ t. IsWritable t.content) }
{
    let own = Text::of(alloc, name)?;
    let (content, lines) = content_of(alloc, valued, name)?;
    Ok(Target::of(own, content, lines))
}

/// The targets of these names.
fn targets_named<'a>(
    alloc: Global,
    valued: &ValuedSet<'_, '_, 'a>,
    names: &[&str],
) -> Result<List<Target>, NoMemory>
    ensures targets { IfOk result (AreTargets (base_in valued.now.bases) valued.now.elements (values_of names.now)) }
    ensures written { IfOk result (All (λ t. IsWritable t.content)) }
{
    let mut targets = List::new(alloc);
    for name in names {
        let target = target_named(alloc, valued, *name)?;
        targets.push(target)?;
    }
    Ok(targets)
}

/// The targets of a set, each with its content.
fn targets_of(alloc: Global, valued: &ValuedSet<'_, '_, '_>) -> Result<List<Target>, NoMemory>
    ensures targets { IfOk result (AreTargets (base_in valued.now.bases) valued.now.elements (target_names valued.now.elements)) }
    ensures written { IfOk result (All (λ t. IsWritable t.content)) }
{
    let set = &valued.set;
    let names = names_of(alloc, set.linked.index)?;
    targets_named(alloc, valued, names.as_slice())
}

/// All targets of a set whose items break no rule of values.
pub fn all_targets(alloc: Global, set: LinkedSet<'_, '_, '_>) -> Result<Outcome, NoMemory>
    requires { IsValued set }
    ensures whole { IfOk result (AreAllTargets (base_in set.entry.bases) set.entry.elements) }
    ensures written { IfOk result CanBeWritten }
{
    let groups = groups_of(alloc, set.linked.index)?;
    let valued = ValuedSet { set, groups };
    let targets = targets_of(alloc, &valued)?;
    Ok(Outcome::Whole(targets))
}
