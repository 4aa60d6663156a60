//! The rules on links that a set breaks.
ghost use Rattle.std.specs.Prelude.{◌≡◌, ◌++◌, [], ◌<◌, ◌&&◌, ℕ, true, List, length, filter, not, All, IfOk, OnOk};
ghost use Rattle.std.specs.List.{flat_map, list_all, list_any};
ghost use Rattle.ix_base.specs.Asks.{are_some};
ghost use Rattle.ix_base.specs.declared.rule.Rule.TheVariants as rule;
ghost use Rattle.ix_base.specs.Ids as id_rules;
ghost use Rattle.ix_base.specs.LocatedElements.{base_in, located};
ghost use Rattle.ix_base.specs.LinkRules as rules;
ghost use Rattle.ix_base.specs.LinkRules.{breaking, broken};
ghost use Rattle.ix_base.specs.Once.{SameMembers};
ghost use Rattle.continuations.specs.Model.{AreChainsOf};
ghost use Rattle.footnotes.specs.Model.{AreRelationsOf};
ghost use Rattle.id_table.specs.Model.{AreChosen, asked, has_own_target};
ghost use Rattle.id_table.specs.Tables.{all_located, spots_at};
ghost use Rattle.tuples.specs.OrderNumbers.{fits};
ghost use Rattle.tuples.specs.Model.{AreMembersOf};
ghost use Rattle.target_contents.specs.Faults.{redirected_at, refs_at};
ghost use Rattle.target_contents.specs.Named.{AreNamed, all_stand};
ghost use Rattle.target_contents.specs.RoleAddresses.{SeesAll};

use crate::addresses::{SeenRoles, add_redirected};
use crate::groups::{Group, grouped};
use crate::parts::all_named;
use bumpalo::Bump;
use continuations::{Chains, link};
use fact_view::target_of;
use facts::refs_of;
use footnotes::{Relations, relate};
use id_table::{Holders, Index, NamedIds, count_in};
use ix_base::{Breaches, Kind, NoMemory, Rule, Spot, is_fact};
use scopes::Bases;
use std::alloc::Global;
use tuples::{Members, membership};

/// A set with what was made of its links.
pub struct Linked<'s, 'a> {
    pub(crate) index: &'s Index<'a>,
    pub(crate) bases: &'s Bases,
    pub(crate) named: NamedIds<'a>,
    pub(crate) chains: Chains<'a>,
    pub(crate) members: Members<'a>,
    pub(crate) relations: Relations<'a>,
    pub(crate) seen_roles: SeenRoles<'a>,
}

impl Drop for Linked<'_, '_> {
    fn drop(self) {
        let Linked {
            index: _,
            bases: _,
            named: _,
            chains: _,
            members: _,
            relations: _,
            seen_roles: _,
        } = self;
    }
}

/// Whether an element of a kind stands for an id.
fn stands_for(index: &Index<'_>, kind: Kind, id: &str) -> bool
    requires { AreChosen index.now }
    ensures { result ≡ id_rules.stands_for kind (asked index.now) id.now }
{
    index.one(id).is_some_and(|entry| entry.kind == kind)
}

/// Whether an element of a kind stands for each of these ids.
fn each_stands(index: &Index<'_>, kind: Kind, ids: &[&str]) -> bool
    requires { AreChosen index.now }
    ensures { result ≡ list_all (λ id. id_rules.stands_for kind (asked index.now) id.now) ids.now }
{
    for id in ids {
        if !stands_for(index, kind, *id) {
            return false;
        }
    }
    true
}

/// Whether each context and each unit that items name is there.
fn are_there(index: &Index<'_>, named: &NamedIds<'_>) -> bool
    requires { AreChosen index.now }
    ensures { result ≡ all_stand index.now.spots named.now }
{
    each_stands(index, Kind::Context, named.contexts.as_slice())
        && each_stands(index, Kind::Unit, named.units.as_slice())
}

/// Adds the facts whose context or unit isn't there, fact by fact.
fn add_each(index: &Index<'_>, found: &mut Breaches) -> Result<(), NoMemory>
    requires { AreChosen index.now }
    ensures { OnOk result (found.new ≡ found.old ++ flat_map (refs_at (asked index.now)) index.now.spots) }
{
    for spot in index.facts() {
        refs_of(spot, index, found)?;
    }
    Ok(())
}

/// Adds the items whose context isn't there, and the numbers whose unit isn't there. They aren't looked through where all that items name
/// is there.
fn add_refs(index: &Index<'_>, named: &NamedIds<'_>, found: &mut Breaches) -> Result<(), NoMemory>
    requires chosen { AreChosen index.now }
    requires named { AreNamed index.now.spots named.now }
    ensures { OnOk result (found.new ≡ found.old ++ flat_map (refs_at (asked index.now)) index.now.spots) }
{
    if are_there(index, named) {
        return Ok(());
    }
    add_each(index, found)
}

/// Whether a fact's target has no schema.
fn lacks_schema(index: &Index<'_>, schemas: &Holders<'_>, spot: &Spot<'_>) -> bool
    requires { (target : List ℕ) → all_located (spots_at schemas.now target) ≡ filter (rules.is_schema_for target) index.now.spots }
    ensures { result ≡ rules.lacks_schema (asked index.now) (located spot.now) }
{
    is_fact(spot) && count_in(schemas, target_of(spot.element)) == 0
}

/// Whether all targets are the default one, and it has a schema.
fn has_default_schema(index: &Index<'_>, schemas: &Holders<'_>) -> bool
    requires { (target : List ℕ) → all_located (spots_at schemas.now target) ≡ filter (rules.is_schema_for target) index.now.spots }
    ensures is { result ≡ (not (list_any has_own_target index.now.spots) && are_some (asked index.now) (rules.is_schema_for [])) }
    ensures unbroken { result ≡ true → breaking rule.L14 index.now.spots ≡ [] }
{
    !index.has_targets() && count_in(schemas, "") > 0
}

/// Adds the facts whose targets are without one of these schemas.
fn add_schemaless(
    index: &Index<'_>,
    schemas: &Holders<'_>,
    found: &mut Breaches,
) -> Result<(), NoMemory>
    requires { (target : List ℕ) → all_located (spots_at schemas.now target) ≡ filter (rules.is_schema_for target) index.now.spots }
    ensures { OnOk result (found.new ≡ found.old ++ breaking rule.L14 index.now.spots) }
{
    for spot in index.facts() {
        found.add_if(
            spot.element.place,
            Rule::L14,
            lacks_schema(index, schemas, spot),
        )?;
    }
    Ok(())
}

/// Adds the facts whose targets have no schema. They aren't looked through where each has that of the default one.
fn add_lacking_schema(
    alloc: Global,
    index: &Index<'_>,
    found: &mut Breaches,
) -> Result<(), NoMemory>
    ensures { OnOk result (found.new ≡ found.old ++ breaking rule.L14 index.now.spots) }
{
    let schemas = grouped(alloc, Group::Schemas, index.others())?;
    if has_default_schema(index, &schemas) {
        return Ok(());
    }
    add_schemaless(index, &schemas, found)
}

/// Adds the rules on ids, references and continuations that are broken, and gives the chains.
fn chained<'a>(
    alloc: Global,
    arena: &'a Bump,
    index: &Index<'a>,
    named: &NamedIds<'a>,
    found: &mut Breaches,
) -> Result<Chains<'a>, NoMemory>
    requires chosen { AreChosen index.now }
    requires named { AreNamed index.now.spots named.now }
    ensures faults { OnOk result (found.new ≡ found.old ++ breaking rule.L1 index.now.spots
        ++ flat_map (refs_at (asked index.now)) index.now.spots ++ breaking rule.L4 index.now.spots
        ++ breaking rule.L5 index.now.spots ++ breaking rule.L6 index.now.spots ++ breaking rule.L7 index.now.spots) }
    ensures chains { IfOk result (λ c. found.new ≡ [] → AreChainsOf c index.now.spots) }
{
    index.doubled(found)?;
    add_refs(index, named, found)?;
    link(alloc, arena, index, found)
}

/// Adds the facts whose targets have no schema and the roles that two addresses have, and gives the addresses of the roles.
fn addressed<'a>(
    alloc: Global,
    index: &Index<'a>,
    bases: &Bases,
    found: &mut Breaches,
) -> Result<SeenRoles<'a>, NoMemory>
    requires pages { All (λ e. e.page < length bases.now.pages) index.now.spots }
    ensures faults { OnOk result (found.new ≡ found.old ++ breaking rule.L14 index.now.spots
        ++ flat_map (redirected_at (base_in bases.now.pages) (asked index.now)) index.now.spots) }
    ensures seen_roles { IfOk result (SeesAll (base_in bases.now.pages) index.now.spots) }
{
    add_lacking_schema(alloc, index, found)?;
    add_redirected(alloc, index, bases, found)
}

/// Adds the rules on tuples, relationships, schemas and roles that are broken, and gives the members, the relationships and the roles.
fn tied<'a>(
    alloc: Global,
    arena: &'a Bump,
    index: &Index<'a>,
    bases: &Bases,
    found: &mut Breaches,
) -> Result<(Members<'a>, Relations<'a>, SeenRoles<'a>), NoMemory>
    requires fits { All (λ e. fits e ≡ true) index.now.spots }
    requires pages { All (λ e. e.page < length bases.now.pages) index.now.spots }
    ensures faults { OnOk result (found.new ≡ found.old ++ breaking rule.L8 index.now.spots ++ breaking rule.L9 index.now.spots
        ++ breaking rule.L10 index.now.spots ++ breaking rule.L12 index.now.spots ++ breaking rule.L13 index.now.spots
        ++ breaking rule.L11 index.now.spots ++ breaking rule.L15 index.now.spots ++ breaking rule.L16 index.now.spots
        ++ breaking rule.L14 index.now.spots ++ flat_map (redirected_at (base_in bases.now.pages) (asked index.now)) index.now.spots) }
    ensures members { IfOk result (λ made. AreMembersOf made.0 index.now.spots) }
    ensures relations { IfOk result (λ made. AreRelationsOf made.1 index.now.spots) }
    ensures seen_roles { IfOk result (λ made. SeesAll (base_in bases.now.pages) index.now.spots made.2) }
{
    let members = membership(alloc, arena, index, found)?;
    let relations = relate(alloc, arena, index, found)?;
    let seen_roles = addressed(alloc, index, bases, found)?;
    Ok((members, relations, seen_roles))
}

/// Adds the rules on links that the elements of a set break, and gives what was made of the links.
pub fn link_all<'s, 'a>(
    alloc: Global,
    arena: &'a Bump,
    index: &'s Index<'a>,
    bases: &'s Bases,
    found: &mut Breaches,
) -> Result<Linked<'s, 'a>, NoMemory>
    requires none { found.old ≡ [] }
    requires chosen { AreChosen index.now }
    requires fits { All (λ e. fits e ≡ true) index.now.spots }
    requires pages { All (λ e. e.page < length bases.now.pages) index.now.spots }
    ensures faults { OnOk result (SameMembers found.new (broken (base_in bases.now.pages) index.now.spots)) }
    ensures chains { IfOk result (λ l. found.new ≡ [] → AreChainsOf l.chains index.now.spots) }
    ensures ties { IfOk result (λ l. AreMembersOf l.members index.now.spots × AreRelationsOf l.relations index.now.spots) }
    ensures seen_roles { IfOk result (λ l. SeesAll (base_in bases.now.pages) index.now.spots l.seen_roles) }
    ensures named { IfOk result (λ l. AreNamed index.now.spots l.named) }
    ensures keeps { IfOk result (λ l. (l.index ≡ index.entry) × (l.bases ≡ bases.entry)) }
{
    let named = all_named(alloc, index)?;
    let chains = chained(alloc, arena, index, &named, found)?;
    let (members, relations, seen_roles) = tied(alloc, arena, index, bases, found)?;
    Ok(Linked {
        index,
        bases,
        named,
        chains,
        members,
        relations,
        seen_roles,
    })
}
