//! The footnote links of a target: the relations of a set, and the links that they make, by role.
ghost use Rattle.std.specs.Prelude.{◌≡◌, ◌++◌, ◌∷◌, [], ℕ, List as Items, OnOk, IfOk, map, filter, bytes_eq, length};
ghost use Rattle.ix_base.specs.LocatedElements as kinds;
ghost use Rattle.ix_base.specs.LocatedElements.{Located, located, base_in};
ghost use Rattle.ix_base.specs.Once.{in_order};
ghost use Rattle.ix_base.specs.SortedLists.{text_cmp};
ghost use Rattle.continuations.specs.Model.{AreChainsOf};
ghost use Rattle.footnotes.specs.ArcGroups.{arcs_along, group_arcs, groups_at};
ghost use Rattle.footnotes.specs.ArcLinks.{link_by, links_by, note_in, role_by, roles_along, texts_of};
ghost use Rattle.footnotes.specs.FootnoteLinks as footnote_links;
ghost use Rattle.footnotes.specs.FootnoteLinks.{ends, label};
ghost use Rattle.footnotes.specs.Model.{arcs_kept, AreOnPages, AreRelationsOf, StandApart};

use crate::arcs::{ArcGroup, GroupTable, arcs_of, label_of};
use crate::footnotes::footnotes_of;
use continuations::Chains;
use ix_base::{List, NoMemory, NoteLink, Spot, Text, each_once, is_fact};
use scopes::Bases;
use std::alloc::Global;
use std::marker::Model;

/// Adds the id of an element at the end, where it is a fact.
fn push_if_fact<'a>(spot: &Spot<'a>, ids: &mut Vec<&'a str>) -> Result<(), NoMemory>
    ensures { OnOk result (texts_of ids.new.items
        ≡ texts_of ids.old.items ++ map label (filter kinds.is_fact (located spot.now ∷ []))) }
{
    if is_fact(spot) {
        ids.push(label_of(spot))?;
    }
    Ok(())
}

/// Adds the ids of the facts at the ends of the arcs of a group.
fn push_facts<'a>(group: &ArcGroup<'a>, ids: &mut Vec<&'a str>) -> Result<(), NoMemory>
    ensures { OnOk result (texts_of ids.new.items
        ≡ texts_of ids.old.items ++ map label (filter kinds.is_fact (ends (group_arcs group.now)))) }
{
    for to in group.ends {
        push_if_fact(group.from, ids)?;
        push_if_fact(to, ids)?;
    }
    Ok(())
}

/// The ids of the facts at the ends of the arcs of some groups.
fn facts_of<'a>(alloc: Global, groups: &[ArcGroup<'a>]) -> Result<Vec<&'a str>, NoMemory>
    ensures { IfOk result (λ v. texts_of v.items ≡ map label (filter kinds.is_fact (ends (arcs_along groups.now)))) }
{
    let mut ids = Vec::new(alloc);
    for group in groups {
        push_facts(group, &mut ids)?;
    }
    Ok(ids)
}

/// Copies of texts.
fn copies_of(alloc: Global, texts: &[&str]) -> Result<List<Text>, NoMemory>
    ensures { IfOk result (λ l. l ≡ texts_of texts.now) }
{
    let mut copies = List::new(alloc);
    for text in texts {
        copies.push(Text::of(alloc, text)?)?;
    }
    Ok(copies)
}

/// The locators of some groups: the ids of the facts at the ends of their arcs in order, each once.
fn locs_of(alloc: Global, groups: &[ArcGroup<'_>]) -> Result<List<Text>, NoMemory>
    ensures { IfOk result (λ l. l ≡ in_order text_cmp (map label (filter kinds.is_fact (ends (arcs_along groups.now))))) }
{
    let mut ids = facts_of(alloc, groups)?;
    each_once(&mut ids);
    copies_of(alloc, ids.as_slice())
}

/// The link of a role, from its groups.
fn link_of<'a>(
    alloc: Global,
    role: &str,
    groups: &[ArcGroup<'a>],
    chains: &Chains<'a>,
    bases: &Bases,
) -> Result<NoteLink, NoMemory>
    requires { AreOnPages chains.now (length bases.now.pages) }
    ensures { IfOk result (λ l. l ≡ link_by (note_in (base_in bases.now.pages) chains.now) role.now (arcs_along groups.now)) }
{
    Ok(NoteLink {
        role: Text::of(alloc, role)?,
        locs: locs_of(alloc, groups)?,
        footnotes: footnotes_of(alloc, groups, chains, bases)?,
        arcs: arcs_of(alloc, groups)?,
    })
}

/// Enters groups at their roles.
fn enter_by_role<'a>(groups: &[ArcGroup<'a>], table: &mut GroupTable<'a>) -> Result<(), NoMemory>
    ensures { OnOk result ((q : Items ℕ) → groups_at table.new q
        ≡ groups_at table.old q ++ filter (λ g. bytes_eq q g.attributes.role.now) groups.now) }
{
    for group in groups {
        table.push_at(group.attributes.role, *group)?;
    }
    Ok(())
}

/// Groups by their roles.
fn by_role<'a>(alloc: Global, groups: &[ArcGroup<'a>]) -> Result<GroupTable<'a>, NoMemory>
    ensures { IfOk result (λ m. (q : Items ℕ) → groups_at m q ≡ filter (λ g. bytes_eq q g.attributes.role.now) groups.now) }
{
    let mut table = GroupTable::new(alloc);
    enter_by_role(groups, &mut table)?;
    Ok(table)
}

/// Adds the role of a group at the end, where it has arcs.
fn push_role<'a>(group: &ArcGroup<'a>, roles: &mut Vec<&'a str>) -> Result<(), NoMemory>
    ensures { OnOk result (texts_of roles.new.items
        ≡ texts_of roles.old.items ++ role_by group.now.ends.now group.now.attributes.role.now) }
{
    match group.ends {
        [] => Ok(()),
        [_, ..] => {
            roles.push(group.attributes.role)?;
            Ok(())
        }
    }
}

/// The roles of those groups that have arcs.
fn roles_of<'a>(alloc: Global, groups: &[ArcGroup<'a>]) -> Result<Vec<&'a str>, NoMemory>
    ensures { IfOk result (λ v. texts_of v.items ≡ roles_along groups.now) }
{
    let mut roles = Vec::new(alloc);
    for group in groups {
        push_role(group, &mut roles)?;
    }
    Ok(roles)
}

/// The link of a role.
fn link_at<'a>(
    alloc: Global,
    table: &GroupTable<'a>,
    role: &str,
    chains: &Chains<'a>,
    bases: &Bases,
) -> Result<NoteLink, NoMemory>
    requires { AreOnPages chains.now (length bases.now.pages) }
    ensures { IfOk result (λ l. l
        ≡ link_by (note_in (base_in bases.now.pages) chains.now) role.now (arcs_along (groups_at table.now role.now))) }
{
    match table.get(role) {
        Some(found) => link_of(alloc, role, found.as_slice(), chains, bases),
        None => link_of(alloc, role, &[], chains, bases),
    }
}

/// The links of some roles.
fn links_in<'a>(
    alloc: Global,
    table: &GroupTable<'a>,
    roles: &[&str],
    chains: &Chains<'a>,
    bases: &Bases,
) -> Result<List<NoteLink>, NoMemory>
    requires { AreOnPages chains.now (length bases.now.pages) }
    ensures { IfOk result (λ l. l
        ≡ map (λ role. link_by (note_in (base_in bases.now.pages) chains.now) role (arcs_along (groups_at table.now role)))
        (texts_of roles.now)) }
{
    let mut links = List::new(alloc);
    for role in roles {
        links.push(link_at(alloc, table, role, chains, bases)?)?;
    }
    Ok(links)
}

/// The links of some groups, by role.
fn links_of<'a>(
    alloc: Global,
    groups: &[ArcGroup<'a>],
    chains: &Chains<'a>,
    bases: &Bases,
) -> Result<List<NoteLink>, NoMemory>
    requires { AreOnPages chains.now (length bases.now.pages) }
    ensures { IfOk result (λ l. l ≡ links_by (note_in (base_in bases.now.pages) chains.now) (arcs_along groups.now)) }
{
    let mut roles = roles_of(alloc, groups)?;
    each_once(&mut roles);
    let table = by_role(alloc, groups)?;
    links_in(alloc, &table, roles.as_slice(), chains, bases)
}

/// The relations of a set, found by target.
///
/// Contracts see the arcs with the targets of the facts from which they go.
pub struct Relations<'a> {
    groups: GroupTable<'a>,
}

impl Drop for Relations<'_> {
    fn drop(self) {
        let Relations { groups: _ } = self;
    }
}

impl<'a> Model for Relations<'a> {
    ghost use Rattle.std.specs.Prelude.{ℕ, List as Items};
    ghost use Rattle.footnotes.specs.FootnoteLinks.{Between};
    ghost use Rattle.footnotes.specs.Model.{arcs_kept, kept_code};

    ghost Value = { Items (Items ℕ × Items Between) };

    ghost coded = { kept_code };

    ghost view = { λ r. arcs_kept r.groups };
}

/// The relations that some groups make.
pub(crate) fn relations_from<'a>(groups: GroupTable<'a>) -> Relations<'a>
    ensures { result ≡ arcs_kept groups.entry }
{
    Relations { groups }
}

/// The links of the groups at a target.
fn links_at<'a>(
    alloc: Global,
    groups: &GroupTable<'a>,
    target: &str,
    chains: &Chains<'a>,
    bases: &Bases,
) -> Result<List<NoteLink>, NoMemory>
    requires { AreOnPages chains.now (length bases.now.pages) }
    ensures { IfOk result (λ l. l
        ≡ links_by (note_in (base_in bases.now.pages) chains.now) (arcs_along (groups_at groups.now target.now))) }
{
    match groups.get(target) {
        Some(found) => links_of(alloc, found.as_slice(), chains, bases),
        None => links_of(alloc, &[], chains, bases),
    }
}

impl<'a> Relations<'a> {
    /// The footnote links of a target, by role. The body of a footnote is made once for each link that has it. No group of
    /// another target is looked at.
    pub fn notes(
        &self,
        alloc: Global,
        target: &str,
        chains: &Chains<'a>,
        bases: &Bases,
    ) -> Result<List<NoteLink>, NoMemory>
        requires { AreOnPages chains.now (length bases.now.pages) }
        ensures { (es : Items Located) → AreRelationsOf self.now es → AreChainsOf chains.now es → StandApart es
            → IfOk result (λ l. l ≡ footnote_links.notes (base_in bases.now.pages) es target.now) }
    {
        links_at(alloc, &self.groups, target, chains, bases)
    }
}
