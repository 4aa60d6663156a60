//! Arcs: in groups by the facts from which they go, and as they stand in a link.
ghost use Rattle.std.specs.Prelude.{◌≡◌, ◌++◌, ◌∷◌, [], ℕ, List as Items, OnOk, IfOk, All, filter, map};
ghost use Rattle.ix_base.specs.LinkRules as rules_of;
ghost use Rattle.ix_base.specs.LocatedElements.{located};
ghost use Rattle.ix_base.specs.Once.{in_order};
ghost use Rattle.id_table.specs.Model.{asked};
ghost use Rattle.id_table.specs.Tables.{all_located};
ghost use Rattle.footnotes.specs.ArcGroups.{arcs_along, arcs_from, AreAttributesOf, group_arcs, groups_at};
ghost use Rattle.footnotes.specs.BorrowedArcs.{as_arc};
ghost use Rattle.footnotes.specs.FootnoteLinks as footnote_links;
ghost use Rattle.footnotes.specs.FootnoteLinks.{arc_texts_cmp};
ghost use Rattle.footnotes.specs.NamedEnds.{seen, all_seen, IsKnown};

use crate::order::canonical_order;
use crate::relationships::{Relationship, target_at};
use bumpalo::Bump;
use id_table::Index;
use ix_base::{Arc, List, NoMemory, Spot, Text, token_at};
use link_ids::id_at;
use std::alloc::Global;
use text_map::TextMap;

/// What an element is called in arcs.
pub(crate) fn label_of<'a>(spot: &Spot<'a>) -> &'a str
    ensures { result.now ≡ footnote_links.label (located spot.now) }
{
    match id_at(spot) {
        Some(id) => id,
        None => "",
    }
}

/// What a relationship says of each of its arcs. The order is canonical.
#[derive(Clone, Copy)]
pub(crate) struct ArcAttributes<'a> {
    pub role: &'a str,
    pub arcrole: &'a str,
    pub order: &'a str,
}

/// The arcs of a relationship that go from one fact: one to each of its ends.
#[derive(Clone, Copy)]
pub(crate) struct ArcGroup<'a> {
    pub attributes: ArcAttributes<'a>,
    pub from: &'a Spot<'a>,
    pub ends: &'a [&'a Spot<'a>],
}

/// Groups of arcs by targets, or by roles.
pub(crate) type GroupTable<'a> = TextMap<'a, Vec<ArcGroup<'a>>>;

/// The role of links that name none.
const LINK_ROLE: &str = "http://www.xbrl.org/2003/role/link";

/// The role of arcs that name none.
const ARCROLE: &str = "http://www.xbrl.org/2003/arcrole/fact-footnote";

fn role_of<'a>(spot: &Spot<'a>) -> &'a str
    ensures { result.now ≡ footnote_links.link_role (located spot.now) }
{
    match token_at(spot.element, "linkRole") {
        Some(role) => role,
        None => LINK_ROLE,
    }
}

fn arcrole_of<'a>(spot: &Spot<'a>) -> &'a str
    ensures { result.now ≡ footnote_links.arcrole (located spot.now) }
{
    match token_at(spot.element, "arcrole") {
        Some(role) => role,
        None => ARCROLE,
    }
}

/// What a relationship says of its arcs, with an order that was made canonical.
fn attributes_with<'a>(spot: &Spot<'a>, order: &'a str) -> ArcAttributes<'a>
    ensures role { result.role.now ≡ footnote_links.link_role (located spot.now) }
    ensures arcrole { result.arcrole.now ≡ footnote_links.arcrole (located spot.now) }
    ensures order { result.order.now ≡ order.entry.now }
{
    ArcAttributes {
        role: role_of(spot),
        arcrole: arcrole_of(spot),
        order,
    }
}

/// What a relationship says of its arcs. Its order, where it has one, is made canonical once, and kept in the arena.
fn attributes_of<'a>(
    alloc: Global,
    arena: &'a Bump,
    spot: &Spot<'a>,
) -> Result<ArcAttributes<'a>, NoMemory>
    ensures { IfOk result (AreAttributesOf (located spot.now)) }
{
    match token_at(spot.element, "order") {
        Some(text) => {
            let canonical = canonical_order(alloc, text)?;
            let order = arena.try_alloc_str(canonical.as_str())?;
            Ok(attributes_with(spot, order))
        }
        None => Ok(attributes_with(spot, "1")),
    }
}

/// Enters the arcs from a fact at the target of this.
fn enter_from<'a>(
    relationship: &Relationship<'a>,
    attributes: ArcAttributes<'a>,
    source: &'a Spot<'a>,
    table: &mut GroupTable<'a>,
) -> Result<(), NoMemory>
    requires { AreAttributesOf (seen relationship.now) attributes }
    ensures { OnOk result ((q : Items ℕ) → arcs_along (groups_at table.new q) ≡ arcs_along (groups_at table.old q)
        ++ arcs_from (seen relationship.now) (all_located relationship.now.ends.spots.now) q (located source.entry.now ∷ [])) }
{
    let group = ArcGroup {
        attributes,
        from: source,
        ends: relationship.ends.spots,
    };
    table.push_at(target_at(source), group)
}

/// Enters the arcs of a relationship, each group at the target of its fact.
fn enter_all<'a>(
    relationship: &Relationship<'a>,
    attributes: ArcAttributes<'a>,
    table: &mut GroupTable<'a>,
) -> Result<(), NoMemory>
    requires { AreAttributesOf (seen relationship.now) attributes }
    ensures { OnOk result ((q : Items ℕ) → arcs_along (groups_at table.new q) ≡ arcs_along (groups_at table.old q)
        ++ arcs_from (seen relationship.now) (all_located relationship.now.ends.spots.now) q
        (all_located relationship.now.sources.spots.now)) }
{
    for source in relationship.sources.spots {
        enter_from(relationship, attributes, *source, table)?;
    }
    Ok(())
}

/// Enters the arcs of a relationship, with what it says of them.
fn enter_relationship<'a>(
    alloc: Global,
    arena: &'a Bump,
    relationship: &Relationship<'a>,
    table: &mut GroupTable<'a>,
) -> Result<(), NoMemory>
    ensures { OnOk result ((q : Items ℕ) → arcs_along (groups_at table.new q) ≡ arcs_along (groups_at table.old q)
        ++ arcs_from (seen relationship.now) (all_located relationship.now.ends.spots.now) q
        (all_located relationship.now.sources.spots.now)) }
{
    let attributes = attributes_of(alloc, arena, relationship.spot)?;
    enter_all(relationship, attributes, table)
}

/// The arcs of all relationships, by the targets of the facts from which they go.
pub(crate) fn groups_of<'a>(
    alloc: Global,
    arena: &'a Bump,
    index: &Index<'a>,
    relationships: &[Relationship<'a>],
) -> Result<GroupTable<'a>, NoMemory>
    requires seen { all_seen relationships.now ≡ filter rules_of.is_relationship index.now.spots }
    requires known { All (IsKnown (asked index.now)) relationships.now }
    ensures { IfOk result (λ m. (q : Items ℕ) → arcs_along (groups_at m q) ≡ footnote_links.arcs_in index.now.spots q) }
{
    let mut table = TextMap::new(alloc);
    for relationship in relationships {
        enter_relationship(alloc, arena, relationship, &mut table)?;
    }
    Ok(table)
}

/// An arc whose texts are borrowed. Its order is that of arcs.
#[derive(Clone, Copy, PartialEq, Eq, PartialOrd, Ord)]
struct BorrowedArc<'a> {
    arcrole: &'a str,
    from_id: &'a str,
    to_id: &'a str,
    order: &'a str,
}

/// Adds the arcs of a group at the end.
fn push_arcs<'a>(group: &ArcGroup<'a>, arcs: &mut Vec<BorrowedArc<'a>>) -> Result<(), NoMemory>
    ensures { OnOk result (map as_arc arcs.new.items ≡ map as_arc arcs.old.items ++ map (λ x. x.arc) (group_arcs group.now)) }
{
    let from_id = label_of(group.from);
    for to in group.ends {
        arcs.push(BorrowedArc {
            arcrole: group.attributes.arcrole,
            from_id,
            to_id: label_of(to),
            order: group.attributes.order,
        })?;
    }
    Ok(())
}

/// The arcs of some groups.
fn borrowed_of<'a>(alloc: Global, groups: &[ArcGroup<'a>]) -> Result<Vec<BorrowedArc<'a>>, NoMemory>
    ensures { IfOk result (λ v. map as_arc v.items ≡ map (λ x. x.arc) (arcs_along groups.now)) }
{
    let mut arcs = Vec::new(alloc);
    for group in groups {
        push_arcs(group, &mut arcs)?;
    }
    Ok(arcs)
}

/// Puts arcs in order, each once.
fn each_once(arcs: &mut Vec<BorrowedArc>)
    ensures { map as_arc arcs.new.items ≡ in_order arc_texts_cmp (map as_arc arcs.old.items) }
{
    arcs.sort_unstable();
    arcs.dedup();
}

/// An arc with texts of its own.
fn arc_of(alloc: Global, borrowed: &BorrowedArc) -> Result<Arc, NoMemory>
    ensures { IfOk result (λ a. a ≡ as_arc borrowed.now) }
{
    Ok(Arc {
        arcrole: Text::of(alloc, borrowed.arcrole)?,
        from_id: Text::of(alloc, borrowed.from_id)?,
        to_id: Text::of(alloc, borrowed.to_id)?,
        order: Text::of(alloc, borrowed.order)?,
    })
}

/// Arcs with texts of their own.
fn copies_of(alloc: Global, borrowed: &[BorrowedArc]) -> Result<List<Arc>, NoMemory>
    ensures { IfOk result (λ l. l ≡ map as_arc borrowed.now) }
{
    let mut arcs = List::new(alloc);
    for one in borrowed {
        arcs.push(arc_of(alloc, one)?)?;
    }
    Ok(arcs)
}

/// The arcs of some groups in order, each once.
pub(crate) fn arcs_of(alloc: Global, groups: &[ArcGroup<'_>]) -> Result<List<Arc>, NoMemory>
    ensures { IfOk result (λ l. l ≡ in_order arc_texts_cmp (map (λ x. x.arc) (arcs_along groups.now))) }
{
    let mut arcs = borrowed_of(alloc, groups)?;
    each_once(&mut arcs);
    copies_of(alloc, arcs.as_slice())
}
