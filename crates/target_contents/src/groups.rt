//! The elements of a set by the target for which they stand.
ghost use Rattle.std.specs.Prelude.{◌≡◌, [], ℕ, List, IfOk, filter, option_map, true};
ghost use Rattle.std.specs.List.{list_any};
ghost use Rattle.ix_base.specs.LinkRules as rules;
ghost use Rattle.ix_base.specs.LocatedElements.{located};
ghost use Rattle.id_table.specs.Model.{has_own_target};
ghost use Rattle.id_table.specs.Tables.{HasEach, all_located, spots_at};
ghost use Rattle.target_contents.specs.Contents.{is_linkbase_for};
ghost use Rattle.target_contents.specs.Groups.{AreGroups, is_fact_of, key_by};

use fact_view::target_of;
use id_table::{Holders, Index, enter};
use ix_base::{Kind, NoMemory, Spot, is_fact, kind_of};
use std::alloc::Global;

/// What elements are put together by their targets.
#[derive(Clone, Copy, PartialEq, Eq)]
pub(crate) enum Group {
    Facts,
    Schemas,
    Linkbases,
}

/// The target of the element right above.
fn target_above<'a>(spot: &Spot<'a>) -> &'a str
    ensures { result.now ≡ rules.target_above (located spot.now).placed.above }
{
    match spot.up {
        Some(up) => target_of(up.element),
        None => "",
    }
}

/// The target for which an element stands in a group.
fn key_of<'a>(group: Group, spot: &Spot<'a>) -> Option<&'a str>
    ensures { option_map (λ s. s.now) result ≡ key_by group (located spot.now) }
{
    match group {
        Group::Facts if is_fact(spot) => Some(target_of(spot.element)),
        Group::Schemas if kind_of(spot) == Kind::SchemaRef => Some(target_above(spot)),
        Group::Linkbases if kind_of(spot) == Kind::LinkbaseRef => Some(target_above(spot)),
        _ => None,
    }
}

/// The elements of a group, by their targets.
pub(crate) fn grouped<'a>(
    alloc: Global,
    group: Group,
    spots: &[&'a Spot<'a>],
) -> Result<Holders<'a>, NoMemory>
    ensures { IfOk result (λ m. HasEach (key_by group) m spots.now) }
{
    let mut holders = Holders::new(alloc);
    for spot in spots {
        enter(&mut holders, key_of(group, spot), *spot)?;
    }
    Ok(holders)
}

/// The elements that stand for a target, or none. It takes no memory.
pub(crate) fn at<'m, 'a>(
    holders: &'m Holders<'a>,
    none: &'m Vec<&'a Spot<'a>>,
    target: &str,
) -> &'m [&'a Spot<'a>]
    requires { none.now.items ≡ [] }
    ensures { result.now ≡ spots_at holders.now target.now }
{
    match holders.get(target) {
        Some(found) => found.as_slice(),
        None => none.as_slice(),
    }
}

/// The facts and the references of a set, by their targets.
pub(crate) struct Groups<'a> {
    /// None where all facts are of the default target.
    pub facts: Holders<'a>,
    pub schemas: Holders<'a>,
    pub linkbases: Holders<'a>,
    /// What is shown of a target for which no element stands.
    pub none: Vec<&'a Spot<'a>>,
}

impl Drop for Groups<'_> {
    fn drop(self) {
        let Groups {
            facts: _,
            schemas: _,
            linkbases: _,
            none: _,
        } = self;
    }
}

/// The references to schemas and to linkbases, by their targets.
fn references_of<'a>(
    alloc: Global,
    index: &Index<'a>,
) -> Result<(Holders<'a>, Holders<'a>), NoMemory>
    ensures schemas { IfOk result (λ r. (target : List ℕ) → all_located (spots_at r.0 target)
        ≡ filter (rules.is_schema_for target) index.now.spots) }
    ensures linkbases { IfOk result (λ r. (target : List ℕ) → all_located (spots_at r.1 target)
        ≡ filter (is_linkbase_for target) index.now.spots) }
{
    let schemas = grouped(alloc, Group::Schemas, index.others())?;
    let linkbases = grouped(alloc, Group::Linkbases, index.others())?;
    Ok((schemas, linkbases))
}

/// The facts of an index, by their targets. Where all are of the default one, they aren't put together.
fn fact_groups<'a>(alloc: Global, index: &Index<'a>) -> Result<Holders<'a>, NoMemory>
    ensures { IfOk result (λ m. list_any has_own_target index.now.spots ≡ true
        → (target : List ℕ) → all_located (spots_at m target) ≡ filter (is_fact_of target) index.now.spots) }
{
    if !index.has_targets() {
        return Ok(Holders::new(alloc));
    }
    grouped(alloc, Group::Facts, index.facts())
}

/// The facts and the references of an index, by their targets.
pub(crate) fn groups_of<'a>(alloc: Global, index: &Index<'a>) -> Result<Groups<'a>, NoMemory>
    ensures { IfOk result (λ g. AreGroups g index.now.spots) }
{
    let (schemas, linkbases) = references_of(alloc, index)?;
    let facts = fact_groups(alloc, index)?;
    Ok(Groups {
        facts,
        schemas,
        linkbases,
        none: Vec::new(alloc),
    })
}
