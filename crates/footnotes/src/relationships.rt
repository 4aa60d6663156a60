//! The relationships of a set, each with the elements that its ids name.
ghost use Rattle.std.specs.Prelude.{◌≡◌, ◌++◌, ◌||◌, ◌∷◌, [], OnOk, IfOk, All, filter, option_map, is_none};
ghost use Rattle.std.specs.List.{list_any, filter_map};
ghost use Rattle.ix_base.specs.Ids as ids;
ghost use Rattle.ix_base.specs.LinkRules as rules_of;
ghost use Rattle.ix_base.specs.LocatedElements as kinds;
ghost use Rattle.ix_base.specs.LocatedElements.{located};
ghost use Rattle.id_table.specs.Model.{asked};
ghost use Rattle.id_table.specs.Tables.{all_located};
ghost use Rattle.footnotes.specs.ArcLinks.{texts_of};
ghost use Rattle.footnotes.specs.EndTests as tests;
ghost use Rattle.footnotes.specs.NamedEnds.{seen, all_seen, IsKnown};

use bumpalo::Bump;
use bumpalo::collections::into_bump_slice;
use fact_view::target_of;
use id_table::Index;
use ix_base::{Kind, NoMemory, Spot, is_fact, kind_of};
use link_ids::{from_ids, to_ids};
use std::alloc::Global;

pub(crate) fn is_footnote(spot: &Spot<'_>) -> bool
    ensures { result ≡ rules_of.is_footnote (located spot.now) }
{
    kind_of(spot) == Kind::Footnote
}

fn is_relationship(spot: &Spot<'_>) -> bool
    ensures { result ≡ rules_of.is_relationship (located spot.now) }
{
    kind_of(spot) == Kind::Relationship
}

/// The target of a fact.
pub(crate) fn target_at<'a>(spot: &Spot<'a>) -> &'a str
    ensures { result.now ≡ rules_of.target_of (located spot.now) }
{
    target_of(spot.element)
}

/// An end of a relationship.
#[derive(Clone, Copy)]
pub(crate) enum End {
    /// One from which it goes: a fact.
    From,
    /// One to which it goes: a fact or a footnote.
    To,
}

/// Whether an element may be at an end of a relationship.
fn fits_end(spot: &Spot<'_>, end: End) -> bool
    ensures { result ≡ tests.fits_end end (located spot.now) }
{
    match end {
        End::From => is_fact(spot),
        End::To => is_fact(spot) || is_footnote(spot),
    }
}

/// The elements that ids name, in the arena, and whether one of the ids isn't the one id of an element that fits its end.
#[derive(Clone, Copy)]
pub(crate) struct NamedElements<'a> {
    pub spots: &'a [&'a Spot<'a>],
    pub is_missing: bool,
}

/// The one element that an id names, where it fits the end.
#[tactic(auto, using(id_table::proofs::OtherLaws::others_fact, id_table::proofs::OtherLaws::others_end))]
fn one_named<'a>(index: &Index<'a>, end: End, id: &str) -> Option<&'a Spot<'a>>
    ensures { option_map (λ s. located s.now) result ≡ ids.one_such (tests.fits_end end) (asked index.now) id.now }
{
    let found = index.one(id)?;
    if fits_end(found.spot, end) {
        Some(found.spot)
    } else {
        None
    }
}

/// Adds what an id names to a list, and tells whether it names nothing that fits the end.
fn push_named<'a>(
    index: &Index<'a>,
    end: End,
    id: &str,
    spots: &mut Vec<&'a Spot<'a>, &'a Bump>,
) -> Result<bool, NoMemory>
    ensures spots { OnOk result (all_located spots.new.items
        ≡ all_located spots.old.items ++ filter_map (ids.one_such (tests.fits_end end) (asked index.now)) (id.now ∷ [])) }
    ensures missing { IfOk result (λ b. b ≡ is_none (ids.one_such (tests.fits_end end) (asked index.now) id.now)) }
{
    match one_named(index, end, id) {
        Some(spot) => {
            spots.push(spot)?;
            Ok(false)
        }
        None => Ok(true),
    }
}

/// Whether one of two things holds.
fn either(first: bool, second: bool) -> bool
    ensures { result ≡ (first || second) }
{
    first || second
}

/// Adds what some ids name to a list, and tells whether one of them names nothing that fits the end. Each id is looked
/// up once.
fn push_all_named<'a>(
    index: &Index<'a>,
    end: End,
    words: &[&str],
    spots: &mut Vec<&'a Spot<'a>, &'a Bump>,
) -> Result<bool, NoMemory>
    ensures spots { OnOk result (all_located spots.new.items ≡ all_located spots.old.items
        ++ rules_of.named_by (tests.fits_end end) (asked index.now) (texts_of words.now)) }
    ensures missing { IfOk result (λ b. b
        ≡ list_any (λ id. is_none (ids.one_such (tests.fits_end end) (asked index.now) id)) (texts_of words.now)) }
{
    let mut is_missing = false;
    for word in words {
        let misses = push_named(index, end, word, spots)?;
        is_missing = either(is_missing, misses);
    }
    Ok(is_missing)
}

/// The elements that some ids name.
fn named_by<'a>(
    arena: &'a Bump,
    index: &Index<'a>,
    end: End,
    words: &[&str],
) -> Result<NamedElements<'a>, NoMemory>
    ensures spots { IfOk result (λ n. all_located n.spots.now
        ≡ rules_of.named_by (tests.fits_end end) (asked index.now) (texts_of words.now)) }
    ensures missing { IfOk result (λ n. n.is_missing
        ≡ list_any (λ id. is_none (ids.one_such (tests.fits_end end) (asked index.now) id)) (texts_of words.now)) }
{
    let mut spots = Vec::new(arena);
    let is_missing = push_all_named(index, end, words, &mut spots)?;
    Ok(NamedElements {
        spots: into_bump_slice(spots),
        is_missing,
    })
}

/// A relationship, with the facts from which it goes, and the facts and footnotes to which it goes.
#[derive(Clone, Copy)]
pub(crate) struct Relationship<'a> {
    pub spot: &'a Spot<'a>,
    pub sources: NamedElements<'a>,
    pub ends: NamedElements<'a>,
}

/// What the ids name from which a relationship goes.
fn sources_of<'a>(
    alloc: Global,
    arena: &'a Bump,
    index: &Index<'a>,
    spot: &Spot<'a>,
) -> Result<NamedElements<'a>, NoMemory>
    ensures spots { IfOk result (λ n. all_located n.spots.now
        ≡ rules_of.named_by kinds.is_fact (asked index.now) (rules_of.from_ids (located spot.now))) }
    ensures missing { IfOk result (λ n. n.is_missing
        ≡ list_any (λ id. is_none (ids.one_such kinds.is_fact (asked index.now) id)) (rules_of.from_ids (located spot.now))) }
{
    let from = from_ids(alloc, spot)?;
    named_by(arena, index, End::From, from.as_slice())
}

/// What the ids name to which a relationship goes.
fn ends_of<'a>(
    alloc: Global,
    arena: &'a Bump,
    index: &Index<'a>,
    spot: &Spot<'a>,
) -> Result<NamedElements<'a>, NoMemory>
    ensures missing { IfOk result (λ n. n.is_missing
        ≡ list_any (λ id. is_none (ids.one_such rules_of.is_end (asked index.now) id)) (rules_of.to_ids (located spot.now))) }
    ensures spots { IfOk result (λ n. all_located n.spots.now
        ≡ rules_of.named_by rules_of.is_end (asked index.now) (rules_of.to_ids (located spot.now))) }
{
    let to = to_ids(alloc, spot)?;
    named_by(arena, index, End::To, to.as_slice())
}

/// A relationship with what its ids name.
fn relationship_of<'a>(
    alloc: Global,
    arena: &'a Bump,
    index: &Index<'a>,
    spot: &'a Spot<'a>,
) -> Result<Relationship<'a>, NoMemory>
    ensures seen { IfOk result (λ r. seen r ≡ located spot.entry.now) }
    ensures known { IfOk result (IsKnown (asked index.now)) }
{
    let sources = sources_of(alloc, arena, index, spot)?;
    let ends = ends_of(alloc, arena, index, spot)?;
    Ok(Relationship {
        spot,
        sources,
        ends,
    })
}

/// Adds an element at the end, where it is a relationship.
fn push_if_relationship<'a>(
    alloc: Global,
    arena: &'a Bump,
    index: &Index<'a>,
    spot: &'a Spot<'a>,
    relationships: &mut Vec<Relationship<'a>>,
) -> Result<(), NoMemory>
    requires { All (IsKnown (asked index.now)) relationships.old.items }
    ensures seen { OnOk result (all_seen relationships.new.items
        ≡ all_seen relationships.old.items ++ filter rules_of.is_relationship (located spot.entry.now ∷ [])) }
    ensures known { OnOk result (All (IsKnown (asked index.now)) relationships.new.items) }
{
    if is_relationship(spot) {
        let relationship = relationship_of(alloc, arena, index, spot)?;
        relationships.push(relationship)?;
    }
    Ok(())
}

/// Adds the relationships of a set at the end, in order.
fn push_relationships<'a>(
    alloc: Global,
    arena: &'a Bump,
    index: &Index<'a>,
    relationships: &mut Vec<Relationship<'a>>,
) -> Result<(), NoMemory>
    requires { All (IsKnown (asked index.now)) relationships.old.items }
    ensures seen { OnOk result (all_seen relationships.new.items
        ≡ all_seen relationships.old.items ++ filter rules_of.is_relationship index.now.spots) }
    ensures known { OnOk result (All (IsKnown (asked index.now)) relationships.new.items) }
{
    for spot in index.others() {
        push_if_relationship(alloc, arena, index, *spot, relationships)?;
    }
    Ok(())
}

/// The relationships of a set, in order.
pub(crate) fn relationships_of<'a>(
    alloc: Global,
    arena: &'a Bump,
    index: &Index<'a>,
) -> Result<Vec<Relationship<'a>>, NoMemory>
    ensures seen { IfOk result (λ v. all_seen v.items ≡ filter rules_of.is_relationship index.now.spots) }
    ensures known { IfOk result (λ v. All (IsKnown (asked index.now)) v.items) }
{
    let mut relationships = Vec::new(alloc);
    push_relationships(alloc, arena, index, &mut relationships)?;
    Ok(relationships)
}
