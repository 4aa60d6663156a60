//! Footnote links.
ghost use Rattle.std.specs.Prelude.{◌≡◌, ◌++◌, ◌∷◌, ◌&&◌, [], flat_map, map, IfOk};
ghost use Rattle.std.specs.List.{list_all};
ghost use Rattle.ix_base.specs.Forms.{is_canonical_decimal as is_canonical};
ghost use Rattle.ix_base.specs.PlainContents.{said_of};
ghost use Rattle.proper_texts.specs.Model.{IsHeld};
ghost use Rattle.instance_lines.specs.Lists.{is_within};
ghost use Rattle.instance_out.specs.Proper as proper;
ghost use Rattle.instance_lines.specs.Tables.{values_of};

use crate::among::{Among, have_same};
use crate::gathered::names_of;
use ix_base::{Arc, Content, NoMemory, NoteLink};
use proper_texts::{Held, is_canonical_decimal};
use std::alloc::Global;

/// From where and to where arcs go.
fn ends_of(alloc: Global, arcs: &[Arc]) -> Result<Vec<&str>, NoMemory>
    ensures { IfOk result (λ v. values_of v.items ≡ flat_map (λ a. a.from_id ∷ a.to_id ∷ []) arcs.now) }
{
    let mut ids = Vec::new(alloc);
    for arc in arcs {
        ids.push(arc.from_id.as_str())?;
        ids.push(arc.to_id.as_str())?;
    }
    Ok(ids)
}

/// The ids of the locators and footnotes of a link.
fn known_in(alloc: Global, link: &NoteLink) -> Result<Vec<&str>, NoMemory>
    ensures { IfOk result (λ v. values_of v.items ≡ link.now.locs ++ proper.note_ids link.now) }
{
    let mut ids = names_of(alloc, link.locs.as_slice())?;
    let mut notes = names_of(alloc, link.footnotes.as_slice())?;
    ids.append(&mut notes)?;
    Ok(ids)
}

/// Whether the arcs of a link name all that it has, and nothing else.
fn has_ends(alloc: Global, link: &NoteLink) -> Result<bool, NoMemory>
    ensures { IfOk result (λ b. b ≡ (is_within (proper.arc_ends link.now) (link.now.locs ++ proper.note_ids link.now)
        && is_within (link.now.locs ++ proper.note_ids link.now) (proper.arc_ends link.now))) }
{
    let ends = ends_of(alloc, link.arcs.as_slice())?;
    let known = known_in(alloc, link)?;
    Ok(have_same(ends, known))
}

/// Whether a link has arcs, its locators and footnotes are what its arcs name, and its locators are among these facts.
fn is_whole(alloc: Global, facts: &Among, link: &NoteLink) -> Result<bool, NoMemory>
    ensures { IfOk result (λ b. b ≡ proper.is_whole_link facts.now link.now) }
{
    if link.arcs.as_slice().is_empty() {
        return Ok(false);
    }
    if !has_ends(alloc, link)? {
        return Ok(false);
    }
    let locs = names_of(alloc, link.locs.as_slice())?;
    Ok(facts.have(locs.as_slice()))
}

/// Whether each of these links is whole, by these facts.
fn are_whole(alloc: Global, facts: &Among, links: &[NoteLink]) -> Result<bool, NoMemory>
    ensures { IfOk result (λ b. b ≡ list_all (proper.is_whole_link facts.now) links.now) }
{
    for link in links {
        if !is_whole(alloc, facts, link)? {
            return Ok(false);
        }
    }
    Ok(true)
}

/// Whether the locators and footnotes of each footnote link are what its arcs name, and its locators are facts. The cost
/// of n facts, locators, footnotes and arcs is that of sorts and of n searches by halving: n log n comparisons.
pub(crate) fn links_fit(alloc: Global, content: &Content, held: &Held) -> Result<bool, NoMemory>
    requires { IsHeld (said_of content.now) held.now }
    ensures { IfOk result (λ b. b ≡ proper.links_fit (said_of content.now)) }
{
    let ids = Vec::from_slice(alloc, held.ids.as_slice())?;
    let facts = Among::of(ids);
    let answer = are_whole(alloc, &facts, content.notes.as_slice())?;
    Ok(answer)
}

/// Whether the orders of arcs are canonical decimals. It takes no memory.
#[tactic(auto, unfolding(instance_out::specs::Proper::orders_fit))]
pub(crate) fn orders_fit(content: &Content, held: &Held) -> bool
    requires { IsHeld (said_of content.now) held.now }
    ensures { result ≡ proper.orders_fit (said_of content.now) }
{
    are_ordered(held.arcs.as_slice())
}

fn are_ordered(arcs: &[&Arc]) -> bool
    ensures { result ≡ list_all (λ a. is_canonical a.order) (values_of arcs.now) }
{
    for arc in arcs {
        if !is_canonical_decimal(arc.order.as_str()) {
            return false;
        }
    }
    true
}
