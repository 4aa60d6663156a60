//! Footnote links in the order in which an instance has them.
ghost use Rattle.std.specs.Prelude.{◌≡◌, ℕ, List as Items, map, true, not, bytes_eq, if◌then◌else◌, IfOk, OnOk};
ghost use Rattle.std.specs.BTreeSet.{contains_text};
ghost use Rattle.std.specs.Ordering.{on};
ghost use Rattle.ix_base.specs.SortedLists.{sorted, text_cmp};
ghost use Rattle.instance_lines.specs.Arrangement.{arranged_link, firsts};
ghost use Rattle.instance_lines.specs.Elements.{footnote_text};

use crate::keys::{ByElement, ById};
use crate::note::footnote_of;
use crate::sort::{Keyed, by_keys, once, put_by_keys, put_once_by_keys};
use ix_base::{Arc, Footnote, List, NoMemory, NoteLink, Text};
use std::alloc::Global;
use std::collections::BTreeSet;
use std::mem;

/// Notes the text of a footnote, and tells whether it is there for the first time.
fn is_first(
    alloc: Global,
    footnote: &Footnote,
    seen: &mut BTreeSet<String>,
) -> Result<bool, NoMemory>
    ensures told { IfOk result (λ first. first ≡ not (contains_text seen.old (footnote_text footnote.now))) }
    ensures noted { OnOk result ((t : Items ℕ) →
        contains_text seen.new t ≡ (if bytes_eq (footnote_text footnote.now) t then true else contains_text seen.old t)) }
{
    let text = footnote_of(alloc, footnote)?;
    let key = String::from_str(alloc, text.as_str())?;
    let first = seen.insert(key)?;
    Ok(first)
}

/// Of footnotes with one text the first.
fn first_footnotes(alloc: Global, footnotes: Vec<Footnote>) -> Result<Vec<Footnote>, NoMemory>
    ensures { IfOk result (λ v. v.items ≡ firsts footnote_text footnotes.items) }
{
    let mut seen = BTreeSet::new(alloc);
    let mut kept = Vec::new(alloc);
    for footnote in footnotes {
        let is_new = is_first(alloc, &footnote, &mut seen)?;
        if !is_new {
            continue;
        }
        kept.push(footnote)?;
    }
    Ok(kept)
}

/// Puts what a footnote link holds in order.
fn put_link_in_order(alloc: Global, link: &mut NoteLink) -> Result<(), NoMemory>
    ensures { OnOk result (link.new ≡ arranged_link link.old) }
{
    let locs = once(alloc, link.locs.as_slice())?;
    link.locs = List::of(locs);
    put_by_keys::<ById, Footnote>(alloc, &mut link.footnotes)?;
    let footnotes = mem::replace(&mut link.footnotes, List::new(alloc));
    let footnotes = first_footnotes(alloc, footnotes.into_vec())?;
    link.footnotes = List::of(footnotes);
    put_once_by_keys::<ByElement, Arc>(alloc, &mut link.arcs)?;
    Ok(())
}

/// A footnote link with what it holds in order.
fn link_in_order(alloc: Global, link: NoteLink) -> Result<NoteLink, NoMemory>
    ensures { IfOk result (λ l. l ≡ arranged_link link) }
{
    let mut link = link;
    put_link_in_order(alloc, &mut link)?;
    Ok(link)
}

/// Footnote links by role, each with what it holds in order. Those with one role keep the order that they have.
pub fn links_in_order(alloc: Global, links: List<NoteLink>) -> Result<List<NoteLink>, NoMemory>
    ensures { IfOk result (λ l. l ≡ map arranged_link (sorted (on (λ l. l.role) text_cmp) links)) }
{
    let mut keyed = Vec::new(alloc);
    for link in links.into_vec() {
        let key = Text::of(alloc, link.role.as_str())?;
        let item = link_in_order(alloc, link)?;
        keyed.push(Keyed { key, item })?;
    }
    let items = by_keys(alloc, keyed)?;
    Ok(List::of(items))
}
