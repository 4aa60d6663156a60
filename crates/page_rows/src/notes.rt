//! Footnote links.
ghost use Rattle.std.specs.Prelude.{◌≡◌, IfOk, length, nat_lt};
ghost use Rattle.std.specs.List.{list_all};
ghost use Rattle.ix_base.specs.Elements.{place_of};
ghost use Rattle.continuations.specs.Model.{AreChainsOf};

use anyhow::{Result, ensure};
use bumpalo::Bump;
use continuations::{Chains, link};
use footnotes::{Relations, relate};
use id_table::Index;
use ix_base::{
    Arc, Attrs, Breaches, Element, Footnote, Name, NoMemory, NoteLink, Place, Scope, Spot, Text,
};
use scopes::Bases;
use std::alloc::Global;

/// The page from which bases are taken, of this name.
fn bare<'a>(name: &'a Name<'a>) -> Element<'a> {
    Element {
        place: Place {
            page: 0,
            offset: 50,
        },
        name,
        attrs: Attrs::empty(),
        scope: Scope::empty(),
        children: &[],
    }
}

/// So many bases.
fn bases_of(alloc: Global, count: usize) -> Result<Bases, NoMemory>
    ensures { IfOk result (λ b. length b.pages ≡ count) }
{
    let name = Name::of("", "p", 0);
    let bare = bare(&name);
    let mut bases = Bases::new(alloc);
    for _number in 0..count {
        bases.add_page("http://example.com/", "a.html", &bare)?;
    }
    Ok(bases)
}

/// The chains of a set in which no rule on continuations is broken.
fn chains_of<'a>(alloc: Global, arena: &'a Bump, index: &Index<'a>) -> Result<Chains<'a>>
    ensures { IfOk result (λ c. AreChainsOf c index.now.spots) }
{
    let mut breaches = Breaches::new(alloc);
    let chains = link(alloc, arena, index, &mut breaches)?;
    ensure!(breaches.is_empty(), "a rule on continuations is broken");
    Ok(chains)
}

fn is_below(spot: &Spot<'_>, count: usize) -> bool
    ensures { result ≡ nat_lt (place_of spot.now).page count }
{
    (spot.element.place.page as usize) < count
}

fn are_below(spots: &[&Spot<'_>], count: usize) -> bool
    ensures { result ≡ list_all (λ s. nat_lt (place_of s.now).page count) spots.now }
{
    spots.iter().all(|spot| is_below(spot, count))
}

fn push_footnote(footnote: &Footnote, said: &mut String) -> Result<()> {
    let id = footnote.id.as_str();
    let role = footnote.role.as_str();
    let lang = footnote.lang.as_str();
    write!(said, " {id} {role} {lang}")?;
    if let Some(title) = &footnote.title {
        write!(said, " ({})", title.as_str())?;
    }
    write!(said, " [{}]", footnote.body.as_str())?;
    Ok(())
}

fn push_arc(arc: &Arc, said: &mut String) -> Result<()> {
    let arcrole = arc.arcrole.as_str();
    let from = arc.from_id.as_str();
    let to = arc.to_id.as_str();
    let order = arc.order.as_str();
    write!(said, " {from} {arcrole} {to} {order}")?;
    Ok(())
}

fn push_locs(locs: &[Text], said: &mut String) -> Result<()> {
    for id in locs {
        write!(said, " {}", id.as_str())?;
    }
    said.push_str(",")?;
    Ok(())
}

fn push_footnotes(footnotes: &[Footnote], said: &mut String) -> Result<()> {
    for footnote in footnotes {
        push_footnote(footnote, said)?;
    }
    said.push_str(",")?;
    Ok(())
}

/// Writes what a link says.
fn push_link(link: &NoteLink, said: &mut String) -> Result<()> {
    write!(said, "; {}:", link.role.as_str())?;
    push_locs(link.locs.as_slice(), said)?;
    push_footnotes(link.footnotes.as_slice(), said)?;
    for arc in link.arcs.as_slice() {
        push_arc(arc, said)?;
    }
    Ok(())
}

fn push_links(links: &[NoteLink], said: &mut String) -> Result<()> {
    for link in links {
        push_link(link, said)?;
    }
    Ok(())
}

/// Writes the links of a target of a set of so many pages, whose elements stand on them.
fn push_notes<'a>(
    alloc: Global,
    index: &Index<'a>,
    relations: &Relations<'a>,
    chains: &Chains<'a>,
    count: usize,
    target: &str,
    said: &mut String,
) -> Result<()>
    requires { AreChainsOf chains.now index.now.spots }
{
    ensure!(are_below(index.spots(), count), "another page");
    let bases = bases_of(alloc, count)?;
    let links = relations.notes(alloc, target, chains, &bases)?;
    push_links(links.as_slice(), said)
}

/// How many breaches there are, and the links of a target of a set of so many pages.
fn notes_said<'a>(
    alloc: Global,
    index: &Index<'a>,
    relations: &Relations<'a>,
    chains: &Chains<'a>,
    breaches: usize,
    count: usize,
    target: &str,
) -> Result<String>
    requires { AreChainsOf chains.now index.now.spots }
{
    let mut said = breaches.to_string(alloc)?;
    push_notes(alloc, index, relations, chains, count, target, &mut said)?;
    Ok(said)
}

/// How many breaches there are, and the links of a target of a set in which no rule on continuations is broken.
fn linked_notes<'a>(
    alloc: Global,
    arena: &'a Bump,
    index: &Index<'a>,
    relations: &Relations<'a>,
    breaches: usize,
    count: usize,
    target: &str,
) -> Result<String> {
    let chains = chains_of(alloc, arena, index)?;
    notes_said(alloc, index, relations, &chains, breaches, count, target)
}

/// How many rules on relationships the elements of so many pages break, and the links of a target.
pub(crate) fn of_target<'a>(
    alloc: Global,
    arena: &'a Bump,
    index: &Index<'a>,
    count: usize,
    target: &str,
) -> Result<String> {
    let mut breaches = Breaches::new(alloc);
    let relations = relate(alloc, arena, index, &mut breaches)?;
    linked_notes(
        alloc,
        arena,
        index,
        &relations,
        breaches.len(),
        count,
        target,
    )
}
