//! What the pages of a set come to, class by class.
ghost use Rattle.std.specs.Prelude.{◌≡◌, [], map, IfOk};
ghost use Rattle.target_contents.specs.Faults.{element_faults, link_faults};
ghost use Rattle.target_contents.specs.LinkedSets.{IsLinked, IsShallow, IsValued, all_of, based, bases_of};
ghost use Rattle.page_links.specs.Model.{KeepsAll, set_of};
ghost use Rattle.ix_base.specs.LocatedElements.{base_in};
ghost use Rattle.ix_base.specs.Once.{SameMembers};
ghost use Rattle.target_contents.specs.SetOutcomes.{AreAllTargets, CanBeWritten, ComesOfValues, ComesTo, FirstOf};
ghost use Rattle.target_contents.specs.PageSet as page_set;
ghost use Rattle.target_contents.specs.PageSet.{elements, page_bases};

use bumpalo::Bump;
use ix_base::{Breaches, NoMemory, Text};
use ix_grammar::check_page;
use page_links::{Page, Pages};
use std::alloc::Global;
use target_contents::{Linked, LinkedSet, Outcome, all_targets, link_all, value_faults};

/// The rules of elements that the pages break, page by page and in document order.
fn element_faults_of(alloc: Global, pages: &Pages<'_, '_>) -> Result<Breaches, NoMemory>
    requires { KeepsAll pages.now }
    ensures { IfOk result (λ b. b ≡ element_faults (set_of pages.now)) }
{
    let mut found = Breaches::new(alloc);
    for page in pages.pages {
        check_page(alloc, page.root, &mut found)?;
    }
    Ok(found)
}

/// What pages come to that break no rule on links.
fn comes_of_values(
    alloc: Global,
    pages: &Pages<'_, '_>,
    set: LinkedSet<'_, '_, '_>,
    names: &[Text],
) -> Result<Outcome, NoMemory>
    requires keeps { KeepsAll pages.now }
    requires elements { set.elements ≡ elements (set_of pages.now) }
    requires bases { set.bases ≡ page_bases (set_of pages.now) }
    requires names { names.now ≡ page_set.names (set_of pages.now) }
    ensures comes { IfOk result (ComesOfValues (set_of pages.now)) }
    ensures written { IfOk result CanBeWritten }
{
    let found = value_faults(alloc, &set)?;
    if found.is_empty() {
        return all_targets(alloc, set);
    }
    Outcome::broken(found, names)
}

/// What pages come to whose links break these rules.
fn comes_of_linked(
    alloc: Global,
    pages: &Pages<'_, '_>,
    linked: &Linked<'_, '_>,
    found: Breaches,
    names: &[Text],
) -> Result<Outcome, NoMemory>
    requires keeps { KeepsAll pages.now }
    requires names { names.now ≡ page_set.names (set_of pages.now) }
    requires faults { SameMembers found (link_faults (set_of pages.now)) }
    requires elements { all_of linked.now ≡ elements (set_of pages.now) }
    requires bases { bases_of linked.now ≡ page_bases (set_of pages.now) }
    requires linked { found ≡ [] → IsLinked linked.now × IsShallow (based linked.now) }
    ensures comes { IfOk result (FirstOf names.now (link_faults (set_of pages.now)) (ComesOfValues (set_of pages.now))) }
    ensures written { IfOk result CanBeWritten }
{
    if found.is_empty() {
        let set = LinkedSet::of(linked);
        return comes_of_values(alloc, pages, set, names);
    }
    Outcome::broken(found, names)
}

/// What pages come to that break no rule of elements.
fn comes_of_links<'a>(
    alloc: Global,
    arena: &'a Bump,
    pages: &Pages<'_, 'a>,
    names: &[Text],
) -> Result<Outcome, NoMemory>
    requires keeps { KeepsAll pages.now }
    requires sound { element_faults (set_of pages.now) ≡ [] }
    requires names { names.now ≡ page_set.names (set_of pages.now) }
    ensures comes { IfOk result (FirstOf names.now (link_faults (set_of pages.now)) (ComesOfValues (set_of pages.now))) }
    ensures written { IfOk result CanBeWritten }
{
    let mut found = Breaches::new(alloc);
    let linked = link_all(alloc, arena, pages.index, pages.bases, &mut found)?;
    comes_of_linked(alloc, pages, &linked, found, names)
}

/// The names of pages.
fn names_of(alloc: Global, pages: &[Page<'_>]) -> Result<Vec<Text>, NoMemory>
    ensures { IfOk result (λ v. v.items ≡ map (λ p. p.name) pages.now) }
{
    let mut names = Vec::new(alloc);
    for page in pages {
        names.push(Text::of(alloc, page.name.as_str())?)?;
    }
    Ok(names)
}

/// What pages come to.
pub(crate) fn closed<'a>(
    alloc: Global,
    arena: &'a Bump,
    pages: &Pages<'_, 'a>,
) -> Result<Outcome, NoMemory>
    requires { KeepsAll pages.now }
    ensures comes { IfOk result (ComesTo (set_of pages.now)) }
    ensures written { IfOk result CanBeWritten }
{
    let names = names_of(alloc, pages.pages)?;
    let found = element_faults_of(alloc, pages)?;
    if found.is_empty() {
        return comes_of_links(alloc, arena, pages, names.as_slice());
    }
    Outcome::broken(found, names.as_slice())
}
