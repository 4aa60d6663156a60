//! What pages come to that are all there before anything is asked of them. No links are counted meanwhile, and what is to be chosen
//! for ids that several elements have is chosen once, if there are any.
ghost use Rattle.std.specs.Prelude.{◌≡◌, [], false, map, IfOk, OnOk};
ghost use Rattle.ix_base.specs.LocatedElements.{marked};
ghost use Rattle.page_links.specs.Choices.{HasChoices};
ghost use Rattle.targets.specs.Forest.{AreSoundRoots, page_set, paged, trees_of};
ghost use Rattle.page_links.specs.Model.{AreSoundFrom, as_paged, names_with};
ghost use Rattle.target_contents.specs.PageSet.{page_bases};
ghost use Rattle.target_contents.specs.SetOutcomes.{CanBeWritten, ComesTo};

use crate::closing::closed;
use bumpalo::Bump;
use id_table::Index;
use ix_base::{Element, NoMemory, Text};
use page_links::{Links, Page, PageNames, Pages, choose_from};
use scopes::Bases;
use std::alloc::Global;
use target_contents::Outcome;

/// The pages of these names and roots.
fn pages_of<'a>(
    alloc: Global,
    names: &[Text],
    roots: &[&'a Element<'a>],
) -> Result<Vec<Page<'a>>, NoMemory>
    requires { AreSoundRoots 0 roots.now }
    ensures pages { IfOk result (λ v. map as_paged v.items ≡ paged names.now (trees_of roots.now)) }
    ensures sound { IfOk result (λ v. AreSoundFrom 0 v.items) }
{
    let mut pages = Vec::new(alloc);
    for (name, root) in names.iter().zip(roots) {
        let name = Text::of(alloc, name.as_str())?;
        pages.push(Page { name, root: *root })?;
    }
    Ok(pages)
}

/// An index of the elements of pages, in which nothing is chosen.
fn index_of<'a>(alloc: Global, arena: &'a Bump, pages: &[Page<'a>]) -> Result<Index<'a>, NoMemory>
    requires { AreSoundFrom 0 pages.now }
    ensures { IfOk result (λ i. i ≡ record { spots = marked (map as_paged pages.now); choices = []; is_spent = false }) }
{
    let mut index = Index::new(alloc);
    for page in pages {
        index.add_page(arena, page.root)?;
    }
    Ok(index)
}

/// The bases of pages.
fn bases_of(alloc: Global, base: &str, pages: &[Page<'_>]) -> Result<Bases, NoMemory>
    ensures { IfOk result (λ b. b ≡ record {
      pages = page_bases (record { base = base.now; pages = map as_paged pages.now });
      is_spent = false;
    }) }
{
    let mut bases = Bases::new(alloc);
    for page in pages {
        bases.add_page(base, page.name.as_str(), page.root)?;
    }
    Ok(bases)
}

/// Chooses for the ids that several elements have, where nothing was chosen before.
fn choose_all<'a>(alloc: Global, pages: &[Page<'a>], index: &mut Index<'a>) -> Result<(), NoMemory>
    requires { index.old.choices ≡ [] }
    ensures spots { OnOk result ((index.new.spots ≡ index.old.spots) × (index.old.is_spent ≡ false → index.new.is_spent ≡ false)) }
    ensures choices { OnOk result (HasChoices (names_with pages.now []) index.old.spots index.new) }
{
    if !index.has_repeats() {
        return Ok(());
    }
    let names = PageNames { pages, next: "" };
    let mut links = Links::new(alloc);
    links.add_all(alloc, &names, index.spots())?;
    choose_from(index, &links, 0)
}

/// What these pages come to under a base.
fn made_of<'a>(
    alloc: Global,
    arena: &'a Bump,
    base: &str,
    pages: &[Page<'a>],
) -> Result<Outcome, NoMemory>
    requires { AreSoundFrom 0 pages.now }
    ensures comes { IfOk result (ComesTo (record { base = base.now; pages = map as_paged pages.now })) }
    ensures written { IfOk result CanBeWritten }
{
    let mut index = index_of(alloc, arena, pages)?;
    choose_all(alloc, pages, &mut index)?;
    let bases = bases_of(alloc, base, pages)?;
    let pages = Pages {
        base,
        pages,
        index: &index,
        bases: &bases,
    };
    closed(alloc, arena, &pages)
}

/// What is made of the trees of pages of these names, under this base: what a [`Set`](crate::Set) makes of them that takes them one by
/// one and is closed, without what it would have to keep between them.
pub fn made<'a>(
    alloc: Global,
    arena: &'a Bump,
    base: &str,
    names: &[Text],
    roots: &[&'a Element<'a>],
) -> Result<Outcome, NoMemory>
    requires { AreSoundRoots 0 roots.now }
    ensures made { IfOk result (ComesTo (page_set base.now names.now (trees_of roots.now))) }
    ensures written { IfOk result CanBeWritten }
{
    let pages = pages_of(alloc, names, roots)?;
    made_of(alloc, arena, base, pages.as_slice())
}
