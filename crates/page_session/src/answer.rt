//! What the pages of a session come to.
ghost use Rattle.std.specs.Prelude.{◌≡◌, ◌+◌, ◌++◌, ◌∷◌, ◌<◌, ◌≤◌, [], List, length, IfOk, OnOk, None};
ghost use Rattle.ix_base.specs.declared.limits.TheConstants.{MOST_PAGES};
ghost use Rattle.page_session.specs.HandedPages.{Handed, bytes_of, names_of};
ghost use Rattle.page_session.specs.Sessions.{AreKept, break_row, breaks_from, names_kept, tree_row, trees_kept};
ghost use Rattle.targets.specs.Breaches.{PagesComeTo, set_rule};
ghost use Rattle.targets.specs.Forest.{AreSoundRoots, page_set, trees_of};
ghost use Rattle.target_contents.specs.SetOutcomes.{CanBeWritten, ComesTo};

use crate::kept::{Held, Kept};
use crate::root::SoundRoot;
use bumpalo::Bump;
use ix_base::{Breaches, Element, NoMemory, Place, Text};
use std::alloc::Global;
use targets::{Outcome, made};

/// The names of pages.
fn copied_names(alloc: Global, kept: &[Kept<'_>]) -> Result<Vec<Text>, NoMemory>
    ensures { IfOk result (λ names. names.items ≡ names_kept kept.now) }
{
    let mut names = Vec::new(alloc);
    for page in kept {
        let name = Text::of(alloc, page.name.as_str())?;
        names.push(name)?;
    }
    Ok(names)
}

/// Adds the break of a page, if that is kept of it.
fn add_break(page: &Kept<'_>, number: u32, found: &mut Breaches) -> Result<(), NoMemory>
    ensures { OnOk result (found.new ≡ found.old ++ break_row number page.now.held) }
{
    match &page.held {
        Held::Tree(_) => Ok(()),
        Held::Broken { offset, rule } => found.add(
            Place {
                page: number,
                offset: *offset,
            },
            *rule,
        ),
    }
}

/// The breaks of pages.
fn breaks(alloc: Global, kept: &[Kept<'_>]) -> Result<Breaches, NoMemory>
    requires { length kept.now ≤ MOST_PAGES }
    ensures { IfOk result (λ found. found ≡ breaks_from 0 kept.now) }
{
    let mut found = Breaches::new(alloc);
    for (number, page) in kept.iter().enumerate() {
        add_break(page, number as u32, &mut found)?;
    }
    Ok(found)
}

/// Adds the root of a tree, under the number of the roots before it.
fn push_root<'s, 'a: 's>(
    alloc: Global,
    arena: &'s Bump,
    root: &SoundRoot<'a>,
    roots: &mut Vec<&'s Element<'s>>,
) -> Result<(), NoMemory>
    requires { length roots.old.items < MOST_PAGES }
    ensures trees { OnOk result (trees_of roots.new.items ≡ trees_of roots.old.items ++ root.now.tree ∷ []) }
    ensures sound { OnOk result (AreSoundRoots 0 roots.old.items → AreSoundRoots 0 roots.new.items) }
    ensures few { OnOk result (length roots.new.items ≤ length roots.old.items + 1) }
{
    let count = roots.len();
    let root = root.on_page(alloc, arena, count as u32)?;
    roots.push(root)?;
    Ok(())
}

/// Adds the root of a page, if its tree is kept.
fn add_root<'s, 'a: 's>(
    alloc: Global,
    arena: &'s Bump,
    page: &Kept<'a>,
    roots: &mut Vec<&'s Element<'s>>,
) -> Result<(), NoMemory>
    requires { length roots.old.items < MOST_PAGES }
    ensures trees { OnOk result (trees_of roots.new.items ≡ trees_of roots.old.items ++ tree_row page.now.held) }
    ensures sound { OnOk result (AreSoundRoots 0 roots.old.items → AreSoundRoots 0 roots.new.items) }
    ensures few { OnOk result (length roots.new.items ≤ length roots.old.items + 1) }
{
    match &page.held {
        Held::Tree(root) => push_root(alloc, arena, root, roots),
        Held::Broken { .. } => Ok(()),
    }
}

/// The roots of pages, each under its number.
fn roots_of<'s, 'a: 's>(
    alloc: Global,
    arena: &'s Bump,
    kept: &[Kept<'a>],
) -> Result<Vec<&'s Element<'s>>, NoMemory>
    requires { length kept.now ≤ MOST_PAGES }
    ensures trees { IfOk result (λ roots. trees_of roots.items ≡ trees_kept kept.now) }
    ensures sound { IfOk result (λ roots. AreSoundRoots 0 roots.items) }
{
    let mut roots = Vec::new(alloc);
    for page in kept {
        add_root(alloc, arena, page, &mut roots)?;
    }
    Ok(roots)
}

/// What pages whose texts have no break come to. The arena of what is made in between is given back.
fn made_of(
    alloc: Global,
    base: &str,
    names: &[Text],
    kept: &[Kept<'_>],
) -> Result<Outcome, NoMemory>
    requires { length kept.now ≤ MOST_PAGES }
    ensures made { IfOk result (ComesTo (page_set base.now names.now (trees_kept kept.now))) }
    ensures written { IfOk result CanBeWritten }
{
    let arena = Bump::new(alloc);
    let roots = roots_of(alloc, &arena, kept)?;
    made(alloc, &arena, base, names, roots.as_slice())
}

/// What pages come to.
pub fn outcome_of(alloc: Global, base: &str, kept: &[Kept<'_>]) -> Result<Outcome, NoMemory>
    requires { length kept.now ≤ MOST_PAGES }
    ensures says { IfOk result (λ o. (pages : List Handed) → AreKept kept.now pages → set_rule (bytes_of pages) ≡ None
        → PagesComeTo base.now (names_of pages) (bytes_of pages) o) }
    ensures written { IfOk result CanBeWritten }
{
    let names = copied_names(alloc, kept)?;
    let shown = names.as_slice();
    let found = breaks(alloc, kept)?;
    if found.is_empty() {
        return made_of(alloc, base, shown, kept);
    }
    Outcome::broken(found, shown)
}
