//! How many links are pending, and how many doubled, behind each page of a set.
ghost use Rattle.std.specs.Prelude.{◌≡◌, ◌+◌, length, OnOk};

use crate::sound_pages::sound_root;
use anyhow::{Context, Result};
use bumpalo::Bump;
use row_tables::Cell;
use std::alloc::Global;
use targets::Set;

/// Adds a page, which is called by its number, to those before it.
fn add<'a>(
    alloc: Global,
    arena: &'a Bump,
    set: &mut Set<'a>,
    number: u32,
    page: &Cell,
) -> Result<()>
    requires { length set.old.held.pages ≡ number }
    ensures { OnOk result (length set.new.held.pages ≡ number + 1) }
{
    let root = sound_root(alloc, arena, number, page.text()?)?;
    let name = number.to_string(alloc)?;
    set.add_page(name.as_str(), root)?;
    Ok(())
}

/// Writes the numbers of a set's pending and doubled links.
fn push_counts(set: &Set<'_>, counts: &mut String) -> Result<()> {
    write!(counts, "({} {})", set.pending(), set.doubled())?;
    Ok(())
}

/// Writes the numbers of pending and of doubled links behind each of these pages, which a set gets that has none yet.
fn push_each<'a>(
    alloc: Global,
    arena: &'a Bump,
    set: &mut Set<'a>,
    pages: &[Cell],
    counts: &mut String,
) -> Result<()>
    requires { length set.old.held.pages ≡ 0 }
{
    let mut number = 0u32;
    for page in pages {
        add(alloc, arena, set, number, page)?;
        push_counts(set, counts)?;
        number = number.checked_add(1).context("too many pages")?;
    }
    Ok(())
}

/// The same of a set that is made for them. It is held here alone, and lent to what asks it.
fn push_all<'a>(alloc: Global, arena: &'a Bump, pages: &[Cell], counts: &mut String) -> Result<()> {
    let mut set = Set::new(alloc, arena, "http://example.com/r/")?;
    push_each(alloc, arena, &mut set, pages, counts)
}

/// The numbers of pending and of doubled links behind each of these pages, which are called by their numbers.
pub(crate) fn counts<'a>(alloc: Global, arena: &'a Bump, pages: &[Cell]) -> Result<String> {
    let mut counts = String::new(alloc);
    push_all(alloc, arena, pages, &mut counts)?;
    Ok(counts)
}
