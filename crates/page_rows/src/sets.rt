//! Sets of pages: their elements, and their names.
ghost use Rattle.std.specs.Prelude.{◌≡◌, [], OnOk};

use crate::sound_pages::sound_root;
use anyhow::{Context, Result};
use bumpalo::Bump;
use id_table::Index;
use ix_base::Text;
use row_tables::Cell;
use std::alloc::Global;

/// Adds pages to an index that has none, in this order. Nothing is chosen.
pub(crate) fn add_pages<'a>(
    alloc: Global,
    arena: &'a Bump,
    pages: &[Cell],
    index: &mut Index<'a>,
) -> Result<()>
    requires { index.old.choices ≡ [] }
    ensures { OnOk result (index.new.choices ≡ []) }
{
    let mut number = 0u32;
    for page in pages {
        let root = sound_root(alloc, arena, number, page.text()?)?;
        index.add_page(arena, root)?;
        number = number.checked_add(1).context("too many pages")?;
    }
    Ok(())
}

/// The names of pages that have none: `a`, `b` and so on.
pub(crate) fn letters(alloc: Global, count: usize) -> Result<Vec<Text>> {
    let mut names = Vec::new(alloc);
    for letter in ["a", "b", "c", "d", "e", "f", "g", "h", "i", "j"]
        .iter()
        .take(count)
    {
        names.push(Text::of(alloc, letter)?)?;
    }
    Ok(names)
}
