//! What is seen of the calls of tables on sets of pages: on their links, also as the pages come one by one, and on what their facts
//! say.
ghost use Rattle.std.specs.Prelude.{◌≡◌, []};

use crate::sets::add_pages;
use crate::{chains, items, markups, members, notes, standing};
use anyhow::{Context, Result, bail};
use bumpalo::Bump;
use id_table::Index;
use row_tables::Cell;
use std::alloc::Global;

/// The word that stands in front of the pages of a row, empty where its table has none, and the pages.
fn word_and_pages<'c>(table: &str, cells: &'c [Cell]) -> Result<(&'c str, &'c [Cell])> {
    match table {
        "chains" | "footnote_links" => {
            let (head, pages) = cells.split_first().context("a word and pages")?;
            Ok((head.text()?, pages))
        }
        _ => Ok(("", cells)),
    }
}

/// What is seen of a call on the index of so many pages, which may be given a word.
fn seen_in<'a>(
    alloc: Global,
    arena: &'a Bump,
    index: &Index<'a>,
    count: usize,
    table: &str,
    word: &str,
) -> Result<String>
    requires { index.now.choices ≡ [] }
{
    match table {
        "broken_chains" => chains::linked(alloc, arena, index, count),
        "chains" => chains::text(alloc, arena, index, word),
        "doubled_ids" => chains::doubled(alloc, index, count),
        "footnote_links" => notes::of_target(alloc, arena, index, count, word),
        "members" => members::of_first(alloc, arena, index),
        "missed_references" => {
            items::ensure_apart(alloc, index)?;
            items::missed(alloc, index)
        }
        _ => bail!("no such table"),
    }
}

/// What is seen of a call of a table on pages, which an index takes that has none.
fn seen_with<'a>(
    alloc: Global,
    arena: &'a Bump,
    index: &mut Index<'a>,
    table: &str,
    cells: &[Cell],
) -> Result<String>
    requires { index.old.choices ≡ [] }
{
    if table == "markups" {
        return markups::text(alloc, arena, index, cells);
    }
    let (word, pages) = word_and_pages(table, cells)?;
    add_pages(alloc, arena, pages, index)?;
    seen_in(alloc, arena, index, pages.len(), table, word)
}

/// What is seen of a call of a table on pages. The index is held here alone, and each call is lent it.
fn of_pages(alloc: Global, arena: &Bump, table: &str, cells: &[Cell]) -> Result<String> {
    let mut index = Index::new(alloc);
    seen_with(alloc, arena, &mut index, table, cells)
}

/// What is seen of a call of a table, which is given these cells. An arena takes the pages.
pub(crate) fn seen(alloc: Global, arena: &Bump, table: &str, cells: &[Cell]) -> Result<String> {
    match table {
        "item_fields" => items::fields(alloc, arena, cells),
        "items" => items::value(alloc, arena, cells),
        "links_as_pages_come" => standing::counts(alloc, arena, cells),
        "views" => items::viewed(alloc, arena, cells),
        _ => of_pages(alloc, arena, table, cells),
    }
}
