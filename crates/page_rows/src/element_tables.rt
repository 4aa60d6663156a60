//! What is seen of the calls of tables on pages and their elements, each by itself.
use crate::{element_rules, elements, names, nodes, pages, parts};
use anyhow::{Result, bail};
use bumpalo::Bump;
use row_tables::Cell;
use std::alloc::Global;

/// What is seen of a call of a table whose rows give one text.
fn seen_of_text(alloc: Global, arena: &Bump, table: &str, text: &str) -> Result<String> {
    match table {
        "blanks" => nodes::blank(alloc, text),
        "element_rules" => element_rules::of_page(alloc, arena, text),
        "ncnames" => names::ncname(alloc, text),
        "root_rules" => element_rules::of_root(alloc, arena, text),
        "units" => parts::unit(alloc, arena, text),
        _ => bail!("no such table of one cell"),
    }
}

/// What is seen of a call of a table whose rows give one cell.
fn seen_of_one(alloc: Global, arena: &Bump, table: &str, cell: &Cell) -> Result<String> {
    match table {
        "faults" => pages::fault(alloc, arena, cell.bytes()),
        "scopes" => elements::inner_scope(alloc, arena, cell.bytes()),
        _ => seen_of_text(alloc, arena, table, cell.text()?),
    }
}

/// What is seen of a call of a table whose rows give a word and a cell behind it.
fn seen_by_word(
    alloc: Global,
    arena: &Bump,
    table: &str,
    word: &str,
    behind: &Cell,
) -> Result<String> {
    match table {
        "contexts" => parts::context(alloc, arena, word, behind.text()?),
        "links" => names::link(alloc, word, behind.text()?),
        "nodes" => nodes::told(alloc, arena, word, behind.bytes()),
        "trees" => elements::tree(alloc, arena, word, behind.bytes()),
        _ => bail!("no such table of two cells"),
    }
}

/// What is seen of a call of a table whose rows give two cells.
fn seen_of_two(
    alloc: Global,
    arena: &Bump,
    table: &str,
    front: &Cell,
    behind: &Cell,
) -> Result<String> {
    if table == "qualified_names" {
        return names::qualified(alloc, arena, front.bytes(), behind.text()?);
    }
    seen_by_word(alloc, arena, table, front.text()?, behind)
}

/// What is seen of a call of a table whose rows give more, or any number of cells.
fn seen_of_more(alloc: Global, arena: &Bump, table: &str, cells: &[Cell]) -> Result<String> {
    match table {
        "attributes" => elements::attribute(alloc, arena, cells),
        "bases" => names::base(alloc, arena, cells),
        "named_nodes" => nodes::by_name(alloc, arena, cells),
        "waiting" => pages::waiting(alloc, arena, cells),
        _ => bail!("no such table"),
    }
}

/// What is seen of a call of a table, which is given these cells. An arena takes what the call keeps of pages.
pub(crate) fn seen(alloc: Global, arena: &Bump, table: &str, cells: &[Cell]) -> Result<String> {
    match cells {
        [cell] if table != "waiting" => seen_of_one(alloc, arena, table, cell),
        [front, behind] if table != "waiting" => seen_of_two(alloc, arena, table, front, behind),
        _ => seen_of_more(alloc, arena, table, cells),
    }
}
