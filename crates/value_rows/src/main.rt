//! Runs rows of calls on characters, texts, numbers, dates, reports and memory, and tells of each table how many rows it has, or the
//! first row that isn't as it is due.
//!
//! `row_tables` says what a table is, and how it is written.
#![tactic(auto)]

mod characters;
mod dates;
mod memory;
mod numbers;
mod reports;
mod texts;

use anyhow::{Result, bail};
use row_tables::{Cell, run_tables};
use std::alloc::Global;
use std::process::ExitCode;

/// What is seen of a call of a table whose rows give one text.
fn seen_of_one(alloc: Global, table: &str, text: &str) -> Result<String> {
    match table {
        "classes" => reports::class(alloc, text),
        "escapes" => texts::escaped(alloc, text),
        "fixed_values" => numbers::fixed(alloc, text),
        "lists" => texts::listed(alloc, text),
        "rules" => reports::rule(alloc, text),
        "texts_in_room" => texts::roomy(alloc, text),
        "texts_in_order" => texts::in_order(alloc, text),
        "tokens" => texts::trimmed(alloc, text),
        "unsigned" => numbers::unsigned(alloc, text),
        _ => bail!("no such table of one text"),
    }
}

/// What is seen of a call of a table whose rows give two texts.
fn seen_of_two(alloc: Global, table: &str, front: &str, behind: &str) -> Result<String> {
    match table {
        "dates" => dates::value(alloc, front, behind),
        "numbers" => numbers::value(alloc, front, behind),
        "orders" => reports::order(alloc, front, behind),
        "reports" => reports::report(alloc, front, behind),
        "texts" => texts::pushed(alloc, front, behind),
        _ => bail!("no such table of two texts"),
    }
}

/// What is seen of a call of a table whose rows give more.
fn seen_of_more(alloc: Global, table: &str, cells: &[Cell]) -> Result<String> {
    match table {
        "memory_pages" => memory::pages(alloc, cells),
        "memory_targets" => memory::targets(alloc, cells),
        "memory_texts" => memory::text(alloc, cells),
        "scaled" => numbers::moved(alloc, cells),
        _ => bail!("no such table"),
    }
}

/// What is seen of a call of a table, which is given these cells.
fn seen(alloc: Global, table: &str, cells: &[Cell]) -> Result<String> {
    match cells {
        [page] if table == "characters" => characters::read(alloc, page.bytes()),
        [text] => seen_of_one(alloc, table, text.text()?),
        [front, behind] => seen_of_two(alloc, table, front.text()?, behind.text()?),
        _ => seen_of_more(alloc, table, cells),
    }
}

fn main(rt: HostRuntime) -> Result<ExitCode> {
    run_tables(&rt, seen)
}
