//! Runs rows of calls on pages and on sets of pages, and tells of each table how many rows it has, or the first row that isn't as it
//! is due. Some tables are on pages and their elements, each by itself. The others are on sets: on their links, also as the pages
//! come one by one, and on what their facts say.
//!
//! `row_tables` says what a table is, and how it is written.
#![tactic(auto)]

mod chains;
mod element_rules;
mod element_tables;
mod elements;
mod items;
mod link_tables;
mod markups;
mod members;
mod names;
mod nodes;
mod notes;
mod pages;
mod parts;
mod sets;
mod sound_pages;
mod standing;

use anyhow::Result;
use bumpalo::Bump;
use row_tables::{Cell, run_tables};
use std::alloc::Global;
use std::process::ExitCode;

/// What is seen of a call of a table, which is given these cells. An arena takes what the call keeps of pages.
fn seen_in(alloc: Global, arena: &Bump, table: &str, cells: &[Cell]) -> Result<String> {
    match table {
        "broken_chains"
        | "chains"
        | "doubled_ids"
        | "footnote_links"
        | "item_fields"
        | "items"
        | "links_as_pages_come"
        | "markups"
        | "members"
        | "missed_references"
        | "views" => { link_tables::seen(alloc, arena, table, cells) }
        _ => element_tables::seen(alloc, arena, table, cells),
    }
}

/// What is seen of a call of a table, which is given these cells.
fn seen(alloc: Global, table: &str, cells: &[Cell]) -> Result<String> {
    seen_in(alloc, &Bump::new(alloc), table, cells)
}

fn main(rt: HostRuntime) -> Result<ExitCode> {
    run_tables(&rt, seen)
}
