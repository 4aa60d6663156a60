//! Rows of pages through the top call: of each is told what was seen, or what isn't as it is due.
//!
//! A row is a folder with these files:
//!
//! | File | Has |
//! |---|---|
//! | `words` | the words of the command, one a line; those that end in `.html` are its pages, each a file of that name |
//! | `due_status`, `due_out` | the exit status, and the text that `out` takes |
//! | `due_default.xbrl`, `due_x.xbrl` | the whole instance of the target without a name, and of the target x; no other target is due |
//! | `orders`, may be missing | the names of the pages in other orders, one order a line, which are to give the same |
//! | `faults`, may be missing | numbers of calls of the sink, one a line, each with what stands in the targets where that call fails |
//!
//! A row runs with reads of 1, of 7 and of 65,536 bytes. A name with a number behind a colon, as `tuple:7`, runs its row once, with
//! reads of 65,536 bytes, behind so many allocations of a byte: where the allocation of some number is refused to the program, the
//! number behind the colon decides which one of the run that is.
mod due;
mod faults;
mod files;
mod outcome;
mod refused;
mod row;

use anyhow::{Context, Result};
use due::Due;
use outcome::STEPS;
use row::Row;
use std::alloc::Global;
use std::rt::Files;

/// The first difference of a row: the row as it stands, its other orders, its faults.
fn difference(alloc: Global, row: &Row) -> Result<Option<String>> {
    if let Some(text) = outcome::difference(alloc, row, &row.words)? {
        return Ok(Some(text));
    }
    for words in &row.orders {
        if let Some(text) = outcome::difference(alloc, row, words)? {
            return Ok(Some(text));
        }
    }
    for fault in &row.faults {
        if let Some(text) = faults::difference(alloc, row, fault)? {
            return Ok(Some(text));
        }
    }
    Ok(None)
}

/// What was seen of a row in which all is as due.
fn seen(alloc: Global, row: &Row) -> Result<String> {
    let orders = row.orders.len().saturating_add(1);
    let runs = orders.saturating_mul(STEPS.len());
    let mut text = format!(in alloc; "{}, {runs} runs", row.due)?;
    if !row.faults.is_empty() {
        write!(text, ", {} faults", row.faults.len())?;
    }
    Ok(text)
}

/// What is told of the row of a name, and whether all of it is as due.
pub(crate) fn told<R: Files + AllocGlobal>(rt: &R, name: &str) -> Result<(bool, String)> {
    let alloc = rt.alloc();
    if let Some((name, bytes)) = name.split_once(':') {
        let bytes = bytes.parse::<u32>().context("a number of bytes")?;
        return refused::told(alloc, &Row::read(rt, name)?, bytes as usize);
    }
    let row = Row::read(rt, name)?;
    match difference(alloc, &row)? {
        Some(text) => Ok((false, text)),
        None => Ok((true, seen(alloc, &row)?)),
    }
}
