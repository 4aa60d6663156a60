//! Tables of single calls of the top call, with calls of the outside that fail and with the calls counted: of each is told how many
//! rows are as they are due, or the first row that isn't.
//!
//! A table is a file of rows of lines, each a key and what stands behind one space; a line that begins with `#` says something to its
//! reader. In every text `%HH` is a byte.
//!
//! | Key | Says |
//! |---|---|
//! | `row NAME` | begins a row |
//! | `words W W`, `word W` | words of the command, parted by spaces, or one alone |
//! | `page NAME TEXT` | a page |
//! | `more N TEXT` | the last page goes on with N times this text, in which each `#` is the number, from 1, and each `^` the next one |
//! | `sample_pages N` | the pages of the sample of N facts |
//! | `step N` | a read gives at most so many bytes; else 65,536 |
//! | `fails pages N`, `fails sink N`, `fails out N` | the call of this number fails |
//! | `room N` | the room of the text; else 4,000 |
//! | `command TEXT` | the command that the words give, its parts parted by bars, or `none` |
//! | `ends NAME TEXT` | how the text of a page ends |
//! | `status N`, `text TEXT` | the status of a run over the pages, and what `out` took |
//! | `each TAG TEXT` | `out` took a line with this code and text at each place of a tag in the page |
//! | `cuts` | the first page is cut behind each of its bytes but the last one, and breaks the rule of its text that a cut page breaks |
//! | `calls P S O` | how often the pages, the sink and `out` were called |
//! | `target none`, `target open TEXT` | the target without a name isn't begun, or holds this and isn't finished |
//! | `target finished TEXT`, `target length N` | it is finished, and holds this, or is so long |
mod command;
mod counted;
mod cuts;
mod due;
mod row;
mod runs;
mod written;

use anyhow::{Context, Result};
use row::Row;
use std::alloc::Global;
use std::fs;
use std::rt::Files;

/// The first row of a table that isn't as it is due, with what was seen; none where each is.
fn first_wrong(alloc: Global, rows: Vec<Row>) -> Result<Option<String>> {
    for row in rows {
        let name = String::from_str(alloc, row.name.as_str())?;
        if let Some(text) = runs::difference(alloc, row).context(format_args!("{name}"))? {
            return Ok(Some(format!(in alloc; "{name}: {text}")?));
        }
    }
    Ok(None)
}

/// What is told of a table, and whether all its rows are as due.
pub(crate) fn told<R: Files + AllocGlobal>(rt: &R, table: &str) -> Result<(bool, String)> {
    let alloc = rt.alloc();
    let text = fs::read_to_string(rt, table).context("reading")?;
    let rows = row::rows_of(alloc, text.as_str())?;
    let count = rows.len();
    match first_wrong(alloc, rows)? {
        Some(text) => Ok((false, text)),
        None => Ok((true, format!(in alloc; "{count} rows")?)),
    }
}
