//! Running tables, and telling of each how many rows it has, or the first row that isn't as it is due.
ghost use Rattle.std.specs.Prelude.{◌≡◌, ◌⊎◌, Ok, None, IfOk, string_bytes};
ghost use Rattle.std.specs.Process.{exit_status};

use crate::cells::{Cell, cells_of};
use anyhow::{Context, Result};
use compare_rows::differing_line;
use std::alloc::Global;
use std::process::ExitCode;
use std::rt::{Env, Files};
use std::{env, fs};

/// What is told of what is seen of a call of a table, where it isn't as it is due.
fn call_difference<F: Fn(Global, &str, &[Cell]) -> Result<String>>(
    alloc: Global,
    seen: &F,
    table: &str,
    given: &[Cell],
    due: &Cell,
) -> Result<Option<String>>
    requires { F.IsAlwaysCallable seen.now }
    ensures { IfOk result (λ told. told ≡ None
        → ((text : _) × F.post seen.now alloc table.entry given.entry (Ok text) × (string_bytes text ≡ due.now.bytes.items))) }
{
    let text = seen(alloc, table, given)?;
    differing_line(alloc, "what is seen", due.bytes(), text.as_str().as_bytes())
}

/// What is told of a row of a table, where it isn't as due.
fn row_difference<F: Fn(Global, &str, &[Cell]) -> Result<String>>(
    alloc: Global,
    seen: &F,
    table: &str,
    line: &str,
) -> Result<Option<String>>
    requires { F.IsAlwaysCallable seen.now }
{
    let cells = cells_of(alloc, line)?;
    let (due, given) = cells.as_slice().split_last().context("no cell")?;
    call_difference(alloc, seen, table, given, due)
}

/// What is told of a row of a table behind the row itself, where it isn't as due.
fn row_told<F: Fn(Global, &str, &[Cell]) -> Result<String>>(
    alloc: Global,
    line: &str,
    table: &str,
    seen: &F,
) -> Result<Option<String>>
    requires { F.IsAlwaysCallable seen.now }
{
    match row_difference(alloc, seen, table, line) {
        Ok(None) => Ok(None),
        Ok(Some(text)) => Ok(Some(format!(in alloc; "{line}: {text}")?)),
        Err(error) => Ok(Some(format!(in alloc; "{line}: {error:#}")?)),
    }
}

/// What is told of the first row of a table of this text that isn't as due, else its count of rows, and whether all are as due.
fn rows_told<F: Fn(Global, &str, &[Cell]) -> Result<String>>(
    alloc: Global,
    seen: &F,
    table: &str,
    text: &str,
) -> Result<(bool, String)>
    requires { F.IsAlwaysCallable seen.now }
{
    let mut count = 0u64;
    for line in text.lines() {
        if line.starts_with('#') {
            continue;
        }
        if let Some(told) = row_told(alloc, line, table, seen)? {
            return Ok((false, told));
        }
        count = count.saturating_add(1);
    }
    Ok((true, format!(in alloc; "{count} rows")?))
}

/// What is told of a table, and whether all its rows are as due.
fn told<R: Files + AllocGlobal, F: Fn(Global, &str, &[Cell]) -> Result<String>>(
    rt: &R,
    seen: &F,
    table: &str,
) -> Result<(bool, String)>
    requires { F.IsAlwaysCallable seen.now }
{
    let text = fs::read_to_string(rt, table).context("reading")?;
    rows_told(rt.alloc(), seen, table, text.as_str())
}

/// Runs the rows of a table and prints its line. It tells whether all are as due.
fn shown<R: Files + AllocGlobal + Print, F: Fn(Global, &str, &[Cell]) -> Result<String>>(
    rt: &R,
    seen: &F,
    table: &str,
) -> Result<bool>
    requires { F.IsAlwaysCallable seen.now }
{
    let (is_due, text) = match told(rt, seen, table) {
        Ok(told) => told,
        Err(error) => (false, format!(in rt.alloc(); "{error:#}")?),
    };
    let but = if is_due { "" } else { "NOT AS DUE: " };
    println!(rt; "{table}: {but}{text}")?;
    Ok(is_due)
}

/// Runs the tables that the arguments name. What is seen of a call of a table is told by the table's name and the cells that the
/// call is given.
pub fn run_tables<
    R: Env + Files + AllocGlobal + Print,
    F: Fn(Global, &str, &[Cell]) -> Result<String>,
>(rt: &R, seen: F) -> Result<ExitCode>
    requires { F.IsAlwaysCallable seen }
    ensures { IfOk result (λ code. (exit_status code ≡ 0) ⊎ (exit_status code ≡ 1)) }
{
    let mut are_due = true;
    for table in env::args(rt)?.skip(1) {
        are_due &= shown(rt, &seen, table.as_str())?;
    }
    Ok(if are_due {
        ExitCode::SUCCESS
    } else {
        ExitCode::FAILURE
    })
}
