//! Runs rows of calls on files and standard output, and tells of each table how many rows it has, or the first row that isn't as it
//! is due.
//!
//! `row_tables` says what a table is, and how it is written. A row of targets or of a folder runs in a folder `made`, in the one where
//! the program runs, which is made for the row and removed behind it.
#![tactic(auto)]

mod failing;
mod folders;
mod pages;
mod slow;
mod standing;
mod targets;
mod texts;
mod told;
mod unsteady;

use anyhow::{Context, Result, bail};
use failing::Failing;
use ixds_files::{Folder, SystemFolder};
use row_tables::{Cell, run_tables};
use slow::{Slow, SlowPages};
use std::alloc::Global;
use std::process::ExitCode;
use std::rt::Files;
use std::{fs, io};
use unsteady::Unsteady;

/// What is seen of a call that makes no files.
fn seen_of_one<R: Files + AllocGlobal + Print>(rt: &R, table: &str, cell: &str) -> Result<String> {
    let alloc = rt.alloc();
    match table {
        "pages" => pages::read(alloc, SystemFolder::new(rt), cell),
        "printed_texts" => texts::put(alloc, io::writer(rt), cell.as_bytes()),
        "unsteady_folder" => folders::asked(alloc, SystemFolder::new(&Unsteady), cell),
        _ => bail!("no such table of one cell"),
    }
}

/// What is seen of a call on a slow file.
fn seen_of_slow(alloc: Global, table: &str, file: &str, cell: &str) -> Result<String> {
    let file = Slow::written(file).context("no such file")?;
    match table {
        "slow_pages" => pages::read(alloc, SlowPages { file }, cell),
        "slow_texts" => texts::put(alloc, file, cell.as_bytes()),
        _ => bail!("no such table of a slow file"),
    }
}

/// What is told of steps in a folder.
fn told_in<F: Folder + Drop>(alloc: Global, table: &str, folder: F, steps: &str) -> Result<String> {
    match table {
        "folder" => folders::asked(alloc, folder, steps),
        _ => targets::written(alloc, folder, steps),
    }
}

/// What is told of steps, where the call of the number that is written fails.
fn stepped<R: Files + AllocGlobal>(
    rt: &R,
    table: &str,
    fails: &str,
    steps: &str,
) -> Result<String> {
    let folder = Failing::new(SystemFolder::new(rt), fails);
    told_in(rt.alloc(), table, folder, steps)
}

/// What is seen of steps in the folder `made`, and of what stands there behind them.
fn seen_of_steps<R: Files + AllocGlobal>(
    rt: &R,
    table: &str,
    [stood, steps, looked]: [&str; 3],
) -> Result<String> {
    let (fails, stood) = stood.split_once(' ').unwrap_or((stood, ""));
    standing::make_all(rt, stood)?;
    let mut text = stepped(rt, table, fails, steps)?;
    standing::push_all(rt, looked, &mut text)?;
    Ok(text)
}

/// What is seen of steps in the folder `made`, which is made for them and removed behind them.
fn seen_in_folder<R: Files + AllocGlobal>(rt: &R, table: &str, texts: [&str; 3]) -> Result<String> {
    fs::create_dir(rt, "made")?;
    let seen = seen_of_steps(rt, table, texts);
    fs::remove_dir_all(rt, "made")?;
    seen
}

/// What is seen of steps in the folder `made`, by three cells: what stands there, the steps, and the paths that are looked at.
fn seen_of_three<R: Files + AllocGlobal>(
    rt: &R,
    table: &str,
    [stood, steps, looked]: [&Cell; 3],
) -> Result<String> {
    let texts = [stood.text()?, steps.text()?, looked.text()?];
    seen_in_folder(rt, table, texts)
}

/// What is seen of a call of a table, which is given these cells.
fn seen<R: Files + AllocGlobal + Print>(rt: &R, table: &str, cells: &[Cell]) -> Result<String> {
    match cells {
        [cell] => seen_of_one(rt, table, cell.text()?),
        [file, cell] => seen_of_slow(rt.alloc(), table, file.text()?, cell.text()?),
        [stood, steps, looked] => seen_of_three(rt, table, [stood, steps, looked]),
        _ => bail!("no such table"),
    }
}

fn main(rt: HostRuntime) -> Result<ExitCode> {
    run_tables(&rt, |_, table, cells| seen(&rt, table, cells))
}
