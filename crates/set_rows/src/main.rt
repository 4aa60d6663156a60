//! Runs rows, and tells of each whether all is as it is due, or what isn't.
//!
//! The arguments are the names of rows, which are of three kinds, in the folder where the program runs:
//!
//! | Name | Its row | Module |
//! |---|---|---|
//! | `read_back/X`, `not_canonical/X` | an instance that is read, the file of that name with `.xbrl` behind it | `instances` |
//! | `calls/X` | a table of single calls of the top call, the file of that name | `calls` |
//! | each other one, also with `:N` behind it | a set of pages through the top call, the folder of that name | `sets` |
//!
//! Where all rows are as due the program ends with status 0, else with 1.
#![tactic(auto)]

mod calls;
mod instances;
mod sets;

use anyhow::Result;
use std::env;
use std::process::ExitCode;
use std::rt::Files;

/// Whether the row of a name is an instance.
fn is_instance(name: &str) -> bool {
    name.starts_with("read_back/") || name.starts_with("not_canonical/")
}

/// What is told of the row of a name, and whether all of it is as due.
fn told<R: Files + AllocGlobal>(rt: &R, name: &str) -> Result<(bool, String)> {
    if is_instance(name) {
        instances::told(rt, name)
    } else if name.starts_with("calls/") {
        calls::told(rt, name)
    } else {
        sets::told(rt, name)
    }
}

/// Runs the row of a name and prints its line, in which a row that isn't as due says so. It tells whether all is as due.
fn shown<R: Files + AllocGlobal + Print>(rt: &R, name: &str) -> Result<bool> {
    let (is_due, text) = match told(rt, name) {
        Ok(told) => told,
        Err(error) => (false, format!(in rt.alloc(); "{error:#}")?),
    };
    let but = if is_due { "" } else { "NOT AS DUE: " };
    println!(rt; "{name}: {but}{text}")?;
    Ok(is_due)
}

fn main(rt: HostRuntime) -> Result<ExitCode> {
    let mut are_due = true;
    for name in env::args(&rt)?.skip(1) {
        are_due &= shown(&rt, name.as_str())?;
    }
    Ok(if are_due {
        ExitCode::SUCCESS
    } else {
        ExitCode::FAILURE
    })
}
