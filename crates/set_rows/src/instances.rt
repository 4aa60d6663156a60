//! Instances that are read: one in the folder `read_back` is to be read, and to give the same bytes when it is prepared again; one in
//! `not_canonical` is to be refused. Its file has the row's name with `.xbrl` behind it.
mod answer;
mod due;

use answer::difference;
use anyhow::{Context, Result};
use due::Due;
use std::fs;
use std::rt::Files;

/// What is told of the row of a name, and whether it is as due.
pub(crate) fn told<R: Files + AllocGlobal>(rt: &R, name: &str) -> Result<(bool, String)> {
    let alloc = rt.alloc();
    let (folder, _) = name.split_once('/').context("no folder")?;
    let due = Due::of_folder(folder).context("nothing is due")?;
    let path = format!(in alloc; "{name}.xbrl")?;
    let bytes = fs::read(rt, path.as_str()).context("reading")?;
    match difference(alloc, due, bytes.as_slice())? {
        Some(text) => Ok((false, String::from_str(alloc, text)?)),
        None => Ok((true, format!(in alloc; "{due}")?)),
    }
}
