//! Calls of a folder.
use anyhow::Result;
use ixds_files::{Cause, Folder};
use std::alloc::Global;
use std::io;
use std::io::Write;

/// The permissions that are asked for. The mask of the system would take two bits of them.
const MODE: Option<u32> = Some(0o622);

/// Makes a file and writes it, and has what it holds stand on the disk where that is asked for.
fn make<F: Folder>(
    folder: &mut F,
    path: &str,
    mode: Option<u32>,
    is_synced: bool,
) -> io::Result<()> {
    let mut file = folder.create(path, mode)?;
    file.write_all(b"whole")?;
    if is_synced {
        return folder.sync(&mut file);
    }
    Ok(())
}

/// Opens a folder, and has its names stand on the disk where that is asked for.
fn enter<F: Folder>(folder: &mut F, path: &str, is_settled: bool) -> io::Result<()> {
    let dir = folder.enter(path)?;
    if is_settled {
        return folder.settle(&dir);
    }
    Ok(())
}

/// Does a step.
fn step<F: Folder>(folder: &mut F, kind: &str, path: &str) -> io::Result<()> {
    match kind {
        "make" => make(folder, path, None, false),
        "sync" => make(folder, path, None, true),
        "permit" => make(folder, path, MODE, false),
        "fill" => make(folder, path, MODE, true),
        "rename" => folder.rename(path, "made/a"),
        "enter" => enter(folder, path, false),
        "settle" => enter(folder, path, true),
        _ => Err(io::Error::from(io::ErrorKind::Unsupported)),
    }
}

/// Looks at a path. It gives the permissions that are found, and whether any are, or why that failed.
fn looked<F: Folder>(folder: &mut F, path: &str) -> (u32, &'static str) {
    match folder.look(path) {
        Ok(Some(mode)) => (mode, "found"),
        Ok(None) => (0, "none"),
        Err(error) => (0, Cause::from(error).text()),
    }
}

/// Does a step. It gives the permissions that are found, and whether it is done, or why it failed.
fn done<F: Folder>(folder: &mut F, kind: &str, path: &str) -> (u32, &'static str) {
    if kind == "look" {
        return looked(folder, path);
    }
    if kind == "remove" {
        folder.remove(path);
        return (0, "done");
    }
    match step(folder, kind, path) {
        Ok(()) => (0, "done"),
        Err(error) => (0, Cause::from(error).text()),
    }
}

/// Does steps, and appends what is told of each.
fn push_done<F: Folder>(folder: &mut F, steps: &str, text: &mut String) -> Result<()> {
    for step in steps.split(' ') {
        let (kind, path) = step.split_once(':').unwrap_or((step, ""));
        let (mode, end) = done(folder, kind, path);
        write!(text, "{step} {mode:o} {end}; ")?;
    }
    Ok(())
}

/// What is told of calls of a folder.
pub(crate) fn asked<F: Folder + Drop>(alloc: Global, mut folder: F, steps: &str) -> Result<String> {
    let mut text = String::new(alloc);
    push_done(&mut folder, steps, &mut text)?;
    Ok(text)
}
