//! The files of a row.
use anyhow::{Context, Result};
use std::fs;
use std::rt::Files;

/// The bytes of a file.
pub(crate) fn bytes_of<R: Files + AllocGlobal>(rt: &R, path: &str) -> Result<Vec<u8>> {
    fs::read(rt, path).context(format_args!("reading {path}"))
}

/// The text of a file.
pub(crate) fn text_of<R: Files + AllocGlobal>(rt: &R, path: &str) -> Result<String> {
    fs::read_to_string(rt, path).context(format_args!("reading {path}"))
}

/// The lines of a file.
pub(crate) fn lines_of<R: Files + AllocGlobal>(rt: &R, path: &str) -> Result<Vec<String>> {
    let text = text_of(rt, path)?;
    let mut lines = Vec::new(rt.alloc());
    for line in text.as_str().lines() {
        lines.push(String::from_str(rt.alloc(), line)?)?;
    }
    Ok(lines)
}

/// The lines of a file that may be missing, and then has none.
pub(crate) fn lines_if_there<R: Files + AllocGlobal>(rt: &R, path: &str) -> Result<Vec<String>> {
    if fs::exists(rt, path)? {
        lines_of(rt, path)
    } else {
        Ok(Vec::new(rt.alloc()))
    }
}
