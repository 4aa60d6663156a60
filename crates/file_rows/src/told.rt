//! What is told of calls of the outside.
use anyhow::Result;
use ixds_files::Blamed;
use std::alloc::Global;
use std::str;

/// Whether all calls of an object were Ok, what it was asked for last, and why that failed.
pub(crate) fn blamed<B: Blamed>(alloc: Global, object: &B, is_done: bool) -> Result<String> {
    let end = if is_done { "done" } else { "failed" };
    let cause = match object.cause() {
        None => "no cause",
        Some(cause) => cause.text(),
    };
    let name = object.name(alloc)?;
    let name = str::from_utf8(&name).unwrap_or("(no text)");
    Ok(format!(in alloc; "{end}, {name}: {cause}")?)
}
