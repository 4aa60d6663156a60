//! Texts as tables write them.
use anyhow::{Context, Result};
use percent_encoding::percent_decode;
use std::alloc::Global;
use std::str;

/// The bytes of a written text.
pub(crate) fn bytes_of(alloc: Global, written: &str) -> Result<Vec<u8>> {
    let mut bytes = Vec::new(alloc);
    percent_decode(written.as_bytes()).append_to(&mut bytes)?;
    Ok(bytes)
}

/// A written text whose bytes are UTF-8.
pub(crate) fn text_of(alloc: Global, written: &str) -> Result<String> {
    let bytes = bytes_of(alloc, written)?;
    let text = str::from_utf8(bytes.as_slice()).context("not UTF-8")?;
    Ok(String::from_str(alloc, text)?)
}

/// A written number.
pub(crate) fn number_of(written: &str) -> Result<u64> {
    written.parse::<u64>().context("a number")
}
