//! Numbers, and values that are fixed.
use anyhow::{Context, Result, bail, ensure};
use row_tables::{Cell, owned, yes_or_no};
use scale_sign::{is_unsigned, scaled};
use std::alloc::Global;
use std::str;
use tr4_numbers::{FixedFormat, NumberFormat, apply};

/// The bytes in front of a place, as a text.
fn front(alloc: Global, bytes: &[u8], end: usize) -> Result<String> {
    let written = bytes.get(..end).context("past the end")?;
    owned(alloc, str::from_utf8(written).context("no text")?)
}

/// The value of a text in the number format of a name.
pub(crate) fn value(alloc: Global, format: &str, text: &str) -> Result<String> {
    let Some(format) = NumberFormat::named(format) else {
        return owned(alloc, "no such format");
    };
    let mut out = vec![in alloc; 0u8; text.len() + 1]?;
    match apply(format, text, &mut out) {
        Some(end) => front(alloc, &out, end),
        None => owned(alloc, "not in the format"),
    }
}

/// The value of the fixed format of a name.
pub(crate) fn fixed(alloc: Global, format: &str) -> Result<String> {
    match FixedFormat::named(format) {
        Some(format) => owned(alloc, format.value()),
        None => owned(alloc, "no such format"),
    }
}

/// Whether a text is an unsigned decimal.
pub(crate) fn unsigned(alloc: Global, text: &str) -> Result<String> {
    owned(alloc, yes_or_no(is_unsigned(text)))
}

/// An unsigned decimal, scaled and signed.
fn moved_by(alloc: Global, digits: &str, scale: i32, is_negative: bool) -> Result<String> {
    ensure!(is_unsigned(digits), "a decimal that isn't unsigned");
    ensure!(scale.unsigned_abs() <= 100, "a scale that is too large");
    ensure!(digits.len() < 1_000_000, "a decimal that is too long");
    let mut out = vec![in alloc; 0u8; digits.len() + 103]?;
    let end = scaled(digits, scale, is_negative, &mut out);
    front(alloc, &out, end)
}

/// An unsigned decimal, scaled and signed.
pub(crate) fn moved(alloc: Global, cells: &[Cell]) -> Result<String> {
    let [digits, scale, sign] = cells else {
        bail!("a decimal, a scale and a sign are wanted");
    };
    let scale = scale.text()?.parse::<i32>().context("a scale")?;
    moved_by(alloc, digits.text()?, scale, sign.text()? == "-")
}
