//! Dates.
use anyhow::{Result, bail};
use row_tables::owned;
use std::alloc::Global;
use tr4_dates::{DateFormat, TrFault, apply};

/// The value of a text in the date format of a name.
pub(crate) fn value(alloc: Global, format: &str, text: &str) -> Result<String> {
    let Some(format) = DateFormat::named(format) else {
        return owned(alloc, "no such format");
    };
    match apply(alloc, format, text) {
        Ok(value) => owned(alloc, value.as_str()),
        Err(TrFault::NotInGrammar) => owned(alloc, "not in the format"),
        Err(TrFault::NoMemory) => bail!("no memory"),
    }
}
