//! Comparing a row with what is due.
use crate::calls::written::{bytes_of, number_of};
use anyhow::{Context, Result, bail};
use std::alloc::Global;

/// What is due of the target without a name.
#[derive(Drop)]
pub enum Target {
    None,
    Open(Vec<u8>),
    Finished(Vec<u8>),
    Length(u64),
}

impl Target {
    /// A target as a table writes it.
    pub(crate) fn written(alloc: Global, value: &str) -> Result<Target> {
        let (state, text) = value.split_once(' ').unwrap_or((value, ""));
        match state {
            "none" => Ok(Target::None),
            "open" => Ok(Target::Open(bytes_of(alloc, text)?)),
            "finished" => Ok(Target::Finished(bytes_of(alloc, text)?)),
            "length" => Ok(Target::Length(number_of(text)?)),
            _ => bail!("another state of a target"),
        }
    }
}

/// How often each of the three objects is called.
#[derive(Clone, Copy, PartialEq, Eq)]
pub struct Calls {
    pub pages: u64,
    pub sink: u64,
    pub out: u64,
}

impl Calls {
    /// Calls as a table writes them.
    pub(crate) fn written(value: &str) -> Result<Calls> {
        let (pages, rest) = value.split_once(' ').context("calls of the pages")?;
        let (sink, out) = rest.split_once(' ').context("calls of the sink")?;
        Ok(Calls {
            pages: number_of(pages)?,
            sink: number_of(sink)?,
            out: number_of(out)?,
        })
    }
}

/// How the text of a page ends.
pub struct End {
    pub page: String,
    pub text: Vec<u8>,
}

impl Drop for End {
    fn drop(self) {
        let End { page: _, text: _ } = self;
    }
}

/// What is due of a row, as far as the row says it.
pub struct Due {
    pub command: Option<String>,
    pub ends: Vec<End>,
    pub status: Option<u64>,
    pub text: Option<Vec<u8>>,
    pub calls: Option<Calls>,
    pub target: Option<Target>,
}

impl Drop for Due {
    fn drop(self) {
        let Due {
            command: _,
            ends: _,
            status: _,
            text: _,
            calls: _,
            target: _,
        } = self;
    }
}

impl Due {
    /// Nothing is due.
    pub(crate) fn none(alloc: Global) -> Due {
        Due {
            command: None,
            ends: Vec::new(alloc),
            status: None,
            text: None,
            calls: None,
            target: None,
        }
    }
}
