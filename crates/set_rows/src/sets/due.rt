//! Comparing a run with what is due.
use crate::sets::files::{bytes_of, text_of};
use anyhow::{Context, Result};
use std::alloc::Global;
use std::rt::Files;
use std::{fmt, fs};

/// How a text names the target without a name.
const DEFAULT: &str = "(default)";

/// A target that is due, and the whole of its instance.
pub struct Target {
    pub name: String,
    pub bytes: Vec<u8>,
}

impl Drop for Target {
    fn drop(self) {
        let Target { name: _, bytes: _ } = self;
    }
}

impl Target {
    /// The name by which a text tells of it.
    pub(crate) fn told_name(&self) -> &str {
        if self.name.is_empty() {
            DEFAULT
        } else {
            self.name.as_str()
        }
    }
}

/// What is due after a run: its exit status, what `out` takes, and the targets that are written, in order.
pub struct Due {
    pub status: u8,
    pub text: String,
    pub targets: Vec<Target>,
}

impl Drop for Due {
    fn drop(self) {
        let Due {
            status: _,
            text: _,
            targets: _,
        } = self;
    }
}

/// The path of the instance of a target, by the name that a text tells.
fn instance_path(alloc: Global, row: &str, told: &str) -> Result<String> {
    let name = if told == DEFAULT { "default" } else { told };
    Ok(format!(in alloc; "{row}/due_{name}.xbrl")?)
}

/// The targets of which a text tells and whose instances stand in the row's folder, in the order of the text.
fn targets_of<R: Files + AllocGlobal>(rt: &R, row: &str, text: &str) -> Result<Vec<Target>> {
    let alloc = rt.alloc();
    let mut targets = Vec::new(alloc);
    for line in text.lines() {
        let Some((told, _)) = line.split_once(": ") else {
            continue;
        };
        let path = instance_path(alloc, row, told)?;
        if fs::exists(rt, path.as_str())? {
            let name = if told == DEFAULT { "" } else { told };
            targets.push(Target {
                name: String::from_str(alloc, name)?,
                bytes: bytes_of(rt, path.as_str())?,
            })?;
        }
    }
    Ok(targets)
}

impl Due {
    /// Reads what is due of a row.
    pub(crate) fn read<R: Files + AllocGlobal>(rt: &R, row: &str) -> Result<Due> {
        let alloc = rt.alloc();
        let path = format!(in alloc; "{row}/due_status")?;
        let status = text_of(rt, path.as_str())?;
        let status = status.trim().parse::<u8>().context("due_status")?;
        let path = format!(in alloc; "{row}/due_out")?;
        let text = text_of(rt, path.as_str())?;
        let targets = targets_of(rt, row, text.as_str())?;
        Ok(Due {
            status,
            text,
            targets,
        })
    }
}

impl fmt::Display for Due {
    fn fmt<W: fmt::Write>(&self, f: &mut fmt::Formatter<W>) -> fmt::Result {
        write!(
            f,
            "status {}, text of {} bytes",
            self.status,
            self.text.len()
        )?;
        for target in &self.targets {
            write!(
                f,
                ", {} of {} bytes",
                target.told_name(),
                target.bytes.len()
            )?;
        }
        Ok(())
    }
}
