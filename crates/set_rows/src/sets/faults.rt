//! Runs of a row in which a call of the sink fails.
use crate::sets::due::{Due, Target};
use crate::sets::outcome::outcome_of;
use crate::sets::row::Row;
use anyhow::{Context, Result};
use ix_base::MemTargets;
use ixds_run::Status;
use std::alloc::Global;

/// The number of line feeds in a text.
fn line_feeds(text: &[u8]) -> usize {
    text.iter().filter(|b| **b == b'\n').count()
}

/// What stands of a target that was begun: that it is finished, or how many of its lines it holds.
fn standing(alloc: Global, target: &Target, held: &[u8], finished: bool) -> Result<String> {
    let name = target.told_name();
    let is_front = target.bytes.as_slice().starts_with(held);
    let is_whole = held.len() == target.bytes.len();
    if !is_front || finished && !is_whole {
        Ok(format!(in alloc; "{name} other bytes")?)
    } else if finished {
        Ok(format!(in alloc; "{name} finished")?)
    } else if held.is_empty() || held.ends_with(b"\n") {
        Ok(format!(in alloc; "{name} {} lines", line_feeds(held))?)
    } else {
        Ok(format!(in alloc; "{name} a part of a line")?)
    }
}

/// What stands in the targets, in the words of the file `faults`.
fn all_standing(alloc: Global, due: &Due, sink: &MemTargets) -> Result<String> {
    let mut text = String::new(alloc);
    for target in &due.targets {
        let name = target.name.as_str();
        if let Some(held) = sink.taken(name) {
            if !text.is_empty() {
                text.push_str(", ")?;
            }
            let standing = standing(alloc, target, held, sink.finished(name))?;
            text.push_str(standing.as_str())?;
        }
    }
    if text.is_empty() {
        text.push_str("nothing")?;
    }
    Ok(text)
}

/// How a run differs from what is due in which a call of the sink fails, where it does: a write fault, no text, and what stands in
/// the targets as the line tells behind the number of the call.
pub(crate) fn difference(alloc: Global, row: &Row, line: &str) -> Result<Option<String>> {
    let (number, due) = line.split_once(": ").context("a fault without a number")?;
    let number = number.parse::<u64>().context("the number of a fault")?;
    let fails = vec![in alloc; number]?;
    let outcome = outcome_of(alloc, row, &row.words, 65_536, fails)?;
    let standing = all_standing(alloc, &row.due, &outcome.sink)?;
    let status = outcome.status;
    if status == Status::WriteFault && outcome.out.taken().is_empty() && standing.as_str() == due {
        return Ok(None);
    }
    let text = outcome.out.taken().len();
    Ok(Some(format!(in alloc;
        "call {number} fails: status {}, text of {text} bytes, {standing}, and {due} is due",
        status.code()
    )?))
}
