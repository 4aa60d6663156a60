//! Runs of a row in which memory is refused.
use crate::sets::due::Due;
use crate::sets::outcome::{Outcome, outcome_difference, outcome_of};
use crate::sets::row::Row;
use anyhow::Result;
use ixds_run::Status;
use std::alloc::Global;

/// The most bytes that are allocated behind a run.
const MOST: usize = 20_000;

/// Bytes that were allocated one by one, how many allocations were made, and whether one more was refused.
struct Allocations {
    bytes: Vec<Vec<u8>>,
    count: usize,
    is_refused: bool,
}

impl Drop for Allocations {
    fn drop(self) {
        let Allocations {
            bytes: _,
            count: _,
            is_refused: _,
        } = self;
    }
}

/// Allocates a list of so many bytes, and then each of them, until an allocation is refused.
fn allocated(alloc: Global, most: usize) -> Allocations {
    let mut made = Allocations {
        bytes: Vec::new(alloc),
        count: 0,
        is_refused: true,
    };
    let Ok(bytes) = Vec::with_capacity(alloc, most) else {
        return made;
    };
    made.bytes = bytes;
    for number in 0..most {
        made.count = number.saturating_add(1);
        let Ok(byte) = vec![in alloc; 0u8; 1] else {
            return made;
        };
        if made.bytes.push(byte).is_err() {
            return made;
        }
    }
    made.count = most.saturating_add(1);
    made.is_refused = false;
    made
}

/// Whether nothing was written of what is due.
fn is_untouched(due: &Due, outcome: &Outcome) -> bool {
    outcome.out.taken().is_empty()
        && due.targets.iter().all(|target| outcome.sink.taken(target.name.as_str()).is_none())
}

/// What is told of a run that answered want of memory, and whether it is as it should be.
fn told_refused(alloc: Global, due: &Due, outcome: &Outcome) -> Result<(bool, String)> {
    if is_untouched(due, outcome) {
        let status = outcome.status.code();
        Ok((true, format!(in alloc; "status {status}, nothing written")?))
    } else {
        Ok((
            false,
            String::from_str(alloc, "want of memory, but something is written")?,
        ))
    }
}

/// What is told of one run of a row behind so many allocated bytes, and whether it is as it should be: as it is due, or, where
/// memory was refused, with nothing written. Where the refused allocation falls in front of the run or behind it, the number of
/// allocations between is told.
pub(crate) fn told(alloc: Global, row: &Row, bytes: usize) -> Result<(bool, String)> {
    let front = allocated(alloc, bytes);
    let count = front.count;
    if front.is_refused {
        return Ok((
            true,
            format!(in alloc; "refused in front of the run, behind {count}")?,
        ));
    }
    let Ok(outcome) = outcome_of(alloc, row, &row.words, 65_536, Vec::new(alloc)) else {
        return Ok((
            true,
            String::from_str(alloc, "refused as the objects were made")?,
        ));
    };
    if outcome.status == Status::NoMemory {
        return told_refused(alloc, &row.due, &outcome);
    }
    if let Some(text) = outcome_difference(alloc, &row.due, &outcome)? {
        return Ok((false, text));
    }
    let behind = allocated(alloc, MOST);
    let count = behind.count;
    if behind.is_refused {
        Ok((
            true,
            format!(in alloc; "as due, refused behind the run, behind {count}")?,
        ))
    } else {
        Ok((true, String::from_str(alloc, "as due")?))
    }
}
