//! Runs of a row, and what there is after them.
ghost use Rattle.std.specs.Prelude.{◌≡◌, ◌<◌, None, IfOk, All};
ghost use Rattle.set_rows.specs.AsDue.{IsAsDue, IsWritten};

use crate::sets::due::{Due, Target};
use crate::sets::row::{Page, Row};
use anyhow::Result;
use compare_rows::differing_line;
use ix_base::{List, MemPage, MemPages, MemTargets, MemText, Text};
use ixds_run::{Status, run};
use std::alloc::Global;

/// The most bytes that a read of a page gives, in one run after another.
pub const STEPS: [usize; 3] = [1, 7, 65_536];

/// Room for more bytes than are due, so that what is too much is seen.
const SPARE_ROOM: usize = 65_536;

/// What there is after a run.
pub struct Outcome {
    pub status: Status,
    pub sink: MemTargets,
    pub out: MemText,
}

impl Drop for Outcome {
    fn drop(self) {
        let Outcome {
            status: _,
            sink: _,
            out: _,
        } = self;
    }
}

/// Pages as a source in memory takes them.
fn held_pages(alloc: Global, pages: &[Page]) -> Result<Vec<MemPage>> {
    let mut held = Vec::new(alloc);
    for page in pages {
        held.push(MemPage {
            name: Text::of(alloc, page.name.as_str())?,
            bytes: List::of(page.bytes.as_slice().to_vec(alloc)?),
        })?;
    }
    Ok(held)
}

/// Room for the targets that are due.
fn target_room(due: &Due) -> usize {
    let mut room = SPARE_ROOM;
    for target in &due.targets {
        room = room.saturating_add(target.bytes.len());
    }
    room
}

/// Runs words over the pages of a row. A read gives at most `step` bytes. The calls of the sink with these numbers fail, and one
/// that begins a target more than are due.
pub(crate) fn outcome_of(
    alloc: Global,
    row: &Row,
    words: &[Text],
    step: usize,
    fails: Vec<u64>,
) -> Result<Outcome>
    requires { 0 < step }
{
    let held = held_pages(alloc, &row.pages)?;
    let mut pages = MemPages::new(held, step, Vec::new(alloc));
    let targets = row.due.targets.len();
    let mut sink = MemTargets::new(alloc, targets, target_room(&row.due), fails)?;
    let room = row.due.text.len().saturating_add(SPARE_ROOM);
    let mut out = MemText::new(alloc, room, Vec::new(alloc))?;
    let status = run(alloc, words, &mut pages, &mut sink, &mut out);
    Ok(Outcome { status, sink, out })
}

/// How a target differs from what is due, where it does.
fn target_difference(alloc: Global, target: &Target, sink: &MemTargets) -> Result<Option<String>>
    ensures { IfOk result (λ told. told ≡ None → IsWritten sink.now target.now) }
{
    let name = target.name.as_str();
    let told = target.told_name();
    match sink.taken(name) {
        None => Ok(Some(format!(in alloc; "{told} isn't begun")?)),
        Some(_) if !sink.finished(name) => { Ok(Some(format!(in alloc; "{told} isn't finished")?)) }
        Some(bytes) => differing_line(alloc, told, target.bytes.as_slice(), bytes),
    }
}

/// How the first target that differs from what is due differs from it, where one does.
fn targets_difference(
    alloc: Global,
    targets: &[Target],
    sink: &MemTargets,
) -> Result<Option<String>>
    ensures { IfOk result (λ told. told ≡ None → All (IsWritten sink.now) targets.now) }
{
    for target in targets {
        if let Some(text) = target_difference(alloc, target, sink)? {
            return Ok(Some(text));
        }
    }
    Ok(None)
}

/// How what there is after a run differs from what is due, where it does.
pub(crate) fn outcome_difference(
    alloc: Global,
    due: &Due,
    outcome: &Outcome,
) -> Result<Option<String>>
    ensures { IfOk result (λ told. told ≡ None → IsAsDue due.now outcome.now) }
{
    let status = outcome.status.code();
    if let Some(text) = differing_line(
        alloc,
        "the text",
        due.text.as_bytes(),
        outcome.out.taken(),
    )? {
        return Ok(Some(format!(in alloc; "status {status}: {text}")?));
    }
    if status != due.status {
        return Ok(Some(format!(in alloc; "status {status}, and {} is due", due.status)?));
    }
    targets_difference(alloc, &due.targets, &outcome.sink)
}

/// How runs of these words over a row differ from what is due, where they do.
pub(crate) fn difference(alloc: Global, row: &Row, words: &[Text]) -> Result<Option<String>> {
    for step in STEPS {
        let outcome = outcome_of(alloc, row, words, step, Vec::new(alloc))?;
        if let Some(text) = outcome_difference(alloc, &row.due, &outcome)? {
            return Ok(Some(format!(in alloc; "reads of {step}: {text}")?));
        }
    }
    Ok(None)
}
