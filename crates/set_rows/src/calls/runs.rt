//! Runs of rows, and how they differ from what is due.
ghost use Rattle.std.specs.Prelude.{◌≡◌};

use crate::calls::command::command_text;
use crate::calls::counted::watched;
use crate::calls::cuts;
use crate::calls::due::{Calls, Due, End, Target};
use crate::calls::row::{Fails, Page, Row};
use anyhow::{Result, ensure};
use compare_rows::differing_line;
use ix_base::{List, MemPage, MemPages, MemTargets, MemText, Text};
use ixds_run::{Status, run};
use std::alloc::Global;
use std::mem;

/// The targets that a sink takes, and its room.
const MOST: usize = 4;

const ROOM: usize = 4_000;

/// What there is after a run.
struct Ended {
    status: Status,
    sink: MemTargets,
    out: MemText,
    calls: Calls,
}

impl Drop for Ended {
    fn drop(self) {
        let Ended {
            status: _,
            sink: _,
            out: _,
            calls: _,
        } = self;
    }
}

/// How a command differs from the one that is due, where it does.
fn command_difference(alloc: Global, words: &[Text], due: &str) -> Result<Option<String>> {
    let text = command_text(alloc, words)?;
    differing_line(alloc, "the command", due.as_bytes(), text.as_bytes())
}

/// The first page of these that doesn't end as it is due.
fn end_difference(alloc: Global, pages: &[Page], ends: &[End]) -> Result<Option<String>> {
    for end in ends {
        let name = end.page.as_str();
        let there = pages.iter().find(|page| page.name.as_str() == name);
        let ends_so = there.is_some_and(|page| page.bytes.ends_with(&end.text));
        if !ends_so {
            return Ok(Some(format!(in alloc; "{name} ends otherwise")?));
        }
    }
    Ok(None)
}

/// Pages as a source in memory takes them.
pub(crate) fn held_pages(alloc: Global, pages: Vec<Page>) -> Result<Vec<MemPage>> {
    let mut held = Vec::new(alloc);
    for page in pages {
        held.push(MemPage {
            name: Text::of(alloc, page.name.as_str())?,
            bytes: List::of(page.bytes),
        })?;
    }
    Ok(held)
}

/// Runs a row.
fn run_of(alloc: Global, row: Row) -> Result<Ended> {
    let Fails { pages, sink, out } = row.fails;
    ensure!(row.step > 0, "a step of nothing");
    let mut sink = watched(MemTargets::new(alloc, MOST, ROOM, sink)?);
    let mut out = watched(MemText::new(alloc, row.room as usize, out)?);
    let held = held_pages(alloc, row.pages)?;
    let mut pages = watched(MemPages::new(held, row.step as usize, pages));
    let status = run(alloc, &row.words, &mut pages, &mut sink, &mut out);
    let calls = Calls {
        pages: pages.calls,
        sink: sink.calls,
        out: out.calls,
    };
    Ok(Ended {
        status,
        sink: sink.object,
        out: out.object,
        calls,
    })
}

/// How the target without a name differs from what is due, where it does.
fn target_difference(alloc: Global, due: &Target, sink: &MemTargets) -> Result<Option<String>> {
    let finished = sink.finished("");
    let bytes = match (due, sink.taken("")) {
        (Target::None, None) => return Ok(None),
        (_, None) => return Ok(Some(String::from_str(alloc, "no target")?)),
        (_, Some(bytes)) => bytes,
    };
    match due {
        Target::Open(due) if !finished => differing_line(alloc, "the target", due, bytes),
        Target::Finished(due) if finished => differing_line(alloc, "the target", due, bytes),
        Target::Length(due) if finished && bytes.len() as u64 == *due => Ok(None),
        _ => {
            let length = bytes.len();
            Ok(Some(format!(in alloc; "a target of {length} bytes, finished: {finished}")?))
        }
    }
}

/// How a run differs from what is due, where it does.
fn run_difference(alloc: Global, due: &Due, ended: &Ended) -> Result<Option<String>> {
    let status = u64::from(ended.status.code());
    if let Some(text) = &due.text
        && let Some(told) = differing_line(alloc, "the text", text, ended.out.taken())?
    {
        return Ok(Some(format!(in alloc; "status {status}: {told}")?));
    }
    if due.status != Some(status) {
        return Ok(Some(format!(in alloc; "status {status}")?));
    }
    let seen = ended.calls;
    if due.calls.is_some_and(|calls| calls != seen) {
        let Calls { pages, sink, out } = seen;
        return Ok(Some(format!(in alloc; "calls {pages} {sink} {out}")?));
    }
    match &due.target {
        Some(target) => target_difference(alloc, target, &ended.sink),
        None => Ok(None),
    }
}

/// How a row's words or its pages differ from what is due, where they do.
fn given_difference(alloc: Global, row: &Row) -> Result<Option<String>> {
    if let Some(due) = &row.due.command
        && let Some(text) = command_difference(alloc, &row.words, due.as_str())?
    {
        return Ok(Some(text));
    }
    end_difference(alloc, &row.pages, &row.due.ends)
}

/// How the run of a row differs from what is due, where it does.
fn ended_difference(alloc: Global, mut row: Row) -> Result<Option<String>> {
    let due = mem::replace(&mut row.due, Due::none(alloc));
    let ended = run_of(alloc, row)?;
    run_difference(alloc, &due, &ended)
}

/// How a row differs from what is due, where it does.
pub(crate) fn difference(alloc: Global, row: Row) -> Result<Option<String>> {
    if let Some(text) = given_difference(alloc, &row)? {
        return Ok(Some(text));
    }
    if row.is_cut {
        return cuts::difference(alloc, &row);
    }
    if row.due.status.is_none() {
        return Ok(None);
    }
    ended_difference(alloc, row)
}
