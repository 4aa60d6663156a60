//! Runs over a page that is cut behind each of its bytes.
use crate::calls::row::{Page, Row};
use anyhow::{Context, Result};
use compare_rows::differing_line;
use ix_base::{List, MemPage, MemPages, MemTargets, MemText, Text};
use ixds_run::{Status, run};
use std::alloc::Global;

/// Where the tag begins inside which some bytes end, if they end inside one.
fn open_tag(bytes: &[u8]) -> Option<usize> {
    let start = bytes.iter().rposition(|b| *b == b'<')?;
    let is_closed = bytes[start..].contains(&b'>');
    if is_closed { None } else { Some(start) }
}

/// The line of a page that ends behind these bytes, within its root.
fn due_line(alloc: Global, name: &str, bytes: &[u8]) -> Result<String> {
    if bytes.is_empty() {
        return Ok(format!(in alloc; "{name}:0: W12 wrong place in the document\n")?);
    }
    match open_tag(bytes) {
        Some(start) => Ok(format!(in alloc; "{name}:{start}: W3 construct is cut off\n")?),
        None => {
            let end = bytes.len();
            Ok(format!(in alloc; "{name}:{end}: W6 page ends with open elements\n")?)
        }
    }
}

/// The front of a page, as a source in memory takes it.
fn held_front(alloc: Global, page: &Page, front: &[u8]) -> Result<Vec<MemPage>> {
    let mut held = Vec::new(alloc);
    held.push(MemPage {
        name: Text::of(alloc, page.name.as_str())?,
        bytes: List::of(front.to_vec(alloc)?),
    })?;
    Ok(held)
}

/// How the end of a run over the front of a page of this name differs from what is due, where it does.
fn end_difference(
    alloc: Global,
    name: &str,
    front: &[u8],
    status: Status,
    taken: &[u8],
) -> Result<Option<String>> {
    if status != Status::Broken {
        return Ok(Some(format!(in alloc; "status {}", status.code())?));
    }
    let due = due_line(alloc, name, front)?;
    differing_line(alloc, "the text", due.as_bytes(), taken)
}

/// How a run over the front of a page differs from what is due, where it does.
fn front_difference(
    alloc: Global,
    words: &[Text],
    page: &Page,
    front: &[u8],
) -> Result<Option<String>> {
    let held = held_front(alloc, page, front)?;
    let mut pages = MemPages::new(held, 65_536, Vec::new(alloc));
    let mut sink = MemTargets::new(alloc, 1, 1000, Vec::new(alloc))?;
    let mut out = MemText::new(alloc, 1000, Vec::new(alloc))?;
    let status = run(alloc, words, &mut pages, &mut sink, &mut out);
    end_difference(alloc, page.name.as_str(), front, status, out.taken())
}

/// How the first front of a row's page that isn't as it is due differs from that.
pub(crate) fn difference(alloc: Global, row: &Row) -> Result<Option<String>> {
    let page = row.pages.first().context("no page")?;
    for end in 0..page.bytes.len() {
        let front = &page.bytes[..end];
        if let Some(text) = front_difference(alloc, &row.words, page, front)? {
            return Ok(Some(format!(in alloc; "cut behind {end} bytes: {text}")?));
        }
    }
    Ok(None)
}
