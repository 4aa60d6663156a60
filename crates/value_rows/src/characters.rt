//! The characters of pages, in every cut into three pieces.
ghost use Rattle.std.specs.Prelude.{◌+◌, ◌<◌, ◌^◌, length};

use anyhow::{Result, bail};
use page_text::{Feed, Mark, Run, TextFault};
use std::alloc::{AllocError, Global};

/// The sizes of pieces of which plain characters are taken in runs.
const SIZES: [usize; 3] = [1, 3, 64];

/// The answers of three pushes and of the end, and the marks.
#[derive(Drop)]
struct Reading {
    pushes: [Result<(), TextFault>; 3],
    end: Result<(), TextFault>,
    marks: Vec<Mark>,
}

/// Reads a page that comes in three pieces.
fn read_in_three(alloc: Global, first: &[u8], second: &[u8], third: &[u8]) -> Reading
    requires { length first.now + length second.now + length third.now < 2 ^ 64 }
{
    let mut marks = Vec::new(alloc);
    let mut feed = Feed::new();
    let pushes = [
        feed.push(first, &mut marks),
        feed.push(second, &mut marks),
        feed.push(third, &mut marks),
    ];
    let end = feed.end(&mut marks);
    Reading { pushes, end, marks }
}

/// Appends the characters of a run.
fn keep_run(marks: &mut Vec<Mark>, run: Run<'_>) -> Result<(), AllocError>
    requires { run.offset + length run.text.now < 2 ^ 64 }
{
    for (place, ch) in run.text.char_indices() {
        marks.push(Mark {
            ch,
            offset: run.offset + place as u64,
        })?;
    }
    Ok(())
}

/// A page that comes in pieces of this size, in runs of plain characters as far as there are any.
fn read_in_runs(alloc: Global, bytes: &[u8], size: usize) -> Result<Reading, AllocError>
    requires { 0 < size }
{
    let mut marks = Vec::new(alloc);
    let mut feed = Feed::new();
    let mut at = 0;
    'parts: while at < bytes.len() {
        let rest = &bytes[at..];
        let piece = &rest[..rest.len().min(size - at % size)];
        let run = feed.take_plain(piece);
        if run.text.is_empty() {
            if let Some(mark) = feed.step(piece[0]) {
                marks.push(mark)?;
            }
            at += 1;
        } else {
            at += run.text.len();
            keep_run(&mut marks, run)?;
        }
    }
    let end = feed.end(&mut marks);
    Ok(Reading {
        pushes: [end; 3],
        end,
        marks,
    })
}

/// Whether a push that fails isn't forgotten by the next.
fn is_steady(reading: &Reading) -> bool {
    let [first, second, third] = reading.pushes;
    let end = reading.end;
    (first.is_ok() || (first == end && second == end))
        && (second.is_ok() || (second == end && third == end))
        && (third.is_ok() || third == end)
}

/// Whether a reading has the characters and the end of another, and forgets no failure.
fn is_same(reading: &Reading, other: &Reading) -> bool {
    is_steady(reading) && reading.end == other.end && reading.marks == other.marks
}

/// Appends characters by their numbers, with their offsets.
fn push_marks(marks: &[Mark], text: &mut String) -> Result<()> {
    for mark in marks {
        write!(text, "{:X}@{} ", u32::from(mark.ch), mark.offset)?;
    }
    Ok(())
}

/// Appends the end.
fn push_end(end: Result<(), TextFault>, text: &mut String) -> Result<()> {
    match end {
        Ok(()) => text.push_str("end")?,
        Err(TextFault::BadBytes { offset }) => write!(text, "bad bytes@{offset}")?,
        Err(TextFault::BadChar { offset }) => write!(text, "bad character@{offset}")?,
        Err(TextFault::NoMemory) => bail!("no memory"),
    }
    Ok(())
}

/// The characters by their numbers, with their offsets, and the end.
fn shown(alloc: Global, reading: &Reading) -> Result<String> {
    let mut text = String::new(alloc);
    push_marks(&reading.marks, &mut text)?;
    push_end(reading.end, &mut text)?;
    Ok(text)
}

/// What is told of a reading of a page that is cut at these places.
fn told_cut(alloc: Global, reading: &Reading, first: usize, second: usize) -> Result<String> {
    let text = shown(alloc, reading)?;
    Ok(format!(in alloc; "cut at {first} and {second}: {text}")?)
}

/// The first reading that isn't as that of the whole page, where there is one, of each cut into three pieces.
fn other_cut(alloc: Global, page: &[u8], whole: &Reading) -> Result<Option<String>> {
    for first in 0..=page.len() {
        for second in first..=page.len() {
            let reading = read_in_three(
                alloc,
                &page[..first],
                &page[first..second],
                &page[second..],
            );
            if !is_same(&reading, whole) {
                return Ok(Some(told_cut(alloc, &reading, first, second)?));
            }
        }
    }
    Ok(None)
}

/// What is told of a reading in runs of pieces of this size.
fn told_run(alloc: Global, reading: &Reading, size: usize) -> Result<String> {
    let text = shown(alloc, reading)?;
    Ok(format!(in alloc; "runs in pieces of {size}: {text}")?)
}

/// The same of runs.
fn other_run(alloc: Global, page: &[u8], whole: &Reading) -> Result<Option<String>> {
    for size in SIZES {
        let reading = read_in_runs(alloc, page, size)?;
        if !is_same(&reading, whole) {
            return Ok(Some(told_run(alloc, &reading, size)?));
        }
    }
    Ok(None)
}

/// What is told of the readings of a page in pieces, the first that isn't as that of the whole page where there is one.
fn told_of(alloc: Global, page: &[u8], whole: &Reading) -> Result<String> {
    if let Some(text) = other_cut(alloc, page, whole)? {
        return Ok(text);
    }
    match other_run(alloc, page, whole)? {
        Some(text) => Ok(text),
        None => shown(alloc, whole),
    }
}

/// The characters of a page, which are the same in any pieces.
pub(crate) fn read(alloc: Global, page: &[u8]) -> Result<String> {
    told_of(alloc, page, &read_in_three(alloc, page, &[], &[]))
}
