//! Objects in memory that stand in for the outside.
ghost use Rattle.std.specs.Prelude.{◌≡◌, ◌+◌, ◌≤◌, ◌<◌, ◌^◌, IfOk, length};
ghost use Rattle.ix_base.specs.declared.limits.TheConstants.{LONGEST_NAME};
ghost use Rattle.ix_base.specs.MemPages.{pages_faults};
ghost use Rattle.ix_base.specs.MemTargets.{sink_faults};
ghost use Rattle.ix_base.specs.MemText.{text_faults};

use anyhow::{Context, Result, bail, ensure};
use ix_base::limits::LONGEST_NAME;
use ix_base::{
    Failed, List, MemPage, MemPages, MemTargets, MemText, PageSource, TargetSink, Text, TextSink,
};
use row_tables::Cell;
use std::alloc::Global;
use std::str;

/// The number of the only call that fails.
fn only(alloc: Global, number: u64) -> Result<Vec<u64>> {
    Ok(vec![in alloc; number]?)
}

/// A page in memory.
fn page(alloc: Global, name: &str, bytes: &[u8]) -> Result<MemPage> {
    Ok(MemPage {
        name: Text::of(alloc, name)?,
        bytes: List::of(bytes.to_vec(alloc)?),
    })
}

/// Starts a page and reads three times, up to the first failure. It tells how much each read gave.
fn read_three_times(
    pages: &mut MemPages,
    name: &str,
    bufs: &mut [[u8; 8]; 3],
) -> Result<[usize; 3], Failed>
    requires fresh { pages_faults pages.old ≡ 0 }
    requires name { length name.now ≤ LONGEST_NAME }
{
    pages.start(name)?;
    let first = pages.read(&mut bufs[0])?;
    let second = pages.read(&mut bufs[1])?;
    let third = pages.read(&mut bufs[2])?;
    Ok([first, second, third])
}

/// Appends what three reads gave, so much each.
fn push_reads(bufs: &[[u8; 8]; 3], lens: [usize; 3], text: &mut String) -> Result<()> {
    for (buf, len) in bufs.iter().zip(lens) {
        let read = buf.get(..len).context("past the end")?;
        write!(text, "({})", str::from_utf8(read).context("no text")?)?;
    }
    Ok(())
}

/// Appends what three reads of a page gave, unless one fails.
fn push_three(pages: &mut MemPages, name: &str, text: &mut String) -> Result<()>
    requires fresh { pages_faults pages.old ≡ 0 }
    requires name { length name.now ≤ LONGEST_NAME }
{
    let mut bufs = [[0u8; 8]; 3];
    match read_three_times(pages, name, &mut bufs) {
        Ok(lens) => push_reads(&bufs, lens, text),
        Err(Failed) => Ok(text.push_str("failed")?),
    }
}

/// Two pages of the name `a`.
fn two_pages(alloc: Global) -> Result<Vec<MemPage>> {
    let mut held = Vec::new(alloc);
    held.push(page(alloc, "a", b"xyz")?)?;
    held.push(page(alloc, "a", b"no")?)?;
    Ok(held)
}

/// Two pages of the name `a`, of which each read gives so many bytes at most, and where one call fails.
fn pages_of(alloc: Global, step: usize, failing: u64) -> Result<MemPages>
    requires { 0 < step }
    ensures { IfOk result (λ pages. pages_faults pages ≡ 0) }
{
    let held = two_pages(alloc)?;
    Ok(MemPages::new(held, step, only(alloc, failing)?))
}

/// Three reads of a page of this name.
fn three_of(alloc: Global, pages: &mut MemPages, name: &str) -> Result<String>
    requires fresh { pages_faults pages.old ≡ 0 }
    requires name { length name.now ≤ LONGEST_NAME }
{
    let mut text = String::new(alloc);
    push_three(pages, name, &mut text)?;
    Ok(text)
}

/// Three reads of a page, of two pages of the name `a`, where one call fails; of an end nothing is read.
pub(crate) fn pages(alloc: Global, cells: &[Cell]) -> Result<String> {
    let [step, failing, name] = cells else {
        bail!("a step, the number of a call and a name are wanted");
    };
    let step = step.number()? as usize;
    ensure!(0 < step, "no step");
    let name = name.text()?;
    ensure!(name.len() <= LONGEST_NAME, "a long name");
    three_of(alloc, &mut pages_of(alloc, step, failing.number()?)?, name)
}

/// Writes the targets `x` and `y`, up to the first failure.
fn write_two(sink: &mut MemTargets) -> Result<(), Failed>
    requires { sink_faults sink.old ≡ 0 }
{
    sink.begin("d", "x")?;
    sink.put(b"ab")?;
    sink.put(b"cde")?;
    sink.finish()?;
    sink.begin("d", "y")?;
    sink.put(b"f")?;
    sink.finish()
}

/// Appends what a target took, where it is there, and whether it is finished.
fn push_taken(text: &mut String, sink: &MemTargets, name: &str) -> Result<()> {
    if let Some(taken) = sink.taken(name) {
        let taken = str::from_utf8(taken).context("no text")?;
        let end = if sink.finished(name) {
            "finished"
        } else {
            "open"
        };
        write!(text, ", {name} {taken} {end}")?;
    }
    Ok(())
}

/// Appends what two targets took.
fn push_two(sink: &mut MemTargets, text: &mut String) -> Result<()>
    requires { sink_faults sink.old ≡ 0 }
{
    let end = if write_two(sink).is_ok() {
        "done"
    } else {
        "failed"
    };
    text.push_str(end)?;
    push_taken(text, sink, "x")?;
    push_taken(text, sink, "y")
}

/// What two targets took.
fn two_of(alloc: Global, sink: &mut MemTargets) -> Result<String>
    requires { sink_faults sink.old ≡ 0 }
{
    let mut text = String::new(alloc);
    push_two(sink, &mut text)?;
    Ok(text)
}

/// What two targets took, with so many places and so much room, where one call fails.
pub(crate) fn targets(alloc: Global, cells: &[Cell]) -> Result<String> {
    let [places, room, failing] = cells else {
        bail!("places, room and the number of a call are wanted");
    };
    let (places, room) = (places.number()? as usize, room.number()? as usize);
    let failing = only(alloc, failing.number()?)?;
    two_of(alloc, &mut MemTargets::new(alloc, places, room, failing)?)
}

/// Puts a piece, and appends whether it was put, and what a text then has.
fn push_put(out: &mut MemText, piece: &Cell, text: &mut String) -> Result<()>
    requires { text_faults out.old + 1 < 2 ^ 64 }
    ensures { text_faults out.new ≤ text_faults out.old + 1 }
{
    let end = if out.put(piece.bytes()).is_ok() {
        "put"
    } else {
        "failed"
    };
    let taken = str::from_utf8(out.taken()).context("no text")?;
    write!(text, "({end} {taken})")?;
    Ok(())
}

/// What a text in memory has behind each of three pieces.
fn push_puts(out: &mut MemText, pieces: [&Cell; 3], text: &mut String) -> Result<()>
    requires { text_faults out.old ≡ 0 }
{
    let [first, second, third] = pieces;
    push_put(out, first, text)?;
    push_put(out, second, text)?;
    push_put(out, third, text)
}

/// What a text in memory has behind each of three pieces.
fn puts_of(alloc: Global, out: &mut MemText, pieces: [&Cell; 3]) -> Result<String>
    requires { text_faults out.old ≡ 0 }
{
    let mut text = String::new(alloc);
    push_puts(out, pieces, &mut text)?;
    Ok(text)
}

/// What a text in memory has behind each of three pieces, with so much room, where one call fails.
pub(crate) fn text(alloc: Global, cells: &[Cell]) -> Result<String> {
    let [room, failing, first, second, third] = cells else {
        bail!("room, the number of a call and three pieces are wanted");
    };
    let room = room.number()? as usize;
    let failing = only(alloc, failing.number()?)?;
    let mut out = MemText::new(alloc, room, failing)?;
    puts_of(alloc, &mut out, [first, second, third])
}
