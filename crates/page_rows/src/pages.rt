//! Pages, their trees, and what they break.
ghost use Rattle.std.specs.Prelude.{◌≡◌, ◌≤◌, ◌<◌, length};
ghost use Rattle.page_tree.specs.Model.{fed_bytes};

use anyhow::{Context, Result, bail};
use bumpalo::Bump;
use ix_base::limits::DEEPEST_ELEMENT;
use ix_base::{Element, NoMemory};
use page_tree::{PageFault, TreeBuilder};
use row_tables::{Cell, owned};
use std::alloc::Global;

/// The number of the page of a row.
pub(crate) const PAGE: u32 = 7;

/// Where the piece ends that begins at a place.
fn piece_end(len: usize, at: usize, step: usize) -> usize
    requires { at ≤ len }
    ensures from { at ≤ result }
    ensures to { result ≤ len }
{
    if len - at < step { len } else { at + step }
}

/// Hands a page over in pieces of so many bytes.
fn feed_all(builder: &mut TreeBuilder<'_>, page: &[u8], step: usize) -> Result<(), NoMemory>
    requires { fed_bytes builder.old ≡ 0 }
{
    let mut at = 0;
    'pieces: while at < page.len() {
        let end = piece_end(page.len(), at, step);
        builder.feed(&page[at..end])?;
        if end <= at {
            return Ok(());
        }
        at = end;
    }
    Ok(())
}

/// The root of a page of this number that comes in pieces of so many bytes, or why it has none.
pub(crate) fn root_in_pieces<'a>(
    alloc: Global,
    arena: &'a Bump,
    page: &[u8],
    number: u32,
    depth: u32,
    step: usize,
) -> Result<Result<&'a Element<'a>, PageFault>, NoMemory> {
    let mut builder = TreeBuilder::new(alloc, arena, number, depth);
    feed_all(&mut builder, page, step)?;
    Ok(builder.finish())
}

/// The root of a page that has one.
pub(crate) fn root_of<'a>(
    alloc: Global,
    arena: &'a Bump,
    page: &[u8],
    number: u32,
) -> Result<&'a Element<'a>> {
    match root_in_pieces(alloc, arena, page, number, DEEPEST_ELEMENT, page.len())? {
        Ok(root) => Ok(root),
        Err(_) => bail!("the page has no tree"),
    }
}

/// What is told of a page that has no tree.
pub(crate) fn told_fault(alloc: Global, fault: PageFault) -> Result<String> {
    match fault {
        PageFault::Broken { offset, rule } => {
            Ok(format!(in alloc; "{} at {offset}", rule.code())?)
        }
        PageFault::NoMemory => bail!("no memory"),
    }
}

/// What a page breaks that comes in pieces of so many bytes.
fn fault_in_pieces(alloc: Global, arena: &Bump, page: &[u8], step: usize) -> Result<String> {
    match root_in_pieces(alloc, arena, page, PAGE, DEEPEST_ELEMENT, step)? {
        Ok(_) => owned(alloc, "none"),
        Err(fault) => told_fault(alloc, fault),
    }
}

/// What is told where a page breaks something else in pieces of so many bytes than as a whole.
fn other_fault(
    alloc: Global,
    arena: &Bump,
    page: &[u8],
    step: usize,
    whole: &str,
) -> Result<Option<String>> {
    let fault = fault_in_pieces(alloc, arena, page, step)?;
    if fault.as_str() == whole {
        return Ok(None);
    }
    Ok(Some(format!(in alloc; "{fault} in pieces of {step}, else {whole}")?))
}

/// The same of pieces of 1 and of 3 bytes.
fn first_other(alloc: Global, arena: &Bump, page: &[u8], whole: &str) -> Result<Option<String>> {
    match other_fault(alloc, arena, page, 1, whole)? {
        Some(told) => Ok(Some(told)),
        None => other_fault(alloc, arena, page, 3, whole),
    }
}

/// What a page breaks, which is the same in pieces of 1, of 3 and of 65,536 bytes.
pub(crate) fn fault(alloc: Global, arena: &Bump, page: &[u8]) -> Result<String> {
    let whole = fault_in_pieces(alloc, arena, page, 65_536)?;
    match first_other(alloc, arena, page, whole.as_str())? {
        Some(told) => Ok(told),
        None => Ok(whole),
    }
}

/// Hands pieces of a page over, and appends how many characters wait behind each.
fn push_waiting(builder: &mut TreeBuilder<'_>, pieces: &[Cell], counts: &mut String) -> Result<()>
    requires { fed_bytes builder.old ≡ 0 }
{
    let mut fed = 0u64;
    for cell in pieces {
        let piece = cell.bytes();
        fed = fed.checked_add(piece.len() as u64).context("too long")?;
        builder.feed(piece)?;
        write!(counts, " {}", builder.pending())?;
    }
    Ok(())
}

/// How many characters wait behind each of the pieces of a page, which a fresh builder takes.
fn waiting_in(alloc: Global, builder: &mut TreeBuilder<'_>, pieces: &[Cell]) -> Result<String>
    requires { fed_bytes builder.old ≡ 0 }
{
    let mut counts = String::new(alloc);
    push_waiting(builder, pieces, &mut counts)?;
    Ok(counts)
}

/// How many characters wait behind each of the pieces of a page.
pub(crate) fn waiting(alloc: Global, arena: &Bump, cells: &[Cell]) -> Result<String> {
    let mut builder = TreeBuilder::new(alloc, arena, PAGE, DEEPEST_ELEMENT);
    waiting_in(alloc, &mut builder, cells)
}
