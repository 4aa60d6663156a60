//! Reading the pages of a command.
ghost use Rattle.std.specs.Prelude.{◌≡◌, ◌+◌, ◌^◌, ◌<◌, ◌≤◌, ◌⊎◌, ◌++◌, ◌∷◌, [], ℕ, List, All, length, map, true};
ghost use Rattle.std.specs.Prelude.{IfOk, IfErr, IfSome, OnOk, option_map};
ghost use Rattle.ix_base.specs.declared.limits.TheConstants.{DEEPEST_ELEMENT, LONGEST_NAME, MOST_BYTES, MOST_PAGES, PIECE};
ghost use Rattle.page_tree.specs.Model.{StandsFor, limit, page_number};
ghost use Rattle.page_session.specs.PieceReads.{AsksFor};
ghost use Rattle.page_session.specs.Sources.{source_told, told};
ghost use Rattle.page_verdicts.specs.SourceCalls.{AreAsked, IsTried};
ghost use Rattle.page_verdicts.specs.CommandBytes.{AreSome};
ghost use Rattle.page_verdicts.specs.PageReads.{HasGained, HasGainedTree, Holds, IsRead, IsSound, ReadsOn, StopsInTime};

use crate::lines::cannot_read;
use crate::open_page::{MOST, OpenPage};
use bumpalo::Bump;
use ix_base::limits::MOST_BYTES;
use ix_base::{Breaches, Element, NoMemory, PageSource, Place, Text};
use page_session::reading::{ReadError, Sums, buffer, read_page};
use page_tree::{PageFault, TreeBuilder};
use std::alloc::Global;

/// What was read of pages: their sums, the roots of those that have a tree, and the breaks of the others.
#[derive(Drop)]
pub struct Forest<'a> {
    pub sums: Sums,
    pub roots: Vec<&'a Element<'a>>,
    pub found: Breaches,
    /// Whether the bytes of pages are kept, and those that are.
    pub keeps: bool,
    pub texts: Vec<&'a [u8]>,
}

/// Why reading ended before its end.
#[derive(Drop)]
pub enum Stopped {
    /// A page can't be read. This is the line that says so.
    Failed(Vec<u8>),
    NoMemory,
}

/// What stands before the first page.
pub fn no_pages<'a>(alloc: Global, keeps: bool) -> Forest<'a>
    ensures bytes { result.sums.bytes ≡ 0 }
    ensures tags { result.sums.tags ≡ 0 }
    ensures found { result.found ≡ [] }
    ensures roots { result.roots.items ≡ [] }
    ensures keeps { result.keeps ≡ keeps }
    ensures texts { result.texts.items ≡ [] }
{
    Forest {
        sums: Sums { bytes: 0, tags: 0 },
        roots: Vec::new(alloc),
        found: Breaches::new(alloc),
        keeps,
        texts: Vec::new(alloc),
    }
}

/// Keeps the bytes of a page, where bytes are kept.
fn keep_text<'a>(
    arena: &'a Bump,
    keeps: bool,
    bytes: &[u8],
    texts: &mut Vec<&'a [u8]>,
) -> Result<(), NoMemory>
    ensures { OnOk result (keeps ≡ true → map (λ t. t.now) texts.new.items ≡ map (λ t. t.now) texts.old.items ++ bytes.now ∷ []) }
{
    if !keeps {
        return Ok(());
    }
    let text: &'a [u8] = arena.try_alloc_slice_copy(bytes)?;
    texts.push(text)?;
    Ok(())
}

/// Ends a tree, and keeps its root or its break.
fn end_tree<'a>(tree: TreeBuilder<'a>, number: u32, forest: &mut Forest<'a>) -> Result<(), NoMemory>
    requires depth { limit tree ≡ DEEPEST_ELEMENT }
    requires page { page_number tree ≡ number }
    ensures gained { OnOk result ((b : List ℕ) → StandsFor tree.entry b → HasGainedTree number b forest.old forest.new) }
    ensures sums { forest.new.sums ≡ forest.old.sums }
    ensures keeps { forest.new.keeps ≡ forest.old.keeps }
    ensures texts { forest.new.texts ≡ forest.old.texts }
{
    match tree.finish() {
        Ok(root) => forest.roots.push(root)?,
        Err(PageFault::Broken { offset, rule }) => forest.found.add(
            Place {
                page: number,
                offset,
            },
            rule,
        )?,
        Err(PageFault::NoMemory) => return Err(NoMemory),
    }
    Ok(())
}

/// Ends a page, and keeps its root or its break, and its bytes where bytes are kept, unless the sums have passed the limit.
pub fn end_page<'a>(
    arena: &'a Bump,
    page: OpenPage<'a>,
    number: u32,
    forest: &mut Forest<'a>,
) -> Result<(), NoMemory>
    requires depth { limit page.tree ≡ DEEPEST_ELEMENT }
    requires page { page_number page.tree ≡ number }
    requires keeps { page.keeps ≡ forest.old.keeps }
    ensures gained { OnOk result (forest.old.sums.bytes ≤ MOST_BYTES
        → (b : List ℕ) → Holds page.entry b → HasGained number b forest.old forest.new) }
    ensures sums { forest.new.sums ≡ forest.old.sums }
    ensures keeps { forest.new.keeps ≡ forest.old.keeps }
{
    if forest.sums.bytes > MOST_BYTES {
        return Ok(());
    }
    let OpenPage { tree, keeps, bytes } = page;
    keep_text(arena, keeps, bytes.as_slice(), &mut forest.texts)?;
    end_tree(tree, number, forest)
}

/// Reads a page and ends it, unless the sums have then passed the limit.
fn read_on<'a, P: PageSource>(
    alloc: Global,
    arena: &'a Bump,
    pages: &mut P,
    name: &str,
    number: u32,
    buffer: &mut [u8],
    forest: &mut Forest<'a>,
) -> Result<(), ReadError>
    requires count { P.faults pages.old + 1 < 2 ^ 64 }
    requires name { length name.now ≤ LONGEST_NAME }
    requires room { length buffer.old ≡ PIECE }
    requires sums { (forest.old.sums.bytes ≤ MOST_BYTES) × (forest.old.sums.tags ≤ forest.old.sums.bytes) }
    ensures reads { OnOk result (ReadsOn (P.page pages.old name.now) (P.left pages.new) number forest.old forest.new) }
    ensures keeps { OnOk result (forest.new.keeps ≡ forest.old.keeps) }
    ensures sums { OnOk result ((forest.new.sums.bytes ≤ MOST_BYTES + PIECE) × (forest.new.sums.tags ≤ forest.new.sums.bytes)) }
    ensures asks { AsksFor name.now (source_told P.PageSource pages.old) (source_told P.PageSource pages.new) result }
{
    let mut page = OpenPage::new(alloc, arena, number, forest.keeps);
    read_page(pages, name, buffer, &mut page, &mut forest.sums, MOST)?;
    match end_page(arena, page, number, forest) {
        Ok(()) => Ok(()),
        Err(_) => Err(ReadError::NoMemory),
    }
}

/// Reads the pages of these names, in this order. It stops as soon as they have more bytes than pages may have. The line for
/// a page that can't be read is made before it is asked for, so that want of memory hides no read fault.
pub fn read_all<'a, P: PageSource>(
    alloc: Global,
    arena: &'a Bump,
    pages: &mut P,
    names: &[Text],
    keeps: bool,
) -> Result<Forest<'a>, Stopped>
    requires count { P.faults pages.old + 1 < 2 ^ 64 }
    requires some { 0 < length names.now }
    requires few { length names.now ≤ MOST_PAGES }
    requires short { All (λ n. length n ≤ LONGEST_NAME) names.now }
    ensures reads { IfOk result (λ f. AreSome (told (P.page pages.old) names.now) (λ bs. IsRead bs f)) }
    ensures sound { IfOk result (IsSound names.now) }
    ensures keeps { IfOk result (λ f. f.keeps ≡ keeps) }
    ensures stops { OnOk result (StopsInTime (P.page pages.old) names.now (P.left pages.new) (P.asked pages.new)) }
    ensures asks { AreAsked names.now (source_told P.PageSource pages.old) (source_told P.PageSource pages.new)
        (pages.new ≡ pages.old) result }
{
    let Ok(mut buffer) = buffer(alloc) else {
        return Err(Stopped::NoMemory);
    };
    let mut forest = no_pages(alloc, keeps);
    for (number, name) in names.iter().enumerate() {
        read_next(
            alloc,
            arena,
            pages,
            name,
            number as u32,
            buffer.as_mut_slice(),
            &mut forest,
        )?;
        if forest.sums.bytes > MOST_BYTES {
            return Ok(forest);
        }
    }
    Ok(forest)
}

/// Reads a page, with the line for it made before.
fn read_next<'a, P: PageSource>(
    alloc: Global,
    arena: &'a Bump,
    pages: &mut P,
    name: &Text,
    number: u32,
    buffer: &mut [u8],
    forest: &mut Forest<'a>,
) -> Result<(), Stopped>
    requires count { P.faults pages.old + 1 < 2 ^ 64 }
    requires name { length name.now ≤ LONGEST_NAME }
    requires room { length buffer.old ≡ PIECE }
    requires sums { (forest.old.sums.bytes ≤ MOST_BYTES) × (forest.old.sums.tags ≤ forest.old.sums.bytes) }
    ensures sums { OnOk result ((forest.new.sums.bytes ≤ MOST_BYTES + PIECE) × (forest.new.sums.tags ≤ forest.new.sums.bytes)) }
    ensures reads { OnOk result (ReadsOn (P.page pages.old name.now) (P.left pages.new) number forest.old forest.new) }
    ensures keeps { OnOk result (forest.new.keeps ≡ forest.old.keeps) }
    ensures tries { IsTried name.now (source_told P.PageSource pages.old) (source_told P.PageSource pages.new)
        (pages.new ≡ pages.old) result }
{
    let Ok(line) = cannot_read(alloc, name.as_str()) else {
        return Err(Stopped::NoMemory);
    };
    match read_on(alloc, arena, pages, name.as_str(), number, buffer, forest) {
        Ok(()) => Ok(()),
        Err(ReadError::NoMemory) => Err(Stopped::NoMemory),
        Err(ReadError::Failed) => Err(Stopped::Failed(line)),
    }
}
