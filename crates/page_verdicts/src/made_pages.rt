//! Pages that were made, and lie in memory.
ghost use Rattle.std.specs.Prelude.{◌≡◌, ◌≤◌, [], Some, false, length, map, IfOk, OnOk};
ghost use Rattle.ix_base.specs.declared.limits.TheConstants.{MOST_BYTES, MOST_PAGES};
ghost use Rattle.page_verdicts.specs.PageReads.{IsRead, IsSound, ReadsOn};

use crate::open_page::OpenPage;
use crate::read_pages::{Forest, end_page, no_pages};
use bumpalo::Bump;
use ix_base::limits::MOST_BYTES;
use ix_base::{MemPage, NoMemory};
use page_session::reading::count_tags;
use page_session::taking::PageTaker;
use std::alloc::Global;

/// Builds a page in one piece, and ends it as one that was read.
fn build_page<'a>(
    alloc: Global,
    arena: &'a Bump,
    page: &MemPage,
    number: u32,
    forest: &mut Forest<'a>,
) -> Result<(), NoMemory>
    requires most { forest.old.sums.bytes ≤ MOST_BYTES }
    requires tags { forest.old.sums.tags ≤ forest.old.sums.bytes }
    ensures reads { OnOk result (ReadsOn (Some page.now.bytes) (Some []) number forest.old forest.new) }
    ensures tags { OnOk result (forest.new.sums.tags ≤ forest.new.sums.bytes) }
    ensures keeps { OnOk result (forest.new.keeps ≡ forest.old.keeps) }
{
    let bytes = page.bytes.as_slice();
    let mut open = OpenPage::new(alloc, arena, number, forest.keeps);
    open.take(bytes)?;
    forest.sums.bytes += bytes.len() as u64;
    forest.sums.tags += count_tags(bytes);
    end_page(arena, open, number, forest)?;
    Ok(())
}

/// Builds pages, in this order. It stops as soon as they have more bytes than pages may have.
pub fn build_all<'a>(
    alloc: Global,
    arena: &'a Bump,
    pages: &[MemPage],
) -> Result<Forest<'a>, NoMemory>
    requires few { length pages.now ≤ MOST_PAGES }
    ensures reads { IfOk result (IsRead (map (λ p. p.bytes) pages.now)) }
    ensures sound { IfOk result (IsSound (map (λ p. p.name) pages.now)) }
    ensures keeps { IfOk result (λ f. f.keeps ≡ false) }
{
    let mut forest = no_pages(alloc, false);
    for (number, page) in pages.iter().enumerate() {
        build_page(alloc, arena, page, number as u32, &mut forest)?;
        if forest.sums.bytes > MOST_BYTES {
            return Ok(forest);
        }
    }
    Ok(forest)
}
