//! Reading a page piece by piece.
ghost use Rattle.std.specs.Prelude.{◌≡◌, []};
ghost use Rattle.ix_base.specs.declared.limits.TheConstants.{DEEPEST_ELEMENT};
ghost use Rattle.page_tree.specs.Model.{limit, page_number};
ghost use Rattle.page_verdicts.specs.PageReads.{HasTaken};

use bumpalo::Bump;
use ix_base::NoMemory;
use ix_base::limits::{DEEPEST_ELEMENT, MOST_BYTES};
use page_session::reading::Sums;
use page_session::taking::PageTaker;
use page_tree::TreeBuilder;
use std::alloc::Global;

/// The most that is read of pages. How many bytes `<` they have is looked at behind the last.
pub const MOST: Sums = Sums {
    bytes: MOST_BYTES,
    tags: u64::MAX,
};

/// A page that is being read: the builder of its tree, and its bytes so far, where they are kept.
#[derive(Drop)]
pub struct OpenPage<'a> {
    pub tree: TreeBuilder<'a>,
    pub keeps: bool,
    pub bytes: Vec<u8>,
}

impl<'a> OpenPage<'a> {
    /// A page of this number, of which nothing was read.
    pub fn new(alloc: Global, arena: &'a Bump, number: u32, keeps: bool) -> OpenPage<'a>
        ensures fresh { HasTaken result [] result }
        ensures limit { limit result.tree ≡ DEEPEST_ELEMENT }
        ensures page { page_number result.tree ≡ number }
        ensures keeps { result.keeps ≡ keeps }
    {
        OpenPage {
            tree: TreeBuilder::new(alloc, arena, number, DEEPEST_ELEMENT),
            keeps,
            bytes: Vec::new(alloc),
        }
    }
}

impl PageTaker for OpenPage<'_> {
    ghost use Rattle.page_verdicts.specs.PageReads.{HasTaken};

    ghost took = { λ fresh b p. HasTaken fresh b p };

    fn take(&mut self, piece: &[u8]) -> Result<(), NoMemory> {
        self.tree.feed(piece)?;
        if self.keeps {
            self.bytes.extend_from_slice(piece)?;
        }
        Ok(())
    }
}
