//! Some bytes as a page, and what it denotes.
ghost use Rattle.std.specs.Prelude.{◌≡◌, [], IfOk, OnOk};
ghost use Rattle.page_tree.specs.Model.{StandsFor, limit};
ghost use Rattle.instance_in.specs.Outcomes.{Denotes, HasRoot};

use bumpalo::Bump;
use instance_tree::denoted;
use ix_base::limits::PIECE;
use ix_base::{Content, Element, NoMemory};
use page_tree::{PageFault, TreeBuilder};
use std::alloc::Global;

/// The most levels of elements of a canonical text: 255 in the body of a footnote, and three around it.
const DEPTH: u32 = 258;

/// Gives bytes to a builder that was given none.
fn feed_all(builder: &mut TreeBuilder<'_>, bytes: &[u8]) -> Result<(), NoMemory>
    requires { StandsFor builder.old [] }
    ensures stands { OnOk result (StandsFor builder.new bytes.now) }
    ensures limit { limit builder.new ≡ limit builder.old }
{
    let mut left = bytes;
    while left.len() > PIECE {
        let (piece, rest) = left.split_at(PIECE);
        builder.feed(piece)?;
        left = rest;
    }
    builder.feed(left)
}

/// The root of the tree of some bytes, which lies in an arena, if they are a page.
fn root_of<'a>(
    alloc: Global,
    arena: &'a Bump,
    bytes: &[u8],
) -> Result<Option<&'a Element<'a>>, NoMemory>
    ensures { IfOk result (λ o. HasRoot bytes.now o) }
{
    let mut builder = TreeBuilder::new(alloc, arena, 0, DEPTH);
    feed_all(&mut builder, bytes)?;
    match builder.finish() {
        Ok(root) => Ok(Some(root)),
        Err(PageFault::Broken { .. }) => Ok(None),
        Err(PageFault::NoMemory) => Err(NoMemory),
    }
}

/// The content that the tree of some bytes denotes, if they are a page that denotes one.
pub(crate) fn content_of(alloc: Global, bytes: &[u8]) -> Result<Option<Content>, NoMemory>
    ensures { IfOk result (λ o. Denotes bytes.now o) }
{
    let arena = Bump::new(alloc);
    match root_of(alloc, &arena, bytes)? {
        Some(root) => denoted(alloc, root),
        None => Ok(None),
    }
}
