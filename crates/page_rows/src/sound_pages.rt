//! Roots of pages, of which it is known that they are sound.
ghost use Rattle.std.specs.Prelude.{◌≡◌, IfOk};
ghost use Rattle.ix_base.specs.declared.limits.TheConstants.{DEEPEST_ELEMENT};
ghost use Rattle.ix_base.specs.Sound.{IsSoundRoot};

use anyhow::{Result, bail};
use bumpalo::Bump;
use ix_base::Element;
use ix_base::limits::DEEPEST_ELEMENT;
use page_tree::laws::sound_tree;
use page_tree::{PageFault, TreeBuilder};
use std::alloc::Global;

/// The root of a page of this text, the page with this number.
pub(crate) fn sound_root<'a>(
    alloc: Global,
    arena: &'a Bump,
    page: u32,
    text: &str,
) -> Result<&'a Element<'a>>
    ensures { IfOk result (λ e. IsSoundRoot e.now page DEEPEST_ELEMENT) }
{
    let mut builder = TreeBuilder::new(alloc, arena, page, DEEPEST_ELEMENT);
    builder.feed(text.as_bytes())?;
    match builder.finish() {
        Ok(root) => {
            sound_tree();
            Ok(root)
        }
        Err(PageFault::Broken { .. }) => bail!("the page has no tree"),
        Err(PageFault::NoMemory) => bail!("no memory"),
    }
}
