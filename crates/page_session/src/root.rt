//! Roots of sound trees.
ghost use Rattle.std.specs.Prelude.{◌≡◌, IfOk};
ghost use Rattle.ix_base.specs.declared.limits.TheConstants.{DEEPEST_ELEMENT};
ghost use Rattle.ix_base.specs.Sound.{IsSoundRoot};
ghost use Rattle.ix_base.specs.Trees.{tree_of};

use crate::renumbering::renumbered;
use bumpalo::Bump;
use ix_base::{Element, NoMemory};
use std::alloc::Global;
use std::marker::Model;

/// The root of a sound tree whose elements are no deeper than those of a page may be, with the number of its page. Contracts
/// see its tree and the number.
#[derive(Drop)]
pub struct SoundRoot<'a> {
    root: &'a Element<'a>,
    page: u32,
}

impl<'a> Model for SoundRoot<'a> {
    ghost use Rattle.ix_base.specs.declared.limits.TheConstants.{DEEPEST_ELEMENT};
    ghost use Rattle.ix_base.specs.Sound.{IsSoundRoot};
    ghost use Rattle.ix_base.specs.Trees.{tree_of};
    ghost use Rattle.page_session.specs.Model.{Rooted, rooted_code};

    ghost Value = { Rooted };

    ghost coded = { rooted_code };

    ghost view = { λ s. record { tree = tree_of s.root.now; page = s.page } };

    ghost invariant = { λ s. IsSoundRoot s.root.now s.page DEEPEST_ELEMENT };
}

impl<'a> SoundRoot<'a> {
    pub fn of(root: &'a Element<'a>, page: u32) -> SoundRoot<'a>
        requires { IsSoundRoot root.now page DEEPEST_ELEMENT }
        ensures { result ≡ record { tree = tree_of root.entry.now; page = page } }
    {
        SoundRoot { root, page }
    }

    /// The root, lent for a shorter time.
    fn lent<'s>(&self) -> &'s Element<'s>
    where
        'a: 's,
        ensures tree { tree_of result.now ≡ self.now.tree }
        ensures sound { IsSoundRoot result.now self.now.page DEEPEST_ELEMENT }
    {
        self.root
    }

    /// The root of the same tree, of the page of this number. It is made anew in the arena only where that is another number.
    pub fn on_page<'s>(
        &self,
        alloc: Global,
        arena: &'s Bump,
        page: u32,
    ) -> Result<&'s Element<'s>, NoMemory>
    where
        'a: 's,
        ensures tree { IfOk result (λ e. tree_of e.now ≡ self.now.tree) }
        ensures sound { IfOk result (λ e. IsSoundRoot e.now page DEEPEST_ELEMENT) }
    {
        let root = self.lent();
        if page == self.page {
            return Ok(root);
        }
        renumbered(alloc, arena, root, page)
    }
}
