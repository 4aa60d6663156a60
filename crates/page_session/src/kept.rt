//! What a session keeps of its pages.
ghost use Rattle.std.specs.Prelude.{◌≡◌, ◌<◌, ◌≤◌, ◌++◌, ◌∷◌, [], ℕ, List, length, slice_set, IfOk, OnOk, OnErr};
ghost use Rattle.ix_base.specs.declared.limits.TheConstants.{DEEPEST_ELEMENT};
ghost use Rattle.page_tree.specs.Model.{StandsFor, limit, page_number};
ghost use Rattle.page_session.specs.HandedPages.{place_of};
ghost use Rattle.page_session.specs.Sessions.{IsHeld, names_kept};

use crate::root::SoundRoot;
use ix_base::{NoMemory, Rule, Text};
use page_tree::laws::sound_tree;
use page_tree::{PageFault, TreeBuilder};
use std::alloc::Global;

/// What is kept of a page: its root, or the rule that its text breaks first, with the offset.
#[derive(Drop)]
pub enum Held<'a> {
    Tree(SoundRoot<'a>),
    Broken { offset: u64, rule: Rule },
}

/// A page that is kept.
pub struct Kept<'a> {
    pub name: Text,
    pub held: Held<'a>,
}

impl Drop for Kept<'_> {
    fn drop(self) {
        let Kept { name: _, held: _ } = self;
    }
}

/// The index of the page of this name, or the number of pages.
pub fn place_in(kept: &[Kept<'_>], name: &str) -> usize
    ensures value { result ≡ place_of (names_kept kept.now) name.now }
    ensures within { result ≤ length kept.now }
{
    for (at, page) in kept.iter().enumerate() {
        if page.name.as_str() == name {
            return at;
        }
    }
    kept.len()
}

/// What is to be kept of the page that a builder was given.
pub fn held_of<'a>(builder: TreeBuilder<'a>, number: u32) -> Result<Held<'a>, NoMemory>
    requires depth { limit builder ≡ DEEPEST_ELEMENT }
    requires page { page_number builder ≡ number }
    requires built { (b : List ℕ) × StandsFor builder b }
    ensures { IfOk result (λ h. (b : List ℕ) → StandsFor builder.entry b → IsHeld h b) }
{
    sound_tree();
    match builder.finish() {
        Ok(root) => Ok(Held::Tree(SoundRoot::of(root, number))),
        Err(PageFault::Broken { offset, rule }) => Ok(Held::Broken { offset, rule }),
        Err(PageFault::NoMemory) => Err(NoMemory),
    }
}

/// Keeps a page, in place of the one at this index, or behind them all.
pub fn keep<'a>(
    alloc: Global,
    kept: &mut Vec<Kept<'a>>,
    at: usize,
    name: &str,
    held: Held<'a>,
) -> Result<(), NoMemory>
    requires { at ≤ length kept.old.items }
    ensures replaced { at < length kept.old.items
        → OnOk result (kept.new.items ≡ slice_set kept.old.items at (record { name = name.now; held = held.entry })) }
    ensures added { at ≡ length kept.old.items
        → OnOk result (kept.new.items ≡ kept.old.items ++ record { name = name.now; held = held.entry } ∷ []) }
    ensures err { OnErr result (kept.new.items ≡ kept.old.items) }
{
    let page = Kept {
        name: Text::of(alloc, name)?,
        held,
    };
    if at < kept.len() {
        kept[at] = page;
        return Ok(());
    }
    match kept.push(page) {
        Ok(()) => Ok(()),
        Err(_) => Err(NoMemory),
    }
}
