//! Tracers, to which pages are added one by one.
ghost use Rattle.std.specs.Prelude.{◌≡◌, ◌++◌, ◌∷◌, [], false, true, All, Contains, IfOk, IsErr, List as Items, OnErr, OnOk, length};
ghost use Rattle.ix_base.specs.declared.limits.TheConstants.{DEEPEST_ELEMENT};
ghost use Rattle.std.specs.List.Sorted.{IsPermutation};
ghost use Rattle.ix_base.specs.Elements.{pages_of};
ghost use Rattle.ix_base.specs.LinkRules.{breaking};
ghost use Rattle.ix_base.specs.Spaces.{AreNumbered, spaces_of};
ghost use Rattle.ix_base.specs.Trees.{tree_of};
ghost use Rattle.ix_base.specs.declared.rule.Rule.TheVariants as rules;
ghost use Rattle.continuations.specs.Model.{AreChainsOf};
ghost use Rattle.page_tree.specs.Page.{page as page_of};
ghost use Rattle.target_contents.specs.LinkedSets.{AreApart};
ghost use Rattle.fact_trace.specs.Model.{ArePagesFrom, sources_of};
ghost use Rattle.fact_trace.specs.Spans.{Source, elements, traces};
ghost use Rattle.fact_trace.specs.ValidPages.{BreakNoRule, names_of};

use crate::items::traced_items;
use crate::order::sort_items;
use crate::page::Page;
use crate::span::Traced;
use bumpalo::Bump;
use continuations::{Chains, link};
use id_table::Index;
use ix_base::{Breaches, Element, List, NoMemory, Text};
use std::alloc::Global;
use std::marker::Model;

/// Tells where the text of each fact stands.
///
/// Contracts see the pages with their trees, and whether memory was wanting. Once it was, each call answers so.
pub struct Tracer<'a> {
    alloc: Global,
    arena: &'a Bump,
    pages: Vec<Page<'a>>,
    index: Index<'a>,
    is_spent: bool,
}

impl Drop for Tracer<'_> {
    fn drop(self) {
        let Tracer {
            alloc: _,
            arena: _,
            pages: _,
            index: _,
            is_spent: _,
        } = self;
    }
}

impl<'a> Model for Tracer<'a> {
    ghost use Rattle.std.specs.Prelude.{◌≡◌, false};
    ghost use Rattle.fact_trace.specs.Model.{Held, Keeps, held_code, sources_of};

    ghost Value = { Held };

    ghost coded = { held_code };

    ghost view = { λ t. record { sources = sources_of t.pages.items; is_spent = t.is_spent } };

    ghost invariant = { λ t. t.is_spent ≡ false → Keeps t.pages.items t.index };
}

/// The chains of elements that break no rule on continuations.
fn chains_of<'a>(alloc: Global, arena: &'a Bump, index: &Index<'a>) -> Result<Chains<'a>, NoMemory>
    requires { breaking rules.L4 index.now.spots ++ breaking rules.L5 index.now.spots
        ++ breaking rules.L6 index.now.spots ++ breaking rules.L7 index.now.spots ≡ [] }
    ensures { IfOk result (λ c. AreChainsOf c index.now.spots) }
{
    let mut found = Breaches::new(alloc);
    link(alloc, arena, index, &mut found)
}

/// All items of some pages, each with its spans, in order.
fn traced_all<'a>(
    alloc: Global,
    arena: &'a Bump,
    pages: &[Page<'a>],
    index: &Index<'a>,
) -> Result<List<Traced>, NoMemory>
    requires pages { ArePagesFrom 0 pages.now }
    requires spots { index.now.spots ≡ elements (sources_of pages.now) }
    requires apart { AreApart index.now.spots }
    requires linked { breaking rules.L4 index.now.spots ++ breaking rules.L5 index.now.spots
        ++ breaking rules.L6 index.now.spots ++ breaking rules.L7 index.now.spots ≡ [] }
    ensures { IfOk result (λ l. l ≡ traces (sources_of pages.now)) }
{
    let chains = chains_of(alloc, arena, index)?;
    let mut items = traced_items(alloc, pages, &chains, index.spots())?;
    sort_items(&mut items)?;
    Ok(List::of(items))
}

impl<'a> Tracer<'a> {
    /// A tracer without pages. It takes no memory.
    pub fn new(alloc: Global, arena: &'a Bump) -> Tracer<'a>
        ensures { result ≡ record { sources = []; is_spent = false } }
    {
        Tracer {
            alloc,
            arena,
            pages: Vec::new(alloc),
            index: Index::new(alloc),
            is_spent: false,
        }
    }

    /// Adds a page, whose number is the number of pages before it. Where memory is wanting, the tracer is spent: each call
    /// answers so from then on.
    pub fn add_page(
        &mut self,
        name: &str,
        bytes: &'a [u8],
        root: &'a Element<'a>,
    ) -> Result<(), NoMemory>
        requires tree { page_of bytes.now DEEPEST_ELEMENT (tree_of root.now) }
        requires number { All (λ n. n ≡ length self.old.sources) (pages_of root.now) }
        requires spaces { AreNumbered (spaces_of root.now) }
        requires fresh { ¬ Contains (names_of self.old.sources) name.now }
        ensures ok { OnOk result (self.new ≡ record {
          sources = self.old.sources ++ record { name = name.now; bytes = bytes.now; tree = tree_of root.now } ∷ [];
          is_spent = false;
        }) }
        ensures err { OnErr result (self.new ≡ record { sources = self.old.sources; is_spent = true }) }
        ensures spent { self.old.is_spent ≡ true → IsErr result }
    {
        if self.is_spent {
            return Err(NoMemory);
        }
        self.is_spent = true;
        let name = Text::of(self.alloc, name)?;
        self.index.add_page(self.arena, root)?;
        self.pages.push(Page { name, bytes, root })?;
        self.is_spent = false;
        Ok(())
    }

    /// The items of the pages with their spans, in order.
    fn traced(&self) -> Result<List<Traced>, NoMemory>
        requires { BreakNoRule self.now.sources }
        ensures traced { IfOk result (λ l. l ≡ traces self.now.sources) }
        ensures rearranged { IfOk result (λ l. (others : Items Source) → IsPermutation self.now.sources others → l ≡ traces others) }
        ensures spent { self.now.is_spent ≡ true → IsErr result }
    {
        if self.is_spent {
            return Err(NoMemory);
        }
        traced_all(self.alloc, self.arena, self.pages.as_slice(), &self.index)
    }

    /// Every item of the pages with its spans, by the bytes of the pages' names and then by offset. The same pages give the same in
    /// every order.
    pub fn finish(self) -> Result<List<Traced>, NoMemory>
        requires { BreakNoRule self.sources }
        ensures traced { IfOk result (λ l. l ≡ traces self.entry.sources) }
        ensures rearranged { IfOk result (λ l. (others : Items Source) → IsPermutation self.entry.sources others → l ≡ traces others) }
        ensures spent { self.entry.is_spent ≡ true → IsErr result }
    {
        self.traced()
    }
}
