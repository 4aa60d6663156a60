//! Adding pages to a set.
ghost use Rattle.std.specs.Prelude.{◌≡◌, ◌++◌, ◌∷◌, [], length, true, false, IfOk, OnOk, OnErr, IsErr};
ghost use Rattle.ix_base.specs.declared.limits.TheConstants.{DEEPEST_ELEMENT};
ghost use Rattle.ix_base.specs.Sound.{IsSoundRoot};
ghost use Rattle.ix_base.specs.Trees.{tree_of};
ghost use Rattle.targets.specs.ValidSets.{AreProper};
ghost use Rattle.target_contents.specs.SetOutcomes.{CanBeWritten, ComesTo, ComesToAlways};
ghost use Rattle.target_contents.specs.PageSet.{elements};
ghost use Rattle.page_links.specs.LinkStates.{doubled_links, pending_links};

use crate::closing::closed;
use bumpalo::Bump;
use id_table::Index;
use ix_base::{Element, NoMemory, Text};
use page_links::{Links, Page, PageNames, Pages, choose_from};
use scopes::Bases;
use std::alloc::Global;
use std::marker::Model;
use target_contents::Outcome;

/// A set of pages, to which they are added one by one.
///
/// Contracts see the pages under their base, and whether memory was wanting. Once it was, each call answers so.
#[derive(Drop)]
pub struct Set<'a> {
    alloc: Global,
    arena: &'a Bump,
    base: Text,
    pages: Vec<Page<'a>>,
    index: Index<'a>,
    bases: Bases,
    /// How the links stand between the elements so far.
    links: Links<'a>,
    is_spent: bool,
}

impl<'a> Model for Set<'a> {
    ghost use Rattle.std.specs.Prelude.{◌≡◌, [], false, map};
    ghost use Rattle.ix_base.specs.LocatedElements.{marked};
    ghost use Rattle.page_links.specs.Choices.{HasChoices};
    ghost use Rattle.page_links.specs.Model.{HeldSet, Keeps, held_code, as_paged, names_with};
    ghost use Rattle.page_links.specs.LinkTables.{AreLinks};

    ghost Value = { HeldSet };

    ghost coded = { held_code };

    ghost view = { λ s. record { held = record { base = s.base; pages = map as_paged s.pages.items }; is_spent = s.is_spent } };

    ghost invariant = { λ s. s.is_spent ≡ false
        → Keeps s.base s.pages.items s.index s.bases × AreLinks (names_with s.pages.items []) (marked (map as_paged s.pages.items)) s.links
        × HasChoices (names_with s.pages.items []) (marked (map as_paged s.pages.items)) s.index };
}

impl<'a> Set<'a> {
    /// A set of no pages under this base.
    pub fn new(alloc: Global, arena: &'a Bump, base: &str) -> Result<Set<'a>, NoMemory>
        ensures { IfOk result (λ s. s ≡ record { held = record { base = base.now; pages = [] }; is_spent = false }) }
    {
        Ok(Set {
            alloc,
            arena,
            base: Text::of(alloc, base)?,
            pages: Vec::new(alloc),
            index: Index::new(alloc),
            bases: Bases::new(alloc),
            links: Links::new(alloc),
            is_spent: false,
        })
    }

    /// Adds a page, whose number is the number of pages before it. Where memory is wanting, the set is spent: each call
    /// answers so from then on.
    #[tactic(auto, using(crate::proofs::SetLaws::spots_less))]
    pub fn add_page(&mut self, name: &str, root: &'a Element<'a>) -> Result<(), NoMemory>
        requires { IsSoundRoot root.now (length self.old.held.pages) DEEPEST_ELEMENT }
        ensures ok { OnOk result (self.new ≡ record {
          held = record self.old.held { pages = self.old.held.pages ++ record { name = name.now; tree = tree_of root.now } ∷ [] };
          is_spent = false;
        }) }
        ensures err { OnErr result (self.new ≡ record { held = self.old.held; is_spent = true }) }
        ensures spent { self.old.is_spent ≡ true → IsErr result }
    {
        if self.is_spent {
            return Err(NoMemory);
        }
        self.is_spent = true;
        let own = Text::of(self.alloc, name)?;
        let before = self.index.spots().len();
        self.index.add_page(self.arena, root)?;
        let names = PageNames {
            pages: self.pages.as_slice(),
            next: name,
        };
        let came = &self.index.spots()[before..];
        self.links.add_all(self.alloc, &names, came)?;
        choose_from(&mut self.index, &self.links, before)?;
        self.bases.add_page(self.base.as_str(), name, root)?;
        self.pages.push(Page { name: own, root })?;
        self.is_spent = false;
        Ok(())
    }

    /// How many links between the elements so far are pending: of no element is the id that they name, or of no tuple the tuple
    /// id. It takes no memory.
    pub fn pending(&self) -> u64
        ensures { self.now.is_spent ≡ false → result ≡ length (pending_links (elements self.now.held)) }
    {
        self.links.pending()
    }

    /// How many links between the elements so far are doubled: more than one element has the id that they name, and they don't
    /// agree, or more than one tuple the tuple id. It takes no memory.
    pub fn doubled(&self) -> u64
        ensures { self.now.is_spent ≡ false → result ≡ length (doubled_links (elements self.now.held)) }
    {
        self.links.doubled()
    }

    /// What the pages come to: the rules that they break, of the first class that has any, or the targets, each with its
    /// content. The same pages come to the same in every order. Each content is proper, so that its instance can be read back.
    pub fn close(self) -> Result<Outcome, NoMemory>
        ensures comes { IfOk result (ComesTo self.entry.held) }
        ensures rearranged { IfOk result (ComesToAlways self.entry.held) }
        ensures written { IfOk result CanBeWritten }
        ensures proper { IfOk result AreProper }
        ensures spent { self.entry.is_spent ≡ true → IsErr result }
    {
        if self.is_spent {
            return Err(NoMemory);
        }
        // No page comes any more, so what was kept for that is given back first.
        drop(self.links);
        let pages = Pages {
            base: self.base.as_str(),
            pages: self.pages.as_slice(),
            index: &self.index,
            bases: &self.bases,
        };
        closed(self.alloc, self.arena, &pages)
    }
}
