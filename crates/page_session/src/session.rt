//! A session.
ghost use Rattle.std.specs.Prelude.{◌≡◌, ◌↔◌, ◌⊎◌, ◌<◌, ◌≤◌, ◌+◌, ◌^◌, ◌++◌, ◌∷◌, [], List, length, vec_len, true, IsTrue, IfOk, OnOk, OnErr, IfSome, Err, option_map};
ghost use Rattle.ix_base.specs.declared.limits.TheConstants.{LONGEST_NAME, MOST_PAGES};
ghost use Rattle.page_session.specs.Limits.{may_hold};

use crate::answer::outcome_of;
use crate::kept::{Kept, keep, place_in};
use crate::put::{PutFault, read_held};
use crate::reading::{ReadError, Sums};
use bumpalo::Bump;
use ix_base::limits::MOST_PAGES;
use ix_base::{NoMemory, PageSource, Text};
use std::alloc::Global;
use targets::Outcome;

/// A session over pages that change one at a time. Of each page that is there it keeps its tree or its break, in the arena. Trees of
/// pages that were replaced or taken away stay there until the arena ends, and so what is put is limited.
pub struct Session<'a> {
    alloc: Global,
    arena: &'a Bump,
    base: Text,
    kept: Vec<Kept<'a>>,
    sums: Sums,
    ghost few: { vec_len kept ≤ MOST_PAGES },
    ghost within: { may_hold sums.bytes sums.tags ≡ true },
    ghost tags: { sums.tags ≤ sums.bytes },
}

impl Drop for Session<'_> {
    fn drop(self) {
        let Session {
            alloc: _,
            arena: _,
            base: _,
            kept: _,
            sums: _,
        } = self;
    }
}

impl<'a> Session<'a> {
    ghost use Rattle.ix_base.specs.Outside.{TellsAlso};
    ghost use Rattle.page_session.specs.HandedPages.{Handed, bytes_of, handed, is_one_too_many, is_there, names_of};
    ghost use Rattle.page_session.specs.Sessions.{HasDropped, HasPut, HasPutCause, IsOver, IsSame, IsWithin, OfPage, StandsFor, base_of, bytes_put, names_in, tags_put};
    ghost use Rattle.targets.specs.Breaches.{PagesComeTo};
    ghost use Rattle.target_contents.specs.SetOutcomes.{CanBeWritten};

    /// A session without pages, under this base.
    pub fn new(alloc: Global, arena: &'a Bump, base: &str) -> Result<Session<'a>, NoMemory>
        ensures stands { IfOk result (λ s. StandsFor s []) }
        ensures base { IfOk result (λ s. base_of s ≡ base.now) }
        ensures sums { IfOk result (λ s. (bytes_put s ≡ 0) × (tags_put s ≡ 0)) }
    {
        Ok(Session {
            alloc,
            arena,
            base: Text::of(alloc, base)?,
            kept: Vec::new(alloc),
            sums: Sums { bytes: 0, tags: 0 },
        })
    }

    /// Reads a page to its end and keeps it, in place of an older page of its name, or behind them all. A put that is refused leaves
    /// the pages that are there and the sums of what was put.
    pub fn put<P: PageSource>(&mut self, name: &str, pages: &mut P) -> Result<(), PutFault>
        requires count { P.faults pages.old + 1 < 2 ^ 64 }
        requires name { length name.now ≤ LONGEST_NAME }
        ensures ok { OnOk result (OfPage (P.page pages.old name.now) (λ b. HasPut (handed name.now b) self.old self.new)) }
        ensures err { OnErr result (IsSame self.old self.new) }

        // When each refusal comes. Only one of them can be due, but for want of memory.
        ensures many { (result ≡ Err PutFault.TooMany) ↔ (is_one_too_many (names_in self.old) name.now ≡ true) }
        ensures unasked { result ≡ Err PutFault.TooMany → pages.new ≡ pages.old }
        ensures spent { result ≡ Err PutFault.Spent → OfPage (P.page pages.old name.now) (IsOver self.old) }
        ensures within { IsWithin self.new }
        ensures cause { HasPutCause (P.faults pages.old) (P.faults pages.new) result }
        ensures failed { result ≡ Err PutFault.ReadFault → IsTrue (P.last_failed pages.new) }
        ensures named { result ≡ Err PutFault.ReadFault → IfSome (P.asked pages.new) (λ n. n ≡ name.now) }

        // What the source tells then.
        ensures asked { (pages.new ≡ pages.old) ⊎ IfSome (P.asked pages.new) (λ n. n ≡ name.now) }
        ensures starts { (P.starts pages.new ≡ P.starts pages.old)
            ⊎ (P.starts pages.new ≡ option_map (λ names. names ++ name.now ∷ []) (P.starts pages.old)) }
        ensures started { OnOk result (P.starts pages.new ≡ option_map (λ names. names ++ name.now ∷ []) (P.starts pages.old)) }
        ensures started_spent { result ≡ Err PutFault.Spent
            → P.starts pages.new ≡ option_map (λ names. names ++ name.now ∷ []) (P.starts pages.old) }
        ensures pages { P.page pages.new ≡ P.page pages.old }
        ensures numbers { P.numbers pages.new ≡ P.numbers pages.old }
        ensures told { OnOk result (TellsAlso (P.page pages.old) name.now) }
        ensures told_spent { result ≡ Err PutFault.Spent → TellsAlso (P.page pages.old) name.now }
    {
        let at = place_in(self.kept.as_slice(), name);
        if at == MOST_PAGES {
            return Err(PutFault::TooMany);
        }
        let mut sums = self.sums;
        let held = match read_held(self.alloc, self.arena, pages, name, at as u32, &mut sums) {
            Ok(Some(held)) => held,
            Ok(None) => return Err(PutFault::Spent),
            Err(ReadError::Failed) => return Err(PutFault::ReadFault),
            Err(ReadError::NoMemory) => return Err(PutFault::NoMemory),
        };
        match keep(self.alloc, &mut self.kept, at, name, held) {
            Ok(()) => {}
            Err(_) => return Err(PutFault::NoMemory),
        }
        self.sums = sums;
        Ok(())
    }

    /// Takes a page away, and answers whether it was there. It takes no memory.
    pub fn remove(&mut self, name: &str) -> bool
        ensures dropped { HasDropped name.now self.old self.new }
        ensures there { result ≡ is_there (names_in self.old) name.now }
    {
        let at = place_in(self.kept.as_slice(), name);
        if at == self.kept.len() {
            return false;
        }
        self.kept.remove(at);
        true
    }

    /// What the pages that are there come to: the rules that they break, of the first class that has any, or their targets, each
    /// with its content. It is what they come to when they are read anew, whatever was put and taken away before. Nothing is read, and
    /// the session's arena isn't used.
    pub fn answer(&self) -> Result<Outcome, NoMemory>
        ensures says { IfOk result (λ o. (pages : List Handed) → StandsFor self.now pages
            → PagesComeTo (base_of self.now) (names_of pages) (bytes_of pages) o) }
        ensures written { IfOk result CanBeWritten }
    {
        outcome_of(self.alloc, self.base.as_str(), self.kept.as_slice())
    }
}
