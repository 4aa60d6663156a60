//! A page's tree from its bytes in any pieces.
ghost use Rattle.std.specs.Prelude.{◌≡◌, ◌≢◌, ◌++◌, ◌+◌, ◌<◌, ◌≤◌, ◌^◌, [], ℕ, List, OnOk, IfOk, IfSome, IsErr, Err, Some, None, true, false, length, take, option_to_list, string_bytes};

use crate::ending::{end, fault_of};
use crate::pending::Pending;
use crate::setting::Setting;
use crate::settle::{Break, settle};
use crate::tree::Building;
use bumpalo::Bump;
use ix_base::{Element, NoMemory, Rule};
use page_constructs::TagRoom;
use page_text::{Feed, Mark};
use std::alloc::Global;
use thiserror::Error;

/// Why a page has no tree.
#[derive(Clone, Copy, Debug, PartialEq, Eq, Error)]
pub enum PageFault {
    /// The page breaks this rule, first at this offset in bytes from its front.
    #[error("a page that is not well-formed")]
    Broken { offset: u64, rule: Rule },
    #[error("no memory is left")]
    NoMemory,
}

impl From<NoMemory> for PageFault {
    fn from(_error: NoMemory) -> PageFault
        ensures { result ≡ PageFault.NoMemory }
    {
        PageFault::NoMemory
    }
}

/// Builds a page's tree from its bytes, which come in any pieces.
///
/// A construct is built in once it is known to be whole, so that no more of the page is kept than what waits for the end of
/// its construct.
#[derive(Drop)]
pub struct TreeBuilder<'a> {
    setting: Setting<'a>,
    building: Building<'a>,
    /// What a tag is read into as it is written, one tag after another.
    room: TagRoom<'a>,
    feed: Feed,
    /// How many bytes were given.
    fed: u64,
    pending: Pending,
    broken: Option<Break>,
    is_spent: bool,
    ghost counts: { feed.pushed ≤ fed },
}

impl<'a> TreeBuilder<'a> {
    ghost use Rattle.ix_base.specs.Trees.{tree_of};
    ghost use Rattle.ix_base.specs.Elements.{pages_of};
    ghost use Rattle.ix_base.specs.Spaces.{AreNumbered, spaces_of};
    ghost use Rattle.page_tree.specs.Break.{w};
    ghost use Rattle.page_tree.specs.Page.{page as page_with};
    ghost use Rattle.page_tree.specs.Stacks.{AreAll};
    ghost use Rattle.page_tree.specs.Model.{HasLed, HasRead, HasBuilt, StandsFor, IsSameBut};
    ghost use Rattle.page_tree.specs.PendingText.{IsNext};
    ghost use Rattle.page_constructs.specs.Constructs.{whole_size, spread, counted};
    ghost use Rattle.page_text.specs.Characters.{begun};
    ghost use Rattle.std.specs.Char.{len_utf8};
    ghost use Rattle.page_tree.specs.OpenEnds.{pending_of};
    ghost use Rattle.page_tree.specs.Model.{limit, page_number, fed_bytes, is_spent as is_spent_of, verdict_of};

    /// A builder of the page of this number, whose elements lie in the arena. None of them may be deeper than the limit,
    /// the root's depth being 1.
    pub fn new(alloc: Global, arena: &'a Bump, page: u32, depth: u32) -> TreeBuilder<'a>
        ensures stands { StandsFor result [] }
        ensures limit { limit result ≡ depth }
        ensures page { page_number result ≡ page }
        ensures fed { fed_bytes result ≡ 0 }
        ensures spent { is_spent_of result ≡ false }
    {
        TreeBuilder {
            setting: Setting {
                alloc,
                arena,
                page,
                depth,
            },
            building: Building::new(alloc),
            room: TagRoom::new(alloc),
            feed: Feed::new(),
            fed: 0,
            pending: Pending::new(alloc),
            broken: None,
            is_spent: false,
        }
    }

    /// Builds in what is whole.
    fn work_off(&mut self) -> Result<(), NoMemory>
        requires { self.old.broken ≡ None }
        ensures led { OnOk result ((b : List ℕ) → HasLed self.old b → HasLed self.new b) }
        ensures waits { OnOk result (self.new.broken ≡ None
            → whole_size false self.new.pending.is_first (string_bytes self.new.pending.text) ≡ None) }
        ensures same { IsSameBut self.old self.new }
        ensures feed { self.new.feed ≡ self.old.feed }
    {
        let settled = settle(
            &self.setting,
            &mut self.building,
            &mut self.room,
            false,
            self.pending.is_first,
            self.pending.text.as_str(),
            self.pending.places,
            self.pending.sought,
        )?;
        if let Some(broken) = settled.broken {
            self.broken = Some(broken);
            self.pending.clear();
            return Ok(());
        }
        self.pending.drop_front(settled.taken, settled.sought)
    }

    /// Sees to it that a text at this offset can be put behind what waits.
    fn make_way(&mut self, offset: u64) -> Result<(), NoMemory>
        requires { self.old.broken ≡ None }
        ensures led { OnOk result ((b : List ℕ) → HasLed self.old b → HasLed self.new b) }
        ensures next { OnOk result (self.new.broken ≡ None → IsNext self.new.pending offset) }
        ensures same { IsSameBut self.old self.new }
        ensures feed { self.new.feed ≡ self.old.feed }
    {
        if self.pending.is_next(offset) && self.pending.is_short() {
            return Ok(());
        }
        self.work_off()?;
        if self.broken.is_some() {
            return Ok(());
        }
        self.pending.skip_to(offset);
        Ok(())
    }

    /// Takes a text that the bytes so far make certain.
    fn take_text(&mut self, offset: u64, text: &str) -> Result<(), NoMemory>
        requires whole { self.old.broken ≡ None }
        requires fits { offset + length text.now < 2 ^ 64 }
        ensures led { OnOk result ((b c : List ℕ) → spread (begun c) ≡ spread (begun b) ++ counted offset text.now
            → HasLed self.old b → HasLed self.new c) }
        ensures same { IsSameBut self.old self.new }
        ensures feed { self.new.feed ≡ self.old.feed }
    {
        self.make_way(offset)?;
        if self.broken.is_some() {
            return Ok(());
        }
        self.pending.append(offset, text)
    }

    /// Takes a character, where there is one.
    fn take_mark(&mut self, mark: Option<Mark>) -> Result<(), NoMemory>
        requires whole { self.old.broken ≡ None }
        requires fits { IfSome mark (λ m. m.offset + len_utf8 m.ch < 2 ^ 64) }
        ensures led { OnOk result ((b c : List ℕ) → begun c ≡ begun b ++ option_to_list mark → HasLed self.old b → HasLed self.new c) }
        ensures same { IsSameBut self.old self.new }
        ensures feed { self.new.feed ≡ self.old.feed }
    {
        let Some(mark) = mark else {
            return Ok(());
        };
        let mut bytes = [0; 4];
        self.take_text(mark.offset, mark.ch.encode_utf8(&mut bytes))
    }

    /// Takes some bytes from the front of a piece, and says how many.
    fn take_part(&mut self, piece: &[u8]) -> Result<usize, NoMemory>
        requires whole { self.old.broken ≡ None }
        requires some { 0 < length piece.now }
        requires room { self.old.feed.pushed + length piece.now ≤ self.old.fed }
        requires fits { self.old.feed.pushed + length piece.now < 2 ^ 64 }
        ensures bounds { IfOk result (λ n. (0 < n) × (n ≤ length piece.now)) }
        ensures read { IfOk result (λ n. (b : List ℕ) → HasRead self.old b → HasRead self.new (b ++ take n piece.now)) }
        ensures counts { IfOk result (λ n. self.new.feed.pushed ≡ self.old.feed.pushed + n) }
        ensures same { IsSameBut self.old self.new }
    {
        let run = self.feed.take_plain(piece);
        if run.text.is_empty() {
            let mark = self.feed.step(piece[0]);
            self.take_mark(mark)?;
            return Ok(1);
        }
        self.take_text(run.offset, run.text)?;
        Ok(run.text.len())
    }

    /// Takes a piece of a page without a break so far.
    fn take_piece(&mut self, piece: &[u8]) -> Result<(), NoMemory>
        requires whole { self.old.broken ≡ None }
        requires room { self.old.feed.pushed + length piece.now ≤ self.old.fed }
        requires fits { self.old.feed.pushed + length piece.now < 2 ^ 64 }
        ensures built { OnOk result ((b : List ℕ) → HasBuilt self.old b → HasBuilt self.new (b ++ piece.now)) }
        ensures same { IsSameBut self.old self.new }
    {
        let mut at = 0;
        'parts: while at < piece.len() {
            at += self.take_part(&piece[at..])?;
            if self.broken.is_some() {
                return Ok(());
            }
        }
        self.work_off()
    }

    /// Takes the next piece of the page.
    ///
    /// A page that has a break goes on taking pieces, and keeps its first break. After want of memory it is answered by
    /// each later call.
    pub fn feed(&mut self, piece: &[u8]) -> Result<(), NoMemory>
        requires { fed_bytes self.old + length piece.now < 2 ^ 64 }
        ensures stands { (b : List ℕ) → StandsFor self.old b → OnOk result (StandsFor self.new (b ++ piece.now)) }
        ensures fed { fed_bytes self.new ≡ fed_bytes self.old + length piece.now }
        ensures limit { limit self.new ≡ limit self.old }
        ensures page { page_number self.new ≡ page_number self.old }
        ensures spent { is_spent_of self.old ≡ true → IsErr result }
        ensures spends { IsErr result → is_spent_of self.new ≡ true }
    {
        self.fed += piece.len() as u64;
        if self.is_spent {
            return Err(NoMemory);
        }
        if self.broken.is_some() {
            return Ok(());
        }
        let taken = self.take_piece(piece);
        self.is_spent = taken.is_err();
        taken
    }

    /// How many characters wait for the end of their construct: those behind the last construct that stays cut as it is,
    /// whatever follows. A page that has a break has none. It goes once through what waits.
    pub fn pending(&self) -> u64
        ensures { (b : List ℕ) → StandsFor self.now b → result ≡ pending_of b (limit self.now) }
    {
        if self.broken.is_some() || self.feed.is_broken() {
            return 0;
        }
        self.pending.text.as_str().chars().count() as u64
    }

    /// Ends the page, and gives its root.
    pub fn finish(self) -> Result<&'a Element<'a>, PageFault>
        ensures root { IfOk result (λ e. (b : List ℕ) → StandsFor self.entry b → page_with b (limit self.entry) (tree_of e.now)) }
        ensures verdict { (b : List ℕ) → StandsFor self.entry b → result ≢ Err PageFault.NoMemory
            → verdict_of result ≡ w b (limit self.entry) }
        ensures page { IfOk result (λ e. (b : List ℕ) → StandsFor self.entry b
            → AreAll (page_number self.entry) (pages_of e.now)) }
        ensures spaces { IfOk result (λ e. (b : List ℕ) → StandsFor self.entry b → AreNumbered (spaces_of e.now)) }
        ensures spent { is_spent_of self.entry ≡ true → result ≡ Err PageFault.NoMemory }
    {
        if self.is_spent {
            return Err(PageFault::NoMemory);
        }
        if let Some(broken) = self.broken {
            return Err(fault_of(broken));
        }
        let setting = self.setting;
        let mut marks = Vec::new(setting.alloc);
        let stop = self.feed.end(&mut marks);
        let mut building = self.building;
        let mut room = self.room;
        end(
            &setting,
            &mut building,
            &mut room,
            stop,
            &self.pending,
            self.fed,
        )
    }
}
