//! Characters of a page that aren't built in yet.
ghost use Rattle.std.specs.Prelude.{◌≡◌, ◌≢◌, ◌++◌, ◌+◌, ◌-◌, ◌<◌, ◌≤◌, ◌^◌, ◌==◌, ◌&&◌, [], true, None, List, OnOk, length, take, drop, string_bytes};
ghost use Rattle.page_constructs.specs.Constructs.{size};
ghost use Rattle.page_tree.specs.TextPlaces.{offset_at};
ghost use Rattle.page_constructs.specs.Searches.{IsSought};

use ix_base::NoMemory;
use ix_base::limits::PIECE;
use page_constructs::{Sought, unsought};
use std::alloc::Global;

/// Where the bytes of a text stand in the page: the first has an offset of its own, and from a place on each stands right
/// behind the one before it. What lies between is never the start of a construct.
#[derive(Clone, Copy, Debug)]
pub(crate) struct Places {
    /// The offset of the first byte.
    pub start: u64,
    /// From here on the offsets rise with the bytes.
    pub even: usize,
    /// The offset of the byte there.
    pub base: u64,
}

impl Places {
    /// The offset of the byte at a place.
    pub(crate) fn offset(self, at: usize) -> u64
        requires behind { at ≢ 0 → self.even ≤ at }
        requires fits { self.base + at < 2 ^ 64 + self.even }
        ensures { result ≡ offset_at self at }
    {
        if at == 0 {
            return self.start;
        }
        self.base + (at - self.even) as u64
    }
}

/// The offset of the first byte of a text of so many bytes, behind which another offset comes next.
fn first_offset(start: u64, len: usize, next: u64) -> u64
    ensures none { len ≡ 0 → result ≡ next }
    ensures some { 0 < len → result ≡ start }
{
    if len == 0 { next } else { start }
}

/// A text of the page that isn't built in yet.
pub(crate) struct Pending {
    pub text: String,
    pub places: Places,
    /// No construct of the page was built in.
    pub is_first: bool,
    /// How far the end of the first construct was looked for.
    pub sought: Sought,
    ghost even: { places.even ≤ length (string_bytes text) },
    ghost fits: { places.base + length (string_bytes text) < 2 ^ 64 + places.even },
    ghost unsettled: { size is_first (take places.even (string_bytes text)) ≡ None },
    ghost searched: { IsSought is_first (string_bytes text) sought },
}

impl Drop for Pending {
    fn drop(self) {
        let Pending {
            text: _,
            places: _,
            is_first: _,
            sought: _,
        } = self;
    }
}

impl Pending {
    ghost use Rattle.std.specs.Str.{IsCharBoundary};
    ghost use Rattle.page_constructs.specs.Constructs.{Byte, counted};
    ghost use Rattle.page_tree.specs.PendingText.{Waits, IsNext};

    pub(crate) fn new(alloc: Global) -> Pending
        ensures bytes { Waits result [] }
        ensures text { string_bytes result.text ≡ [] }
        ensures first { result.is_first ≡ true }
    {
        Pending {
            text: String::new(alloc),
            places: Places {
                start: 0,
                even: 0,
                base: 0,
            },
            is_first: true,
            sought: unsought(),
        }
    }

    /// Whether a byte at this offset stands right behind the text.
    pub(crate) fn is_next(&self, offset: u64) -> bool
        ensures { result ≡ true → IsNext self.now offset }
    {
        !self.text.is_empty()
            && offset == self.places.base + (self.text.len() - self.places.even) as u64
    }

    /// Whether less of the text than is taken in one go wasn't looked at.
    pub(crate) fn is_short(&self) -> bool {
        self.text.len().saturating_sub(self.sought.at) < PIECE
    }

    /// The next byte stands at this offset. No construct ends in the text, whatever follows.
    pub(crate) fn skip_to(&mut self, offset: u64)
        requires { size self.old.is_first (string_bytes self.old.text) ≡ None }
        ensures bytes { (us : List Byte) → Waits self.old us → Waits self.new us }
        ensures next { IsNext self.new offset }
        ensures same { (self.new.text ≡ self.old.text) × (self.new.is_first ≡ self.old.is_first) }
    {
        let even = self.text.len();
        let start = first_offset(self.places.start, even, offset);
        self.places = Places {
            start,
            even,
            base: offset,
        };
    }

    /// Takes a text that stands right behind what waits.
    pub(crate) fn append(&mut self, offset: u64, text: &str) -> Result<(), NoMemory>
        requires fits { offset + length text.now < 2 ^ 64 }
        requires next { IsNext self.old offset }
        ensures bytes { OnOk result ((us : List Byte) → Waits self.old us → Waits self.new (us ++ counted offset text.now)) }
        ensures first { self.new.is_first ≡ self.old.is_first }
    {
        match self.text.push_str(text) {
            Ok(()) => Ok(()),
            Err(_) => {
                self.clear();
                Err(NoMemory)
            }
        }
    }

    /// Leaves the first bytes out, which were built in. `sought` says how far the end of what is left was looked for.
    pub(crate) fn drop_front(&mut self, count: usize, sought: Sought) -> Result<(), NoMemory>
        requires boundary { IsCharBoundary (string_bytes self.old.text) count }
        requires behind { count ≢ 0 → self.old.places.even ≤ count }
        requires sought { IsSought (self.old.is_first && (count == 0)) (drop count (string_bytes self.old.text)) sought }
        ensures bytes { OnOk result ((us : List Byte) → Waits self.old us → Waits self.new (drop count us)) }
        ensures text { OnOk result (string_bytes self.new.text ≡ drop count (string_bytes self.old.text)) }
        ensures first { OnOk result (self.new.is_first ≡ (self.old.is_first && (count == 0))) }
    {
        if count == 0 {
            self.sought = sought;
            return Ok(());
        }
        let start = self.places.offset(count);
        let rest = self.text.split_off(count)?;
        self.text = rest;
        self.places = Places {
            start,
            even: 0,
            base: start,
        };
        self.is_first = false;
        self.sought = sought;
        Ok(())
    }

    /// Leaves all out.
    pub(crate) fn clear(&mut self)
        ensures { self.new.is_first ≡ self.old.is_first }
    {
        self.text.clear();
        self.places = Places {
            start: 0,
            even: 0,
            base: 0,
        };
        self.sought = unsought();
    }
}
