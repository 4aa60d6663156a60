//! The pages of a run, where they lie in memory.
ghost use Rattle.std.specs.Prelude.{◌≡◌, ◌+◌, ◌^◌, ◌<◌, ◌≤◌, Some, None, true, false, IsTrue, MatchOption, take, drop, is_none, is_ok, OnOk, IfOk, vec_len, length};
ghost use Rattle.ix_base.specs.declared.limits.TheConstants.{LONGEST_NAME};
ghost use Rattle.ix_base.specs.Causes.{Shows};
ghost use Rattle.ix_base.specs.Outside.{Begins, Gives, IsCounted, ReadsFrom, SameNames};
ghost use Rattle.ix_base.specs.Pages.{page_of, bytes_at};

use super::Calls;
use crate::buffer::keep_name;
use crate::limits::LONGEST_NAME;
use crate::outside::{Failed, PageSource};
use crate::{List, Text};

/// A page in memory.
#[derive(Drop)]
pub struct MemPage {
    pub name: Text,
    pub bytes: List<u8>,
}

/// Pages in memory. Of two pages of one name the first counts, and a read gives at most so many bytes.
#[derive(Drop)]
pub struct MemPages {
    calls: Calls,
    pages: Vec<MemPage>,
    step: usize,
    started: bool,
    index: usize,
    offset: usize,
    asked: [u8; LONGEST_NAME],
    asked_len: usize,
    ghost steps: { 0 < step },
    ghost kept: { asked_len ≤ LONGEST_NAME },
    ghost there: { started ≡ true → index < vec_len pages },
    ghost within: { started ≡ true → offset ≤ length (bytes_at pages.items index) },
    ghost shown: { Shows calls.failed calls.fails.items (is_none (page_of pages.items (take asked_len asked))) },
}

impl MemPages {
    ghost use Rattle.ix_base.specs.Calls.{no_calls};
    ghost use Rattle.ix_base.specs.MemPages.{pages_faults, pages_page, pages_left, pages_started, pages_asked, pages_starts, pages_calls, pages_step, pages_failed, pages_numbers};

    /// These pages, of which none is started. The calls of these numbers fail. It takes no memory.
    pub fn new(pages: Vec<MemPage>, step: usize, fails: Vec<u64>) -> MemPages
        requires { 0 < step }
        ensures fresh { pages_faults result ≡ 0 }
        ensures pages { pages_page result ≡ page_of pages.items }
        ensures calls { pages_calls result ≡ no_calls fails }
        ensures step { pages_step result ≡ step }
        ensures started { pages_started result ≡ false }
        ensures failed { pages_failed result ≡ false }
    {
        MemPages {
            calls: Calls::new(fails),
            pages,
            step,
            started: false,
            index: 0,
            offset: 0,
            asked: [0; LONGEST_NAME],
            asked_len: 0,
        }
    }

    /// What the trait's words mean for pages in memory.
    pub fn tells(&self)
        ensures faults { ⟦<MemPages as PageSource>⟧.faults self.now ≡ pages_faults self.now }
        ensures page { ⟦<MemPages as PageSource>⟧.page self.now ≡ pages_page self.now }
        ensures left { ⟦<MemPages as PageSource>⟧.left self.now ≡ pages_left self.now }
        ensures started { ⟦<MemPages as PageSource>⟧.started self.now ≡ pages_started self.now }
        ensures asked { ⟦<MemPages as PageSource>⟧.asked self.now ≡ pages_asked self.now }
        ensures starts { ⟦<MemPages as PageSource>⟧.starts self.now ≡ pages_starts self.now }
        ensures failed { ⟦<MemPages as PageSource>⟧.last_failed self.now ≡ pages_failed self.now }
        ensures numbers { ⟦<MemPages as PageSource>⟧.numbers self.now ≡ pages_numbers self.now }
    {}
}

/// The index of the first page of a name.
fn find_page(pages: &[MemPage], name: &str) -> Option<usize>
    ensures { MatchOption result (page_of pages.now name.now ≡ None)
        (λ i. (i < length pages.now) × (page_of pages.now name.now ≡ Some (bytes_at pages.now i))) }
{
    for (i, page) in pages.iter().enumerate() {
        if page.name.as_str() == name {
            return Some(i);
        }
    }
    None
}

/// The bytes of a page.
fn page_bytes(pages: &[MemPage], index: usize) -> &[u8]
    requires { index < length pages.now }
    ensures { result.now ≡ bytes_at pages.now index }
{
    pages[index].bytes.as_slice()
}

/// Copies what is left of a page from an offset on, at most `step` bytes.
fn copy_from(page: &[u8], offset: usize, step: usize, buf: &mut [u8]) -> usize
    requires offset { offset ≤ length page.now }
    requires step { 0 < step }
    requires room { 0 < length buf.old }
    ensures reads { ReadsFrom (drop offset page.now) buf.new result }
    ensures within { result ≤ length buf.old }
    ensures page { offset + result ≤ length page.now }
    ensures step { result ≤ step }
{
    let n = buf.len().min(step).min(page.len() - offset);
    buf[..n].copy_from_slice(&page[offset..offset + n]);
    n
}

impl PageSource for MemPages {
    ghost use Rattle.ix_base.specs.MemPages.{ReadsAs, StartsAs, pages_asked, pages_failed, pages_faults, pages_left, pages_numbers, pages_page, pages_started, pages_starts};

    ghost faults = { pages_faults };

    ghost last_failed = { pages_failed };

    ghost numbers = { pages_numbers };

    ghost page = { pages_page };

    ghost left = { pages_left };

    ghost started = { pages_started };

    ghost asked = { pages_asked };

    ghost starts = { pages_starts };

    fn start(&mut self, name: &str) -> Result<(), Failed>
        requires count { pages_faults self.old + 1 < 2 ^ 64 }
        requires name { length name.now ≤ LONGEST_NAME }
        ensures counted { IsCounted (pages_faults self.old) (pages_faults self.new) (pages_failed self.new)
            (pages_numbers self.old) (pages_numbers self.new) result }
        ensures pages { pages_page self.new ≡ pages_page self.old }
        ensures begins { OnOk result (Begins (pages_page self.old) (pages_left self.new) name.now) }
        ensures started { pages_started self.new ≡ is_ok result }
        ensures asked { pages_asked self.new ≡ Some name.now }
        ensures starts { pages_starts self.new ≡ pages_starts self.old }
        ensures exact { StartsAs self.old self.new name.now result }
    {
        keep_name(&mut self.asked, name);
        self.asked_len = name.len();
        self.started = false;
        if self.calls.enter() {
            return Err(self.calls.fail());
        }
        match find_page(&self.pages, name) {
            Some(index) => {
                self.index = index;
                self.offset = 0;
                self.started = true;
                Ok(())
            }
            None => Err(self.calls.fail()),
        }
    }

    fn read(&mut self, buf: &mut [u8]) -> Result<usize, Failed>
        requires count { pages_faults self.old + 1 < 2 ^ 64 }
        requires started { IsTrue (pages_started self.old) }
        requires room { 0 < length buf.old }
        ensures counted { IsCounted (pages_faults self.old) (pages_faults self.new) (pages_failed self.new)
            (pages_numbers self.old) (pages_numbers self.new) result }
        ensures pages { pages_page self.new ≡ pages_page self.old }
        ensures started { pages_started self.new ≡ pages_started self.old }
        ensures names { SameNames (pages_asked self.old) (pages_asked self.new) (pages_starts self.old) (pages_starts self.new) }
        ensures gives { IfOk result (λ n. Gives (pages_left self.old) (pages_left self.new) (length buf.old) buf.new n) }
        ensures exact { ReadsAs self.old self.new buf.old buf.new result }
    {
        if self.calls.enter() {
            return Err(self.calls.fail());
        }
        let page = page_bytes(&self.pages, self.index);
        let n = copy_from(page, self.offset, self.step, buf);
        self.offset += n;
        Ok(n)
    }
}
