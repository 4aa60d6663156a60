//! The namespaces of a page, each with its number.
ghost use Rattle.std.specs.Prelude.{◌≡◌, ℕ, IfOk, List, None, Some};
ghost use Rattle.text_map.specs.Texts.{get_in};
ghost use Rattle.page_tree.specs.Spaces.{AreApart, Keeps, number_in};

use ix_base::NoMemory;
use ix_base::namespaces::XML;
use std::alloc::Global;
use text_map::TextMap;

/// The namespaces that were declared on a page so far, with their numbers. The number of none is 0, and that of xml 1, without being
/// listed.
pub(crate) struct Spaces<'a> {
    pub numbers: TextMap<'a, usize>,
    next: usize,
    ghost apart: { AreApart numbers next },
}

impl Drop for Spaces<'_> {
    fn drop(self) {
        let Spaces {
            numbers: _,
            next: _,
        } = self;
    }
}

impl<'a> Spaces<'a> {
    /// None is declared yet. It takes no memory.
    pub(crate) fn new(alloc: Global) -> Spaces<'a> {
        Spaces {
            numbers: TextMap::new(alloc),
            next: 2,
        }
    }

    /// The number of a namespace, which gets one where it has none. It hashes the text, and a new one twice.
    pub(crate) fn number(&mut self, ns: &'a str) -> Result<usize, NoMemory>
        ensures number { IfOk result (λ n. number_in self.new.numbers ns.entry.now ≡ Some n) }
        ensures kept { Keeps self.old.numbers self.new.numbers }
    {
        if ns.is_empty() {
            return Ok(0);
        }
        if ns == XML {
            return Ok(1);
        }
        if let Some(number) = self.numbers.get(ns) {
            return Ok(*number);
        }
        self.enter(ns)
    }

    /// Gives a namespace that has none the next number.
    fn enter(&mut self, ns: &'a str) -> Result<usize, NoMemory>
        requires { get_in self.old.numbers ns.now ≡ None }
        ensures number { IfOk result (λ n. get_in self.new.numbers ns.entry.now ≡ Some n) }
        ensures kept { (q : List ℕ) (n : ℕ) → get_in self.old.numbers q ≡ Some n → get_in self.new.numbers q ≡ Some n }
    {
        let number = self.next;
        let Some(next) = number.checked_add(1) else {
            return Err(NoMemory);
        };
        self.next = next;
        self.numbers.insert(ns, number)?;
        Ok(number)
    }
}
