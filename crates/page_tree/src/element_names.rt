//! Names of elements, which the elements that have them share.
ghost use Rattle.std.specs.Prelude.{◌≡◌, ◌&&◌, bytes_eq, IfOk, IfSome, IsTrue};
ghost use Rattle.page_tree.specs.Names.{IsSameName};

use bumpalo::Bump;
use ix_base::{Name, NoMemory};
use std::alloc::Global;

/// How many names are kept to be shared. Each name is compared with these at most, and with one more.
const MOST_SHARED: usize = 16;

/// How many bytes the namespace of a name has at most that is shared. A longer one would be compared whole for each element in it.
const LONGEST_SHARED: usize = 100;

/// Whether two names have one local part, and their namespaces one text.
#[inline(always)]
fn has_texts(known: &Name<'_>, own: &Name<'_>) -> bool
    ensures { result ≡ (bytes_eq known.now.local.now own.now.local.now && bytes_eq known.now.ns.now own.now.ns.now) }
{
    known.local == own.local && known.ns == own.ns
}

/// Whether two names are one, and their namespace isn't too long to be compared.
#[inline(always)]
fn is_same(known: &Name<'_>, own: &Name<'_>) -> bool
    ensures { IsTrue result → IsSameName known.now own.now }
{
    if known.number != own.number {
        return false;
    }
    if own.ns.len() > LONGEST_SHARED {
        return false;
    }
    has_texts(known, own)
}

/// Names of elements, which later ones may share. Most come again in the order in which they came, tag after tag: so one is looked for
/// behind the one that was found last, and then from the first on.
pub(crate) struct ElementNames<'a> {
    names: Vec<&'a Name<'a>>,
    next: usize,
}

impl Drop for ElementNames<'_> {
    fn drop(self) {
        let ElementNames { names: _, next: _ } = self;
    }
}

impl<'a> ElementNames<'a> {
    pub(crate) fn new(alloc: Global) -> ElementNames<'a> {
        ElementNames {
            names: Vec::new(alloc),
            next: 0,
        }
    }

    /// The name behind the one that was found last, where it is this one.
    fn following(&mut self, own: &Name<'a>) -> Option<&'a Name<'a>>
        ensures { IfSome result (λ n. IsSameName n.now own.now) }
    {
        let known = *self.names.get(self.next)?;
        if !is_same(known, own) {
            return None;
        }
        self.next += 1;
        Some(known)
    }

    /// The first of the names that is this one.
    fn search(&mut self, own: &Name<'a>) -> Option<&'a Name<'a>>
        ensures { IfSome result (λ n. IsSameName n.now own.now) }
    {
        for (at, known) in self.names.iter().enumerate() {
            if is_same(known, own) {
                self.next = at + 1;
                return Some(*known);
            }
        }
        None
    }

    /// Puts a name into the arena, to be shared from here on.
    fn add(&mut self, arena: &'a Bump, own: Name<'a>) -> Result<&'a Name<'a>, NoMemory>
        ensures { IfOk result (λ n. IsSameName n.now own.entry) }
    {
        let kept: &'a Name<'a> = arena.try_alloc(own)?;
        if self.names.len() >= MOST_SHARED {
            self.names.clear();
        }
        self.names.push(kept)?;
        self.next = self.names.len();
        Ok(kept)
    }

    /// A name in the arena: one that is shared, or a new one.
    pub(crate) fn keep(&mut self, arena: &'a Bump, own: Name<'a>) -> Result<&'a Name<'a>, NoMemory>
        ensures { IfOk result (λ n. IsSameName n.now own.entry) }
    {
        if let Some(known) = self.following(&own) {
            return Ok(known);
        }
        if let Some(known) = self.search(&own) {
            return Ok(known);
        }
        self.add(arena, own)
    }
}
