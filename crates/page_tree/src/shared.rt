//! Names in no namespace, which the attributes that have them share.
ghost use Rattle.std.specs.Prelude.{IfOk, IfSome, IsTrue};
ghost use Rattle.page_tree.specs.Names.{IsUnbound};

use bumpalo::Bump;
use ix_base::{Name, NoMemory};
use std::alloc::Global;

/// How many names are kept to be shared. Each name is compared with these at most, and with one more.
const MOST_SHARED: usize = 16;

/// A name in no namespace.
pub(crate) fn unbound<'a>(local: &'a str) -> Name<'a>
    ensures { IsUnbound result local.entry.now }
{
    Name::of("", local, 0)
}

/// Whether a name is the one in no namespace that has this local part. Namespaces, which may be long, aren't compared.
#[inline(always)]
fn is_local(known: &Name<'_>, local: &str) -> bool
    ensures { IsTrue result → IsUnbound known.now local.now }
{
    if !known.ns.is_empty() {
        return false;
    }
    if known.number != 0 {
        return false;
    }
    known.local == local
}

/// Names of attributes without a prefix, which later ones may share. Most come again in the order in which they came, tag after
/// tag: so one is looked for behind the one that was found last, and then from the first on.
pub(crate) struct Shared<'a> {
    names: Vec<&'a Name<'a>>,
    next: usize,
}

impl Drop for Shared<'_> {
    fn drop(self) {
        let Shared { names: _, next: _ } = self;
    }
}

impl<'a> Shared<'a> {
    pub(crate) fn new(alloc: Global) -> Shared<'a> {
        Shared {
            names: Vec::new(alloc),
            next: 0,
        }
    }

    /// The name behind the one that was found last, where it has this local part.
    fn following(&mut self, local: &str) -> Option<&'a Name<'a>>
        ensures { IfSome result (λ n. IsUnbound n.now local.now) }
    {
        let known = *self.names.get(self.next)?;
        if !is_local(known, local) {
            return None;
        }
        self.next += 1;
        Some(known)
    }

    /// The first of the names that has this local part.
    fn search(&mut self, local: &str) -> Option<&'a Name<'a>>
        ensures { IfSome result (λ n. IsUnbound n.now local.now) }
    {
        for (at, known) in self.names.iter().enumerate() {
            if is_local(known, local) {
                self.next = at + 1;
                return Some(*known);
            }
        }
        None
    }

    /// Puts a name into the arena, to be shared from here on.
    fn add(&mut self, arena: &'a Bump, local: &'a str) -> Result<&'a Name<'a>, NoMemory>
        ensures { IfOk result (λ n. IsUnbound n.now local.entry.now) }
    {
        let kept: &'a Name<'a> = arena.try_alloc(unbound(local))?;
        if self.names.len() >= MOST_SHARED {
            self.names.clear();
        }
        self.names.push(kept)?;
        self.next = self.names.len();
        Ok(kept)
    }

    /// The name in no namespace that has this local part, in the arena: one that is shared, or a new one.
    pub(crate) fn keep(&mut self, arena: &'a Bump, local: &'a str) -> Result<&'a Name<'a>, NoMemory>
        ensures { IfOk result (λ n. IsUnbound n.now local.entry.now) }
    {
        if let Some(known) = self.following(local) {
            return Ok(known);
        }
        if let Some(known) = self.search(local) {
            return Ok(known);
        }
        self.add(arena, local)
    }
}
