//! Texts by which things are named, gathered.
ghost use Rattle.std.specs.Prelude.{◌≡◌, ◌++◌, ◌∷◌, [], List as Items, ℕ, flat_map, map, IfOk, OnOk};
ghost use Rattle.instance_lines.specs.Lists.{of_option};
ghost use Rattle.instance_lines.specs.Tables.{values_of};

use ix_base::{Context, Footnote, NoMemory, NoteLink, RoleRef, Text, Unit};
use std::alloc::Global;

/// Something that a text names.
pub trait Named {
    ghost name: { Self → Items ℕ };

    /// The text that names it.
    fn name(&self) -> &str
        ensures { result.now ≡ name self.now };
}

impl Named for Text {
    ghost name = { λ t. t };

    fn name(&self) -> &str {
        self.as_str()
    }
}

/// By its id.
impl Named for Context {
    ghost name = { λ x. x.id };

    fn name(&self) -> &str {
        self.id.as_str()
    }
}

/// By its id.
impl Named for Unit {
    ghost name = { λ u. u.id };

    fn name(&self) -> &str {
        self.id.as_str()
    }
}

/// By its URI.
impl Named for RoleRef {
    ghost name = { λ r. r.uri };

    fn name(&self) -> &str {
        self.uri.as_str()
    }
}

/// By its role.
impl Named for NoteLink {
    ghost name = { λ l. l.role };

    fn name(&self) -> &str {
        self.role.as_str()
    }
}

/// By its id.
impl Named for Footnote {
    ghost name = { λ f. f.id };

    fn name(&self) -> &str {
        self.id.as_str()
    }
}

/// The texts that name some things.
pub(crate) fn names_of<T: Named>(alloc: Global, things: &[T]) -> Result<Vec<&str>, NoMemory>
    ensures { IfOk result (λ v. values_of v.items ≡ map T.name things.now) }
{
    let mut names = Vec::new(alloc);
    for thing in things {
        names.push(thing.name())?;
    }
    Ok(names)
}
