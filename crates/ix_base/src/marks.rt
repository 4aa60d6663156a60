//! Marks of names, by which most names are seen to be others at once.
ghost use Rattle.std.specs.Prelude.{◌≡◌, ◌<◌, ◌==◌, map};
ghost use Rattle.std.specs.Int.{bit_at};
ghost use Rattle.ix_base.specs.Attributes.{valued};
ghost use Rattle.ix_base.specs.Marks.{mark, marks_of};

use crate::tree::Attr;

/// The mark of a name: names of different marks are different. There are 32 of them.
pub(crate) fn mark_of(local: &str) -> u32
    ensures value { result ≡ mark local.now }
    ensures most { result < 32 }
{
    let bytes = local.as_bytes();
    match bytes.first() {
        Some(first) => ((*first as usize % 32 + bytes.len() % 32 * 3) % 32) as u32,
        None => 0,
    }
}

/// The marks of the local names of attributes, each a bit.
pub(crate) fn marks_in(attrs: &[Attr<'_>]) -> u32
    ensures { result ≡ marks_of (map valued attrs.now) }
{
    let mut marks = 0;
    for attr in attrs {
        marks |= 1 << mark_of(attr.name.local);
    }
    marks
}

/// Whether a name of this local name may be among those of which these are the marks.
pub(crate) fn may_have(marks: u32, local: &str) -> bool
    ensures { result ≡ (bit_at marks (mark local.now) == 1) }
{
    marks >> mark_of(local) & 1 == 1
}
