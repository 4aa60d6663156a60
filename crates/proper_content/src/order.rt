//! The order of texts and of names, by neighbours.
ghost use Rattle.std.specs.Prelude.{◌≡◌, map};
ghost use Rattle.ix_base.specs.ContextForm.{by_dimension};
ghost use Rattle.ix_base.specs.OwnNames.{name_cmp};
ghost use Rattle.ix_base.specs.SortedLists.{text_cmp};
ghost use Rattle.instance_lines.specs.Lists.{are_apart as stand_apart, rises, strictly};
ghost use Rattle.instance_lines.specs.Tables.{values_of};

use ix_base::{Dim, OwnName};
use std::cmp::Ordering;

/// Whether each text is before the next.
pub(crate) fn rise(texts: &[&str]) -> bool
    ensures { result ≡ strictly text_cmp (values_of texts.now) }
{
    let [first, rest @ ..] = texts else {
        return true;
    };
    let mut before = *first;
    for next in rest {
        if !before.cmp(*next).is_lt() {
            return false;
        }
        before = *next;
    }
    true
}

/// Whether no text is behind the next.
pub(crate) fn never_fall(texts: &[&str]) -> bool
    ensures { result ≡ rises text_cmp (values_of texts.now) }
{
    let [first, rest @ ..] = texts else {
        return true;
    };
    let mut before = *first;
    for next in rest {
        if before.cmp(*next).is_gt() {
            return false;
        }
        before = *next;
    }
    true
}

/// Whether no text stands twice.
pub(crate) fn are_apart(mut texts: Vec<&str>) -> bool
    ensures { result ≡ stand_apart (values_of texts.entry.items) }
{
    texts.sort_unstable();
    rise(&texts)
}

/// How two names compare.
fn compare(a: &OwnName, b: &OwnName) -> Ordering
    ensures { result ≡ name_cmp a.now b.now }
{
    a.ns.as_str()
        .cmp(b.ns.as_str())
        .then(a.local.as_str().cmp(b.local.as_str()))
}

/// Whether no name is behind the next.
pub(crate) fn names_never_fall(names: &[OwnName]) -> bool
    ensures { result ≡ rises name_cmp names.now }
{
    let [first, rest @ ..] = names else {
        return true;
    };
    let mut before = first;
    for next in rest {
        if compare(before, next).is_gt() {
            return false;
        }
        before = next;
    }
    true
}

/// Whether each dimension is before the next.
pub(crate) fn dims_rise(dims: &[Dim]) -> bool
    ensures { result ≡ strictly by_dimension dims.now }
{
    let [first, rest @ ..] = dims else {
        return true;
    };
    let mut before = first;
    for next in rest {
        if !compare(&before.dimension, &next.dimension).is_lt() {
            return false;
        }
        before = next;
    }
    true
}
