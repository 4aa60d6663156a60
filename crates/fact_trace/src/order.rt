//! Items in the order of their places.
ghost use Rattle.std.specs.Prelude.{◌≡◌, OnOk};
ghost use Rattle.ix_base.specs.SortedLists.{sorted};
ghost use Rattle.fact_trace.specs.Spans.{traced_cmp};

use crate::span::Traced;
use ix_base::NoMemory;
use std::cmp::Ordering;

/// How two items compare: by the bytes of their pages' names, then by offset.
fn compare(a: &Traced, b: &Traced) -> Ordering
    ensures { result ≡ traced_cmp a.now b.now }
{
    match a.page.as_str().cmp(b.page.as_str()) {
        Ordering::Equal => a.offset.cmp(&b.offset),
        unequal => unequal,
    }
}

/// Puts items in order.
pub(crate) fn sort_items(items: &mut Vec<Traced>) -> Result<(), NoMemory>
    ensures { OnOk result (items.new.items ≡ sorted traced_cmp items.old.items) }
{
    match items.sort_by(|a, b| compare(a, b)) {
        Ok(()) => Ok(()),
        Err(_) => Err(NoMemory),
    }
}
