//! Texts among which others are looked for.
ghost use Rattle.std.specs.Prelude.{◌≡◌, ◌&&◌};
ghost use Rattle.ix_base.specs.SortedLists.{sorted, text_cmp};
ghost use Rattle.instance_lines.specs.Lists.{has, is_within};
ghost use Rattle.instance_lines.specs.Tables.{values_of};

use std::marker::Model;

/// Texts in order, among which others are looked for by halving. Contracts see the texts.
#[derive(Drop)]
pub struct Among<'a> {
    texts: Vec<&'a str>,
}

impl<'a> Model for Among<'a> {
    ghost use Rattle.std.specs.Prelude.{List as Items, ℕ};
    ghost use Rattle.std.specs.List.Sorted.{IsSorted};
    ghost use Rattle.std.specs.Ordering.{on};
    ghost use Rattle.ix_base.specs.SortedLists.{text_cmp};
    ghost use Rattle.instance_lines.specs.Tables.{values_of};

    ghost Value = { Items (Items ℕ) };

    ghost view = { λ a. values_of a.texts.items };

    ghost invariant = { λ a. IsSorted (on (λ t. t.now) text_cmp) a.texts.items };
}

impl<'a> Among<'a> {
    /// These texts, put in order.
    pub(crate) fn of(mut texts: Vec<&'a str>) -> Among<'a>
        ensures { result ≡ sorted text_cmp (values_of texts.entry.items) }
    {
        texts.sort_unstable();
        Among { texts }
    }

    /// Whether a text is among these.
    pub(crate) fn has(&self, text: &str) -> bool
        ensures { result ≡ has self.now text.now }
    {
        self.texts.binary_search(&text).is_ok()
    }

    /// Whether each of some texts is among these.
    pub(crate) fn have(&self, texts: &[&str]) -> bool
        ensures { result ≡ is_within (values_of texts.now) self.now }
    {
        for text in texts {
            if !self.has(text) {
                return false;
            }
        }
        true
    }
}

/// Whether each of some texts is among others.
#[tactic(auto, using(crate::proofs::ListLaws::within_sorted))]
pub(crate) fn are_within(texts: &[&str], others: Vec<&str>) -> bool
    ensures { result ≡ is_within (values_of texts.now) (values_of others.entry.items) }
{
    Among::of(others).have(texts)
}

/// Whether each of some texts is among others, and each of these among them.
#[tactic(auto, using(crate::proofs::ListLaws::within_both))]
pub(crate) fn have_same(first: Vec<&str>, second: Vec<&str>) -> bool
    ensures { result ≡ (is_within (values_of first.entry.items) (values_of second.entry.items)
        && is_within (values_of second.entry.items) (values_of first.entry.items)) }
{
    let first = Among::of(first);
    let second = Among::of(second);
    second.have(first.texts.as_slice()) && first.have(second.texts.as_slice())
}
