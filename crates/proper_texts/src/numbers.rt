//! The numbers of items.
ghost use Rattle.std.specs.Prelude.{◌≡◌, ◌||◌, is_some};
ghost use Rattle.std.specs.List.{list_all};
ghost use Rattle.ix_base.specs.PlainContents.{said_of};
ghost use Rattle.proper_texts.specs.Model.{IsHeld};
ghost use Rattle.instance_out.specs.Proper as proper;
ghost use Rattle.instance_lines.specs.Tables.{values_of};

use crate::decimals::{is_canonical_decimal, is_normal_integer, is_whole_part, is_zero};
use crate::held::Held;
use ix_base::{Accuracy, Content, Item, Value};

/// Whether an accuracy is written in normal form.
fn is_exact(accuracy: &Accuracy) -> bool
    ensures { result ≡ proper.is_exact accuracy.now }
{
    match accuracy {
        Accuracy::Decimals(digits) => {
            digits.as_str() == "INF" || is_normal_integer(digits.as_str())
        }
        Accuracy::Precision(digits) => {
            digits.as_str() == "INF" || is_whole_part(digits.as_str())
        }
    }
}

/// Whether an item has an accuracy exactly where it is a number with a unit, and such a number is a canonical decimal.
fn is_numeric(item: &Item) -> bool
    ensures { result ≡ proper.is_numeric item.now.unit item.now.value item.now.accuracy }
{
    match (&item.unit, &item.value, &item.accuracy) {
        (Some(_), Value::Plain(text), Some(accuracy)) => {
            is_exact(accuracy) && is_canonical_decimal(text.as_str())
        }
        (Some(_), Value::Plain(_), None) => false,
        (_, _, accuracy) => accuracy.is_none(),
    }
}

/// Whether each item has an accuracy exactly where it is a number with a unit, and such a number is a canonical decimal.
fn are_numbers(items: &[&Item]) -> bool
    ensures { result ≡ list_all (λ i. proper.is_numeric i.unit i.value i.accuracy) (values_of items.now) }
{
    for item in items {
        if !is_numeric(item) {
            return false;
        }
    }
    true
}

/// Whether a value may stand without a unit.
fn is_unitless(value: &Value) -> bool
    ensures { result ≡ proper.is_unitless value.now }
{
    match value {
        Value::Fraction(_, _) => false,
        Value::Nil | Value::Plain(_) => true,
    }
}

/// Whether each fraction has a unit.
fn have_units(items: &[&Item]) -> bool
    ensures { result ≡ list_all (λ i. is_some i.unit || proper.is_unitless i.value) (values_of items.now) }
{
    for item in items {
        if item.unit.is_none() && !is_unitless(&item.value) {
            return false;
        }
    }
    true
}

/// Whether the parts of a fraction are canonical decimals, the one below not zero.
fn is_ratio(value: &Value) -> bool
    ensures { result ≡ proper.is_ratio value.now }
{
    match value {
        Value::Fraction(above, below) => {
            is_canonical_decimal(above.as_str())
                && is_canonical_decimal(below.as_str())
                && !is_zero(below.as_str())
        }
        Value::Nil | Value::Plain(_) => true,
    }
}

/// Whether the parts of each fraction are canonical decimals, the one below not zero.
fn are_ratios(items: &[&Item]) -> bool
    ensures { result ≡ list_all (λ i. proper.is_ratio i.value) (values_of items.now) }
{
    for item in items {
        if !is_ratio(&item.value) {
            return false;
        }
    }
    true
}

/// Whether an accuracy stands exactly on a number with a unit, and such a number is a canonical decimal. It takes no memory.
#[tactic(auto, unfolding(instance_out::specs::Proper::numbers_fit))]
pub fn numbers_fit(content: &Content, held: &Held) -> bool
    requires { IsHeld (said_of content.now) held.now }
    ensures { result ≡ proper.numbers_fit (said_of content.now) }
{
    are_numbers(held.items.as_slice())
}

/// Whether each fraction has a unit. It takes no memory.
#[tactic(auto, unfolding(instance_out::specs::Proper::unitless_fit))]
pub fn unitless_fit(content: &Content, held: &Held) -> bool
    requires { IsHeld (said_of content.now) held.now }
    ensures { result ≡ proper.unitless_fit (said_of content.now) }
{
    have_units(held.items.as_slice())
}

/// Whether the parts of each fraction are canonical decimals, the one below not zero. It takes no memory.
#[tactic(auto, unfolding(instance_out::specs::Proper::fractions_fit))]
pub fn fractions_fit(content: &Content, held: &Held) -> bool
    requires { IsHeld (said_of content.now) held.now }
    ensures { result ≡ proper.fractions_fit (said_of content.now) }
{
    are_ratios(held.items.as_slice())
}
