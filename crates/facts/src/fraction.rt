//! The values of fractions.
ghost use Rattle.std.specs.Prelude.{◌≡◌, Some, IfSome, option_map};
ghost use Rattle.ix_base.specs.Trees.{nodes_of, tree_of};
ghost use Rattle.facts.specs.FractionValue as fractions;
ghost use Rattle.facts.specs.NumberValue.{IsNumberValue};
ghost use Rattle.facts.specs.Verdicts.{said, said_both};

use crate::fault::ItemFault;
use crate::number::{number_value, own_value};
use ix_base::{Element, Node, Rule, Text, Value, is_ix};
use std::alloc::Global;
use std::cmp::Ordering;

/// The part of a fraction that has this local name and stands among some nodes.
#[cycle(part)]
pub fn part_in<'a>(local: &str, nodes: &'a [Node<'a>]) -> Option<&'a Element<'a>>
    ensures { option_map (λ e. tree_of e.now) result ≡ fractions.part_in local.now (nodes_of nodes.entry.now) }
{
    for node in nodes {
        let Node::Elem(below) = node else {
            continue;
        };
        if let Some(part) = part_at(local, below) {
            return Some(part);
        }
    }
    None
}

/// The same of one element: itself, or what it holds.
#[cycle(part)]
fn part_at<'a>(local: &str, e: &'a Element<'a>) -> Option<&'a Element<'a>>
    ensures { option_map (λ e. tree_of e.now) result ≡ fractions.part_at local.now (tree_of e.entry.now) }
{
    if !is_ix(&e.name) {
        return part_in(local, e.children);
    }
    if e.name.local == local { Some(e) } else { None }
}

/// The value of a part. One that isn't there is an empty number.
fn part_value(alloc: Global, part: Option<&Element<'_>>) -> Result<Text, ItemFault>
    ensures { IfSome (said result) (IsNumberValue (fractions.part_number (option_map (λ e. tree_of e.now) part.entry))) }
{
    match part {
        Some(e) => own_value(alloc, e),
        None => number_value(alloc, None, 0, false, ""),
    }
}

/// The value of the part that has this local name.
fn part_named(alloc: Global, e: &Element<'_>, local: &str) -> Result<Text, ItemFault>
    ensures { IfSome (said result) (fractions.IsPart local.now (tree_of e.now)) }
{
    part_value(alloc, part_in(local, e.children))
}

/// The lower one of two rules.
fn lower_of(q: Rule, r: Rule) -> Rule
    ensures { result ≡ fractions.lower q r }
{
    match q.cmp(&r) {
        Ordering::Greater => r,
        _ => q,
    }
}

/// A numerator over a denominator.
fn over_of(numerator: Text, denominator: Text) -> Result<Value, ItemFault>
    ensures { said result ≡ Some (fractions.over numerator denominator) }
{
    if denominator.as_str() == "0" {
        return Err(ItemFault::Breach(Rule::V5));
    }
    Ok(Value::Fraction(numerator, denominator))
}

/// A fraction of what is said of its parts.
fn fraction_of(
    numerator: Result<Text, ItemFault>,
    denominator: Result<Text, ItemFault>,
) -> Result<Value, ItemFault>
    ensures { said result ≡ said_both (said numerator) (said denominator) }
{
    match (numerator, denominator) {
        (Ok(n), Ok(d)) => over_of(n, d),
        (Err(ItemFault::Breach(q)), Err(ItemFault::Breach(r))) => Err(ItemFault::Breach(lower_of(
            q, r,
        ))),
        (Err(ItemFault::NoMemory), _) => Err(ItemFault::NoMemory),
        (_, Err(ItemFault::NoMemory)) => Err(ItemFault::NoMemory),
        (Ok(_), Err(ItemFault::Breach(r))) => Err(ItemFault::Breach(r)),
        (Err(ItemFault::Breach(q)), Ok(_)) => Err(ItemFault::Breach(q)),
    }
}

/// The value of a fraction.
pub(crate) fn fraction_value(alloc: Global, e: &Element<'_>) -> Result<Value, ItemFault>
    ensures { IfSome (said result) (fractions.IsFractionValue (tree_of e.now)) }
{
    let numerator = part_named(alloc, e, "numerator");
    let denominator = part_named(alloc, e, "denominator");
    fraction_of(numerator, denominator)
}
