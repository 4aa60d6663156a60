//! Items: what an element with a context denotes.
ghost use Rattle.std.specs.Prelude.{◌≡◌, [], option_map, IfOk, codes};
ghost use Rattle.ix_base.specs.Attributes as attributes;
ghost use Rattle.ix_base.specs.ElementContent.{elements_in};
ghost use Rattle.ix_base.specs.Trees.{nodes_of, tree_of};
ghost use Rattle.instance_out.specs.Denotation as denotation;
ghost use Rattle.instance_tree.specs.ReaderWords as reading;

use holding::{first_element, has_no_elements, is_blank_beside, is_of, text_alone};
use ix_base::namespaces::XBRLI;
use ix_base::{Accuracy, Element, Item, NoMemory, Node, OwnName, Text, Value, attr_of};
use std::alloc::Global;
use value_forms::is_nil;

/// How exact an item is, unless it says so in both ways.
fn accuracy_of(alloc: Global, e: &Element<'_>) -> Result<Option<Option<Accuracy>>, NoMemory>
    ensures { IfOk result (λ o. o ≡ denotation.accuracy_by (attributes.value_of (tree_of e.now).head.attrs [] (codes "decimals"))
        (attributes.value_of (tree_of e.now).head.attrs [] (codes "precision"))) }
{
    match (attr_of(e, "", "decimals"), attr_of(e, "", "precision")) {
        (None, None) => Ok(Some(None)),
        (Some(n), None) => Ok(Some(Some(Accuracy::Decimals(Text::of(alloc, n)?)))),
        (None, Some(n)) => Ok(Some(Some(Accuracy::Precision(Text::of(alloc, n)?)))),
        (Some(_), Some(_)) => Ok(None),
    }
}

/// The only two elements among some nodes.
fn pair_of<'a>(nodes: &'a [Node<'a>]) -> Option<(&'a Element<'a>, &'a Element<'a>)>
    ensures { option_map (λ p. (tree_of p.0.now, tree_of p.1.now)) result ≡ reading.pair_of (elements_in (nodes_of nodes.now)) }
{
    let (first, more) = first_element(nodes)?;
    let (second, rest) = first_element(more)?;
    if has_no_elements(rest) {
        Some((first, second))
    } else {
        None
    }
}

/// The fraction of a numerator and a denominator.
fn fraction_of(
    alloc: Global,
    above: &Element<'_>,
    below: &Element<'_>,
) -> Result<Option<Value>, NoMemory>
    ensures { IfOk result (λ o. o ≡ reading.fraction_of (tree_of above.now) (tree_of below.now)) }
{
    let Some(numerator) = text_alone(above.children) else {
        return Ok(None);
    };
    let Some(denominator) = text_alone(below.children) else {
        return Ok(None);
    };
    let numerator = Text::of(alloc, numerator)?;
    let denominator = Text::of(alloc, denominator)?;
    Ok(Some(Value::Fraction(numerator, denominator)))
}

/// The fraction of two elements among some nodes, if they are a numerator and a denominator.
#[tactic(auto, unfolding(ix_base::specs::Namespaces::xbrli_namespace))]
fn ratio_in(
    alloc: Global,
    above: &Element<'_>,
    below: &Element<'_>,
    nodes: &[Node<'_>],
) -> Result<Option<Value>, NoMemory>
    ensures { IfOk result (λ o. o ≡ reading.ratio_in (tree_of above.now) (tree_of below.now) (nodes_of nodes.now)) }
{
    if is_of(&above.name, XBRLI, "numerator")
        && is_of(&below.name, XBRLI, "denominator")
        && is_blank_beside(nodes)
    {
        fraction_of(alloc, above, below)
    } else {
        Ok(None)
    }
}

/// The text that some nodes are alone.
fn plain_in(alloc: Global, nodes: &[Node<'_>]) -> Result<Option<Value>, NoMemory>
    ensures { IfOk result (λ o. o ≡ reading.plain_in (nodes_of nodes.now)) }
{
    match text_alone(nodes) {
        Some(text) => Ok(Some(Value::Plain(Text::of(alloc, text)?))),
        None => Ok(None),
    }
}

/// What an item says that isn't nil.
fn value_from(alloc: Global, nodes: &[Node<'_>]) -> Result<Option<Value>, NoMemory>
    ensures { IfOk result (λ o. o ≡ denotation.value_from (elements_in (nodes_of nodes.now)) (nodes_of nodes.now)) }
{
    match pair_of(nodes) {
        Some((above, below)) => ratio_in(alloc, above, below, nodes),
        None => plain_in(alloc, nodes),
    }
}

/// What an item says. One that is nil says nothing, whatever it holds.
fn value_of(alloc: Global, e: &Element<'_>) -> Result<Option<Value>, NoMemory>
    ensures { IfOk result (λ o. o ≡ denotation.value_by (denotation.is_nil (tree_of e.now).head.attrs) (tree_of e.now).children) }
{
    if is_nil(e) {
        Ok(Some(Value::Nil))
    } else {
        value_from(alloc, e.children)
    }
}

/// The item of this context that an element denotes.
#[tactic(auto, unfolding(instance_out::specs::Denotation::item_in))]
pub(super) fn item_of(
    alloc: Global,
    context: &str,
    e: &Element<'_>,
) -> Result<Option<Item>, NoMemory>
    ensures { IfOk result (λ o. o ≡ denotation.item_in context.now (tree_of e.now).head (tree_of e.now).children) }
{
    let Some(accuracy) = accuracy_of(alloc, e)? else {
        return Ok(None);
    };
    let Some(value) = value_of(alloc, e)? else {
        return Ok(None);
    };
    Ok(Some(Item {
        name: OwnName::of(alloc, *e.name)?,
        context: Text::of(alloc, context)?,
        unit: Text::of_some(alloc, attr_of(e, "", "unitRef"))?,
        accuracy,
        id: Text::of_some(alloc, attr_of(e, "", "id"))?,
        value,
    }))
}
