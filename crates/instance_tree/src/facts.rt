//! Facts: items, and tuples with their members.
ghost use Rattle.std.specs.Prelude.{◌≡◌, option_map, IfOk};
ghost use Rattle.ix_base.specs.Facts.{Facts, before, facts_of as joined_of};
ghost use Rattle.ix_base.specs.Trees.{named, nodes_of, tree_of};
ghost use Rattle.instance_out.specs.Denotation as denotation;
ghost use Rattle.instance_tree.specs.ReaderWords.{fact_at, tuple_at};

use crate::items::item_of;
use holding::is_blank;
use ix_base::namespaces::{LINK, XBRLI};
use ix_base::{Element, Fact, List, Name, NoMemory, Node, OwnName, Text, Tuple, attr_of};
use std::alloc::Global;
use value_forms::is_nil;

/// Whether an element of this name is no fact.
#[tactic(auto, unfolding(ix_base::specs::Namespaces::xbrli_namespace, ix_base::specs::Namespaces::link_namespace))]
fn is_part(name: &Name<'_>) -> bool
    ensures { result ≡ denotation.is_part (named name.now) }
{
    name.ns == XBRLI || name.ns == LINK
}

/// The members of a tuple. One that is nil has none.
#[cycle(facts)]
fn members_of(alloc: Global, e: &Element<'_>) -> Result<Option<List<Fact>>, NoMemory>
    ensures { IfOk result (λ o. option_map joined_of o
        ≡ denotation.members_by (denotation.is_nil (tree_of e.now).head.attrs) (denotation.facts_in (tree_of e.now).children)) }
{
    if is_nil(e) {
        return Ok(Some(List::new(alloc)));
    }
    facts_in(alloc, e.children)
}

/// The tuple that an element denotes.
#[cycle(facts)]
fn tuple_of(alloc: Global, e: &Element<'_>) -> Result<Option<Fact>, NoMemory>
    ensures { IfOk result (λ o. (more : Facts) → option_map (λ f. before f more) o ≡ tuple_at (tree_of e.now) more) }
{
    let Some(members) = members_of(alloc, e)? else {
        return Ok(None);
    };
    Ok(Some(Fact::Tuple(Tuple {
        name: OwnName::of(alloc, *e.name)?,
        id: Text::of_some(alloc, attr_of(e, "", "id"))?,
        nil: is_nil(e),
        members,
    })))
}

/// The fact that an element denotes.
#[cycle(facts)]
fn fact_of(alloc: Global, e: &Element<'_>) -> Result<Option<Fact>, NoMemory>
    ensures { IfOk result (λ o. (more : Facts) → option_map (λ f. before f more) o ≡ fact_at (tree_of e.now) more) }
{
    if is_part(e.name) {
        return Ok(None);
    }
    let Some(context) = attr_of(e, "", "contextRef") else {
        return tuple_of(alloc, e);
    };
    match item_of(alloc, context, e)? {
        Some(item) => Ok(Some(Fact::Item(item))),
        None => Ok(None),
    }
}

/// The facts that some nodes denote, in document order.
#[cycle(facts)]
fn facts_in(alloc: Global, nodes: &[Node<'_>]) -> Result<Option<List<Fact>>, NoMemory>
    ensures { IfOk result (λ o. option_map joined_of o ≡ denotation.facts_in (nodes_of nodes.now)) }
{
    let mut facts = List::new(alloc);
    for node in nodes {
        match node {
            Node::Chars(text) => {
                if !is_blank(text) {
                    return Ok(None);
                }
            }
            Node::Elem(e) => {
                let Some(fact) = fact_of(alloc, e)? else {
                    return Ok(None);
                };
                facts.push(fact)?;
            }
        }
    }
    Ok(Some(facts))
}

/// The facts among the children of a root, in document order.
pub(super) fn facts_among(alloc: Global, nodes: &[Node<'_>]) -> Result<Option<List<Fact>>, NoMemory>
    ensures { IfOk result (λ o. option_map joined_of o ≡ denotation.facts_in (denotation.facts_among (nodes_of nodes.now))) }
{
    let mut facts = List::new(alloc);
    for node in nodes {
        match node {
            Node::Elem(e) => {
                if is_part(e.name) {
                    continue;
                }
                let Some(fact) = fact_of(alloc, e)? else {
                    return Ok(None);
                };
                facts.push(fact)?;
            }
            Node::Chars(text) => {
                if !is_blank(text) {
                    return Ok(None);
                }
            }
        }
    }
    Ok(Some(facts))
}
