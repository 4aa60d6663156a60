//! Plain texts.
ghost use Rattle.std.specs.Prelude.{◌≡◌, ◌++◌, map, OnOk, OnErr};
ghost use Rattle.ix_base.specs.Fronts.{AppendsFront};
ghost use Rattle.ix_base.specs.LocatedElements.{located};
ghost use Rattle.ix_base.specs.Markup.{plain, plain_along};
ghost use Rattle.ix_base.specs.Trees.{none, before, nodes_of, tree_of};
ghost use Rattle.escape_text.specs.ElementMarkup.{plain_of};

use crate::names::is_left_out;
use ix_base::{Element, NoMemory, Node, Spot, Text};

/// Appends the plain text of a node.
#[cycle(plain)]
fn push_node(node: &Node<'_>, text: &mut Text) -> Result<(), NoMemory>
    ensures ok { OnOk result (text.new ≡ text.old ++ plain (before node.now none)) }
    ensures err { OnErr result (AppendsFront (plain (before node.now none)) text.old text.new) }
{
    match node {
        Node::Chars(chars) => text.push(chars),
        Node::Elem(below) => push_shown(below, text),
    }
}

/// Appends the plain text of an element, unless it is left out.
#[cycle(plain)]
#[tactic(auto, using(crate::proofs::PlainLaws::plain_laws))]
fn push_shown(element: &Element<'_>, text: &mut Text) -> Result<(), NoMemory>
    ensures ok { OnOk result (text.new ≡ text.old ++ plain_of (tree_of element.now)) }
    ensures err { OnErr result (AppendsFront (plain_of (tree_of element.now)) text.old text.new) }
{
    if is_left_out(element) {
        return Ok(());
    }
    push_plain(element.children, text)
}

/// Appends the plain text of some nodes.
#[cycle(plain)]
fn push_plain(nodes: &[Node<'_>], text: &mut Text) -> Result<(), NoMemory>
    ensures ok { OnOk result (text.new ≡ text.old ++ plain (nodes_of nodes.now)) }
    ensures err { OnErr result (AppendsFront (plain (nodes_of nodes.now)) text.old text.new) }
{
    for node in nodes {
        push_node(node, text)?;
    }
    Ok(())
}

/// Appends the plain text of what the element of a spot holds.
fn push_spot(spot: &Spot<'_>, text: &mut Text) -> Result<(), NoMemory>
    ensures ok { OnOk result (text.new ≡ text.old ++ plain (located spot.now).placed.tree.children) }
    ensures err { OnErr result (AppendsFront (plain (located spot.now).placed.tree.children) text.old text.new) }
{
    push_plain(spot.element.children, text)
}

/// Appends the plain text of a chain.
pub fn plain(chain: &[&Spot<'_>], text: &mut Text) -> Result<(), NoMemory>
    ensures ok { OnOk result (text.new ≡ text.old ++ plain_along (map (λ s. located s.now) chain.now)) }
    ensures err { OnErr result (AppendsFront (plain_along (map (λ s. located s.now) chain.now)) text.old text.new) }
{
    for spot in chain {
        push_spot(spot, text)?;
    }
    Ok(())
}
