//! Where links stand.
ghost use Rattle.std.specs.Prelude.{◌≡◌};
ghost use Rattle.ix_base.specs.Trees.{nodes_of, tree_of};
ghost use Rattle.escape_text.specs.LinkPlaces as link_places;

use crate::names::{is_left_out, is_link_of};
use ix_base::{Element, Node};

/// Whether a link stands among the attributes of an element.
fn has_link(element: &Element<'_>) -> bool
    ensures { result ≡ link_places.has_link (tree_of element.now).head }
{
    for attr in element.attrs.written {
        if is_link_of(&element.name, attr.name) {
            return true;
        }
    }
    false
}

/// Whether a link stands at an element, or in what it holds.
#[cycle(links)]
pub(crate) fn is_linked(element: &Element<'_>) -> bool
    ensures { result ≡ link_places.is_linked (tree_of element.now) }
{
    has_link(element) || has_links(element.children)
}

/// Whether a link stands in some nodes. Elements that are left out of texts don't count.
#[cycle(links)]
pub(crate) fn has_links(nodes: &[Node<'_>]) -> bool
    ensures { result ≡ link_places.has_links (nodes_of nodes.now) }
{
    for node in nodes {
        if let Node::Elem(element) = node
            && !is_left_out(element)
            && is_linked(element)
        {
            return true;
        }
    }
    false
}
