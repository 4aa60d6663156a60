//! Which prefixes a plain page declares.
ghost use Rattle.std.specs.Prelude.{◌++◌, [], IfOk, OnOk, flat_map, map};
ghost use Rattle.ix_base.specs.Spaces.{AreNumbered, spaces_in, spaces_of};
ghost use Rattle.ix_base.specs.Trees.{nodes_of, tree_of, valued};
ghost use Rattle.page_plain.specs.Bare as plain;
ghost use Rattle.page_plain.specs.SpaceNumbers.{Meets, attr_spaces, spaces_met};
ghost use Rattle.page_plain.specs.Parts.{element_spaces, node_spaces};

use crate::names::{is_dropped, is_opened, is_prefixed};
use ix_base::{Attr, Element, NoMemory, Node};
use std::alloc::Global;
use std::collections::BTreeMap;

/// Adds the namespaces of the attributes of an element that are kept, each at its number.
fn add_attrs<'a>(attrs: &[Attr<'a>], met: &mut BTreeMap<usize, &'a str>) -> Result<(), NoMemory>
    requires { AreNumbered (spaces_met met.old ++ attr_spaces attrs.now) }
    ensures { OnOk result (Meets (spaces_met met.old) (attr_spaces attrs.now)
        (plain.attr_spaces (plain.kept_attrs (map valued attrs.now))) (spaces_met met.new)) }
{
    for attr in attrs {
        if is_prefixed(attr) {
            met.insert(attr.name.number, attr.name.ns)?;
        }
    }
    Ok(())
}

/// Adds those of an element and of what it holds.
#[cycle(spaces)]
fn add_element<'a>(
    element: &Element<'a>,
    met: &mut BTreeMap<usize, &'a str>,
) -> Result<(), NoMemory>
    requires { AreNumbered (spaces_met met.old ++ spaces_of element.now) }
    ensures { OnOk result (Meets (spaces_met met.old) (spaces_of element.now) (element_spaces (tree_of element.now))
        (spaces_met met.new)) }
{
    if is_dropped(element) {
        return Ok(());
    }
    if is_opened(element) {
        return add_nodes(element.children, met);
    }
    add_attrs(element.attrs.written, met)?;
    add_nodes(element.children, met)
}

/// Adds those of some nodes.
#[cycle(spaces)]
fn add_nodes<'a>(nodes: &[Node<'a>], met: &mut BTreeMap<usize, &'a str>) -> Result<(), NoMemory>
    requires { AreNumbered (spaces_met met.old ++ flat_map spaces_in nodes.now) }
    ensures { OnOk result (Meets (spaces_met met.old) (flat_map spaces_in nodes.now) (node_spaces (nodes_of nodes.now))
        (spaces_met met.new)) }
{
    for node in nodes {
        match node {
            Node::Chars(_) => {}
            Node::Elem(element) => add_element(element, met)?,
        }
    }
    Ok(())
}

/// The namespaces of the attributes that are kept below a root and need a prefix, each at its number.
pub(crate) fn spaces_below<'a>(
    alloc: Global,
    root: &Element<'a>,
) -> Result<BTreeMap<usize, &'a str>, NoMemory>
    requires { AreNumbered (spaces_of root.now) }
    ensures { IfOk result (λ met. Meets [] (spaces_of root.now) (element_spaces (tree_of root.now)) (spaces_met met)) }
{
    let mut met = BTreeMap::new(alloc);
    add_element(root, &mut met)?;
    Ok(met)
}
