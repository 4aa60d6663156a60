//! What nodes hold.
use crate::pages::{PAGE, root_of};
use anyhow::{Result, bail};
use bumpalo::Bump;
use holding::{
    are_blank, element_alone, first_element, first_named, has_no_elements, holds_only, is_blank,
    is_blank_beside, is_of, sole_named, text_alone,
};
use ix_base::{Element, Node};
use row_tables::{Cell, owned, quoted, words_of, yes_or_no};
use std::alloc::Global;

/// The local name of an element, where there is one.
fn local_of<'a>(element: Option<&'a Element<'a>>) -> &'a str {
    match element {
        Some(element) => element.name.local,
        None => "none",
    }
}

/// What a call tells that finds an element by its name.
fn named<'a>(call: &str, nodes: &'a [Node<'a>], ns: &str, local: &str) -> Result<&'a str> {
    match call {
        "first_named" => match first_named(nodes, ns, local) {
            Some((element, _)) => Ok(element.name.local),
            None => Ok("none"),
        },
        "sole_named" => Ok(local_of(sole_named(nodes, ns, local))),
        _ => bail!("no such call"),
    }
}

/// What a call tells that is given nodes and no name.
fn unnamed<'a>(call: &str, nodes: &'a [Node<'a>]) -> Result<&'a str> {
    match call {
        "are_blank" => Ok(yes_or_no(are_blank(nodes))),
        "is_blank_beside" => Ok(yes_or_no(is_blank_beside(nodes))),
        "has_no_elements" => Ok(yes_or_no(has_no_elements(nodes))),
        "element_alone" => Ok(local_of(element_alone(nodes))),
        "first_element" => match first_element(nodes) {
            Some((element, _)) => Ok(element.name.local),
            None => Ok("none"),
        },
        _ => bail!("no such call"),
    }
}

/// Whether nodes hold only elements of a namespace and of several local names.
fn told_only(alloc: Global, nodes: &[Node<'_>], ns: &str, locals: &str) -> Result<String> {
    let locals = words_of(alloc, locals)?;
    owned(alloc, yes_or_no(holds_only(nodes, ns, &locals)))
}

/// What a call tells of an element or of its nodes, by a namespace and a local name, or several.
fn told_by_name(
    alloc: Global,
    call: &str,
    element: &Element<'_>,
    ns: &str,
    local: &str,
) -> Result<String> {
    match call {
        "is_of" => owned(alloc, yes_or_no(is_of(&element.name, ns, local))),
        "holds_only" => told_only(alloc, element.children, ns, local),
        _ => owned(alloc, named(call, element.children, ns, local)?),
    }
}

/// What a call tells of the nodes of a page's root, by a namespace and a local name, or several.
pub(crate) fn by_name(alloc: Global, arena: &Bump, cells: &[Cell]) -> Result<String> {
    let [call, page, ns, local] = cells else {
        bail!("a call, a page, a namespace and a local name are wanted");
    };
    let root = root_of(alloc, arena, page.bytes(), PAGE)?;
    told_by_name(alloc, call.text()?, root, ns.text()?, local.text()?)
}

/// What a call tells of nodes.
fn told_of(alloc: Global, call: &str, nodes: &[Node<'_>]) -> Result<String> {
    match call {
        "text_alone" => quoted(alloc, text_alone(nodes)),
        _ => owned(alloc, unnamed(call, nodes)?),
    }
}

/// What a call tells of the nodes of a page's root.
pub(crate) fn told(alloc: Global, arena: &Bump, call: &str, page: &[u8]) -> Result<String> {
    let root = root_of(alloc, arena, page, PAGE)?;
    told_of(alloc, call, root.children)
}

/// Whether a text is blank.
pub(crate) fn blank(alloc: Global, text: &str) -> Result<String> {
    owned(alloc, yes_or_no(is_blank(text)))
}
