//! What elements of pages say.
use crate::pages::{PAGE, root_in_pieces, root_of, told_fault};
use anyhow::{Context, Result, bail};
use bumpalo::Bump;
use holding::first_element;
use ix_base::{Attr, Binding, Element, Node, Scope, attr_of, xml_base, xml_lang};
use row_tables::{Cell, push_name, quoted};
use std::alloc::Global;
use std::collections::BTreeSet;

/// Appends attributes in brackets.
fn push_attrs(attrs: &[Attr<'_>], text: &mut String) -> Result<()> {
    for attr in attrs {
        text.push('[')?;
        push_name(text, attr.name.ns, attr.name.local)?;
        write!(text, "={}]", attr.value)?;
    }
    Ok(())
}

/// Appends nodes: a text in parentheses, and an element as its name.
fn push_nodes(nodes: &[Node<'_>], text: &mut String) -> Result<()> {
    for node in nodes {
        match node {
            Node::Chars(chars) => write!(text, "({chars})")?,
            Node::Elem(child) => write!(text, "<{}>", child.name.local)?,
        }
    }
    Ok(())
}

/// Appends the place of an element, its name, its attributes and what it holds.
fn push_element(element: &Element<'_>, text: &mut String) -> Result<()> {
    let place = element.place;
    write!(text, "{}:{} ", place.page, place.offset)?;
    push_name(text, element.name.ns, element.name.local)?;
    push_attrs(element.attrs.written, text)?;
    push_nodes(element.children, text)
}

/// An element by its place, its name and its attributes in brackets, and what it holds: a text in parentheses, and an element as
/// its name.
fn shown(alloc: Global, element: &Element<'_>) -> Result<String> {
    let mut text = String::new(alloc);
    push_element(element, &mut text)?;
    Ok(text)
}

/// The root of a page with this limit of depth, that comes in pieces of five bytes, or what the page breaks.
pub(crate) fn tree(alloc: Global, arena: &Bump, depth: &str, page: &[u8]) -> Result<String> {
    let depth = depth.parse::<u32>().context("a depth")?;
    match root_in_pieces(alloc, arena, page, PAGE, depth, 5)? {
        Ok(root) => shown(alloc, root),
        Err(fault) => told_fault(alloc, fault),
    }
}

/// The first element that an element holds.
pub(crate) fn first_child<'a>(element: &Element<'a>) -> Result<&'a Element<'a>> {
    match first_element(element.children) {
        Some((child, _)) => Ok(child),
        None => bail!("no child"),
    }
}

/// Adds the prefixes that an element declares.
fn add_prefixes<'a>(declared: &[Binding<'a>], prefixes: &mut BTreeSet<&'a str>) -> Result<()> {
    for binding in declared {
        prefixes.insert(binding.prefix)?;
    }
    Ok(())
}

/// Appends what is bound to prefixes in a scope. The namespace of `xml` isn't shown.
fn push_bound(scope: Scope<'_>, prefixes: &BTreeSet<&str>, text: &mut String) -> Result<()> {
    for prefix in prefixes {
        let Some(ns) = scope.namespace_of(prefix) else {
            continue;
        };
        let ns = if *prefix == "xml" { "" } else { ns };
        write!(text, "{prefix}={ns} ")?;
    }
    Ok(())
}

/// Adds the prefixes that are declared in a scope.
fn add_all<'a>(scope: Scope<'a>, prefixes: &mut BTreeSet<&'a str>) -> Result<()> {
    let mut at = scope.level;
    while let Some(level) = at {
        add_prefixes(level.own.list, prefixes)?;
        at = level.above;
    }
    Ok(())
}

/// What is bound to prefixes in a scope.
fn bound_to(alloc: Global, scope: Scope<'_>, prefixes: &BTreeSet<&str>) -> Result<String> {
    let mut text = String::new(alloc);
    push_bound(scope, prefixes, &mut text)?;
    Ok(text)
}

/// What is bound in a scope, in byte order of the prefixes.
fn bound(alloc: Global, scope: Scope<'_>) -> Result<String> {
    let mut prefixes = BTreeSet::new(alloc);
    add_all(scope, &mut prefixes)?;
    bound_to(alloc, scope, &prefixes)
}

/// The bindings in the scope of the first element in the root.
pub(crate) fn inner_scope(alloc: Global, arena: &Bump, page: &[u8]) -> Result<String> {
    let root = root_of(alloc, arena, page, PAGE)?;
    bound(alloc, first_child(root)?.scope)
}

/// The value of an attribute, by its namespace and its local name, or where the namespace is `xml` by the call for it.
fn attribute_of<'a>(element: &Element<'a>, ns: &str, local: &str) -> Option<&'a str> {
    if ns != "xml" {
        return attr_of(element, ns, local);
    }
    match local {
        "lang" => xml_lang(element),
        "base" => xml_base(element),
        _ => attr_of(element, ns, local),
    }
}

/// The value of an attribute of the root, by its namespace and its local name.
pub(crate) fn attribute(alloc: Global, arena: &Bump, cells: &[Cell]) -> Result<String> {
    let [page, ns, local] = cells else {
        bail!("a page, a namespace and a local name are wanted");
    };
    let root = root_of(alloc, arena, page.bytes(), PAGE)?;
    quoted(alloc, attribute_of(root, ns.text()?, local.text()?))
}
