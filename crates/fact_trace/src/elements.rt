//! The elements whose text is an item's, and where their text stands.
ghost use Rattle.std.specs.Prelude.{◌≡◌, ◌++◌, OnOk, IfOk, map};
ghost use Rattle.ix_base.specs.Trees.{named, nodes_of, tree_of};
ghost use Rattle.fact_trace.specs.Parts.{left_out_at};
ghost use Rattle.fact_trace.specs.Spans as tracing;
ghost use Rattle.fact_trace.specs.Spans.{element_spans, span_of};
ghost use Rattle.fact_trace.specs.Walks.{IsOfPage};

use crate::moves::{Move, step_at};
use crate::page::Page;
use crate::span::Span;
use crate::walk::push_way;
use ix_base::{Element, List, Name, NoMemory, Node, is_ix};
use std::alloc::Global;

/// Whether an element of this name is left out of texts.
fn is_left_out(name: &Name<'_>) -> bool
    ensures { result ≡ tracing.is_left_out (named name.now) }
{
    is_ix(name) && name.local == "exclude"
}

/// Adds the offset of an element that is left out, and those of the ones in it.
#[cycle(left_out)]
fn push_left_out(element: &Element<'_>, offsets: &mut Vec<u64>) -> Result<(), NoMemory>
    ensures { OnOk result (offsets.new.items ≡ offsets.old.items ++ left_out_at (tree_of element.now)) }
{
    if is_left_out(&element.name) {
        offsets.push(element.place.offset)?;
    }
    push_all_left_out(element.children, offsets)
}

/// Adds the offsets of the elements among some nodes and below that are left out, in document order.
#[cycle(left_out)]
fn push_all_left_out(nodes: &[Node<'_>], offsets: &mut Vec<u64>) -> Result<(), NoMemory>
    ensures { OnOk result (offsets.new.items ≡ offsets.old.items ++ tracing.left_out (nodes_of nodes.now)) }
{
    for node in nodes {
        match node {
            Node::Chars(_) => {}
            Node::Elem(element) => push_left_out(element, offsets)?,
        }
    }
    Ok(())
}

/// The offsets of the elements in an element that are left out.
fn left_out_of(alloc: Global, element: &Element<'_>) -> Result<Vec<u64>, NoMemory>
    ensures { IfOk result (λ v. v.items ≡ tracing.left_out (tree_of element.now).children) }
{
    let mut offsets = Vec::new(alloc);
    push_all_left_out(element.children, &mut offsets)?;
    Ok(offsets)
}

/// Adds the spans of an element of a page.
pub(crate) fn push_element(
    alloc: Global,
    page: &Page<'_>,
    element: &Element<'_>,
    spans: &mut List<Span>,
) -> Result<(), NoMemory>
    requires { IsOfPage page.now.bytes.now (tree_of element.now) }
    ensures { OnOk result (spans.new ≡ spans.old
        ++ map (span_of page.now.name) (element_spans page.now.bytes.now (tree_of element.now))) }
{
    let Some(tag) = step_at(page.bytes, element.place.offset) else {
        return Ok(());
    };
    match tag.does {
        Move::Opens(_) => {
            let left_out = left_out_of(alloc, element)?;
            push_way(alloc, page, left_out.as_slice(), tag.end, spans)
        }
        Move::Closes | Move::Says | Move::Passes => Ok(()),
    }
}
