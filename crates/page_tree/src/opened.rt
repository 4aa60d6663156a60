//! An open element of a page.
ghost use Rattle.std.specs.Prelude.{◌≡◌, ◌++◌, [], OnOk, string_bytes, flat_map};
ghost use Rattle.ix_base.specs.Elements.{pages_of, pages_in};
ghost use Rattle.ix_base.specs.Spaces.{spaces_in, spaces_of};
ghost use Rattle.ix_base.specs.Trees.{none, elem, tree_of, nodes_of};
ghost use Rattle.page_tree.specs.Machine.{append, flush};

use bumpalo::Bump;
use ix_base::{Attrs, Element, Name, NoMemory, Node, Place, Scope};

/// An open element.
#[derive(Drop)]
pub(crate) struct Open<'a> {
    pub written: &'a str,
    pub place: Place,
    pub name: &'a Name<'a>,
    pub attrs: Attrs<'a>,
    pub scope: Scope<'a>,
    pub children: Vec<Node<'a>>,
}

/// The pending text becomes a child.
#[inline(never)]
fn flush_text<'a>(
    arena: &'a Bump,
    text: &mut String,
    children: &mut Vec<Node<'a>>,
) -> Result<(), NoMemory>
    ensures nodes { OnOk result (nodes_of children.new.items ≡ flush (nodes_of children.old.items) (string_bytes text.old)) }
    ensures text { OnOk result (string_bytes text.new ≡ []) }
    ensures pages { OnOk result (flat_map pages_in children.new.items ≡ flat_map pages_in children.old.items) }
    ensures spaces { OnOk result (flat_map spaces_in children.new.items ≡ flat_map spaces_in children.old.items) }
{
    if text.is_empty() {
        return Ok(());
    }
    let Ok(chars) = arena.try_alloc_str(text.as_str()) else {
        return Err(NoMemory);
    };
    if children.push(Node::Chars(chars)).is_err() {
        return Err(NoMemory);
    }
    text.clear();
    Ok(())
}

/// An element becomes a child.
fn push_element<'a>(children: &mut Vec<Node<'a>>, element: &'a Element<'a>) -> Result<(), NoMemory>
    ensures nodes { OnOk result (nodes_of children.new.items
        ≡ append (nodes_of children.old.items) (elem (tree_of element.now).head (tree_of element.now).children none)) }
    ensures pages { OnOk result (flat_map pages_in children.new.items
        ≡ flat_map pages_in children.old.items ++ pages_of element.now) }
    ensures spaces { OnOk result (flat_map spaces_in children.new.items
        ≡ flat_map spaces_in children.old.items ++ spaces_of element.now) }
{
    children.push(Node::Elem(element))?;
    Ok(())
}

impl<'a> Open<'a> {
    ghost use Rattle.page_tree.specs.Stacks.{frame, pages_open, spaces_open};

    /// The pending text becomes a child. Behind most tags there is none.
    #[inline(always)]
    pub(crate) fn flush(&mut self, arena: &'a Bump, text: &mut String) -> Result<(), NoMemory>
        ensures frame { OnOk result (frame self.new
            ≡ record (frame self.old) { done = flush (frame self.old).done (string_bytes text.old) }) }
        ensures text { OnOk result (string_bytes text.new ≡ []) }
        ensures pages { OnOk result (pages_open self.new ≡ pages_open self.old) }
        ensures spaces { OnOk result (spaces_open self.new ≡ spaces_open self.old) }
    {
        if text.is_empty() {
            return Ok(());
        }
        flush_text(arena, text, &mut self.children)
    }

    /// An element becomes a child.
    pub(crate) fn add(&mut self, element: &'a Element<'a>) -> Result<(), NoMemory>
        ensures frame { OnOk result (frame self.new ≡ record (frame self.old) {
          done = append (frame self.old).done (elem (tree_of element.now).head (tree_of element.now).children none);
        }) }
        ensures pages { OnOk result (pages_open self.new ≡ pages_open self.old ++ pages_of element.now) }
        ensures spaces { OnOk result (spaces_open self.new ≡ spaces_open self.old ++ spaces_of element.now) }
    {
        push_element(&mut self.children, element)
    }
}
