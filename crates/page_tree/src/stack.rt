//! The open elements of a page, and what is built of them.
ghost use Rattle.std.specs.Prelude.{◌≡◌, ◌≢◌, ◌∷◌, [], ℕ, Bool, OnOk, IfOk, string_bytes, option_map, map, flat_map};
ghost use Rattle.ix_base.specs.Elements.{pages_of, pages_in};
ghost use Rattle.ix_base.specs.Spaces.{spaces_bound, spaces_of};
ghost use Rattle.ix_base.specs.Trees.{none, tree_of, nodes_of, bindings_in};
ghost use Rattle.text_map.specs.Texts.{Texts};
ghost use Rattle.page_tree.specs.Machine.{flushed, scope_in, closed};
ghost use Rattle.page_tree.specs.Tags.{head_of, scope_of as scope_under_tag};
ghost use Rattle.page_constructs.specs.Model.{tag_of};
ghost use Rattle.page_tree.specs.Expansions.{expansion, expansions};
ghost use Rattle.page_tree.specs.Names.{IsNamed, IsSameName};
ghost use Rattle.page_tree.specs.Spaces.{AreFrom, HaveNumbers, spaces_expanded};
ghost use Rattle.page_tree.specs.Stacks.{frame, frames_of, pages_open, pages_built, spaces_built, spaces_open, AreAll};

use crate::names::{ElementName, Expanded, attributes_of};
use crate::opened::Open;
use crate::scope::outermost_scope;
use bumpalo::Bump;
use ix_base::{Element, Name, NoMemory, Node, Place, Scope};
use page_constructs::Tag;
use std::alloc::Global;

/// The pending text becomes a child of the innermost open element.
#[inline(always)]
pub(crate) fn flush_innermost<'a>(
    arena: &'a Bump,
    elements: &mut Vec<Open<'a>>,
    text: &mut String,
) -> Result<(), NoMemory>
    ensures frames { OnOk result (frames_of elements.new.items ≡ flushed (frames_of elements.old.items) (string_bytes text.old)) }
    ensures text { OnOk result (elements.new.items ≢ [] → string_bytes text.new ≡ []) }
    ensures none { OnOk result (elements.new.items ≡ [] → text.new ≡ text.old) }
    ensures pages { OnOk result (flat_map pages_open elements.new.items ≡ flat_map pages_open elements.old.items) }
    ensures spaces { OnOk result (flat_map spaces_open elements.new.items ≡ flat_map spaces_open elements.old.items) }
{
    if text.is_empty() {
        return Ok(());
    }
    let Some(mut parent) = elements.pop() else {
        return Ok(());
    };
    parent.flush(arena, text)?;
    elements.push(parent)?;
    Ok(())
}

/// The scope in the innermost open element, or that above the root.
pub(crate) fn innermost_scope<'a>(
    arena: &'a Bump,
    elements: &[Open<'a>],
) -> Result<Scope<'a>, NoMemory>
    ensures bindings { IfOk result (λ s. bindings_in s ≡ scope_in (frames_of elements.now)) }
    ensures spaces { IfOk result (λ s. AreFrom (flat_map spaces_open elements.now) (spaces_bound s)) }
{
    let Some(parent) = elements.last() else {
        return outermost_scope(arena);
    };
    Ok(parent.scope)
}

/// An empty list for the children of an element: one that another element is done with, where there is one.
pub(crate) fn empty_list<'a>(alloc: Global, spare: &mut Vec<Vec<Node<'a>>>) -> Vec<Node<'a>>
    ensures { result.items ≡ [] }
{
    match spare.pop() {
        Some(mut children) => {
            children.clear();
            children
        }
        None => Vec::new(alloc),
    }
}

/// An element that begins with this tag, in a scope of its own. Its name lies in the arena, and in the list, which is empty, its
/// children will stand.
pub(crate) fn open_element<'a>(
    children: Vec<Node<'a>>,
    arena: &'a Bump,
    page: u32,
    own: ElementName<'a>,
    tag: &Tag<'a, '_>,
    expanded: &[Expanded<'a>],
    kept: &'a Name<'a>,
) -> Result<Open<'a>, NoMemory>
    requires children { children.items ≡ [] }
    requires expanded { map expansion expanded.now ≡ expansions (bindings_in own.scope) (tag_of tag.now) }
    requires named { IsNamed own tag.now.name.name.now }
    requires same { IsSameName kept.now own.name }
    ensures frame { IfOk result (λ o. (outer : _) → bindings_in own.entry.scope ≡ scope_under_tag outer (tag_of tag.now)
        → frame o ≡ record { written = tag.now.name.name.now; head = head_of outer (tag_of tag.now); done = none }) }
    ensures pages { IfOk result (λ o. pages_open o ≡ page ∷ []) }
    ensures spaces { IfOk result (λ o. AreFrom (spaces_bound own.entry.scope) (spaces_expanded expanded.now)
        → AreFrom (spaces_bound own.entry.scope) (spaces_open o)) }
{
    let attrs = attributes_of(arena, expanded)?;
    Ok(Open {
        written: tag.name.name,
        place: Place {
            page,
            offset: tag.offset,
        },
        name: kept,
        attrs,
        scope: own.scope,
        children,
    })
}

/// The element, once it has ended. The list of its children is put to those that other elements may use.
pub(crate) fn close_element<'a>(
    arena: &'a Bump,
    own: Open<'a>,
    spare: &mut Vec<Vec<Node<'a>>>,
) -> Result<&'a Element<'a>, NoMemory>
    ensures tree { IfOk result (λ e. tree_of e.now ≡ record { head = (frame own.entry).head; children = (frame own.entry).done }) }
    ensures pages { IfOk result (λ e. pages_of e.now ≡ pages_open own.entry) }
    ensures spaces { IfOk result (λ e. spaces_of e.now ≡ spaces_open own.entry) }
{
    let Ok(children) = arena.try_alloc_slice_copy(own.children.as_slice()) else {
        return Err(NoMemory);
    };
    let element = Element {
        place: own.place,
        name: own.name,
        attrs: own.attrs,
        scope: own.scope,
        children,
    };
    if spare.push(own.children).is_err() {
        return Err(NoMemory);
    }
    match arena.try_alloc(element) {
        Ok(e) => Ok(e),
        Err(_) => Err(NoMemory),
    }
}

/// A whole element goes to the one that it stands in, or is the root.
pub(crate) fn put<'a>(
    elements: &mut Vec<Open<'a>>,
    root: &mut Option<&'a Element<'a>>,
    element: &'a Element<'a>,
) -> Result<(), NoMemory>
    ensures state { OnOk result ((d : Bool) → closed (frames_of elements.old.items) (tree_of element.now).head
        (tree_of element.now).children (option_map (λ e. tree_of e.now) root.old) d
        ≡ record { frames = frames_of elements.new.items; text = []; root = option_map (λ e. tree_of e.now) root.new; doctyped = d }) }
    ensures pages { OnOk result ((page : ℕ) → AreAll page (pages_of element.now)
        → AreAll page (pages_built elements.old.items root.old) → AreAll page (pages_built elements.new.items root.new)) }
    ensures spaces { OnOk result ((numbers : Texts ℕ) → HaveNumbers numbers (spaces_of element.now)
        → HaveNumbers numbers (spaces_built elements.old.items root.old) → HaveNumbers numbers (spaces_built elements.new.items root.new)) }
{
    let Some(mut parent) = elements.pop() else {
        *root = Some(element);
        return Ok(());
    };
    parent.add(element)?;
    elements.push(parent)?;
    Ok(())
}
