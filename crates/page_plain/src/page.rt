//! A page without its inline markup, as it is written.
ghost use Rattle.std.specs.Prelude.{◌≡◌, ◌++◌, ◌∷◌, [], ℕ, OnOk, IfOk, flat_map, map, false};
ghost use Rattle.ix_base.specs.declared.limits.TheConstants.{DEEPEST_ELEMENT};
ghost use Rattle.ix_base.specs.Markup.{declaration};
ghost use Rattle.ix_base.specs.Spaces.{AreNumbered, IsOuter, space_of, spaces_in, spaces_of};
ghost use Rattle.ix_base.specs.Trees.{before, nodes_of, none, tree_of};
ghost use Rattle.ix_base.specs.WrittenMarkup.{attrs_text};
ghost use Rattle.ix_base.specs.Sound.{IsSoundRoot};
ghost use Rattle.page_plain.specs.Bare as plain;
ghost use Rattle.page_plain.specs.SpaceNumbers.{IsWithin};
ghost use Rattle.page_plain.specs.Theorem.{IsPageOf};
ghost use Rattle.page_plain.specs.Parts.{element_bytes, is_short, is_silent, kept_bytes, node_bytes, open_bytes, rest_bytes};

use crate::attrs::{push_declared, push_value};
use crate::names::{is_dropped, is_opened};
use crate::prefixes::Prefixes;
use crate::spaces::spaces_below;
use escape_text::{ends_short, push_close};
use ix_base::{Element, Name, NoMemory, Node, Outer, Text, push_te};
use std::alloc::Global;

/// Whether nodes give nothing.
#[cycle(silence)]
fn are_silent(nodes: &[Node<'_>]) -> bool
    ensures { result ≡ is_silent (nodes_of nodes.now) }
{
    for node in nodes {
        if !gives_nothing(node) {
            return false;
        }
    }
    true
}

/// Whether a node gives nothing.
#[cycle(silence)]
#[tactic(auto, using(crate::proofs::SpellLaws::silence_laws))]
fn gives_nothing(node: &Node<'_>) -> bool
    ensures { result ≡ is_silent (before node.now none) }
{
    match node {
        Node::Chars(text) => text.is_empty(),
        Node::Elem(element) => {
            is_dropped(element) || (is_opened(element) && are_silent(element.children))
        }
    }
}

/// Appends a declaration of the default namespace, where it isn't the one around.
fn push_default(around: Outer<'_>, name: &Name<'_>, out: &mut Text) -> Result<(), NoMemory>
    requires { IsOuter around (space_of name.now ∷ []) }
    ensures { OnOk result (out.new ≡ out.old ++ attrs_text (declaration around.entry.ns.now name.now.ns.now) []) }
{
    if around.is_of(name) {
        return Ok(());
    }
    out.push(" xmlns")?;
    push_value(name.ns, out)
}

/// Appends the start tag of an element within a namespace, without its end, with the declarations of the prefixes of some
/// namespaces.
#[tactic(auto, using(escape_text::proofs::MarkupLaws::attrs_laws))]
fn push_open(
    alloc: Global,
    prefixes: &Prefixes<'_>,
    around: Outer<'_>,
    declared: &[&str],
    element: &Element<'_>,
    out: &mut Text,
) -> Result<(), NoMemory>
    requires { IsWithin around prefixes.now.spaces (spaces_of element.now) }
    ensures { OnOk result (out.new ≡ out.old
        ++ open_bytes (plain.numbered 1 (map (λ s. s.now) declared.now)) (plain.numbered 1 prefixes.now.texts) around.entry.ns.now
        (tree_of element.now).head) }
{
    out.push("<")?;
    out.push(element.name.local)?;
    push_default(around, &element.name, out)?;
    push_declared(alloc, declared, prefixes, element.attrs.written, out)
}

/// Appends what follows the attributes of an element that is kept.
#[cycle(bare)]
fn push_rest(
    alloc: Global,
    prefixes: &Prefixes<'_>,
    element: &Element<'_>,
    out: &mut Text,
) -> Result<(), NoMemory>
    requires { AreNumbered (prefixes.now.spaces ++ spaces_of element.now) }
    ensures { OnOk result (out.new ≡ out.old
        ++ rest_bytes (is_short (tree_of element.now)) (tree_of element.now).head.name.local
        (node_bytes (plain.numbered 1 prefixes.now.texts) (tree_of element.now).head.name.ns (tree_of element.now).children)) }
{
    if ends_short(*element.name) && are_silent(element.children) {
        return out.push("/>");
    }
    out.push(">")?;
    push_nodes(
        alloc,
        prefixes,
        Outer::of(*element.name),
        element.children,
        out,
    )?;
    push_close(element.name.local, out)
}

/// Appends what an element gives within a namespace.
#[cycle(bare)]
#[tactic(auto, using(crate::proofs::SpellLaws::element_laws))]
fn push_element(
    alloc: Global,
    prefixes: &Prefixes<'_>,
    around: Outer<'_>,
    element: &Element<'_>,
    out: &mut Text,
) -> Result<(), NoMemory>
    requires { IsWithin around prefixes.now.spaces (spaces_of element.now) }
    ensures { OnOk result (out.new ≡ out.old
        ++ element_bytes (plain.numbered 1 prefixes.now.texts) around.entry.ns.now (tree_of element.now)) }
{
    if is_dropped(element) {
        return Ok(());
    }
    if is_opened(element) {
        return push_nodes(alloc, prefixes, around, element.children, out);
    }
    push_open(alloc, prefixes, around, &[], element, out)?;
    push_rest(alloc, prefixes, element, out)
}

/// Appends what some nodes give within a namespace.
#[cycle(bare)]
fn push_nodes(
    alloc: Global,
    prefixes: &Prefixes<'_>,
    around: Outer<'_>,
    nodes: &[Node<'_>],
    out: &mut Text,
) -> Result<(), NoMemory>
    requires { IsWithin around prefixes.now.spaces (flat_map spaces_in nodes.now) }
    ensures { OnOk result (out.new ≡ out.old
        ++ node_bytes (plain.numbered 1 prefixes.now.texts) around.entry.ns.now (nodes_of nodes.now)) }
{
    for node in nodes {
        match node {
            Node::Chars(text) => push_te(text, out)?,
            Node::Elem(element) => push_element(alloc, prefixes, around, element, out)?,
        }
    }
    Ok(())
}

/// Appends the root of a page, which declares the prefixes.
fn push_root(
    alloc: Global,
    prefixes: &Prefixes<'_>,
    root: &Element<'_>,
    out: &mut Text,
) -> Result<(), NoMemory>
    requires { AreNumbered (prefixes.now.spaces ++ spaces_of root.now) }
    ensures { OnOk result (out.new ≡ out.old
        ++ kept_bytes (plain.numbered 1 prefixes.now.texts) (plain.numbered 1 prefixes.now.texts) [] (tree_of root.now)) }
{
    push_open(
        alloc,
        prefixes,
        Outer::start(""),
        prefixes.spaces(),
        root,
        out,
    )?;
    push_rest(alloc, prefixes, root, out)
}

/// The page without its inline markup: the elements outside its namespace and all texts but those of headers, with the
/// prefixes of attributes declared at the root. The answer can be longer than the page: a default namespace is declared at
/// each element whose own isn't that of its parent. The steps grow with the nodes and attributes of the page, with a
/// logarithm for each attribute, and with the bytes of the answer. Namespaces are compared by their numbers; only the
/// different ones of attributes are put in order by their texts, each once.
pub fn plain_page(alloc: Global, root: &Element<'_>) -> Result<Text, NoMemory>
    requires kept { plain.is_inline (tree_of root.now).head.name ≡ false }
    requires sound { (page : ℕ) × IsSoundRoot root.now page DEEPEST_ELEMENT }
    ensures text { IfOk result (λ t. t ≡ plain.spell (plain.bare (tree_of root.now))) }
    ensures page { IfOk result (λ t. IsPageOf t (plain.bare (tree_of root.now))) }
{
    let met = spaces_below(alloc, root)?;
    let prefixes = Prefixes::of(alloc, &met)?;
    let mut out = Text::of(alloc, "")?;
    push_root(alloc, &prefixes, root, &mut out)?;
    out.push("\n")?;
    Ok(out)
}
