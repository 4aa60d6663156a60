//! Texts as markup.
ghost use Rattle.std.specs.Prelude.{◌≡◌, ◌++◌, ◌∷◌, ◌<◌, List, true, flat_map, map, IfOk, OnOk, OnErr, option_map, Some, None, length, All};
ghost use Rattle.ix_base.specs.Address.{joined_or};
ghost use Rattle.ix_base.specs.Elements.{place_of};
ghost use Rattle.ix_base.specs.LocatedElements.{located, base_in};
ghost use Rattle.ix_base.specs.Markup as marks;
ghost use Rattle.ix_base.specs.Spaces.{AreNumbered, IsOuter, Space, space_of, spaces_in, spaces_of};
ghost use Rattle.ix_base.specs.Spots.{IsOnOnePage};
ghost use Rattle.ix_base.specs.Trees.{nodes_of, tree_of};
ghost use Rattle.escape_text.specs.ElementMarkup.{element_markup, shown_by, open_text, rest_text, is_short};
ghost use Rattle.escape_text.specs.LinkPlaces.{has_links as links_in};
ghost use Rattle.escape_text.specs.Surroundings.{IsWithin, base_of};

use crate::attributes::{push_attributes, push_declaration};
use crate::end_tag::push_close;
use crate::links::{has_links, is_linked};
use crate::names::{ends_short, is_left_out, is_opened};
use crate::silence::is_silent;
use ix_base::{Element, Name, NoMemory, Node, Outer, Spot, Text, push_te, xml_base};
use scopes::{Bases, ParsedBase};
use std::alloc::Global;

/// What stands around markup: the base, or none where links stay as they are written, and the default namespace. Namespaces are
/// compared by their numbers where the nodes are known to be numbered.
#[derive(Clone, Copy)]
struct Around<'b, 'n> {
    alloc: Global,
    base: Option<&'b ParsedBase>,
    outer: Outer<'n>,
    by_number: bool,
}

/// The default namespace around what an element of this name holds.
#[tactic(auto, using(crate::proofs::WithinLaws::outer_named, crate::proofs::WithinLaws::outer_unnumbered))]
fn outer_of<'n>(by_number: bool, name: Name<'n>) -> Outer<'n>
    ensures ns { result.ns.now ≡ name.entry.ns.now }
    ensures within { (spaces : List Space) → (by_number ≡ true → AreNumbered (space_of name.entry ∷ spaces)) → IsOuter result spaces }
{
    if by_number {
        return Outer::of(name);
    }
    Outer::start(name.ns)
}

/// What stands around what an element of this name holds.
fn inside<'b, 'n>(around: Around<'b, '_>, name: Name<'n>) -> Around<'b, 'n>
    ensures base { base_of result ≡ base_of around.entry }
    ensures ns { result.outer.ns.now ≡ name.entry.ns.now }
    ensures within { (spaces : List Space) → IsWithin around.entry (space_of name.entry ∷ spaces) → IsWithin result spaces }
{
    Around {
        alloc: around.alloc,
        base: around.base,
        outer: outer_of(around.by_number, name),
        by_number: around.by_number,
    }
}

/// Appends the start tag of an element, without its end.
#[tactic(auto, using(crate::proofs::MarkupLaws::attrs_laws, crate::proofs::WithinLaws::within_name))]
fn push_open(around: Around<'_, '_>, element: &Element<'_>, out: &mut Text) -> Result<(), NoMemory>
    requires { IsWithin around (spaces_of element.now) }
    ensures { OnOk result (out.new ≡ out.old ++ open_text (base_of around.entry) around.entry.outer.ns.now (tree_of element.now).head) }
{
    out.push("<")?;
    out.push(element.name.local)?;
    push_declaration(around.outer.is_of(&element.name), element.name.ns, out)?;
    push_attributes(around.alloc, around.base, element, out)
}

/// Appends what follows the attributes of an element that is kept.
#[cycle(markup)]
fn push_rest(around: Around<'_, '_>, element: &Element<'_>, out: &mut Text) -> Result<(), NoMemory>
    requires { IsWithin around (spaces_of element.now) }
    ensures { OnOk result (out.new ≡ out.old ++ rest_text (is_short (tree_of element.now)) (tree_of element.now).head.name.local
        (marks.markup (base_of around.entry) (tree_of element.now).head.name.ns (tree_of element.now).children)) }
{
    if ends_short(*element.name) && is_silent(element) {
        return out.push("/>");
    }
    out.push(">")?;
    push_nodes(inside(around, *element.name), element.children, out)?;
    push_close(element.name.local, out)
}

/// Appends the markup of an element.
#[cycle(markup)]
#[tactic(auto, using(crate::proofs::MarkupLaws::element_laws, crate::proofs::MarkupLaws::base_laws))]
fn push_element(
    around: Around<'_, '_>,
    element: &Element<'_>,
    out: &mut Text,
) -> Result<(), NoMemory>
    requires { IsWithin around (spaces_of element.now) }
    ensures { OnOk result (out.new ≡ out.old ++ element_markup (base_of around.entry) around.entry.outer.ns.now (tree_of element.now)) }
{
    if is_left_out(element) {
        return Ok(());
    }
    match xml_base(element) {
        Some(text) => push_based(around, text, element, out),
        None => push_shown(around, element, out),
    }
}

/// Appends the markup of an element that isn't left out and has this `xml:base`. Where no link stands in the element no base
/// counts, and none is joined.
#[cycle(markup)]
#[tactic(auto, using(crate::proofs::LinkLaws::unlinked_laws))]
fn push_based(
    around: Around<'_, '_>,
    text: &str,
    element: &Element<'_>,
    out: &mut Text,
) -> Result<(), NoMemory>
    requires { IsWithin around (spaces_of element.now) }
    ensures { OnOk result (out.new ≡ out.old
        ++ shown_by (option_map (λ b. joined_or b text.now) (base_of around.entry)) around.entry.outer.ns.now (tree_of element.now)) }
{
    match around.base {
        Some(base) if is_linked(element) => push_joined(around, base, text, element, out),
        _ => push_shown(
            Around {
                base: None,
                ..around
            },
            element,
            out,
        ),
    }
}

/// Appends the markup of an element that isn't left out, with this base below it, once this text is joined to it.
#[cycle(markup)]
fn push_joined(
    around: Around<'_, '_>,
    base: &ParsedBase,
    text: &str,
    element: &Element<'_>,
    out: &mut Text,
) -> Result<(), NoMemory>
    requires { IsWithin around (spaces_of element.now) }
    ensures { OnOk result (out.new ≡ out.old
        ++ shown_by (Some (joined_or base.now text.now)) around.entry.outer.ns.now (tree_of element.now)) }
{
    match base.joined(text)? {
        Some(own) => {
            let base = Some(&own);
            push_shown(Around { base, ..around }, element, out)
        }
        None => {
            let base = Some(base);
            push_shown(Around { base, ..around }, element, out)
        }
    }
}

/// Appends the markup of an element that isn't left out, with this base below it.
#[cycle(markup)]
fn push_shown(around: Around<'_, '_>, element: &Element<'_>, out: &mut Text) -> Result<(), NoMemory>
    requires { IsWithin around (spaces_of element.now) }
    ensures { OnOk result (out.new ≡ out.old ++ shown_by (base_of around.entry) around.entry.outer.ns.now (tree_of element.now)) }
{
    if is_opened(element) {
        return push_nodes(around, element.children, out);
    }
    push_open(around, element, out)?;
    push_rest(around, element, out)
}

/// Appends the markup of some nodes.
#[cycle(markup)]
fn push_nodes(around: Around<'_, '_>, nodes: &[Node<'_>], out: &mut Text) -> Result<(), NoMemory>
    requires { IsWithin around (flat_map spaces_in nodes.now) }
    ensures { OnOk result (out.new ≡ out.old ++ marks.markup (base_of around.entry) around.entry.outer.ns.now (nodes_of nodes.now)) }
{
    for node in nodes {
        match node {
            Node::Chars(text) => push_te(text, out)?,
            Node::Elem(element) => push_element(around, element, out)?,
        }
    }
    Ok(())
}

/// Appends the markup of some nodes within a namespace, links as they are written. After a refusal the text is as before:
/// the markup is made beside it first. The nodes may be of any page: namespaces are compared by their texts.
pub fn markup_as_is(
    alloc: Global,
    nodes: &[Node<'_>],
    start_ns: &str,
    text: &mut Text,
) -> Result<(), NoMemory>
    ensures ok { OnOk result (text.new ≡ text.old ++ marks.markup None start_ns.now (nodes_of nodes.now)) }
    ensures err { OnErr result (text.new ≡ text.old) }
{
    let mut whole = Text::of(alloc, "")?;
    let around = Around {
        alloc,
        base: None,
        outer: Outer::start(start_ns),
        by_number: false,
    };
    push_nodes(around, nodes, &mut whole)?;
    text.push(whole.as_str())
}

/// Whether a link stands in what the element of a spot holds.
fn holds_links(spot: &Spot<'_>) -> bool
    ensures { result ≡ links_in (located spot.now).placed.tree.children }
{
    has_links(spot.element.children)
}

/// Appends the markup of what the element of a spot holds, within a namespace and with this base.
fn push_held(
    alloc: Global,
    base: Option<&ParsedBase>,
    spot: &Spot<'_>,
    ns: &str,
    text: &mut Text,
) -> Result<(), NoMemory>
    requires { IsOnOnePage spot.now }
    ensures { OnOk result (text.new ≡ text.old
        ++ marks.markup (option_map (λ b. b.now) base.entry) ns.now (located spot.now).placed.tree.children) }
{
    let around = Around {
        alloc,
        base,
        outer: Outer::start(ns),
        by_number: true,
    };
    push_nodes(around, spot.element.children, text)
}

/// Appends the markup of what the element of a spot holds, links resolved. Where no link stands in it no base counts, and its
/// base isn't asked for.
#[tactic(auto, using(crate::proofs::LinkLaws::unlinked_laws))]
fn push_spot(
    alloc: Global,
    spot: &Spot<'_>,
    bases: &Bases,
    ns: &str,
    text: &mut Text,
) -> Result<(), NoMemory>
    requires base { (place_of spot.now).page < length bases.now.pages }
    requires page { IsOnOnePage spot.now }
    ensures { OnOk result (text.new ≡ text.old ++ marks.markup (Some (base_in bases.now.pages (located spot.now))) ns.now
        (located spot.now).placed.tree.children) }
{
    if !holds_links(spot) {
        return push_held(alloc, None, spot, ns, text);
    }
    match bases.own(spot)? {
        Some(own) => push_held(alloc, Some(&own), spot, ns, text),
        None => push_held(alloc, Some(bases.page(spot)), spot, ns, text),
    }
}

/// The markup of a chain within a namespace, links resolved against the bases of their elements.
fn chain_markup(
    alloc: Global,
    chain: &[&Spot<'_>],
    bases: &Bases,
    start_ns: &str,
) -> Result<Text, NoMemory>
    requires bases { All (λ s. (place_of s.now).page < length bases.now.pages) chain.now }
    requires pages { All (λ s. IsOnOnePage s.now) chain.now }
    ensures { IfOk result (λ t. t ≡ marks.markup_along (λ e. Some (base_in bases.now.pages e)) start_ns.now
        (map (λ s. located s.now) chain.now)) }
{
    let mut text = Text::of(alloc, "")?;
    for spot in chain {
        push_spot(alloc, spot, bases, start_ns, &mut text)?;
    }
    Ok(text)
}

/// Appends the markup of a chain within a namespace, links resolved against the bases of their elements. After a refusal
/// the text is as before: the markup is made beside it first.
pub fn markup(
    alloc: Global,
    chain: &[&Spot<'_>],
    bases: &Bases,
    start_ns: &str,
    text: &mut Text,
) -> Result<(), NoMemory>
    requires bases { All (λ s. (place_of s.now).page < length bases.now.pages) chain.now }
    requires pages { All (λ s. IsOnOnePage s.now) chain.now }
    ensures ok { OnOk result (text.new ≡ text.old ++ marks.markup_along (λ e. Some (base_in bases.now.pages e)) start_ns.now
        (map (λ s. located s.now) chain.now)) }
    ensures err { OnErr result (text.new ≡ text.old) }
{
    let whole = chain_markup(alloc, chain, bases, start_ns)?;
    text.push(whole.as_str())
}
