//! Writing attributes.
ghost use Rattle.std.specs.Prelude.{◌≡◌, ◌++◌, ◌∷◌, ℕ, List, bytes_eq, map, IfOk, OnOk, option_map, []};
ghost use Rattle.ix_base.specs.Markup as marks;
ghost use Rattle.ix_base.specs.Trees.{named, valued, tree_of};
ghost use Rattle.ix_base.specs.WrittenMarkup.{attrs_text};
ghost use Rattle.ix_base.specs.SortedLists.{sorted};
ghost use Rattle.escape_text.specs.OwnedAttributes.{own, own_cmp, written_of};

use crate::names::is_link_of;
use ix_base::namespaces::XML;
use ix_base::{Attr, Element, Name, NoMemory, Text, push_ae};
use scopes::ParsedBase;
use std::alloc::Global;
use std::cmp::Ordering;

/// An attribute by its written name, with the value that it means.
#[derive(Drop)]
pub(crate) struct Own {
    name: Text,
    value: Text,
}

#[tactic(auto, unfolding(ix_base::specs::Namespaces::xml_namespace))]
fn is_written(attr: &Attr<'_>) -> bool
    ensures { result ≡ marks.is_written (valued attr.now) }
{
    attr.name.ns.is_empty() || (attr.name.ns == XML && attr.name.local != "base")
}

fn written_name(alloc: Global, name: &Name<'_>) -> Result<Text, NoMemory>
    ensures { IfOk result (λ t. t ≡ marks.written_name (named name.now)) }
{
    if name.ns.is_empty() {
        return Text::of(alloc, name.local);
    }
    let mut text = Text::of(alloc, "xml:")?;
    text.push(name.local)?;
    Ok(text)
}

/// A link against a base, or as it is written.
fn link_at(alloc: Global, base: Option<&ParsedBase>, text: &str) -> Result<Text, NoMemory>
    ensures { IfOk result (λ t. t ≡ marks.link_at (option_map (λ b. b.now) base.entry) text.now) }
{
    match base {
        Some(base) => base.resolved(alloc, text),
        None => Text::of(alloc, text),
    }
}

fn value_by(
    alloc: Global,
    is_link: bool,
    base: Option<&ParsedBase>,
    text: &str,
) -> Result<Text, NoMemory>
    ensures { IfOk result (λ t. t ≡ marks.value_by is_link (option_map (λ b. b.now) base.entry) text.now) }
{
    if is_link {
        link_at(alloc, base, text)
    } else {
        Text::of(alloc, text)
    }
}

/// An attribute as it is written, on an element of this name.
fn own_of(
    alloc: Global,
    base: Option<&ParsedBase>,
    element: &Name<'_>,
    attr: &Attr<'_>,
) -> Result<Own, NoMemory>
    ensures { IfOk result (λ o. own o ≡ marks.attribute_of (option_map (λ b. b.now) base.entry) (named element.now) (valued attr.now)) }
{
    let name = written_name(alloc, attr.name)?;
    let value = value_by(alloc, is_link_of(element, attr.name), base, attr.value)?;
    Ok(Own { name, value })
}

/// Adds an attribute as it is written, on an element of this name, where it is written at all.
fn push_own(
    alloc: Global,
    base: Option<&ParsedBase>,
    element: &Name<'_>,
    attr: &Attr<'_>,
    owns: &mut Vec<Own>,
) -> Result<(), NoMemory>
    ensures { OnOk result (map own owns.new.items
        ≡ map own owns.old.items ++ written_of (option_map (λ b. b.now) base.entry) (named element.now) (valued attr.now ∷ [])) }
{
    if is_written(attr) {
        owns.push(own_of(alloc, base, element, attr)?)?;
    }
    Ok(())
}

/// What is written of attributes of an element of this name, in their order.
fn owns_in(
    alloc: Global,
    base: Option<&ParsedBase>,
    element: &Name<'_>,
    attrs: &[Attr<'_>],
) -> Result<Vec<Own>, NoMemory>
    ensures { IfOk result (λ v. map own v.items
        ≡ written_of (option_map (λ b. b.now) base.entry) (named element.now) (map valued attrs.now)) }
{
    let mut owns = Vec::new(alloc);
    for attr in attrs {
        push_own(alloc, base, element, attr, &mut owns)?;
    }
    Ok(owns)
}

fn by_name(a: &Own, b: &Own) -> Ordering
    ensures { result ≡ own_cmp a.now b.now }
{
    a.name.as_str().cmp(b.name.as_str())
}

/// Sorts attributes by the bytes of their written names.
fn sort_owns(owns: &mut Vec<Own>) -> Result<(), NoMemory>
    ensures { OnOk result (map own owns.new.items ≡ sorted marks.attribute_cmp (map own owns.old.items)) }
{
    match owns.sort_by(|a, b| by_name(a, b)) {
        Ok(()) => Ok(()),
        Err(_) => Err(NoMemory),
    }
}

/// The attributes of an element as they are written, in order.
fn owns_of(
    alloc: Global,
    base: Option<&ParsedBase>,
    element: &Element<'_>,
) -> Result<Vec<Own>, NoMemory>
    ensures { IfOk result (λ v. map own v.items ≡ marks.own_attributes (option_map (λ b. b.now) base.entry) (tree_of element.now).head) }
{
    let mut owns = owns_in(alloc, base, &element.name, element.attrs.written)?;
    sort_owns(&mut owns)?;
    Ok(owns)
}

/// Appends an attribute.
fn push_attribute(name: &str, value: &str, out: &mut Text) -> Result<(), NoMemory>
    ensures { OnOk result (out.new ≡ out.old ++ attrs_text (record { name = name.now; value = value.now } ∷ []) []) }
{
    out.push(" ")?;
    out.push(name)?;
    out.push("=\"")?;
    push_ae(value, out)?;
    out.push("\"")
}

/// Appends a declaration of the default namespace, where it isn't the one around.
pub(crate) fn push_declaration(is_around: bool, ns: &str, out: &mut Text) -> Result<(), NoMemory>
    ensures { (around : List ℕ) → is_around ≡ bytes_eq ns.now around
        → OnOk result (out.new ≡ out.old ++ attrs_text (marks.declaration around ns.now) []) }
{
    if is_around {
        return Ok(());
    }
    push_attribute("xmlns", ns, out)
}

/// Appends the attributes of an element.
#[tactic(auto, using(crate::proofs::MarkupLaws::attrs_laws))]
pub(crate) fn push_attributes(
    alloc: Global,
    base: Option<&ParsedBase>,
    element: &Element<'_>,
    out: &mut Text,
) -> Result<(), NoMemory>
    ensures { OnOk result (out.new ≡ out.old
        ++ attrs_text (marks.own_attributes (option_map (λ b. b.now) base.entry) (tree_of element.now).head) []) }
{
    let owns = owns_of(alloc, base, element)?;
    for own in &owns {
        push_attribute(own.name.as_str(), own.value.as_str(), out)?;
    }
    Ok(())
}
