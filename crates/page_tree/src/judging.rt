//! What is broken in the names of a tag.
ghost use Rattle.std.specs.Prelude.{◌≡◌, true, length, map};
ghost use Rattle.std.specs.List.{list_any, filter_map};
ghost use Rattle.ix_base.specs.Trees.{bindings_in};
ghost use Rattle.ix_base.specs.Namespaces.{xml_namespace, xmlns_namespace};
ghost use Rattle.page_constructs.specs.Model.{attribute_of, tag_of};
ghost use Rattle.page_tree.specs.Effects.{Judges};
ghost use Rattle.page_tree.specs.Expansions.{declared, expansion, expansions, is_unknown, is_unknown_prefix};
ghost use Rattle.page_tree.specs.Names.{IsNamed};
ghost use Rattle.page_tree.specs.Tags as tags;

use crate::names::{Declaration, ElementName, Expanded, PrefixState, declaration_of};
use crate::refusal::Refusal;
use crate::twice::repeats;
use ix_base::Rule;
use ix_base::namespaces::{XML, XMLNS};
use page_constructs::{Attribute, Tag};
use std::alloc::Global;

/// Whether there is a prefix that isn't bound.
fn is_unbound(prefix: PrefixState) -> bool
    ensures { result ≡ is_unknown_prefix prefix }
{
    match prefix {
        PrefixState::Unknown => true,
        PrefixState::Missing | PrefixState::Known => false,
    }
}

/// Whether a prefix may not be bound to a namespace.
#[tactic(auto, unfolding(ix_base::specs::Namespaces::xml_namespace))]
fn is_misbound(prefix: &str, ns: &str) -> bool
    ensures { result ≡ tags.is_misbound prefix.now ns.now }
{
    if prefix == "xmlns" || ns == "" {
        return true;
    }
    if prefix == "xml" {
        ns != XML
    } else {
        ns == XML
    }
}

/// Whether a declaration is one that none may make.
#[tactic(auto, unfolding(ix_base::specs::Namespaces::xmlns_namespace))]
fn is_bad(declaration: &Declaration<'_>) -> bool
    ensures { result ≡ tags.is_bad (declared declaration.now) }
{
    if declaration.ns == XMLNS {
        return true;
    }
    if declaration.prefix == "" {
        return false;
    }
    is_misbound(declaration.prefix, declaration.ns)
}

/// Whether a reference in a value is bad.
fn misrefers(attrs: &[Attribute<'_>]) -> bool
    ensures { result ≡ tags.misrefers (map attribute_of attrs.now) }
{
    for attr in attrs {
        if attr.value.is_none() {
            return true;
        }
    }
    false
}

/// Whether a declaration is bad.
fn has_bad(attrs: &[Attribute<'_>]) -> bool
    ensures { result ≡ list_any tags.is_bad (filter_map tags.binding_of (map attribute_of attrs.now)) }
{
    for attr in attrs {
        if let Some(declaration) = declaration_of(attr) {
            if is_bad(&declaration) {
                return true;
            }
        }
    }
    false
}

/// Whether an attribute has a prefix that isn't bound.
fn has_unknown(expanded: &[Expanded<'_>]) -> bool
    ensures { result ≡ list_any is_unknown (map expansion expanded.now) }
{
    for one in expanded {
        if one.prefix == PrefixState::Unknown {
            return true;
        }
    }
    false
}

/// Whether each attribute is expanded, so that none is a declaration.
fn are_all(attrs: &[Attribute<'_>], expanded: &[Expanded<'_>]) -> bool
    ensures { result ≡ true → length (map expansion expanded.now) ≡ length (map attribute_of attrs.now) }
{
    expanded.len() == attrs.len()
}

/// Whether a prefix of a tag isn't bound, or a declaration of it is bad.
fn misnames(own: &ElementName<'_>, tag: &Tag<'_, '_>, expanded: &[Expanded<'_>]) -> bool
    requires expanded { map expansion expanded.now ≡ expansions (bindings_in own.now.scope) (tag_of tag.now) }
    requires named { IsNamed own.now tag.now.name.name.now }
    ensures { result ≡ tags.misnames (bindings_in own.now.scope) (tag_of tag.now) }
{
    if is_unbound(own.prefix) {
        return true;
    }
    if has_unknown(expanded) {
        return true;
    }
    if are_all(tag.attrs, expanded) {
        return false;
    }
    has_bad(tag.attrs)
}

/// Judges the attributes and the namespaces of a tag: the lowest rule that they break is an error.
pub(crate) fn judge_names(
    alloc: Global,
    own: &ElementName<'_>,
    tag: &Tag<'_, '_>,
    expanded: &[Expanded<'_>],
) -> Result<(), Refusal>
    requires expanded { map expansion expanded.now ≡ expansions (bindings_in own.now.scope) (tag_of tag.now) }
    requires named { IsNamed own.now tag.now.name.name.now }
    ensures { Judges (tags.tag_break (bindings_in own.now.scope) (tag_of tag.now)) result }
{
    if repeats(alloc, tag.attrs, expanded)? {
        return Err(Refusal::Breaks(Rule::W7));
    }
    if misrefers(tag.attrs) {
        return Err(Refusal::Breaks(Rule::W8));
    }
    if misnames(own, tag, expanded) {
        return Err(Refusal::Breaks(Rule::W9));
    }
    Ok(())
}
