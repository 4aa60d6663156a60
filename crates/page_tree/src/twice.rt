//! Whether an attribute stands twice in a tag.
ghost use Rattle.std.specs.Prelude.{◌≡◌, IfOk, List, map, option_map, bytes_eq};
ghost use Rattle.std.specs.List.{filter_map, list_any};
ghost use Rattle.ix_base.specs.Trees.{Bound};
ghost use Rattle.page_constructs.specs.Model.{attribute_of};
ghost use Rattle.page_tree.specs.Expansions.{expansion, expansion_of, known_name as known_name_of, repeats_by, named_pair};
ghost use Rattle.page_tree.specs.Tags as tags;

use crate::names::{Expanded, PrefixState};
use ix_base::NoMemory;
use page_constructs::Attribute;
use std::alloc::Global;
use std::collections::BTreeSet;

/// How many attributes are compared each with each. More are put in order.
const FEW: usize = 8;

/// Whether two texts of one length are one. It is no part of a loop over names, most of which differ in their lengths.
#[inline(never)]
fn are_equal(a: &str, b: &str) -> bool
    ensures { result ≡ bytes_eq a.now b.now }
{
    a == b
}

/// Whether two names are one. The lengths come first.
fn is_one(a: &str, b: &str) -> bool
    ensures { result ≡ bytes_eq a.now b.now }
{
    a.len() == b.len() && are_equal(a, b)
}

/// Whether an attribute of this written name is among some.
fn is_among(name: &str, attrs: &[Attribute<'_>]) -> bool
    ensures { result ≡ list_any (bytes_eq name.now) (map (λ a. a.name.name.now) attrs.now) }
{
    for attr in attrs {
        if is_one(name, attr.name.name) {
            return true;
        }
    }
    false
}

/// Whether two of a few attributes have one written name. Each is compared with each.
fn repeats_among_few(attrs: &[Attribute<'_>]) -> bool
    ensures { result ≡ repeats_by bytes_eq (map (λ a. a.name.name.now) attrs.now) }
{
    let mut left = attrs;
    while let [first, rest @ ..] = left {
        if is_among(first.name.name, rest) {
            return true;
        }
        left = rest;
    }
    false
}

/// Whether two of many attributes have one written name.
#[inline(never)]
fn repeats_among_many(alloc: Global, attrs: &[Attribute<'_>]) -> Result<bool, NoMemory>
    ensures { IfOk result (λ r. r ≡ repeats_by bytes_eq (map (λ a. a.name.name.now) attrs.now)) }
{
    let mut seen = BTreeSet::new(alloc);
    for attr in attrs {
        let is_new = seen.insert(attr.name.name)?;
        if !is_new {
            return Ok(true);
        }
    }
    Ok(false)
}

/// Whether two attributes have one written name.
fn repeats_name(alloc: Global, attrs: &[Attribute<'_>]) -> Result<bool, NoMemory>
    ensures { IfOk result (λ r. r ≡ repeats_by bytes_eq (map (λ a. a.name.name.now) attrs.now)) }
{
    if attrs.len() <= FEW {
        return Ok(repeats_among_few(attrs));
    }
    repeats_among_many(alloc, attrs)
}

/// The expanded name, where the prefix is bound. The local part comes first, so that namespaces, which may be long, are compared
/// only where that is the same.
fn known_name<'a>(expanded: &Expanded<'a>) -> Option<(&'a str, &'a str)>
    ensures { option_map named_pair result ≡ known_name_of (expansion expanded.now) }
{
    match expanded.prefix {
        PrefixState::Known => Some((expanded.name.local, expanded.name.ns)),
        PrefixState::Missing | PrefixState::Unknown => None,
    }
}

/// Whether two attributes have bound prefixes and one expanded name.
fn repeats_expanded(alloc: Global, expanded: &[Expanded<'_>]) -> Result<bool, NoMemory>
    ensures { IfOk result (λ r. r ≡ repeats_by tags.same_name (filter_map known_name_of (map expansion expanded.now))) }
{
    let mut seen = BTreeSet::new(alloc);
    for one in expanded {
        if let Some(name) = known_name(one) {
            let is_new = seen.insert(name)?;
            if !is_new {
                return Ok(true);
            }
        }
    }
    Ok(false)
}

/// Whether an attribute stands there twice: by its written name, or by a bound prefix and an expanded name.
pub(crate) fn repeats(
    alloc: Global,
    attrs: &[Attribute<'_>],
    expanded: &[Expanded<'_>],
) -> Result<bool, NoMemory>
    ensures { IfOk result (λ r. (scope : List Bound)
        → map expansion expanded.now ≡ filter_map (expansion_of scope) (map attribute_of attrs.now)
        → r ≡ tags.repeats scope (map attribute_of attrs.now)) }
{
    if attrs.len() < 2 {
        return Ok(false);
    }
    let is_named = repeats_name(alloc, attrs)?;
    if is_named {
        return Ok(true);
    }
    let is_expanded = repeats_expanded(alloc, expanded)?;
    Ok(is_expanded)
}
