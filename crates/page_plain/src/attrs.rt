//! The attributes of a page without its inline markup, as they are written.
ghost use Rattle.std.specs.Prelude.{◌≡◌, ◌++◌, ◌∷◌, [], ◌<◌, OnOk, Some, map};
ghost use Rattle.ix_base.specs.Escapes.{ae};
ghost use Rattle.ix_base.specs.Spaces.{AreNumbered, space_of};
ghost use Rattle.ix_base.specs.Trees.{named, valued};
ghost use Rattle.ix_base.specs.WrittenMarkup.{attrs_text};
ghost use Rattle.page_tree.specs.FineMarkup.{declaring};
ghost use Rattle.page_plain.specs.Bare as plain;
ghost use Rattle.page_plain.specs.SpaceNumbers.{attr_spaces};

use crate::names::is_inline;
use crate::prefixes::{Prefixes, push_prefix};
use ix_base::namespaces::XML;
use ix_base::{Attr, Name, NoMemory, Text, push_ae};
use std::alloc::Global;

/// Appends a local name behind the prefix of this number.
fn push_qualified(alloc: Global, number: usize, local: &str, out: &mut Text) -> Result<(), NoMemory>
    requires { 0 < number }
    ensures { OnOk result (out.new ≡ out.old ++ plain.qualified (Some (plain.prefix_at number)) local.now) }
{
    push_prefix(alloc, number, out)?;
    out.push(":")?;
    out.push(local)
}

/// Appends the name of an attribute.
#[tactic(auto, unfolding(ix_base::specs::Namespaces::xml_namespace))]
fn push_name(
    alloc: Global,
    prefixes: &Prefixes<'_>,
    name: &Name<'_>,
    out: &mut Text,
) -> Result<(), NoMemory>
    requires { AreNumbered (space_of name.now ∷ prefixes.now.spaces) }
    ensures { OnOk result (out.new ≡ out.old ++ plain.attr_name (plain.numbered 1 prefixes.now.texts) (named name.now)) }
{
    if name.ns.is_empty() {
        return out.push(name.local);
    }
    if name.ns == XML {
        out.push("xml:")?;
        return out.push(name.local);
    }
    match prefixes.number(name) {
        Some(number) => push_qualified(alloc, number, name.local, out),
        None => out.push(name.local),
    }
}

/// Appends the value of an attribute behind its name.
pub(crate) fn push_value(value: &str, out: &mut Text) -> Result<(), NoMemory>
    ensures { OnOk result (out.new ≡ out.old ++ 61 ∷ 34 ∷ (ae value.now ++ 34 ∷ [])) }
{
    out.push("=\"")?;
    push_ae(value, out)?;
    out.push("\"")
}

/// Appends an attribute.
fn push_attr(
    alloc: Global,
    prefixes: &Prefixes<'_>,
    attr: &Attr<'_>,
    out: &mut Text,
) -> Result<(), NoMemory>
    requires { AreNumbered (space_of attr.now.name.now ∷ prefixes.now.spaces) }
    ensures { OnOk result (out.new ≡ out.old
        ++ attrs_text (plain.attr_in (plain.numbered 1 prefixes.now.texts) (valued attr.now) ∷ []) []) }
{
    out.push(" ")?;
    push_name(alloc, prefixes, attr.name, out)?;
    push_value(attr.value, out)
}

/// Appends the declarations of the prefixes of these namespaces.
fn push_declarations(alloc: Global, spaces: &[&str], out: &mut Text) -> Result<(), NoMemory>
    ensures { OnOk result (out.new ≡ out.old ++ attrs_text (map declaring (plain.numbered 1 (map (λ s. s.now) spaces.now))) []) }
{
    let mut number = 1;
    for space in spaces {
        out.push(" xmlns:")?;
        push_prefix(alloc, number, out)?;
        push_value(space, out)?;
        number += 1;
    }
    Ok(())
}

/// Appends those attributes that are kept.
#[tactic(auto, using(escape_text::proofs::MarkupLaws::attrs_laws))]
fn push_attrs(
    alloc: Global,
    prefixes: &Prefixes<'_>,
    attrs: &[Attr<'_>],
    out: &mut Text,
) -> Result<(), NoMemory>
    requires { AreNumbered (prefixes.now.spaces ++ attr_spaces attrs.now) }
    ensures { OnOk result (out.new ≡ out.old
        ++ attrs_text (map (plain.attr_in (plain.numbered 1 prefixes.now.texts)) (plain.kept_attrs (map valued attrs.now))) []) }
{
    for attr in attrs {
        if !is_inline(attr) {
            push_attr(alloc, prefixes, attr, out)?;
        }
    }
    Ok(())
}

/// Appends the declarations of the prefixes of some namespaces, and those attributes that are kept.
#[tactic(auto, using(escape_text::proofs::MarkupLaws::attrs_laws))]
pub(crate) fn push_declared(
    alloc: Global,
    declared: &[&str],
    prefixes: &Prefixes<'_>,
    attrs: &[Attr<'_>],
    out: &mut Text,
) -> Result<(), NoMemory>
    requires { AreNumbered (prefixes.now.spaces ++ attr_spaces attrs.now) }
    ensures { OnOk result (out.new ≡ out.old ++ attrs_text (map declaring (plain.numbered 1 (map (λ s. s.now) declared.now))
        ++ map (plain.attr_in (plain.numbered 1 prefixes.now.texts)) (plain.kept_attrs (map valued attrs.now))) []) }
{
    push_declarations(alloc, declared, out)?;
    push_attrs(alloc, prefixes, attrs, out)
}
