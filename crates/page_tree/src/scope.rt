//! Scopes of elements: what a tag declares, in the scope of its parent.
ghost use Rattle.std.specs.Prelude.{◌≡◌, ◌++◌, ◌∷◌, [], true, IfOk, OnOk, map};
ghost use Rattle.std.specs.List.{filter_map};
ghost use Rattle.ix_base.specs.Bindings.{are_ordered};
ghost use Rattle.ix_base.specs.Spaces.{space_bound, spaces_bound};
ghost use Rattle.ix_base.specs.Trees.{bound, bindings_in};
ghost use Rattle.ix_base.specs.Scope.{scope_under, outermost};
ghost use Rattle.ix_base.specs.Namespaces.{xml_namespace};
ghost use Rattle.page_constructs.specs.Model.{attribute_of};
ghost use Rattle.page_tree.specs.Orders.{bound_under, entered};
ghost use Rattle.page_tree.specs.Spaces.{AreFrom, HaveNumbers, Keeps};
ghost use Rattle.page_tree.specs.Tags.{binding_of as binding_of_attribute};

use crate::names::declaration_of;
use crate::spaces::Spaces;
use bumpalo::Bump;
use ix_base::namespaces::XML;
use ix_base::{Binding, Declared, Level, NoMemory, Scope};
use page_constructs::Attribute;
use std::alloc::Global;
use std::collections::BTreeMap;

/// The scope above the root: the prefix xml is always bound.
#[tactic(auto, unfolding(ix_base::specs::Namespaces::xml_namespace))]
pub(crate) fn outermost_scope<'a>(arena: &'a Bump) -> Result<Scope<'a>, NoMemory>
    ensures bindings { IfOk result (λ s. bindings_in s ≡ outermost) }
    ensures spaces { IfOk result (λ s. AreFrom [] (spaces_bound s)) }
{
    let level = Level {
        own: Declared {
            list: &[Binding {
                prefix: "xml",
                ns: XML,
                number: 1,
            }],
        },
        above: None,
    };
    match arena.try_alloc(level) {
        Ok(level) => Ok(Scope { level: Some(level) }),
        Err(_) => Err(NoMemory),
    }
}

/// Collects what a tag declares, in byte order of the prefixes: of one prefix the last.
fn collect<'a>(
    attrs: &[Attribute<'a>],
    declared: &mut BTreeMap<&'a str, &'a str>,
) -> Result<(), NoMemory>
    ensures { OnOk result (map entered declared.new.entries
        ≡ bound_under (map entered declared.old.entries) (filter_map binding_of_attribute (map attribute_of attrs.now))) }
{
    for attr in attrs {
        if let Some(declaration) = declaration_of(attr) {
            declared.insert(declaration.prefix, declaration.ns)?;
        }
    }
    Ok(())
}

/// Puts a declaration behind others, with the number of its namespace.
fn push_binding<'a>(
    spaces: &mut Spaces<'a>,
    list: &mut Vec<Binding<'a>>,
    prefix: &'a str,
    ns: &'a str,
) -> Result<(), NoMemory>
    ensures list { OnOk result (map bound list.new.items ≡ map bound list.old.items ++ entered (prefix.entry, ns.entry) ∷ []) }
    ensures spaces { OnOk result (HaveNumbers spaces.old.numbers (map space_bound list.old.items)
        → HaveNumbers spaces.new.numbers (map space_bound list.new.items)) }
    ensures kept { Keeps spaces.old.numbers spaces.new.numbers }
{
    let number = spaces.number(ns)?;
    list.push(Binding { prefix, ns, number })?;
    Ok(())
}

/// Puts declarations behind others, in order, each with the number of its namespace.
fn push_bindings<'a>(
    spaces: &mut Spaces<'a>,
    list: &mut Vec<Binding<'a>>,
    declared: &BTreeMap<&'a str, &'a str>,
) -> Result<(), NoMemory>
    ensures list { OnOk result (map bound list.new.items ≡ map bound list.old.items ++ map entered declared.now.entries) }
    ensures spaces { OnOk result (HaveNumbers spaces.old.numbers (map space_bound list.old.items)
        → HaveNumbers spaces.new.numbers (map space_bound list.new.items)) }
    ensures kept { Keeps spaces.old.numbers spaces.new.numbers }
{
    for (prefix, ns) in declared {
        push_binding(spaces, list, prefix, ns)?;
    }
    Ok(())
}

/// Declarations in order, in the arena.
fn copied<'a>(arena: &'a Bump, list: &[Binding<'a>]) -> Result<Declared<'a>, NoMemory>
    requires { are_ordered (map bound list.now) ≡ true }
    ensures { IfOk result (λ d. d.list.now ≡ list.now) }
{
    Ok(Declared {
        list: arena.try_alloc_slice_copy(list)?,
    })
}

/// Declarations in order, in the arena, each with the number of its namespace.
fn kept<'a>(
    alloc: Global,
    arena: &'a Bump,
    spaces: &mut Spaces<'a>,
    declared: &BTreeMap<&'a str, &'a str>,
) -> Result<Declared<'a>, NoMemory>
    requires { are_ordered (map entered declared.now.entries) ≡ true }
    ensures list { IfOk result (λ d. map bound d.list.now ≡ map entered declared.now.entries) }
    ensures spaces { IfOk result (λ d. HaveNumbers spaces.new.numbers (map space_bound d.list.now)) }
    ensures kept { Keeps spaces.old.numbers spaces.new.numbers }
{
    let mut list = Vec::new(alloc);
    push_bindings(spaces, &mut list, declared)?;
    copied(arena, list.as_slice())
}

/// The scope of an element that declares this, in the scope of its parent.
fn inner_scope<'a>(
    arena: &'a Bump,
    own: Declared<'a>,
    outer: Scope<'a>,
) -> Result<Scope<'a>, NoMemory>
    ensures bindings { IfOk result (λ s. bindings_in s ≡ scope_under (bindings_in outer.entry) (map bound own.entry.list.now)) }
    ensures spaces { IfOk result (λ s. spaces_bound s ≡ map space_bound own.entry.list.now ++ spaces_bound outer.entry) }
{
    let above = outer.level;
    match arena.try_alloc(Level { own, above }) {
        Ok(level) => Ok(Scope { level: Some(level) }),
        Err(_) => Err(NoMemory),
    }
}

/// The scope of an element that declares this, in the scope of its parent. Without declarations it is its parent's.
fn scope_declaring<'a>(
    alloc: Global,
    arena: &'a Bump,
    spaces: &mut Spaces<'a>,
    scope: Scope<'a>,
    declared: &BTreeMap<&'a str, &'a str>,
) -> Result<Scope<'a>, NoMemory>
    requires { are_ordered (map entered declared.now.entries) ≡ true }
    ensures bindings { IfOk result (λ s. bindings_in s ≡ scope_under (bindings_in scope.entry) (map entered declared.now.entries)) }
    ensures spaces { IfOk result (λ s. HaveNumbers spaces.new.numbers (spaces_bound scope.entry)
        → HaveNumbers spaces.new.numbers (spaces_bound s)) }
    ensures kept { Keeps spaces.old.numbers spaces.new.numbers }
{
    if declared.is_empty() {
        return Ok(scope);
    }
    let own = kept(alloc, arena, spaces, declared)?;
    inner_scope(arena, own, scope)
}

/// The scope of an element with these attributes.
pub(crate) fn scope_of<'a>(
    alloc: Global,
    arena: &'a Bump,
    spaces: &mut Spaces<'a>,
    scope: Scope<'a>,
    attrs: &[Attribute<'a>],
) -> Result<Scope<'a>, NoMemory>
    ensures bindings { IfOk result (λ s. bindings_in s
        ≡ scope_under (bindings_in scope.entry) (filter_map binding_of_attribute (map attribute_of attrs.now))) }
    ensures spaces { IfOk result (λ s. HaveNumbers spaces.new.numbers (spaces_bound scope.entry)
        → HaveNumbers spaces.new.numbers (spaces_bound s)) }
    ensures kept { Keeps spaces.old.numbers spaces.new.numbers }
{
    let mut declared = BTreeMap::new(alloc);
    collect(attrs, &mut declared)?;
    scope_declaring(alloc, arena, spaces, scope, &declared)
}
