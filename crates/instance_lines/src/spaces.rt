//! The namespaces of a content.
ghost use Rattle.std.specs.Prelude.{◌≡◌, ◌++◌, ◌∷◌, flat_map, IfOk, OnOk};
ghost use Rattle.ix_base.specs.Facts.{before, facts_of, none};
ghost use Rattle.instance_lines.specs.Canonical.{content_spaces, context_names, dim_names, fact_names, unit_names};
ghost use Rattle.instance_lines.specs.Tables.{GainsSpaces, values_of};

use crate::names::member_name;
use crate::prefix::is_known;
use ix_base::{Content, Context, Dim, Fact, NoMemory, OwnName, Unit, each_once};
use std::alloc::Global;

/// Adds the namespace of a name, if it needs a prefix of its own and isn't the last one already. Most names have the namespace
/// of the name before them.
fn add<'a>(name: &'a OwnName, spaces: &mut Vec<&'a str>) -> Result<(), NoMemory>
    ensures { OnOk result (GainsSpaces (values_of spaces.old.items) (values_of spaces.new.items) (λ more. name.now ∷ more)) }
{
    let space = name.ns.as_str();
    if let Some(last) = spaces.last() {
        if *last == space {
            return Ok(());
        }
    }
    if is_known(space) {
        return Ok(());
    }
    spaces.push(space)?;
    Ok(())
}

/// Adds the namespaces of names.
fn add_all<'a>(names: &'a [OwnName], spaces: &mut Vec<&'a str>) -> Result<(), NoMemory>
    ensures { OnOk result (GainsSpaces (values_of spaces.old.items) (values_of spaces.new.items) (λ more. names.now ++ more)) }
{
    for name in names {
        add(name, spaces)?;
    }
    Ok(())
}

/// Adds the namespaces of dimensions and of their members.
fn add_dims<'a>(dims: &'a [Dim], spaces: &mut Vec<&'a str>) -> Result<(), NoMemory>
    ensures { OnOk result (GainsSpaces (values_of spaces.old.items) (values_of spaces.new.items)
        (λ more. flat_map dim_names dims.now ++ more)) }
{
    for dim in dims {
        add(&dim.dimension, spaces)?;
        add(member_name(&dim.member), spaces)?;
    }
    Ok(())
}

/// Adds the namespaces in contexts.
fn add_contexts<'a>(contexts: &'a [Context], spaces: &mut Vec<&'a str>) -> Result<(), NoMemory>
    ensures { OnOk result (GainsSpaces (values_of spaces.old.items) (values_of spaces.new.items)
        (λ more. flat_map context_names contexts.now ++ more)) }
{
    for context in contexts {
        add_dims(context.segment.as_slice(), spaces)?;
        add_dims(context.scenario.as_slice(), spaces)?;
    }
    Ok(())
}

/// Adds the namespaces in units.
fn add_units<'a>(units: &'a [Unit], spaces: &mut Vec<&'a str>) -> Result<(), NoMemory>
    ensures { OnOk result (GainsSpaces (values_of spaces.old.items) (values_of spaces.new.items)
        (λ more. flat_map unit_names units.now ++ more)) }
{
    for unit in units {
        add_all(unit.over.as_slice(), spaces)?;
        add_all(unit.under.as_slice(), spaces)?;
    }
    Ok(())
}

/// Adds the namespaces of a fact and of its members.
#[cycle(facts)]
fn add_fact<'a>(fact: &'a Fact, spaces: &mut Vec<&'a str>) -> Result<(), NoMemory>
    ensures { OnOk result (GainsSpaces (values_of spaces.old.items) (values_of spaces.new.items)
        (λ more. fact_names (before fact.now none) ++ more)) }
{
    match fact {
        Fact::Item(item) => add(&item.name, spaces),
        Fact::Tuple(tuple) => {
            add(&tuple.name, spaces)?;
            add_facts(tuple.members.as_slice(), spaces)
        }
    }
}

/// Adds the namespaces of facts and of their members.
#[cycle(facts)]
fn add_facts<'a>(facts: &'a [Fact], spaces: &mut Vec<&'a str>) -> Result<(), NoMemory>
    ensures { OnOk result (GainsSpaces (values_of spaces.old.items) (values_of spaces.new.items)
        (λ more. fact_names (facts_of facts.now) ++ more)) }
{
    for fact in facts {
        add_fact(fact, spaces)?;
    }
    Ok(())
}

/// The namespaces of a content that need prefixes of their own, in order, each once.
pub fn spaces_in<'a>(alloc: Global, content: &'a Content) -> Result<Vec<&'a str>, NoMemory>
    ensures { IfOk result (λ v. values_of v.items ≡ content_spaces content.now (facts_of content.now.facts)) }
{
    let mut spaces = Vec::new(alloc);
    add_contexts(content.contexts.as_slice(), &mut spaces)?;
    add_units(content.units.as_slice(), &mut spaces)?;
    add_facts(content.facts.as_slice(), &mut spaces)?;
    each_once(&mut spaces);
    Ok(spaces)
}
