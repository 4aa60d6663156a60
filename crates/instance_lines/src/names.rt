//! The names of a content.
ghost use Rattle.std.specs.Prelude.{◌≡◌, ◌++◌, ◌∷◌, [], flat_map, IfOk, OnOk};
ghost use Rattle.ix_base.specs.Facts.{before, facts_of, none};
ghost use Rattle.ix_base.specs.PlainContents.{said_of};
ghost use Rattle.instance_lines.specs.Canonical.{context_names, dim_names, fact_names, member_names, unit_names};
ghost use Rattle.instance_lines.specs.Gains.{Gains};
ghost use Rattle.instance_lines.specs.Holdings.{all_names};
ghost use Rattle.instance_lines.specs.Tables.{values_of};

use ix_base::{Content, Context, Dim, Fact, Member, NoMemory, OwnName, Unit};
use std::alloc::Global;

/// Adds the names of dimensions and of their members.
fn add_dims<'a>(dims: &'a [Dim], names: &mut Vec<&'a OwnName>) -> Result<(), NoMemory>
    ensures { OnOk result (Gains (values_of names.old.items) (values_of names.new.items) (λ more. flat_map dim_names dims.now ++ more)) }
{
    for dim in dims {
        names.push(&dim.dimension)?;
        names.push(member_name(&dim.member))?;
    }
    Ok(())
}

/// The name of a member.
pub(crate) fn member_name(member: &Member) -> &OwnName
    ensures { result.now ∷ [] ≡ member_names member.now }
{
    match member {
        Member::Explicit(name) => name,
        Member::Typed(name, _) => name,
    }
}

/// Adds the names in contexts.
fn add_contexts<'a>(contexts: &'a [Context], names: &mut Vec<&'a OwnName>) -> Result<(), NoMemory>
    ensures { OnOk result (Gains (values_of names.old.items) (values_of names.new.items)
        (λ more. flat_map context_names contexts.now ++ more)) }
{
    for context in contexts {
        add_dims(context.segment.as_slice(), names)?;
        add_dims(context.scenario.as_slice(), names)?;
    }
    Ok(())
}

/// Adds names.
fn add_all<'a>(more: &'a [OwnName], names: &mut Vec<&'a OwnName>) -> Result<(), NoMemory>
    ensures { OnOk result (Gains (values_of names.old.items) (values_of names.new.items) (λ others. more.now ++ others)) }
{
    for name in more {
        names.push(name)?;
    }
    Ok(())
}

/// Adds the names in units.
fn add_units<'a>(units: &'a [Unit], names: &mut Vec<&'a OwnName>) -> Result<(), NoMemory>
    ensures { OnOk result (Gains (values_of names.old.items) (values_of names.new.items) (λ more. flat_map unit_names units.now ++ more)) }
{
    for unit in units {
        add_all(unit.over.as_slice(), names)?;
        add_all(unit.under.as_slice(), names)?;
    }
    Ok(())
}

/// Adds the names of a fact and of its members.
#[cycle(add)]
fn add_fact<'a>(fact: &'a Fact, names: &mut Vec<&'a OwnName>) -> Result<(), NoMemory>
    ensures { OnOk result (Gains (values_of names.old.items) (values_of names.new.items)
        (λ more. fact_names (before fact.now none) ++ more)) }
{
    match fact {
        Fact::Item(item) => {
            names.push(&item.name)?;
            Ok(())
        }
        Fact::Tuple(tuple) => {
            names.push(&tuple.name)?;
            add_facts(tuple.members.as_slice(), names)?;
            Ok(())
        }
    }
}

/// Adds the names of facts and of their members.
#[cycle(add)]
fn add_facts<'a>(facts: &'a [Fact], names: &mut Vec<&'a OwnName>) -> Result<(), NoMemory>
    ensures { OnOk result (Gains (values_of names.old.items) (values_of names.new.items)
        (λ more. fact_names (facts_of facts.now) ++ more)) }
{
    for fact in facts {
        add_fact(fact, names)?;
    }
    Ok(())
}

/// The names in a content, as often as they stand: those in contexts, then those in units, then those of facts.
pub fn names_in<'a>(alloc: Global, content: &'a Content) -> Result<Vec<&'a OwnName>, NoMemory>
    ensures { IfOk result (λ v. values_of v.items ≡ all_names (said_of content.now)) }
{
    let mut names = Vec::new(alloc);
    add_contexts(content.contexts.as_slice(), &mut names)?;
    add_units(content.units.as_slice(), &mut names)?;
    add_facts(content.facts.as_slice(), &mut names)?;
    Ok(names)
}
