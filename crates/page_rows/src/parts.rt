//! Contexts and units of pages, and their normal forms.
use crate::elements::first_child;
use crate::sound_pages::sound_root;
use anyhow::{Result, bail};
use bumpalo::Bump;
use ix_base::{Context, Dim, Member, OwnName, Period, Rule, Unit};
use row_tables::{owned, push_name};
use std::alloc::Global;
use xbrl_parts::{PartFault, context_of, unit_of};

/// Appends a name.
fn push_own_name(name: &OwnName, text: &mut String) -> Result<()> {
    push_name(text, name.ns.as_str(), name.local.as_str())
}

/// A member: its name, and its text in quotes.
fn push_member(member: &Member, text: &mut String) -> Result<()> {
    match member {
        Member::Explicit(name) => push_own_name(name, text)?,
        Member::Typed(name, value) => {
            push_own_name(name, text)?;
            write!(text, "'{}'", value.as_str())?;
        }
    }
    Ok(())
}

/// Dimensions, each as `NAME=NAME` and its text in quotes, with `;` behind it.
fn push_dims(dims: &[Dim], text: &mut String) -> Result<()> {
    for dim in dims {
        push_own_name(&dim.dimension, text)?;
        text.push_str("=")?;
        push_member(&dim.member, text)?;
        text.push_str(";")?;
    }
    Ok(())
}

/// A period: its moments are seconds from the start of 0001-01-01.
fn push_period(period: &Period, text: &mut String) -> Result<()> {
    match period {
        Period::Instant(end) => write!(text, "instant {end}")?,
        Period::Duration(start, end) => write!(text, "from {start} to {end}")?,
        Period::Forever => text.push_str("forever")?,
    }
    Ok(())
}

/// The id of a context, and whom it is about.
fn push_whom(context: &Context, text: &mut String) -> Result<()> {
    let (scheme, identifier) = (context.scheme.as_str(), context.identifier.as_str());
    write!(text, "{}|{scheme}|{identifier}", context.id.as_str())?;
    Ok(())
}

/// A part of a context.
fn push_part(context: &Context, part: &str, text: &mut String) -> Result<()> {
    match part {
        "whom" => push_whom(context, text),
        "period" => push_period(&context.period, text),
        "segment" => push_dims(context.segment.as_slice(), text),
        "scenario" => push_dims(context.scenario.as_slice(), text),
        _ => bail!("no such part"),
    }
}

/// The text of a part of a context.
fn part_of(alloc: Global, context: &Context, part: &str) -> Result<String> {
    let mut text = String::new(alloc);
    push_part(context, part, &mut text)?;
    Ok(text)
}

/// A part of the context that a page's first element is, or `none` where it has no normal form.
pub(crate) fn context(alloc: Global, arena: &Bump, part: &str, page: &str) -> Result<String> {
    let root = sound_root(alloc, arena, 0, page)?;
    match context_of(alloc, first_child(root)?) {
        Ok(context) => part_of(alloc, &context, part),
        Err(PartFault::Breach(Rule::N20)) => owned(alloc, "none"),
        Err(_) => bail!("another answer"),
    }
}

/// Names, each with `;` behind it.
fn push_names(names: &[OwnName], text: &mut String) -> Result<()> {
    for name in names {
        push_own_name(name, text)?;
        text.push_str(";")?;
    }
    Ok(())
}

/// The measures above and below of a unit, parted by `/`.
fn push_unit(unit: &Unit, text: &mut String) -> Result<()> {
    push_names(unit.over.as_slice(), text)?;
    text.push_str("/")?;
    push_names(unit.under.as_slice(), text)
}

/// The text of a unit.
fn measures_of(alloc: Global, unit: &Unit) -> Result<String> {
    let mut text = String::new(alloc);
    push_unit(unit, &mut text)?;
    Ok(text)
}

/// The measures above and below of the unit that a page's first element is, or `none` where it has no normal form.
pub(crate) fn unit(alloc: Global, arena: &Bump, page: &str) -> Result<String> {
    let root = sound_root(alloc, arena, 0, page)?;
    match unit_of(alloc, first_child(root)?) {
        Ok(unit) => measures_of(alloc, &unit),
        Err(PartFault::Breach(Rule::N21)) => owned(alloc, "none"),
        Err(_) => bail!("another answer"),
    }
}
