//! Writing contexts.
ghost use Rattle.std.specs.Prelude.{◌≡◌, [], map, IfOk, OnOk, All};
ghost use Rattle.ix_base.specs.SortedLists.{sorted, text_cmp};
ghost use Rattle.ix_base.specs.WrittenMarkup.{written, nothing};
ghost use Rattle.std.specs.Ordering.{on};
ghost use Rattle.instance_lines.specs.Canonical.{around, context_markup, dim_markup, each_markup, line, period_markup, text_element};
ghost use Rattle.instance_lines.specs.Elements.{context_parts};
ghost use Rattle.instance_lines.specs.Gains.{Gains};
ghost use Rattle.instance_lines.specs.Writable.{IsTimely};

use crate::markup::{Valued, push_close, push_element, push_leaf, push_start};
use crate::moment::{end_of, start_of};
use crate::prefix::Prefixes;
use crate::sort::{Keyed, by_keys};
use ix_base::{Context, Dim, Member, NoMemory, Period, Text};
use std::alloc::Global;

/// Appends a dimension with its member.
fn push_dim(
    alloc: Global,
    prefixes: &Prefixes<'_>,
    dim: &Dim,
    out: &mut Text,
) -> Result<(), NoMemory>
    ensures { OnOk result (Gains out.old out.new (written (dim_markup prefixes.now dim.now nothing))) }
{
    let dimension = prefixes.name(alloc, &dim.dimension)?;
    let attributes = [Valued {
        name: "dimension",
        value: Some(dimension.as_str()),
    }];
    match &dim.member {
        Member::Explicit(name) => {
            let name = prefixes.name(alloc, name)?;
            push_element("xbrldi:explicitMember", &attributes, name.as_str(), out)?;
            Ok(())
        }
        Member::Typed(name, text) => {
            let name = prefixes.name(alloc, name)?;
            push_start("xbrldi:typedMember", &attributes, out)?;
            push_element(name.as_str(), &[], text.as_str(), out)?;
            push_close("xbrldi:typedMember", out)?;
            Ok(())
        }
    }
}

/// Appends dimensions.
fn push_dims(
    alloc: Global,
    prefixes: &Prefixes<'_>,
    dims: &[Dim],
    out: &mut Text,
) -> Result<(), NoMemory>
    ensures { OnOk result (Gains out.old out.new (written (each_markup (dim_markup prefixes.now) dims.now nothing))) }
{
    for dim in dims {
        push_dim(alloc, prefixes, dim, out)?;
    }
    Ok(())
}

/// Appends dimensions in an element of this name, if there are any.
fn push_around(
    alloc: Global,
    prefixes: &Prefixes<'_>,
    name: &str,
    dims: &[Dim],
    out: &mut Text,
) -> Result<(), NoMemory>
    ensures { OnOk result (Gains out.old out.new (written (around name.now (dim_markup prefixes.now) dims.now nothing))) }
{
    match dims {
        [] => Ok(()),
        [_, ..] => {
            push_start(name, &[], out)?;
            push_dims(alloc, prefixes, dims, out)?;
            push_close(name, out)?;
            Ok(())
        }
    }
}

/// Appends a moment in an element of this name.
fn push_moment(name: &str, moment: Text, out: &mut Text) -> Result<(), NoMemory>
    ensures { OnOk result (Gains out.old out.new (written (text_element name.now [] moment nothing))) }
{
    push_element(name, &[], moment.as_str(), out)?;
    Ok(())
}

/// Appends what a period says.
fn push_period(alloc: Global, period: &Period, out: &mut Text) -> Result<(), NoMemory>
    requires { IsTimely period.now }
    ensures { OnOk result (Gains out.old out.new (written (period_markup period.now))) }
{
    match period {
        Period::Instant(end) => {
            let end = end_of(alloc, *end)?;
            push_moment("xbrli:instant", end, out)?;
            Ok(())
        }
        Period::Duration(start, end) => {
            let start = start_of(alloc, *start)?;
            push_moment("xbrli:startDate", start, out)?;
            let end = end_of(alloc, *end)?;
            push_moment("xbrli:endDate", end, out)?;
            Ok(())
        }
        Period::Forever => {
            push_leaf("xbrli:forever", &[], out)?;
            Ok(())
        }
    }
}

/// Appends what stands in a context.
fn push_parts(
    alloc: Global,
    prefixes: &Prefixes<'_>,
    context: &Context,
    out: &mut Text,
) -> Result<(), NoMemory>
    requires { IsTimely context.now.period }
    ensures { OnOk result (Gains out.old out.new (written (context_parts prefixes.now context.now))) }
{
    let scheme = [Valued {
        name: "scheme",
        value: Some(context.scheme.as_str()),
    }];
    push_start("xbrli:entity", &[], out)?;
    push_element(
        "xbrli:identifier",
        &scheme,
        context.identifier.as_str(),
        out,
    )?;
    push_around(
        alloc,
        prefixes,
        "xbrli:segment",
        context.segment.as_slice(),
        out,
    )?;
    push_close("xbrli:entity", out)?;
    push_start("xbrli:period", &[], out)?;
    push_period(alloc, &context.period, out)?;
    push_close("xbrli:period", out)?;
    push_around(
        alloc,
        prefixes,
        "xbrli:scenario",
        context.scenario.as_slice(),
        out,
    )?;
    Ok(())
}

/// The line of a context.
fn context_line(alloc: Global, prefixes: &Prefixes<'_>, context: &Context) -> Result<Text, NoMemory>
    requires { IsTimely context.now.period }
    ensures { IfOk result (λ t. t ≡ line (context_markup prefixes.now context.now)) }
{
    let id = [Valued {
        name: "id",
        value: Some(context.id.as_str()),
    }];
    let mut out = Text::of(alloc, "")?;
    push_start("xbrli:context", &id, &mut out)?;
    push_parts(alloc, prefixes, context, &mut out)?;
    push_close("xbrli:context", &mut out)?;
    out.push("\n")?;
    Ok(out)
}

/// The lines of contexts, by id.
pub fn context_lines(
    alloc: Global,
    prefixes: &Prefixes<'_>,
    contexts: &[Context],
) -> Result<Vec<Text>, NoMemory>
    requires { All (λ x. IsTimely x.period) contexts.now }
    ensures { IfOk result (λ v. v.items ≡ map (λ x. line (context_markup prefixes.now x)) (sorted (on (λ x. x.id) text_cmp) contexts.now)) }
{
    let mut keyed = Vec::new(alloc);
    for context in contexts {
        let key = Text::of(alloc, context.id.as_str())?;
        let item = context_line(alloc, prefixes, context)?;
        keyed.push(Keyed { key, item })?;
    }
    by_keys(alloc, keyed)
}
