//! Writing units.
ghost use Rattle.std.specs.Prelude.{◌≡◌, [], map, IfOk, OnOk};
ghost use Rattle.ix_base.specs.SortedLists.{sorted, text_cmp};
ghost use Rattle.ix_base.specs.WrittenMarkup.{node, nothing, written};
ghost use Rattle.std.specs.Ordering.{on};
ghost use Rattle.instance_lines.specs.Canonical.{line, measures_markup, ratio_markup, unit_markup};
ghost use Rattle.instance_lines.specs.Gains.{Gains};

use crate::markup::{Valued, push_close, push_element, push_start};
use crate::prefix::Prefixes;
use crate::sort::{Keyed, by_keys};
use ix_base::{NoMemory, OwnName, Text, Unit};
use std::alloc::Global;

/// Appends measures.
fn push_measures(
    alloc: Global,
    prefixes: &Prefixes<'_>,
    measures: &[OwnName],
    out: &mut Text,
) -> Result<(), NoMemory>
    ensures { OnOk result (Gains out.old out.new (written (measures_markup prefixes.now measures.now))) }
{
    for measure in measures {
        let name = prefixes.name(alloc, measure)?;
        push_element("xbrli:measure", &[], name.as_str(), out)?;
    }
    Ok(())
}

/// Appends measures in an element of this name.
fn push_measures_in(
    alloc: Global,
    prefixes: &Prefixes<'_>,
    name: &str,
    measures: &[OwnName],
    out: &mut Text,
) -> Result<(), NoMemory>
    ensures { OnOk result (Gains out.old out.new (written (node name.now [] (measures_markup prefixes.now measures.now) nothing))) }
{
    push_start(name, &[], out)?;
    push_measures(alloc, prefixes, measures, out)?;
    push_close(name, out)?;
    Ok(())
}

/// Appends the measures of a unit, those below under those above.
fn push_ratio(
    alloc: Global,
    prefixes: &Prefixes<'_>,
    unit: &Unit,
    out: &mut Text,
) -> Result<(), NoMemory>
    ensures { OnOk result (Gains out.old out.new (written (ratio_markup prefixes.now unit.now.over unit.now.under))) }
{
    let over = unit.over.as_slice();
    let under = unit.under.as_slice();
    match under {
        [] => {
            push_measures(alloc, prefixes, over, out)?;
            Ok(())
        }
        [_, ..] => {
            push_start("xbrli:divide", &[], out)?;
            push_measures_in(alloc, prefixes, "xbrli:unitNumerator", over, out)?;
            push_measures_in(alloc, prefixes, "xbrli:unitDenominator", under, out)?;
            push_close("xbrli:divide", out)?;
            Ok(())
        }
    }
}

/// The line of a unit.
fn unit_line(alloc: Global, prefixes: &Prefixes<'_>, unit: &Unit) -> Result<Text, NoMemory>
    ensures { IfOk result (λ t. t ≡ line (unit_markup prefixes.now unit.now)) }
{
    let id = [Valued {
        name: "id",
        value: Some(unit.id.as_str()),
    }];
    let mut out = Text::of(alloc, "")?;
    push_start("xbrli:unit", &id, &mut out)?;
    push_ratio(alloc, prefixes, unit, &mut out)?;
    push_close("xbrli:unit", &mut out)?;
    out.push("\n")?;
    Ok(out)
}

/// The lines of units, by id.
pub fn unit_lines(
    alloc: Global,
    prefixes: &Prefixes<'_>,
    units: &[Unit],
) -> Result<Vec<Text>, NoMemory>
    ensures { IfOk result (λ v. v.items ≡ map (λ x. line (unit_markup prefixes.now x)) (sorted (on (λ x. x.id) text_cmp) units.now)) }
{
    let mut keyed = Vec::new(alloc);
    for unit in units {
        let key = Text::of(alloc, unit.id.as_str())?;
        let item = unit_line(alloc, prefixes, unit)?;
        keyed.push(Keyed { key, item })?;
    }
    by_keys(alloc, keyed)
}
