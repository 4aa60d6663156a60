//! Contexts and units, and the items that name them.
ghost use Rattle.std.specs.Prelude.{◌≡◌, ◌&&◌, flat_map, map, IfOk};
ghost use Rattle.ix_base.specs.PlainContents.{said_of};
ghost use Rattle.proper_texts.specs.Model.{IsHeld};
ghost use Rattle.instance_lines.specs.Lists.{of_option};
ghost use Rattle.instance_out.specs.Proper as proper;
ghost use Rattle.instance_lines.specs.Tables.{values_of};

use crate::among::have_same;
use crate::gathered::names_of;
use ix_base::{Content, Item, NoMemory};
use proper_texts::Held;
use std::alloc::Global;

/// The contexts that items name.
fn contexts_named<'a>(alloc: Global, items: &[&'a Item]) -> Result<Vec<&'a str>, NoMemory>
    ensures { IfOk result (λ v. values_of v.items ≡ map (λ i. i.context) (values_of items.now)) }
{
    let mut ids = Vec::new(alloc);
    for item in items {
        ids.push(item.context.as_str())?;
    }
    Ok(ids)
}

/// The units that items name.
fn units_named<'a>(alloc: Global, items: &[&'a Item]) -> Result<Vec<&'a str>, NoMemory>
    ensures { IfOk result (λ v. values_of v.items ≡ flat_map (λ i. of_option i.unit) (values_of items.now)) }
{
    let mut ids = Vec::new(alloc);
    for item in items {
        if let Some(unit) = &item.unit {
            ids.push(unit.as_str())?;
        }
    }
    Ok(ids)
}

/// Whether contexts and units are those that items name. The cost of n items, contexts and units is that of sorts:
/// n log n comparisons.
#[tactic(auto, unfolding(instance_out::specs::Proper::parts_fit))]
pub(crate) fn parts_fit(alloc: Global, content: &Content, held: &Held) -> Result<bool, NoMemory>
    requires { IsHeld (said_of content.now) held.now }
    ensures { IfOk result (λ b. b ≡ proper.parts_fit (said_of content.now)) }
{
    let items = held.items.as_slice();
    let contexts = names_of(alloc, content.contexts.as_slice())?;
    let named = contexts_named(alloc, items)?;
    if !have_same(contexts, named) {
        return Ok(false);
    }
    let units = names_of(alloc, content.units.as_slice())?;
    let counted = units_named(alloc, items)?;
    Ok(have_same(units, counted))
}
