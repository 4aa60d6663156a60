//! The normal forms of contexts and units.
ghost use Rattle.std.specs.Prelude.{◌≡◌};
ghost use Rattle.std.specs.List.{list_all};
ghost use Rattle.ix_base.specs.PlainContents.{said_of};
ghost use Rattle.instance_out.specs.Proper as proper;

use crate::order::{dims_rise, names_never_fall};
use ix_base::{Content, Context, Dim, Period, Unit};

/// When the last day of the year 9999 ends, in seconds from the start of 0001-01-01.
const LAST_MOMENT: i64 = 315_537_897_600;

/// Whether a period lies in the years 1 to 9999, and ends later than it starts.
fn is_normal_period(period: &Period) -> bool
    ensures { result ≡ proper.is_normal_period period.now }
{
    match *period {
        Period::Instant(end) => 0 < end && end <= LAST_MOMENT,
        Period::Duration(start, end) => 0 <= start && start < end && end <= LAST_MOMENT,
        Period::Forever => true,
    }
}

/// Whether dimensions are in order, and none stands twice.
#[tactic(auto, using(crate::proofs::ListLaws::dims_once))]
fn are_normal_dims(dims: &[Dim]) -> bool
    ensures { result ≡ proper.are_normal_dims dims.now }
{
    dims_rise(dims)
}

fn is_normal_context(context: &Context) -> bool
    ensures { result ≡ proper.is_normal_context context.now }
{
    is_normal_period(&context.period)
        && are_normal_dims(context.segment.as_slice())
        && are_normal_dims(context.scenario.as_slice())
}

fn is_normal_unit(unit: &Unit) -> bool
    ensures { result ≡ proper.is_normal_unit unit.now }
{
    let over = unit.over.as_slice();
    !over.is_empty() && names_never_fall(over) && names_never_fall(unit.under.as_slice())
}

fn are_normal_contexts(contexts: &[Context]) -> bool
    ensures { result ≡ list_all proper.is_normal_context contexts.now }
{
    contexts.iter().all(|context| is_normal_context(context))
}

fn are_normal_units(units: &[Unit]) -> bool
    ensures { result ≡ list_all proper.is_normal_unit units.now }
{
    units.iter().all(|unit| is_normal_unit(unit))
}

/// Whether periods, dimensions and units are of their normal forms.
#[tactic(auto, unfolding(instance_out::specs::Proper::forms_fit))]
pub(crate) fn forms_fit(content: &Content) -> bool
    ensures { result ≡ proper.forms_fit (said_of content.now) }
{
    are_normal_contexts(content.contexts.as_slice()) && are_normal_units(content.units.as_slice())
}
