//! What elements are for links and facts, by their kinds. No test takes memory.
ghost use Rattle.std.specs.Prelude.{◌≡◌};
ghost use Rattle.ix_base.specs.LocatedElements as located_elements;
ghost use Rattle.ix_base.specs.LocatedElements.{located};

use crate::kind::{Kind, kind_of};
use crate::tree::Spot;

/// Whether an element is an item: a fact that has a value.
pub fn is_item(spot: &Spot<'_>) -> bool
    ensures { result ≡ located_elements.is_item (located spot.now) }
{
    matches!(
        kind_of(spot),
        Kind::NonNumeric | Kind::NonFraction | Kind::Fraction
    )
}

/// Whether an element is a tuple: a fact that has facts.
pub fn is_tuple(spot: &Spot<'_>) -> bool
    ensures { result ≡ located_elements.is_tuple (located spot.now) }
{
    kind_of(spot) == Kind::Tuple
}

/// Whether an element is a fact: an item or a tuple.
pub fn is_fact(spot: &Spot<'_>) -> bool
    ensures { result ≡ located_elements.is_fact (located spot.now) }
{
    kind_of(spot).is_fact()
}

/// Whether an element is an item that has a unit: a number or a fraction.
pub fn has_unit(spot: &Spot<'_>) -> bool
    ensures { result ≡ located_elements.has_unit (located spot.now) }
{
    matches!(kind_of(spot), Kind::NonFraction | Kind::Fraction)
}

/// Whether a chain begins with an element.
pub fn is_start(spot: &Spot<'_>) -> bool
    ensures { result ≡ located_elements.is_start (located spot.now) }
{
    matches!(kind_of(spot), Kind::NonNumeric | Kind::Footnote)
}

/// Whether the text of another element goes on at an element.
pub fn is_continuation(spot: &Spot<'_>) -> bool
    ensures { result ≡ located_elements.is_continuation (located spot.now) }
{
    kind_of(spot) == Kind::Continuation
}

/// Whether the text of an element may go on at another.
pub fn may_go_on(spot: &Spot<'_>) -> bool
    ensures { result ≡ located_elements.may_go_on (located spot.now) }
{
    matches!(
        kind_of(spot),
        Kind::NonNumeric | Kind::Footnote | Kind::Continuation
    )
}
