//! The rules on what chains reach, and on what of it stands inside another element of its chain.
ghost use Rattle.std.specs.Prelude.{◌≡◌, ◌++◌, OnOk, OnErr};
ghost use Rattle.ix_base.specs.Fronts.{AppendsFront};
ghost use Rattle.ix_base.specs.declared.rule.Rule.TheVariants.{L6, L7};
ghost use Rattle.ix_base.specs.LinkRules as rules_of;
ghost use Rattle.ix_base.specs.LinkRules.{breaking, broken_at};
ghost use Rattle.ix_base.specs.LocatedElements.{located};
ghost use Rattle.id_table.specs.Model.{asked};
ghost use Rattle.continuations.specs.Links.{AreLinks};
ghost use Rattle.continuations.specs.Places.{StandsFor};
ghost use Rattle.continuations.specs.ChainReach.{inner_by, most_of, reached_by};

use crate::links::Links;
use crate::marks::{are_marked, reached_from};
use crate::nested::any_nested;
use crate::places::{Places, has_place};
use crate::seen::{inner_places, reached_places};
use id_table::Index;
use ix_base::{Breaches, NoMemory, Rule, Spot, is_continuation};

/// Whether the element is in a chain.
fn is_reached(index: &Index<'_>, reached: &Places, spot: &Spot<'_>) -> bool
    requires { StandsFor reached.now (reached_by (asked index.now) (most_of (asked index.now)) index.now.spots) }
    ensures { result ≡ rules_of.are_some (asked index.now) (rules_of.is_reached_from (asked index.now) (located spot.now)) }
{
    has_place(reached, spot)
}

/// Adds a continuation that is in no chain.
fn add_if_unreached(
    index: &Index<'_>,
    reached: &Places,
    spot: &Spot<'_>,
    breaches: &mut Breaches,
) -> Result<(), NoMemory>
    requires { StandsFor reached.now (reached_by (asked index.now) (most_of (asked index.now)) index.now.spots) }
    ensures ok { OnOk result (breaches.new ≡ breaches.old ++ broken_at (asked index.now) L6 (located spot.now)) }
    ensures err { OnErr result (breaches.new ≡ breaches.old) }
{
    let is_broken = is_continuation(spot) && !is_reached(index, reached, spot);
    breaches.add_if(spot.element.place, Rule::L6, is_broken)
}

/// Adds exactly the continuations that are in no chain, by the places of what is in one.
fn add_all_unreached(
    index: &Index<'_>,
    reached: &Places,
    breaches: &mut Breaches,
) -> Result<(), NoMemory>
    requires { StandsFor reached.now (reached_by (asked index.now) (most_of (asked index.now)) index.now.spots) }
    ensures ok { OnOk result (breaches.new ≡ breaches.old ++ breaking L6 index.now.spots) }
    ensures err { OnErr result (AppendsFront (breaking L6 index.now.spots) breaches.old breaches.new) }
{
    for spot in index.spots() {
        add_if_unreached(index, reached, spot, breaches)?;
    }
    Ok(())
}

/// Adds exactly the continuations that are in no chain. Where walks from the elements with which chains begin reach each
/// continuation, there is none.
pub(crate) fn add_unreached<'a>(
    index: &Index<'a>,
    links: &Links<'a>,
    breaches: &mut Breaches,
) -> Result<(), NoMemory>
    requires { AreLinks index.now.spots links.now }
    ensures ok { OnOk result (breaches.new ≡ breaches.old ++ breaking L6 index.now.spots) }
    ensures err { OnErr result (AppendsFront (breaking L6 index.now.spots) breaches.old breaches.new) }
{
    let marks = reached_from(links.alloc, links.nexts.as_slice(), links.continuations)?;
    if are_marked(marks.as_slice(), links.continuations) {
        return Ok(());
    }
    let reached = reached_places(index, links, marks.as_slice())?;
    add_all_unreached(index, &reached, breaches)
}

/// Whether an element of a chain stands inside another one of it.
fn is_inside(index: &Index<'_>, inner: &Places, spot: &Spot<'_>) -> bool
    requires { StandsFor inner.now (inner_by (asked index.now) (most_of (asked index.now)) index.now.spots) }
    ensures { result ≡ rules_of.is_inside_chain (asked index.now) (located spot.now) }
{
    has_place(inner, spot)
}

/// Adds an element of a chain that stands inside another one of it.
fn add_if_inside(
    index: &Index<'_>,
    inner: &Places,
    spot: &Spot<'_>,
    breaches: &mut Breaches,
) -> Result<(), NoMemory>
    requires { StandsFor inner.now (inner_by (asked index.now) (most_of (asked index.now)) index.now.spots) }
    ensures ok { OnOk result (breaches.new ≡ breaches.old ++ broken_at (asked index.now) L7 (located spot.now)) }
    ensures err { OnErr result (breaches.new ≡ breaches.old) }
{
    breaches.add_if(spot.element.place, Rule::L7, is_inside(index, inner, spot))
}

/// Adds exactly the elements of chains that stand inside another element of their chain, by the places of these.
fn add_all_inside(
    index: &Index<'_>,
    inner: &Places,
    breaches: &mut Breaches,
) -> Result<(), NoMemory>
    requires { StandsFor inner.now (inner_by (asked index.now) (most_of (asked index.now)) index.now.spots) }
    ensures ok { OnOk result (breaches.new ≡ breaches.old ++ breaking L7 index.now.spots) }
    ensures err { OnErr result (AppendsFront (breaking L7 index.now.spots) breaches.old breaches.new) }
{
    for spot in index.spots() {
        add_if_inside(index, inner, spot, breaches)?;
    }
    Ok(())
}

/// Adds exactly the elements of chains that stand inside another element of their chain. Where chains share no element,
/// they are looked through one by one, and nothing more is done where none has such an element.
pub(crate) fn add_inside<'a>(
    index: &Index<'a>,
    links: &Links<'a>,
    breaches: &mut Breaches,
) -> Result<(), NoMemory>
    requires { AreLinks index.now.spots links.now }
    ensures ok { OnOk result (breaches.new ≡ breaches.old ++ breaking L7 index.now.spots) }
    ensures err { OnErr result (AppendsFront (breaking L7 index.now.spots) breaches.old breaches.new) }
{
    if !links.joins && !any_nested(index, links)? {
        return Ok(());
    }
    let inner = inner_places(index, links)?;
    add_all_inside(index, &inner, breaches)
}
