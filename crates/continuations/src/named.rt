//! The rules on the ids at which elements go on.
ghost use Rattle.std.specs.Prelude.{◌≡◌, ◌++◌, OnOk, OnErr, IfOk};
ghost use Rattle.ix_base.specs.Fronts.{AppendsFront};
ghost use Rattle.ix_base.specs.declared.rule.Rule.TheVariants.{L4, L5};
ghost use Rattle.ix_base.specs.LinkRules as rules_of;
ghost use Rattle.ix_base.specs.LinkRules.{breaking, broken_at};
ghost use Rattle.ix_base.specs.LocatedElements.{located};
ghost use Rattle.id_table.specs.Model.{asked};
ghost use Rattle.continuations.specs.Links.{AreLinks};
ghost use Rattle.continuations.specs.ChainReach.{AreNamers};

use crate::links::Links;
use crate::walk::continuation;
use id_table::{Holders, Index, count_in, enter};
use ix_base::{Breaches, NoMemory, Rule, Spot, is_continuation};
use link_ids::{continued_at, id_at};
use std::alloc::Global;

/// Whether the element goes on at an id that isn't the one id of a continuation.
fn lacks_continuation(index: &Index<'_>, spot: &Spot<'_>) -> bool
    ensures { result ≡ rules_of.lacks_continuation (asked index.now) (located spot.now) }
{
    match continued_at(spot) {
        Some(id) => continuation(index, id).is_none(),
        None => false,
    }
}

/// Adds an element that goes on where no continuation is.
fn add_if_lacking(
    index: &Index<'_>,
    spot: &Spot<'_>,
    breaches: &mut Breaches,
) -> Result<(), NoMemory>
    ensures ok { OnOk result (breaches.new ≡ breaches.old ++ broken_at (asked index.now) L4 (located spot.now)) }
    ensures err { OnErr result (breaches.new ≡ breaches.old) }
{
    breaches.add_if(
        spot.element.place,
        Rule::L4,
        lacks_continuation(index, spot),
    )
}

/// Adds exactly the elements that go on where no continuation is.
fn add_all_lacking(index: &Index<'_>, breaches: &mut Breaches) -> Result<(), NoMemory>
    ensures ok { OnOk result (breaches.new ≡ breaches.old ++ breaking L4 index.now.spots) }
    ensures err { OnErr result (AppendsFront (breaking L4 index.now.spots) breaches.old breaches.new) }
{
    for spot in index.spots() {
        add_if_lacking(index, spot, breaches)?;
    }
    Ok(())
}

/// Adds exactly the elements that go on where no continuation is, if there is one.
pub(crate) fn add_lacking<'a>(
    index: &Index<'a>,
    links: &Links<'a>,
    breaches: &mut Breaches,
) -> Result<(), NoMemory>
    requires { AreLinks index.now.spots links.now }
    ensures ok { OnOk result (breaches.new ≡ breaches.old ++ breaking L4 index.now.spots) }
    ensures err { OnErr result (AppendsFront (breaking L4 index.now.spots) breaches.old breaches.new) }
{
    if !links.lacks {
        return Ok(());
    }
    add_all_lacking(index, breaches)
}

/// For each id the elements that go on at it.
fn namers_of<'a>(alloc: Global, index: &Index<'a>) -> Result<Holders<'a>, NoMemory>
    ensures { IfOk result (λ m. AreNamers m (asked index.now)) }
{
    let mut namers = Holders::new(alloc);
    for spot in index.spots() {
        enter(&mut namers, continued_at(spot), *spot)?;
    }
    Ok(namers)
}

/// Whether two or more elements go on at the id of a continuation.
fn is_named_twice(index: &Index<'_>, namers: &Holders<'_>, spot: &Spot<'_>) -> bool
    requires { AreNamers namers.now (asked index.now) }
    ensures { result ≡ rules_of.is_named_twice (asked index.now) (located spot.now) }
{
    match id_at(spot) {
        Some(id) => is_continuation(spot) && count_in(namers, id) > 1,
        None => false,
    }
}

/// Adds a continuation at which two or more elements go on.
fn add_if_named_twice(
    index: &Index<'_>,
    namers: &Holders<'_>,
    spot: &Spot<'_>,
    breaches: &mut Breaches,
) -> Result<(), NoMemory>
    requires { AreNamers namers.now (asked index.now) }
    ensures ok { OnOk result (breaches.new ≡ breaches.old ++ broken_at (asked index.now) L5 (located spot.now)) }
    ensures err { OnErr result (breaches.new ≡ breaches.old) }
{
    breaches.add_if(
        spot.element.place,
        Rule::L5,
        is_named_twice(index, namers, spot),
    )
}

/// Adds exactly the continuations at which two or more elements go on, by a table of those that do.
fn add_all_named_twice(
    index: &Index<'_>,
    namers: &Holders<'_>,
    breaches: &mut Breaches,
) -> Result<(), NoMemory>
    requires { AreNamers namers.now (asked index.now) }
    ensures ok { OnOk result (breaches.new ≡ breaches.old ++ breaking L5 index.now.spots) }
    ensures err { OnErr result (AppendsFront (breaking L5 index.now.spots) breaches.old breaches.new) }
{
    for spot in index.spots() {
        add_if_named_twice(index, namers, spot, breaches)?;
    }
    Ok(())
}

/// Adds exactly the continuations at which two or more elements go on. Where each element that goes on does so at a
/// continuation of its own, there is none.
pub(crate) fn add_named_twice<'a>(
    index: &Index<'a>,
    links: &Links<'a>,
    breaches: &mut Breaches,
) -> Result<(), NoMemory>
    requires { AreLinks index.now.spots links.now }
    ensures ok { OnOk result (breaches.new ≡ breaches.old ++ breaking L5 index.now.spots) }
    ensures err { OnErr result (AppendsFront (breaking L5 index.now.spots) breaches.old breaches.new) }
{
    if !links.lacks && !links.joins {
        return Ok(());
    }
    let namers = namers_of(links.alloc, index)?;
    add_all_named_twice(index, &namers, breaches)
}
