//! What the references of a set refer to.
ghost use Rattle.std.specs.Prelude.{◌≡◌, ◌<◌, length, map, IfOk};
ghost use Rattle.ix_base.specs.LocatedElements.{base_in, located};
ghost use Rattle.ix_base.specs.LinkRules as rules;
ghost use Rattle.id_table.specs.Tables.{all_located};
ghost use Rattle.target_contents.specs.Contents as contents;
ghost use Rattle.target_contents.specs.Visits.{AreOnPages};

use crate::addresses::{address_of, link_token};
use ix_base::{Linkbase, List, NoMemory, Spot, Text};
use scopes::Bases;
use std::alloc::Global;

/// The addresses of references.
pub(crate) fn addresses_at(
    alloc: Global,
    bases: &Bases,
    spots: &[&Spot<'_>],
) -> Result<List<Text>, NoMemory>
    requires { AreOnPages bases.now.pages spots.now }
    ensures { IfOk result (λ l. l ≡ map (rules.address_of (base_in bases.now.pages)) (all_located spots.now)) }
{
    let mut addresses = List::new(alloc);
    for spot in spots {
        addresses.push(address_of(alloc, bases, spot)?)?;
    }
    Ok(addresses)
}

/// A text that is owned, unless it is empty.
fn own_unless_empty(alloc: Global, text: &str) -> Result<Option<Text>, NoMemory>
    ensures { IfOk result (λ o. o ≡ contents.if_any text.now) }
{
    if text.is_empty() {
        return Ok(None);
    }
    Ok(Some(Text::of(alloc, text)?))
}

/// What a linkbaseRef refers to.
fn linkbase_of(alloc: Global, bases: &Bases, spot: &Spot<'_>) -> Result<Linkbase, NoMemory>
    requires { (located spot.now).page < length bases.now.pages }
    ensures { IfOk result (λ l. l ≡ contents.linkbase_at (base_in bases.now.pages) (located spot.now)) }
{
    Ok(Linkbase {
        href: address_of(alloc, bases, spot)?,
        role: own_unless_empty(alloc, link_token(spot.element, "role"))?,
    })
}

/// What linkbaseRefs refer to.
pub(crate) fn linkbases_at(
    alloc: Global,
    bases: &Bases,
    spots: &[&Spot<'_>],
) -> Result<List<Linkbase>, NoMemory>
    requires { AreOnPages bases.now.pages spots.now }
    ensures { IfOk result (λ l. l ≡ map (contents.linkbase_at (base_in bases.now.pages)) (all_located spots.now)) }
{
    let mut linkbases = List::new(alloc);
    for spot in spots {
        linkbases.push(linkbase_of(alloc, bases, spot)?)?;
    }
    Ok(linkbases)
}
