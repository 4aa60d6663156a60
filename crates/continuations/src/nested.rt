//! Whether an element of a chain stands inside another one of it, chain by chain.
ghost use Rattle.std.specs.Prelude.{◌≡◌, ℕ, OnOk, IfOk, filter};
ghost use Rattle.std.specs.List.{list_any};
ghost use Rattle.std.specs.List.Sorted.{IsSorted};
ghost use Rattle.ix_base.specs.Chain as chains;
ghost use Rattle.ix_base.specs.LinkRules.{is_at, stands_inside};
ghost use Rattle.ix_base.specs.LocatedElements.{located, is_start as spec_is_start};
ghost use Rattle.id_table.specs.Model.{asked};
ghost use Rattle.id_table.specs.Slices.{is_key};
ghost use Rattle.id_table.specs.Tables.{all_located};
ghost use Rattle.continuations.specs.Links.{AreLinks};
ghost use Rattle.continuations.specs.Nesting.{is_around, is_nested, key_cmp};

use crate::links::Links;
use crate::trail::put_chain;
use id_table::Index;
use ix_base::{NoMemory, Spot};

/// So many elements are few.
const FEW: usize = 4;

/// The place of an element.
fn place_of(spot: &Spot<'_>) -> (u32, u64)
    ensures { (page offset : ℕ) → is_key page offset result ≡ is_at page offset (located spot.now) }
{
    let place = spot.element.place;
    (place.page, place.offset)
}

/// Puts the places of some elements, in order, in the place of what was there.
fn put_places(spots: &[&Spot<'_>], places: &mut Vec<(u32, u64)>) -> Result<(), NoMemory>
    ensures sorted { OnOk result (IsSorted key_cmp places.new.items) }
    ensures places { OnOk result ((page offset : ℕ) → list_any (is_key page offset) places.new.items
        ≡ list_any (is_at page offset) (all_located spots.now)) }
{
    places.clear();
    for spot in spots {
        places.push(place_of(spot))?;
    }
    places.sort_unstable();
    Ok(())
}

/// Whether a place is among these, by halving.
fn has_key(places: &[(u32, u64)], page: u32, offset: u64) -> bool
    requires { IsSorted key_cmp places.now }
    ensures { result ≡ list_any (is_key page offset) places.now }
{
    places.binary_search(&(page, offset)).is_ok()
}

/// Whether an element around this one is at one of these places.
fn stands_within(places: &[(u32, u64)], spot: &Spot<'_>) -> bool
    requires { IsSorted key_cmp places.now }
    ensures { result ≡ is_around places.now (located spot.now) }
{
    let page = spot.element.place.page;
    let mut up = spot.up;
    while let Some(around) = up {
        if has_key(places, page, around.element.place.offset) {
            return true;
        }
        up = around.up;
    }
    false
}

/// Whether one of these elements stands inside another one of them. The places are put where others were.
fn any_within(spots: &[&Spot<'_>], places: &mut Vec<(u32, u64)>) -> Result<bool, NoMemory>
    ensures { IfOk result (λ b. b ≡ is_nested (all_located spots.now)) }
{
    put_places(spots, places)?;
    for spot in spots {
        if stands_within(places.as_slice(), *spot) {
            return Ok(true);
        }
    }
    Ok(false)
}

/// Whether an element is at a place.
fn stands_at(spot: &Spot<'_>, page: u32, offset: u64) -> bool
    ensures { result ≡ is_at page offset (located spot.now) }
{
    let place = spot.element.place;
    page == place.page && offset == place.offset
}

/// Whether one of these elements is at a place.
fn is_any_at(spots: &[&Spot<'_>], page: u32, offset: u64) -> bool
    ensures { result ≡ list_any (is_at page offset) (all_located spots.now) }
{
    for spot in spots {
        if stands_at(*spot, page, offset) {
            return true;
        }
    }
    false
}

/// Whether an element around this one is at the place of one of these.
fn stands_among(spots: &[&Spot<'_>], spot: &Spot<'_>) -> bool
    ensures { result ≡ stands_inside (all_located spots.now) (located spot.now) }
{
    let page = spot.element.place.page;
    let mut up = spot.up;
    while let Some(around) = up {
        if is_any_at(spots, page, around.element.place.offset) {
            return true;
        }
        up = around.up;
    }
    false
}

/// Whether one of these elements stands inside another one of them, by comparing each with each.
fn any_among(spots: &[&Spot<'_>]) -> bool
    ensures { result ≡ is_nested (all_located spots.now) }
{
    for spot in spots {
        if stands_among(spots, *spot) {
            return true;
        }
    }
    false
}

/// Whether one of these elements stands inside another one of them. Few are compared as they are, without their places.
fn has_nested(spots: &[&Spot<'_>], places: &mut Vec<(u32, u64)>) -> Result<bool, NoMemory>
    ensures { IfOk result (λ b. b ≡ is_nested (all_located spots.now)) }
{
    if spots.len() <= FEW {
        return Ok(any_among(spots));
    }
    any_within(spots, places)
}

/// Whether an element of a chain stands inside another one of it. Where chains share no element, all of them together
/// are no longer than the elements are many.
pub(crate) fn any_nested<'a>(index: &Index<'a>, links: &Links<'a>) -> Result<bool, NoMemory>
    requires { AreLinks index.now.spots links.now }
    ensures { IfOk result (λ b. b
        ≡ list_any (λ s. is_nested (chains.chain (asked index.now) s)) (filter spec_is_start index.now.spots)) }
{
    let mut chain = Vec::new(links.alloc);
    let mut places = Vec::new(links.alloc);
    for number in links.continuations..links.spots.len() {
        put_chain(index, links, number, &mut chain)?;
        if has_nested(chain.as_slice(), &mut places)? {
            return Ok(true);
        }
    }
    Ok(false)
}
