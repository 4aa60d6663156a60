//! Places that are kept.
ghost use Rattle.std.specs.Prelude.{◌≡◌, ◌&&◌, ◌++◌, ◌∷◌, [], ℕ, OnOk, IfOk, length};
ghost use Rattle.std.specs.List.{list_any};
ghost use Rattle.std.specs.Prelude.{◌||◌};
ghost use Rattle.ix_base.specs.Elements.{placed, place_of};
ghost use Rattle.ix_base.specs.LinkRules.{inner_along, is_at};
ghost use Rattle.ix_base.specs.LocatedElements.{located, offset_of};
ghost use Rattle.std.specs.Prelude.{filter};
ghost use Rattle.id_table.specs.Tables.{all_located};
ghost use Rattle.continuations.specs.Places.{HoldsMarked, holds};

use indexmap::IndexSet;
use ix_base::{NoMemory, Place, Spot};
use std::alloc::Global;

/// The places of elements.
pub(crate) type Places = IndexSet<(u32, u64)>;

/// Keeps the place of an element.
fn keep(places: &mut Places, spot: &Spot<'_>) -> Result<(), NoMemory>
    ensures { OnOk result ((page offset : ℕ) → holds places.new page offset
        ≡ (is_at page offset (located spot.now) || holds places.old page offset)) }
{
    let place = spot.element.place;
    places.insert((place.page, place.offset))?;
    Ok(())
}

/// Whether a place is kept.
fn is_kept(places: &Places, place: Place) -> bool
    ensures { result ≡ holds places.now place.page place.offset }
{
    let key = (place.page, place.offset);
    places.contains(&key)
}

/// Keeps the place of an element that is marked.
fn keep_if(places: &mut Places, spot: &Spot<'_>, is_marked: bool) -> Result<(), NoMemory>
    ensures { OnOk result ((page offset : ℕ) → holds places.new page offset
        ≡ (is_marked && is_at page offset (located spot.now) || holds places.old page offset)) }
{
    if is_marked {
        keep(places, spot)?;
    }
    Ok(())
}

/// The places of the elements that are marked.
pub(crate) fn marked_places(
    alloc: Global,
    spots: &[&Spot<'_>],
    marks: &[bool],
) -> Result<Places, NoMemory>
    requires { length marks.now ≡ length spots.now }
    ensures { IfOk result (λ p. HoldsMarked p (all_located spots.now) marks.now (length (all_located spots.now))) }
{
    let mut places = IndexSet::new(alloc);
    for (number, spot) in spots.iter().enumerate() {
        keep_if(&mut places, *spot, marks[number])?;
    }
    Ok(places)
}

/// Whether the place of an element is kept.
pub(crate) fn has_place(places: &Places, spot: &Spot<'_>) -> bool
    ensures { result ≡ holds places.now (located spot.now).page (offset_of (located spot.now)) }
{
    is_kept(places, spot.element.place)
}
