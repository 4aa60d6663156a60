//! Which tuple owns a fact.
ghost use Rattle.std.specs.Prelude.{◌≡◌, All, IfSome, option_map};
ghost use Rattle.ix_base.specs.Elements.{placed, path_above};
ghost use Rattle.ix_base.specs.Ids as ids;
ghost use Rattle.ix_base.specs.LocatedElements.{located, on_page, offset_of};
ghost use Rattle.ix_base.specs.Membership as member;
ghost use Rattle.ix_base.specs.Spots.{IsOn, IsOnOnePage};
ghost use Rattle.id_table.specs.Model.{asked};
ghost use Rattle.id_table.specs.Tables.{elements_above};
ghost use Rattle.tuples.specs.OwnedFacts.{owner_seen};

use crate::fact::Owner;
use id_table::Index;
use ix_base::{Spot, is_tuple};
use link_ids::tuple_ref;

/// The place of an owner.
pub(crate) fn place_of(owner: Owner<'_>) -> (u32, u64)
    ensures page { result.0 ≡ (owner_seen owner.entry).page }
    ensures offset { result.1 ≡ offset_of (owner_seen owner.entry) }
{
    (owner.page, owner.spot.element.place.offset)
}

/// The nearest tuple from an element up, on a page.
pub(crate) fn nearest_tuple<'a>(page: u32, up: Option<&'a Spot<'a>>) -> Option<Owner<'a>>
    ensures owner { option_map owner_seen result ≡ member.nearest_tuple page (path_above up.entry) }

    // Where all above is of that page, so are the tuple and all above it.
    ensures located { All (IsOn page) (elements_above up.entry) → IfSome result (λ o. located o.spot.now ≡ owner_seen o) }
    ensures page { All (IsOn page) (elements_above up.entry) → IfSome result (λ o. IsOnOnePage o.spot.now) }
{
    let mut at = up;
    while let Some(around) = at {
        if is_tuple(around) {
            return Some(Owner { page, spot: around });
        }
        at = around.up;
    }
    None
}

/// The one tuple with the tuple id.
fn one_tuple<'a>(index: &Index<'a>, id: &str) -> Option<Owner<'a>>
    ensures { option_map owner_seen result ≡ ids.one_tuple (asked index.now) id.now }
{
    let entry = index.one_tuple(id)?;
    Some(Owner {
        page: entry.spot.element.place.page,
        spot: entry.spot,
    })
}

/// The owner of an element of this page.
pub(crate) fn owner_on<'a>(index: &Index<'a>, page: u32, spot: &Spot<'a>) -> Option<Owner<'a>>
    ensures { option_map owner_seen result ≡ member.owner (asked index.now) (on_page page (placed spot.now)) }
{
    match tuple_ref(spot) {
        Some(id) => one_tuple(index, id),
        None => nearest_tuple(page, spot.up),
    }
}

/// The owner of a fact.
pub(crate) fn owner_of<'a>(index: &Index<'a>, spot: &Spot<'a>) -> Option<Owner<'a>>
    ensures { option_map owner_seen result ≡ member.owner (asked index.now) (located spot.now) }
{
    owner_on(index, spot.element.place.page, spot)
}
