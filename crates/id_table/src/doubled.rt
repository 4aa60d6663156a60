//! The elements with an id that others have.
ghost use Rattle.std.specs.Prelude.{◌≡◌, ◌++◌, OnOk, OnErr, false, ◌&&◌, is_none};
ghost use Rattle.std.specs.Option.{option_map_or};
ghost use Rattle.ix_base.specs.Asks.{are_many};
ghost use Rattle.ix_base.specs.Ids as ids;
ghost use Rattle.ix_base.specs.LocatedElements.{located};
ghost use Rattle.id_table.specs.Model.{asked, chosen, doubled_at, repeats_held};

use crate::index::Index;
use ix_base::{Breaches, NoMemory, Rule, Spot};
use link_ids::{id_at, tuple_id_at};

/// Whether another element has the id, and nothing was chosen for it.
fn is_doubled(index: &Index<'_>, id: &str) -> bool
    ensures { result ≡ (are_many (asked index.now) (ids.holds_id id.now) && is_none (chosen index.now id.now)) }
{
    index.count(id) > 1 && !index.is_chosen(id)
}

fn repeats_own_id(index: &Index<'_>, spot: &Spot<'_>) -> bool
    ensures { result ≡ option_map_or (λ id. are_many (asked index.now) (ids.holds_id id) && is_none (chosen index.now id))
        (ids.id_of (located spot.now)) false }
{
    match id_at(spot) {
        Some(id) => is_doubled(index, id),
        None => false,
    }
}

fn repeats_tuple_id(index: &Index<'_>, spot: &Spot<'_>) -> bool
    ensures { result
        ≡ option_map_or (λ id. are_many (asked index.now) (ids.holds_tuple_id id)) (ids.tuple_id_of (located spot.now)) false }
{
    match tuple_id_at(spot) {
        Some(id) => index.count_tuples(id) > 1,
        None => false,
    }
}

/// Whether another element has the element's id without a choice for it, or another tuple its tuple id.
fn repeats_id(index: &Index<'_>, spot: &Spot<'_>) -> bool
    ensures { result ≡ repeats_held index.now (located spot.now) }
{
    repeats_own_id(index, spot) || repeats_tuple_id(index, spot)
}

/// Adds an element where another has its id and nothing was chosen for it, or another tuple its tuple id.
pub(crate) fn add_if_doubled(
    index: &Index<'_>,
    spot: &Spot<'_>,
    breaches: &mut Breaches,
) -> Result<(), NoMemory>
    ensures ok { OnOk result (breaches.new ≡ breaches.old ++ doubled_at index.now (located spot.now)) }
    ensures err { OnErr result (breaches.new ≡ breaches.old) }
{
    breaches.add_if(spot.element.place, Rule::L1, repeats_id(index, spot))
}
