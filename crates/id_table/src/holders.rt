//! Tables from an id to the elements that have it.
ghost use Rattle.std.specs.Prelude.{◌≡◌, OnOk, OnErr, IfOk, option_map, length};
ghost use Rattle.ix_base.specs.Asks.{only};
ghost use Rattle.ix_base.specs.Ids.{tuple_id_of};
ghost use Rattle.ix_base.specs.LocatedElements.{located};
ghost use Rattle.id_table.specs.Tables.{Entered, SameSpots, is_shared, spots_at};

use ix_base::{NoMemory, Spot};
use link_ids::tuple_id_at;
use text_map::TextMap;

/// The elements with each id, in the order in which they were met.
pub type Holders<'a> = TextMap<'a, Vec<&'a Spot<'a>>>;

/// Enters an element at an id, where it has one. A refusal leaves the elements at each id as they were.
pub fn enter<'a>(
    holders: &mut Holders<'a>,
    id: Option<&'a str>,
    spot: &'a Spot<'a>,
) -> Result<(), NoMemory>
    ensures ok { OnOk result (Entered holders.old holders.new (option_map (λ s. s.now) id.entry) spot.entry) }
    ensures err { OnErr result (SameSpots holders.old holders.new) }
{
    if let Some(id) = id {
        holders.push_at(id, spot)?;
    }
    Ok(())
}

/// Enters a tuple at its tuple id, where an element has one. Says whether another has it, too.
pub fn enter_tuple<'a>(tuples: &mut Holders<'a>, spot: &'a Spot<'a>) -> Result<bool, NoMemory>
    ensures entered { OnOk result (Entered tuples.old tuples.new (tuple_id_of (located spot.entry.now)) spot.entry) }
    ensures shared { IfOk result (λ s. s ≡ is_shared (spots_at tuples.new) (tuple_id_of (located spot.entry.now))) }
{
    let Some(id) = tuple_id_at(spot) else {
        return Ok(false);
    };
    enter(tuples, Some(id), spot)?;
    Ok(count_in(tuples, id) > 1)
}

/// The one element at an id.
pub fn one_in<'a>(holders: &Holders<'a>, id: &str) -> Option<&'a Spot<'a>>
    ensures { result ≡ only (spots_at holders.now id.now) }
{
    match holders.get(id) {
        Some(spots) if spots.len() == 1 => Some(spots[0]),
        _ => None,
    }
}

/// How many elements are at an id.
pub fn count_in<'a>(holders: &Holders<'a>, id: &str) -> usize
    ensures { result ≡ length (spots_at holders.now id.now) }
{
    match holders.get(id) {
        Some(spots) => spots.len(),
        None => 0,
    }
}
