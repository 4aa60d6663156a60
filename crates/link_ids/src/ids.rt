//! The ids by which elements are found, and those at which they go on or belong to a tuple. None takes memory.
ghost use Rattle.std.specs.Prelude.{◌≡◌, option_map};
ghost use Rattle.ix_base.specs.Chain.{continued_at as spec_continued_at};
ghost use Rattle.ix_base.specs.Ids as ids;
ghost use Rattle.ix_base.specs.LocatedElements.{located};
ghost use Rattle.ix_base.specs.Membership.{tuple_ref_of};

use ix_base::{Spot, is_tuple, may_go_on, token_at};

/// The id of an element.
pub fn id_at<'a>(spot: &Spot<'a>) -> Option<&'a str>
    ensures { option_map (λ s. s.now) result ≡ ids.id_of (located spot.now) }
{
    token_at(spot.element, "id")
}

/// The tuple id of a tuple.
pub fn tuple_id_at<'a>(spot: &Spot<'a>) -> Option<&'a str>
    ensures { option_map (λ s. s.now) result ≡ ids.tuple_id_of (located spot.now) }
{
    // Hardly an element has the attribute, and of those that have it the kind is asked.
    let id = token_at(spot.element, "tupleID")?;
    if is_tuple(spot) { Some(id) } else { None }
}

/// The tuple id to which an element refers.
pub fn tuple_ref<'a>(spot: &Spot<'a>) -> Option<&'a str>
    ensures { option_map (λ s. s.now) result ≡ tuple_ref_of (located spot.now) }
{
    token_at(spot.element, "tupleRef")
}

/// The id at which the text of an element goes on.
pub fn continued_at<'a>(spot: &Spot<'a>) -> Option<&'a str>
    ensures { option_map (λ s. s.now) result ≡ spec_continued_at (located spot.now) }
{
    // As with the tuple ids, the kind is asked only of those that have the attribute.
    let id = token_at(spot.element, "continuedAt")?;
    if may_go_on(spot) { Some(id) } else { None }
}
