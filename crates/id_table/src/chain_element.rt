//! Elements of chains, with the ids by which they are linked.
ghost use Rattle.std.specs.Prelude.{◌≡◌, option_map};
ghost use Rattle.ix_base.specs.Chain.{continued_at as spec_continued_at};
ghost use Rattle.ix_base.specs.Ids.{id_of};
ghost use Rattle.ix_base.specs.LocatedElements.{located};

use ix_base::Spot;
use link_ids::{continued_at as id_continued_at, id_at};

/// An element of a chain, with its ids, so that whoever follows a chain needn't look at the element itself.
#[derive(Clone, Copy)]
pub struct ChainElement<'a> {
    pub spot: &'a Spot<'a>,
    /// The id at which it goes on.
    pub continued_at: Option<&'a str>,
    /// Its own id.
    pub id: Option<&'a str>,
    pub ghost goes_on: { option_map (λ s. s.now) continued_at ≡ spec_continued_at (located spot.now) },
    pub ghost has_id: { option_map (λ s. s.now) id ≡ id_of (located spot.now) },
}

/// An element of a chain. It is asked for its ids.
pub(crate) fn chain_element<'a>(spot: &'a Spot<'a>) -> ChainElement<'a>
    ensures { result.spot ≡ spot.entry }
{
    ChainElement {
        spot,
        continued_at: id_continued_at(spot),
        id: id_at(spot),
    }
}
