//! Facts with what tuples ask of them.
ghost use Rattle.std.specs.Prelude.{◌≡◌, true, option_map};
ghost use Rattle.ix_base.specs.LocatedElements as kinds;
ghost use Rattle.ix_base.specs.LocatedElements.{located};
ghost use Rattle.ix_base.specs.Membership.{order_of};
ghost use Rattle.ix_base.specs.Spots.{IsOnOnePage};
ghost use Rattle.tuples.specs.OrderNumbers.{is_order_number};

use ix_base::Spot;

/// A tuple that owns something, and the page on which it does.
#[derive(Clone, Copy)]
pub(crate) struct Owner<'a> {
    pub page: u32,
    pub spot: &'a Spot<'a>,
}

/// A fact, with its order and its owner.
#[derive(Clone, Copy)]
pub(crate) struct Fact<'a> {
    pub spot: &'a Spot<'a>,
    pub order: Option<&'a str>,
    pub owner: Option<Owner<'a>>,
    pub ghost on_page: { IsOnOnePage spot.now },
    pub ghost is_fact: { kinds.is_fact (located spot.now) ≡ true },
    pub ghost is_its: { option_map (λ s. s.now) order ≡ order_of (located spot.now) },
    pub ghost is_decimal: { is_order_number (option_map (λ s. s.now) order) ≡ true },
}
