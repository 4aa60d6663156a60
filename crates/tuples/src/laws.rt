//! A law of the members of tuples.
ghost use Rattle.std.specs.Prelude.{◌≡◌, [], List};
ghost use Rattle.ix_base.specs.LinkRules.{breaking};
ghost use Rattle.ix_base.specs.LocatedElements.{Located};
ghost use Rattle.ix_base.specs.Membership.{members};
ghost use Rattle.ix_base.specs.declared.rule.Rule.TheVariants.{L12, L13};
ghost use Rattle.tuples.specs.StrictOrder.{RiseStrictly};

/// Where a set breaks neither of the rules on orders, each member of a tuple has one, also one that is alone, and no two
/// members of a tuple have equal orders. The other rules on tuples add nothing to that.
pub fn members_rise()
    ensures { (es : List Located) → breaking L12 es ≡ [] → breaking L13 es ≡ [] → (t : Located) → RiseStrictly (members es t) }
{}
