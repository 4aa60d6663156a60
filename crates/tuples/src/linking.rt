//! The rules on tuples, and the members of a set.
ghost use Rattle.std.specs.Prelude.{◌≡◌, ◌++◌, ℕ, [], All, IfOk, OnErr, OnOk, filter, true};
ghost use Rattle.std.specs.Option.{option_map_or};
ghost use Rattle.ix_base.specs.Fronts.{AppendsFront};
ghost use Rattle.ix_base.specs.declared.rule.Rule.TheVariants.{L8, L9, L10, L12, L13};
ghost use Rattle.ix_base.specs.LinkRules.{breaking};
ghost use Rattle.ix_base.specs.LocatedElements.{is_fact};
ghost use Rattle.id_table.specs.Model.{asked};
ghost use Rattle.id_table.specs.Slices.{slice_at};
ghost use Rattle.tuples.specs.OrderNumbers.{fits};
ghost use Rattle.tuples.specs.MemberTables.{members_at, AreGrouped};
ghost use Rattle.tuples.specs.Model.{AreMembersOf};
ghost use Rattle.tuples.specs.OwnedFacts.{all_seen, IsKnown};

use crate::fact::Fact;
use crate::facts::facts_of;
use crate::groups::{Groups, members_of};
use crate::members::{Members, kept};
use crate::rules::{Test, add_broken};
use crate::slices::slices_of;
use bumpalo::Bump;
use id_table::{Index, Slices};
use ix_base::{Breaches, NoMemory};
use std::alloc::Global;

/// Adds exactly the breaches of the rules on tuples.
fn add_breaches<'a>(
    index: &Index<'a>,
    groups: &Groups<'a>,
    facts: &[Fact<'a>],
    breaches: &mut Breaches,
) -> Result<(), NoMemory>
    requires groups { AreGrouped groups.now index.now.spots }
    requires seen { all_seen facts.now ≡ filter is_fact index.now.spots }
    requires known { All (IsKnown (asked index.now)) facts.now }
    ensures ok { OnOk result (breaches.new ≡ breaches.old ++ breaking L8 index.now.spots ++ breaking L9 index.now.spots
        ++ breaking L10 index.now.spots ++ breaking L12 index.now.spots ++ breaking L13 index.now.spots) }
    ensures err { OnErr result (AppendsFront (breaking L8 index.now.spots ++ breaking L9 index.now.spots
        ++ breaking L10 index.now.spots ++ breaking L12 index.now.spots ++ breaking L13 index.now.spots) breaches.old breaches.new) }
{
    add_broken(index, groups, facts, Test::Lacking, breaches)?;
    add_broken(index, groups, facts, Test::Deep, breaches)?;
    add_broken(index, groups, facts, Test::Leaving, breaches)?;
    add_broken(index, groups, facts, Test::Repeating, breaches)?;
    add_broken(index, groups, facts, Test::Unordered, breaches)
}

/// Adds the breaches, and gives the members of tuples by those of each.
fn grouped_slices<'a>(
    alloc: Global,
    arena: &'a Bump,
    index: &Index<'a>,
    groups: &Groups<'a>,
    facts: &[Fact<'a>],
    breaches: &mut Breaches,
) -> Result<Slices<'a>, NoMemory>
    requires groups { AreGrouped groups.now index.now.spots }
    requires seen { all_seen facts.now ≡ filter is_fact index.now.spots }
    requires known { All (IsKnown (asked index.now)) facts.now }
    ensures members { IfOk result (λ s. (page offset : ℕ)
        → option_map_or (λ l. l) (slice_at s page offset) [] ≡ members_at index.now.spots page offset) }
    ensures breaches { OnOk result (breaches.new ≡ breaches.old ++ breaking L8 index.now.spots ++ breaking L9 index.now.spots
        ++ breaking L10 index.now.spots ++ breaking L12 index.now.spots ++ breaking L13 index.now.spots) }
    ensures err { OnErr result (AppendsFront (breaking L8 index.now.spots ++ breaking L9 index.now.spots
        ++ breaking L10 index.now.spots ++ breaking L12 index.now.spots ++ breaking L13 index.now.spots)
        breaches.old breaches.new) }
{
    add_breaches(index, groups, facts, breaches)?;
    slices_of(alloc, arena, index, groups, facts)
}

/// Adds the breaches, and gives the members of tuples by the facts.
fn slices_by<'a>(
    alloc: Global,
    arena: &'a Bump,
    index: &Index<'a>,
    facts: &[Fact<'a>],
    breaches: &mut Breaches,
) -> Result<Slices<'a>, NoMemory>
    requires seen { all_seen facts.now ≡ filter is_fact index.now.spots }
    requires known { All (IsKnown (asked index.now)) facts.now }
    ensures err { OnErr result (AppendsFront (breaking L8 index.now.spots ++ breaking L9 index.now.spots
        ++ breaking L10 index.now.spots ++ breaking L12 index.now.spots ++ breaking L13 index.now.spots)
        breaches.old breaches.new) }
    ensures members { IfOk result (λ s. (page offset : ℕ)
        → option_map_or (λ l. l) (slice_at s page offset) [] ≡ members_at index.now.spots page offset) }
    ensures breaches { OnOk result (breaches.new ≡ breaches.old ++ breaking L8 index.now.spots ++ breaking L9 index.now.spots
        ++ breaking L10 index.now.spots ++ breaking L12 index.now.spots ++ breaking L13 index.now.spots) }
{
    let groups = members_of(alloc, index, facts)?;
    grouped_slices(alloc, arena, index, &groups, facts, breaches)
}

/// Adds the breaches, and gives the members of tuples.
fn member_slices<'a>(
    alloc: Global,
    arena: &'a Bump,
    index: &Index<'a>,
    breaches: &mut Breaches,
) -> Result<Slices<'a>, NoMemory>
    requires { All (λ e. fits e ≡ true) index.now.spots }
    ensures breaches { OnOk result (breaches.new ≡ breaches.old ++ breaking L8 index.now.spots ++ breaking L9 index.now.spots
        ++ breaking L10 index.now.spots ++ breaking L12 index.now.spots ++ breaking L13 index.now.spots) }
    ensures members { IfOk result (λ s. (page offset : ℕ)
        → option_map_or (λ l. l) (slice_at s page offset) [] ≡ members_at index.now.spots page offset) }
    ensures err { OnErr result (AppendsFront (breaking L8 index.now.spots ++ breaking L9 index.now.spots
        ++ breaking L10 index.now.spots ++ breaking L12 index.now.spots ++ breaking L13 index.now.spots)
        breaches.old breaches.new) }
{
    let facts = facts_of(alloc, index)?;
    slices_by(alloc, arena, index, facts.as_slice(), breaches)
}

/// Adds exactly the breaches of the rules on tuples, and gives the members of tuples and the owners of facts, also where
/// there are breaches. The order of each fact, where it has one, is to be a decimal, as it is where no rule on elements is
/// broken. After a refusal a front of the breaches may have been added.
pub fn membership<'a>(
    alloc: Global,
    arena: &'a Bump,
    index: &Index<'a>,
    breaches: &mut Breaches,
) -> Result<Members<'a>, NoMemory>
    requires fits { All (λ e. fits e ≡ true) index.now.spots }
    ensures breaches { OnOk result (breaches.new ≡ breaches.old ++ breaking L8 index.now.spots ++ breaking L9 index.now.spots
        ++ breaking L10 index.now.spots ++ breaking L12 index.now.spots ++ breaking L13 index.now.spots) }
    ensures err { OnErr result (AppendsFront (breaking L8 index.now.spots ++ breaking L9 index.now.spots
        ++ breaking L10 index.now.spots ++ breaking L12 index.now.spots ++ breaking L13 index.now.spots) breaches.old breaches.new) }
    ensures members { IfOk result (λ m. AreMembersOf m index.now.spots) }
{
    // Most sets have no tuples: nothing is owned there, and no rule on tuples is broken.
    if !index.has_tuples() {
        return Ok(Members::none(alloc));
    }
    let slices = member_slices(alloc, arena, index, breaches)?;
    kept(alloc, index, slices)
}
