//! The members of tuples as slices of an arena.
ghost use Rattle.std.specs.Prelude.{◌≡◌, ◌++◌, ◌==◌, ◌&&◌, ℕ, All, OnOk, IfOk, [], filter};
ghost use Rattle.std.specs.Option.{option_map_or};
ghost use Rattle.ix_base.specs.LocatedElements.{is_fact};
ghost use Rattle.id_table.specs.Model.{asked};
ghost use Rattle.id_table.specs.Slices.{put_first, slice_at, spots_in};
ghost use Rattle.id_table.specs.Tables.{all_located, AreOnOwnPages};
ghost use Rattle.tuples.specs.FactGroups.{group_at};
ghost use Rattle.tuples.specs.MemberTables.{members_at, AreGrouped};
ghost use Rattle.tuples.specs.OwnedFacts.{all_seen, is_owned_at, IsKnown};

use crate::fact::Fact;
use crate::groups::Groups;
use crate::owners::place_of;
use bumpalo::Bump;
use bumpalo::collections::into_bump_slice;
use id_table::{Index, Slice, Slices, enter_slice};
use ix_base::{NoMemory, Spot};
use std::alloc::Global;

/// Adds facts at the end of a list of the arena.
fn push_spots<'a>(to: &mut Vec<&'a Spot<'a>, &'a Bump>, facts: &[Fact<'a>]) -> Result<(), NoMemory>
    requires { AreOnOwnPages to.old.items }
    ensures spots { OnOk result (all_located to.new.items ≡ all_located to.old.items ++ all_seen facts.now) }
    ensures pages { OnOk result (AreOnOwnPages to.new.items) }
{
    for fact in facts {
        to.push(fact.spot)?;
    }
    Ok(())
}

/// Facts, in the arena.
fn slice_of<'a>(arena: &'a Bump, facts: &[Fact<'a>]) -> Result<Slice<'a>, NoMemory>
    ensures { IfOk result (λ s. spots_in s ≡ all_seen facts.now) }
{
    let mut kept = Vec::new(arena);
    push_spots(&mut kept, facts)?;
    Ok(Slice {
        spots: into_bump_slice(kept),
    })
}

/// The members at a place, in the arena.
fn group_slice<'a>(
    arena: &'a Bump,
    groups: &Groups<'a>,
    key: (u32, u64),
) -> Result<Slice<'a>, NoMemory>
    ensures { IfOk result (λ s. spots_in s ≡ all_seen (group_at groups.now key.0 key.1)) }
{
    match groups.get(&key) {
        Some(group) => slice_of(arena, group.as_slice()),
        None => slice_of(arena, &[]),
    }
}

/// Enters the members at a place, unless they are there.
fn enter_members<'a>(
    arena: &'a Bump,
    groups: &Groups<'a>,
    key: (u32, u64),
    slices: &mut Slices<'a>,
) -> Result<(), NoMemory>
    ensures { OnOk result ((page offset : ℕ) → slice_at slices.new page offset
        ≡ put_first (slice_at slices.old page offset) ((key.0 == page) && (key.1 == offset)) (all_seen (group_at groups.now key.0 key.1))) }
{
    if slices.contains_key(&key) {
        return Ok(());
    }
    let slice = group_slice(arena, groups, key)?;
    enter_slice(slices, key, slice)
}

/// Enters the members of the tuple that owns a fact, unless they are there.
fn enter<'a>(
    arena: &'a Bump,
    index: &Index<'a>,
    groups: &Groups<'a>,
    fact: &Fact<'a>,
    slices: &mut Slices<'a>,
) -> Result<(), NoMemory>
    requires groups { AreGrouped groups.now index.now.spots }
    ensures { OnOk result ((page offset : ℕ) → slice_at slices.new page offset
        ≡ put_first (slice_at slices.old page offset) (is_owned_at page offset fact.now) (members_at index.now.spots page offset)) }
{
    match fact.owner {
        Some(owner) => enter_members(arena, groups, place_of(owner), slices),
        None => Ok(()),
    }
}

/// The members of all tuples.
pub(crate) fn slices_of<'a>(
    alloc: Global,
    arena: &'a Bump,
    index: &Index<'a>,
    groups: &Groups<'a>,
    facts: &[Fact<'a>],
) -> Result<Slices<'a>, NoMemory>
    requires groups { AreGrouped groups.now index.now.spots }
    requires seen { all_seen facts.now ≡ filter is_fact index.now.spots }
    requires known { All (IsKnown (asked index.now)) facts.now }
    ensures { IfOk result (λ s. (page offset : ℕ)
        → option_map_or (λ l. l) (slice_at s page offset) [] ≡ members_at index.now.spots page offset) }
{
    let mut slices = Slices::new(alloc);
    for fact in facts {
        enter(arena, index, groups, fact, &mut slices)?;
    }
    Ok(slices)
}
