//! The visits of walks from the starts of chains: each element is visited once, by the walk that met it first.
ghost use Rattle.std.specs.Prelude.{◌≡◌, ◌+◌, ◌<◌, ◌≤◌, ℕ, Some, None, length, IfOk, IfSome, option_map, MatchOption, slice_set};
ghost use Rattle.continuations.specs.Visits.{visit_at, meet_at, Met, Walking};
ghost use Rattle.continuations.specs.Walks.{next_at};

use ix_base::NoMemory;
use std::alloc::Global;

/// The visit to an element: by the walk from this number, which met it first, after so many steps.
#[derive(Clone, Copy)]
pub(crate) struct Visit {
    pub walk: usize,
    pub step: usize,
}

/// Walks from a number as far as no walk before it did, and gives the number of what had been met.
fn walk_from(nexts: &[Option<usize>], from: usize, visits: &mut [Option<Visit>]) -> Option<usize>
    requires below { (k j : ℕ) → next_at nexts.now k ≡ Some j → j < length nexts.now }
    requires len { length visits.old ≡ length nexts.now }
    requires from { from < length nexts.now }
    requires fresh { visit_at visits.old from ≡ None }
    ensures walking { (step : ℕ) × Walking nexts.now from visits.old visits.new step result }
    ensures met { (k : ℕ) → result ≡ Some k → (b : Visit) × (visit_at visits.new k ≡ Some b) }
{
    let mut at = Some(from);
    let mut step = 0;
    while let Some(k) = at {
        if visits[k].is_some() {
            return at;
        }
        visits[k] = Some(Visit { walk: from, step });
        step += 1;
        at = nexts[k];
    }
    None
}

/// Walks from each number behind the first so many.
fn walk_all(
    nexts: &[Option<usize>],
    first: usize,
    visits: &mut [Option<Visit>],
    meets: &mut [Option<usize>],
)
    requires below { (k j : ℕ) → next_at nexts.now k ≡ Some j → j < first }
    requires first { first ≤ length nexts.now }
    requires len { length visits.old ≡ length nexts.now }
    requires meets { length meets.old ≡ length nexts.now }
    requires none { Met nexts.now first first visits.old meets.old }
    ensures { Met nexts.now first (length nexts.now) visits.new meets.new }
{
    for from in first..nexts.len() {
        meets[from] = walk_from(nexts, from, visits);
    }
}

/// Room for so many elements that no walk has met.
fn unmet(alloc: Global, count: usize) -> Result<Vec<Option<Visit>>, NoMemory>
    ensures len { IfOk result (λ v. length v.items ≡ count) }
    ensures none { IfOk result (λ v. (k : ℕ) → visit_at v.items k ≡ None) }
{
    let mut visits = Vec::new(alloc);
    for _number in 0..count {
        visits.push(None)?;
    }
    Ok(visits)
}

/// The visits of walks, and where each walk met what had been met.
pub(crate) struct Walked {
    pub visits: Vec<Option<Visit>>,
    pub meets: Vec<Option<usize>>,
}

impl Drop for Walked {
    fn drop(self) {
        let Walked {
            visits: _,
            meets: _,
        } = self;
    }
}

/// Walks from each number behind the first so many. All walks together take no more steps than there are numbers.
pub(crate) fn walks_of(
    alloc: Global,
    nexts: &[Option<usize>],
    first: usize,
) -> Result<Walked, NoMemory>
    requires below { (k j : ℕ) → next_at nexts.now k ≡ Some j → j < first }
    requires first { first ≤ length nexts.now }
    ensures len { IfOk result (λ w. length w.meets.items ≡ length nexts.now) }
    ensures met { IfOk result (λ w. Met nexts.now first (length nexts.now) w.visits.items w.meets.items) }
{
    let mut visits = unmet(alloc, nexts.len())?;
    let mut meets = vec![in alloc; None; nexts.len()]?;
    walk_all(nexts, first, visits.as_mut_slice(), meets.as_mut_slice());
    Ok(Walked { visits, meets })
}
