//! Whether the walk from one start of a chain leads to two elements.
ghost use Rattle.std.specs.Prelude.{All, List, ◌≡◌, ◌↔◌, ◌+◌, ◌<◌, ◌≤◌, ◌⊎◌, ℕ, Some, None, true, length, IfOk, slice_index_or};
ghost use Rattle.continuations.specs.Visits.{visit_at, meet_at, merge_at, Met, AreFar, Behind, IsFar, Leads, Shared};
ghost use Rattle.continuations.specs.Courses.{AreCourses};
ghost use Rattle.continuations.specs.Depths.{depth_by, far_by, AreLeaps};
ghost use Rattle.continuations.specs.Walks.{next_at, Reaches};

use crate::visits::Visit;
use ix_base::NoMemory;
use std::alloc::Global;

/// The courses of walks over numbered elements, from each behind the first so many: the visit to each element, where each
/// walk met what had been met, and a far number for each.
#[derive(Clone, Copy)]
pub(crate) struct Courses<'w> {
    pub nexts: &'w [Option<usize>],
    pub first: usize,
    pub visits: &'w [Option<Visit>],
    pub meets: &'w [Option<usize>],
    pub fars: &'w [usize],
}

/// The earlier visit at which the walk from a number ended, where it met one.
pub(crate) fn merge(visits: &[Option<Visit>], meets: &[Option<usize>], walk: usize) -> Option<Visit>
    requires { walk < length meets.now }
    ensures { result ≡ merge_at visits.now meets.now walk }
{
    let met = meets[walk]?;
    *visits.get(met)?
}

/// Whether a walk that came to the one leads to the other, both on one walk: straight on, or once round the circle in
/// which this walk ends.
fn is_behind(visits: &[Option<Visit>], meets: &[Option<usize>], from: Visit, to: Visit) -> bool
    requires { from.walk < length meets.now }
    ensures { (result ≡ true) ↔ Behind visits.now meets.now from to }
{
    if from.step <= to.step {
        return true;
    }
    match merge(visits, meets, from.walk) {
        Some(turn) => turn.walk == from.walk && turn.step <= to.step,
        None => false,
    }
}

/// The visit to an element, if a walk has met it.
fn visit_of(visits: &[Option<Visit>], number: usize) -> Option<Visit>
    ensures { result ≡ visit_at visits.now number }
{
    *visits.get(number)?
}

/// The far number, where it is between these, else the near one.
fn farther(far: usize, high: usize, low: usize, near: usize) -> usize
    ensures { ((result ≡ far) × (low < far) × (far < high)) ⊎ (result ≡ near) }
{
    if low < far && far < high { far } else { near }
}

/// Whether the walk from a number leads to what an earlier walk met on this visit. It goes from walk to walk by far
/// ones where it can, in a number of steps that grows with the logarithm of the number of walks.
fn leads(courses: &Courses<'_>, from: usize, to: Visit) -> bool
    requires courses { AreCourses courses.now }
    requires from { from < length courses.now.nexts.now }
    requires first { courses.now.first ≤ from }
    requires earlier { to.walk < from }
    ensures { (j : ℕ) → visit_at courses.now.visits.now j ≡ Some to → (result ≡ true) ↔ Reaches courses.now.nexts.now from j }
{
    let mut at = from;
    while let Some(met) = merge(courses.visits, courses.meets, at) {
        if at <= met.walk {
            return false;
        }
        if met.walk <= to.walk {
            return met.walk == to.walk && is_behind(courses.visits, courses.meets, met, to);
        }
        at = farther(courses.fars[at], at, to.walk, met.walk);
    }
    false
}

/// Whether the walk from one number leads to both.
pub(crate) fn share(courses: &Courses<'_>, x: usize, y: usize) -> bool
    requires { AreCourses courses.now }
    ensures { (result ≡ true) ↔ Shared courses.now.nexts.now courses.now.first (length courses.now.nexts.now) x y }
{
    match (visit_of(courses.visits, x), visit_of(courses.visits, y)) {
        (Some(b), Some(c)) => {
            b.walk == c.walk
                || if c.walk < b.walk {
                    leads(courses, b.walk, c)
                } else {
                    leads(courses, c.walk, b)
                }
        }
        _ => false,
    }
}

/// A far number for the walk from a number: the one whose walk it met, or one that is as far from a far one of that as
/// this is from it. So all that walks come to is within a logarithm's steps.
fn far_of(
    visits: &[Option<Visit>],
    meets: &[Option<usize>],
    fars: &[usize],
    depths: &[usize],
    walk: usize,
) -> usize
    requires meets { walk < length meets.now }
    requires fars { length fars.now ≡ walk }
    requires depths { length depths.now ≡ walk }
    requires early { (h : ℕ) → h < length fars.now → slice_index_or fars.now h 0 ≤ h }
    ensures place { IsFar visits.now meets.now fars.now walk result }
    ensures leap { result ≡ far_by (merge_at visits.now meets.now walk) fars.now depths.now walk }
{
    match merge(visits, meets, walk) {
        Some(met) if met.walk < walk => {
            let far = fars[met.walk];
            let farther = fars[far];
            let step = depths[met.walk].abs_diff(depths[far]);
            if step == depths[far].abs_diff(depths[farther]) {
                farther
            } else {
                met.walk
            }
        }
        _ => walk,
    }
}

/// How many walks stand between the walk from a number and one that met no other.
fn depth_of(
    visits: &[Option<Visit>],
    meets: &[Option<usize>],
    depths: &[usize],
    walk: usize,
) -> usize
    requires meets { walk < length meets.now }
    requires depths { length depths.now ≡ walk }
    requires small { All (λ d. d < walk) depths.now }
    ensures depth { result ≡ depth_by (merge_at visits.now meets.now walk) depths.now walk }
    ensures small { result ≤ walk }
{
    match merge(visits, meets, walk) {
        Some(met) if met.walk < walk => depths[met.walk] + 1,
        _ => 0,
    }
}

/// The far numbers of all.
pub(crate) fn fars_of(
    alloc: Global,
    nexts: &[Option<usize>],
    first: usize,
    visits: &[Option<Visit>],
    meets: &[Option<usize>],
) -> Result<Vec<usize>, NoMemory>
    requires met { Met nexts.now first (length nexts.now) visits.now meets.now }
    requires meets { length meets.now ≡ length nexts.now }
    ensures len { IfOk result (λ v. length v.items ≡ length nexts.now) }
    ensures far { IfOk result (λ v. AreFar nexts.now first visits.now v.items) }
    ensures leaps { IfOk result (λ v. (depths : List ℕ) × AreLeaps visits.now meets.now depths v.items) }
{
    let mut fars = Vec::new(alloc);
    let mut depths = Vec::new(alloc);
    for walk in 0..nexts.len() {
        fars.push(far_of(visits, meets, &fars, &depths, walk))?;
        depths.push(depth_of(visits, meets, &depths, walk))?;
    }
    Ok(fars)
}
