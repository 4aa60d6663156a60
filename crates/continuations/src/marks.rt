//! Marks on all that walks reach.
ghost use Rattle.std.specs.Prelude.{◌≡◌, ◌↔◌, ◌+◌, ◌<◌, ◌≤◌, ℕ, Some, true, length, IfOk};
ghost use Rattle.continuations.specs.Walks.{next_at, is_marked, AreReached, Joined};

use ix_base::NoMemory;
use std::alloc::Global;

/// Marks an element and all that a walk from it reaches. The walk stops where it meets a mark, so that all walks
/// together take no more steps than there are elements and walks.
fn mark_from(nexts: &[Option<usize>], first: usize, from: usize, marks: &mut [bool])
    requires below { (k j : ℕ) → next_at nexts.now k ≡ Some j → j < length nexts.now }
    requires len { length marks.old ≡ length nexts.now }
    requires from { from < length nexts.now }
    requires first { first ≤ from }
    requires marked { AreReached nexts.now first from marks.old }
    ensures { AreReached nexts.now first (from + 1) marks.new }
{
    let mut at = Some(from);
    while let Some(k) = at {
        if marks[k] {
            return;
        }
        marks[k] = true;
        at = nexts[k];
    }
}

/// Marks all that walks reach from the elements behind the first so many.
fn mark_all(nexts: &[Option<usize>], first: usize, marks: &mut [bool])
    requires below { (k j : ℕ) → next_at nexts.now k ≡ Some j → j < length nexts.now }
    requires len { length marks.old ≡ length nexts.now }
    requires first { first ≤ length nexts.now }
    requires marked { AreReached nexts.now first first marks.old }
    ensures { AreReached nexts.now first (length nexts.now) marks.new }
{
    for from in first..nexts.len() {
        mark_from(nexts, first, from, marks);
    }
}

/// Marks on what walks reach from any element behind the first so many.
pub(crate) fn reached_from(
    alloc: Global,
    nexts: &[Option<usize>],
    first: usize,
) -> Result<Vec<bool>, NoMemory>
    requires below { (k j : ℕ) → next_at nexts.now k ≡ Some j → j < length nexts.now }
    requires first { first ≤ length nexts.now }
    ensures len { IfOk result (λ v. length v.items ≡ length nexts.now) }
    ensures marked { IfOk result (λ v. AreReached nexts.now first (length nexts.now) v.items) }
{
    let mut marks = vec![in alloc; false; nexts.len()]?;
    mark_all(nexts, first, marks.as_mut_slice());
    Ok(marks)
}

/// Whether the first so many are marked.
pub(crate) fn are_marked(marks: &[bool], upto: usize) -> bool
    requires { upto ≤ length marks.now }
    ensures { (result ≡ true) ↔ ((k : ℕ) → k < upto → is_marked marks.now k ≡ true) }
{
    for number in 0..upto {
        if !marks[number] {
            return false;
        }
    }
    true
}

/// Whether two elements go on at one of the first so many.
pub(crate) fn any_joined(
    alloc: Global,
    nexts: &[Option<usize>],
    first: usize,
) -> Result<bool, NoMemory>
    requires { (k j : ℕ) → next_at nexts.now k ≡ Some j → j < first }
    ensures { IfOk result (λ b. (b ≡ true) ↔ Joined nexts.now) }
{
    let mut marks = vec![in alloc; false; first]?;
    for next in nexts {
        let Some(number) = *next else {
            continue;
        };
        if marks[number] {
            return Ok(true);
        }
        marks[number] = true;
    }
    Ok(false)
}
