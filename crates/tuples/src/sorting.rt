//! Sorting members.
ghost use Rattle.std.specs.Prelude.{◌≡◌, OnOk, IfOk};
ghost use Rattle.std.specs.List.Sorted.{IsSortedBy, IsStableBy};
ghost use Rattle.tuples.specs.FactGroups.{is_earlier};
ghost use Rattle.tuples.specs.OwnedFacts.{fact_cmp};

use crate::decimals::decimal_cmp;
use crate::fact::Fact;
use ix_base::NoMemory;
use std::alloc::Global;
use std::cmp::Ordering;

/// Two facts by their orders; one without an order comes last.
pub(crate) fn compare(x: &Fact<'_>, y: &Fact<'_>) -> Ordering
    ensures { result ≡ fact_cmp x.now y.now }
{
    match (x.order, y.order) {
        (Some(order), Some(other)) => decimal_cmp(order, other),
        (Some(_), None) => Ordering::Less,
        (None, Some(_)) => Ordering::Greater,
        (None, None) => Ordering::Equal,
    }
}

/// A copy of some facts.
fn copied<'a>(alloc: Global, facts: &[Fact<'a>]) -> Result<Vec<Fact<'a>>, NoMemory>
    ensures { IfOk result (λ v. v.items ≡ facts.now) }
{
    let mut copy = Vec::new(alloc);
    copy.extend_from_slice(facts)?;
    Ok(copy)
}

/// Puts facts in rising order; those with equal orders stand as they came.
fn sort(facts: &mut Vec<Fact<'_>>) -> Result<(), NoMemory>
    ensures sorted { OnOk result (IsSortedBy is_earlier facts.new.items) }
    ensures stable { OnOk result (IsStableBy is_earlier facts.old.items facts.new.items) }
{
    match facts.sort_by(|x, y| compare(x, y)) {
        Ok(()) => Ok(()),
        Err(_) => Err(NoMemory),
    }
}

/// Facts by rising order; those with equal orders stand as they came.
pub(crate) fn ranked<'a>(alloc: Global, facts: &[Fact<'a>]) -> Result<Vec<Fact<'a>>, NoMemory>
    ensures sorted { IfOk result (λ v. IsSortedBy is_earlier v.items) }
    ensures stable { IfOk result (λ v. IsStableBy is_earlier facts.now v.items) }
{
    let mut ranks = copied(alloc, facts)?;
    sort(&mut ranks)?;
    Ok(ranks)
}
