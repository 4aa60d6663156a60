//! Members and owners of tuples.
ghost use Rattle.std.specs.Prelude.{◌≡◌, true};
ghost use Rattle.std.specs.List.{list_all};
ghost use Rattle.ix_base.specs.LocatedElements.{located};
ghost use Rattle.ix_base.specs.Membership.{order_of};
ghost use Rattle.tuples.specs.OrderNumbers.{fits, is_order_number};

use anyhow::{Result, ensure};
use bumpalo::Bump;
use id_table::Index;
use ix_base::{Breaches, Spot, attr_of, is_fact};
use std::alloc::Global;
use tuples::{Members, membership};
use value_forms::{Form, has_form};

fn has_number(spot: &Spot<'_>) -> bool
    ensures { result ≡ is_order_number (order_of (located spot.now)) }
{
    match attr_of(spot.element, "", "order") {
        Some(value) => has_form(Form::Order, value),
        None => true,
    }
}

fn is_fit(spot: &Spot<'_>) -> bool
    ensures { result ≡ fits (located spot.now) }
{
    !is_fact(spot) || has_number(spot)
}

fn are_fit(spots: &[&Spot<'_>]) -> bool
    ensures { result ≡ list_all (λ s. fits (located s.now)) spots.now }
{
    spots.iter().all(|spot| is_fit(spot))
}

/// Writes how many breaches there are, the pages of the members of an element, and of its owner.
fn push_said<'a>(
    members: &Members<'a>,
    breaches: usize,
    spot: &Spot<'a>,
    said: &mut String,
) -> Result<()> {
    write!(said, "{breaches}:")?;
    for member in members.of(spot) {
        write!(said, " {}", member.element.place.page)?;
    }
    if let Some(owner) = members.owner(spot) {
        write!(said, " in {}", owner.element.place.page)?;
    }
    Ok(())
}

/// What is said of the elements of the first page.
fn said_of<'a>(
    alloc: Global,
    members: &Members<'a>,
    breaches: usize,
    spots: &[&'a Spot<'a>],
) -> Result<String> {
    let mut said = String::new(alloc);
    for spot in spots {
        if spot.element.place.page == 0 {
            push_said(members, breaches, *spot, &mut said)?;
        }
    }
    Ok(said)
}

/// What is said of the elements of the first page of an index, by the breaches that are found in it.
fn said_by<'a>(
    alloc: Global,
    arena: &'a Bump,
    index: &Index<'a>,
    breaches: &mut Breaches,
) -> Result<String> {
    ensure!(are_fit(index.spots()), "an order that is no number");
    let members = membership(alloc, arena, index, breaches)?;
    said_of(alloc, &members, breaches.len(), index.spots())
}

/// How many breaches there are in an index, the pages of the members of the first page's root, and that of its owner.
pub(crate) fn of_first<'a>(alloc: Global, arena: &'a Bump, index: &Index<'a>) -> Result<String> {
    let mut breaches = Breaches::new(alloc);
    said_by(alloc, arena, index, &mut breaches)
}
