//! How an id stands while the elements that have it come.
//!
//! Of those that agree the first by the page's name is kept, and the one that came last: an element that comes is compared with
//! that one alone. So each normal form is made twice at most, however often an id is repeated.
ghost use Rattle.std.specs.Prelude.{◌≡◌, ℕ, List, IfOk};
ghost use Rattle.std.specs.Ordering.{is_lt};
ghost use Rattle.ix_base.specs.Alike.{alike};
ghost use Rattle.ix_base.specs.Ids.{place_cmp};
ghost use Rattle.ix_base.specs.LocatedElements.{located};
ghost use Rattle.ix_base.specs.Spots.{IsOnOnePage};
ghost use Rattle.page_links.specs.Model.{names_of};
ghost use Rattle.page_links.specs.LinkTables as tables;
ghost use Rattle.page_links.specs.declared.agreeing.Standing.TheVariants as code;
ghost use Rattle.page_links.specs.LinkTables.{IsFirstOnPage, kept_in, kept_with, never};

use crate::pages::Page;
use ix_base::{NoMemory, Spot};
use std::alloc::Global;
use std::cmp::Ordering;
use xbrl_parts::are_alike;

/// Elements with one id that agree: one, or contexts or units of one normal form.
#[derive(Clone, Copy)]
pub(crate) struct Agreeing<'a> {
    /// The first of them, by the name of its page and then by its offset.
    pub(crate) first: &'a Spot<'a>,
    /// The one that came last.
    pub(crate) latest: &'a Spot<'a>,
}

/// How an id stands among the elements so far.
#[derive(Clone, Copy)]
pub(crate) enum Standing<'a> {
    /// No element has it.
    Pending,
    /// One has it, or several that agree.
    Resolved(Agreeing<'a>),
    /// More than one has it, and they don't agree.
    Doubled,
}

/// The names of pages by their numbers: those that are there, and the one that comes next.
#[derive(Clone, Copy)]
pub struct PageNames<'p, 'a> {
    pub pages: &'p [Page<'a>],
    pub next: &'p str,
}

/// The name of an element's page.
fn page_name<'p>(names: &PageNames<'p, '_>, spot: &Spot<'_>) -> &'p str
    ensures { result.now ≡ names_of names.now (located spot.now).page }
{
    match names.pages.get(spot.element.place.page as usize) {
        Some(page) => page.name.as_str(),
        None => names.next,
    }
}

/// Whether an element comes before another, by the names of their pages and then by offset.
fn is_sooner(names: &PageNames<'_, '_>, spot: &Spot<'_>, other: &Spot<'_>) -> bool
    ensures { result ≡ is_lt (place_cmp (names_of names.now) (located spot.now) (located other.now)) }
{
    match page_name(names, spot).cmp(page_name(names, other)) {
        Ordering::Less => true,
        Ordering::Equal => spot.element.place.offset < other.element.place.offset,
        Ordering::Greater => false,
    }
}

/// The sooner one of two elements.
fn sooner<'a>(names: &PageNames<'_, '_>, first: &'a Spot<'a>, spot: &'a Spot<'a>) -> &'a Spot<'a>
    ensures element { located result.now ≡ tables.sooner (names_of names.now) (located first.entry.now) (located spot.entry.now) }
    ensures page { IsOnOnePage first.entry.now → IsOnOnePage spot.entry.now → IsOnOnePage result.now }
{
    if is_sooner(names, spot, first) {
        return spot;
    }
    first
}

/// An element that alone has an id.
fn alone<'a>(spot: &'a Spot<'a>) -> Standing<'a>
    ensures { result ≡ code.Resolved (record { first = spot.entry; latest = spot.entry }) }
{
    Standing::Resolved(Agreeing {
        first: spot,
        latest: spot,
    })
}

/// How an id that some elements have that agree stands with one more that has it.
fn with_one_more<'a>(
    alloc: Global,
    names: &PageNames<'_, '_>,
    agreeing: Agreeing<'a>,
    spot: &'a Spot<'a>,
) -> Result<Standing<'a>, NoMemory>
    ensures kept { IfOk result (λ s. kept_in s ≡ kept_with alike (names_of names.now)
        (kept_in (code.Resolved agreeing.entry)) (located spot.entry.now)) }
    ensures page { IsOnOnePage agreeing.entry.first.now → IsOnOnePage spot.entry.now → IfOk result IsFirstOnPage }
{
    if !are_alike(alloc, agreeing.latest, spot)? {
        return Ok(Standing::Doubled);
    }
    Ok(Standing::Resolved(Agreeing {
        first: sooner(names, agreeing.first, spot),
        latest: spot,
    }))
}

/// How an id stands with one more element that has it.
pub(crate) fn with_holder<'a>(
    alloc: Global,
    names: &PageNames<'_, '_>,
    standing: Standing<'a>,
    spot: &'a Spot<'a>,
) -> Result<Standing<'a>, NoMemory>
    ensures kept { IfOk result (λ s. kept_in s ≡ kept_with alike (names_of names.now) (kept_in standing.entry) (located spot.entry.now)) }
    ensures page { IsFirstOnPage standing.entry → IsOnOnePage spot.entry.now → IfOk result IsFirstOnPage }
{
    match standing {
        Standing::Pending => Ok(alone(spot)),
        Standing::Resolved(agreeing) => with_one_more(alloc, names, agreeing, spot),
        Standing::Doubled => Ok(Standing::Doubled),
    }
}

/// How a tuple id stands with one more tuple that has it: tuples never agree.
pub(crate) fn with_tuple<'a>(standing: Standing<'a>, spot: &'a Spot<'a>) -> Standing<'a>
    ensures { (names : ℕ → List ℕ) → kept_in result ≡ kept_with never names (kept_in standing.entry) (located spot.entry.now) }
{
    match standing {
        Standing::Pending => alone(spot),
        Standing::Resolved(_) | Standing::Doubled => Standing::Doubled,
    }
}
