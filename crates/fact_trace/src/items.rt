//! Items with their spans.
ghost use Rattle.std.specs.Prelude.{◌≡◌, ◌++◌, ◌<◌, All, Contains, IfOk, OnOk, codes, length, map, filter};
ghost use Rattle.std.specs.List.{flat_map};
ghost use Rattle.ix_base.specs.Asks.{asks};
ghost use Rattle.ix_base.specs.LocatedElements as kinds;
ghost use Rattle.ix_base.specs.LocatedElements.{located};
ghost use Rattle.ix_base.specs.Trees.{tree_of};
ghost use Rattle.continuations.specs.Model.{AreChainsOf};
ghost use Rattle.id_table.specs.Tables.{all_located};
ghost use Rattle.target_contents.specs.LinkedSets.{AreApart};
ghost use Rattle.fact_trace.specs.Spans as tracing;
ghost use Rattle.fact_trace.specs.Spans.{elements, lying_at, number_in, part_of, source_at, spans_in, text_elements};
ghost use Rattle.fact_trace.specs.Model.{ArePagesFrom, IsText, sources_of};

use crate::elements::push_element;
use crate::page::Page;
use crate::span::{Span, Traced};
use continuations::Chains;
use fact_view::fact_name;
use facts::{innermost, part_in};
use ix_base::{Element, Kind, List, NoMemory, OwnName, Spot, Text, is_item, kind_of};
use std::alloc::Global;
use value_forms::is_nil;

/// Adds the spans of an element of the page of this number.
fn push_lying(
    alloc: Global,
    pages: &[Page<'_>],
    page: u32,
    element: &Element<'_>,
    spans: &mut List<Span>,
) -> Result<(), NoMemory>
    requires { IsText (sources_of pages.now) (record { page = page; tree = tree_of element.now }) }
    ensures { OnOk result (spans.new ≡ spans.old ++ spans_in (sources_of pages.now) (record { page = page; tree = tree_of element.now })) }
{
    push_element(alloc, &pages[page as usize], element, spans)
}

/// Adds the spans of an element.
fn push_spot(
    alloc: Global,
    pages: &[Page<'_>],
    spot: &Spot<'_>,
    spans: &mut List<Span>,
) -> Result<(), NoMemory>
    requires { IsText (sources_of pages.now) (lying_at (located spot.now)) }
    ensures { OnOk result (spans.new ≡ spans.old ++ spans_in (sources_of pages.now) (lying_at (located spot.now))) }
{
    push_lying(alloc, pages, spot.element.place.page, spot.element, spans)
}

/// Adds the spans of the elements of a chain.
fn push_chain(
    alloc: Global,
    pages: &[Page<'_>],
    chain: &[&Spot<'_>],
    spans: &mut List<Span>,
) -> Result<(), NoMemory>
    requires { All (λ e. IsText (sources_of pages.now) (lying_at e)) (all_located chain.now) }
    ensures { OnOk result (spans.new ≡ spans.old ++ flat_map (spans_in (sources_of pages.now)) (map lying_at (all_located chain.now))) }
{
    for spot in chain {
        push_spot(alloc, pages, *spot, spans)?;
    }
    Ok(())
}

/// Adds the spans of the part of a fraction that has this local name.
fn push_part(
    alloc: Global,
    pages: &[Page<'_>],
    spot: &Spot<'_>,
    local: &str,
    spans: &mut List<Span>,
) -> Result<(), NoMemory>
    requires { All (IsText (sources_of pages.now)) (part_of local.now (located spot.now)) }
    ensures { OnOk result (spans.new ≡ spans.old ++ flat_map (spans_in (sources_of pages.now)) (part_of local.now (located spot.now))) }
{
    let element = spot.element;
    match part_in(local, element.children) {
        Some(part) => push_lying(alloc, pages, element.place.page, part, spans),
        None => Ok(()),
    }
}

/// Adds the spans of a fraction: those of its numerator, and then those of its denominator.
fn push_fraction(
    alloc: Global,
    pages: &[Page<'_>],
    spot: &Spot<'_>,
    spans: &mut List<Span>,
) -> Result<(), NoMemory>
    requires numerator { All (IsText (sources_of pages.now)) (part_of (codes "numerator") (located spot.now)) }
    requires denominator { All (IsText (sources_of pages.now)) (part_of (codes "denominator") (located spot.now)) }
    ensures { OnOk result (spans.new ≡ spans.old ++ flat_map (spans_in (sources_of pages.now))
        (part_of (codes "numerator") (located spot.now) ++ part_of (codes "denominator") (located spot.now))) }
{
    push_part(alloc, pages, spot, "numerator", spans)?;
    push_part(alloc, pages, spot, "denominator", spans)
}

/// Adds the spans of a nonFraction: those of the innermost in it, or its own.
fn push_number(
    alloc: Global,
    pages: &[Page<'_>],
    spot: &Spot<'_>,
    spans: &mut List<Span>,
) -> Result<(), NoMemory>
    requires { IsText (sources_of pages.now) (number_in (located spot.now)) }
    ensures { OnOk result (spans.new ≡ spans.old ++ spans_in (sources_of pages.now) (number_in (located spot.now))) }
{
    let element = spot.element;
    push_lying(alloc, pages, element.place.page, innermost(element), spans)
}

/// Adds the spans of an item that isn't nil.
fn push_item<'a>(
    alloc: Global,
    pages: &[Page<'_>],
    chains: &Chains<'a>,
    spot: &Spot<'a>,
    spans: &mut List<Span>,
) -> Result<(), NoMemory>
    requires pages { ArePagesFrom 0 pages.now }
    requires chains { AreChainsOf chains.now (elements (sources_of pages.now)) }
    requires apart { AreApart (elements (sources_of pages.now)) }
    requires there { Contains (elements (sources_of pages.now)) (located spot.now) }
    ensures { OnOk result (spans.new ≡ spans.old
        ++ flat_map (spans_in (sources_of pages.now)) (text_elements (asks (elements (sources_of pages.now))) (located spot.now))) }
{
    match kind_of(spot) {
        Kind::NonNumeric => push_chain(alloc, pages, chains.of(spot), spans),
        Kind::Fraction => push_fraction(alloc, pages, spot, spans),
        _ => push_number(alloc, pages, spot, spans),
    }
}

/// The spans of an item.
fn spans_of<'a>(
    alloc: Global,
    pages: &[Page<'_>],
    chains: &Chains<'a>,
    spot: &Spot<'a>,
) -> Result<List<Span>, NoMemory>
    requires pages { ArePagesFrom 0 pages.now }
    requires chains { AreChainsOf chains.now (elements (sources_of pages.now)) }
    requires apart { AreApart (elements (sources_of pages.now)) }
    requires there { Contains (elements (sources_of pages.now)) (located spot.now) }
    ensures { IfOk result (λ l. l ≡ tracing.spans (sources_of pages.now) (located spot.now)) }
{
    let mut spans = List::new(alloc);
    if !is_nil(spot.element) {
        push_item(alloc, pages, chains, spot, &mut spans)?;
    }
    Ok(spans)
}

/// The name of the page of this number.
fn page_name(alloc: Global, pages: &[Page<'_>], page: u32) -> Result<Text, NoMemory>
    requires { page < length pages.now }
    ensures { IfOk result (λ t. t ≡ (source_at (sources_of pages.now) page).name) }
{
    Text::of(alloc, pages[page as usize].name.as_str())
}

/// An item with its spans.
fn traced_of<'a>(
    alloc: Global,
    pages: &[Page<'_>],
    chains: &Chains<'a>,
    spot: &Spot<'a>,
) -> Result<Traced, NoMemory>
    requires pages { ArePagesFrom 0 pages.now }
    requires chains { AreChainsOf chains.now (elements (sources_of pages.now)) }
    requires apart { AreApart (elements (sources_of pages.now)) }
    requires there { Contains (elements (sources_of pages.now)) (located spot.now) }
    ensures { IfOk result (λ t. t ≡ tracing.traced_of (sources_of pages.now) (located spot.now)) }
{
    let place = spot.element.place;
    Ok(Traced {
        page: page_name(alloc, pages, place.page)?,
        offset: place.offset,
        name: OwnName::of(alloc, fact_name(spot.element))?,
        nil: is_nil(spot.element),
        spans: spans_of(alloc, pages, chains, spot)?,
    })
}

/// The items among some elements, each with its spans.
pub(crate) fn traced_items<'a>(
    alloc: Global,
    pages: &[Page<'_>],
    chains: &Chains<'a>,
    spots: &[&'a Spot<'a>],
) -> Result<Vec<Traced>, NoMemory>
    requires pages { ArePagesFrom 0 pages.now }
    requires chains { AreChainsOf chains.now (elements (sources_of pages.now)) }
    requires apart { AreApart (elements (sources_of pages.now)) }
    requires there { All (λ e. Contains (elements (sources_of pages.now)) e) (all_located spots.now) }
    ensures { IfOk result (λ v. v.items ≡ map (tracing.traced_of (sources_of pages.now)) (filter kinds.is_item (all_located spots.now))) }
{
    let mut items = Vec::new(alloc);
    for spot in spots {
        if is_item(spot) {
            items.push(traced_of(alloc, pages, chains, spot)?)?;
        }
    }
    Ok(items)
}
