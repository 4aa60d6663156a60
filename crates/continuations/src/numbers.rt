//! The numbers of continuations, by their ids.
ghost use Rattle.std.specs.Prelude.{◌≡◌, ◌≤◌, ◌+◌, ℕ, List, OnOk, IfOk, Some, true, false, nat_lt, option_map, option_and_then, length, filter, slice_get, if◌then◌else◌};
ghost use Rattle.std.specs.Option.{option_map_or};
ghost use Rattle.ix_base.specs.Chain as chains;
ghost use Rattle.ix_base.specs.Ids.{holds_id};
ghost use Rattle.ix_base.specs.LocatedElements.{located, is_continuation as spec_is_continuation};
ghost use Rattle.id_table.specs.Model.{asked};
ghost use Rattle.id_table.specs.Tables.{all_located, chain_spots};
ghost use Rattle.continuations.specs.Numbers.{number_at, AreNumbers, IsTableOf, StandsAt};

use crate::walk::continuation;
use id_table::{ChainElement, Index};
use ix_base::{NoMemory, Place};
use std::alloc::Global;
use text_map::TextMap;

/// Numbers of continuations, by their ids.
pub(crate) type Numbers<'a> = TextMap<'a, usize>;

/// Enters the number of an element at its id.
fn enter_number<'a>(
    numbers: &mut Numbers<'a>,
    element: &ChainElement<'a>,
    number: usize,
) -> Result<(), NoMemory>
    ensures { OnOk result ((q : List ℕ) → number_at numbers.new q
        ≡ (if holds_id q (located element.now.spot.now) then Some number else number_at numbers.old q)) }
{
    if let Some(id) = element.id {
        numbers.insert(id, number)?;
    }
    Ok(())
}

/// The numbers of elements, by their ids. Of several with one id the last counts.
fn numbers_of<'a>(alloc: Global, elements: &[ChainElement<'a>]) -> Result<Numbers<'a>, NoMemory>
    ensures { IfOk result (λ m. AreNumbers m (all_located (chain_spots elements.now)) (length elements.now)) }
{
    let mut numbers = TextMap::new(alloc);
    for (number, element) in elements.iter().enumerate() {
        enter_number(&mut numbers, element, number)?;
    }
    Ok(numbers)
}

/// Whether the element of a number has an id.
fn has_id(elements: &[ChainElement<'_>], number: usize, id: &str) -> bool
    ensures { result ≡ option_map_or (holds_id id.now) (slice_get (all_located (chain_spots elements.now)) number) false }
{
    if number >= elements.len() {
        return false;
    }
    let element = &elements[number];
    match element.id {
        Some(own) => id == own,
        None => false,
    }
}

/// Whether an id is that of one continuation alone, which has this number. Where no id was met twice, none is looked up.
fn is_named(index: &Index<'_>, continuations: &[ChainElement<'_>], id: &str, number: usize) -> bool
    requires { all_located (chain_spots continuations.now) ≡ filter spec_is_continuation index.now.spots }
    ensures { result ≡ true → Some (slice_get (filter spec_is_continuation index.now.spots) number)
        ≡ option_map Some (chains.continuation (asked index.now) id.now) }
{
    if !has_id(continuations, number, id) {
        return false;
    }
    !index.has_repeats() || continuation(index, id).is_some()
}

/// How many elements stand before a place, by halving, where they are in the order of places.
fn count_before(elements: &[ChainElement<'_>], place: Place) -> usize
    ensures { result ≤ length elements.now }
{
    let mut low = 0;
    let mut high = elements.len();
    while low < high {
        let middle = low + (high - low) / 2;
        let here = elements[middle].spot.element.place;
        if here.page < place.page || here.page == place.page && here.offset < place.offset {
            low = middle + 1;
        } else {
            high = middle;
        }
    }
    low
}

/// The number that stands in a table at an id. The table is made where there is none yet.
fn number_in<'a>(
    alloc: Global,
    elements: &[ChainElement<'a>],
    table: &mut Option<Numbers<'a>>,
    id: &str,
) -> Result<Option<usize>, NoMemory>
    requires { IsTableOf elements.now table.old }
    ensures table { OnOk result (IsTableOf elements.now table.new) }
    ensures number { IfOk result (StandsAt elements.now id.now) }
{
    if let Some(numbers) = table.as_ref() {
        return Ok(numbers.get(id).copied());
    }
    let numbers = numbers_of(alloc, elements)?;
    let number = numbers.get(id).copied();
    *table = Some(numbers);
    Ok(number)
}

/// The number of the one continuation with an id: the one at its place, where the continuations are in the order of
/// places, and else the one in the table.
fn number_sought<'a>(
    alloc: Global,
    index: &Index<'a>,
    continuations: &[ChainElement<'a>],
    table: &mut Option<Numbers<'a>>,
    id: &str,
) -> Result<Option<usize>, NoMemory>
    requires continuations { all_located (chain_spots continuations.now) ≡ filter spec_is_continuation index.now.spots }
    requires table { IsTableOf continuations.now table.old }
    ensures table { OnOk result (IsTableOf continuations.now table.new) }
    ensures number { IfOk result (λ n. option_map (slice_get (filter spec_is_continuation index.now.spots)) n
        ≡ option_map Some (chains.continuation (asked index.now) id.now)) }
{
    let Some(spot) = continuation(index, id) else {
        return Ok(None);
    };
    let number = count_before(continuations, spot.element.place);
    if has_id(continuations, number, id) {
        return Ok(Some(number));
    }
    number_in(alloc, continuations, table, id)
}

/// The number of the one continuation with an id. One that is likely to be it is looked at first.
pub(crate) fn number_of<'a>(
    alloc: Global,
    index: &Index<'a>,
    continuations: &[ChainElement<'a>],
    table: &mut Option<Numbers<'a>>,
    id: Option<&str>,
    likely: usize,
) -> Result<Option<usize>, NoMemory>
    requires continuations { all_located (chain_spots continuations.now) ≡ filter spec_is_continuation index.now.spots }
    requires table { IsTableOf continuations.now table.old }
    ensures number { IfOk result (λ n. option_map (slice_get (filter spec_is_continuation index.now.spots)) n
        ≡ option_map Some (option_and_then (chains.continuation (asked index.now)) (option_map (λ s. s.now) id.entry))) }
    ensures table { OnOk result (IsTableOf continuations.now table.new) }
{
    let Some(id) = id else {
        return Ok(None);
    };
    if is_named(index, continuations, id, likely) {
        return Ok(Some(likely));
    }
    number_sought(alloc, index, continuations, table, id)
}

/// The number behind that of one of so many, where there is one, else the other.
pub(crate) fn number_behind(number: Option<usize>, count: usize, other: usize) -> usize
    ensures { result ≡ option_map_or (λ n. if nat_lt n count then n + 1 else other) number other }
{
    match number {
        Some(number) if number < count => number + 1,
        _ => other,
    }
}
