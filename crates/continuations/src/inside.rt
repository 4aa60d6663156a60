//! Elements of chains that stand inside others of their chain.
ghost use Rattle.std.specs.Prelude.{◌≡◌, ◌↔◌, ◌∷◌, ◌++◌, [], ◌&&◌, ◌==◌, ◌<◌, ℕ, true, false, OnOk, IfOk, length, if◌then◌else◌};
ghost use Rattle.ix_base.specs.Elements.{placed, place_of};
ghost use Rattle.ix_base.specs.LinkRules.{is_at};
ghost use Rattle.ix_base.specs.LocatedElements.{located};
ghost use Rattle.id_table.specs.Tables.{all_located};
ghost use Rattle.continuations.specs.Courses.{AreCourses};
ghost use Rattle.continuations.specs.InnerElements.{numbers_at, AnyOf, AreInner, ArePlaced, IsInner, SharesAny};

use crate::walks::{Courses, share};
use indexmap::IndexMap;
use ix_base::{NoMemory, Place, Spot};
use std::alloc::Global;

/// The numbers of elements, by their places.
pub(crate) type Placed = IndexMap<(u32, u64), Vec<usize>>;

/// Takes the numbers at a place out.
fn take_at(alloc: Global, numbers: &mut Placed, key: (u32, u64)) -> Vec<usize>
    ensures taken { result.items ≡ numbers_at numbers.old key.0 key.1 }
    ensures others { (page offset : ℕ) → ((key.0 == page) && (key.1 == offset)) ≡ false
        → numbers_at numbers.new page offset ≡ numbers_at numbers.old page offset }
{
    match numbers.swap_remove(&key) {
        Some(found) => found,
        None => Vec::new(alloc),
    }
}

/// Puts numbers at a place, where none are.
fn put_at(numbers: &mut Placed, key: (u32, u64), here: Vec<usize>) -> Result<(), NoMemory>
    ensures { OnOk result ((page offset : ℕ) → numbers_at numbers.new page offset
        ≡ (if (key.0 == page) && (key.1 == offset) then here.items else numbers_at numbers.old page offset)) }
{
    numbers.insert(key, here)?;
    Ok(())
}

/// Enters a number at a place.
fn enter_at(
    alloc: Global,
    numbers: &mut Placed,
    key: (u32, u64),
    number: usize,
) -> Result<(), NoMemory>
    ensures { OnOk result ((page offset : ℕ) → numbers_at numbers.new page offset
        ≡ (if (key.0 == page) && (key.1 == offset)
        then numbers_at numbers.old page offset ++ number ∷ []
        else numbers_at numbers.old page offset)) }
{
    let mut here = take_at(alloc, numbers, key);
    here.push(number)?;
    put_at(numbers, key, here)?;
    Ok(())
}

/// Enters the number of an element at its place.
fn enter(
    alloc: Global,
    numbers: &mut Placed,
    spot: &Spot<'_>,
    number: usize,
) -> Result<(), NoMemory>
    ensures { OnOk result ((page offset : ℕ) → numbers_at numbers.new page offset
        ≡ (if is_at page offset (located spot.now)
        then numbers_at numbers.old page offset ++ number ∷ []
        else numbers_at numbers.old page offset)) }
{
    let place = spot.element.place;
    enter_at(alloc, numbers, (place.page, place.offset), number)
}

/// The numbers of elements, by their places.
pub(crate) fn placed_by(alloc: Global, spots: &[&Spot<'_>]) -> Result<Placed, NoMemory>
    ensures { IfOk result (λ m. ArePlaced m (all_located spots.now) (length spots.now)) }
{
    let mut numbers = IndexMap::new(alloc);
    for (number, spot) in spots.iter().enumerate() {
        enter(alloc, &mut numbers, *spot, number)?;
    }
    Ok(numbers)
}

/// The numbers of the elements at a place.
fn numbers_in(numbers: &Placed, place: Place) -> &[usize]
    ensures { result.now ≡ numbers_at numbers.now place.page place.offset }
{
    let key = (place.page, place.offset);
    match numbers.get(&key) {
        Some(found) => found.as_slice(),
        None => &[],
    }
}

/// Whether the walk from one start leads to an element and to one of these too.
fn shares_any(courses: &Courses<'_>, numbers: &[usize], x: usize) -> bool
    requires { AreCourses courses.now }
    ensures { (result ≡ true) ↔ SharesAny courses.now.nexts.now courses.now.first numbers.now x }
{
    for y in numbers {
        if share(courses, x, *y) {
            return true;
        }
    }
    false
}

/// Whether the walk from one start leads to an element and to one around it too.
fn is_inner(courses: &Courses<'_>, numbers: &Placed, x: usize, spot: &Spot<'_>) -> bool
    requires { AreCourses courses.now }
    ensures { (result ≡ true) ↔ IsInner courses.now.nexts.now courses.now.first numbers.now x (located spot.now) }
{
    let page = spot.element.place.page;
    let mut up = spot.up;
    while let Some(around) = up {
        let offset = around.element.place.offset;
        let here = numbers_in(numbers, Place { page, offset });
        if shares_any(courses, here, x) {
            return true;
        }
        up = around.up;
    }
    false
}

/// Marks on the elements that stand inside others to which the walk from one start leads too.
pub(crate) fn inner_marks(
    alloc: Global,
    courses: &Courses<'_>,
    numbers: &Placed,
    spots: &[&Spot<'_>],
) -> Result<Vec<bool>, NoMemory>
    requires { AreCourses courses.now }
    ensures len { IfOk result (λ v. length v.items ≡ length spots.now) }
    ensures inner { IfOk result (λ v. AreInner courses.now.nexts.now courses.now.first numbers.now
        (all_located spots.now) (length spots.now) v.items) }
{
    let mut marks = Vec::new(alloc);
    for (x, spot) in spots.iter().enumerate() {
        marks.push(is_inner(courses, numbers, x, *spot))?;
    }
    Ok(marks)
}
