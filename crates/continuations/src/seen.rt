//! What chains reach, and what of it stands inside another element of its chain.
ghost use Rattle.std.specs.Prelude.{◌≡◌, IfOk, length};
ghost use Rattle.id_table.specs.Model.{asked};
ghost use Rattle.id_table.specs.Tables.{all_located};
ghost use Rattle.continuations.specs.Courses.{AreCourses};
ghost use Rattle.continuations.specs.InnerElements.{ArePlaced};
ghost use Rattle.continuations.specs.Links.{AreLinks};
ghost use Rattle.continuations.specs.Places.{StandsFor};
ghost use Rattle.continuations.specs.ChainReach.{inner_by, most_of, reached_by};
ghost use Rattle.continuations.specs.Visits.{Met};
ghost use Rattle.continuations.specs.Walks.{AreReached};

use crate::inside::{Placed, inner_marks, placed_by};
use crate::links::Links;
use crate::places::{Places, marked_places};
use crate::visits::{Visit, walks_of};
use crate::walks::{Courses, fars_of};
use id_table::Index;
use ix_base::NoMemory;

/// The places of what chains reach, by marks on it.
pub(crate) fn reached_places<'a>(
    index: &Index<'a>,
    links: &Links<'a>,
    marks: &[bool],
) -> Result<Places, NoMemory>
    requires links { AreLinks index.now.spots links.now }
    requires len { length marks.now ≡ length links.now.nexts.items }
    requires marked { AreReached links.now.nexts.items links.now.continuations (length links.now.nexts.items) marks.now }
    ensures { IfOk result (λ p. StandsFor p (reached_by (asked index.now) (most_of (asked index.now)) index.now.spots)) }
{
    marked_places(links.alloc, links.spots.as_slice(), marks)
}

/// The places of what stands inside another element of its chain, by the numbers at each place.
fn places_among<'a>(
    index: &Index<'a>,
    links: &Links<'a>,
    courses: &Courses<'_>,
    numbers: &Placed,
) -> Result<Places, NoMemory>
    requires links { AreLinks index.now.spots links.now }
    requires courses { AreCourses courses.now }
    requires nexts { courses.now.nexts.now ≡ links.now.nexts.items }
    requires first { courses.now.first ≡ links.now.continuations }
    requires placed { ArePlaced numbers.now (all_located links.now.spots.items) (length links.now.spots.items) }
    ensures { IfOk result (λ p. StandsFor p (inner_by (asked index.now) (most_of (asked index.now)) index.now.spots)) }
{
    let spots = links.spots.as_slice();
    let marks = inner_marks(links.alloc, courses, numbers, spots)?;
    marked_places(links.alloc, spots, marks.as_slice())
}

/// The places of what stands inside another element of its chain, along courses.
fn places_along<'a>(
    index: &Index<'a>,
    links: &Links<'a>,
    courses: &Courses<'_>,
) -> Result<Places, NoMemory>
    requires links { AreLinks index.now.spots links.now }
    requires nexts { courses.now.nexts.now ≡ links.now.nexts.items }
    requires first { courses.now.first ≡ links.now.continuations }
    requires courses { AreCourses courses.now }
    ensures { IfOk result (λ p. StandsFor p (inner_by (asked index.now) (most_of (asked index.now)) index.now.spots)) }
{
    let numbers = placed_by(links.alloc, links.spots.as_slice())?;
    places_among(index, links, courses, &numbers)
}

/// The places of what stands inside another element of its chain, by the walks.
fn places_walked<'a>(
    index: &Index<'a>,
    links: &Links<'a>,
    visits: &[Option<Visit>],
    meets: &[Option<usize>],
) -> Result<Places, NoMemory>
    requires links { AreLinks index.now.spots links.now }
    requires met { Met links.now.nexts.items links.now.continuations (length links.now.nexts.items) visits.now meets.now }
    requires meets { length meets.now ≡ length links.now.nexts.items }
    ensures { IfOk result (λ p. StandsFor p (inner_by (asked index.now) (most_of (asked index.now)) index.now.spots)) }
{
    let nexts = links.nexts.as_slice();
    let first = links.continuations;
    let fars = fars_of(links.alloc, nexts, first, visits, meets)?;
    let courses = Courses {
        nexts,
        first,
        visits,
        meets,
        fars: fars.as_slice(),
    };
    places_along(index, links, &courses)
}

/// The places of what stands inside another element of its chain.
pub(crate) fn inner_places<'a>(index: &Index<'a>, links: &Links<'a>) -> Result<Places, NoMemory>
    requires { AreLinks index.now.spots links.now }
    ensures { IfOk result (λ p. StandsFor p (inner_by (asked index.now) (most_of (asked index.now)) index.now.spots)) }
{
    let walked = walks_of(links.alloc, links.nexts.as_slice(), links.continuations)?;
    places_walked(
        index,
        links,
        walked.visits.as_slice(),
        walked.meets.as_slice(),
    )
}
