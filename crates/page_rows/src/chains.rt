//! Ids and continuations in sets of pages.
ghost use Rattle.std.specs.Prelude.{◌≡◌, ◌<◌, ◌++◌, All, OnOk, length, nat_lt};
ghost use Rattle.std.specs.List.{list_all};
ghost use Rattle.ix_base.specs.declared.rule.Rule.TheVariants.{L4, L5, L6, L7};
ghost use Rattle.ix_base.specs.LinkRules.{breaking};
ghost use Rattle.ix_base.specs.LocatedElements.{located};

use crate::sets::letters;
use anyhow::{Context, Result, ensure};
use bumpalo::Bump;
use continuations::{Chains, link};
use escape_text::plain;
use id_table::Index;
use ix_base::{Breach, Breaches, NoMemory, Spot, Text};
use row_tables::owned;
use std::alloc::Global;

/// Appends a line of a report as `PAGE:OFFSET CODE;`.
fn push_line(line: &Breach, lines: &mut String) -> Result<()> {
    let (page, code) = (line.page.as_str(), line.rule.code());
    write!(lines, "{page}:{} {code};", line.offset)?;
    Ok(())
}

/// Appends the lines of a report.
fn push_lines(report: &[Breach], lines: &mut String) -> Result<()> {
    for line in report {
        push_line(line, lines)?;
    }
    Ok(())
}

/// The lines of the report of breaches on pages of these names.
fn lines_of(alloc: Global, breaches: Breaches, names: &[Text]) -> Result<String>
    requires { All (λ f. f.place.page < length names.now) breaches }
{
    let report = breaches.report(names)?;
    let mut lines = String::new(alloc);
    push_lines(report.lines.as_slice(), &mut lines)?;
    Ok(lines)
}

/// Whether an element is of one of the first pages, so many.
fn is_within(spot: &Spot<'_>, count: usize) -> bool
    ensures { result ≡ nat_lt (located spot.now).page count }
{
    (spot.element.place.page as usize) < count
}

fn are_within(spots: &[&Spot<'_>], count: usize) -> bool
    ensures { result ≡ list_all (λ s. nat_lt (located s.now).page count) spots.now }
{
    spots.iter().all(|spot| is_within(spot, count))
}

/// The report on ids that stand more than once in an index, on pages of these names.
fn doubled_in(alloc: Global, index: &Index<'_>, names: &[Text]) -> Result<String> {
    ensure!(are_within(index.spots(), names.len()), "another page");
    let mut breaches = Breaches::new(alloc);
    index.doubled(&mut breaches)?;
    lines_of(alloc, breaches, names)
}

/// The report on ids that stand more than once in the index of so many pages, which are called by letters.
pub(crate) fn doubled(alloc: Global, index: &Index<'_>, count: usize) -> Result<String> {
    let names = letters(alloc, count)?;
    doubled_in(alloc, index, names.as_slice())
}

/// Adds the breaches of the rules on continuations of an index.
fn add_linked<'a>(
    alloc: Global,
    arena: &'a Bump,
    index: &Index<'a>,
    breaches: &mut Breaches,
) -> Result<(), NoMemory>
    ensures { OnOk result (breaches.new ≡ breaches.old ++ breaking L4 index.now.spots ++ breaking L5 index.now.spots
        ++ breaking L6 index.now.spots ++ breaking L7 index.now.spots) }
{
    link(alloc, arena, index, breaches)?;
    Ok(())
}

/// The report on the continuations of an index, on pages of these names.
fn linked_in<'a>(
    alloc: Global,
    arena: &'a Bump,
    index: &Index<'a>,
    names: &[Text],
) -> Result<String> {
    ensure!(are_within(index.spots(), names.len()), "another page");
    let mut breaches = Breaches::new(alloc);
    add_linked(alloc, arena, index, &mut breaches)?;
    lines_of(alloc, breaches, names)
}

/// The report on the continuations of the index of so many pages, which are called by letters.
pub(crate) fn linked<'a>(
    alloc: Global,
    arena: &'a Bump,
    index: &Index<'a>,
    count: usize,
) -> Result<String> {
    let names = letters(alloc, count)?;
    linked_in(alloc, arena, index, names.as_slice())
}

/// The text of a chain.
fn plain_of(alloc: Global, chain: &[&Spot<'_>]) -> Result<Text, NoMemory> {
    let mut text = Text::of(alloc, "")?;
    plain(chain, &mut text)?;
    Ok(text)
}

/// The text of the chain that begins at an element; `none` where no chain begins there.
fn text_from<'a>(alloc: Global, chains: &Chains<'a>, spot: &Spot<'a>) -> Result<String> {
    if !chains.has(spot) {
        return owned(alloc, "none");
    }
    let text = plain_of(alloc, chains.of(spot))?;
    owned(alloc, text.as_str())
}

/// The text of the chain of an index that begins at an element. The breaches that are found are added.
fn text_by<'a>(
    alloc: Global,
    arena: &'a Bump,
    index: &Index<'a>,
    spot: &Spot<'a>,
    breaches: &mut Breaches,
) -> Result<String> {
    let chains = link(alloc, arena, index, breaches)?;
    text_from(alloc, &chains, spot)
}

/// The text of the chain that begins at the element of an id.
pub(crate) fn text<'a>(
    alloc: Global,
    arena: &'a Bump,
    index: &Index<'a>,
    id: &str,
) -> Result<String> {
    let entry = index.one(id).context("no such element")?;
    let mut breaches = Breaches::new(alloc);
    text_by(alloc, arena, index, entry.spot, &mut breaches)
}
