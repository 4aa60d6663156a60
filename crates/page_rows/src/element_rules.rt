//! The rules of elements that pages break.
ghost use Rattle.std.specs.Prelude.{◌<◌, All, IfOk};

use crate::sound_pages::sound_root;
use anyhow::{Result, ensure};
use bumpalo::Bump;
use ix_base::{Breach, Breaches, Element, NoMemory, Report, Spot, Text};
use ix_grammar::{check, check_page};
use std::alloc::Global;

/// What the elements of the first page break.
#[tactic(auto, using(ix_grammar::proofs::PageLaws::found_on_page))]
fn page_breaches(alloc: Global, root: &Element<'_>) -> Result<Breaches>
    ensures { IfOk result (λ found. All (λ f. f.place.page < 1) found) }
{
    ensure!(root.place.page == 0, "another page");
    let mut breaches = Breaches::new(alloc);
    check_page(alloc, root, &mut breaches)?;
    Ok(breaches)
}

/// What an element of the first page breaks, by the call for one element.
#[tactic(auto, using(ix_grammar::proofs::PageLaws::found_at_place))]
fn element_breaches(alloc: Global, spot: &Spot<'_>) -> Result<Breaches>
    ensures { IfOk result (λ found. All (λ f. f.place.page < 1) found) }
{
    ensure!(spot.element.place.page == 0, "another page");
    let mut breaches = Breaches::new(alloc);
    check(alloc, spot, &mut breaches)?;
    Ok(breaches)
}

/// The report of breaches on the first page.
fn report_of(alloc: Global, breaches: Breaches) -> Result<Report, NoMemory>
    requires { All (λ f. f.place.page < 1) breaches }
{
    breaches.report(&[Text::of(alloc, "a")?])
}

/// Appends the offset and the code of each line of a report.
fn push_lines(lines: &[Breach], text: &mut String) -> Result<()> {
    for line in lines {
        if !text.is_empty() {
            text.push_str(", ")?;
        }
        write!(text, "{} {}", line.offset, line.rule.code())?;
    }
    Ok(())
}

/// The offset and the code of each line of the report of breaches on the first page.
fn told(alloc: Global, breaches: Breaches) -> Result<String>
    requires { All (λ f. f.place.page < 1) breaches }
{
    let report = report_of(alloc, breaches)?;
    let mut text = String::new(alloc);
    push_lines(report.lines.as_slice(), &mut text)?;
    Ok(text)
}

/// What the elements of a page break.
pub(crate) fn of_page(alloc: Global, arena: &Bump, page: &str) -> Result<String> {
    let root = sound_root(alloc, arena, 0, page)?;
    told(alloc, page_breaches(alloc, root)?)
}

/// What the root of a page breaks.
pub(crate) fn of_root(alloc: Global, arena: &Bump, page: &str) -> Result<String> {
    let element = sound_root(alloc, arena, 0, page)?;
    told(alloc, element_breaches(alloc, &Spot { element, up: None })?)
}
