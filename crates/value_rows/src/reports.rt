//! Rules, breaches and reports.
ghost use Rattle.std.specs.Prelude.{◌≡◌, ◌<◌, [], All, IfOk, OnOk, length};

use anyhow::{Context, Result, bail};
use ix_base::{Breach, Breaches, Found, Place, Rule, Text};
use row_tables::{owned, yes_or_no};
use std::alloc::Global;

/// The rules that the rows name.
const RULES: [(&str, Rule); 16] = [
    ("S1", Rule::S1),
    ("S2", Rule::S2),
    ("W1", Rule::W1),
    ("W5", Rule::W5),
    ("W12", Rule::W12),
    ("N1", Rule::N1),
    ("N2", Rule::N2),
    ("N3", Rule::N3),
    ("N10", Rule::N10),
    ("N16", Rule::N16),
    ("N22", Rule::N22),
    ("L6", Rule::L6),
    ("L17", Rule::L17),
    ("V5", Rule::V5),
    ("P1", Rule::P1),
    ("X4", Rule::X4),
];

/// The rule of a name.
fn rule_of(name: &str) -> Result<Rule> {
    for (known, rule) in &RULES {
        if *known == name {
            return Ok(*rule);
        }
    }
    bail!("no such rule")
}

/// The code and the text of a rule.
pub(crate) fn rule(alloc: Global, name: &str) -> Result<String> {
    let rule = rule_of(name)?;
    Ok(format!(in alloc; "{}: {}", rule.code(), rule.text())?)
}

/// The class of a rule.
pub(crate) fn class(alloc: Global, name: &str) -> Result<String> {
    let rule = rule_of(name)?;
    Ok(format!(in alloc; "{:?}", rule.class())?)
}

/// Whether a rule stands in front of another, or is it.
pub(crate) fn order(alloc: Global, front: &str, behind: &str) -> Result<String> {
    let (front, behind) = (rule_of(front)?, rule_of(behind)?);
    owned(alloc, yes_or_no(front <= behind))
}

/// The breach that three words say: the number of its page, its offset and its rule.
fn found_of(text: &str) -> Result<Found> {
    let (page, rest) = text.split_once(' ').context("a page")?;
    let (offset, rule) = rest.split_once(' ').context("an offset")?;
    let place = Place {
        page: page.parse::<u32>().context("a page")?,
        offset: offset.parse::<u64>().context("an offset")?,
    };
    Ok(Found {
        place,
        rule: rule_of(rule)?,
    })
}

/// The breaches that a text says, one behind another.
fn all_found(alloc: Global, text: &str) -> Result<Vec<Found>> {
    let mut all = Vec::new(alloc);
    for part in text.split(", ").filter(|part| !part.is_empty()) {
        all.push(found_of(part)?)?;
    }
    Ok(all)
}

/// The names of pages.
fn names_of(alloc: Global, text: &str) -> Result<Vec<Text>> {
    let mut names = Vec::new(alloc);
    for name in text.split(' ').filter(|name| !name.is_empty()) {
        names.push(Text::of(alloc, name)?)?;
    }
    Ok(names)
}

/// Adds breaches on pages, of which there are so many.
fn add_all(found: &[Found], count: usize, breaches: &mut Breaches) -> Result<()>
    requires { breaches.old ≡ [] }
    ensures { OnOk result (All (λ f. f.place.page < count) breaches.new) }
{
    for found in found {
        if count <= found.place.page as usize {
            bail!("no such page");
        }
        breaches.add(found.place, found.rule)?;
    }
    Ok(())
}

/// Appends how many breaches there are.
fn push_len(len: usize, text: &mut String) -> Result<()> {
    if len == 0 {
        text.push_str("none")?;
    } else {
        write!(text, "{len}")?;
    }
    Ok(())
}

/// Appends the lines of a report.
fn push_lines(lines: &[Breach], text: &mut String) -> Result<()> {
    for line in lines {
        let page = line.page.as_str();
        write!(text, ", {page} {} {}", line.offset, line.rule.code())?;
    }
    Ok(())
}

/// Appends how many breaches there are, and the lines of their report.
fn push_report(breaches: Breaches, names: &[Text], text: &mut String) -> Result<()>
    requires { All (λ f. f.place.page < length names.now) breaches }
{
    push_len(breaches.len(), text)?;
    let report = breaches.report(names)?;
    push_lines(report.lines.as_slice(), text)
}

/// The breaches that a text says, on pages of which there are so many.
fn breaches_of(alloc: Global, count: usize, text: &str) -> Result<Breaches>
    ensures { IfOk result (λ breaches. All (λ f. f.place.page < count) breaches) }
{
    let mut breaches = Breaches::new(alloc);
    add_all(&all_found(alloc, text)?, count, &mut breaches)?;
    Ok(breaches)
}

/// The report of breaches on pages of these names.
pub(crate) fn report(alloc: Global, names: &str, found: &str) -> Result<String> {
    let names = names_of(alloc, names)?;
    let breaches = breaches_of(alloc, names.len(), found)?;
    let mut text = String::new(alloc);
    push_report(breaches, &names, &mut text)?;
    Ok(text)
}
