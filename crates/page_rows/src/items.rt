//! What items say.
ghost use Rattle.std.specs.Prelude.{◌≡◌, [], IfOk, OnOk};
ghost use Rattle.ix_base.specs.declared.limits.TheConstants.{DEEPEST_ELEMENT};
ghost use Rattle.ix_base.specs.Sound.{IsSoundRoot};
ghost use Rattle.id_table.specs.Model.{AreChosen};

use crate::sound_pages::sound_root;
use anyhow::{Result, bail, ensure};
use bumpalo::Bump;
use fact_view::{FactView, view};
use facts::{ItemFault, item_of, refs_of};
use id_table::Index;
use ix_base::{Accuracy, Breaches, Element, Item, NoMemory, Spot, Text, Value};
use row_tables::{Cell, owned, push_name, quoted};
use scopes::Bases;
use std::alloc::Global;

/// What the root of a page says, or the rule of values that it breaks.
fn said_by<'a>(alloc: Global, element: &'a Element<'a>) -> Result<Result<Item, ItemFault>>
    requires { IsSoundRoot element.now 0 DEEPEST_ELEMENT }
{
    ensure!(element.place.page == 0, "another page");
    let mut bases = Bases::new(alloc);
    bases.add_page("http://example.com/r/", "a.html", element)?;
    let spot = Spot { element, up: None };
    Ok(item_of(alloc, &spot, &[&spot], &bases))
}

/// The root of the page that a row gives.
fn root_of<'a>(alloc: Global, arena: &'a Bump, cells: &[Cell]) -> Result<&'a Element<'a>>
    ensures { IfOk result (λ root. IsSoundRoot root.now 0 DEEPEST_ELEMENT) }
{
    let [page] = cells else {
        bail!("a page is wanted");
    };
    sound_root(alloc, arena, 0, page.text()?)
}

/// What the root of the page that a row gives says, or the rule of values that it breaks.
fn said(alloc: Global, arena: &Bump, cells: &[Cell]) -> Result<Result<Item, ItemFault>> {
    said_by(alloc, root_of(alloc, arena, cells)?)
}

/// A value: a text in quotes, two numbers with `/` between them, or `nil`.
fn value_said(alloc: Global, value: &Value) -> Result<String> {
    match value {
        Value::Nil => owned(alloc, "nil"),
        Value::Plain(text) => quoted(alloc, Some(text.as_str())),
        Value::Fraction(n, d) => Ok(format!(in alloc; "{}/{}", n.as_str(), d.as_str())?),
    }
}

/// The value of an item, or the rule that is broken.
fn value_or_rule(alloc: Global, said: &Result<Item, ItemFault>) -> Result<String> {
    match said {
        Ok(item) => value_said(alloc, &item.value),
        Err(ItemFault::Breach(rule)) => owned(alloc, rule.code()),
        Err(ItemFault::NoMemory) => bail!("no memory"),
    }
}

/// The value that the root of a page says, or the rule that it breaks.
pub(crate) fn value(alloc: Global, arena: &Bump, cells: &[Cell]) -> Result<String> {
    value_or_rule(alloc, &said(alloc, arena, cells)?)
}

/// A text, or a dash where there is none.
fn or_dash(text: &Option<Text>) -> &str {
    match text {
        Some(text) => text.as_str(),
        None => "-",
    }
}

/// Appends the accuracy of an item, or a dash.
fn push_accuracy(accuracy: &Option<Accuracy>, text: &mut String) -> Result<()> {
    match accuracy {
        Some(Accuracy::Decimals(exact)) => write!(text, "decimals={}", exact.as_str())?,
        Some(Accuracy::Precision(exact)) => write!(text, "precision={}", exact.as_str())?,
        None => text.push_str("-")?,
    }
    Ok(())
}

/// Appends the name, context, unit, accuracy and id of an item.
fn push_fields(item: &Item, text: &mut String) -> Result<()> {
    let (ns, local) = (item.name.ns.as_str(), item.name.local.as_str());
    let (context, unit) = (item.context.as_str(), or_dash(&item.unit));
    write!(text, "{{{ns}}}{local} {context} {unit} ")?;
    push_accuracy(&item.accuracy, text)?;
    write!(text, " {}", or_dash(&item.id))?;
    Ok(())
}

/// The name, context, unit, accuracy and id of an item.
fn fields_of(alloc: Global, item: &Item) -> Result<String> {
    let mut text = String::new(alloc);
    push_fields(item, &mut text)?;
    Ok(text)
}

/// What stands beside the value of an item, where no rule is broken.
fn fields_said(alloc: Global, said: &Result<Item, ItemFault>) -> Result<String> {
    match said {
        Ok(item) => fields_of(alloc, item),
        Err(_) => bail!("a rule is broken"),
    }
}

/// What stands beside the value of what the root of a page says: its name, context, unit, accuracy and id.
pub(crate) fn fields(alloc: Global, arena: &Bump, cells: &[Cell]) -> Result<String> {
    fields_said(alloc, &said(alloc, arena, cells)?)
}

/// Refuses pages of which two elements have one id, or two tuples one tuple id.
pub(crate) fn ensure_apart(alloc: Global, index: &Index<'_>) -> Result<()>
    requires { index.now.choices ≡ [] }
    ensures { OnOk result (AreChosen index.now) }
{
    let mut twice = Breaches::new(alloc);
    index.doubled(&mut twice)?;
    ensure!(twice.is_empty(), "an id stands twice");
    Ok(())
}

/// Adds a breach for each context and each unit that the elements of an index miss.
fn add_missed(index: &Index<'_>, breaches: &mut Breaches) -> Result<(), NoMemory>
    requires { AreChosen index.now }
{
    for spot in index.spots() {
        refs_of(spot, index, breaches)?;
    }
    Ok(())
}

/// How many contexts and units the elements of an index miss.
pub(crate) fn missed(alloc: Global, index: &Index<'_>) -> Result<String>
    requires { AreChosen index.now }
{
    let mut breaches = Breaches::new(alloc);
    add_missed(index, &mut breaches)?;
    Ok(breaches.len().to_string(alloc)?)
}

/// Appends what the attributes of a fact say.
fn push_view(seen: &FactView<'_>, text: &mut String) -> Result<()> {
    push_name(text, seen.name.ns, seen.name.local)?;
    write!(text, " target={} nil={}", seen.target, seen.nil)?;
    write!(text, " scale={} negative={}", seen.scale, seen.negative)?;
    write!(text, " escape={} format=", seen.escape)?;
    match seen.format {
        Some(format) => push_name(text, format.ns, format.local)?,
        None => text.push_str("none")?,
    }
    Ok(())
}

/// What the attributes of a fact say.
fn view_said(alloc: Global, seen: &FactView<'_>) -> Result<String> {
    let mut text = String::new(alloc);
    push_view(seen, &mut text)?;
    Ok(text)
}

/// What the attributes of the root of a page say.
pub(crate) fn viewed(alloc: Global, arena: &Bump, cells: &[Cell]) -> Result<String> {
    let element = root_of(alloc, arena, cells)?;
    view_said(alloc, &view(&Spot { element, up: None }))
}
