//! Writing facts.
ghost use Rattle.std.specs.Prelude.{◌≡◌, ℕ, List, map, IfOk, OnOk};
ghost use Rattle.ix_base.specs.Facts.{facts_of};
ghost use Rattle.ix_base.specs.PlainContents.{said_of};
ghost use Rattle.ix_base.specs.WrittenMarkup.{Attribute, written, nothing};
ghost use Rattle.instance_lines.specs.Canonical.{accuracy_attrs, item_attrs, item_markup, value_markup};
ghost use Rattle.instance_lines.specs.Canonical.{fact_markups, facts_markup, line};
ghost use Rattle.instance_lines.specs.Elements.{fact_line, fact_markup, ordered_lines};
ghost use Rattle.instance_lines.specs.Gains.{Gains, GainsAttributes, GainsOpened, GainsUnclosed};
ghost use Rattle.instance_lines.specs.Holdings.{said_spaces};
ghost use Rattle.instance_lines.specs.SpelledNames.{spelled};

use crate::markup::{Valued, push_element, push_further, push_plain, push_text};
use crate::prefix::Prefixes;
use crate::sort::sort_texts;
use crate::spaces::spaces_in;
use crate::spelled::{Spelled, push_name, push_named_close, push_named_leaf, push_named_start};
use ix_base::{Accuracy, Content, Fact, Item, NoMemory, Text, Tuple, Value, push_ae, shown};
use std::alloc::Global;

/// How many bytes a line of a fact has room for at first.
const LINE: usize = 64;

/// Appends how exact an item is, behind the value of an attribute. Neither has its end quote yet.
fn push_accuracy(item: &Item, out: &mut Text) -> Result<(), NoMemory>
    ensures { OnOk result (GainsAttributes out.old out.new (accuracy_attrs item.now.accuracy)) }
{
    let Some(accuracy) = &item.accuracy else {
        return Ok(());
    };
    match accuracy {
        Accuracy::Decimals(decimals) => {
            push_further("\" decimals=\"", Some(decimals.as_str()), out)?;
            Ok(())
        }
        Accuracy::Precision(precision) => {
            push_further("\" precision=\"", Some(precision.as_str()), out)?;
            Ok(())
        }
    }
}

/// Appends the start tag of an item, before the end quote of its last attribute.
fn push_item_start(name: Spelled<'_, '_>, item: &Item, out: &mut Text) -> Result<(), NoMemory>
    ensures { OnOk result (GainsOpened out.old out.new (spelled name.entry) (item_attrs item.now)) }
{
    push_plain("<", out)?;
    push_name(name, out)?;
    push_plain(" contextRef=\"", out)?;
    push_ae(item.context.as_str(), out)?;
    push_further("\" unitRef=\"", shown(&item.unit), out)?;
    push_accuracy(item, out)?;
    push_further("\" id=\"", shown(&item.id), out)?;
    Ok(())
}

/// Appends a value and the end tag of its element, before its last `>`, behind a start tag that ends before the end quote of its
/// last attribute.
fn push_value(name: Spelled<'_, '_>, value: &Value, out: &mut Text) -> Result<(), NoMemory>
    ensures { OnOk result ((before : List ℕ) (attrs : List Attribute) → GainsOpened before out.old (spelled name.entry) attrs
        → GainsUnclosed before out.new (written (value_markup (spelled name.entry) attrs value.now nothing))) }
{
    match value {
        Value::Nil => {
            push_plain("\" xsi:nil=\"true\"/", out)?;
            Ok(())
        }
        Value::Plain(text) => {
            push_plain("\">", out)?;
            push_text(text.as_str(), out)?;
            push_named_close(name, out)?;
            Ok(())
        }
        Value::Fraction(above, below) => {
            push_plain("\">", out)?;
            push_element("xbrli:numerator", &[], above.as_str(), out)?;
            push_element("xbrli:denominator", &[], below.as_str(), out)?;
            push_named_close(name, out)?;
            Ok(())
        }
    }
}

/// Appends an item, before its last `>`.
fn push_item(prefixes: &Prefixes<'_>, item: &Item, out: &mut Text) -> Result<(), NoMemory>
    ensures { OnOk result (GainsUnclosed out.old out.new (written (item_markup prefixes.now item.now nothing))) }
{
    let name = prefixes.spelled(&item.name);
    push_item_start(name, item, out)?;
    push_value(name, &item.value, out)?;
    Ok(())
}

/// Appends a tuple with its members, before its last `>`.
#[cycle(push)]
fn push_tuple(prefixes: &Prefixes<'_>, tuple: &Tuple, out: &mut Text) -> Result<(), NoMemory>
    ensures { OnOk result (GainsUnclosed out.old out.new (written (fact_markup prefixes.now (Fact.Tuple tuple.now)))) }
{
    let name = prefixes.spelled(&tuple.name);
    let id = Valued {
        name: "id",
        value: shown(&tuple.id),
    };
    if tuple.nil {
        let nil = Valued {
            name: "xsi:nil",
            value: Some("true"),
        };
        push_named_leaf(name, &[id, nil], out)?;
        return Ok(());
    }
    push_named_start(name, &[id], out)?;
    push_facts(prefixes, tuple.members.as_slice(), out)?;
    push_named_close(name, out)?;
    Ok(())
}

/// Appends a fact, before its last `>`, so that the end of a line is appended with it.
#[cycle(push)]
fn push_fact(prefixes: &Prefixes<'_>, fact: &Fact, out: &mut Text) -> Result<(), NoMemory>
    ensures { OnOk result (GainsUnclosed out.old out.new (written (fact_markup prefixes.now fact.now))) }
{
    match fact {
        Fact::Item(item) => {
            push_item(prefixes, item, out)?;
            Ok(())
        }
        Fact::Tuple(tuple) => {
            push_tuple(prefixes, tuple, out)?;
            Ok(())
        }
    }
}

/// Appends facts.
#[cycle(push)]
fn push_facts(prefixes: &Prefixes<'_>, facts: &[Fact], out: &mut Text) -> Result<(), NoMemory>
    ensures { OnOk result (Gains out.old out.new (written (facts_markup prefixes.now (facts_of facts.now)))) }
{
    for fact in facts {
        push_fact(prefixes, fact, out)?;
        push_plain(">", out)?;
    }
    Ok(())
}

/// The line of a fact.
pub fn line_of(alloc: Global, prefixes: &Prefixes<'_>, fact: &Fact) -> Result<Text, NoMemory>
    ensures { IfOk result (λ t. t ≡ fact_line prefixes.now fact.now) }
{
    let mut out = Text::with_room(alloc, LINE)?;
    push_fact(prefixes, fact, &mut out)?;
    out.push(">\n")?;
    Ok(out)
}

/// The lines of facts, as the facts stand.
pub fn lines_of(
    alloc: Global,
    prefixes: &Prefixes<'_>,
    facts: &[Fact],
) -> Result<Vec<Text>, NoMemory>
    ensures { IfOk result (λ v. v.items ≡ map (fact_line prefixes.now) facts.now) }
{
    let mut lines = Vec::new(alloc);
    for fact in facts {
        let line = line_of(alloc, prefixes, fact)?;
        lines.push(line)?;
    }
    Ok(lines)
}

/// The lines of facts, in order.
pub fn fact_lines(
    alloc: Global,
    prefixes: &Prefixes<'_>,
    facts: &[Fact],
) -> Result<Vec<Text>, NoMemory>
    ensures { IfOk result (λ v. v.items ≡ ordered_lines prefixes.now facts.now) }
{
    let mut lines = lines_of(alloc, prefixes, facts)?;
    sort_texts(&mut lines);
    Ok(lines)
}

/// The lines of the facts of a content, as the facts stand.
pub fn fact_lines_in(alloc: Global, content: &Content) -> Result<Vec<Text>, NoMemory>
    ensures { IfOk result (λ v. v.items ≡ map line (fact_markups (said_spaces (said_of content.now)) (facts_of content.now.facts))) }
{
    let spaces = spaces_in(alloc, content)?;
    let prefixes = Prefixes::of(alloc, spaces)?;
    let lines = lines_of(alloc, &prefixes, content.facts.as_slice())?;
    Ok(lines)
}
