//! Where the text of each fact of a set of pages stands.
ghost use Rattle.std.specs.Prelude.{◌≡◌, ◌++◌, ◌<◌, ◌≤◌, ℕ, List as Items, false, true, length, map, IfOk, OnOk};
ghost use Rattle.std.specs.List.{flat_map};
ghost use Rattle.ix_base.specs.declared.limits.TheConstants.{MOST_PAGES};
ghost use Rattle.fact_trace.specs.Spans.{traces};
ghost use Rattle.targets.specs.Breaches.{PagesComeTo};
ghost use Rattle.targets.specs.Forest.{trees_of};
ghost use Rattle.target_contents.specs.declared.outcome.Outcome.TheVariants.{Whole};
ghost use Rattle.target_contents.specs.declared.outcome.Target.{Target as TargetOf};
ghost use Rattle.page_names.specs.Names.{has_repeat};
ghost use Rattle.page_verdicts.specs.PageReads.{AreRoots, IsRead, IsSound};
ghost use Rattle.page_verdicts.specs.Texts.{item_text, next_span, span_text, spans_text, trace_line};
ghost use Rattle.page_verdicts.specs.declared.verdict.Verdict.TheVariants.{Printed};
ghost use Rattle.page_verdicts.specs.Verdicts.{AreWritable, IsTraced, sources, trace_text};

use crate::judge::judge;
use crate::read_pages::Forest;
use crate::verdict::Verdict;
use bumpalo::Bump;
use fact_trace::{Span, Traced, Tracer};
use ix_base::{Element, List, NoMemory, Text};
use page_tree::laws::no_tree;
use std::alloc::Global;
use targets::Outcome;

/// Adds where a span stands.
fn push_span(alloc: Global, text: &mut Text, span: &Span) -> Result<(), NoMemory>
    ensures { OnOk result (text.new ≡ text.old ++ span_text span.now) }
{
    let start = span.start.to_string(alloc)?;
    let end = span.end.to_string(alloc)?;
    text.push(span.page.as_str())?;
    text.push(":")?;
    text.push(start.as_str())?;
    text.push("-")?;
    text.push(end.as_str())
}

/// Adds where spans stand that follow others.
fn push_more(alloc: Global, text: &mut Text, spans: &[Span]) -> Result<(), NoMemory>
    ensures { OnOk result (text.new ≡ text.old ++ flat_map next_span spans.now) }
{
    for span in spans {
        text.push(", ")?;
        push_span(alloc, text, span)?;
    }
    Ok(())
}

/// Adds where the spans of an item stand, or that it is nil.
fn push_spans(alloc: Global, text: &mut Text, item: &Traced) -> Result<(), NoMemory>
    ensures { OnOk result (text.new ≡ text.old ++ spans_text item.now.nil item.now.spans) }
{
    if item.nil {
        return text.push(" nil");
    }
    let [first, more @ ..] = item.spans.as_slice() else {
        return Ok(());
    };
    text.push(" ")?;
    push_span(alloc, text, first)?;
    push_more(alloc, text, more)
}

/// Adds where an item stands, and its name.
fn push_item(alloc: Global, text: &mut Text, item: &Traced) -> Result<(), NoMemory>
    ensures { OnOk result (text.new ≡ text.old ++ item_text item.now) }
{
    let offset = item.offset.to_string(alloc)?;
    text.push(item.page.as_str())?;
    text.push(":")?;
    text.push(offset.as_str())?;
    text.push(" {")?;
    text.push(item.name.ns.as_str())?;
    text.push("}")?;
    text.push(item.name.local.as_str())
}

/// Adds the line of an item.
fn push_line(alloc: Global, text: &mut Text, item: &Traced) -> Result<(), NoMemory>
    ensures { OnOk result (text.new ≡ text.old ++ trace_line item.now) }
{
    push_item(alloc, text, item)?;
    text.push(":")?;
    push_spans(alloc, text, item)?;
    text.push("\n")
}

/// The lines of items.
fn lines_of(alloc: Global, items: &[Traced]) -> Result<Text, NoMemory>
    ensures { IfOk result (λ t. t ≡ flat_map trace_line items.now) }
{
    let mut text = Text::of(alloc, "")?;
    for item in items {
        push_line(alloc, &mut text, item)?;
    }
    Ok(text)
}

/// The items of pages that break no rule.
fn items_of<'a>(
    alloc: Global,
    arena: &'a Bump,
    names: &[Text],
    texts: &[&'a [u8]],
    roots: &[&'a Element<'a>],
) -> Result<List<Traced>, NoMemory>
    requires once { has_repeat names.now ≡ false }
    requires count { length texts.now ≡ length names.now }
    requires roots { AreRoots 0 (map (λ t. t.now) texts.now) roots.now }
    requires unbroken { (base : Items ℕ) × ((targets : Items TargetOf)
        × PagesComeTo base names.now (map (λ t. t.now) texts.now) (Whole targets)) }
    ensures { IfOk result (λ l. l ≡ traces (sources names.now (map (λ t. t.now) texts.now) (trees_of roots.now))) }
{
    let mut tracer = Tracer::new(alloc, arena);
    for (number, name) in names.iter().enumerate() {
        tracer.add_page(name.as_str(), texts[number], roots[number])?;
    }
    tracer.finish()
}

/// The lines of the items of pages that break no rule.
fn printed<'a>(
    alloc: Global,
    arena: &'a Bump,
    names: &[Text],
    texts: &[&'a [u8]],
    roots: &[&'a Element<'a>],
) -> Result<Verdict, NoMemory>
    requires once { has_repeat names.now ≡ false }
    requires count { length texts.now ≡ length names.now }
    requires roots { AreRoots 0 (map (λ t. t.now) texts.now) roots.now }
    requires unbroken { (base : Items ℕ) × ((targets : Items TargetOf)
        × PagesComeTo base names.now (map (λ t. t.now) texts.now) (Whole targets)) }
    ensures { IfOk result (λ v. v ≡ Printed (trace_text names.now (map (λ t. t.now) texts.now) (trees_of roots.now))) }
{
    let items = items_of(alloc, arena, names, texts, roots)?;
    let text = lines_of(alloc, items.as_slice())?;
    Ok(Verdict::Printed(text))
}

/// What pages come to whose facts are to be shown where they stand.
pub fn traced<'a>(
    alloc: Global,
    arena: &'a Bump,
    base: &str,
    names: &[Text],
    forest: Forest<'a>,
) -> Result<Verdict, NoMemory>
    requires some { 0 < length names.now }
    requires most { length names.now ≤ MOST_PAGES }
    requires once { has_repeat names.now ≡ false }
    requires sound { IsSound names.now forest }
    requires keeps { forest.keeps ≡ true }
    requires read { (bs : Items (Items ℕ)) × IsRead bs forest }
    ensures makes { IfOk result (λ v. (bs : Items (Items ℕ)) → IsRead bs forest.entry → IsTraced base.now names.now bs v) }
    ensures written { IfOk result AreWritable }
{
    let texts = forest.texts.as_slice().to_vec(alloc)?;
    let roots = forest.roots.as_slice().to_vec(alloc)?;
    no_tree();
    match judge(alloc, arena, base, names, forest)? {
        Outcome::Broken(report) => Ok(Verdict::Reported(report)),
        Outcome::Whole(_) => printed(alloc, arena, names, texts.as_slice(), roots.as_slice()),
    }
}
