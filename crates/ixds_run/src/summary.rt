//! The summary of targets.
ghost use Rattle.std.specs.Prelude.{◌≡◌, ◌+◌, ◌++◌, length, map, IfOk, OnOk};
ghost use Rattle.std.specs.Fmt.{decimal};
ghost use Rattle.std.specs.List.{flat_map};
ghost use Rattle.ix_base.specs.Facts.{Facts, before, facts_of};
ghost use Rattle.page_verdicts.specs.Summary.{item_count, link_ids, note_ids, tuple_count};
ghost use Rattle.page_verdicts.specs.Texts.{facts_text, others_text, shown_name, summary_line, summary_of};

use ix_base::{Content, Fact, Footnote, NoMemory, NoteLink, Text, each_once};
use std::alloc::Global;
use targets::Target;

/// How many items and how many tuples there are.
#[derive(Clone, Copy)]
struct Counts {
    items: usize,
    tuples: usize,
}

/// One more. A count that doesn't fit is want of memory.
fn one_more(count: usize) -> Result<usize, NoMemory>
    ensures { IfOk result (λ n. n ≡ count + 1) }
{
    match count.checked_add(1) {
        Some(more) => Ok(more),
        None => Err(NoMemory),
    }
}

/// The counts with a fact and its members.
#[cycle(count)]
fn with_fact(counts: Counts, fact: &Fact) -> Result<Counts, NoMemory>
    ensures items { IfOk result (λ c. (rest : Facts) → counts.items + item_count (before fact.now rest) ≡ c.items + item_count rest) }
    ensures tuples { IfOk result (λ c. (rest : Facts) → counts.tuples + tuple_count (before fact.now rest) ≡ c.tuples + tuple_count rest) }
{
    match fact {
        Fact::Item(_) => Ok(Counts {
            items: one_more(counts.items)?,
            tuples: counts.tuples,
        }),
        Fact::Tuple(tuple) => {
            let tuples = one_more(counts.tuples)?;
            let counts = Counts {
                items: counts.items,
                tuples,
            };
            with_facts(counts, tuple.members.as_slice())
        }
    }
}

/// The counts with facts and their members.
#[cycle(count)]
fn with_facts(mut counts: Counts, facts: &[Fact]) -> Result<Counts, NoMemory>
    ensures items { IfOk result (λ c. c.items ≡ counts.items + item_count (facts_of facts.now)) }
    ensures tuples { IfOk result (λ c. c.tuples ≡ counts.tuples + tuple_count (facts_of facts.now)) }
{
    for fact in facts {
        counts = with_fact(counts, fact)?;
    }
    Ok(counts)
}

/// Adds the ids of footnotes.
fn add_ids<'a>(notes: &'a [Footnote], ids: &mut Vec<&'a str>) -> Result<(), NoMemory>
    ensures { OnOk result (map (λ s. s.now) ids.new.items ≡ map (λ s. s.now) ids.old.items ++ map (λ n. n.id) notes.now) }
{
    for note in notes {
        ids.push(note.id.as_str())?;
    }
    Ok(())
}

/// The ids of the footnotes of links, as often as they stand.
fn ids_in<'a>(alloc: Global, links: &'a [NoteLink]) -> Result<Vec<&'a str>, NoMemory>
    ensures { IfOk result (λ v. map (λ s. s.now) v.items ≡ flat_map link_ids links.now) }
{
    let mut ids = Vec::new(alloc);
    for link in links {
        add_ids(link.footnotes.as_slice(), &mut ids)?;
    }
    Ok(ids)
}

/// How many footnotes links have, by their ids.
fn count_notes(alloc: Global, links: &[NoteLink]) -> Result<usize, NoMemory>
    ensures { IfOk result (λ n. n ≡ length (note_ids links.now)) }
{
    let mut ids = ids_in(alloc, links)?;
    each_once(&mut ids);
    Ok(ids.len())
}

/// The name of a target, as it is shown.
fn shown(name: &Text) -> &str
    ensures { result.now ≡ shown_name name.now }
{
    if name.as_str().is_empty() {
        "(default)"
    } else {
        name.as_str()
    }
}

/// Adds a number and what is counted.
fn push_count(alloc: Global, text: &mut Text, count: usize, what: &str) -> Result<(), NoMemory>
    ensures { OnOk result (text.new ≡ text.old ++ (decimal count ++ what.now)) }
{
    let digits = count.to_string(alloc)?;
    text.push(digits.as_str())?;
    text.push(what)
}

/// Adds how many items and tuples there are.
fn push_facts(alloc: Global, text: &mut Text, facts: &[Fact]) -> Result<(), NoMemory>
    ensures { OnOk result (text.new ≡ text.old ++ facts_text (facts_of facts.now)) }
{
    let none = Counts {
        items: 0,
        tuples: 0,
    };
    let counts = with_facts(none, facts)?;
    push_count(alloc, text, counts.items, " facts, ")?;
    push_count(alloc, text, counts.tuples, " tuples, ")
}

/// Adds how many contexts, units and footnotes a content has.
fn push_others(alloc: Global, text: &mut Text, content: &Content) -> Result<(), NoMemory>
    ensures { OnOk result (text.new ≡ text.old ++ others_text content.now) }
{
    let contexts = content.contexts.as_slice();
    let units = content.units.as_slice();
    let notes = count_notes(alloc, content.notes.as_slice())?;
    push_count(alloc, text, contexts.len(), " contexts, ")?;
    push_count(alloc, text, units.len(), " units, ")?;
    push_count(alloc, text, notes, " footnotes\n")?;
    Ok(())
}

/// Adds the line of a target.
fn push_line(alloc: Global, text: &mut Text, target: &Target) -> Result<(), NoMemory>
    ensures { OnOk result (text.new ≡ text.old ++ summary_line target.now) }
{
    text.push(shown(&target.name))?;
    text.push(": ")?;
    push_facts(alloc, text, target.content.facts.as_slice())?;
    push_others(alloc, text, &target.content)
}

/// The lines of targets.
fn lines_of(alloc: Global, targets: &[Target]) -> Result<Text, NoMemory>
    ensures { IfOk result (λ t. t ≡ flat_map summary_line targets.now) }
{
    let mut text = Text::of(alloc, "")?;
    for target in targets {
        push_line(alloc, &mut text, target)?;
    }
    Ok(text)
}

/// The lines of the summary.
#[tactic(auto, unfolding(page_verdicts::specs::Texts::summary_of))]
pub fn summary(alloc: Global, targets: &[Target]) -> Result<Text, NoMemory>
    ensures { IfOk result (λ t. t ≡ summary_of targets.now) }
{
    if targets.is_empty() {
        return Text::of(alloc, "no targets\n");
    }
    lines_of(alloc, targets)
}
