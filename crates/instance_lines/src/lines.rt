//! Writing contents.
ghost use Rattle.std.specs.Prelude.{◌≡◌, ◌++◌, ◌∷◌, [], map, IfOk, OnOk, All};
ghost use Rattle.std.specs.Ordering.{on};
ghost use Rattle.ix_base.specs.Facts.{facts_of};
ghost use Rattle.ix_base.specs.Once.{in_order};
ghost use Rattle.ix_base.specs.SortedLists.{sorted, text_cmp};
ghost use Rattle.instance_lines.specs.Canonical.{arcrole_markup, canon_lines, content_spaces, context_markup, first_line, last_line, line, line_cmp, link_markup, linkbase_markup, role_markup, root_line, schema_markup, unit_markup};
ghost use Rattle.instance_lines.specs.Elements.{lines_of_facts, ordered_lines};
ghost use Rattle.instance_lines.specs.Gains.{Gains};
ghost use Rattle.instance_lines.specs.Writable.{IsTimely, IsWritable};

use crate::context::context_lines;
use crate::fact::fact_lines;
use crate::note::link_lines;
use crate::prefix::Prefixes;
use crate::reference::{arcrole_lines, linkbase_lines, role_lines, schema_lines};
use crate::spaces::spaces_in;
use crate::unit::unit_lines;
use ix_base::{Content, List, NoMemory, Text};
use std::alloc::Global;

const FIRST_LINE: &str = "<?xml version=\"1.0\" encoding=\"UTF-8\"?>\n";

const LAST_LINE: &str = "</xbrli:xbrl>\n";

/// Adds lines.
fn add(mut more: Vec<Text>, lines: &mut Vec<Text>) -> Result<(), NoMemory>
    ensures { OnOk result (Gains lines.old.items lines.new.items (λ others. more.items ++ others)) }
{
    lines.append(&mut more)?;
    Ok(())
}

/// Adds the line of the XML declaration, and that of the root's start tag.
fn add_head(alloc: Global, prefixes: &Prefixes<'_>, lines: &mut Vec<Text>) -> Result<(), NoMemory>
    ensures { OnOk result (Gains lines.old.items lines.new.items (λ more. first_line ∷ root_line prefixes.now ∷ more)) }
{
    let first = Text::of(alloc, FIRST_LINE)?;
    lines.push(first)?;
    let root = prefixes.root_line(alloc)?;
    lines.push(root)?;
    Ok(())
}

/// Adds the line of the root's end tag.
fn add_last(alloc: Global, lines: &mut Vec<Text>) -> Result<(), NoMemory>
    ensures { OnOk result (lines.new.items ≡ lines.old.items ++ last_line ∷ []) }
{
    let last = Text::of(alloc, LAST_LINE)?;
    lines.push(last)?;
    Ok(())
}

/// Adds the lines of references.
fn add_references(alloc: Global, content: &Content, lines: &mut Vec<Text>) -> Result<(), NoMemory>
    ensures { OnOk result (Gains lines.old.items lines.new.items (λ more.
        map line (in_order line_cmp (map schema_markup content.now.schemas))
        ++ (map line (in_order line_cmp (map linkbase_markup content.now.linkbases))
        ++ (map line (in_order line_cmp (map role_markup content.now.roles))
        ++ (map line (in_order line_cmp (map arcrole_markup content.now.arcroles))
        ++ more))))) }
{
    let schemas = schema_lines(alloc, content.schemas.as_slice())?;
    add(schemas, lines)?;
    let linkbases = linkbase_lines(alloc, content.linkbases.as_slice())?;
    add(linkbases, lines)?;
    let roles = role_lines(alloc, content.roles.as_slice())?;
    add(roles, lines)?;
    let arcroles = arcrole_lines(alloc, content.arcroles.as_slice())?;
    add(arcroles, lines)?;
    Ok(())
}

/// Adds the lines of contexts and units, these lines of the facts, and those of footnote links.
fn add_facts(
    alloc: Global,
    prefixes: &Prefixes<'_>,
    content: &Content,
    facts: Vec<Text>,
    lines: &mut Vec<Text>,
) -> Result<(), NoMemory>
    requires timely { All (λ x. IsTimely x.period) content.now.contexts }
    requires facts { facts.items ≡ ordered_lines prefixes.now content.now.facts }
    ensures { OnOk result (Gains lines.old.items lines.new.items (λ more.
        map (λ x. line (context_markup prefixes.now x)) (sorted (on (λ x. x.id) text_cmp) content.now.contexts)
        ++ (map (λ x. line (unit_markup prefixes.now x)) (sorted (on (λ x. x.id) text_cmp) content.now.units)
        ++ (ordered_lines prefixes.now content.now.facts
        ++ (map (λ x. line (link_markup x)) (sorted (on (λ l. l.role) text_cmp) content.now.notes)
        ++ more))))) }
{
    let contexts = context_lines(alloc, prefixes, content.contexts.as_slice())?;
    add(contexts, lines)?;
    let units = unit_lines(alloc, prefixes, content.units.as_slice())?;
    add(units, lines)?;
    add(facts, lines)?;
    let notes = link_lines(alloc, content.notes.as_slice())?;
    add(notes, lines)?;
    Ok(())
}

/// The lines of a content, in an instance with the prefixes that it needs, where those of its facts are these.
fn lines_with(
    alloc: Global,
    prefixes: &Prefixes<'_>,
    content: &Content,
    facts: Vec<Text>,
) -> Result<List<Text>, NoMemory>
    requires writable { IsWritable content.now }
    requires prefixes { prefixes.now ≡ content_spaces content.now (facts_of content.now.facts) }
    requires facts { facts.items ≡ ordered_lines prefixes.now content.now.facts }
    ensures { IfOk result (λ ls. ls ≡ canon_lines content.now) }
{
    let mut lines = Vec::new(alloc);
    add_head(alloc, prefixes, &mut lines)?;
    add_references(alloc, content, &mut lines)?;
    add_facts(alloc, prefixes, content, facts, &mut lines)?;
    add_last(alloc, &mut lines)?;
    Ok(List::of(lines))
}

/// The lines of a content.
pub fn all_lines(alloc: Global, content: &Content) -> Result<List<Text>, NoMemory>
    requires { IsWritable content.now }
    ensures { IfOk result (λ ls. ls ≡ canon_lines content.now) }
{
    let spaces = spaces_in(alloc, content)?;
    let prefixes = Prefixes::of(alloc, spaces)?;
    let facts = fact_lines(alloc, &prefixes, content.facts.as_slice())?;
    lines_with(alloc, &prefixes, content, facts)
}

/// The lines of a content, where those of its facts are these. None of these is made again.
pub fn all_lines_with(
    alloc: Global,
    content: &Content,
    facts: List<Text>,
) -> Result<List<Text>, NoMemory>
    requires writable { IsWritable content.now }
    requires facts { facts ≡ lines_of_facts content.now }
    ensures { IfOk result (λ ls. ls ≡ canon_lines content.now) }
{
    let spaces = spaces_in(alloc, content)?;
    let prefixes = Prefixes::of(alloc, spaces)?;
    lines_with(alloc, &prefixes, content, facts.into_vec())
}
