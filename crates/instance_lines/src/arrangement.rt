//! The parts of a content in the order in which an instance has them.
ghost use Rattle.std.specs.Prelude.{◌≡◌, map, IfOk, OnOk};
ghost use Rattle.std.specs.Ordering.{on};
ghost use Rattle.ix_base.specs.Facts.{facts_of};
ghost use Rattle.ix_base.specs.Once.{in_order};
ghost use Rattle.ix_base.specs.SortedLists.{sorted, text_cmp};
ghost use Rattle.instance_lines.specs.Arrangement.{arranged, arranged_link, by_line};
ghost use Rattle.instance_lines.specs.Canonical.{arcrole_markup, content_spaces, linkbase_markup, role_markup, schema_markup};
ghost use Rattle.instance_lines.specs.Elements.{fact_line, fact_markup, lines_of_facts, ordered_lines};
ghost use Rattle.instance_lines.specs.Numbering.{numbers_by};

use crate::arranged_note::links_in_order;
use crate::fact::line_of;
use crate::keys::{ByArcroleElement, ByElement, ById};
use crate::prefix::Prefixes;
use crate::sort::{Keyed, copies_of, put_by_keys, put_once_by_keys, views_of, with_keys};
use crate::spaces::spaces_in;
use ix_base::{Content, Context, Fact, Linkbase, List, NoMemory, RoleRef, Text, Unit};
use reordering::put_in_order;
use std::alloc::Global;
use std::mem;

/// The lines of facts in order, and the numbers of the facts in the order of these. Those with one line keep the order that
/// they have.
fn numbers_by_line(
    alloc: Global,
    prefixes: &Prefixes<'_>,
    facts: &[Fact],
) -> Result<(Vec<Text>, Vec<usize>), NoMemory>
    ensures lines { IfOk result (λ p. p.0.items ≡ ordered_lines prefixes.now facts.now) }
    ensures numbers { IfOk result (λ p. p.1.items ≡ numbers_by (fact_line prefixes.now) facts.now) }
{
    let mut keyed = Vec::with_capacity(alloc, facts.len())?;
    for number in 0..facts.len() {
        let key = line_of(alloc, prefixes, &facts[number])?;
        keyed.push(Keyed { key, item: number })?;
    }
    with_keys(alloc, keyed)
}

/// Puts facts in the order of their lines, and gives the lines. Those with one line keep the order that they have.
fn put_facts_by_line(
    alloc: Global,
    prefixes: &Prefixes<'_>,
    facts: &mut List<Fact>,
) -> Result<List<Text>, NoMemory>
    ensures facts { OnOk result (facts.new ≡ sorted (by_line (fact_markup prefixes.now)) facts.old) }
    ensures lines { IfOk result (λ l. l ≡ ordered_lines prefixes.now facts.old) }
{
    let (lines, numbers) = numbers_by_line(alloc, prefixes, facts.as_slice())?;
    let mut items = mem::replace(facts, List::new(alloc)).into_vec();
    put_in_order(alloc, &mut items, numbers)?;
    *facts = List::of(items);
    Ok(List::of(lines))
}

/// Copies of the namespaces of a content that need prefixes of their own, in order, each once.
pub fn owned_spaces(alloc: Global, content: &Content) -> Result<Vec<Text>, NoMemory>
    ensures { IfOk result (λ v. v.items ≡ content_spaces content.now (facts_of content.now.facts)) }
{
    let spaces = spaces_in(alloc, content)?;
    copies_of(alloc, spaces.as_slice())
}

/// Puts facts in the order of their lines, in an instance that has these further namespaces, and gives the lines.
fn put_facts_in_order(
    alloc: Global,
    spaces: &[Text],
    facts: &mut List<Fact>,
) -> Result<List<Text>, NoMemory>
    ensures facts { OnOk result (facts.new ≡ sorted (by_line (fact_markup spaces.now)) facts.old) }
    ensures lines { IfOk result (λ l. l ≡ ordered_lines spaces.now facts.old) }
{
    let views = views_of(alloc, spaces)?;
    let prefixes = Prefixes::of(alloc, views)?;
    put_facts_by_line(alloc, &prefixes, facts)
}

/// Puts the references of a content in order.
pub fn put_references_in_order(alloc: Global, content: &mut Content) -> Result<(), NoMemory>
    ensures { OnOk result (content.new ≡ record content.old {
      schemas = in_order (by_line schema_markup) content.old.schemas;
      linkbases = in_order (by_line linkbase_markup) content.old.linkbases;
      roles = in_order (by_line role_markup) content.old.roles;
      arcroles = in_order (by_line arcrole_markup) content.old.arcroles;
    }) }
{
    put_once_by_keys::<ByElement, Text>(alloc, &mut content.schemas)?;
    put_once_by_keys::<ByElement, Linkbase>(alloc, &mut content.linkbases)?;
    put_once_by_keys::<ByElement, RoleRef>(alloc, &mut content.roles)?;
    put_once_by_keys::<ByArcroleElement, RoleRef>(alloc, &mut content.arcroles)?;
    Ok(())
}

/// Puts the contexts, units, facts and footnote links of a content in order, in an instance that has these further namespaces,
/// and gives the lines of the facts.
pub fn put_rest_in_order(
    alloc: Global,
    spaces: &[Text],
    content: &mut Content,
) -> Result<List<Text>, NoMemory>
    ensures lines { IfOk result (λ l. l ≡ ordered_lines spaces.now content.old.facts) }
    ensures content { OnOk result (content.new ≡ record content.old {
      contexts = sorted (on (λ x. x.id) text_cmp) content.old.contexts;
      units = sorted (on (λ u. u.id) text_cmp) content.old.units;
      facts = sorted (by_line (fact_markup spaces.now)) content.old.facts;
      notes = map arranged_link (sorted (on (λ l. l.role) text_cmp) content.old.notes);
    }) }
{
    put_by_keys::<ById, Context>(alloc, &mut content.contexts)?;
    put_by_keys::<ById, Unit>(alloc, &mut content.units)?;
    let lines = put_facts_in_order(alloc, spaces, &mut content.facts)?;
    let notes = mem::replace(&mut content.notes, List::new(alloc));
    content.notes = links_in_order(alloc, notes)?;
    Ok(lines)
}

/// Puts each list of a content in the order in which its instance is written, and gives the lines of the facts.
pub fn put_all_in_order(alloc: Global, content: &mut Content) -> Result<List<Text>, NoMemory>
    ensures content { OnOk result (content.new ≡ arranged content.old) }
    ensures lines { IfOk result (λ l. l ≡ lines_of_facts content.new) }
{
    let spaces = owned_spaces(alloc, content)?;
    put_references_in_order(alloc, content)?;
    let lines = put_rest_in_order(alloc, spaces.as_slice(), content)?;
    Ok(lines)
}
