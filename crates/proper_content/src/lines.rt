//! The order of lists, by what is written of their members.
ghost use Rattle.std.specs.Prelude.{◌≡◌, map, IfOk};
ghost use Rattle.std.specs.List.{list_all};
ghost use Rattle.std.specs.Ordering.{on};
ghost use Rattle.ix_base.specs.Facts.{facts_of};
ghost use Rattle.ix_base.specs.PlainContents.{said_of};
ghost use Rattle.ix_base.specs.SortedLists.{text_cmp};
ghost use Rattle.proper_content.specs.InOrder.{notes_in_order, parts_in_order, references_in_order};
ghost use Rattle.instance_lines.specs.Canonical.{arc_line_cmp, arcrole_markup, fact_markups, line_cmp, linkbase_markup, role_markup, schema_markup};
ghost use Rattle.instance_lines.specs.Holdings.{said_spaces};
ghost use Rattle.instance_lines.specs.Lists.{rises, strictly};
ghost use Rattle.instance_out.specs.Proper as proper;

use crate::gathered::{Named, names_of};
use crate::order::{never_fall, rise};
use instance_lines::{arc_of, fact_lines_in, linkbase_line, role_line, schema_line};
use ix_base::{Arc, Content, Linkbase, NoMemory, NoteLink, RoleRef, Text};
use std::alloc::Global;

/// Whether each name of some things is before the next.
fn names_rise<T: Named>(alloc: Global, things: &[T]) -> Result<bool, NoMemory>
    ensures { IfOk result (λ b. b ≡ strictly text_cmp (map T.name things.now)) }
{
    let names = names_of(alloc, things)?;
    Ok(rise(names.as_slice()))
}

/// Whether no name of some things is behind the next.
fn names_never_fall<T: Named>(alloc: Global, things: &[T]) -> Result<bool, NoMemory>
    ensures { IfOk result (λ b. b ≡ rises text_cmp (map T.name things.now)) }
{
    let names = names_of(alloc, things)?;
    Ok(never_fall(names.as_slice()))
}

/// Whether the lines of schemas rise.
fn schemas_rise(alloc: Global, hrefs: &[Text]) -> Result<bool, NoMemory>
    ensures { IfOk result (λ b. b ≡ strictly line_cmp (map schema_markup hrefs.now)) }
{
    let mut lines = Vec::new(alloc);
    for href in hrefs {
        let line = schema_line(alloc, href.as_str())?;
        lines.push(line)?;
    }
    let answer = names_rise(alloc, lines.as_slice())?;
    Ok(answer)
}

/// Whether the lines of linkbases rise.
fn linkbases_rise(alloc: Global, linkbases: &[Linkbase]) -> Result<bool, NoMemory>
    ensures { IfOk result (λ b. b ≡ strictly line_cmp (map linkbase_markup linkbases.now)) }
{
    let mut lines = Vec::new(alloc);
    for linkbase in linkbases {
        let line = linkbase_line(alloc, linkbase)?;
        lines.push(line)?;
    }
    let answer = names_rise(alloc, lines.as_slice())?;
    Ok(answer)
}

/// Whether the lines of roles rise.
fn roles_rise(alloc: Global, roles: &[RoleRef]) -> Result<bool, NoMemory>
    ensures { IfOk result (λ b. b ≡ strictly line_cmp (map role_markup roles.now)) }
{
    let mut lines = Vec::new(alloc);
    for role in roles {
        let line = role_line(alloc, "link:roleRef", "roleURI", role)?;
        lines.push(line)?;
    }
    let answer = names_rise(alloc, lines.as_slice())?;
    Ok(answer)
}

/// Whether the lines of arcroles rise.
fn arcroles_rise(alloc: Global, roles: &[RoleRef]) -> Result<bool, NoMemory>
    ensures { IfOk result (λ b. b ≡ strictly line_cmp (map arcrole_markup roles.now)) }
{
    let mut lines = Vec::new(alloc);
    for role in roles {
        let line = role_line(alloc, "link:arcroleRef", "arcroleURI", role)?;
        lines.push(line)?;
    }
    let answer = names_rise(alloc, lines.as_slice())?;
    Ok(answer)
}

/// Whether the lines of facts never fall.
fn facts_never_fall(alloc: Global, content: &Content) -> Result<bool, NoMemory>
    ensures { IfOk result (λ b. b
        ≡ rises line_cmp (fact_markups (said_spaces (said_of content.now)) (facts_of content.now.facts))) }
{
    let lines = fact_lines_in(alloc, content)?;
    let answer = names_never_fall(alloc, lines.as_slice())?;
    Ok(answer)
}

/// Whether the texts of arcs rise.
fn arcs_rise(alloc: Global, arcs: &[Arc]) -> Result<bool, NoMemory>
    ensures { IfOk result (λ b. b ≡ strictly arc_line_cmp arcs.now) }
{
    let mut texts = Vec::new(alloc);
    for arc in arcs {
        let text = arc_of(alloc, arc)?;
        texts.push(text)?;
    }
    let answer = names_rise(alloc, texts.as_slice())?;
    Ok(answer)
}

/// Whether the locators, footnotes and arcs of a footnote link are in order, and stand once.
#[tactic(auto, using(crate::proofs::OrderLaws::link_told))]
fn is_link_in_order(alloc: Global, link: &NoteLink) -> Result<bool, NoMemory>
    ensures { IfOk result (λ b. b ≡ proper.link_in_order link.now) }
{
    if !names_rise(alloc, link.locs.as_slice())? {
        return Ok(false);
    }
    if !names_rise(alloc, link.footnotes.as_slice())? {
        return Ok(false);
    }
    let answer = arcs_rise(alloc, link.arcs.as_slice())?;
    Ok(answer)
}

/// Whether what each of these footnote links has is in order.
fn are_links_in_order(alloc: Global, links: &[NoteLink]) -> Result<bool, NoMemory>
    ensures { IfOk result (λ b. b ≡ list_all proper.link_in_order links.now) }
{
    for link in links {
        if !is_link_in_order(alloc, link)? {
            return Ok(false);
        }
    }
    Ok(true)
}

/// Whether references are in order, and stand once.
fn references_rise(alloc: Global, content: &Content) -> Result<bool, NoMemory>
    ensures { IfOk result (λ b. b ≡ references_in_order (said_of content.now)) }
{
    if !schemas_rise(alloc, content.schemas.as_slice())? {
        return Ok(false);
    }
    if !linkbases_rise(alloc, content.linkbases.as_slice())? {
        return Ok(false);
    }
    if !roles_rise(alloc, content.roles.as_slice())? {
        return Ok(false);
    }
    let answer = arcroles_rise(alloc, content.arcroles.as_slice())?;
    Ok(answer)
}

/// Whether contexts, units and facts are in order.
fn parts_never_fall(alloc: Global, content: &Content) -> Result<bool, NoMemory>
    ensures { IfOk result (λ b. b ≡ parts_in_order (said_of content.now)) }
{
    if !names_never_fall(alloc, content.contexts.as_slice())? {
        return Ok(false);
    }
    if !names_never_fall(alloc, content.units.as_slice())? {
        return Ok(false);
    }
    let answer = facts_never_fall(alloc, content)?;
    Ok(answer)
}

/// Whether footnote links are in order, with what they have.
fn links_never_fall(alloc: Global, content: &Content) -> Result<bool, NoMemory>
    ensures { IfOk result (λ b. b ≡ notes_in_order (said_of content.now)) }
{
    let links = content.notes.as_slice();
    if !names_never_fall(alloc, links)? {
        return Ok(false);
    }
    let answer = are_links_in_order(alloc, links)?;
    Ok(answer)
}

/// Whether each list is in the order of the instance, and references, locators, footnotes and arcs stand once. The cost is
/// that of writing the lines of references and facts and the texts of arcs, and of comparing neighbours.
#[tactic(auto, using(crate::proofs::OrderLaws::lists_told))]
pub(crate) fn lists_fit(alloc: Global, content: &Content) -> Result<bool, NoMemory>
    ensures { IfOk result (λ b. b ≡ proper.lists_fit (said_of content.now)) }
{
    if !references_rise(alloc, content)? {
        return Ok(false);
    }
    if !parts_never_fall(alloc, content)? {
        return Ok(false);
    }
    let answer = links_never_fall(alloc, content)?;
    Ok(answer)
}
