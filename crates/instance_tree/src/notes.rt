//! Footnote links.
ghost use Rattle.std.specs.Prelude.{◌≡◌, [], None, map, option_map, IfOk};
ghost use Rattle.ix_base.specs.Markup.{markup};
ghost use Rattle.ix_base.specs.Trees.{nodes_of, tree_of};
ghost use Rattle.instance_out.specs.Denotation as denotation;
ghost use Rattle.instance_tree.specs.ReaderWords.{arc_by, arcs_in, end_at, id_at, link_by};

use crate::children::{Reader, read_links};
use crate::ends::{Ends, ends_of, id_of, table_of};
use crate::links::{is_typed, xlink_of};
use escape_text::markup_as_is;
use ix_base::namespaces::XML;
use ix_base::{Arc, Element, Footnote, List, NoMemory, Node, NoteLink, Text, attr_of};
use std::alloc::Global;

/// The reader of locators. Each is a label and the id to which it leads.
#[derive(Clone, Copy)]
struct LocatorReader;

/// The reader of footnotes.
#[derive(Clone, Copy)]
struct FootnoteReader;

/// The reader of arcs, with the id at each label.
#[derive(Clone, Copy)]
struct ArcReader<'a, 'e> {
    ends: &'e Ends<'a>,
}

/// The reader of footnote links.
#[derive(Clone, Copy)]
pub(super) struct LinkReader;

/// The id in a link to an element of the same instance.
fn id_behind(href: &str) -> Option<&str>
    ensures { option_map (λ id. id.now) result ≡ denotation.id_behind href.now }
{
    href.strip_prefix('#')
}

/// A locator.
#[tactic(auto, unfolding(instance_out::specs::Denotation::locator_in))]
fn locator_of(alloc: Global, e: &Element<'_>) -> Result<Option<(Text, Text)>, NoMemory>
    ensures { IfOk result (λ o. o ≡ denotation.locator_in (tree_of e.now)) }
{
    if !is_typed(e, "locator") {
        return Ok(None);
    }
    let Some(label) = xlink_of(e, "label") else {
        return Ok(None);
    };
    let Some(href) = xlink_of(e, "href") else {
        return Ok(None);
    };
    let Some(id) = id_behind(href) else {
        return Ok(None);
    };
    let label = Text::of(alloc, label)?;
    let id = Text::of(alloc, id)?;
    Ok(Some((label, id)))
}

/// The markup of what a footnote holds, links as they are written.
#[tactic(auto, using(crate::proofs::NodeLaws::children_are))]
fn body_of(alloc: Global, e: &Element<'_>) -> Result<Text, NoMemory>
    ensures { IfOk result (λ t. t ≡ markup None [] (tree_of e.now).children) }
{
    let mut body = Text::of(alloc, "")?;
    markup_as_is(alloc, e.children, "", &mut body)?;
    Ok(body)
}

/// A footnote.
#[tactic(auto, unfolding(instance_out::specs::Denotation::footnote_in, ix_base::specs::Namespaces::xml_namespace))]
fn footnote_of(alloc: Global, e: &Element<'_>) -> Result<Option<Footnote>, NoMemory>
    ensures { IfOk result (λ o. o ≡ denotation.footnote_in (tree_of e.now)) }
{
    if !is_typed(e, "resource") {
        return Ok(None);
    }
    let Some(id) = xlink_of(e, "label") else {
        return Ok(None);
    };
    let Some(role) = xlink_of(e, "role") else {
        return Ok(None);
    };
    let Some(lang) = attr_of(e, XML, "lang") else {
        return Ok(None);
    };
    Ok(Some(Footnote {
        id: Text::of(alloc, id)?,
        role: Text::of(alloc, role)?,
        title: Text::of_some(alloc, xlink_of(e, "title"))?,
        lang: Text::of(alloc, lang)?,
        body: body_of(alloc, e)?,
    }))
}

/// The id at the label in an attribute of XLink.
fn id_at_end<'a>(ends: &Ends<'a>, e: &Element<'_>, local: &str) -> Option<&'a str>
    ensures { option_map (λ id. id.now) result ≡ end_at (id_at ends.now) local.now (tree_of e.now) }
{
    id_of(ends, xlink_of(e, local)?)
}

/// An arc, with the id at each label.
fn arc_of(alloc: Global, ends: &Ends<'_>, e: &Element<'_>) -> Result<Option<Arc>, NoMemory>
    ensures { IfOk result (λ o. o ≡ arc_by (id_at ends.now) (tree_of e.now)) }
{
    if !is_typed(e, "arc") {
        return Ok(None);
    }
    let Some(arcrole) = xlink_of(e, "arcrole") else {
        return Ok(None);
    };
    let Some(from_id) = id_at_end(ends, e, "from") else {
        return Ok(None);
    };
    let Some(to_id) = id_at_end(ends, e, "to") else {
        return Ok(None);
    };
    let Some(order) = attr_of(e, "", "order") else {
        return Ok(None);
    };
    Ok(Some(Arc {
        arcrole: Text::of(alloc, arcrole)?,
        from_id: Text::of(alloc, from_id)?,
        to_id: Text::of(alloc, to_id)?,
        order: Text::of(alloc, order)?,
    }))
}

impl Reader for LocatorReader {
    type Part = (Text, Text);

    ghost use Rattle.instance_out.specs.Denotation.{locator_in};

    ghost reads = { λ _. locator_in };

    fn read(&self, alloc: Global, e: &Element<'_>) -> Result<Option<(Text, Text)>, NoMemory> {
        locator_of(alloc, e)
    }
}

impl Reader for FootnoteReader {
    type Part = Footnote;

    ghost use Rattle.instance_out.specs.Denotation.{footnote_in};

    ghost reads = { λ _. footnote_in };

    fn read(&self, alloc: Global, e: &Element<'_>) -> Result<Option<Footnote>, NoMemory> {
        footnote_of(alloc, e)
    }
}

impl Reader for ArcReader<'_, '_> {
    type Part = Arc;

    ghost use Rattle.instance_tree.specs.ReaderWords.{arc_by, id_at};

    ghost reads = { λ r. arc_by (id_at r.ends.now) };

    fn read(&self, alloc: Global, e: &Element<'_>) -> Result<Option<Arc>, NoMemory> {
        arc_of(alloc, self.ends, e)
    }
}

/// The arcs among some nodes, if no two of their ends have one label.
fn arcs_of(
    alloc: Global,
    locs: &[(Text, Text)],
    footnotes: &[Footnote],
    nodes: &[Node<'_>],
) -> Result<Option<List<Arc>>, NoMemory>
    ensures { IfOk result (λ o. o ≡ arcs_in (denotation.ends_of locs.now footnotes.now) (nodes_of nodes.now)) }
{
    let ends = ends_of(alloc, locs, footnotes)?;
    match table_of(alloc, ends.as_slice())? {
        Some(table) => read_links(alloc, &ArcReader { ends: &table }, nodes, "footnoteArc"),
        None => Ok(None),
    }
}

/// The ids to which locators lead.
fn ids_of(alloc: Global, locs: List<(Text, Text)>) -> Result<List<Text>, NoMemory>
    ensures { IfOk result (λ ids. ids ≡ map (λ l. l.1) locs) }
{
    let mut ids = List::new(alloc);
    for (_, id) in locs.into_vec() {
        ids.push(id)?;
    }
    Ok(ids)
}

/// A footnote link of this role, from its locators and footnotes.
fn link_of(
    alloc: Global,
    role: &str,
    locs: List<(Text, Text)>,
    footnotes: List<Footnote>,
    nodes: &[Node<'_>],
) -> Result<Option<NoteLink>, NoMemory>
    ensures { IfOk result (λ o. o ≡ link_by role.now locs footnotes (nodes_of nodes.now)) }
{
    let Some(arcs) = arcs_of(alloc, locs.as_slice(), footnotes.as_slice(), nodes)? else {
        return Ok(None);
    };
    Ok(Some(NoteLink {
        role: Text::of(alloc, role)?,
        locs: ids_of(alloc, locs)?,
        footnotes,
        arcs,
    }))
}

/// A footnote link.
#[tactic(auto, unfolding(instance_out::specs::Denotation::notes_in))]
fn notes_of(alloc: Global, e: &Element<'_>) -> Result<Option<NoteLink>, NoMemory>
    ensures { IfOk result (λ o. o ≡ denotation.notes_in (tree_of e.now)) }
{
    if !is_typed(e, "extended") {
        return Ok(None);
    }
    let Some(role) = xlink_of(e, "role") else {
        return Ok(None);
    };
    let Some(locs) = read_links(alloc, &LocatorReader, e.children, "loc")? else {
        return Ok(None);
    };
    let Some(footnotes) = read_links(alloc, &FootnoteReader, e.children, "footnote")? else {
        return Ok(None);
    };
    link_of(alloc, role, locs, footnotes, e.children)
}

impl Reader for LinkReader {
    type Part = NoteLink;

    ghost use Rattle.instance_out.specs.Denotation.{notes_in};

    ghost reads = { λ _. notes_in };

    fn read(&self, alloc: Global, e: &Element<'_>) -> Result<Option<NoteLink>, NoMemory> {
        notes_of(alloc, e)
    }
}
