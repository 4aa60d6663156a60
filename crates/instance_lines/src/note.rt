//! Writing footnote links.
ghost use Rattle.std.specs.Prelude.{◌≡◌, ◌++◌, map, IfOk, OnOk};
ghost use Rattle.std.specs.List.{concat};
ghost use Rattle.std.specs.Ordering.{on};
ghost use Rattle.ix_base.specs.Once.{in_order};
ghost use Rattle.ix_base.specs.SortedLists.{sorted, text_cmp};
ghost use Rattle.instance_lines.specs.Canonical.{line, link_markup};
ghost use Rattle.instance_lines.specs.Elements.{arc_text, footnote_text, locator_text};
ghost use Rattle.instance_lines.specs.Gains.{Gains};
ghost use Rattle.instance_lines.specs.Tables.{values_of};

use crate::markup::{Valued, push_close, push_leaf, push_plain, push_start};
use crate::sort::{Keyed, by_keys, sort_texts, views_of};
use ix_base::{Arc, Footnote, NoMemory, NoteLink, Text, each_once, shown};
use std::alloc::Global;

/// The locator of a fact by its id.
fn locator_of(alloc: Global, id: &str) -> Result<Text, NoMemory>
    ensures { IfOk result (λ t. t ≡ locator_text id.now) }
{
    let mut href = Text::of(alloc, "#")?;
    href.push(id)?;
    let attributes = [
        Valued {
            name: "xlink:type",
            value: Some("locator"),
        },
        Valued {
            name: "xlink:href",
            value: Some(href.as_str()),
        },
        Valued {
            name: "xlink:label",
            value: Some(id),
        },
    ];
    let mut out = Text::of(alloc, "")?;
    push_leaf("link:loc", &attributes, &mut out)?;
    Ok(out)
}

/// A footnote. Its body is markup already.
pub fn footnote_of(alloc: Global, footnote: &Footnote) -> Result<Text, NoMemory>
    ensures { IfOk result (λ t. t ≡ footnote_text footnote.now) }
{
    let attributes = [
        Valued {
            name: "xlink:type",
            value: Some("resource"),
        },
        Valued {
            name: "xlink:label",
            value: Some(footnote.id.as_str()),
        },
        Valued {
            name: "xlink:role",
            value: Some(footnote.role.as_str()),
        },
        Valued {
            name: "xlink:title",
            value: shown(&footnote.title),
        },
        Valued {
            name: "xml:lang",
            value: Some(footnote.lang.as_str()),
        },
    ];
    let mut out = Text::of(alloc, "")?;
    push_start("link:footnote", &attributes, &mut out)?;
    push_plain(footnote.body.as_str(), &mut out)?;
    push_close("link:footnote", &mut out)?;
    Ok(out)
}

/// An arc.
pub fn arc_of(alloc: Global, arc: &Arc) -> Result<Text, NoMemory>
    ensures { IfOk result (λ t. t ≡ arc_text arc.now) }
{
    let attributes = [
        Valued {
            name: "xlink:type",
            value: Some("arc"),
        },
        Valued {
            name: "xlink:arcrole",
            value: Some(arc.arcrole.as_str()),
        },
        Valued {
            name: "xlink:from",
            value: Some(arc.from_id.as_str()),
        },
        Valued {
            name: "xlink:to",
            value: Some(arc.to_id.as_str()),
        },
        Valued {
            name: "order",
            value: Some(arc.order.as_str()),
        },
    ];
    let mut out = Text::of(alloc, "")?;
    push_leaf("link:footnoteArc", &attributes, &mut out)?;
    Ok(out)
}

/// The locators of facts by their ids, in order, each once.
fn locators_of(alloc: Global, ids: &[Text]) -> Result<Vec<Text>, NoMemory>
    ensures { IfOk result (λ v. v.items ≡ map locator_text (in_order text_cmp ids.now)) }
{
    let mut once = views_of(alloc, ids)?;
    each_once(&mut once);
    locators_to(alloc, once.as_slice())
}

/// The locators of facts by their ids.
fn locators_to(alloc: Global, ids: &[&str]) -> Result<Vec<Text>, NoMemory>
    ensures { IfOk result (λ v. v.items ≡ map locator_text (values_of ids.now)) }
{
    let mut locators = Vec::new(alloc);
    for id in ids {
        let text = locator_of(alloc, id)?;
        locators.push(text)?;
    }
    Ok(locators)
}

/// Footnotes, by id.
fn footnotes_of(alloc: Global, footnotes: &[Footnote]) -> Result<Vec<Text>, NoMemory>
    ensures { IfOk result (λ v. v.items ≡ map footnote_text (sorted (on (λ f. f.id) text_cmp) footnotes.now)) }
{
    let mut keyed = Vec::new(alloc);
    for footnote in footnotes {
        let key = Text::of(alloc, footnote.id.as_str())?;
        let item = footnote_of(alloc, footnote)?;
        keyed.push(Keyed { key, item })?;
    }
    by_keys(alloc, keyed)
}

/// Arcs, in order.
fn arcs_of(alloc: Global, arcs: &[Arc]) -> Result<Vec<Text>, NoMemory>
    ensures { IfOk result (λ v. v.items ≡ sorted text_cmp (map arc_text arcs.now)) }
{
    let mut texts = Vec::new(alloc);
    for arc in arcs {
        let text = arc_of(alloc, arc)?;
        texts.push(text)?;
    }
    sort_texts(&mut texts);
    Ok(texts)
}

/// Appends texts as they stand, and gives them up.
fn push_texts(texts: Vec<Text>, out: &mut Text) -> Result<(), NoMemory>
    ensures { OnOk result (Gains out.old out.new (λ more. concat texts.items ++ more)) }
{
    for text in &texts {
        push_plain(text.as_str(), out)?;
    }
    Ok(())
}

/// Appends the locators, the footnotes and the arcs of a footnote link.
fn push_link(alloc: Global, link: &NoteLink, out: &mut Text) -> Result<(), NoMemory>
    ensures { OnOk result (Gains out.old out.new (λ more. concat (map locator_text (in_order text_cmp link.now.locs))
        ++ (concat (map footnote_text (sorted (on (λ f. f.id) text_cmp) link.now.footnotes))
        ++ (concat (sorted text_cmp (map arc_text link.now.arcs)) ++ more)))) }
{
    let locators = locators_of(alloc, link.locs.as_slice())?;
    push_texts(locators, out)?;
    let footnotes = footnotes_of(alloc, link.footnotes.as_slice())?;
    push_texts(footnotes, out)?;
    let arcs = arcs_of(alloc, link.arcs.as_slice())?;
    push_texts(arcs, out)?;
    Ok(())
}

/// The line of a footnote link.
fn link_line(alloc: Global, link: &NoteLink) -> Result<Text, NoMemory>
    ensures { IfOk result (λ t. t ≡ line (link_markup link.now)) }
{
    let attributes = [
        Valued {
            name: "xlink:type",
            value: Some("extended"),
        },
        Valued {
            name: "xlink:role",
            value: Some(link.role.as_str()),
        },
    ];
    let mut out = Text::of(alloc, "")?;
    push_start("link:footnoteLink", &attributes, &mut out)?;
    push_link(alloc, link, &mut out)?;
    push_close("link:footnoteLink", &mut out)?;
    out.push("\n")?;
    Ok(out)
}

/// The lines of footnote links, by role.
pub fn link_lines(alloc: Global, links: &[NoteLink]) -> Result<Vec<Text>, NoMemory>
    ensures { IfOk result (λ v. v.items ≡ map (λ x. line (link_markup x)) (sorted (on (λ l. l.role) text_cmp) links.now)) }
{
    let mut keyed = Vec::new(alloc);
    for link in links {
        let key = Text::of(alloc, link.role.as_str())?;
        let item = link_line(alloc, link)?;
        keyed.push(Keyed { key, item })?;
    }
    by_keys(alloc, keyed)
}
