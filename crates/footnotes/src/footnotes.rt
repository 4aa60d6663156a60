//! The footnotes of a link, each with its markup.
ghost use Rattle.std.specs.Prelude.{◌≡◌, ◌++◌, ◌∷◌, [], ℕ, List as Items, Some, None, OnOk, IfOk, codes, map, filter, option_map, length};
ghost use Rattle.std.specs.List.{filter_map};
ghost use Rattle.std.specs.Option.{option_map_or};
ghost use Rattle.ix_base.specs.Elements.{path_above, path_of};
ghost use Rattle.ix_base.specs.LinkRules as rules_of;
ghost use Rattle.ix_base.specs.LocatedElements.{located, base_in};
ghost use Rattle.ix_base.specs.Markup.{markup_along};
ghost use Rattle.ix_base.specs.Once.{in_order};
ghost use Rattle.ix_base.specs.Readers as reader;
ghost use Rattle.ix_base.specs.SortedLists.{text_cmp};
ghost use Rattle.ix_base.specs.Token.{token_of};
ghost use Rattle.ix_base.specs.Trees.{tree_of};
ghost use Rattle.id_table.specs.Tables.{all_located, AreOnOwnPages};
ghost use Rattle.footnotes.specs.ArcGroups.{arcs_along, group_arcs};
ghost use Rattle.footnotes.specs.ArcLinks.{chain_kept, end_footnotes, kept_at, last_called, note_in, texts_of};
ghost use Rattle.footnotes.specs.FootnoteLinks as footnote_links;
ghost use Rattle.footnotes.specs.FootnoteLinks.{label};
ghost use Rattle.footnotes.specs.Model.{AreOnPages};

use crate::arcs::{ArcGroup, label_of};
use crate::relationships::is_footnote;
use continuations::Chains;
use escape_text::markup;
use ix_base::{
    Element, Footnote, List, NoMemory, Spot, Text, attr_of, each_once, token, token_at, xml_lang,
};
use scopes::Bases;
use std::alloc::Global;
use text_map::TextMap;

/// The role of footnotes that name none.
const FOOTNOTE_ROLE: &str = "http://www.xbrl.org/2003/role/footnote";

fn footnote_role<'a>(spot: &Spot<'a>) -> &'a str
    ensures { result.now ≡ footnote_links.footnote_role (located spot.now) }
{
    match token_at(spot.element, "footnoteRole") {
        Some(role) => role,
        None => FOOTNOTE_ROLE,
    }
}

/// The `xml:lang` of an element, or of the nearest one around it that has one.
#[tactic(auto, using(crate::proofs::LangLaws::lang_none, crate::proofs::LangLaws::lang_some))]
fn lang_from<'a>(first: Option<&'a Spot<'a>>) -> Option<&'a str>
    ensures { option_map (λ s. s.now) result ≡ reader.lang_along (path_above first.entry) }
{
    let mut at = first;
    while let Some(around) = at {
        if let Some(lang) = xml_lang(around.element) {
            return Some(lang);
        }
        at = around.up;
    }
    None
}

/// The language of a footnote.
fn lang_of<'a>(spot: &'a Spot<'a>) -> &'a str
    ensures { result.now ≡ option_map_or token_of (reader.lang_along (path_of (located spot.entry.now).placed)) [] }
{
    match lang_from(Some(spot)) {
        Some(lang) => token(lang),
        None => "",
    }
}

/// The title of a footnote as it is written.
fn title_of(alloc: Global, e: &Element<'_>) -> Result<Option<Text>, NoMemory>
    ensures { IfOk result (λ o. o ≡ reader.attr (codes "title") (tree_of e.now)) }
{
    Text::of_some(alloc, attr_of(e, "", "title"))
}

/// The chain that is kept for an element.
fn chain_of<'a>(chains: &Chains<'a>, spot: &Spot<'a>) -> &'a [&'a Spot<'a>]
    ensures chain { all_located result.now ≡ chain_kept chains.now (located spot.now) }
    ensures pages { AreOnOwnPages result.now }
{
    if chains.has(spot) {
        chains.of(spot)
    } else {
        &[]
    }
}

/// The markup of the chain that is kept for an element, with no namespace around it.
fn body_of<'a>(
    alloc: Global,
    spot: &Spot<'a>,
    chains: &Chains<'a>,
    bases: &Bases,
) -> Result<Text, NoMemory>
    requires { AreOnPages chains.now (length bases.now.pages) }
    ensures { IfOk result (λ t. t
        ≡ markup_along (λ x. Some (base_in bases.now.pages x)) [] (chain_kept chains.now (located spot.now))) }
{
    let mut body = Text::of(alloc, "")?;
    markup(alloc, chain_of(chains, spot), bases, "", &mut body)?;
    Ok(body)
}

/// The id and the role of a footnote.
fn names_of(alloc: Global, spot: &Spot<'_>) -> Result<(Text, Text), NoMemory>
    ensures id { IfOk result (λ n. n.0 ≡ label (located spot.now)) }
    ensures role { IfOk result (λ n. n.1 ≡ footnote_links.footnote_role (located spot.now)) }
{
    let id = Text::of(alloc, label_of(spot))?;
    let role = Text::of(alloc, footnote_role(spot))?;
    Ok((id, role))
}

/// A footnote, with the markup of the chain that is kept for it.
fn footnote_of<'a>(
    alloc: Global,
    spot: &'a Spot<'a>,
    chains: &Chains<'a>,
    bases: &Bases,
) -> Result<Footnote, NoMemory>
    requires { AreOnPages chains.now (length bases.now.pages) }
    ensures { IfOk result (λ f. f ≡ note_in (base_in bases.now.pages) chains.now (located spot.entry.now)) }
{
    let (id, role) = names_of(alloc, spot)?;
    let title = title_of(alloc, spot.element)?;
    let lang = Text::of(alloc, lang_of(spot))?;
    let body = body_of(alloc, spot, chains, bases)?;
    Ok(Footnote {
        id,
        role,
        title,
        lang,
        body,
    })
}

/// Elements by their ids.
type Called<'a> = TextMap<'a, &'a Spot<'a>>;

/// Adds an element at the end, where it is a footnote.
fn push_if_footnote<'a>(spot: &'a Spot<'a>, notes: &mut Vec<&'a Spot<'a>>) -> Result<(), NoMemory>
    ensures { OnOk result (all_located notes.new.items
        ≡ all_located notes.old.items ++ filter rules_of.is_footnote (located spot.entry.now ∷ [])) }
{
    if is_footnote(spot) {
        notes.push(spot)?;
    }
    Ok(())
}

/// Adds the footnotes to which the arcs of a group go.
fn push_notes<'a>(group: &ArcGroup<'a>, notes: &mut Vec<&'a Spot<'a>>) -> Result<(), NoMemory>
    ensures { OnOk result (all_located notes.new.items ≡ all_located notes.old.items ++ end_footnotes (group_arcs group.now)) }
{
    for to in group.ends {
        push_if_footnote(*to, notes)?;
    }
    Ok(())
}

/// The footnotes to which the arcs of some groups go.
fn notes_of<'a>(alloc: Global, groups: &[ArcGroup<'a>]) -> Result<Vec<&'a Spot<'a>>, NoMemory>
    ensures { IfOk result (λ v. all_located v.items ≡ end_footnotes (arcs_along groups.now)) }
{
    let mut notes = Vec::new(alloc);
    for group in groups {
        push_notes(group, &mut notes)?;
    }
    Ok(notes)
}

/// The ids of some elements.
fn ids_of<'a>(alloc: Global, spots: &[&'a Spot<'a>]) -> Result<Vec<&'a str>, NoMemory>
    ensures { IfOk result (λ v. texts_of v.items ≡ map label (all_located spots.now)) }
{
    let mut ids = Vec::new(alloc);
    for spot in spots {
        ids.push(label_of(spot))?;
    }
    Ok(ids)
}

/// Some elements by their ids.
fn called_of<'a>(alloc: Global, spots: &[&'a Spot<'a>]) -> Result<Called<'a>, NoMemory>
    ensures { IfOk result (λ m. (id : Items ℕ) → option_map (λ s. located s.now) (kept_at m id)
        ≡ last_called id (all_located spots.now) None) }
{
    let mut called = TextMap::new(alloc);
    for spot in spots {
        called.insert(label_of(spot), *spot)?;
    }
    Ok(called)
}

/// Adds the footnote of an id at the end, where there is one.
fn push_called<'a>(
    alloc: Global,
    called: &Called<'a>,
    id: &str,
    chains: &Chains<'a>,
    bases: &Bases,
    footnotes: &mut List<Footnote>,
) -> Result<(), NoMemory>
    requires { AreOnPages chains.now (length bases.now.pages) }
    ensures { OnOk result (footnotes.new ≡ footnotes.old ++ map (note_in (base_in bases.now.pages) chains.now)
        (filter_map (λ id. option_map (λ s. located s.now) (kept_at called.now id)) (id.now ∷ []))) }
{
    match called.get(id) {
        Some(spot) => footnotes.push(footnote_of(alloc, *spot, chains, bases)?),
        None => Ok(()),
    }
}

/// The footnotes of some ids.
fn footnotes_at<'a>(
    alloc: Global,
    called: &Called<'a>,
    ids: &[&str],
    chains: &Chains<'a>,
    bases: &Bases,
) -> Result<List<Footnote>, NoMemory>
    requires { AreOnPages chains.now (length bases.now.pages) }
    ensures { IfOk result (λ l. l ≡ map (note_in (base_in bases.now.pages) chains.now)
        (filter_map (λ id. option_map (λ s. located s.now) (kept_at called.now id)) (texts_of ids.now))) }
{
    let mut footnotes = List::new(alloc);
    for id in ids {
        push_called(alloc, called, id, chains, bases, &mut footnotes)?;
    }
    Ok(footnotes)
}

/// The ids of some elements in order, each once.
fn ids_once<'a>(alloc: Global, spots: &[&'a Spot<'a>]) -> Result<Vec<&'a str>, NoMemory>
    ensures { IfOk result (λ v. texts_of v.items ≡ in_order text_cmp (map label (all_located spots.now))) }
{
    let mut ids = ids_of(alloc, spots)?;
    each_once(&mut ids);
    Ok(ids)
}

/// Some footnotes by their ids, each once.
fn footnotes_by_id<'a>(
    alloc: Global,
    notes: &[&'a Spot<'a>],
    chains: &Chains<'a>,
    bases: &Bases,
) -> Result<List<Footnote>, NoMemory>
    requires { AreOnPages chains.now (length bases.now.pages) }
    ensures { IfOk result (λ l. l ≡ map (note_in (base_in bases.now.pages) chains.now)
        (filter_map (λ id. last_called id (all_located notes.now) None)
        (in_order text_cmp (map label (all_located notes.now))))) }
{
    let ids = ids_once(alloc, notes)?;
    let called = called_of(alloc, notes)?;
    footnotes_at(alloc, &called, ids.as_slice(), chains, bases)
}

/// The footnotes to which the arcs of some groups go, by their ids, each once.
pub(crate) fn footnotes_of<'a>(
    alloc: Global,
    groups: &[ArcGroup<'a>],
    chains: &Chains<'a>,
    bases: &Bases,
) -> Result<List<Footnote>, NoMemory>
    requires { AreOnPages chains.now (length bases.now.pages) }
    ensures { let notes = end_footnotes (arcs_along groups.now) in
        IfOk result (λ l. l ≡ map (note_in (base_in bases.now.pages) chains.now)
        (filter_map (λ id. last_called id notes None) (in_order text_cmp (map label notes)))) }
{
    let notes = notes_of(alloc, groups)?;
    footnotes_by_id(alloc, notes.as_slice(), chains, bases)
}
