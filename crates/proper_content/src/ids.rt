//! Ids.
ghost use Rattle.std.specs.Prelude.{◌≡◌, ◌++◌, map, option_map, IfOk};
ghost use Rattle.std.specs.List.{list_all};
ghost use Rattle.std.specs.List.Sorted.{IsPermutation};
ghost use Rattle.ix_base.specs.NcName.{is_ncname as is_ncname_text};
ghost use Rattle.ix_base.specs.PlainContents.{said_of};
ghost use Rattle.proper_texts.specs.Model.{IsHeld};
ghost use Rattle.proper_content.specs.Notes.{note_seen};
ghost use Rattle.instance_out.specs.Proper as proper;
ghost use Rattle.instance_out.specs.Proper.{all_ids, counted_once};
ghost use Rattle.instance_lines.specs.Tables.{values_of};

use crate::gathered::names_of;
use crate::order::are_apart;
use ix_base::{Content, Footnote, NoMemory, Text, shown};
use proper_texts::Held;
use scopes::is_ncname;
use std::alloc::Global;

/// A footnote as it is told apart from others.
#[derive(Clone, Copy, PartialEq, Eq, PartialOrd, Ord)]
pub struct NoteKey<'a> {
    pub id: &'a str,
    pub role: &'a str,
    pub title: Option<&'a str>,
    pub lang: &'a str,
    pub body: &'a str,
}

/// Leaves of each footnote one.
fn keep_once(notes: &mut Vec<NoteKey>)
    ensures { IsPermutation (counted_once (map note_seen notes.old.items)) (map note_seen notes.new.items) }
{
    notes.sort_unstable();
    notes.dedup();
}

/// A footnote's key.
fn key_of(note: &Footnote) -> NoteKey<'_>
    ensures { note_seen result ≡ note.now }
{
    NoteKey {
        id: note.id.as_str(),
        role: note.role.as_str(),
        title: shown(&note.title),
        lang: note.lang.as_str(),
        body: note.body.as_str(),
    }
}

/// The keys of footnotes.
fn keys_of<'a>(alloc: Global, notes: &[&'a Footnote]) -> Result<Vec<NoteKey<'a>>, NoMemory>
    ensures { IfOk result (λ v. map note_seen v.items ≡ values_of notes.now) }
{
    let mut keys = Vec::new(alloc);
    for note in notes {
        keys.push(key_of(note))?;
    }
    Ok(keys)
}

/// The ids of footnotes by their keys.
fn key_ids<'a>(alloc: Global, keys: &[NoteKey<'a>]) -> Result<Vec<&'a str>, NoMemory>
    ensures { IfOk result (λ v. values_of v.items ≡ map (λ f. f.id) (map note_seen keys.now)) }
{
    let mut ids = Vec::new(alloc);
    for key in keys {
        ids.push(key.id)?;
    }
    Ok(ids)
}

/// The ids of footnotes, of which those that are the same count as one.
fn note_ids<'a>(alloc: Global, notes: &[&'a Footnote]) -> Result<Vec<&'a str>, NoMemory>
    ensures { IfOk result (λ v. IsPermutation (map (λ f. f.id) (counted_once (values_of notes.now))) (values_of v.items)) }
{
    let mut keys = keys_of(alloc, notes)?;
    keep_once(&mut keys);
    let ids = key_ids(alloc, keys.as_slice())?;
    Ok(ids)
}

/// All ids of a content, in some order.
fn ids_in<'a>(
    alloc: Global,
    content: &'a Content,
    held: &Held<'a>,
) -> Result<Vec<&'a str>, NoMemory>
    requires { IsHeld (said_of content.now) held.now }
    ensures { IfOk result (λ v. IsPermutation (all_ids (said_of content.now)) (values_of v.items)) }
{
    let mut ids = names_of(alloc, content.contexts.as_slice())?;
    let mut units = names_of(alloc, content.units.as_slice())?;
    let mut notes = note_ids(alloc, held.notes.as_slice())?;
    ids.append(&mut units)?;
    ids.extend_from_slice(held.ids.as_slice())?;
    ids.append(&mut notes)?;
    Ok(ids)
}

fn are_ncnames(ids: &[&str]) -> bool
    ensures { result ≡ list_all is_ncname_text (values_of ids.now) }
{
    for id in ids {
        if !is_ncname(id) {
            return false;
        }
    }
    true
}

/// Whether ids are NCNames, and none stands twice. Footnotes that are the same count as one. The cost of n ids is that of
/// sorts: n log n comparisons.
#[tactic(auto, unfolding(instance_out::specs::Proper::ids_fit))]
pub(crate) fn ids_fit(alloc: Global, content: &Content, held: &Held) -> Result<bool, NoMemory>
    requires { IsHeld (said_of content.now) held.now }
    ensures { IfOk result (λ b. b ≡ proper.ids_fit (said_of content.now)) }
{
    let ids = ids_in(alloc, content, held)?;
    if !are_ncnames(ids.as_slice()) {
        return Ok(false);
    }
    Ok(are_apart(ids))
}
