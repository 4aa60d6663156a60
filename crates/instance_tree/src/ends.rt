//! The ends of arcs: what arcs name by labels.
ghost use Rattle.std.specs.Prelude.{◌≡◌, ℕ, List, Some, not, if◌then◌else◌, bytes_eq, is_some, map, option_map, IfOk, IfSome};
ghost use Rattle.instance_out.specs.Denotation as denotation;
ghost use Rattle.instance_lines.specs.Lists.{are_apart};
ghost use Rattle.instance_tree.specs.ReaderWords.{HasEnds, end_of, id_at, labels_of};

use ix_base::{Footnote, NoMemory, Text};
use std::alloc::Global;
use text_map::TextMap;

/// A label, and the id of what has it.
#[derive(Clone, Copy)]
pub(super) struct End<'a> {
    pub label: &'a str,
    pub id: &'a str,
}

/// The id at each label.
pub(super) type Ends<'a> = TextMap<'a, &'a str>;

/// The id at a label. It takes no memory.
pub(super) fn id_of<'a>(ends: &Ends<'a>, label: &str) -> Option<&'a str>
    ensures { option_map (λ id. id.now) result ≡ id_at ends.now label.now }
{
    ends.get(label).copied()
}

/// Puts an id at a label, in the place of another, and tells whether there was none.
fn put<'a>(ends: &mut Ends<'a>, end: End<'a>) -> Result<bool, NoMemory>
    ensures new { IfOk result (λ new. new ≡ not (is_some (id_at ends.old end.entry.label.now))) }
    ensures ids { IfOk result (λ _. (q : List ℕ) → id_at ends.new q
        ≡ (if bytes_eq q end.entry.label.now then Some end.entry.id.now else id_at ends.old q)) }
{
    let is_new = ends.get(end.label).is_none();
    ends.insert(end.label, end.id)?;
    Ok(is_new)
}

/// The ids at the labels of some ends, if no two have one label. The ends are put from the last to the first.
pub(super) fn table_of<'a>(alloc: Global, ends: &[End<'a>]) -> Result<Option<Ends<'a>>, NoMemory>
    ensures apart { IfOk result (λ o. is_some o ≡ are_apart (labels_of (map end_of ends.now))) }
    ensures ids { IfOk result (λ o. IfSome o (λ table. HasEnds table (map end_of ends.now))) }
{
    let mut table = TextMap::new(alloc);
    let mut left = ends.len();
    while left > 0 {
        left -= 1;
        if !put(&mut table, ends[left])? {
            return Ok(None);
        }
    }
    Ok(Some(table))
}

/// The ends of the arcs of a link, from its locators and footnotes.
pub(super) fn ends_of<'a>(
    alloc: Global,
    locs: &'a [(Text, Text)],
    footnotes: &'a [Footnote],
) -> Result<Vec<End<'a>>, NoMemory>
    ensures { IfOk result (λ v. map end_of v.items ≡ denotation.ends_of locs.now footnotes.now) }
{
    let mut ends = Vec::new(alloc);
    for loc in locs {
        ends.push(End {
            label: loc.0.as_str(),
            id: loc.1.as_str(),
        })?;
    }
    for footnote in footnotes {
        let id = footnote.id.as_str();
        ends.push(End { label: id, id })?;
    }
    Ok(ends)
}
