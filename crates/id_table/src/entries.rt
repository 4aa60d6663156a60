//! Tables from an id to the elements that have it, each with its kind.
ghost use Rattle.std.specs.Prelude.{◌≡◌, ◌++◌, ◌∷◌, [], IfOk, OnOk, option_map};
ghost use Rattle.ix_base.specs.Asks.{only};
ghost use Rattle.ix_base.specs.Elements.{placed};
ghost use Rattle.ix_base.specs.Ids as ids;
ghost use Rattle.ix_base.specs.Kinds as kinds;
ghost use Rattle.ix_base.specs.LocatedElements.{located};
ghost use Rattle.id_table.specs.Tables.{IsEntered, entries_at, entries_of, entry_for, is_shared};

use ix_base::{Kind, NoMemory, Spot, kind_of};
use link_ids::id_at;
use std::alloc::Global;
use std::slice::from_ref;
use text_map::TextMap;

/// An element that was found, with its kind.
#[derive(Clone, Copy)]
pub struct Entry<'a> {
    pub kind: Kind,
    pub spot: &'a Spot<'a>,
}

/// The elements with one id, in the order in which they were met. Hardly an id has more than one, and one takes no memory of its own.
#[derive(Drop)]
pub enum Sharers<'a> {
    One(Entry<'a>),
    Several(Vec<Entry<'a>>),
}

/// The elements with each id, each with its kind.
pub type Entries<'a> = TextMap<'a, Sharers<'a>>;

impl<'a> Sharers<'a> {
    fn as_slice(&self) -> &[Entry<'a>]
        ensures { result.now ≡ entries_of self.now }
    {
        match self {
            Sharers::One(entry) => from_ref(entry),
            Sharers::Several(entries) => entries.as_slice(),
        }
    }

    /// They, and one more.
    fn with(self, alloc: Global, entry: Entry<'a>) -> Result<Sharers<'a>, NoMemory>
        ensures { IfOk result (λ s. entries_of s ≡ entries_of self.entry ++ entry.entry ∷ []) }
    {
        let mut entries = match self {
            Sharers::One(first) => {
                let mut entries = Vec::new(alloc);
                entries.push(first)?;
                entries
            }
            Sharers::Several(entries) => entries,
        };
        entries.push(entry)?;
        Ok(Sharers::Several(entries))
    }
}

/// An element with its kind.
pub fn entry_of<'a>(spot: &'a Spot<'a>) -> Entry<'a>
    ensures { result ≡ entry_for spot.entry }
{
    Entry {
        kind: kind_of(spot),
        spot,
    }
}

/// Enters an element of a kind at its id, where it has one. Says whether another has it, too.
pub fn enter_entry<'a>(
    alloc: Global,
    entries: &mut Entries<'a>,
    spot: &'a Spot<'a>,
    kind: Kind,
) -> Result<bool, NoMemory>
    requires { kind ≡ kinds.kind_of (placed spot.now) }
    ensures entered { OnOk result (IsEntered entries.old entries.new (ids.id_of (located spot.entry.now)) spot.entry) }
    ensures shared { IfOk result (λ s. s ≡ is_shared (entries_at entries.new) (ids.id_of (located spot.entry.now))) }
{
    let Some(id) = id_at(spot) else {
        return Ok(false);
    };
    let entry = Entry { kind, spot };
    let Some(before) = entries.replace(id, Sharers::One(entry))? else {
        return Ok(false);
    };
    let sharers = before.with(alloc, entry)?;
    let is_shared = sharers.as_slice().len() > 1;
    entries.insert(id, sharers)?;
    Ok(is_shared)
}

/// The elements at an id; those of an id that no element has are `none`.
pub fn entries_in<'m, 'a>(
    entries: &'m Entries<'a>,
    none: &'m Vec<Entry<'a>>,
    id: &str,
) -> &'m [Entry<'a>]
    requires { none.now.items ≡ [] }
    ensures { result.now ≡ entries_at entries.now id.now }
{
    match entries.get(id) {
        Some(sharers) => sharers.as_slice(),
        None => none.as_slice(),
    }
}

/// The only one of some elements.
pub fn only_in<'a>(entries: &[Entry<'a>]) -> Option<Entry<'a>>
    ensures { result ≡ only entries.now }
{
    match entries {
        [entry] => Some(*entry),
        _ => None,
    }
}

/// The entry of a spot.
pub fn entry_at<'a>(spot: Option<&'a Spot<'a>>) -> Option<Entry<'a>>
    ensures { result ≡ option_map entry_for spot.entry }
{
    match spot {
        Some(spot) => Some(entry_of(spot)),
        None => None,
    }
}
