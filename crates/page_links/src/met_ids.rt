//! The ids that were met, each with how it stands and how many links name it.
ghost use Rattle.std.specs.Prelude.{◌≡◌, ℕ, List, OnOk, IfOk, if◌then◌else◌, bytes_eq};
ghost use Rattle.page_links.specs.LinkTables as tables;
ghost use Rattle.page_links.specs.LinkTables.{AreFirstOnPages, IsFirstOnPage, named_of, named_in};

use crate::agreeing::Standing;
use ix_base::NoMemory;
use text_map::TextMap;

/// How an id stands, and how many links name it.
#[derive(Clone, Copy)]
pub(crate) struct Named<'a> {
    pub(crate) standing: Standing<'a>,
    pub(crate) links: u64,
}

/// The ids that were met.
pub(crate) type Names<'a> = TextMap<'a, Named<'a>>;

/// What is known of an id.
pub(crate) fn known<'a>(names: &Names<'a>, id: &str) -> Named<'a>
    ensures named { named_of result ≡ named_in names.now id.now }
    ensures page { AreFirstOnPages names.now → IsFirstOnPage result.standing }
{
    match names.get(id) {
        Some(named) => *named,
        None => Named {
            standing: Standing::Pending,
            links: 0,
        },
    }
}

/// One more link names an id: what was known of the id before.
pub(crate) fn name_once_more<'a>(names: &mut Names<'a>, id: &'a str) -> Result<Named<'a>, NoMemory>
    ensures before { IfOk result (λ n. named_of n ≡ named_in names.old id.entry.now) }
    ensures kept { OnOk result ((q : List ℕ) → named_in names.new q
        ≡ (if bytes_eq q id.entry.now then tables.named_once_more (named_in names.old q) else named_in names.old q)) }
    ensures pages { AreFirstOnPages names.old → OnOk result (AreFirstOnPages names.new) }
{
    let before = known(names, id);
    let links = before.links.checked_add(1).ok_or(NoMemory)?;
    let standing = before.standing;
    names.insert(id, Named { standing, links })?;
    Ok(before)
}
