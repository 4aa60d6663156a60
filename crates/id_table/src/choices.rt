//! What was chosen for ids that several elements have.
ghost use Rattle.std.specs.Prelude.{◌≡◌, ℕ, List, OnOk, IfSome, Some, None, true, if◌then◌else◌, bytes_eq};
ghost use Rattle.ix_base.specs.Asks.{only};
ghost use Rattle.ix_base.specs.Ids as ids;
ghost use Rattle.ix_base.specs.LocatedElements.{located};
ghost use Rattle.id_table.specs.Tables.{choice_at, entry_for};

use crate::entries::{Entry, entry_of, only_in};
use ix_base::{NoMemory, Spot};
use link_ids::id_at;
use text_map::TextMap;

/// What was chosen for ids.
pub type Choices<'a> = TextMap<'a, &'a Spot<'a>>;

/// What was chosen for an id.
pub fn choice_in<'a>(choices: &Choices<'a>, id: &str) -> Option<&'a Spot<'a>>
    ensures { result ≡ choice_at choices.now id.now }
{
    match choices.get(id) {
        Some(spot) => Some(*spot),
        None => None,
    }
}

/// Lets a choice stand for an id that it has, or takes it away.
pub fn set_choice<'a>(
    choices: &mut Choices<'a>,
    id: &str,
    choice: Option<&'a Spot<'a>>,
) -> Result<(), NoMemory>
    requires { IfSome choice (λ s. ids.holds_id id.now (located s.now) ≡ true) }
    ensures { OnOk result ((q : List ℕ) → choice_at choices.new q ≡ (if bytes_eq q id.now then choice.entry else choice_at choices.old q)) }
{
    let Some(spot) = choice else {
        choices.remove(id);
        return Ok(());
    };
    match id_at(spot) {
        Some(own) => choices.insert(own, spot),
        None => unreachable!(),
    }
}

/// What was chosen, or else the only one.
pub fn chosen_or_only<'a>(choice: Option<&'a Spot<'a>>, held: &[Entry<'a>]) -> Option<Entry<'a>>
    ensures chosen { IfSome choice.entry (λ s. result ≡ Some (entry_for s)) }
    ensures only { choice.entry ≡ None → result ≡ only held.now }
{
    match choice {
        Some(spot) => Some(entry_of(spot)),
        None => only_in(held),
    }
}
