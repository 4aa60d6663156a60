//! What is chosen for ids that several contexts, or several units, have that agree.
ghost use Rattle.std.specs.Prelude.{◌≡◌, ◌≤◌, ℕ, List, OnOk, IfSome, false, length, option_map, take, if◌then◌else◌};
ghost use Rattle.ix_base.specs.Ids.{holds_id};
ghost use Rattle.ix_base.specs.LocatedElements.{located};
ghost use Rattle.ix_base.specs.Spots.{IsOnOnePage};
ghost use Rattle.id_table.specs.Model.{chosen};
ghost use Rattle.page_links.specs.Choices.{HasChoices, choice};
ghost use Rattle.page_links.specs.LinkTables.{AreLinks};

use crate::standing::Links;
use id_table::Index;
use ix_base::{NoMemory, Spot};
use link_ids::id_at;

/// What is to be chosen for an id: where several elements have it and agree, the first of them.
fn choice_for<'a>(index: &Index<'a>, links: &Links<'a>, id: &str) -> Option<&'a Spot<'a>>
    ensures element { (names : ℕ → List ℕ) → AreLinks names index.now.spots links.now
        → option_map (λ s. located s.now) result ≡ choice names index.now.spots id.now }
    ensures page { (names : ℕ → List ℕ) → AreLinks names index.now.spots links.now → IfSome result (λ s. IsOnOnePage s.now) }
{
    if index.holders(id).len() < 2 {
        return None;
    }
    links.first(id)
}

/// Chooses for the id of an element, where it has one.
fn choose_at<'a>(index: &mut Index<'a>, links: &Links<'a>, spot: &Spot<'a>) -> Result<(), NoMemory>
    requires { (names : ℕ → List ℕ) × AreLinks names index.old.spots links.now }
    ensures spots { OnOk result ((index.new.spots ≡ index.old.spots) × (index.old.is_spent ≡ false → index.new.is_spent ≡ false)) }
    ensures choices { (names : ℕ → List ℕ) → AreLinks names index.old.spots links.now → OnOk result ((q : List ℕ)
        → chosen index.new q ≡ (if holds_id q (located spot.now) then choice names index.old.spots q else chosen index.old q)) }
{
    let Some(id) = id_at(spot) else {
        return Ok(());
    };
    let choice = choice_for(index, links, id);
    index.choose(id, choice)
}

/// Chooses for the ids of the elements from this number on.
pub fn choose_from<'a>(
    index: &mut Index<'a>,
    links: &Links<'a>,
    first: usize,
) -> Result<(), NoMemory>
    requires links { (names : ℕ → List ℕ) × AreLinks names index.old.spots links.now }
    requires first { first ≤ length index.old.spots }
    ensures spots { OnOk result ((index.new.spots ≡ index.old.spots) × (index.old.is_spent ≡ false → index.new.is_spent ≡ false)) }
    ensures choices { (names : ℕ → List ℕ) → AreLinks names index.old.spots links.now
        → HasChoices names (take first index.old.spots) index.old → OnOk result (HasChoices names index.old.spots index.new) }
{
    if !index.has_repeats() {
        return Ok(());
    }
    for at in first..index.spots().len() {
        let spot = index.spots()[at];
        choose_at(index, links, spot)?;
    }
    Ok(())
}
