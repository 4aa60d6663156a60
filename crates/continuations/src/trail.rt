//! Chains, along the numbers of their elements.
ghost use Rattle.std.specs.Prelude.{◌≡◌, ◌<◌, OnOk, Some, length, slice_get};
ghost use Rattle.ix_base.specs.Chain as chains;
ghost use Rattle.ix_base.specs.LocatedElements.{Located};
ghost use Rattle.id_table.specs.Model.{asked};
ghost use Rattle.id_table.specs.Tables.{all_located, AreOnOwnPages};
ghost use Rattle.continuations.specs.Links.{AreLinks};

use crate::links::Links;
use id_table::Index;
use ix_base::{NoMemory, Spot};

/// Puts the chain from a numbered element in the place of what was there.
pub(crate) fn put_chain<'a>(
    index: &Index<'a>,
    links: &Links<'a>,
    from: usize,
    chain: &mut Vec<&'a Spot<'a>>,
) -> Result<(), NoMemory>
    requires links { AreLinks index.now.spots links.now }
    requires from { from < length links.now.spots.items }
    ensures chain { OnOk result ((e : Located) → slice_get (all_located links.now.spots.items) from ≡ Some e
        → all_located chain.new.items ≡ chains.chain (asked index.now) e) }
    ensures pages { OnOk result (AreOnOwnPages chain.new.items) }
{
    chain.clear();
    let mut at = Some(from);
    for _step in 0..links.continuations + 1 {
        let Some(number) = at else {
            return Ok(());
        };
        chain.push(links.spots[number])?;
        at = links.nexts[number];
    }
    Ok(())
}
