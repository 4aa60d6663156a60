//! The rules on continuations, and the chains.
ghost use Rattle.std.specs.Prelude.{◌≡◌, ◌++◌, OnOk, OnErr, IfOk};
ghost use Rattle.ix_base.specs.Fronts.{AppendsFront};
ghost use Rattle.ix_base.specs.declared.rule.Rule.TheVariants.{L4, L5, L6, L7};
ghost use Rattle.ix_base.specs.LinkRules.{breaking};
ghost use Rattle.continuations.specs.Model.{AreChainsOf};
ghost use Rattle.continuations.specs.Links.{AreLinks};

use crate::chains::{Chains, chains_of, no_chains};
use crate::links::{Links, links_of};
use crate::named::{add_lacking, add_named_twice};
use crate::reached::{add_inside, add_unreached};
use bumpalo::Bump;
use id_table::Index;
use ix_base::{Breaches, NoMemory};
use std::alloc::Global;

/// Adds exactly the breaches of the rules on continuations.
fn add_breaches<'a>(
    index: &Index<'a>,
    links: &Links<'a>,
    breaches: &mut Breaches,
) -> Result<(), NoMemory>
    requires { AreLinks index.now.spots links.now }
    ensures ok { OnOk result (breaches.new ≡ breaches.old ++ breaking L4 index.now.spots ++ breaking L5 index.now.spots
        ++ breaking L6 index.now.spots ++ breaking L7 index.now.spots) }
    ensures err { OnErr result (AppendsFront (breaking L4 index.now.spots ++ breaking L5 index.now.spots
        ++ breaking L6 index.now.spots ++ breaking L7 index.now.spots) breaches.old breaches.new) }
{
    add_lacking(index, links, breaches)?;
    add_named_twice(index, links, breaches)?;
    add_unreached(index, links, breaches)?;
    add_inside(index, links, breaches)
}

/// The chains, where no rule on continuations is broken. It adds exactly the breaches of these rules.
fn chains_if_sound<'a>(
    arena: &'a Bump,
    index: &Index<'a>,
    links: &Links<'a>,
    breaches: &mut Breaches,
) -> Result<Chains<'a>, NoMemory>
    requires { AreLinks index.now.spots links.now }
    ensures chains { IfOk result (λ c. breaches.new ≡ breaches.old → AreChainsOf c index.now.spots) }
    ensures ok { OnOk result (breaches.new ≡ breaches.old ++ breaking L4 index.now.spots ++ breaking L5 index.now.spots
        ++ breaking L6 index.now.spots ++ breaking L7 index.now.spots) }
    ensures err { OnErr result (AppendsFront (breaking L4 index.now.spots ++ breaking L5 index.now.spots
        ++ breaking L6 index.now.spots ++ breaking L7 index.now.spots) breaches.old breaches.new) }
{
    let before = breaches.len();
    add_breaches(index, links, breaches)?;
    if breaches.len() > before {
        return Ok(no_chains(links.alloc));
    }
    chains_of(arena, index, links)
}

/// Adds exactly the breaches of the rules on continuations, and gives the chains, where it adds none. Where it adds any,
/// it makes no chains. After a refusal a front of the breaches may have been added.
pub fn link<'a>(
    alloc: Global,
    arena: &'a Bump,
    index: &Index<'a>,
    breaches: &mut Breaches,
) -> Result<Chains<'a>, NoMemory>
    ensures breaches { OnOk result (breaches.new ≡ breaches.old ++ breaking L4 index.now.spots ++ breaking L5 index.now.spots
        ++ breaking L6 index.now.spots ++ breaking L7 index.now.spots) }
    ensures err { OnErr result (AppendsFront (breaking L4 index.now.spots ++ breaking L5 index.now.spots
        ++ breaking L6 index.now.spots ++ breaking L7 index.now.spots) breaches.old breaches.new) }
    ensures chains { IfOk result (λ c. breaches.new ≡ breaches.old → AreChainsOf c index.now.spots) }
{
    let links = links_of(alloc, index)?;
    chains_if_sound(arena, index, &links, breaches)
}
