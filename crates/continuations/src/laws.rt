//! A law of chains, for the crates that rest on them.
ghost use Rattle.std.specs.Prelude.{◌≡◌, ℕ, List, true, Some, Contains};
ghost use Rattle.ix_base.specs.Asks.{asks};
ghost use Rattle.ix_base.specs.Chain.{chain};
ghost use Rattle.ix_base.specs.LocatedElements.{Located, is_start, offset_of};
ghost use Rattle.continuations.specs.Model.{chain_at, AreChainsOf, StartsAlone};

/// Where chains were made from some elements, and no other one of these with which a chain begins is at the place of a
/// nonNumeric or footnote among them, `Chains::of` may be asked for it, and what stands at its place is its chain. Pages of
/// different numbers, each a sound root, have no two elements at one place.
pub fn kept_chain()
    ensures { (cs : List ((ℕ × ℕ) × List Located)) (es : List Located) (e : Located) → AreChainsOf cs es → Contains es e
        → is_start e ≡ true → StartsAlone es e → chain_at cs e.page (offset_of e) ≡ Some (chain (asks es) e) }
{}
