//! Refusals, by which building a tree ends.
use ix_base::{NoMemory, Rule};

/// Why a construct isn't built in.
#[derive(Clone, Copy, Debug)]
pub(crate) enum Refusal {
    /// It breaks this rule, and none that is lower.
    Breaks(Rule),
    /// Want of memory.
    NoMemory,
}

impl From<NoMemory> for Refusal {
    ghost use Rattle.std.specs.Prelude.{◌≡◌};
    ghost use Rattle.page_tree.specs.declared.refusal.Refusal.TheVariants as refusal;

    ghost from_gives = { λ _ r. r ≡ refusal.NoMemory };

    fn from(_error: NoMemory) -> Refusal {
        Refusal::NoMemory
    }
}
