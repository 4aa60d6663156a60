//! The faults of items.

use ix_base::{NoMemory, Rule};
use thiserror::Error;
use tr4_dates::TrFault;

/// Why an item says nothing.
#[derive(Clone, Copy, Debug, PartialEq, Eq, Error)]
pub enum ItemFault {
    /// It breaks a rule of values, and none that is lower.
    #[error("a rule of values is broken")]
    Breach(Rule),
    /// Want of memory.
    #[error("no memory is left")]
    NoMemory,
}

impl From<NoMemory> for ItemFault {
    ghost use Rattle.std.specs.Prelude.{◌≡◌};
    ghost use Rattle.facts.specs.declared.fault.ItemFault.TheVariants as fault;

    ghost from_gives = { λ _ f. f ≡ fault.NoMemory };

    fn from(_error: NoMemory) -> ItemFault {
        ItemFault::NoMemory
    }
}

/// A text that isn't in its format breaks V2.
impl From<TrFault> for ItemFault {
    ghost use Rattle.std.specs.Prelude.{◌≡◌};
    ghost use Rattle.facts.specs.Verdicts.{fault_of};

    ghost from_gives = { λ e f. f ≡ fault_of e };

    fn from(error: TrFault) -> ItemFault {
        match error {
            TrFault::NotInGrammar => ItemFault::Breach(Rule::V2),
            TrFault::NoMemory => ItemFault::NoMemory,
        }
    }
}
