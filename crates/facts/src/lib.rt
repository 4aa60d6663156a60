//! What the items of a set say, the rules of values that they break, and the contexts and units that they miss.
#![tactic(auto)]

mod exact;
mod fault;
mod format;
mod fraction;
mod item;
pub mod laws;
mod links;
mod number;

pub use fault::ItemFault;
pub use fraction::part_in;
pub use item::{item_of, value_rule};
pub use links::refs_of;
pub use number::innermost;
