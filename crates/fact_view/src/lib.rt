//! What the attributes of a fact say.
#![tactic(auto)]

mod facts;

pub use facts::{FactView, fact_name, target_of, view};
