//! Things moved into an order, in place.
#![tactic(auto)]

mod reorder;

pub use reorder::put_in_order;
