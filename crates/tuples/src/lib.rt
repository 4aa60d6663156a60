//! Tuples: which tuple owns a fact, and the members of a tuple.
//!
//! `membership` finds the owner of each fact once, sorts the facts once by their orders, and enters them in that order at
//! the places of their owners, so that the members of each tuple come in order; whether two of them have one order takes a
//! logarithm of their number. From each tuple it follows up to 100 owners, to see whether too many stand one above the
//! other. Where the index says that the set has no tuples, it looks at no fact. `Members::of` is one look-up by place,
//! `Members::owner` one by tuple id or a walk up the page; both take no memory.
#![tactic(auto)]

mod decimals;
mod equal_orders;
mod fact;
mod facts;
mod groups;
pub mod laws;
mod linking;
mod members;
mod owners;
mod rules;
mod slices;
mod sorting;

pub use linking::membership;
pub use members::Members;
