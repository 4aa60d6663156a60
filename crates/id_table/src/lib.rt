//! The elements of a set of pages that links, facts and contents speak of, found by id, and lists of them, found by place.
#![tactic(auto)]

mod chain_element;
mod choices;
mod doubled;
mod entries;
mod holders;
mod index;
mod kept;
pub mod laws;
mod lists;
mod named;
mod slice;
mod slices;
mod tables;

pub use chain_element::ChainElement;
pub use entries::Entry;
pub use holders::{Holders, count_in, enter, one_in};
pub use index::Index;
pub use named::NamedIds;
pub use slice::Slice;
pub use slices::{Slices, enter_slice, slice_in};
