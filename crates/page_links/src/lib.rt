//! The pages of a set, how the links between their elements stand as pages come, and what is chosen for ids that several elements have.
//!
//! `Links` keeps of each id that was met how it stands, and how many links name it, so that an element or a link that comes is looked up
//! once. `choose_from` lets the first of several contexts or units that agree, by the names of their pages, stand for their id.
#![tactic(auto)]

mod agreeing;
mod choosing;
mod met_ids;
mod pages;
mod standing;

pub use agreeing::PageNames;
pub use choosing::choose_from;
pub use pages::{Page, Pages};
pub use standing::Links;
