//! What a set of pages comes to: the rules that it breaks, or its targets, each with its content.
//!
//! `Set::add_page` enters a page's elements into an index and keeps the page's base. `Set::close` looks for the rules class by
//! class: of elements, on links, of values; where none is broken it makes the contents (`target_contents`). The work grows with the
//! pages and with what is written, beside the sorting of names, ids and lines, and with the depth of the elements where a base or a
//! path is followed.
#![tactic(auto)]

mod at_once;
mod closing;
pub mod laws;
mod set;

pub use at_once::made;
pub use set::Set;
pub use target_contents::{Outcome, Target};
