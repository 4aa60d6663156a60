//! Where the text of each fact stands.
//!
//! A tracer takes pages with their trees, and tells of each item which pieces of the pages its text is made of. Each text element
//! is walked from construct to construct, from its tag to its end tag, once for each item whose text it is: beside the depth of
//! text elements within text elements, a page is walked once, whatever number of facts it has. Chains are made once, and an item
//! finds its own by a hash.
#![tactic(auto)]

mod elements;
mod items;
pub mod laws;
mod moves;
mod order;
mod page;
mod span;
mod tracer;
mod walk;

pub use span::{Span, Traced};
pub use tracer::Tracer;
