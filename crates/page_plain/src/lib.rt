//! A page without its inline markup.
#![tactic(auto)]

mod attrs;
mod names;
mod page;
mod prefixes;
mod spaces;

pub use page::plain_page;
