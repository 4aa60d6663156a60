//! Reading a set of pages, piece by piece, and what a command makes of its pages: the outcome of the set, a page without its inline
//! markup, or where the texts of items stand.
#![tactic(auto)]

mod command_pages;
mod judge;
mod lines;
mod made_pages;
mod open_page;
mod plain;
mod read_pages;
mod trace;
mod verdict;

pub use command_pages::gathered;
pub use lines::{cannot_read, sample_text};
pub use read_pages::{Forest, Stopped};
pub use verdict::{Verdict, verdict_from, verdict_of};
