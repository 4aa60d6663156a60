//! The rules of elements.
#![tactic(auto)]

mod attributes;
mod children;
mod contents;
mod given;
mod kinds;
mod nested;
mod page;
mod parts;
mod places;
mod references;
mod rules;
mod sound;
mod spaces;
mod subject;

pub use page::check_page;
pub use rules::check;
