//! Which texts name pages.
#![tactic(auto)]

mod name;

pub use name::is_page_name;
