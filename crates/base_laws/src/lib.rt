//! Laws of reports and of contents, over what `ix_base` says of them.
#![tactic(auto)]

pub mod contents;
pub mod reports;
